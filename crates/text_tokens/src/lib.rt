// A text's tokens one after the other, and what each stands for.
#![tactic(auto)]

ghost use Rattle.std.specs.Prelude.{◌≡◌, ◌≤◌, ◌<◌, length, IfSome, unwrap_or};
ghost use Rattle.text_writer.specs.Texts.{relation_names};
ghost use Rattle.sheet_format.specs.Limits.{field_end};
ghost use Rattle.text_tokens.specs.Ends.{TokenBegins, TokenEnds, Skipped};
ghost use Rattle.text_meaning.specs.Tokens.{token_kind, is_letter, is_in_word, joins};
ghost use Rattle.text_meaning.specs.Names.{are_same_bytes, number_longer, number_from, number_named, among, beyond, relation_named, token_value, letter_in, token_mark};
ghost use Rattle.text_meaning.specs.Numbers.{letter_number, mark_of};

use sheet_format::FIELD_END;
use text_begins::blanks;
use text_meaning::{Mark, NAMED_RELATIONS};
use text_writer::name;

// What may have one digit more lies below this.
const SHORTER: usize = FIELD_END as usize / 10;

// The kind of the token that begins with a byte: "a" for a word, "A" for a relation, "0" for a number, any other byte for itself.
#[tactic(auto, unfolding(text_meaning::specs::Tokens::token_kind))]
fn kind_of(b: u8) -> u8
    ensures { result ≡ token_kind b }
{
    match b {
        b'a'..=b'z' => b'a',
        b'A'..=b'Z' => b'A',
        b'0'..=b'9' => b'0',
        _ => b,
    }
}

// Whether a byte of a kind goes on with a token of another.
#[tactic(auto, unfolding(text_meaning::specs::Tokens::joins))]
fn joins(kind: u8, next: u8) -> bool
    ensures { result ≡ joins kind next }
{
    if is_letter(kind) {
        return is_in_word(next);
    }
    kind == b'0' && next == b'0'
}

// Whether a byte of a kind goes on with a word.
fn is_in_word(kind: u8) -> bool
    ensures { result ≡ is_in_word kind }
{
    is_letter(kind) || kind == b'0'
}

// Whether a kind is that of letters.
fn is_letter(kind: u8) -> bool
    ensures { result ≡ is_letter kind }
{
    kind == b'a' || kind == b'A'
}

/// Where the token at a place ends.
pub fn token_end(text: &[u8], at: usize) -> usize
    requires { TokenBegins text.now at }
    ensures { TokenEnds text.now at result }
{
    let kind = kind_of(text[at]);
    for e in at + 1..text.len() {
        if !joins(kind, kind_of(text[e])) {
            return e;
        }
    }
    text.len()
}

/// The first place from `at` on that has no blank.
pub fn skip(text: &[u8], at: usize) -> usize
    requires { at ≤ length text.now }
    ensures { Skipped text.now at result }
{
    at + blanks(&text[at..])
}

/// Whether two words are the same.
#[tactic(auto, using(crate::proofs::Names::same_bytes))]
pub fn are_equal(a: &[u8], b: &[u8]) -> bool
    ensures { result ≡ are_same_bytes a.now b.now }
{
    a == b
}

// A number and one digit more.
#[tactic(auto, unfolding(text_meaning::specs::Names::number_longer))]
fn longer(n: usize, b: u8) -> usize
    ensures { (result ≡ number_longer n b) × (result ≤ field_end) }
{
    match b {
        b'0'..=b'9' if n < SHORTER => n * 10 + (b - b'0') as usize,
        _ => FIELD_END as usize,
    }
}

// The number of digits; one that no field holds where there are too many, or others.
fn number_from(digits: &[u8]) -> usize
    ensures { (result ≡ number_from 0 digits.now) × (result ≤ field_end) }
{
    let mut n = 0;
    for b in digits {
        n = longer(n, *b);
    }
    n
}

// The number of digits, or the largest of a field.
fn number(digits: &[u8]) -> usize
    ensures { result ≡ number_named digits.now }
{
    number_from(digits).min(FIELD_END as usize - 1)
}

// Which of the ten relations a word is the name of.
fn named(word: &[u8]) -> Option<usize>
    ensures number { unwrap_or result 0 ≡ among word.now 1 relation_names }
    ensures counted { IfSome result (λ r. 0 < r) }
{
    for r in 1..=NAMED_RELATIONS {
        if are_equal(word, name(r)) {
            return Some(r);
        }
    }
    None
}

// The relation beyond the ten that a word has the number of.
fn beyond(word: &[u8]) -> Option<usize>
    ensures { unwrap_or result 0 ≡ beyond word.now }
{
    let [b'R', digits @ ..] = word else {
        return None;
    };
    let n = number_from(digits);
    if NAMED_RELATIONS < n && n < FIELD_END as usize {
        return Some(n);
    }
    None
}

// The relation that a word names.
#[tactic(auto, unfolding(text_meaning::specs::Names::relation_named))]
fn relation(word: &[u8]) -> Option<usize>
    ensures { unwrap_or result 0 ≡ relation_named word.now }
{
    named(word).or_else(|| beyond(word))
}

// The number of a token of a kind.
fn value(kind: u8, token: &[u8]) -> usize
    ensures { result ≡ token_value kind token.now }
{
    match kind {
        b'0' => number(token),
        b'A' => relation(token).unwrap_or(0),
        _ => 0,
    }
}

// The byte of a token that has no other.
fn letter(token: &[u8]) -> Option<u8>
    ensures { letter_number result ≡ letter_in token.now }
{
    match token {
        [b] => Some(*b),
        _ => None,
    }
}

/// A token's mark; one without bytes is the end of a line.
pub fn mark(token: &[u8]) -> Mark
    ensures { mark_of result ≡ token_mark token.now }
{
    let [first, ..] = token else {
        return Mark {
            kind: b'\n',
            letter: None,
            value: 0,
        };
    };
    let kind = kind_of(*first);
    Mark {
        kind,
        letter: letter(token),
        value: value(kind, token),
    }
}
