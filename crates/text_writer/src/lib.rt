// Numbers, terms and names of relations, as bytes, and what the bytes of texts are. Each function puts bytes at a place of a buffer, and returns
// the place after them; what does not fit is left out.
#![tactic(auto)]

ghost use Rattle.std.specs.Prelude.{◌≡◌, cond, [], ◌∷◌, ◌++◌, eqb};
ghost use Rattle.sheet_format.specs.Line.{natural};
ghost use Rattle.text_buffer.specs.Puts.{Put};
ghost use Rattle.text_buffer.specs.Words.{bytes};
ghost use Rattle.text_writer.specs.Texts.{without_blanks, word_bytes, number_bytes, variable_letter, term_bytes, terms_bytes, name_bytes, relation_bytes};

use sheet_format::{FIELD_END, MOST_SHEET_BYTES, Term};
use text_buffer::{put, put_byte};

/// The room that the text of a sheet, and all that is said in words, want: twice as many bytes as a sheet may have, for the facts of a case.
pub const TEXT_ROOM: usize = MOST_SHEET_BYTES * 2;

// A byte that is no blank.
fn put_unless_blank(out: &mut [u8], at: usize, b: u8) -> usize
    ensures { Put out.old out.new at (without_blanks (b ∷ [])) result }
{
    if b == b' ' {
        return at;
    }
    put_byte(out, at, b)
}

// Bytes without their blanks.
fn put_plain(out: &mut [u8], at: usize, s: &[u8]) -> usize
    ensures { Put out.old out.new at (without_blanks s.now) result }
{
    let mut n = at;
    for b in s {
        n = put_unless_blank(out, n, *b);
    }
    n
}

// A number, which is the digits of its field.
fn put_word(out: &mut [u8], at: usize, w: i32) -> usize
    ensures { Put out.old out.new at (word_bytes w) result }
{
    let field = sheet_fields::field_bytes(w);
    put_plain(out, at, &field)
}

/// Puts a number of at most eight digits; nothing for a longer one.
pub fn put_number(out: &mut [u8], at: usize, n: usize) -> usize
    ensures { Put out.old out.new at (number_bytes n) result }
{
    if n < FIELD_END as usize {
        return put_word(out, at, n as i32);
    }
    at
}

// A variable's letter.
fn variable(index: usize) -> u8
    ensures { result ≡ variable_letter index }
{
    b'a' - 1 + index.clamp(1, 26) as u8
}

/// Puts a term: a variable's letter, or a number.
pub fn put_term(out: &mut [u8], at: usize, w: i32) -> usize
    ensures { Put out.old out.new at (term_bytes w) result }
{
    match sheet_terms::term_of(w) {
        Some(Term::Variable(index)) => put_byte(out, at, variable(index)),
        Some(Term::Constant(_)) => put_word(out, at, w),
        None => put_word(out, at, w),
    }
}

// The term at i, after a comma where it is not the first.
fn put_next(out: &mut [u8], at: usize, w: i32, i: usize) -> usize
    ensures { Put out.old out.new at (cond (eqb i 0) (term_bytes w) (bytes "," ++ term_bytes w)) result }
{
    if i == 0 {
        return put_term(out, at, w);
    }
    let n = put_byte(out, at, b',');
    put_term(out, n, w)
}

/// Puts terms in brackets.
pub fn put_terms(out: &mut [u8], at: usize, terms: &[i32]) -> usize
    ensures { Put out.old out.new at (terms_bytes terms.now) result }
{
    let mut n = put_byte(out, at, b'(');
    for (i, w) in terms.iter().enumerate() {
        n = put_next(out, n, *w, i);
    }
    put_byte(out, n, b')')
}

/// A word as a number, 0 where it is below 0.
pub fn natural(w: i32) -> usize
    ensures { result ≡ natural w }
{
    usize::try_from(w).unwrap_or(0)
}

/// The name of one of the ten relations; no bytes for any other.
pub fn name(relation: usize) -> &'static [u8]
    ensures { result.now ≡ name_bytes relation }
{
    match relation {
        1 => b"Rower",
        2 => b"Strap",
        3 => b"Worn",
        4 => b"Sig",
        5 => b"Beat",
        6 => b"Noise",
        7 => b"Pulse",
        8 => b"Coach",
        9 => b"Seat",
        10 => b"Pause",
        _ => b"",
    }
}

/// Puts a relation's name; one beyond the ten by its number.
pub fn put_relation(out: &mut [u8], at: usize, relation: usize) -> usize
    ensures { Put out.old out.new at (relation_bytes relation) result }
{
    if 10 < relation {
        let n = put_byte(out, at, b'R');
        return put_number(out, n, relation);
    }
    put(out, at, name(relation))
}
