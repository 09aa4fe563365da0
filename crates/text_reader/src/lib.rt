// Reading a text token by token: its number form, or where and what was expected.
#![tactic(auto)]

ghost use Rattle.std.specs.Prelude.{◌≡◌, ◌+◌, ◌≤◌, ◌<◌, length, replicate, pos, negsuc};
ghost use Rattle.text_begins.specs.Begins.{most_text};
ghost use Rattle.text_meaning.specs.Names.{are_same_bytes, place_in};
ghost use Rattle.text_meaning.specs.Numbers.{control_of, mark_of};
ghost use Rattle.sheet_format.specs.Limits.{most_words, most_lines, most_variables};
ghost use Rattle.text_tokens.specs.Ends.{TokenBegins};
ghost use Rattle.text_reader.specs.Held.{name_at, names_at, NamesBegin, ReaderRoom, BegunLine, PutField, WordAt, BlockBegun, PutBy, NotedBy, VariablePut, Marked, HeldSome, EndedBy, TakenBy, ReadAs};
ghost use Rattle.text_meaning.specs.declared.Standing.{Standing};

use sheet_format::{ATOM_KIND, LINE_WORDS, MOST_FIELDS, MOST_LINES, VARIABLES};
use text_meaning::{Expected, Mark, Place, Standing};
use text_places::step;
use text_tokens::{are_equal, mark, skip, token_end};

// The variables of a block that have names: one more is a variable too many, whatever its name.
const NAMED: usize = VARIABLES as usize;

/// How much was read.
#[derive(Clone, Copy, PartialEq, Eq, Debug)]
pub struct Counts {
    /// The line of the text.
    pub line: usize,
    /// The block's variables.
    pub names: usize,
    /// The lines of the number form, one more than a sheet can have standing for any more.
    pub lines: usize,
    /// The fields of the last.
    pub fields: usize,
}

/// Where reading stands, and how much was read.
#[derive(Clone, Copy, PartialEq, Eq, Debug)]
pub struct ReadTo {
    pub standing: Standing,
    pub counts: Counts,
}

/// A token does not fit: where reading stood before it, and what was expected there.
#[derive(Clone, Copy, PartialEq, Eq, Debug)]
pub struct Misfit {
    pub reached: ReadTo,
    pub what: Expected,
}

// One line more in the number form, of a kind; it begins in a line of the text.
fn begin_line(
    words: &mut [i32],
    begun: &mut [usize],
    lines: usize,
    kind: usize,
    line: usize,
) -> usize
    requires { ReaderRoom words.old begun.old × (kind ≤ 5) }
    ensures { BegunLine words.old words.new begun.old begun.new lines kind line result }
{
    if MOST_LINES <= lines {
        return MOST_LINES + 1;
    }
    let at = lines * LINE_WORDS;
    words[at] = 1;
    words[at + 1] = kind as i32;
    begun[lines] = line;
    lines + 1
}

// One field more in the last line.
fn put_field(words: &mut [i32], lines: usize, fields: usize, w: i32) -> usize
    requires { length words.old ≡ most_words }
    ensures { PutField words.old words.new lines fields w result }
{
    if lines == 0 || MOST_FIELDS <= fields {
        return fields;
    }
    if MOST_LINES < lines {
        return fields + 1;
    }
    let at = (lines - 1) * LINE_WORDS;
    words[at] = (fields + 1) as i32;
    words[at + 1 + fields] = w;
    fields + 1
}

// Whether a word is the token at a place of the text.
fn is_same(text: &[u8], at: usize, word: &[u8]) -> bool
    requires { TokenBegins text.now at }
    ensures { result ≡ are_same_bytes word.now (name_at text.now at) }
{
    let e = token_end(text, at);
    are_equal(word, &text[at..e])
}

// The place of a word among the block's names.
fn place(text: &[u8], word: &[u8], names: &[usize], count: usize) -> usize
    requires { (count ≤ length names.now) × NamesBegin text.now names.now count }
    ensures { (result ≡ place_in word.now (names_at text.now names.now count)) × (result ≤ count) }
{
    for i in 0..count {
        if is_same(text, names[i], word) {
            return i;
        }
    }
    count
}

// A line of the number form begins where the token began one; a block's variables are its own.
fn begin(s: Standing, n: Counts, words: &mut [i32], begun: &mut [usize]) -> Counts
    requires { ReaderRoom words.old begun.old × (s.kind ≤ 5) }
    ensures { BlockBegun (control_of s) words.old words.new begun.old begun.new n result }
{
    if !s.begins {
        return n;
    }
    let lines = begin_line(words, begun, n.lines, s.kind, n.line);
    if s.kind < ATOM_KIND {
        return Counts {
            names: 0,
            lines,
            fields: 1,
            ..n
        };
    }
    Counts {
        lines,
        fields: 1,
        ..n
    }
}

// The term of the variable that has a place among the block's.
fn term_at(place: usize) -> i32
    requires { place ≤ most_variables }
    ensures { result ≡ negsuc place }
{
    -((place + 1) as i32)
}

// Notes the name that begins at a place of the text, where its place among the block's is new and there is room.
fn note(names: &mut [usize], count: usize, place: usize, at: usize) -> usize
    requires { length names.old ≡ most_variables }
    ensures { NotedBy names.old names.new count place at result }
{
    if place < count || NAMED <= count {
        return count;
    }
    names[count] = at;
    count + 1
}

// Puts the variable that begins at a place of the text.
fn put_variable(
    text: &[u8],
    at: usize,
    e: usize,
    n: Counts,
    words: &mut [i32],
    names: &mut [usize],
) -> Counts
    requires word_at { WordAt text.now at e × (at < e) }
    requires words_len { (length words.old ≡ most_words) × (length names.old ≡ most_variables) × (n.names ≤ most_variables) × NamesBegin text.now names.old n.names }
    ensures { VariablePut text.now at e words.old words.new names.old names.new n result }
{
    let count = n.names;
    let i = place(text, &text[at..e], names, count);
    let fields = put_field(words, n.lines, n.fields, term_at(i));
    Counts {
        names: note(names, count, i, at),
        fields,
        ..n
    }
}

// Puts the field of a token that has one: a variable's place, or the mark's number.
fn put(
    text: &[u8],
    at: usize,
    e: usize,
    s: Standing,
    m: Mark,
    n: Counts,
    words: &mut [i32],
    names: &mut [usize],
) -> Counts
    requires word_at { WordAt text.now at e × Marked text.now at e (mark_of m) }
    requires words_len { (length words.old ≡ most_words) × (length names.old ≡ most_variables) × (n.names ≤ most_variables) × NamesBegin text.now names.old n.names }
    ensures { PutBy text.now at e (control_of s) (mark_of m) words.old words.new names.old names.new n result }
{
    if !s.puts {
        return n;
    }
    if m.kind == b'a' {
        return put_variable(text, at, e, n, words, names);
    }
    let fields = put_field(words, n.lines, n.fields, m.value as i32);
    Counts { fields, ..n }
}

// Counts the line of the text that a token ends.
fn end_line(m: Mark, n: Counts) -> Counts
    requires { n.line ≤ most_text + 1 }
    ensures { (s : Standing) → EndedBy (control_of s) (mark_of m) n result }
{
    if m.kind != b'\n' {
        return n;
    }
    Counts {
        line: n.line + 1,
        ..n
    }
}

// One token more: the bytes from a place to another.
fn take(
    text: &[u8],
    at: usize,
    e: usize,
    from: ReadTo,
    words: &mut [i32],
    begun: &mut [usize],
    names: &mut [usize],
) -> Result<ReadTo, Misfit>
    requires word_at { WordAt text.now at e × HeldSome text.now words.old begun.old names.old from.counts }
    requires kind_bound { (from.standing.kind ≤ 5) × (from.counts.line ≤ most_text + 1) }
    ensures { TakenBy text.now at e from words.old words.new begun.old begun.new names.old names.new result }
{
    let m = mark(&text[at..e]);
    let s = match step(from.standing, m) {
        Ok(s) => s,
        Err(what) => {
            return Err(Misfit {
                reached: from,
                what,
            });
        }
    };
    let a = begin(s, from.counts, words, begun);
    let b = put(text, at, e, s, m, a, words, names);
    Ok(ReadTo {
        standing: s,
        counts: end_line(m, b),
    })
}

/// Reads a text to its end, or to the first token that does not fit: the lines of its number form, and the lines of the text that they begin in.
pub fn run(text: &[u8], words: &mut [i32], begun: &mut [usize]) -> Result<ReadTo, Misfit>
    requires { (length text.now ≤ most_text) × (words.old ≡ replicate most_words (pos 0)) × (begun.old ≡ replicate most_lines 0) }
    ensures { ReadAs text.now words.new begun.new result }
{
    let mut names = [0usize; NAMED];
    let standing = Standing {
        place: Place::Start,
        block: 0,
        kind: 0,
        relation: 0,
        left: 0,
        bare: false,
        begins: false,
        puts: false,
    };
    let counts = Counts {
        line: 1,
        names: 0,
        lines: 0,
        fields: 0,
    };
    let mut reached = ReadTo { standing, counts };
    let mut at = skip(text, 0);
    while at < text.len() {
        let e = token_end(text, at);
        reached = take(text, at, e, reached, words, begun, &mut names)?;
        at = skip(text, e);
    }
    take(text, at, at, reached, words, begun, &mut names)
}
