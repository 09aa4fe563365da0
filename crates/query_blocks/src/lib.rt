// The blocks of an accepted sheet in plain numbers, read from the number form: seven words a line.
#![tactic(auto)]

ghost use Rattle.std.specs.Prelude.{◌≡◌, false, ℕ, ◌+◌, ◌/◌, ◌<◌, ◌≤◌, pos, length, get_or, drop};
ghost use Rattle.query_layout.specs.Layout.{block_width};
ghost use Rattle.sheet_format.specs.Limits.{most_atoms};
ghost use Rattle.sheet_format.specs.Table.{Table};
ghost use Rattle.sheet_format.specs.Line.{natural, word_lines};
ghost use Rattle.sheet_format.specs.Cause.{kind_of, is_head, is_atom, atoms, refusal_of};
ghost use Rattle.query_meaning.specs.Blocks.{as_term};
ghost use Rattle.query_encoding.specs.Encoding.{term_number, BlockFound};
ghost use Rattle.query_blocks.specs.Parts.{AcceptedLines, HeadAt, entry_of};

use query_encoding::BLOCK_NUMBERS;
use query_layout::{FACT_NUMBERS, HEAD_AT, NAMES};
use sheet_format::{LINE_WORDS, MOST_ATOMS};

// A block of a sheet in plain numbers: whether there is one, how many atoms it has, its atoms and head.
#[derive(Clone, Copy)]
pub struct Numbers {
    pub some: bool,
    pub atoms: usize,
    pub numbers: [usize; BLOCK_NUMBERS],
}

// A word as a term: a constant from 13 on, a variable by its index.
fn term_number(word: i32) -> usize
    ensures { result ≡ term_number (as_term word) }
{
    if word < 0 {
        return (0 - (word as i64)) as usize;
    }
    (word as usize) + NAMES
}

// A word as a relation; 0 where it is negative.
fn relation_number(word: i32) -> usize
    ensures { result ≡ natural word }
{
    if word < 0 {
        return 0;
    }
    word as usize
}

// The word at a place, 0 past the end.
fn word_at(ws: &[i32], i: usize) -> i32
    ensures { result ≡ get_or ws.now i (pos 0) }
{
    if i < ws.len() {
        return ws[i];
    }
    0
}

// Whether a line whose first field is this is a head.
fn is_head(word: i32) -> bool
    ensures { result ≡ is_head (kind_of word) }
{
    match word {
        1 => true,
        2 => true,
        3 => true,
        -2147483648..=0 | 4..=2147483647 => false,
    }
}

// Whether a line whose first field is this is an atom.
fn is_atom(word: i32) -> bool
    ensures { result ≡ is_atom (kind_of word) }
{
    match word {
        4 => true,
        -2147483648..=3 | 5..=2147483647 => false,
    }
}

// The line of the k-th head, counted from 1; the number of lines where there is none.
fn head_line(ws: &[i32], k: usize) -> usize
    requires { 1 ≤ k }
    ensures { (result ≤ length ws.now / 7) × (AcceptedLines (word_lines ws.now) → HeadAt (word_lines ws.now) k result) }
{
    let n = ws.len() / LINE_WORDS;
    let mut left = k;
    for i in 0..n {
        if is_head(ws[LINE_WORDS * i + 1]) {
            if left == 1 {
                return i;
            }
            left -= 1;
        }
    }
    n
}

// How many atoms there are from a line on, at most six.
fn atom_count(ws: &[i32], from: usize) -> usize
    requires { from ≤ length ws.now / 7 }
    ensures { AcceptedLines (word_lines ws.now) → length (atoms (drop from (word_lines ws.now))) ≤ most_atoms → result ≡ length (atoms (drop from (word_lines ws.now))) }
{
    let n = ws.len() / LINE_WORDS;
    for j in 0..MOST_ATOMS {
        let i = from + j;
        if n <= i {
            return j;
        }
        if !is_atom(ws[LINE_WORDS * i + 1]) {
            return j;
        }
    }
    MOST_ATOMS
}

// Number x of the block whose head is line h.
fn entry(ws: &[i32], h: usize, x: usize) -> usize
    requires { (h < length ws.now / 7) × (x < block_width) }
    ensures { result ≡ entry_of ws.now h x }
{
    if x < HEAD_AT {
        let at = LINE_WORDS * (h + 1 + x / FACT_NUMBERS) + 2;
        if x % FACT_NUMBERS == 0 {
            return relation_number(word_at(ws, at));
        }
        return term_number(word_at(ws, at + x % FACT_NUMBERS));
    }
    term_number(word_at(ws, LINE_WORDS * h + 2 + (x - HEAD_AT)))
}

// All numbers of the block whose head is line h.
fn entries(ws: &[i32], h: usize) -> [usize; BLOCK_NUMBERS]
    requires { h < length ws.now / 7 }
    ensures { (length result ≡ block_width) × ((x : ℕ) → x < block_width → get_or result x 0 ≡ entry_of ws.now h x) }
{
    let mut numbers = [0; BLOCK_NUMBERS];
    for x in 0..BLOCK_NUMBERS {
        numbers[x] = entry(ws, h, x);
    }
    numbers
}

// No block.
fn nothing() -> Numbers
    ensures { result.some ≡ false }
{
    Numbers {
        some: false,
        atoms: 0,
        numbers: [0; BLOCK_NUMBERS],
    }
}

// Block k of an accepted number form: 1 the question, then the lists, then the views.
pub fn block(ws: &[i32], k: usize) -> Numbers
    ensures { (t : Table) → (refusal_of t (word_lines ws.now)).number ≡ 0 → BlockFound t (word_lines ws.now) k result.some result.atoms result.numbers }
{
    if k == 0 {
        return nothing();
    }
    let h = head_line(ws, k);
    if ws.len() / LINE_WORDS <= h {
        return nothing();
    }
    let numbers = entries(ws, h);
    Numbers {
        some: true,
        atoms: atom_count(ws, h + 1),
        numbers,
    }
}
