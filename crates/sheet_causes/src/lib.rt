// Why the lines of a number form are sent back, by a table of relations: the first cause among the lines or at the end, and then cause 8 by heads.
#![tactic(auto)]

ghost use Rattle.std.specs.Prelude.{◌≡◌, false, not, [], ◌+◌, ◌/◌, ◌≤◌, ◌<◌, ltb, length, get_or, drop};
ghost use Rattle.sheet_format.specs.Limits.{line_word_count};
ghost use Rattle.sheet_format.specs.Line.{all, null, word_line, word_lines};
ghost use Rattle.sheet_format.specs.Returns.{refusal_in, seen_of};
ghost use Rattle.sheet_format.specs.Table.{table_in};
ghost use Rattle.sheet_format.specs.Cause.{kind, rest, terms, is_head, is_atom, atoms, occurs, bound, unsafe, heads, start, scan, refusal_of};
ghost use Rattle.sheet_causes.specs.Formed.{FormedLines};

use sheet_format::{Cause, Kind, LINE_WORDS, Refusal, Seen};

// The words of line i, counted from 0.
fn line_at(ws: &[i32], i: usize) -> [i32; LINE_WORDS]
    requires { i < length ws.now / line_word_count }
    ensures { word_line result ≡ get_or (word_lines ws.now) i [] }
{
    let at = LINE_WORDS * i;
    let mut l = [0; LINE_WORDS];
    for j in 0..LINE_WORDS {
        l[j] = ws[at + j];
    }
    l
}

// The field count of a well-formed line: its first word.
fn count(l: [i32; LINE_WORDS]) -> usize
    requires { null (word_line l) ≡ false }
    ensures { (result ≡ length (word_line l)) × (result ≤ 6) }
{
    l[0] as usize
}

// Whether a well-formed line is a head: its first field is 1, 2 or 3.
fn is_head(l: [i32; LINE_WORDS]) -> bool
    requires { null (word_line l) ≡ false }
    ensures { result ≡ is_head (kind (word_line l)) }
{
    let k = l[1];
    match k {
        1 => true,
        2 => true,
        3 => true,
        -2147483648..=0 | 4..=2147483647 => false,
    }
}

// Whether a well-formed line is an atom: its first field is 4.
fn is_atom(l: [i32; LINE_WORDS]) -> bool
    requires { null (word_line l) ≡ false }
    ensures { result ≡ is_atom (kind (word_line l)) }
{
    let k = l[1];
    match k {
        4 => true,
        -2147483648..=3 | 5..=2147483647 => false,
    }
}

// Whether z is among the terms of an atom.
fn occurs_in(l: [i32; LINE_WORDS], z: i32) -> bool
    requires { null (word_line l) ≡ false }
    ensures { result ≡ occurs z (terms (word_line l)) }
{
    let n = count(l);
    for j in 2..n {
        if l[j + 1] == z {
            return true;
        }
    }
    false
}

// Whether z is among the terms of the atoms that start at line i.
fn in_atoms(ws: &[i32], i: usize, z: i32) -> bool
    requires { FormedLines (word_lines ws.now) }
    ensures { result ≡ not (all (λ a. not (occurs z (terms a))) (atoms (drop i (word_lines ws.now)))) }
{
    let n = ws.len() / LINE_WORDS;
    for j in i..n {
        let l = line_at(ws, j);
        if !is_atom(l) {
            return false;
        }
        if occurs_in(l, z) {
            return true;
        }
    }
    false
}

// Whether z is no variable, or one that the atoms that start at line i have.
fn is_bound(ws: &[i32], i: usize, z: i32) -> bool
    requires { FormedLines (word_lines ws.now) }
    ensures { result ≡ bound (atoms (drop i (word_lines ws.now))) z }
{
    if z < 0 {
        return in_atoms(ws, i, z);
    }
    true
}

// Whether the atoms after line i bind each of its terms.
fn all_bound(ws: &[i32], i: usize) -> bool
    requires formed_lines { FormedLines (word_lines ws.now) }
    requires i_in_bounds { i < length ws.now / line_word_count }
    ensures { result ≡ all (bound (atoms (drop (i + 1) (word_lines ws.now)))) (rest (get_or (word_lines ws.now) i [])) }
{
    let l = line_at(ws, i);
    let n = count(l);
    for j in 1..n {
        if !is_bound(ws, i + 1, l[j + 1]) {
            return false;
        }
    }
    true
}

// Whether line i is a head without atoms, or with a variable that none of them has.
fn is_unsafe(ws: &[i32], i: usize) -> bool
    requires formed_lines { FormedLines (word_lines ws.now) }
    requires i_in_bounds { i < length ws.now / line_word_count }
    ensures { result ≡ unsafe (get_or (word_lines ws.now) i []) (atoms (drop (i + 1) (word_lines ws.now))) }
{
    let l = line_at(ws, i);
    if !is_head(l) {
        return false;
    }
    if ws.len() / LINE_WORDS <= i + 1 {
        return true;
    }
    let a = line_at(ws, i + 1);
    if !is_atom(a) {
        return true;
    }
    !all_bound(ws, i)
}

// The refusal of the first unsafe head.
fn by_heads(ws: &[i32]) -> Result<(), Refusal>
    requires { FormedLines (word_lines ws.now) }
    ensures { refusal_in result ≡ heads 1 (word_lines ws.now) }
{
    let n = ws.len() / LINE_WORDS;
    for i in 0..n {
        if is_unsafe(ws, i) {
            return Err(Refusal {
                cause: Cause::UnsafeHead,
                line: i + 1,
            });
        }
    }
    Ok(())
}

// Whether the question or every list is missing, where no line follows.
fn lacks_lists(g: Seen) -> bool
    ensures { result ≡ ltb (seen_of g).block 2 }
{
    matches!(g.block, None | Some(Kind::Question))
}

// The refusal of the first line that has a cause, or of a block that is missing.
fn by_lines(table: &[usize], ws: &[i32]) -> Result<(), Refusal>
    ensures { refusal_in result ≡ scan (table_in table.now) start [] 1 (word_lines ws.now) }
{
    let n = ws.len() / LINE_WORDS;
    let mut g = Seen::default();
    let mut before = [0; LINE_WORDS];
    for i in 0..n {
        let l = line_at(ws, i);
        match sheet_line_causes::step(table, g, &before, &l) {
            Ok(next) => g = next,
            Err(cause) => return Err(Refusal { cause, line: i + 1 }),
        }
        before = l;
    }
    if lacks_lists(g) {
        return Err(Refusal {
            cause: Cause::Misplaced,
            line: 0,
        });
    }
    Ok(())
}

/// Why the lines of a number form are sent back, seven words a line.
pub fn refusal(table: &[usize], ws: &[i32]) -> Result<(), Refusal>
    ensures { refusal_in result ≡ refusal_of (table_in table.now) (word_lines ws.now) }
{
    by_lines(table, ws)?;
    by_heads(ws)
}
