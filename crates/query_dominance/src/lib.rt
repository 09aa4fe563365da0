// Whether one value dominates another in a column of a block's rows: with each row that has the other there, the block is given the row that has
// the one.
//
// The head's variable in that column becomes another value, and the rest of a valuation stays. So each fact that an atom with the variable can be
// needs a fact with the other value in its place. A variable that stands only once may become anything: its column does not matter.
#![tactic(auto)]

ghost use Rattle.std.specs.Prelude.{◌≡◌, true, false, ◌+◌, ◌*◌, ◌/◌, ◌<◌, min, length};
ghost use Rattle.query_layout.specs.Layout.{block_width, names};
ghost use Rattle.sheet_format.specs.Limits.{most_atoms};
ghost use Rattle.query_dominance.specs.Dominance.{Dominates, OtherTerm, Lone, LoneColumns, ColumnFollows, Replaces, Replaced, Without, AtomDominates, HeadOnce};

use query_layout::{BLOCK_NUMBERS, COLUMNS, FACT_NUMBERS, HEAD_AT, NAMES};

// Whether the term at a place stands at place k besides.
fn stands_at(blk: &[usize; BLOCK_NUMBERS], at: usize, k: usize) -> bool
    requires { (at < block_width) × (k < block_width) }
    ensures { result ≡ false → OtherTerm blk.now at k }
{
    if blk[k] != blk[at] {
        return false;
    }
    if k == at {
        return false;
    }
    if HEAD_AT <= k {
        return true;
    }
    k % FACT_NUMBERS != 0
}

// Whether the term at a place is a variable that stands at no other.
fn is_lone(blk: &[usize; BLOCK_NUMBERS], at: usize) -> bool
    requires { at < block_width }
    ensures { result ≡ true → Lone blk.now at }
{
    if NAMES <= blk[at] {
        return false;
    }
    for k in 0..BLOCK_NUMBERS {
        if stands_at(blk, at, k) {
            return false;
        }
    }
    true
}

// The columns of atom j whose variables stand nowhere else.
fn lone_columns(blk: &[usize; BLOCK_NUMBERS], j: usize) -> [bool; 4]
    requires { j < most_atoms }
    ensures { LoneColumns blk.now j result }
{
    let mut free = [false; 4];
    for c in 0..COLUMNS {
        free[c] = is_lone(blk, j * FACT_NUMBERS + 1 + c);
    }
    free
}

// Whether a column with term t can have another value where variable y becomes b. One that is free can have any.
fn column_follows(free: bool, t: usize, y: usize, b: usize, old: usize, new: usize) -> bool
    ensures { result ≡ true → free ≡ false → ColumnFollows t y b old new }
{
    if free {
        return true;
    }
    if t == y {
        return new == b;
    }
    new == old
}

// Whether atom j can be fact g instead of fact i where variable y becomes b. The marked columns do not matter.
fn replaces(
    blk: &[usize; BLOCK_NUMBERS],
    j: usize,
    facts: &[usize],
    i: usize,
    g: usize,
    y: usize,
    b: usize,
    free: [bool; 4],
) -> bool
    requires j_lt_most_atoms { (j < most_atoms) × (i < length facts.now / 5) × (g < length facts.now / 5) }
    requires lone_columns { LoneColumns blk.now j free }
    ensures { result ≡ true → Replaces blk.now facts.now j y b i g }
{
    if facts[g * FACT_NUMBERS] != facts[i * FACT_NUMBERS] {
        return false;
    }
    for c in 0..COLUMNS {
        let t = blk[j * FACT_NUMBERS + 1 + c];
        let old = facts[i * FACT_NUMBERS + 1 + c];
        let new = facts[g * FACT_NUMBERS + 1 + c];
        if !column_follows(free[c], t, y, b, old, new) {
            return false;
        }
    }
    true
}

// Whether atom j can be another fact instead of fact i where variable y becomes b.
fn is_replaced(
    blk: &[usize; BLOCK_NUMBERS],
    j: usize,
    facts: &[usize],
    i: usize,
    y: usize,
    b: usize,
    free: [bool; 4],
) -> bool
    requires j_lt_most_atoms { (j < most_atoms) × (i < length facts.now / 5) }
    requires lone_columns { LoneColumns blk.now j free }
    ensures { result ≡ true → Replaced blk.now facts.now j y b i }
{
    for g in 0..facts.len() / FACT_NUMBERS {
        if replaces(blk, j, facts, i, g, y, b, free) {
            return true;
        }
    }
    false
}

// Whether variable y stands in atom j.
fn has(blk: &[usize; BLOCK_NUMBERS], j: usize, y: usize) -> bool
    requires { j < most_atoms }
    ensures { result ≡ false → Without blk.now j y }
{
    for c in 0..COLUMNS {
        if blk[j * FACT_NUMBERS + 1 + c] == y {
            return true;
        }
    }
    false
}

// Whether each fact that atom j can be where variable y is a can be replaced where y becomes b.
fn all_replaced(
    blk: &[usize; BLOCK_NUMBERS],
    j: usize,
    facts: &[usize],
    y: usize,
    a: usize,
    b: usize,
) -> bool
    requires { (j < most_atoms) × (y < names) }
    ensures { result ≡ true → AtomDominates blk.now facts.now j y a b }
{
    let free = lone_columns(blk, j);
    let set = query_join::only(y);
    let vals = [a; NAMES];
    for i in 0..facts.len() / FACT_NUMBERS {
        if query_join::fit_of(blk, j, facts, i, &set, &vals, &set) == query_join::FIT {
            if !is_replaced(blk, j, facts, i, y, b, free) {
                return false;
            }
        }
    }
    true
}

// The same, and with no walk over the facts where y does not stand in the atom.
fn atom_dominates(
    blk: &[usize; BLOCK_NUMBERS],
    j: usize,
    facts: &[usize],
    y: usize,
    a: usize,
    b: usize,
) -> bool
    requires { (j < most_atoms) × (y < names) }
    ensures { result ≡ true → AtomDominates blk.now facts.now j y a b }
{
    if has(blk, j, y) {
        return all_replaced(blk, j, facts, y, a, b);
    }
    true
}

// Whether the head's term in column p stands in no other column.
fn is_once(blk: &[usize; BLOCK_NUMBERS], p: usize) -> bool
    requires { p < 4 }
    ensures { result ≡ true → HeadOnce blk.now p }
{
    for q in 0..COLUMNS {
        if q != p {
            if blk[HEAD_AT + q] == blk[HEAD_AT + p] {
                return false;
            }
        }
    }
    true
}

/// Whether b dominates a in column p of the rows, by a look at each atom alone.
pub fn dominates(
    blk: &[usize; BLOCK_NUMBERS],
    n: usize,
    facts: &[usize],
    p: usize,
    a: usize,
    b: usize,
) -> bool
    ensures { result ≡ true → Dominates blk.now (min n most_atoms) facts.now p a b }
{
    if COLUMNS <= p {
        return false;
    }
    let y = blk[HEAD_AT + p];
    if NAMES <= y {
        return false;
    }
    if !is_once(blk, p) {
        return false;
    }
    let few = query_join::few_atoms(n);
    for j in 0..few {
        if !atom_dominates(blk, j, facts, y, a, b) {
            return false;
        }
    }
    true
}
