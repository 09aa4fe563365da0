// Keys: two facts of one relation that are alike in its key and not in all columns are a violation. Among facts in plain numbers, and among the
// tableau's atoms under the words of a state, with the words that it rests on.
#![tactic(auto)]

ghost use Rattle.std.specs.Prelude.{◌≡◌, true, ◌+◌, ◌/◌, ◌<◌, ◌≤◌, length};
ghost use Rattle.tableau_layout.specs.Layout.{tableau_atoms};
ghost use Rattle.search_reasons.specs.Reasons.{Place};
ghost use Rattle.search_keys.specs.Keys.{AlikeBy, ClashBy, ClashingFact, KeysBy};
ghost use Rattle.search_keys.specs.Clashes.{column_place, Places, OneBy, ClashAt, ColumnMarked, KeyMarked, ValueMarked, RowMarked, ClashShown};

use query_layout::{COLUMNS, FACT_NUMBERS};
use search_slots::SET_WORDS;
use tableau_layout::{PLAN_NUMBERS, SLOTS, TABLEAU_ATOMS};

// ---- facts in plain numbers

/// Two facts that clash, if there are such.
#[derive(Clone, Copy)]
pub struct Clash {
    pub some: bool,
    pub left: usize,
    pub right: usize,
}

// Whether facts i and k are alike in the first n columns.
fn are_alike(facts: &[usize], i: usize, k: usize, n: usize) -> bool
    requires { (i < length facts.now / 5) × (k < length facts.now / 5) × (n ≤ 4) }
    ensures { AlikeBy result facts.now i k n }
{
    let left = i * FACT_NUMBERS + 1;
    let right = k * FACT_NUMBERS + 1;
    facts[left..left + n] == facts[right..right + n]
}

// Whether facts i and k are alike in their relation's key and not in all columns.
fn is_clash(p: &[usize; PLAN_NUMBERS], facts: &[usize], i: usize, k: usize) -> bool
    requires { (i < length facts.now / 5) × (k < length facts.now / 5) }
    ensures { ClashBy result p.now facts.now i k }
{
    let relation = facts[i * FACT_NUMBERS];
    if relation != facts[k * FACT_NUMBERS] {
        return false;
    }
    let key = tableau_parts::key_of(p, relation);
    if key == 0 || !are_alike(facts, i, k, key) {
        return false;
    }
    !are_alike(facts, i, k, COLUMNS)
}

// The first fact after fact i that clashes with it, if one does.
fn clashing(p: &[usize; PLAN_NUMBERS], facts: &[usize], i: usize) -> Option<usize>
    requires { i < length facts.now / 5 }
    ensures { ClashingFact p.now facts.now i result }
{
    for k in i + 1..facts.len() / FACT_NUMBERS {
        if is_clash(p, facts, i, k) {
            return Some(k);
        }
    }
    None
}

/// Two facts that clash, if there are any.
pub fn first_clash(p: &[usize; PLAN_NUMBERS], facts: &[usize]) -> Clash
    ensures { KeysBy result.some p.now facts.now result.left result.right }
{
    for left in 0..facts.len() / FACT_NUMBERS {
        if let Some(right) = clashing(p, facts, left) {
            return Clash {
                some: true,
                left,
                right,
            };
        }
    }
    Clash {
        some: false,
        left: 0,
        right: 0,
    }
}

// ---- atoms of the tableau

/// The rows of two atoms that have to become one.
#[derive(Clone, Copy)]
pub struct ClashRows {
    pub left: [usize; 4],
    pub right: [usize; 4],
}

// Whether atoms i and k have the same values in the first n columns.
fn are_one(p: &[usize; PLAN_NUMBERS], ws: &[usize; SLOTS], i: usize, k: usize, n: usize) -> bool
    requires { (i < tableau_atoms) × (k < tableau_atoms) × (n ≤ 4) }
    ensures { OneBy result p.now ws.now i k n }
{
    for c in 0..n {
        let a = search_links::place_value(ws, p[i * FACT_NUMBERS + (1 + c)]);
        let b = search_links::place_value(ws, p[k * FACT_NUMBERS + (1 + c)]);
        if a != b {
            return false;
        }
    }
    true
}

/// Whether atoms i and k of the tableau clash in a key.
pub fn are_clashing(p: &[usize; PLAN_NUMBERS], ws: &[usize; SLOTS], i: usize, k: usize) -> bool
    ensures { result ≡ true → ClashAt p.now ws.now i k }
{
    if TABLEAU_ATOMS <= i || TABLEAU_ATOMS <= k {
        return false;
    }
    let relation = p[i * FACT_NUMBERS];
    if relation != p[k * FACT_NUMBERS] {
        return false;
    }
    let key = tableau_parts::key_of(p, relation);
    if key == 0 || !are_one(p, ws, i, k, key) {
        return false;
    }
    !are_one(p, ws, i, k, COLUMNS)
}

// Marks the slots by which atoms i and k have one value in column c: none where they have one term.
fn mark_column(
    p: &[usize; PLAN_NUMBERS],
    ws: &[usize; SLOTS],
    i: usize,
    k: usize,
    c: usize,
    set: &mut [u64; SET_WORDS],
)
    requires { (i < tableau_atoms) × (k < tableau_atoms) × (c < 4) }
    ensures { Place (column_place p.now i c) → Place (column_place p.now k c) → ColumnMarked p.now ws.now i k c set.old set.new }
{
    let a = p[i * FACT_NUMBERS + (1 + c)];
    let b = p[k * FACT_NUMBERS + (1 + c)];
    if a == b {
        return;
    }
    search_reasons::mark_way(ws, a, set);
    search_reasons::mark_way(ws, b, set);
}

// Marks the slots by which atoms i and k have the same values in the first n columns.
fn mark_key(
    p: &[usize; PLAN_NUMBERS],
    ws: &[usize; SLOTS],
    i: usize,
    k: usize,
    n: usize,
    set: &mut [u64; SET_WORDS],
)
    requires { (i < tableau_atoms) × (k < tableau_atoms) × (n ≤ 4) }
    ensures { Places p.now i → Places p.now k → KeyMarked p.now ws.now i k n set.old set.new }
{
    for c in 0..n {
        mark_column(p, ws, i, k, c, set);
    }
}

// Column c of atom i as the row of a node has it: 0 in the key, where the rows are alike; else its value, and the slots by which it has it are marked.
fn mark_value(
    p: &[usize; PLAN_NUMBERS],
    ws: &[usize; SLOTS],
    i: usize,
    key: usize,
    c: usize,
    set: &mut [u64; SET_WORDS],
) -> usize
    requires { (i < tableau_atoms) × (c < 4) }
    ensures { Place (column_place p.now i c) → ValueMarked p.now ws.now i key c set.old set.new result }
{
    if c < key {
        return 0;
    }
    let a = p[i * FACT_NUMBERS + (1 + c)];
    search_reasons::mark_way(ws, a, set);
    search_links::place_value(ws, a)
}

// The row of atom i in a node.
fn mark_row(
    p: &[usize; PLAN_NUMBERS],
    ws: &[usize; SLOTS],
    i: usize,
    key: usize,
    set: &mut [u64; SET_WORDS],
) -> [usize; 4]
    requires { i < tableau_atoms }
    ensures { Places p.now i → RowMarked p.now ws.now i key set.old set.new result }
{
    let a = mark_value(p, ws, i, key, 0, set);
    let b = mark_value(p, ws, i, key, 1, set);
    let c = mark_value(p, ws, i, key, 2, set);
    let d = mark_value(p, ws, i, key, 3, set);
    [a, b, c, d]
}

/// The rows of atoms i and k that a key makes one, and the slots by which it does.
pub fn show(
    p: &[usize; PLAN_NUMBERS],
    ws: &[usize; SLOTS],
    i: usize,
    k: usize,
    set: &mut [u64; SET_WORDS],
) -> ClashRows
    ensures clash_shown { i < tableau_atoms → k < tableau_atoms → Places p.now i → Places p.now k → ClashShown p.now ws.now i k set.new result.left result.right }
    ensures set_len_unchanged { length set.new ≡ length set.old }
{
    if TABLEAU_ATOMS <= i || TABLEAU_ATOMS <= k {
        return ClashRows {
            left: [0; 4],
            right: [0; 4],
        };
    }
    let key = tableau_parts::key_of(p, p[i * FACT_NUMBERS]);
    mark_key(p, ws, i, k, key, set);
    let left = mark_row(p, ws, i, key, set);
    let right = mark_row(p, ws, k, key, set);
    ClashRows { left, right }
}
