//! Which listed rows a row of a view can become, for the search's advice. The listed rows that have a value in a column are a set, found by the value; so a
//! row is looked at column by column, and not listed row by listed row.
#![tactic(auto)]

ghost use Rattle.std.specs.Prelude.{◌<◌};

use query_layout::COLUMNS;
use search_board::{
    Board, COLUMN_PAIRS, FIRST_MADE_UP, FIRSTS, KEYS, ListedRows, Plan, Row, RowSet, Struck,
    listed_row, narrow, slot_of,
};
use search_nogoods::{MEMORY_NUMBERS, MOST_VALUES};
use sheet_format::MOST_VIEWS;
use tableau_layout::SLOTS;

/// Values that slots of the search cannot have, as `search_nogoods` keeps them: a slot and a value for each, and how many there are.
pub type Memory = [usize; MEMORY_NUMBERS];

/// The listed rows that a row can become, and whether it is one of them.
#[derive(Clone, Copy, Debug, Default, PartialEq, Eq)]
pub struct Fitting {
    pub set: RowSet,
    pub is_listed: bool,
}

// ---- the listed rows by their values

// The number of the value x in column c of view v, never 0.
fn key_of(v: usize, c: usize, x: u32) -> u32 {
    if FIRST_MADE_UP <= x {
        return 1;
    }
    narrow((x as usize * MOST_VIEWS + v % MOST_VIEWS) * COLUMNS + c % COLUMNS + 1)
}

// Where the value of this number stands, or is to stand.
fn place_of(listed: &ListedRows, key: u32) -> usize
    ensures { result < KEYS }
{
    let start = key as usize % KEYS;
    for k in 0..KEYS {
        let h = (start + k) % KEYS;
        if listed.keys[h] == key || listed.keys[h] == 0 {
            return h;
        }
    }
    start
}

// The listed rows of view v that have the value x in column c.
fn with_value(listed: &ListedRows, v: usize, c: usize, x: u32) -> RowSet {
    if x == 0 {
        return listed.views[v % MOST_VIEWS].with_zero[c % COLUMNS];
    }
    listed.with_value[place_of(listed, key_of(v, c, x))]
}

// Notes that listed row i of view v has the value x in column c.
fn note_value(listed: &mut ListedRows, v: usize, c: usize, x: u32, i: u8) {
    if x == 0 {
        listed.views[v % MOST_VIEWS].with_zero[c % COLUMNS].insert(i);
        return;
    }
    let key = key_of(v, c, x);
    let h = place_of(listed, key);
    listed.keys[h] = key;
    listed.with_value[h].insert(i);
}

// The pairs of a row's values.
fn pairs(row: &Row) -> [(u32, u32); COLUMN_PAIRS] {
    let [a, b, c, d] = *row;
    [(a, b), (a, c), (a, d), (b, c), (b, d), (c, d)]
}

// Notes listed row i of view v.
fn note_row(listed: &mut ListedRows, v: usize, row: &Row, i: u8) {
    for (c, x) in row.iter().enumerate() {
        note_value(listed, v, c, *x, i);
    }
    let rows = &mut listed.views[v % MOST_VIEWS];
    rows.all.insert(i);
    for (twins, (x, y)) in rows.twins.iter_mut().zip(&pairs(row)) {
        if *x == *y {
            twins.insert(i);
        }
    }
}

/// Notes the listed rows.
pub fn note_rows(board: &mut Board, p: &Plan) {
    for i in 0..tableau_parts::row_count(p) {
        let name = (i % 64) as u8;
        let row = listed_row(p, name);
        note_row(&mut board.listed, tableau_parts::view_at(p, i), &row, name);
    }
}

// ---- values that slots cannot have

// Notes entry e of the memory: slot n cannot have its value.
fn note_struck(struck: &mut Struck, n: usize, e: u8) {
    if SLOTS <= n {
        return;
    }
    search_slots::add(&mut struck.slots, n);
    struck.next[usize::from(e)] = struck.first[n % FIRSTS];
    struck.first[n % FIRSTS] = Some(e);
}

/// Notes the slots that have a value that they cannot have, and where each such value stands.
pub fn mark_struck(board: &mut Board, sl: &Memory) {
    search_slots::clear(&mut board.struck.slots);
    board.struck.first = [None; FIRSTS];
    for e in 0..search_nogoods::count(sl) {
        note_struck(&mut board.struck, sl[e * 2], (e % 256) as u8);
    }
}

// The listed rows of view v that have in column c a value which slot n cannot have.
fn struck(board: &Board, sl: &Memory, v: usize, c: usize, n: usize) -> RowSet {
    let mut set = RowSet::new();
    let mut at = board.struck.first[n % FIRSTS];
    for _ in 0..MOST_VALUES {
        let Some(entry) = at else {
            return set;
        };
        let e = usize::from(entry);
        if e < MOST_VALUES && sl[e * 2] == n {
            set = set.or(with_value(&board.listed, v, c, narrow(sl[e * 2 + 1])));
        }
        at = board.struck.next[e];
    }
    set
}

// ---- the rows that fit

// Those of the listed rows of view v in the set that a row with the value x in column c can become, as far as that column tells.
fn by_column(board: &Board, sl: &Memory, v: usize, c: usize, x: u32, set: RowSet) -> RowSet {
    let Some(n) = slot_of(x) else {
        return set.and(with_value(&board.listed, v, c, x));
    };
    if !search_slots::has(&board.struck.slots, n) {
        return set;
    }
    set.less(struck(board, sl, v, c, n))
}

// Those of the listed rows of view v in the set in which made-up values of a row that are one stay so.
fn by_pairs(board: &Board, v: usize, row: &Row, set: RowSet) -> RowSet {
    let mut left = set;
    let rows = &board.listed.views[v % MOST_VIEWS];
    for (twins, (x, y)) in rows.twins.iter().zip(&pairs(row)) {
        if *x == *y && FIRST_MADE_UP <= *x {
            left = left.and(*twins);
        }
    }
    left
}

/// The listed rows that a row of view v can become, and whether it is one of them.
pub fn fits(board: &Board, sl: &Memory, v: usize, row: &Row) -> Fitting {
    if MOST_VIEWS <= v {
        return Fitting::default();
    }
    let mut set = board.listed.views[v].all;
    for (c, x) in row.iter().enumerate() {
        if set.is_empty() {
            return Fitting::default();
        }
        set = by_column(board, sl, v, c, *x, set);
    }
    if set.is_empty() {
        return Fitting::default();
    }
    if row.iter().all(|x| *x < FIRST_MADE_UP) {
        return Fitting {
            set,
            is_listed: true,
        };
    }
    Fitting {
        set: by_pairs(board, v, row, set),
        is_listed: false,
    }
}
