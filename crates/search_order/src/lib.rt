//! In which order rows of views are repaired, and listed rows tried. Nothing here is believed.
#![tactic(auto)]

use query_layout::COLUMNS;
use search_board::{Board, FIRST_MADE_UP, Kept, Plan, Row, moved_row};

// ---- rows that come late

// How many columns of a relation settle the others, by its key or by its parent's; COLUMNS where none do.
fn settling(p: &Plan, relation: usize) -> usize {
    let own = tableau_parts::key_of(p, relation);
    if own != 0 {
        return own;
    }
    match tableau_parts::key_of(p, tableau_parts::parent_of(p, relation)) {
        0 => COLUMNS,
        key => key,
    }
}

// Whether a value is made up and one of a row's.
fn is_open_in(row: &Row, v: u32) -> bool {
    FIRST_MADE_UP <= v && row.contains(&v)
}

// Whether a value is made up and none of a row's.
fn is_open_beside(row: &Row, v: u32) -> bool {
    FIRST_MADE_UP <= v && !row.contains(&v)
}

// Whether a row has a made-up value of a fact's first n columns.
fn is_settling(row: &Row, fact: &Row, n: usize) -> bool {
    fact.iter().take(n).any(|v| is_open_in(row, *v))
}

// Whether a row has a made-up value that stands behind a fact's first n columns, and lacks another one of the fact.
fn is_waiting(row: &Row, fact: &Row, n: usize) -> bool {
    fact.iter().skip(n).any(|v| is_open_in(row, *v)) && fact.iter().any(|v| is_open_beside(row, *v))
}

/// Whether a kept row comes late: in its facts its made-up values all stand behind keys, and in one of them others are open. Once those are chosen, a key
/// may settle the row's.
pub fn is_late(board: &Board, p: &Plan, kept: &Kept, row: &Row) -> bool {
    let mut is_late = false;
    for j in 0..tableau_parts::size_at(p, kept.block()) {
        let f = kept.fact(j);
        let fact = board.row(f);
        let front = settling(p, board.relation(f));
        if is_settling(row, &fact, front) {
            return false;
        }
        is_late |= is_waiting(row, &fact, front);
    }
    is_late
}

// ---- listed rows whose facts are there already

// Whether fact f is one that counts where the row becomes the other.
fn is_known(board: &Board, row: &Row, to: &Row, f: u8) -> bool {
    let new = moved_row(row, to, &board.row(f));
    for g in board.alive_of(board.relation(f)).iter() {
        if board.row(g) == new {
            return true;
        }
    }
    false
}

/// Whether the facts of a kept row are there where the row becomes the other.
pub fn are_known(board: &Board, p: &Plan, kept: &Kept, row: &Row, to: &Row) -> bool {
    for j in 0..tableau_parts::size_at(p, kept.block()) {
        if !is_known(board, row, to, kept.fact(j)) {
            return false;
        }
    }
    true
}
