// How blocks, facts and rows stand in plain numbers: every size and place behind one name (specs/Layout has the same names).
#![tactic(auto)]

use sheet_format::{CONSTANT_END, MOST_ATOMS, VARIABLES};

/// A term below this is a variable of its block; from it on it is a constant.
pub const NAMES: usize = VARIABLES as usize + 1;

/// The columns of a row, unused ones 0.
pub const COLUMNS: usize = 4;

/// The numbers of a fact or an atom: a relation and the columns.
pub const FACT_NUMBERS: usize = 1 + COLUMNS;

/// Where a block's head begins: behind its atoms.
pub const HEAD_AT: usize = MOST_ATOMS * FACT_NUMBERS;

/// The numbers of a block: its atoms, and then its head.
pub const BLOCK_NUMBERS: usize = HEAD_AT + COLUMNS;

/// The first value that is made up: constants lie below it.
pub const MADE_UP: usize = CONSTANT_END as usize;
