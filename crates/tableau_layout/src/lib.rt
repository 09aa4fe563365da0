// The plan of a sheet: where its tableau, listed rows, blocks and counts stand among plain numbers, every size and place behind one name
// (specs/Layout has the same names).
#![tactic(auto)]

use query_layout::{BLOCK_NUMBERS, COLUMNS, FACT_NUMBERS, NAMES};
use sheet_format::{MOST_ATOMS, MOST_LISTS, MOST_ROWS, MOST_VIEW_ATOMS, MOST_VIEWS, TABLE_NUMBERS};

// A copy of the question and one of its view's block for each listed row; each copy has slots of its own.
pub const MOST_COPIES: usize = 1 + MOST_ROWS;

pub const SLOTS: usize = MOST_COPIES * NAMES;

// The atoms of the copies: the question's, and its view's for each listed row.
pub const COPIED_ATOMS: usize = MOST_ATOMS + MOST_ROWS * MOST_VIEW_ATOMS;

// The tableau's atoms: those of the copies, and after each the one that it owes to its relation's parent.
pub const TABLEAU_ATOMS: usize = COPIED_ATOMS * 2;

pub const TABLEAU_NUMBERS: usize = TABLEAU_ATOMS * FACT_NUMBERS;

// The listed rows after them: a view and the columns each.
pub const ROW_NUMBERS: usize = 1 + COLUMNS;

pub const ROWS_AT: usize = TABLEAU_NUMBERS;

// The blocks after them: the question, the lists, the views; and how many atoms each has.
pub const QUESTION_BLOCK: usize = 0;

pub const LIST_BLOCKS: usize = 1;

pub const VIEW_BLOCKS: usize = LIST_BLOCKS + MOST_LISTS;

pub const MOST_BLOCKS: usize = VIEW_BLOCKS + MOST_VIEWS;

pub const BLOCKS_AT: usize = ROWS_AT + MOST_ROWS * ROW_NUMBERS;

pub const SIZES_AT: usize = BLOCKS_AT + MOST_BLOCKS * BLOCK_NUMBERS;

// The counts after them: the tableau's atoms, the question's among them, the listed rows, the views, the lists.
pub const TABLEAU_SIZE_AT: usize = SIZES_AT + MOST_BLOCKS;

pub const ASKED_SIZE_AT: usize = TABLEAU_SIZE_AT + 1;

pub const ROW_COUNT_AT: usize = TABLEAU_SIZE_AT + 2;

pub const VIEW_COUNT_AT: usize = TABLEAU_SIZE_AT + 3;

pub const LIST_COUNT_AT: usize = TABLEAU_SIZE_AT + 4;

// The table of relations after them.
pub const TABLE_AT: usize = TABLEAU_SIZE_AT + 5;

pub const PLAN_NUMBERS: usize = TABLE_AT + TABLE_NUMBERS;
