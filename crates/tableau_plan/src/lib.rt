// A sheet in plain numbers, as the search for a case works on it.
#![tactic(auto)]

ghost use Rattle.std.specs.Prelude.{◌≡◌, List, ◌∷◌, ◌++◌, ℕ, ◌+◌, ◌-◌, ◌*◌, ◌/◌, ◌<◌, ◌≤◌, pos, length, get_or};
ghost use Rattle.query_layout.specs.Layout.{block_width};
ghost use Rattle.tableau_layout.specs.Layout.{blocks_at, most_blocks, plan_numbers, rows_at, table_at, tableau_atoms};
ghost use Rattle.sheet_format.specs.Limits.{most_atoms, most_rows, table_number_count};
ghost use Rattle.sheet_format.specs.Table.{table_in};
ghost use Rattle.sheet_format.specs.Line.{natural, word_lines};
ghost use Rattle.sheet_format.specs.Cause.{refusal_of};
ghost use Rattle.query_meaning.specs.Meaning.{Atom, Block};
ghost use Rattle.query_encoding.specs.Encoding.{atom_at};
ghost use Rattle.case_verdicts.specs.Sheets.{lists_in, sheet_of};
ghost use Rattle.tableau_plan.specs.Plan.{Plan};
ghost use Rattle.tableau_plan.specs.Parts.{KeptOutside, BlockStored, Blocks, place_of, slot_of, source_of, RowsDone, PlacedAtom, placed_atom, placed_in, with_owed, own_atoms, AtomAt, AtomsStored, Sources, TableauDone, Closed};
ghost use Rattle.query_blocks.specs.Parts.{AcceptedLines};

use query_blocks::Numbers;
use query_encoding::BLOCK_NUMBERS;
use query_layout::{COLUMNS, FACT_NUMBERS, MADE_UP, NAMES};
use sheet_format::{
    LINE_WORDS, MOST_ATOMS, MOST_LISTS, MOST_ROWS, MOST_VIEWS, ROW_KIND, SAVED_KIND, TABLE_NUMBERS,
    VIEW_KIND,
};
use tableau_layout::{
    ASKED_SIZE_AT, BLOCKS_AT, LIST_COUNT_AT, MOST_BLOCKS, PLAN_NUMBERS, QUESTION_BLOCK,
    ROW_COUNT_AT, ROW_NUMBERS, ROWS_AT, SIZES_AT, SLOTS, TABLE_AT, TABLEAU_ATOMS, TABLEAU_SIZE_AT,
    VIEW_BLOCKS, VIEW_COUNT_AT,
};

// Terms of a block are below this.
const TERMS: usize = MADE_UP + NAMES;

// How many views have begun, and how many rows have been taken.
#[derive(Clone, Copy)]
struct Tally {
    views: usize,
    rows: usize,
}

// The word at a place as a plain number, 0 past the end.
fn number_at(ws: &[i32], i: usize) -> usize
    ensures { result ≡ natural (get_or ws.now i (pos 0)) }
{
    ws.get(i).map_or(0, |word| sheet_terms::number(*word))
}

// The numbers of a block, or of the table of relations, at a place.
fn put_numbers<const N: usize>(p: &mut [usize], at: usize, numbers: &[usize; N])
    requires { at + N ≤ length p.old }
    ensures { KeptOutside p.old p.new at (at + N) × ((x : ℕ) → x < N → get_or p.new (at + x) 0 ≡ get_or numbers.now x 0) }
{
    p[at..at + N].copy_from_slice(numbers);
}

// Block b with its size.
fn put_block(p: &mut [usize], b: usize, found: Numbers)
    requires { (length p.old ≡ plan_numbers) × (b < most_blocks) }
    ensures { BlockStored p.old p.new b found.atoms found.numbers }
{
    put_numbers(p, BLOCKS_AT + b * BLOCK_NUMBERS, &found.numbers);
    p[SIZES_AT + b] = found.atoms;
}

// How many lists there are: their heads are counted.
fn count_lists(ws: &[i32]) -> usize
    ensures { AcceptedLines (word_lines ws.now) → result ≡ length (lists_in (word_lines ws.now)) }
{
    let n = ws.len() / LINE_WORDS;
    let mut lists = 0;
    for i in 0..n {
        if number_at(ws, LINE_WORDS * i + 1) == SAVED_KIND {
            lists += 1;
        }
    }
    lists
}

// The place of block b, counted from 0, where there are so many lists.
#[tactic(auto, unfolding(crate::specs::Parts::place_of))]
fn place(lists: usize, b: usize) -> usize
    requires { b < most_blocks }
    ensures { result ≡ place_of lists b }
{
    if b <= lists {
        b
    } else {
        b + MOST_LISTS.saturating_sub(lists)
    }
}

// All blocks, and how many there are, where there are so many lists.
fn put_blocks(ws: &[i32], lists: usize, p: &mut [usize]) -> usize
    requires { length p.old ≡ plan_numbers }
    ensures { (length p.new ≡ plan_numbers) × (AcceptedLines (word_lines ws.now) → lists ≡ length (lists_in (word_lines ws.now)) → Blocks p.new (word_lines ws.now) result) }
{
    for b in 0..MOST_BLOCKS {
        let found = query_blocks::block(ws, b + 1);
        if !found.some {
            return b;
        }
        let at = place(lists, b);
        if MOST_BLOCKS <= at {
            return b;
        }
        put_block(p, at, found);
    }
    MOST_BLOCKS
}

// The values of the row on line i, at a place.
fn put_values(ws: &[i32], i: usize, p: &mut [usize], at: usize)
    requires { (i < length ws.now / 7) × (at + 4 ≤ length p.old) }
    ensures { KeptOutside p.old p.new at (at + 4) × ((c : ℕ) → c < 4 → get_or p.new (at + c) 0 ≡ natural (get_or ws.now (7 * i + 2 + c) (pos 0))) }
{
    for c in 0..COLUMNS {
        p[at + c] = number_at(ws, LINE_WORDS * i + 2 + c);
    }
}

// One line more.
fn take_line(ws: &[i32], i: usize, p: &mut [usize], walk: Tally) -> Tally
    requires { (i < length ws.now / 7) × (length p.old ≡ plan_numbers) × (walk.views ≤ i) × (walk.rows ≤ most_rows) }
    ensures { (result.views ≤ i + 1) × (result.rows ≤ most_rows) × KeptOutside p.old p.new rows_at blocks_at × (AcceptedLines (word_lines ws.now) → RowsDone p.old (word_lines ws.now) i walk.views walk.rows → RowsDone p.new (word_lines ws.now) (i + 1) result.views result.rows) }
{
    let kind = number_at(ws, LINE_WORDS * i + 1);
    let views = walk.views;
    let r = walk.rows;
    if kind == VIEW_KIND {
        return Tally {
            views: views + 1,
            ..walk
        };
    }
    if kind != ROW_KIND {
        return walk;
    }
    if MOST_ROWS <= r {
        return walk;
    }
    put_values(ws, i, p, ROWS_AT + r * ROW_NUMBERS + 1);
    p[ROWS_AT + r * ROW_NUMBERS] = views.saturating_sub(1);
    Tally {
        rows: r + 1,
        ..walk
    }
}

// All listed rows with their views, and how many there are.
fn put_rows(ws: &[i32], p: &mut [usize]) -> usize
    requires { length p.old ≡ plan_numbers }
    ensures { (result ≤ most_rows) × KeptOutside p.old p.new rows_at blocks_at × (AcceptedLines (word_lines ws.now) → (v : ℕ) × RowsDone p.new (word_lines ws.now) (length ws.now / 7) v result) }
{
    let n = ws.len() / LINE_WORDS;
    let mut walk = Tally { views: 0, rows: 0 };
    for i in 0..n {
        walk = take_line(ws, i, p, walk);
    }
    walk.rows
}

// A block's term in the tableau: a slot of the copy, or a constant.
#[tactic(auto, unfolding(crate::specs::Parts::slot_of))]
fn slot(copy: usize, term: usize) -> usize
    requires { copy ≤ most_rows }
    ensures { result ≡ slot_of copy term }
{
    if term < NAMES {
        copy * NAMES + term
    } else if term < TERMS {
        term + (SLOTS - NAMES)
    } else {
        0
    }
}

// The terms of an atom of a copy, at a place.
fn place_terms(p: &mut [usize], copy: usize, from: usize, at: usize)
    requires { (length p.old ≡ plan_numbers) × (copy ≤ most_rows) × (rows_at ≤ from) × (from + 4 ≤ plan_numbers) × (at + 4 ≤ rows_at) }
    ensures { KeptOutside p.old p.new at (at + 4) × ((c : ℕ) → c < 4 → get_or p.new (at + c) 0 ≡ slot_of copy (get_or p.old (from + c) 0)) }
{
    for c in 0..COLUMNS {
        p[at + c] = slot(copy, p[from + c]);
    }
}

// The terms of an atom of a copy with a relation, as the tableau's atom `at`; the next place.
fn place_atom(p: &mut [usize], copy: usize, relation: usize, from: usize, at: usize) -> usize
    requires { (length p.old ≡ plan_numbers) × (copy ≤ most_rows) × (rows_at ≤ from) × (from + 5 ≤ plan_numbers) × (at ≤ tableau_atoms) }
    ensures { (result ≤ tableau_atoms) × KeptOutside p.old p.new 0 rows_at × ((l left : List PlacedAtom) (a : Atom) → length l ≤ tableau_atoms → AtomAt p.old from a → AtomsStored p.old at l (placed_atom copy relation a ∷ left) → AtomsStored p.new result l left) }
{
    if TABLEAU_ATOMS <= at {
        return at;
    }
    place_terms(p, copy, from + 1, at * FACT_NUMBERS + 1);
    p[at * FACT_NUMBERS] = relation;
    at + 1
}

// An atom of a copy, and the one that it owes to its relation's parent; the next place.
fn put_atom(
    table: &[usize; TABLE_NUMBERS],
    p: &mut [usize],
    copy: usize,
    from: usize,
    at: usize,
) -> usize
    requires { (length p.old ≡ plan_numbers) × (copy ≤ most_rows) × (rows_at ≤ from) × (from + 5 ≤ plan_numbers) × (at ≤ tableau_atoms) }
    ensures { (result ≤ tableau_atoms) × KeptOutside p.old p.new 0 rows_at × ((l left : List PlacedAtom) (a : Atom) → length l ≤ tableau_atoms → AtomAt p.old from a → AtomsStored p.old at l (placed_in copy (with_owed (table_in table.now) a) ++ left) → AtomsStored p.new result l left) }
{
    let relation = p[from];
    let next = place_atom(p, copy, relation, from, at);
    let parent = sheet_terms::parent(table, relation);
    if parent == 0 {
        return next;
    }
    place_atom(p, copy, parent, from, next)
}

// The n atoms of a copy, each with the one that it owes; the next place.
fn put_atoms(
    table: &[usize; TABLE_NUMBERS],
    p: &mut [usize],
    copy: usize,
    from: usize,
    n: usize,
    at: usize,
) -> usize
    requires { (length p.old ≡ plan_numbers) × (copy ≤ most_rows) × (n ≤ most_atoms) × (rows_at ≤ from) × (from + n * 5 ≤ plan_numbers) × (at ≤ tableau_atoms) }
    ensures { (result ≤ tableau_atoms) × KeptOutside p.old p.new 0 rows_at × ((l left : List PlacedAtom) (own : List Atom) → length l ≤ tableau_atoms → n ≡ length own → ((j : ℕ) → j < n → AtomAt p.old (from + j * 5) (atom_at own j)) → AtomsStored p.old at l (own_atoms (table_in table.now) copy own ++ left) → AtomsStored p.new result l left) }
{
    let mut next = at;
    for j in 0..n {
        next = put_atom(table, p, copy, from + j * FACT_NUMBERS, next);
    }
    next
}

// The block of a copy: the question, or the view of a row.
fn source(p: &[usize], copy: usize) -> usize
    requires { (length p.now ≡ plan_numbers) × (copy ≤ most_rows) }
    ensures { (source_of p.now copy < most_blocks → result ≡ source_of p.now copy) × (result < most_blocks) }
{
    if copy == 0 {
        return QUESTION_BLOCK;
    }
    let view = p[ROWS_AT + (copy - 1) * ROW_NUMBERS];
    if view < MOST_VIEWS {
        return VIEW_BLOCKS + view;
    }
    QUESTION_BLOCK
}

// One copy more, its atoms from atom `at` on; the next place.
fn put_copy(table: &[usize; TABLE_NUMBERS], p: &mut [usize], copy: usize, at: usize) -> usize
    requires { (length p.old ≡ plan_numbers) × (copy ≤ most_rows) × (at ≤ tableau_atoms) }
    ensures { (result ≤ tableau_atoms) × KeptOutside p.old p.new 0 rows_at × ((n : ℕ) (bs : List Block) → copy < length bs → Sources (table_in table.now) p.old n bs → TableauDone (table_in table.now) p.old copy at bs → TableauDone (table_in table.now) p.new (copy + 1) result bs) }
{
    let b = source(p, copy);
    let n = p[SIZES_AT + b];
    if MOST_ATOMS < n {
        return at;
    }
    put_atoms(table, p, copy, BLOCKS_AT + b * BLOCK_NUMBERS, n, at)
}

// The copies of the rows, after the question's, which has the first `asked` atoms; how many atoms the tableau has then.
fn put_tableau(table: &[usize; TABLE_NUMBERS], p: &mut [usize], n: usize, asked: usize) -> usize
    requires { (length p.old ≡ plan_numbers) × (n ≤ most_rows) × (asked ≤ tableau_atoms) }
    ensures { (result ≤ tableau_atoms) × KeptOutside p.old p.new 0 rows_at × ((bs : List Block) → Sources (table_in table.now) p.old n bs → TableauDone (table_in table.now) p.old 1 asked bs → TableauDone (table_in table.now) p.new (n + 1) result bs) }
{
    let mut at = asked;
    for copy in 1..=n {
        at = put_copy(table, p, copy, at);
    }
    at
}

// How many of the blocks are views: the others are the question and so many lists.
fn views_of(blocks: usize, lists: usize) -> usize
    ensures { result ≡ blocks - (1 + lists) }
{
    blocks.saturating_sub(lists).saturating_sub(1)
}

// The five counts.
fn put_counts(
    p: &mut [usize],
    atoms: usize,
    asked: usize,
    listed: usize,
    lists: usize,
    views: usize,
)
    requires { length p.old ≡ plan_numbers }
    ensures { Closed p.old p.new atoms asked listed lists views }
{
    p[TABLEAU_SIZE_AT] = atoms;
    p[ASKED_SIZE_AT] = asked;
    p[ROW_COUNT_AT] = listed;
    p[VIEW_COUNT_AT] = views;
    p[LIST_COUNT_AT] = lists;
}

/// The plan of a number form that a table of relations accepts, where there are as many words as a plan has; more or fewer words are left as they are.
pub fn plan(table: &[usize; TABLE_NUMBERS], ws: &[i32], p: &mut [usize])
    ensures plan { length p.old ≡ plan_numbers → (refusal_of (table_in table.now) (word_lines ws.now)).number ≡ 0 → Plan p.new (sheet_of (table_in table.now) (word_lines ws.now)) }
    ensures p_unchanged { (length p.old ≡ plan_numbers → ⊥) → p.new ≡ p.old }
{
    if p.len() != PLAN_NUMBERS {
        return;
    }
    let lists = count_lists(ws);
    let blocks = put_blocks(ws, lists, p);
    let listed = put_rows(ws, p);
    let asked = put_copy(table, p, 0, 0);
    let atoms = put_tableau(table, p, listed, asked);
    put_counts(p, atoms, asked, listed, lists, views_of(blocks, lists));
    put_numbers(p, TABLE_AT, table);
}
