// Whether facts of the tableau give a block a row, and the words that this rests on: only those by which two places of the block's atoms, or a place
// and a constant, have one value, and those of the head.
#![tactic(auto)]

ghost use Rattle.std.specs.Prelude.{◌≡◌, true, ℕ, ◌+◌, ◌<◌, ◌≤◌, length, get_or, IfSome};
ghost use Rattle.query_layout.specs.Layout.{names};
ghost use Rattle.sheet_format.specs.Limits.{most_atoms};
ghost use Rattle.tableau_layout.specs.Layout.{most_blocks, tableau_atoms};
ghost use Rattle.case_verdicts.specs.Sheets.{top};
ghost use Rattle.search_witness.specs.Witness.{witness_place, ColumnRead, AtomRead, AtomsRead, HeadRead, RowRead, RowShown, AskedShown};

use query_layout::{BLOCK_NUMBERS, COLUMNS, FACT_NUMBERS, HEAD_AT, MADE_UP, NAMES};
use sheet_format::MOST_ATOMS;
use std::array;
use tableau_layout::{
    BLOCKS_AT, MOST_BLOCKS, PLAN_NUMBERS, QUESTION_BLOCK, SLOTS, TABLEAU_ATOMS, TABLEAU_SIZE_AT,
};

// Past every place of the tableau.
const NOWHERE: usize = SLOTS + MADE_UP;

/// Whether a block's atoms become facts, and the row that its head then has.
#[derive(Clone, Copy)]
pub struct ShownRow {
    pub ok: bool,
    pub row: [usize; 4],
}

const NO_ROW: ShownRow = ShownRow {
    ok: false,
    row: [0; 4],
};

// A place for each variable of a block: the first at which it stands. Whatever they are, what follows checks them.
fn first_places(
    p: &[usize; PLAN_NUMBERS],
    b: usize,
    n: usize,
    at: &[usize; MOST_ATOMS],
) -> [usize; NAMES]
    requires { (b < most_blocks) × (n ≤ most_atoms) }
{
    let mut first = [NOWHERE; NAMES];
    for j in (0..n).rev() {
        let i = at[j];
        if TABLEAU_ATOMS <= i {
            continue;
        }
        for c in (0..COLUMNS).rev() {
            let t = p[BLOCKS_AT + b * BLOCK_NUMBERS + j * FACT_NUMBERS + 1 + c];
            if t < NAMES {
                first[t] = p[i * FACT_NUMBERS + 1 + c];
            }
        }
    }
    first
}

// What a term stands for.
fn place_of(first: &[usize; NAMES], t: usize) -> usize
    requires { t < names + top }
    ensures { result ≡ witness_place first.now t }
{
    if t < NAMES {
        return first[t];
    }
    SLOTS + (t - NAMES)
}

// Whether column c of atom j of block b has, at atom i of the tableau, what its term stands for; if so, the slots by which it has are marked.
fn reads_column(
    p: &[usize; PLAN_NUMBERS],
    ws: &[usize],
    first: &[usize; NAMES],
    b: usize,
    j: usize,
    i: usize,
    c: usize,
    set: &mut [u64],
) -> bool
    requires { (b < most_blocks) × (j < most_atoms) × (i < tableau_atoms) × (c < 4) }
    ensures { result ≡ true → ColumnRead p.now ws.now first.now b j i c set.old set.new }
{
    let t = p[BLOCKS_AT + b * BLOCK_NUMBERS + j * FACT_NUMBERS + 1 + c];
    let w = p[i * FACT_NUMBERS + 1 + c];
    if NAMES + MADE_UP <= t {
        return false;
    }
    let z = place_of(first, t);
    if NOWHERE <= w || NOWHERE <= z {
        return false;
    }
    search_reasons::agree(ws, w, z, set)
}

// Whether atom j of block b becomes atom i of the tableau; if so, the slots by which it does are marked.
fn reads_atom(
    p: &[usize; PLAN_NUMBERS],
    ws: &[usize],
    first: &[usize; NAMES],
    b: usize,
    j: usize,
    i: usize,
    set: &mut [u64],
) -> bool
    requires { (b < most_blocks) × (j < most_atoms) × (i < tableau_atoms) }
    ensures { result ≡ true → AtomRead p.now ws.now first.now b j i set.old set.new }
{
    if p[i * FACT_NUMBERS] != p[BLOCKS_AT + b * BLOCK_NUMBERS + j * FACT_NUMBERS] {
        return false;
    }
    for c in 0..COLUMNS {
        if !reads_column(p, ws, first, b, j, i, c, set) {
            return false;
        }
    }
    true
}

// Whether the first n atoms of block b become the atoms `at` of the tableau, all from atom `from` on; if so, the slots by which they do are marked.
fn reads_atoms(
    p: &[usize; PLAN_NUMBERS],
    ws: &[usize],
    first: &[usize; NAMES],
    from: usize,
    b: usize,
    at: &[usize; MOST_ATOMS],
    n: usize,
    set: &mut [u64],
) -> bool
    requires { (b < most_blocks) × (n ≤ most_atoms) }
    ensures { result ≡ true → AtomsRead p.now ws.now first.now from b at.now n set.old set.new }
{
    let size = p[TABLEAU_SIZE_AT];
    for j in 0..n {
        let i = at[j];
        if i < from || size <= i || TABLEAU_ATOMS <= i {
            return false;
        }
        if !reads_atom(p, ws, first, b, j, i, set) {
            return false;
        }
    }
    true
}

// Column c of the head of block b: the value where its links end, and the slots on the way marked; none where it stands at no place.
fn reads_head(
    p: &[usize; PLAN_NUMBERS],
    ws: &[usize],
    first: &[usize; NAMES],
    b: usize,
    c: usize,
    set: &mut [u64],
) -> Option<usize>
    requires { (b < most_blocks) × (c < 4) }
    ensures { IfSome result (λ v. HeadRead p.now ws.now first.now b c set.old set.new v) }
{
    let t = p[BLOCKS_AT + b * BLOCK_NUMBERS + HEAD_AT + c];
    if NAMES + MADE_UP <= t {
        return None;
    }
    let z = place_of(first, t);
    if NOWHERE <= z {
        return None;
    }
    search_reasons::mark_way(ws, z, set);
    Some(search_links::place_value(ws, z))
}

// The head of block b: the values where its links end, and the slots on the ways marked; none where a column stands at no place.
fn reads_row(
    p: &[usize; PLAN_NUMBERS],
    ws: &[usize],
    first: &[usize; NAMES],
    b: usize,
    set: &mut [u64],
) -> Option<[usize; 4]>
    requires { b < most_blocks }
    ensures { IfSome result (λ row. RowRead p.now ws.now first.now b row set.old set.new) }
{
    let v = reads_head(p, ws, first, b, 0, set)?;
    let w = reads_head(p, ws, first, b, 1, set)?;
    let x = reads_head(p, ws, first, b, 2, set)?;
    let y = reads_head(p, ws, first, b, 3, set)?;
    Some([v, w, x, y])
}

/// Whether the atoms `at` of the tableau, all from atom `from` on, give block b a row in this state, and which. The slots that this rests on are
/// marked; where it is not so, slots may be marked for nothing.
pub fn show(
    p: &[usize; PLAN_NUMBERS],
    ws: &[usize],
    from: usize,
    b: usize,
    at: &[usize; MOST_ATOMS],
    set: &mut [u64],
) -> ShownRow
    ensures row_shown { result.ok ≡ true → RowShown p.now ws.now from b result.row set.old set.new }
    ensures set_len_unchanged { length set.new ≡ length set.old }
{
    if MOST_BLOCKS <= b {
        return NO_ROW;
    }
    let n = tableau_parts::size_at(p, b);
    let first = first_places(p, b, n, at);
    if !reads_atoms(p, ws, &first, from, b, at, n, set) {
        return NO_ROW;
    }
    match reads_row(p, ws, &first, b, set) {
        Some(row) => ShownRow { ok: true, row },
        None => NO_ROW,
    }
}

// The places of the first copy: of each variable its slot there.
fn own_places() -> [usize; NAMES]
    ensures { (x : ℕ) → x < names → get_or result x 0 ≡ x }
{
    array::from_fn(|x| x)
}

/// The question's head in this state; the slots that this rests on are marked.
pub fn asked(p: &[usize; PLAN_NUMBERS], ws: &[usize], set: &mut [u64]) -> ShownRow
    ensures asked_shown { result.ok ≡ true → AskedShown p.now ws.now result.row set.old set.new }
    ensures set_len_unchanged { length set.new ≡ length set.old }
{
    let first = own_places();
    match reads_row(p, ws, &first, QUESTION_BLOCK, set) {
        Some(row) => ShownRow { ok: true, row },
        None => NO_ROW,
    }
}
