// Whether two listed rows are alike: whether exchanging their values changes neither the sheet nor the values of the slots that a failure
// rests on.
#![tactic(auto)]

ghost use Rattle.std.specs.Prelude.{◌≡◌, true, false, ℕ, ◌<◌, ◌≤◌, ◌*◌, ◌+◌, ◌/◌, length, IfSome};
ghost use Rattle.query_layout.specs.Layout.{block_width, names};
ghost use Rattle.sheet_format.specs.Limits.{most_rows, most_views};
ghost use Rattle.tableau_layout.specs.Layout.{most_copies, slot_end, most_blocks};
ghost use Rattle.search_slots.specs.Slots.{set_words, in_set};
ghost use Rattle.search_symmetry.specs.Symmetry.{exchanged, copy_becomes, Alike};
ghost use Rattle.search_symmetry.specs.Steps.{SameFor, Swapped, Used, StaysAt, Stays, TurnsInto, Goes, WrittenCopies, ComeBack, UnmovedValue, Unmoved, SheetTurned, TwoListed, SlotTurned, SlotsTurned};

use query_layout::{BLOCK_NUMBERS, COLUMNS, FACT_NUMBERS, HEAD_AT, MADE_UP, NAMES};
use search_slots::SET_WORDS;
use sheet_format::{MOST_ROWS, MOST_VIEWS};
use tableau_layout::{
    BLOCKS_AT, PLAN_NUMBERS, ROW_COUNT_AT, ROWS_AT, SIZES_AT, SLOTS, VIEW_BLOCKS, VIEW_COUNT_AT,
};

// A value where those of two rows are exchanged.
fn turn(a: &[usize; 4], b: &[usize; 4], v: usize) -> usize
    ensures { result ≡ exchanged a.now b.now v }
{
    for c in 0..COLUMNS {
        if v == a[c] {
            return b[c];
        }
        if v == b[c] {
            return a[c];
        }
    }
    v
}

// Whether the constants of a stray row are those of the row.
fn agrees(u: &[usize; 4], a: &[usize; 4]) -> bool
    ensures { result ≡ true → SameFor u.now a.now 4 }
{
    u.iter().zip(a).all(|(v, w)| MADE_UP <= *v || v == w)
}

// Whether the values of the rows become each other.
fn is_swapped(a: &[usize; 4], b: &[usize; 4]) -> bool
    ensures { result ≡ true → Swapped a.now b.now 4 }
{
    a.iter()
        .zip(b)
        .all(|(x, y)| turn(a, b, *x) == *y && turn(a, b, *y) == *x)
}

// Whether number k of the blocks is one of an atom that its block has, or of its head.
fn is_used(p: &[usize; PLAN_NUMBERS], k: usize) -> bool
    requires { k < most_blocks * block_width }
    ensures { result ≡ false → Used p.now k → ⊥ }
{
    let j = k % BLOCK_NUMBERS;
    HEAD_AT <= j || j / FACT_NUMBERS < p[SIZES_AT + k / BLOCK_NUMBERS]
}

// Whether number k of the blocks stays, if it is a constant.
fn stays_at(p: &[usize; PLAN_NUMBERS], a: &[usize; 4], b: &[usize; 4], k: usize) -> bool
    requires { k < most_blocks * block_width }
    ensures { result ≡ true → StaysAt p.now a.now b.now k }
{
    let t = p[BLOCKS_AT + k];
    if t < NAMES || !is_used(p, k) {
        return true;
    }
    turn(a, b, t - NAMES) == t - NAMES
}

// Whether the constants among the first n numbers of blocks stay.
fn stays(p: &[usize; PLAN_NUMBERS], a: &[usize; 4], b: &[usize; 4], n: usize) -> bool
    requires { n ≤ most_blocks * block_width }
    ensures { result ≡ true → Stays p.now a.now b.now n }
{
    for k in 0..n {
        if !stays_at(p, a, b, k) {
            return false;
        }
    }
    true
}

// Whether listed row i becomes row j.
fn becomes(p: &[usize; PLAN_NUMBERS], a: &[usize; 4], b: &[usize; 4], i: usize, j: usize) -> bool
    requires { (i < most_rows) × (j < most_rows) }
    ensures { result ≡ true → TurnsInto p.now a.now b.now i j 4 }
{
    let from = ROWS_AT + i * FACT_NUMBERS;
    let to = ROWS_AT + j * FACT_NUMBERS;
    if p[to] != p[from] {
        return false;
    }
    for c in 0..COLUMNS {
        if p[to + 1 + c] != turn(a, b, p[from + 1 + c]) {
            return false;
        }
    }
    true
}

// The listed row that listed row i becomes, itself before others.
fn goes(
    p: &[usize; PLAN_NUMBERS],
    a: &[usize; 4],
    b: &[usize; 4],
    rows: usize,
    i: usize,
) -> Option<usize>
    requires { (rows ≤ most_rows) × (i < rows) }
    ensures { IfSome result (λ j. Goes p.now a.now b.now rows i j) }
{
    if becomes(p, a, b, i, i) {
        return Some(i);
    }
    (0..rows).find(|j| becomes(p, a, b, i, *j))
}

// Writes where each listed row goes; false where one goes nowhere.
fn write_rows(
    p: &[usize; PLAN_NUMBERS],
    a: &[usize; 4],
    b: &[usize; 4],
    rows: usize,
    to: &mut [usize; MOST_ROWS],
) -> bool
    requires { rows ≤ most_rows }
    ensures { result ≡ true → WrittenCopies p.now a.now b.now rows to.new most_rows }
{
    for i in 0..MOST_ROWS {
        let mut j = i;
        if i < rows {
            let Some(other) = goes(p, a, b, rows, i) else {
                return false;
            };
            j = other;
        }
        to[i] = j;
    }
    true
}

// Whether each row comes back.
fn come_back(to: &[usize; MOST_ROWS]) -> bool
    ensures { result ≡ true → ComeBack to.now most_rows }
{
    (0..MOST_ROWS).all(|i| to[i] < MOST_ROWS && to[to[i]] == i)
}

// The copy that copy k becomes.
fn copy_to(to: &[usize; MOST_ROWS], k: usize) -> usize
    requires { (k < most_copies) × ComeBack to.now most_rows }
    ensures { (result < most_copies) × (result ≡ copy_becomes to.now k) }
{
    if k == 0 {
        return 0;
    }
    to[k - 1] + 1
}

// Whether the copy of a made-up value stays; a constant has none.
fn is_unmoved_value(to: &[usize; MOST_ROWS], v: usize) -> bool
    requires { ComeBack to.now most_rows }
    ensures { result ≡ true → UnmovedValue to.now v }
{
    if v < MADE_UP || SLOTS <= v - MADE_UP {
        return true;
    }
    let k = (v - MADE_UP) / NAMES;
    copy_to(to, k) == k
}

// Whether the copies of a stray row's made-up values stay.
fn is_unmoved(to: &[usize; MOST_ROWS], u: &[usize; 4]) -> bool
    requires { ComeBack to.now most_rows }
    ensures { result ≡ true → Unmoved to.now u.now 4 }
{
    for v in u {
        if !is_unmoved_value(to, *v) {
            return false;
        }
    }
    true
}

// Whether slot n has its own value; or a constant, and then the slot that it becomes is in the set and has what the constant becomes.
fn is_slot_turned(
    ws: &[usize],
    set: &[u64],
    a: &[usize; 4],
    b: &[usize; 4],
    to: &[usize; MOST_ROWS],
    n: usize,
) -> bool
    requires { (n < slot_end) × (length ws.now ≡ slot_end) × ComeBack to.now most_rows }
    ensures { result ≡ true → SlotTurned ws.now set.now a.now b.now to.now n }
{
    let v = ws[n];
    if MADE_UP <= v {
        return v == MADE_UP + n;
    }
    let m = copy_to(to, n / NAMES) * NAMES + n % NAMES;
    ws[m] == turn(a, b, v) && search_slots::has(set, m)
}

// Whether it is so with every slot that the set has in word w.
fn is_word_turned(
    ws: &[usize],
    set: &[u64],
    a: &[usize; 4],
    b: &[usize; 4],
    to: &[usize; MOST_ROWS],
    w: usize,
) -> bool
    requires { (w < set_words) × (length ws.now ≡ slot_end) × ComeBack to.now most_rows }
    ensures { result ≡ true → (k : ℕ) → k < slot_end → k / 64 ≡ w → in_set set.now k ≡ true → SlotTurned ws.now set.now a.now b.now to.now k }
{
    if set.get(w).copied().unwrap_or(u64::MAX) == 0 {
        return true;
    }
    (w * 64..SLOTS.min(w * 64 + 64)).all(|n| !search_slots::has(set, n)
        || is_slot_turned(ws, set, a, b, to, n))
}

// Whether it is so with every slot of the set. Most words of a set have none.
fn are_slots_turned(
    ws: &[usize],
    set: &[u64],
    a: &[usize; 4],
    b: &[usize; 4],
    to: &[usize; MOST_ROWS],
) -> bool
    requires { (length ws.now ≡ slot_end) × ComeBack to.now most_rows }
    ensures { result ≡ true → SlotsTurned ws.now set.now a.now b.now to.now slot_end }
{
    (0..SET_WORDS).all(|w| is_word_turned(ws, set, a, b, to, w))
}

// Whether the sheet stays: the constants of its blocks do, and each listed row goes to one and comes back. Where it goes is written.
fn is_sheet_turned(
    p: &[usize; PLAN_NUMBERS],
    a: &[usize; 4],
    b: &[usize; 4],
    rows: usize,
    views: usize,
    to: &mut [usize; MOST_ROWS],
) -> bool
    requires { (rows ≤ most_rows) × (views ≤ most_views) }
    ensures { result ≡ true → SheetTurned p.now a.now b.now rows views to.new }
{
    stays(p, a, b, (VIEW_BLOCKS + views) * BLOCK_NUMBERS)
        && write_rows(p, a, b, rows, to)
        && come_back(to)
}

// Whether these are two of the listed rows, and not more rows and views stand in the plan than may.
fn are_listed(p: &[usize; PLAN_NUMBERS], one: usize, other: usize) -> bool
    ensures { result ≡ true → TwoListed p.now one other }
{
    let rows = p[ROW_COUNT_AT];
    rows <= MOST_ROWS
        && p[VIEW_COUNT_AT] <= MOST_VIEWS
        && one < rows
        && other < rows
        && one != other
}

/// Whether listed rows `one` and `other` are alike: exchanging their values changes neither the sheet, nor the values of the set's slots, nor the
/// stray row `u`. What refutes the one as what `u` becomes, by the words of the slots in the set, then refutes the other. Where each listed row goes
/// is written to the lent numbers.
pub fn are_alike(
    p: &[usize; PLAN_NUMBERS],
    ws: &[usize],
    set: &[u64],
    u: &[usize; 4],
    one: usize,
    other: usize,
    to: &mut [usize; MOST_ROWS],
) -> bool
    ensures { result ≡ true → Alike p.now ws.now set.now u.now one other }
{
    if ws.len() != SLOTS || set.len() != SET_WORDS {
        return false;
    }
    if !are_listed(p, one, other) {
        return false;
    }
    let a = tableau_parts::values_at(p, one);
    let b = tableau_parts::values_at(p, other);
    if !agrees(u, &a)
        || !is_swapped(&a, &b)
        || !is_sheet_turned(p, &a, &b, p[ROW_COUNT_AT], p[VIEW_COUNT_AT], to)
        || !is_unmoved(to, u)
    {
        return false;
    }
    are_slots_turned(ws, set, &a, &b, to)
}
