// The steps of the search for a case: which alternative of a node is tried next, taking it and undoing it; the heads of the copies.
#![tactic(auto)]

ghost use Rattle.std.specs.Prelude.{◌≡◌, true, false, List, ℕ, ◌+◌, ◌*◌, ◌-◌, ◌<◌, ◌≤◌, length, get_or};
ghost use Rattle.query_layout.specs.Layout.{block_head, names};
ghost use Rattle.sheet_format.specs.Limits.{most_rows};
ghost use Rattle.tableau_layout.specs.Layout.{most_blocks, most_copies, slot_end};
ghost use Rattle.query_join.specs.Joins.{value_of, head_row};
ghost use Rattle.case_verdicts.specs.Verdict.{Sheet};
ghost use Rattle.case_verdicts.specs.Sheets.{top};
ghost use Rattle.case_verdicts.specs.Tableau.{Good};
ghost use Rattle.case_verdicts.specs.Search.{free};
ghost use Rattle.case_verdicts.specs.Words.{state_of};
ghost use Rattle.tableau_plan.specs.Plan.{block_numbers, row_count};
ghost use Rattle.search_slots.specs.Slots.{set_words};
ghost use Rattle.search_nogoods.specs.Sizes.{memory_numbers, memory_words};
ghost use Rattle.search_links.specs.Links.{linked_state};
ghost use Rattle.search_links.specs.Steps.{RootValues, Equated, EquatedBy};
ghost use Rattle.search_task.specs.Task.{ReadyPlan, sheet_by};
ghost use Rattle.search_symmetry.specs.Symmetry.{Alike};
ghost use Rattle.search_node.specs.Choices.{rows_kind, node_kind, left_of, right_of, how_many};
ghost use Rattle.search_node.specs.Node.{Wordly};
ghost use Rattle.search_step.specs.Run.{turn_of, is_its_turn, RefutedAs, UndoneBy, Going, Advanced, Heads, HeadsBy};
ghost use Rattle.search_task.specs.declared.Goal.{Goal};

use query_layout::{BLOCK_NUMBERS, HEAD_AT, NAMES};
use search_node::NODE_NUMBERS;
use search_nogoods::{MEMORY_NUMBERS, MEMORY_WORDS};
use search_slots::SET_WORDS;
use search_task::Goal;
use sheet_format::{MOST_ROWS, MOST_VIEWS};
use tableau_layout::{BLOCKS_AT, PLAN_NUMBERS, SLOTS, VIEW_BLOCKS};

// The alternative that may be tried in turn n: each has one turn in each of two rounds.
pub fn turn(count: usize, n: usize) -> usize
    ensures { (result ≡ turn_of count n) × (n < 2 * count → result < count) }
{
    if n < count {
        return n;
    }
    n - count
}

// Whether alternative k is tried in turn i: the hinted ones in the first round, the others in the second.
fn is_turn(hint: u64, count: usize, i: usize, k: usize) -> bool
    ensures { k ≡ turn_of count i → result ≡ is_its_turn hint count i }
{
    let hinted = search_slots::has(&[hint], k);
    if i < count {
        return hinted;
    }
    !hinted
}

// Whether alternative k, a listed row, is like the last one that failed.
fn is_like_last(
    p: &[usize; PLAN_NUMBERS],
    ws: &[usize; SLOTS],
    node: &[usize; NODE_NUMBERS],
    u: &[usize; 4],
    last: usize,
    k: usize,
    below: &[u64; SET_WORDS],
    to: &mut [usize; MOST_ROWS],
) -> bool
    ensures { result ≡ true → (node_kind node.now ≡ rows_kind) × Alike p.now ws.now below.now u.now last k }
{
    if !search_node::is_of_rows(node) {
        return false;
    }
    search_symmetry::are_alike(p, ws, below, u, last, k, to)
}

// Whether alternative k of a node need not be tried: it is not live, like the last one that failed, or excluded; in the last case what that rests on
// is put into the set.
fn is_refuted(
    p: &[usize; PLAN_NUMBERS],
    ws: &[usize; SLOTS],
    node: &[usize; NODE_NUMBERS],
    last: usize,
    k: usize,
    below: &[u64; SET_WORDS],
    sl: &[usize; MEMORY_NUMBERS],
    sm: &[u64; MEMORY_WORDS],
    set: &mut [u64; SET_WORDS],
    to: &mut [usize; MOST_ROWS],
) -> bool
    ensures refuted_as { k < most_rows → k < how_many p.now node.now → RefutedAs result p.now ws.now node.now last k below.now sl.now sm.now set.old set.new }
    ensures set_len_unchanged { length set.new ≡ length set.old }
{
    if !search_node::is_live(p, node, k) {
        return true;
    }
    let u = search_node::left_row(node, k);
    if is_like_last(p, ws, node, &u, last, k, below, to) {
        return true;
    }
    let row = search_node::right_row(p, node, k);
    search_nogoods::is_excluded(&u, &row, sl, sm, set)
}

// Makes the rows of alternative k one. False if constants clash, and then the words stay.
pub fn take(
    p: &[usize; PLAN_NUMBERS],
    ws: &mut [usize; SLOTS],
    node: &[usize; NODE_NUMBERS],
    k: usize,
) -> bool
    ensures equated_by { k < most_rows → k < how_many p.now node.now → RootValues top ws.old (left_of node.now k) → RootValues top ws.old (right_of p.now node.now k) → EquatedBy result top ws.old ws.new (left_of node.now k) (right_of p.now node.now k) }
    ensures ws_len_unchanged { length ws.new ≡ length ws.old }
{
    let u = search_node::left_row(node, k);
    let row = search_node::right_row(p, node, k);
    search_links::equate(ws, &u, &row)
}

// Takes back the step by which the rows of alternative k became one, of which nothing is learnt.
pub fn untake(
    p: &[usize; PLAN_NUMBERS],
    ws: &mut [usize; SLOTS],
    node: &[usize; NODE_NUMBERS],
    k: usize,
)
    ensures ws_after { k < most_rows → k < how_many p.now node.now → (was : List ℕ) → RootValues top was (left_of node.now k) → RootValues top was (right_of p.now node.now k) → Equated top was ws.old (left_of node.now k) (right_of p.now node.now k) → ws.new ≡ was }
    ensures ws_len_unchanged { length ws.new ≡ length ws.old }
{
    let u = search_node::left_row(node, k);
    let row = search_node::right_row(p, node, k);
    search_links::release(ws, &u, &row);
}

// Takes back the step by which two rows became one, after a failure that rests on the slots `below`. True: the failure does not rest on the step, and
// the set has its slots. False: those of `below` that the step did not write are left there, and put into the set.
fn undo(
    ws: &mut [usize; SLOTS],
    u: &[usize; 4],
    row: &[usize; 4],
    below: &mut [u64; SET_WORDS],
    set: &mut [u64; SET_WORDS],
    sl: &mut [usize; MEMORY_NUMBERS],
    sm: &mut [u64; MEMORY_WORDS],
) -> bool
    requires { (length u.now ≡ 4) × (length row.now ≡ 4) × (length below.old ≡ set_words) × (length sl.old ≡ memory_numbers) × (length sm.old ≡ memory_words) }
    ensures undone_by { UndoneBy result u.now row.now ws.old below.old sl.old sm.old ws.new below.new set.old set.new sl.new sm.new }
    ensures ws_len_unchanged { (length ws.new ≡ length ws.old) × (length below.new ≡ length below.old) × (length sl.new ≡ length sl.old) × (length sm.new ≡ length sm.old) × (length set.new ≡ length set.old) }
{
    let changed = search_reasons::slots_of(u, row);
    search_nogoods::learn(ws, below, &changed, u, sl, sm);
    search_nogoods::forget(sl, sm, &changed);
    search_links::release(ws, u, row);
    if !search_slots::meet(below, &changed) {
        search_slots::put(set, below);
        return true;
    }
    search_slots::subtract(below, &changed);
    search_slots::join(set, below);
    false
}

// Takes back the step of alternative k, after a failure that rests on the slots `below`.
pub fn leave(
    p: &[usize; PLAN_NUMBERS],
    ws: &mut [usize; SLOTS],
    node: &[usize; NODE_NUMBERS],
    k: usize,
    below: &mut [u64; SET_WORDS],
    set: &mut [u64; SET_WORDS],
    sl: &mut [usize; MEMORY_NUMBERS],
    sm: &mut [u64; MEMORY_WORDS],
) -> bool
    requires { (length below.old ≡ set_words) × (length sl.old ≡ memory_numbers) × (length sm.old ≡ memory_words) }
    ensures undone_by { k < most_rows → k < how_many p.now node.now → UndoneBy result (left_of node.now k) (right_of p.now node.now k) ws.old below.old sl.old sm.old ws.new below.new set.old set.new sl.new sm.new }
    ensures ws_len_unchanged { (length ws.new ≡ length ws.old) × (length below.new ≡ length below.old) × (length sl.new ≡ length sl.old) × (length sm.new ≡ length sm.old) × (length set.new ≡ length set.old) }
{
    let u = search_node::left_row(node, k);
    let row = search_node::right_row(p, node, k);
    undo(ws, &u, &row, below, set, sl, sm)
}

// Takes the first alternative from a turn on that has to be tried: the number of the turn after its own, or 0 where none is left. The alternative
// `last` has failed by the slots `below`, if there is such a one.
pub fn next(
    p: &[usize; PLAN_NUMBERS],
    ws: &mut [usize; SLOTS],
    node: &[usize; NODE_NUMBERS],
    from: usize,
    last: usize,
    below: &[u64; SET_WORDS],
    set: &mut [u64; SET_WORDS],
    sl: &[usize; MEMORY_NUMBERS],
    sm: &[u64; MEMORY_WORDS],
) -> usize
    ensures advanced { (x : Sheet) → ReadyPlan p.now x → (goal : Goal) → Wordly x (sheet_by goal x) ws.old → Going p.now x (Good (sheet_by goal x)) ws.old ws.old set.old node.now from below.now last sl.now sm.now → Advanced p.now x (Good (sheet_by goal x)) ws.old set.new node.now result ws.new sl.now sm.now }
    ensures lower_bound { (0 < result → (from < result) × (result ≤ 2 * most_rows)) × (length ws.new ≡ length ws.old) × (length set.new ≡ length set.old) }
{
    let mut to = [0; MOST_ROWS];
    let count = search_node::alternatives(p, node);
    let hint = search_node::hint_of(node);
    for i in from..2 * count {
        let k = turn(count, i);
        if !is_turn(hint, count, i, k) {
            continue;
        }
        if is_refuted(p, ws, node, last, k, below, sl, sm, set, &mut to) {
            continue;
        }
        if take(p, ws, node, k) {
            return i + 1;
        }
    }
    0
}

// Column c of the head of block b, under the valuation of copy k.
fn head_value(p: &[usize; PLAN_NUMBERS], ws: &[usize], b: usize, k: usize, c: usize) -> usize
    requires { (b < most_blocks) × (k < most_copies) × (c < 4) }
    ensures { result ≡ value_of (λ x. linked_state top ws.now (k * names + x)) (get_or (block_numbers p.now b) (block_head + c) 0) }
{
    let t = p[BLOCKS_AT + b * BLOCK_NUMBERS + HEAD_AT + c];
    if t < NAMES {
        return search_links::place_value(ws, k * NAMES + t);
    }
    t - NAMES
}

// The head of block b under the valuation of copy k.
fn head_of(p: &[usize; PLAN_NUMBERS], ws: &[usize], b: usize, k: usize) -> [usize; 4]
    requires { (b < most_blocks) × (k < most_copies) }
    ensures { result ≡ head_row (λ x. linked_state top ws.now (k * names + x)) (block_numbers p.now b) }
{
    [
        head_value(p, ws, b, k, 0),
        head_value(p, ws, b, k, 1),
        head_value(p, ws, b, k, 2),
        head_value(p, ws, b, k, 3),
    ]
}

// Makes the head of listed row i's copy the row. False where that cannot be.
fn settle_row(p: &[usize; PLAN_NUMBERS], ws: &mut [usize], i: usize) -> bool
    requires { i < most_rows }
    ensures { (x : Sheet) → ReadyPlan p.now x → (goal : Goal) → i < row_count p.now → Heads x (sheet_by goal x) ws.old i → HeadsBy result x (sheet_by goal x) ws.new (i + 1) }
{
    let v = tableau_parts::view_at(p, i);
    if MOST_VIEWS <= v {
        return false;
    }
    let u = head_of(p, ws, VIEW_BLOCKS + v, i + 1);
    let row = tableau_parts::values_at(p, i);
    search_links::equate(ws, &u, &row)
}

// Makes the head of each listed row's copy the row. False where that cannot be.
pub fn settle(p: &[usize; PLAN_NUMBERS], ws: &mut [usize]) -> bool
    requires { length ws.old ≡ slot_end }
    ensures { (x : Sheet) → ReadyPlan p.now x → (goal : Goal) → state_of top ws.old ≡ free top → HeadsBy result x (sheet_by goal x) ws.new (row_count p.now) }
{
    let listed = tableau_parts::row_count(p);
    for i in 0..listed {
        if !settle_row(p, ws, i) {
            return false;
        }
    }
    true
}

// Copies words to as many others.
pub fn copy(words: &[usize], out: &mut [usize])
    ensures out_after { length out.old ≡ length words.now → out.new ≡ words.now }
    ensures out_unchanged { (length out.old ≡ length words.now → ⊥) → out.new ≡ out.old }
{
    if out.len() == words.len() {
        out.copy_from_slice(words);
    }
}
