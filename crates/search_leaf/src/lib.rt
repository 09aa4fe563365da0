// Whether a state in plain words is good. Each word is the value of its slot.
#![tactic(auto)]

ghost use Rattle.std.specs.Prelude.{◌≡◌, true, false, ◌+◌, ◌*◌, ◌<◌, ◌≤◌, min, length, get_or, take, IfSome};
ghost use Rattle.query_layout.specs.Layout.{block_head, names};
ghost use Rattle.sheet_format.specs.Limits.{most_atoms, most_rows};
ghost use Rattle.tableau_layout.specs.Layout.{most_blocks, most_copies, slot_end, tableau_atoms, tableau_numbers, view_block};
ghost use Rattle.query_join.specs.Joins.{value_of, head_row};
ghost use Rattle.query_answers.specs.Answers.{WitnessAt};
ghost use Rattle.case_verdicts.specs.Sheets.{top};
ghost use Rattle.case_verdicts.specs.Tableau.{Good};
ghost use Rattle.case_verdicts.specs.Verdict.{Sheet};
ghost use Rattle.case_verdicts.specs.Words.{state_of};
ghost use Rattle.tableau_plan.specs.Plan.{block_numbers, block_size, row_count, row_values};
ghost use Rattle.tableau_parts.specs.Views.{GivenToList};
ghost use Rattle.tableau_parts.specs.Walks.{FormedPlan};
ghost use Rattle.search_keys.specs.Keys.{KeysBy};
ghost use Rattle.search_task.specs.Task.{ReadyPlan, asks, sheet_by, goal_facts, HeadsSettled, asked_row};
ghost use Rattle.search_violation.specs.Parts.{StrayIn};
ghost use Rattle.search_leaf.specs.Leaf.{row_head, RowHeads};

use query_layout::{BLOCK_NUMBERS, FACT_NUMBERS, HEAD_AT, NAMES};
use search_keys::Clash;
use search_task::Goal;
use search_violation::Stray;
use sheet_format::{MOST_LISTS, MOST_VIEWS};
use tableau_layout::{BLOCKS_AT, PLAN_NUMBERS, SLOTS, TABLEAU_ATOMS, TABLEAU_NUMBERS, VIEW_BLOCKS};

// Column c of the head of block b, under the valuation of copy k.
fn head_value(p: &[usize; PLAN_NUMBERS], ws: &[usize; SLOTS], b: usize, k: usize, c: usize) -> usize
    requires { (b < most_blocks) × (k < most_copies) × (c < 4) }
    ensures { length ws.now ≡ slot_end → result ≡ value_of (λ x. state_of top ws.now (k * names + x)) (get_or (block_numbers p.now b) (block_head + c) 0) }
{
    let t = p[BLOCKS_AT + b * BLOCK_NUMBERS + HEAD_AT + c];
    if t < NAMES {
        return ws[k * NAMES + t];
    }
    t - NAMES
}

// The head of block b, under the valuation of copy k.
fn head_of(p: &[usize; PLAN_NUMBERS], ws: &[usize; SLOTS], b: usize, k: usize) -> [usize; 4]
    requires { (b < most_blocks) × (k < most_copies) }
    ensures { length ws.now ≡ slot_end → result ≡ head_row (λ x. state_of top ws.now (k * names + x)) (block_numbers p.now b) }
{
    [
        head_value(p, ws, b, k, 0),
        head_value(p, ws, b, k, 1),
        head_value(p, ws, b, k, 2),
        head_value(p, ws, b, k, 3),
    ]
}

// Whether the head of listed row i's copy is the row.
fn has_row(p: &[usize; PLAN_NUMBERS], ws: &[usize; SLOTS], i: usize) -> bool
    requires { i < most_rows }
    ensures { length ws.now ≡ slot_end → result ≡ true → row_head p.now (state_of top ws.now) i ≡ row_values p.now i }
{
    let v = tableau_parts::view_at(p, i);
    if MOST_VIEWS <= v {
        return false;
    }
    let head = head_of(p, ws, VIEW_BLOCKS + v, i + 1);
    let row = tableau_parts::values_at(p, i);
    tableau_parts::same(head, row)
}

// Whether the head of each listed row's copy is the row.
fn has_rows(p: &[usize; PLAN_NUMBERS], ws: &[usize; SLOTS]) -> bool
    ensures { length ws.now ≡ slot_end → row_count p.now ≤ most_rows → result ≡ true → RowHeads p.now (state_of top ws.now) (row_count p.now) }
{
    for i in 0..tableau_parts::row_count(p) {
        if !has_row(p, ws, i) {
            return false;
        }
    }
    true
}

// The facts of a state, five numbers each, in front of the output; how many facts.
fn write_facts(
    p: &[usize; PLAN_NUMBERS],
    goal: Goal,
    ws: &[usize; SLOTS],
    out: &mut [usize],
) -> usize
    requires { tableau_numbers ≤ length out.old }
    ensures upper_bound { result ≤ tableau_atoms }
    ensures out_after { (x : Sheet) → ReadyPlan p.now x → length ws.now ≡ slot_end → take (result * 5) out.new ≡ goal_facts goal p.now (state_of top ws.now) }
{
    let from = search_task::start(p, goal);
    let n = search_state::facts(p, ws, from, out);
    if TABLEAU_ATOMS < n {
        return 0;
    }
    n
}

// Whether the question is asked and a list is given its head.
fn is_answered(p: &[usize; PLAN_NUMBERS], goal: Goal, ws: &[usize; SLOTS], facts: &[usize]) -> bool
    ensures fact { FormedPlan p.now → length ws.now ≡ slot_end → result ≡ false → asks goal ≡ true → GivenToList p.now facts.now (asked_row p.now (state_of top ws.now)) → ⊥ }
    ensures goal_value { FormedPlan p.now → length ws.now ≡ slot_end → result ≡ true → (asks goal ≡ true) × GivenToList p.now facts.now (asked_row p.now (state_of top ws.now)) }
{
    if !search_task::asks(goal) {
        return false;
    }
    let row = head_of(p, ws, 0, 0);
    tableau_answers::giving_list(p, facts, row) < MOST_LISTS
}

// Whether a state's facts show nothing against it: no list is given the question's head, where that is asked, no two of them clash in a key, and no
// view is given a stray row.
fn is_clean(p: &[usize; PLAN_NUMBERS], goal: Goal, ws: &[usize; SLOTS], facts: &[usize]) -> bool
    ensures { (x : Sheet) → ReadyPlan p.now x → result ≡ true → length ws.now ≡ slot_end → facts.now ≡ goal_facts goal p.now (state_of top ws.now) → HeadsSettled (sheet_by goal x) (state_of top ws.now) → Good (sheet_by goal x) (state_of top ws.now) }
{
    if is_answered(p, goal, ws, facts) {
        return false;
    }
    let clash = search_keys::first_clash(p, facts);
    if clash.some {
        return false;
    }
    search_violation::first(p, facts).is_none()
}

/// Whether the state is good: of the whole sheet where the question is asked, else of its views alone.
pub fn is_good(p: &[usize; PLAN_NUMBERS], goal: Goal, ws: &[usize; SLOTS]) -> bool
    ensures { (x : Sheet) → ReadyPlan p.now x → result ≡ true → length ws.now ≡ slot_end → Good (sheet_by goal x) (state_of top ws.now) }
{
    if !has_rows(p, ws) {
        return false;
    }
    let mut room = [0; TABLEAU_NUMBERS];
    let n = write_facts(p, goal, ws, &mut room);
    is_clean(p, goal, ws, &room[..n * FACT_NUMBERS])
}

/// Whether the question is asked and the facts of the state give a list its head.
pub fn is_given(p: &[usize; PLAN_NUMBERS], goal: Goal, ws: &[usize; SLOTS]) -> bool
    ensures fact { (x : Sheet) → ReadyPlan p.now x → length ws.now ≡ slot_end → result ≡ false → asks goal ≡ true → GivenToList p.now (goal_facts goal p.now (state_of top ws.now)) (asked_row p.now (state_of top ws.now)) → ⊥ }
    ensures goal_value { (x : Sheet) → ReadyPlan p.now x → length ws.now ≡ slot_end → result ≡ true → (asks goal ≡ true) × GivenToList p.now (goal_facts goal p.now (state_of top ws.now)) (asked_row p.now (state_of top ws.now)) }
{
    let mut room = [0; TABLEAU_NUMBERS];
    let n = write_facts(p, goal, ws, &mut room);
    is_answered(p, goal, ws, &room[..n * 5])
}

/// Two facts of the state that clash in a key, if there are any.
pub fn first_clash(p: &[usize; PLAN_NUMBERS], goal: Goal, ws: &[usize; SLOTS]) -> Clash
    ensures { (x : Sheet) → ReadyPlan p.now x → length ws.now ≡ slot_end → KeysBy result.some p.now (goal_facts goal p.now (state_of top ws.now)) result.left result.right }
{
    let mut room = [0; TABLEAU_NUMBERS];
    let n = write_facts(p, goal, ws, &mut room);
    search_keys::first_clash(p, &room[..n * FACT_NUMBERS])
}

/// The first stray row that the facts of the state give a view, if there is one.
pub fn first_stray(p: &[usize; PLAN_NUMBERS], goal: Goal, ws: &[usize; SLOTS]) -> Option<Stray>
    ensures stray { (x : Sheet) → ReadyPlan p.now x → length ws.now ≡ slot_end → StrayIn p.now (goal_facts goal p.now (state_of top ws.now)) result }
    ensures witness { (x : Sheet) → ReadyPlan p.now x → length ws.now ≡ slot_end → IfSome result (λ s. WitnessAt (block_numbers p.now (view_block s.view)) (min (block_size p.now (view_block s.view)) most_atoms) (goal_facts goal p.now (state_of top ws.now)) s.values s.at) }
{
    let mut room = [0; TABLEAU_NUMBERS];
    let n = write_facts(p, goal, ws, &mut room);
    search_violation::first(p, &room[..n * FACT_NUMBERS])
}
