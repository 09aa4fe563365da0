// The search for a case.
#![tactic(auto)]

ghost use Rattle.std.specs.Prelude.{◌≡◌, true, false, List, ℕ, ◌+◌, ◌*◌, ◌-◌, ◌<◌, ◌≤◌, length};
ghost use Rattle.sheet_format.specs.Limits.{most_rows};
ghost use Rattle.tableau_layout.specs.Layout.{slot_end};
ghost use Rattle.case_verdicts.specs.Verdict.{Sheet};
ghost use Rattle.case_verdicts.specs.Tableau.{Good};
ghost use Rattle.case_verdicts.specs.Search.{free};
ghost use Rattle.search_slots.specs.Slots.{set_words};
ghost use Rattle.search_nogoods.specs.Sizes.{memory_numbers, memory_words};
ghost use Rattle.search_task.specs.Task.{ReadyPlan, sheet_by};
ghost use Rattle.search_node.specs.Node.{Wordly, OpenState};
ghost use Rattle.search_step.specs.Run.{Remembers, SearchBegun, FoundOrLost, Advanced, Behind, LookedInto, LearntAhead, JudgedState, LookedBy, FoundBy};
ghost use Rattle.search_task.specs.declared.Goal.{Goal};

use search_advice::Standing;
use search_board::{Advice, Board};
use search_node::NODE_NUMBERS;
use search_nogoods::{MEMORY_NUMBERS, MEMORY_WORDS};
use search_slots::SET_WORDS;
use search_task::Goal;
use sheet_format::MOST_ROWS;
use tableau_layout::{PLAN_NUMBERS, SLOTS};

// A search goes no deeper than there are slots.
const DEPTH: usize = SLOTS + 1;

// So many listed rows that fail ahead are looked into in one state: one for each slot and row.
const LESSONS: usize = SLOTS * MOST_ROWS;

// Lets advice know of a failure, and stand as it did before the step.
fn go_back(
    p: &[usize; PLAN_NUMBERS],
    ws: &[usize; SLOTS],
    goal: Goal,
    stand: &Standing,
    board: &mut Board,
) {
    search_advice::failed(board);
    search_advice::back(board, p, ws, search_task::start(p, goal), stand);
}

// Goes on to the next alternative. The one of the turn before i, if there is one, has failed by the slots `below`: it is taken back. Then i is the turn
// after that of the alternative that is taken. 0: none is, and the set has the slots that this rests on.
fn advance(
    p: &[usize; PLAN_NUMBERS],
    ws: &mut [usize; SLOTS],
    goal: Goal,
    node: &[usize; NODE_NUMBERS],
    i: &mut usize,
    stand: &Standing,
    below: &mut [u64; SET_WORDS],
    set: &mut [u64; SET_WORDS],
    sl: &mut [usize; MEMORY_NUMBERS],
    sm: &mut [u64; MEMORY_WORDS],
    board: &mut Board,
)
    requires { (length below.old ≡ set_words) × (length sl.old ≡ memory_numbers) × (length sm.old ≡ memory_words) }
    ensures advanced { (x : Sheet) → ReadyPlan p.now x → (old : List ℕ) → Wordly x (sheet_by goal x) old → Behind p.now x (Good (sheet_by goal x)) old set.old node.now i.old ws.old below.old sl.old sm.old → Advanced p.now x (Good (sheet_by goal x)) old set.new node.now i.new ws.new sl.new sm.new }
    ensures i_lt_i { 0 < i.new → (i.old < i.new) × (i.new ≤ 2 * most_rows) }
    ensures ws_len_unchanged { (length ws.new ≡ length ws.old) × (length below.new ≡ length below.old) × (length sl.new ≡ length sl.old) × (length sm.new ≡ length sm.old) × (length set.new ≡ length set.old) }
{
    let from = *i;
    if from == 0 {
        *i = search_step::next(p, ws, node, 0, MOST_ROWS, below, set, sl, sm);
        return;
    }
    let k = search_step::turn(search_node::alternatives(p, node), from - 1);
    let jump = search_step::leave(p, ws, node, k, below, set, sl, sm);
    go_back(p, ws, goal, stand, board);
    if jump {
        *i = 0;
        return;
    }
    *i = search_step::next(p, ws, node, from, k, below, set, sl, sm);
}

// Whether no alternative of a node is left to be tried. The words stay. True: the set has the slots that this rests on.
fn is_closed(
    p: &[usize; PLAN_NUMBERS],
    ws: &mut [usize; SLOTS],
    node: &[usize; NODE_NUMBERS],
    set: &mut [u64; SET_WORDS],
    sl: &[usize; MEMORY_NUMBERS],
    sm: &[u64; MEMORY_WORDS],
) -> bool
    ensures looked_into { (x : Sheet) → ReadyPlan p.now x → (goal : Goal) → Wordly x (sheet_by goal x) ws.old → OpenState p.now x (Good (sheet_by goal x)) ws.old set.old node.now → Remembers (Good (sheet_by goal x)) ws.old sl.now sm.now → LookedInto (Good (sheet_by goal x)) result ws.old ws.new set.new }
    ensures ws_len_unchanged { (length ws.new ≡ length ws.old) × (length set.new ≡ length set.old) }
{
    let none = search_slots::none();
    let i = search_step::next(p, ws, node, 0, MOST_ROWS, &none, set, sl, sm);
    if i == 0 {
        return true;
    }
    let k = search_step::turn(search_node::alternatives(p, node), i - 1);
    search_step::untake(p, ws, node, k);
    false
}

// Whether what advice names leaves nothing to be tried in a state. The words stay. True: the set has the slots that this rests on.
fn is_ended(
    p: &[usize; PLAN_NUMBERS],
    ws: &mut [usize; SLOTS],
    goal: Goal,
    a: Advice,
    set: &mut [u64; SET_WORDS],
    sl: &[usize; MEMORY_NUMBERS],
    sm: &[u64; MEMORY_WORDS],
) -> bool
    ensures looked_into { (x : Sheet) → ReadyPlan p.now x → Wordly x (sheet_by goal x) ws.old → Remembers (Good (sheet_by goal x)) ws.old sl.now sm.now → LookedInto (Good (sheet_by goal x)) result ws.old ws.new set.new }
    ensures ws_len_unchanged { (length ws.new ≡ length ws.old) × (length set.new ≡ length set.old) }
{
    let mut node = [0; NODE_NUMBERS];
    if !search_node::show_node(p, ws, goal, a, set, &mut node) {
        return false;
    }
    is_closed(p, ws, &node, set, sl, sm)
}

// Looks into it that alternative k of the node which advice names fails, for the reason that is named: what is learnt of it goes into the table. The
// words stay. True: the failure does not rest on the alternative, and the set has the slots that it rests on.
fn learn_ahead(
    p: &[usize; PLAN_NUMBERS],
    ws: &mut [usize; SLOTS],
    goal: Goal,
    a: Advice,
    k: usize,
    why: Advice,
    set: &mut [u64; SET_WORDS],
    sl: &mut [usize; MEMORY_NUMBERS],
    sm: &mut [u64; MEMORY_WORDS],
) -> bool
    requires { (length sl.old ≡ memory_numbers) × (length sm.old ≡ memory_words) }
    ensures learnt_ahead { (x : Sheet) → ReadyPlan p.now x → Wordly x (sheet_by goal x) ws.old → Remembers (Good (sheet_by goal x)) ws.old sl.old sm.old → LearntAhead (Good (sheet_by goal x)) result ws.old ws.new set.new sl.new sm.new }
    ensures ws_len_unchanged { (length ws.new ≡ length ws.old) × (length sl.new ≡ length sl.old) × (length sm.new ≡ length sm.old) × (length set.new ≡ length set.old) }
{
    let mut node = [0; NODE_NUMBERS];
    if !search_node::show_node(p, ws, goal, a, set, &mut node) {
        return false;
    }
    if search_node::alternatives(p, &node) <= k {
        return false;
    }
    if !search_node::is_live(p, &node, k) {
        return false;
    }
    if !search_step::take(p, ws, &node, k) {
        return false;
    }
    let mut below = search_slots::none();
    if is_ended(p, ws, goal, why, &mut below, sl, sm) {
        return search_step::leave(p, ws, &node, k, &mut below, set, sl, sm);
    }
    search_step::untake(p, ws, &node, k);
    false
}

// What a state is found to be, once it was looked into which listed rows fail one step ahead, as advice says. Good: the values of a good state stand in
// `out`. Refuted or open: the set has the slots that this rests on. The words stay.
fn judge_state(
    p: &[usize; PLAN_NUMBERS],
    ws: &mut [usize; SLOTS],
    goal: Goal,
    set: &mut [u64; SET_WORDS],
    sl: &mut [usize; MEMORY_NUMBERS],
    sm: &mut [u64; MEMORY_WORDS],
    board: &mut Board,
    node: &mut [usize; NODE_NUMBERS],
    out: &mut [usize; SLOTS],
) -> bool
    requires { (length sl.old ≡ memory_numbers) × (length sm.old ≡ memory_words) }
    ensures judged_state { (x : Sheet) → ReadyPlan p.now x → Wordly x (sheet_by goal x) ws.old → Remembers (Good (sheet_by goal x)) ws.old sl.old sm.old → length out.old ≡ slot_end → JudgedState result p.now x (sheet_by goal x) ws.old ws.new set.new node.new out.new sl.new sm.new }
    ensures ws_len_unchanged { (length ws.new ≡ length ws.old) × (length sl.new ≡ length sl.old) × (length sm.new ≡ length sm.old) × (length set.new ≡ length set.old) × (length out.new ≡ length out.old) }
{
    let asked = search_task::asks(goal);
    let from = search_task::start(p, goal);
    let mut a = search_advice::advise(board, p, ws, asked, from, sl);
    for _ in 0..LESSONS {
        let Advice::RowFails { row, .. } = a else {
            return search_node::judge_by(p, ws, goal, a, set, board, node, out);
        };
        let why = search_advice::reason(board);
        if learn_ahead(p, ws, goal, a, usize::from(row), why, set, sl, sm) {
            search_node::refute(node);
            return false;
        }
        a = search_advice::advise_on(board, p, ws, asked, sl);
    }
    search_node::judge_by(p, ws, goal, a, set, board, node, out)
}

// Looks for a good state below the words, where one of a node's alternatives has to hold, at most so many steps deep. True: its values stand in `out`.
// False: there is none, the words are as they were, and the set has the slots that this rests on. Values that were refuted on the way are kept in a
// table. What a step needs stands in few words here, since steps can be many.
fn seek(
    p: &[usize; PLAN_NUMBERS],
    ws: &mut [usize; SLOTS],
    goal: Goal,
    node: &[usize; NODE_NUMBERS],
    left: usize,
    set: &mut [u64; SET_WORDS],
    sl: &mut [usize; MEMORY_NUMBERS],
    sm: &mut [u64; MEMORY_WORDS],
    board: &mut Board,
    out: &mut [usize; SLOTS],
) -> bool
    requires { (length ws.old ≡ slot_end) × (length sl.old ≡ memory_numbers) × (length sm.old ≡ memory_words) × (length out.old ≡ slot_end) × (length set.old ≡ set_words) }
    ensures found_or_lost { (x : Sheet) → ReadyPlan p.now x → SearchBegun p.now x (sheet_by goal x) ws.old left set.old node.now sl.old sm.old → FoundOrLost result x (sheet_by goal x) ws.old ws.new set.new sl.new sm.new out.new }
    ensures ws_len { (length ws.new ≡ slot_end) × (length sl.new ≡ memory_numbers) × (length sm.new ≡ memory_words) × (length out.new ≡ slot_end) × (length set.new ≡ set_words) }
{
    if left == 0 {
        return false;
    }
    let mut stand = Standing::default();
    search_advice::note_standing(board, &mut stand);
    let mut below = search_slots::none();
    let mut child = [0; NODE_NUMBERS];
    let mut i = 0;
    advance(
        p, ws, goal, node, &mut i, &stand, &mut below, set, sl, sm, board,
    );
    while 0 < i {
        if judge_state(p, ws, goal, &mut below, sl, sm, board, &mut child, out) {
            return true;
        }
        if seek(
            p,
            ws,
            goal,
            &child,
            left - 1,
            &mut below,
            sl,
            sm,
            board,
            out,
        ) {
            return true;
        }
        advance(
            p, ws, goal, node, &mut i, &stand, &mut below, set, sl, sm, board,
        );
    }
    false
}

// Looks for a good state that obeys settled words. True: its values stand in `out`. False: there is none.
fn look(
    p: &[usize; PLAN_NUMBERS],
    ws: &mut [usize; SLOTS],
    goal: Goal,
    out: &mut [usize; SLOTS],
) -> bool
    requires { (length ws.old ≡ slot_end) × (length out.old ≡ slot_end) }
    ensures looked_by { (x : Sheet) → ReadyPlan p.now x → Wordly x (sheet_by goal x) ws.old → LookedBy result x (sheet_by goal x) ws.old out.new }
    ensures out_len { length out.new ≡ slot_end }
{
    let mut sl = [0; MEMORY_NUMBERS];
    let mut sm = [0u64; MEMORY_WORDS];
    let mut board = Board::new();
    let mut node = [0; NODE_NUMBERS];
    let mut set = search_slots::none();
    search_advice::begin(&mut board, p, search_task::start(p, goal));
    if judge_state(
        p, ws, goal, &mut set, &mut sl, &mut sm, &mut board, &mut node, out,
    ) {
        return true;
    }
    seek(
        p, ws, goal, &node, DEPTH, &mut set, &mut sl, &mut sm, &mut board, out,
    )
}

// Searches for a good state: of the whole sheet where the question is asked, else of its views alone. True: there is one, and it stands in the 533
// words that are lent. More or fewer words are left as they are, and so are all where there is none.
pub fn find(p: &[usize; PLAN_NUMBERS], goal: Goal, out: &mut [usize]) -> bool
    ensures found_by { (x : Sheet) → ReadyPlan p.now x → length out.old ≡ slot_end → FoundBy result x (sheet_by goal x) out.new }
    ensures out_unchanged { result ≡ false → out.new ≡ out.old }
    ensures out_unchanged_2 { (length out.old ≡ slot_end → ⊥) → out.new ≡ out.old }
{
    let mut words = [0; SLOTS];
    search_links::free(&mut words);
    if !search_step::settle(p, &mut words) {
        return false;
    }
    let mut state = [0; SLOTS];
    if !look(p, &mut words, goal, &mut state) {
        return false;
    }
    search_step::copy(&state, out);
    true
}
