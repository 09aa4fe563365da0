// What a state of the search is found to be: good, or a node, whose alternatives are left; refuted, if it has none.
//
// What to look at comes from advice, which is believed in nothing: each proposal is checked against the words. Where none is left, the state is looked
// at whole.
#![tactic(auto)]

ghost use Rattle.std.specs.Prelude.{◌≡◌, true, false, List, ℕ, ◌<◌, ◌≤◌, length, get_or, IfSome};
ghost use Rattle.sheet_format.specs.Limits.{most_rows};
ghost use Rattle.tableau_layout.specs.Layout.{slot_end, tableau_atoms};
ghost use Rattle.case_verdicts.specs.Verdict.{Sheet};
ghost use Rattle.case_verdicts.specs.Sheets.{top};
ghost use Rattle.case_verdicts.specs.Tableau.{Good};
ghost use Rattle.search_task.specs.Task.{ReadyPlan, sheet_by, goal_facts};
ghost use Rattle.tableau_parts.specs.Views.{StrayAt};
ghost use Rattle.tableau_parts.specs.Walks.{Limited};
ghost use Rattle.search_links.specs.Links.{linked_state};
ghost use Rattle.search_reasons.specs.Reasons.{RestsOn};
ghost use Rattle.search_slots.specs.Slots.{in_set};
ghost use Rattle.search_keys.specs.Keys.{KeyClash};
ghost use Rattle.search_keys.specs.Clashes.{ClashAt};
ghost use Rattle.search_node.specs.Choices.{rows_kind, pair_kind, each_kind, right_at, node_kind, node_hint, one_value, node_of_parts, part_of, left_of, right_of, how_many, LiveBy};
ghost use Rattle.search_node.specs.Node.{Standing, Wordly, WordOf, TermAt, TableauTerm, AtomsOf, StateFound, RowOpen, OpenState, NodeBy};
ghost use Rattle.search_task.specs.declared.Goal.{Goal};

use query_layout::{COLUMNS, FACT_NUMBERS, MADE_UP};
use search_board::{Advice, Board, list_block};
use search_keys::Clash;
use search_slots::SET_WORDS;
use search_task::Goal;
use search_violation::Stray;
use sheet_format::{MOST_ATOMS, MOST_VIEWS};
use tableau_layout::{
    LIST_BLOCKS, PLAN_NUMBERS, SLOTS, TABLEAU_ATOMS, TABLEAU_SIZE_AT, VIEW_BLOCKS,
};

// ---- nodes

// A node of the search: alternatives, each a pair of rows of four values, of which one has to become one. Its numbers are a kind, a view or a count, and
// two rows.
pub const NODE_NUMBERS: usize = RIGHT_AT + COLUMNS;

const KIND_AT: usize = 0;

const NUMBER_AT: usize = 1;

const LEFT_AT: usize = 2;

const RIGHT_AT: usize = LEFT_AT + COLUMNS;

// The left row has to become one of a view's listed rows.
const ROWS: usize = 0;

// The two rows have to become one.
const PAIR: usize = 1;

// In one of so many columns the values of the two rows have to become one.
const EACH: usize = 2;

// A node by its parts.
fn node_by(kind: usize, number: usize, a: [usize; 4], b: [usize; 4]) -> [usize; NODE_NUMBERS]
    ensures { result ≡ node_of_parts kind number a b }
{
    [kind, number, a[0], a[1], a[2], a[3], b[0], b[1], b[2], b[3]]
}

// A node where a row has to become one of a view's listed rows. The right row is free: as digits, it has the listed rows to try first.
pub fn rows_node(view: usize, u: [usize; 4], hint: u64) -> [usize; NODE_NUMBERS]
    ensures { result ≡ node_of_parts rows_kind view u (one_value hint) }
{
    node_by(ROWS, view, u, [hint as usize, 0, 0, 0])
}

// A node where two rows have to become one.
pub fn pair_node(a: [usize; 4], b: [usize; 4]) -> [usize; NODE_NUMBERS]
    ensures { result ≡ node_of_parts pair_kind 0 a b }
{
    node_by(PAIR, 0, a, b)
}

// A node where two rows have to have the same value in one of the first columns.
pub fn each_node(count: usize, a: [usize; 4], b: [usize; 4]) -> [usize; NODE_NUMBERS]
    ensures { result ≡ node_of_parts each_kind count a b }
{
    node_by(EACH, count, a, b)
}

// How many alternatives a node has, live or not.
pub fn alternatives(p: &[usize; PLAN_NUMBERS], node: &[usize; NODE_NUMBERS]) -> usize
    ensures { Limited (how_many p.now node.now) most_rows result }
{
    let kind = node[KIND_AT];
    if kind == ROWS {
        return tableau_parts::row_count(p);
    }
    if kind != EACH {
        return 1;
    }
    let count = node[NUMBER_AT];
    if count < COLUMNS {
        return count;
    }
    COLUMNS
}

// As digits, the alternatives to try first.
pub fn hint_of(node: &[usize; NODE_NUMBERS]) -> u64
    ensures { result ≡ node_hint node.now }
{
    if node[KIND_AT] == ROWS {
        return node[RIGHT_AT] as u64;
    }
    0
}

// Whether the alternatives are listed rows.
pub fn is_of_rows(node: &[usize; NODE_NUMBERS]) -> bool
    ensures { result ≡ true → node_kind node.now ≡ rows_kind }
{
    node[KIND_AT] == ROWS
}

// Whether alternative k has to be tried, as its view tells.
pub fn is_live(p: &[usize; PLAN_NUMBERS], node: &[usize; NODE_NUMBERS], k: usize) -> bool
    ensures { k < most_rows → LiveBy result p.now node.now k }
{
    if node[KIND_AT] != ROWS {
        return true;
    }
    tableau_parts::view_at(p, k) == node[NUMBER_AT]
}

// A row of alternative k: the whole of it, or its column k alone.
fn part_of(node: &[usize; NODE_NUMBERS], at: usize, k: usize) -> [usize; 4]
    requires { at ≤ right_at }
    ensures { (k < 4 → result ≡ part_of node.now at k) × ((node_kind node.now ≡ each_kind → ⊥) → result ≡ part_of node.now at k) }
{
    if node[KIND_AT] != EACH {
        return [node[at], node[at + 1], node[at + 2], node[at + 3]];
    }
    if k < COLUMNS {
        return [node[at + k], 0, 0, 0];
    }
    [0; 4]
}

// The left row of alternative k.
pub fn left_row(node: &[usize; NODE_NUMBERS], k: usize) -> [usize; 4]
    ensures { ((p : List ℕ) → k < how_many p node.now → result ≡ left_of node.now k) × (length result ≡ 4) }
{
    part_of(node, LEFT_AT, k)
}

// The right row of alternative k.
pub fn right_row(p: &[usize; PLAN_NUMBERS], node: &[usize; NODE_NUMBERS], k: usize) -> [usize; 4]
    ensures { (k < most_rows → k < how_many p.now node.now → result ≡ right_of p.now node.now k) × (length result ≡ 4) }
{
    if node[KIND_AT] == ROWS {
        return tableau_parts::values_at(p, k);
    }
    part_of(node, RIGHT_AT, k)
}

// ---- what a state is found to be

// A row of a view that is not listed.
#[derive(Clone, Copy, Debug)]
struct OpenRow {
    view: usize,
    values: [usize; 4],
}

// A node with no alternatives: a state with it is refuted.
pub fn refute(node: &mut [usize; NODE_NUMBERS])
    ensures { node.new ≡ node_of_parts each_kind 0 (one_value 0) (one_value 0) }
{
    *node = each_node(0, [0; 4], [0; 4]);
}

// The values of the slots.
fn read_all(ws: &[usize; SLOTS], out: &mut [usize; SLOTS])
    ensures n_after { length out.old ≡ slot_end → (n : ℕ) → n < slot_end → get_or out.new n 0 ≡ linked_state top ws.now n }
    ensures out_len_unchanged { length out.new ≡ length out.old }
{
    for n in 0..SLOTS {
        out[n] = search_links::place_value(ws, n);
    }
}

// Whether atoms of the tableau give list block b the question's head; if so, the set is what this rests on.
fn is_shut(
    p: &[usize; PLAN_NUMBERS],
    ws: &[usize; SLOTS],
    b: usize,
    at: &[usize; MOST_ATOMS],
    set: &mut [u64; SET_WORDS],
) -> bool
    ensures rests_on { (x : Sheet) → ReadyPlan p.now x → result ≡ true → RestsOn (Good x) ws.now set.new }
    ensures set_len_unchanged { length set.new ≡ length set.old }
{
    if b < LIST_BLOCKS {
        return false;
    }
    let list = b - LIST_BLOCKS;
    if tableau_parts::list_count(p) <= list {
        return false;
    }
    let given = search_witness::show(p, ws, 0, b, at, set);
    if !given.ok {
        return false;
    }
    let asked = search_witness::asked(p, ws, set);
    if !asked.ok {
        return false;
    }
    let row = given.row;
    let head = asked.row;
    tableau_parts::same(row, head)
}

// The row that atoms of the tableau give view block b, if it is none of the listed; the set is what this rests on.
fn open_row(
    p: &[usize; PLAN_NUMBERS],
    ws: &[usize; SLOTS],
    goal: Goal,
    b: usize,
    at: &[usize; MOST_ATOMS],
    set: &mut [u64; SET_WORDS],
) -> Option<OpenRow>
    ensures row_open { (x : Sheet) → ReadyPlan p.now x → Wordly x (sheet_by goal x) ws.now → IfSome result (λ o. RowOpen p.now x (Good (sheet_by goal x)) ws.now set.new o.view o.values) }
    ensures set_len_unchanged { length set.new ≡ length set.old }
{
    if b < VIEW_BLOCKS {
        return None;
    }
    let view = b - VIEW_BLOCKS;
    if tableau_parts::view_count(p) <= view {
        return None;
    }
    let given = search_witness::show(p, ws, search_task::start(p, goal), b, at, set);
    if !given.ok {
        return None;
    }
    let values = given.row;
    if tableau_parts::is_listed(p, tableau_parts::row_count(p), view, values) {
        return None;
    }
    Some(OpenRow { view, values })
}

// Leaves every slot in the set.
fn fill(set: &mut [u64; SET_WORDS])
    ensures { ((n : ℕ) → in_set set.new n ≡ true) × (length set.new ≡ length set.old) }
{
    let no = search_slots::none();
    search_slots::put(set, &no[..0]);
}

// The atoms of the tableau that are these facts of a state: its facts begin at atom `from`.
fn atoms_of(at: &[usize; MOST_ATOMS], from: usize) -> [usize; MOST_ATOMS] {
    at.map(|i| {
        if i < TABLEAU_ATOMS && from < TABLEAU_ATOMS {
            from + i
        } else {
            TABLEAU_ATOMS
        }
    })
}

// Whether v is a slot's word.
fn is_word(ws: &[usize; SLOTS], v: usize) -> bool
    ensures { result ≡ true → WordOf ws.now v }
{
    for word in ws {
        if *word == v {
            return true;
        }
    }
    false
}

// Whether atom i of the tableau has the place w.
fn has_term(p: &[usize; PLAN_NUMBERS], i: usize, w: usize) -> bool
    requires { i < tableau_atoms }
    ensures { result ≡ true → TermAt p.now i w }
{
    for c in 0..COLUMNS {
        if p[i * FACT_NUMBERS + 1 + c] == w {
            return true;
        }
    }
    false
}

// Whether an atom of the tableau has the place w.
fn is_term(p: &[usize; PLAN_NUMBERS], w: usize) -> bool
    ensures { result ≡ true → TableauTerm p.now w }
{
    let size = p[TABLEAU_SIZE_AT];
    if TABLEAU_ATOMS < size {
        return false;
    }
    for i in 0..size {
        if has_term(p, i, w) {
            return true;
        }
    }
    false
}

// Whether v is sure to be a number of the sheet, or is made up: slot n's value, a value made up, a slot's word, or a constant of the tableau.
fn is_standing(p: &[usize; PLAN_NUMBERS], ws: &[usize; SLOTS], n: usize, v: usize) -> bool
    ensures { (x y : Sheet) → ReadyPlan p.now x → Wordly x y ws.now → n < slot_end → result ≡ true → Standing x v }
{
    if search_links::place_value(ws, n) == v {
        return true;
    }
    if MADE_UP <= v {
        return v < MADE_UP + SLOTS;
    }
    if is_word(ws, v) {
        return true;
    }
    if v == 0 {
        return false;
    }
    is_term(p, SLOTS + v)
}

// Writes these values of the slots, as long as each is sure to be a number of the sheet or is made up; whether all are.
fn take_values(
    p: &[usize; PLAN_NUMBERS],
    ws: &[usize; SLOTS],
    values: &[usize; SLOTS],
    out: &mut [usize; SLOTS],
) -> bool
    ensures standing { (x y : Sheet) → ReadyPlan p.now x → Wordly x y ws.now → length out.old ≡ slot_end → result ≡ true → (n : ℕ) → n < slot_end → Standing x (get_or out.new n 0) }
    ensures out_len_unchanged { length out.new ≡ length out.old }
{
    for n in 0..SLOTS {
        let v = values[n];
        if !is_standing(p, ws, n, v) {
            return false;
        }
        out[n] = v;
    }
    true
}

// A node where a row has to become a listed one, by all words.
fn by_all(
    view: usize,
    values: [usize; 4],
    set: &mut [u64; SET_WORDS],
    node: &mut [usize; NODE_NUMBERS],
)
    ensures node_after { node.new ≡ node_of_parts rows_kind view values (one_value 0) }
    ensures by_index { ((n : ℕ) → in_set set.new n ≡ true) × (length set.new ≡ length set.old) }
{
    fill(set);
    *node = rows_node(view, values, 0);
}

// The row that the facts of the whole state give a view: by the words that show it where its facts do, else by all words.
fn by_row(
    p: &[usize; PLAN_NUMBERS],
    ws: &[usize; SLOTS],
    goal: Goal,
    stray: Stray,
    set: &mut [u64; SET_WORDS],
    node: &mut [usize; NODE_NUMBERS],
)
    ensures open_state { (x : Sheet) → ReadyPlan p.now x → Wordly x (sheet_by goal x) ws.now → StrayAt p.now (goal_facts goal p.now (linked_state top ws.now)) stray.view stray.values → OpenState p.now x (Good (sheet_by goal x)) ws.now set.new node.new }
    ensures set_len_unchanged { length set.new ≡ length set.old }
{
    let at = stray.at;
    let view = stray.view;
    let values = stray.values;
    if MOST_VIEWS <= view {
        by_all(view, values, set, node);
        return;
    }
    let atoms = atoms_of(&at, search_task::start(p, goal));
    search_slots::clear(set);
    if let Some(shown) = open_row(p, ws, goal, VIEW_BLOCKS + view, &atoms, set) {
        let row = shown.values;
        *node = rows_node(shown.view, row, 0);
        return;
    }
    by_all(view, values, set, node);
}

// The node of two atoms of the search that clash in a key: their rows have to become one.
fn key_node(
    p: &[usize; PLAN_NUMBERS],
    ws: &[usize; SLOTS],
    i: usize,
    k: usize,
    set: &mut [u64; SET_WORDS],
    node: &mut [usize; NODE_NUMBERS],
)
    ensures open_state { (goal : Goal) (x : Sheet) → ReadyPlan p.now x → Wordly x (sheet_by goal x) ws.now → AtomsOf goal p.now i k → ClashAt p.now ws.now i k → OpenState p.now x (Good (sheet_by goal x)) ws.now set.new node.new }
    ensures set_len_unchanged { length set.new ≡ length set.old }
{
    search_slots::clear(set);
    let rows = search_keys::show(p, ws, i, k, set);
    let left = rows.left;
    let right = rows.right;
    *node = pair_node(left, right);
}

// The node of two facts of the whole state that clash in a key.
fn by_clash(
    p: &[usize; PLAN_NUMBERS],
    ws: &[usize; SLOTS],
    goal: Goal,
    clash: Clash,
    set: &mut [u64; SET_WORDS],
    node: &mut [usize; NODE_NUMBERS],
)
    ensures open_state { (x : Sheet) → ReadyPlan p.now x → Wordly x (sheet_by goal x) ws.now → KeyClash p.now (goal_facts goal p.now (linked_state top ws.now)) clash.left clash.right → OpenState p.now x (Good (sheet_by goal x)) ws.now set.new node.new }
    ensures set_len_unchanged { length set.new ≡ length set.old }
{
    let from = search_task::start(p, goal);
    let i = clash.left;
    let k = clash.right;
    if TABLEAU_ATOMS < from {
        return;
    }
    if TABLEAU_ATOMS <= i {
        return;
    }
    if TABLEAU_ATOMS <= k {
        return;
    }
    key_node(p, ws, from + i, from + k, set, node);
}

// The node that two atoms show which clash in a key. False: they show nothing.
fn clash_node(
    p: &[usize; PLAN_NUMBERS],
    ws: &[usize; SLOTS],
    goal: Goal,
    i: usize,
    k: usize,
    set: &mut [u64; SET_WORDS],
    node: &mut [usize; NODE_NUMBERS],
) -> bool
    ensures open_state { (x : Sheet) → ReadyPlan p.now x → Wordly x (sheet_by goal x) ws.now → result ≡ true → OpenState p.now x (Good (sheet_by goal x)) ws.now set.new node.new }
    ensures set_len_unchanged { length set.new ≡ length set.old }
{
    let from = search_task::start(p, goal);
    let size = p[TABLEAU_SIZE_AT];
    if i < from || size <= i || k < from || size <= k {
        return false;
    }
    if !search_keys::are_clashing(p, ws, i, k) {
        return false;
    }
    key_node(p, ws, i, k, set, node);
    true
}

// A state looked at whole: good, and then its values stand in `out`; refuted, by a list that is given the question's head; or open at two facts that
// clash in a key, or at the first row that is not listed.
fn by_walk(
    p: &[usize; PLAN_NUMBERS],
    ws: &[usize; SLOTS],
    goal: Goal,
    set: &mut [u64; SET_WORDS],
    node: &mut [usize; NODE_NUMBERS],
    out: &mut [usize; SLOTS],
) -> bool
    ensures node_by { (x : Sheet) → ReadyPlan p.now x → Wordly x (sheet_by goal x) ws.now → length out.old ≡ slot_end → NodeBy result p.now x (sheet_by goal x) ws.now set.new node.new out.new }
    ensures set_len_unchanged { (length set.new ≡ length set.old) × (length out.new ≡ length out.old) }
{
    read_all(ws, out);
    if search_leaf::is_given(p, goal, out) {
        fill(set);
        refute(node);
        return false;
    }
    let clash = search_leaf::first_clash(p, goal, out);
    if clash.some {
        by_clash(p, ws, goal, clash, set, node);
        return false;
    }
    if let Some(stray) = search_leaf::first_stray(p, goal, out) {
        by_row(p, ws, goal, stray, set, node);
        return false;
    }
    true
}

// Whether the state is good where the facts that advice leaves out are read as others; if so, its values stand in `out`.
fn is_resolved(
    p: &[usize; PLAN_NUMBERS],
    ws: &[usize; SLOTS],
    goal: Goal,
    board: &Board,
    out: &mut [usize; SLOTS],
) -> bool
    ensures state_found { (x : Sheet) → ReadyPlan p.now x → Wordly x (sheet_by goal x) ws.now → length out.old ≡ slot_end → result ≡ true → StateFound x (sheet_by goal x) out.new }
    ensures out_len_unchanged { length out.new ≡ length out.old }
{
    let mut values = [0usize; SLOTS];
    search_fold::resolve(board, p, ws, &mut values);
    if !take_values(p, ws, &values, out) {
        return false;
    }
    search_leaf::is_good(p, goal, out)
}

// The node that atoms show which give list block b the question's head: it has no alternatives. False: they show nothing.
fn list_node(
    p: &[usize; PLAN_NUMBERS],
    ws: &[usize; SLOTS],
    goal: Goal,
    b: usize,
    at: &[usize; MOST_ATOMS],
    set: &mut [u64; SET_WORDS],
    node: &mut [usize; NODE_NUMBERS],
) -> bool
    ensures open_state { (x : Sheet) → ReadyPlan p.now x → result ≡ true → OpenState p.now x (Good (sheet_by goal x)) ws.now set.new node.new }
    ensures set_len_unchanged { length set.new ≡ length set.old }
{
    if !search_task::asks(goal) {
        return false;
    }
    if !is_shut(p, ws, b, at, set) {
        return false;
    }
    refute(node);
    true
}

// The node that atoms show which give view block b a row that is not listed. False: they show nothing.
fn view_node(
    p: &[usize; PLAN_NUMBERS],
    ws: &[usize; SLOTS],
    goal: Goal,
    b: usize,
    at: &[usize; MOST_ATOMS],
    hint: u64,
    set: &mut [u64; SET_WORDS],
    node: &mut [usize; NODE_NUMBERS],
) -> bool
    ensures open_state { (x : Sheet) → ReadyPlan p.now x → Wordly x (sheet_by goal x) ws.now → result ≡ true → OpenState p.now x (Good (sheet_by goal x)) ws.now set.new node.new }
    ensures set_len_unchanged { length set.new ≡ length set.old }
{
    let Some(shown) = open_row(p, ws, goal, b, at, set) else {
        return false;
    };
    let row = shown.values;
    *node = rows_node(shown.view, row, hint);
    true
}

// The node that advice names, if the words show it; then the set has the slots that it rests on.
pub fn show_node(
    p: &[usize; PLAN_NUMBERS],
    ws: &[usize; SLOTS],
    goal: Goal,
    a: Advice,
    set: &mut [u64; SET_WORDS],
    node: &mut [usize; NODE_NUMBERS],
) -> bool
    ensures open_state { (x : Sheet) → ReadyPlan p.now x → Wordly x (sheet_by goal x) ws.now → result ≡ true → OpenState p.now x (Good (sheet_by goal x)) ws.now set.new node.new }
    ensures set_len_unchanged { length set.new ≡ length set.old }
{
    search_slots::clear(set);
    match a {
        Advice::Nothing => false,
        Advice::ListGiven { list, at } => {
            let atoms = at.map(|i| usize::from(i));
            list_node(p, ws, goal, list_block(list), &atoms, set, node)
        }
        Advice::RowGiven { kept, first } => {
            let atoms = kept.atoms();
            view_node(p, ws, goal, kept.block(), &atoms, first.digits(), set, node)
        }
        Advice::RowFails { kept, row } => {
            let atoms = kept.atoms();
            view_node(p, ws, goal, kept.block(), &atoms, u64::from(row), set, node)
        }
        Advice::KeyBroken(i, k) => {
            clash_node(p, ws, goal, usize::from(i), usize::from(k), set, node)
        }
    }
}

// The state where nothing is said to be left.
fn by_values(
    p: &[usize; PLAN_NUMBERS],
    ws: &[usize; SLOTS],
    goal: Goal,
    board: &Board,
    set: &mut [u64; SET_WORDS],
    node: &mut [usize; NODE_NUMBERS],
    out: &mut [usize; SLOTS],
) -> bool
    ensures node_by { (x : Sheet) → ReadyPlan p.now x → Wordly x (sheet_by goal x) ws.now → length out.old ≡ slot_end → NodeBy result p.now x (sheet_by goal x) ws.now set.new node.new out.new }
    ensures set_len_unchanged { (length set.new ≡ length set.old) × (length out.new ≡ length out.old) }
{
    if is_resolved(p, ws, goal, board, out) {
        return true;
    }
    by_walk(p, ws, goal, set, node, out)
}

// What a state is found to be, by what is advised. Good: the values of a good state stand in `out`. Refuted or open: the set has the slots that this
// rests on.
pub fn judge_by(
    p: &[usize; PLAN_NUMBERS],
    ws: &[usize; SLOTS],
    goal: Goal,
    a: Advice,
    set: &mut [u64; SET_WORDS],
    board: &Board,
    node: &mut [usize; NODE_NUMBERS],
    out: &mut [usize; SLOTS],
) -> bool
    ensures node_by { (x : Sheet) → ReadyPlan p.now x → Wordly x (sheet_by goal x) ws.now → length out.old ≡ slot_end → NodeBy result p.now x (sheet_by goal x) ws.now set.new node.new out.new }
    ensures set_len_unchanged { (length set.new ≡ length set.old) × (length out.new ≡ length out.old) }
{
    if a == Advice::Nothing {
        return by_values(p, ws, goal, board, set, node, out);
    }
    if show_node(p, ws, goal, a, set, node) {
        return false;
    }
    by_walk(p, ws, goal, set, node, out)
}
