// Whether a list is given every row that a question is given and that begins as a row does.
//
// The question is frozen: a variable becomes a value that stands nowhere else, or the row's value where the head has it in one of the
// columns that count, and each atom becomes a fact. If these facts, put after the given ones, give the list the frozen head, then the facts give
// it all such rows: the valuation that gives the question a row takes each frozen value to one of its own.
#![tactic(auto)]

ghost use Rattle.std.specs.Prelude.{◌≡◌, true, ◌+◌, ◌*◌, ◌≤◌, ◌<◌, min, length, IfSome};
ghost use Rattle.tableau_layout.specs.Layout.{tableau_numbers};
ghost use Rattle.query_layout.specs.Layout.{names};
ghost use Rattle.sheet_format.specs.Limits.{most_atoms};
ghost use Rattle.query_join.specs.Joins.{value_of, head_row};
ghost use Rattle.query_containment.specs.Containment.{BelowFrozen, NoneFrozen, OwnValue, OwnValues, under, atom_under, Fronted, FactPut, AtomsPut, Contained};

use query_layout::{BLOCK_NUMBERS, COLUMNS, FACT_NUMBERS, HEAD_AT, NAMES};
use query_meaning::VALUE_END;
use tableau_layout::TABLEAU_NUMBERS;

// Given facts come in up to a tableau's numbers; with a question's atoms they have room.
const ROOM: usize = TABLEAU_NUMBERS + HEAD_AT;

// The value of the first variable that has one of its own: above every value of facts and every term of a block.
const FROZEN_AT: usize = VALUE_END as usize + NAMES;

// Whether each number is below the values that stand for variables.
fn is_small(s: &[usize]) -> bool
    ensures { result ≡ true → BelowFrozen s.now }
{
    s.iter().all(|number| *number < FROZEN_AT)
}

// Whether no value stands for a variable.
fn is_plain(
    q: &[usize; BLOCK_NUMBERS],
    l: &[usize; BLOCK_NUMBERS],
    facts: &[usize],
    row: [usize; 4],
) -> bool
    ensures { result ≡ true → NoneFrozen q.now l.now facts.now row }
{
    is_small(q) && is_small(l) && is_small(facts) && is_small(&row)
}

// What variable x becomes.
fn own_value(q: &[usize; BLOCK_NUMBERS], row: [usize; 4], k: usize, x: usize) -> usize
    requires { (k ≤ 4) × (x < names) }
    ensures { OwnValue q.now row k x result }
{
    for p in 0..k {
        if q[HEAD_AT + p] == x {
            return row[p];
        }
    }
    FROZEN_AT + x
}

// What the variables become.
fn own_values(q: &[usize; BLOCK_NUMBERS], row: [usize; 4], k: usize) -> [usize; NAMES]
    requires { k ≤ 4 }
    ensures { OwnValues q.now row k result }
{
    let mut vals = [0; NAMES];
    for x in 0..NAMES {
        vals[x] = own_value(q, row, k, x);
    }
    vals
}

// A term's value.
#[tactic(auto, unfolding(query_join::specs::Joins::value_of))]
fn value(t: usize, vals: &[usize; NAMES]) -> usize
    ensures { result ≡ value_of (under vals.now) t }
{
    if t < NAMES { vals[t] } else { t - NAMES }
}

// Atom j as a fact.
fn atom(q: &[usize; BLOCK_NUMBERS], j: usize, vals: &[usize; NAMES]) -> [usize; 5]
    requires { j < most_atoms }
    ensures { result ≡ atom_under q.now vals.now j }
{
    let at = j * FACT_NUMBERS;
    [
        q[at],
        value(q[at + 1], vals),
        value(q[at + 2], vals),
        value(q[at + 3], vals),
        value(q[at + 4], vals),
    ]
}

// The head's values.
fn head(q: &[usize; BLOCK_NUMBERS], vals: &[usize; NAMES]) -> [usize; 4]
    ensures { result ≡ head_row (under vals.now) q.now }
{
    [
        value(q[HEAD_AT], vals),
        value(q[HEAD_AT + 1], vals),
        value(q[HEAD_AT + 2], vals),
        value(q[HEAD_AT + 3], vals),
    ]
}

// Copies the first n numbers.
fn copy(facts: &[usize], n: usize, out: &mut [usize])
    requires { (n ≤ length facts.now) × (n ≤ length out.old) }
    ensures { Fronted n facts.now out.new }
{
    out[..n].copy_from_slice(&facts[..n]);
}

// Puts a fact at place i.
fn put(out: &mut [usize], i: usize, f: [usize; 5])
    requires { i * 5 + 5 ≤ length out.old }
    ensures { FactPut f 5 (i * 5) out.old out.new }
{
    let at = i * FACT_NUMBERS;
    out[at..at + FACT_NUMBERS].copy_from_slice(&f);
}

// Puts the first n atoms as facts, from place m on.
fn put_atoms(
    q: &[usize; BLOCK_NUMBERS],
    n: usize,
    vals: &[usize; NAMES],
    out: &mut [usize],
    m: usize,
)
    requires { (n ≤ most_atoms) × ((m + n) * 5 ≤ length out.old) }
    ensures { AtomsPut q.now vals.now n m out.old out.new }
{
    for j in 0..n {
        put(out, m + j, atom(q, j, vals));
    }
}

// Whether a list is given all rows that the question is given and that have the row's values in the columns before k.
fn is_covered(
    q: &[usize; BLOCK_NUMBERS],
    qn: usize,
    l: &[usize; BLOCK_NUMBERS],
    ln: usize,
    facts: &[usize],
    row: [usize; 4],
    k: usize,
) -> bool
    requires k_bound { (k ≤ 4) × (length facts.now ≤ tableau_numbers) }
    requires none_frozen { NoneFrozen q.now l.now facts.now row }
    ensures { result ≡ true → Contained q.now (min qn most_atoms) l.now (min ln most_atoms) facts.now row k }
{
    let n = query_join::few_atoms(qn);
    let m = facts.len() / FACT_NUMBERS;
    let vals = own_values(q, row, k);
    let mut room = [0usize; ROOM];
    copy(facts, m * FACT_NUMBERS, &mut room);
    put_atoms(q, n, &vals, &mut room, m);
    let row = head(q, &vals);
    query_answers::gives(l, ln, &room[..(m + n) * FACT_NUMBERS], row)
}

/// A column before which a row's values say that a list is given what the question is given, the first that was found.
///
/// `qn` and `ln` are the atoms of the question and of the list; `facts` has five numbers a fact. None says only that no such column was found.
pub fn covered_from(
    q: &[usize; BLOCK_NUMBERS],
    qn: usize,
    l: &[usize; BLOCK_NUMBERS],
    ln: usize,
    facts: &[usize],
    row: [usize; 4],
) -> Option<usize>
    ensures { IfSome result (λ k. (k < 4) × Contained q.now (min qn most_atoms) l.now (min ln most_atoms) facts.now row k) }
{
    if TABLEAU_NUMBERS < facts.len() || !is_plain(q, l, facts, row) {
        return None;
    }
    let mut first = None;
    for k in (0..COLUMNS).rev() {
        if !is_covered(q, qn, l, ln, facts, row, k) {
            return first;
        }
        first = Some(k);
    }
    first
}
