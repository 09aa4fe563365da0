// How far the rows of a plan's question are given to its lists where the rows below a row are: values of a column that a lesser one dominates.
//
// If b dominates a in a column of the question's rows, and a dominates b in that column of each list's, then a row with a is given to a list if
// the row with b in its place is. That one is lower, so an ascending walk has passed it.
#![tactic(auto)]

ghost use Rattle.std.specs.Prelude.{◌≡◌, true, ℕ, ◌*◌, ◌/◌, ◌≤◌, ◌<◌, length, IfSome};
ghost use Rattle.sheet_format.specs.Limits.{most_atoms};
ghost use Rattle.tableau_layout.specs.Layout.{most_blocks, plan_numbers, list_block};
ghost use Rattle.tableau_plan.specs.Plan.{list_count};
ghost use Rattle.tableau_parts.specs.Walks.{FormedPlan};
ghost use Rattle.tableau_dominance.specs.Dominated.{DominatesAt, Dominated, TermAmong, DominatedFact, DominatedTo, GivenUpTo};

use query_layout::{BLOCK_NUMBERS, COLUMNS, FACT_NUMBERS, HEAD_AT};
use tableau_layout::{LIST_BLOCKS, PLAN_NUMBERS, QUESTION_BLOCK, SIZES_AT};

// Whether y dominates x in column k of the rows of block b.
fn dominates_at(
    p: &[usize; PLAN_NUMBERS],
    b: usize,
    facts: &[usize],
    k: usize,
    x: usize,
    y: usize,
) -> bool
    requires { b < most_blocks }
    ensures { length p.now ≡ plan_numbers → result ≡ true → DominatesAt p.now b facts.now k x y }
{
    let blk = tableau_parts::block_at(p, b);
    let n = p[SIZES_AT + b];
    query_dominance::dominates(&blk, n, facts, k, x, y)
}

// Whether y dominates x in column k of each list's rows.
fn lists_dominate(p: &[usize; PLAN_NUMBERS], facts: &[usize], k: usize, x: usize, y: usize) -> bool
    ensures { FormedPlan p.now → result ≡ true → (i : ℕ) → i < list_count p.now → DominatesAt p.now (list_block i) facts.now k x y }
{
    let lists = tableau_parts::list_count(p);
    (0..lists).all(|i| dominates_at(p, LIST_BLOCKS + i, facts, k, x, y))
}

// Whether b dominates a in column k of the question's rows, and a dominates b in each list's.
fn is_dominated(p: &[usize; PLAN_NUMBERS], facts: &[usize], k: usize, a: usize, b: usize) -> bool
    ensures { FormedPlan p.now → result ≡ true → Dominated p.now facts.now k a b }
{
    dominates_at(p, QUESTION_BLOCK, facts, k, a, b) && lists_dominate(p, facts, k, b, a)
}

// Where a term stands first in the first n atoms.
fn place_of(blk: &[usize; BLOCK_NUMBERS], n: usize, y: usize) -> Option<usize>
    requires { n ≤ most_atoms }
    ensures { IfSome result (TermAmong blk.now n y) }
{
    for at in 0..n * FACT_NUMBERS {
        if blk[at] == y && at % FACT_NUMBERS != 0 {
            return Some(at);
        }
    }
    None
}

// A value below a that dominates it, among those that facts of a relation have at a place.
fn dominator(
    p: &[usize; PLAN_NUMBERS],
    facts: &[usize],
    k: usize,
    relation: usize,
    place: usize,
    a: usize,
) -> Option<usize>
    requires { place < 5 }
    ensures { FormedPlan p.now → IfSome result (λ b. (b < a) × Dominated p.now facts.now k a b) }
{
    for i in 0..facts.len() / FACT_NUMBERS {
        let b = facts[i * FACT_NUMBERS + place];
        if b < a && facts[i * FACT_NUMBERS] == relation && is_dominated(p, facts, k, a, b) {
            return Some(b);
        }
    }
    None
}

// The end of the values after a that b is seen to dominate, with fact i looked at besides: the end before, or the fact's value at the place where
// that comes earlier and b is not seen to dominate it.
fn nearer(
    p: &[usize; PLAN_NUMBERS],
    facts: &[usize],
    k: usize,
    relation: usize,
    place: usize,
    a: usize,
    b: usize,
    i: usize,
    end: usize,
) -> usize
    requires { (place < 5) × (i < length facts.now / 5) }
    ensures upper_bound { result ≤ end }
    ensures dominated_fact { FormedPlan p.now → DominatedFact p.now facts.now k relation place a b result i }
{
    let x = facts[i * FACT_NUMBERS + place];
    if x <= a {
        return end;
    }
    if end <= x {
        return end;
    }
    if facts[i * FACT_NUMBERS] != relation {
        return end;
    }
    if is_dominated(p, facts, k, x, b) {
        return end;
    }
    x
}

// The least value after a that facts of a relation have at a place and that b is not seen to dominate; past all if there is none.
fn reach(
    p: &[usize; PLAN_NUMBERS],
    facts: &[usize],
    k: usize,
    relation: usize,
    place: usize,
    a: usize,
    b: usize,
) -> usize
    requires { place < 5 }
    ensures { FormedPlan p.now → DominatedTo p.now facts.now k relation place a b result }
{
    let mut end = usize::MAX;
    for i in 0..facts.len() / FACT_NUMBERS {
        end = nearer(p, facts, k, relation, place, a, b, i, end);
    }
    end
}

/// The end of the values in the question's column k, from the row's on, whose rows that begin as the row does are given to lists if the rows below
/// it are.
///
/// None where no value of the column is known to be dominated; there is none past the last column.
pub fn given_up_to(
    p: &[usize; PLAN_NUMBERS],
    facts: &[usize],
    row: [usize; 4],
    k: usize,
) -> Option<usize>
    ensures { FormedPlan p.now → IfSome result (GivenUpTo p.now facts.now row k) }
{
    if COLUMNS <= k {
        return None;
    }
    let a = row[k];
    let blk = tableau_parts::block_at(p, QUESTION_BLOCK);
    let n = tableau_parts::size_at(p, QUESTION_BLOCK);
    let y = blk[HEAD_AT + k];
    let at = place_of(&blk, n, y)?;
    let place = at % FACT_NUMBERS;
    let relation = blk[at - place];
    let b = dominator(p, facts, k, relation, place, a)?;
    Some(reach(p, facts, k, relation, place, a, b))
}
