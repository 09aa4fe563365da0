// The least row that the question of a plan is given and no list is.
#![tactic(auto)]

ghost use Rattle.std.specs.Prelude.{◌≡◌, true, ◌≤◌, ◌<◌, min, IfSome, is_some};
ghost use Rattle.tableau_layout.specs.Layout.{list_block};
ghost use Rattle.sheet_format.specs.Limits.{most_atoms, most_lists};
ghost use Rattle.query_join.specs.Joins.{SafeBlock, NextBy};
ghost use Rattle.query_rows.specs.Rows.{row_values};
ghost use Rattle.list_laws.specs.Order.{◌⊏◌, SameBefore};
ghost use Rattle.tableau_plan.specs.Plan.{list_count};
ghost use Rattle.tableau_parts.specs.Views.{GivenAt, GivenToList, MissingBy};
ghost use Rattle.tableau_parts.specs.Walks.{FormedPlan, room, CoveredAt, Onward};
ghost use Rattle.tableau_dominance.specs.Dominated.{GivenBelow};

use query_layout::{BLOCK_NUMBERS, COLUMNS};
use sheet_format::MOST_LISTS;
use tableau_layout::{LIST_BLOCKS, PLAN_NUMBERS, SIZES_AT};

// So many rows are passed one by one before others are passed all at once.
const ONE_BY_ONE: usize = 16;

// The count of rows passed goes round between these two. In a round the costly questions are asked seldom: whether a list covers what begins as a
// row does, at its first row alone; whether values of a column are dominated, until it was in vain.
const ROUND: usize = ONE_BY_ONE + ONE_BY_ONE - 1;

// A count of the rows passed, the columns where dominated values were looked for in vain, and the row from which a walk goes on.
#[derive(Clone, Copy)]
struct Pace {
    passed: usize,
    vain: [bool; 4],
    values: [usize; 4],
}

// The least row that the facts give the block after a given one.
fn follow(
    blk: &[usize; BLOCK_NUMBERS],
    n: usize,
    facts: &[usize],
    after: Option<[usize; 4]>,
) -> Option<[usize; 4]>
    ensures next_by { SafeBlock blk.now (min n most_atoms) → NextBy (is_some result) blk.now (min n most_atoms) facts.now (is_some after) (row_values after) (row_values result) }
    ensures values_bound { is_some after ≡ true → room (is_some result) (row_values result) < room (is_some after) (row_values after) }
{
    let next = query_rows::next(blk, n, facts, after);
    if let Some(old) = after {
        if let Some(new) = next {
            if !tableau_parts::below(old, new) {
                return None;
            }
        }
    }
    next
}

// A column before which a row's values say that list i is given what the question is given.
fn covered_from(
    p: &[usize; PLAN_NUMBERS],
    i: usize,
    facts: &[usize],
    row: [usize; 4],
) -> Option<usize>
    requires { i < most_lists }
    ensures in_row { IfSome result (λ k. k < 4) }
    ensures covered_at { FormedPlan p.now → IfSome result (CoveredAt p.now i facts.now row) }
{
    let question = tableau_parts::block_at(p, 0);
    let list = tableau_parts::block_at(p, LIST_BLOCKS + i);
    let asked = p[SIZES_AT];
    let held = p[SIZES_AT + (LIST_BLOCKS + i)];
    query_containment::covered_from(&question, asked, &list, held, facts, row)
}

// The last row that can begin as a row does in the columns before k.
fn last_from(row: [usize; 4], k: usize) -> [usize; 4]
    requires { k ≤ 4 }
    ensures { SameBefore k row result }
{
    let mut far = row;
    far[k..].fill(usize::MAX);
    far
}

// The last row that begins as a row does where list i is given all that do, if it follows the row.
fn covered_to(
    p: &[usize; PLAN_NUMBERS],
    i: usize,
    facts: &[usize],
    row: [usize; 4],
) -> Option<[usize; 4]>
    requires { i < most_lists }
    ensures follows { IfSome result (λ far. row ⊏ far) }
    ensures onward { FormedPlan p.now → i < list_count p.now → GivenAt p.now (list_block i) facts.now row → IfSome result (Onward p.now facts.now row) }
{
    let far = last_from(row, covered_from(p, i, facts, row)?);
    if tableau_parts::below(row, far) {
        Some(far)
    } else {
        None
    }
}

// The first column in which two rows differ.
fn first_difference(t: [usize; 4], u: [usize; 4]) -> Option<usize>
    ensures { IfSome result (λ k. k < 4) }
{
    t.iter().zip(&u).position(|(x, y)| x != y)
}

// The last row that begins as a row does before column k and has a value there that is known to be dominated, if it follows the row.
fn dominated_to(
    p: &[usize; PLAN_NUMBERS],
    facts: &[usize],
    row: [usize; 4],
    k: usize,
) -> Option<[usize; 4]>
    requires { k < 4 }
    ensures follows { IfSome result (λ far. row ⊏ far) }
    ensures onward { FormedPlan p.now → GivenToList p.now facts.now row → GivenBelow p.now facts.now row → IfSome result (Onward p.now facts.now row) }
{
    let end = tableau_dominance::given_up_to(p, facts, row, k)?;
    if end <= row[k] {
        return None;
    }
    let mut far = last_from(row, k);
    far[k] = end - 1;
    if tableau_parts::below(row, far) {
        Some(far)
    } else {
        None
    }
}

// The count after one row more.
fn counted(passed: usize) -> usize {
    if passed < ROUND {
        passed + 1
    } else {
        ONE_BY_ONE
    }
}

// Where a walk that came from a row, that of the pace, goes on from the next, which a list is given: from that one, or from the last up to which
// the values of the column that changed are dominated.
fn onward_dominated(p: &[usize; PLAN_NUMBERS], facts: &[usize], row: [usize; 4], pace: Pace) -> Pace
    ensures onward { FormedPlan p.now → GivenToList p.now facts.now row → GivenBelow p.now facts.now row → Onward p.now facts.now row result.values }
    ensures values_bound { room true result.values ≤ room true row }
{
    let here = Pace {
        values: row,
        ..pace
    };
    let Some(k) = first_difference(pace.values, row) else {
        return here;
    };
    if pace.vain[k] {
        return here;
    }
    let Some(far) = dominated_to(p, facts, row, k) else {
        let mut vain = pace.vain;
        vain[k] = true;
        return Pace { vain, ..here };
    };
    Pace {
        values: far,
        ..pace
    }
}

// Where a walk goes on from a row that list i is given: from that row; or, after some rows that were passed one by one, from the last that begins
// as it does where list i is given them all, or where values of the column that changed are dominated.
fn onward(p: &[usize; PLAN_NUMBERS], i: usize, facts: &[usize], row: [usize; 4], pace: Pace) -> Pace
    requires { i < most_lists }
    ensures onward { FormedPlan p.now → i < list_count p.now → GivenAt p.now (list_block i) facts.now row → GivenBelow p.now facts.now row → Onward p.now facts.now row result.values }
    ensures values_bound { room true result.values ≤ room true row }
{
    if pace.passed < ONE_BY_ONE {
        return Pace {
            passed: pace.passed + 1,
            vain: [false; COLUMNS],
            values: row,
        };
    }
    let passed = counted(pace.passed);
    if ONE_BY_ONE < pace.passed {
        return onward_dominated(p, facts, row, Pace { passed, ..pace });
    }
    let vain = [false; COLUMNS];
    if let Some(values) = covered_to(p, i, facts, row) {
        return Pace {
            passed: pace.passed,
            vain,
            values,
        };
    }
    onward_dominated(
        p,
        facts,
        row,
        Pace {
            passed,
            vain,
            ..pace
        },
    )
}

/// The least row that the question is given and no list is, if there is one.
pub fn missing(p: &[usize; PLAN_NUMBERS], facts: &[usize]) -> Option<[usize; 4]>
    ensures { FormedPlan p.now → MissingBy (is_some result) p.now facts.now (row_values result) }
{
    let blk = tableau_parts::block_at(p, 0);
    let n = p[SIZES_AT];
    let mut pace = Pace {
        passed: 0,
        vain: [false; COLUMNS],
        values: [0; COLUMNS],
    };
    let mut next = follow(&blk, n, facts, None);
    while let Some(row) = next {
        let i = tableau_answers::giving_list(p, facts, row);
        if MOST_LISTS <= i {
            return Some(row);
        }
        pace = onward(p, i, facts, row, pace);
        next = follow(&blk, n, facts, Some(pace.values));
    }
    None
}
