// Dropping facts from a case until none is to spare.
#![tactic(auto)]

ghost use Rattle.std.specs.Prelude.{◌≡◌, true, false, IsTrue, ◌↔◌, List, ℕ, ◌+◌, ◌-◌, ◌*◌, ◌<◌, ◌≤◌, length, take, is_some};
ghost use Rattle.tableau_layout.specs.Layout.{plan_numbers, tableau_atoms};
ghost use Rattle.sheet_format.specs.Limits.{most_rows};
ghost use Rattle.tableau_plan.specs.Plan.{parent_in, row_count};
ghost use Rattle.tableau_parts.specs.Walks as walks;
ghost use Rattle.tableau_parts.specs.Views.{NoStray, Missing};
ghost use Rattle.tableau_parts.specs.Walks.{four_of};
ghost use Rattle.case_minimization.specs.Minimization.{IsFact, Parented, IsCase, CaseBy, without, Shrunk};
ghost use Rattle.case_minimization.specs.Parts.{Like, FindsBy, OwedBy, TriedFact};

use query_layout::FACT_NUMBERS;
use sheet_format::{MOST_ATOMS, MOST_LISTS, MOST_RELATIONS, MOST_ROWS};
use tableau_layout::{PLAN_NUMBERS, TABLEAU_ATOMS, TABLEAU_NUMBERS};

// The places of the facts by which a listed row is given, one for each atom of its view.
type Places = [usize; MOST_ATOMS];

// The places where fact i is left out: those after it are one lower.
fn lowered(places: Places, i: usize) -> Places {
    let mut low = places;
    for place in &mut low {
        if i < *place {
            *place -= 1;
        }
    }
    low
}

// Places of facts by which listed row r is given.
fn places_of(p: &[usize; PLAN_NUMBERS], facts: &[usize], n: usize, r: usize) -> Places
    requires { (n ≤ tableau_atoms) × (n * 5 ≤ length facts.now) }
{
    tableau_witness::row_witness(p, &facts[..n * FACT_NUMBERS], r)
}

// Places of facts by which the listed rows are given.
fn places(p: &[usize; PLAN_NUMBERS], facts: &[usize], n: usize) -> [Places; MOST_ROWS]
    requires { (n ≤ tableau_atoms) × (n * 5 ≤ length facts.now) }
{
    let mut by = [[usize::MAX; MOST_ATOMS]; MOST_ROWS];
    for r in 0..tableau_parts::row_count(p) {
        by[r] = places_of(p, facts, n, r);
    }
    by
}

// The places after fact i has been dropped, of which n are left: where it was used, others.
fn renew(
    p: &[usize; PLAN_NUMBERS],
    facts: &[usize],
    n: usize,
    by: &mut [Places; MOST_ROWS],
    i: usize,
)
    requires { (n ≤ tableau_atoms) × (n * 5 ≤ length facts.now) }
{
    for r in 0..tableau_parts::row_count(p) {
        by[r] = if by[r].contains(&i) {
            places_of(p, facts, n, r)
        } else {
            lowered(by[r], i)
        };
    }
}

// Whether a row that fact i was used for is not given where it is left out.
fn loses(p: &[usize; PLAN_NUMBERS], facts: &[usize], by: &[Places; MOST_ROWS], i: usize) -> bool
    ensures { walks.FormedPlan p.now → result ≡ true → walks.GivenTo p.now facts.now (row_count p.now) → ⊥ }
{
    let nowhere = [usize::MAX; MOST_ATOMS];
    for r in 0..tableau_parts::row_count(p) {
        if by[r].contains(&i) && !tableau_answers::row_given_by(p, facts, r, nowhere) {
            return true;
        }
    }
    false
}

// Whether all listed rows are given where fact i is left out. The places kept are asked first.
fn keeps(p: &[usize; PLAN_NUMBERS], facts: &[usize], by: &[Places; MOST_ROWS], i: usize) -> bool
    ensures { walks.FormedPlan p.now → walks.GivenToBy result p.now facts.now (row_count p.now) }
{
    for r in 0..tableau_parts::row_count(p) {
        if !tableau_answers::row_given_by(p, facts, r, lowered(by[r], i)) {
            return false;
        }
    }
    true
}

// Whether all listed rows are given where fact i is left out. The rows that it was used for are asked first.
fn all_given(p: &[usize; PLAN_NUMBERS], facts: &[usize], by: &[Places; MOST_ROWS], i: usize) -> bool
    ensures { walks.FormedPlan p.now → walks.GivenToBy result p.now facts.now (row_count p.now) }
{
    !loses(p, facts, by, i) && keeps(p, facts, by, i)
}

// Whether the question is given a row and no list is.
fn lacks(p: &[usize; PLAN_NUMBERS], facts: &[usize], row: [usize; 4]) -> bool
    ensures { walks.FormedPlan p.now → result ≡ true → Missing p.now facts.now row }
{
    tableau_answers::question_gives(p, facts, row)
        && MOST_LISTS <= tableau_answers::giving_list(p, facts, row)
}

// The values of fact k.
fn values(facts: &[usize], k: usize) -> [usize; 4]
    requires { k * 5 + 5 ≤ length facts.now }
    ensures { result ≡ four_of facts.now (k * 5 + 1) }
{
    let at = k * FACT_NUMBERS + 1;
    [facts[at], facts[at + 1], facts[at + 2], facts[at + 3]]
}

// Whether fact k is this row of a relation.
fn is_row(facts: &[usize], k: usize, relation: usize, row: [usize; 4]) -> bool
    requires { k * 5 + 5 ≤ length facts.now }
    ensures { IsTrue result ↔ IsFact facts.now k relation row }
{
    facts[k * FACT_NUMBERS] == relation && values(facts, k) == row
}

// Whether fact k owes a relation this row.
fn owes_row(
    p: &[usize; PLAN_NUMBERS],
    facts: &[usize],
    k: usize,
    relation: usize,
    row: [usize; 4],
) -> bool
    requires { k * 5 + 5 ≤ length facts.now }
    ensures { IsTrue result ↔ Like p.now true facts.now k relation row }
{
    tableau_parts::parent_of(p, facts[k * FACT_NUMBERS]) == relation && values(facts, k) == row
}

// Whether one of the facts is this row of a relation.
fn has_row(facts: &[usize], relation: usize, row: [usize; 4]) -> bool
    ensures { (p : List ℕ) → FindsBy p result false facts.now relation row }
{
    (0..facts.len() / FACT_NUMBERS).any(|k| is_row(facts, k, relation, row))
}

// Whether one of the facts owes a relation this row.
fn has_owing(p: &[usize; PLAN_NUMBERS], facts: &[usize], relation: usize, row: [usize; 4]) -> bool
    ensures { FindsBy p.now result true facts.now relation row }
{
    (0..facts.len() / FACT_NUMBERS).any(|k| owes_row(p, facts, k, relation, row))
}

// Whether a relation is the parent of another.
fn is_parent(p: &[usize; PLAN_NUMBERS], relation: usize) -> bool
    ensures { length p.now ≡ plan_numbers → result ≡ false → (n : ℕ) → parent_in p.now n ≡ relation → relation ≡ 0 }
{
    (0..MOST_RELATIONS).any(|k| tableau_parts::parent_of(p, k + 1) == relation)
}

// Whether one of the rest owes fact i, and none of them is that fact.
fn is_owed(p: &[usize; PLAN_NUMBERS], facts: &[usize], i: usize, rest: &[usize]) -> bool
    requires { i * 5 + 5 ≤ length facts.now }
    ensures { length p.now ≡ plan_numbers → OwedBy p.now result facts.now i rest.now }
{
    let relation = facts[i * FACT_NUMBERS];
    if relation == 0 {
        return false;
    }
    if !is_parent(p, relation) {
        return false;
    }
    let row = values(facts, i);
    if !has_owing(p, rest, relation, row) {
        return false;
    }
    !has_row(rest, relation, row)
}

// Whether facts without fact i that give no stray row, and owe none that they lack, are a case, and then an answer that the lists lack. The
// places kept and the row seen are tried first, whatever they are.
fn is_left(
    p: &[usize; PLAN_NUMBERS],
    facts: &[usize],
    by: &[Places; MOST_ROWS],
    i: usize,
    seen: [usize; 4],
) -> Option<[usize; 4]>
    ensures { walks.FormedPlan p.now → NoStray p.now facts.now → Parented p.now facts.now → CaseBy (is_some result) p.now facts.now }
{
    if !all_given(p, facts, by, i) {
        return None;
    }
    if lacks(p, facts, seen) {
        return Some(seen);
    }
    case_missing_answer::missing(p, facts)
}

// Copies the first `count` numbers.
fn copy(facts: &[usize], count: usize, out: &mut [usize])
    requires { (count ≤ length facts.now) × (count ≤ length out.old) }
    ensures { take count out.new ≡ take count facts.now }
{
    out[..count].copy_from_slice(&facts[..count]);
}

// Moves what follows fact i down by a fact.
fn close_gap(facts: &mut [usize], n: usize, i: usize)
    requires { (i < n) × (n ≤ tableau_atoms) × (n * 5 ≤ length facts.old) }
    ensures { take ((n - 1) * 5) facts.new ≡ without (take (n * 5) facts.old) i }
{
    let at = i * FACT_NUMBERS;
    facts.copy_within(at + FACT_NUMBERS..n * FACT_NUMBERS, at);
}

// Moves what follows fact i down by a fact, if there is a fact i.
fn leave_out(facts: &mut [usize], n: usize, i: usize)
    requires { (n ≤ tableau_atoms) × (n * 5 ≤ length facts.old) }
    ensures { i < n → take ((n - 1) * 5) facts.new ≡ without (take (n * 5) facts.old) i }
{
    if i < n {
        close_gap(facts, n, i);
    }
}

// Copies the facts but the first.
fn copy_rest(facts: &[usize], n: usize, room: &mut [usize])
    requires { (n ≤ tableau_atoms) × (n * 5 ≤ length facts.now) × (n * 5 ≤ length room.old) }
    ensures { 0 < n → take ((n - 1) * 5) room.new ≡ without (take (n * 5) facts.now) 0 }
{
    copy(facts, n * FACT_NUMBERS, room);
    leave_out(room, n, 0);
}

// Puts fact i back into the room that lacks it, where the next one stands: the room lacks the next one then.
fn put_back(facts: &[usize], n: usize, i: usize, room: &mut [usize])
    requires { (i < n) × (n ≤ tableau_atoms) × (n * 5 ≤ length facts.now) × (n * 5 ≤ length room.old) }
    ensures { take ((n - 1) * 5) room.old ≡ without (take (n * 5) facts.now) i → i + 1 < n → take ((n - 1) * 5) room.new ≡ without (take (n * 5) facts.now) (i + 1) }
{
    let at = i * FACT_NUMBERS;
    let end = at + FACT_NUMBERS;
    room[at..end].copy_from_slice(&facts[at..end]);
}

// Whether a case is left of n facts in the room that lacks fact i, and then an answer that the lists lack. What one of them owes must stay.
fn drops(
    p: &[usize; PLAN_NUMBERS],
    facts: &[usize],
    room: &[usize],
    n: usize,
    by: &[Places; MOST_ROWS],
    i: usize,
    seen: [usize; 4],
) -> Option<[usize; 4]>
    requires { (i < n) × (n ≤ tableau_atoms) × (n * 5 ≤ length facts.now) × (n * 5 ≤ length room.now) }
    ensures { walks.FormedPlan p.now → Parented p.now (take (n * 5) facts.now) → take ((n - 1) * 5) room.now ≡ without (take (n * 5) facts.now) i
        → NoStray p.now (take ((n - 1) * 5) room.now) → CaseBy (is_some result) p.now (take ((n - 1) * 5) room.now) }
{
    if is_owed(
        p,
        &facts[..n * FACT_NUMBERS],
        i,
        &room[..(n - 1) * FACT_NUMBERS],
    ) {
        return None;
    }
    is_left(p, &room[..(n - 1) * FACT_NUMBERS], by, i, seen)
}

// Tries each fact once, and drops it where a case is left without it; how many facts are left.
fn pass(
    p: &[usize; PLAN_NUMBERS],
    facts: &mut [usize],
    n: usize,
    by: &mut [Places; MOST_ROWS],
) -> usize
    requires { (n ≤ tableau_atoms) × (n * 5 ≤ length facts.old) }
    ensures upper_bound { result ≤ n }
    ensures tried_fact { walks.FormedPlan p.now → IsCase p.now (take (n * 5) facts.old) → TriedFact p.now (take (n * 5) facts.old) n (take (result * 5) facts.new) result n result }
{
    let mut room = [0; TABLEAU_NUMBERS];
    copy_rest(facts, n, &mut room);
    let mut seen = [0; 4];
    let mut m = n;
    let mut i = 0;
    // Kept: no plainer; m falls as facts are dropped, and i stays there.
    while i < m {
        if let Some(row) = drops(p, facts, &room, m, by, i, seen) {
            close_gap(facts, m, i);
            m -= 1;
            leave_out(&mut room, m, i);
            renew(p, facts, m, by, i);
            seen = row;
            continue;
        }
        put_back(facts, m, i, &mut room);
        i += 1;
    }
    m
}

/// Drops facts, one after the other, as long as a case is left; how many facts are left.
pub fn shrink(p: &[usize; PLAN_NUMBERS], facts: &mut [usize], n: usize) -> usize
    ensures { walks.FormedPlan p.now → n ≤ tableau_atoms → n * 5 ≤ length facts.old → IsCase p.now (take (n * 5) facts.old) → Shrunk p.now (take (n * 5) facts.old) n (take (result * 5) facts.new) result }
{
    if TABLEAU_ATOMS < n || facts.len() < n * FACT_NUMBERS {
        return n;
    }
    let mut by = places(p, facts, n);
    let mut before = n + 1;
    let mut m = n;
    // Kept: no plainer; a pass follows as long as the one before it dropped a fact.
    while m < before {
        before = m;
        m = pass(p, facts, m, &mut by);
    }
    m
}
