// Whether facts at given places give a block a row: the atoms become those facts, and the head the row, by the same values.
#![tactic(auto)]

ghost use Rattle.std.specs.Prelude.{◌≡◌, true, ◌/◌, ◌≤◌, ◌<◌, min, length};
ghost use Rattle.sheet_format.specs.Limits.{most_atoms};
ghost use Rattle.query_join.specs.Joins.{value_of, head_row, Becomes};
ghost use Rattle.query_answers.specs.Answers.{WitnessAt};
ghost use Rattle.tableau_parts.specs.Walks.{valued, Become};

use query_layout::{BLOCK_NUMBERS, COLUMNS, FACT_NUMBERS, HEAD_AT, NAMES};
use sheet_format::MOST_ATOMS;

// A term's value, where the variables have these values.
#[tactic(auto, unfolding(query_join::specs::Joins::value_of))]
fn value_of(vals: &[usize; NAMES], t: usize) -> usize
    ensures { result ≡ value_of (valued vals.now) t }
{
    if t < NAMES { vals[t] } else { t - NAMES }
}

// Gives the variables of atom j the values that they have where it becomes fact i.
fn learn(
    blk: &[usize; BLOCK_NUMBERS],
    j: usize,
    facts: &[usize],
    i: usize,
    vals: &mut [usize; NAMES],
)
    requires { (j < most_atoms) × (i < length facts.now / 5) }
{
    for c in 1..FACT_NUMBERS {
        let t = blk[j * FACT_NUMBERS + c];
        if t < NAMES {
            vals[t] = facts[i * FACT_NUMBERS + c];
        }
    }
}

// The values that variables have where the first n atoms become the facts at these places.
fn values_by(
    blk: &[usize; BLOCK_NUMBERS],
    n: usize,
    facts: &[usize],
    at: [usize; MOST_ATOMS],
) -> [usize; NAMES]
    requires { n ≤ most_atoms }
{
    let m = facts.len() / FACT_NUMBERS;
    let mut vals = [0; NAMES];
    for j in 0..n {
        if at[j] < m {
            learn(blk, j, facts, at[j], &mut vals);
        }
    }
    vals
}

// Whether atom j becomes fact i by the values.
fn becomes(
    blk: &[usize; BLOCK_NUMBERS],
    j: usize,
    facts: &[usize],
    i: usize,
    vals: &[usize; NAMES],
) -> bool
    requires { (j < most_atoms) × (i < length facts.now / 5) }
    ensures { result ≡ true → Becomes blk.now facts.now (valued vals.now) j i }
{
    let fact = i * FACT_NUMBERS;
    let atom = j * FACT_NUMBERS;
    facts[fact] == blk[atom]
        && (0..COLUMNS).all(|c| facts[fact + 1 + c] == value_of(vals, blk[atom + 1 + c]))
}

// Whether the first n atoms become the facts at these places by the values.
fn all_become(
    blk: &[usize; BLOCK_NUMBERS],
    n: usize,
    facts: &[usize],
    at: [usize; MOST_ATOMS],
    vals: &[usize; NAMES],
) -> bool
    requires { n ≤ most_atoms }
    ensures { result ≡ true → Become blk.now n facts.now (valued vals.now) at }
{
    let m = facts.len() / FACT_NUMBERS;
    (0..n).all(|j| at[j] < m && becomes(blk, j, facts, at[j], vals))
}

// Whether the values make the head the row.
fn head_is(blk: &[usize; BLOCK_NUMBERS], vals: &[usize; NAMES], row: [usize; 4]) -> bool
    ensures { result ≡ true → head_row (valued vals.now) blk.now ≡ row }
{
    let head = [
        value_of(vals, blk[HEAD_AT]),
        value_of(vals, blk[HEAD_AT + 1]),
        value_of(vals, blk[HEAD_AT + 2]),
        value_of(vals, blk[HEAD_AT + 3]),
    ];
    head == row
}

/// Whether the block is given a row by the facts at these places, one for each of its atoms.
pub fn shows(
    blk: &[usize; BLOCK_NUMBERS],
    n: usize,
    facts: &[usize],
    row: [usize; 4],
    at: [usize; MOST_ATOMS],
) -> bool
    ensures { result ≡ true → WitnessAt blk.now (min n most_atoms) facts.now row at }
{
    let most = query_join::few_atoms(n);
    let vals = values_by(blk, most, facts, at);
    head_is(blk, &vals, row) && all_become(blk, most, facts, at, &vals)
}
