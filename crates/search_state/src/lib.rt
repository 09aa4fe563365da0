// The facts of a state: a value for each slot makes each atom of the tableau a fact.
#![tactic(auto)]

ghost use Rattle.std.specs.Prelude.{◌≡◌, ℕ, ◌+◌, ◌-◌, ◌*◌, ◌<◌, ◌≤◌, length, get_or, take};
ghost use Rattle.tableau_layout.specs.Layout.{plan_numbers, slot_end, tableau_atoms, tableau_numbers};
ghost use Rattle.case_verdicts.specs.Sheets.{top};
ghost use Rattle.case_verdicts.specs.Words.{state_of};
ghost use Rattle.tableau_plan.specs.Plan.{tableau_size, tableau_facts, slot_value};
ghost use Rattle.search_state.specs.Parts.{number_under};

use query_layout::FACT_NUMBERS;
use tableau_layout::{PLAN_NUMBERS, SLOTS, TABLEAU_ATOMS, TABLEAU_NUMBERS, TABLEAU_SIZE_AT};

// The value of a term of the tableau.
fn value_of(st: &[usize], t: usize) -> usize
    requires { slot_end ≤ length st.now }
    ensures { result ≡ slot_value (state_of top st.now) t }
{
    if t < SLOTS {
        return st[t];
    }
    t - SLOTS
}

// Number x of the tableau under a state.
fn number_at(p: &[usize; PLAN_NUMBERS], st: &[usize], x: usize) -> usize
    requires { (x < tableau_numbers) × (slot_end ≤ length st.now) }
    ensures { result ≡ number_under p.now (state_of top st.now) x }
{
    let t = p[x];
    if x % FACT_NUMBERS == 0 {
        return t;
    }
    value_of(st, t)
}

// The numbers of the tableau under a state, from number `from` on.
fn numbers(p: &[usize; PLAN_NUMBERS], st: &[usize], from: usize, count: usize, out: &mut [usize])
    requires { (from + count ≤ tableau_numbers) × (slot_end ≤ length st.now) × (count ≤ length out.old) }
    ensures { (x : ℕ) → x < count → get_or out.new x 0 ≡ number_under p.now (state_of top st.now) (from + x) }
{
    for x in 0..count {
        out[x] = number_at(p, st, from + x);
    }
}

/// The facts of the tableau under a state, from atom `from` on, five numbers each, in front of the output; how many facts.
pub fn facts(p: &[usize; PLAN_NUMBERS], st: &[usize], from: usize, out: &mut [usize]) -> usize
    ensures { length p.now ≡ plan_numbers → from ≤ tableau_size p.now → tableau_size p.now ≤ tableau_atoms → slot_end ≤ length st.now → tableau_numbers ≤ length out.old
        → (result ≡ tableau_size p.now - from) × (take (result * 5) out.new ≡ tableau_facts p.now (state_of top st.now) from result) }
{
    let size = p[TABLEAU_SIZE_AT];
    if size < from || TABLEAU_ATOMS < size || st.len() < SLOTS || out.len() < TABLEAU_NUMBERS {
        return 0;
    }
    let n = size - from;
    numbers(p, st, from * FACT_NUMBERS, n * FACT_NUMBERS, out);
    n
}
