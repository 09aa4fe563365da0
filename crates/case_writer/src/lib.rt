// Hands the case of a good state over: its facts in order and without any to spare, and the least missing answer.
#![tactic(auto)]

ghost use Rattle.std.specs.Prelude.{◌≡◌, map, ℕ, ◌*◌, ◌≤◌, ◌<◌, pos, length, get_or, take};
ghost use Rattle.tableau_layout.specs.Layout.{tableau_atoms, tableau_numbers};
ghost use Rattle.list_laws.specs.Wrote.{Wrote};
ghost use Rattle.case_verdicts.specs.Verdict.{Sheet};
ghost use Rattle.search_task.specs.Task.{ReadyPlan};
ghost use Rattle.search_node.specs.Node.{StateFound};
ghost use Rattle.case_writer.specs.Over.{SpareFreeIn, HandsOver};

use query_layout::FACT_NUMBERS;
use tableau_layout::{PLAN_NUMBERS, TABLEAU_ATOMS, TABLEAU_NUMBERS};

// How many facts stand in the lent words, and the missing answer.
#[derive(Clone, Copy)]
pub struct HandedCase {
    pub count: usize,
    pub missing: [usize; 4],
}

// A number as a word; 0 where it fits none.
fn word(n: usize) -> i32
    ensures { n < 2147483648 → result ≡ pos n }
{
    if n < 2147483648 {
        return n as i32;
    }
    0
}

// Facts in front of the lent words.
fn put_facts(out: &mut [i32], facts: &[usize])
    requires { length facts.now ≤ length out.old }
    ensures { ((j : ℕ) → j < length facts.now → get_or facts.now j 0 < 2147483648) → Wrote out.old out.new 0 (length facts.now) (map pos facts.now) }
{
    for i in 0..facts.len() {
        out[i] = word(facts[i]);
    }
}

// The facts of a good state, in order and without any to spare, in front of the room; how many.
fn spare_free(p: &[usize; PLAN_NUMBERS], st: &[usize], room: &mut [usize]) -> usize
    requires { length room.old ≡ tableau_numbers }
    ensures { (x : Sheet) → ReadyPlan p.now x → StateFound x x st.now → (result ≤ tableau_atoms) × SpareFreeIn p.now x (take (result * 5) room.new) result }
{
    let n = search_state::facts(p, st, 0, room);
    let m = case_order::arrange(room, n);
    case_minimization::shrink(p, room, m)
}

// Hands the case of a good state over, with its least missing answer. Nothing is written where there is too little room.
pub fn hand_over(p: &[usize; PLAN_NUMBERS], st: &[usize], out: &mut [i32]) -> HandedCase
    ensures hands_over { (x : Sheet) → ReadyPlan p.now x → StateFound x x st.now → tableau_numbers ≤ length out.old → HandsOver x out.old out.new result.count result.missing }
    ensures out_unchanged { length out.old < tableau_numbers → out.new ≡ out.old }
{
    if out.len() < TABLEAU_NUMBERS {
        return HandedCase {
            count: 0,
            missing: [0; 4],
        };
    }
    let mut room = [0usize; TABLEAU_NUMBERS];
    let count = spare_free(p, st, &mut room);
    if TABLEAU_ATOMS < count {
        return HandedCase {
            count: 0,
            missing: [0; 4],
        };
    }
    let row = case_missing_answer::missing(p, &room[..count * FACT_NUMBERS]);
    put_facts(out, &room[..count * FACT_NUMBERS]);
    let missing = row.unwrap_or([0; 4]);
    HandedCase { count, missing }
}
