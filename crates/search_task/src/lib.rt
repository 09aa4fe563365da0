// What is searched for, with a plan of an accepted sheet.
#![tactic(auto)]

ghost use Rattle.std.specs.Prelude.{◌≡◌};
ghost use Rattle.search_task.specs.Task as specs;

use tableau_layout::{ASKED_SIZE_AT, PLAN_NUMBERS};

/// What is searched for: a case of the sheet, or a log that agrees with its views, whatever the question is.
#[derive(Clone, Copy, Debug, PartialEq, Eq)]
pub enum Goal {
    Counterexample,
    Agreement,
}

/// Whether the question is asked.
pub fn asks(goal: Goal) -> bool
    ensures { result ≡ specs.asks goal }
{
    matches!(goal, Goal::Counterexample)
}

/// The atom of the tableau at which a state's facts start: the question's atoms stand first.
pub fn start(p: &[usize; PLAN_NUMBERS], goal: Goal) -> usize
    ensures { result ≡ specs.from_by goal p.now }
{
    if asks(goal) {
        return 0;
    }
    p[ASKED_SIZE_AT]
}
