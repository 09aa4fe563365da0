// What judging gives back, and how many words it wants.
#![tactic(auto)]

/// What a saved list comes to, over all logs that give the listed rows.
#[derive(Clone, Copy, PartialEq, Eq, Debug)]
pub enum Verdict {
    /// The lists have each answer of the question.
    Covered,
    /// In some log they lack one: how many facts such a log has in the lent words, and the answer that is missing, unused numbers 0.
    NotCovered { facts: usize, missing: [usize; 4] },
    /// No log gives the listed rows.
    NoLog,
}

/// The number of a verdict, as C and pages have it: covered,
pub const COVERED: usize = 0;

/// not covered,
pub const NOT_COVERED: usize = 1;

/// no log,
pub const NO_LOG: usize = 2;

/// and what stands in place of a verdict where the sheet is sent back.
pub const REFUSED: usize = 9;

/// So many words must be lent.
pub const LEAST_ROOM: usize = 1260;
