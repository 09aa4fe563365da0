// What the calls give back, as C has it: the structs of include/figdawesa.h.
#![tactic(auto)]

ghost use Rattle.std.specs.Prelude.{◌≡◌, ◌-◌, replicate};
ghost use Rattle.sheet_format.specs.Returns.{ending_of};
ghost use Rattle.sheet_format.specs.Sheet.{returned};
ghost use Rattle.judge_result.specs.Returns.{judgement_from_result};
ghost use Rattle.judge_ends.specs.Sets.{most_sheets, unjudged, set_judgement};
ghost use Rattle.judge_ends.specs.Returns.{judgement_at, judgements_at, set_judgement_from_result};
ghost use Rattle.day_page.specs.Returns.{day_judgement_from_result};
ghost use Rattle.c_results.specs.Passed.{returned_of, judgement_of, judgements_of, set_judgement_of, day_judgement_of};

use day_page::JudgedDay;
use judge_ends::{JudgedSet, MOST_SHEETS, Place};
use judge_result::{COVERED, NO_LOG, NOT_COVERED, REFUSED, Verdict};
use sheet_format::{Cause, Refusal};

/// How a call ended: a refusal's number and line, both 0 where nothing is refused, and the count of what was written.
#[repr(C)]
#[derive(Clone, Copy, PartialEq, Eq, Debug)]
pub struct Ended {
    pub number: usize,
    pub line: usize,
    pub count: usize,
}

/// Where a part of the sheet stands.
#[repr(C)]
#[derive(Clone, Copy, PartialEq, Eq, Debug)]
pub struct Stretch {
    pub start: usize,
    pub length: usize,
}

/// A judgement: the verdict, a refusal's number and line, the count of facts, the missing answer.
#[repr(C)]
#[derive(Clone, Copy, PartialEq, Eq, Debug)]
pub struct Outcome {
    pub verdict: usize,
    pub number: usize,
    pub line: usize,
    pub count: usize,
    pub missing: [usize; 4],
}

/// A set's judgement: a refusal's number and line, both 0 where the set is taken, how many sheets were judged, and a judgement for each place.
#[repr(C)]
#[derive(Clone, Copy, PartialEq, Eq, Debug)]
pub struct SetOutcome {
    pub number: usize,
    pub line: usize,
    pub count: usize,
    pub sheets: [Outcome; MOST_SHEETS],
}

/// A set's judgement, and how many bytes its page has.
#[repr(C)]
#[derive(Clone, Copy, PartialEq, Eq, Debug)]
pub struct DayOutcome {
    pub set: SetOutcome,
    pub bytes: usize,
}

impl From<Result<usize, Refusal>> for Ended {
    ghost from_gives = { λ e r. returned_of r ≡ returned (ending_of e) };

    fn from(ended: Result<usize, Refusal>) -> Ended {
        match ended {
            Ok(count) => Ended {
                number: 0,
                line: 0,
                count,
            },
            Err(refusal) => Ended {
                number: refusal.cause.number(),
                line: refusal.line,
                count: 0,
            },
        }
    }
}

/// The part of a sheet from one place to another; empty where the second is not behind the first.
pub fn part(start: usize, end: usize) -> Stretch
    ensures { (result.start ≡ start) × (result.length ≡ end - start) }
{
    if end < start {
        return Stretch { start, length: 0 };
    }
    Stretch {
        start,
        length: end - start,
    }
}

impl From<Result<Verdict, Refusal>> for Outcome {
    ghost from_gives = { λ j r. judgement_of r ≡ judgement_from_result j };

    fn from(judged: Result<Verdict, Refusal>) -> Outcome {
        let none = Outcome {
            verdict: COVERED,
            number: 0,
            line: 0,
            count: 0,
            missing: [0; 4],
        };
        match judged {
            Ok(Verdict::Covered) => none,
            Ok(Verdict::NotCovered { facts, missing }) => Outcome {
                verdict: NOT_COVERED,
                count: facts,
                missing,
                ..none
            },
            Ok(Verdict::NoLog) => Outcome {
                verdict: NO_LOG,
                ..none
            },
            Err(Refusal { cause, line }) => Outcome {
                verdict: REFUSED,
                number: cause.number(),
                line,
                ..none
            },
        }
    }
}

// Where no sheet was judged: a refusal by the set's own number, which is 0 where the set is taken.
fn unjudged(number: usize) -> Outcome
    ensures { judgement_of result ≡ unjudged number }
{
    Outcome {
        verdict: REFUSED,
        number,
        line: 0,
        count: 0,
        missing: [0; 4],
    }
}

// What stands at a place of a set.
fn at_place(place: Place) -> Outcome
    ensures { judgement_of result ≡ judgement_at place }
{
    match place {
        Some(judged) => judged.into(),
        None => unjudged(0),
    }
}

// What stands at all places.
fn at_places(places: [Place; MOST_SHEETS]) -> [Outcome; MOST_SHEETS]
    ensures { judgements_of result ≡ judgements_at places }
{
    let mut all = [unjudged(0); MOST_SHEETS];
    for k in 0..MOST_SHEETS {
        all[k] = at_place(places[k]);
    }
    all
}

// A set that is sent back by a number.
fn sent_back(number: usize) -> SetOutcome
    ensures { set_judgement_of result ≡ set_judgement number 0 (replicate most_sheets (unjudged number)) }
{
    SetOutcome {
        number,
        line: 0,
        count: 0,
        sheets: [unjudged(number); MOST_SHEETS],
    }
}

impl From<Result<JudgedSet, Cause>> for SetOutcome {
    ghost from_gives = { λ s r. set_judgement_of r ≡ set_judgement_from_result s };

    fn from(set: Result<JudgedSet, Cause>) -> SetOutcome {
        match set {
            Ok(set) => SetOutcome {
                number: 0,
                line: 0,
                count: set.count,
                sheets: at_places(set.sheets),
            },
            Err(cause) => sent_back(cause.number()),
        }
    }
}

impl From<Result<JudgedDay, Cause>> for DayOutcome {
    ghost from_gives = { λ d r. day_judgement_of r ≡ day_judgement_from_result d };

    fn from(day: Result<JudgedDay, Cause>) -> DayOutcome {
        match day {
            Ok(JudgedDay { set, bytes }) => DayOutcome {
                set: Ok(set).into(),
                bytes,
            },
            Err(cause) => DayOutcome {
                set: Err(cause).into(),
                bytes: 0,
            },
        }
    }
}
