// What the calls on texts give back, as C has it: the struct of include/figdawesa.h.
#![tactic(auto)]

ghost use Rattle.std.specs.Prelude.{◌≡◌};
ghost use Rattle.text_to_sheet.specs.Outcome.{made_from_result};
ghost use Rattle.c_texts.specs.Passed.{text_outcome_of};

use text_to_sheet::NotMade;

/// What became of a text: how many bytes its sheet has; or what was expected, in which relation and in which line of the text; or the sheet's refusal, its
/// number and line, and the line of the text.
#[repr(C)]
#[derive(Clone, Copy, PartialEq, Eq, Debug)]
pub struct TextOutcome {
    pub expected: usize,
    pub relation: usize,
    pub number: usize,
    pub line: usize,
    pub begun: usize,
    pub bytes: usize,
}

impl From<Result<usize, NotMade>> for TextOutcome {
    ghost from_gives = { λ m r. r ≡ text_outcome_of (made_from_result m) };

    fn from(made: Result<usize, NotMade>) -> TextOutcome {
        match made {
            Ok(bytes) => TextOutcome {
                expected: 0,
                relation: 0,
                number: 0,
                line: 0,
                begun: 0,
                bytes,
            },
            Err(
                NotMade::Expected {
                    line,
                    what,
                    relation,
                },
            ) => TextOutcome {
                expected: what.number(),
                relation,
                number: 0,
                line: 0,
                begun: line,
                bytes: 0,
            },
            Err(NotMade::Refused { refusal, text_line }) => TextOutcome {
                expected: 0,
                relation: 0,
                number: refusal.cause.number(),
                line: refusal.line,
                begun: text_line,
                bytes: 0,
            },
        }
    }
}
