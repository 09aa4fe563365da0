// Why a text has no sheet, in words.
#![tactic(auto)]

ghost use Rattle.text_writer.specs.Says.{SaysWords};
ghost use Rattle.text_to_sheet.specs.Outcome.{made_from_result};
ghost use Rattle.text_message.specs.Message.{message_bytes};

use text_refusals::{put_expected, put_refusal};
use text_to_sheet::NotMade;
use text_writer::TEXT_ROOM;

/// What was expected of a text, or the refusal of its sheet, in words.
pub fn message(reason: NotMade, out: &mut [u8]) -> usize
    ensures { SaysWords (message_bytes (made_from_result (Err reason))) out.old out.new result }
{
    if out.len() < TEXT_ROOM {
        return 0;
    }
    match reason {
        NotMade::Expected {
            line,
            what,
            relation,
        } => put_expected(out, 0, line, what, relation),
        NotMade::Refused { refusal, text_line } => {
            put_refusal(out, 0, refusal.cause.number(), refusal.line, text_line)
        }
    }
}
