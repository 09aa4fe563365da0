// Prints the text of the sheet of standard input; where it is refused, standard error says why.
#![tactic(auto)]

use sheet_format::{MOST_SHEET_BYTES, Refusal};
use std::io;
use text_to_sheet::NotMade;
use text_writer::TEXT_ROOM;

// What is read: one byte more than a sheet may have, so that a longer one is refused.
const READ: usize = MOST_SHEET_BYTES + 1;

fn main(rt: HostRuntime) -> io::Result<()> {
    let mut given = [0u8; READ];
    let read = program_input::read_up_to(&mut rt.stdin(), &mut given)?;
    let mut text = [0u8; TEXT_ROOM];
    match text_from_sheet::text_of(&given[..read], &mut text) {
        Ok(n) => rt.write_all(&text[..n.min(TEXT_ROOM)]),
        Err(refusal) => complain(&rt.stderr(), refusal),
    }
}

fn complain(errors: &impl Print, refusal: Refusal) -> io::Result<()> {
    let mut words = [0u8; TEXT_ROOM];
    let reason = NotMade::Refused {
        refusal,
        text_line: 0,
    };
    let n = text_message::message(reason, &mut words).min(words.len());
    errors.write_all(&words[..n])
}
