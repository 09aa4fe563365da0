// Prints the sheet of the text of standard input; where there is none, standard error says why.
#![tactic(auto)]

use sheet_format::MOST_BYTES;
use std::io;
use text_begins::MOST_TEXT;
use text_to_sheet::NotMade;
use text_writer::TEXT_ROOM;

// What is read: one byte more than a text may have, so that a longer one is refused.
const READ: usize = MOST_TEXT + 1;

fn main(rt: HostRuntime) -> io::Result<()> {
    let mut given = [0u8; READ];
    let read = program_input::read_up_to(&mut rt.stdin(), &mut given)?;
    let mut sheet = [0u8; MOST_BYTES];
    match text_to_sheet::sheet_of(&given[..read], &mut sheet) {
        Ok(n) => rt.write_all(&sheet[..n.min(MOST_BYTES)]),
        Err(reason) => complain(&rt.stderr(), reason),
    }
}

fn complain(errors: &impl Print, reason: NotMade) -> io::Result<()> {
    let mut words = [0u8; TEXT_ROOM];
    let n = text_message::message(reason, &mut words).min(words.len());
    errors.write_all(&words[..n])
}
