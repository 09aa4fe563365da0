// Judges the sheet of standard input, given as a sheet or as its text, and prints the verdict in words.
//
//     cover_text            by the library's own table of relations
//     cover_text TABLE      by the table of the file TABLE
#![tactic(auto)]

use sheet_table_file::TABLE_READ;
use std::io;
use text_begins::MOST_TEXT;
use text_writer::TEXT_ROOM;

// What is read: one byte more than a text may have, so that a longer one is refused.
const READ: usize = MOST_TEXT + 1;

fn main(rt: HostRuntime) -> io::Result<()> {
    let mut table = [0u8; TABLE_READ];
    let known = sheet_table_file::table(&rt, &rt.stderr(), 1, &mut table);
    let mut given = [0u8; READ];
    let read = program_input::read_up_to(&mut rt.reader(), &mut given)?;
    let mut words = [0u8; TEXT_ROOM];
    let said = text_answer::answer_by_table(&table[..known], &given[..read], &mut words);
    rt.write_all(&words[..said.min(TEXT_ROOM)])
}
