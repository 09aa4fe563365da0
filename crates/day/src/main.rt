// Judges the files that the arguments name, each a sheet or a text, as a set, and prints its page.
//
//     day FILE FILE ..               by the library's own table of relations
//     day -t TABLE FILE FILE ..      by the table of the file TABLE
//
// What cannot be opened is said on standard error by its name, and stands in the set as a sheet without bytes. Of a text that has no sheet
// standard error says why, and it stands there as it is, so that it is refused. More files than a set may have are refused: 9, number and
// line are printed.
#![tactic(auto)]

use day_page::PAGE_ROOM;
use judge_ends::MOST_SHEETS;
use judge_result::{LEAST_ROOM, REFUSED};
use program_input::NAME_ROOM;
use sheet_format::{FIELD_END, MOST_BYTES, MOST_SHEET_BYTES};
use sheet_table_file::TABLE_READ;
use std::env::Env;
use std::io;
use std::rt::Files;
use text_begins::MOST_TEXT;
use text_to_sheet::NotMade;
use text_writer::TEXT_ROOM;

// What is read of a file: one byte more than a text may have, so that a longer one is refused.
const READ: usize = MOST_TEXT + 1;

// What is kept of it: one byte more than a sheet may have, so that a longer one is refused.
const KEPT: usize = MOST_SHEET_BYTES + 1;

// So many files: one more than a set may have, so that more are refused.
const FILES: usize = MOST_SHEETS + 1;

// The bytes that are kept of all of them.
const ROOM: usize = FILES * KEPT;

// The number of an argument that no program has.
const NO_ARGUMENT: usize = usize::MAX;

fn main(rt: HostRuntime) -> io::Result<()> {
    let first = first_file(&rt);
    let mut table = [0u8; TABLE_READ];
    let n = sheet_table_file::table(&rt, &rt.stderr(), table_at(first), &mut table);
    run(&rt, &rt.stderr(), &table[..n], first)
}

// The bytes of files, one file's after the other's, and how many they are.
#[derive(Drop)]
struct Bytes {
    room: [u8; ROOM],
    length: usize,
}

impl Bytes {
    // Puts as many bytes as are kept of a file after the others, if there is room for one more.
    fn put_front(&mut self, s: &[u8]) {
        let n = s.len().min(KEPT);
        if self.length <= ROOM - KEPT {
            self.room[self.length..self.length + n].copy_from_slice(&s[..n]);
            self.length += n;
        }
    }

    fn as_slice(&self) -> &[u8] {
        &self.room[..self.length.min(ROOM)]
    }
}

// Whether the first argument says that a table follows.
fn has_table(env: &impl Env) -> bool {
    let mut word = [0u8; 2];
    env.arg(1, &mut word).is_ok_and(|n| n == 2) && word == *b"-t"
}

// The number of the first argument that names a file to judge.
fn first_file(env: &impl Env) -> usize {
    if has_table(env) { 3 } else { 1 }
}

// The number of the argument that names the table: one that is not there where none is named.
fn table_at(first: usize) -> usize {
    if first == 3 { 2 } else { NO_ARGUMENT }
}

// Judges the files from an argument on by a table, and prints the page.
fn run<R: Env + Files + Print>(
    rt: &R,
    errors: &impl Print,
    table: &[u8],
    first: usize,
) -> io::Result<()> {
    let mut bytes = Bytes {
        room: [0; ROOM],
        length: 0,
    };
    let mut ends = [0usize; FILES];
    for k in 0..FILES {
        let number = first.saturating_add(k);
        if !program_input::has_argument(rt, number) {
            return print(rt, table, bytes.as_slice(), &ends[..k]);
        }
        put_file(rt, errors, table, &mut bytes, number);
        ends[k] = bytes.length;
    }
    print(rt, table, bytes.as_slice(), &ends)
}

// Puts the bytes of the file that an argument names after the others.
fn put_file<R: Env + Files>(
    rt: &R,
    errors: &impl Print,
    table: &[u8],
    bytes: &mut Bytes,
    number: usize,
) {
    let mut name = [0u8; NAME_ROOM];
    let mut given = [0u8; READ];
    if let Some(file) = program_input::read_named(rt, errors, number, &mut name, &mut given) {
        put_given(
            errors,
            table,
            bytes,
            &given[..file.bytes],
            &name[..file.name],
        );
    }
}

// Puts a sheet as it is, and the sheet of a text; a text that has none as it is.
fn put_given(errors: &impl Print, table: &[u8], bytes: &mut Bytes, given: &[u8], name: &[u8]) {
    if !text_begins::is_text(given) {
        return bytes.put_front(given);
    }
    let mut sheet = [0u8; MOST_BYTES];
    match text_to_sheet::sheet_of_by_table(table, given, &mut sheet) {
        Ok(n) => bytes.put_front(&sheet[..n.min(MOST_BYTES)]),
        Err(reason) => {
            complain(errors, name, reason);
            bytes.put_front(given);
        }
    }
}

// Says by the file's name why its text has no sheet, as far as it can be said.
fn complain(errors: &impl Print, name: &[u8], reason: NotMade) {
    let mut words = [0u8; TEXT_ROOM];
    let n = text_message::message(reason, &mut words).min(words.len());
    let _ = errors.write_all(name);
    let _ = errors.write_all(b": ");
    let _ = errors.write_all(&words[..n]);
}

// Judges the set, and prints its page.
fn print(rt: &impl Print, table: &[u8], bytes: &[u8], ends: &[usize]) -> io::Result<()> {
    let mut facts = [0i32; MOST_SHEETS * LEAST_ROOM];
    let mut page = [0u8; PAGE_ROOM];
    match judge_day::judge_day_by_table(table, bytes, ends, &mut facts, &mut page) {
        Ok(day) => rt.write_all(&page[..day.bytes.min(PAGE_ROOM)]),
        Err(cause) => {
            for n in [REFUSED, cause.number(), 0] {
                print_number(rt, n)?;
            }
            rt.write_all(b"\n")
        }
    }
}

// A number that fits a field, as a refusal's numbers do.
fn print_number(rt: &impl Print, n: usize) -> io::Result<()> {
    if n < FIELD_END as usize {
        return rt.write_all(&sheet_fields::field_bytes(n as i32));
    }
    Ok(())
}
