// Runs the calls of the crate sheet on the cases of standard input, a case to a line, and prints a line for each case.
//
//     # TEXT                a heading, printed as it stands
//     r ROOM|SHEET          reads SHEET into ROOM lent words
//     w ROOM|WORDS          writes the number form WORDS into ROOM lent bytes
//     l NUMBER|SHEET        hands back the line NUMBER of SHEET
//     b ROOM|SHEET          reads SHEET, and writes what was read into ROOM lent bytes
//     R ROOM|SHEET|TABLE    reads as r does, by the table of relations TABLE
//     W ROOM|WORDS|TABLE    writes as w does, by TABLE
//     B ROOM|SHEET|TABLE    reads and writes as b does, by TABLE
//
// In a SHEET and in a TABLE "/" stands for byte 10, "," for seven blanks, ";" for six, "\" with two hexadecimal digits for the byte of that
// number; any other byte stands for itself. A SHEET that a TABLE follows has no bar. WORDS are decimal numbers by single blanks, with "/"
// after each line of seven, whose last zeros may be left out.
//
// What is printed of reading and of writing: the number, the line and the count; "=" where the lent words or bytes after the count are as
// they were lent, and "!" where they are not; a bar; the words or bytes written. Of a line: its length, a bar, its bytes.
#![tactic(auto)]

mod result;

use sheet_format::{LINE_WORDS, MOST_BYTES, MOST_WORDS, Refusal};
use std::io;
use test_lines::Lines;
use test_results::Line;

// The bytes of a case, at most.
const CASE: usize = 4096;

// The words and bytes that are lent, at most, and what they hold before the call.
const WORDS: usize = MOST_WORDS + 64;

const BYTES: usize = MOST_BYTES + 64;

const WORD: i32 = 77777777;

const BYTE: u8 = b'#';

// The bytes of a sheet and of a table, at most: more than 33 lines have.
const SHEET: usize = 8704;

const TABLE: usize = 2048;

// No result is longer: it has words of twelve bytes each and bytes of three, and two answers.
const ROOM: usize = WORDS * 12 + BYTES * 3 + 512;

// Runs every case.
fn main(rt: HostRuntime) -> io::Result<()> {
    let mut room = [0u8; ROOM];
    for case in Lines::new(rt.stdin(), CASE) {
        let case = case?;
        let mut out = Line::new(&mut room);
        run(case.as_bytes(), &mut out);
        out.byte(b'\n');
        rt.write_all(out.as_bytes())?;
    }
    Ok(())
}

// Runs a case, and puts its result. A line without a bar is a heading.
fn run(case: &[u8], out: &mut Line<'_>) {
    let Some(bar) = test_words::place(case, b'|') else {
        out.bytes(case);
        return;
    };
    let number = test_numbers::number(&case[..bar]);
    call(case[0], number, &case[bar + 1..], out);
}

fn call(name: u8, number: usize, text: &[u8], out: &mut Line<'_>) {
    match name {
        b'r' => call_read(None, number, text, out),
        b'w' => call_write(None, number, text, out),
        b'l' => call_line(number, text, out),
        b'b' => call_both(None, number, text, out),
        b'R' | b'W' | b'B' => call_with_table(name, number, text, out),
        _ => out.byte(b'?'),
    }
}

// Calls by the table that follows a bar.
fn call_with_table(name: u8, number: usize, text: &[u8], out: &mut Line<'_>) {
    let Some(bar) = test_words::place(text, b'|') else {
        out.byte(b'?');
        return;
    };
    let mut held = [0u8; TABLE];
    let table = Some(test_bytes::to_bytes(&text[bar + 1..], &mut held));
    let text = &text[..bar];
    match name {
        b'R' => call_read(table, number, text, out),
        b'W' => call_write(table, number, text, out),
        _ => call_both(table, number, text, out),
    }
}

// Reads, by the table where there is one.
fn read(table: Option<&[u8]>, sheet: &[u8], lent: &mut [i32]) -> Result<usize, Refusal> {
    match table {
        Some(table) => sheet::read_by_table(table, sheet, lent),
        None => sheet::read(sheet, lent),
    }
}

// Writes, by the table where there is one.
fn write(table: Option<&[u8]>, words: &[i32], lent: &mut [u8]) -> Result<usize, Refusal> {
    match table {
        Some(table) => sheet::write_by_table(table, words, lent),
        None => sheet::write(words, lent),
    }
}

fn call_read(table: Option<&[u8]>, room: usize, text: &[u8], out: &mut Line<'_>) {
    let mut held = [0u8; SHEET];
    let given = test_bytes::to_bytes(text, &mut held);
    let mut words = [WORD; WORDS];
    let lent = &mut words[..room.min(WORDS)];
    let answer = read(table, given, lent);
    put_read(out, answer, lent);
}

fn call_write(table: Option<&[u8]>, room: usize, text: &[u8], out: &mut Line<'_>) {
    let mut held = [0i32; WORDS];
    let given = test_words::to_words(text, LINE_WORDS, &mut held);
    put_written(table, given, room, out);
}

fn call_line(number: usize, text: &[u8], out: &mut Line<'_>) {
    let mut held = [0u8; SHEET];
    let given = test_bytes::to_bytes(text, &mut held);
    let back = sheet::line(given, number);
    out.number(back.len(), b'|');
    result::put_bytes(out, back);
}

fn call_both(table: Option<&[u8]>, room: usize, text: &[u8], out: &mut Line<'_>) {
    let mut held = [0u8; SHEET];
    let given = test_bytes::to_bytes(text, &mut held);
    let mut words = [WORD; WORDS];
    let answer = read(table, given, &mut words);
    put_read(out, answer, &words);
    let (done, _) = words.split_at(words_of(answer).min(WORDS));
    put_written(table, done, room, out);
}

// How many words the lines have that were read. More lines than a sheet can have count as a thousand.
fn words_of(answer: Result<usize, Refusal>) -> usize {
    answer.unwrap_or(0).min(1000) * LINE_WORDS
}

// Puts what was read into the lent words.
fn put_read(out: &mut Line<'_>, answer: Result<usize, Refusal>, lent: &[i32]) {
    let (done, rest) = lent.split_at(words_of(answer).min(lent.len()));
    result::put_answer(out, answer, rest.iter().all(|w| *w == WORD));
    out.byte(b'|');
    out.words(done, LINE_WORDS);
}

// Writes into so many lent bytes, and puts what was written there.
fn put_written(table: Option<&[u8]>, words: &[i32], room: usize, out: &mut Line<'_>) {
    let mut bytes = [BYTE; BYTES];
    let lent = &mut bytes[..room.min(BYTES)];
    let answer = write(table, words, lent);
    let (done, rest) = lent.split_at(answer.unwrap_or(0).min(lent.len()));
    result::put_answer(out, answer, rest.iter().all(|b| *b == BYTE));
    out.byte(b'|');
    result::put_bytes(out, done);
}
