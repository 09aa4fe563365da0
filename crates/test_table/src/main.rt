// Reads the tables of standard input, a case to a line, and prints a line for each case.
//
//     # TEXT      a heading, printed as it stands
//     t|TABLE     reads TABLE
//     o|          reads the library's own table, and prints its bytes too
//
// In a TABLE "/" stands for byte 10, "," for seven blanks, ";" for six, "\" with two hexadecimal digits for the byte of that number; any
// other byte stands for itself.
//
// What is printed: the number, the line and how many relations there are; "=" where the numbers after theirs are 0, and "!" where they are
// not; a bar; columns, key and parent of each relation, "/" after each.
#![tactic(auto)]

use sheet_format::{RELATION_NUMBERS, Refusal, TABLE_NUMBERS};
use std::io;
use test_lines::Lines;
use test_results::Line;

// The bytes of a case and of a table, at most.
const CASE: usize = 4096;

const TABLE: usize = 2048;

// No result is longer.
const ROOM: usize = 8192;

// Runs every case.
fn main(rt: HostRuntime) -> io::Result<()> {
    let mut room = [0u8; ROOM];
    for case in Lines::new(rt.stdin(), CASE) {
        let case = case?;
        let mut out = Line::new(&mut room);
        run(case.as_bytes(), &mut out);
        out.byte(b'\n');
        rt.write_all(out.as_bytes())?;
    }
    Ok(())
}

// Runs a case, and puts its result. A line without a bar is a heading.
fn run(case: &[u8], out: &mut Line<'_>) {
    let Some(bar) = test_words::place(case, b'|') else {
        out.bytes(case);
        return;
    };
    match case[0] {
        b't' => read(
            test_bytes::to_bytes(&case[bar + 1..], &mut [0u8; TABLE]),
            out,
        ),
        b'o' => call_own(out),
        _ => out.byte(b'?'),
    }
}

// Reads the library's own table, and puts its bytes too, "/" for byte 10.
fn call_own(out: &mut Line<'_>) {
    let bytes = sheet_own_table::own_table();
    read(&bytes, out);
    for b in bytes {
        out.byte(if b == b'\n' { b'/' } else { b });
    }
}

// Reads a table, and puts what came of it.
fn read(given: &[u8], out: &mut Line<'_>) {
    match sheet_table::load(given) {
        Ok(numbers) => put_taken(out, &numbers),
        Err(Refusal { cause, line }) => put_answer(out, cause.number(), line, 0, &[]),
    }
}

// Puts the relations of a table.
fn put_taken(out: &mut Line<'_>, numbers: &[usize; TABLE_NUMBERS]) {
    let count = count(numbers);
    let (taken, rest) = numbers.split_at(count.saturating_mul(RELATION_NUMBERS).min(TABLE_NUMBERS));
    put_answer(out, 0, 0, count, rest);
    for (i, n) in taken.iter().enumerate() {
        out.number(*n, if i % 3 == 2 { b'/' } else { b' ' });
    }
}

// How many relations follow each other: each has columns.
fn count(numbers: &[usize; TABLE_NUMBERS]) -> usize {
    let (relations, _) = numbers.as_chunks::<RELATION_NUMBERS>();
    relations.iter().take_while(|r| r[0] != 0).count()
}

// Number, line and count, then whether the numbers after the relations are 0, and a bar.
fn put_answer(out: &mut Line<'_>, number: usize, line: usize, count: usize, rest: &[usize]) {
    out.number(number, b' ');
    out.number(line, b' ');
    out.number(count, b' ');
    out.mark(rest.iter().all(|n| *n == 0));
    out.byte(b'|');
}
