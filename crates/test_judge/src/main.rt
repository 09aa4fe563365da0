// Runs the cases of standard input, a case to a line, and prints what comes of each.
//
//     # TEXT                                         a heading, printed as it stands
//     CALL NAME|WORDS NUMBER NUMBER ..|BYTES         calls with BYTES and so many lent words: CALL is cover, set or day
//     CALL NAME|WORDS NUMBER NUMBER ..|BYTES|TABLE   the same by the table of relations TABLE
//     text NAME|GIVEN                                what is said of GIVEN, in words
//
// In BYTES and in a TABLE "/" stands for byte 10, "," for seven blanks, ";" for six, "\" with two hexadecimal digits for the byte of that
// number; any other byte stands for itself. Neither has a bar. A case without a TABLE goes by the library's own.
//
// The first letter of CALL tells which it is. What is printed: the name, and what the call's module says. Of any other CALL it is the name
// alone.
#![tactic(auto)]

mod cover;
mod day;
mod set;
mod text;

use judge_ends::MOST_SHEETS;
use judge_result::LEAST_ROOM;
use std::io;
use test_lines::Lines;
use test_results::Line;
use text_writer::TEXT_ROOM;

// The bytes of a case, at most.
const CASE: usize = 8192;

// No result is longer than a text's: the name, what is said in words, a text, and a few marks.
const ROOM: usize = CASE + TEXT_ROOM + TEXT_ROOM + 16;

// Words enough for every set, with some more.
const HELD_WORDS: usize = MOST_SHEETS * LEAST_ROOM + 64;

// The two rooms and the ends of a case: more ends than a set may have.
const HELD_NUMBERS: usize = MOST_SHEETS + 5;

// The bytes of a sheet or a set, and of a table, at most: more than 33 lines have.
const BYTES: usize = 8704;

const TABLE: usize = 2048;

// The table of relations that a case goes by: the library's own, whose bytes these are, or another.
#[derive(Clone, Copy)]
enum Law<'a> {
    Own(&'a [u8]),
    Club(&'a [u8]),
}

// What a case calls with: a table, the bytes of a sheet or a set, and the numbers after that of the lent words.
#[derive(Clone, Copy)]
struct Given<'a> {
    law: Law<'a>,
    bytes: &'a [u8],
    numbers: &'a [i32],
}

// Runs every case.
fn main(rt: HostRuntime) -> io::Result<()> {
    let mut room = [0u8; ROOM];
    for case in Lines::new(rt.stdin(), CASE) {
        let case = case?;
        let mut out = Line::new(&mut room);
        run(case.as_bytes(), &mut out);
        rt.write_all(out.as_bytes())?;
    }
    Ok(())
}

// Runs a case, and puts its result. A line without a bar is a heading.
fn run(case: &[u8], out: &mut Line<'_>) {
    let Some(bar) = test_words::place(case, b'|') else {
        put_line(out, case);
        return;
    };
    run_named(&case[..bar], &case[bar + 1..], out);
}

fn put_line(out: &mut Line<'_>, s: &[u8]) {
    out.bytes(s);
    out.byte(b'\n');
}

// Takes the call's word and the case's name apart.
fn run_named(head: &[u8], parts: &[u8], out: &mut Line<'_>) {
    let Some(gap) = test_words::place(head, b' ') else {
        put_line(out, head);
        return;
    };
    out.bytes(&head[gap + 1..]);
    if head[0] == b't' {
        text::run(parts, out);
        return;
    }
    run_numbers(head[0], parts, out);
    out.byte(b'\n');
}

// Takes a case's numbers and its text apart.
fn run_numbers(call: u8, parts: &[u8], out: &mut Line<'_>) {
    let Some(bar) = test_words::place(parts, b'|') else {
        return;
    };
    let mut held = [0i32; HELD_NUMBERS];
    match test_words::to_words(&parts[..bar], 1, &mut held) {
        [] => {}
        [words, rest @ ..] => run_text(call, *words, rest, &parts[bar + 1..], out),
    }
}

// Runs with the bytes that the text stands for, and after a bar those of a table.
fn run_text(call: u8, words: i32, numbers: &[i32], text: &[u8], out: &mut Line<'_>) {
    let mut held = [0u8; BYTES];
    match test_words::place(text, b'|') {
        None => {
            let own = sheet_own_table::own_table();
            let given = Given {
                law: Law::Own(&own),
                bytes: test_bytes::to_bytes(text, &mut held),
                numbers,
            };
            run_call(call, words, &given, out);
        }
        Some(bar) => {
            let mut table = [0u8; TABLE];
            let given = Given {
                law: Law::Club(test_bytes::to_bytes(&text[bar + 1..], &mut table)),
                bytes: test_bytes::to_bytes(&text[..bar], &mut held),
                numbers,
            };
            run_call(call, words, &given, out);
        }
    }
}

// Calls with as many lent words as the case says.
fn run_call(call: u8, words: i32, given: &Given<'_>, out: &mut Line<'_>) {
    let mut held = [0i32; HELD_WORDS];
    let lent = &mut held[..sheet_terms::number(words).min(HELD_WORDS)];
    test_lent::put_marks(lent);
    match call {
        b'c' => cover::run(given, lent, out),
        b's' => set::run(given, lent, out),
        b'd' => day::run(given, lent, out),
        _ => {}
    }
}

// Puts a missing answer, and a byte after it.
fn put_missing(out: &mut Line<'_>, missing: &[usize; 4], after: u8) {
    let [a, b, c, d] = *missing;
    out.number(a, b' ');
    out.number(b, b' ');
    out.number(c, b' ');
    out.number(d, after);
}
