// Runs evaluation on the cases of standard input, a case to a line, and prints a line for each case.
//
//     # TEXT                          a heading, printed as it stands
//     BLOCK ROOM|SHEET|FACTS          evaluates the block BLOCK of SHEET on FACTS, with ROOM lent words
//     BLOCK ROOM|TABLE|SHEET|FACTS    the same by a club's TABLE of relations
//
// In a TABLE and a SHEET "/" stands for byte 10, "," for seven blanks, ";" for six, "\" with two hexadecimal digits for the byte of that number; any
// other byte stands for itself. FACTS are decimal words by single blanks, with "/" after each fact, whose last zeros may be left out.
//
// What is printed: the number, the line and the count; "=" where the lent words after the answers are as they were lent, and "!" where they
// are not; a bar; the answers, four words each, with "/" after each.
#![tactic(auto)]

mod ending;

use sheet_format::Refusal;
use std::io;
use test_lines::Lines;
use test_results::Line;

// The bytes of a case, at most.
const CASE: usize = 8192;

// The words of a fact, and of an answer.
const FACT: usize = 5;

const ANSWER: usize = 4;

// The bytes of a table and of a sheet, the words of the facts and those that are lent, at most.
const TABLE: usize = 1280;

const SHEET: usize = 8704;

const FACTS: usize = 1344;

const WORDS: usize = 8192;

// No result is longer: it has at most so many words of twelve bytes each, and how the call ended.
const ROOM: usize = WORDS * 12 + 128;

// Runs every case.
fn main(rt: HostRuntime) -> io::Result<()> {
    let mut room = [0u8; ROOM];
    for case in Lines::new(rt.stdin(), CASE) {
        let case = case?;
        let mut out = Line::new(&mut room);
        run(case.as_bytes(), &mut out);
        out.byte(b'\n');
        rt.write_all(out.as_bytes())?;
    }
    Ok(())
}

// Runs a case, and puts its result. A line without a bar is a heading.
fn run(case: &[u8], out: &mut Line<'_>) {
    let Some(bar) = test_words::place(case, b'|') else {
        out.bytes(case);
        return;
    };
    run_parts(&case[..bar], &case[bar + 1..], out);
}

// Takes a case's two numbers apart, and its first text from the others: where two follow it, it is a table.
fn run_parts(numbers: &[u8], texts: &[u8], out: &mut Line<'_>) {
    let gap = test_words::place(numbers, b' ').unwrap_or(numbers.len());
    let block = test_numbers::number(&numbers[..gap]);
    let room = test_numbers::number(&numbers[gap..]);
    let Some(bar) = test_words::place(texts, b'|') else {
        out.byte(b'?');
        return;
    };
    let (first, rest) = (&texts[..bar], &texts[bar + 1..]);
    let mut held = [0u8; SHEET];
    match test_words::place(rest, b'|') {
        None => {
            let sheet = test_bytes::to_bytes(first, &mut held);
            call(None, sheet, block, rest, room, out);
        }
        Some(bar) => {
            let mut club = [0u8; TABLE];
            let table = Some(test_bytes::to_bytes(first, &mut club));
            let sheet = test_bytes::to_bytes(&rest[..bar], &mut held);
            call(table, sheet, block, &rest[bar + 1..], room, out);
        }
    }
}

// Evaluates on the facts that a text stands for, by the table where there is one, and puts what came of it.
fn call(
    table: Option<&[u8]>,
    sheet: &[u8],
    block: usize,
    facts: &[u8],
    room: usize,
    out: &mut Line<'_>,
) {
    let mut held = [0i32; FACTS];
    let facts = test_words::to_words(facts, FACT, &mut held);
    let mut words = [0i32; WORDS];
    let lent = &mut words[..room.min(WORDS)];
    test_lent::put_marks(lent);
    let e = answer(table, sheet, block, facts, lent);
    put_answers(out, e, lent);
}

// Puts how a call ended, and the answers in the lent words.
fn put_answers(out: &mut Line<'_>, e: Result<usize, Refusal>, lent: &[i32]) {
    let done = e.unwrap_or(0).saturating_mul(ANSWER).min(lent.len());
    ending::put_ending(out, e, test_lent::are_marked(lent, done));
    out.byte(b'|');
    out.words(&lent[..done], ANSWER);
}

// Evaluates, by the table where there is one.
fn answer(
    table: Option<&[u8]>,
    sheet: &[u8],
    block: usize,
    facts: &[i32],
    lent: &mut [i32],
) -> Result<usize, Refusal> {
    match table {
        Some(table) => evaluate::evaluate_by_table(table, sheet, block, facts, lent),
        None => evaluate::evaluate(sheet, block, facts, lent),
    }
}
