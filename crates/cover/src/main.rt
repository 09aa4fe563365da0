// Judges the sheet of standard input, and prints the verdict in fields of eight bytes.
//
//     cover            by the library's own table of relations
//     cover TABLE      by the table of the file TABLE
//
//     9, number, line             a refusal
//     0 or 2                      covered, or no log
//     1, count                    not covered, and how many facts the case has; then
//     6, a value for each column of the question's head       the missing answer
//     7, relation, a value for each column of it              a fact of the case, a line for each
#![tactic(auto)]

ghost use Rattle.std.specs.Prelude.{◌≡◌, ◌*◌, ◌≤◌, length};
ghost use Rattle.judge_result.specs.Judged.{least_room};
ghost use Rattle.judge_result.specs.Returns.{judgement_from_result};

use judge_result::{COVERED, LEAST_ROOM, NO_LOG, NOT_COVERED, REFUSED, Verdict};
use query_meaning::FACT_WORDS;
use sheet_format::{FIELD_BYTES, FIELD_END, MOST_SHEET_BYTES, Refusal, TABLE_NUMBERS};
use sheet_table_file::TABLE_READ;
use std::io;

// What is read: one byte more than a sheet may have, so that a longer one is refused.
const READ: usize = MOST_SHEET_BYTES + 1;

// The columns of a relation and of a head, at most.
const MOST_COLUMNS: usize = 4;

// The kinds of the lines that show a case.
const MISSING: usize = 6;

const FACT: usize = 7;

fn main(rt: HostRuntime) -> io::Result<()> {
    let mut table = [0u8; TABLE_READ];
    let known = sheet_table_file::table(&rt, &rt.stderr(), 1, &mut table);
    let mut sheet = [0u8; READ];
    let read = program_input::read_up_to(&mut rt.reader(), &mut sheet)?;
    cover(&rt, &table[..known], &sheet[..read])
}

// Judges a sheet by a table, and prints what comes out.
fn cover(rt: &impl Print, table: &[u8], sheet: &[u8]) -> io::Result<()> {
    let mut facts = [0i32; LEAST_ROOM];
    let (count, missing) = match judged(table, sheet, &mut facts) {
        Ok(Verdict::NotCovered { facts, missing }) => (facts, missing),
        Ok(Verdict::Covered) => return print_line(rt, &[COVERED]),
        Ok(Verdict::NoLog) => return print_line(rt, &[NO_LOG]),
        Err(refusal) => {
            return print_line(rt, &[REFUSED, refusal.cause.number(), refusal.line]);
        }
    };
    print_line(rt, &[NOT_COVERED, count])?;
    print_missing(rt, &missing, columns(sheet))?;
    let numbers = sheet_table::load(table).unwrap_or([0; TABLE_NUMBERS]);
    print_facts(rt, &numbers, &facts, count)
}

// Judges a sheet into the words that a verdict wants: the facts of its case are among them.
fn judged(table: &[u8], sheet: &[u8], facts: &mut [i32]) -> Result<Verdict, Refusal>
    requires { length facts.old ≡ least_room }
    ensures { (judgement_from_result result).count * 5 ≤ least_room }
{
    judge::judge_by_table(table, sheet, facts)
}

// The facts of a case, a line for each.
fn print_facts(
    rt: &impl Print,
    table: &[usize; TABLE_NUMBERS],
    facts: &[i32],
    count: usize,
) -> io::Result<()>
    requires { count * 5 ≤ length facts.now }
{
    let (facts, _) = facts[..count * FACT_WORDS].as_chunks::<FACT_WORDS>();
    for fact in facts {
        print_fact(rt, table, fact)?;
    }
    Ok(())
}

// The columns of the question's head, which is the sheet's first line.
fn columns(sheet: &[u8]) -> usize
    ensures { result ≤ 4 }
{
    let fields = sheet::line(sheet, 1).len() / FIELD_BYTES;
    fields.saturating_sub(1).min(MOST_COLUMNS)
}

fn print_missing(rt: &impl Print, values: &[usize; 4], columns: usize) -> io::Result<()> {
    print_number(rt, MISSING)?;
    for value in values.iter().take(columns) {
        print_number(rt, *value)?;
    }
    print_end(rt)
}

// A relation, and as many values as it has columns.
fn print_fact(
    rt: &impl Print,
    table: &[usize; TABLE_NUMBERS],
    fact: &[i32; FACT_WORDS],
) -> io::Result<()> {
    let columns = sheet_terms::columns(table, fact[0]).min(MOST_COLUMNS);
    print_number(rt, FACT)?;
    for word in fact.iter().take(columns + 1) {
        print_word(rt, *word)?;
    }
    print_end(rt)
}

fn print_line(rt: &impl Print, numbers: &[usize]) -> io::Result<()> {
    for n in numbers {
        print_number(rt, *n)?;
    }
    print_end(rt)
}

// A number that fits a field, as all numbers of a judgement do.
fn print_number(rt: &impl Print, n: usize) -> io::Result<()> {
    if n < FIELD_END as usize {
        return print_word(rt, n as i32);
    }
    Ok(())
}

fn print_word(rt: &impl Print, w: i32) -> io::Result<()> {
    rt.write_all(&sheet_fields::field_bytes(w))
}

fn print_end(rt: &impl Print) -> io::Result<()> {
    rt.write_all(b"\n")
}
