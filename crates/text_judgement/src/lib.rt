// Judgements in words, by a table of relations in plain numbers.
#![tactic(auto)]

ghost use Rattle.std.specs.Prelude.{◌≡◌, ◌-◌, ◌/◌, length};
ghost use Rattle.sheet_format.specs.Limits.{field_byte_count};
ghost use Rattle.sheet_format.specs.Table.{table_in};
ghost use Rattle.sheet_format.specs.Line.{line_at};
ghost use Rattle.text_buffer.specs.Puts.{Put};
ghost use Rattle.judge_result.specs.Returns.{judgement_from_verdict, judgement_from_result};
ghost use Rattle.text_judgement.specs.Verdict.{value_word, missing_bytes, case_bytes, verdict_bytes};

use judge_result::Verdict;
use sheet_format::{FIELD_BYTES, FIELD_END, MOST_HEAD_FIELDS, Refusal, TABLE_NUMBERS};
use text_buffer::put;
use text_facts::put_facts;
use text_refusals::put_refusal;
use text_writer::put_terms;

// The columns of a missing answer, at most.
const COLUMNS: usize = MOST_HEAD_FIELDS - 1;

/// The columns of the question's head, which is the sheet's first line.
pub fn columns(sheet: &[u8]) -> usize
    ensures { result ≡ length (line_at sheet.now 1) / field_byte_count - 1 }
{
    let fields = sheet::line(sheet, 1).len() / FIELD_BYTES;
    fields.saturating_sub(1)
}

// A value of a missing answer as a word.
fn word(n: usize) -> i32
    ensures { result ≡ value_word n }
{
    if n < FIELD_END as usize {
        return n as i32;
    }
    0
}

// A missing answer.
fn put_missing(out: &mut [u8], at: usize, columns: usize, missing: [usize; COLUMNS]) -> usize
    ensures { Put out.old out.new at (missing_bytes columns missing) result }
{
    let row = [
        word(missing[0]),
        word(missing[1]),
        word(missing[2]),
        word(missing[3]),
    ];
    let some = columns.min(COLUMNS);
    put_terms(out, at, &row[0..some])
}

// The missing answer and the log of a case.
fn put_case(
    table: &[usize; TABLE_NUMBERS],
    out: &mut [u8],
    columns: usize,
    missing: [usize; COLUMNS],
    facts: &[i32],
    count: usize,
) -> usize
    ensures { Put out.old out.new 0 (case_bytes (table_in table.now) columns missing count facts.now) result }
{
    let a = put(out, 0, b"not covered: ");
    let b = put_missing(out, a, columns, missing);
    let c = put(out, b, b" is missing. Log: ");
    let d = put_facts(table, out, c, facts, count);
    put(out, d, b"\n")
}

// What is said of a verdict. `columns` are those of the question, and `facts` begin with the case.
fn put_verdict(
    table: &[usize; TABLE_NUMBERS],
    out: &mut [u8],
    columns: usize,
    verdict: Verdict,
    facts: &[i32],
) -> usize
    ensures { Put out.old out.new 0 (verdict_bytes (table_in table.now) columns (judgement_from_verdict verdict) facts.now) result }
{
    match verdict {
        Verdict::Covered => put(out, 0, b"covered\n"),
        Verdict::NoLog => put(out, 0, b"no log gives these rows\n"),
        Verdict::NotCovered {
            facts: count,
            missing,
        } => put_case(table, out, columns, missing, facts, count),
    }
}

/// Puts a judgement. `columns` are those of the question, and `facts` begin with the case.
pub fn put_judgement(
    table: &[usize; TABLE_NUMBERS],
    out: &mut [u8],
    columns: usize,
    judged: Result<Verdict, Refusal>,
    facts: &[i32],
) -> usize
    ensures { Put out.old out.new 0 (verdict_bytes (table_in table.now) columns (judgement_from_result judged) facts.now) result }
{
    match judged {
        Ok(verdict) => put_verdict(table, out, columns, verdict, facts),
        Err(refusal) => put_refusal(out, 0, refusal.cause.number(), refusal.line, 0),
    }
}
