// The page for a set that was judged: a line for each sheet, and a closing line of totals, in the fields of sheets.
#![tactic(auto)]

ghost use Rattle.std.specs.Prelude.{◌≡◌, ◌==◌, ◌^◌, ◌≤◌, ◌<◌, pos, length, count_by, sum_by};
ghost use Rattle.sheet_format.specs.Limits.{field_end};
ghost use Rattle.sheet_format.specs.Field.{field_bytes};
ghost use Rattle.sheet_format.specs.Line.{line_bytes, bytes_of};
ghost use Rattle.sheet_format.specs.Returns.{cause_in};
ghost use Rattle.text_buffer.specs.Puts.{Put};
ghost use Rattle.judge_ends.specs.Sets.{most_sheets};
ghost use Rattle.judge_ends.specs.Returns.{judgement_at, judgements_at};
ghost use Rattle.day_page.specs.Page.{sheet_line, sheet_lines, facts_of, closing_line, page_of, Printable, AllShown};
ghost use Rattle.day_page.specs.Refusal.{refusal_of_day};

use judge_ends::{JudgedSet, Place};
use judge_result::{COVERED, NO_LOG, NOT_COVERED, REFUSED, Verdict};
use sheet_format::Cause;
use text_buffer::{put, put_byte};

/// A set that is taken, and how many bytes its page has.
#[derive(Clone, Copy)]
pub struct JudgedDay {
    pub set: JudgedSet,
    pub bytes: usize,
}

/// So many bytes must be lent for a page.
pub const PAGE_ROOM: usize = 569;

// Places are counted from this.
const FIRST_PLACE: usize = 1;

// A number's field.
fn put_number(out: &mut [u8], at: usize, n: usize) -> usize
    requires { n < field_end }
    ensures { Put out.old out.new at (field_bytes (pos n)) result }
{
    let field = sheet_fields::field_bytes(n as i32);
    put(out, at, &field)
}

// The verdict's number, 9 without one.
fn verdict_number(place: &Place) -> usize
    ensures { result ≡ (judgement_at place.now).verdict }
{
    match place {
        Some(Ok(Verdict::Covered)) => COVERED,
        Some(Ok(Verdict::NotCovered { .. })) => NOT_COVERED,
        Some(Ok(Verdict::NoLog)) => NO_LOG,
        Some(Err(_)) | None => REFUSED,
    }
}

// The refusal's number, 0 without one.
fn refusal_number(place: &Place) -> usize
    ensures { result ≡ (judgement_at place.now).number }
{
    match place {
        Some(Err(refusal)) => refusal.cause.number(),
        Some(Ok(_)) | None => 0,
    }
}

// How many facts the sheet's case has.
fn fact_count(place: &Place) -> usize
    ensures { result ≡ facts_of (judgement_at place.now) }
{
    match place {
        Some(Ok(Verdict::NotCovered { facts, .. })) => *facts,
        _ => 0,
    }
}

// How many sheets have a verdict.
fn tally(sheets: &[Place], verdict: usize) -> usize
    ensures { result ≡ count_by (λ p. (judgement_at p).verdict == verdict) sheets.now }
{
    sheets
        .iter()
        .filter(|p| verdict_number(p) == verdict)
        .count()
}

// The facts of all sheets.
fn fact_sum(sheets: &[Place]) -> usize
    requires { sum_by (λ p. facts_of (judgement_at p)) sheets.now < 2 ^ 64 }
    ensures { result ≡ sum_by (λ p. facts_of (judgement_at p)) sheets.now }
{
    sheets.iter().map(|p| fact_count(p)).sum()
}

// A sheet's line.
fn put_sheet(out: &mut [u8], at: usize, number: usize, place: &Place) -> usize
    requires { (number < field_end) × Printable (judgement_at place.now) }
    ensures { Put out.old out.new at (line_bytes (sheet_line number (judgement_at place.now))) result }
{
    let a = put_number(out, at, number);
    let b = put_number(out, a, verdict_number(place));
    let c = put_number(out, b, refusal_number(place));
    let d = put_number(out, c, fact_count(place));
    put_byte(out, d, b'\n')
}

// The lines of all sheets.
fn put_sheets(out: &mut [u8], sheets: &[Place]) -> usize
    requires { (length sheets.now ≤ most_sheets) × AllShown (judgements_at sheets.now) }
    ensures { Put out.old out.new 0 (bytes_of (sheet_lines 1 (judgements_at sheets.now))) result }
{
    let mut n = 0;
    for (i, place) in sheets.iter().enumerate() {
        n = put_sheet(out, n, FIRST_PLACE + i, place);
    }
    n
}

// The closing line.
fn put_closing(out: &mut [u8], at: usize, sheets: &[Place]) -> usize
    requires { (length sheets.now ≤ most_sheets) × AllShown (judgements_at sheets.now) }
    ensures { Put out.old out.new at (line_bytes (closing_line (judgements_at sheets.now))) result }
{
    let a = put_number(out, at, tally(sheets, COVERED));
    let b = put_number(out, a, tally(sheets, NOT_COVERED));
    let c = put_number(out, b, tally(sheets, NO_LOG));
    let d = put_number(out, c, tally(sheets, REFUSED));
    let e = put_number(out, d, fact_sum(sheets));
    put_byte(out, e, b'\n')
}

/// The page for the sheets of a set, from the first byte on.
pub fn put_page(out: &mut [u8], sheets: &[Place]) -> usize
    requires { (length sheets.now ≤ most_sheets) × AllShown (judgements_at sheets.now) }
    ensures { Put out.old out.new 0 (page_of (judgements_at sheets.now)) result }
{
    let n = put_sheets(out, sheets);
    put_closing(out, n, sheets)
}

/// Why a call for a set and its page is sent back: for what the set is, and then too little room for a page.
pub fn day_refusal(bytes: &[u8], ends: &[usize], out: &[i32], page: &[u8]) -> Result<(), Cause>
    ensures { cause_in result ≡ refusal_of_day bytes.now ends.now out.now page.now }
{
    judge_ends::set_refusal(bytes, ends, out)?;
    if page.len() < PAGE_ROOM {
        return Err(Cause::NoRoom);
    }
    Ok(())
}
