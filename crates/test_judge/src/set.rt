// Judges a set of sheets.
//
//     set NAME|WORDS END END ..|BYTES     judges the set of BYTES with these ends, with so many lent words
//
// What is printed: the name; the number, the line and the count; "=" where the lent words past the last stretch are as they were lent, and
// "!" where they are not; "=" where each place without a sheet holds a refusal by the set's number and 0 in everything else. Then for each
// sheet a bar, its verdict, number and line, the missing answer, the count of facts, a bar, the facts with "/" after each, and two marks:
//
//     the words of its stretch after the facts are as they were lent
//     the sheet alone, by the same table and lent as many words, has the same judgement and the same facts
use crate::{Given, HELD_NUMBERS, Law};
use c_results::{Outcome, SetOutcome};
use judge_ends::MOST_SHEETS;
use judge_result::{LEAST_ROOM, REFUSED};
use query_meaning::FACT_WORDS;
use test_ends::{put_ending, put_ends};
use test_results::Line;

// Judges, and puts what came of it.
pub(crate) fn run(given: &Given<'_>, lent: &mut [i32], out: &mut Line<'_>) {
    let mut ends = [0usize; HELD_NUMBERS];
    let k = put_ends(given.numbers, &mut ends);
    let ends = &ends[..k];
    match given.law {
        Law::Own(table) => {
            let s = SetOutcome::from(judge_set::judge_set(given.bytes, ends, lent));
            put_set(out, table, given.bytes, ends, lent, &s);
        }
        Law::Club(table) => {
            let s = SetOutcome::from(judge_set::judge_set_by_table(table, given.bytes, ends, lent));
            put_set(out, table, given.bytes, ends, lent, &s);
        }
    }
}

// Puts what came of a set by a table, with what it left in the lent words.
fn put_set(
    out: &mut Line<'_>,
    table: &[u8],
    bytes: &[u8],
    ends: &[usize],
    lent: &[i32],
    s: &SetOutcome,
) {
    let count = s.count.min(MOST_SHEETS);
    put_ending(out, s.number, s.line, s.count);
    out.mark(test_lent::are_marked(lent, count * LEAST_ROOM));
    let (judged, empty) = s.sheets.split_at(count);
    out.mark(empty.iter().all(|j| is_empty(j, s.number)));
    let mut start = 0;
    for (k, j) in judged.iter().enumerate() {
        let end = ends.get(k).copied().unwrap_or(0);
        let first = k.saturating_mul(LEAST_ROOM);
        put_sheet(out, table, part(bytes, start, end), lent, first, j);
        start = end;
    }
}

// Whether a place without a sheet holds a refusal by the set's number and 0 in everything else.
fn is_empty(j: &Outcome, number: usize) -> bool {
    let e = Outcome {
        verdict: REFUSED,
        number,
        line: 0,
        count: 0,
        missing: [0; 4],
    };
    are_alike(&e, j)
}

fn are_alike(a: &Outcome, b: &Outcome) -> bool {
    a.verdict == b.verdict
        && a.number == b.number
        && a.line == b.line
        && a.count == b.count
        && a.missing == b.missing
}

// The part from a to e, empty where there is none.
fn part<T>(s: &[T], a: usize, e: usize) -> &[T] {
    if a <= e && e <= s.len() {
        &s[a..e]
    } else {
        &s[..0]
    }
}

// Puts what came of the sheet whose stretch begins at a word.
fn put_sheet(
    out: &mut Line<'_>,
    table: &[u8],
    sheet: &[u8],
    lent: &[i32],
    first: usize,
    j: &Outcome,
) {
    let after = first.saturating_add(j.count.min(LEAST_ROOM / FACT_WORDS) * FACT_WORDS);
    let facts = part(lent, first, after);
    let stretch = part(lent, 0, first.saturating_add(LEAST_ROOM));
    put_numbers(out, j);
    out.words(facts, FACT_WORDS);
    out.mark(test_lent::are_marked(stretch, after));
    out.mark(is_as_alone(table, sheet, facts, j));
}

fn put_numbers(out: &mut Line<'_>, j: &Outcome) {
    out.byte(b'|');
    out.number(j.verdict, b' ');
    out.number(j.number, b' ');
    out.number(j.line, b' ');
    crate::put_missing(out, &j.missing, b' ');
    out.number(j.count, b'|');
}

// Whether the sheet alone has this judgement and these facts by the table.
fn is_as_alone(table: &[u8], sheet: &[u8], facts: &[i32], j: &Outcome) -> bool {
    let mut own = [0i32; LEAST_ROOM];
    let alone = Outcome::from(judge::judge_by_table(table, sheet, &mut own));
    are_alike(&alone, j) && own.starts_with(facts)
}
