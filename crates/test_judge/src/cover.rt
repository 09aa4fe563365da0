// Judges a sheet.
//
//     cover NAME|WORDS SHOWN|SHEET     judges SHEET, with so many lent words
//
// What is printed: the name; the verdict, the number and the line; "=" where the lent words after the facts are as they were lent, and "!"
// where they are not. Of a case that was handed over four marks more, "=" where it is so and "!" where it is not:
//
//     its facts are facts, ascend, and have values that stand in the sheet or are made up
//     the parent of each relation has its rows, rows alike in a key are alike in all columns, and each view's answers are its listed rows
//     the missing answer is the least of the question's that every list lacks
//     with any one fact dropped it is no case
//
// A bar follows, then the missing answer and a bar, the count of facts and a bar, and the facts, with "/" after each. Of a case SHOWN says
// which of these are shown, since the case is free: 0 none, 1 the missing answer, 2 all. With any other verdict all are.
use crate::{Given, Law};
use c_results::Outcome;
use judge_result::NOT_COVERED;
use query_meaning::FACT_WORDS;
use test_ends::put_ending;
use test_results::Line;

// Facts, more than a case of a sheet is lent words for.
const MOST_FACTS: usize = 2000;

// Judges, and puts what came of it.
pub(crate) fn run(given: &Given<'_>, lent: &mut [i32], out: &mut Line<'_>) {
    let [shown, ..] = given.numbers else {
        return;
    };
    let shown = sheet_terms::number(*shown);
    match given.law {
        Law::Own(table) => {
            let j = Outcome::from(judge::judge(given.bytes, lent));
            put_judged(out, table, given.bytes, shown, lent, &j);
        }
        Law::Club(table) => {
            let j = Outcome::from(judge::judge_by_table(table, given.bytes, lent));
            put_judged(out, table, given.bytes, shown, lent, &j);
        }
    }
}

// Puts a judgement by a table, with what it left in the lent words. Of a case the missing answer is shown from 1 on, and the facts from 2 on.
fn put_judged(
    out: &mut Line<'_>,
    table: &[u8],
    sheet: &[u8],
    shown: usize,
    lent: &[i32],
    j: &Outcome,
) {
    let is_case = j.verdict == NOT_COVERED;
    let done = (j.count.min(MOST_FACTS) * FACT_WORDS).min(lent.len());
    let facts = &lent[..done];
    put_ending(out, j.verdict, j.number, j.line);
    out.mark(test_lent::are_marked(lent, done));
    if is_case {
        test_case::put_marks(out, table, sheet, facts, &j.missing);
    }
    out.byte(b'|');
    if !is_case || 1 <= shown {
        crate::put_missing(out, &j.missing, b'|');
    }
    if !is_case || 2 <= shown {
        out.number(j.count, b'|');
        out.words(facts, FACT_WORDS);
    }
}
