// Judges a set and writes its page.
//
//     day NAME|WORDS BYTES END END ..|SET     judges SET with these ends, with so many lent words, and so many lent bytes for the page
//
// What is printed: the name; the number, the line, the count of sheets and that of the page's bytes; "=" where the lent words past the last
// stretch are as they were lent, and "!" where they are not; a bar; the lent bytes, with "/" for byte 10. They hold "~" before the call.
use crate::{Given, HELD_NUMBERS, Law};
use c_results::DayOutcome;
use day_page::PAGE_ROOM;
use judge_ends::MOST_SHEETS;
use judge_result::LEAST_ROOM;
use test_ends::{put_ending, put_ends};
use test_results::Line;

// Bytes enough for every page, with some more.
const HELD_PAGE: usize = PAGE_ROOM + 64;

// What the lent bytes hold before the call: a byte that no page has.
const MARK: u8 = b'~';

// Takes the page's room and the ends apart, lends the page and judges; puts what came of it.
pub(crate) fn run(given: &Given<'_>, lent: &mut [i32], out: &mut Line<'_>) {
    let [room, numbers @ ..] = given.numbers else {
        return;
    };
    let mut ends = [0usize; HELD_NUMBERS];
    let k = put_ends(numbers, &mut ends);
    let mut held = [MARK; HELD_PAGE];
    let page = &mut held[..sheet_terms::number(*room).min(HELD_PAGE)];
    let day = judged(given, &ends[..k], lent, page);
    put_day(out, lent, page, &day);
}

fn judged(given: &Given<'_>, ends: &[usize], lent: &mut [i32], page: &mut [u8]) -> DayOutcome {
    match given.law {
        Law::Own(_) => judge_day::judge_day(given.bytes, ends, lent, page).into(),
        Law::Club(table) => {
            judge_day::judge_day_by_table(table, given.bytes, ends, lent, page).into()
        }
    }
}

// Puts what came of a day, with what it left in the lent words and bytes, "/" for byte 10.
fn put_day(out: &mut Line<'_>, lent: &[i32], page: &[u8], day: &DayOutcome) {
    let count = day.set.count.min(MOST_SHEETS);
    put_ending(out, day.set.number, day.set.line, day.set.count);
    out.number(day.bytes, b' ');
    out.mark(test_lent::are_marked(lent, count * LEAST_ROOM));
    out.byte(b'|');
    for b in page {
        out.byte(if *b == b'\n' { b'/' } else { *b });
    }
}
