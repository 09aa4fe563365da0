// A plain text as a sheet, by the library's own table of relations or by a club's.
#![tactic(auto)]

ghost use Rattle.std.specs.Prelude.{◌≡◌, length};
ghost use Rattle.sheet_format.specs.Table.{table_in, ten};
ghost use Rattle.text_to_sheet.specs.Outcome.{made_from_result};
ghost use Rattle.text_to_sheet.specs.Texts.{begun_line, MadeAs, MadeByTable};

use sheet_format::{Cause, LINE_WORDS, MOST_LINES, MOST_WORDS, Refusal, TABLE_NUMBERS};
use text_begins::MOST_TEXT;
use text_meaning::Expected;
use text_reader::run;

/// Why a text has no sheet.
#[derive(Clone, Copy, PartialEq, Eq, Debug)]
pub enum NotMade {
    /// In this line of the text something else was expected, in this relation.
    Expected {
        line: usize,
        what: Expected,
        relation: usize,
    },
    /// Its number form is refused; the line that is named begins in this line of the text, 0 where none is.
    Refused {
        refusal: Refusal,
        text_line: usize,
    },
}

// The line of the text in which a line of its number form begins; 0 where none is named.
fn text_line(begun: &[usize], line: usize) -> usize
    ensures { result ≡ begun_line begun.now line }
{
    if line == 0 || begun.len() < line {
        return 0;
    }
    begun[line - 1]
}

/// A text as a sheet in the lent bytes, and how many bytes it has, by a table in plain numbers. What the library refuses of its number form is refused here.
pub fn sheet_by_numbers(
    table: &[usize; TABLE_NUMBERS],
    text: &[u8],
    out: &mut [u8],
) -> Result<usize, NotMade>
    ensures { MadeAs (table_in table.now) text.now out.old out.new (made_from_result result) }
{
    if MOST_TEXT < text.len() {
        return Err(NotMade::Expected {
            line: 1,
            what: Expected::Shorter,
            relation: 0,
        });
    }
    let mut words = [0i32; MOST_WORDS];
    let mut begun = [0usize; MOST_LINES];
    let reached = match run(text, &mut words, &mut begun) {
        Ok(reached) => reached,
        Err(misfit) => {
            return Err(NotMade::Expected {
                line: misfit.reached.counts.line,
                what: misfit.what,
                relation: misfit.reached.standing.relation,
            });
        }
    };
    let lines = reached.counts.lines;
    if MOST_LINES < lines {
        return Err(NotMade::Refused {
            refusal: Refusal {
                cause: Cause::TooLong,
                line: 0,
            },
            text_line: 0,
        });
    }
    match sheet_writer::write(table, &words[0..lines * LINE_WORDS], out) {
        Ok(n) => Ok(n),
        Err(refusal) => Err(NotMade::Refused {
            refusal,
            text_line: text_line(&begun, refusal.line),
        }),
    }
}

/// A text as a sheet in the lent bytes, by the library's own table.
pub fn sheet_of(text: &[u8], out: &mut [u8]) -> Result<usize, NotMade>
    ensures { MadeAs ten text.now out.old out.new (made_from_result result) }
{
    let table = sheet_terms::own_table();
    sheet_by_numbers(&table, text, out)
}

/// The same by the table of these bytes, which is looked at first.
pub fn sheet_of_by_table(table: &[u8], text: &[u8], out: &mut [u8]) -> Result<usize, NotMade>
    ensures { MadeByTable table.now text.now out.old out.new (made_from_result result) }
{
    match sheet_table::load(table) {
        Ok(numbers) => sheet_by_numbers(&numbers, text, out),
        Err(refusal) => Err(NotMade::Refused {
            refusal,
            text_line: 0,
        }),
    }
}
