// A sheet as a plain text, by the library's own table of relations or by a club's.
#![tactic(auto)]

ghost use Rattle.std.specs.Prelude.{◌≡◌, length};
ghost use Rattle.sheet_format.specs.Returns.{ending_of};
ghost use Rattle.sheet_format.specs.Table.{table_in, ten};
ghost use Rattle.text_from_sheet.specs.Shown.{text_ending, text_lent, text_ending_by, text_lent_by};

use sheet_format::{Cause, LINE_WORDS, MOST_WORDS, Refusal, TABLE_NUMBERS};
use text_writer::TEXT_ROOM;

// A sheet as a text in the lent bytes, by a table in plain numbers.
fn text_by_numbers(
    table: &[usize; TABLE_NUMBERS],
    sheet: &[u8],
    out: &mut [u8],
) -> Result<usize, Refusal>
    ensures { (ending_of result ≡ text_ending (table_in table.now) sheet.now (length out.old)) × (out.new ≡ text_lent (table_in table.now) sheet.now out.old) }
{
    let mut words = [0i32; MOST_WORDS];
    let lines = sheet_reader::read(table, sheet, &mut words)?;
    if out.len() < TEXT_ROOM {
        return Err(Refusal {
            cause: Cause::NoRoom,
            line: 0,
        });
    }
    let n = text_lines::put_lines(table, out, &words[0..lines * LINE_WORDS]);
    Ok(n)
}

// A sheet as a text in the lent bytes, by the library's own table.
pub fn text_of(sheet: &[u8], out: &mut [u8]) -> Result<usize, Refusal>
    ensures { (ending_of result ≡ text_ending ten sheet.now (length out.old)) × (out.new ≡ text_lent ten sheet.now out.old) }
{
    text_by_numbers(&sheet_terms::own_table(), sheet, out)
}

// The same by the table of these bytes, which is looked at first.
pub fn text_of_by_table(table: &[u8], sheet: &[u8], out: &mut [u8]) -> Result<usize, Refusal>
    ensures { (ending_of result ≡ text_ending_by table.now sheet.now (length out.old)) × (out.new ≡ text_lent_by table.now sheet.now out.old) }
{
    let loaded = sheet_table::load(table)?;
    text_by_numbers(&loaded, sheet, out)
}
