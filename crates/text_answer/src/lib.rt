// What comes of a sheet or a text, in words, by the library's own table of relations or by a club's.
#![tactic(auto)]

ghost use Rattle.std.specs.Prelude.{◌≡◌, List, ℕ, Ok};
ghost use Rattle.sheet_format.specs.Table.{ten};
ghost use Rattle.sheet_table.specs.Tables.{table_refusal, table_of};
ghost use Rattle.sheet_table.specs.Loads.{Loads, loaded_of};
ghost use Rattle.text_judgement.specs.Verdict.{Verdict};
ghost use Rattle.text_answer.specs.Answered.{Answered, AnsweredBy};

use judge_result::LEAST_ROOM;
use sheet_format::{MOST_BYTES, TABLE_NUMBERS};
use text_judgement::{columns, put_judgement};
use text_message::message;
use text_to_sheet::{NotMade, sheet_by_numbers};
use text_writer::TEXT_ROOM;

// Judges a sheet by a table that is right, and says the verdict in words.
fn verdict(table: &[usize; TABLE_NUMBERS], sheet: &[u8], out: &mut [u8]) -> usize
    ensures { (tb : List ℕ) → Loads tb (loaded_of (Ok table.now)) → (table_refusal tb).number ≡ 0 → Verdict (table_of tb) sheet.now out.old out.new result }
{
    if out.len() < TEXT_ROOM {
        return 0;
    }
    let mut facts = [0i32; LEAST_ROOM];
    let j = judge::judge_loaded(Ok(*table), sheet, &mut facts);
    put_judgement(table, out, columns(sheet), j, &facts)
}

// Says in words what comes of a sheet or a text by a table that is right: its verdict, or why there is none.
fn reply(table: &[usize; TABLE_NUMBERS], given: &[u8], out: &mut [u8]) -> usize
    ensures { (tb : List ℕ) → Loads tb (loaded_of (Ok table.now)) → (table_refusal tb).number ≡ 0 → Answered (table_of tb) given.now out.old out.new result }
{
    if !text_begins::is_text(given) {
        return verdict(table, given, out);
    }
    let mut sheet = [0u8; MOST_BYTES];
    match sheet_by_numbers(table, given, &mut sheet) {
        Ok(n) => verdict(table, &sheet[0..n], out),
        Err(reason) => message(reason, out),
    }
}

/// Says in words what comes of a sheet or a text by the library's own table.
pub fn answer(given: &[u8], out: &mut [u8]) -> usize
    ensures { Answered ten given.now out.old out.new result }
{
    reply(&sheet_terms::own_table(), given, out)
}

/// The same by the table of these bytes, which is looked at first.
pub fn answer_by_table(table: &[u8], given: &[u8], out: &mut [u8]) -> usize
    ensures { AnsweredBy table.now given.now out.old out.new result }
{
    match sheet_table::load(table) {
        Ok(numbers) => reply(&numbers, given, out),
        Err(refusal) => {
            let reason = NotMade::Refused {
                refusal,
                text_line: 0,
            };
            message(reason, out)
        }
    }
}
