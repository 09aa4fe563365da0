// A sheet's bytes to its number form and back, by the library's own table of relations or by a club's, and a line's own bytes.
#![tactic(auto)]

ghost use Rattle.std.specs.Prelude.{◌≡◌, ◌≤◌, length};
ghost use Rattle.list_laws.specs.Wrote.{Wrote};
ghost use Rattle.sheet_format.specs.Sheet.{read_ending, read_words, read_returned, write_ending, write_bytes, write_returned, returned};
ghost use Rattle.sheet_format.specs.Returns.{ending_of};
ghost use Rattle.sheet_format.specs.Table.{ten};
ghost use Rattle.sheet.specs.ByTable.{read_ending_by, read_words_by, read_returned_by, write_ending_by, write_bytes_by, write_returned_by, own_ending, own_lent, own_returned};

use sheet_format::{Cause, Refusal};
pub use sheet_lines::{LinePlace, find_line, line};
use sheet_own_table::OWN_TABLE_BYTES;

/// A sheet's bytes to its number form in the lent words, by the library's own table: how many lines it has.
pub fn read(sheet: &[u8], out: &mut [i32]) -> Result<usize, Refusal>
    ensures { (ending_of result ≡ read_ending ten sheet.now (length out.old)) × (out.new ≡ read_words ten sheet.now out.old) × (returned (ending_of result) ≡ read_returned ten sheet.now (length out.old)) }
{
    sheet_reader::read(&sheet_terms::own_table(), sheet, out)
}

/// A number form to its sheet's bytes in the lent bytes, by the library's own table: how many bytes it has.
pub fn write(words: &[i32], out: &mut [u8]) -> Result<usize, Refusal>
    ensures { (ending_of result ≡ write_ending ten words.now (length out.old)) × (out.new ≡ write_bytes ten words.now out.old) × (returned (ending_of result) ≡ write_returned ten words.now (length out.old)) }
{
    sheet_writer::write(&sheet_terms::own_table(), words, out)
}

/// Reads by the table of these bytes, which is looked at first.
pub fn read_by_table(table: &[u8], sheet: &[u8], out: &mut [i32]) -> Result<usize, Refusal>
    ensures { (ending_of result ≡ read_ending_by table.now sheet.now (length out.old)) × (out.new ≡ read_words_by table.now sheet.now out.old) × (returned (ending_of result) ≡ read_returned_by table.now sheet.now (length out.old)) }
{
    let loaded = sheet_table::load(table)?;
    sheet_reader::read(&loaded, sheet, out)
}

/// Writes by the table of these bytes, which is looked at first.
pub fn write_by_table(table: &[u8], words: &[i32], out: &mut [u8]) -> Result<usize, Refusal>
    ensures { (ending_of result ≡ write_ending_by table.now words.now (length out.old)) × (out.new ≡ write_bytes_by table.now words.now out.old) × (returned (ending_of result) ≡ write_returned_by table.now words.now (length out.old)) }
{
    let known = sheet_table::load(table)?;
    sheet_writer::write(&known, words, out)
}

// Bytes to the front of the output.
fn copy(bytes: &[u8], out: &mut [u8])
    requires { length bytes.now ≤ length out.old }
    ensures { Wrote out.old out.new 0 (length bytes.now) bytes.now }
{
    out[..bytes.len()].copy_from_slice(bytes);
}

/// The bytes of the library's own table in the lent bytes: how many they are.
pub fn own_table(out: &mut [u8]) -> Result<usize, Refusal>
    ensures { (ending_of result ≡ own_ending (length out.old)) × (out.new ≡ own_lent out.old) × (returned (ending_of result) ≡ own_returned (length out.old)) }
{
    if out.len() < OWN_TABLE_BYTES {
        return Err(Refusal {
            cause: Cause::NoRoom,
            line: 0,
        });
    }
    let bytes = sheet_own_table::own_table();
    copy(&bytes, out);
    Ok(OWN_TABLE_BYTES)
}
