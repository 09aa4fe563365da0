// A number form to its sheet's bytes, by a table of relations.
#![tactic(auto)]

ghost use Rattle.std.specs.Prelude.{◌≡◌, false, ◌+◌, ◌*◌, ◌≤◌, length, take, drop};
ghost use Rattle.sheet_format.specs.Limits.{most_bytes};
ghost use Rattle.sheet_format.specs.Field.{field_bytes};
ghost use Rattle.sheet_format.specs.Line.{line_bytes, bytes_of, word_line, word_lines, null};
ghost use Rattle.sheet_format.specs.Cause.{refusal_of};
ghost use Rattle.sheet_format.specs.Returns.{ending_of};
ghost use Rattle.sheet_format.specs.Table.{Table, table_in};
ghost use Rattle.sheet_format.specs.Sheet.{write_ending, write_bytes, returned, write_returned};
ghost use Rattle.list_laws.specs.Wrote.{Wrote};

use sheet_format::{Cause, FIELD_BYTES, LINE_WORDS, MOST_BYTES, MOST_WORDS, Refusal};

// Eight bytes at a place of the output.
fn put_eight(out: &mut [u8], at: usize, b: [u8; FIELD_BYTES])
    requires { at + 8 ≤ length out.old }
    ensures { Wrote out.old out.new at (at + 8) b }
{
    for j in 0..FIELD_BYTES {
        out[at + j] = b[j];
    }
}

// A number's field at a place of the output.
fn put_field(out: &mut [u8], at: usize, z: i32)
    requires { at + 8 ≤ length out.old }
    ensures { Wrote out.old out.new at (at + 8) (field_bytes z) }
{
    put_eight(out, at, sheet_fields::field_bytes(z));
}

// The bytes of line i of the words, with byte 10, at a place of the output; the place after them.
fn put_bytes(words: &[i32], i: usize, out: &mut [u8], at: usize) -> usize
    requires { (i * 7 + 7 ≤ length words.now) × (at + 49 ≤ length out.old) × (null (word_line (take 7 (drop (i * 7) words.now))) ≡ false) }
    ensures { Wrote out.old out.new at result (line_bytes (word_line (take 7 (drop (i * 7) words.now)))) }
{
    let n = words[i * LINE_WORDS] as usize;
    let mut to = at;
    for j in 0..n {
        put_field(out, to, words[i * LINE_WORDS + 1 + j]);
        to += FIELD_BYTES;
    }
    out[to] = 10;
    to + 1
}

// The bytes of all lines of the words; how many they are.
fn put_lines(words: &[i32], out: &mut [u8]) -> usize
    requires { (t : Table) × ((refusal_of t (word_lines words.now)).number ≡ 0) × (most_bytes ≤ length out.old) }
    ensures { Wrote out.old out.new 0 result (bytes_of (word_lines words.now)) }
{
    let n = words.len() / LINE_WORDS;
    let mut at = 0;
    for i in 0..n {
        at = put_bytes(words, i, out, at);
    }
    at
}

/// A number form to its sheet's bytes in the lent bytes, by a table in plain numbers: how many bytes it has.
pub fn write(table: &[usize], words: &[i32], out: &mut [u8]) -> Result<usize, Refusal>
    ensures { (ending_of result ≡ write_ending (table_in table.now) words.now (length out.old)) × (out.new ≡ write_bytes (table_in table.now) words.now out.old) × (returned (ending_of result) ≡ write_returned (table_in table.now) words.now (length out.old)) }
{
    if MOST_WORDS < words.len() {
        return Err(Refusal {
            cause: Cause::TooLong,
            line: 0,
        });
    }
    if words.len() % LINE_WORDS != 0 {
        return Err(Refusal {
            cause: Cause::Malformed,
            line: 0,
        });
    }
    sheet_causes::refusal(table, words)?;
    if out.len() < MOST_BYTES {
        return Err(Refusal {
            cause: Cause::NoRoom,
            line: 0,
        });
    }
    Ok(put_lines(words, out))
}
