// A sheet's bytes to its number form, by a table of relations.
#![tactic(auto)]

ghost use Rattle.std.specs.Prelude.{◌≡◌, ◌+◌, ◌-◌, ◌*◌, ◌≤◌, length, take, drop};
ghost use Rattle.sheet_format.specs.Limits.{most_lines, line_word_count};
ghost use Rattle.sheet_format.specs.Line.{line_of, line_words};
ghost use Rattle.sheet_format.specs.Returns.{ending_of};
ghost use Rattle.sheet_format.specs.Table.{table_in};
ghost use Rattle.sheet_format.specs.Sheet.{read_ending, read_words, returned, read_returned};
ghost use Rattle.list_laws.specs.Wrote.{Wrote};
ghost use Rattle.sheet_reader.specs.Parsed.{Parsed};

use sheet_format::{
    Cause, FIELD_BYTES, LINE_WORDS, MOST_FIELDS, MOST_LINES, MOST_SHEET_BYTES, MOST_WORDS, Refusal,
};

// The lines that are looked at: one more than an accepted sheet can have. Their words.
const LINES: usize = MOST_LINES + 1;

const WORDS: usize = LINES * LINE_WORDS;

// The words of n fields at a place; no field count where one is malformed.
fn fields_at(s: &[u8], at: usize, n: usize) -> [i32; LINE_WORDS]
    requires { (1 ≤ n) × (n ≤ 6) × (at + n * 8 ≤ length s.now) }
    ensures { result ≡ line_words (line_of (take (n * 8) (drop at s.now))) }
{
    let mut ws = [0i32; LINE_WORDS];
    for j in 0..n {
        let Some(z) = sheet_fields::field(s, at + j * FIELD_BYTES) else {
            return [0i32; LINE_WORDS];
        };
        ws[j + 1] = z;
    }
    ws[0] = n as i32;
    ws
}

// The words of the line between two places; no field count where it is malformed.
fn line_words(s: &[u8], at: usize, e: usize) -> [i32; LINE_WORDS]
    requires { (at ≤ e) × (e ≤ length s.now) }
    ensures { result ≡ line_words (line_of (take (e - at) (drop at s.now))) }
{
    let size = e - at;
    let n = size / FIELD_BYTES;
    if size % FIELD_BYTES != 0 {
        return [0i32; LINE_WORDS];
    }
    if n < 1 {
        return [0i32; LINE_WORDS];
    }
    if MOST_FIELDS < n {
        return [0i32; LINE_WORDS];
    }
    fields_at(s, at, n)
}

// Line n of the words.
fn put_line(ws: &mut [i32], n: usize, l: [i32; LINE_WORDS])
    requires { n * 7 + 7 ≤ length ws.old }
    ensures { Wrote ws.old ws.new (n * 7) (n * 7 + 7) l }
{
    let at = n * LINE_WORDS;
    for j in 0..LINE_WORDS {
        ws[at + j] = l[j];
    }
}

// The lines of a sheet as words, up to the first malformed line and to one line more than an accepted sheet has; how many they are.
fn parse(s: &[u8], ws: &mut [i32]) -> usize
    requires { length ws.old ≡ (most_lines + 1) * line_word_count }
    ensures { Parsed s.now ws.new result }
{
    let mut n = 0;
    let mut at = 0;
    while at < s.len() {
        if n == LINES {
            return n;
        }
        let e = sheet_line_ends::line_end(s, at);
        if e == s.len() {
            put_line(ws, n, [0i32; LINE_WORDS]);
            return n + 1;
        }
        let l = line_words(s, at, e);
        put_line(ws, n, l);
        n += 1;
        if l[0] == 0 {
            return n;
        }
        at = e + 1;
    }
    n
}

/// The first n words to the output.
pub fn copy(ws: &[i32], n: usize, out: &mut [i32])
    requires { (n ≤ length ws.now) × (n ≤ length out.old) }
    ensures { Wrote out.old out.new 0 n (take n ws.now) }
{
    out[..n].copy_from_slice(&ws[..n]);
}

/// A sheet's bytes to its number form in the lent words, by a table in plain numbers: how many lines it has.
pub fn read(table: &[usize], sheet: &[u8], out: &mut [i32]) -> Result<usize, Refusal>
    ensures { (ending_of result ≡ read_ending (table_in table.now) sheet.now (length out.old)) × (out.new ≡ read_words (table_in table.now) sheet.now out.old) × (returned (ending_of result) ≡ read_returned (table_in table.now) sheet.now (length out.old)) }
{
    if MOST_SHEET_BYTES < sheet.len() {
        return Err(Refusal {
            cause: Cause::TooLong,
            line: 0,
        });
    }
    let mut ws = [0i32; WORDS];
    let n = parse(sheet, &mut ws);
    sheet_causes::refusal(table, &ws[..n * LINE_WORDS])?;
    if out.len() < MOST_WORDS {
        return Err(Refusal {
            cause: Cause::NoRoom,
            line: 0,
        });
    }
    copy(&ws, n * LINE_WORDS, out);
    Ok(n)
}
