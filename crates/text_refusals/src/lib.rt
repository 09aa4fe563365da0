// Refusals in words, put at a place of a buffer.
#![tactic(auto)]

ghost use Rattle.std.specs.Prelude.{◌++◌};
ghost use Rattle.text_buffer.specs.Puts.{Put};
ghost use Rattle.text_meaning.specs.Numbers.{expected_number};
ghost use Rattle.text_writer.specs.Texts.{unless0, number_bytes, place_bytes, refusal_bytes, expected_bytes};

use text_buffer::{put, put_byte};
use text_causes::cause_text;
use text_meaning::Expected;
use text_words::put_what;
use text_writer::put_number;

// A number after words; nothing where it is 0.
fn put_after(out: &mut [u8], at: usize, s: &[u8], n: usize) -> usize
    ensures { Put out.old out.new at (unless0 n (s.now ++ number_bytes n)) result }
{
    if n == 0 {
        return at;
    }
    let m = put(out, at, s);
    put_number(out, m, n)
}

// Words; nothing where a number is 0.
fn put_after_one(out: &mut [u8], at: usize, s: &[u8], n: usize) -> usize
    ensures { Put out.old out.new at (unless0 n s.now) result }
{
    if n == 0 {
        return at;
    }
    put(out, at, s)
}

// A refusal's cause by its number, its line, and the line of the text, if any.
fn put_place(out: &mut [u8], at: usize, number: usize, line: usize, text_line: usize) -> usize
    ensures { Put out.old out.new at (place_bytes number line text_line) result }
{
    let a = put_after(out, at, b"cause ", number);
    let b = put_after(out, a, b" at line ", line);
    let c = put_after(out, b, b" of the sheet, line ", text_line);
    put_after_one(out, c, b" of the text", text_line)
}

/// Puts a refusal's line.
pub fn put_refusal(out: &mut [u8], at: usize, number: usize, line: usize, text_line: usize) -> usize
    ensures { Put out.old out.new at (refusal_bytes number line text_line) result }
{
    let a = put(out, at, b"refused: ");
    let b = put_place(out, a, number, line, text_line);
    let c = put(out, b, b": ");
    let d = put(out, c, cause_text(number));
    put_byte(out, d, b'\n')
}

/// Puts what was expected in a line.
pub fn put_expected(
    out: &mut [u8],
    at: usize,
    line: usize,
    what: Expected,
    relation: usize,
) -> usize
    ensures { Put out.old out.new at (expected_bytes line (expected_number what) relation) result }
{
    let a = put(out, at, b"line ");
    let b = put_number(out, a, line);
    let c = put(out, b, b": expected ");
    let d = put_what(out, c, what, relation);
    put_byte(out, d, b'\n')
}
