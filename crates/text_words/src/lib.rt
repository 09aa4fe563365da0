// What was expected, in words, put at a place of a buffer.
#![tactic(auto)]

ghost use Rattle.std.specs.Prelude.{◌≡◌};
ghost use Rattle.text_buffer.specs.Puts.{Put};
ghost use Rattle.text_meaning.specs.Numbers.{expected_number};
ghost use Rattle.text_writer.specs.Texts.{count_bytes, columns_bytes, length_bytes, what_bytes};

use text_begins::MOST_TEXT;
use text_buffer::put;
use text_meaning::Expected;
use text_writer::{put_number, put_relation};

// How many columns a relation has.
fn count(columns: usize) -> &'static [u8]
    ensures { result.now ≡ count_bytes columns }
{
    match columns {
        1 => b"one column in ",
        2 => b"two columns in ",
        3 => b"three columns in ",
        _ => b"four columns in ",
    }
}

// The columns of a relation that has a name, by the library's own table.
fn put_columns(out: &mut [u8], at: usize, relation: usize) -> usize
    ensures { Put out.old out.new at (columns_bytes relation) result }
{
    if 10 < relation {
        return at;
    }
    let table = sheet_terms::own_table();
    let columns = sheet_terms::columns(&table, relation as i32);
    let n = put(out, at, count(columns));
    put_relation(out, n, relation)
}

// A text that is not too long.
fn put_length(out: &mut [u8], at: usize) -> usize
    ensures { Put out.old out.new at length_bytes result }
{
    let a = put(out, at, b"at most ");
    let b = put_number(out, a, MOST_TEXT);
    put(out, b, b" bytes")
}

/// Puts what was expected, and where it is a relation's columns how many.
pub fn put_what(out: &mut [u8], at: usize, what: Expected, relation: usize) -> usize
    ensures { Put out.old out.new at (what_bytes (expected_number what) relation) result }
{
    match what {
        Expected::Question => put(out, at, b"q, the question"),
        Expected::List => put(out, at, b"l, a saved list"),
        Expected::View => put(out, at, b"v, a view, or behind a list l, one more list"),
        Expected::Open => put(out, at, b"("),
        Expected::First => put(out, at, b"a variable, a number or )"),
        Expected::Term => put(out, at, b"a variable or a number"),
        Expected::Next => put(out, at, b", or )"),
        Expected::Colon => put(out, at, b":"),
        Expected::Relation => put(
            out,
            at,
            b"a relation: Rower, Strap, Worn, Sig, Beat, Noise, Pulse, Coach, Seat or Pause",
        ),
        Expected::Columns => put_columns(out, at, relation),
        Expected::Fewer => put(out, at, b"at most four columns"),
        Expected::AtomEnd => put(out, at, b", or the end of the line"),
        Expected::Rows => put(out, at, b", or = and the rows"),
        Expected::FirstRow => put(out, at, b"a row or the end of the line"),
        Expected::Row => put(out, at, b"a row"),
        Expected::Bare => put(out, at, b", or ; or the end of the line"),
        Expected::RowEnd => put(out, at, b"; or the end of the line"),
        Expected::Shorter => put_length(out, at),
    }
}
