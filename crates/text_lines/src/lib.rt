// The lines of a number form as bytes, put at a place of a buffer, by a table of relations in plain numbers.
#![tactic(auto)]

ghost use Rattle.std.specs.Prelude.{◌≡◌, ◌≤◌, ◌-◌, drop};
ghost use Rattle.sheet_format.specs.Limits.{most_fields, line_word_count};
ghost use Rattle.sheet_format.specs.Table.{table_in};
ghost use Rattle.text_buffer.specs.Puts.{Put};
ghost use Rattle.text_writer.specs.Texts.{small, kind_of_first, block_kind, head_bytes, atom_bytes, values_bytes, row_bytes, kind_bytes, line_text, lines_bytes};

use sheet_format::{ATOM_KIND, LINE_WORDS, MOST_FIELDS, ROW_KIND, TABLE_NUMBERS, VIEW_KIND};
use text_buffer::{put, put_byte};
use text_facts::put_facts;
use text_writer::{natural, put_term, put_terms};

// A field count or a kind of the number form.
fn small(w: i32) -> usize
    ensures { (result ≡ small w) × (result ≤ most_fields) }
{
    let n = natural(w);
    if MOST_FIELDS < n {
        return 0;
    }
    n
}

// Where the terms after a line's kind end.
fn terms_end(fields: usize) -> usize
    requires { fields ≤ most_fields }
    ensures { (2 ≤ result) × (result ≤ line_word_count) × (result - 2 ≡ fields - 1) }
{
    fields.max(1) + 1
}

// The kind of line i, 0 where there is none.
fn kind_at(lines: &[[i32; LINE_WORDS]], i: usize) -> usize
    ensures { result ≡ kind_of_first (drop i lines.now) }
{
    match lines.get(i) {
        Some(line) => small(line[1]),
        None => 0,
    }
}

// The kind of the block that a line of a kind stands in, given that of the line before.
fn block_at(kind: usize, block: usize) -> usize
    ensures { result ≡ block_kind kind block }
{
    if kind == ATOM_KIND || kind == ROW_KIND {
        return block;
    }
    kind
}

fn put_head(out: &mut [u8], at: usize, line: &[i32; LINE_WORDS], kind: usize) -> usize
    ensures { Put out.old out.new at (head_bytes line.now kind) result }
{
    let end = terms_end(small(line[0]));
    let n = put_byte(out, at, text_begins::letter(kind));
    let m = put_terms(out, n, &line[2..end]);
    put_byte(out, m, b':')
}

// An atom, and what stands between it and the next line of its block: in a view "=" before the rows.
fn put_atom(
    table: &[usize; TABLE_NUMBERS],
    out: &mut [u8],
    at: usize,
    line: &[i32; LINE_WORDS],
    block: usize,
    next: usize,
) -> usize
    ensures { Put out.old out.new at (atom_bytes (table_in table.now) line.now block next) result }
{
    let n = put_byte(out, at, b' ');
    let m = put_facts(table, out, n, &line[2..], 1);
    if next == ATOM_KIND {
        return put_byte(out, m, b',');
    }
    if block == VIEW_KIND {
        return put(out, m, b" =");
    }
    m
}

// A row, bare where it has one column, and a semicolon before the next.
fn put_row(out: &mut [u8], at: usize, line: &[i32; LINE_WORDS], next: usize) -> usize
    ensures { Put out.old out.new at (row_bytes line.now next) result }
{
    let n = put_byte(out, at, b' ');
    let m = put_values(out, n, line);
    if next == ROW_KIND {
        return put_byte(out, m, b';');
    }
    m
}

fn put_values(out: &mut [u8], at: usize, line: &[i32; LINE_WORDS]) -> usize
    ensures { Put out.old out.new at (values_bytes line.now) result }
{
    let fields = small(line[0]);
    if fields == 2 {
        return put_term(out, at, line[2]);
    }
    let end = terms_end(fields);
    put_terms(out, at, &line[2..end])
}

// A line of a kind.
fn put_kind(
    table: &[usize; TABLE_NUMBERS],
    out: &mut [u8],
    at: usize,
    line: &[i32; LINE_WORDS],
    kind: usize,
    block: usize,
    next: usize,
) -> usize
    ensures { Put out.old out.new at (kind_bytes (table_in table.now) line.now kind block next) result }
{
    if kind == ATOM_KIND {
        return put_atom(table, out, at, line, block, next);
    }
    if kind == ROW_KIND {
        return put_row(out, at, line, next);
    }
    put_head(out, at, line, kind)
}

// A line, and the end of the text's line where a head or nothing follows.
fn put_line(
    table: &[usize; TABLE_NUMBERS],
    out: &mut [u8],
    at: usize,
    line: &[i32; LINE_WORDS],
    kind: usize,
    block: usize,
    next: usize,
) -> usize
    ensures { Put out.old out.new at (line_text (table_in table.now) line.now kind block next) result }
{
    let n = put_kind(table, out, at, line, kind, block, next);
    if next < ATOM_KIND {
        return put_byte(out, n, b'\n');
    }
    n
}

/// Puts the text of a number form.
pub fn put_lines(table: &[usize; TABLE_NUMBERS], out: &mut [u8], words: &[i32]) -> usize
    ensures { Put out.old out.new 0 (lines_bytes (table_in table.now) words.now) result }
{
    let (lines, _) = words.as_chunks::<LINE_WORDS>();
    let mut n = 0;
    let mut block = 0;
    for (i, line) in lines.iter().enumerate() {
        let kind = small(line[1]);
        block = block_at(kind, block);
        n = put_line(table, out, n, line, kind, block, kind_at(lines, i + 1));
    }
    n
}
