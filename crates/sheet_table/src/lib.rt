// A table of relations, from its bytes to plain numbers.
#![tactic(auto)]

ghost use Rattle.std.specs.Prelude.{◌≡◌, ◌≤◌, ◌<◌, length, replicate};
ghost use Rattle.sheet_format.specs.Limits.{most_relations};
ghost use Rattle.sheet_format.specs.Field.{field_at};
ghost use Rattle.sheet_format.specs.Returns.{refusal_in};
ghost use Rattle.sheet_table.specs.Loads.{Loads, loaded_of};
ghost use Rattle.sheet_table.specs.Numbers.{plain_number, plain_of, parent_obeys, line_obeys, relation_put, TakenLine, ReadLines};

use sheet_format::{
    Cause, FIELD_BYTES, FIELD_END, MOST_COLUMNS, MOST_RELATIONS, RELATION_NUMBERS, Refusal,
    TABLE_FIELDS, TABLE_NUMBERS,
};

const TABLE_LINE_BYTES: usize = TABLE_FIELDS * FIELD_BYTES;

// What no field holds, and every rule refuses.
const NO_NUMBER: usize = FIELD_END as usize;

// A number that is not below 0.
fn plain(z: i32) -> usize
    ensures { result ≡ plain_number z }
{
    if z < 0 {
        return NO_NUMBER;
    }
    z as usize
}

// The field at a place as a plain number.
fn plain_field(s: &[u8], at: usize) -> usize
    ensures { result ≡ plain_of (field_at s.now at) }
{
    let Some(z) = sheet_fields::field(s, at) else {
        return NO_NUMBER;
    };
    plain(z)
}

// Whether a parent is none, or one of the n relations before, with as many columns and without parent.
fn parent_fits(ns: &[usize; TABLE_NUMBERS], n: usize, columns: usize, parent: usize) -> bool
    requires { n ≤ most_relations }
    ensures { result ≡ parent_obeys ns.now n columns parent }
{
    if parent == 0 {
        return true;
    }
    if n < parent {
        return false;
    }
    let at = (parent - 1) * RELATION_NUMBERS;
    if ns[at] != columns {
        return false;
    }
    ns[at + 2] == 0
}

// Whether a line with these numbers may follow n relations.
fn line_fits(
    ns: &[usize; TABLE_NUMBERS],
    n: usize,
    number: usize,
    columns: usize,
    key: usize,
    parent: usize,
) -> bool
    requires { n ≤ most_relations }
    ensures { result ≡ line_obeys ns.now n number columns key parent }
{
    if number != n + 1 {
        return false;
    }
    if columns < 1 {
        return false;
    }
    if MOST_COLUMNS < columns {
        return false;
    }
    if columns <= key {
        return false;
    }
    parent_fits(ns, n, columns, parent)
}

// The numbers of the relation that follows n others.
fn put_relation(
    ns: &mut [usize; TABLE_NUMBERS],
    n: usize,
    columns: usize,
    key: usize,
    parent: usize,
)
    requires { n < most_relations }
    ensures { ns.new ≡ relation_put ns.old n columns key parent }
{
    let at = n * RELATION_NUMBERS;
    ns[at] = columns;
    ns[at + 1] = key;
    ns[at + 2] = parent;
}

// Takes the line between two places as the one that follows n relations; whether it is right.
fn take_line(s: &[u8], at: usize, e: usize, ns: &mut [usize; TABLE_NUMBERS], n: usize) -> bool
    requires { (at ≤ e) × (e ≤ length s.now) × (n < most_relations) }
    ensures { TakenLine s.now at e ns.old ns.new n result }
{
    if e - at != TABLE_LINE_BYTES {
        return false;
    }
    let number = plain_field(s, at);
    let columns = plain_field(s, at + FIELD_BYTES);
    let key = plain_field(s, at + 2 * FIELD_BYTES);
    let parent = plain_field(s, at + 3 * FIELD_BYTES);
    if line_fits(ns, n, number, columns, key, parent) {
        put_relation(ns, n, columns, key, parent);
        return true;
    }
    false
}

// The table's lines one after the other, up to the first that is not right: why they are sent back.
fn read_lines(s: &[u8], ns: &mut [usize; TABLE_NUMBERS]) -> Result<(), Refusal>
    requires { ns.old ≡ replicate 96 0 }
    ensures { ReadLines s.now ns.new (refusal_in result) }
{
    let mut n = 0;
    let mut at = 0;
    while at < s.len() {
        let wrong = Refusal {
            cause: Cause::WrongTable,
            line: n + 1,
        };
        if n == MOST_RELATIONS {
            return Err(wrong);
        }
        let e = sheet_line_ends::line_end(s, at);
        if e == s.len() {
            return Err(wrong);
        }
        if !take_line(s, at, e, ns, n) {
            return Err(wrong);
        }
        n += 1;
        at = e + 1;
    }
    if n == 0 {
        return Err(Refusal {
            cause: Cause::WrongTable,
            line: 0,
        });
    }
    Ok(())
}

/// A table that was read: its relations in plain numbers, or why it is sent back.
pub type Loaded = Result<[usize; TABLE_NUMBERS], Refusal>;

/// The table of the bytes.
pub fn load(s: &[u8]) -> Loaded
    ensures { Loads s.now (loaded_of result) }
{
    let mut ns = [0usize; TABLE_NUMBERS];
    read_lines(s, &mut ns)?;
    Ok(ns)
}
