// The library's own table of relations, as bytes and as a table that was read.
#![tactic(auto)]

ghost use Rattle.std.specs.Prelude.{◌≡◌, [], ◌<◌, ◌≤◌, pos, get_or};
ghost use Rattle.sheet_table.specs.Loads.{Loads, loaded_of};
ghost use Rattle.sheet_own_table.specs.Own.{own_lines, own_bytes, own_table_bytes};

use sheet_format::{FIELD_BYTES, OWN_RELATIONS, OWN_TABLE, RELATION_NUMBERS, TABLE_FIELDS};
use sheet_table::Loaded;

// The bytes of a line up to its end, and with it.
const LINE_END: usize = TABLE_FIELDS * FIELD_BYTES;

const LINE_BYTES: usize = LINE_END + 1;

/// The own table's bytes, a line for each relation.
pub const OWN_TABLE_BYTES: usize = OWN_RELATIONS * LINE_BYTES;

// A field of the line at a place, both from 0.
fn own_field(n: usize, j: usize) -> usize
    requires { (n < 10) × (j < 4) }
    ensures { (pos result ≡ get_or (get_or own_lines n []) j (pos 0)) × (result ≤ 10) }
{
    let at = n * RELATION_NUMBERS;
    match j {
        0 => n + 1,
        1 => OWN_TABLE[at],
        2 => OWN_TABLE[at + 1],
        _ => OWN_TABLE[at + 2],
    }
}

// The byte at a place.
fn own_byte(i: usize) -> u8
    requires { i < own_table_bytes }
    ensures { result ≡ get_or own_bytes i 0 }
{
    let k = i % LINE_BYTES;
    if k == LINE_END {
        return b'\n';
    }
    let b = sheet_fields::field_bytes(own_field(i / LINE_BYTES, k / FIELD_BYTES) as i32);
    b[k % FIELD_BYTES]
}

/// The own table's bytes.
pub fn own_table() -> [u8; OWN_TABLE_BYTES]
    ensures { result ≡ own_bytes }
{
    let mut bytes = [0u8; OWN_TABLE_BYTES];
    for i in 0..OWN_TABLE_BYTES {
        bytes[i] = own_byte(i);
    }
    bytes
}

/// The own table as if its bytes had been read.
pub fn own() -> Loaded
    ensures { Loads own_bytes (loaded_of result) }
{
    Ok(sheet_terms::own_table())
}
