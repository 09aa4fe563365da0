// A table of relations from the file that an argument of the program names.
#![tactic(auto)]

ghost use Rattle.std.specs.Prelude.{◌≤◌, length};

use program_input::NAME_ROOM;
use sheet_format::{FIELD_BYTES, MOST_RELATIONS, TABLE_FIELDS};
use std::env::Env;
use std::rt::Files;

/// What is read: one byte more than a table may have, so that a longer one is refused.
pub const TABLE_READ: usize = MOST_RELATIONS * (TABLE_FIELDS * FIELD_BYTES + 1) + 1;

// The library's own table.
fn put_own(out: &mut [u8]) -> usize
    ensures { result ≤ length out.new }
{
    match sheet::own_table(out) {
        Ok(n) => n.min(out.len()),
        Err(_) => 0,
    }
}

// The bytes of the file that an argument names, none where it cannot be opened, which `errors` is told; how many they are.
fn put_named<R: Env + Files>(rt: &R, errors: &impl Print, number: usize, out: &mut [u8]) -> usize
    ensures { result ≤ length out.new }
{
    let mut name = [0u8; NAME_ROOM];
    match program_input::read_named(rt, errors, number, &mut name, out) {
        Some(file) => file.bytes,
        None => 0,
    }
}

/// The table that an argument names, or the library's own where there is no such argument; how many bytes it has.
pub fn table<R: Env + Files>(rt: &R, errors: &impl Print, number: usize, out: &mut [u8]) -> usize
    ensures { result ≤ length out.new }
{
    if program_input::has_argument(rt, number) {
        put_named(rt, errors, number, out)
    } else {
        put_own(out)
    }
}
