// What causes say, in words.
#![tactic(auto)]

ghost use Rattle.std.specs.Prelude.{◌≡◌};
ghost use Rattle.text_writer.specs.Texts.{cause_bytes};

/// What a cause for sending back says.
pub fn cause_text(number: usize) -> &'static [u8]
    ensures { result.now ≡ cause_bytes number }
{
    match number {
        1 => b"the sheet is too long",
        2 => b"a line or a field is malformed",
        3 => b"a line is out of place, or the question or a list is missing",
        4 => b"no such relation, or not its columns",
        5 => b"a term is out of range, or a row has a variable",
        6 => b"more atoms, lists, views or rows than fit",
        7 => b"a head or a row has the wrong length",
        8 => b"a block has no atoms, or a variable of its head is in none",
        9 => b"a row is not above the one before it",
        15 => b"a line of the table is not right, or the table has none",
        _ => b"there is not room enough",
    }
}
