// What a text begins with, and the letters of its blocks.
#![tactic(auto)]

ghost use Rattle.std.specs.Prelude.{◌≡◌, ◌≤◌, length};
ghost use Rattle.text_begins.specs.Begins.{letter_of, is_blank_byte, begins_text, is_text_bytes, leading_blanks};

/// A text has at most so many bytes.
pub const MOST_TEXT: usize = 65536;

/// The letter of a block's kind.
pub fn letter(block: usize) -> u8
    ensures { result ≡ letter_of block }
{
    match block {
        1 => b'q',
        2 => b'l',
        _ => b'v',
    }
}

// Whether a text begins with a byte.
fn begins(b: u8) -> bool
    ensures { result ≡ begins_text b }
{
    matches!(b, b'a'..=b'z' | b'A'..=b'Z' | b'#' | b'\n')
}

fn is_blank(b: u8) -> bool
    ensures { result ≡ is_blank_byte b }
{
    matches!(b, b' ' | b'\t' | b'\r')
}

/// How many blanks come first.
pub fn blanks(s: &[u8]) -> usize
    ensures { (result ≤ length s.now) × (result ≡ leading_blanks s.now) }
{
    s.iter().position(|b| !is_blank(*b)).unwrap_or(s.len())
}

/// Whether bytes are a text and no sheet: a letter, "#" or an empty line comes first.
pub fn is_text(given: &[u8]) -> bool
    ensures { result ≡ is_text_bytes given.now }
{
    let at = blanks(given);
    at < given.len() && begins(given[at])
}
