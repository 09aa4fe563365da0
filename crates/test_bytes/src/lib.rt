// Bytes of a case's text.
#![tactic(auto)]

ghost use Rattle.std.specs.Prelude.{◌≡◌, ◌≤◌, ◌<◌, ◌+◌, length, take, replicate};
ghost use Rattle.text_buffer.specs.Puts.{Put};
ghost use Rattle.test_bytes.specs.Bytes.{digit_value, escaped_by, extent, meant_by, stands_for, times_of};

/// Puts the bytes that text stands for at the start of out, and returns how many they are.
pub fn bytes(text: &[u8], out: &mut [u8]) -> usize
    ensures within { result ≤ length out.new }
    ensures put { Put out.old out.new 0 (stands_for 0 text.now) result }
    ensures front { take result out.new ≡ take (length out.old) (stands_for 0 text.now) }
{
    let mut n = 0;
    let mut i = 0;
    // Kept: no plainer; i moves by one byte or by three, as the byte there says.
    while i < text.len() {
        n = fill(out, n, byte(text[i], &text[i + 1..]), times(text[i]));
        i += width(text[i]);
    }
    n
}

/// The bytes that text stands for, as many as there is room for: they are put there.
pub fn to_bytes<'a>(text: &[u8], room: &'a mut [u8]) -> &'a [u8]
    ensures { result.now ≡ take (length room.old) (stands_for 0 text.now) }
{
    let n = bytes(text, room);
    &room[..n]
}

// Puts b into out so many times.
fn fill(out: &mut [u8], at: usize, b: u8, times: usize) -> usize
    ensures { Put out.old out.new at (replicate times b) result }
{
    let mut n = at;
    for _ in 0..times {
        n = text_buffer::put_byte(out, n, b);
    }
    n
}

// How often the byte that b begins is meant.
fn times(b: u8) -> usize
    ensures { result ≡ times_of b }
{
    match b {
        b',' => 7,
        b';' => 6,
        _ => 1,
    }
}

// How many bytes of the text stand for the byte that b begins.
fn width(b: u8) -> usize
    ensures { (result < 4) × (result ≡ extent b + 1) }
{
    if b == b'\\' { 3 } else { 1 }
}

// The byte that b stands for, with `rest` after it.
fn byte(b: u8, rest: &[u8]) -> u8
    ensures { result ≡ meant_by b rest.now }
{
    match b {
        b',' | b';' => b' ',
        b'/' => b'\n',
        b'\\' => escaped(rest),
        _ => b,
    }
}

// The byte whose two digits stand first, and 0 where they are not there.
fn escaped(rest: &[u8]) -> u8
    ensures { result ≡ escaped_by rest.now }
{
    match rest {
        [high, low, ..] => digit(*high) * 16 + digit(*low),
        _ => 0,
    }
}

// The value of a hexadecimal digit, and 0 where b is none.
fn digit(b: u8) -> u8
    ensures { (result < 16) × (result ≡ digit_value b) }
{
    match b {
        b'0'..=b'9' => b - b'0',
        b'a'..=b'f' => b - b'a' + 10,
        _ => 0,
    }
}

#[cfg(test)]
mod tests {
    use super::*;
    use std::test::Fail;

    #[test]
    fn bytes_of_a_text(rt: HostRuntime) -> Result<(), Fail> {
        assert_eq!(rt;
            to_bytes(b"a/\\7c;", &mut [0u8; 64]),
            b"a\n|      ".as_slice()
        );
        assert_eq!(rt; to_bytes(b"ab,", &mut [0u8; 4]), b"ab  ".as_slice());
        Ok(())
    }
}
