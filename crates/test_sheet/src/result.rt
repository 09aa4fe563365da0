// Puts the parts of a case's result.
use sheet_format::Refusal;
use test_results::Line;

// Number, line and count, then whether what comes after the count is as it was lent.
pub(crate) fn put_answer(out: &mut Line<'_>, a: Result<usize, Refusal>, kept: bool) {
    match a {
        Ok(count) => put_three(out, 0, 0, count),
        Err(Refusal { cause, line }) => put_three(out, cause.number(), line, 0),
    }
    out.mark(kept);
}

fn put_three(out: &mut Line<'_>, number: usize, line: usize, count: usize) {
    out.number(number, b' ');
    out.number(line, b' ');
    out.number(count, b' ');
}

// The bytes, as the cases write them.
pub(crate) fn put_bytes(out: &mut Line<'_>, s: &[u8]) {
    for b in s {
        match *b {
            b'\n' => out.byte(b'/'),
            b',' | b';' | b'/' | b'\\' | 0..=9 | 11..=31 | 127..=255 => put_escaped(out, *b),
            _ => out.byte(*b),
        }
    }
}

fn put_escaped(out: &mut Line<'_>, b: u8) {
    out.byte(b'\\');
    out.byte(digit(b / 16));
    out.byte(digit(b % 16));
}

fn digit(d: u8) -> u8 {
    match d {
        0..=9 => b'0' + d,
        10..=15 => b'a' - 10 + d,
        _ => 0,
    }
}
