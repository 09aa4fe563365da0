// Parts and words of a case's text.
#![tactic(auto)]

ghost use Rattle.std.specs.Prelude.{◌≡◌, ◌≤◌, ◌<◌, ◌+◌, min, length, get_or, drop, take, replicate, pos, MatchOption};
ghost use Rattle.test_words.specs.Words.{before_either, Stores, word_below_zero, rounded_by, whole_of, word_of, words_read};

use test_numbers::number;

/// The place of the first byte b.
pub fn place(s: &[u8], b: u8) -> Option<usize>
    ensures { MatchOption result (before_either b b s.now ≡ length s.now) (λ n. (n < length s.now) × (n ≡ before_either b b s.now)) }
{
    let n = find(s, 0, b, b);
    if n < s.len() { Some(n) } else { None }
}

// The place of the first byte from `from` on that is a or b, or the length where there is none.
fn find(s: &[u8], from: usize, a: u8, b: u8) -> usize
    requires { from ≤ length s.now }
    ensures { (from ≤ result) × (result ≤ length s.now) × (result ≡ from + before_either a b (drop from s.now)) }
{
    for i in from..s.len() {
        let x = s[i];
        if x == a || x == b {
            return i;
        }
    }
    s.len()
}

// The word of the decimal number s, and 0 where it is too large for a word.
fn word(s: &[u8]) -> i32
    ensures { result ≡ word_of s.now }
{
    match s {
        [] => 0,
        [b'-', ..] => below(number(s)),
        _ => i32::try_from(number(s)).unwrap_or(0),
    }
}

// The word n below 0.
fn below(n: usize) -> i32
    ensures { result ≡ word_below_zero n }
{
    if n == 2147483648 {
        return -2147483648;
    }
    if 2147483648 < n {
        return 0;
    }
    -(n as i32)
}

/// Puts the words of text at the start of out, which holds zeros, and returns how many they are. After "/" the next word goes to a multiple
/// of `unit`.
pub fn words(text: &[u8], unit: usize, out: &mut [i32]) -> usize
    ensures { (result ≤ length out.new) × (out.new ≡ (words_read unit text.now out.old).words) × (result ≡ min (words_read unit text.now out.old).next (length out.old)) }
{
    let mut n = 0;
    let mut i = 0;
    // Kept: no plainer; i moves past a word and the byte after it, and words and places of the text do not go side by side.
    while i < text.len() {
        let e = find(text, i, b' ', b'/');
        n = close(text, e, unit, store(out, n, word(&text[i..e])));
        i = e + 1;
    }
    n.min(out.len())
}

/// The words of text, as many as there is room for: they are put there, over zeros.
pub fn to_words<'a>(text: &[u8], unit: usize, room: &'a mut [i32]) -> &'a [i32]
    ensures { result.now ≡ (let r = words_read unit text.now (replicate (length room.old) (pos 0)) in take r.next r.words) }
{
    room.fill(0);
    let n = words(text, unit, room);
    &room[..n]
}

fn store(out: &mut [i32], at: usize, w: i32) -> usize
    ensures { Stores out.old out.new at w result }
{
    if at < out.len() {
        out[at] = w;
        return at + 1;
    }
    at
}

// The place of the next word: at a multiple of the unit where "/" stands at e.
fn close(text: &[u8], e: usize, unit: usize, n: usize) -> usize
    ensures { result ≡ rounded_by unit (get_or text.now e 0) n }
{
    if e < text.len() {
        if text[e] == b'/' {
            return whole(n, unit);
        }
    }
    n
}

// n, or the next multiple of the unit.
fn whole(n: usize, unit: usize) -> usize
    ensures { result ≡ whole_of unit n }
{
    if unit < 1 {
        return n;
    }
    if 10000 < unit {
        return n;
    }
    if 10000 < n {
        return n;
    }
    if n % unit == 0 {
        return n;
    }
    n + unit - n % unit
}

#[cfg(test)]
mod tests {
    use super::*;
    use std::test::Fail;

    #[test]
    fn words_of_a_text(rt: HostRuntime) -> Result<(), Fail> {
        assert_eq!(rt;
            to_words(b"7 -8/9", 4, &mut [5i32; 64]),
            [7, -8, 0, 0, 9].as_slice()
        );
        assert_eq!(rt; to_words(b"1 2 3", 0, &mut [5i32; 2]), [1, 2].as_slice());
        Ok(())
    }
}
