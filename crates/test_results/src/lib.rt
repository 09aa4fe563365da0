// A case's result: numbers, marks and words, one after the other in a lent buffer. What does not fit is left out.
#![tactic(auto)]

ghost use Rattle.std.specs.Prelude.{◌≡◌, [], ◌∷◌, ◌++◌, ◌+◌, ◌<◌, length, min, nat_abs, take};
ghost use Rattle.text_buffer.specs.Puts.{Put};
ghost use Rattle.test_results.specs.Results.{decimal_digits, sign, word_decimal, closing, words_bytes, mark_byte};

/// A result in a lent buffer, of which the first bytes are put.
#[derive(Drop)]
pub struct Line<'a> {
    pub room: &'a mut [u8],
    pub length: usize,
}

impl<'a> Line<'a> {
    /// A result without bytes.
    pub fn new(room: &'a mut [u8]) -> Line<'a>
        ensures empty { result.length ≡ 0 }
        ensures same_reference { result.room.ghost_name ≡ room.entry.ghost_name }
        ensures value { result.room.now ≡ room.entry.now }
    {
        Line { room, length: 0 }
    }

    /// What was put.
    pub fn as_bytes(&self) -> &[u8]
        ensures { result.now ≡ take (min self.now.length (length self.now.room.now)) self.now.room.now }
    {
        &self.room[..self.length.min(self.room.len())]
    }

    /// A byte.
    pub fn byte(&mut self, b: u8)
        ensures put { Put self.old.room.now self.new.room.now self.old.length (b ∷ []) self.new.length }
        ensures same_reference { self.new.room.ghost_name ≡ self.old.room.ghost_name }
    {
        let room = &mut *self.room;
        self.length = text_buffer::put_byte(room, self.length, b);
    }

    /// Bytes as they stand.
    pub fn bytes(&mut self, s: &[u8])
        ensures put { Put self.old.room.now self.new.room.now self.old.length s.now self.new.length }
        ensures same_reference { self.new.room.ghost_name ≡ self.old.room.ghost_name }
    {
        let room = &mut *self.room;
        self.length = text_buffer::put(room, self.length, s);
    }

    /// A number, and a byte after it.
    pub fn number(&mut self, n: usize, after: u8)
        ensures put { Put self.old.room.now self.new.room.now self.old.length (decimal_digits n ++ (after ∷ [])) self.new.length }
        ensures same_reference { self.new.room.ghost_name ≡ self.old.room.ghost_name }
    {
        let room = &mut *self.room;
        self.length = put_number(room, self.length, n, after);
    }

    /// "=" where a test holds, and "!" where it does not.
    pub fn mark(&mut self, holds: bool)
        ensures put { Put self.old.room.now self.new.room.now self.old.length (mark_byte holds ∷ []) self.new.length }
        ensures same_reference { self.new.room.ghost_name ≡ self.old.room.ghost_name }
    {
        let room = &mut *self.room;
        self.length = put_mark(room, self.length, holds);
    }

    /// Words, "/" after each of a unit's last and a blank after any other.
    pub fn words(&mut self, s: &[i32], unit: usize)
        ensures put { Put self.old.room.now self.new.room.now self.old.length (words_bytes unit 0 s.now) self.new.length }
        ensures same_reference { self.new.room.ghost_name ≡ self.old.room.ghost_name }
    {
        let room = &mut *self.room;
        self.length = put_words(room, self.length, s, unit);
    }
}

/// A number, and a byte after it.
pub fn put_number(out: &mut [u8], at: usize, n: usize, after: u8) -> usize
    ensures { Put out.old out.new at (decimal_digits n ++ (after ∷ [])) result }
{
    let end = put_decimal(out, at, n as u64);
    text_buffer::put_byte(out, end, after)
}

// A number's digits: those of a tenth of it, and its last.
fn put_decimal(out: &mut [u8], at: usize, n: u64) -> usize
    ensures { Put out.old out.new at (decimal_digits n) result }
{
    if n < 10 {
        return text_buffer::put_byte(out, at, b'0' + n as u8);
    }
    let end = put_decimal(out, at, n / 10);
    text_buffer::put_byte(out, end, b'0' + (n % 10) as u8)
}

/// "=" where a test holds, and "!" where it does not.
pub fn put_mark(out: &mut [u8], at: usize, holds: bool) -> usize
    ensures { Put out.old out.new at (mark_byte holds ∷ []) result }
{
    if holds {
        return text_buffer::put_byte(out, at, b'=');
    }
    text_buffer::put_byte(out, at, b'!')
}

/// The words, "/" after each of a unit's last and a blank after any other.
pub fn put_words(out: &mut [u8], at: usize, s: &[i32], unit: usize) -> usize
    ensures { Put out.old out.new at (words_bytes unit 0 s.now) result }
{
    let mut n = at;
    for (i, w) in s.iter().enumerate() {
        n = put_word(out, n, *w);
        n = text_buffer::put_byte(out, n, close(i + 1, unit));
    }
    n
}

fn put_word(out: &mut [u8], at: usize, w: i32) -> usize
    ensures { Put out.old out.new at (word_decimal w) result }
{
    let n = put_sign(out, at, w);
    put_decimal(out, n, u64::from(w.unsigned_abs()))
}

fn put_sign(out: &mut [u8], at: usize, w: i32) -> usize
    ensures { Put out.old out.new at (sign w) result }
{
    if w < 0 {
        return text_buffer::put_byte(out, at, b'-');
    }
    at
}

// The byte after the i-th word.
fn close(i: usize, unit: usize) -> u8
    ensures { result ≡ closing unit i }
{
    if unit != 0 && i % unit == 0 {
        b'/'
    } else {
        b' '
    }
}
