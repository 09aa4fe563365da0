// Lines of the input.
#![tactic(auto)]

ghost use Rattle.std.specs.Prelude.{◌≡◌, IfOk, OnErr, IfSome, take};
ghost use Rattle.std.specs.Io.KnownBytes.{Keeps};
ghost use Rattle.std.specs.Iterator.{at_most};
ghost use Rattle.test_lines.specs.Lines.{LineIn, TakesByte, TakesLine, BreaksOff, HasNoEnd, IsLine};

use std::io;
use std::io::Read;

/// So many lines are given at most, more than any input has.
pub const MOST_GIVEN: u32 = 1000000;

/// No line that is given has more bytes: there is room for no more.
pub const LONGEST: usize = 8192;

/// The lines of an input, without their byte 10, up to an empty one or the end of the input.
#[derive(Drop)]
pub struct Lines<R> {
    input: R,
    room: usize,
    left: u32,
}

/// A line that was read, at the start of its room.
#[derive(Clone, Copy)]
pub struct Held {
    pub room: [u8; LONGEST],
    pub length: usize,
}

impl Held {
    /// The bytes of the line.
    pub fn as_bytes(&self) -> &[u8]
        ensures { result.now ≡ take self.now.length self.now.room }
    {
        &self.room[..self.length.min(LONGEST)]
    }
}

impl<R: Read + Drop> Lines<R> {
    /// Lines of at most `room` bytes: a longer one is cut, and what is left of it is the next line.
    pub fn new(input: R, room: usize) -> Lines<R>
        ensures room { result.room ≡ room }
        ensures left { result.left ≡ MOST_GIVEN }
    {
        Lines {
            input,
            room,
            left: MOST_GIVEN,
        }
    }

    // The next line, without bytes at the end of the input.
    fn read(&mut self) -> io::Result<Held>
        ensures plain { IfOk result (λ h. HasNoEnd (take h.length h.room)) }
        ensures left { self.new.left ≡ self.old.left }
    {
        let mut room = [0u8; LONGEST];
        let length = line(&mut self.input, &mut room[..self.room.min(LONGEST)])?;
        Ok(Held { room, length })
    }
}

impl<R: Read + Drop> Iterator for Lines<R> {
    type Item = io::Result<Held>;

    ghost remaining = { λ s. at_most s.left };

    ghost next_gives = { λ s r t. IfSome r (λ l. IfOk l (λ h. IsLine (take h.length h.room))) };

    fn next(&mut self) -> Option<io::Result<Held>> {
        if self.left == 0 {
            return None;
        }
        self.left -= 1;
        match self.read() {
            Ok(held) if held.as_bytes().is_empty() => None,
            given => Some(given),
        }
    }
}

/// Reads a line, without its byte 10, and returns its length: 0 at the end of the input. The only error is that a read fails: what was read of the
/// line before it stands in `out`, and nothing else was taken of the input.
pub fn line<R: Read>(input: &mut R, out: &mut [u8]) -> io::Result<usize>
    ensures line { IfOk result (λ n. LineIn out.old out.new n) }
    ensures taken { IfOk result (λ n. TakesLine (R.remaining input.old) (R.remaining input.new) out.new n) }
    ensures failed { OnErr result (BreaksOff (R.remaining input.old) (R.remaining input.new) out.old out.new) }
{
    for n in 0..out.len() {
        let b = next(input)?;
        if b == b'\n' {
            return Ok(n);
        }
        out[n] = b;
    }
    Ok(out.len())
}

// The next byte of the input, and byte 10 at its end.
fn next<R: Read>(input: &mut R) -> io::Result<u8>
    ensures taken { IfOk result (λ b. TakesByte (R.remaining input.old) (R.remaining input.new) b) }
    ensures failed { OnErr result (Keeps (R.remaining input.old) (R.remaining input.new)) }
{
    let mut one = [0u8; 1];
    if program_input::read_up_to(input, &mut one)? == 0 {
        return Ok(b'\n');
    }
    Ok(one[0])
}

#[cfg(test)]
mod tests {
    use super::*;
    use std::test::Fail;

    #[test]
    fn gives_lines_up_to_an_empty_one(rt: HostRuntime) -> Result<(), Fail> {
        let input = b"abcde\nf\n\ng\n".as_slice();
        let wanted = [b"abcd".as_slice(), b"e".as_slice(), b"f".as_slice()];
        let mut many = 0usize;
        for line in Lines::new(input, 4) {
            let wanted = wanted.get(many).copied().unwrap_or(b"none".as_slice());
            assert_eq!(rt; line?.as_bytes(), wanted);
            many = many.saturating_add(1);
        }
        assert_eq!(rt; many, 3);
        Ok(())
    }
}
