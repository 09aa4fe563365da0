// Bytes put at a place of a buffer; what does not fit is left out. The result is the place after them.
#![tactic(auto)]

ghost use Rattle.text_buffer.specs.Puts.{Put};
ghost use Rattle.std.specs.Prelude.{[], ◌∷◌};

/// Puts one byte at a place of a buffer.
pub fn put_byte(out: &mut [u8], at: usize, b: u8) -> usize
    ensures { Put out.old out.new at (b ∷ []) result }
{
    put(out, at, &[b])
}

/// Puts bytes at a place of a buffer.
pub fn put(out: &mut [u8], at: usize, s: &[u8]) -> usize
    ensures { Put out.old out.new at s.now result }
{
    if out.len() <= at {
        return at;
    }
    let fitting = s.len().min(out.len() - at);
    let end = at + fitting;
    out[at..end].copy_from_slice(&s[..fitting]);
    end
}
