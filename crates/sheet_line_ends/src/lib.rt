// Lines of bytes, each closed by a byte 10.
#![tactic(auto)]

ghost use Rattle.std.specs.Prelude.{◌≡◌, ◌+◌, drop};
ghost use Rattle.sheet_line_ends.specs.Before.{before_end};

/// Where the line that starts at a place ends: at its byte 10, or at the end of the bytes. A place after the end stays.
pub fn line_end(s: &[u8], at: usize) -> usize
    ensures { result ≡ at + before_end (drop at s.now) }
{
    for e in at..s.len() {
        if s[e] == b'\n' {
            return e;
        }
    }
    at.max(s.len())
}
