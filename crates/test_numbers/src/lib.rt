// Numbers of a case's text.
#![tactic(auto)]

ghost use Rattle.std.specs.Prelude.{◌≡◌, min};
ghost use Rattle.test_numbers.specs.Numbers.{largest, number_of};
ghost use Rattle.test_numbers.specs.Numbers.{longer as Numbers·longer};

/// The number that the digits of s make, or the largest one where that is larger. Other bytes are passed over.
pub fn number(s: &[u8]) -> usize
    ensures { result ≡ number_of s.now }
{
    let mut n = 0;
    for b in s {
        n = longer(n, *b);
    }
    n
}

// n with one more digit, or the largest number.
fn longer(n: usize, b: u8) -> usize
    ensures { result ≡ min (Numbers·longer n b) largest }
{
    match b {
        b'0'..=b'9' => n.saturating_mul(10).saturating_add(usize::from(b - b'0')),
        _ => n,
    }
}
