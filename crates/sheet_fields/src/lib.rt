// A field's bytes as a number, and a number's bytes as a field.
#![tactic(auto)]

ghost use Rattle.std.specs.Prelude.{◌≡◌, ◌++◌, ℕ, ◌+◌, ◌≤◌, ◌<◌, nat_abs, length, take, drop, replicate};
ghost use Rattle.sheet_format.specs.Limits.{field_end};
ghost use Rattle.sheet_format.specs.Field.{digit, byte, run, signed, told, field_at, lead, decimal, field_bytes};
ghost use Rattle.sheet_format.specs.Returns.{field_in};
ghost use Rattle.sheet_format.specs.declared.Digits.TheVariants.{Blank};
ghost use Rattle.sheet_fields.specs.Below.{DigitsBelow};

use sheet_format::Digits;

// A number and one digit more.
fn digit(neg: bool, v: usize, b: u8) -> Digits
    requires { v < field_end }
    ensures { result ≡ digit neg v b }
{
    if b < b'0' || b'9' < b {
        return Digits::Broken;
    }
    Digits::Run(neg, v * 10 + usize::from(b - b'0'))
}

// One byte more.
fn byte(d: Digits, b: u8) -> Digits
    requires { DigitsBelow field_end d }
    ensures { result ≡ byte d b }
{
    match (d, b) {
        (Digits::Blank, b' ') => Digits::Blank,
        (Digits::Blank, b'-') => Digits::Minus,
        (Digits::Blank, _) => digit(false, 0, b),
        (Digits::Minus, b'0') | (Digits::Run(_, 0), _) | (Digits::Broken, _) => Digits::Broken,
        (Digits::Minus, _) => digit(true, 0, b),
        (Digits::Run(neg, v), _) => digit(neg, v, b),
    }
}

// The eight bytes at a place.
fn run(s: &[u8], at: usize) -> Digits
    requires { at + 8 ≤ length s.now }
    ensures { (result ≡ run Blank (take 8 (drop at s.now))) × DigitsBelow field_end result }
{
    let mut d = Digits::Blank;
    let mut i = 0;
    while i < 8 {
        d = byte(d, s[at + i]);
        i += 1;
    }
    d
}

// A number with its sign.
fn signed(neg: bool, v: usize) -> i32
    requires { v < field_end }
    ensures { result ≡ signed neg v }
{
    if neg { -(v as i32) } else { v as i32 }
}

// What the bytes came to.
fn told(d: Digits) -> Option<i32>
    requires { DigitsBelow field_end d }
    ensures { field_in result ≡ told d }
{
    let Digits::Run(neg, v) = d else {
        return None;
    };
    Some(signed(neg, v))
}

/// The field at a place of a sheet's bytes; none where it is malformed, or fewer than eight bytes are left.
pub fn field(s: &[u8], at: usize) -> Option<i32>
    ensures { field_in result ≡ field_at s.now at }
{
    if s.len() < 8 || s.len() - 8 < at {
        return None;
    }
    told(run(s, at))
}

// The sign before the digits from column k on, the columns before them being blank.
fn sign(b: [u8; 8], k: usize, neg: bool) -> [u8; 8]
    requires { (k < 8) × (take k b ≡ replicate k 32) }
    ensures { result ≡ lead k neg ++ drop k b }
{
    let mut r = b;
    if neg && 0 < k {
        r[k - 1] = b'-';
    }
    r
}

// A number in eight columns: its digits from the right, the sign, blanks.
fn decimal(neg: bool, n: usize) -> [u8; 8]
    ensures { result ≡ decimal 8 neg n }
{
    let mut b = [32u8; 8];
    let mut v = n;
    let mut k = 8;
    while 0 < k {
        k -= 1;
        b[k] = 48 + (v % 10) as u8;
        if v < 10 {
            return sign(b, k, neg);
        }
        v /= 10;
    }
    b
}

// A number without its sign.
fn magnitude(z: i32) -> usize
    ensures { result ≡ nat_abs z }
{
    z.unsigned_abs() as usize
}

/// A number's eight bytes: blanks, the sign of one below 0, its digits.
pub fn field_bytes(z: i32) -> [u8; 8]
    ensures { result ≡ field_bytes z }
{
    decimal(z < 0, magnitude(z))
}
