// Ends of sheets from the words of stored cases, and how a call on a set ended.
#![tactic(auto)]

ghost use Rattle.std.specs.Prelude.{◌≤◌, length};

use test_results::Line;

/// Puts words as ends, as many as there is room for, and returns how many.
pub fn put_ends(numbers: &[i32], ends: &mut [usize]) -> usize
    ensures { result ≤ length ends.new }
{
    for (end, number) in ends.iter_mut().zip(numbers) {
        *end = sheet_terms::number(*number);
    }
    numbers.len().min(ends.len())
}

/// Puts the number, the line and the count.
pub fn put_ending(out: &mut Line<'_>, number: usize, line: usize, count: usize) {
    out.bytes(b": ");
    out.number(number, b' ');
    out.number(line, b' ');
    out.number(count, b' ');
}
