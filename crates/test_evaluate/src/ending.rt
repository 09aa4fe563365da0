// How a call ended.
use sheet_format::Refusal;
use test_results::Line;

// Number, line and count, then whether what comes after the answers is as it was lent.
pub(crate) fn put_ending(out: &mut Line<'_>, e: Result<usize, Refusal>, kept: bool) {
    match e {
        Ok(count) => put_three(out, 0, 0, count),
        Err(Refusal { cause, line }) => put_three(out, cause.number(), line, 0),
    }
    out.mark(kept);
}

fn put_three(out: &mut Line<'_>, number: usize, line: usize, count: usize) {
    out.number(number, b' ');
    out.number(line, b' ');
    out.number(count, b' ');
}
