// A line of a sheet found by its number, and its own bytes.
#![tactic(auto)]

ghost use Rattle.std.specs.Prelude.{◌≡◌};
ghost use Rattle.sheet_format.specs.Line.{line_at};
ghost use Rattle.sheet_lines.specs.Part.{Part};
ghost use Rattle.sheet_lines.specs.Start.{line_start};

// Where a part of the bytes starts and ends.
#[derive(Clone, Copy)]
pub struct LinePlace {
    pub start: usize,
    pub end: usize,
}

// Where a closed line stands, counted from 1; an empty part at 0 where there is none.
pub fn find_line(s: &[u8], number: usize) -> LinePlace
    ensures { (result.start ≡ line_start s.now number) × Part s.now result.start result.end (line_at s.now number) }
{
    let mut at = 0;
    let mut k = 1;
    while at < s.len() {
        let e = sheet_line_ends::line_end(s, at);
        if e == s.len() {
            return LinePlace { start: 0, end: 0 };
        }
        if k == number {
            return LinePlace { start: at, end: e };
        }
        at = e + 1;
        k += 1;
    }
    LinePlace { start: 0, end: 0 }
}

// A line's own bytes, without byte 10, as a part of the sheet's; empty for a line that is not there or is not closed.
pub fn line(sheet: &[u8], number: usize) -> &[u8]
    ensures { result.now ≡ line_at sheet.now number }
{
    let p = find_line(sheet, number);
    let start = p.start;
    let end = p.end;
    &sheet[start..end]
}
