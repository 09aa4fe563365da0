// A page's set of sheets in one run of bytes: where each starts and ends, what the set is sent back for, and what is returned of it.
#![tactic(auto)]

ghost use Rattle.std.specs.Prelude.{◌≡◌, ◌≤◌, ◌<◌, ◌*◌, ltb, length};
ghost use Rattle.sheet_format.specs.Returns.{cause_in};
ghost use Rattle.judge_result.specs.Judged.{least_room};
ghost use Rattle.judge_ends.specs.Sets.{most_sheets, start_of, ends_fall_back, has_wrong_ends, refusal_of_set};

use judge_result::{LEAST_ROOM, Verdict};
use sheet_format::{Cause, Refusal};

/// A set has so many sheets at most.
pub const MOST_SHEETS: usize = 16;

/// What stands at a place of a set that is taken: the judgement of its sheet; None past the last sheet.
pub type Place = Option<Result<Verdict, Refusal>>;

/// A set that is taken: how many sheets it has, and what stands at each place.
#[derive(Clone, Copy)]
pub struct JudgedSet {
    pub count: usize,
    pub sheets: [Place; MOST_SHEETS],
}

// Whether an end is below the one before it.
fn falls_back(ends: &[usize]) -> bool
    ensures { result ≡ ends_fall_back 0 ends.now }
{
    let mut before = 0;
    for end in ends {
        if *end < before {
            return true;
        }
        before = *end;
    }
    false
}

/// Where the sheet at a place starts, and past the last one where that ends.
pub fn start_of(ends: &[usize], place: usize) -> usize
    requires { place ≤ length ends.now }
    ensures { result ≡ start_of ends.now place }
{
    if place == 0 {
        return 0;
    }
    ends[place - 1]
}

// Whether the ends do not part so many bytes into sheets, or into too many.
fn wrong_ends(count: usize, ends: &[usize]) -> bool
    ensures { result ≡ has_wrong_ends count ends.now }
{
    MOST_SHEETS < ends.len() || falls_back(ends) || start_of(ends, ends.len()) != count
}

// Whether there are fewer words than a stretch for each sheet. There may be any number of sheets, so nothing is multiplied.
fn too_short(words: usize, sheets: usize) -> bool
    ensures { result ≡ ltb words (sheets * least_room) }
{
    words / LEAST_ROOM < sheets
}

/// Why a set is sent back: its ends, and then too little room.
pub fn set_refusal(bytes: &[u8], ends: &[usize], out: &[i32]) -> Result<(), Cause>
    ensures { cause_in result ≡ refusal_of_set bytes.now ends.now out.now }
{
    let wrong = wrong_ends(bytes.len(), ends);
    let short = too_short(out.len(), ends.len());
    if wrong {
        return Err(Cause::WrongEnds);
    }
    if short {
        return Err(Cause::NoRoom);
    }
    Ok(())
}

/// Where the stretch of a place starts in the lent words.
pub fn first_word(place: usize) -> usize
    requires { place < most_sheets }
    ensures { result ≡ place * least_room }
{
    place * LEAST_ROOM
}
