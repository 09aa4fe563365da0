// A page's whole set of sheets, judged in one call: they come as one run of bytes with a list of their ends. Each gets the judgement that it
// would get alone, and a stretch of the lent words of its own.
#![tactic(auto)]

ghost use Rattle.std.specs.Prelude.{List, ℕ, ◌<◌, length};
ghost use Rattle.sheet_format.specs.Table.{ten};
ghost use Rattle.sheet_table.specs.Loads.{Loads, loaded_of};
ghost use Rattle.judge_result.specs.Judged.{Judged, JudgedBy};
ghost use Rattle.judge_result.specs.Returns.{judgement_from_result};
ghost use Rattle.judge_ends.specs.Sets.{JudgedTo, SetJudged};
ghost use Rattle.judge_ends.specs.Places.{Parted, JudgedAt};
ghost use Rattle.judge_ends.specs.Returns.{judgements_at, set_judgement_from_result};

use judge_ends::{JudgedSet, MOST_SHEETS, Place, first_word, set_refusal, start_of};
use judge_result::{LEAST_ROOM, Verdict};
use sheet_format::{Cause, Refusal};
use sheet_table::Loaded;

// Judges the sheet at a place, lent its own stretch.
fn judge_place(
    table: Loaded,
    bytes: &[u8],
    ends: &[usize],
    place: usize,
    out: &mut [i32],
) -> Result<Verdict, Refusal>
    requires parted { Parted bytes.now ends.now (length out.old) }
    requires place_in_bounds { place < length ends.now }
    ensures { (tb : List ℕ) → Loads tb (loaded_of table) → JudgedAt (JudgedBy tb) place bytes.now ends.now out.old out.new (judgement_from_result result) }
{
    let start = start_of(ends, place);
    let end = ends[place];
    let first = first_word(place);
    judge::judge_loaded(
        table,
        &bytes[start..end],
        &mut out[first..first + LEAST_ROOM],
    )
}

// Judges one sheet after the other.
fn judge_places(
    table: Loaded,
    bytes: &[u8],
    ends: &[usize],
    out: &mut [i32],
) -> [Place; MOST_SHEETS]
    requires { Parted bytes.now ends.now (length out.old) }
    ensures { (tb : List ℕ) → Loads tb (loaded_of table) → JudgedTo (JudgedBy tb) (length ends.now) bytes.now ends.now out.old out.new (judgements_at result) }
{
    let mut sheets = [None; MOST_SHEETS];
    for place in 0..ends.len() {
        let judged = judge_place(table, bytes, ends, place, out);
        sheets[place] = Some(judged);
    }
    sheets
}

/// Judges a set of sheets by a table that was loaded before.
pub fn judge_set_loaded(
    table: Loaded,
    bytes: &[u8],
    ends: &[usize],
    out: &mut [i32],
) -> Result<JudgedSet, Cause>
    ensures { (tb : List ℕ) → Loads tb (loaded_of table) → SetJudged (JudgedBy tb) bytes.now ends.now out.old out.new (set_judgement_from_result result) }
{
    set_refusal(bytes, ends, out)?;
    let sheets = judge_places(table, bytes, ends, out);
    Ok(JudgedSet {
        count: ends.len(),
        sheets,
    })
}

/// Judges a set of sheets by the library's own table.
pub fn judge_set(bytes: &[u8], ends: &[usize], out: &mut [i32]) -> Result<JudgedSet, Cause>
    ensures { SetJudged (Judged ten) bytes.now ends.now out.old out.new (set_judgement_from_result result) }
{
    judge_set_loaded(sheet_own_table::own(), bytes, ends, out)
}

/// Judges a set of sheets by the table of these bytes: each gets what it would get alone, so that each is sent back where the table is.
pub fn judge_set_by_table(
    table: &[u8],
    bytes: &[u8],
    ends: &[usize],
    out: &mut [i32],
) -> Result<JudgedSet, Cause>
    ensures { SetJudged (JudgedBy table.now) bytes.now ends.now out.old out.new (set_judgement_from_result result) }
{
    judge_set_loaded(sheet_table::load(table), bytes, ends, out)
}
