// A page's whole set of sheets, judged in one call, and the page for it: a line for each sheet, and a closing line of totals.
#![tactic(auto)]

ghost use Rattle.std.specs.Prelude.{List, ℕ};
ghost use Rattle.sheet_format.specs.Table.{ten};
ghost use Rattle.sheet_table.specs.Loads.{Loads, loaded_of};
ghost use Rattle.judge_result.specs.Judged.{Judged, JudgedBy};
ghost use Rattle.day_page.specs.Returns.{day_judgement_from_result};
ghost use Rattle.judge_day.specs.Days.{DayJudged};

use day_page::JudgedDay;
use sheet_format::Cause;
use sheet_table::Loaded;

// Judges a set of sheets by a table that was loaded before, and writes its page.
fn judge_day_loaded(
    table: Loaded,
    bytes: &[u8],
    ends: &[usize],
    out: &mut [i32],
    page: &mut [u8],
) -> Result<JudgedDay, Cause>
    requires { (tb : List ℕ) × Loads tb (loaded_of table) }
    ensures { (tb : List ℕ) → Loads tb (loaded_of table) → DayJudged (JudgedBy tb) bytes.now ends.now out.old out.new page.old page.new (day_judgement_from_result result) }
{
    day_page::day_refusal(bytes, ends, out, page)?;
    let set = judge_set::judge_set_loaded(table, bytes, ends, out)?;
    let n = day_page::put_page(page, &set.sheets[..ends.len()]);
    Ok(JudgedDay { set, bytes: n })
}

/// Judges a set of sheets by the library's own table, and writes its page.
pub fn judge_day(
    bytes: &[u8],
    ends: &[usize],
    out: &mut [i32],
    page: &mut [u8],
) -> Result<JudgedDay, Cause>
    ensures { DayJudged (Judged ten) bytes.now ends.now out.old out.new page.old page.new (day_judgement_from_result result) }
{
    judge_day_loaded(sheet_own_table::own(), bytes, ends, out, page)
}

/// Judges a set of sheets by the table of these bytes, and writes its page.
pub fn judge_day_by_table(
    table: &[u8],
    bytes: &[u8],
    ends: &[usize],
    out: &mut [i32],
    page: &mut [u8],
) -> Result<JudgedDay, Cause>
    ensures { DayJudged (JudgedBy table.now) bytes.now ends.now out.old out.new page.old page.new (day_judgement_from_result result) }
{
    judge_day_loaded(sheet_table::load(table), bytes, ends, out, page)
}
