// Whether a saved list covers its question, judged from the rows of the views alone.
#![tactic(auto)]

ghost use Rattle.std.specs.Prelude.{◌≡◌, List, ℕ, ◌≤◌, length};
ghost use Rattle.sheet_format.specs.Table.{Sound, ten, table_in};
ghost use Rattle.sheet_format.specs.Line.{word_lines};
ghost use Rattle.sheet_format.specs.Cause.{refusal_of};
ghost use Rattle.case_verdicts.specs.Verdict.{Sheet};
ghost use Rattle.case_verdicts.specs.Sheets.{sheet_of};
ghost use Rattle.search_task.specs.Task.{ReadyPlan};
ghost use Rattle.judge_result.specs.Judged.{Decided, Judged, JudgedBy, least_room};
ghost use Rattle.judge_result.specs.Returns.{judgement_from_verdict, judgement_from_result};
ghost use Rattle.sheet_table.specs.Loads.{Loads, loaded_of};

use judge_result::{LEAST_ROOM, Verdict};
use search_task::Goal;
use sheet_format::{Cause, LINE_WORDS, MOST_WORDS, Refusal, TABLE_NUMBERS};
use sheet_table::Loaded;
use tableau_layout::{PLAN_NUMBERS, SLOTS};

// The verdict of an accepted sheet: a case, else an agreeing log, else neither.
fn decide(p: &[usize; PLAN_NUMBERS], out: &mut [i32]) -> Verdict
    requires { least_room ≤ length out.old }
    ensures { (x : Sheet) → ReadyPlan p.now x → Decided x out.old out.new (judgement_from_verdict result) }
{
    let mut words = [0usize; SLOTS];
    if search_chase::find(p, Goal::Counterexample, &mut words) {
        let handed = case_writer::hand_over(p, &words, out);
        let facts = handed.count;
        let missing = handed.missing;
        return Verdict::NotCovered { facts, missing };
    }
    if search_chase::find(p, Goal::Agreement, &mut words) {
        return Verdict::Covered;
    }
    Verdict::NoLog
}

// The judgement of a number form that a table of relations accepts.
fn judge_words(
    table: &[usize; TABLE_NUMBERS],
    ws: &[i32],
    out: &mut [i32],
) -> Result<Verdict, Refusal>
    requires { (refusal_of (table_in table.now) (word_lines ws.now)).number ≡ 0 }
    ensures { Sound (table_in table.now) → Decided (sheet_of (table_in table.now) (word_lines ws.now)) out.old out.new (judgement_from_result result) }
{
    if out.len() < LEAST_ROOM {
        return Err(Refusal {
            cause: Cause::NoRoom,
            line: 0,
        });
    }
    let mut p = [0usize; PLAN_NUMBERS];
    tableau_plan::plan(table, ws, &mut p);
    Ok(decide(&p, out))
}

// Judges a sheet by a table in plain numbers.
fn judge_numbers(
    table: &[usize; TABLE_NUMBERS],
    sheet: &[u8],
    out: &mut [i32],
) -> Result<Verdict, Refusal>
    ensures { Sound (table_in table.now) → Judged (table_in table.now) sheet.now out.old out.new (judgement_from_result result) }
{
    let mut ws = [0i32; MOST_WORDS];
    let lines = sheet_reader::read(table, sheet, &mut ws)?;
    judge_words(table, &ws[..lines * LINE_WORDS], out)
}

/// Judges a sheet by a table that was loaded before.
pub fn judge_loaded(table: Loaded, sheet: &[u8], out: &mut [i32]) -> Result<Verdict, Refusal>
    ensures { (tb : List ℕ) → Loads tb (loaded_of table) → JudgedBy tb sheet.now out.old out.new (judgement_from_result result) }
{
    let numbers = table?;
    judge_numbers(&numbers, sheet, out)
}

/// Judges a sheet by the library's own table.
pub fn judge(sheet: &[u8], out: &mut [i32]) -> Result<Verdict, Refusal>
    ensures { Judged ten sheet.now out.old out.new (judgement_from_result result) }
{
    judge_loaded(sheet_own_table::own(), sheet, out)
}

/// Judges a sheet by the table of these bytes, which is looked at first.
pub fn judge_by_table(table: &[u8], sheet: &[u8], out: &mut [i32]) -> Result<Verdict, Refusal>
    ensures { JudgedBy table.now sheet.now out.old out.new (judgement_from_result result) }
{
    judge_loaded(sheet_table::load(table), sheet, out)
}
