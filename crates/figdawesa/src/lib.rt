// The calls for programs in C and Rust. include/figdawesa.h describes them to those who call them.
#![tactic(auto)]

ghost use Rattle.std.specs.Prelude.{◌≡◌, ◌+◌, ◌≤◌, length, take, drop};
ghost use Rattle.sheet_format.specs.Table.{ten};
ghost use Rattle.sheet_format.specs.Line.{line_at};
ghost use Rattle.sheet_format.specs.Sheet.{returned, read_ending, read_words, write_ending, write_bytes};
ghost use Rattle.sheet_format.specs.Answers.{Ending};
ghost use Rattle.sheet.specs.ByTable.{read_ending_by, read_words_by, write_ending_by, write_bytes_by, own_ending, own_lent};
ghost use Rattle.query_meaning.specs.Evaluate.{Evaluated};
ghost use Rattle.evaluate.specs.ByTable.{EvaluatedBy};
ghost use Rattle.sheet_lines.specs.Start.{line_start};
ghost use Rattle.judge_result.specs.Judged.{Judged, JudgedBy};
ghost use Rattle.judge_ends.specs.Sets.{SetJudged};
ghost use Rattle.judge_day.specs.Days.{DayJudged};
ghost use Rattle.c_results.specs.Passed.{returned_of, judgement_of, set_judgement_of, day_judgement_of};
ghost use Rattle.text_to_sheet.specs.Outcome.{Made};
ghost use Rattle.text_to_sheet.specs.Texts.{MadeAs, MadeByTable};
ghost use Rattle.text_from_sheet.specs.Shown.{text_ending, text_lent, text_ending_by, text_lent_by};
ghost use Rattle.text_answer.specs.Answered.{Answered, AnsweredBy};
ghost use Rattle.c_texts.specs.Passed.{text_outcome_of};

use c_results::{DayOutcome, Ended, Outcome, SetOutcome, Stretch, part};
use c_texts::TextOutcome;

/// A sheet's bytes to its number form in the lent words.
#[unsafe(no_mangle)]
pub extern "C" fn figdawesa_read(sheet: &[u8], out: &mut [i32]) -> Ended
    ensures { (returned_of result ≡ returned (read_ending ten sheet.now (length out.old))) × (out.new ≡ read_words ten sheet.now out.old) }
{
    sheet::read(sheet, out).into()
}

/// The same by a club's table of relations, which is looked at first.
#[unsafe(no_mangle)]
pub extern "C" fn figdawesa_read_by_table(table: &[u8], sheet: &[u8], out: &mut [i32]) -> Ended
    ensures { (returned_of result ≡ returned (read_ending_by table.now sheet.now (length out.old))) × (out.new ≡ read_words_by table.now sheet.now out.old) }
{
    sheet::read_by_table(table, sheet, out).into()
}

/// A number form to its sheet's bytes in the lent bytes.
#[unsafe(no_mangle)]
pub extern "C" fn figdawesa_write(words: &[i32], out: &mut [u8]) -> Ended
    ensures { (returned_of result ≡ returned (write_ending ten words.now (length out.old))) × (out.new ≡ write_bytes ten words.now out.old) }
{
    sheet::write(words, out).into()
}

/// The same by a club's table.
#[unsafe(no_mangle)]
pub extern "C" fn figdawesa_write_by_table(table: &[u8], words: &[i32], out: &mut [u8]) -> Ended
    ensures { (returned_of result ≡ returned (write_ending_by table.now words.now (length out.old))) × (out.new ≡ write_bytes_by table.now words.now out.old) }
{
    sheet::write_by_table(table, words, out).into()
}

/// The bytes of the library's own table of relations in the lent bytes.
#[unsafe(no_mangle)]
pub extern "C" fn figdawesa_own_table(out: &mut [u8]) -> Ended
    ensures { (returned_of result ≡ returned (own_ending (length out.old))) × (out.new ≡ own_lent out.old) }
{
    sheet::own_table(out).into()
}

/// Where a line's own bytes stand, without byte 10; the empty part at 0 for a line that is not there or is not closed.
#[unsafe(no_mangle)]
pub extern "C" fn figdawesa_line(sheet: &[u8], number: usize) -> Stretch
    ensures start_value { (result.start ≡ line_start sheet.now number) × (result.length ≡ length (line_at sheet.now number)) }
    ensures length_in_bounds { (result.start + result.length ≤ length sheet.now) × (take result.length (drop result.start sheet.now) ≡ line_at sheet.now number) }
{
    let p = sheet::find_line(sheet, number);
    part(p.start, p.end)
}

/// The answers that given facts give a block of a sheet: 1 the question, then the lists, then the views.
#[unsafe(no_mangle)]
pub extern "C" fn figdawesa_evaluate(
    sheet: &[u8],
    block: usize,
    facts: &[i32],
    out: &mut [i32],
) -> Ended
    ensures { (e : Ending) × (returned_of result ≡ returned e) × Evaluated ten sheet.now block facts.now out.old out.new e }
{
    evaluate::evaluate(sheet, block, facts, out).into()
}

/// The same by a club's table.
#[unsafe(no_mangle)]
pub extern "C" fn figdawesa_evaluate_by_table(
    table: &[u8],
    sheet: &[u8],
    block: usize,
    facts: &[i32],
    out: &mut [i32],
) -> Ended
    ensures { (e : Ending) × (returned_of result ≡ returned e) × EvaluatedBy table.now sheet.now block facts.now out.old out.new e }
{
    evaluate::evaluate_by_table(table, sheet, block, facts, out).into()
}

/// The verdict of a sheet; where no list covers, a case in the lent words.
#[unsafe(no_mangle)]
pub extern "C" fn figdawesa_judge(sheet: &[u8], out: &mut [i32]) -> Outcome
    ensures { Judged ten sheet.now out.old out.new (judgement_of result) }
{
    judge::judge(sheet, out).into()
}

/// The same by a club's table.
#[unsafe(no_mangle)]
pub extern "C" fn figdawesa_judge_by_table(table: &[u8], sheet: &[u8], out: &mut [i32]) -> Outcome
    ensures { JudgedBy table.now sheet.now out.old out.new (judgement_of result) }
{
    judge::judge_by_table(table, sheet, out).into()
}

/// The verdict of each sheet of a set; the case of each in its own stretch of the lent words.
#[unsafe(no_mangle)]
pub extern "C" fn figdawesa_judge_set(bytes: &[u8], ends: &[usize], out: &mut [i32]) -> SetOutcome
    ensures { SetJudged (Judged ten) bytes.now ends.now out.old out.new (set_judgement_of result) }
{
    judge_set::judge_set(bytes, ends, out).into()
}

/// The same by a club's table.
#[unsafe(no_mangle)]
pub extern "C" fn figdawesa_judge_set_by_table(
    table: &[u8],
    bytes: &[u8],
    ends: &[usize],
    out: &mut [i32],
) -> SetOutcome
    ensures { SetJudged (JudgedBy table.now) bytes.now ends.now out.old out.new (set_judgement_of result) }
{
    judge_set::judge_set_by_table(table, bytes, ends, out).into()
}

/// The same, and the page for the set in the lent bytes.
#[unsafe(no_mangle)]
pub extern "C" fn figdawesa_judge_day(
    bytes: &[u8],
    ends: &[usize],
    out: &mut [i32],
    page: &mut [u8],
) -> DayOutcome
    ensures { DayJudged (Judged ten) bytes.now ends.now out.old out.new page.old page.new (day_judgement_of result) }
{
    judge_day::judge_day(bytes, ends, out, page).into()
}

/// The same by a club's table.
#[unsafe(no_mangle)]
pub extern "C" fn figdawesa_judge_day_by_table(
    table: &[u8],
    bytes: &[u8],
    ends: &[usize],
    out: &mut [i32],
    page: &mut [u8],
) -> DayOutcome
    ensures { DayJudged (JudgedBy table.now) bytes.now ends.now out.old out.new page.old page.new (day_judgement_of result) }
{
    judge_day::judge_day_by_table(table, bytes, ends, out, page).into()
}

/// The sheet of a text in the lent bytes.
#[unsafe(no_mangle)]
pub extern "C" fn figdawesa_sheet_of(text: &[u8], out: &mut [u8]) -> TextOutcome
    ensures { (m : Made) × (result ≡ text_outcome_of m) × MadeAs ten text.now out.old out.new m }
{
    text_to_sheet::sheet_of(text, out).into()
}

/// The same by a club's table.
#[unsafe(no_mangle)]
pub extern "C" fn figdawesa_sheet_of_by_table(
    table: &[u8],
    text: &[u8],
    out: &mut [u8],
) -> TextOutcome
    ensures { (m : Made) × (result ≡ text_outcome_of m) × MadeByTable table.now text.now out.old out.new m }
{
    text_to_sheet::sheet_of_by_table(table, text, out).into()
}

/// The text of a sheet in the lent bytes.
#[unsafe(no_mangle)]
pub extern "C" fn figdawesa_text_of(sheet: &[u8], out: &mut [u8]) -> Ended
    ensures { (returned_of result ≡ returned (text_ending ten sheet.now (length out.old))) × (out.new ≡ text_lent ten sheet.now out.old) }
{
    text_from_sheet::text_of(sheet, out).into()
}

/// The same by a club's table.
#[unsafe(no_mangle)]
pub extern "C" fn figdawesa_text_of_by_table(table: &[u8], sheet: &[u8], out: &mut [u8]) -> Ended
    ensures { (returned_of result ≡ returned (text_ending_by table.now sheet.now (length out.old))) × (out.new ≡ text_lent_by table.now sheet.now out.old) }
{
    text_from_sheet::text_of_by_table(table, sheet, out).into()
}

/// What comes of a sheet or a text, in words in the lent bytes: how many bytes they have.
#[unsafe(no_mangle)]
pub extern "C" fn figdawesa_answer(given: &[u8], out: &mut [u8]) -> usize
    ensures { Answered ten given.now out.old out.new result }
{
    text_answer::answer(given, out)
}

/// The same by a club's table.
#[unsafe(no_mangle)]
pub extern "C" fn figdawesa_answer_by_table(table: &[u8], given: &[u8], out: &mut [u8]) -> usize
    ensures { AnsweredBy table.now given.now out.old out.new result }
{
    text_answer::answer_by_table(table, given, out)
}
