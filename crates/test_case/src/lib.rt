// What evaluation says of a case that was handed over, by a table of relations: its bytes, or the numbers that are loaded from them.
//
// A sheet's lines are those of its number form, of the longest sheet: the field count, the kind and the fields after it, and lines of zeros after the last.
#![tactic(auto)]

ghost use Rattle.std.specs.Prelude.{◌≤◌, length};

use judge_result::LEAST_ROOM;
use sheet_format::{CONSTANT_END, LINE_WORDS, MOST_WORDS, TABLE_NUMBERS};
use test_results::Line;

// The words of a fact and of an answer, and the answers that there is room for.
const FACT: usize = 5;

const ANSWER: usize = 4;

const ANSWERS: usize = 1024;

const ROOM: usize = ANSWERS * ANSWER;

// The kinds of a list's head, of a view's, of an atom and of a row.
const LIST: i32 = 2;

const VIEW: i32 = 3;

const ATOM: i32 = 4;

const ROW: i32 = 5;

/// Puts a mark for each check.
pub fn put_marks(
    out: &mut Line<'_>,
    table: &[u8],
    sheet: &[u8],
    facts: &[i32],
    missing: &[usize; 4],
) {
    let mut words = [0i32; MOST_WORDS];
    let _ = sheet::read_by_table(table, sheet, &mut words);
    let (lines, _) = words.as_chunks::<LINE_WORDS>();
    let case = Case {
        table,
        sheet,
        lines,
        facts,
    };
    out.mark(case.are_facts());
    out.mark(case.agrees());
    out.mark(case.is_least(missing));
    out.mark(case.is_bare());
}

// Facts that are looked at as a case of a sheet, whose lines are those of its number form.
#[derive(Clone, Copy)]
struct Case<'a> {
    table: &'a [u8],
    sheet: &'a [u8],
    lines: &'a [[i32; LINE_WORDS]],
    facts: &'a [i32],
}

impl Case<'_> {
    // Evaluates a block on the facts; returns how many answers stand at the start of the room, where that is all.
    fn evaluate(&self, block: usize, answers: &mut [i32; ROOM]) -> Option<usize> {
        evaluate::evaluate_by_table(self.table, self.sheet, block, self.facts, answers).ok()
    }

    // Whether evaluation takes the facts, and each value stands in the sheet or is made up. The relation and unused words are evaluation's to
    // test, and so is the end of the made-up values.
    fn are_facts(&self) -> bool {
        let mut answers = [0i32; ROOM];
        if self.evaluate(1, &mut answers).is_none() {
            return false;
        }
        let numbers = sheet_table::load(self.table).unwrap_or([0; TABLE_NUMBERS]);
        let (facts, _) = self.facts.as_chunks::<FACT>();
        facts.iter().all(|fact| {
            let columns = sheet_terms::columns(&numbers, fact[0]);
            fact.iter()
                .skip(1)
                .take(columns)
                .all(|value| CONSTANT_END <= *value || self.stands(*value))
        })
    }

    // Whether w is a term of the sheet.
    fn stands(&self, w: i32) -> bool {
        self.lines.iter().any(|line| has_term(line, w))
    }

    // Whether the facts are a case of the sheet.
    fn is_case(&self) -> bool {
        self.lacking().is_some() && self.agrees()
    }

    // Whether the facts are those of a log that counts, and each view's answers are its listed rows. The blocks are numbered: the question comes
    // first, then the lists, then the views.
    fn agrees(&self) -> bool {
        let lists = heads(self.lines, LIST);
        let blocks = heads(self.lines, VIEW);
        self.is_lawful() && (lists..blocks).all(|block| self.is_listed(block))
    }

    // Whether a relation's parent has each of its rows, and no two rows are alike in a key. Facts ascend, so that such ones stand side by side.
    fn is_lawful(&self) -> bool {
        let numbers = sheet_table::load(self.table).unwrap_or([0; TABLE_NUMBERS]);
        let (facts, _) = self.facts.as_chunks::<FACT>();
        facts.iter().all(|fact| has_parent(&numbers, facts, fact))
            && facts
                .iter()
                .zip(facts.iter().skip(1))
                .all(|(before, fact)| !are_unsettled(&numbers, before, fact))
    }

    // Whether the answers of the view that so many blocks stand before are its listed rows.
    fn is_listed(&self, before: usize) -> bool {
        let mut given = [0i32; ROOM];
        let Some(count) = self.evaluate(before.saturating_add(1), &mut given) else {
            return false;
        };
        let mut listed = [[0i32; ANSWER]; ANSWERS];
        count == self.list(before, &mut listed) && listed.as_flattened() == given.as_slice()
    }

    // Puts the listed rows of that view at the start of out, and returns how many they are.
    fn list(&self, before: usize, out: &mut [[i32; ANSWER]; ANSWERS]) -> usize {
        let mut blocks = 0usize;
        let mut n = 0;
        for line in self.lines {
            blocks = blocks.saturating_add(usize::from(is_head(line, VIEW)));
            if line[1] == ROW && blocks == before.saturating_add(1) && n < ANSWERS {
                out[n] = [line[2], line[3], line[4], line[5]];
                n += 1;
            }
        }
        n
    }

    // Whether the missing answer is the least that the facts give the question and no list.
    fn is_least(&self, missing: &[usize; 4]) -> bool {
        self.lacking().is_some_and(|answer| {
            answer
                .iter()
                .zip(missing)
                .all(|(w, n)| *w == i32::try_from(*n).unwrap_or(-1))
        })
    }

    // The first of the question's answers that no list has; none where each is a list's, or where there are more than there is room for.
    fn lacking(&self) -> Option<[i32; ANSWER]> {
        let mut asked = [0i32; ROOM];
        let count = self.evaluate(1, &mut asked)?;
        let (answers, _) = asked.as_chunks::<ANSWER>();
        answers
            .iter()
            .take(count)
            .find(|answer| !self.is_in_a_list(*answer))
            .copied()
    }

    // Whether some list has an answer.
    fn is_in_a_list(&self, answer: &[i32; ANSWER]) -> bool {
        (1..heads(self.lines, LIST)).any(|before| self.gives(before, answer))
    }

    // Whether the block that so many stand before has an answer. One with more answers than there is room for is taken to have it.
    fn gives(&self, before: usize, answer: &[i32; ANSWER]) -> bool {
        let mut saved = [0i32; ROOM];
        let Some(count) = self.evaluate(before.saturating_add(1), &mut saved) else {
            return true;
        };
        let (answers, _) = saved.as_chunks::<ANSWER>();
        answers.iter().take(count).any(|one| one == answer)
    }

    // Whether the facts are no case without any one of them.
    fn is_bare(&self) -> bool {
        (0..self.facts.len() / FACT).all(|i| !self.is_case_without(i))
    }

    // Whether the facts are a case without fact i.
    fn is_case_without(&self, i: usize) -> bool {
        let mut rest = [0i32; LEAST_ROOM];
        let others = self
            .facts
            .iter()
            .enumerate()
            .filter(|(at, _)| at / FACT != i);
        for (place, (_, word)) in rest.iter_mut().zip(others) {
            *place = *word;
        }
        let n = self.facts.len().saturating_sub(FACT).min(LEAST_ROOM);
        let case = Case {
            table: self.table,
            sheet: self.sheet,
            lines: self.lines,
            facts: &rest[..n],
        };
        case.is_case()
    }
}

// Whether w is a term of a line. An atom's relation is none, and nor is what follows a line's fields.
fn has_term(line: &[i32; LINE_WORDS], w: i32) -> bool {
    let first = if line[1] == ATOM { 3 } else { 2 };
    let last = usize::try_from(line[0]).unwrap_or(0);
    line.iter().enumerate().any(|(field, word)| first <= field && field <= last && *word == w)
}

// Whether a line is a head of a kind up to the last.
fn is_head(line: &[i32; LINE_WORDS], last: i32) -> bool {
    (1..=last).contains(&line[1])
}

// How many lines are heads of kinds up to the last.
fn heads(lines: &[[i32; LINE_WORDS]], last: i32) -> usize
    ensures { result ≤ length lines.now }
{
    lines.iter().filter(|line| is_head(*line, last)).count()
}

// Whether a fact's relation has no parent, or one with the same row.
fn has_parent(numbers: &[usize], facts: &[[i32; FACT]], fact: &[i32; FACT]) -> bool {
    let parent = sheet_terms::parent(numbers, sheet_terms::number(fact[0]));
    parent == 0
        || facts.iter().any(|other| sheet_terms::number(other[0]) == parent
            && &other[1..] == &fact[1..])
}

// Whether two facts are of one relation, which has a key, and alike in it: at most three columns.
fn are_unsettled(numbers: &[usize], before: &[i32; FACT], fact: &[i32; FACT]) -> bool {
    let key = sheet_terms::key(numbers, sheet_terms::number(fact[0]));
    before[0] == fact[0]
        && key != 0
        && before
            .iter()
            .zip(fact)
            .skip(1)
            .take(key.min(3))
            .all(|(a, b)| a == b)
}
