// Facts in words, five a fact: its relation and its values, filled up with 0. Why they are sent back, and accepted ones as plain numbers.
#![tactic(auto)]

ghost use Rattle.std.specs.Prelude.{◌≡◌, ◌||◌, [], ◌+◌, ◌/◌, ◌≤◌, ◌<◌, length, get_or, take};
ghost use Rattle.std.proofs.Math.Seq.{slice};
ghost use Rattle.sheet_format.specs.Returns.{refusal_in};
ghost use Rattle.sheet_format.specs.Table.{Table, table_in};
ghost use Rattle.sheet_format.specs.Cause.{above};
ghost use Rattle.sheet_format.specs.Line.{all, natural, null};
ghost use Rattle.query_meaning.specs.Facts.{fact_words, fact_by_fact, facts_in, facts_refusal, log_of, wrong_fact};
ghost use Rattle.query_encoding.specs.Encoding.{FactNumbers};
ghost use Rattle.query_facts.specs.Parts.{fact_before, in_range};

use query_meaning::{FACT_WORDS, MOST_FACTS, VALUE_END};
use sheet_format::{Cause, Refusal};

const MOST_FACT_WORDS: usize = MOST_FACTS * FACT_WORDS;

// An unused word is 0.
const UNUSED_END: i32 = 1;

// The words from one place up to another are 0 or more, and below an end.
fn all_in_range(fs: &[i32], from: usize, to: usize, end: i32) -> bool
    requires { (from ≤ to) × (to ≤ length fs.now) }
    ensures { result ≡ all (in_range end) (slice from to fs.now) }
{
    for i in from..to {
        let word = fs[i];
        if word < 0 {
            return false;
        }
        if end <= word {
            return false;
        }
    }
    true
}

// Fact i has a wrong relation, value or unused word.
fn is_wrong(table: &[usize], fs: &[i32], i: usize) -> bool
    requires { i < length fs.now / fact_words }
    ensures { result ≡ wrong_fact (table_in table.now) (get_or (facts_in fs.now) i []) }
{
    let at = FACT_WORDS * i;
    let columns = sheet_terms::columns(table, fs[at]);
    if columns == 0 {
        return true;
    }
    let unused = at + 1 + columns;
    if !all_in_range(fs, at + 1, unused, VALUE_END) {
        return true;
    }
    !all_in_range(fs, unused, at + FACT_WORDS, UNUSED_END)
}

// Fact i + 1 is above fact i, compared word by word from the first.
fn is_above(fs: &[i32], i: usize) -> bool
    requires { i + 1 < length fs.now / fact_words }
    ensures { result ≡ above (get_or (facts_in fs.now) i []) (get_or (facts_in fs.now) (i + 1) []) }
{
    let at = FACT_WORDS * i;
    let next = at + FACT_WORDS;
    for j in 0..FACT_WORDS {
        let x = fs[at + j];
        let y = fs[next + j];
        if x < y {
            return true;
        }
        if y < x {
            return false;
        }
    }
    false
}

// Fact i is the first, or above the one before it.
fn in_order(fs: &[i32], i: usize) -> bool
    requires { i < length fs.now / fact_words }
    ensures { result ≡ (null (fact_before (facts_in fs.now) i) || above (fact_before (facts_in fs.now) i) (get_or (facts_in fs.now) i [])) }
{
    if i == 0 {
        return true;
    }
    is_above(fs, i - 1)
}

// The refusal of the first fact that has a cause.
fn by_facts(table: &[usize], fs: &[i32]) -> Result<(), Refusal>
    ensures { refusal_in result ≡ fact_by_fact (table_in table.now) [] (facts_in fs.now) }
{
    for i in 0..fs.len() / FACT_WORDS {
        if is_wrong(table, fs, i) {
            return Err(Refusal {
                cause: Cause::BadFact,
                line: 0,
            });
        }
        if !in_order(fs, i) {
            return Err(Refusal {
                cause: Cause::FactOrder,
                line: 0,
            });
        }
    }
    Ok(())
}

/// Why facts are sent back, by a table of relations: the word count, then fact by fact.
pub fn refusal(table: &[usize], fs: &[i32]) -> Result<(), Refusal>
    ensures { refusal_in result ≡ facts_refusal (table_in table.now) fs.now }
{
    if fs.len() % FACT_WORDS != 0 {
        return Err(Refusal {
            cause: Cause::BadFact,
            line: 0,
        });
    }
    if MOST_FACT_WORDS < fs.len() {
        return Err(Refusal {
            cause: Cause::FactOrder,
            line: 0,
        });
    }
    by_facts(table, fs)
}

// Facts that a table accepts as plain numbers, in the first fs.len() of the given ones. Nothing is written where those are too few.
pub fn numbers(fs: &[i32], ns: &mut [usize])
    ensures fact_numbers { (t : Table) → (facts_refusal t fs.now).number ≡ 0 → length fs.now ≤ length ns.old → FactNumbers (take (length fs.now) ns.new) (log_of t fs.now) }
    ensures ns_unchanged { length ns.old < length fs.now → ns.new ≡ ns.old }
{
    if ns.len() < fs.len() {
        return;
    }
    for i in 0..fs.len() {
        ns[i] = sheet_terms::number(fs[i]);
    }
}
