// Facts as bytes, put at a place of a buffer, by a table of relations in plain numbers.
#![tactic(auto)]

ghost use Rattle.std.specs.Prelude.{cond, ◌++◌, eqb};
ghost use Rattle.sheet_format.specs.Table.{table_in};
ghost use Rattle.text_buffer.specs.Puts.{Put};
ghost use Rattle.text_buffer.specs.Words.{bytes};
ghost use Rattle.text_writer.specs.Texts.{fact_bytes, facts_bytes};

use sheet_format::TABLE_NUMBERS;
use text_buffer::put;
use text_writer::{natural, put_relation, put_terms};

// The words of a fact.
const FACT: usize = 5;

/// Puts the first facts, as many as are counted and there.
pub fn put_facts(
    table: &[usize; TABLE_NUMBERS],
    out: &mut [u8],
    at: usize,
    facts: &[i32],
    count: usize,
) -> usize
    ensures { Put out.old out.new at (facts_bytes (table_in table.now) count facts.now) result }
{
    let (facts, _) = facts.as_chunks::<FACT>();
    let shown = &facts[..count.min(facts.len())];
    let mut n = at;
    for (i, fact) in shown.iter().enumerate() {
        n = put_next_fact(table, out, n, fact, i);
    }
    n
}

// The fact at i, after a comma where it is not the first.
fn put_next_fact(
    table: &[usize; TABLE_NUMBERS],
    out: &mut [u8],
    at: usize,
    fact: &[i32; FACT],
    i: usize,
) -> usize
    ensures { Put out.old out.new at (cond (eqb i 0) (fact_bytes (table_in table.now) fact.now) (bytes ", " ++ fact_bytes (table_in table.now) fact.now)) result }
{
    if i == 0 {
        return put_fact(table, out, at, fact);
    }
    let n = put(out, at, b", ");
    put_fact(table, out, n, fact)
}

// A relation with a term for each of its columns.
fn put_fact(table: &[usize; TABLE_NUMBERS], out: &mut [u8], at: usize, fact: &[i32; FACT]) -> usize
    ensures { Put out.old out.new at (fact_bytes (table_in table.now) fact.now) result }
{
    let relation = fact[0];
    let columns = sheet_terms::columns(table, relation).min(4);
    let n = put_relation(out, at, natural(relation));
    put_terms(out, n, &fact[1..1 + columns])
}
