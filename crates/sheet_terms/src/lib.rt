// Terms and relations of a sheet, by their numbers.
#![tactic(auto)]

ghost use Rattle.std.specs.Prelude.{◌≡◌, ◌+◌, ◌*◌, ◌<◌, ◌≤◌, min, get_or};
ghost use Rattle.sheet_format.specs.Limits.{most_columns, relation_number_count};
ghost use Rattle.sheet_format.specs.Cause.{term_of};
ghost use Rattle.sheet_format.specs.Line.{natural};
ghost use Rattle.sheet_format.specs.Returns.{term_in};
ghost use Rattle.sheet_format.specs.Table.{columns_of, relation, table_in, ten};

use sheet_format::{
    CONSTANT_END, MOST_COLUMNS, OWN_TABLE, RELATION_NUMBERS, TABLE_NUMBERS, Term, VARIABLES,
};

const LAST_VARIABLE: i32 = -VARIABLES;

/// What a number stands for as a term; a variable's index is its number negated. None where it is out of range.
pub fn term_of(t: i32) -> Option<Term>
    ensures { term_in result ≡ term_of t }
{
    if t < 0 {
        if t < LAST_VARIABLE {
            return None;
        }
        return Some(Term::Variable((-t) as usize));
    }
    if t < CONSTANT_END {
        return Some(Term::Constant(t as usize));
    }
    None
}

// Number j of the relation at place n of a table, both from 0; 0 past the table's end.
fn number_in(table: &[usize], n: usize, j: usize) -> usize
    ensures { j < relation_number_count → result ≡ get_or table.now (n * relation_number_count + j) 0 }
{
    if table.len() / RELATION_NUMBERS < n {
        return 0;
    }
    let at = n * RELATION_NUMBERS;
    if table.len() <= at || table.len() - at <= j {
        return 0;
    }
    table[at + j]
}

// A number of columns, cut at as many as a fact has values.
fn cut(n: usize) -> usize
    ensures { result ≡ min most_columns n }
{
    n.min(MOST_COLUMNS)
}

/// The columns of a relation in a table, 0 where there is no such relation.
pub fn columns(table: &[usize], relation: i32) -> usize
    ensures { result ≡ columns_of (table_in table.now) relation }
{
    if relation < 1 {
        return 0;
    }
    let n = relation as usize;
    cut(number_in(table, n - 1, 0))
}

/// How many of a relation's columns settle the others, 0 where it has no key.
pub fn key(table: &[usize], number: usize) -> usize
    ensures { (result ≡ (relation (table_in table.now) number).key) × (result ≤ most_columns) }
{
    if number == 0 {
        return 0;
    }
    cut(number_in(table, number - 1, 1))
}

/// The relation that has each row of a relation, 0 where there is none.
pub fn parent(table: &[usize], number: usize) -> usize
    ensures { result ≡ (relation (table_in table.now) number).parent }
{
    if number == 0 {
        return 0;
    }
    number_in(table, number - 1, 2)
}

/// The library's own table in plain numbers.
pub fn own_table() -> [usize; TABLE_NUMBERS]
    ensures { table_in result ≡ ten }
{
    OWN_TABLE
}

/// A word as a plain number; a negative one as 0.
pub fn number(word: i32) -> usize
    ensures { result ≡ natural word }
{
    word.max(0) as usize
}
