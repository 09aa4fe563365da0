//! Two facts that clash in a key: alike in its columns, and not in the others. Nothing here is believed: the search looks at the facts itself.
#![tactic(auto)]

use search_board::{Advice, Board, FIRST_MADE_UP, FactSet, Plan, Row, Scope};

// Whether two rows are alike in the first n columns.
fn are_alike(a: &Row, b: &Row, n: usize) -> bool {
    a.iter().zip(b).take(n).all(|(v, w)| *v == *w)
}

// The facts of a relation that count and may have the row's values in the first n columns.
fn facts_alike(board: &Board, relation: usize, row: &Row, n: usize) -> FactSet {
    let mut set = board.alive_of(relation);
    for (c, v) in row.iter().enumerate().take(n) {
        set = set.and(&board.sharing(c, *v));
    }
    set
}

// Whether two rows have constants that differ, which nothing can mend.
fn are_apart(a: &Row, b: &Row) -> bool {
    a.iter().zip(b).any(|(v, w)| *v < FIRST_MADE_UP && *w < FIRST_MADE_UP && *v != *w)
}

// A fact that is alike with fact i in the first n columns and breaks the key.
fn clashing<F: Fn(&Row, &Row) -> bool>(
    board: &Board,
    relation: usize,
    i: u8,
    n: usize,
    breaks: &F,
) -> Option<u8>
    requires { F.IsAlwaysCallable breaks.now }
{
    let row = board.row(i);
    for k in facts_alike(board, relation, &row, n).iter() {
        let other = board.row(k);
        if are_alike(&row, &other, n) && breaks(&row, &other) {
            return Some(k);
        }
    }
    None
}

// Two facts that clash in a key, one of them of those to look at: they are alike in its columns, and so that they break it.
fn first_clash<F: Fn(&Row, &Row) -> bool>(
    board: &Board,
    p: &Plan,
    scope: Scope,
    breaks: &F,
) -> Option<Advice>
    requires { F.IsAlwaysCallable breaks.now }
{
    for digit in board.keyed.iter() {
        let relation = usize::from(digit) + 1;
        let n = tableau_parts::key_of(p, relation);
        for i in board.facts_of(relation, scope).iter() {
            if let Some(k) = clashing(board, relation, i, n, breaks) {
                return Some(Advice::KeyBroken(i, k));
            }
        }
    }
    None
}

/// Two facts that clash in a key.
pub fn clash(board: &Board, p: &Plan) -> Option<Advice> {
    first_clash(board, p, Scope::All, &|a: &Row, b: &Row| *a != *b)
}

/// Two facts that clash in a key, one of them changed, so that nothing can mend it.
pub fn fatal_clash(board: &Board, p: &Plan) -> Option<Advice> {
    first_clash(board, p, Scope::Changed, &are_apart)
}
