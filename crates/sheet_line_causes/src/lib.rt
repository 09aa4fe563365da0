// What one line of the number form does: seven words, the field count and then six fields, unused ones 0.
#![tactic(auto)]

ghost use Rattle.std.specs.Prelude.{◌≡◌, false, not, ◌&&◌, [], ◌+◌, ◌≤◌, eqb, pos, length, get_or};
ghost use Rattle.std.proofs.Math.Seq.{slice};
ghost use Rattle.sheet_format.specs.Cause.{above, atoms_of, constant, in_place, kind_of, next_by, rest, step_of, term, too_many_blocks};
ghost use Rattle.sheet_format.specs.Cause.Kind.{question, saved, view, atom, row};
ghost use Rattle.sheet_format.specs.Field.{fits};
ghost use Rattle.sheet_format.specs.Line.{all, is_zero, word_line};
ghost use Rattle.sheet_format.specs.Returns.{cause_in, kind_number, seen_of, step_in};
ghost use Rattle.sheet_format.specs.Table.{Table, table_in};
ghost use Rattle.sheet_line_causes.specs.Parts.{cause_by, CountedFields, count_of_fields, fields};

use sheet_format::{
    Cause, FIELD_END, FIELD_MINUS_END, Kind, LEAST_ATOM_FIELDS, LINE_WORDS, MOST_ATOMS,
    MOST_FIELDS, MOST_HEAD_FIELDS, MOST_LISTS, MOST_ROWS, MOST_VIEW_ATOMS, MOST_VIEWS, Seen, Term,
};

// The largest field count, as a word.
const LAST_COUNT: i32 = MOST_FIELDS as i32;

// A word that fits a field.
fn is_narrow(word: i32) -> bool
    ensures { result ≡ fits word }
{
    FIELD_MINUS_END < word && word < FIELD_END
}

// A constant or a variable.
fn is_term(word: i32) -> bool
    ensures { result ≡ term word }
{
    sheet_terms::term_of(word).is_some()
}

// A constant.
fn is_constant(word: i32) -> bool
    ensures { result ≡ constant word }
{
    matches!(sheet_terms::term_of(word), Some(Term::Constant(_)))
}

fn are_terms(words: &[i32]) -> bool
    ensures { result ≡ all term words.now }
{
    words.iter().all(|w| is_term(*w))
}

fn are_constants(words: &[i32]) -> bool
    ensures { result ≡ all constant words.now }
{
    words.iter().all(|w| is_constant(*w))
}

// Every word fits a field.
fn are_narrow(words: &[i32]) -> bool
    ensures { result ≡ all fits words.now }
{
    words.iter().all(|w| is_narrow(*w))
}

// Every word is unused.
fn are_zero(words: &[i32]) -> bool
    ensures { result ≡ all is_zero words.now }
{
    words.iter().all(|w| *w == 0)
}

// A line's first word as a field count; 0 where it is none.
fn field_count(word: i32) -> usize
    ensures { result ≡ count_of_fields word }
{
    if word < 1 || LAST_COUNT < word {
        return 0;
    }
    word as usize
}

// The field count of a line; 0 where it is malformed.
fn count(words: &[i32]) -> usize
    requires { length words.now ≡ 7 }
    ensures { result ≡ length (word_line words.now) }
{
    let n = field_count(words[0]);
    if !are_narrow(&words[1..n + 1]) {
        return 0;
    }
    if !are_zero(&words[n + 1..LINE_WORDS]) {
        return 0;
    }
    n
}

// The question's head: its block comes first.
fn question_cause(g: Seen, words: &[i32], n: usize) -> Result<(), Cause>
    requires { CountedFields words.now n }
    ensures { (t : Table) → cause_in result ≡ cause_by t (seen_of g) [] question (fields n words.now) }
{
    if g.block.is_some() || MOST_HEAD_FIELDS < n {
        return Err(Cause::Misplaced);
    }
    if !are_terms(&words[2..n + 1]) {
        return Err(Cause::OutOfRange);
    }
    Ok(())
}

// A list's head: in the question's block or a list's, and as long as the question's head.
fn saved_cause(g: Seen, words: &[i32], n: usize) -> Result<(), Cause>
    requires { CountedFields words.now n }
    ensures { (t : Table) → cause_in result ≡ cause_by t (seen_of g) [] saved (fields n words.now) }
{
    if !matches!(g.block, Some(Kind::Question | Kind::Saved)) || MOST_HEAD_FIELDS < n {
        return Err(Cause::Misplaced);
    }
    if !are_terms(&words[2..n + 1]) {
        return Err(Cause::OutOfRange);
    }
    if MOST_LISTS <= g.lists {
        return Err(Cause::TooMany);
    }
    if n - 1 != g.asked {
        return Err(Cause::WrongLength);
    }
    Ok(())
}

// A view's head: in a list's block or a view's.
fn view_cause(g: Seen, words: &[i32], n: usize) -> Result<(), Cause>
    requires { CountedFields words.now n }
    ensures { (t : Table) → cause_in result ≡ cause_by t (seen_of g) [] view (fields n words.now) }
{
    if matches!(g.block, None | Some(Kind::Question)) || MOST_HEAD_FIELDS < n {
        return Err(Cause::Misplaced);
    }
    if !are_terms(&words[2..n + 1]) {
        return Err(Cause::OutOfRange);
    }
    if MOST_VIEWS <= g.views {
        return Err(Cause::TooMany);
    }
    Ok(())
}

// The most atoms that a block may have.
fn most_atoms(block: Option<Kind>) -> usize
    ensures { result ≡ atoms_of (kind_number block) }
{
    match block {
        Some(Kind::View) => MOST_VIEW_ATOMS,
        _ => MOST_ATOMS,
    }
}

// An atom stands after a head or an atom.
fn takes_atom(g: Seen) -> bool
    ensures { result ≡ in_place (seen_of g) atom }
{
    !matches!(g.last, None | Some(Kind::Row))
}

// An atom: in its place, with the columns of its relation.
fn atom_cause(table: &[usize], g: Seen, words: &[i32], n: usize) -> Result<(), Cause>
    requires { CountedFields words.now n }
    ensures { cause_in result ≡ cause_by (table_in table.now) (seen_of g) [] atom (fields n words.now) }
{
    if !takes_atom(g) || n < LEAST_ATOM_FIELDS {
        return Err(Cause::Misplaced);
    }
    let columns = sheet_terms::columns(table, words[2]);
    if columns == 0 || columns != n - 2 {
        return Err(Cause::WrongColumns);
    }
    if !are_terms(&words[3..n + 1]) {
        return Err(Cause::OutOfRange);
    }
    if most_atoms(g.block) <= g.atoms {
        return Err(Cause::TooMany);
    }
    Ok(())
}

// The columns of a row, up to the place n, are above those of the row before it, up to the place m: compared from the first.
fn is_above(before: &[i32], m: usize, words: &[i32], n: usize) -> bool
    requires { (m ≤ length before.now) × (n ≤ length words.now) }
    ensures { result ≡ above (slice 2 m before.now) (slice 2 n words.now) }
{
    for i in 2..m {
        if n <= i {
            return false;
        }
        let x = before[i];
        let y = words[i];
        if x < y {
            return true;
        }
        if y < x {
            return false;
        }
    }
    false
}

// A row after a row, and not above it.
fn not_above(last: Option<Kind>, before: &[i32], words: &[i32], n: usize) -> bool
    requires { (length before.now ≡ 7) × CountedFields words.now n }
    ensures { result ≡ (eqb (kind_number last) 5 && not (above (rest (word_line before.now)) (slice 2 (n + 1) words.now))) }
{
    if last != Some(Kind::Row) {
        return false;
    }
    let m = count(before);
    !is_above(before, m + 1, words, n + 1)
}

// A row: after a view's atom or a row, constants only, as long as its head, and above the row before it.
fn row_cause(g: Seen, before: &[i32], words: &[i32], n: usize) -> Result<(), Cause>
    requires { (length before.now ≡ 7) × CountedFields words.now n }
    ensures { (t : Table) → cause_in result ≡ cause_by t (seen_of g) (word_line before.now) row (fields n words.now) }
{
    if g.block != Some(Kind::View)
        || !matches!(g.last, Some(Kind::Atom | Kind::Row))
        || MOST_HEAD_FIELDS < n
    {
        return Err(Cause::Misplaced);
    }
    if !are_constants(&words[2..n + 1]) {
        return Err(Cause::OutOfRange);
    }
    if MOST_ROWS <= g.rows {
        return Err(Cause::TooMany);
    }
    if n - 1 != g.columns {
        return Err(Cause::WrongLength);
    }
    if not_above(g.last, before, words, n) {
        return Err(Cause::NotAbove);
    }
    Ok(())
}

// The cause of a line by the kind that its first field names.
fn line_cause(
    table: &[usize],
    g: Seen,
    before: &[i32],
    words: &[i32],
    n: usize,
) -> Result<(), Cause>
    requires { (length before.now ≡ 7) × CountedFields words.now n }
    ensures { cause_in result ≡ cause_by (table_in table.now) (seen_of g) (word_line before.now) (kind_of (get_or words.now 1 (pos 0))) (fields n words.now) }
{
    let kind = words[1];
    match kind {
        1 => question_cause(g, words, n),
        2 => saved_cause(g, words, n),
        3 => view_cause(g, words, n),
        4 => atom_cause(table, g, words, n),
        5 => row_cause(g, before, words, n),
        -2147483648..=0 | 6..=2147483647 => Err(Cause::Misplaced),
    }
}

// What a line leaves for the next: its first field, and how many follow it.
fn next(g: Seen, kind: i32, n: usize) -> Seen
    requires { too_many_blocks (seen_of g) (kind_of kind) ≡ false }
    ensures { seen_of result ≡ next_by (seen_of g) (kind_of kind) n }
{
    match kind {
        1 => Seen {
            block: Some(Kind::Question),
            last: Some(Kind::Question),
            atoms: 0,
            asked: n,
            columns: n,
            ..g
        },
        2 => Seen {
            block: Some(Kind::Saved),
            last: Some(Kind::Saved),
            atoms: 0,
            lists: g.lists + 1,
            columns: n,
            ..g
        },
        3 => Seen {
            block: Some(Kind::View),
            last: Some(Kind::View),
            atoms: 0,
            views: g.views + 1,
            columns: n,
            ..g
        },
        4 => Seen {
            last: Some(Kind::Atom),
            atoms: g.atoms + 1,
            ..g
        },
        5 => Seen {
            last: Some(Kind::Row),
            rows: g.rows + 1,
            ..g
        },
        -2147483648..=0 | 6..=2147483647 => g,
    }
}

/// What a line does, after the line before it and what the lines so far leave: it goes on to the next line, or is the sheet's cause.
pub fn step(table: &[usize], g: Seen, before: &[i32; 7], l: &[i32; 7]) -> Result<Seen, Cause>
    ensures { step_in result ≡ step_of (table_in table.now) (seen_of g) (word_line before.now) (word_line l.now) }
{
    let n = count(l);
    if n == 0 {
        return Err(Cause::Malformed);
    }
    line_cause(table, g, before, l, n)?;
    Ok(next(g, l[1], n - 1))
}
