// Where reading a text stands after a token: a machine over marks. Each place has its function, as its definition has.
#![tactic(auto)]

ghost use Rattle.std.specs.Prelude.{◌≡◌, ◌≤◌};
ghost use Rattle.text_meaning.specs.Control.{Control};
ghost use Rattle.text_meaning.specs.Numbers.{place_number, expected_number, letter_number, mark_of, control_of, stepped};
ghost use Rattle.text_meaning.specs.Places.{goes, headed, atomed, rowed, bared, termed, after_list, next_block, headed_at, start_at, comment_at, open_at, term_expected, is_counted, columns_in, more_at, closed_by, close_at, first_at, row_end_at, next_at, colon_at, relation_at, atom_end_at, row_expected, any_rows_at, step};

use sheet_format::{ATOM_KIND, QUESTION_KIND, ROW_KIND, SAVED_KIND, VIEW_KIND};
use text_begins::letter;
use text_meaning::{Expected, MOST_COLUMNS, Mark, NAMED_RELATIONS, Place, Standing};

// The same line of the number form, at another place.
fn go(s: Standing, place: Place) -> Standing
    ensures { control_of result ≡ goes (control_of s) (place_number place) }
{
    Standing {
        place,
        begins: false,
        puts: false,
        ..s
    }
}

// A head begins.
fn head(block: usize) -> Standing
    ensures { (c : Control) → control_of result ≡ headed c block }
{
    Standing {
        place: Place::Open,
        block,
        kind: block,
        relation: 0,
        left: MOST_COLUMNS,
        bare: false,
        begins: true,
        puts: false,
    }
}

// How many columns a relation may have.
fn columns(relation: usize) -> usize
    ensures { result ≡ columns_in relation }
{
    if relation <= NAMED_RELATIONS {
        let table = sheet_terms::own_table();
        return sheet_terms::columns(&table, relation as i32);
    }
    MOST_COLUMNS
}

// An atom begins, with its relation.
fn atom(s: Standing, relation: usize) -> Standing
    ensures { control_of result ≡ atomed (control_of s) relation }
{
    Standing {
        place: Place::Open,
        kind: ATOM_KIND,
        relation,
        left: columns(relation),
        bare: false,
        begins: true,
        puts: true,
        ..s
    }
}

// A row begins, behind its bracket.
fn row_in_brackets(s: Standing) -> Standing
    ensures { control_of result ≡ rowed (control_of s) }
{
    Standing {
        place: Place::First,
        kind: ROW_KIND,
        relation: 0,
        left: MOST_COLUMNS,
        bare: false,
        begins: true,
        puts: false,
        ..s
    }
}

// A row without brackets begins, with its first value.
fn bare_row(s: Standing) -> Standing
    ensures { control_of result ≡ bared (control_of s) }
{
    Standing {
        place: Place::Next,
        kind: ROW_KIND,
        relation: 0,
        left: MOST_COLUMNS - 1,
        bare: true,
        begins: true,
        puts: true,
        ..s
    }
}

// One term more.
fn put_term(s: Standing) -> Standing
    ensures { control_of result ≡ termed (control_of s) }
{
    Standing {
        place: Place::Next,
        left: s.left.saturating_sub(1),
        begins: false,
        puts: true,
        ..s
    }
}

// The kind of the block after a list, where its line begins with a letter: a list may follow a list.
fn after_list(first: Option<u8>) -> usize
    ensures is { result ≡ after_list (letter_number first) }
    ensures block { (2 ≤ result) × (result ≤ 3) }
{
    if first == Some(letter(SAVED_KIND)) {
        return SAVED_KIND;
    }
    VIEW_KIND
}

// The kind of the block after one of a kind.
#[tactic(auto, unfolding(text_meaning::specs::Places::next_block))]
fn next_block(block: usize, first: Option<u8>) -> usize
    ensures is { result ≡ next_block block (letter_number first) }
    ensures block { (1 ≤ result) × (result ≤ 3) }
{
    match block {
        0 => QUESTION_KIND,
        1 => SAVED_KIND,
        2 => after_list(first),
        _ => VIEW_KIND,
    }
}

// What is expected where a block of a kind is.
fn expected_block(block: usize) -> Expected
    requires { (1 ≤ block) × (block ≤ 3) }
    ensures { expected_number result ≡ block }
{
    match block {
        QUESTION_KIND => Expected::Question,
        SAVED_KIND => Expected::List,
        _ => Expected::View,
    }
}

// A block's letter alone.
fn block_head(s: Standing, m: Mark, block: usize) -> Result<Standing, Expected>
    requires { (1 ≤ block) × (block ≤ 3) }
    ensures { stepped s result ≡ headed_at (control_of s) (mark_of m) block }
{
    if m.letter == Some(letter(block)) {
        return Ok(head(block));
    }
    Err(expected_block(block))
}

// At the start of a line: a block's letter; empty lines and comments are passed over.
#[tactic(auto, unfolding(text_meaning::specs::Places::start_at))]
fn start(s: Standing, m: Mark) -> Result<Standing, Expected>
    ensures { stepped s result ≡ start_at (control_of s) (mark_of m) }
{
    if m.kind == b'\n' {
        return Ok(go(s, Place::Start));
    }
    if m.kind == b'#' {
        return Ok(go(s, Place::Comment));
    }
    block_head(s, m, next_block(s.block, m.letter))
}

#[tactic(auto, unfolding(text_meaning::specs::Places::comment_at))]
fn comment(s: Standing, m: Mark) -> Result<Standing, Expected>
    ensures { stepped s result ≡ comment_at (control_of s) (mark_of m) }
{
    if m.kind == b'\n' {
        return Ok(go(s, Place::Start));
    }
    Ok(go(s, Place::Comment))
}

// Before a bracket. An atom has terms; a head may have none.
#[tactic(auto, unfolding(text_meaning::specs::Places::open_at))]
fn open(s: Standing, m: Mark) -> Result<Standing, Expected>
    ensures { stepped s result ≡ open_at (control_of s) (mark_of m) }
{
    if m.kind != b'(' {
        return Err(Expected::Open);
    }
    if s.kind == ATOM_KIND {
        return Ok(go(s, Place::Term));
    }
    Ok(go(s, Place::First))
}

// A term: a number or a variable.
#[tactic(auto, unfolding(text_meaning::specs::Places::term_expected))]
fn term(s: Standing, m: Mark, what: Expected) -> Result<Standing, Expected>
    ensures { stepped s result ≡ term_expected (control_of s) (mark_of m) (expected_number what) }
{
    match m.kind {
        b'0' | b'a' => Ok(put_term(s)),
        _ => Err(what),
    }
}

// Whether the last line is an atom whose columns are known.
fn is_counted(s: Standing) -> bool
    ensures { result ≡ is_counted (control_of s) }
{
    s.kind == ATOM_KIND && s.relation <= NAMED_RELATIONS
}

// A comma behind a term: there may be one column more.
#[tactic(auto, unfolding(text_meaning::specs::Places::more_at))]
fn more(s: Standing) -> Result<Standing, Expected>
    ensures { stepped s result ≡ more_at (control_of s) }
{
    if 0 < s.left {
        return Ok(go(s, Place::Term));
    }
    if is_counted(s) {
        return Err(Expected::Columns);
    }
    Err(Expected::Fewer)
}

// Where a closing bracket of a line of a kind leads.
#[tactic(auto, unfolding(text_meaning::specs::Places::closed_by))]
fn close_kind(s: Standing) -> Result<Standing, Expected>
    ensures { stepped s result ≡ closed_by (control_of s) }
{
    if s.kind == ATOM_KIND {
        return Ok(go(s, Place::AtomEnd));
    }
    if s.kind == ROW_KIND {
        return Ok(go(s, Place::RowEnd));
    }
    Ok(go(s, Place::Colon))
}

// A closing bracket.
#[tactic(auto, unfolding(text_meaning::specs::Places::close_at))]
fn close(s: Standing) -> Result<Standing, Expected>
    ensures { stepped s result ≡ close_at (control_of s) }
{
    if is_counted(s) && s.left != 0 {
        return Err(Expected::Columns);
    }
    close_kind(s)
}

// Behind a bracket that may close at once.
#[tactic(auto, unfolding(text_meaning::specs::Places::first_at))]
fn first(s: Standing, m: Mark) -> Result<Standing, Expected>
    ensures { stepped s result ≡ first_at (control_of s) (mark_of m) }
{
    if m.kind == b')' {
        return close(s);
    }
    term(s, m, Expected::First)
}

// Behind a row.
#[tactic(auto, unfolding(text_meaning::specs::Places::row_end_at))]
fn row_end(s: Standing, m: Mark, what: Expected) -> Result<Standing, Expected>
    ensures { stepped s result ≡ row_end_at (control_of s) (mark_of m) (expected_number what) }
{
    if m.kind == b';' {
        return Ok(go(s, Place::Row));
    }
    if m.kind == b'\n' {
        return Ok(go(s, Place::Start));
    }
    Err(what)
}

// Behind a term.
#[tactic(auto, unfolding(text_meaning::specs::Places::next_at))]
fn next(s: Standing, m: Mark) -> Result<Standing, Expected>
    ensures { stepped s result ≡ next_at (control_of s) (mark_of m) }
{
    if m.kind == b',' {
        return more(s);
    }
    if s.bare {
        return row_end(s, m, Expected::Bare);
    }
    if m.kind == b')' {
        return close(s);
    }
    Err(Expected::Next)
}

#[tactic(auto, unfolding(text_meaning::specs::Places::colon_at))]
fn colon(s: Standing, m: Mark) -> Result<Standing, Expected>
    ensures { stepped s result ≡ colon_at (control_of s) (mark_of m) }
{
    if m.kind == b':' {
        return Ok(go(s, Place::Relation));
    }
    Err(Expected::Colon)
}

// An atom's relation.
#[tactic(auto, unfolding(text_meaning::specs::Places::relation_at))]
fn relation(s: Standing, m: Mark) -> Result<Standing, Expected>
    ensures { stepped s result ≡ relation_at (control_of s) (mark_of m) }
{
    if m.kind != b'A' || m.value == 0 {
        return Err(Expected::Relation);
    }
    Ok(atom(s, m.value))
}

// Behind an atom: another; or the block's end, which in a view is "=" and the rows.
#[tactic(auto, unfolding(text_meaning::specs::Places::atom_end_at))]
fn atom_end(s: Standing, m: Mark) -> Result<Standing, Expected>
    ensures { stepped s result ≡ atom_end_at (control_of s) (mark_of m) }
{
    if m.kind == b',' {
        return Ok(go(s, Place::Relation));
    }
    if s.block == VIEW_KIND {
        if m.kind == b'=' {
            return Ok(go(s, Place::Rows));
        }
        return Err(Expected::Rows);
    }
    if m.kind == b'\n' {
        return Ok(go(s, Place::Start));
    }
    Err(Expected::AtomEnd)
}

// A row, in brackets or bare.
#[tactic(auto, unfolding(text_meaning::specs::Places::row_expected))]
fn row(s: Standing, m: Mark, what: Expected) -> Result<Standing, Expected>
    ensures { stepped s result ≡ row_expected (control_of s) (mark_of m) (expected_number what) }
{
    if m.kind == b'(' {
        return Ok(row_in_brackets(s));
    }
    if m.kind == b'0' {
        return Ok(bare_row(s));
    }
    Err(what)
}

// Behind "=": a row, or none.
#[tactic(auto, unfolding(text_meaning::specs::Places::any_rows_at))]
fn rows(s: Standing, m: Mark) -> Result<Standing, Expected>
    ensures { stepped s result ≡ any_rows_at (control_of s) (mark_of m) }
{
    if m.kind == b'\n' {
        return Ok(go(s, Place::Start));
    }
    row(s, m, Expected::FirstRow)
}

/// One token more, by its mark: where reading stands behind it, or what is expected in its place.
#[tactic(auto, unfolding(text_meaning::specs::Places::step, text_meaning::specs::Places::step_from))]
pub fn step(s: Standing, m: Mark) -> Result<Standing, Expected>
    ensures { stepped s result ≡ step (control_of s) (mark_of m) }
{
    match s.place {
        Place::Start => start(s, m),
        Place::Comment => comment(s, m),
        Place::Open => open(s, m),
        Place::First => first(s, m),
        Place::Term => term(s, m, Expected::Term),
        Place::Next => next(s, m),
        Place::Colon => colon(s, m),
        Place::Relation => relation(s, m),
        Place::AtomEnd => atom_end(s, m),
        Place::Rows => rows(s, m),
        Place::Row => row(s, m, Expected::Row),
        Place::RowEnd => row_end(s, m, Expected::RowEnd),
    }
}
