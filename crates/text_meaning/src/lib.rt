// What the definition of a text's meaning (specs/) and its reader share: where reading stands, what is expected there, and a token's mark.
#![tactic(auto)]

mod number;

/// The columns of a head, a row or an atom, at most.
pub const MOST_COLUMNS: usize = 4;

/// The relations that have names.
pub const NAMED_RELATIONS: usize = 10;

/// The place in a line of the text.
#[derive(Clone, Copy, PartialEq, Eq, Debug)]
pub enum Place {
    /// At the start of a line.
    Start,
    /// In a comment.
    Comment,
    /// Before a head's or an atom's bracket.
    Open,
    /// Behind a bracket, where a head or a row may close at once.
    First,
    /// Before a term.
    Term,
    /// Behind a term.
    Next,
    /// Behind a head.
    Colon,
    /// Before a relation.
    Relation,
    /// Behind an atom.
    AtomEnd,
    /// Behind "=".
    Rows,
    /// Before a row.
    Row,
    /// Behind a row.
    RowEnd,
}

/// What is expected where a token does not fit.
#[derive(Clone, Copy, PartialEq, Eq, Debug)]
pub enum Expected {
    /// The question's letter.
    Question = 1,
    /// The letter of a saved list.
    List = 2,
    /// A view's letter, or behind a list that of one more.
    View = 3,
    /// "(".
    Open = 4,
    /// A term or ")".
    First = 5,
    /// A term.
    Term = 6,
    /// "," or ")".
    Next = 7,
    /// ":".
    Colon = 8,
    /// A relation.
    Relation = 9,
    /// As many columns as the relation has.
    Columns = 10,
    /// At most four columns.
    Fewer = 11,
    /// "," or the end of the line.
    AtomEnd = 12,
    /// "," or "=" and the rows.
    Rows = 13,
    /// A row or the end of the line.
    FirstRow = 14,
    /// A row.
    Row = 15,
    /// What may stand behind a row without brackets: ",", ";" or the end of the line.
    Bare = 16,
    /// ";" or the end of the line.
    RowEnd = 17,
    /// A text that is not too long.
    Shorter = 18,
}

/// A token as the machine sees it.
#[derive(Clone, Copy, PartialEq, Eq, Debug)]
pub struct Mark {
    /// The kind of its first byte.
    pub kind: u8,
    /// That byte, where the token has no other.
    pub letter: Option<u8>,
    /// A number's value, or the relation that a word in capitals names, 0 where there is none.
    pub value: usize,
}

/// Where reading stands.
#[derive(Clone, Copy, PartialEq, Eq, Debug)]
pub struct Standing {
    /// The place in the line.
    pub place: Place,
    /// The kind of the block, 0 before the first.
    pub block: usize,
    /// The kind of the last line of the number form, 0 before the first.
    pub kind: usize,
    /// That line's relation.
    pub relation: usize,
    /// How many of its columns may still come.
    pub left: usize,
    /// Whether it is a row without brackets.
    pub bare: bool,
    /// Whether the last token began that line.
    pub begins: bool,
    /// Whether the last token put a field into it.
    pub puts: bool,
}
