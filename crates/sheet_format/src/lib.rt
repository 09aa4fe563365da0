// What the sheet's definitions (specs/) and the calls share: the limits, each behind one name, and the types: kinds, causes and refusals.
#![tactic(auto)]

ghost use Rattle.std.specs.Prelude.{◌≡◌};
ghost use Rattle.sheet_format.specs.Returns.{cause_number};

/// A sheet's bytes, at most.
pub const MOST_SHEET_BYTES: usize = 8192;

/// The number form's words, at most, and the room that reading wants.
pub const MOST_WORDS: usize = 749;

/// The bytes that writing wants lent.
pub const MOST_BYTES: usize = 5243;

/// The bytes of a field.
pub const FIELD_BYTES: usize = 8;

/// The words of a line in the number form: the field count, then the fields, unused ones 0.
pub const LINE_WORDS: usize = 7;

/// The most fields of a line.
pub const MOST_FIELDS: usize = 6;

/// What fits a field is above this, a minus and seven digits,
pub const FIELD_MINUS_END: i32 = -10_000_000;

/// and below this, eight digits.
pub const FIELD_END: i32 = 100_000_000;

/// The most fields of a head or a row.
pub const MOST_HEAD_FIELDS: usize = 5;

/// The least fields of an atom.
pub const LEAST_ATOM_FIELDS: usize = 3;

/// Constants are 0 and up, below this.
pub const CONSTANT_END: i32 = 10_000_000;

/// Variables are -1 down to minus this.
pub const VARIABLES: i32 = 12;

/// How many relations the library's own table has.
pub const OWN_RELATIONS: usize = 10;

/// The most atoms of the question or a list.
pub const MOST_ATOMS: usize = 6;

/// The most atoms of a view.
pub const MOST_VIEW_ATOMS: usize = 3;

/// The most lists.
pub const MOST_LISTS: usize = 4;

/// The most views.
pub const MOST_VIEWS: usize = 8;

/// The most rows, of all views together.
pub const MOST_ROWS: usize = 40;

/// The most lines of a table of relations.
pub const MOST_RELATIONS: usize = 32;

/// The fields of each of them: number, columns, key, parent.
pub const TABLE_FIELDS: usize = 4;

/// The most columns of a relation.
pub const MOST_COLUMNS: usize = 4;

/// A relation as plain numbers: its columns, key and parent.
pub const RELATION_NUMBERS: usize = 3;

/// The plain numbers of a table, 0 past its last relation.
pub const TABLE_NUMBERS: usize = MOST_RELATIONS * RELATION_NUMBERS;

/// The library's own table: Rower, Strap, Worn, Sig, Beat, Noise, Pulse, Coach, Seat, Pause. In a log that counts, rows alike in a relation's key are alike in all
/// columns, and a relation's parent has each of its rows: a strap has one rower in a session and one rate at a tick, and beats and noise are signals.
pub const OWN_TABLE: [usize; TABLE_NUMBERS] = [
    2, 0, 0, 1, 0, 0, 3, 2, 0, 2, 0, 0, 2, 0, 4, 2, 0, 4, 3, 2, 0, 2, 0, 0, 4, 0, 0, 1, 0, 0, 0, 0,
    0, 0, 0, 0, 0, 0, 0, 0, 0, 0, 0, 0, 0, 0, 0, 0, 0, 0, 0, 0, 0, 0, 0, 0, 0, 0, 0, 0, 0, 0, 0, 0,
    0, 0, 0, 0, 0, 0, 0, 0, 0, 0, 0, 0, 0, 0, 0, 0, 0, 0, 0, 0, 0, 0, 0, 0, 0, 0, 0, 0, 0, 0, 0, 0,
];

/// The lines of an accepted sheet, at most: this follows from the limits above.
pub const MOST_LINES: usize = 107;

/// The kinds of a line, and of a block by its head, as words have them: the numbers of `Kind`.
pub const QUESTION_KIND: usize = 1;

/// A list's head.
pub const SAVED_KIND: usize = 2;

/// A view's head.
pub const VIEW_KIND: usize = 3;

/// An atom.
pub const ATOM_KIND: usize = 4;

/// A listed row.
pub const ROW_KIND: usize = 5;

/// The kind of a line, and of a block by its head.
#[derive(Clone, Copy, PartialEq, Eq, Debug)]
pub enum Kind {
    Question,
    Saved,
    View,
    Atom,
    Row,
}

/// Why a sheet, facts, a set of sheets or a table is sent back, or that too little room is lent.
#[derive(Clone, Copy, PartialEq, Eq, Debug)]
pub enum Cause {
    /// More bytes or words than there may be.
    TooLong,
    /// A line that is no fields, or words that are no lines.
    Malformed,
    /// A line that its kind does not allow at its place.
    Misplaced,
    /// A relation that the table does not have, or not with so many columns.
    WrongColumns,
    /// A term out of range, or a variable in a row.
    OutOfRange,
    /// More atoms, lists, views or rows than there may be.
    TooMany,
    /// A list's head not as long as the question's, or a row not as long as its view's.
    WrongLength,
    /// A head without atoms, or with a variable that none of its atoms has.
    UnsafeHead,
    /// A row that is not above the one before it.
    NotAbove,
    /// The sheet has no such block.
    NoBlock,
    /// A wrong word count, relation, value or unused word of facts.
    BadFact,
    /// Too many facts, or one that is not above the one before it.
    FactOrder,
    /// Too little room is lent.
    NoRoom,
    /// Ends that do not part a run of bytes into sheets, or into too many.
    WrongEnds,
    /// A table's line that is not right, or a table without lines.
    WrongTable,
}

impl Cause {
    /// The cause's number, as C, pages and the documents have it: 1 to 15.
    pub fn number(self) -> usize
        ensures { result ≡ cause_number self }
    {
        match self {
            Cause::TooLong => 1,
            Cause::Malformed => 2,
            Cause::Misplaced => 3,
            Cause::WrongColumns => 4,
            Cause::OutOfRange => 5,
            Cause::TooMany => 6,
            Cause::WrongLength => 7,
            Cause::UnsafeHead => 8,
            Cause::NotAbove => 9,
            Cause::NoBlock => 10,
            Cause::BadFact => 11,
            Cause::FactOrder => 12,
            Cause::NoRoom => 13,
            Cause::WrongEnds => 14,
            Cause::WrongTable => 15,
        }
    }
}

/// The cause, and the line, counted from 1, or 0 where none is named.
#[derive(Clone, Copy, PartialEq, Eq, Debug)]
pub struct Refusal {
    pub cause: Cause,
    pub line: usize,
}

/// What the bytes of a field so far are: blanks, a minus, a number with its sign, or no field.
#[derive(Clone, Copy, PartialEq, Eq, Debug)]
pub enum Digits {
    Blank,
    Minus,
    Run(bool, usize),
    Broken,
}

/// What a number stands for as a term: a constant, or a variable by its index from 1.
#[derive(Clone, Copy, PartialEq, Eq, Debug)]
pub enum Term {
    Constant(usize),
    Variable(usize),
}

/// What a line's place goes by: the kind of the block and of the line before, the block's atoms, the lists, views and rows so far, the lengths
/// of the question's head and of the block's.
#[derive(Clone, Copy, Default, PartialEq, Eq, Debug)]
pub struct Seen {
    pub block: Option<Kind>,
    pub last: Option<Kind>,
    pub atoms: usize,
    pub lists: usize,
    pub views: usize,
    pub rows: usize,
    pub asked: usize,
    pub columns: usize,
}
