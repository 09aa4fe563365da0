//! What the search's advice keeps of a state: the facts that the tableau's atoms are now, rows that they give the views, and sets of facts.
//!
//! Nothing here is believed: a proposal that is made of it is checked before the search follows it. So no function asks for anything: a fact goes by a
//! `u8`, and there is room for so many.
#![tactic(auto)]

mod advice;
mod kept;
mod sets;

pub use advice::{Advice, Kept, Places, Scope, list_block};
pub use kept::{KeptRows, MOST_KEPT};
use query_layout::{COLUMNS, MADE_UP, NAMES};
use search_slots::SET_WORDS;
pub use sets::{FACT_END, FACT_WORDS, FactSet, Facts, Members, NameSet, RowSet, SmallSet};
use sheet_format::{MOST_ATOMS, MOST_RELATIONS, MOST_VIEWS};
use tableau_layout::{MOST_BLOCKS, PLAN_NUMBERS, SLOTS, VIEW_BLOCKS};

/// A plan, as `tableau_plan` fills it.
pub type Plan = [usize; PLAN_NUMBERS];

/// The words of the slots: for each a constant, its own value or a link.
pub type Words = [usize; SLOTS];

/// The values of a row, 0 in the columns that it does not have.
pub type Row = [u32; COLUMNS];

/// One past the last relation.
pub const RELATIONS: usize = MOST_RELATIONS + 1;

/// The places where a kept row may be found again by its values.
pub const HASHES: usize = 512;

/// The places where a value of a view's column may be found.
pub const KEYS: usize = FACT_END;

/// The places where the first of the values that slots cannot have may be found, by the slot.
pub const FIRSTS: usize = 64;

/// A place for each entry of the search's memory, which goes by a `u8`.
pub const ENTRIES: usize = 256;

/// The pairs of two columns.
pub const COLUMN_PAIRS: usize = 6;

/// The first value that is made up, as rows have it.
pub const FIRST_MADE_UP: u32 = MADE_UP as u32;

// A column has so many sets of facts by their values.
const SHARES: usize = 32;

// An atom of the tableau with its values.
#[derive(Clone, Copy, Debug)]
struct Fact {
    relation: u32,
    values: Row,
}

/// Where a term of the tableau stands: the atom, and the column from 0 on.
#[derive(Clone, Copy, Debug, PartialEq, Eq)]
pub struct Place {
    pub atom: u8,
    pub column: u8,
}

// Where a view's head gets a value from: it is a constant, or stands in a column of the fact that one of the view's atoms is.
#[derive(Clone, Copy, Debug, PartialEq, Eq)]
enum HeadWay {
    Constant(u32),
    At(Place),
}

// Where each value of a view's head comes from.
#[derive(Clone, Copy, Debug)]
struct HeadWays {
    columns: [HeadWay; COLUMNS],
}

/// The names that a block's atoms have, and its head.
#[derive(Clone, Copy, Debug, Default)]
pub struct BlockNames {
    pub atoms: [NameSet; MOST_ATOMS],
    pub head: NameSet,
}

// The facts that may have a value in a column, by the value.
#[derive(Clone, Copy, Debug)]
struct Sharing {
    facts: [FactSet; SHARES],
}

/// The listed rows of a view: all; by the columns in which they have 0, the most columns that a head does not have; and by the pairs of columns in which
/// they have one value.
#[derive(Clone, Copy, Debug, Default)]
pub struct ViewRows {
    pub all: RowSet,
    pub with_zero: [RowSet; COLUMNS],
    pub twins: [RowSet; COLUMN_PAIRS],
}

/// The listed rows by their values: of a view, and those that have the value in a view's column for which a place stands. A place with key 0 is empty.
#[derive(Clone, Copy, Debug)]
pub struct ListedRows {
    pub views: [ViewRows; MOST_VIEWS],
    pub keys: [u32; KEYS],
    pub with_value: [RowSet; KEYS],
}

/// The slots that have a value which they cannot have, and where such values stand in the search's memory: the first for a slot's place, and the next.
#[derive(Clone, Copy, Debug)]
pub struct Struck {
    pub slots: [u64; SET_WORDS],
    pub first: [Option<u8>; FIRSTS],
    pub next: [Option<u8>; ENTRIES],
}

/// Where trials of kept rows stand.
#[derive(Clone, Copy, Debug)]
pub struct Trials {
    /// The kept row to repair where no listed row falls, with the fewest listed rows that are left of it, and those.
    pub best: usize,
    pub least: usize,
    pub hint: RowSet,
    /// Kept rows are tried that fit so many listed rows; the kept row at which trials stand.
    pub count: u8,
    pub kept: usize,
    /// The listed rows that were tried with it: those that may stand, and those that cannot.
    pub stood: RowSet,
    pub fell: RowSet,
    /// How many rows were visited.
    pub looked: u32,
    /// Why the listed row that fell last cannot stand: what is the case where it does.
    pub reason: Advice,
}

/// What advice keeps of a state.
#[derive(Debug, Drop)]
pub struct Board {
    facts: [Fact; FACT_END],
    /// The facts that count; those that were left out as others; those that changed.
    pub alive: FactSet,
    pub folded: FactSet,
    pub changed: FactSet,
    of_relation: [FactSet; RELATIONS],
    by_value: [Sharing; COLUMNS],
    /// Whether a row of a view was lost for want of room; where kept rows may be found by their values.
    pub over: bool,
    pub places: [u16; HASHES],
    /// How many listed rows each kept row fits, if something is to be done there, and the most that one fits.
    pub counts: [Option<u8>; MOST_KEPT],
    pub most_fits: u8,
    pub listed: ListedRows,
    pub struck: Struck,
    names: [BlockNames; MOST_BLOCKS],
    heads: [HeadWays; MOST_VIEWS],
    /// The relations with a key that have atoms, counted from 0.
    pub keyed: SmallSet,
    /// For a slot its atom, and the place whose value it takes when its facts are left out; the slots whose values other slots share, which are looked
    /// for once a key has made slots share one.
    atom_of: [u8; SLOTS],
    pub targets: [Option<Place>; SLOTS],
    taken: [u64; SET_WORDS],
    pub has_links: bool,
    /// The question's head as it was last noted.
    pub asked_head: Row,
    pub is_started: bool,
    /// How often a fact may still be tried.
    pub budget: u32,
    pub failures: u32,
    pub trials: Trials,
    /// Rows of views that are kept. They stand last: where other arrays follow them, the compiler builds a second board.
    pub kept: KeptRows,
}

// ---- values and rows

/// A number as rows have it: its last 32 digits.
pub fn narrow(x: usize) -> u32 {
    (x % 4294967296) as u32
}

/// The fact that is atom i of the tableau.
pub fn fact_name(i: usize) -> u8 {
    (i % FACT_END) as u8
}

/// The slot whose own value v is, if it is made up.
pub fn slot_of(v: u32) -> Option<usize> {
    if v < FIRST_MADE_UP {
        return None;
    }
    Some((v - FIRST_MADE_UP) as usize)
}

/// The values of listed row i.
pub fn listed_row(p: &Plan, i: u8) -> Row {
    tableau_parts::values_at(p, usize::from(i)).map(narrow)
}

/// What v becomes where the row becomes the other: made-up values of the row only.
pub fn moved(row: &Row, to: &Row, v: u32) -> u32 {
    if v < FIRST_MADE_UP {
        return v;
    }
    for (old, new) in row.iter().zip(to) {
        if v == *old {
            return *new;
        }
    }
    v
}

/// A row's values where the row u becomes the other.
pub fn moved_row(u: &Row, to: &Row, row: &Row) -> Row {
    let mut new = *row;
    for v in &mut new {
        *v = moved(u, to, *v);
    }
    new
}

/// The values that atom i of the tableau has.
pub fn atom_row(p: &Plan, ws: &Words, i: usize) -> Row {
    let terms = tableau_parts::tableau_terms(p, i);
    let mut row = [0; COLUMNS];
    for (v, t) in row.iter_mut().zip(&terms) {
        *v = narrow(search_links::place_value(ws, *t));
    }
    row
}

// The value at a term of a block's head, where its names are slots of the question.
fn head_value(ws: &Words, t: usize) -> u32 {
    if t < NAMES {
        return narrow(search_links::root_of(ws, MADE_UP + t));
    }
    narrow(t - NAMES)
}

/// The question's head.
pub fn asked_head(p: &Plan, ws: &Words) -> Row {
    tableau_parts::head_terms(p, 0).map(|t| head_value(ws, t))
}

// The names among four terms; the others are constants.
fn names_of(terms: &[usize; 4]) -> NameSet {
    let mut names = NameSet::new();
    for t in terms {
        if *t < NAMES {
            names.insert(*t as u8);
        }
    }
    names
}

// Where the atoms of block b have the term t first.
fn place_of(p: &Plan, b: usize, t: usize) -> Option<Place> {
    for j in 0..tableau_parts::size_at(p, b).min(MOST_ATOMS) {
        let terms = tableau_parts::atom_terms(p, b, j);
        if let Some(c) = terms.iter().position(|u| *u == t) {
            return Some(Place {
                atom: j as u8,
                column: c as u8,
            });
        }
    }
    None
}

// How the head of block b gets its term t. A head has no name that no atom has.
fn head_way(p: &Plan, b: usize, t: usize) -> HeadWay {
    if NAMES <= t {
        return HeadWay::Constant(narrow(t - NAMES));
    }
    match place_of(p, b, t) {
        Some(place) => HeadWay::At(place),
        None => HeadWay::Constant(0),
    }
}

impl Board {
    /// A board of no state.
    #[inline(always)]
    pub fn new() -> Self {
        Board {
            facts: [Fact {
                relation: 0,
                values: [0; COLUMNS],
            }; FACT_END],
            alive: FactSet::new(),
            folded: FactSet::new(),
            changed: FactSet::new(),
            of_relation: [FactSet::new(); RELATIONS],
            by_value: [Sharing {
                facts: [FactSet::new(); SHARES],
            }; COLUMNS],
            over: false,
            places: [0; HASHES],
            counts: [None; MOST_KEPT],
            most_fits: 0,
            listed: ListedRows {
                views: [ViewRows {
                    all: RowSet::new(),
                    with_zero: [RowSet::new(); COLUMNS],
                    twins: [RowSet::new(); COLUMN_PAIRS],
                }; MOST_VIEWS],
                keys: [0; KEYS],
                with_value: [RowSet::new(); KEYS],
            },
            struck: Struck {
                slots: [0; SET_WORDS],
                first: [None; FIRSTS],
                next: [None; ENTRIES],
            },
            names: [BlockNames {
                atoms: [NameSet::new(); MOST_ATOMS],
                head: NameSet::new(),
            }; MOST_BLOCKS],
            heads: [HeadWays {
                columns: [HeadWay::Constant(0); COLUMNS],
            }; MOST_VIEWS],
            keyed: SmallSet::new(),
            atom_of: [0; SLOTS],
            targets: [None; SLOTS],
            taken: [0; SET_WORDS],
            has_links: false,
            asked_head: [0; COLUMNS],
            is_started: false,
            budget: 0,
            failures: 0,
            trials: Trials {
                best: 0,
                least: 0,
                hint: RowSet::new(),
                count: 0,
                kept: 0,
                stood: RowSet::new(),
                fell: RowSet::new(),
                looked: 0,
                reason: Advice::Nothing,
            },
            kept: KeptRows::new(),
        }
    }

    /// Takes one from the budget; false if nothing is left.
    pub fn spend(&mut self) -> bool {
        if self.budget == 0 {
            return false;
        }
        self.budget -= 1;
        true
    }

    // ---- the facts

    /// The relation of fact i.
    pub fn relation(&self, i: u8) -> usize {
        self.facts[usize::from(i)].relation as usize
    }

    /// The values of fact i.
    pub fn row(&self, i: u8) -> Row {
        self.facts[usize::from(i)].values
    }

    /// The facts that may have a value in column c.
    pub fn sharing(&self, c: usize, value: u32) -> FactSet {
        self.by_value[c % COLUMNS].facts[value as usize % SHARES]
    }

    /// The facts of a relation that count.
    pub fn alive_of(&self, relation: usize) -> FactSet {
        if RELATIONS <= relation {
            return FactSet::new();
        }
        self.alive.and(&self.of_relation[relation])
    }

    /// Those of them that changed.
    pub fn changed_of(&self, relation: usize) -> FactSet {
        self.alive_of(relation).and(&self.changed)
    }

    /// The facts of a relation that count: all, or those that changed.
    pub fn facts_of(&self, relation: usize, scope: Scope) -> FactSet {
        match scope {
            Scope::All => self.alive_of(relation),
            Scope::Changed => self.changed_of(relation),
        }
    }

    // Sets the values of fact i; whether they are others. Inlined, since values that were just written one by one are slow to read back at once.
    #[inline(always)]
    fn set_values(&mut self, i: u8, row: &Row) -> bool {
        let old = self.row(i);
        if old == *row {
            return false;
        }
        for c in 0..COLUMNS {
            if old[c] != row[c] {
                self.by_value[c].facts[old[c] as usize % SHARES].remove(i);
                self.by_value[c].facts[row[c] as usize % SHARES].insert(i);
            }
        }
        self.facts[usize::from(i)].values = *row;
        true
    }

    /// Brings the facts from one on up to the words, and tells which changed.
    pub fn refresh(&mut self, p: &Plan, ws: &Words, from: usize) {
        self.changed = FactSet::new();
        for i in from..tableau_parts::tableau_size(p) {
            let row = atom_row(p, ws, i);
            if self.set_values(fact_name(i), &row) {
                self.changed.insert(fact_name(i));
            }
        }
    }

    /// Brings the facts of a set up to the words.
    pub fn restore(&mut self, p: &Plan, ws: &Words, set: FactSet) {
        for i in set.iter() {
            let row = atom_row(p, ws, usize::from(i));
            self.set_values(i, &row);
        }
    }

    // The facts that may have a made-up value of the row.
    fn facts_with(&self, row: &Row) -> FactSet {
        let mut set = FactSet::new();
        for v in row {
            if FIRST_MADE_UP <= *v {
                for c in 0..COLUMNS {
                    set = set.or(&self.sharing(c, *v));
                }
            }
        }
        set
    }

    /// Lets the facts be those where the row becomes the other, and tells which changed.
    pub fn suppose(&mut self, row: &Row, to: &Row) {
        self.changed = FactSet::new();
        for i in self.facts_with(row).iter() {
            let new = moved_row(row, to, &self.row(i));
            if self.set_values(i, &new) {
                self.changed.insert(i);
            }
        }
    }

    // Whether another fact of its relation that counts has the values of fact i.
    fn is_twice(&self, i: u8) -> bool {
        let row = self.row(i);
        let mut set = self.alive_of(self.relation(i));
        for (c, v) in row.iter().enumerate() {
            set = set.and(&self.sharing(c, *v));
        }
        for k in set.iter() {
            if k != i && self.row(k) == row {
                return true;
            }
        }
        false
    }

    /// Leaves one of facts that are the same: changed ones go first.
    pub fn keep_one(&mut self) {
        for i in self.changed.and(&self.alive).iter() {
            if self.is_twice(i) {
                self.alive.remove(i);
            }
        }
    }

    // ---- slots

    /// Notes the slots whose values other slots share: those that a slot's word leads to.
    pub fn note_links(&mut self, ws: &Words) {
        search_slots::clear(&mut self.taken);
        for (n, word) in ws.iter().enumerate() {
            if MADE_UP <= *word && *word - MADE_UP < n {
                search_slots::add(&mut self.taken, *word - MADE_UP);
            }
        }
    }

    /// Whether other slots share the value of slot n.
    pub fn is_taken(&self, n: usize) -> bool {
        search_slots::has(&self.taken, n)
    }

    // Whether a value is made up and its slot's facts are left out. A value that other slots share is none of those.
    fn is_left_out(&self, v: u32) -> bool {
        match slot_of(v) {
            Some(n) if n < SLOTS => !self.is_taken(n) && self.folded.has(self.atom_of[n]),
            _ => false,
        }
    }

    /// Whether a row has a value of facts that are left out.
    pub fn is_folded(&self, row: &Row) -> bool {
        row.iter().any(|v| self.is_left_out(*v))
    }

    // ---- views and their rows

    /// Kept row k.
    pub fn kept_at(&self, k: usize) -> Kept {
        self.kept.get(k).unwrap_or_default()
    }

    /// How many listed rows kept row k fits, if something is to be done there.
    pub fn count_at(&self, k: usize) -> Option<u8> {
        if MOST_KEPT <= k {
            return None;
        }
        self.counts[k]
    }

    /// The names of atom j of block b.
    pub fn atom_names(&self, b: usize, j: usize) -> NameSet {
        if MOST_BLOCKS <= b || MOST_ATOMS <= j {
            return NameSet::new();
        }
        self.names[b].atoms[j]
    }

    /// The names of the head of block b.
    pub fn head_names(&self, b: usize) -> NameSet {
        if MOST_BLOCKS <= b {
            return NameSet::new();
        }
        self.names[b].head
    }

    // The value that comes from there, where a view's atoms are the facts of a kept row.
    fn value_by(&self, kept: &Kept, way: HeadWay) -> u32 {
        match way {
            HeadWay::Constant(x) => x,
            HeadWay::At(place) => {
                let row = self.row(kept.fact(usize::from(place.atom)));
                row[usize::from(place.column) % COLUMNS]
            }
        }
    }

    /// The row that its facts give a kept row's view.
    pub fn kept_row(&self, kept: &Kept) -> Row {
        let view = usize::from(kept.view);
        if MOST_VIEWS <= view {
            return [0; COLUMNS];
        }
        let mut row = [0; COLUMNS];
        for (v, way) in row.iter_mut().zip(&self.heads[view].columns) {
            *v = self.value_by(kept, *way);
        }
        row
    }

    // ---- the start

    // Notes the names of each block's atoms and of its head.
    fn note_names(&mut self, p: &Plan) {
        for b in 0..MOST_BLOCKS {
            for j in 0..MOST_ATOMS {
                self.names[b].atoms[j] = names_of(&tableau_parts::atom_terms(p, b, j));
            }
            self.names[b].head = names_of(&tableau_parts::head_terms(p, b));
        }
    }

    // Notes atom i: its relation, its slots, and that it counts, if it is one from the given one on. Relations with a key are counted from 0, so that the
    // last has a digit too.
    fn note_atom(&mut self, p: &Plan, from: usize, i: usize) {
        let name = fact_name(i);
        let relation = tableau_parts::tableau_number(p, i, 0);
        self.facts[usize::from(name)].relation = narrow(relation);
        if tableau_parts::key_of(p, relation) != 0 && relation != 0 {
            self.keyed.insert(((relation - 1) % 64) as u8);
        }
        for c in 0..COLUMNS {
            self.by_value[c].facts[0].insert(name);
        }
        if relation < RELATIONS {
            self.of_relation[relation].insert(name);
        }
        if from <= i {
            self.alive.insert(name);
        }
        for t in tableau_parts::tableau_terms(p, i) {
            if t < SLOTS {
                self.atom_of[t] = name;
            }
        }
    }

    // Notes where each view's head gets its values from.
    fn note_head_ways(&mut self, p: &Plan) {
        for v in 0..MOST_VIEWS {
            let b = VIEW_BLOCKS + v;
            self.heads[v].columns = tableau_parts::head_terms(p, b).map(|t| head_way(p, b, t));
        }
    }

    /// Fills a board of no state for a search in the tableau's atoms from one on.
    pub fn begin(&mut self, p: &Plan, from: usize) {
        self.note_names(p);
        for i in 0..tableau_parts::tableau_size(p) {
            self.note_atom(p, from, i);
        }
        self.note_head_ways(p);
    }
}
