//! What is advised, and of what it is made.

use crate::RowSet;
use sheet_format::{MOST_ATOMS, MOST_VIEW_ATOMS};
use tableau_layout::{LIST_BLOCKS, VIEW_BLOCKS};

/// The facts to look at: all that count, or of these the ones that changed.
#[derive(Clone, Copy, Debug, PartialEq, Eq)]
pub enum Scope {
    All,
    Changed,
}

/// The facts that the atoms of a block are.
pub type Places = [u8; MOST_ATOMS];

/// A row of a view, by the facts that the view's atoms are.
#[derive(Clone, Copy, Debug, Default, PartialEq, Eq)]
pub struct Kept {
    pub view: u8,
    pub facts: [u8; MOST_VIEW_ATOMS],
}

impl Kept {
    /// A row of a view whose atoms are no facts yet.
    pub fn new(view: u8) -> Self {
        Kept {
            view,
            facts: [0; MOST_VIEW_ATOMS],
        }
    }

    /// The fact that atom j is.
    pub fn fact(&self, j: usize) -> u8 {
        if j < MOST_VIEW_ATOMS {
            return self.facts[j];
        }
        0
    }

    /// The row with fact i for atom j.
    pub fn with(self, j: usize, i: u8) -> Self {
        let mut facts = self.facts;
        if j < MOST_VIEW_ATOMS {
            facts[j] = i;
        }
        Kept {
            view: self.view,
            facts,
        }
    }

    /// The view's block.
    pub fn block(&self) -> usize {
        VIEW_BLOCKS + usize::from(self.view)
    }

    /// The facts that the block's atoms are, as atoms of the tableau.
    pub fn atoms(&self) -> [usize; MOST_ATOMS] {
        let mut atoms = [0; MOST_ATOMS];
        for (atom, fact) in atoms.iter_mut().zip(&self.facts) {
            *atom = usize::from(*fact);
        }
        atoms
    }
}

/// What the search is to do next.
#[derive(Clone, Copy, Debug, PartialEq, Eq)]
pub enum Advice {
    /// Nothing is left that advice knows of.
    Nothing,
    /// A list is given the question's head by these facts.
    ListGiven { list: u8, at: Places },
    /// A row of a view is to become a listed one, and some of these first.
    RowGiven { kept: Kept, first: RowSet },
    /// A row of a view cannot become this listed row.
    RowFails { kept: Kept, row: u8 },
    /// Two facts clash in a key.
    KeyBroken(u8, u8),
}

/// The block of a list.
pub fn list_block(list: u8) -> usize {
    LIST_BLOCKS + usize::from(list)
}
