//! Sets of facts, and of numbers below 64.

ghost use Rattle.std.specs.Prelude.{ℕ, ◌+◌, ◌-◌, ◌<◌, ◌≤◌, IfSome};
ghost use Rattle.std.specs.Iterator.{at_most};

use tableau_layout::TABLEAU_ATOMS;

/// The words with a digit for each atom of the tableau.
pub const FACT_WORDS: usize = TABLEAU_ATOMS / 64 + 1;

/// One past the last fact that a set may have. A fact is an atom of the tableau with its values, and goes by the atom's number.
pub const FACT_END: usize = FACT_WORDS * 64;

/// A set of facts.
#[derive(Clone, Copy, Debug, Default, PartialEq, Eq)]
pub struct FactSet {
    words: [u64; FACT_WORDS],
}

impl FactSet {
    /// The set with no fact.
    pub fn new() -> Self {
        FactSet {
            words: [0; FACT_WORDS],
        }
    }

    /// Whether fact i is in the set.
    pub fn has(&self, i: u8) -> bool {
        (self.words[usize::from(i) / 64] >> (i % 64)) & 1 == 1
    }

    /// Puts fact i into the set.
    pub fn insert(&mut self, i: u8) {
        self.words[usize::from(i) / 64] |= 1 << (i % 64);
    }

    /// Takes fact i out of the set.
    pub fn remove(&mut self, i: u8) {
        self.words[usize::from(i) / 64] &= !(1 << (i % 64));
    }

    /// The facts of both sets.
    pub fn and(&self, others: &FactSet) -> FactSet {
        let mut words = self.words;
        for (a, b) in words.iter_mut().zip(&others.words) {
            *a &= *b;
        }
        FactSet { words }
    }

    /// The facts that one of the sets has.
    pub fn or(&self, others: &FactSet) -> FactSet {
        let mut words = self.words;
        for (a, b) in words.iter_mut().zip(&others.words) {
            *a |= *b;
        }
        FactSet { words }
    }

    /// The facts of the set, from the first on.
    pub fn iter(self) -> Facts {
        Facts { set: self, next: 0 }
    }

    // The first fact from i on.
    fn first_from(&self, i: usize) -> Option<u8>
        ensures { IfSome result (λ k. i ≤ k) }
    {
        if FACT_END <= i {
            return None;
        }
        let rest = self.words[i / 64] >> (i % 64);
        if rest != 0 {
            return u8::try_from(i + rest.trailing_zeros() as usize).ok();
        }
        for w in i / 64 + 1..FACT_WORDS {
            if self.words[w] != 0 {
                return u8::try_from(64 * w + self.words[w].trailing_zeros() as usize).ok();
            }
        }
        None
    }
}

/// The facts of a set, one by one.
#[derive(Clone, Copy, Debug)]
pub struct Facts {
    set: FactSet,
    next: usize,
}

impl Iterator for Facts {
    type Item = u8;

    ghost remaining = { λ s. at_most (256 - s.next) };

    fn next(&mut self) -> Option<u8> {
        let i = self.set.first_from(self.next)?;
        self.next = usize::from(i) + 1;
        Some(i)
    }
}

/// A set of numbers below 64: listed rows, names of a block, relations from 0 on, or atoms counted from a copy's first.
#[derive(Clone, Copy, Debug, Default, PartialEq, Eq)]
pub struct SmallSet(u64);

/// A set of listed rows.
pub type RowSet = SmallSet;

/// A set of a block's names.
pub type NameSet = SmallSet;

impl SmallSet {
    /// The set with no number.
    pub fn new() -> Self {
        SmallSet(0)
    }

    /// The set of all numbers below 64.
    pub fn all() -> Self {
        SmallSet(u64::MAX)
    }

    /// The set whose one number is i.
    pub fn of(i: u8) -> Self {
        SmallSet(1 << (i % 64))
    }

    /// The numbers as the digits of a word.
    pub fn digits(self) -> u64 {
        self.0
    }

    /// Whether the set has no number.
    pub fn is_empty(self) -> bool {
        self.0 == 0
    }

    /// Whether i is in the set.
    pub fn has(self, i: u8) -> bool {
        (self.0 >> (i % 64)) & 1 == 1
    }

    /// The set with i.
    pub fn with(self, i: u8) -> Self {
        SmallSet(self.0 | (1 << (i % 64)))
    }

    /// The set without i.
    pub fn without(self, i: u8) -> Self {
        SmallSet(self.0 & !(1 << (i % 64)))
    }

    /// Puts i into the set.
    pub fn insert(&mut self, i: u8) {
        self.0 |= 1 << (i % 64);
    }

    /// The numbers of both sets.
    pub fn and(self, others: Self) -> Self {
        SmallSet(self.0 & others.0)
    }

    /// The numbers that one of the sets has.
    pub fn or(self, others: Self) -> Self {
        SmallSet(self.0 | others.0)
    }

    /// The numbers that the others lack.
    pub fn less(self, others: Self) -> Self {
        SmallSet(self.0 & !others.0)
    }

    /// The lowest number.
    pub fn first(self) -> Option<u8> {
        self.iter().next()
    }

    /// How many numbers the set has.
    pub fn count(self) -> usize {
        self.0.count_ones() as usize
    }

    /// The numbers of the set, from the lowest on.
    pub fn iter(self) -> Members {
        Members { set: self, next: 0 }
    }
}

/// The numbers of a small set, one by one.
#[derive(Clone, Copy, Debug)]
pub struct Members {
    set: SmallSet,
    next: u32,
}

impl Iterator for Members {
    type Item = u8;

    ghost next_gives = { λ s r t. IfSome r (λ k. k < 64) };

    ghost remaining = { λ s. at_most (64 - s.next) };

    fn next(&mut self) -> Option<u8> {
        if 64 <= self.next {
            return None;
        }
        let i = self.next + (self.set.0 >> self.next).trailing_zeros();
        if 64 <= i {
            return None;
        }
        self.next = i + 1;
        Some(i as u8)
    }
}
