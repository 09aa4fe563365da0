// Sets of slots of the search, in words: slot n is digit n % 64 of word n / 64.
//
// Missing words count as full: a slot beyond the words is in every set. So no reason loses a slot for want of words, and each function takes slices
// of any length.
#![tactic(auto)]

ghost use Rattle.std.specs.Prelude.{◌≡◌, ◌<◌, ◌^◌, length};
ghost use Rattle.search_slots.specs.Slots.{set_words, set_word, word_less, in_set, EmptySet, SetPut, SetWith, SetWithout, SetJoined, SetLess, SetsMeet};

use tableau_layout::SLOTS;

/// Words with a digit for each slot.
pub const SET_WORDS: usize = SLOTS / 64 + 1;

/// A set with no slot.
pub fn none() -> [u64; SET_WORDS]
    ensures { EmptySet set_words result }
{
    [0u64; SET_WORDS]
}

// Word w of a set.
fn word(set: &[u64], w: usize) -> u64
    ensures { result ≡ set_word set.now w }
{
    set.get(w).copied().unwrap_or(u64::MAX)
}

// The word whose one digit is digit j.
fn bit(j: usize) -> u64
    requires { j < 64 }
    ensures { result ≡ 2 ^ j }
{
    1u64 << j
}

// The digits of a that b lacks: those of b are set first, so that turning them over clears them.
fn less(a: u64, b: u64) -> u64
    ensures { result ≡ word_less a b }
{
    (a | b) ^ b
}

/// Tells whether a set has slot n.
pub fn has(set: &[u64], n: usize) -> bool
    ensures { result ≡ in_set set.now n }
{
    (word(set, n / 64) >> (n % 64)) & 1 == 1
}

/// Leaves no slot in the set.
pub fn clear(set: &mut [u64])
    ensures { EmptySet (length set.old) set.new }
{
    set.fill(0);
}

/// Leaves the slots of the others in the set, and no more.
pub fn put(set: &mut [u64], others: &[u64])
    ensures { SetPut set.old others.now set.new }
{
    for (w, x) in set.iter_mut().enumerate() {
        *x = word(others, w);
    }
}

/// Puts slot n into the set.
pub fn add(set: &mut [u64], n: usize)
    ensures { SetWith set.old n set.new }
{
    let w = n / 64;
    if w < set.len() {
        set[w] |= bit(n % 64);
    }
}

/// Takes slot n out of the set, unless it is past the words.
pub fn drop(set: &mut [u64], n: usize)
    ensures { SetWithout set.old n set.new }
{
    let w = n / 64;
    if w < set.len() {
        set[w] = less(set[w], bit(n % 64));
    }
}

/// Puts the slots of the others into the set.
pub fn join(set: &mut [u64], others: &[u64])
    ensures { SetJoined set.old others.now set.new }
{
    for (w, x) in set.iter_mut().enumerate() {
        *x |= word(others, w);
    }
}

/// Takes the slots of the others out of the set, but for those past its words.
pub fn subtract(set: &mut [u64], others: &[u64])
    ensures { SetLess set.old others.now set.new }
{
    for (w, x) in set.iter_mut().enumerate() {
        *x = less(*x, word(others, w));
    }
}

/// Whether a slot in the words of a is in both sets.
pub fn meet(a: &[u64], b: &[u64]) -> bool
    ensures { SetsMeet result a.now b.now }
{
    for (w, x) in a.iter().enumerate() {
        if less(*x, word(b, w)) != *x {
            return true;
        }
    }
    false
}
