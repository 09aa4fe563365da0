// A table of values that slots of the search cannot have, each with the set of slots that this rests on.
#![tactic(auto)]

ghost use Rattle.std.specs.Prelude.{◌≡◌, true, ◌+◌, ◌<◌, ◌≤◌, length, IfSome, Contains};
ghost use Rattle.case_verdicts.specs.Sheets.{top};
ghost use Rattle.search_nogoods.specs.Sizes.{most_values, memory_numbers, memory_words};
ghost use Rattle.search_slots.specs.Slots.{in_set};
ghost use Rattle.search_nogoods.specs.Memory.{memory_set, memory_count, MemoryMore, NotedValue, MemoryLess, ExcludedBy, LearnedValue};
ghost use Rattle.search_nogoods.specs.Parts.{FoundValue, SetStored, ValueMoved};

use query_layout::{COLUMNS, MADE_UP};
use search_slots::SET_WORDS;

/// The table holds at most this many entries: a slot and a value each, then how many there are; and the words of the set that each rests on.
pub const MOST_VALUES: usize = 240;

const MEMORY_COUNT_AT: usize = MOST_VALUES * 2;

pub const MEMORY_NUMBERS: usize = MEMORY_COUNT_AT + 1;

pub const MEMORY_WORDS: usize = MOST_VALUES * SET_WORDS;

/// How many entries there are.
pub fn count(sl: &[usize; MEMORY_NUMBERS]) -> usize
    ensures value { result ≡ memory_count sl.now }
    ensures upper_bound { result ≤ most_values }
{
    sl[MEMORY_COUNT_AT].min(MOST_VALUES)
}

// The set that entry e rests on.
fn set_of(sm: &[u64; MEMORY_WORDS], e: usize) -> &[u64]
    requires { e < most_values }
    ensures { result.now ≡ memory_set sm.now e }
{
    let at = e * SET_WORDS;
    &sm[at..at + SET_WORDS]
}

// Lets entry e rest on a set.
fn put_set(sm: &mut [u64; MEMORY_WORDS], e: usize, set: &[u64; SET_WORDS])
    requires { e < most_values }
    ensures { SetStored sm.old e set.now sm.new }
{
    let at = e * SET_WORDS;
    sm[at..at + SET_WORDS].copy_from_slice(set);
}

/// Notes that slot n cannot have the value w, which rests on the set, if there is room.
pub fn note(
    sl: &mut [usize; MEMORY_NUMBERS],
    sm: &mut [u64; MEMORY_WORDS],
    n: usize,
    w: usize,
    set: &[u64; SET_WORDS],
)
    ensures memory_more { length sl.old ≡ memory_numbers → length sm.old ≡ memory_words → MemoryMore (NotedValue n w set.now) sl.old sm.old sl.new sm.new }
    ensures sl_len_unchanged { length sl.new ≡ length sl.old }
    ensures sm_len_unchanged { length sm.new ≡ length sm.old }
{
    let e = count(sl);
    if MOST_VALUES <= e {
        return;
    }
    sl[e * 2] = n;
    sl[e * 2 + 1] = w;
    sl[MEMORY_COUNT_AT] = e + 1;
    put_set(sm, e, set);
}

// The first entry for slot n and value w, if there is one.
fn find(sl: &[usize; MEMORY_NUMBERS], n: usize, w: usize) -> Option<usize>
    ensures { FoundValue sl.now n w result }
{
    for e in 0..count(sl) {
        if sl[e * 2] == n && sl[e * 2 + 1] == w {
            return Some(e);
        }
    }
    None
}

// Puts an entry in the place of an earlier one, or leaves it in its own.
fn move_entry(
    sl: &mut [usize; MEMORY_NUMBERS],
    sm: &mut [u64; MEMORY_WORDS],
    from: usize,
    to: usize,
)
    requires { (to ≤ from) × (from < most_values) }
    ensures { ValueMoved sl.old sm.old from to sl.new sm.new }
{
    if to == from {
        return;
    }
    sl[to * 2] = sl[from * 2];
    sl[to * 2 + 1] = sl[from * 2 + 1];
    let at = from * SET_WORDS;
    sm.copy_within(at..at + SET_WORDS, to * SET_WORDS);
}

/// Keeps the entries that rest on no slot of the set. Most often nothing has to go, and then nothing is moved.
pub fn forget(
    sl: &mut [usize; MEMORY_NUMBERS],
    sm: &mut [u64; MEMORY_WORDS],
    set: &[u64; SET_WORDS],
)
    ensures memory_less { length sl.old ≡ memory_numbers → length sm.old ≡ memory_words → MemoryLess set.now sl.old sm.old sl.new sm.new }
    ensures sl_len_unchanged { length sl.new ≡ length sl.old }
    ensures sm_len_unchanged { length sm.new ≡ length sm.old }
{
    let n = count(sl);
    let mut kept = 0;
    for e in 0..n {
        if search_slots::meet(set_of(sm, e), set) {
            continue;
        }
        move_entry(sl, sm, e, kept);
        kept += 1;
    }
    sl[MEMORY_COUNT_AT] = kept;
}

// Whether the row's value in column c is one that the slot of u's there cannot have; if so, what that rests on is put into the set.
fn is_excluded_at(
    u: &[usize; 4],
    row: &[usize; 4],
    c: usize,
    sl: &[usize; MEMORY_NUMBERS],
    sm: &[u64; MEMORY_WORDS],
    set: &mut [u64],
) -> bool
    requires { c < 4 }
    ensures { ExcludedBy result u.now row.now sl.now sm.now set.old set.new }
{
    let v = u[c];
    if v < MADE_UP {
        return false;
    }
    let Some(e) = find(sl, v - MADE_UP, row[c]) else {
        return false;
    };
    search_slots::join(set, set_of(sm, e));
    true
}

/// Whether u cannot become the row, as an entry says; if so, what that rests on is put into the set.
pub fn is_excluded(
    u: &[usize; 4],
    row: &[usize; 4],
    sl: &[usize; MEMORY_NUMBERS],
    sm: &[u64; MEMORY_WORDS],
    set: &mut [u64],
) -> bool
    ensures excluded_by { ExcludedBy result u.now row.now sl.now sm.now set.old set.new }
    ensures set_len_unchanged { length set.new ≡ length set.old }
{
    for c in 0..COLUMNS {
        if is_excluded_at(u, row, c, sl, sm, set) {
            return true;
        }
    }
    false
}

// The slot of the first made-up value of u that is in the set, if there is one.
fn first_in(u: &[usize; 4], set: &[u64]) -> Option<usize>
    ensures { IfSome result (λ n. Contains u.now (top + n) × (in_set set.now n ≡ true)) }
{
    u.iter()
        .filter_map(|v| v.checked_sub(MADE_UP))
        .find(|n| search_slots::has(set, *n))
}

/// A failure rests on the words of the slots in `below`, and those of the slots in `changed` are about to be taken back. Where only one of these is in
/// `below`, the slot of a value of u, and its word is a constant, it is this constant that fails there as long as the other words stay: that is noted.
pub fn learn(
    ws: &[usize],
    below: &[u64; SET_WORDS],
    changed: &[u64; SET_WORDS],
    u: &[usize; 4],
    sl: &mut [usize; MEMORY_NUMBERS],
    sm: &mut [u64; MEMORY_WORDS],
)
    ensures memory_more { length sl.old ≡ memory_numbers → length sm.old ≡ memory_words → MemoryMore (LearnedValue ws.now below.now changed.now) sl.old sm.old sl.new sm.new }
    ensures sl_len_unchanged { length sl.new ≡ length sl.old }
    ensures sm_len_unchanged { length sm.new ≡ length sm.old }
{
    let Some(n) = first_in(u, below) else {
        return;
    };
    if ws.len() <= n {
        return;
    }
    let w = ws[n];
    if MADE_UP <= w {
        return;
    }
    let mut rest = *below;
    search_slots::drop(&mut rest, n);
    if search_slots::meet(&rest, changed) {
        return;
    }
    note(sl, sm, n, w, &rest);
}
