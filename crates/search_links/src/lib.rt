// The state of a search in words with links: a word for each slot.
#![tactic(auto)]

ghost use Rattle.std.specs.Prelude.{◌≡◌, List, ℕ, ◌+◌, ◌<◌, ◌≤◌, length};
ghost use Rattle.tableau_layout.specs.Layout.{slot_end};
ghost use Rattle.case_verdicts.specs.Sheets.{top};
ghost use Rattle.case_verdicts.specs.Search as search;
ghost use Rattle.case_verdicts.specs.Words.{state_of};
ghost use Rattle.search_links.specs.Links.{root, place_root};
ghost use Rattle.search_links.specs.Steps.{RootValues, WrittenBy, MergedBy, Others, MetBy, EquatedBy, Freed};

use query_layout::{COLUMNS, MADE_UP};
use tableau_layout::SLOTS;

/// Writes the words of the first state: each slot its own made-up value. More words than there are slots are left as they are.
pub fn free(ws: &mut [usize])
    ensures ws_after { length ws.old ≤ slot_end → state_of top ws.new ≡ search.free top }
    ensures ws_unchanged { slot_end < length ws.old → ws.new ≡ ws.old }
{
    if SLOTS < ws.len() {
        return;
    }
    for (n, w) in ws.iter_mut().enumerate() {
        *w = MADE_UP + n;
    }
}

/// The value at the end of v's links. A word that is not lower than its slot's own value is no link, so this ends for any words.
pub fn root_of(ws: &[usize], v: usize) -> usize
    ensures { result ≡ root top (state_of top ws.now) v }
{
    let mut x = v;
    // Kept: no plainer; the loop follows links to their end, and counts no index.
    while MADE_UP <= x {
        let n = x - MADE_UP;
        if ws.len() <= n {
            return x;
        }
        let w = ws[n];
        if x <= w {
            return x;
        }
        x = w;
    }
    x
}

/// The value at a place of the tableau: below SLOTS a slot, from there on a constant.
pub fn place_value(ws: &[usize], w: usize) -> usize
    ensures { result ≡ place_root top ws.now w }
{
    if w < SLOTS {
        return root_of(ws, MADE_UP + w);
    }
    w - SLOTS
}

// Writes b into the slot of the made-up value a. False if a is a constant or its slot lies past the words, and then they stay.
fn write(ws: &mut [usize], a: usize, b: usize) -> bool
    ensures { WrittenBy result top ws.old ws.new a b }
{
    if a < MADE_UP {
        return false;
    }
    let n = a - MADE_UP;
    if ws.len() <= n {
        return false;
    }
    ws[n] = b;
    true
}

// Merges the roots of v and w by a link from the higher to the lower. False for two different constants, and then the words stay.
fn merge(ws: &mut [usize], v: usize, w: usize) -> bool
    ensures { v < top + length ws.old → w < top + length ws.old → MergedBy result top ws.old ws.new (root top (state_of top ws.old) v) (root top (state_of top ws.old) w) }
{
    let a = root_of(ws, v);
    let b = root_of(ws, w);
    if a == b {
        return true;
    }
    if a < b {
        return write(ws, b, a);
    }
    write(ws, a, b)
}

// Merges u and r column by column, from the last one on, and stops at the first that cannot be.
fn merge_all(ws: &mut [usize], u: &[usize; 4], r: &[usize; 4]) -> bool
    ensures { RootValues top ws.old u.now → RootValues top ws.old r.now → MetBy result top ws.old ws.new u.now r.now }
{
    for c in (0..COLUMNS).rev() {
        if !merge(ws, u[c], r[c]) {
            return false;
        }
    }
    true
}

// Unlinks the slots of u's made-up values: each gets its own value.
fn unlink(ws: &mut [usize], u: &[usize; 4])
    ensures { Freed top ws.old ws.new u.now }
{
    for v in u {
        write(ws, *v, *v);
    }
}

/// Takes back what equating u and r wrote: the words are again those of which both were roots, if no slot but theirs has been written since.
pub fn release(ws: &mut [usize], u: &[usize; 4], r: &[usize; 4])
    ensures { length u.now ≡ 4 → length r.now ≡ 4 → (old : List ℕ) → RootValues top old u.now → RootValues top old r.now → length old ≡ length ws.old → Others top old ws.old u.now r.now → ws.new ≡ old }
{
    unlink(ws, u);
    unlink(ws, r);
}

/// Makes two rows of roots one, in each column by a link from the higher value to the lower. False if constants clash, and then the words stay.
pub fn equate(ws: &mut [usize], u: &[usize; 4], r: &[usize; 4]) -> bool
    ensures { length u.now ≡ 4 → length r.now ≡ 4 → RootValues top ws.old u.now → RootValues top ws.old r.now → EquatedBy result top ws.old ws.new u.now r.now }
{
    if merge_all(ws, u, r) {
        return true;
    }
    release(ws, u, r);
    false
}
