// What a failure rests on: the slots whose words it needs.
#![tactic(auto)]

ghost use Rattle.std.specs.Prelude.{◌≡◌, length};
ghost use Rattle.search_slots.specs.Slots.{set_words};
ghost use Rattle.search_reasons.specs.Reasons.{Place, WayMarked, AgreesBy, SlotsAdded, SlotsOf};

use query_layout::MADE_UP;
use search_slots::SET_WORDS;
use tableau_layout::SLOTS;

/// Marks the slots by which a place's value is where its links end.
pub fn mark_way(ws: &[usize], w: usize, set: &mut [u64])
    ensures { (Place w → WayMarked ws.now w set.old set.new) × (length set.new ≡ length set.old) }
{
    if SLOTS <= w {
        return;
    }
    let mut x = MADE_UP + w;
    // Kept: no plainer; the loop follows links to their end, and counts no index.
    while MADE_UP <= x {
        let n = x - MADE_UP;
        if ws.len() <= n {
            return;
        }
        let v = ws[n];
        if x <= v {
            return;
        }
        search_slots::add(set, n);
        x = v;
    }
}

/// Whether two places have one value; if so, the slots by which they have are marked.
pub fn agree(ws: &[usize], w: usize, z: usize, set: &mut [u64]) -> bool
    ensures { (Place w → Place z → AgreesBy result ws.now w z set.old set.new) × (length set.new ≡ length set.old) }
{
    if w == z {
        return true;
    }
    if search_links::place_value(ws, w) != search_links::place_value(ws, z) {
        return false;
    }
    mark_way(ws, w, set);
    mark_way(ws, z, set);
    true
}

// Adds the slots of a row's made-up values.
fn add_slots(u: &[usize; 4], set: &mut [u64; SET_WORDS])
    ensures { SlotsAdded u.now set.old set.new }
{
    for v in u {
        if MADE_UP <= *v {
            search_slots::add(set, *v - MADE_UP);
        }
    }
}

/// The slots of the made-up values of two rows.
pub fn slots_of(u: &[usize; 4], r: &[usize; 4]) -> [u64; SET_WORDS]
    ensures { (length u.now ≡ 4 → length r.now ≡ 4 → SlotsOf u.now r.now result) × (length result ≡ set_words) }
{
    let mut set = search_slots::none();
    add_slots(u, &mut set);
    add_slots(r, &mut set);
    set
}
