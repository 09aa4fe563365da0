// Marks that tell lent words that were written from those that were not.
#![tactic(auto)]

ghost use Rattle.std.specs.Prelude.{◌≡◌, ◌-◌, length, drop};
ghost use Rattle.test_lent.specs.Marks.{marks, place_mark, Tells};

/// Puts into each word the mark of its place.
pub fn put_marks(lent: &mut [i32])
    ensures { lent.new ≡ marks 0 (length lent.old) }
{
    for (i, word) in lent.iter_mut().enumerate() {
        *word = mark_of(i);
    }
}

/// Whether the words from `from` on have the marks of their places.
pub fn are_marked(lent: &[i32], from: usize) -> bool
    ensures { Tells result (drop from lent.now ≡ marks from (length lent.now - from)) }
{
    for i in from..lent.len() {
        if lent[i] != mark_of(i) {
            return false;
        }
    }
    true
}

// A word that is in no fact and no answer, another one for each place that the programs lend.
fn mark_of(i: usize) -> i32
    ensures { result ≡ place_mark i }
{
    if i < 100000 {
        (70000000 + i) as i32
    } else {
        70000000
    }
}
