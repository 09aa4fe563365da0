//! Rows of views that are kept.

ghost use Rattle.std.specs.Prelude.{◌≡◌, true, false, None, ◌+◌, ◌<◌, ◌≤◌, min, length, nat_lt, slice_get, slice_set};

use crate::Kept;
use sheet_format::MOST_VIEW_ATOMS;

/// The most rows that are kept.
pub const MOST_KEPT: usize = 512;

/// Rows of views, in the order in which they were kept.
#[derive(Clone, Copy, Debug)]
pub struct KeptRows {
    rows: [Kept; MOST_KEPT],
    count: usize,
    pub ghost few: { count ≤ length rows },
}

impl KeptRows {
    /// No rows.
    pub fn new() -> Self
        ensures { result.count ≡ 0 }
    {
        KeptRows {
            rows: [Kept {
                view: 0,
                facts: [0; MOST_VIEW_ATOMS],
            }; MOST_KEPT],
            count: 0,
        }
    }

    /// How many rows are kept.
    pub fn len(&self) -> usize
        ensures count { result ≡ self.now.count }
        ensures few { result ≤ MOST_KEPT }
    {
        self.count
    }

    /// Row k, if so many are kept.
    pub fn get(&self, k: usize) -> Option<Kept>
        ensures kept { k < self.now.count → result ≡ slice_get self.now.rows k }
        ensures none { self.now.count ≤ k → result ≡ None }
    {
        if self.count <= k {
            return None;
        }
        self.rows.get(k).copied()
    }

    /// Keeps one more row; false where there is no room for it.
    pub fn push(&mut self, kept: Kept) -> bool
        ensures room { result ≡ nat_lt self.old.count MOST_KEPT }
        ensures kept { result ≡ true → (self.new.rows ≡ slice_set self.old.rows self.old.count kept) × (self.new.count ≡ self.old.count + 1) }
        ensures full { result ≡ false → self.new ≡ self.old }
    {
        if MOST_KEPT <= self.count {
            return false;
        }
        self.rows[self.count] = kept;
        self.count += 1;
        true
    }

    /// Keeps the first n rows alone.
    pub fn truncate(&mut self, n: usize)
        ensures { (self.new.rows ≡ self.old.rows) × (self.new.count ≡ min self.old.count n) }
    {
        self.count = self.count.min(n);
    }
}

#[cfg(test)]
mod tests {
    use super::*;
    use std::test::Fail;

    #[test]
    fn keeps_as_many_rows_as_there_is_room_for(rt: HostRuntime) -> Result<(), Fail> {
        let mut kept = KeptRows::new();
        let mut last = Kept::new(0);
        for i in 0..MOST_KEPT {
            let [low, high] = (i as u16).to_le_bytes();
            last.facts = [low, high, 7];
            assert_eq!(rt; kept.push(last), true);
        }
        assert_eq!(rt; kept.push(Kept::new(1)), false);
        assert_eq!(rt; kept.len(), 512);
        assert_eq!(rt;
            kept.get(258),
            Some(Kept {
                view: 0,
                facts: [2, 1, 7]
            })
        );
        assert_eq!(rt; kept.get(511), Some(last));
        assert_eq!(rt; kept.get(512), None);
        kept.truncate(600);
        assert_eq!(rt; kept.len(), 512);
        kept.truncate(3);
        assert_eq!(rt; kept.len(), 3);
        assert_eq!(rt;
            kept.get(2),
            Some(Kept {
                view: 0,
                facts: [2, 0, 7]
            })
        );
        assert_eq!(rt; kept.get(3), None);
        Ok(())
    }
}
