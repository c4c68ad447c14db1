//! Sums by key.

ghost use Rattle.std.specs.Prelude.{◌≡◌, IsTrue, OnOk, if◌then◌else◌};
ghost use Rattle.std.specs.Ordering.{is_eq};
ghost use Rattle.escrow_book.specs.Noted.{sum_noted, has_room};

use std::alloc::{AllocError, Global};
use std::collections::BTreeMap;

/// Sums by key. The sum of a key that isn't noted is 0.
#[derive(Drop)]
pub(crate) struct Tally<K: Ord> {
    noted: BTreeMap<K, u64>,
}

impl<K: Ord + Copy> Tally<K> {
    /// No key is noted.
    pub(crate) fn new(alloc: Global) -> Tally<K>
        ensures { (key : K) → sum_noted K.cmp result key ≡ 0 }
    {
        Tally {
            noted: BTreeMap::new(alloc),
        }
    }

    /// The sum of the key.
    pub(crate) fn at(&self, key: &K) -> u64
        ensures { result ≡ sum_noted K.cmp self.now key.now }
    {
        self.noted.get(key).copied().unwrap_or(0)
    }

    /// Notes the key, so that its sum can be set.
    pub(crate) fn make_room(&mut self, key: K) -> Result<(), AllocError>
        ensures ok { OnOk result (IsTrue (has_room K.cmp self.new key)) }
        ensures same { (other : K)
            → sum_noted K.cmp self.new other ≡ sum_noted K.cmp self.old other }
    {
        if !self.noted.contains_key(&key) {
            self.noted.insert(key, 0)?;
        }
        Ok(())
    }

    /// Sets the sum of a key that is noted.
    pub(crate) fn set(&mut self, key: &K, sum: u64)
        requires { IsTrue (has_room K.cmp self.old key.now) }
        ensures { (other : K) → sum_noted K.cmp self.new other
            ≡ (if is_eq (K.cmp key.now other) then sum else sum_noted K.cmp self.old other) }
    {
        if let Some(place) = self.noted.get_mut(key) {
            *place = sum;
        }
    }
}
