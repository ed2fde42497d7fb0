//! Counts by keys.
ghost use Rattle.std.specs.Prelude.{◌≡◌, ℕ, [], ◌∷◌, ◌++◌, List, Some, IfOk, OnOk, slice_index};
ghost use Rattle.std.specs.BTreeMap.{get};
ghost use Rattle.pt_report.specs.Order.{uses_of};
ghost use Rattle.pt_report.specs.state.Counts.{Counts};

use std::alloc::{AllocError, Global};
use std::collections::BTreeMap;

/// Of each key that was named, how often it was counted. A key has a place, which it keeps, and by which it is counted
/// without a look-up.
#[derive(Drop)]
pub struct Tally<K: Ord> {
    pub(crate) places: BTreeMap<K, usize>,
    // The count of the key that has this place.
    counts: Vec<u64>,
}

impl<K: Ord + Drop> Tally<K> {
    /// No keys.
    pub fn new(alloc: Global) -> Self
        ensures { Counts K.cmp [] [] result }
    {
        Tally {
            places: BTreeMap::new(alloc),
            counts: Vec::new(alloc),
        }
    }

    /// Names a key, once or again, and answers its place.
    #[inline(never)]
    pub fn name(&mut self, key: K) -> Result<usize, AllocError>
        ensures ok { OnOk result ((names : List K) → (uses : List K)
            → Counts K.cmp names uses self.old
            → Counts K.cmp (names ++ key ∷ []) uses self.new) }
        ensures place { IfOk result (λ place. get K.cmp self.new.places key ≡ Some place) }
        ensures kept { (other : K) → (place : ℕ) → get K.cmp self.old.places other ≡ Some place
            → get K.cmp self.new.places other ≡ Some place }
    {
        if let Some(place) = self.places.get(&key) {
            return Ok(*place);
        }
        let place = self.counts.len();
        self.counts.push(0)?;
        self.places.insert(key, place)?;
        Ok(place)
    }

    /// Counts the key that has this place, if one has.
    #[inline(always)]
    pub fn count(&mut self, place: usize)
        ensures counted { (names : List K) → (uses : List K) → (key : K)
            → Counts K.cmp names uses self.old → get K.cmp self.old.places key ≡ Some place
            → Counts K.cmp names (uses ++ key ∷ []) self.new }
        ensures places { self.new.places ≡ self.old.places }
    {
        if place < self.counts.len() {
            self.counts[place] = self.counts[place].saturating_add(1);
        }
    }

    /// How often a key was counted.
    pub fn uses(&self, key: &K) -> u64
        ensures { (names : List K) → (uses : List K) → Counts K.cmp names uses self.now
            → result ≡ uses_of K.cmp uses key.now }
    {
        match self.places.get(key) {
            Some(place) => self.count_at(*place),
            None => 0,
        }
    }

    // The count at a place, 0 where none stands.
    fn count_at(&self, place: usize) -> u64
        ensures { result ≡ slice_index self.now.counts.items place }
    {
        if place < self.counts.len() {
            self.counts[place]
        } else {
            0
        }
    }
}
