//! Values under ids that lie far apart.
ghost use Rattle.std.specs.Prelude.{◌≡◌, ◌≢◌, ◌<◌, ℕ, List, [], ◌==◌, IsTrue, false, IfSome, MatchOption, OnOk, OnErr, Some, None, length, if◌then◌else◌};
ghost use Rattle.std.specs.List.{slice_get};
ghost use Rattle.nt_check.specs.state.Scattered.{under, IsAt};

use crate::recent::Recent;
use std::alloc::{AllocError, Global};
use std::collections::BTreeMap;
use std::marker::Model;
use std::mem;

/// Values under ids. Contracts see the ids with their values in the order in which they were put in.
///
/// The values stand in a list. A guess of an id's place costs a few steps, and is tried first; where the value there is
/// another id's, the map knows the place.
#[derive(Drop)]
pub struct Scattered<V> {
    values: Vec<(u64, V)>,
    // The place of each id in `values`.
    places: BTreeMap<u64, usize>,
    // Some of these places, where they are found without the map.
    recent: Recent,
}

impl<V> Model for Scattered<V> {
    ghost use Rattle.std.specs.Prelude.{List, ℕ};

    ghost Value = { List (ℕ × V) };

    ghost use Rattle.std.specs.BTreeMap.{get};
    ghost use Rattle.std.specs.Ordering.{nat_cmp};
    ghost use Rattle.nt_check.specs.state.Scattered.{AreFound};

    ghost view = { λ scattered. scattered.values.items };

    ghost invariant = { λ scattered. AreFound (get nat_cmp scattered.places) scattered.values.items };
}

impl<V: Drop> Scattered<V> {
    /// No values. It takes no memory.
    pub fn new(alloc: Global) -> Self
        ensures { result ≡ [] }
    {
        Scattered {
            values: Vec::new(alloc),
            places: BTreeMap::new(alloc),
            recent: Recent::new(alloc),
        }
    }

    // Whether the value at a place is that of an id.
    #[inline(always)]
    fn is_at(&self, place: usize, id: u64) -> bool
        ensures value { IsTrue result → IsAt id place self.now }
        ensures other { result ≡ false → (value : V) → slice_get self.now place ≢ Some (id, value) }
    {
        place < self.values.len() && self.values[place].0 == id
    }

    /// The place of an id, where it is found at once.
    #[inline(always)]
    pub fn place_at_once(&self, id: u64) -> Option<usize>
        ensures { IfSome result (λ place. IsAt id place self.now) }
    {
        let place = self.recent.guess(id);
        if self.is_at(place, id) {
            Some(place)
        } else {
            None
        }
    }

    /// The place of an id.
    pub fn place(&self, id: u64) -> Option<usize>
        ensures { MatchOption result (under id self.now ≡ None) (λ place. IsAt id place self.now) }
    {
        if let Some(place) = self.place_at_once(id) {
            return Some(place);
        }
        match self.places.get(&id) {
            Some(place) if self.is_at(*place, id) => Some(*place),
            _ => None,
        }
    }

    /// The place of an id, which is found at once from here on.
    pub fn find(&mut self, id: u64) -> Option<usize>
        ensures same { self.new ≡ self.old }
        ensures place { MatchOption result (under id self.old ≡ None) (λ place. IsAt id place self.old) }
    {
        let found = self.place(id);
        if let Some(place) = found {
            self.recent.keep(id, place);
        }
        found
    }

    /// The value at a place.
    #[inline(always)]
    pub fn at(&self, place: usize) -> &V
        requires { place < length self.now }
        ensures { (id : ℕ) → IsAt id place self.now → under id self.now ≡ Some result.now }
    {
        &self.values[place].1
    }

    /// The value under an id.
    pub fn get(&self, id: u64) -> Option<&V>
        ensures { MatchOption result (under id self.now ≡ None) (λ value. under id self.now ≡ Some value.now) }
    {
        match self.place(id) {
            Some(place) => Some(self.at(place)),
            None => None,
        }
    }

    /// Puts a value at the place of an id, and answers the one that stood there. It takes no memory.
    #[inline(always)]
    pub fn replace(&mut self, place: usize, value: V) -> V
        requires { place < length self.old }
        ensures put { (id : ℕ) → IsAt id place self.old → (other : ℕ)
            → under other self.new ≡ (if id == other then Some value else under other self.old) }
        ensures before { (id : ℕ) → IsAt id place self.old → under id self.old ≡ Some result }
    {
        mem::replace(&mut self.values[place].1, value)
    }

    /// Puts a value under an id, in the place of the one that stands there, if one does. Out of memory, no value changes.
    pub fn insert(&mut self, id: u64, value: V) -> Result<(), AllocError>
        ensures ok { OnOk result ((other : ℕ) → under other self.new
            ≡ (if id == other then Some value else under other self.old)) }
        ensures err { OnErr result (self.new ≡ self.old) }
    {
        match self.find(id) {
            Some(place) => {
                let _ = self.replace(place, value);
                Ok(())
            }
            None => self.add(id, value),
        }
    }

    // Puts a value under an id that has none. Out of memory, no value changes.
    fn add(&mut self, id: u64, value: V) -> Result<(), AllocError>
        requires { under id self.old ≡ None }
        ensures ok { OnOk result ((other : ℕ) → under other self.new
            ≡ (if id == other then Some value else under other self.old)) }
        ensures err { OnErr result (self.new ≡ self.old) }
    {
        let place = self.values.len();
        self.places.insert(id, place)?;
        self.values.push((id, value))?;
        keep_new(&mut self.recent, self.values.as_slice(), id, place);
        Ok(())
    }

    /// Takes all values out.
    pub fn clear(&mut self)
        ensures { self.new ≡ [] }
    {
        self.values.clear();
        self.places.clear();
    }
}

// Keeps the place of the id that was put in last, and that of each where this makes more slots.
fn keep_new<V>(recent: &mut Recent, values: &[(u64, V)], id: u64, place: usize) {
    if !recent.is_small(values.len()) {
        recent.keep(id, place);
        return;
    }
    recent.grow();
    for (place, (id, _)) in values.iter().enumerate() {
        recent.keep(*id, place);
    }
}
