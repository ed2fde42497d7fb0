//! Values under ids.
ghost use Rattle.std.specs.Prelude.{◌≡◌, ℕ, ◌-◌, ◌<◌, ◌≤◌, ◌==◌, IsTrue, false, Some, None, IsSome, is_some, IfSome, IfOk, OnOk, OnErr, MatchOption, length, if◌then◌else◌};
ghost use Rattle.nt_check.specs.state.Ids.{in_row, value_at};
ghost use Rattle.nt_check.specs.state.Scattered.{under, IsAt};

use crate::scattered::Scattered;
use std::alloc::{AllocError, Global};
use std::mem;

// How far beyond twice the number of ids that stand in the row an id may lie to get its place there.
const FAR: u64 = 16;

/// Values under ids. Ids that lie close together stand in a row, where a value is found by its place; the others are
/// found by a guess that holds for most, or else in an ordered map. So the row is never longer than some places for each
/// value, and whoever chooses the ids gets no more than a look-up in order for each.
#[derive(Drop)]
pub struct ById<V> {
    // The id of the first place.
    first: u64,
    row: Vec<Option<V>>,
    // How many values were put into the row.
    count: u64,
    others: Scattered<V>,
}

impl<V: Drop> ById<V> {
    /// No values. It takes no memory.
    pub fn new(alloc: Global) -> Self
        ensures { (id : ℕ) → value_at result id ≡ None }
    {
        ById {
            first: 0,
            row: Vec::new(alloc),
            count: 0,
            others: Scattered::new(alloc),
        }
    }

    /// The value under an id.
    #[inline(always)]
    pub fn get(&self, id: u64) -> Option<&V>
        ensures { MatchOption result (value_at self.now id ≡ None) (λ value. value_at self.now id ≡ Some value.now) }
    {
        if id >= self.first {
            let place = (id - self.first) as usize;
            if place < self.row.len() {
                if let Some(value) = &self.row[place] {
                    return Some(value);
                }
            }
        }
        self.others.get(id)
    }

    /// Puts a value under an id, in the place of the one that stands there, if one does. Out of memory, all stays as it
    /// was.
    pub fn insert(&mut self, id: u64, value: V) -> Result<(), AllocError>
        ensures ok { OnOk result ((other : ℕ) → value_at self.new other
            ≡ (if id == other then Some value else value_at self.old other)) }
        ensures err { OnErr result ((other : ℕ) → value_at self.new other ≡ value_at self.old other) }
    {
        self.begin(id);
        if !self.is_near(id) {
            self.others.insert(id, value)?;
            return Ok(());
        }
        let place = (id - self.first) as usize;
        self.reach(place)?;
        self.row[place] = Some(value);
        self.count = self.count.saturating_add(1);
        Ok(())
    }

    /// Puts a value in the place of the one that stands under an id. It takes no memory.
    pub fn set(&mut self, id: u64, value: V)
        requires { IsSome (value_at self.old id) }
        ensures { (other : ℕ) → value_at self.new other
            ≡ (if id == other then Some value else value_at self.old other) }
    {
        if self.is_in_row(id) {
            self.set_in_row(id, value);
        } else {
            self.set_other(id, value);
        }
    }

    /// Whether a value stands in the row under an id.
    #[inline(always)]
    pub fn is_in_row(&self, id: u64) -> bool
        ensures value { result ≡ is_some (in_row self.now.first self.now.row.items id) }
        ensures place { IsTrue result → (self.now.first ≤ id) × (id - self.now.first < length self.now.row.items) }
    {
        if id < self.first {
            return false;
        }
        let place = (id - self.first) as usize;
        place < self.row.len() && self.row[place].is_some()
    }

    /// The value under an id that stands in the row.
    #[inline(always)]
    pub fn in_row(&self, id: u64) -> &V
        requires { IsSome (in_row self.now.first self.now.row.items id) }
        ensures { in_row self.now.first self.now.row.items id ≡ Some result.now }
    {
        match &self.row[(id - self.first) as usize] {
            Some(value) => value,
            None => unreachable!(),
        }
    }

    /// Puts a value in the place of the one that stands in the row under an id.
    #[inline(always)]
    pub fn set_in_row(&mut self, id: u64, value: V)
        requires { IsSome (in_row self.old.first self.old.row.items id) }
        ensures { (other : ℕ) → value_at self.new other
            ≡ (if id == other then Some value else value_at self.old other) }
    {
        let place = (id - self.first) as usize;
        self.row[place] = Some(value);
    }

    /// The place of an id among the others, where it is found at once.
    #[inline(always)]
    pub fn other_at_once(&self, id: u64) -> Option<usize>
        ensures { IfSome result (λ place. IsAt id place self.now.others) }
    {
        self.others.place_at_once(id)
    }

    /// The place of an id among the others, which is found at once from here on.
    pub fn find_other(&mut self, id: u64) -> Option<usize>
        ensures same { self.new ≡ self.old }
        ensures place { MatchOption result (under id self.old.others ≡ None) (λ place. IsAt id place self.old.others) }
    {
        self.others.find(id)
    }

    /// The value at a place among the others.
    #[inline(always)]
    pub fn other(&self, place: usize) -> &V
        requires { place < length self.now.others }
        ensures { (id : ℕ) → IsAt id place self.now.others → under id self.now.others ≡ Some result.now }
    {
        self.others.at(place)
    }

    /// Puts a value at a place among the others, and answers the one that stood there.
    #[inline(always)]
    pub fn replace_other(&mut self, place: usize, value: V) -> V
        requires { place < length self.old.others }
        ensures put { (id : ℕ) → IsAt id place self.old.others
            → in_row self.old.first self.old.row.items id ≡ None → (other : ℕ)
            → value_at self.new other ≡ (if id == other then Some value else value_at self.old other) }
        ensures before { (id : ℕ) → IsAt id place self.old.others → under id self.old.others ≡ Some result }
    {
        self.others.replace(place, value)
    }

    /// Puts a value under an id, and answers the one that stood there. Out of memory, all stays as it was.
    pub fn replace(&mut self, id: u64, value: V) -> Result<Option<V>, AllocError>
        ensures ok { OnOk result ((other : ℕ) → value_at self.new other
            ≡ (if id == other then Some value else value_at self.old other)) }
        ensures before { IfOk result (λ before. before ≡ value_at self.old id) }
        ensures err { OnErr result ((other : ℕ) → value_at self.new other ≡ value_at self.old other) }
    {
        if self.is_in_row(id) {
            let place = (id - self.first) as usize;
            return Ok(mem::replace(&mut self.row[place], Some(value)));
        }
        if let Some(place) = self.find_other(id) {
            return Ok(Some(self.replace_other(place, value)));
        }
        self.insert(id, value)?;
        Ok(None)
    }

    fn set_other(&mut self, id: u64, value: V)
        requires { IsSome (under id self.old.others) }
        ensures others { (other : ℕ) → under other self.new.others
            ≡ (if id == other then Some value else under other self.old.others) }
        ensures first { self.new.first ≡ self.old.first }
        ensures row { self.new.row ≡ self.old.row }
    {
        match self.others.find(id) {
            Some(place) => {
                let _ = self.others.replace(place, value);
            }
            None => unreachable!(),
        }
    }

    // Sets where the row begins, while it has no place.
    fn begin(&mut self, id: u64)
        ensures { (other : ℕ) → value_at self.new other ≡ value_at self.old other }
    {
        if self.row.is_empty() {
            self.first = id.saturating_sub(FAR);
        }
    }

    // Whether an id has its place in the row, or gets it there.
    fn is_near(&self, id: u64) -> bool
        ensures near { IsTrue result → self.now.first ≤ id }
        ensures far { result ≡ false → in_row self.now.first self.now.row.items id ≡ None }
    {
        if id < self.first {
            return false;
        }
        let place = id - self.first;
        let most = self.count.saturating_mul(2).saturating_add(FAR);
        place <= most || place < self.row.len() as u64
    }

    // Makes the row longer, up to this place.
    fn reach(&mut self, place: usize) -> Result<(), AllocError>
        ensures same { (id : ℕ) → value_at self.new id ≡ value_at self.old id }
        ensures there { OnOk result (place < length self.new.row.items) }
        ensures first { self.new.first ≡ self.old.first }
    {
        while self.row.len() <= place {
            self.row.push(None)?;
        }
        Ok(())
    }

    /// Takes all values out, and keeps the room of the row.
    pub fn clear(&mut self)
        ensures { (id : ℕ) → value_at self.new id ≡ None }
    {
        self.row.clear();
        self.count = 0;
        self.others.clear();
    }
}
