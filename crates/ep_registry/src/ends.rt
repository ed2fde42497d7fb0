//! The registry's halves of the ties of a set.
ghost use Rattle.std.specs.Prelude.{◌≡◌, ◌+◌, ◌<◌, ◌≤◌, IfOk, Some, length, replicate, slice_get, slice_set};
ghost use Rattle.ep_registry.specs.Places.{numbered};

use ep_tie::{Blank, Left, Named, Right, Ties};
use std::alloc::{AllocError, Global};
use std::marker::Model;

/// One half of each tie of a set, by their places from 0. Contracts see the values.
#[derive(Drop)]
pub struct Ends<N: Named, V> {
    ties: Ties<N, V>,
    halves: Vec<Left<N, V>>,
}

impl<N: Named, V> Model for Ends<N, V> {
    ghost use Rattle.std.specs.Prelude.{List, Option};
    ghost use Rattle.ep_registry.specs.Places.{values_of, AreInPlace};

    ghost Value = { List (Option V) };

    ghost view = { λ ends. values_of ends.halves.items };

    ghost invariant = { λ ends. AreInPlace ends.halves.items };
}

impl<N: Named, V> Ends<N, V> {
    /// This many ties of a new set, all with this value, and their other halves by place.
    pub fn new(
        alloc: Global,
        blank: Blank<V>,
        count: u32,
        value: &V,
    ) -> Result<(Ends<N, V>, Vec<Right<N, V>>), AllocError>
        requires named { blank.ties ≡ N.ties }
        requires room { count ≤ blank.places }
        ensures { IfOk result (λ made. (made.0 ≡ replicate count (Some value.now))
            × (made.1.items ≡ numbered count value.now)) }
    {
        let (ties, mut maker) = blank.open::<N>();
        let mut halves = Vec::new(alloc);
        let mut others = Vec::new(alloc);
        for _made in 0..count {
            let (half, other) = maker.next(&ties, value);
            halves.push(half)?;
            others.push(other)?;
        }
        Ok((Ends { ties, halves }, others))
    }

    /// One tie more than this of a new set, all with this value, with the other half of the last one apart.
    pub(crate) fn with_last(
        alloc: Global,
        blank: Blank<V>,
        count: u32,
        value: &V,
    ) -> Result<(Ends<N, V>, Vec<Right<N, V>>, Right<N, V>), AllocError>
        requires named { blank.ties ≡ N.ties }
        requires room { count < blank.places }
        ensures { IfOk result (λ made. (made.0 ≡ replicate (count + 1) (Some value.now))
            × (made.1.items ≡ numbered count value.now)
            × (made.2 ≡ record { place = count; value = Some value.now })) }
    {
        let (ends, mut others) = Ends::new(alloc, blank, count + 1, value)?;
        let Some(last) = others.pop() else {
            unreachable!()
        };
        Ok((ends, others, last))
    }

    /// Says that the half of this place has the value of the other half, and changes nothing.
    pub fn meet(&mut self, place: usize, other: &mut Right<N, V>)
        requires place { (other.old.place ≡ place) × (place < length self.old) }
        ensures equal { slice_get self.old place ≡ Some other.old.value }
        ensures same { (self.new ≡ self.old) × (other.new ≡ other.old) }
    {
        let half = &mut self.halves[place];
        half.meet(&self.ties, other);
    }

    /// Gives both halves of this place another value.
    pub fn set(&mut self, place: usize, other: &mut Right<N, V>, value: &V)
        requires place { (other.old.place ≡ place) × (place < length self.old) }
        ensures here { self.new ≡ slice_set self.old place (Some value.now) }
        ensures there { (other.new.place ≡ place) × (other.new.value ≡ Some value.now) }
    {
        let half = &mut self.halves[place];
        half.set(&self.ties, other, value);
    }
}
