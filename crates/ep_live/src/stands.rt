//! The threads' halves of the ties to their rows, while nobody writes.
ghost use Rattle.std.specs.Prelude.{◌≡◌, ◌↔◌, ◌<◌, None, Some, IsSome, IsTrue, vec_len};
ghost use Rattle.std.specs.Option.{ForSome};
ghost use Rattle.ep_live.specs.Made.{AreStands};

use ep_guarded::{Agreed, Program, TiedRow};
use ep_tie::{Right, Ties};
use std::alloc::Global;
use std::marker::Model;
use std::mem;

/// The halves of all threads, by row, each of which has begun the same number of writes, or none while they are with those
/// that write. Contracts see this number.
#[derive(Drop)]
pub struct Stands<'a, P: Program> {
    halves: Vec<Right<P, Agreed<'a>>>,
    index: Option<u32>,
}

impl<'a, P: Program> Model for Stands<'a, P> {
    ghost use Rattle.std.specs.Prelude.{ℕ, Option};
    ghost use Rattle.ep_live.specs.Stands.{AreHere};

    ghost Value = { Option ℕ };

    ghost view = { λ s. s.index };

    ghost invariant = { λ s. AreHere P.rows s.index s.halves.items };
}

impl<'a, P: Program> Stands<'a, P> {
    /// The halves of all threads, by row, each of which has begun so many writes.
    pub fn new(halves: Vec<Right<P, Agreed<'a>>>, index: u32) -> Stands<'a, P>
        requires count { vec_len halves ≡ P.rows }
        requires halves { AreStands index halves.items }
        ensures { result ≡ Some index }
    {
        Stands {
            halves,
            index: Some(index),
        }
    }

    /// No halves. It takes no memory.
    pub fn none(alloc: Global) -> Stands<'a, P>
        ensures { result ≡ None }
    {
        Stands {
            halves: Vec::new(alloc),
            index: None,
        }
    }

    /// Whether the halves are here.
    pub(crate) fn are_here(&self) -> bool
        ensures { IsTrue result ↔ IsSome self.now }
    {
        self.index.is_some()
    }

    /// Lends the halves to those that write, by row. It takes no memory.
    pub fn lend(&mut self) -> Vec<Right<P, Agreed<'a>>>
        requires here { IsSome self.old }
        ensures count { vec_len result ≡ P.rows }
        ensures halves { ForSome self.old (λ index. AreStands index result.items) }
        ensures lent { self.new ≡ None }
    {
        let none = Stands::none(*self.halves.allocator());
        mem::replace(self, none).halves
    }

    /// Takes the halves back, by row, where each thread has begun so many writes.
    pub fn take_back(&mut self, halves: Vec<Right<P, Agreed<'a>>>, index: u32)
        requires count { vec_len halves ≡ P.rows }
        requires halves { AreStands index halves.items }
        ensures { self.new ≡ Some index }
    {
        self.halves = halves;
        self.index = Some(index);
    }

    // Says that the row's thread has come as far as its half says, where it is here, and changes nothing.
    pub(crate) fn meet(
        &mut self,
        ties: &Ties<P, Agreed<'a>>,
        row: &mut TiedRow<'a, P>,
        number: usize,
    )
        requires number { row.old.number ≡ number }
        requires within { number < P.rows }
        ensures stands { ForSome self.old (λ index. row.old.row.index ≡ index) }
        ensures same { (self.new ≡ self.old) × (row.new ≡ row.old) }
    {
        if number < self.halves.len() {
            row.stands(ties, &mut self.halves[number]);
        }
    }
}
