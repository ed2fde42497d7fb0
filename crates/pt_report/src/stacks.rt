//! Stacks, and how often each is used.
ghost use Rattle.std.specs.Prelude.{◌≡◌, ℕ, Some, [], ◌∷◌, ◌++◌, List, OnOk};
ghost use Rattle.nt_blocks.specs.Ordered.{lookup};
ghost use Rattle.nt_check.specs.state.Ids.{held_in, value_at};
ghost use Rattle.pt_report.specs.Report.{stack_in};
ghost use Rattle.pt_report.specs.state.Stacks.{ShowsStacks, stack_among};

use crate::key::Text;
use crate::tally::Tally;
use ep_defs::Duplicate;
use nt_check::ById;
use std::alloc::{AllocError, Global};

/// What is counted by stacks.
#[derive(Drop)]
pub struct Stacks {
    // What each stack id stands for since the last point.
    stacks: ById<Text<u8>>,
    // Where the uses of its stack are counted, once there was one.
    places: ById<Option<usize>>,
    pub(crate) uses: Tally<Text<u8>>,
}

impl Stacks {
    pub fn new(alloc: Global) -> Stacks
        ensures { ShowsStacks [] [] result }
    {
        Stacks {
            stacks: ById::new(alloc),
            places: ById::new(alloc),
            uses: Tally::new(alloc),
        }
    }

    /// One stack more, under its id.
    pub fn define(&mut self, alloc: Global, id: u32, bytes: &[u8]) -> Result<(), AllocError>
        ensures { OnOk result ((uses : List (List ℕ)) → (named : List (ℕ × List ℕ))
            → ShowsStacks uses named self.old
            → ShowsStacks uses ((id, bytes.now) ∷ named) self.new) }
    {
        let stack = Text::of(alloc, bytes)?;
        self.stacks.insert(u64::from(id), stack)?;
        self.places.insert(u64::from(id), None)?;
        Ok(())
    }

    /// The ids stand for no stacks from here on.
    pub fn clear(&mut self)
        ensures { (uses : List (List ℕ)) → (named : List (ℕ × List ℕ))
            → ShowsStacks uses named self.old → ShowsStacks uses [] self.new }
    {
        self.stacks.clear();
        self.places.clear();
    }

    /// One event more, with the stack of this id.
    #[inline(always)]
    pub fn count(&mut self, alloc: Global, id: u32) -> Result<(), AllocError>
        ensures { OnOk result ((uses : List (List ℕ)) → (named : List (ℕ × List ℕ))
            → (bytes : List ℕ) → ShowsStacks uses named self.old
            → stack_among named id ≡ Some bytes
            → ShowsStacks (uses ++ stack_in bytes) named self.new) }
    {
        if id == 0 {
            return Ok(());
        }
        if let Some(place) = self.place(id) {
            self.uses.count(place);
            return Ok(());
        }
        self.count_first(alloc, id)
    }

    // Where the uses of a stack are counted, once there was one.
    #[inline(always)]
    fn place(&self, id: u32) -> Option<usize>
        ensures { result ≡ held_in (value_at self.now.places id) }
    {
        match self.places.get(u64::from(id)) {
            Some(place) => *place,
            None => None,
        }
    }

    // The same, where the stack has no place yet.
    #[inline(never)]
    fn count_first(&mut self, alloc: Global, id: u32) -> Result<(), AllocError>
        ensures { OnOk result ((uses : List (List ℕ)) → (named : List (ℕ × List ℕ))
            → (bytes : List ℕ) → ShowsStacks uses named self.old
            → lookup id named ≡ Some bytes
            → ShowsStacks (uses ++ stack_in bytes) named self.new) }
    {
        let Some(stack) = self.stacks.get(u64::from(id)) else {
            return Ok(());
        };
        if stack.as_slice().is_empty() {
            return Ok(());
        }
        let place = self.uses.name(stack.copy(alloc)?)?;
        self.uses.count(place);
        self.places.insert(u64::from(id), Some(place))?;
        Ok(())
    }
}
