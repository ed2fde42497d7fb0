//! What is there of the free slots.
ghost use Rattle.std.specs.Prelude.{◌≡◌, ◌<◌, IfOk, Some, length, replicate, slice_get, slice_set, true, false};
ghost use Rattle.ep_table.specs.declared.limits.TheConstants.{SLOTS};
ghost use Rattle.ep_registry.specs.Places.{AreAt, each_some};

use crate::kinds::Kinds;
use std::alloc::{AllocError, Global};
use std::marker::{Model, PhantomData};

/// What is there of each free slot, by slot. Contracts see which slots are free.
#[derive(Drop)]
pub struct Frees<P: Kinds<F, W, E, G>, F, W, E, G> {
    places: Vec<Option<F>>,
    tag: PhantomData<(P, W, E, G)>,
}

impl<P: Kinds<F, W, E, G>, F, W, E, G> Model for Frees<P, F, W, E, G> {
    ghost use Rattle.std.specs.Prelude.{◌≡◌, List, Bool, length};
    ghost use Rattle.ep_table.specs.declared.limits.TheConstants.{SLOTS};
    ghost use Rattle.ep_registry.specs.Places.{there_in, AreThere};

    ghost Value = { List Bool };

    ghost view = { λ f. there_in f.places.items };

    ghost invariant = { λ f. (length f.places.items ≡ SLOTS) × AreThere P.free f.places.items };
}

impl<P: Kinds<F, W, E, G>, F: Drop, W, E, G> Frees<P, F, W, E, G> {
    /// All slots are free.
    pub fn new(alloc: Global, free: Vec<F>) -> Result<Frees<P, F, W, E, G>, AllocError>
        requires all { length free.items ≡ SLOTS }
        requires each { AreAt P.free free.items }
        ensures { IfOk result (λ frees. frees ≡ replicate SLOTS true) }
    {
        let places = placed(alloc, free)?;
        Ok(Frees {
            places,
            tag: PhantomData,
        })
    }

    /// Takes what is there of a free slot.
    pub fn take(&mut self, slot: u32) -> F
        requires { slice_get self.old slot ≡ Some true }
        ensures free { P.free slot result }
        ensures after { self.new ≡ slice_set self.old slot false }
    {
        let Some(free) = self.places[slot as usize].take() else {
            unreachable!()
        };
        free
    }

    /// Puts what is there of a slot that was not free.
    pub fn put(&mut self, slot: u32, free: F)
        requires held { slice_get self.old slot ≡ Some false }
        requires free { P.free slot free }
        ensures { self.new ≡ slice_set self.old slot true }
    {
        self.places[slot as usize] = Some(free);
    }
}

fn placed<F: Drop>(alloc: Global, free: Vec<F>) -> Result<Vec<Option<F>>, AllocError>
    ensures { IfOk result (λ places. places.items ≡ each_some free.items) }
{
    let mut places = Vec::new(alloc);
    for thing in free {
        places.push(Some(thing))?;
    }
    Ok(places)
}
