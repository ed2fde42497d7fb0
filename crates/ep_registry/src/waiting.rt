//! What waits for a role.
ghost use Rattle.std.specs.Prelude.{◌≡◌, ◌<◌, IfOk, IfSome, IsTrue, None, Some, replicate, slice_get, slice_set};
ghost use Rattle.ep_table.specs.declared.limits.TheConstants.{SLOTS};
ghost use Rattle.ep_journal.specs.Recorded.{goes_on};

use crate::hold::{Hold, Holder};
use crate::kinds::Kinds;
use crate::places::empty_places;
use ep_table::limits::SLOTS;
use ep_tie::Named;
use std::alloc::{AllocError, Global};
use std::marker::{Model, PhantomData};

/// A session with what a role needs to serve it, as its stream. Contracts see what is known of the session.
#[derive(Drop)]
pub struct Handed<S: Named, P: Kinds<F, W, E, G>, F, W, E, G> {
    holder: Holder<S>,
    what: W,
    tag: PhantomData<(P, F, E, G)>,
}

impl<S: Named, P: Kinds<F, W, E, G>, F, W, E, G> Model for Handed<S, P, F, W, E, G> {
    ghost use Rattle.ep_registry.specs.declared.hold.Hold.{Hold};

    ghost Value = { Hold };

    ghost view = { λ h. h.holder };

    ghost invariant = { λ h. P.fits h.holder h.what };
}

impl<S: Named, P: Kinds<F, W, E, G>, F, W, E, G> Handed<S, P, F, W, E, G> {
    /// A session with what fits it.
    pub fn new(holder: Holder<S>, what: W) -> Handed<S, P, F, W, E, G>
        requires { P.fits holder what }
        ensures { result ≡ holder }
    {
        Handed {
            holder,
            what,
            tag: PhantomData,
        }
    }

    /// The two alone.
    pub fn open(self) -> (Holder<S>, W)
        ensures { (result.0 ≡ self) × P.fits self result.1 }
    {
        (self.holder, self.what)
    }

    /// What is known of the session.
    pub fn hold(&self) -> Hold
        ensures value { result ≡ self.now }
        ensures slot { result.slot < SLOTS }
        ensures on { IsTrue (goes_on result.stage) }
    {
        self.holder.hold()
    }
}

/// The sessions that wait for their roles, by slot. Contracts see what is known of each.
#[derive(Drop)]
pub struct Waiting<S: Named, P: Kinds<F, W, E, G>, F, W, E, G> {
    places: Vec<Option<Handed<S, P, F, W, E, G>>>,
}

impl<S: Named, P: Kinds<F, W, E, G>, F, W, E, G> Model for Waiting<S, P, F, W, E, G> {
    ghost use Rattle.std.specs.Prelude.{◌≡◌, List, Option, length};
    ghost use Rattle.ep_table.specs.declared.limits.TheConstants.{SLOTS};
    ghost use Rattle.ep_registry.specs.declared.hold.Hold.{Hold};
    ghost use Rattle.ep_registry.specs.Held.{AreInSlots};

    ghost Value = { List (Option Hold) };

    ghost view = { λ w. w.places.items };

    ghost invariant = { λ w. (length w.places.items ≡ SLOTS) × AreInSlots w.places.items };
}

impl<S: Named, P: Kinds<F, W, E, G>, F, W: Drop, E, G> Waiting<S, P, F, W, E, G> {
    /// No session waits.
    pub fn new(alloc: Global) -> Result<Waiting<S, P, F, W, E, G>, AllocError>
        ensures { IfOk result (λ waiting. waiting ≡ replicate SLOTS None) }
    {
        let places = empty_places(alloc, SLOTS as u32)?;
        Ok(Waiting { places })
    }

    /// The session waits, where none waited.
    pub fn put(&mut self, handed: Handed<S, P, F, W, E, G>)
        requires { slice_get self.old handed.slot ≡ Some None }
        ensures { self.new ≡ slice_set self.old handed.slot (Some handed) }
    {
        let slot = handed.hold().slot;
        self.places[slot as usize] = Some(handed);
    }

    /// The session that waits in this slot, if there is one.
    pub fn take(&mut self, slot: u32) -> Option<Handed<S, P, F, W, E, G>>
        requires { slot < SLOTS }
        ensures value { slice_get self.old slot ≡ Some result }
        ensures slot { IfSome result (λ handed. handed.slot ≡ slot) }
        ensures after { self.new ≡ slice_set self.old slot None }
    {
        self.places[slot as usize].take()
    }

    /// What waits, by slot.
    pub fn into_places(self) -> Vec<Option<Handed<S, P, F, W, E, G>>>
        ensures { result.items ≡ self }
    {
        self.places
    }
}
