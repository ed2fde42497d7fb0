//! What is left of the sessions that have ended.
ghost use Rattle.std.specs.Prelude.{◌≡◌, ◌-◌, ◌<◌, ◌≤◌, IfOk, None, Some, replicate};
ghost use Rattle.ep_journal.specs.declared.limits.TheConstants.{CONNECTIONS};
ghost use Rattle.ep_journal.specs.Items.{with_item};

use crate::hold::Hold;
use crate::kinds::Kinds;
use crate::places::empty_places;
use ep_journal::limits::CONNECTIONS;
use std::alloc::{AllocError, Global};
use std::marker::{Model, PhantomData};

/// A session that has ended, with what is left of it. Contracts see what was known of it in the end.
#[derive(Drop)]
pub struct Finished<P: Kinds<F, W, E, G>, F, W, E, G> {
    hold: Hold,
    what: E,
    tag: PhantomData<(P, F, W, G)>,
}

impl<P: Kinds<F, W, E, G>, F, W, E, G> Model for Finished<P, F, W, E, G> {
    ghost use Rattle.ep_registry.specs.declared.hold.Hold.{Hold};

    ghost Value = { Hold };

    ghost view = { λ f. f.hold };

    ghost invariant = { λ f. P.over f.hold f.what };
}

impl<P: Kinds<F, W, E, G>, F, W, E, G> Finished<P, F, W, E, G> {
    pub(crate) fn new(hold: Hold, what: E) -> Finished<P, F, W, E, G>
        requires { P.over hold what }
        ensures { result ≡ hold }
    {
        Finished {
            hold,
            what,
            tag: PhantomData,
        }
    }

    /// What was known of the session, and what is left of it.
    pub fn open(self) -> (Hold, E)
        ensures { (result.0 ≡ self) × P.over self result.1 }
    {
        (self.hold, self.what)
    }
}

/// What is left of the sessions, by id from 1, with a place for each connection. Contracts see what was known of each
/// that has ended.
#[derive(Drop)]
pub struct Overs<P: Kinds<F, W, E, G>, F, W, E, G> {
    places: Vec<Option<Finished<P, F, W, E, G>>>,
}

impl<P: Kinds<F, W, E, G>, F, W, E, G> Model for Overs<P, F, W, E, G> {
    ghost use Rattle.std.specs.Prelude.{◌≡◌, List, Option, length};
    ghost use Rattle.ep_journal.specs.declared.limits.TheConstants.{CONNECTIONS};
    ghost use Rattle.ep_registry.specs.declared.hold.Hold.{Hold};

    ghost Value = { List (Option Hold) };

    ghost view = { λ o. o.places.items };

    ghost invariant = { λ o. length o.places.items ≡ CONNECTIONS };
}

impl<P: Kinds<F, W, E, G>, F, W, E: Drop, G> Overs<P, F, W, E, G> {
    /// No session has ended.
    pub fn new(alloc: Global) -> Result<Overs<P, F, W, E, G>, AllocError>
        ensures { IfOk result (λ overs. overs ≡ replicate CONNECTIONS None) }
    {
        let places = empty_places(alloc, CONNECTIONS as u32)?;
        Ok(Overs { places })
    }

    /// Keeps what is left of a session under its id.
    pub fn put(&mut self, finished: Finished<P, F, W, E, G>)
        requires { (0 < finished.id) × (finished.id ≤ CONNECTIONS) }
        ensures { self.new ≡ with_item self.old finished.id (Some finished) }
    {
        let id = finished.hold.id as usize;
        self.places[id - 1] = Some(finished);
    }

    /// All that is left, by id.
    pub fn into_places(self) -> Vec<Option<Finished<P, F, W, E, G>>>
        ensures { result.items ≡ self }
    {
        self.places
    }
}
