//! Who has a session.
ghost use Rattle.std.specs.Prelude.{◌≡◌, ◌-◌, ◌<◌, ◌≤◌, IsTrue, length, Some, slice_get, slice_set};
ghost use Rattle.ep_table.specs.declared.limits.TheConstants.{SLOTS};
ghost use Rattle.ep_journal.specs.declared.limits.TheConstants.{CONNECTIONS};
ghost use Rattle.ep_journal.specs.Recorded.{goes_on};

use crate::ends::Ends;
use ep_journal::limits::CONNECTIONS;
use ep_journal::{Opened, Stage};
use ep_tie::{Named, Right};
use std::marker::Model;

/// What is known of a session by whoever has it.
#[derive(Clone, Copy, Debug, PartialEq, Eq)]
pub struct Hold {
    /// Its id, from 1.
    pub id: u64,
    /// The connection that asked for it, from 1.
    pub conn: u32,
    /// Its slot, from 0.
    pub slot: u32,
    pub stage: Stage,
    /// Whether it was opened on all rows.
    pub opened: Opened,
}

/// The half of a tie that goes with a session, from the server to its role. The registry has the other half, so that
/// both know the same of the session. The session goes on: its end takes the half. Contracts see what is known of it.
#[derive(Drop)]
pub struct Holder<S: Named> {
    hold: Hold,
    half: Right<S, Option<Hold>>,
}

impl<S: Named> Model for Holder<S> {
    ghost use Rattle.ep_registry.specs.declared.hold.Hold.{Hold};
    ghost use Rattle.ep_registry.specs.Held.{IsHolder};

    ghost Value = { Hold };

    ghost view = { λ h. h.hold };

    ghost invariant = { λ h. IsHolder h.hold h.half };
}

impl<S: Named> Holder<S> {
    pub(crate) fn new(
        holds: &mut Ends<S, Option<Hold>>,
        half: Right<S, Option<Hold>>,
        hold: Hold,
    ) -> Holder<S>
        requires known { (0 < hold.id) × (hold.id ≤ CONNECTIONS) }
        requires slot { hold.slot < SLOTS }
        requires on { IsTrue (goes_on hold.stage) }
        requires place { half.place ≡ CONNECTIONS - hold.id }
        requires all { length holds.old ≡ CONNECTIONS }
        ensures holds { holds.new ≡ slice_set holds.old (CONNECTIONS - hold.id) (Some (Some hold)) }
        ensures value { result ≡ hold }
    {
        let mut half = half;
        holds.set(CONNECTIONS - hold.id as usize, &mut half, &Some(hold));
        Holder { hold, half }
    }

    /// What is known of the session.
    pub fn hold(&self) -> Hold
        ensures value { result ≡ self.now }
        ensures known { (0 < result.id) × (result.id ≤ CONNECTIONS) }
        ensures slot { result.slot < SLOTS }
        ensures on { IsTrue (goes_on result.stage) }
    {
        self.hold
    }

    pub(crate) fn meet(&mut self, holds: &mut Ends<S, Option<Hold>>)
        requires all { length holds.old ≡ CONNECTIONS }
        ensures known { (0 < self.old.id) × (self.old.id ≤ CONNECTIONS) }
        ensures on { IsTrue (goes_on self.old.stage) }
        ensures equal { slice_get holds.old (CONNECTIONS - self.old.id) ≡ Some (Some (Some self.old)) }
        ensures same { (self.new ≡ self.old) × (holds.new ≡ holds.old) }
    {
        let place = CONNECTIONS - self.hold.id as usize;
        holds.meet(place, &mut self.half);
    }

    pub(crate) fn put(&mut self, holds: &mut Ends<S, Option<Hold>>, hold: Hold)
        requires all { length holds.old ≡ CONNECTIONS }
        requires same { (hold.id ≡ self.old.id) × (hold.slot ≡ self.old.slot) }
        requires on { IsTrue (goes_on hold.stage) }
        ensures holds { holds.new ≡ slice_set holds.old (CONNECTIONS - hold.id) (Some (Some hold)) }
        ensures value { self.new ≡ hold }
    {
        let place = CONNECTIONS - self.hold.id as usize;
        holds.set(place, &mut self.half, &Some(hold));
        self.hold = hold;
    }

    // The last that is known of the session, which nobody has from then on.
    pub(crate) fn close(self, holds: &mut Ends<S, Option<Hold>>, hold: Hold)
        requires all { length holds.old ≡ CONNECTIONS }
        requires same { hold.id ≡ self.id }
        ensures { holds.new ≡ slice_set holds.old (CONNECTIONS - hold.id) (Some (Some hold)) }
    {
        let place = CONNECTIONS - self.hold.id as usize;
        let mut half = self.half;
        holds.set(place, &mut half, &Some(hold));
    }
}
