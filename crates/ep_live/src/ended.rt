//! What a session's rows leave at their end.
ghost use Rattle.std.specs.Prelude.{◌≡◌, ◌+◌};

use crate::free::Free;
use ep_guarded::{Grant, Program};
use ep_pool::PoolSeat;
use std::marker::Model;
use std::sync::Wait;

/// What the rows of a session leave that is closed everywhere and has given each chunk back: its slot, and the seat of its
/// pool with all shares. Contracts see its slot, what it was granted, and the seat.
#[derive(Drop)]
pub struct Ended<'a, P: Program> {
    pub(crate) free: Free<'a, P>,
    pub(crate) grant: &'a Grant,
    pub(crate) seat: PoolSeat,
}

impl<'a, P: Program> Model for Ended<'a, P> {
    ghost use Rattle.ep_live.specs.Free.{EndedState, HasEnded};

    ghost Value = { EndedState };

    ghost view = { λ e. record { slot = e.free; grant = e.grant.now; seat = e.seat } };

    ghost invariant = { λ e. HasEnded P.rows (record { slot = e.free; grant = e.grant.now; seat = e.seat }) };
}

impl<'a, P: Program> Ended<'a, P> {
    /// The seat of the session's pool.
    pub fn seat(&self) -> &PoolSeat
        ensures { result.now ≡ self.now.seat }
    {
        &self.seat
    }

    /// The seat of the session's pool, with all shares, once the run itself is over: the slot is not given back. The pool has
    /// as many chunks as the session was granted, and each has come back.
    pub fn into_seat(self) -> PoolSeat
        ensures seat { result ≡ self.entry.seat }
        ensures shares { result.share ≡ result.seats }
        ensures back { result.taken ≡ result.given }
        ensures chunks { result.total ≡ self.entry.grant.config.chunks }
    {
        self.seat
    }

    /// Takes all chunks out of the session's pool, and lets go of their memory. Gives the slot, for another session, and the
    /// pool's seat, which has all shares and has taken each chunk: as many as the session was granted. It may wait for the
    /// pool.
    pub fn retire<R: Wait>(self, rt: &R) -> (Free<'a, P>, PoolSeat)
        ensures slot { result.0 ≡ self.entry.slot }
        ensures shares { result.1.share ≡ result.1.seats }
        ensures drained { result.1.taken ≡ result.1.given + result.1.total }
        ensures chunks { result.1.total ≡ self.entry.grant.config.chunks }
        ensures dry { result.1.dry ≡ self.entry.seat.dry }
    {
        let Ended {
            free,
            grant,
            mut seat,
        } = self;
        // The pool has so few that no count of them runs over.
        let _chunks = grant.pool.total();
        grant.pool.drain(rt, &mut seat);
        (free, seat)
    }
}
