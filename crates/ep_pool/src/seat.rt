//! A seat of a shared pool, and the purse over it.
ghost use Rattle.std.specs.Prelude.{◌≡◌, ◌+◌, ◌<◌, length};
ghost use Rattle.ep_pool.specs.declared.limits.TheConstants.{SEAT_COUNTS};
ghost use Rattle.ep_pool.specs.Shared.{IsSeatOf};

use crate::pool::Pool;
use crate::purse::Purse;
use crate::steps::QueuePass;
use ep_chunk::Chain;
use std::marker::Model;
use std::sync::Wait;

/// A seat of a pool: who has it takes and gives chunks. It counts them, and has at least one of the pool's shares.
#[derive(Drop)]
pub struct PoolSeat {
    pub(crate) pass: QueuePass,
    pub(crate) share: u32,
    pub(crate) taken: u64,
    pub(crate) given: u64,
}

impl Model for PoolSeat {
    ghost use Rattle.std.specs.Prelude.{◌≡◌, [], ◌<◌, ◌^◌};
    ghost use Rattle.ep_pool.specs.Shared.{SeatState};
    ghost use Rattle.ep_pool.specs.Deals.{IsStaked, seat_of, share_of, taken_of, given_of, seats_of};

    ghost Value = { SeatState };

    ghost view = { λ s. seat_of s.pass.table_id s.pass.me.0.client };

    ghost invariant = { λ s. (s.pass.me.1 ≡ []) × IsStaked s.pass.me.0.client × (share_of s.pass.me.0.client ≡ s.share) × (taken_of s.pass.me.0.client ≡ s.taken) × (given_of s.pass.me.0.client ≡ s.given) × (seats_of s.pass.me.0.client < 2 ^ 32) };
}

impl PoolSeat {
    /// How many chunks were taken through this seat.
    pub fn taken(&self) -> u64
        ensures { result ≡ self.now.taken }
    {
        self.taken
    }

    /// How many chunks were given through this seat.
    pub fn given(&self) -> u64
        ensures { result ≡ self.now.given }
    {
        self.given
    }

    /// How many of the pool's shares this seat has.
    pub fn share(&self) -> u32
        ensures { result ≡ self.now.share }
    {
        self.share
    }
}

/// A seat of a pool, lent as a purse. Its calls may wait.
#[derive(Drop)]
pub struct Seated<'a, R: Wait> {
    pub rt: &'a R,
    pub pool: &'a Pool,
    pub seat: &'a mut PoolSeat,
}

impl<R: Wait> Purse for Seated<'_, R> {
    ghost use Rattle.std.specs.Prelude.{◌≡◌, ◌+◌, ◌<◌};
    ghost use Rattle.ep_pool.specs.Shared.{SeatState};

    ghost total = { λ p. p.pool.now.total };

    ghost can_take = { λ p. IsSeatOf p.pool.now p.seat.now × (p.seat.now.taken < SEAT_COUNTS) };

    ghost can_give = { λ p chunks. IsSeatOf p.pool.now p.seat.now × (p.seat.now.given + chunks < SEAT_COUNTS) };

    ghost got = { λ old new. (new.pool.now ≡ old.pool.now)
        × (new.seat.ghost_name ≡ old.seat.ghost_name)
        × (new.seat.now ≡ record old.seat.now { taken = old.seat.now.taken + 1 }) };

    ghost dry = { λ old new. (new.pool.now ≡ old.pool.now)
        × (new.seat.ghost_name ≡ old.seat.ghost_name)
        × (new.seat.now ≡ record old.seat.now { dry = old.seat.now.dry + 1 }) };

    /// A chain of one empty chunk. None exactly where the pool was found dry, which the seat counts. It takes no memory,
    /// and may wait.
    fn take(&mut self) -> Option<Chain> {
        self.pool.take(self.rt, self.seat)
    }

    /// Gives the chunks of a chain back. It takes no memory, and may wait.
    fn give(&mut self, chain: Chain)
        requires { IsSeatOf self.old.pool.now self.old.seat.now
            × (self.old.seat.now.given + length chain < SEAT_COUNTS) }
        ensures seat { self.new.seat.now ≡ record self.old.seat.now { given = self.old.seat.now.given + length chain } }
        ensures same { (self.new.pool.now ≡ self.old.pool.now)
            × (self.new.seat.ghost_name ≡ self.old.seat.ghost_name) }
    {
        self.pool.give(self.rt, self.seat, chain);
    }

    fn total(&self) -> u32 {
        self.pool.total()
    }

    ghost use Rattle.std.proofs.Common.{ap, ◌∙◌, sym, arith};

    ghost got_is_not_dry = { λ old new got dry.
        let same = sym (ap (λ (s : SeatState). s.taken) got.2) ∙ ap (λ (s : SeatState). s.taken) dry.2 in
        omega (arith, same) };
}
