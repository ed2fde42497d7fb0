//! A session in a slot of one row.
ghost use Rattle.std.specs.Prelude.{◌<◌};
ghost use Rattle.ep_pool.specs.Shared.{IsSeatOf};
ghost use Rattle.ep_guarded.specs.Granted.{IsGrantFor};
ghost use Rattle.ep_guarded.specs.Tied.{buffer_number};
ghost use Rattle.ep_live.specs.Made.{IsHandTie};

use ep_defs::Marks;
use ep_guarded::{Agreed, Grant, Program, Site, ToOpen};
use ep_live::{Live, Stands};
use ep_pool::PoolSeat;
use ep_slot::Hand;
use ep_tie::Right;
use std::alloc::Global;
use std::marker::Model;
use std::sync::Wait;

/// A seat that has counted so far is not used any more.
const MOST: u64 = 1_000_000;

/// Marks as numbers, and the last number of the batch beside them.
fn line_of(marks: &Marks, last: u32) -> [u64; 6] {
    let Marks {
        thread,
        from,
        to,
        taken,
        refused,
    } = *marks;
    [
        thread,
        u64::from(from),
        u64::from(to),
        u64::from(taken),
        u64::from(refused),
        u64::from(last),
    ]
}

/// The marks of which is known how much the session had, and not how much of it was refused.
pub(super) fn whole(marks: &Marks) -> [u64; 6] {
    let [thread, from, to, taken, refused, _] = line_of(marks, 0);
    [thread, from, to, taken.saturating_add(refused), 0, 0]
}

/// A session that may be open in a slot of one row, with what it was granted. Contracts see its slot.
#[derive(Drop)]
pub(super) struct Place<'a, P: Program> {
    number: u32,
    slot: u32,
    half: Right<P, Agreed<'a>>,
    grant: &'a Grant,
    seat: PoolSeat,
    hand: Option<Hand>,
}

impl<'a, P: Program> Model for Place<'a, P> {
    ghost use Rattle.std.specs.Prelude.{ℕ};
    ghost use Rattle.ep_live_tests.specs.Runs.{IsPlace};

    ghost Value = { ℕ };

    ghost view = { λ p. p.slot };

    ghost invariant = { λ p. IsPlace P.rows P.events p.number p.slot p.half p.grant.now p.seat p.hand };
}

impl<'a, P: Program> Place<'a, P> {
    pub(super) fn new(
        number: u32,
        slot: u32,
        half: Right<P, Agreed<'a>>,
        grant: &'a Grant,
        seat: PoolSeat,
    ) -> Place<'a, P>
        requires row { number < P.rows }
        requires slot { slot < 64 }
        requires half { IsHandTie P.rows (buffer_number number slot) half }
        requires admitted { IsGrantFor P.events grant.now }
        requires seat { IsSeatOf grant.now.pool seat }
    {
        Place {
            number,
            slot,
            half,
            grant,
            seat,
            hand: None,
        }
    }

    /// Opens the session in this life of the row, unless it is open.
    pub(super) fn open<R: Wait>(
        &mut self,
        rt: &R,
        alloc: Global,
        live: &Live<'a, P>,
        life: u32,
    ) -> bool {
        if self.hand.is_some() || self.seat.share() < 2 {
            return false;
        }
        let mut none = Stands::none(alloc);
        let asked = ToOpen {
            site: Site {
                number: self.number as usize,
                slot: self.slot,
                life,
            },
            session: 5,
            grant: self.grant,
        };
        let opened = live.open(rt, alloc, &asked, &mut self.half, &mut none, &mut self.seat);
        self.hand = opened.ok();
        self.hand.is_some()
    }

    /// Takes what is pending, and gives the chunks back. Gives the last number, or 0.
    pub(super) fn steal<R: Wait>(&mut self, rt: &R, live: &Live<'a, P>) -> u32 {
        if self.seat.given() >= MOST {
            return 0;
        }
        let Some(mut hand) = self.hand.take() else {
            return 0;
        };
        let number = self.number as usize;
        let batch = live.steal(rt, number, self.slot, &mut self.half, &mut hand);
        self.hand = Some(hand);
        self.grant.pool.give(rt, &mut self.seat, batch.chain);
        batch.last
    }

    /// Closes the session wherever the row's thread stands, and gives the chunks back. Gives the marks, and the last number.
    pub(super) fn close<R: Wait>(&mut self, rt: &R, alloc: Global, live: &Live<'a, P>) -> [u64; 6] {
        if self.seat.taken() >= MOST || self.seat.given() >= MOST {
            return [0; 6];
        }
        let Some(hand) = self.hand.take() else {
            return [0; 6];
        };
        let mut none = Stands::none(alloc);
        let site = Site {
            number: self.number as usize,
            slot: self.slot,
            life: 0,
        };
        let (batch, marks) = live.close(rt, site, &mut self.half, &mut none, hand, &mut self.seat);
        self.grant.pool.give(rt, &mut self.seat, batch.chain);
        line_of(&marks, batch.last)
    }

    /// Closes the session where the row serves this life and its thread has made so many writes, and gives the chunks back.
    pub(super) fn close_done<R: Wait>(
        &mut self,
        rt: &R,
        live: &Live<'a, P>,
        life: u32,
        writes: u32,
    ) -> [u64; 6] {
        if self.seat.taken() >= MOST || self.seat.given() >= MOST {
            return [0; 6];
        }
        let Some(hand) = self.hand.take() else {
            return [0; 6];
        };
        let site = Site {
            number: self.number as usize,
            slot: self.slot,
            life,
        };
        match live.close_done(rt, site, writes, &mut self.half, hand, &mut self.seat) {
            Ok((batch, marks)) => {
                self.grant.pool.give(rt, &mut self.seat, batch.chain);
                line_of(&marks, batch.last)
            }
            Err(back) => {
                self.hand = Some(back);
                [0; 6]
            }
        }
    }

    /// The shares of its seat, and how many chunks were taken and given through it.
    pub(super) fn counts(&self) -> [u64; 3] {
        [
            u64::from(self.seat.share()),
            self.seat.taken(),
            self.seat.given(),
        ]
    }
}
