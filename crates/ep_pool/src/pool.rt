//! A pool that threads share.
ghost use Rattle.std.specs.Prelude.{◌≡◌, ◌+◌, ◌-◌, ◌<◌, ◌≤◌, [], ◌∷◌, length, is_some, if◌then◌else◌, IfOk, IfSome, IfNone, IsNone, ◌↔◌};
ghost use Rattle.crossbeam_queue.specs.Passes.{view, IsSamePass, IsPassOf};
ghost use Rattle.ep_pool.specs.declared.limits.TheConstants.{SEAT_COUNTS};
ghost use Rattle.ep_pool.specs.declared.steps.Known.TheVariants.{Unborn};
ghost use Rattle.ep_pool.specs.Shared.{IsSeatOf};
ghost use Rattle.ep_pool.specs.Deals.{Moment, IsStaked, born, gave};

use crate::own_pool::cleared;
use crate::seat::PoolSeat;
use crate::steps::{
    Birth, Counting, Drying, Giving, Joining, Levelling, Numbers, Parting, Queue, QueuePass, Taking,
};
use ep_chunk::{Chain, Chunk};
use std::alloc::{AllocError, Global};
use std::marker::{Brand, Model};
use std::sync::Wait;
use std::thread::yield_now;

/// Chunks that threads take and give by reference, without a lock. Those that are not out stand in a queue.
#[derive(Drop)]
pub struct Pool {
    queue: Queue,
    total: u32,
}

impl Model for Pool {
    ghost use Rattle.std.specs.Prelude.{◌≡◌, ◌<◌, ◌^◌};
    ghost use Rattle.ep_pool.specs.Shared.{SharedPool};

    ghost Value = { SharedPool };

    ghost view = { λ p. record { pool = p.queue.table.shared.table_id; total = p.total } };

    ghost invariant = { λ p. (p.queue.cap ≡ p.total) × (p.total < 2 ^ 32) };
}

impl Pool {
    /// A pool of this many chunks, all of them free and reserved, and its first seat, which has all of this many
    /// shares.
    pub fn new<R: Wait>(
        rt: &R,
        alloc: Global,
        chunks: u32,
        seats: u32,
    ) -> Result<(Pool, PoolSeat), AllocError>
        requires chunks { 0 < chunks }
        requires seats { 0 < seats }
        ensures pool { IfOk result (λ made. made.0.total ≡ chunks) }
        ensures seat { IfOk result (λ made. made.1
            ≡ record { pool = made.0.pool; total = chunks; seats = seats; share = seats; taken = 0; given = 0; dry = 0 }) }
    {
        let (queue, mut unborn) = Queue::ruled(alloc, chunks as usize)?;
        let mut seat = PoolSeat {
            pass: first::<Brand>(&queue, &mut unborn, chunks, seats),
            share: seats,
            taken: u64::from(chunks),
            given: 0,
        };
        let pool = Pool {
            queue,
            total: chunks,
        };
        for _ in 0..chunks {
            let chunk = Chunk::new(alloc)?;
            match Chain::one(alloc, chunk) {
                Ok(one) => pool.give(rt, &mut seat, one),
                Err(_) => return Err(AllocError),
            }
        }
        pool.level(&mut seat);
        Ok((pool, seat))
    }

    /// A chain of one empty chunk, which the seat counts as taken. None where the pool's queue was found empty, which
    /// the seat counts as dry: no other call raises that count. It takes no memory, and may wait.
    pub fn take<R: Wait>(&self, rt: &R, seat: &mut PoolSeat) -> Option<Chain>
        requires own { IsSeatOf self.now seat.old }
        requires few { seat.old.taken < SEAT_COUNTS }
        ensures one { IfSome result (λ chain. chain ≡ [] ∷ []) }
        ensures none { IsNone result ↔ (seat.new.dry ≡ seat.old.dry + 1) }
        ensures all { seat.old.share ≡ seat.old.seats
            → IfNone result (seat.old.taken ≡ seat.old.total + seat.old.given) }
        ensures some { seat.old.share ≡ seat.old.seats
            → IfSome result (λ _. seat.old.taken < seat.old.total + seat.old.given) }
        ensures seat { seat.new
            ≡ (if is_some result
            then record seat.old { taken = seat.old.taken + 1 }
            else record seat.old { dry = seat.old.dry + 1 }) }
    {
        let got = self.queue.pop_as::<Taking, R>(rt, &mut seat.pass);
        match got {
            Some(_) => seat.taken += 1,
            None => self.count_dry(seat),
        }
        got
    }

    /// Gives the chunks of a chain back, without their records. No chunk is lost: where the queue seems full it tries
    /// again. It takes no memory, and may wait.
    pub fn give<R: Wait>(&self, rt: &R, seat: &mut PoolSeat, chain: Chain)
        requires own { IsSeatOf self.now seat.old }
        requires few { seat.old.given + length chain < SEAT_COUNTS }
        ensures { seat.new ≡ record seat.old { given = seat.old.given + length chain } }
    {
        let mut left = chain;
        while let Some(one) = left.split_first() {
            self.put(rt, seat, cleared(one));
        }
    }

    /// Gives one of the seat's shares to a seat of its own. It takes no memory.
    pub fn split(&self, seat: &mut PoolSeat) -> PoolSeat
        requires own { IsSeatOf self.now seat.old }
        requires share { 1 < seat.old.share }
        ensures seat { seat.new ≡ record seat.old { share = seat.old.share - 1 } }
        ensures other { result ≡ record seat.old { share = 1; taken = 0; given = 0; dry = 0 } }
    {
        let pass = self.queue.another::<Parting>(&mut seat.pass);
        seat.share -= 1;
        PoolSeat {
            pass,
            share: 1,
            taken: 0,
            given: 0,
        }
    }

    /// Puts the shares and the counts of another seat to those of this one. It takes no memory.
    pub fn join(&self, seat: &mut PoolSeat, other: PoolSeat)
        requires own { IsSeatOf self.now seat.old × IsSeatOf self.now other }
        requires taken { seat.old.taken + other.taken < SEAT_COUNTS }
        requires given { seat.old.given + other.given < SEAT_COUNTS }
        ensures { seat.new
            ≡ record seat.old { share = seat.old.share + other.share; taken = seat.old.taken + other.taken; given = seat.old.given + other.given; dry = seat.old.dry + other.dry } }
    {
        let PoolSeat {
            pass,
            share,
            taken,
            given,
        } = other;
        self.queue.absorb::<Joining>(&mut seat.pass, pass);
        self.queue.learn_as::<Counting>(&mut seat.pass);
        seat.share += share;
        seat.taken += taken;
        seat.given += given;
    }

    /// How many chunks are free, for a seat with all shares. For one with a part of them it is how many were at one
    /// moment of the call, of which its contract says only that they are not more than all. It may wait.
    pub fn free<R: Wait>(&self, rt: &R, seat: &mut PoolSeat) -> u32
        requires { IsSeatOf self.now seat.old }
        ensures within { result ≤ self.now.total }
        ensures all { seat.old.share ≡ seat.old.seats
            → result + seat.old.taken ≡ seat.old.total + seat.old.given }
        ensures seat { seat.new ≡ seat.old }
    {
        self.queue.len_as::<Counting, R>(rt, &mut seat.pass) as u32
    }

    /// Takes all chunks, one by one, and lets go of their memory: as many as the pool has, since the seat has all shares and
    /// each chunk that was taken is back. The seat counts them as taken. It may wait.
    pub fn drain<R: Wait>(&self, rt: &R, seat: &mut PoolSeat)
        requires own { IsSeatOf self.now seat.old }
        requires alone { seat.old.share ≡ seat.old.seats }
        requires back { seat.old.taken ≡ seat.old.given }
        requires few { seat.old.taken + seat.old.total < SEAT_COUNTS }
        ensures { seat.new ≡ record seat.old { taken = seat.old.taken + seat.old.total } }
    {
        for _ in 0..self.total {
            match self.take(rt, seat) {
                Some(chunk) => drop(chunk),
                None => unreachable!(),
            }
        }
    }

    /// How many chunks the pool has, free ones and others.
    pub fn total(&self) -> u32
        ensures { result ≡ self.now.total }
    {
        self.total
    }
}

impl Pool {
    fn put<R: Wait>(&self, rt: &R, seat: &mut PoolSeat, one: Chain)
        requires own { IsSeatOf self.now seat.old }
        requires empty { one ≡ [] ∷ [] }
        requires few { seat.old.given + 1 < SEAT_COUNTS }
        ensures { seat.new ≡ record seat.old { given = seat.old.given + 1 } }
    {
        push(rt, &self.queue, &mut seat.pass, one);
        seat.given += 1;
    }

    // Counts that the queue was found empty.
    fn count_dry(&self, seat: &mut PoolSeat)
        requires { IsSeatOf self.now seat.old }
        ensures { seat.new ≡ record seat.old { dry = seat.old.dry + 1 } }
    {
        self.queue.another::<Drying>(&mut seat.pass);
    }

    // Takes equal counts away.
    fn level(&self, seat: &mut PoolSeat)
        requires own { IsSeatOf self.now seat.old }
        requires equal { seat.old.taken ≡ seat.old.given }
        ensures { seat.new ≡ record seat.old { taken = 0; given = 0 } }
    {
        self.queue.another::<Levelling>(&mut seat.pass);
        seat.taken = 0;
        seat.given = 0;
    }
}

// The pass of the first seat.
fn first<X: Numbers>(queue: &Queue, unborn: &mut QueuePass, chunks: u32, seats: u32) -> QueuePass
    requires numbers { (X.total ≡ chunks) × (X.seats ≡ seats) }
    requires some { 0 < seats }
    requires own { IsPassOf queue.now unborn.old }
    requires unborn { view unborn.old ≡ Unborn }
    ensures own { IsPassOf queue.now result }
    ensures born { view result ≡ born chunks seats Unborn }
{
    let _ = (chunks, seats);
    queue.another::<Birth<X>>(unborn)
}

// Puts an empty chunk at the queue's end. The queue can seem full while others are inside their calls.
fn push<R: Wait>(rt: &R, queue: &Queue, pass: &mut QueuePass, one: Chain)
    requires own { IsPassOf queue.now pass.old }
    requires staked { IsStaked (view pass.old) }
    requires empty { one ≡ [] ∷ [] }
    ensures own { IsSamePass pass.old pass.new }
    ensures gave { view pass.new ≡ gave (view pass.old) }
{
    let mut left = one;
    for _ in rt.forever() {
        match queue.push_as::<Giving, R>(rt, pass, left) {
            Ok(()) => return,
            Err(back) => left = back,
        }
        yield_now();
    }
    unreachable!()
}
