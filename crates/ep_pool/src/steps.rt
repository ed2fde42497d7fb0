//! What a seat of a shared pool knows, the rule over all seats, and the steps that keep it.
use crossbeam_queue::protocol::{Join, Lesson, Outcome, Protocol, Split};
use crossbeam_queue::{Pass, RuledArrayQueue};
use ep_chunk::Chain;
use std::marker::{Brand, PhantomData};

/// What a seat has of its pool. No value of it is made.
pub struct Stake {
    /// The chunks of the pool.
    pub total: u32,
    /// The shares of the pool.
    pub seats: u32,
    /// The shares of this seat.
    pub share: u32,
    /// How many chunks were taken through this seat.
    pub taken: u64,
    /// How many chunks were given through this seat.
    pub given: u64,
    /// How often a take through this seat found no chunk.
    pub dry: u64,
}

/// What a seat knows. No value of it is made.
pub enum Known {
    /// The pool has no seat yet.
    Unborn,
    /// Nothing: what it had went into another seat.
    Spent,
    Staked(Stake),
}

/// The chunks in the queue and those that are out are all chunks of the pool.
pub struct Dealing;

impl Protocol<Chain, Known> for Dealing {
    ghost use Rattle.ep_pool.specs.Deals.{Deals};
    ghost use Rattle.ep_pool.specs.declared.steps.Known.TheVariants.{Unborn};

    ghost holds = { Deals };

    ghost first = { Unborn };
}

pub type Queue = RuledArrayQueue<Chain, Known, Dealing>;

pub type QueuePass = Pass<Chain, Known>;

/// How many chunks and shares a new pool has. A call picks them where it passes `Brand`.
pub trait Numbers {
    ghost use Rattle.std.specs.Prelude.{ℕ};

    ghost total: { ℕ };

    ghost seats: { ℕ };
}

impl Numbers for Brand {
    ghost total = { 0 };

    ghost seats = { 0 };
}

/// The first seat comes, with all shares.
pub struct Birth<X> {
    numbers: PhantomData<X>,
}

impl<X: Numbers> Split<Known> for Birth<X> {
    ghost use Rattle.ep_pool.specs.Deals.{born};
    ghost use Rattle.ep_pool.specs.declared.steps.Known.TheVariants.{Spent};

    ghost left = { λ _. Spent };

    ghost right = { born X.total X.seats };
}

/// Counts that are equal are taken away.
pub struct Levelling;

impl Split<Known> for Levelling {
    ghost use Rattle.ep_pool.specs.Deals.{levelled};
    ghost use Rattle.ep_pool.specs.declared.steps.Known.TheVariants.{Spent};

    ghost left = { levelled };

    ghost right = { λ _. Spent };
}

/// A take found no chunk.
pub struct Drying;

impl Split<Known> for Drying {
    ghost use Rattle.ep_pool.specs.Deals.{dried};
    ghost use Rattle.ep_pool.specs.declared.steps.Known.TheVariants.{Spent};

    ghost left = { dried };

    ghost right = { λ _. Spent };
}

/// One share goes to a seat of its own.
pub struct Parting;

impl Split<Known> for Parting {
    ghost use Rattle.ep_pool.specs.Deals.{parted, apart};

    ghost left = { parted };

    ghost right = { apart };
}

/// What two seats have goes to one of them.
pub struct Joining;

impl Join<Known> for Joining {
    ghost use Rattle.ep_pool.specs.Deals.{joined};
    ghost use Rattle.ep_pool.specs.declared.steps.Known.TheVariants.{Spent};

    ghost both = { joined };

    ghost spent = { Spent };
}

/// A chunk is taken, or the queue is found empty.
pub struct Taking;

impl Outcome<Chain, Known> for Taking {
    ghost use Rattle.std.specs.Prelude.{◌≡◌, [], ◌∷◌};
    ghost use Rattle.ep_pool.specs.Deals.{took, KnowsFree};

    ghost then = { λ k chain after. (chain ≡ [] ∷ []) × (after ≡ took k) × KnowsFree k };
}

impl Lesson<Chain, Known> for Taking {
    ghost use Rattle.std.specs.Prelude.{length};
    ghost use Rattle.ep_pool.specs.Deals.{Moment};

    ghost fact = { λ k queue. Moment k (length queue) };
}

/// A chunk is given.
pub struct Giving;

impl Outcome<Chain, Known> for Giving {
    ghost use Rattle.std.specs.Prelude.{◌≡◌};
    ghost use Rattle.ep_pool.specs.Deals.{gave};

    ghost then = { λ k _ after. after ≡ gave k };
}

impl Lesson<Chain, Known> for Giving {
    ghost use Rattle.std.specs.Prelude.{length};
    ghost use Rattle.ep_pool.specs.Deals.{Moment};

    ghost fact = { λ k queue. Moment k (length queue) };
}

/// The free chunks are counted.
pub struct Counting;

impl Lesson<Chain, Known> for Counting {
    ghost use Rattle.std.specs.Prelude.{length};
    ghost use Rattle.ep_pool.specs.Deals.{Moment};

    ghost fact = { λ k queue. Moment k (length queue) };
}
