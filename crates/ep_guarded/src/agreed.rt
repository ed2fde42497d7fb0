//! What two owners agree on.
ghost use Rattle.std.specs.Prelude.{◌≡◌};

use crate::grant::Grant;
use ep_row::Opening;
use ep_slot::Hand;
use std::marker::Model;

/// What a row and a buffer both know of a session that is open there.
#[derive(Drop)]
pub struct Told<'a> {
    pub opening: Opening,
    pub thread: u64,
    pub grant: &'a Grant,
}

/// The numbers of a hand.
#[derive(Drop)]
pub struct HandNumbers {
    session: u64,
    thread: u64,
    from: u32,
    taken: u32,
    last: u32,
    stolen: u32,
}

impl Model for HandNumbers {
    ghost use Rattle.ep_slot.specs.Hand.{HandState};

    ghost Value = { HandState };

    ghost view = { λ h. record { session = h.session; thread = h.thread; from = h.from; taken = h.taken; last = h.last; stolen = h.stolen } };
}

impl HandNumbers {
    /// Those of this hand.
    pub fn of(hand: &Hand) -> HandNumbers
        ensures { result ≡ hand.now }
    {
        HandNumbers {
            session: hand.session(),
            thread: hand.thread(),
            from: hand.from(),
            taken: hand.taken(),
            last: hand.last(),
            stolen: hand.stolen(),
        }
    }
}

/// What a buffer and a hand both know.
#[derive(Drop)]
pub struct Held<'a> {
    pub numbers: HandNumbers,
    pub grant: &'a Grant,
}

/// How far a row's thread has come.
#[derive(Clone, Copy, Debug, PartialEq, Eq)]
pub struct Stand {
    pub thread: u64,
    /// How many writes it has begun.
    pub index: u32,
}

/// What two owners agree on: a row and a buffer on what is told, a buffer and a hand on what is held, a row and its
/// thread on how far it has come. It is `Nothing` where no session is open, and `Left` where the thread that the row
/// serves makes no more writes.
#[derive(Drop)]
pub enum Agreed<'a> {
    Nothing,
    Told(Told<'a>),
    Held(Held<'a>),
    Stand(Stand),
    Left(Stand),
}
