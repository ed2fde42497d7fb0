//! What a seat at the table knows, the rule over all seats, and the steps that keep it.
use atomic_table::{Join, Play, Seat, Split, Table, TableRule};
use std::alloc::Global;
use std::marker::{Brand, PhantomData};

/// What a seat at the table knows. No value of it is made.
pub enum Sight<V> {
    /// Nothing: its tie went into another seat.
    Spent,
    /// The place that is made next.
    Maker(u64),
    /// One half of the tie at a place, and its value.
    Half(u64, V),
    /// Both halves of the tie at a place, and the value of each.
    Whole(u64, V, V),
}

/// Two halves of one place have one value.
pub struct Agreement;

impl<V> TableRule<(), Sight<V>, ()> for Agreement {
    ghost use Rattle.ep_tie.specs.Seats.{Agrees};
    ghost use Rattle.ep_tie.specs.declared.steps.Sight.TheVariants.{Maker};

    ghost holds = { λ _ s. Agrees s.views };

    ghost first = { λ _. Maker 0 };
}

pub type TieTable<V> = Table<(), Sight<V>, (), Agreement, Global>;

pub type TieSeat<V> = Seat<(), Sight<V>>;

/// A seat that knows nothing.
pub struct Sit;

impl<V> Play<(), Sight<V>> for Sit {
    ghost use Rattle.ep_tie.specs.Seats.{sat};

    ghost then = { sat };
}

/// A look at two halves that have met.
pub struct Look;

impl<V> Play<(), Sight<V>> for Look {
    ghost use Rattle.ep_tie.specs.Seats.{looked};

    ghost then = { looked };
}

/// Two halves meet in one seat.
pub struct Meeting;

impl<V> Join<Sight<V>> for Meeting {
    ghost use Rattle.ep_tie.specs.Seats.{met};
    ghost use Rattle.ep_tie.specs.declared.steps.Sight.TheVariants.{Spent};

    ghost both = { met };

    ghost spent = { Spent };
}

/// Two halves part, with the value that they have.
pub struct Parting;

impl<V> Split<Sight<V>> for Parting {
    ghost use Rattle.ep_tie.specs.Seats.{parted};

    ghost left = { parted };

    ghost right = { parted };
}

/// The value that a step brings. A call picks it where it passes `Brand`.
pub trait Brought<V> {
    ghost use Rattle.std.specs.Prelude.{Option};

    ghost value: { Option V };
}

impl<V> Brought<V> for Brand {
    ghost use Rattle.std.specs.Prelude.{None};

    ghost value = { None };
}

/// Two halves part, with a value that is brought.
pub struct Setting<X> {
    brought: PhantomData<X>,
}

impl<V, X: Brought<V>> Split<Sight<V>> for Setting<X> {
    ghost use Rattle.ep_tie.specs.Seats.{parted_with};

    ghost left = { parted_with X.value };

    ghost right = { parted_with X.value };
}

/// The maker makes a tie at its next place, with a value that is brought.
pub struct Making<X> {
    brought: PhantomData<X>,
}

impl<V, X: Brought<V>> Split<Sight<V>> for Making<X> {
    ghost use Rattle.ep_tie.specs.Seats.{after_making, made};

    ghost left = { after_making };

    ghost right = { made X.value };
}
