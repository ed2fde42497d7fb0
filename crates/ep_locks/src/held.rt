//! The right to give a value back.
use crate::steps::Place;
use std::marker::Model;

/// The right to give back the value of one lock, which is taken as long as this lasts. It can't be let go: it ends by
/// `Locks::put` alone. Contracts see the row of locks and the number.
pub struct Held<T> {
    pub(crate) place: Place<T>,
    pub(crate) number: usize,
}

impl<T> Model for Held<T> {
    ghost use Rattle.std.specs.Prelude.{◌≡◌, [], ◌∷◌, None};
    ghost use Rattle.ep_locks.specs.Locks.{LockTaken};
    ghost use Rattle.ep_locks.specs.Row.{place_of, IsWithin};

    ghost Value = { LockTaken };

    ghost view = { λ h. record { row = h.place.table_id; number = h.number } };

    ghost invariant = { λ h. IsWithin h.place.table_id h.number × (h.place.me.1 ≡ (place_of h.number, None) ∷ []) };
}
