//! The rule over the words and values of a row of locks, and the steps that keep it.
use atomic_table::{Play, Seat, Table, TableRule};
use std::alloc::Global;
use std::marker::PhantomData;

/// What holds of the value under the lock of each number.
pub trait Guards<T> {
    ghost use Rattle.std.specs.Prelude.{ℕ};

    ghost holds: { ℕ → T → Type 0 };
}

/// A lock's value is at home where its word is free, and meets what holds under its number; else it is out.
pub struct Guarded<P> {
    guards: PhantomData<P>,
}

impl<T, P: Guards<T>> TableRule<Option<T>, (), ()> for Guarded<P> {
    ghost use Rattle.ep_locks.specs.Row.{AreLocks};

    ghost holds = { λ _ s. AreLocks P.holds s };

    ghost first = { λ _. tt };
}

pub type Row<T, P> = Table<Option<T>, (), (), Guarded<P>, Global>;

pub type Place<T> = Seat<Option<T>, ()>;

/// A try to take a lock.
pub struct Taking<P> {
    guards: PhantomData<P>,
}

impl<T, P: Guards<T>> Play<Option<T>, ()> for Taking<P> {
    ghost use Rattle.ep_locks.specs.Row.{tried};

    ghost then = { tried P.holds };
}

/// A value that goes home.
pub struct Giving;

impl<T> Play<Option<T>, ()> for Giving {
    ghost use Rattle.ep_locks.specs.Row.{gave};

    ghost then = { gave };
}
