//! A row of locks.
ghost use Rattle.std.specs.Prelude.{◌≡◌, ℕ, ◌*◌, ◌<◌, ◌++◌, [], ◌∷◌, Some, None, IfOk, OnOk, slice_get, vec_len};
ghost use Rattle.ep_locks.specs.Row.{place_of, IsWithin, HasTaken, spread, in_its_line};

use crate::held::Held;
use crate::limits::{AWAITED, FREE, LOOKS, STRIDE, TAKEN};
use crate::steps::{Giving, Guards, Place, Row, Taking};
use std::alloc::{AllocError, Global};
use std::hint::spin_loop;
use std::marker::Model;
use std::sync::Wait;

/// Locks side by side, with the numbers from 0 on, each over one value. A value is moved out and in, so that a large
/// one belongs in a `Box`. Contracts see which row it is, and how many locks it has.
#[derive(Drop)]
pub struct Locks<T, P: Guards<T>> {
    table: Row<T, P>,
    count: usize,
}

impl<T, P: Guards<T>> Model for Locks<T, P> {
    ghost use Rattle.std.specs.Prelude.{◌≡◌, ◌^◌, ◌<◌};
    ghost use Rattle.ep_locks.specs.Locks.{LockRow};
    ghost use Rattle.ep_locks.specs.Row.{place_of};

    ghost Value = { LockRow };

    ghost view = { λ l. record { row = l.table.shared.table_id; count = l.count } };

    ghost invariant = { λ l. (l.table.shared.table_id.words ≡ place_of l.count) × (l.table.shared.table_id.slots ≡ place_of l.count) × (place_of l.count < 2 ^ 64) };
}

impl<T: Drop, P: Guards<T>> Locks<T, P> {
    /// A lock for each value, by its place in the list. Out of memory, it drops the values. It waits for nobody.
    pub fn new(alloc: Global, values: Vec<T>) -> Result<Locks<T, P>, AllocError>
        requires { (k : ℕ) (value : T) → slice_get values.items k ≡ Some value → P.holds k value }
        ensures { IfOk result (λ locks. locks.count ≡ vec_len values) }
    {
        let count = values.len();
        let slots = spread_out(alloc, values)?;
        let words = vec![in alloc; FREE; slots.len()]?;
        match Row::new(alloc, words.as_slice(), slots, &()) {
            Ok((table, _)) => Ok(Locks { table, count }),
            Err(_) => Err(AllocError),
        }
    }
}

/// A slot for each value, each in a cache line of its own.
fn spread_out<T: Drop>(alloc: Global, values: Vec<T>) -> Result<Vec<Option<T>>, AllocError>
    ensures { IfOk result (λ slots. slots.items ≡ spread values.items) }
{
    let mut slots = Vec::new(alloc);
    for value in values {
        push_line(&mut slots, value)?;
    }
    Ok(slots)
}

fn push_line<T: Drop>(slots: &mut Vec<Option<T>>, value: T) -> Result<(), AllocError>
    ensures { OnOk result (slots.new.items ≡ slots.old.items ++ in_its_line value) }
{
    slots.push(Some(value))?;
    for _filled in 1..STRIDE {
        slots.push(None)?;
    }
    Ok(())
}

impl<T, P: Guards<T>> Locks<T, P> {
    /// How many locks there are. It waits for nobody.
    pub fn count(&self) -> usize
        ensures { result ≡ self.now.count }
    {
        self.count
    }

    /// Takes the lock of this number: gives its value, which meets what holds under the number, and the right to give
    /// it back. It waits until the lock is free, and for no other lock.
    pub fn take<R: Wait>(&self, rt: &R, number: usize) -> (T, Held<T>)
        requires { number < self.now.count }
        ensures meets { P.holds number result.0 }
        ensures held { (result.1.row ≡ self.now.row) × (result.1.number ≡ number) }
    {
        let mut place = self.take_place(rt, number);
        let out = self
            .table
            .shared
            .exchange(&mut place, number * STRIDE, None);
        let Some(value) = out else { unreachable!() };
        (value, Held { place, number })
    }

    /// Gives a value back under the number that was taken, and lets the lock go. The value has to meet what holds
    /// there. It waits for nobody, and wakes one who waits.
    pub fn put(&self, held: Held<T>, value: T)
        requires own { held.row ≡ self.now.row }
        requires meets { P.holds held.number value }
    {
        let Held { mut place, number } = held;
        let out = self
            .table
            .shared
            .exchange(&mut place, number * STRIDE, Some(value));
        let None = out else { unreachable!() };
        self.let_go(&mut place, number);
    }
}

impl<T, P: Guards<T>> Locks<T, P> {
    // The seat that has the value.
    fn take_place<R: Wait>(&self, rt: &R, number: usize) -> Place<T>
        requires { number < self.now.count }
        ensures { (result.table_id ≡ self.now.row) × HasTaken P.holds number result.me }
    {
        let shared = &self.table.shared;
        let (found, place) = shared.swap_new_seat::<Taking<P>>(number * STRIDE, TAKEN);
        if found == FREE {
            return place;
        }
        self.wait_for(rt, number, found, place)
    }

    // Who found others asleep, and has hidden that by its own `TAKEN`, says so again before it sleeps or takes the
    // lock.
    #[cold]
    fn wait_for<R: Wait>(&self, rt: &R, number: usize, found: u64, mut place: Place<T>) -> Place<T>
        requires inside { number < self.now.count }
        requires empty { (place.table_id ≡ self.now.row) × (place.me.1 ≡ []) }
        ensures { (result.table_id ≡ self.now.row) × HasTaken P.holds number result.me }
    {
        let shared = &self.table.shared;
        let word = number * STRIDE;
        let mut claim = if found == TAKEN && self.looks_free_soon(word) {
            TAKEN
        } else {
            AWAITED
        };
        for _ in rt.forever() {
            if shared.swap::<Taking<P>>(&mut place, word, claim) == FREE {
                return place;
            }
            if claim == AWAITED {
                shared.park(rt, word, AWAITED as u32);
            }
            claim = AWAITED;
        }
        unreachable!()
    }

    // Looks for a while, as long as the lock is taken and nobody is known to sleep.
    fn looks_free_soon(&self, word: usize) -> bool
        requires { word < place_of self.now.count }
    {
        for _ in 0..LOOKS {
            let seen = self.table.shared.peek(word);
            if seen != TAKEN {
                return seen == FREE;
            }
            spin_loop();
        }
        false
    }

    fn let_go(&self, place: &mut Place<T>, number: usize)
        requires own { (place.old.table_id ≡ self.now.row) × IsWithin self.now.row number }
        requires meets { HasTaken P.holds number place.old.me }
        ensures { place.new.me.1 ≡ [] }
    {
        let shared = &self.table.shared;
        let word = number * STRIDE;
        if shared.swap::<Giving>(place, word, FREE) == AWAITED {
            shared.wake_one(word);
        }
    }
}
