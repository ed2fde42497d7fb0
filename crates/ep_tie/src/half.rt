//! One half of a tie, and what two of them do when they meet.
ghost use Rattle.std.specs.Prelude.{◌≡◌, Some};

use crate::maker::Ties;
use crate::named::Named;
use crate::steps::TieSeat;
use std::marker::{Model, PhantomData};
use std::mem;

#[derive(Drop)]
pub struct Half<N: Named, V> {
    seat: TieSeat<V>,
    name: PhantomData<N>,
}

impl<N: Named, V> Model for Half<N, V> {
    ghost use Rattle.std.specs.Prelude.{◌≡◌, []};
    ghost use Rattle.ep_tie.specs.Tied.{Tied};
    ghost use Rattle.ep_tie.specs.Seats.{IsHalf, half_of};

    ghost Value = { Tied V };

    ghost view = { λ h. half_of h.seat.me.0 };

    ghost invariant = { λ h. (h.seat.table_id ≡ N.ties) × (h.seat.me.1 ≡ []) × IsHalf h.seat.me.0 };
}

impl<N: Named, V> Half<N, V> {
    ghost use Rattle.std.specs.Prelude.{[]};
    ghost use Rattle.ep_tie.specs.Seats.{IsHalf, half_of};

    pub fn of(seat: TieSeat<V>) -> Half<N, V>
        requires { (seat.table_id ≡ N.ties) × (seat.me.1 ≡ []) × IsHalf seat.me.0 }
        ensures { result ≡ half_of seat.me.0 }
    {
        Half {
            seat,
            name: PhantomData,
        }
    }

    pub fn meet(&mut self, ties: &Ties<N, V>, other: &mut Half<N, V>)
        requires one_place { self.old.place ≡ other.old.place }
        ensures equal { self.old.value ≡ other.old.value }
        ensures same { (self.new ≡ self.old) × (other.new ≡ other.old) }
    {
        let theirs = mem::replace(&mut other.seat, ties.sit());
        ties.join(&mut self.seat, theirs);
        other.seat = ties.part(&mut self.seat);
    }

    pub fn set(&mut self, ties: &Ties<N, V>, other: &mut Half<N, V>, value: &V)
        requires one_place { self.old.place ≡ other.old.place }
        ensures equal { self.old.value ≡ other.old.value }
        ensures value { (self.new.value ≡ Some value.now) × (other.new.value ≡ Some value.now) }
        ensures place { (self.new.place ≡ self.old.place) × (other.new.place ≡ other.old.place) }
    {
        let theirs = mem::replace(&mut other.seat, ties.sit());
        ties.join(&mut self.seat, theirs);
        other.seat = ties.part_with(&mut self.seat, value);
    }
}
