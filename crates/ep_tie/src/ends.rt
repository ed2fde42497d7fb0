//! The two halves of a tie, as their owners keep them.
ghost use Rattle.std.specs.Prelude.{◌≡◌, Some};

use crate::half::Half;
use crate::maker::Ties;
use crate::named::Named;
use std::marker::Model;

/// One half of a tie. It has no bytes: contracts see its place and its value.
#[derive(Drop)]
pub struct Left<N: Named, V> {
    half: Half<N, V>,
}

/// The other half of a tie.
#[derive(Drop)]
pub struct Right<N: Named, V> {
    half: Half<N, V>,
}

impl<N: Named, V> Model for Left<N, V> {
    ghost use Rattle.ep_tie.specs.Tied.{Tied};

    ghost Value = { Tied V };

    ghost view = { λ l. l.half };
}

impl<N: Named, V> Model for Right<N, V> {
    ghost use Rattle.ep_tie.specs.Tied.{Tied};

    ghost Value = { Tied V };

    ghost view = { λ r. r.half };
}

impl<N: Named, V> Left<N, V> {
    pub(crate) fn of(half: Half<N, V>) -> Left<N, V>
        ensures { result ≡ half }
    {
        Left { half }
    }

    /// Says that the two values are equal, and changes nothing. It takes no memory and waits for nobody.
    pub fn meet(&mut self, ties: &Ties<N, V>, right: &mut Right<N, V>)
        requires one_place { self.old.place ≡ right.old.place }
        ensures equal { self.old.value ≡ right.old.value }
        ensures same { (self.new ≡ self.old) × (right.new ≡ right.old) }
    {
        self.half.meet(ties, &mut right.half);
    }

    /// Gives both halves this value, and says that their values were equal. It takes no memory and waits for nobody.
    pub fn set(&mut self, ties: &Ties<N, V>, right: &mut Right<N, V>, value: &V)
        requires one_place { self.old.place ≡ right.old.place }
        ensures equal { self.old.value ≡ right.old.value }
        ensures value { (self.new.value ≡ Some value.now) × (right.new.value ≡ Some value.now) }
        ensures place { (self.new.place ≡ self.old.place) × (right.new.place ≡ right.old.place) }
    {
        self.half.set(ties, &mut right.half, value);
    }
}

impl<N: Named, V> Right<N, V> {
    pub(crate) fn of(half: Half<N, V>) -> Right<N, V>
        ensures { result ≡ half }
    {
        Right { half }
    }
}
