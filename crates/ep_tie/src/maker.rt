//! A set of ties, and the one maker of them.
ghost use Rattle.std.specs.Prelude.{◌≡◌, ℕ, ◌+◌, ◌<◌, ◌≤◌, [], IfOk, Some};
ghost use Rattle.ep_tie.specs.Seats.{IsMaker, IsWhole, AreHalves, met, parted, parted_with, after_making, made, AreAlike};
ghost use Rattle.ep_tie.specs.declared.steps.Sight.TheVariants.{Spent};

use crate::ends::{Left, Right};
use crate::half::Half;
use crate::named::Named;
use crate::steps::{Brought, Look, Making, Meeting, Parting, Setting, Sit, TieSeat, TieTable};
use std::alloc::{AllocError, Global};
use std::marker::{Brand, Model, PhantomData};

/// A new set of ties, which has no name and no tie yet.
#[derive(Drop)]
pub struct Blank<V> {
    table: TieTable<V>,
    seat: TieSeat<V>,
    places: u32,
}

impl<V> Model for Blank<V> {
    ghost use Rattle.std.specs.Prelude.{◌≡◌, ◌<◌, []};
    ghost use Rattle.ep_tie.specs.Tied.{Unmade};
    ghost use Rattle.ep_tie.specs.declared.steps.Sight.TheVariants.{Maker};

    ghost Value = { Unmade };

    ghost view = { λ b. record { ties = b.table.shared.table_id; places = b.places } };

    ghost invariant = { λ b. (0 < b.table.shared.table_id.words) × (b.seat.table_id ≡ b.table.shared.table_id) × (b.seat.me ≡ (Maker 0, [])) };
}

/// A set of ties, which threads share by reference. Halves meet before it.
#[derive(Drop)]
pub struct Ties<N: Named, V> {
    table: TieTable<V>,
    name: PhantomData<N>,
    ghost named: { table.shared.table_id ≡ N.ties },
    ghost has_a_word: { 0 < table.shared.table_id.words },
}

/// Who makes the ties of a set. There is one, and it may go to another thread.
#[derive(Drop)]
pub struct Maker<N: Named, V> {
    seat: TieSeat<V>,
    name: PhantomData<N>,
    made: u32,
    places: u32,
}

impl<N: Named, V> Model for Maker<N, V> {
    ghost use Rattle.std.specs.Prelude.{◌≡◌, ◌≤◌, []};
    ghost use Rattle.ep_tie.specs.Tied.{Made};
    ghost use Rattle.ep_tie.specs.declared.steps.Sight.TheVariants.{Maker as MakerAt};

    ghost Value = { Made };

    ghost view = { λ m. record { made = m.made; places = m.places } };

    ghost invariant = { λ m. (m.seat.table_id ≡ N.ties) × (m.seat.me ≡ (MakerAt m.made, [])) × (m.made ≤ m.places) };
}

impl<V> Blank<V> {
    /// A set that has no tie yet and may have as many as `places`. It waits for nobody.
    pub fn new(alloc: Global, places: u32) -> Result<Blank<V>, AllocError>
        requires { 0 < places }
        ensures { IfOk result (λ b. b.places ≡ places) }
    {
        let (table, seat) = TieTable::of_words(alloc, &[0], &())?;
        Ok(Blank {
            table,
            seat,
            places,
        })
    }

    /// Gives the set its name, which has to be its own. It waits for nobody.
    pub fn open<N: Named>(self) -> (Ties<N, V>, Maker<N, V>)
        requires { self.ties ≡ N.ties }
        ensures { (result.1.made ≡ 0) × (result.1.places ≡ self.places) }
    {
        let Blank {
            table,
            seat,
            places,
        } = self;
        let ties = Ties {
            table,
            name: PhantomData,
        };
        let maker = Maker {
            seat,
            name: PhantomData,
            made: 0,
            places,
        };
        (ties, maker)
    }
}

impl<N: Named, V> Maker<N, V> {
    /// How many ties were made, at the places from 0 on.
    pub fn made(&self) -> u32
        ensures { result ≡ self.now.made }
    {
        self.made
    }

    /// How many ties may be made in all.
    pub fn places(&self) -> u32
        ensures { result ≡ self.now.places }
    {
        self.places
    }

    /// Makes the tie at the next place, and gives its two halves, both with this value. It takes no memory and waits
    /// for nobody.
    pub fn next(&mut self, ties: &Ties<N, V>, value: &V) -> (Left<N, V>, Right<N, V>)
        requires { self.old.made < self.old.places }
        ensures made { (self.new.made ≡ self.old.made + 1) × (self.new.places ≡ self.old.places) }
        ensures place { (result.0.place ≡ self.old.made) × (result.1.place ≡ self.old.made) }
        ensures value { (result.0.value ≡ Some value.now) × (result.1.value ≡ Some value.now) }
    {
        let mut left = ties.make::<Brand>(&mut self.seat, value);
        self.made += 1;
        let right = ties.part(&mut left);
        (Left::of(Half::of(left)), Right::of(Half::of(right)))
    }
}

impl<N: Named, V> Ties<N, V> {
    fn make<X: Brought<V>>(&self, maker: &mut TieSeat<V>, value: &V) -> TieSeat<V>
        requires brought { X.value ≡ Some value.now }
        requires own { (maker.old.table_id ≡ N.ties) × (maker.old.me.1 ≡ []) × IsMaker maker.old.me.0 }
        ensures own { (maker.new.table_id ≡ N.ties) × (result.table_id ≡ N.ties) }
        ensures maker { maker.new.me ≡ (after_making maker.old.me.0, []) }
        ensures made { result.me ≡ (made (Some value.now) maker.old.me.0, []) }
    {
        let _ = value;
        self.table.shared.split_seat::<Making<X>>(maker)
    }

    pub(crate) fn sit(&self) -> TieSeat<V>
        ensures { (result.table_id ≡ N.ties) × (result.me ≡ (Spent, [])) }
    {
        self.table.shared.load_new_seat::<Sit>(0).1
    }

    // Two halves meet in one seat, and are found alike.
    pub(crate) fn join(&self, left: &mut TieSeat<V>, right: TieSeat<V>)
        requires own { (left.old.table_id ≡ N.ties) × (right.table_id ≡ N.ties) }
        requires empty { (left.old.me.1 ≡ []) × (right.me.1 ≡ []) }
        requires halves { AreHalves left.old.me.0 right.me.0 }
        ensures own { left.new.table_id ≡ N.ties }
        ensures met { left.new.me ≡ (met left.old.me.0 right.me.0, []) }
        ensures alike { AreAlike left.new.me.0 }
    {
        self.table.shared.join_seat::<Meeting>(left, right);
        self.table.shared.load::<Look>(left, 0);
    }

    // The halves part with the value that they have.
    pub(crate) fn part(&self, whole: &mut TieSeat<V>) -> TieSeat<V>
        requires own { (whole.old.table_id ≡ N.ties) × (whole.old.me.1 ≡ []) × IsWhole whole.old.me.0 }
        ensures own { (whole.new.table_id ≡ N.ties) × (result.table_id ≡ N.ties) }
        ensures whole { whole.new.me ≡ (parted whole.old.me.0, []) }
        ensures parted { result.me ≡ (parted whole.old.me.0, []) }
    {
        self.table.shared.split_seat::<Parting>(whole)
    }

    // The halves part with another value.
    fn part_as<X: Brought<V>>(&self, whole: &mut TieSeat<V>, value: &V) -> TieSeat<V>
        requires brought { X.value ≡ Some value.now }
        requires own { (whole.old.table_id ≡ N.ties) × (whole.old.me.1 ≡ []) × IsWhole whole.old.me.0 }
        ensures own { (whole.new.table_id ≡ N.ties) × (result.table_id ≡ N.ties) }
        ensures whole { whole.new.me ≡ (parted_with (Some value.now) whole.old.me.0, []) }
        ensures parted { result.me ≡ (parted_with (Some value.now) whole.old.me.0, []) }
    {
        let _ = value;
        self.table.shared.split_seat::<Setting<X>>(whole)
    }

    pub(crate) fn part_with(&self, whole: &mut TieSeat<V>, value: &V) -> TieSeat<V>
        requires own { (whole.old.table_id ≡ N.ties) × (whole.old.me.1 ≡ []) × IsWhole whole.old.me.0 }
        ensures own { (whole.new.table_id ≡ N.ties) × (result.table_id ≡ N.ties) }
        ensures whole { whole.new.me ≡ (parted_with (Some value.now) whole.old.me.0, []) }
        ensures parted { result.me ≡ (parted_with (Some value.now) whole.old.me.0, []) }
    {
        self.part_as::<Brand>(whole, value)
    }
}
