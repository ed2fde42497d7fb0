//! A buffer of a session on a row.
ghost use Rattle.std.specs.Prelude.{◌≡◌, ◌+◌, ◌<◌, None, Some, IsSome, IsTrue};
ghost use Rattle.ep_defs.specs.Session as valid;
ghost use Rattle.ep_slot.specs.Chain.{records_of};
ghost use Rattle.ep_slot.specs.Hand.{Agrees};
ghost use Rattle.ep_guarded.specs.declared.agreed.Agreed.TheVariants as agreed;
ghost use Rattle.ep_guarded.specs.Tied.{told_in, hand_in, AnswersShow, TakesAll};
ghost use Rattle.ep_guarded.specs.Sessions.{TakesWith};
ghost use Rattle.ep_guarded.specs.Resting.{KeptRests, held_as};
ghost use Rattle.ep_guarded.specs.Calls.{TellsDue, ShownBy};

use crate::agreed::Agreed;
use crate::kept::{Kept, held_with, next_told, show_in, steal_in, told_of};
use crate::program::Program;
use ep_defs::Write;
use ep_defs::limits::SESSIONS;
use ep_row::Row;
use ep_slot::{Batch, Hand, Shown};
use ep_tie::{Left, Right, Ties};
use std::marker::Model;
use std::mem;
use std::sync::Wait;

/// A buffer of a row with its halves of ties, as it stands under its lock. Contracts see where its tie to its row stands,
/// and what is open in it.
#[derive(Drop)]
pub struct TiedBuffer<'a, P: Program> {
    kept: Option<Kept<'a>>,
    row: Right<P, Agreed<'a>>,
    hand: Left<P, Agreed<'a>>,
}

impl<'a, P: Program> Model for TiedBuffer<'a, P> {
    ghost use Rattle.ep_guarded.specs.Tied.{BufferState};
    ghost use Rattle.std.specs.Prelude.{option_map};
    ghost use Rattle.ep_guarded.specs.Resting.{BufferRests, state_of};

    ghost Value = { BufferState };

    ghost view = { λ b. record { place = b.row.place; kept = option_map state_of b.kept } };

    ghost invariant = { λ b. BufferRests P.events P.writes b.kept b.row b.hand };
}

impl<'a, P: Program> TiedBuffer<'a, P> {
    /// A buffer in which nothing is open, with its half of the tie to its row and that of the tie to its hand.
    pub fn new(row: Right<P, Agreed<'a>>, hand: Left<P, Agreed<'a>>) -> TiedBuffer<'a, P>
        requires nothing { (row.value ≡ Some agreed.Nothing) × (hand.value ≡ Some agreed.Nothing) }
        requires beside { hand.place ≡ row.place + 1 }
        ensures { result ≡ record { place = row.entry.place; kept = None } }
    {
        TiedBuffer {
            kept: None,
            row,
            hand,
        }
    }

    /// Takes all records that are pending, with the session's hand and its half of the tie. It may stand inside a write. It
    /// takes no memory.
    pub fn steal(
        &mut self,
        ties: &Ties<P, Agreed<'a>>,
        half: &mut Right<P, Agreed<'a>>,
        hand: &mut Hand,
    ) -> Batch
        requires place { half.old.place ≡ self.old.place + 1 }
        requires hand { hand_in half.old.value ≡ Some hand.old }
        ensures takes { TakesWith P.events P.writes half.old.value half.new.value hand.old hand.new
            result.chain result.last }
        ensures all { TakesAll (records_of result.chain) result.last self.old.kept self.new.kept }
        ensures places { (self.new.place ≡ self.old.place) × (half.new.place ≡ half.old.place) }
    {
        self.hand.meet(ties, half);
        let batch = steal_in::<P>(&mut self.kept, hand);
        let held = held_with(&self.kept, hand);
        self.hand.set(ties, half, &held);
        batch
    }

    // Shows the row's write, which is due to the session that the row's half tells.
    pub(crate) fn show<R: Wait>(
        &mut self,
        rt: &R,
        ties: &Ties<P, Agreed<'a>>,
        half: &mut Left<P, Agreed<'a>>,
        row: &mut Row,
        slot: u32,
        write: &Write,
    ) -> Shown
        requires place { half.old.place ≡ self.old.place }
        requires within { slot < SESSIONS }
        requires due { TellsDue P.events (P.writes row.old.thread) slot write.now row.old half.old.value }
        requires fits { IsTrue (valid.fits write.now) }
        ensures shown { ShownBy slot row.old row.new half.old.value half.new.value }
        ensures answer { AnswersShow slot write.now result row.old row.new self.old.kept self.new.kept }
        ensures places { (self.new.place ≡ self.old.place) × (half.new.place ≡ half.old.place) }
    {
        let next = next_told(&self.kept);
        half.set(ties, &mut self.row, &next);
        show_in::<P, R>(rt, &mut self.kept, row, slot, write)
    }

    // Says that the row knows of nothing that is open where there is no hand.
    pub(crate) fn meet(
        &mut self,
        ties: &Ties<P, Agreed<'a>>,
        half: &mut Left<P, Agreed<'a>>,
        hand_half: &mut Right<P, Agreed<'a>>,
    )
        requires place { half.old.place ≡ self.old.place }
        requires hand_place { hand_half.old.place ≡ self.old.place + 1 }
        requires off { hand_in hand_half.old.value ≡ None }
        ensures off { told_in half.old.value ≡ None }
        ensures same { (self.new ≡ self.old) × (half.new ≡ half.old) × (hand_half.new ≡ hand_half.old) }
    {
        half.meet(ties, &mut self.row);
        self.hand.meet(ties, hand_half);
    }

    // Puts down what was just opened, with the hand that agrees.
    pub(crate) fn put(
        &mut self,
        ties: &Ties<P, Agreed<'a>>,
        half: &mut Left<P, Agreed<'a>>,
        hand_half: &mut Right<P, Agreed<'a>>,
        kept: Kept<'a>,
        hand: &Hand,
    )
        requires place { half.old.place ≡ self.old.place }
        requires hand_place { hand_half.old.place ≡ self.old.place + 1 }
        requires rests { KeptRests P.events P.writes kept }
        requires agree { Agrees kept.slot hand.now }
        ensures told { half.new.value ≡ Some (agreed.Told kept.entry.told) }
        ensures held { hand_half.new.value ≡ Some (held_as (Some kept.entry)) }
        ensures places { (self.new.place ≡ self.old.place) × (half.new.place ≡ half.old.place) × (hand_half.new.place ≡ hand_half.old.place) }
    {
        let kept = Some(kept);
        let told = told_of(&kept);
        half.set(ties, &mut self.row, &told);
        let held = held_with(&kept, hand);
        self.hand.set(ties, hand_half, &held);
        self.kept = kept;
    }

    // Takes out what is open.
    pub(crate) fn take(
        &mut self,
        ties: &Ties<P, Agreed<'a>>,
        half: &mut Left<P, Agreed<'a>>,
        hand_half: &mut Right<P, Agreed<'a>>,
    ) -> Kept<'a>
        requires place { half.old.place ≡ self.old.place }
        requires hand_place { hand_half.old.place ≡ self.old.place + 1 }
        requires some { IsSome (hand_in hand_half.old.value) }
        ensures rests { KeptRests P.events P.writes result }
        ensures told { half.old.value ≡ Some (agreed.Told result.told) }
        ensures held { hand_half.old.value ≡ Some (held_as (Some result)) }
        ensures nothing { (half.new.value ≡ Some agreed.Nothing) × (hand_half.new.value ≡ Some agreed.Nothing) }
        ensures places { (self.new.place ≡ self.old.place) × (half.new.place ≡ half.old.place) × (hand_half.new.place ≡ hand_half.old.place) }
    {
        half.set(ties, &mut self.row, &Agreed::Nothing);
        self.hand.set(ties, hand_half, &Agreed::Nothing);
        take_out(&mut self.kept)
    }
}

fn take_out<'a>(kept: &mut Option<Kept<'a>>) -> Kept<'a>
    requires { IsSome kept.old }
    ensures out { kept.old ≡ Some result }
    ensures none { kept.new ≡ None }
{
    match mem::replace(kept, None) {
        Some(one) => one,
        None => unreachable!(),
    }
}
