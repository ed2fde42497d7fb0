//! What is open in a buffer.
ghost use Rattle.std.specs.Prelude.{◌≡◌, ◌+◌, ◌-◌, ◌<◌, ◌≤◌, ℕ, false, All, length, Some, IsSome, IsNone, IsTrue, IfOk, OnOk, OnErr, option_map};
ghost use Rattle.std.specs.Option.{ForSome};
ghost use Rattle.ep_defs.specs.Session as valid;
ghost use Rattle.ep_slot.specs.Chain.{records_of, HasRecords};
ghost use Rattle.ep_slot.specs.Hand.{hand_of};
ghost use Rattle.ep_slot.specs.Hand.{Agrees};
ghost use Rattle.ep_guarded.specs.Resting.{KeptRests, told_as, held_as};
ghost use Rattle.ep_guarded.specs.Calls.{raised, IsDueFor, IsShown, ShownIn, IsStolen, StolenIn, IsOpened, ClosesRow};
ghost use Rattle.ep_guarded.specs.Tied.{AreTaken, AreMarks};
ghost use Rattle.ep_guarded.specs.Granted.{IsGrantFor};
ghost use Rattle.ep_row.specs.Row.{slot_of, HasOpen};
ghost use Rattle.ep_row.specs.AtRest.{IsNumbered};
ghost use Rattle.ep_pool.specs.Shared.{IsSeatOf};
ghost use Rattle.ep_pool.specs.declared.limits.TheConstants.{SEAT_COUNTS};

use crate::agreed::{Agreed, HandNumbers, Held, Told};
use crate::grant::Grant;
use crate::program::Program;
use ep_defs::limits::{SESSIONS, WRITES};
use ep_defs::{Marks, Write};
use ep_pool::{PoolSeat, Seated};
use ep_row::{Opening, Row};
use ep_slot::{Batch, Hand, Shown, Slot};
use std::alloc::{AllocError, Global};
use std::sync::Wait;

/// The session's slot on the row's thread, a seat of the session's pool, and what the row knows.
#[derive(Drop)]
pub(crate) struct Kept<'a> {
    pub(crate) slot: Slot,
    pub(crate) seat: PoolSeat,
    pub(crate) told: Told<'a>,
}

// Shows the row's write, which is due.
pub(crate) fn show<P: Program, R: Wait>(
    rt: &R,
    kept: &mut Kept,
    row: &mut Row,
    slot: u32,
    write: &Write,
) -> Shown
    requires within { slot < SESSIONS }
    requires rests { KeptRests P.events P.writes kept.old }
    requires due { IsDueFor P.events (P.writes row.old.thread) slot write.now row.old kept.old.told }
    requires fits { IsTrue (valid.fits write.now) }
    ensures { IsShown P.events P.writes slot write.now result row.old row.new kept.old kept.new }
{
    let Kept {
        slot: buffer,
        seat,
        told,
    } = kept;
    let mut purse = Seated {
        rt,
        pool: &told.grant.pool,
        seat,
    };
    let shown = row.show(slot, buffer, &mut purse, write);
    told.opening.shown += 1;
    shown
}

// The same of what is open, if something is.
pub(crate) fn show_in<P: Program, R: Wait>(
    rt: &R,
    kept: &mut Option<Kept>,
    row: &mut Row,
    slot: u32,
    write: &Write,
) -> Shown
    requires within { slot < SESSIONS }
    requires some { IsSome kept.old }
    requires rests { ForSome kept.old (KeptRests P.events P.writes) }
    requires due { ForSome kept.old (λ k. IsDueFor P.events (P.writes row.old.thread) slot write.now row.old k.told) }
    requires fits { IsTrue (valid.fits write.now) }
    ensures { ShownIn P.events P.writes slot write.now result row.old row.new kept.old kept.new }
{
    match kept {
        Some(kept) => show::<P, R>(rt, kept, row, slot, write),
        None => unreachable!(),
    }
}

// What a row and its buffer agree on once one write more was shown.
pub(crate) fn next_told<'a>(kept: &Option<Kept<'a>>) -> Agreed<'a>
    requires { ForSome kept.now (λ k. k.told.opening.shown ≤ WRITES) }
    ensures { result ≡ told_as (option_map (λ k. raised k.told) kept.now) }
{
    match kept {
        Some(kept) => Agreed::Told(Told {
            opening: Opening {
                shown: kept.told.opening.shown + 1,
                ..kept.told.opening
            },
            thread: kept.told.thread,
            grant: kept.told.grant,
        }),
        None => Agreed::Nothing,
    }
}

// Takes all that is pending with the hand that agrees.
pub(crate) fn steal<P: Program>(kept: &mut Kept, hand: &mut Hand) -> Batch
    requires rests { KeptRests P.events P.writes kept.old }
    requires agree { Agrees kept.old.slot hand.old }
    ensures stolen { IsStolen P.events P.writes (records_of result.chain) result.last (length result.chain) hand.old hand.new kept.old kept.new }
    ensures filled { All HasRecords result.chain }
{
    Row::steal(&mut kept.slot, hand)
}

// The same of what is open, if something is.
pub(crate) fn steal_in<P: Program>(kept: &mut Option<Kept>, hand: &mut Hand) -> Batch
    requires rests { ForSome kept.old (KeptRests P.events P.writes) }
    requires agree { option_map (λ k. hand_of k.slot) kept.old ≡ Some hand.old }
    ensures stolen { StolenIn P.events P.writes (records_of result.chain) result.last (length result.chain) hand.old hand.new kept.old kept.new }
    ensures filled { All HasRecords result.chain }
{
    match kept {
        Some(kept) => steal::<P>(kept, hand),
        None => unreachable!(),
    }
}

// What a buffer and a hand with these numbers agree on.
pub(crate) fn held_with<'a>(kept: &Option<Kept<'a>>, hand: &Hand) -> Agreed<'a>
    requires { option_map (λ k. hand_of k.slot) kept.now ≡ Some hand.now }
    ensures { result ≡ held_as kept.now }
{
    match kept {
        Some(kept) => Agreed::Held(Held {
            numbers: HandNumbers::of(hand),
            grant: kept.told.grant,
        }),
        None => Agreed::Nothing,
    }
}

// What a buffer and its row agree on.
pub(crate) fn told_of<'a>(kept: &Option<Kept<'a>>) -> Agreed<'a>
    ensures { result ≡ told_as (option_map (λ k. k.told) kept.now) }
{
    match kept {
        Some(kept) => Agreed::Told(Told {
            opening: kept.told.opening,
            thread: kept.told.thread,
            grant: kept.told.grant,
        }),
        None => Agreed::Nothing,
    }
}

// Opens a session in a free slot of a row, with a seat of its own.
pub(crate) fn open<'a, P: Program>(
    alloc: Global,
    row: &mut Row,
    slot: u32,
    session: u64,
    grant: &'a Grant,
    seat: &mut PoolSeat,
) -> Result<(Kept<'a>, Hand), AllocError>
    requires within { slot < SESSIONS }
    requires off { IsNone (slot_of row.old slot) }
    requires quiet { row.old.in_write ≡ false }
    requires stays { row.old.left ≡ false }
    requires events { length P.events ≡ length row.old.masks }
    requires admitted { IsGrantFor P.events grant.now }
    requires seat { IsSeatOf grant.now.pool seat.old }
    requires share { 1 < seat.old.share }
    ensures opened { IfOk result (λ made. IsOpened P.events P.writes slot session grant.now row.old row.new made.0 made.1) }
    ensures seat { OnOk result (seat.new ≡ record seat.old { share = seat.old.share - 1 }) }
    ensures same { OnErr result (row.new ≡ row.old) }
    ensures seat_same { OnErr result (seat.new ≡ seat.old) }
{
    let chunks = grant.config.chunks;
    let (made, hand) = row.open_admitted(alloc, slot, session, chunks, grant.admitted.as_slice())?;
    let told = Told {
        opening: Opening {
            session,
            from: hand.from(),
            chunks,
            shown: 0,
        },
        thread: hand.thread(),
        grant,
    };
    let kept = Kept {
        slot: made,
        seat: grant.pool.split(seat),
        told,
    };
    Ok((kept, hand))
}

// Closes a session on a row, and gives its seat back.
pub(crate) fn close<P: Program>(
    row: &mut Row,
    slot: u32,
    kept: Kept,
    hand: Hand,
    seat: &mut PoolSeat,
) -> (Batch, Marks)
    requires within { slot < SESSIONS }
    requires rests { KeptRests P.events P.writes kept }
    requires open { HasOpen row.old slot kept.slot }
    requires quiet { row.old.in_write ≡ false }
    requires agree { Agrees kept.slot hand }
    requires seat { IsSeatOf kept.told.grant.now.pool seat.old }
    requires few { seat.old.taken + WRITES < SEAT_COUNTS }
    requires few_given { seat.old.given < SEAT_COUNTS }
    ensures taken { AreTaken hand (records_of result.0.chain) result.0.last }
    ensures numbered { All (IsNumbered P.events kept.entry.told.grant.now.config (P.writes hand.thread) hand.from) (records_of result.0.chain) }
    ensures filled { All HasRecords result.0.chain }
    ensures last { result.0.last ≡ kept.entry.slot.used }
    ensures marks { AreMarks hand (records_of result.0.chain) result.0.last row.old.index result.1 }
    ensures row { ClosesRow slot row.old row.new }
    ensures seat { seat.new ≡ record seat.old { share = seat.old.share + 1; taken = seat.old.taken + (hand.stolen + length result.0.chain); dry = seat.old.dry + result.1.refused } }
    ensures few { hand.stolen + length result.0.chain ≤ WRITES }
{
    let Kept {
        slot: buffer,
        seat: its,
        told,
    } = kept;
    let (batch, marks) = row.close_on(slot, buffer, hand);
    told.grant.pool.join(seat, its);
    (batch, marks)
}
