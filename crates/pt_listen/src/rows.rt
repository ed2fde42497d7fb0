//! What is taken of one row, and its closing.
ghost use Rattle.std.specs.Prelude.{◌≡◌, ℕ, ◌+◌, ◌-◌, ◌^◌, ◌<◌, ◌≤◌, None, Some, IsSome, length, slice_index_or, slice_set};
ghost use Rattle.ep_listen.specs.Listening.{marks_in};
ghost use Rattle.ep_stream.specs.Hands.{hand_at};
ghost use Rattle.pt_listen.specs.state.Hearing.{IsHearing};

use crate::run::WatchRun;
use ep_listen::{Callback, Listener, a_batch_is_heard};
use ep_live::{LiveRows, same_tests_have_the_same_stands};
use ep_slot::Hand;
use ep_stream::RowSet;
use std::alloc::Global;
use std::mem;
use std::sync::Wait;

// Takes the hand at a place out.
fn take_hand(hands: &mut Vec<Option<Hand>>, place: usize) -> Hand
    requires within { place < length hands.old.items }
    requires some { IsSome (slice_index_or hands.old.items place None) }
    ensures hand { slice_index_or hands.old.items place None ≡ Some result }
    ensures items { hands.new.items ≡ slice_set hands.old.items place None }
{
    match mem::replace(&mut hands[place], None) {
        Some(hand) => hand,
        None => unreachable!(),
    }
}

// Puts a hand down at a place.
fn put_hand(hands: &mut Vec<Option<Hand>>, place: usize, hand: Hand)
    requires within { place < length hands.old.items }
    ensures items { hands.new.items ≡ slice_set hands.old.items place (Some hand) }
{
    hands[place] = Some(hand);
}

/// Takes all that a row has pending for the session in a slot, which is open there, hands it to the listener, and gives it
/// back, also after want of memory, which stays with the listener. Answers how many records there were.
pub(crate) fn take_row<P: WatchRun, R: Wait, K: Callback>(
    alloc: Global,
    rows: &mut LiveRows<'_, '_, P, R>,
    slot: u32,
    hands: &mut Vec<Option<Hand>>,
    listener: &mut Listener<K>,
    row: u32,
) -> u32
    requires row { (0 < row) × (row ≤ P.rows) }
    requires hearing { IsHearing K.has_heard P.rows P.events P.writes P.config P.at_first 0 0
        slot rows.old hands.old.items listener.old }
    ensures { IsHearing K.has_heard P.rows P.events P.writes P.config P.at_first 0 0
        slot rows.new hands.new.items listener.new }
{
    a_batch_is_heard();
    let place = row as usize - 1;
    let mut hand = take_hand(hands, place);
    let before = hand.taken();
    let batch = rows.steal(row, slot, &mut hand);
    let count = hand.taken() - before;
    put_hand(hands, place, hand);
    let _ = listener.hear(alloc, &batch);
    rows.give(slot, batch);
    count
}

/// Closes the session in a slot on a row, on which it is open, as on none of the rows before it, hands what was pending to the listener,
/// and gives it back, also after want of memory.
pub(crate) fn leave_row<P: WatchRun, R: Wait, K: Callback>(
    alloc: Global,
    rows: &mut LiveRows<'_, '_, P, R>,
    slot: u32,
    hands: &mut Vec<Option<Hand>>,
    listener: &mut Listener<K>,
    row: u32,
    ends: u32,
)
    requires row { (0 < row) × (row ≤ P.rows) }
    requires stands { rows.old.stands ≡ Some ends }
    requires hearing { IsHearing K.has_heard P.rows P.events P.writes P.config P.at_first ends (row - 1)
        slot rows.old hands.old.items listener.old }
    ensures hearing { IsHearing K.has_heard P.rows P.events P.writes P.config P.at_first ends row
        slot rows.new hands.new.items listener.new }
    ensures stands { rows.new.stands ≡ rows.old.stands }
{
    a_batch_is_heard();
    same_tests_have_the_same_stands();
    let hand = take_hand(hands, row as usize - 1);
    let (batch, marks) = rows.detach(row, slot, hand);
    let _ = listener.leave(alloc, &batch, marks);
    rows.give(slot, batch);
}
