//! The one session of a run, whose events are heard.
ghost use Rattle.std.specs.Prelude.{◌≡◌, ℕ, ◌*◌, ◌^◌, ◌<◌, ◌≤◌, [], false, List, None, Some, IsSome, IfOk, vec_len};
ghost use Rattle.std.specs.Option.{ForSome};
ghost use Rattle.ep_defs.specs.declared.limits.TheConstants.{SESSIONS};
ghost use Rattle.ep_live.specs.Made.{AreStands};
ghost use Rattle.ep_live.specs.RowSet.{AreFresh, life_at};
ghost use Rattle.ep_listen.specs.Heard.{HeardEvent};
ghost use Rattle.ep_listen.specs.Listening.{callback_of, has_failed, marks_in, room_of};
ghost use Rattle.pt_listen.specs.state.Hearing.{HasEnded};

use crate::rows::{leave_row, take_row};
use crate::run::WatchRun;
use ep_guarded::{Agreed, Grant};
use ep_listen::{Callback, ListenEnd, Listener, nothing_is_heard_at_first};
use ep_live::{LiveRows, same_tests_have_the_same_lives, same_tests_have_the_same_stands};
use ep_pool::PoolSeat;
use ep_slot::Hand;
use ep_stream::RowSet;
use ep_tie::Right;
use pt_io::{Clock, Gate, Moment};
use pt_writers::Around;
use std::alloc::{AllocError, Global};
use std::marker::Model;
use std::sync::Wait;
use std::sync::atomic::{AtomicBool, Ordering};
use std::thread;
use std::time::{Clock as Timer, Duration};

/// The id of the run's one session.
pub(crate) const SESSION: u64 = 1;

/// How long the calling thread rests after a sweep that took nothing, in milliseconds.
const REST: u64 = 1;

/// A session that is open on all rows of a run, with the listener to which it hands what it takes. Contracts see how many
/// writes each thread has begun, while it has the halves of all threads.
#[derive(Drop)]
pub(crate) struct Hearing<'r, 'a, P: WatchRun, R: Wait, K: Callback> {
    rows: LiveRows<'r, 'a, P, R>,
    slot: u32,
    // By row, the first being row 1.
    hands: Vec<Option<Hand>>,
    listener: Listener<K>,
}

impl<'r, 'a, P: WatchRun, R: Wait, K: Callback> Model for Hearing<'r, 'a, P, R, K> {
    ghost use Rattle.std.specs.Prelude.{ℕ, Option};
    ghost use Rattle.pt_listen.specs.state.Hearing.{IsHearing};

    ghost Value = { Option ℕ };

    ghost view = { λ h. h.rows.stands };

    ghost invariant = { λ h. IsHearing K.has_heard P.rows P.events P.writes P.config P.at_first 0 0 h.slot h.rows h.hands.items h.listener };
}

/// Opens a session on each row of a run in which no thread has made a write. Where there is no memory for it all is let go.
pub(crate) fn open_all<'r, 'a, P: WatchRun, R: Wait, K: Callback + Drop>(
    alloc: Global,
    rows: LiveRows<'r, 'a, P, R>,
    slot: u32,
    grant: &Grant,
    listener: Listener<K>,
) -> Result<Hearing<'r, 'a, P, R, K>, AllocError>
    requires fresh { AreFresh P.rows slot grant.now rows.seat (Some 0) rows.lives rows }
    requires slot { slot < SESSIONS }
    requires config { grant.now.config ≡ P.config }
    requires lives { (row : ℕ) → life_at rows row ≡ 0 }
    requires some { 0 < P.rows }
    requires dry { rows.seat.dry ≡ 0 }
    requires at_first { (before : List HeardEvent) → P.at_first before → K.has_heard (callback_of listener) before }
    requires marks { marks_in listener ≡ [] }
    requires room { room_of listener ≡ P.rows }
    requires sound { has_failed listener ≡ false }
    ensures { IfOk result (λ hearing. hearing ≡ Some 0) }
{
    nothing_is_heard_at_first();
    same_tests_have_the_same_stands();
    same_tests_have_the_same_lives();
    let mut rows = rows;
    let count = rows.threads();
    let mut hands = Vec::with_capacity(alloc, count as usize)?;
    for place in 0..count {
        let hand = rows.attach(alloc, place + 1, slot, SESSION, &grant.config)?;
        hands.push_reserved(Some(hand));
    }
    Ok(Hearing {
        rows,
        slot,
        hands,
        listener,
    })
}

impl<'r, 'a, P: WatchRun, R: Wait, K: Callback> Hearing<'r, 'a, P, R, K> {
    /// Lends the halves of all threads to those that write, by row. It takes no memory.
    pub(crate) fn lend(self) -> (Hearing<'r, 'a, P, R, K>, Vec<Right<P, Agreed<'a>>>)
        requires here { IsSome self }
        ensures count { vec_len result.1 ≡ P.rows }
        ensures halves { ForSome self.entry (λ index. AreStands index result.1.items) }
    {
        let Hearing {
            mut rows,
            slot,
            hands,
            listener,
        } = self;
        let halves = rows.lend();
        let hearing = Hearing {
            rows,
            slot,
            hands,
            listener,
        };
        (hearing, halves)
    }

    /// Takes the halves of all threads back, by row, each of which has begun so many writes.
    pub(crate) fn take_back(
        self,
        halves: Vec<Right<P, Agreed<'a>>>,
        index: u32,
    ) -> Hearing<'r, 'a, P, R, K>
        requires count { vec_len halves ≡ P.rows }
        requires halves { AreStands index halves.items }
        ensures { result ≡ Some index }
    {
        let Hearing {
            mut rows,
            slot,
            hands,
            listener,
        } = self;
        rows.take_back(halves, index);
        Hearing {
            rows,
            slot,
            hands,
            listener,
        }
    }

    /// Takes all that is pending of each row, in their order, hands it over, and gives it back before it goes on. Answers how
    /// many records there were. Want of memory stays with the listener.
    fn sweep(self, alloc: Global) -> (Hearing<'r, 'a, P, R, K>, u64) {
        let Hearing {
            mut rows,
            slot,
            mut hands,
            mut listener,
        } = self;
        let mut taken = 0;
        for place in 0..rows.threads() {
            let count = take_row(alloc, &mut rows, slot, &mut hands, &mut listener, place + 1);
            taken += u64::from(count);
        }
        let hearing = Hearing {
            rows,
            slot,
            hands,
            listener,
        };
        (hearing, taken)
    }

    /// Closes the session on each row, whose threads have made so many writes, and ends the listener. Gives the seat of the session's pool, which has all
    /// shares then.
    pub(crate) fn end(self, alloc: Global, writes: u32) -> (ListenEnd<K>, PoolSeat)
        requires stands { self ≡ Some writes }
        ensures { HasEnded K.has_heard P.rows P.events P.writes P.config P.at_first writes
            result.0.callback result.0.marks result.0.failed result.1 }
    {
        let Hearing {
            mut rows,
            slot,
            mut hands,
            mut listener,
        } = self;
        for place in 0..rows.threads() {
            leave_row(
                alloc,
                &mut rows,
                slot,
                &mut hands,
                &mut listener,
                place + 1,
                writes,
            );
        }
        let seat = rows.end().into_seat();
        (listener.end(), seat)
    }
}

impl<'r, 'a, P: WatchRun, R: Wait + Timer, K: Callback> Hearing<'r, 'a, P, R, K> {
    /// Takes what the threads write, again and again, until they have ended.
    pub(crate) fn run<C: Clock, G: Gate>(
        self,
        alloc: Global,
        around: &Around<'_, P, R, C, G>,
        ended: &AtomicBool,
    ) -> Hearing<'r, 'a, P, R, K> {
        let mut hearing = self;
        for _ in around.rt.forever() {
            // Asked before the sweep, so that the last sweep comes after the last write.
            let last = ended.load(Ordering::SeqCst);
            let (swept, taken) = hearing.sweep(alloc);
            hearing = swept;
            around.gate.pass(Moment::Swept {
                session: SESSION,
                taken,
            });
            if last {
                return hearing;
            }
            if taken == 0 {
                // The processor is left to the writers, whose locks each sweep takes.
                thread::sleep(around.rt, Duration::from_millis(REST));
            }
        }
        unreachable!()
    }
}
