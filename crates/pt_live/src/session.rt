//! The one session of a run, from its opening to its end.
ghost use Rattle.std.specs.Prelude.{◌≡◌, ℕ, ◌≤◌, ◌⊎◌, [], Some, IfOk, OnErr, vec_len};
ghost use Rattle.ep_live.specs.Made.{AreStands};
ghost use Rattle.ep_stream.specs.declared.session.Fate.TheVariants as fates;
ghost use Rattle.pt_writers.specs.Whole.{IsSpent};
ghost use Rattle.pt_writers.specs.Written.{rows_of};
ghost use Rattle.pt_live.specs.Trace.{HasSpent};
ghost use Rattle.pt_live.specs.state.Ended.{HasEndedAt, HasEndedUnwritten};
ghost use Rattle.pt_live.specs.state.Open.{IsOpenOn};

use crate::run::TraceRun;
use crate::streaming::{SESSION, Streaming};
use crate::threads::run_both;
use crate::trace::TraceEnd;
use ep_guarded::Agreed;
use ep_pool::PoolSeat;
use ep_stream::{Fate, SessionEnd};
use ep_tie::Right;
use pt_io::{Clock, Gate, Moment, Sink};
use pt_load::laws::sample_events_are_valid;
use pt_writers::{Around, Kit, write_all, writers_of};
use std::alloc::{AllocError, Global};
use std::sync::Wait;
use std::thread::Threads;
use std::time::Clock as Timer;

/// Lets the threads make their writes where there is no stream. Gives each row's thread and how many it has made.
pub(crate) fn untold<
    'w,
    'g,
    P: TraceRun + Send + Sync,
    R: Threads + Wait + Sync,
    C: Clock,
    G: Gate,
>(
    around: &Around<'_, P, R, C, G>,
    threads: Vec<Right<P, Agreed<'g>>>,
    kit: Kit<'w, 'g, P>,
) -> Vec<(u64, u32)>
    requires count { vec_len threads ≡ P.rows }
    requires threads { AreStands 0 threads.items }
    ensures { result.items ≡ rows_of P.plan }
{
    let Kit {
        live,
        drafts,
        mut writers,
        mut halves,
        rows: mut ends,
    } = kit;
    writers_of(live, threads, drafts, &mut writers);
    write_all(around, writers).give_back(around, &mut ends, &mut halves);
    ends
}

/// Opens a session that was just started on all rows, lets the threads make their writes while this thread streams, and
/// ends it. Out of memory it ends it before a thread makes a write.
pub(crate) fn streamed<
    'w,
    'g,
    P: TraceRun + Send + Sync,
    R: Threads + Wait + Timer + Sync,
    S: Sink + Drop,
    C: Clock,
    G: Gate,
>(
    alloc: Global,
    around: &Around<'_, P, R, C, G>,
    streaming: Streaming<'w, 'g, P, S>,
    kit: Kit<'w, 'g, P>,
) -> (S, Result<TraceEnd, AllocError>)
    requires is_open { IsOpenOn P.run P.rows 0 0 streaming.stream }
    requires stands { streaming.stream.stands ≡ Some 0 }
    requires marks { streaming.stream.marks ≡ [] }
    ensures rows { IfOk result.1 (λ end. end.rows.items ≡ rows_of P.plan) }
    ensures ended { IfOk result.1 (λ end. HasEndedAt S.Sink P.run P.plan P.events P.writes P.rows P.plan.writes
        fates.ProgramEnd end.marks end.fate result.0) }
    ensures spent { IfOk result.1 (λ end. HasSpent P.run.config end.marks end.seat) }
    ensures memory { OnErr result.1 (HasEndedUnwritten S.Sink P.run P.plan P.rows P.events P.writes result.0) }
{
    let (streaming, opened) = streaming.open_all(alloc, around);
    if opened < around.plan.threads {
        let (end, _seat) = ended(alloc, around, streaming, opened, Fate::OutOfMemory);
        return (end.sink, Err(AllocError));
    }
    let (streaming, rows) = with_threads(alloc, around, streaming, kit);
    let (last, seat) = ended(alloc, around, streaming, opened, Fate::ProgramEnd);
    let SessionEnd {
        marks,
        fate,
        sink,
        ..
    } = last;
    let seat = Some(seat);
    (
        sink,
        Ok(TraceEnd {
            rows,
            marks,
            fate,
            seat,
        }),
    )
}

// Lets the threads make their writes while this one streams. Gives each row's thread and how many it has made.
fn with_threads<
    'w,
    'g,
    P: TraceRun + Send + Sync,
    R: Threads + Wait + Timer + Sync,
    S: Sink + Drop,
    C: Clock,
    G: Gate,
>(
    alloc: Global,
    around: &Around<'_, P, R, C, G>,
    streaming: Streaming<'w, 'g, P, S>,
    kit: Kit<'w, 'g, P>,
) -> (Streaming<'w, 'g, P, S>, Vec<(u64, u32)>)
    requires stands { streaming.stream.stands ≡ Some 0 }
    ensures same { result.0.stream ≡ record streaming.entry.stream { stands = Some P.plan.writes } }
    ensures rows { result.1.items ≡ rows_of P.plan }
{
    let Streaming { live, stream } = streaming;
    let Kit {
        live: _,
        drafts,
        mut writers,
        mut halves,
        rows: mut ends,
    } = kit;
    let (stream, threads) = stream.lend(around.rt, live);
    writers_of(live, threads, drafts, &mut writers);
    around.gate.pass(Moment::Opened { session: SESSION });
    let streaming = Streaming { live, stream };
    let (streaming, done) = run_both(alloc, around, streaming, writers);
    done.give_back(around, &mut ends, &mut halves);
    let Streaming { live, stream } = streaming;
    let stream = stream.take_back(around.rt, live, halves, around.plan.writes);
    (Streaming { live, stream }, ends)
}

// Closes a session, which is open on the first rows, and ends it. Gives the seat of its pool, which has all shares then.
fn ended<P: TraceRun, R: Wait, S: Sink, C: Clock, G: Gate>(
    alloc: Global,
    around: &Around<'_, P, R, C, G>,
    streaming: Streaming<'_, '_, P, S>,
    opened: u32,
    fate: Fate,
) -> (SessionEnd<S>, PoolSeat)
    requires few { opened ≤ P.rows }
    requires is_open { IsOpenOn P.run P.rows 0 opened streaming.stream }
    requires marks { streaming.stream.marks ≡ [] }
    requires why { (fate ≡ fates.OutOfMemory × (streaming.stream.stands ≡ Some 0))
        ⊎ (fate ≡ fates.ProgramEnd × (opened ≡ P.rows) × (streaming.stream.stands ≡ Some P.plan.writes)) }
    ensures ended { (to : ℕ) → streaming.entry.stream.stands ≡ Some to
        → HasEndedAt S.Sink P.run P.plan P.events P.writes opened to fate result.0.marks result.0.fate result.0.sink }
    ensures spent { IsSpent P.run.config result.0.marks result.1 }
{
    sample_events_are_valid();
    let streaming = streaming.close_all(alloc, around, opened);
    let Streaming { live, stream } = streaming;
    let (end, left) = stream.end(alloc, around.rt, live, around.clock.now(), fate);
    (end, left.into_seat())
}
