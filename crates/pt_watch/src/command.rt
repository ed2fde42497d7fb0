//! The command `watch`.
ghost use Rattle.std.specs.Prelude.{◌≡◌, ◌+◌, IfOk, IsTrue, length};
ghost use Rattle.ep_defs.specs.Session.{is_valid_config};
ghost use Rattle.pt_asked.specs.Words.{Fits, FitsPlan};
ghost use Rattle.pt_listen.specs.Watched.{WatchedFrom};
ghost use Rattle.pt_watch.specs.Command.{Tells, Watches};
ghost use Rattle.pt_watch.specs.Counting.{IsNothing, StandsFor, counts_in};
ghost use Rattle.pt_watch.specs.Lines.{told_lines};

use crate::counts::Counts;
use crate::limits::EVENTS;
use crate::lines::{put_count, put_heard};
use ep_defs::{Config, Items, MarkList, Marks};
use ep_listen::ListenEnd;
use ep_pool::PoolSeat;
use pt_asked::Asked;
use pt_command::{End, say};
use pt_io::{Clock, Gate, Sink};
use pt_listen::{WatchEnd, run_watch};
use pt_load::Plan;
use std::alloc::{AllocError, Global};
use std::sync::Wait;
use std::thread::Threads;
use std::time::Clock as Timer;

/// How a run ended whose events were counted, and what is left of it.
#[derive(Drop)]
pub struct Watched {
    pub end: End,
    /// Each row's thread, from 1, and how many writes it has made; none where there was no memory for the run to begin.
    pub rows: Vec<(u64, u32)>,
    /// What the session had of each thread, ascending by thread.
    pub marks: MarkList,
    /// A seat of the session's pool that has all its shares.
    pub seat: Option<PoolSeat>,
}

/// Runs the sample program, counts what one session gets of it, and writes for each thread how many of its events were heard and
/// how many were refused, and for each event that was heard how often, in one write. Nothing is written before the run has ended.
/// It may wait for the threads and for their locks.
pub fn watch<R: Threads + Wait + Timer + Sync, O: Sink, C: Clock, G: Gate>(
    rt: &R,
    alloc: Global,
    asked: Asked,
    output: &mut O,
    clock: &C,
    gate: &G,
) -> Watched
    requires { Fits asked }
    ensures { Watches O.Sink asked output.old output.new result.rows.items result.seat result.marks result.end }
{
    let Asked { plan, config } = asked;
    match counted(rt, alloc, &plan, config, clock, gate) {
        Ok(run) => {
            let WatchEnd {
                rows,
                listened,
                seat,
            } = run;
            let ListenEnd {
                callback,
                marks,
                failed,
            } = listened;
            let end = told(alloc, output, marks.as_slice(), &callback, failed);
            Watched {
                end,
                rows,
                marks,
                seat: Some(seat),
            }
        }
        Err(AllocError) => Watched {
            end: End::OutOfMemory,
            rows: Vec::new(alloc),
            marks: Items::new(Vec::new(alloc)),
            seat: None,
        },
    }
}

// Runs the sample program, and counts what one session gets of it.
fn counted<R: Threads + Wait + Timer + Sync, C: Clock, G: Gate>(
    rt: &R,
    alloc: Global,
    plan: &Plan,
    config: Config,
    clock: &C,
    gate: &G,
) -> Result<WatchEnd<Counts>, AllocError>
    requires plan { FitsPlan plan.now }
    requires config { IsTrue (is_valid_config config) }
    ensures { IfOk result (WatchedFrom StandsFor IsNothing plan.now config) }
{
    let counts = Counts::new(alloc)?;
    run_watch(rt, alloc, plan, config, counts, clock, gate)
}

// Writes what was heard, and says how the command ends.
fn told<O: Sink>(
    alloc: Global,
    output: &mut O,
    marks: &[Marks],
    counts: &Counts,
    failed: bool,
) -> End
    requires { length (counts_in counts.now) ≡ EVENTS + 1 }
    ensures { Tells O.Sink output.old output.new (told_lines marks.now (counts_in counts.now)) failed result }
{
    if failed {
        return End::OutOfMemory;
    }
    match text_of(alloc, marks, counts.as_slice()) {
        Ok(text) => say(output, text.as_slice(), End::Done),
        Err(AllocError) => End::OutOfMemory,
    }
}

// The lines.
fn text_of(alloc: Global, marks: &[Marks], counts: &[u64]) -> Result<Vec<u8>, AllocError>
    requires { length counts.now ≡ EVENTS + 1 }
    ensures { IfOk result (λ text. text.items ≡ told_lines marks.now counts.now) }
{
    let mut text = Vec::new(alloc);
    for mark in marks {
        put_heard(&mut text, *mark)?;
    }
    for place in 0..EVENTS {
        put_count(&mut text, place as u64 + 1, counts[place + 1])?;
    }
    Ok(text)
}
