//! The threads that write.
ghost use Rattle.std.specs.Prelude.{◌≡◌, ◌+◌, ◌<◌, ◌≤◌, [], IfOk, length, vec_len, vec_capacity};
ghost use Rattle.ep_defs.specs.declared.limits.TheConstants.{THREADS as MOST_THREADS};
ghost use Rattle.ep_live.specs.Made.{AreStands};
ghost use Rattle.pt_writers.specs.Written.{rows_of};
ghost use Rattle.pt_writers.specs.state.Writers.{AreDrafts, AreReady, StandsAt};

use crate::run::{Around, SampleRun};
use ep_guarded::{Agreed, Program};
use ep_live::{Live, NextWrite};
use ep_tie::Right;
use pt_io::{Clock, Gate, Moment};
use pt_load::laws::{sample_events_are_valid, sample_writes_can_be_made};
use pt_load::{Draft, Plan, event_at};
use std::alloc::{AllocError, Global};
use std::marker::Model;
use std::sync::Wait;
use std::thread;
use std::thread::Threads;

/// A thread's half of the tie to its row, and what gives its writes.
#[derive(Drop)]
pub struct Writer<'w, 'a, P: Program> {
    live: &'w Live<'a, P>,
    half: Right<P, Agreed<'a>>,
    draft: Draft,
}

impl<'w, 'a, P: Program> Model for Writer<'w, 'a, P> {
    ghost use Rattle.pt_writers.specs.state.Writers.{WriterState};

    ghost Value = { WriterState };

    ghost view = { λ w. record { half = w.half; draft = w.draft } };
}

/// What gives each thread's writes.
pub(crate) fn drafts_of(alloc: Global, plan: &Plan) -> Result<Vec<Draft>, AllocError>
    requires few { plan.now.threads ≤ MOST_THREADS }
    ensures count { IfOk result (λ drafts. vec_len drafts ≡ plan.now.threads) }
    ensures drafts { IfOk result (λ drafts. AreDrafts plan.now drafts.items) }
{
    let mut drafts = Vec::with_capacity(alloc, plan.threads as usize)?;
    for number in 0..plan.threads {
        drafts.push(Draft::new(alloc, plan, number + 1)?)?;
    }
    Ok(drafts)
}

/// The writers, each with its half of the tie, in memory that is there.
pub fn writers_of<'w, 'a, P: SampleRun>(
    live: &'w Live<'a, P>,
    halves: Vec<Right<P, Agreed<'a>>>,
    drafts: Vec<Draft>,
    writers: &mut Vec<Writer<'w, 'a, P>>,
)
    requires none { writers.old.items ≡ [] }
    requires room { vec_len halves ≤ vec_capacity writers.old }
    requires equal { vec_len drafts ≡ vec_len halves }
    requires halves { AreStands 0 halves.items }
    requires drafts { AreDrafts P.plan drafts.items }
    ensures count { vec_len writers.new ≡ vec_len halves.entry }
    ensures ready { AreReady P.plan 0 writers.new.items }
{
    for (half, draft) in halves.into_iter().zip(drafts) {
        writers.push_reserved(Writer { live, half, draft });
    }
}

impl<'w, 'a, P: SampleRun> Writer<'w, 'a, P> {
    /// Makes all writes of the thread.
    fn write_all<R: Wait, C: Clock, G: Gate>(
        &mut self,
        around: &Around<'_, P, R, C, G>,
        number: usize,
    )
        requires row { number < P.rows }
        requires ready { StandsAt P.plan number 0 self.old }
        ensures { StandsAt P.plan number P.plan.writes self.new }
    {
        for index in 0..around.plan.writes {
            self.write(around, number, index);
        }
    }

    // Makes the thread's write after this many others, where a session gets it; else it is taken by.
    fn write<R: Wait, C: Clock, G: Gate>(
        &mut self,
        around: &Around<'_, P, R, C, G>,
        number: usize,
        index: u32,
    )
        requires row { number < P.rows }
        requires index { index < P.plan.writes }
        requires ready { StandsAt P.plan number index self.old }
        ensures { StandsAt P.plan number (index + 1) self.new }
    {
        sample_events_are_valid();
        sample_writes_can_be_made();
        let thread = number as u32 + 1;
        let at = Moment::Begun { thread, index };
        let event = event_at(around.plan, thread, index);
        let turn = self
            .live
            .pass_over(around.rt, around.gate, number, &mut self.half, at, event);
        if let Some(turn) = turn {
            let next = NextWrite {
                at,
                stamp: around.clock.now(),
                write: self.draft.nth(index),
            };
            turn.write(around.rt, around.gate, &mut self.half, &next);
        }
        around.gate.pass(Moment::Wrote { thread, index });
    }
}

/// The writers of a run in which each has made all its writes.
#[derive(Drop)]
pub struct AtEnd<'w, 'a, P: SampleRun> {
    writers: Vec<Writer<'w, 'a, P>>,
    ghost count: { vec_len writers ≡ P.plan.threads },
    ghost ended: { AreReady P.plan P.plan.writes writers.items },
}

/// Lets each writer make its writes, in a thread of its own where one can be made.
pub fn write_all<'w, 'a, P: SampleRun + Send + Sync, R: Threads + Wait + Sync, C: Clock, G: Gate>(
    around: &Around<'_, P, R, C, G>,
    writers: Vec<Writer<'w, 'a, P>>,
) -> AtEnd<'w, 'a, P>
    requires rows { vec_len writers ≡ P.rows }
    requires ready { AreReady P.plan 0 writers.items }
{
    let mut writers = writers;
    write_each(around, writers.as_mut_slice());
    AtEnd { writers }
}

// The same of writers that are lent.
fn write_each<'w, 'a, P: SampleRun + Send + Sync, R: Threads + Wait + Sync, C: Clock, G: Gate>(
    around: &Around<'_, P, R, C, G>,
    writers: &mut [Writer<'w, 'a, P>],
)
    requires rows { length writers.old ≡ P.rows }
    requires ready { AreReady P.plan 0 writers.old }
    ensures { AreReady P.plan P.plan.writes writers.new }
{
    let writing = |number: usize, writer: &mut Writer<'_, '_, P>|
        requires { (number < P.rows) × StandsAt P.plan number 0 writer.now }
        ensures { StandsAt P.plan number P.plan.writes writer.exit.now }
    { writer.write_all(around, number) };
    let threads = writers.len();
    thread::for_each_mut(around.rt, writers, threads, &writing);
}

impl<'w, 'a, P: SampleRun> AtEnd<'w, 'a, P> {
    /// Reads from each row how far its thread has come, and gives the halves of the writers, both by row and in memory
    /// that is there. It waits for the rows.
    pub fn give_back<R: Wait, C: Clock, G: Gate>(
        self,
        around: &Around<'_, P, R, C, G>,
        rows: &mut Vec<(u64, u32)>,
        halves: &mut Vec<Right<P, Agreed<'a>>>,
    )
        requires none { (rows.old.items ≡ []) × (halves.old.items ≡ []) }
        requires row_room { P.rows ≤ vec_capacity rows.old }
        requires half_room { P.rows ≤ vec_capacity halves.old }
        ensures rows { rows.new.items ≡ rows_of P.plan }
        ensures count { vec_len halves.new ≡ P.rows }
        ensures halves { AreStands P.plan.writes halves.new.items }
    {
        let AtEnd { writers } = self;
        let mut number = 0;
        for writer in writers {
            let Writer {
                live,
                half,
                draft: _,
            } = writer;
            let mut half = half;
            let stand = live.stand(around.rt, number, &mut half);
            rows.push_reserved((stand.thread, stand.index));
            halves.push_reserved(half);
            number += 1;
        }
    }
}
