//! The threads that write.
ghost use Rattle.std.specs.Prelude.{◌≡◌, ◌+◌, ◌-◌, ◌*◌, ◌<◌, ◌≤◌, [], Some, IfOk, length, vec_len, vec_capacity};
ghost use Rattle.ep_guarded.specs.Tied.{stand_in};
ghost use Rattle.ep_live.specs.Made.{AreStands};
ghost use Rattle.pt_roles.specs.World.{rows_of};
ghost use Rattle.pt_roles.specs.Writers.{AreAtEnd, AreRowDrafts, HaveYetToWrite, HasLeft, HaveWritten, IsAt, StandsAt};

use crate::drafts::{Drafts, thread_of};
use crate::hints::Hints;
use crate::scene::Scene;
use crate::shared::Shared;
use crate::world::World;
use ep_guarded::{Agreed, Program};
use ep_live::NextWrite;
use ep_tie::Right;
use pt_io::{Clock, Gate, Link, Moment};
use pt_load::laws::{sample_events_are_valid, sample_writes_can_be_made};
use pt_load::{Draft, event_at};
use std::marker::Model;
use std::sync::Wait;
use std::thread;
use std::thread::Threads;
use std::time::{Clock as Timer, Duration};

/// How long a writer rests before it looks again whether its row is free, in milliseconds.
const REST: u64 = 1;

/// A row's thread: its half of the tie to the row, and what gives its writes and those of the threads after it.
#[derive(Drop)]
pub struct Writer<'t, 'a, P: World, L: Link> {
    shared: &'t Shared<'a, P, L>,
    half: Right<P, Agreed<'a>>,
    drafts: Drafts,
}

impl<'t, 'a, P: World, L: Link> Model for Writer<'t, 'a, P, L> {
    ghost use Rattle.pt_roles.specs.Writers.{WriterState};

    ghost Value = { WriterState };

    ghost view = { λ w. record { half = w.half; drafts = w.drafts } };
}

/// The writers, each with its half of the tie, in memory that is there.
pub fn writers_of<'t, 'a, P: World, L: Link>(
    shared: &'t Shared<'a, P, L>,
    halves: Vec<Right<P, Agreed<'a>>>,
    drafts: Vec<Drafts>,
    writers: &mut Vec<Writer<'t, 'a, P, L>>,
)
    requires none { writers.old.items ≡ [] }
    requires room { vec_len halves ≤ vec_capacity writers.old }
    requires equal { vec_len drafts ≡ vec_len halves }
    requires halves { AreStands 0 halves.items }
    requires drafts { AreRowDrafts P.world.plan P.world.options.lives drafts.items }
    ensures count { vec_len writers.new ≡ vec_len halves.entry }
    ensures ready { HaveYetToWrite P.world.plan P.world.options.lives writers.new.items }
{
    for (half, drafts) in halves.into_iter().zip(drafts) {
        writers.push_reserved(Writer {
            shared,
            half,
            drafts,
        });
    }
}

impl<'t, 'a, P: World, L: Link + Drop> Writer<'t, 'a, P, L> {
    /// Makes all writes of the row's threads, one thread after another.
    fn run<R: Wait + Timer, C: Clock, G: Gate>(
        &mut self,
        scene: &Scene<'_, P, R, C, G>,
        number: usize,
    )
        requires row { number < P.rows }
        requires ready { StandsAt P.world.plan P.world.options.lives number 0 0 0 self.old }
        ensures { StandsAt P.world.plan P.world.options.lives number (P.world.options.lives - 1) P.world.plan.writes P.world.options.lives self.new }
    {
        self.write_life(scene, number, 0);
        for life in 1..scene.lives {
            self.leave(scene, number, life - 1);
            self.enter(scene, number, life - 1);
            wait_for_sessions(scene.rt, &self.shared.hints, number);
            self.write_life(scene, number, life);
        }
    }

    // Makes all writes of the thread of this life.
    fn write_life<R: Wait, C: Clock, G: Gate>(
        &mut self,
        scene: &Scene<'_, P, R, C, G>,
        number: usize,
        life: u32,
    )
        requires row { number < P.rows }
        requires life { life < P.world.options.lives }
        requires ready { StandsAt P.world.plan P.world.options.lives number life 0 life self.old }
        ensures { StandsAt P.world.plan P.world.options.lives number life P.world.plan.writes (life + 1) self.new }
    {
        let mut draft = self.drafts.next();
        let thread = thread_of(scene.plan.threads, number as u32, life);
        for index in 0..scene.plan.writes {
            self.write(scene, number, thread, &mut draft, index);
        }
    }

    // Makes the write of this thread after this many others, where a session gets it; else it is taken by.
    fn write<R: Wait, C: Clock, G: Gate>(
        &mut self,
        scene: &Scene<'_, P, R, C, G>,
        number: usize,
        thread: u32,
        draft: &mut Draft,
        index: u32,
    )
        requires row { number < P.rows }
        requires index { index < P.world.plan.writes }
        requires place { self.old.half.place ≡ number }
        requires stands { stand_in self.old.half.value ≡ Some (record { thread = thread; index = index }) }
        requires draft { draft.old ≡ record { plan = P.world.plan; thread = thread } }
        ensures place { self.new.half.place ≡ number }
        ensures stands { stand_in self.new.half.value ≡ Some (record { thread = thread; index = index + 1 }) }
        ensures draft { draft.new ≡ draft.old }
        ensures drafts { self.new.drafts ≡ self.old.drafts }
    {
        sample_events_are_valid();
        sample_writes_can_be_made();
        let at = Moment::Begun { thread, index };
        let event = event_at(scene.plan, thread, index);
        let live = &self.shared.live;
        let turn = live.pass_over(scene.rt, scene.gate, number, &mut self.half, at, event);
        if let Some(turn) = turn {
            let next = NextWrite {
                at,
                stamp: scene.clock.now(),
                write: draft.nth(index),
            };
            turn.write(scene.rt, scene.gate, &mut self.half, &next);
        }
        scene.gate.pass(Moment::Wrote { thread, index });
    }

    // The thread of this life, which has made all its writes, leaves the row.
    fn leave<R: Wait, C, G>(&mut self, scene: &Scene<'_, P, R, C, G>, number: usize, life: u32)
        requires row { number < P.rows }
        requires ready { IsAt P.world.plan number life P.world.plan.writes self.old.half }
        ensures left { HasLeft P.world.plan number life self.new.half }
        ensures drafts { self.new.drafts ≡ self.old.drafts }
    {
        let reopen = self.shared.hints.reopen(number);
        self.shared
            .live
            .leave(scene.rt, number, &mut self.half, reopen);
        self.shared.hints.leaves(number, life);
    }

    // The thread of the life after this one enters the row, once no session is open on it.
    fn enter<R: Wait + Timer, C, G>(
        &mut self,
        scene: &Scene<'_, P, R, C, G>,
        number: usize,
        life: u32,
    )
        requires row { number < P.rows }
        requires life { life + 1 < P.world.options.lives }
        requires left { HasLeft P.world.plan number life self.old.half }
        ensures at { IsAt P.world.plan number (life + 1) 0 self.new.half }
        ensures drafts { self.new.drafts ≡ self.old.drafts }
    {
        for _ in scene.rt.forever() {
            if self.shared.live.enter(scene.rt, number, &mut self.half) {
                self.shared.hints.enters(number, life + 1);
                return;
            }
            thread::sleep(scene.rt, Duration::from_millis(REST));
        }
        unreachable!()
    }
}

// Waits until each session that was open on the row's last thread is open on the next one, or has ended.
fn wait_for_sessions<P: World, R: Wait + Timer>(rt: &R, hints: &Hints<P>, number: usize)
    requires { number < P.rows }
{
    for _ in rt.forever() {
        if !hints.waits(number) {
            return;
        }
        thread::sleep(rt, Duration::from_millis(REST));
    }
    unreachable!()
}

/// Lets each writer make its writes, in a thread of its own where one can be made.
pub fn write_each<
    't,
    'a,
    P: World + Send + Sync,
    L: Link + Drop,
    R: Threads + Wait + Timer + Sync,
    C: Clock,
    G: Gate,
>(scene: &Scene<'_, P, R, C, G>, writers: &mut [Writer<'t, 'a, P, L>])
    requires rows { length writers.old ≡ P.rows }
    requires ready { HaveYetToWrite P.world.plan P.world.options.lives writers.old }
    ensures { HaveWritten P.world.plan P.world.options.lives writers.new }
{
    let writing = |number: usize, writer: &mut Writer<'_, '_, P, L>|
        requires { (number < P.rows) × StandsAt P.world.plan P.world.options.lives number 0 0 0 writer.now }
        ensures { StandsAt P.world.plan P.world.options.lives number (P.world.options.lives - 1) P.world.plan.writes P.world.options.lives writer.exit.now }
    { writer.run(scene, number) };
    let threads = writers.len();
    thread::for_each_mut(scene.rt, writers, threads, &writing);
}

/// What all writers of a run leave once each row's last thread has made all its writes: their halves of the ties to the
/// rows.
#[derive(Drop)]
pub struct Gone<'a, P: World> {
    halves: Vec<Right<P, Agreed<'a>>>,
    ghost at_end: { AreAtEnd P.world.plan P.world.options.lives halves.items },
}

/// Reads from each row how far its last thread has come, and gives what all writers leave, in memory that is there. It
/// waits for the rows.
pub fn give_back<'t, 'a, P: World, L: Link, R: Wait, C, G>(
    scene: &Scene<'_, P, R, C, G>,
    writers: Vec<Writer<'t, 'a, P, L>>,
    rows: &mut Vec<(u64, u32)>,
    halves: Vec<Right<P, Agreed<'a>>>,
) -> Gone<'a, P>
    requires written { (vec_len writers ≡ P.rows) × HaveWritten P.world.plan P.world.options.lives writers.items }
    requires none { (rows.old.items ≡ []) × (halves.items ≡ []) }
    requires row_room { P.rows ≤ vec_capacity rows.old }
    requires half_room { P.rows ≤ vec_capacity halves }
    ensures { rows.new.items ≡ rows_of P.world.plan P.world.options.lives }
{
    let mut halves = halves;
    let mut number = 0;
    for writer in writers {
        let Writer {
            shared,
            half,
            drafts: _,
        } = writer;
        let mut half = half;
        let stand = shared.live.stand(scene.rt, number, &mut half);
        rows.push_reserved((stand.thread, stand.index));
        halves.push_reserved(half);
        number += 1;
    }
    Gone { halves }
}
