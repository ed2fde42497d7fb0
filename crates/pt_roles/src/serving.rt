//! What a streaming role does with one of its sessions.
ghost use Rattle.std.specs.Prelude.{◌≡◌, ◌≢◌, ◌+◌, ◌<◌, true, false, None, IsTrue};
ghost use Rattle.std.specs.List.{AllByRecursion};
ghost use Rattle.ep_stream.specs.declared.session.Fate.TheVariants as fates;
ghost use Rattle.ep_journal.specs.declared.session.Stage.TheVariants as stage;
ghost use Rattle.ep_journal.specs.Recorded.{goes_on, may_end};
ghost use Rattle.ep_live_laws.specs.Tracing.{is_fault};
ghost use Rattle.pt_stream.specs.State.{IsDone, IsShut, is_complete};
ghost use Rattle.pt_roles.specs.Fates.{fate_as};
ghost use Rattle.pt_roles.specs.Serving.{FollowsRows, IsLeftOf, KeepsSession};
ghost use Rattle.pt_roles.specs.Table.{Fits, IsStreamOf};

use crate::finale::Finale;
use crate::live_end::LiveSession;
use crate::scene::Scene;
use crate::shared::Shared;
use crate::table::{Held, Telling};
use crate::world::{Holds, World};
use ep_guarded::NotOpened;
use ep_journal::Fate as Kept;
use ep_live_laws::{a_part_is_found, a_traced_stream_is_found};
use ep_pool::PoolSeat;
use ep_registry::{Handed, Holder};
use ep_stream::{Fate, SessionEnd};
use pt_io::{Clock, Gate, Link, Moment};
use pt_load::laws::sample_events_are_valid;
use pt_server::{Process, Served};
use pt_stream::Run;
use std::sync::Wait;

/// Serves a session once: ends it where it is to end, and else takes what its threads keep for it. Gives the session where
/// it goes on, and whether something was taken or ended.
pub fn serve<'a, W: World, R: Wait, L: Link + Drop, C: Clock, G: Gate>(
    scene: &Scene<'_, W, R, C, G>,
    shared: &Shared<'a, W, L>,
    held: Held<'a, W, L>,
) -> (Option<Held<'a, W, L>>, bool) {
    let (mut holder, stream) = held.open();
    if !stream.is_complete() {
        // Memory was missing while it was opened.
        end(scene, shared, holder, stream, Fate::OutOfMemory);
        return (None, true);
    }
    match shared.look(scene.rt, &mut holder) {
        Some(Kept::Requested { conn }) => {
            end(scene, shared, holder, stream, Fate::Requested { conn });
            (None, true)
        }
        Some(Kept::ProgramEnd) => {
            end_done(scene, shared, holder, stream);
            (None, true)
        }
        Some(Kept::LinkFault | Kept::TooLong | Kept::OutOfMemory) => unreachable!(),
        None => go_on(scene, shared, holder, stream),
    }
}

// Takes what its threads keep for it, on the lives that its rows serve by now.
fn go_on<'a, W: World, R: Wait, L: Link + Drop, C: Clock, G: Gate>(
    scene: &Scene<'_, W, R, C, G>,
    shared: &Shared<'a, W, L>,
    holder: Holder<Holds<W>>,
    stream: Telling<'a, W, L>,
) -> (Option<Held<'a, W, L>>, bool)
    requires serves { holder.stage ≡ stage.Serving }
    requires complete { is_complete stream ≡ true }
    requires fits { Fits W.writes holder stream }
{
    let (stream, opened) = follow(scene, shared, stream);
    if !opened {
        end(scene, shared, holder, stream, Fate::OutOfMemory);
        return (None, true);
    }
    let stamp = scene.clock.now();
    let (stream, swept) = stream.sweep(scene.alloc, scene.rt, &shared.live, stamp);
    let Ok(taken) = swept else {
        // The stream has failed, and says its own fault at its end.
        end(scene, shared, holder, stream, Fate::OutOfMemory);
        return (None, true);
    };
    let session = stream.id();
    scene.gate.pass(Moment::Swept { session, taken });
    (Some(Handed::new(holder, stream)), taken > 0)
}

// Closes it on each row whose thread has left, and opens it on each whose next thread is there. Answers whether there was
// memory for that.
fn follow<'a, W: World, R: Wait, L: Link, C, G>(
    scene: &Scene<'_, W, R, C, G>,
    shared: &Shared<'a, W, L>,
    stream: Telling<'a, W, L>,
) -> (Telling<'a, W, L>, bool)
    requires { FollowsRows W.writes stream }
    ensures same { KeepsSession stream.entry result.0 }
    ensures follows { FollowsRows W.writes result.0 }
{
    let mut stream = stream;
    if scene.lives == 1 {
        return (stream, true);
    }
    for number in 0..scene.plan.threads {
        let (next, opened) = follow_row(scene, shared, stream, number);
        stream = next;
        if !opened {
            return (stream, false);
        }
    }
    (stream, true)
}

// The same on one row, by its number from 0.
fn follow_row<'a, W: World, R: Wait, L: Link, C, G>(
    scene: &Scene<'_, W, R, C, G>,
    shared: &Shared<'a, W, L>,
    stream: Telling<'a, W, L>,
    number: u32,
) -> (Telling<'a, W, L>, bool)
    requires row { number < W.rows }
    requires follows { FollowsRows W.writes stream }
    ensures same { KeepsSession stream.entry result.0 }
    ensures follows { FollowsRows W.writes result.0 }
{
    let row = number + 1;
    let place = stream.place(row);
    let life = shared.hints.life(number as usize, scene.lives);
    if place.is_open {
        if life.is_some() {
            return (stream, true);
        }
        return (close_done_at(scene, shared, stream, number), true);
    }
    let Some(life) = life else {
        return (stream, true);
    };
    if life < place.next {
        return (stream, true);
    }
    let slot = stream.slot();
    match stream.open_row(scene.alloc, scene.rt, &shared.live, row, life) {
        (stream, Ok(())) => {
            shared.hints.opened(number as usize, slot);
            (stream, true)
        }
        (stream, Err(NotOpened::Away)) => (stream, true),
        (stream, Err(_)) => (stream, false),
    }
}

// Ends it with the program, all of whose threads have ended.
fn end_done<'a, W: World, R: Wait, L: Link + Drop, C: Clock, G: Gate>(
    scene: &Scene<'_, W, R, C, G>,
    shared: &Shared<'a, W, L>,
    holder: Holder<Holds<W>>,
    stream: Telling<'a, W, L>,
)
    requires ends { IsTrue (may_end (fate_as fates.ProgramEnd) holder.stage) }
    requires complete { is_complete stream ≡ true }
    requires fits { Fits W.writes holder stream }
{
    let mut stream = stream;
    for number in 0..scene.plan.threads {
        stream = close_done_at(scene, shared, stream, number);
    }
    finish(scene, shared, holder, stream, Fate::ProgramEnd);
}

// Ends it as it is to end, or by its own fault.
fn end<'a, W: World, R: Wait, L: Link + Drop, C: Clock, G: Gate>(
    scene: &Scene<'_, W, R, C, G>,
    shared: &Shared<'a, W, L>,
    holder: Holder<Holds<W>>,
    stream: Telling<'a, W, L>,
    fate: Fate,
)
    requires ends { IsTrue (may_end (fate_as fate) holder.stage) }
    requires own { (fate ≢ fates.LinkFault) × (fate ≢ fates.TooLong) }
    requires program { fate ≢ fates.ProgramEnd }
    requires complete { is_fault fate ≡ false → is_complete stream ≡ true }
    requires fits { Fits W.writes holder stream }
{
    let mut stream = stream;
    for number in 0..scene.plan.threads {
        stream = close_at(scene, shared, stream, number);
    }
    finish(scene, shared, holder, stream, fate);
}

// Closes it on a row, by its number from 0, where it is open there.
fn close_at<'a, W: World, R: Wait, L: Link, C, G>(
    scene: &Scene<'_, W, R, C, G>,
    shared: &Shared<'a, W, L>,
    stream: Telling<'a, W, L>,
    number: u32,
) -> Telling<'a, W, L>
    requires { number < W.rows }
    ensures same { KeepsSession stream.entry result }
    ensures complete { is_complete result ≡ is_complete stream.entry }
    ensures shut { IsShut number stream.entry → IsShut (number + 1) result }
{
    let row = number + 1;
    if !stream.place(row).is_open {
        return stream;
    }
    stream.close_row(scene.alloc, scene.rt, &shared.live, row)
}

// The same once the row's thread has made all its writes, for which it waits.
fn close_done_at<'a, W: World, R: Wait, L: Link, C, G>(
    scene: &Scene<'_, W, R, C, G>,
    shared: &Shared<'a, W, L>,
    stream: Telling<'a, W, L>,
    number: u32,
) -> Telling<'a, W, L>
    requires row { number < W.rows }
    requires lent { stream.stands ≡ None }
    requires done { AllByRecursion (IsDone W.writes) stream.marks }
    ensures same { KeepsSession stream.entry result }
    ensures complete { is_complete result ≡ is_complete stream.entry }
    ensures shut { IsShut number stream.entry → IsShut (number + 1) result }
    ensures done { AllByRecursion (IsDone W.writes) result.marks }
{
    let row = number + 1;
    if !stream.place(row).is_open {
        return stream;
    }
    let writes = scene.plan.writes;
    stream.close_done(scene.alloc, scene.rt, &shared.live, row, writes)
}

// Ends its stream, which is open on no row, and gives back what it had.
fn finish<'a, W: World, R: Wait, L: Link + Drop, C: Clock, G: Gate>(
    scene: &Scene<'_, W, R, C, G>,
    shared: &Shared<'a, W, L>,
    holder: Holder<Holds<W>>,
    stream: Telling<'a, W, L>,
    fate: Fate,
)
    requires ends { IsTrue (may_end (fate_as fate) holder.stage) }
    requires goes { IsTrue (goes_on holder.stage) }
    requires own { (fate ≢ fates.LinkFault) × (fate ≢ fates.TooLong) }
    requires complete { is_fault fate ≡ false → is_complete stream ≡ true }
    requires shut { IsShut W.rows stream }
    requires done { fate ≡ fates.ProgramEnd → AllByRecursion (IsDone W.writes) stream.marks }
    requires own_stream { IsStreamOf holder stream }
{
    a_traced_stream_is_found();
    a_part_is_found();
    sample_events_are_valid();
    let slot = stream.slot();
    let stamp = scene.clock.now();
    let (end, rows) = stream.end(scene.alloc, scene.rt, &shared.live, stamp, fate);
    let (free, seat) = rows.retire(scene.rt);
    let session = session_of(end, seat);
    let fate = fate_as(session.fate);
    let finale = Finale::new(session);
    // Before the slot is free: the next session in it has hints of its own.
    shared.hints.ended(slot);
    shared.end(scene.rt, holder, fate, free, finale);
}

// What is left of a session whose stream has ended, and whose pool has this seat. Its link is shut.
fn session_of<W: World, L: Link>(
    end: SessionEnd<Served<'_, W, L>>,
    seat: PoolSeat,
) -> LiveSession<L>
    ensures left { IsLeftOf L.read_side L.Sink end.entry result }
    ensures seat { result.seat ≡ seat }
{
    let SessionEnd {
        id,
        slot: _,
        conn,
        config,
        marks,
        fate,
        sink,
    } = end;
    let mut sink = sink;
    sink.shut();
    LiveSession {
        id,
        conn,
        config,
        marks,
        fate,
        gone: None,
        seat,
        link: sink.into_link(),
    }
}

/// The journal's word for a fate.
pub fn fate_as(fate: Fate) -> Kept
    ensures { result ≡ fate_as fate }
{
    match fate {
        Fate::Requested { conn } => Kept::Requested { conn },
        Fate::ProgramEnd => Kept::ProgramEnd,
        Fate::LinkFault => Kept::LinkFault,
        Fate::TooLong => Kept::TooLong,
        Fate::OutOfMemory => Kept::OutOfMemory,
    }
}
