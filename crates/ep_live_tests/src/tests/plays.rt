//! Runs of two rows, each of which gives what it was told as lines of numbers.
ghost use Rattle.std.specs.Prelude.{◌≡◌, ◌<◌, ◌≤◌, IfOk, vec_len};
ghost use Rattle.ep_guarded.specs.Tied.{buffer_number};
ghost use Rattle.ep_live.specs.Made.{AreStands, IsStand};
ghost use Rattle.ep_live_tests.specs.Begun.{IsGranted};
ghost use Rattle.ep_live_tests.specs.Runs.{IsProgram};

use super::begun::{
    Granted, Halves, events, hands_of, placed_grant, third_slot, threads_of, write,
};
use super::places::{Place, whole};
use super::rows::Opened;
use super::threads::{Run, Tally, Thread};
use ep_defs::{EventDef, Write};
use ep_guarded::{Agreed, Grant, Program};
use ep_live::{Ended, Free, Live, Stands};
use ep_shelf::Shelf;
use ep_tie::{Blank, Right};
use std::alloc::{AllocError, Global};
use std::marker::Brand;
use std::sync::Wait;
use std::thread;
use std::thread::Threads;

/// How many lives each row has where threads follow one another.
const LIVES: u32 = 3;

/// How often a session is opened beside its thread's writes.
const OPENINGS: u32 = 50;

/// Which run it is.
#[derive(Clone, Copy)]
pub(super) enum Play {
    Taken,
    Beside,
    Lives,
    Openings,
    Retired,
}

/// What a run of two rows tells, in which each thread writes so often. The first of two sessions was granted four chunks, the
/// second so many.
pub(super) fn told<R: Threads + Wait + Sync>(
    rt: &R,
    alloc: Global,
    play: Play,
    turns: u32,
    chunks: u32,
) -> Result<Vec<[u64; 6]>, AllocError>
    requires few { turns ≤ 1000 }
    requires some { 0 < chunks }
{
    let grants = Shelf::new(alloc)?;
    told_on(rt, alloc, &grants, play, turns, chunks)
}

// The same with grants that stand on the shelf.
fn told_on<R: Threads + Wait + Sync>(
    rt: &R,
    alloc: Global,
    grants: &Shelf<Grant>,
    play: Play,
    turns: u32,
    chunks: u32,
) -> Result<Vec<[u64; 6]>, AllocError>
    requires few { turns ≤ 1000 }
    requires some { 0 < chunks }
{
    let events = events(alloc)?;
    let first = placed_grant(rt, alloc, grants, events.as_slice(), 4)?;
    let second = placed_grant(rt, alloc, grants, events.as_slice(), chunks)?;
    let blank = Blank::new(alloc, 258)?;
    let write = write(alloc);
    let script = Script {
        play,
        first,
        second,
    };
    run::<Brand, R>(rt, alloc, blank, events, write, turns, script)
}

/// Which run it is, and what its two sessions were granted.
#[derive(Drop)]
struct Script<'a> {
    play: Play,
    first: Granted<'a>,
    second: Granted<'a>,
}

// The same in a run of these events.
fn run<'a, P: Program + Send + Sync, R: Threads + Wait + Sync>(
    rt: &R,
    alloc: Global,
    blank: Blank<Agreed<'a>>,
    events: Vec<EventDef>,
    write: Write,
    turns: u32,
    script: Script<'a>,
) -> Result<Vec<[u64; 6]>, AllocError>
    requires ties { blank.ties ≡ P.ties }
    requires places { blank.places ≡ 258 }
    requires two { P.rows ≡ 2 }
    requires events { events.items ≡ P.events }
    requires program { IsProgram P.events P.writes turns write }
    requires first { IsGranted P.events script.first.grant.now script.first.seat }
    requires second { IsGranted P.events script.second.grant.now script.second.seat }
{
    let (live, threads, hands) = Live::<P>::new(alloc, blank, 2, events)?;
    let run = Run { live, write, turns };
    let halves = Halves { threads, hands };
    play_on(rt, alloc, &run, halves, script)
}

fn play_on<'a, P: Program + Send + Sync, R: Threads + Wait + Sync>(
    rt: &R,
    alloc: Global,
    run: &Run<'a, P>,
    halves: Halves<'a, P>,
    script: Script<'a>,
) -> Result<Vec<[u64; 6]>, AllocError>
    requires first { IsGranted P.events script.first.grant.now script.first.seat }
    requires second { IsGranted P.events script.second.grant.now script.second.seat }
{
    let Script {
        play,
        first,
        second,
    } = script;
    match play {
        Play::Taken => taken(rt, alloc, run, cast_of(alloc, halves, first, second, 1, 3)),
        Play::Lives => lives(rt, alloc, run, cast_of(alloc, halves, first, second, 1, 3)),
        Play::Openings => openings(rt, alloc, run, cast_of(alloc, halves, first, second, 0, 5)),
        Play::Beside => beside(rt, alloc, run, halves, first),
        Play::Retired => retired(rt, alloc, run, halves, first, second),
    }
}

fn lines_of(alloc: Global, lines: &[[u64; 6]]) -> Result<Vec<[u64; 6]>, AllocError> {
    let mut all = Vec::new(alloc);
    all.extend_from_slice(lines)?;
    Ok(all)
}

/// The threads of both rows, a session that may be open in slot 3 of the first row, and one in another place.
#[derive(Drop)]
struct Cast<'a, P: Program> {
    first: Thread<'a, P>,
    second: Thread<'a, P>,
    one: Place<'a, P>,
    other: Place<'a, P>,
}

fn cast_of<'a, P: Program>(
    alloc: Global,
    halves: Halves<'a, P>,
    first: Granted<'a>,
    second: Granted<'a>,
    row: u32,
    slot: u32,
) -> Cast<'a, P>
    requires first { IsGranted P.events first.grant.now first.seat }
    requires second { IsGranted P.events second.grant.now second.seat }
    requires row { row < 2 }
    requires slot { slot < 64 }
    requires other { 3 < buffer_number row slot }
{
    let Halves { threads, hands } = halves;
    let high = row as usize * 64 + slot as usize;
    let (one, other) = hands_of(hands, 3, high);
    let one = Place::new(0, 3, one, first.grant, first.seat);
    let other = Place::new(row, slot, other, second.grant, second.seat);
    let (first, second) = threads_of(alloc, threads);
    Cast {
        first,
        second,
        one,
        other,
    }
}

// ---- one of two that play beside each other

/// A thread, and a session on its row or on another: the thread has its lives, or the session is opened and closed again and
/// again; and where there is no session, the thread makes all its writes.
#[derive(Drop)]
struct Player<'r, 'a, P: Program, R: Wait> {
    rt: &'r R,
    run: &'r Run<'a, P>,
    lives: bool,
    thread: Thread<'a, P>,
    place: Option<Place<'a, P>>,
}

impl<'r, 'a, P: Program, R: Wait> Player<'r, 'a, P, R> {
    fn play(self, alloc: Global) -> Thread<'a, P> {
        let Player {
            rt,
            run,
            lives,
            mut thread,
            place,
        } = self;
        match place {
            None => write_all(rt, run, &mut thread),
            Some(place) => play_at(rt, alloc, run, lives, &mut thread, place),
        }
        thread
    }
}

fn play_at<'a, P: Program, R: Wait>(
    rt: &R,
    alloc: Global,
    run: &Run<'a, P>,
    lives: bool,
    thread: &mut Thread<'a, P>,
    place: Place<'a, P>,
) {
    let mut place = place;
    if lives {
        live_all(rt, alloc, run, thread, &mut place);
    } else {
        let line = open_often(rt, alloc, run, &mut place);
        thread.tell(line);
    }
}

fn play_both<'r, 'a, P: Program + Send + Sync, R: Threads + Wait + Sync>(
    rt: &R,
    alloc: Global,
    one: Player<'r, 'a, P, R>,
    other: Player<'r, 'a, P, R>,
) -> (Thread<'a, P>, Thread<'a, P>) {
    thread::join(rt, move || one.play(alloc), move || other.play(alloc))
}

// The thread makes all its writes.
fn write_all<'a, P: Program, R: Wait>(rt: &R, run: &Run<'a, P>, thread: &mut Thread<'a, P>) {
    let Tally {
        in_turn,
        always,
        ever,
        refused,
        both,
    } = thread.write_all(rt, run);
    thread.tell([in_turn, always, ever, refused, both, 0]);
}

// ---- a session that takes

fn taken<'a, P: Program, R: Wait>(
    rt: &R,
    alloc: Global,
    run: &Run<'a, P>,
    cast: Cast<'a, P>,
) -> Result<Vec<[u64; 6]>, AllocError> {
    let Cast {
        mut first,
        mut one,
        ..
    } = cast;
    let lines = take_between(rt, alloc, run, &mut first, &mut one);
    lines_of(alloc, &lines)
}

// The thread writes once after the opening, and once more after a steal. Gives the last number of the steal, the shares of
// the seat and what it counts in the end, and the marks.
fn take_between<'a, P: Program, R: Wait>(
    rt: &R,
    alloc: Global,
    run: &Run<'a, P>,
    thread: &mut Thread<'a, P>,
    place: &mut Place<'a, P>,
) -> [[u64; 6]; 2] {
    let opened = place.open(rt, alloc, &run.live, 0);
    thread.write(rt, run);
    let stolen = place.steal(rt, &run.live);
    thread.write(rt, run);
    let closed = place.close(rt, alloc, &run.live);
    let [share, taken, given] = place.counts();
    let said = [u64::from(opened), u64::from(stolen), share, taken, given, 0];
    [said, closed]
}

// ---- threads that follow one another

fn lives<'r, 'a, P: Program + Send + Sync, R: Threads + Wait + Sync>(
    rt: &'r R,
    alloc: Global,
    run: &'r Run<'a, P>,
    cast: Cast<'a, P>,
) -> Result<Vec<[u64; 6]>, AllocError> {
    let Cast {
        first,
        second,
        one,
        other,
    } = cast;
    let one = Player {
        rt,
        run,
        lives: true,
        thread: first,
        place: Some(one),
    };
    let other = Player {
        rt,
        run,
        lives: true,
        thread: second,
        place: Some(other),
    };
    let threads = play_both(rt, alloc, one, other);
    both_lines(alloc, threads.0.lines(), threads.1.lines())
}

fn both_lines(
    alloc: Global,
    some: &[[u64; 6]],
    others: &[[u64; 6]],
) -> Result<Vec<[u64; 6]>, AllocError> {
    let mut all = Vec::new(alloc);
    all.extend_from_slice(some)?;
    all.extend_from_slice(others)?;
    Ok(all)
}

// All lives of a row.
fn live_all<'a, P: Program, R: Wait>(
    rt: &R,
    alloc: Global,
    run: &Run<'a, P>,
    thread: &mut Thread<'a, P>,
    place: &mut Place<'a, P>,
) {
    for life in 0..LIVES {
        live_once(rt, alloc, run, thread, place, life);
    }
}

// A session is opened, and is not closed while its thread has a write to make. The thread makes all and leaves the row, the
// session is closed behind the last, and the next thread enters. Tells whether it was opened, the thread of the marks that
// it gave before the writes, how many writes had their number, where all and where any were shown, and whether the next
// thread entered; what the leaving says; and the marks.
fn live_once<'a, P: Program, R: Wait>(
    rt: &R,
    alloc: Global,
    run: &Run<'a, P>,
    thread: &mut Thread<'a, P>,
    place: &mut Place<'a, P>,
    life: u32,
) {
    let opened = place.open(rt, alloc, &run.live, life);
    let early = place.close_done(rt, &run.live, life, run.turns)[0];
    let tally = thread.write_all(rt, run);
    let [stood, index, on, left] = thread.leave(rt, run);
    let [of, from, to, taken, refused, _] = place.close_done(rt, &run.live, life, run.turns);
    let entered = thread.enter(rt, run);
    thread.tell([
        u64::from(opened),
        early,
        tally.in_turn,
        tally.always,
        tally.ever,
        u64::from(entered),
    ]);
    thread.tell([stood, index, on, left, 0, 0]);
    thread.tell([of, from, to, taken.saturating_add(refused), 0, 0]);
}

// ---- a session that is opened and closed beside its thread's writes

fn openings<'r, 'a, P: Program + Send + Sync, R: Threads + Wait + Sync>(
    rt: &'r R,
    alloc: Global,
    run: &'r Run<'a, P>,
    cast: Cast<'a, P>,
) -> Result<Vec<[u64; 6]>, AllocError> {
    let Cast {
        first,
        second,
        mut one,
        other,
    } = cast;
    let opened = one.open(rt, alloc, &run.live, 0);
    let writer = Player {
        rt,
        run,
        lives: false,
        thread: first,
        place: None,
    };
    let opener = Player {
        rt,
        run,
        lives: false,
        thread: second,
        place: Some(other),
    };
    let threads = play_both(rt, alloc, writer, opener);
    let marks = one.close_done(rt, &run.live, 0, run.turns);
    let said = compared(
        u64::from(opened),
        first_of(threads.0.lines()),
        first_of(threads.1.lines()),
    );
    lines_of(alloc, &[marks, said])
}

fn first_of(lines: &[[u64; 6]]) -> [u64; 6] {
    match lines.first() {
        Some(line) => *line,
        None => [0; 6],
    }
}

// What the writing thread said, beside what was said of the openings.
fn compared(opened: u64, written: [u64; 6], seen: [u64; 6]) -> [u64; 6] {
    let [in_turn, always, _, refused, both, _] = written;
    let [in_order, seen, ..] = seen;
    [
        opened,
        in_turn,
        always & 1 << 3,
        refused,
        in_order,
        both.abs_diff(seen),
    ]
}

// Opens the session and closes it, again and again. Gives how many openings there were of which each begins where the one
// before it has ended or later, and saw all since; and how many writes they saw.
fn open_often<'a, P: Program, R: Wait>(
    rt: &R,
    alloc: Global,
    run: &Run<'a, P>,
    place: &mut Place<'a, P>,
) -> [u64; 6] {
    let (mut last, mut in_order, mut seen) = (0, 0u64, 0u64);
    for _ in 0..OPENINGS {
        place.open(rt, alloc, &run.live, 0);
        let marks = place.close(rt, alloc, &run.live);
        in_order = in_order.saturating_add(u64::from(is_in_order(last, marks)));
        last = marks[2];
        seen = seen.saturating_add(marks[3]);
    }
    [in_order, seen, 0, 0, 0, 0]
}

// The marks of the first thread begin at this write or later, and count each write since as taken.
fn is_in_order(last: u64, marks: [u64; 6]) -> bool {
    let [thread, from, to, taken, refused, _] = marks;
    (thread, refused) == (1, 0) && last <= from && from.checked_add(taken) == Some(to)
}

// ---- a session on both rows

fn beside<'r, 'a, P: Program + Send + Sync, R: Threads + Wait + Sync>(
    rt: &'r R,
    alloc: Global,
    run: &'r Run<'a, P>,
    halves: Halves<'a, P>,
    granted: Granted<'a>,
) -> Result<Vec<[u64; 6]>, AllocError>
    requires { IsGranted P.events granted.grant.now granted.seat }
{
    let Halves { threads, hands } = halves;
    let free = third_slot(alloc, hands)?;
    let stands = Stands::new(threads, 0);
    let mut opened = Opened::new(rt, alloc, &run.live, free, granted, stands)?;
    let (first, second) = threads_of(alloc, opened.lend());
    let turns = run.turns;
    let one = Player {
        rt,
        run,
        lives: false,
        thread: first,
        place: None,
    };
    let other = Player {
        rt,
        run,
        lives: false,
        thread: second,
        place: None,
    };
    let (threads, opened) = thread::join(
        rt,
        move || play_both(rt, alloc, one, other),
        move || opened.take_often(turns),
    );
    close_behind(rt, alloc, run, threads, opened)
}

// The session, which has the threads' halves again, is closed behind them.
fn close_behind<'a, P: Program, R: Wait>(
    rt: &R,
    alloc: Global,
    run: &Run<'a, P>,
    threads: (Thread<'a, P>, Thread<'a, P>),
    opened: Opened<'_, 'a, P, R>,
) -> Result<Vec<[u64; 6]>, AllocError> {
    let mut opened = opened;
    let turns = run.turns;
    opened.take_back(halves_back(alloc, turns, threads)?, turns);
    let (ended, one, other) = opened.close();
    let (_free, said) = end_rows(rt, ended);
    lines_of(alloc, &[whole(&one), whole(&other), said])
}

// The halves of the threads, which have made all their writes.
fn halves_back<'a, P: Program>(
    alloc: Global,
    turns: u32,
    threads: (Thread<'a, P>, Thread<'a, P>),
) -> Result<Vec<Right<P, Agreed<'a>>>, AllocError>
    ensures count { IfOk result (λ halves. vec_len halves ≡ 2) }
    ensures stands { IfOk result (λ halves. AreStands turns halves.items) }
{
    let (first, second) = threads;
    let first = first.into_half(0, turns)?;
    let second = second.into_half(1, turns)?;
    list_of_two(alloc, turns, first, second)
}

fn list_of_two<'a, P: Program>(
    alloc: Global,
    turns: u32,
    first: Right<P, Agreed<'a>>,
    second: Right<P, Agreed<'a>>,
) -> Result<Vec<Right<P, Agreed<'a>>>, AllocError>
    requires first { IsStand turns 0 first }
    requires second { IsStand turns 1 second }
    ensures count { IfOk result (λ halves. vec_len halves ≡ 2) }
    ensures stands { IfOk result (λ halves. AreStands turns halves.items) }
{
    let halves = Vec::from_array(alloc, [first, second])?;
    Ok(halves)
}

// The rows of a session that is closed everywhere end. Gives the slot; and the shares that came back to the seat, how many
// chunks did not, the slot, and how many chunks there were.
fn end_rows<'a, P: Program, R: Wait>(rt: &R, ended: Ended<'a, P>) -> (Free<'a, P>, [u64; 6]) {
    let share = u64::from(ended.seat().share());
    let owed = ended.seat().taken().abs_diff(ended.seat().given());
    let (free, seat) = ended.retire(rt);
    let chunks = seat.taken() - seat.given();
    let slot = u64::from(free.slot());
    (free, [share, owed, slot, chunks, 0, 0])
}

// ---- a second session in a slot

fn retired<'a, P: Program, R: Wait>(
    rt: &R,
    alloc: Global,
    run: &Run<'a, P>,
    halves: Halves<'a, P>,
    first: Granted<'a>,
    second: Granted<'a>,
) -> Result<Vec<[u64; 6]>, AllocError>
    requires first { IsGranted P.events first.grant.now first.seat }
    requires second { IsGranted P.events second.grant.now second.seat }
{
    let Halves { hands, .. } = halves;
    let free = third_slot(alloc, hands)?;
    let (free, one) = end_one(rt, alloc, run, free, first)?;
    if free.slot() != 3 {
        return Err(AllocError);
    }
    let (_free, other) = end_one(rt, alloc, run, free, second)?;
    lines_of(alloc, &[one, other])
}

// A session is opened on both rows, closed and ended.
fn end_one<'a, P: Program, R: Wait>(
    rt: &R,
    alloc: Global,
    run: &Run<'a, P>,
    free: Free<'a, P>,
    granted: Granted<'a>,
) -> Result<(Free<'a, P>, [u64; 6]), AllocError>
    requires slot { free ≡ 3 }
    requires granted { IsGranted P.events granted.grant.now granted.seat }
{
    let none = Stands::none(alloc);
    let opened = Opened::new(rt, alloc, &run.live, free, granted, none)?;
    let (ended, _one, _other) = opened.close();
    Ok(end_rows(rt, ended))
}
