//! Runs of the sample program with threads, each with one session over it.
ghost use Rattle.std.specs.Prelude.{◌<◌, ◌≤◌, IfOk, IsTrue};
ghost use Rattle.ep_defs.specs.declared.limits.TheConstants.{THREADS as MOST_THREADS, WRITES as MOST_WRITES};
ghost use Rattle.ep_defs.specs.Session.{is_valid_config};

use super::MEMORY;
use super::watch::{Hold, Place, Watch};
use ep_defs::limits::{THREADS, WRITES};
use ep_defs::{Config, Item, ItemKind, Items, Marks, Rule, standard_info};
use ep_pool::PoolSeat;
use ep_stream::Fate;
use nt_read::TraceReader;
use pt_io::{MemSink, StepClock};
use pt_live::{TraceEnd, run_trace};
use pt_load::{JOBS, Plan, STORE, WEB, units};
use std::alloc::{AllocError, Global};
use std::process::Abort;
use std::sync::Wait;
use std::test::Fail;
use std::thread::Threads;
use std::time::Clock as Timer;

/// What the clock of each run says.
const CLOCK: u64 = 100;

/// One more than the threads of any run here, so that one too many would show.
const LINES: usize = 4;

/// What a session wants.
#[derive(Clone, Copy)]
enum Wants {
    /// One event of the store: `Sample-Store:1:4`.
    One,
    All,
}

/// A run that is asked for.
#[derive(Clone, Copy)]
struct Asked {
    threads: u32,
    writes: u32,
    wants: Wants,
    chunks: u32,
    hold: Hold,
    /// No more events than these are refused.
    refused: u64,
    /// A point of the stream says that the first thread had so many events.
    point: u32,
}

/// By row, its thread and how many writes it has made; by thread of which the session tells, its number, its first write
/// and the one behind its last, and how many events were taken or refused; and zeros behind the last.
type Lines = [[u64; 6]; LINES];

/// Why a run's session ended, its lines, and: the shares of its pool's seat and how many chunks are out, how many writes the
/// gate saw, and whether no thread waited in vain and no more events were refused than may be.
type Told = (Fate, Lines, [u64; 3], bool);

/// What a run's stream has: its first bytes, how many events there are and were refused, how many the first thread had at
/// the last point that names it, and whether the point that is asked for is there.
type Read = ([u8; 8], u64, Option<u32>, bool);

/// No thread is held.
const FREE: Hold = Hold {
    place: Place::Nowhere,
    sweeps: 0,
    taken: 0,
    arrivals: 0,
};

/// A sweep that has begun when the thread is held may have passed its row. The second sweep lies in the write as a whole.
const SWEPT_IN_A_WRITE: Hold = Hold {
    place: Place::In(50),
    sweeps: 2,
    ..FREE
};

/// Both threads are in their sixth writes at once.
const BOTH_IN_WRITES: Hold = Hold {
    place: Place::In(5),
    arrivals: 2,
    ..FREE
};

/// The thread rests until all of its first 51 events are taken. A sweep that took events has written its point by then, so
/// the point behind the 51st event stands before the thread goes on, and the stream's last one comes later.
const TAKEN_BEHIND_A_WRITE: Hold = Hold {
    place: Place::Behind(50),
    taken: 51,
    ..FREE
};

/// A sweep that has begun when the thread is held may have passed its row. The second one takes the write and gives its
/// chunk back, so four chunks are enough for any number of writes.
const SWEPT_BEHIND_EACH_WRITE: Hold = Hold {
    place: Place::BehindEach,
    sweeps: 2,
    ..FREE
};

/// A run of one thread that makes a hundred writes, of which the session gets all.
const HUNDRED: Asked = Asked {
    threads: 1,
    writes: 100,
    wants: Wants::All,
    chunks: 16,
    hold: FREE,
    refused: u64::MAX,
    point: 100,
};

/// What it comes to.
const HUNDRED_TOLD: Told = (
    Fate::ProgramEnd,
    [[1, 100, 1, 0, 100, 100], [0; 6], [0; 6], [0; 6]],
    [2, 0, 100],
    true,
);

/// Runs, what each is to tell, and what its stream is to have.
const RUNS: [(Asked, Told, Read); 6] = [
    // The session gets one event of each thread.
    (
        Asked {
            threads: 2,
            writes: 8,
            wants: Wants::One,
            chunks: 16,
            hold: FREE,
            refused: 0,
            point: 1,
        },
        (
            Fate::ProgramEnd,
            [[1, 8, 1, 0, 8, 1], [2, 8, 2, 0, 8, 1], [0; 6], [0; 6]],
            [3, 0, 16],
            true,
        ),
        (*b"Nettrace", 2, Some(1), true),
    ),
    // Threads that make no write are told of by a point.
    (
        Asked {
            threads: 3,
            writes: 0,
            wants: Wants::All,
            chunks: 1,
            hold: FREE,
            refused: 0,
            point: 0,
        },
        (
            Fate::ProgramEnd,
            [
                [1, 0, 1, 0, 0, 0],
                [2, 0, 2, 0, 0, 0],
                [3, 0, 3, 0, 0, 0],
                [0; 6],
            ],
            [4, 0, 0],
            true,
        ),
        (*b"Nettrace", 0, Some(0), true),
    ),
    (
        Asked {
            hold: SWEPT_IN_A_WRITE,
            ..HUNDRED
        },
        HUNDRED_TOLD,
        (*b"Nettrace", 100, Some(100), true),
    ),
    (
        Asked {
            hold: TAKEN_BEHIND_A_WRITE,
            point: 51,
            ..HUNDRED
        },
        HUNDRED_TOLD,
        (*b"Nettrace", 100, Some(100), true),
    ),
    (
        Asked {
            hold: SWEPT_BEHIND_EACH_WRITE,
            chunks: 4,
            refused: 0,
            ..HUNDRED
        },
        HUNDRED_TOLD,
        (*b"Nettrace", 100, Some(100), true),
    ),
    (
        Asked {
            threads: 2,
            writes: 10,
            hold: BOTH_IN_WRITES,
            point: 10,
            ..HUNDRED
        },
        (
            Fate::ProgramEnd,
            [[1, 10, 1, 0, 10, 10], [2, 10, 2, 0, 10, 10], [0; 6], [0; 6]],
            [3, 0, 20],
            true,
        ),
        (*b"Nettrace", 20, Some(10), true),
    ),
];

/// A run whose output fails at a write.
const FAILING: Asked = Asked {
    threads: 2,
    writes: 16,
    chunks: 4,
    ..HUNDRED
};

/// What the lines of a run of two threads with sixteen writes are.
const SIXTEEN: Lines = [[1, 16, 1, 0, 16, 16], [2, 16, 2, 0, 16, 16], [0; 6], [0; 6]];

/// What the run comes to where no write of its output fails.
const UNHARMED: Told = (Fate::ProgramEnd, SIXTEEN, [3, 0, 32], true);

/// Where the first write fails, the session was open on no thread.
const UNTOLD: Told = (
    Fate::LinkFault,
    [[1, 16, 0, 0, 0, 0], [2, 16, 0, 0, 0, 0], [0; 6], [0; 6]],
    [0, 0, 32],
    true,
);

/// Where a later one fails, it was open on both to the end.
const FAILED: Told = (Fate::LinkFault, SIXTEEN, [3, 0, 32], true);

// A rule for each of these providers.
fn rules(
    alloc: Global,
    names: &[&str],
    keywords: u64,
    level: u32,
) -> Result<Vec<Rule>, AllocError> {
    let mut rules = Vec::new(alloc);
    for name in names {
        rules.push(Rule {
            name: units(alloc, name)?,
            keywords,
            level,
        })?;
    }
    Ok(rules)
}

// A session's configuration.
fn config(alloc: Global, asked: &Asked) -> Result<Config, AllocError> {
    let rules = match asked.wants {
        Wants::One => rules(alloc, &[STORE], 1, 4)?,
        Wants::All => rules(alloc, &[WEB, STORE, JOBS], u64::MAX, 5)?,
    };
    Ok(Config {
        rules: Items::new(rules),
        chunks: asked.chunks,
        stackwalk: true,
        rundown: false,
    })
}

// The same, which is a valid one.
fn valid_config(rt: &impl Abort, alloc: Global, asked: &Asked) -> Config
    ensures { IsTrue (is_valid_config result) }
{
    let config = config(alloc, asked).expect(rt, MEMORY);
    assert!(rt; config.is_valid());
    config
}

// What the threads do.
fn plan(asked: &Asked) -> Plan
    ensures threads { (0 < result.threads) × (result.threads ≤ MOST_THREADS) }
    ensures writes { result.writes ≤ MOST_WRITES }
{
    Plan {
        seed: 0,
        threads: asked.threads.max(1).min(THREADS),
        writes: asked.writes.min(WRITES),
    }
}

// The run itself.
fn run<R: Threads + Wait + Timer + Abort + Sync>(
    rt: &R,
    alloc: Global,
    asked: &Asked,
    output: &mut MemSink,
    watch: &Watch,
) -> TraceEnd {
    let plan = plan(asked);
    let config = valid_config(rt, alloc, asked);
    let info = standard_info(1, 1);
    let clock = StepClock::new(CLOCK);
    run_trace(rt, alloc, &plan, config, &info, output, &clock, watch).expect(rt, MEMORY)
}

fn lines_of(rows: &[(u64, u32)], marks: &[Marks]) -> Lines {
    let mut lines = [[0; 6]; LINES];
    for (line, row) in lines.iter_mut().zip(rows) {
        line[0] = row.0;
        line[1] = u64::from(row.1);
    }
    for (line, mark) in lines.iter_mut().zip(marks) {
        line[2] = mark.thread;
        line[3] = u64::from(mark.from);
        line[4] = u64::from(mark.to);
        line[5] = u64::from(mark.taken).wrapping_add(u64::from(mark.refused));
    }
    lines
}

fn refused_of(marks: &[Marks]) -> u64 {
    let mut refused = 0u64;
    for mark in marks {
        refused = refused.wrapping_add(u64::from(mark.refused));
    }
    refused
}

// The shares of a seat and how many chunks are out, and zeros where there is none.
fn shares_of(seat: &Option<PoolSeat>) -> [u64; 2] {
    match seat {
        Some(seat) => [
            u64::from(seat.share()),
            seat.taken().wrapping_sub(seat.given()),
        ],
        None => [0; 2],
    }
}

// What a run to this output tells, and how many events were refused.
fn told<R: Threads + Wait + Timer + Abort + Sync>(
    rt: &R,
    alloc: Global,
    asked: &Asked,
    output: &mut MemSink,
) -> (Told, u64) {
    let watch = Watch::new(asked.hold);
    let end = run(rt, alloc, asked, output, &watch);
    let marks = end.marks.as_slice();
    let refused = refused_of(marks);
    let [share, out] = shares_of(&end.seat);
    let told = (
        end.fate,
        lines_of(end.rows.as_slice(), marks),
        [share, out, watch.writes()],
        watch.has_met() & (refused <= asked.refused),
    );
    (told, refused)
}

// What a whole stream holds.
fn items_of(alloc: Global, stream: &[u8]) -> Result<Vec<Item>, Fail> {
    let mut reader = TraceReader::new(alloc);
    let mut items = Vec::new(alloc);
    reader.feed(stream, &mut items)?;
    reader.finish()?;
    Ok(items)
}

// How many events have the clock's stamp.
fn events_in(items: &[Item]) -> u64 {
    let is_at = |kind: &ItemKind| matches!(kind, ItemKind::Event { stamp, .. } if *stamp == CLOCK);
    items.iter().filter(|item| is_at(&item.kind)).count() as u64
}

// How many events the first thread had at the last point that names it, and whether it had so many at one of them.
fn points_in(items: &[Item], asked: u32) -> (Option<u32>, bool) {
    let mut last = None;
    let mut is_there = false;
    for item in items {
        if let ItemKind::Point { threads, .. } = &item.kind {
            for (thread, number) in threads.as_slice() {
                if *thread == 1 {
                    last = Some(*number);
                    is_there |= *number == asked;
                }
            }
        }
    }
    (last, is_there)
}

// What the stream of a run has of which so many events were refused.
fn read_back(alloc: Global, stream: &[u8], refused: u64, point: u32) -> Result<Read, Fail> {
    let items = items_of(alloc, stream)?;
    let mut first = [0; 8];
    for (byte, read) in first.iter_mut().zip(stream) {
        *byte = *read;
    }
    let (last, is_there) = points_in(items.as_slice(), point);
    let events = events_in(items.as_slice()).wrapping_add(refused);
    Ok((first, events, last, is_there))
}

fn told_and_read<R: Threads + Wait + Timer + Abort + Sync>(
    rt: &R,
    alloc: Global,
    asked: &Asked,
) -> Result<(Told, Read), Fail> {
    let mut output = MemSink::new(Vec::new(alloc));
    let (told, refused) = told(rt, alloc, asked, &mut output);
    let read = read_back(alloc, output.taken(), refused, asked.point)?;
    Ok((told, read))
}

// What the run tells to an output whose write with this number fails. Such a write takes four bytes.
fn told_where_fails<R: Threads + Wait + Timer + Abort + Sync>(
    rt: &R,
    alloc: Global,
    failing: u64,
) -> Result<Told, AllocError> {
    let mut output = MemSink::partial([failing].to_vec(alloc)?, 4);
    Ok(told(rt, alloc, &FAILING, &mut output).0)
}

#[test]
fn a_run_tells_all_that_its_threads_write(rt: HostRuntime) -> Result<(), Fail> {
    for (asked, wanted, stream) in &RUNS {
        let had = told_and_read(&rt, rt.alloc(), asked)?;
        assert_eq!(rt; had, (*wanted, *stream));
    }
    Ok(())
}

#[test]
fn each_failing_write_ends_the_session_and_no_thread(rt: HostRuntime) -> Result<(), Fail> {
    for failing in 1..1_000 {
        let told = told_where_fails(&rt, rt.alloc(), failing)?;
        if told == UNHARMED {
            assert!(rt; failing > 4);
            return Ok(());
        }
        assert_eq!(rt; told, if failing == 1 { UNTOLD } else { FAILED });
    }
    Err("each write fails")?
}
