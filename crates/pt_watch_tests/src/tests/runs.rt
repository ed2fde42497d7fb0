//! Runs with threads, and a callback that keeps what it hears.
ghost use Rattle.std.specs.Prelude.{◌<◌, ◌≤◌, IsTrue};
ghost use Rattle.ep_defs.specs.declared.limits.TheConstants.{THREADS as MOST_THREADS, WRITES as MOST_WRITES};
ghost use Rattle.ep_defs.specs.Session.{is_valid_config};

use super::MEMORY;
use ep_defs::limits::{THREADS, WRITES};
use ep_defs::{Config, Items, Marks, Rule};
use ep_listen::{Callback, Heard, ListenEnd};
use pt_io::{Gate, Moment, StepClock};
use pt_listen::{WatchEnd, run_watch};
use pt_load::{JOBS, Plan, STORE, WEB, units};
use std::alloc::{AllocError, Global};
use std::process::Abort;
use std::sync::Wait;
use std::sync::atomic::{AtomicBool, AtomicU64, Ordering};
use std::test::Fail;
use std::thread;
use std::thread::Threads;
use std::time::Clock as Timer;

/// One more than the threads of any run here, so that one too many would show.
const LINES: usize = 5;

/// How often a gate looks before it gives up.
const LOOKS: u32 = 10_000_000;

/// What a session wants.
#[derive(Clone, Copy)]
enum Wants {
    /// One event of the store: `Sample-Store:1:4`.
    One,
    All,
}

/// A run that is asked for.
#[derive(Clone, Copy)]
struct Asked {
    threads: u32,
    writes: u32,
    wants: Wants,
    chunks: u32,
    /// After so many events the callback is out of memory.
    most: usize,
    /// Whether the first thread is held behind a write until something was taken.
    is_held: bool,
}

/// By row, its thread and how many writes it has made; by thread, its number, its first write and the one behind its last,
/// and how many events were taken or refused; and zeros behind the last.
type Lines = [[u64; 6]; LINES];

/// An event that was kept: its thread, its number, and the number of its definition.
type Kept = (u64, u32, u32);

/// A run's lines, how many events were kept, whether the listener has failed, the shares of the pool's seat and how many
/// chunks are out, and whether the numbers of each thread rise and no thread waited in vain.
type Told = (Lines, u64, bool, [u64; 2], bool);

/// Runs and what each comes to.
const RUNS: [(Asked, Told); 2] = [
    // Of threads that make no write nothing is heard.
    (
        Asked {
            threads: 3,
            writes: 0,
            wants: Wants::All,
            chunks: 1,
            most: 100,
            is_held: false,
        },
        (
            [
                [1, 0, 1, 0, 0, 0],
                [2, 0, 2, 0, 0, 0],
                [3, 0, 3, 0, 0, 0],
                [0; 6],
                [0; 6],
            ],
            0,
            false,
            [4, 0],
            true,
        ),
    ),
    // Events are heard while the threads write.
    (
        Asked {
            threads: 1,
            writes: 100,
            wants: Wants::All,
            chunks: 16,
            most: 1_000,
            is_held: true,
        },
        (
            [[1, 100, 1, 0, 100, 100], [0; 6], [0; 6], [0; 6], [0; 6]],
            100,
            false,
            [2, 0],
            true,
        ),
    ),
];

/// Keeps what it hears, until it is out of memory.
#[derive(Drop)]
struct Keeper {
    kept: Vec<Kept>,
    most: usize,
}

impl Callback for Keeper {
    ghost has_heard = { λ _ _. Unit {0} };

    fn heard(&mut self, _alloc: Global, event: &Heard<'_>) -> Result<(), AllocError> {
        if self.kept.len() >= self.most {
            return Err(AllocError);
        }
        self.kept.push((event.thread, event.number, event.event))?;
        Ok(())
    }
}

/// Holds the first thread behind a write until something was taken, if it is to.
#[derive(Drop)]
struct HeardMeanwhile {
    is_held: bool,
    taken: AtomicU64,
    gave_up: AtomicBool,
}

impl HeardMeanwhile {
    fn new(is_held: bool) -> HeardMeanwhile {
        HeardMeanwhile {
            is_held,
            taken: AtomicU64::new(0),
            gave_up: AtomicBool::new(false),
        }
    }

    fn wait(&self) {
        for _ in 0..LOOKS {
            if self.taken.load(Ordering::SeqCst) > 0 {
                return;
            }
            thread::yield_now();
        }
        self.gave_up.store(true, Ordering::SeqCst);
    }
}

impl Gate for HeardMeanwhile {
    fn pass(&self, at: Moment) {
        match at {
            Moment::Swept { taken, .. } => {
                self.taken.fetch_add(taken, Ordering::SeqCst);
            }
            Moment::Wrote {
                thread: 1,
                index: 50,
            } if self.is_held => self.wait(),
            _ => {}
        }
    }
}

// A rule for each of these providers.
fn rules(
    alloc: Global,
    names: &[&str],
    keywords: u64,
    level: u32,
) -> Result<Vec<Rule>, AllocError> {
    let mut rules = Vec::new(alloc);
    for name in names {
        rules.push(Rule {
            name: units(alloc, name)?,
            keywords,
            level,
        })?;
    }
    Ok(rules)
}

// A session's configuration.
fn config(alloc: Global, asked: &Asked) -> Result<Config, AllocError> {
    let rules = match asked.wants {
        Wants::One => rules(alloc, &[STORE], 1, 4)?,
        Wants::All => rules(alloc, &[WEB, STORE, JOBS], u64::MAX, 5)?,
    };
    Ok(Config {
        rules: Items::new(rules),
        chunks: asked.chunks,
        stackwalk: true,
        rundown: false,
    })
}

// The same, which is a valid one.
fn valid_config(rt: &impl Abort, alloc: Global, asked: &Asked) -> Config
    ensures { IsTrue (is_valid_config result) }
{
    let config = config(alloc, asked).expect(rt, MEMORY);
    assert!(rt; config.is_valid());
    config
}

// What the threads do.
fn plan(asked: &Asked) -> Plan
    ensures threads { (0 < result.threads) × (result.threads ≤ MOST_THREADS) }
    ensures writes { result.writes ≤ MOST_WRITES }
{
    Plan {
        seed: 0,
        threads: asked.threads.max(1).min(THREADS),
        writes: asked.writes.min(WRITES),
    }
}

// The run itself.
fn run<R: Threads + Wait + Timer + Abort + Sync>(
    rt: &R,
    alloc: Global,
    asked: &Asked,
    gate: &HeardMeanwhile,
) -> WatchEnd<Keeper> {
    let plan = plan(asked);
    let config = valid_config(rt, alloc, asked);
    let keeper = Keeper {
        kept: Vec::new(alloc),
        most: asked.most,
    };
    let clock = StepClock::new(100);
    run_watch(rt, alloc, &plan, config, keeper, &clock, gate).expect(rt, MEMORY)
}

fn lines_of(rows: &[(u64, u32)], marks: &[Marks]) -> Lines {
    let mut lines = [[0; 6]; LINES];
    for (line, row) in lines.iter_mut().zip(rows) {
        line[0] = row.0;
        line[1] = u64::from(row.1);
    }
    for (line, mark) in lines.iter_mut().zip(marks) {
        line[2] = mark.thread;
        line[3] = u64::from(mark.from);
        line[4] = u64::from(mark.to);
        line[5] = u64::from(mark.taken).wrapping_add(u64::from(mark.refused));
    }
    lines
}

fn refused_of(marks: &[Marks]) -> u64 {
    let mut refused = 0u64;
    for mark in marks {
        refused = refused.wrapping_add(u64::from(mark.refused));
    }
    refused
}

// Whether the numbers of each thread rise.
fn are_rising(kept: &[Kept]) -> bool {
    let mut last = [0; LINES];
    let mut rise = true;
    for event in kept {
        let thread = (event.0 as usize).min(LINES - 1);
        rise &= event.1 > last[thread];
        last[thread] = event.1;
    }
    rise
}

// What a run comes to, how many events were refused, and those that were kept.
fn told<R: Threads + Wait + Timer + Abort + Sync>(
    rt: &R,
    alloc: Global,
    asked: &Asked,
) -> (Told, u64, Vec<Kept>) {
    let gate = HeardMeanwhile::new(asked.is_held);
    let WatchEnd {
        rows,
        listened,
        seat,
    } = run(rt, alloc, asked, &gate);
    let ListenEnd {
        callback,
        marks,
        failed,
    } = listened;
    let Keeper { kept, most: _ } = callback;
    let marks = marks.as_slice();
    let told = (
        lines_of(rows.as_slice(), marks),
        kept.len() as u64,
        failed,
        [
            u64::from(seat.share()),
            seat.taken().wrapping_sub(seat.given()),
        ],
        are_rising(kept.as_slice()) & !gate.gave_up.load(Ordering::SeqCst),
    );
    (told, refused_of(marks), kept)
}

#[test]
fn what_is_heard_is_what_the_threads_write(rt: HostRuntime) -> Result<(), Fail> {
    for (asked, wanted) in &RUNS {
        let (had, _, _) = told(&rt, rt.alloc(), asked);
        assert_eq!(rt; had, *wanted);
    }
    Ok(())
}

#[test]
fn one_event_of_each_of_two_threads_is_heard(rt: HostRuntime) -> Result<(), Fail> {
    let asked = Asked {
        threads: 2,
        writes: 8,
        wants: Wants::One,
        chunks: 16,
        most: 100,
        is_held: false,
    };
    let lines = [
        [1, 8, 1, 0, 8, 1],
        [2, 8, 2, 0, 8, 1],
        [0; 6],
        [0; 6],
        [0; 6],
    ];
    let (had, _, mut kept) = told(&rt, rt.alloc(), &asked);
    kept.sort()?;
    assert_eq!(rt; had, (lines, 2, false, [3, 0], true));
    assert_eq!(rt; kept.as_slice(), [(1, 1, 6), (2, 1, 6)].as_slice());
    Ok(())
}

#[test]
fn after_want_of_memory_at_any_event_nothing_more_is_heard(rt: HostRuntime) -> Result<(), Fail> {
    let lines = [
        [1, 8, 1, 0, 8, 8],
        [2, 8, 2, 0, 8, 8],
        [0; 6],
        [0; 6],
        [0; 6],
    ];
    for most in 0..=16 {
        let asked = Asked {
            threads: 2,
            writes: 8,
            wants: Wants::All,
            chunks: 4,
            most,
            is_held: false,
        };
        let (had, _, _) = told(&rt, rt.alloc(), &asked);
        assert_eq!(rt; had, (lines, most as u64, most < 16, [3, 0], true));
    }
    Ok(())
}

#[test]
fn what_is_heard_and_what_is_refused_is_all_that_is_written(rt: HostRuntime) -> Result<(), Fail> {
    let asked = Asked {
        threads: 4,
        writes: 2_000,
        wants: Wants::All,
        chunks: 1,
        most: 10_000,
        is_held: false,
    };
    let lines = [
        [1, 2_000, 1, 0, 2_000, 2_000],
        [2, 2_000, 2, 0, 2_000, 2_000],
        [3, 2_000, 3, 0, 2_000, 2_000],
        [4, 2_000, 4, 0, 2_000, 2_000],
        [0; 6],
    ];
    let (mut had, refused, _) = told(&rt, rt.alloc(), &asked);
    had.1 = had.1.wrapping_add(refused);
    assert_eq!(rt; had, (lines, 8_000, false, [5, 0], true));
    Ok(())
}
