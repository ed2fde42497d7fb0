//! What the runs of the tests are asked by, and what they come to.
ghost use Rattle.std.specs.Prelude.{IsTrue};
ghost use Rattle.ep_defs.specs.Session.{is_valid_facts};

use super::gates::{Hold, Holds};
use super::text::put_end;
use super::watched::{WatchedDock, WatchedLink};
use ep_defs::limits::{SESSIONS, THREADS, WRITES};
use ep_defs::{Facts, Marks};
use pt_host::run_live;
use pt_io::{MemDock, StepClock};
use pt_load::Plan;
use pt_peers::{Peer, facts_of, links_of};
use pt_roles::{LIVES, LiveEnd, LiveOptions, LiveSession};
use std::alloc::{AllocError, Global};
use std::process::Abort;
use std::sync::Wait;
use std::thread::Threads;
use std::time::Clock as Timer;

/// What is asked of a run. It is brought into its bounds.
#[derive(Clone, Copy)]
pub(super) struct Asked {
    pub(super) threads: u32,
    pub(super) writes: u32,
    pub(super) wait: u32,
    pub(super) streamers: u32,
    pub(super) lives: u32,
    /// The number of the dock's turn that fails, or 0.
    pub(super) failing_turn: u64,
}

/// A run with so many threads, writes and sessions that the writers wait for, and four streaming roles.
pub(super) fn runs(threads: u32, writes: u32, wait: u32) -> Asked {
    Asked {
        threads,
        writes,
        wait,
        streamers: 4,
        lives: 1,
        failing_turn: 0,
    }
}

/// The same where each row serves so many threads, one after another.
pub(super) fn lives(threads: u32, writes: u32, wait: u32, lives: u32) -> Asked {
    Asked {
        lives,
        ..runs(threads, writes, wait)
    }
}

/// A run, to whose dock these peers come, and whose threads wait where they are held; and what it comes to, as a text in
/// which a star stands for whatever is there.
pub(super) type Case<'a> = (Asked, &'a [Peer], &'a [Hold], &'a str);

/// What a run came to.
#[derive(Drop)]
pub(super) struct Told {
    pub(super) text: String,
    /// What the link of the first session took.
    pub(super) taken: Vec<u8>,
    /// How many writes of all threads the last session took, and how many were refused.
    pub(super) total: (u64, u64),
    /// Whether each session was open on each thread from its first write on, for as many as it makes at most.
    pub(super) is_within: bool,
}

impl Told {
    /// Whether its text is this one. A star stands for whatever is there.
    pub(super) fn says(&self, wanted: &str) -> bool {
        let text = self.text.as_str();
        match wanted.split_once('*') {
            Some((first, last)) => text.starts_with(first) && text.ends_with(last),
            None => text == wanted,
        }
    }
}

/// Each of these runs comes to what it is to come to.
pub(super) fn come<R: Threads + Wait + Timer + Sync + Abort>(
    rt: &R,
    alloc: Global,
    cases: &[Case<'_>],
) -> Result<(), AllocError> {
    for (asked, peers, holds, wanted) in cases {
        let told = run(rt, alloc, *asked, peers, holds)?;
        assert!(rt; told.says(wanted), "{}", told.text);
    }
    Ok(())
}

/// The sample program, to whose dock these peers come, and whose threads wait where they are held.
pub(super) fn run<R: Threads + Wait + Timer + Sync>(
    rt: &R,
    alloc: Global,
    asked: Asked,
    peers: &[Peer],
    holds: &[Hold],
) -> Result<Told, AllocError> {
    let gate = Holds::new(alloc, holds)?;
    run_before(rt, alloc, asked, peers, &gate)
}

// The same with this gate.
fn run_before<R: Threads + Wait + Timer + Sync>(
    rt: &R,
    alloc: Global,
    asked: Asked,
    peers: &[Peer],
    gate: &Holds,
) -> Result<Told, AllocError> {
    let mut dock = dock_of(alloc, asked, peers, gate)?;
    let facts = facts_of(alloc);
    let end = carried_out(rt, alloc, asked, &facts, &mut dock, gate)?;
    told_of(alloc, asked, &end, !gate.have_met())
}

fn dock_of<'g>(
    alloc: Global,
    asked: Asked,
    peers: &[Peer],
    gate: &'g Holds,
) -> Result<WatchedDock<'g>, AllocError> {
    let links = links_of(alloc, peers)?;
    let fails = [asked.failing_turn].to_vec(alloc)?;
    Ok(WatchedDock::new(MemDock::new(links, 0, fails), gate))
}

// The call alone.
fn carried_out<'g, R: Threads + Wait + Timer + Sync>(
    rt: &R,
    alloc: Global,
    asked: Asked,
    facts: &Facts,
    dock: &mut WatchedDock<'g>,
    gate: &Holds,
) -> Result<LiveEnd<WatchedLink<'g>>, AllocError>
    requires { IsTrue (is_valid_facts facts.now) }
{
    let plan = Plan {
        seed: 0,
        threads: asked.threads.max(1).min(THREADS),
        writes: asked.writes.min(WRITES),
    };
    let most = SESSIONS as u32;
    let options = LiveOptions {
        wait: asked.wait.max(1).min(most),
        streamers: asked.streamers.max(1).min(most),
        lives: asked.lives.max(1).min(LIVES),
    };
    let clock = StepClock::new(100);
    run_live(rt, alloc, &plan, &options, facts, dock, &clock, gate)
}

fn told_of(
    alloc: Global,
    asked: Asked,
    end: &LiveEnd<WatchedLink<'_>>,
    in_vain: bool,
) -> Result<Told, AllocError> {
    let mut text = String::new(alloc);
    put_end(&mut text, end, in_vain)?;
    Ok(Told {
        text,
        taken: first_taken(&end.sessions).to_vec(alloc)?,
        total: last_total(&end.sessions),
        is_within: are_within(&end.sessions, asked.writes),
    })
}

fn first_taken<'s>(sessions: &'s [LiveSession<WatchedLink<'_>>]) -> &'s [u8] {
    match sessions.first() {
        Some(session) => session.link.taken(),
        None => &[],
    }
}

fn last_total(sessions: &[LiveSession<WatchedLink<'_>>]) -> (u64, u64) {
    let mut total = (0u64, 0u64);
    if let Some(session) = sessions.last() {
        for mark in session.marks.as_slice() {
            total.0 = total.0.saturating_add(u64::from(mark.taken));
            total.1 = total.1.saturating_add(u64::from(mark.refused));
        }
    }
    total
}

fn are_within(sessions: &[LiveSession<WatchedLink<'_>>], writes: u32) -> bool {
    let mut all = true;
    for session in sessions {
        all = is_within(session.marks.as_slice(), writes) & all;
    }
    all
}

fn is_within(marks: &[Marks], writes: u32) -> bool {
    let mut all = true;
    for mark in marks {
        all = (mark.from == 0) & (mark.to <= writes) & all;
    }
    all
}
