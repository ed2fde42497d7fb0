//! What the program's one call has around it in the tests, all of it in memory, and what it comes to.
use super::peers::{caller_of, dock_of};
use super::texts::words_of;
use pt_cli::{Finished, tracepipe};
use pt_io::{
    Arrival, Caller, Dock, MemCaller, MemDock, MemLink, MemSink, MemSource, OpenGate, StepClock,
};
use pt_peers::{Peer, facts_of};
use std::alloc::{AllocError, Global};
use std::sync::Wait;
use std::thread::Threads;
use std::time::Clock as Timer;

/// With which the program of these tests says who it is.
pub(super) const ADVERT: [u8; 34] =
    *b"ADVR_V1\0\x01\x01\x01\x01\x01\x01\x01\x01\x01\x01\x01\x01\x01\x01\x01\x01\x07\0\0\0\0\0\0\0\0\0";

/// What is asked of the program, and what it has around it.
#[derive(Clone, Copy, Debug)]
pub(super) struct Asked<'a> {
    pub(super) words: &'a str,
    /// What its input gives.
    pub(super) input: &'a [u8],
    /// Who comes in at its dock, and whom it finds where it calls.
    pub(super) peers: &'a [Peer],
    pub(super) called: &'a [Peer],
    /// The number of the dock's turn that fails, or 0.
    pub(super) failing_turn: u64,
    /// The number of the output's write that fails, which takes seven bytes, or 0.
    pub(super) failing_write: u64,
}

/// These words, with nobody around and no input, where nothing fails.
pub(super) fn words(words: &str) -> Asked<'_> {
    Asked {
        words,
        input: &[],
        peers: &[],
        called: &[],
        failing_turn: 0,
        failing_write: 0,
    }
}

/// What the program came to.
#[derive(Drop)]
pub(super) struct Told {
    pub(super) status: u8,
    pub(super) written: Vec<u8>,
    /// How many bytes the link of each session of a run took, by id, and the first of them.
    pub(super) taken: Vec<usize>,
    pub(super) begins: Vec<[u8; 34]>,
    /// Whether somebody is left who could have come in, and whom it could have called.
    pub(super) left: (bool, bool),
}

// The objects around the program.
#[derive(Drop)]
struct Outside {
    input: MemSource,
    output: MemSink,
    dock: MemDock,
    caller: MemCaller,
}

/// Does what is asked.
pub(super) fn run<R: Threads + Wait + Timer + Sync>(
    rt: &R,
    alloc: Global,
    asked: &Asked<'_>,
) -> Result<Told, AllocError> {
    let words = words_of(alloc, asked.words)?;
    let mut outside = outside_of(alloc, asked)?;
    let end = carried_out(rt, alloc, &words, &mut outside);
    told_of(alloc, &end, &mut outside)
}

fn outside_of(alloc: Global, asked: &Asked<'_>) -> Result<Outside, AllocError> {
    let input = asked.input.to_vec(alloc)?;
    let writes = [asked.failing_write].to_vec(alloc)?;
    Ok(Outside {
        input: MemSource::new(input, 4_096, Vec::new(alloc)),
        output: MemSink::partial(writes, 7),
        dock: dock_of(alloc, asked.peers, asked.failing_turn)?,
        caller: caller_of(alloc, asked.called)?,
    })
}

// The call alone.
fn carried_out<R: Threads + Wait + Timer + Sync>(
    rt: &R,
    alloc: Global,
    words: &[String],
    outside: &mut Outside,
) -> Finished<MemLink> {
    let facts = facts_of(alloc);
    let clock = StepClock::new(100);
    let Outside {
        input,
        output,
        dock,
        caller,
    } = outside;
    tracepipe(
        rt, alloc, words, &facts, input, output, dock, caller, &clock, &OpenGate,
    )
}

fn told_of(
    alloc: Global,
    end: &Finished<MemLink>,
    outside: &mut Outside,
) -> Result<Told, AllocError> {
    let taken = taken_of(alloc, end)?;
    let begins = begins_of(alloc, end)?;
    Ok(Told {
        status: end.status,
        written: outside.output.taken().to_vec(alloc)?,
        taken,
        begins,
        left: (comes(&mut outside.dock), is_there(&mut outside.caller)),
    })
}

fn taken_of(alloc: Global, end: &Finished<MemLink>) -> Result<Vec<usize>, AllocError> {
    let mut taken = Vec::new(alloc);
    if let Some(live) = &end.live {
        for session in &live.sessions {
            taken.push(session.link.taken().len())?;
        }
    }
    Ok(taken)
}

fn begins_of(alloc: Global, end: &Finished<MemLink>) -> Result<Vec<[u8; 34]>, AllocError> {
    let mut begins = Vec::new(alloc);
    if let Some(live) = &end.live {
        for session in &live.sessions {
            begins.push(begin_of(session.link.taken()))?;
        }
    }
    Ok(begins)
}

// The first bytes, where there are as many.
fn begin_of(bytes: &[u8]) -> [u8; 34] {
    let mut begin = [0; 34];
    if let Some(first) = bytes.get(..34) {
        begin.copy_from_slice(first);
    }
    begin
}

fn comes(dock: &mut MemDock) -> bool {
    matches!(dock.next(), Ok(Arrival::Link(_)))
}

fn is_there(caller: &mut MemCaller) -> bool {
    caller.call("").is_ok()
}
