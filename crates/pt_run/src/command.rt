//! The command `run`.
ghost use Rattle.std.specs.Prelude.{◌≡◌, None, IfOk};
ghost use Rattle.pt_run.specs.Command.{RunsTo, AreFew, end_of, text_of};
ghost use Rattle.pt_run.specs.Reverse.{RunsAs};
ghost use Rattle.pt_command.specs.Says.{SaysLine};
ghost use Rattle.pt_run.specs.Words.{Fits};

use crate::reverse::run_reverse;
use crate::summary::{put_connections, put_plan, put_session};
use crate::system::System;
use crate::words::Asked;
use ipc_reverse::Advertise;
use pt_command::{End, say};
use pt_host::run_live;
use pt_io::{Caller, Clock, Dock, Gate, Link, Sink};
use pt_load::Plan;
use pt_roles::{LiveEnd, LiveOptions};
use std::alloc::{AllocError, Global};
use std::sync::Wait;
use std::thread::Threads;
use std::time::Clock as Timer;

/// How a run ended, and what is left of it; nothing where there was no memory for it to begin.
#[derive(Drop)]
pub struct Ran<L> {
    pub end: End,
    pub live: Option<LiveEnd<L>>,
    /// The link to the tool that was called that took only a part of what it is to take first, if there is one.
    pub peer: Option<L>,
}

/// Runs the sample program with its diagnostic server, whose peers come in at `dock`, or are links to the tool that the words
/// name, and writes what it came to, in one write. Nothing is written before the run has ended. It ends as a link fault where
/// the dock failed in this call, or a call of the tool, though its sessions went on to their ends.
pub fn run<
    R: Threads + Wait + Timer + Sync,
    L: Advertise + Drop,
    O: Sink,
    D: Dock<Link = L>,
    K: Caller<Link = L>,
    C: Clock,
    G: Gate,
>(
    system: &System<'_, R, C, G>,
    asked: &Asked<'_>,
    output: &mut O,
    dock: &mut D,
    caller: &mut K,
) -> Ran<L>
    requires { Fits asked.now }
    ensures { RunsAs O.Sink D.Dock K.Caller L.Sink L.read_side L.write_side asked.now system.now.facts.now
        output.old output.new dock.old dock.new caller.old caller.new result.peer result.live result.end }
{
    match &asked.reverse {
        Some(reverse) => run_reverse(system, asked, reverse, output, caller),
        None => run_at(system, asked, output, dock),
    }
}

/// Runs it with the peers that come in at a dock.
pub(crate) fn run_at<
    R: Threads + Wait + Timer + Sync,
    L: Link + Drop,
    O: Sink,
    D: Dock<Link = L>,
    C: Clock,
    G: Gate,
>(system: &System<'_, R, C, G>, asked: &Asked<'_>, output: &mut O, dock: &mut D) -> Ran<L>
    requires { Fits asked.now }
    ensures runs { RunsTo O.Sink D.Dock L.Sink L.read_side L.write_side asked.now system.now.facts.now
        output.old output.new dock.old dock.new result.live result.end }
    ensures nobody { result.peer ≡ None }
{
    let options = LiveOptions {
        wait: asked.wait,
        streamers: asked.streamers,
        lives: asked.lives,
    };
    match run_live(
        system.rt,
        system.alloc,
        &asked.plan,
        &options,
        system.facts,
        dock,
        system.clock,
        system.gate,
    ) {
        Ok(live) => {
            let end = told(system.alloc, &asked.plan, output, &live);
            Ran {
                end,
                live: Some(live),
                peer: None,
            }
        }
        Err(AllocError) => Ran {
            end: End::OutOfMemory,
            live: None,
            peer: None,
        },
    }
}

// Writes what a run came to, and says how it ends.
fn told<L, O: Sink>(alloc: Global, plan: &Plan, output: &mut O, live: &LiveEnd<L>) -> End
    requires few { AreFew live.now }
    ensures { SaysLine O.Sink output.old output.new (text_of plan.now live.now) (end_of live.now.dock_failed) result }
{
    match text_of(alloc, plan, live) {
        Ok(text) => say(output, text.as_slice(), end_of(live.dock_failed)),
        Err(AllocError) => End::OutOfMemory,
    }
}

// How a run ends whose lines are written.
fn end_of(dock_failed: bool) -> End
    ensures { result ≡ end_of dock_failed }
{
    if dock_failed {
        End::LinkFault
    } else {
        End::Done
    }
}

// The lines of a run.
fn text_of<L>(alloc: Global, plan: &Plan, live: &LiveEnd<L>) -> Result<Vec<u8>, AllocError>
    requires few { AreFew live.now }
    ensures { IfOk result (λ text. text.items ≡ text_of plan.now live.now) }
{
    let mut text = Vec::new(alloc);
    put_plan(&mut text, plan)?;
    for session in &live.sessions {
        put_session(
            &mut text,
            session.id,
            session.marks.as_slice(),
            session.fate,
        )?;
    }
    put_connections(&mut text, (live.sessions.len() + live.conns.len()) as u64)?;
    Ok(text)
}
