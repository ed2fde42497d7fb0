//! The command `trace`.
ghost use Rattle.std.specs.Prelude.{◌≡◌, ◌≢◌, ℕ, None};
ghost use Rattle.ep_stream.specs.declared.session.Fate.TheVariants as fates;
ghost use Rattle.pt_cli.specs.Ends.{EndsSo};
ghost use Rattle.pt_asked.specs.Words.{Fits};
ghost use Rattle.pt_cli.specs.Traced.{IsEndOf, TracesTo};

use crate::ends::{Finished, ended_with};
use ep_defs::standard_info;
use ep_stream::Fate;
use pt_asked::Asked;
use pt_command::End;
use pt_io::{Clock, Gate, Sink};
use pt_live::{TraceEnd, run_trace};
use pt_run::System;
use std::alloc::AllocError;
use std::sync::Wait;
use std::thread::Threads;
use std::time;

/// Runs the sample program, its threads beside one another, with one session over it from its first write to its last. The
/// output takes the session's stream as it comes; stamps are what the clock says at each write. It may wait for the threads
/// and for their locks.
pub(crate) fn traced<L, R: Threads + Wait + time::Clock + Sync, O: Sink, C: Clock, G: Gate>(
    system: &System<'_, R, C, G>,
    asked: Asked,
    output: &mut O,
) -> Finished<L>
    requires { Fits asked }
    ensures traced { EndsSo result (TracesTo O.Sink asked output.old output.new result.rows.items result.seat result.marks) }
    ensures nobody { result.peer ≡ None }
    ensures unserved { result.live ≡ None }
{
    let Asked { plan, config } = asked;
    match run_trace(
        system.rt,
        system.alloc,
        &plan,
        config,
        &standard_info(1, 1),
        output,
        system.clock,
        system.gate,
    ) {
        Ok(
            TraceEnd {
                rows,
                marks,
                fate,
                seat,
            },
        ) => {
            let end = end_of(fate);
            Finished {
                status: end.status(),
                code: end.code(),
                at: end.at(),
                peer: None,
                rows,
                seat,
                marks,
                live: None,
            }
        }
        Err(AllocError) => ended_with(system.alloc, End::OutOfMemory, None),
    }
}

// How the command ends where its session ended so.
fn end_of(fate: Fate) -> End
    requires { (conn : ℕ) → fate ≢ fates.Requested conn }
    ensures { IsEndOf fate result }
{
    match fate {
        Fate::ProgramEnd => End::Done,
        Fate::LinkFault => End::WriteFault,
        Fate::TooLong => End::TooLong,
        Fate::OutOfMemory => End::OutOfMemory,
        Fate::Requested { .. } => unreachable!(),
    }
}
