//! The command `watch`.
ghost use Rattle.std.specs.Prelude.{◌≡◌, None};
ghost use Rattle.pt_asked.specs.Words.{Fits};
ghost use Rattle.pt_cli.specs.Ends.{EndsSo};
ghost use Rattle.pt_watch.specs.Command.{Watches};

use crate::ends::Finished;
use pt_asked::Asked;
use pt_io::{Clock, Gate, Sink};
use pt_run::System;
use pt_watch::{Watched, watch};
use std::sync::Wait;
use std::thread::Threads;
use std::time;

/// Runs the sample program, its threads beside one another, and counts what one session over it gets, as `pt_watch::watch`
/// does.
pub(crate) fn watched<L, R: Threads + Wait + time::Clock + Sync, O: Sink, C: Clock, G: Gate>(
    system: &System<'_, R, C, G>,
    asked: Asked,
    output: &mut O,
) -> Finished<L>
    requires { Fits asked }
    ensures watched { EndsSo result (Watches O.Sink asked output.old output.new result.rows.items result.seat result.marks) }
    ensures nobody { result.peer ≡ None }
    ensures unserved { result.live ≡ None }
{
    let Watched {
        end,
        rows,
        marks,
        seat,
    } = watch(
        system.rt,
        system.alloc,
        asked,
        output,
        system.clock,
        system.gate,
    );
    Finished {
        status: end.status(),
        code: end.code(),
        at: end.at(),
        peer: None,
        rows,
        seat,
        marks,
        live: None,
    }
}
