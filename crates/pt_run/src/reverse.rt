//! A run whose server calls a tool that listens.
ghost use Rattle.ipc_reverse.specs.Calls.{dock_of, uncalled};
ghost use Rattle.ipc_reverse.specs.Dock.{calls_of};
ghost use Rattle.ipc_reverse.specs.Named.{Makes};
ghost use Rattle.pt_run.specs.Command.{RunsTo};
ghost use Rattle.pt_run.specs.Reverse.{RunsReverse};
ghost use Rattle.pt_run.specs.Words.{Fits};

use crate::command::{Ran, run_at};
use crate::system::System;
use crate::words::{Asked, Reverse};
use ipc_reverse::{Advertise, Calls, NamedDock, ReverseDock, advert};
use pt_command::End;
use pt_io::{Caller, Clock, Gate, Sink};
use std::marker::Brand;
use std::sync::Wait;
use std::thread::Threads;
use std::time::Clock as Timer;

/// Runs it with links to a tool that is called. Each of them took first who the program is.
pub(crate) fn run_reverse<
    R: Threads + Wait + Timer + Sync,
    L: Advertise + Drop,
    O: Sink,
    K: Caller<Link = L>,
    C: Clock,
    G: Gate,
>(
    system: &System<'_, R, C, G>,
    asked: &Asked<'_>,
    reverse: &Reverse<'_>,
    output: &mut O,
    caller: &mut K,
) -> Ran<L>
    requires { Fits asked.now }
    ensures { RunsReverse O.Sink K.Caller L.Sink L.read_side L.write_side asked.now reverse.now system.now.facts.now
        output.old output.new caller.old caller.new result.peer result.live result.end }
{
    let advert = advert(system.facts);
    let dock = ReverseDock::new(caller, reverse.target.path(), advert, reverse.calls);
    let mut ran = Ran {
        end: End::OutOfMemory,
        live: None,
        peer: None,
    };
    let dock = run_named::<Brand, _, _, _, _, _, _>(system, asked, output, dock, &mut ran);
    ran.peer = dock.end();
    ran
}

// The run over a dock whose calls have a name.
fn run_named<
    'a,
    N: Calls + Send,
    R: Threads + Wait + Timer + Sync,
    L: Advertise + Drop,
    O: Sink,
    K: Caller<Link = L>,
    C: Clock,
    G: Gate,
>(
    system: &System<'_, R, C, G>,
    asked: &Asked<'_>,
    output: &mut O,
    dock: ReverseDock<'a, K>,
    ran: &mut Ran<L>,
) -> ReverseDock<'a, K>
    requires asked { Fits asked.now }
    requires makes { Makes K.Caller L.Sink N.calls dock }
    ensures makes { Makes K.Caller L.Sink N.calls result }
    ensures runs { RunsTo O.Sink (dock_of K.Caller L.Sink N.calls.advert N.calls.most) L.Sink L.read_side L.write_side
        asked.now system.now.facts.now output.old output.new (calls_of dock.entry) (calls_of result) ran.new.live ran.new.end }
{
    let mut named: NamedDock<'a, K, N> = NamedDock::new(dock);
    *ran = run_at(system, asked, output, &mut named);
    named.into_dock()
}
