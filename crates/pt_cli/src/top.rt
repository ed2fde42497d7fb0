//! The top call.
ghost use Rattle.std.specs.Prelude.{◌≡◌, ℕ, List, [], false, not, map, Some, None, is_some, IfSome, IsTrue};
ghost use Rattle.std.specs.String.{string_bytes};
ghost use Rattle.pt_command.specs.declared.end.End.TheVariants as ends;
ghost use Rattle.pt_command.specs.Says.{SaysLine};
ghost use Rattle.pt_client.specs.Answers.{Asks, Fits as ClientFits};
ghost use Rattle.pt_client.specs.Greeting.{Greets};
ghost use Rattle.pt_events.specs.Command.{Lists};
ghost use Rattle.pt_gen.specs.Command.{Generates};
ghost use Rattle.pt_replay.specs.Command.{Replays};
ghost use Rattle.pt_report.specs.Command.{Reports};
ghost use Rattle.pt_run.specs.Reverse.{RunsAs};
ghost use Rattle.pt_watch.specs.Command.{Watches};
ghost use Rattle.pt_cli.specs.declared.words.Command.TheVariants as commands;
ghost use Rattle.pt_cli.specs.Ends.{EndsSo};
ghost use Rattle.pt_cli.specs.Errors.{words_error};
ghost use Rattle.pt_cli.specs.Program.{AloneComesTo, ComesTo, EndsFor, HasFaults, LeavesAlone, PlainComesTo, around_of};
ghost use Rattle.pt_cli.specs.Traced.{TracesTo};
ghost use Rattle.pt_cli.specs.Words.{meant, reads_input, runs_threads, Fits};
ghost use Rattle.ep_defs.specs.Session.{is_valid_facts};
ghost use Rattle.pt_run.specs.Words.{Fits as RunFits};

use crate::ends::{Finished, ended_with};
use crate::traced::traced;
use crate::waitless::without_waiting;
use crate::watched::watched;
use crate::words::{Command, command_of};
use ep_defs::{Facts, Items};
use ipc_reverse::Advertise;
use pt_client::{Called, client, greet};
use pt_command::End;
use pt_io::{Caller, Clock, Dock, Gate, Sink, Source};
use pt_run::{Ran, System, run};
use std::alloc::{AllocError, Global};
use std::sync::Wait;
use std::thread::Threads;
use std::time;

/// Does what the words of the command line ask for.
///
/// With `replay`, `replay --session N` or `replay --session=N` it reads a schedule from `input` to its end and writes the
/// stream of session N, by default 1, to `output` in one write. With `report` it reads a stream from `input` to its end and
/// writes the report of what the stream holds. Where the words or the input are refused the output took one error line.
/// Nothing is written before the input was read.
///
/// With `events` it reads a stream from `input` to its end and writes a line for each event, each point and each place where
/// events are missing, as it reads them, and an error line behind them where the stream is refused. With `events --json` each
/// line is an object of JSON, the error line too. With `convert chromium` it writes them as the objects of a file of trace
/// events, with what stands around these, and with `page` as those of a page of HTML.
///
/// With `gen SEED N` it makes a schedule of N writes, which the seed determines, and writes how many of them each session
/// admitted, wrote and refused, in one write. It reads no input then.
///
/// With `collect TARGET MB RULE..`, `stop TARGET ID` or `ps TARGET` it calls the program whose socket is at the path TARGET
/// and asks it for a session of MB megabytes, for the end of the session ID, or what it is. It writes the session's stream
/// as it comes, or one line.
///
/// With `greet TARGET` it waits for the first program that comes in at `dock`, reads who it is, asks it what it is and writes
/// the same line as `ps`.
///
/// With `run THREADS WRITES [--seed S] [--wait N] [--streamers K] [--lives L] [--reverse TARGET] [--calls M]` it runs the sample
/// program with its diagnostic server, whose peers come in at `dock` and are told what `facts` say of the program. With
/// `--reverse` it calls the tool that listens at TARGET in their place, for M links at most, each of which takes first who the
/// program is. In the end it writes what its sessions had of each thread, in one write.
///
/// With `trace THREADS WRITES TEXT [--seed S] [--mb MB]` it runs the sample program with its threads and a session that the
/// start-up text TEXT asks for, and writes the session's stream as it comes. Stamps are what `clock` says; the threads pass
/// `gate` at their moments. With `watch` and the same words it hands the session's events to a callback that counts them, and
/// writes in one write how many of each thread were heard and refused, and how often each event was heard. These three may
/// wait for their threads and locks, as `greet` waits for a program; no other command waits.
pub fn tracepipe<
    R: Threads + Wait + time::Clock + Sync,
    L: Advertise + Drop,
    I: Source,
    O: Sink,
    D: Dock<Link = L>,
    K: Caller<Link = L>,
    C: Clock,
    G: Gate,
>(
    rt: &R,
    alloc: Global,
    words: &[String],
    facts: &Facts,
    input: &mut I,
    output: &mut O,
    dock: &mut D,
    caller: &mut K,
    clock: &C,
    gate: &G,
) -> Finished<L>
    requires facts { IsTrue (is_valid_facts facts.now) }
    ensures replayed { EndsFor (map string_bytes words.now) commands.Replay result
        (λ session. Replays I.Source O.Sink session input.old input.new output.old output.new) }
    ensures reported { meant (map string_bytes words.now) ≡ Some commands.Report
        → EndsSo result (Reports I.Source O.Sink input.old input.new output.old output.new) }
    ensures listed { EndsFor (map string_bytes words.now) commands.Events result
        (λ form. Lists I.Source O.Sink form input.old input.new output.old output.new) }
    ensures generated { EndsFor (map string_bytes words.now) commands.Gen result
        (λ asked. Generates O.Sink asked output.old output.new) }
    ensures traced { EndsFor (map string_bytes words.now) commands.Trace result (λ asked. TracesTo
        O.Sink asked output.old output.new result.rows.items result.seat result.marks) }
    ensures watched { EndsFor (map string_bytes words.now) commands.Watch result (λ asked. Watches
        O.Sink asked output.old output.new result.rows.items result.seat result.marks) }
    ensures ran { EndsFor (map string_bytes words.now) commands.Run result
        (λ asked. RunsAs O.Sink D.Dock K.Caller L.Sink L.read_side L.write_side asked facts.now
        output.old output.new dock.old dock.new caller.old caller.new result.peer result.live) }
    ensures asked { EndsFor (map string_bytes words.now) commands.Client result (λ asked. Asks O.Sink
        K.Caller L.Source L.Sink asked output.old output.new caller.old caller.new result.peer) }
    ensures greeted { EndsFor (map string_bytes words.now) commands.Greet result (λ target. Greets
        O.Sink D.Dock L.Source L.Sink output.old output.new dock.old dock.new result.peer) }
    ensures words { meant (map string_bytes words.now) ≡ None
        → EndsSo result (SaysLine O.Sink output.old output.new words_error ends.Words) }
    ensures faults { EndsSo result (HasFaults I.Source O.Sink (meant (map string_bytes words.now))
        input.old input.new output.old output.new) }
    ensures alone { LeavesAlone (meant (map string_bytes words.now)) input.old input.new dock.old dock.new
        caller.old caller.new result.peer result.live result.rows.items result.seat result.marks }
{
    let system = System {
        rt,
        alloc,
        facts,
        clock,
        gate,
    };
    match command_of(alloc, words) {
        Ok(command) => carry_out(&system, command, input, output, dock, caller),
        Err(AllocError) => ended_with(alloc, End::OutOfMemory, None),
    }
}

// Does what the command asks for; without one the words are refused.
fn carry_out<
    R: Threads + Wait + time::Clock + Sync,
    L: Advertise + Drop,
    I: Source,
    O: Sink,
    D: Dock<Link = L>,
    K: Caller<Link = L>,
    C: Clock,
    G: Gate,
>(
    system: &System<'_, R, C, G>,
    command: Option<Command<'_>>,
    input: &mut I,
    output: &mut O,
    dock: &mut D,
    caller: &mut K,
) -> Finished<L>
    requires { IfSome command Fits }
    ensures comes { EndsSo result (ComesTo I.Source O.Sink D.Dock K.Caller L.Source L.Sink
        L.read_side L.write_side system.now.facts.now command.entry
        (around_of input.old input.new output.old output.new dock.old dock.new caller.old caller.new result)) }
    ensures alone { LeavesAlone command.entry input.old input.new dock.old dock.new caller.old caller.new
        result.peer result.live result.rows.items result.seat result.marks }
{
    match command {
        Some(Command::Run(asked)) => ran(system, &asked, output, dock, caller),
        Some(Command::Client(command)) => asked(system.alloc, &command, output, caller),
        Some(Command::Greet(_)) => greeted(system, output, dock),
        command => alone(system, command, input, output),
    }
}

// Does what has no peers.
fn alone<L, R: Threads + Wait + time::Clock + Sync, I: Source, O: Sink, C: Clock, G: Gate>(
    system: &System<'_, R, C, G>,
    command: Option<Command<'_>>,
    input: &mut I,
    output: &mut O,
) -> Finished<L>
    requires { IfSome command Fits }
    ensures comes { EndsSo result (AloneComesTo I.Source O.Sink command.entry input.old input.new output.old output.new
        result.rows.items result.seat result.marks) }
    ensures unread { reads_input command.entry ≡ false → input.new ≡ input.old }
    ensures nobody { result.peer ≡ None }
    ensures unserved { result.live ≡ None }
    ensures untraced { runs_threads command.entry ≡ false
        → (result.rows.items ≡ []) × (result.seat ≡ None) × (result.marks ≡ []) }
{
    match command {
        Some(Command::Trace(asked)) => traced(system, asked, output),
        Some(Command::Watch(asked)) => watched(system, asked, output),
        command => told(system.alloc, &command, input, output),
    }
}

// Runs the sample program with its diagnostic server.
fn ran<
    R: Threads + Wait + time::Clock + Sync,
    L: Advertise + Drop,
    O: Sink,
    D: Dock<Link = L>,
    K: Caller<Link = L>,
    C: Clock,
    G: Gate,
>(
    system: &System<'_, R, C, G>,
    asked: &pt_run::Asked<'_>,
    output: &mut O,
    dock: &mut D,
    caller: &mut K,
) -> Finished<L>
    requires { RunFits asked.now }
    ensures runs { EndsSo result (RunsAs O.Sink D.Dock K.Caller L.Sink L.read_side L.write_side asked.now system.now.facts.now
        output.old output.new dock.old dock.new caller.old caller.new result.peer result.live) }
    ensures unasked { not (is_some asked.now.reverse) ≡ false → dock.new ≡ dock.old }
    ensures uncalled { is_some asked.now.reverse ≡ false → (caller.new ≡ caller.old) × (result.peer ≡ None) }
    ensures untraced { (result.rows.items ≡ []) × (result.seat ≡ None) × (result.marks ≡ []) }
{
    let alloc = system.alloc;
    let Ran { end, live, peer } = run(system, asked, output, dock, caller);
    Finished {
        status: end.status(),
        code: end.code(),
        at: end.at(),
        peer,
        rows: Vec::new(alloc),
        seat: None,
        marks: Items::new(Vec::new(alloc)),
        live,
    }
}

// Asks a peer.
fn asked<K: Caller, O: Sink>(
    alloc: Global,
    command: &pt_client::Command<'_>,
    output: &mut O,
    caller: &mut K,
) -> Finished<K::Link>
    requires { ClientFits command.now }
    ensures asks { EndsSo result (Asks O.Sink K.Caller K.Link.Source K.Link.Sink command.now
        output.old output.new caller.old caller.new result.peer) }
    ensures idle { (result.rows.items ≡ []) × (result.seat ≡ None) × (result.marks ≡ []) × (result.live ≡ None) }
{
    let Called { end, peer } = client(alloc, command, output, caller);
    ended_with(alloc, end, peer)
}

// Waits for a program that calls, and asks it.
fn greeted<R: Wait, O: Sink, D: Dock, C, G>(
    system: &System<'_, R, C, G>,
    output: &mut O,
    dock: &mut D,
) -> Finished<D::Link>
    ensures greets { EndsSo result (Greets O.Sink D.Dock D.Link.Source D.Link.Sink
        output.old output.new dock.old dock.new result.peer) }
    ensures idle { (result.rows.items ≡ []) × (result.seat ≡ None) × (result.marks ≡ []) × (result.live ≡ None) }
{
    let Called { end, peer } = greet(system.rt, system.alloc, output, dock);
    ended_with(system.alloc, end, peer)
}

// Does what waits for nobody.
fn told<L, I: Source, O: Sink>(
    alloc: Global,
    command: &Option<Command<'_>>,
    input: &mut I,
    output: &mut O,
) -> Finished<L>
    requires { IfSome command.now Fits }
    ensures comes { EndsSo result (PlainComesTo I.Source O.Sink command.now input.old input.new output.old output.new) }
    ensures unread { reads_input command.now ≡ false → input.new ≡ input.old }
    ensures nobody { result.peer ≡ None }
    ensures idle { (result.rows.items ≡ []) × (result.seat ≡ None) × (result.marks ≡ []) × (result.live ≡ None) }
{
    let end = without_waiting(alloc, command, input, output);
    ended_with(alloc, end, None)
}
