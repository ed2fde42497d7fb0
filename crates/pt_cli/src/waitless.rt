//! The commands that wait for nobody: a schedule is replayed, a stream is reported or listed, or a large schedule is made.
ghost use Rattle.std.specs.Prelude.{◌≡◌, ℕ, false, map, Some, None, IfSome};
ghost use Rattle.std.specs.String.{string_bytes};
ghost use Rattle.pt_command.specs.declared.end.End.TheVariants as ends;
ghost use Rattle.pt_command.specs.Answers.{HasCauses};
ghost use Rattle.pt_command.specs.Says.{SaysLine};
ghost use Rattle.pt_events.specs.Command.{Lists};
ghost use Rattle.pt_gen.specs.Command.{Generates};
ghost use Rattle.pt_gen.specs.declared.words.Asked.{Asked as GenAsked};
ghost use Rattle.pt_lines.specs.declared.form.Form.{Form};
ghost use Rattle.pt_replay.specs.Command.{Replays};
ghost use Rattle.pt_report.specs.Command.{Reports};
ghost use Rattle.pt_cli.specs.declared.words.Command.TheVariants as commands;
ghost use Rattle.pt_cli.specs.Ends.{PlainEndsSo};
ghost use Rattle.pt_cli.specs.Errors.{words_error};
ghost use Rattle.pt_cli.specs.Program.{PlainComesTo};
ghost use Rattle.pt_cli.specs.Words.{meant, is_plain, reads_input, Fits};

use crate::ends::Plain;
use crate::words::{Command, command_of};
use pt_command::{End, say};
use pt_events::write_events;
use pt_gen::generate;
use pt_io::{Sink, Source};
use pt_replay::replay;
use pt_report::write_report;
use std::alloc::{AllocError, Global};

/// Does what the words of the command line ask for, where that waits for nobody: `replay`, `report`, `events`, `convert`,
/// `page` and `gen`, as `tracepipe` does. All other words are refused with status 2 and one error line.
pub fn plain<I: Source, O: Sink>(
    alloc: Global,
    words: &[String],
    input: &mut I,
    output: &mut O,
) -> Plain
    ensures replayed { (session : ℕ) → meant (map string_bytes words.now) ≡ Some (commands.Replay session)
        → PlainEndsSo result.status result.at (Replays I.Source O.Sink session input.old input.new output.old output.new) }
    ensures reported { meant (map string_bytes words.now) ≡ Some commands.Report
        → PlainEndsSo result.status result.at (Reports I.Source O.Sink input.old input.new output.old output.new) }
    ensures listed { (form : Form) → meant (map string_bytes words.now) ≡ Some (commands.Events form)
        → PlainEndsSo result.status result.at (Lists I.Source O.Sink form input.old input.new output.old output.new) }
    ensures generated { (asked : GenAsked) → meant (map string_bytes words.now) ≡ Some (commands.Gen asked)
        → PlainEndsSo result.status result.at (Generates O.Sink asked output.old output.new) }
    ensures words { is_plain (meant (map string_bytes words.now)) ≡ false
        → PlainEndsSo result.status result.at (SaysLine O.Sink output.old output.new words_error ends.Words) }
    ensures faults { PlainEndsSo result.status result.at (HasCauses I.Source O.Sink input.old input.new output.old output.new) }
    ensures unread { reads_input (meant (map string_bytes words.now)) ≡ false → input.new ≡ input.old }
{
    let end = answer(alloc, words, input, output);
    Plain {
        status: end.status(),
        at: end.at(),
    }
}

// How such words end.
fn answer<I: Source, O: Sink>(alloc: Global, words: &[String], input: &mut I, output: &mut O) -> End
    ensures comes { PlainComesTo I.Source O.Sink (meant (map string_bytes words.now)) input.old input.new output.old output.new result }
    ensures unread { reads_input (meant (map string_bytes words.now)) ≡ false → input.new ≡ input.old }
{
    match command_of(alloc, words) {
        Ok(command) => without_waiting(alloc, &command, input, output),
        Err(AllocError) => End::OutOfMemory,
    }
}

/// Carries out a command that waits for nobody. All others are refused, as words that ask for nothing.
pub(crate) fn without_waiting<I: Source, O: Sink>(
    alloc: Global,
    command: &Option<Command<'_>>,
    input: &mut I,
    output: &mut O,
) -> End
    requires { IfSome command.now Fits }
    ensures comes { PlainComesTo I.Source O.Sink command.now input.old input.new output.old output.new result }
    ensures unread { reads_input command.now ≡ false → input.new ≡ input.old }
{
    match command {
        Some(Command::Replay { session }) => replay(alloc, *session, input, output),
        Some(Command::Report) => write_report(alloc, input, output),
        Some(Command::Events(form)) => write_events(alloc, *form, input, output),
        Some(Command::Gen(asked)) => generate(alloc, *asked, output),
        Some(
            Command::Trace(_)
            | Command::Watch(_)
            | Command::Run(_)
            | Command::Client(_)
            | Command::Greet(_),
        )
        | None => say(output, b"error: words\n", End::Words),
    }
}
