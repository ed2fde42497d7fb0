//! The command `report`.
ghost use Rattle.std.specs.Prelude.{◌≡◌, ℕ, List};
ghost use Rattle.pt_command.specs.Answers.{IsAnswer};
ghost use Rattle.pt_command.specs.Says.{SaysOne};
ghost use Rattle.pt_report.specs.Command.{IsError, Reports};
ghost use Rattle.pt_report.specs.Found.{IsReported};
ghost use Rattle.pt_report.specs.state.Read.{HasRead};

use crate::errors::refusal_text;
use crate::reading::{Outcome, Reading};
use pt_command::{End, read_all, say, say_line};
use pt_io::{Sink, Source};
use std::alloc::{AllocError, Global};

/// Reads a stream from `input` to its end, and writes the report of its items to `output`, or one error line, in one
/// write. Nothing is written before the input was read.
///
/// An item that can't stand where it does goes before bytes that are refused, and before an end that comes too early.
pub fn write_report<I: Source, O: Sink>(alloc: Global, input: &mut I, output: &mut O) -> End
    ensures { Reports I.Source O.Sink input.old input.new output.old output.new result }
{
    let mut reading = Reading::new(alloc);
    match read_all(input, &mut reading) {
        Ok(()) => answer(alloc, &reading, output),
        Err(end) => end,
    }
}

// Writes what the bytes that were read come to.
fn answer<O: Sink>(alloc: Global, reading: &Reading, output: &mut O) -> End
    ensures { (bytes : List ℕ) → HasRead bytes reading.now
        → SaysOne O.Sink output.old output.new (IsAnswer IsReported IsError bytes) result }
{
    match reading.outcome() {
        Ok(Outcome::Report(text)) => say(output, text.as_slice(), End::Done),
        Ok(Outcome::Refused(refusal)) => {
            let end = End::Refused { at: refusal.at };
            say_line(output, refusal_text(alloc, &refusal), end)
        }
        Err(AllocError) => End::OutOfMemory,
    }
}
