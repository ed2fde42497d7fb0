//! The command `replay`.
ghost use Rattle.std.specs.Prelude.{◌≡◌, ◌≢◌, ◌⊎◌, ℕ, List, IfOk, IfErr, Err};
ghost use Rattle.pt_io.specs.Faults.{HasRisen};
ghost use Rattle.pt_command.specs.declared.end.End.TheVariants as ends;
ghost use Rattle.pt_command.specs.Answers.{IsAnswer};
ghost use Rattle.pt_command.specs.Input.{ReadWhole};
ghost use Rattle.pt_command.specs.Says.{SaysOne};
ghost use Rattle.pt_replay.specs.Command.{IsErrorAt, Replays};
ghost use Rattle.pt_replay.specs.Reading.{IsJudged};
ghost use Rattle.pt_replay.specs.Replay.{IsReplayed};

use crate::errors::{refusal_text, unfinished_text};
use crate::laws::a_text_has_one_outcome;
use crate::text::{Outcome, Reader};
use pt_command::{End, read_all, say, say_line};
use pt_io::{Sink, Source};
use std::alloc::Global;

/// Reads a schedule from `input` to its end, and writes the stream of the session to `output`, or one error line, in one
/// write. Nothing is written before the input was read.
pub fn replay<I: Source, O: Sink>(alloc: Global, session: u32, input: &mut I, output: &mut O) -> End
    ensures { Replays I.Source O.Sink session input.old input.new output.old output.new result }
{
    a_text_has_one_outcome();
    match judge(alloc, input) {
        Ok(reader) => answer(alloc, &reader, session, output),
        Err(end) => end,
    }
}

// Reads and judges all the bytes of the input, up to its end.
fn judge<I: Source>(alloc: Global, input: &mut I) -> Result<Reader, End>
    ensures all { IfOk result (λ reader. (bytes : List ℕ) × IsJudged bytes reader
        × ReadWhole I.Source input.old input.new bytes) }
    ensures end { IfErr result (λ end. (end ≡ ends.ReadFault) ⊎ (end ≡ ends.OutOfMemory)) }
    ensures fault { result ≡ Err ends.ReadFault
        → HasRisen (I.read_faults input.old) (I.read_faults input.new) }
    ensures read { result ≢ Err ends.ReadFault → I.read_faults input.new ≡ I.read_faults input.old }
{
    let mut reader = Reader::new(alloc);
    read_all(input, &mut reader)?;
    reader.finish()?;
    Ok(reader)
}

// Writes what the bytes that were read come to for a session.
fn answer<O: Sink>(alloc: Global, reader: &Reader, session: u32, output: &mut O) -> End
    ensures { (bytes : List ℕ) → IsJudged bytes reader.now
        → SaysOne O.Sink output.old output.new (IsAnswer (IsReplayed session) (IsErrorAt session) bytes) result }
{
    let refused = End::Refused { at: 0 };
    match reader.outcome(session) {
        Outcome::Stream(stream) => say(output, stream, End::Done),
        Outcome::Refused(refusal) => say_line(output, refusal_text(alloc, &refusal), refused),
        Outcome::Unfinished => say_line(output, unfinished_text(alloc, session), refused),
    }
}
