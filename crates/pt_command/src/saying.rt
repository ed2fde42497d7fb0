//! Writing an answer.
ghost use Rattle.std.specs.Prelude.{◌≡◌, ℕ, List, IfOk};
ghost use Rattle.std.specs.String.{string_bytes};
ghost use Rattle.pt_command.specs.Says.{Says, SaysLine};

use crate::end::End;
use pt_io::{Failed, Sink};
use std::alloc::AllocError;

/// Writes a text in one write and ends so, or with a write fault.
pub fn say<O: Sink>(output: &mut O, text: &[u8], end: End) -> End
    ensures { Says O.Sink output.old output.new text.now end result }
{
    match output.write(text) {
        Ok(()) => end,
        Err(Failed) => End::WriteFault,
    }
}

/// Writes a line, where there was memory for it, and ends so, or with a write fault.
pub fn say_line<O: Sink>(output: &mut O, line: Result<String, AllocError>, end: End) -> End
    ensures { (text : List ℕ) → IfOk line (λ line. string_bytes line ≡ text)
        → SaysLine O.Sink output.old output.new text end result }
{
    match line {
        Ok(line) => say(output, line.as_bytes(), end),
        Err(AllocError) => End::OutOfMemory,
    }
}
