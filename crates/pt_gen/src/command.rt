//! The command `gen`.
ghost use Rattle.std.specs.Prelude.{◌≡◌, ◌≤◌, IfOk};
ghost use Rattle.pt_gen.specs.declared.limits.TheConstants.{MOST_WRITES};
ghost use Rattle.pt_gen.specs.Command.{Generates};
ghost use Rattle.pt_gen.specs.Summary.{gen_text};

use crate::summary::{summed_up, text_of};
use crate::words::Asked;
use pt_command::{End, say};
use pt_io::Sink;
use std::alloc::{AllocError, Global};

/// Makes a whole schedule, and writes what its sessions came to, in one write. Nothing is written before the schedule
/// has ended.
pub fn generate<O: Sink>(alloc: Global, asked: Asked, output: &mut O) -> End
    requires few { asked.writes ≤ MOST_WRITES }
    ensures { Generates O.Sink asked output.old output.new result }
{
    match text_for(alloc, asked) {
        Ok(text) => say(output, text.as_slice(), End::Done),
        Err(AllocError) => End::OutOfMemory,
    }
}

// What a whole schedule comes to, in lines.
fn text_for(alloc: Global, asked: Asked) -> Result<Vec<u8>, AllocError>
    requires few { asked.writes ≤ MOST_WRITES }
    ensures { IfOk result (λ text. text.items ≡ gen_text asked.seed asked.writes) }
{
    let summary = summed_up(alloc, asked)?;
    text_of(alloc, asked, &summary)
}
