//! Reading a line that shows a write to a session or ends one.
ghost use Rattle.std.specs.Prelude.{List, Bool, IfSome};
ghost use Rattle.ep_defs.specs.declared.event.EventDef.{EventDef};
ghost use Rattle.ep_plan.specs.declared.line.Line.TheVariants.{Step};
ghost use Rattle.ep_plan.specs.Lines.{IsLine, step_of};

use crate::cursor::Cursor;
use crate::limits::LINE_BYTES;
use crate::verb::Verb;

/// A line that shows a write to a session or ends one, as nearly all lines of a long schedule do, by its numbers.
#[derive(Clone, Copy, Debug, PartialEq, Eq)]
pub enum ShortStep {
    Show { thread: u32, session: u32 },
    End { thread: u32 },
}

/// Reads a line that shows or ends a write, if its numbers are good and have few digits. Of any other line nothing is
/// said.
#[inline(always)]
pub fn read_short(text: &[u8]) -> Option<ShortStep>
    ensures { (events : List EventDef) (stepped : Bool)
        → IfSome result (λ short. IsLine events stepped text.now (Step (step_of short))) }
{
    if text.len() > LINE_BYTES {
        return None;
    }
    // No fault is told, so the line's number doesn't matter.
    let mut words = Cursor::new(0, text);
    match words.verb()? {
        Verb::Show => {
            let thread = words.short_number()?;
            let session = words.short_number()?;
            words
                .is_over()
                .then_some(ShortStep::Show { thread, session })
        }
        Verb::End => {
            let thread = words.short_number()?;
            words.is_over().then_some(ShortStep::End { thread })
        }
        _ => None,
    }
}
