//! Whole lines: those of JSON, behind commas.
ghost use Rattle.std.specs.Prelude.{◌≡◌, ◌++◌, ℕ, OnOk};
ghost use Rattle.ep_defs.specs.Entry.{EventEntry};
ghost use Rattle.pt_lines.specs.declared.form.Form.TheVariants as forms;
ghost use Rattle.pt_lines.specs.declared.origin.Origin.{Origin};
ghost use Rattle.pt_lines.specs.Line.{Event};
ghost use Rattle.pt_lines.specs.Forms.{IsLine};
ghost use Rattle.pt_lines.specs.Json.{lost_object, point_object};
ghost use Rattle.pt_lines.specs.Page.{error_page, next_item};
ghost use Rattle.pt_lines.specs.Appends.{Appends, Tells};

use crate::json::line as object;
use crate::line::EventLine;
use pt_print::put_word;
use std::alloc::{AllocError, Global};

/// Appends the object of numbers that a thread leaves out.
pub fn put_lost(out: &mut Vec<u8>, thread: u64, count: u32) -> Result<(), AllocError>
    ensures { OnOk result (out.new.items ≡ out.old.items ++ next_item (lost_object thread count)) }
{
    out.push(b',')?;
    object::put_lost(out, thread, count)
}

/// Appends the object of a point.
pub fn put_point(out: &mut Vec<u8>, stamp: u64, threads: &[(u64, u32)]) -> Result<(), AllocError>
    ensures { OnOk result (out.new.items ≡ out.old.items ++ next_item (point_object (record { stamp = stamp; threads = threads.now }))) }
{
    out.push(b',')?;
    object::put_point(out, stamp, threads)
}

/// Appends the object of an event.
pub fn put_event(out: &mut Vec<u8>, alloc: Global, event: &EventLine<'_>) -> Result<(), AllocError>
    ensures { (origin : Origin) (processor thread : ℕ) (entry : EventEntry) → Tells event.now origin processor thread entry
        → OnOk result (Appends (IsLine forms.Page (Event origin processor thread entry)) out.old.items out.new.items) }
{
    out.push(b',')?;
    object::put_event(out, alloc, event)
}

/// Appends the end of the page of a stream that is wrong at this offset of its bytes, in words in which nothing has to be
/// escaped, with an object that says so.
pub fn put_error(out: &mut Vec<u8>, at: u64, words: &str) -> Result<(), AllocError>
    ensures { OnOk result (out.new.items ≡ out.old.items ++ error_page at words.now) }
{
    put_word(
        out,
        "]</script>\n<script type=\"application/json\" id=\"error\">",
    )?;
    object::put_error(out, at, words)?;
    put_word(out, "</script>\n</body>\n</html>\n")
}
