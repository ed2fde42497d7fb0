//! The lines that tell what was heard.
ghost use Rattle.std.specs.Prelude.{◌≡◌, ◌++◌, OnOk};
ghost use Rattle.pt_watch.specs.Lines.{begun_line, count_line, count_line_of, heard_line};

use ep_defs::Marks;
use pt_print::{put_end, put_number, put_word};
use std::alloc::AllocError;

/// Appends the line of a thread, all of whose events that were taken were heard.
pub(crate) fn put_heard(text: &mut Vec<u8>, mark: Marks) -> Result<(), AllocError>
    ensures { OnOk result (text.new.items ≡ text.old.items ++ heard_line mark.thread mark.taken mark.refused) }
{
    put_numbers(
        text,
        "heard",
        &[mark.thread, u64::from(mark.taken), u64::from(mark.refused)],
    )?;
    put_end(text)
}

/// Appends the line of an event that was heard so often, if it was heard.
pub(crate) fn put_count(text: &mut Vec<u8>, event: u64, count: u64) -> Result<(), AllocError>
    ensures { OnOk result (text.new.items ≡ text.old.items ++ count_line_of event count) }
{
    if count == 0 {
        return Ok(());
    }
    put_numbers(text, "count", &[event, count])?;
    put_end(text)
}

// A line's word and its numbers.
fn put_numbers(text: &mut Vec<u8>, word: &str, numbers: &[u64]) -> Result<(), AllocError>
    ensures { OnOk result (text.new.items ≡ text.old.items ++ begun_line word.now numbers.now) }
{
    put_word(text, word)?;
    for number in numbers {
        put_number(text, *number)?;
    }
    Ok(())
}
