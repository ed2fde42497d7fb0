//! The lines that tell what a run came to.
ghost use Rattle.std.specs.Prelude.{◌≡◌, ◌≤◌, ◌++◌, length, OnOk};
ghost use Rattle.std.specs.List.{flat_map, sum_by};
ghost use Rattle.ep_defs.specs.declared.limits.TheConstants.{SESSION_THREADS as MOST_MARKS};
ghost use Rattle.pt_run.specs.Summary.{begun_line, connections_line, fate_text, mark_line, plan_line, session_line, session_lines};

use ep_defs::Marks;
use ep_stream::Fate;
use pt_load::Plan;
use pt_print::{put_end, put_number, put_text, put_word};
use std::alloc::AllocError;

/// Appends the line that begins it: what was asked for.
pub(crate) fn put_plan(text: &mut Vec<u8>, plan: &Plan) -> Result<(), AllocError>
    ensures { OnOk result (text.new.items ≡ text.old.items ++ plan_line plan.now) }
{
    put_numbers(
        text,
        "run",
        &[u64::from(plan.threads), u64::from(plan.writes)],
    )?;
    put_end(text)
}

/// Appends the lines of a session: its own, and one for each thread on which it was opened.
pub(crate) fn put_session(
    text: &mut Vec<u8>,
    id: u64,
    marks: &[Marks],
    fate: Fate,
) -> Result<(), AllocError>
    requires few { length marks.now ≤ MOST_MARKS }
    ensures { OnOk result (text.new.items
        ≡ text.old.items ++ session_lines (record { id = id; marks = marks.now; fate = fate })) }
{
    put_sums(text, id, marks, fate)?;
    for mark in marks {
        put_mark(text, id, *mark)?;
    }
    Ok(())
}

// A session's own line.
fn put_sums(text: &mut Vec<u8>, id: u64, marks: &[Marks], fate: Fate) -> Result<(), AllocError>
    requires few { length marks.now ≤ MOST_MARKS }
    ensures { OnOk result (text.new.items
        ≡ text.old.items ++ session_line (record { id = id; marks = marks.now; fate = fate })) }
{
    let (written, refused) = sums(marks);
    put_numbers(text, "session", &[id, written, refused])?;
    put_text(text, word_of(fate).as_bytes())?;
    put_end(text)
}

// How many events of all threads were written, and how many were refused.
fn sums(marks: &[Marks]) -> (u64, u64)
    requires few { length marks.now ≤ MOST_MARKS }
    ensures written { result.0 ≡ sum_by (λ mark. mark.taken) marks.now }
    ensures refused { result.1 ≡ sum_by (λ mark. mark.refused) marks.now }
{
    let mut written = 0;
    let mut refused = 0;
    for mark in marks {
        let Marks {
            taken,
            refused: more,
            ..
        } = *mark;
        written += u64::from(taken);
        refused += u64::from(more);
    }
    (written, refused)
}

// Why a session ended.
fn word_of(fate: Fate) -> &'static str
    ensures { result.now ≡ fate_text fate }
{
    match fate {
        Fate::Requested { .. } => "stop",
        Fate::ProgramEnd => "end",
        Fate::LinkFault => "link",
        Fate::TooLong => "long",
        Fate::OutOfMemory => "memory",
    }
}

// What the session had of one thread.
fn put_mark(text: &mut Vec<u8>, id: u64, mark: Marks) -> Result<(), AllocError>
    ensures { OnOk result (text.new.items ≡ text.old.items ++ mark_line id mark) }
{
    let numbers = [
        id,
        mark.thread,
        u64::from(mark.from),
        u64::from(mark.to),
        u64::from(mark.taken),
        u64::from(mark.refused),
    ];
    put_numbers(text, "mark", &numbers)?;
    put_end(text)
}

/// Appends the line that ends it: how many connections there were.
pub(crate) fn put_connections(text: &mut Vec<u8>, connections: u64) -> Result<(), AllocError>
    ensures { OnOk result (text.new.items ≡ text.old.items ++ connections_line connections) }
{
    put_numbers(text, "connections", &[connections])?;
    put_end(text)
}

// A line's word and its numbers.
fn put_numbers(text: &mut Vec<u8>, word: &str, numbers: &[u64]) -> Result<(), AllocError>
    ensures { OnOk result (text.new.items ≡ text.old.items ++ begun_line word.now numbers.now) }
{
    put_word(text, word)?;
    for number in numbers {
        put_number(text, *number)?;
    }
    Ok(())
}
