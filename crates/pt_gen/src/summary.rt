//! What the sessions of a schedule came to, and its lines.
ghost use Rattle.std.specs.Prelude.{◌≡◌, ◌≤◌, ◌++◌, ℕ, length, IfOk, OnOk};
ghost use Rattle.pt_gen.specs.declared.limits.TheConstants.{NARROW, WIDE, THREADS};
ghost use Rattle.pt_gen.specs.declared.limits.TheConstants.{MOST_WRITES};
ghost use Rattle.pt_gen.specs.Summary.{counts_of, session_line, summary_text};
ghost use Rattle.pt_gen.specs.state.Counted.{counted};

use crate::laws::a_schedule_can_be_made;
use crate::limits::{NARROW, WIDE};
use crate::run::run;
use crate::words::Asked;
use ep_core::Machine;
use ep_defs::Marks;
use ep_model::laws::finished_sessions_are_faithful;
use pt_print::{put_end, put_number, put_word};
use std::alloc::{AllocError, Global};

/// How many writes of all threads a session admitted, and what became of them.
#[derive(Clone, Copy, Debug, PartialEq, Eq)]
pub struct Counts {
    pub admitted: u64,
    /// Those that stand in its stream.
    pub written: u64,
    /// Those for which its budget of chunks had no room.
    pub refused: u64,
}

/// The counts of both sessions.
#[derive(Clone, Copy, Debug, PartialEq, Eq)]
pub struct Summary {
    pub wide: Counts,
    pub narrow: Counts,
}

/// What a whole schedule comes to. It is made step by step, and none of its steps is kept.
pub fn summed_up(alloc: Global, asked: Asked) -> Result<Summary, AllocError>
    requires few { asked.writes ≤ MOST_WRITES }
    ensures wide { IfOk result (λ summary. summary.wide ≡ counts_of WIDE asked.seed asked.writes) }
    ensures narrow { IfOk result (λ summary. summary.narrow ≡ counts_of NARROW asked.seed asked.writes) }
{
    a_schedule_can_be_made();
    finished_sessions_are_faithful();
    let machine = run(alloc, asked)?;
    let Some(wide) = machine.marks(WIDE) else {
        unreachable!()
    };
    let Some(narrow) = machine.marks(NARROW) else {
        unreachable!()
    };
    Ok(Summary {
        wide: sums(wide),
        narrow: sums(narrow),
    })
}

// The sums over the threads.
fn sums(marks: &[Marks]) -> Counts
    requires few { length marks.now ≤ THREADS }
    ensures { result ≡ counted marks.now }
{
    let mut written = 0;
    let mut refused = 0;
    for mark in marks {
        let Marks {
            taken,
            refused: more,
            ..
        } = *mark;
        written += u64::from(taken);
        refused += u64::from(more);
    }
    Counts {
        admitted: written + refused,
        written,
        refused,
    }
}

/// The lines that tell what a schedule came to.
pub(crate) fn text_of(alloc: Global, asked: Asked, summary: &Summary) -> Result<Vec<u8>, AllocError>
    ensures { IfOk result (λ text. text.items
        ≡ summary_text asked.seed asked.writes summary.now.wide summary.now.narrow) }
{
    let mut text = Vec::new(alloc);
    put_word(&mut text, "gen")?;
    put_number(&mut text, asked.seed)?;
    put_number(&mut text, u64::from(asked.writes))?;
    put_end(&mut text)?;
    put_session(&mut text, WIDE, &summary.wide)?;
    put_session(&mut text, NARROW, &summary.narrow)?;
    Ok(text)
}

fn put_session(text: &mut Vec<u8>, session: u32, counts: &Counts) -> Result<(), AllocError>
    ensures { OnOk result (text.new.items ≡ text.old.items ++ session_line session counts.now) }
{
    put_word(text, "session")?;
    put_number(text, u64::from(session))?;
    put_number(text, counts.admitted)?;
    put_number(text, counts.written)?;
    put_number(text, counts.refused)?;
    put_end(text)
}
