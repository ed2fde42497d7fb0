//! Why an input is refused, and the lines that say so.
ghost use Rattle.std.specs.Prelude.{◌≡◌, IfOk};
ghost use Rattle.std.specs.String.{string_bytes};
ghost use Rattle.pt_replay.specs.Errors.{reason_name, refusal_error, unfinished_error};

use ep_model::Kind;
use ep_plan::LineKind;
use std::alloc::{AllocError, Global};

/// Why a line of a schedule is refused.
#[derive(Clone, Copy, Debug, PartialEq, Eq)]
pub enum Reason {
    /// The line is none of the schedule text.
    Line(LineKind),
    /// Its step can't be made after those before it.
    Step(Kind),
}

/// The first line of a schedule that is refused.
#[derive(Clone, Copy, Debug, PartialEq, Eq)]
pub struct Refusal {
    /// From 1.
    pub line: u64,
    /// The column of the first bad word in bytes, from 1, or 1 where the whole line is refused.
    pub column: u64,
    pub reason: Reason,
}

impl Reason {
    fn name(self) -> &'static str
        ensures { result.now ≡ reason_name self }
    {
        match self {
            Reason::Line(kind) => kind.name(),
            Reason::Step(kind) => kind.name(),
        }
    }
}

/// The error line of a refusal, with its line feed.
pub(crate) fn refusal_text(alloc: Global, refusal: &Refusal) -> Result<String, AllocError>
    ensures { IfOk result (λ text. string_bytes text ≡ refusal_error refusal.now) }
{
    let line = refusal.line;
    let column = refusal.column;
    let name = refusal.reason.name();
    format!(in alloc; "error: line {line} column {column}: {name}\n")
}

/// The error line of a schedule that does not finish the session, with its line feed.
pub(crate) fn unfinished_text(alloc: Global, session: u32) -> Result<String, AllocError>
    ensures { IfOk result (λ text. string_bytes text ≡ unfinished_error session) }
{
    format!(in alloc; "error: end: NotFinished {session}\n")
}
