//! What the commands of the program share: how one ends, how it reads an input to its end, and how it writes an answer.
//!
//! `end` has the ways to end with their statuses, `read` gives the bytes of an input piece by piece to what reads them,
//! and `saying` writes a text and ends. It stands on pt_io alone. A command's own crate says what its text is.
//!
//! Its one contract: a command ends with a fault only where the object that was handed in failed in this call, and a
//! text was written whole, or in part where the output failed (`specs/Answers`, `specs/Says`).
//!
//! What was chosen here, and why: docs/DECISIONS.md, "The program".
#![tactic(auto)]

mod end;
pub mod limits;
mod read;
mod saying;
pub mod status;

pub use end::End;
pub use read::{Reads, read_all};
pub use saying::{say, say_line};
