//! A schedule that is replayed, and the stream of one of its sessions: the command `replay`.
//!
//! `text` splits the input into lines as it comes; `schedule` takes the lines one after another, over the machine that
//! makes their steps; `errors` has the lines that say why an input is refused; `command` reads an input to its end and
//! writes the stream, or one such line; `laws` has the law that a text has one outcome at most. Which texts are schedules
//! is defined in `specs/Schedule`, and what replaying one comes to in `specs/Replay`. It stands on ep_plan, for what a line
//! means, ep_core, for the machine, ep_model, for the steps, pt_report, for what a report says of a session, pt_command,
//! for inputs, outputs and ends, and ep_defs, for the types.
//!
//! Its one contract: the command comes to the stream of the session after the schedule that its input is, or to the line
//! that says why there is none (`specs/Command`).
//!
//! What was chosen here, and why: docs/DECISIONS.md, "The program".
#![tactic(auto)]

mod command;
mod errors;
pub mod laws;
mod schedule;
mod text;

pub use command::replay;
pub use errors::{Reason, Refusal};
