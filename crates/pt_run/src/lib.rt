//! The command `run`: the sample program with the diagnostic server.
//!
//! `words` reads the command line, `plan` the numbers of what the program writes, `command` makes the run, over a dock or, with
//! `reverse`, over links to a tool that is called, `system` is what the program runs on, and `summary` has the lines that tell what
//! it came to. It stands on pt_host and pt_roles, for the run, ipc_reverse, for the calls of a tool, pt_load, for the sample program, ep_stream, for how a session
//! ends, ep_plan and pt_words, for words, pt_print, for the lines, and ep_defs, for the types. What the words mean is
//! `specs/Words` and `specs/Plans`; what is written is `specs/Summary`.
//!
//! Its one contract: the words ask for the run that they mean, and a run has the lines that its sessions and its connections
//! make (`specs/Command`), with a tool that is called as with peers that come in (`specs/Reverse`).
//!
//! What was chosen here, and why: docs/DECISIONS.md, "The program".
#![tactic(auto)]

mod command;
pub mod limits;
mod plan;
mod reverse;
mod summary;
mod system;
#[cfg(test)]
mod tests;
mod words;

pub use command::{Ran, run};
pub use plan::{number_from, plan_of};
pub use system::System;
pub use words::{Asked, Reverse, asked_of};
