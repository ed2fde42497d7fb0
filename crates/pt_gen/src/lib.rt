//! The program's large workload, made and summed up: the command `gen`.
//!
//! Four threads write in turn, and two sessions get it. `generator` gives the steps of such a schedule one after another,
//! from a seed and the number of writes, and keeps only where it stands: `stage` is the step that comes next, `rounds` has
//! the writes, `session` the sessions, and `walk` the way over all sessions and threads on which something is taken from
//! each. `run` makes the steps on a machine and keeps none of them, those of a write at once (`drafts`); `summary` has what
//! the sessions came to, and the lines that tell it; `words` reads the command line, and `command` writes the lines to an
//! output. It stands on pt_load, for the writes, ep_core, for the machine, ep_model, for the steps, ep_plan and pt_words,
//! for words, pt_print, for the lines, and pt_command. The whole list of steps is `generated` in `specs/Schedule`; what is
//! written is `specs/Summary`.
//!
//! Its one contract: the command comes to the summary of the schedule that its words ask for (`specs/Command`).
//!
//! What was chosen here, and why: docs/DECISIONS.md, "The program".
#![tactic(auto)]

mod command;
mod drafts;
mod generator;
pub mod laws;
pub mod limits;
mod rounds;
mod run;
mod session;
mod stage;
mod summary;
mod walk;
mod words;

pub use command::generate;
pub use generator::Gen;
pub use summary::{Counts, Summary, summed_up};
pub use words::{Asked, asked_of};
