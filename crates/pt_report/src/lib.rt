//! The report of a stream: what its items hold, counted and printed; the command `report`.
//!
//! `report` takes one item after another and prints what they come to, `tally` counts by keys, `key` has the keys with
//! their order, and `lines` prints the lines. `events` and `stacks` keep where a definition and a stack are counted, so
//! that no event is looked up by text. `reading` feeds a reader piece by piece and gives a report what each object tells,
//! `errors` has the lines that say why a stream is refused, and `command` reads an input to its end and writes the report,
//! or one such line. `laws` has what a report says of the threads of a faithful stream. It stands on nt_check, which takes
//! or refuses an item and counts the numbers of each thread, on nt_read, for the reader, which tells of an event what it
//! names (nt_names), on pt_print, which puts the parts of a line, on hex, on ep_model, for what a session's stream has to
//! tell, and on pt_command. What is printed is a function of the items and of the entries that they tell
//! (`specs/Report`); names stand in the order of their units. What the bytes of a stream come to is `specs/Found`.
//!
//! Its one contract: the command comes to the report of the bytes of its input, or to the line of what is wrong with them.
//!
//! What was chosen here, and why: docs/DECISIONS.md, "The program".
#![tactic(auto)]

mod command;
mod counters;
mod errors;
mod events;
mod key;
pub mod laws;
mod lines;
mod reading;
mod report;
mod stacks;
mod tally;

pub use command::write_report;
pub use errors::{Flaw, Refusal, flaw_text, refusal_text};
pub use report::Report;
