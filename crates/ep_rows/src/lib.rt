//! The rows of a program's threads, with the sessions that are open on them, as one owner has them.
//!
//! Threads write on their rows and leave them, others take them, and sessions open themselves on them: this is the row
//! set that tells its rows. It stands on ep_row, for the rows, and on ep_stream, for what a row set is.
//!
//! Its one contract: each call is told, as the change of that row, slot or pool, and of nothing else. `specs/Told` has
//! the rows as they are told, `specs/Writes` what the calls of threads make of them; what those of sessions make stands
//! in ep_stream.
//!
//! What was chosen here, and why: docs/DECISIONS.md, "A schedule's machine".
#![tactic(auto)]

mod column;
mod opened;
mod places;
mod row_set;
mod rows;

pub use rows::Rows;
