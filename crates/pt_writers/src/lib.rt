//! The threads that write the sample program.
//!
//! Each row of a run has a writer, which makes all writes of its thread, in a thread of its own where one can be made, and
//! leaves the half of the tie to its row when it has ended. Who has the rows may meanwhile take from them what sessions get.
//! It stands on pt_load, for what the threads write, on ep_live, for the rows behind locks, and on pt_io, for the clock
//! and the gate. What all threads of a run write is `specs/Written`.
//!
//! Its one contract: each writer that has ended has made all its writes (`AtEnd::give_back`).
//!
//! What was chosen here, and why: docs/DECISIONS.md, "The program".
#![tactic(auto)]

mod kit;
mod run;
mod slot;
mod writers;

pub use kit::Kit;
pub use run::{Around, SampleRun};
pub use slot::first_slot;
pub use writers::{AtEnd, Writer, write_all, writers_of};
