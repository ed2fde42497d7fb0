//! The running threads of the sample program, and what is streamed of them.
//!
//! Each thread of a run writes in a thread of its own where one can be made, while the calling thread streams: it opens
//! its session on all rows, takes from them again and again until the threads have ended, and closes it. It stands on
//! pt_writers, for the threads, on ep_live, for the rows behind locks, on pt_stream, for the session over them, on
//! ep_live_laws, for what its stream is found to be, and on pt_io, for the output, the clock and the gate. What it answers is
//! defined in `specs/Trace`.
//!
//! Its one contract: the clause of `run_trace`.
//!
//! What was chosen here, and why: docs/DECISIONS.md, "The program".
#![tactic(auto)]

mod lent;
mod run;
mod session;
mod streaming;
mod threads;
mod trace;

pub use trace::{TraceEnd, run_trace};
