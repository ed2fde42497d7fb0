//! A run of the sample program whose events a callback hears.
//!
//! Each thread of the run writes in a thread of its own where one can be made, while the calling thread opens one session
//! on all rows, takes what it gets of them again and again, hands that to a listener, and closes the session once the
//! threads have ended. It stands on ep_listen, for the listener, on pt_writers, for the threads, on ep_live, for the rows
//! behind locks, and on ep_stream for the trait of row sets alone. What holds between two calls is `specs/state/Hearing`.
//!
//! Its one contract: the clause of `run_watch`, defined in `specs/Watched`.
//!
//! What was chosen here, and why: docs/DECISIONS.md, "The program".
#![tactic(auto)]

mod hearing;
mod rows;
mod run;
mod threads;
mod watch;

pub use watch::{WatchEnd, run_watch};
