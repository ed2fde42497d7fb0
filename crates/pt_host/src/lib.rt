//! A run of the sample program with its diagnostic server: the server on the calling thread, beside the streaming roles and
//! the writers.
//!
//! The server takes connections on the calling thread. The streaming roles and the writers are those of pt_roles, all of them
//! in threads of their own where these can be made.
//!
//! Its one contract: the clause of `run_live`.
//!
//! What was chosen here, and why: docs/DECISIONS.md, "The program".
#![tactic(auto)]

mod exit;
mod held_dock;
mod host;
mod locked;
mod opening;
mod prepared;
mod run;

pub use run::run_live;
