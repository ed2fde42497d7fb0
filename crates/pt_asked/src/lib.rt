//! What the words of a command ask for that runs the sample program for one session.
//!
//! Such a command is `trace` or `watch`: its words name how many threads write, how often, and by a start-up text which session
//! there is. It stands on pt_words, for the words as texts, on ep_plan, for numbers, on ep_auto, for the start-up text of a
//! session, on ipc_body, for a budget in megabytes, and on pt_load, for what the threads write.
//!
//! Its one contract: what is asked for is a function of the words, and can be done (`asked_of`). What the words mean is
//! `specs/Words`.
//!
//! What was chosen here, and why: docs/DECISIONS.md, "The program".
#![tactic(auto)]

pub mod limits;
mod words;

pub use words::{Asked, asked_of};
