//! The command `watch`: the sample program runs, and what was heard of its threads is counted.
//!
//! `counts` is the callback that counts what it hears, and `lines` has the lines that tell it. It stands on pt_listen, for
//! the run, on ep_listen, for what a callback is, on pt_asked, for what the words ask for, on pt_print, for the lines, and
//! on pt_command, for ends.
//!
//! Its one contract: the clause of `watch`, defined in `specs/Command`. What is printed is `specs/Lines`.
//!
//! What was chosen here, and why: docs/DECISIONS.md, "The program".
#![tactic(auto)]

mod command;
mod counts;
pub mod limits;
mod lines;

pub use command::{Watched, watch};
pub use counts::Counts;
