//! The program `tracepipe` as one call: the words of its command line, its input, its output and the way to peers.
//!
//! `words` reads the command line; `waitless` has the commands that wait for nobody, `traced` and `watched` two that run
//! threads, and `top` the call; `ends` says how it ended in numbers. What the words mean is `specs/Words`. Each command's
//! own crate says what it comes to: pt_replay, pt_report, pt_events, pt_gen, pt_run, pt_watch and pt_client; of `trace` it
//! is `specs/Traced`, over pt_live's run. It stands on these, on pt_asked, for the words of `trace` and `watch`, ipc_reverse,
//! for links over which a program says who it is, ep_stream, for how a session ends, pt_load, for the sample program, ep_plan
//! and pt_words, for words, pt_command, for ends, pt_io, for the outside, and ep_defs, for the types.
//!
//! Its one contract: the program comes to what the command that its words mean comes to.
//!
//! What was chosen here, and why: docs/DECISIONS.md, "The program".
#![tactic(auto)]

mod ends;
mod top;
mod traced;
mod waitless;
mod watched;
mod words;

pub use ends::{Finished, Plain};
pub use top::tracepipe;
pub use waitless::plain;
pub use words::Command;
