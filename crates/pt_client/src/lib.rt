//! The client's commands: `collect`, `stop` and `ps`, which ask a running program over its diagnostic socket, and `greet`, which
//! listens for one that calls.
//!
//! `words` reads the words of the command line; `calling` calls the peer that they name, `greeting` waits for one, `ask` asks it
//! once and writes what it answers; `lines` has the lines that are printed. It stands on ipc_call, for the calls, ipc_reverse,
//! for who has called, ipc_body, for what is asked and answered, pt_print and uuid, for what is printed, ep_plan, for numbers
//! and rules as words, and pt_io, for callers, docks, links and outputs; how it ends is pt_command's.
//!
//! Its one contract: the clauses of `command_of` and `greet_of`, which say what the words ask for, and of `client` and `greet`,
//! which say what comes of it. The answer is what the peer's bytes say, or names the object whose count of faults rose.
//!
//! What was chosen here, and why: docs/DECISIONS.md, "The program".
#![tactic(auto)]

mod ask;
mod calling;
mod greeting;
mod lines;
mod words;

pub use calling::{Called, client};
pub use greeting::{greet, greet_of};
pub use pt_words::Target;
pub use words::{Command, command_of};
