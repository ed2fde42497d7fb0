//! The words after a command's name, as texts: `clap` reads them, by one simple command for each shape of a command
//! line.
//!
//! It stands on clap alone. What a text means, a number or a rule, is for those above to say; of a peer's path alone it is said
//! here that it has a byte or more.
//!
//! Its one contract: which words have which texts is a function of the words (`specs/Words`, `specs/Session`,
//! `specs/Trace`, `specs/Run`), whatever the words are.
//!
//! What was chosen here, and why: docs/DECISIONS.md, "The ground".
#![tactic(auto)]

mod commands;
mod matches;
mod positions;
mod run;
mod session;
mod target;
mod trace;

pub use positions::{Several, one_text, several_texts, two_texts};
pub use run::{Run, run_texts};
pub use session::session_text;
pub use target::Target;
pub use trace::{Trace, trace_texts};
