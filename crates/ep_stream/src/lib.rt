//! A session's stream over the rows of a program's threads.
//!
//! A session opens itself on rows, takes what they kept for it, writes it into its stream, gives the chunks back, and
//! says in points how far each thread had come. It does so over a row set, whether the rows are its caller's own or
//! stand behind locks that threads share. It stands on ep_row for the rows, on nt_write for the stream, and on ep_rundown
//! for what describes definitions before its last point.
//!
//! Its one contract: each record that is taken is told in the stream, in order and once, and what a session told is all
//! that its sink's bytes stand for. `specs/Rows` and `specs/Steps` say what a row set promises, `specs/Telling` what a
//! stream has told, and `specs/Session` what a session keeps between calls.
//!
//! What was chosen here, and why: docs/DECISIONS.md, "What a thread keeps".
#![tactic(auto)]

mod opened;
mod row_set;
mod rundown;
mod session;
mod write;

pub use opened::Named;
pub use row_set::RowSet;
pub use session::{Fate, Seat, Session, SessionEnd};
