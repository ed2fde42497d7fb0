//! The journal of a diagnostic server: what was decided on each connection, and what became of each session.
//!
//! It stands on ep_table, which has the slots and the ids. A `Journal` is the table, the decisions by connection, the
//! sessions by id, and whether all writers have ended; none of its calls but `new` takes memory. It knows no thread and
//! no lock: ep_registry keeps it behind one. The definitions are in `specs/Recorded`, what is always kept in
//! `specs/Kept`, and what the lists say in the end in `specs/Told`.
//!
//! Its one contract: each decision is borne out by the sessions, and each session by the decisions and its slot. The ids
//! rise with the connections. A stop is refused only where its session was not live at that decision, a ticket is never
//! passed over, and a session ends with the program only once all writers have ended.
//!
//! What was chosen here, and why: docs/DECISIONS.md, "The protocol".
#![tactic(auto)]

mod decision;
mod journal;
pub mod limits;
mod log;
mod session;

pub use decision::Decision;
pub use journal::Journal;
pub use log::Log;
pub use session::{Entry, Fate, Opened, Stage};
