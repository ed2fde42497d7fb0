//! A thread's row: which sessions are open on the thread, which events each of them gets, and which of them have not
//! seen the thread's last write yet.
//!
//! A write begins with one look at its event's mask, is shown to each session that is due, and ends. It stands on the
//! slots, which are no part of the row: each has a lock of its own where threads run. Only `new` and `open_on` take
//! memory.
//!
//! Its one contract: each call makes the change of its step on the lent row and slot, and all else stays. `specs/Row`
//! says what a row is and what each call makes of it.
//!
//! What was chosen here, and why: docs/DECISIONS.md, "What a thread keeps".
#![tactic(auto)]

mod bits;
mod row;

pub use row::{Opening, Row};
