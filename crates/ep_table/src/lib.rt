//! The session table: which of the 64 slots of a traced program are held, and by which sessions.
//!
//! It stands on nothing. The server keeps it behind a lock, and decides each request for a session or for a stop by it.
//! Contracts see it as a record: what each slot holds, by the slot's number, and the id that the next session gets. The
//! definitions are in `specs/Sessions`.
//!
//! Its one contract: a session gets the lowest free slot and an id that none had before it, an id is live until it is
//! stopped or its slot is freed, and an answer that refuses leaves the table as it was. No call takes memory.
//!
//! What was chosen here, and why: docs/DECISIONS.md, "A schedule's machine".
#![tactic(auto)]

pub mod limits;
mod table;

pub use table::{Accepted, Seat, StopAnswer, StopTicket, Table};
