//! The tables of a schedule's machine: its sessions, threads and rows, what stands against a step, and the step made.
//!
//! `tables` keeps which sessions are present, which thread has which row, and where each session is open. `Tables::judge`
//! says what stands against a step, and changes nothing; of a step that can be made it gives the row and the place of the
//! session that it found (`judged`), with which the step is made: nothing is looked up twice. `laws` has the law that a
//! step that can be made finds what it needs, for who knows that it can. It stands on ep_rows, for the rows, ep_stream, for
//! the sessions, ep_table, for their slots, and ep_model, for the steps.
//!
//! Its one contract: tables that stand for the steps so far (`specs/Tables`) answer the first kind that stands against
//! the next one, as ep_model defines it, and a step that is made makes of them what `specs/Made` says, and nothing else.
//! `specs/Tied` has what holds of the tables whatever the steps were.
//!
//! What was chosen here, and why: docs/DECISIONS.md, "A schedule's machine".
#![tactic(auto)]

mod judged;
pub mod laws;
mod tables;

pub use judged::{Judged, OfSession, OnBoth, OnRow};
pub use tables::{Present, Tables};
