//! The sample program: what each of its threads writes.
//!
//! A program that is traced needs something to write. Its eight events belong to three providers, and each thread writes
//! them in turn, with numbers from which a reader can tell every write. `sample_events` gives the events, `Plan` says
//! how many threads write how much, and a `Draft` gives a thread's writes one after another without taking memory;
//! `nth_write` makes one in memory of its own. `laws` has what holds of them as of any program's. It stands on ep_defs,
//! for the types.
//!
//! Its one contract: what a draft gives is the write of its plan, thread and index that `specs/Sample` defines.
//!
//! What was chosen here, and why: docs/DECISIONS.md, "The program".
#![tactic(auto)]

mod draft;
mod events;
pub mod laws;
mod plan;

pub use draft::{Draft, event_at, nth_write};
pub use events::{JOBS, STORE, STORE_OPENED, WEB, sample_events, units};
pub use plan::Plan;
