//! The machine that makes the steps of a schedule, one after another.
//!
//! `work` makes a step in the tables of sessions, threads and rows, `whole` all steps of a write that is lent, and
//! `machine` asks first what stands against a step and keeps what is left of finished sessions (`ended`). It stands on
//! ep_tables, for the steps and what stands against them, and on the laws of ep_core_laws, ep_stream_laws and nt_laws.
//! `specs/Machine` says what the machine has come to, `specs/Writes` what the steps of a write are, and `specs/Streams`
//! what the stream of a finished session is.
//!
//! Its one contract: after every lawful list of steps the stream of a finished session is the canonical one of its
//! entries, and faithful; a step that can't be made is refused with its first kind and changes nothing.
//!
//! What was chosen here, and why: docs/DECISIONS.md, "A schedule's machine".
#![tactic(auto)]

mod ended;
mod machine;
mod whole;
mod work;

pub use machine::{Machine, StepFault};
