//! The steps of a program that is traced, and what they amount to: which can be made, which events a session gets,
//! which of them its budget has room for, and what its stream has to tell.
//!
//! It stands on ep_defs, for the types. The definitions are those of `specs/`: `History` (what the steps so far amount
//! to), `Lawful` (which step can be made), `Chunks` (which write a budget refuses, by places in the list of steps),
//! `Entries` (what a session's stream tells), `Faithful` (what it has to tell), `Marks` and `Only`. `Budget` has the
//! words for one thread's share of a budget, and `Fold` how code counts it.
//!
//! Its one contract: the laws of these definitions, in `laws`. What some small schedules amount to is computed in
//! `examples`.
//!
//! What was chosen here, and why: docs/DECISIONS.md, "The model and the texts".
#![tactic(auto)]

pub mod examples;
pub mod laws;
pub mod ranges;
mod step;

pub use step::{Kind, Step, Unlawful};
