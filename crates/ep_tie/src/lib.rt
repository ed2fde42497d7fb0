//! Ties: a value of which two owners have one half each, so that they agree on it.
//!
//! What stands under one lock says nothing of what stands under another. Two owners that must agree on a value, as a
//! row and its buffer on a session, each keep one half of a tie beside it. Where both halves are at hand, `meet` says
//! that their values are equal, and `set` gives both another one. Nothing else changes a half's value.
//!
//! It stands on atomic_table alone. A half has no bytes: its value stands in contracts alone, and the owner's type says
//! that it is what the owner's own fields hold.
//!
//! Its one contract: two halves of one place show one value.
//!
//! What was chosen here, and why: docs/DECISIONS.md, "Running threads".
#![tactic(auto)]

mod ends;
mod half;
mod maker;
mod named;
mod steps;

pub use ends::{Left, Right};
pub use maker::{Blank, Maker, Ties};
pub use named::Named;
