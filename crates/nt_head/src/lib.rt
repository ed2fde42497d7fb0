//! The compressed headers of blobs (NetTrace, version 4), both ways.
//!
//! A header says what is new after the blob before it: a flag byte, and a field for each flag. `head` has the state
//! that a header stands for, `flags` the bits of a flag byte, `put` and `take` write and read a header, `limits` its
//! greatest size, and `laws` what holds of the definitions alone. It stands on pt_num. What a header's bytes are is
//! `specs/Head`, what is read at the front of some bytes `specs/Reading`, and which header is written `specs/Fewest`.
//!
//! Its one contract: `put_head` appends the shortest header that says the new state after the previous one, and
//! `take_head` answers what the header at the front of the bytes says after the previous state.
//!
//! What was chosen here, and why: docs/DECISIONS.md, "The format".
#![tactic(auto)]

pub mod flags;
mod head;
mod laws;
pub mod limits;
mod put;
mod take;

pub use head::{HeadState, state_fits};
pub use laws::{no_form_begins_another, what_is_put_is_taken, what_is_taken_is_a_form};
pub use put::{push_head, push_next, put_head};
pub use take::{HeadStop, TakenHead, take_head, take_next};
