//! The events of a block by what they name: where each stands, and its definition, its thread with its number, and its stack.
//!
//! `take` goes over the body of an event block, and `head` reads of each blob's header what an event names and where the
//! header ends. What else a header says is passed over, and a payload is not touched, so no event costs memory of its own. It
//! stands on nt_blocks, for what is read in a body or refused, on nt_head and pt_num, for headers and varuints, and on
//! nt_check, for what an event names. What the events tell of the items is `specs/Told`.
//!
//! Its one contract: the events are those that are read in the body, each with what it names, or the body is refused as
//! `take_body` refuses it.
//!
//! What was chosen here, and why: docs/DECISIONS.md, "The format".
#![tactic(auto)]

mod head;
mod take;

pub use take::{EventAt, take_names};
