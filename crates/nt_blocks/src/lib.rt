//! The bodies of blocks, both ways: event and metadata blocks in the making, stacks and points that are put, and what
//! is taken from a body.
//!
//! `blob_block` makes a body of blobs, `put` puts stacks and points, `take` takes a body of any kind as items, `event_body`
//! a body of events with its bytes, in which the payloads stand where `place` found them; `laws` has what holds of the
//! definitions alone, and `limits` the bounds.
//! It stands on nt_object, for the kinds of blocks, nt_head, for the headers of blobs, and nt_meta, for definitions of
//! events. What a body is stands in `specs/Bodies`, what is read in one, or refused at which place, in
//! `specs/Refusals`; `specs/Drafts` has the bodies that are written, `specs/Ordered` which items may follow which.
//!
//! Its one contract: what is put is the body of what was added, and what is taken is what is read in the body, as items or
//! as events in their place (`specs/Placed`).
//!
//! What was chosen here, and why: docs/DECISIONS.md, "The format".
#![tactic(auto)]

mod blob_block;
mod event_body;
mod laws;
pub mod limits;
mod place;
mod put;
mod take;

pub use blob_block::BlobBlock;
pub use event_body::{BodyEvent, EventBody};
pub use laws::{
    items_have_the_gaps_of_their_entries, what_a_body_holds_is_read, what_is_read_is_held,
};
pub use place::EventPlace;
pub use put::{put_point, put_stacks};
pub use take::{BodyFault, header_size, take_body};
