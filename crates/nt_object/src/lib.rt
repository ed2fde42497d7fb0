//! Objects of a NetTrace stream (version 4), and its start, both ways.
//!
//! A stream is a head of 32 bytes, the Trace object, blocks, and a null reference. `object` writes the start and a
//! whole block, `head` reads what an object begins with, `limits` has the sizes and tags, and `laws` what holds of the
//! definitions alone. It stands on pt_num and ep_defs. What objects and streams are is `specs/Object` and
//! `specs/Stream`, and what an object's head is taken as `specs/Reading`; `specs/Making` serves private functions.
//!
//! Its one contract: what is put are the bytes of the start and of a block that may stand at its offset, and
//! `take_head` answers the kind of the object whose head stands at the front of the bytes, or the first place that is
//! wrong.
//!
//! What was chosen here, and why: docs/DECISIONS.md, "The format".
#![tactic(auto)]

mod head;
mod laws;
pub mod limits;
mod object;

pub use head::{
    ObjectHead, ObjectKind, is_name_length, kind_named, number_at, take_head, version_of,
};
pub use laws::{no_form_begins_another, what_is_put_is_taken};
pub use object::{BlockKind, padding, put_block, put_start};
