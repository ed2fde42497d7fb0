//! The payload of a metadata blob, which defines an event under an id: put and taken.
//!
//! It stands on pt_num, for numbers and texts, and on ep_defs, for the definitions of events. What the payload of a
//! definition is stands in `specs/Meta`; what stands in the bytes of a payload, or that nothing may stand there, in
//! `specs/Reading`; the laws of `laws` join the two. `cursor` reads, `put` writes, `limits` has the bounds.
//!
//! Its one contract: what is put is the one payload of the definition, and what is taken is a payload of what is
//! answered; bytes that are none are refused, and no others.
//!
//! What was chosen here, and why: docs/DECISIONS.md, "The format".
#![tactic(auto)]

mod cursor;
mod laws;
pub mod limits;
mod put;
mod take;

pub use laws::{a_payload_is_read_back, what_is_read_is_a_payload};
pub use put::put_meta;
pub use take::{TakenMeta, take_meta};
