//! The payload of an event, by the fields of its definition: which values stand in it.
//!
//! `kind` has what a field of each type code holds, `value` the values, and `take` takes the value at the front of some
//! bytes. It stands on pt_num, for numbers and texts, and on ep_defs, for the fields. Which values stand in a payload, or
//! that it does not fit its fields, is `specs/Values`; what a field of each type code holds is `specs/Kinds`.
//!
//! Its one contract: what is taken is the value at the front of the bytes, and none is taken where none stands there.
//!
//! What was chosen here, and why: docs/DECISIONS.md, "The format".
#![tactic(auto)]

mod kind;
mod take;
mod value;

pub use kind::{FieldKind, Size};
pub use take::Taken;
pub use value::Value;
