//! The rundown: the events with which a session describes, before the last point of its stream, the definitions that it
//! used.
//!
//! `describe` makes the one definition that those events have, and the payload that describes another; `laws` has what
//! holds of the definitions alone, and `limits` the number of that definition. It stands on ep_defs, for definitions and entries, and on nt_meta, since a definition
//! is described by the very payload that defines it in the stream. Which entries a stream has with a rundown is defined
//! in `specs/Rundown`.
//!
//! Its one contract: a description is that payload, and it is read back as the id and the definition.
//!
//! What was chosen here, and why: docs/DECISIONS.md, "The format".
#![tactic(auto)]

mod describe;
mod laws;
pub mod limits;

pub use describe::{description, rundown_def};
pub use laws::{
    a_description_is_read_back, each_definition_that_is_named_is_used_once,
    small_sessions_are_described, the_section_stands_before_the_last_point,
};
