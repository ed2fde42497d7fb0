//! Stacks and their ids: which id a writer gives to the bytes of a stack, and which bytes a reader knows under an id.
//!
//! It stands on byteorder. Stack ids of a NetTrace stream hold up to the next point, so both types are cleared there:
//! a clear costs no more than what was put in since the last, and 64 places. Strangers choose the bytes and the ids of a
//! trace, so both look up in ordered maps, in which no choice of keys makes a look-up slow. A writer looks first among
//! the stacks that it was asked for lately (`recent`): in one place, whatever the bytes.
//!
//! Its one contract: equal ids exactly for equal stacks, and under an id the bytes that it was defined with.
//!
//! What was chosen here, and why: docs/DECISIONS.md, "The format".
#![tactic(auto)]

mod interner;
mod limits;
mod recent;
mod table;

pub use interner::{Interned, Interner};
pub use limits::MOST_STACKS;
pub use table::StackTable;
