//! What tracing speaks of: definitions of events, configurations of sessions, writes, and the items of a stream.
//!
//! It stands on byteorder alone, and every other crate speaks in these types. Contracts see each of them as a record of
//! numbers and lists. Which values are valid, and which events a session gets, are the definitions of `specs/`:
//! `Event`, `Session` and `Admits`. `Definitions` numbers a program's events, `Entry` and `Gaps` say what a stream
//! tells, and `Ranges` what the types of the code say of each value, which the laws of `ranges` give. Every bound of
//! this project's profile is a constant of `limits`.
//!
//! Its one contract: a list type is the list of its items, a copy equals what it was made of, and each test answers as
//! its definition says.
//!
//! What was chosen here, and why: docs/DECISIONS.md, "The ground".
#![tactic(auto)]

mod event;
mod item;
pub mod limits;
mod list;
pub mod ranges;
mod session;

pub use event::{EventDef, FIRST_CODE, FieldDef, FieldList, LAST_CODE, LAST_UNIT, OBJECT_CODE};
pub use item::{Item, ItemKind, ThreadNumbers};
pub use list::{Bytes, Duplicate, Frames, Items, Units, copies, units_of};
pub use session::{
    CLOCK_FREQUENCY, Config, Facts, MarkList, Marks, POINTER_BYTES, Rule, RuleList, TraceInfo,
    Write, admits, standard_info,
};
