//! The start-up text of a session: which events of which providers it gets, as dotnet/runtime's
//! `DOTNET_EventPipeConfig` says it, in this project's grammar.
//!
//! `read` reads a text part by part, `fields` has what a field of a part means, and `fault` why a text is refused. What
//! a text means is defined in `specs/`: `Fields` for a part, `StartUp` for a text. It stands on ep_defs, for what is
//! made, and on ep_plan, since names, digits and parts are those of a schedule's text.
//!
//! Its one contract: a text is read as the configuration that it means, or refused at its first wrong field.
//!
//! What was chosen here, and why: docs/DECISIONS.md, "The model and the texts".
#![tactic(auto)]

mod fault;
mod fields;
pub mod limits;
mod read;

pub use fault::{AutoFault, AutoKind};
pub use read::{a_text_is_good_or_bad, read_auto};
