//! The text of a schedule: a line is a blank, the definition of an event, or a step.
//!
//! `line` reads a line, `event` and `step` the words of one, taken by a `cursor`; `short` reads the lines that nearly
//! all are in a long schedule, without a step of full size; `verb` has the words that lines of steps begin with, and
//! `words` what a word spells and how a value is written; `print` writes the line of a step. What a line means is
//! defined in `specs/`: `Words` for a word, `Lines` for a line, `Printing` for what is written, under the bounds of
//! `limits`. It stands on ep_model, for the steps, ep_rundown, for the one definition that no line may repeat, ep_defs,
//! for the types, hex, for bytes in digits, and itoa, for decimal digits.
//!
//! Its one contract: a line is read as what the definition says, or refused at its first bad word; a step that is
//! printed is read back.
//!
//! What was chosen here, and why: docs/DECISIONS.md, "The model and the texts".
#![tactic(auto)]

mod cursor;
mod event;
pub mod limits;
mod line;
mod print;
mod short;
mod step;
mod verb;
mod words;

pub use line::{Line, LineFault, LineKind, a_line_means_one_thing, read_line};
pub use print::print_step;
pub use short::{ShortStep, read_short};
pub use words::{hexadecimal, number, provider, rule};
