//! The events of a stream one by one, and the places where something is lost: the commands `events`, `convert`
//! and `page`.
//!
//! `names` knows what ids stand for, `lasts` how far each thread has come, and `listing` puts the lines of one item after
//! another. `reading` feeds a reader piece by piece, and `command` writes the lines as its input is read; `words` reads the
//! words of the command line. `laws` has what the lines of all items come to. It stands on pt_lines, for the text of a line,
//! on nt_read, for the reader, on nt_check, for values under ids, and on pt_report, for what is wrong with a stream and the
//! line that says so. Which lines a list of items has is `specs/Lines`, what the bytes of a stream come to `specs/Found`.
//!
//! Its one contract: what is written is the text of the lines of the items that the input's bytes hold, with what stands around
//! them in that form, and where the bytes are wrong, one error line after the lines of the items before that place.
//!
//! What was chosen here, and why: docs/DECISIONS.md, "The program".
#![tactic(auto)]

mod command;
mod lasts;
mod laws;
mod listing;
mod names;
mod reading;
mod words;

pub use command::write_events;
pub use laws::lines_have_what_a_report_counts;
pub use listing::Listing;
pub use pt_lines::Form;
pub use words::form_of;
