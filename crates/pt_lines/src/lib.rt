//! The text of a line: of an event with the values of its fields, of a point, and of numbers that are lost.
//!
//! `text` puts names and texts of strangers, `value` the value of a field, `number` finds the values that are plain numbers, `guid`
//! has the text of sixteen bytes, `fields` the fields of an event by its definition, `place` numbers that go out in one piece,
//! `plain` the fields of a payload of numbers alone, as nearly all are, which go out so with what stands around them,
//! `named` a definition with what is put of it once for all of its events, and `line`
//! whole lines, in the form that is asked for; `json` has the form of objects, with modules of the same tasks, and `chromium`
//! that of trace events, over it. It stands on nt_fields, for the values of a payload, on pt_print, for the parts of
//! a line, and on the kit's printers of numbers and floats and its text of a UUID. What a line tells is `specs/Line`, its text in each form
//! `specs/Texts`, `specs/Json` and `specs/Chromium`, and `specs/Forms` has all: a function of the line but for floats, whose
//! text is one that reads back as the float. What stands around the lines is `specs/Around`.
//!
//! Its one contract: what each call appends is the text of its line, and nothing stands in it raw that a stranger wrote.
//!
//! What was chosen here, and why: docs/DECISIONS.md, "The program".
#![tactic(auto)]

mod chromium;
mod fields;
mod form;
mod guid;
mod json;
mod limits;
mod line;
mod named;
mod number;
mod origin;
mod page;
mod place;
mod plain;
mod text;
mod value;

pub use chromium::line::put_error as put_error_tail;
pub use form::Form;
pub use json::line::put_error;
pub use json::stack::ShownStack;
pub use line::{EventLine, put_event, put_lost, put_point};
pub use named::{NamedDef, NamedField};
pub use origin::Origin;
pub use page::line::put_error as put_error_page;
