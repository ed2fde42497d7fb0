//! Numbers and texts as bytes, both ways: what a format writes, and what it reads.
//!
//! The modules: `fixed` has numbers of a fixed width, `varuint` numbers that take as many bytes as they need, `text`
//! texts in UTF-16, `ids` the comparison of two ids, `limits` the greatest sizes of numbers and texts, and `laws` what
//! holds of the definitions alone. It stands on ep_defs, for the units of a text, and on byteorder. What the bytes of a
//! number or a text are stands in `specs/Numbers` and `specs/Texts`, and what stands at the front of some bytes in
//! `specs/Fields`.
//!
//! Its one contract: each `put_` call appends the one form that is written of its value, or nothing where memory is
//! missing; each `take_` call answers what stands at the front of the bytes, and takes no memory.
//!
//! What was chosen here, and why: docs/DECISIONS.md, "The ground".
#![tactic(auto)]

mod fixed;
mod ids;
mod laws;
pub mod limits;
mod text;
mod varuint;

pub use fixed::{put_u16, put_u32, put_u64, take_u16, take_u32, take_u64};
pub use ids::is_same_id;
pub use laws::{
    no_form_begins_another, one_short_form, what_is_put_is_taken, what_is_taken_is_a_form,
};
pub use text::{TakenText, put_counted, put_utf16z, take_counted, take_utf16z};
pub use varuint::{Taken, push_var32, push_var64, put_var32, put_var64, take_var32, take_var64};
