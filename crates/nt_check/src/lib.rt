//! The checker: whether the items of a stream stand in order, and the numbers of its threads.
//!
//! `checker` takes one item after another, `ids` knows which ids are defined, `threads` counts each thread's events and
//! gaps, `by_id` keeps values under ids, with `scattered` and `recent` for those that lie far apart, and `limits` has the
//! bounds. It stands on ep_defs, for the items, and on nt_blocks, for the definitions: items are in order where each id is
//! defined before its use (`specs/Ordered` there), and gaps are what the numbers of a thread leave out. What a checker
//! tells of a thread is `specs/Numbers`; it stands for the list of the items that it took, and keeps none of them.
//! Strangers choose the ids of a trace, so ids stand in a row where they lie close together. Where they don't, an ordered
//! map has the place of each, in front of which stands a table of guesses that no choice of ids makes slow.
//!
//! Its one contract: an item is taken exactly where the list of the items so far with it is in order.
//!
//! What was chosen here, and why: docs/DECISIONS.md, "The format".
#![tactic(auto)]

mod by_id;
mod checker;
mod ids;
mod limits;
mod recent;
mod scattered;
mod threads;

pub use by_id::ById;
pub use checker::{CheckFault, CheckKind, Checker, EventNames};
pub use limits::MOST_COUNTED;
pub use threads::Numbers;
