//! A writer of `.nettrace` streams for programs in other languages, as a static library with a C interface.
//!
//! `exports` has the functions that C calls, `handle` what C holds between the calls, `shapes` what it passes, and
//! `codes` what it is answered. Below them `recorder` is the writer of one stream, with its definitions (`catalog`), the
//! counts of its threads (`threads`) and the bytes that wait to be pulled (`outlet`). It stands on nt_write, which
//! makes the stream, on nt_check, which finds what stands under an id, on pt_io for the sink, and on ep_defs.
//! `include/tracepipe.h` says all of it to a C programmer.
//!
//! Its one contract: what the pulls gave, one after another, begins the canonical stream of exactly the events and points
//! that were taken, in order, and is all of it once `tp_end` has answered 0; what is refused changes nothing.
//!
//! What was chosen here, and why: docs/DECISIONS.md, "The C interface".
#![tactic(auto)]

mod catalog;
pub mod codes;
mod exports;
mod handle;
mod history;
mod outlet;
mod recorder;
mod refusal;
mod shapes;
mod threads;

pub use exports::{tp_c_begin, tp_c_define, tp_c_end, tp_c_event, tp_c_point, tp_c_pull};
pub use handle::Handle;
pub use shapes::{Definition, EventHead, Field, Info};

#[cfg(test)]
mod tests;
