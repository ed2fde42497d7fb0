//! A session without a stream: a callback hears the events that are taken of a program's threads.
//!
//! A `Listener` is handed what was taken with a session's hands, batch by batch, and hands each record over to its
//! callback, in order. Where that is out of memory it hands over nothing more, while its batches can be given back as
//! before. It stands on the chunks in which records are kept, ep_chunk and ep_slot, and on ep_row and ep_model for what
//! a record is of; it takes nothing of rows itself.
//!
//! Its one contract: a batch's records are heard one after another, each once and unchanged. `specs/Heard` says what is
//! heard, `specs/Listening` what a listener makes of a batch, and `specs/Shares` what was heard of a thread, with laws on it.
//!
//! What was chosen here, and why: docs/DECISIONS.md, "What a thread keeps".
#![tactic(auto)]

mod hand_over;
mod heard;
mod laws;
mod listener;

pub use heard::{Callback, Heard};
pub use laws::{a_batch_is_heard, all_is_heard_but_what_is_missing, nothing_is_heard_at_first};
pub use listener::{ListenEnd, Listener};
