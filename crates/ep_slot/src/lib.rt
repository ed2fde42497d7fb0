//! What a session keeps of one thread: its slot there, and the hand with which the session's stream takes from it.
//!
//! Each write that is shown to a slot uses the next number, whether its record is kept or refused because the session's
//! chunks are spent; a steal hands over every record that is pending. It stands on the chunks' pools and on the model.
//!
//! Its one contract: the used numbers are those that were taken, are pending or were refused, and a write is refused
//! exactly where it needs a chunk (`needs_chunk` of ep_model) and its purse found none. `specs/Slot` says what a slot
//! is and what each call makes of it, `specs/Hand` when a slot and a hand agree. No call but `pair` takes memory.
//!
//! What was chosen here, and why: docs/DECISIONS.md, "What a thread keeps".
#![tactic(auto)]

mod hand;
mod keep;
mod shown;
mod slot;

pub use hand::Hand;
pub use shown::{Batch, Counts, Shown};
pub use slot::{Slot, pair};
