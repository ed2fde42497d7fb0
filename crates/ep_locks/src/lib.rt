//! Locks with a number: a row of locks side by side, each over one value.
//!
//! Of a value under std's `Mutex` only what its type says is known, whichever lock it was. Here a trait says what holds
//! of the value under the lock of each number, so that "under this row's lock stands this row's half" can be said.
//!
//! Taking a lock gives its value and the right to give it back, which is no bytes but the number, and can't be let go.
//! Taking one number never waits for the holder of another, and each lock's word and value stand in a cache line of
//! their own, so that neighbours don't slow each other.
//!
//! It stands on atomic_table alone. Its one contract: what is taken meets what holds under its number.
//!
//! What was chosen here, and why: docs/DECISIONS.md, "Running threads".
#![tactic(auto)]

mod held;
mod limits;
mod locks;
mod steps;

pub use held::Held;
pub use locks::Locks;
pub use steps::Guards;
