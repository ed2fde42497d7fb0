//! The tests of a client's commands: their words, what they send to a peer that answers from memory, or to a program that calls,
//! and what they write of its answer.
//!
//! It stands on pt_client and on what its calls take, and nothing stands on it. A crate that has tests is proved twice, so
//! they stand here, where they are proved alone.
#![tactic(auto)]

#[cfg(test)]
mod tests;
