//! The tests of the texts, each over its crate's public calls: lines of a schedule that are read or refused, steps that are
//! printed, and a session's start-up text.
//!
//! It stands on those crates and what their calls take, and nothing stands on it. A crate that has tests is proved twice, so
//! they stand here, where they are proved alone.
#![tactic(auto)]

#[cfg(test)]
mod tests;
