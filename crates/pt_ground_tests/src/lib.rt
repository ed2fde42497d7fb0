//! The tests of the ground's crates and of the sample program, each over its crate's public calls: events and
//! configurations, numbers and texts as bytes, printed lines, the words after a command's name, the outside in memory, and
//! what a thread of the sample program writes.
//!
//! It stands on those crates alone, and nothing stands on it. A crate that has tests is proved twice, so they stand here,
//! where they are proved alone.
#![tactic(auto)]

#[cfg(test)]
mod tests;
