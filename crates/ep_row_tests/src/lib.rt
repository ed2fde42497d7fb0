//! The tests of what a thread keeps, each over its crate's public calls: chunks and chains, pools, slots, rows, and a listener.
//!
//! It stands on those crates and what their calls take, and nothing stands on it. A crate that has tests is proved twice, so
//! they stand here, where they are proved alone.
#![tactic(auto)]

#[cfg(test)]
mod tests;
