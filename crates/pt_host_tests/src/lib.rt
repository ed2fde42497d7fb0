//! The tests of pt_host: whole runs over links in memory.
//!
//! It stands on pt_host and what its call takes, and on pt_peers, for peers, and nothing stands on it. A crate that has tests is proved twice, so they
//! stand here, where they are proved alone.
#![tactic(auto)]

#[cfg(test)]
mod tests;
