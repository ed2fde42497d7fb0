//! The tests of pt_stream and of pt_live: a session's stream over rows that a test leads from write to write, and whole runs of
//! the sample program with threads, over sinks in memory.
//!
//! It stands on those crates and what their calls take, and nothing stands on it. A crate that has tests is proved twice, so
//! they stand here, where they are proved alone.
#![tactic(auto)]

#[cfg(test)]
mod tests;
