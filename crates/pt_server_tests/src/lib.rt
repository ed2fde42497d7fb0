//! The tests of pt_server: connections in memory, one after another, and what each is told.
//!
//! It stands on that crate and what its calls take, and nothing stands on it. A crate that has tests is proved twice, so they
//! stand here, where they are proved alone.
#![tactic(auto)]

#[cfg(test)]
mod tests;
