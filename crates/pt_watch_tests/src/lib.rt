//! The tests of pt_listen and of pt_watch: whole runs whose events a callback hears, and what is printed of them.
//!
//! It stands on these and what their calls take, and nothing stands on it. A crate that has tests is proved twice, so they
//! stand here, where they are proved alone.
#![tactic(auto)]

#[cfg(test)]
mod tests;
