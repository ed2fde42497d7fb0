//! The tests of ep_journal and ep_registry: whole histories, from the first connection to what is left in the end.
//!
//! It stands on these crates and what their calls take, and nothing stands on it. A crate that has tests is proved twice, so
//! they stand here, where they are proved alone.
#![tactic(auto)]

#[cfg(test)]
mod tests;
