//! The tests of a schedule's machine: small runs of it, their streams and their marks; and the table of sessions over whole
//! histories.
//!
//! It stands on ep_core and ep_table and what their calls take, and nothing stands on it. A crate that has tests is proved
//! twice, so they stand here, where they are proved alone.
#![tactic(auto)]

#[cfg(test)]
mod tests;
