//! The tests of what threads share, in many threads: locks with a number, two owners that agree, and a shelf that is read while
//! it is filled.
//!
//! It stands on those crates, and nothing stands on it. A crate that has tests is proved twice, so they stand here, where they
//! are proved alone.
#![tactic(auto)]

#[cfg(test)]
mod tests;
