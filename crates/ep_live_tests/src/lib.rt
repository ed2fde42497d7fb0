//! The tests of ep_live: threads that write on two rows, beside sessions that take, are opened and closed again, and end.
//!
//! It stands on ep_live and what its calls take, and nothing stands on it. A crate that has tests is proved twice, so they
//! stand here, where they are proved alone.
#![tactic(auto)]

#[cfg(test)]
mod tests;
