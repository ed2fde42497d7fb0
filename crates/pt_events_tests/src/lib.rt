//! The tests of the command `events` and of the values of fields: each type code with its edges, names and texts of strangers,
//! what is lost, and streams that come whole, cut or changed.
//!
//! It stands on pt_events and on what its calls take, and nothing stands on it. A crate that has tests is proved twice, so they
//! stand here, where they are proved alone.
#![tactic(auto)]

#[cfg(test)]
mod tests;
