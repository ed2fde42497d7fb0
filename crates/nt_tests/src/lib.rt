//! The tests of the format, each over its crate's public calls: objects, headers, definitions, blocks, values and stacks as bytes
//! that were worked out by hand from the format's document, cut and changed in many places; items in and out of order; and whole
//! streams, read in any pieces and written over sinks that fail.
//!
//! It stands on those crates and what their calls take, and nothing stands on it. A crate that has tests is proved twice, so
//! they stand here, where they are proved alone.
#![tactic(auto)]

#[cfg(test)]
mod tests;
