//! The tests of the commands that work without a running program: `report`, `replay` and `gen`, each over its crate's public
//! calls. Streams and schedules that were worked out by hand, whole, cut, changed, refused, and read from an input or written
//! to an output that fails; and the items of a report and the steps of a generated schedule, one by one.
//!
//! `runs` calls the commands over memory and gives what they come to as plain data, and `pieces` joins and repeats pieces of
//! texts and streams; the other files are tables. It stands on those crates and what their calls take, and nothing stands on
//! it. A crate that has tests is proved twice, so they stand here, where they are proved alone.
#![tactic(auto)]

#[cfg(test)]
mod tests;
