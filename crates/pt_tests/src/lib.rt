//! The tests of the program's one call, with everything around it in memory: its words, runs, outputs that fail, traces of
//! strangers; and of the words of `run`.
//!
//! It stands on pt_cli and pt_run and on what their calls take, and on pt_peers, for peers, and nothing stands on it. A crate
//! that has tests is proved twice, and pt_cli is dear, so they stand here, where they are proved alone. Each call stands alone
//! in a function, since what surrounds it in a body is proved beside all that its contract says.
#![tactic(auto)]

#[cfg(test)]
mod tests;
