//! The tests of the protocol's messages: requests and replies as they stand on a connection, taken from links that give them in
//! pieces, cut or not at all; each call of a client against a peer in memory, whose replies are whole, cut, refused and too long;
//! what a server answers to each request, byte by byte; and the message of a program that calls, and a tool's calls as a dock.
//!
//! It stands on those crates and what their calls take, and nothing stands on it. A crate that has tests is proved twice, so they
//! stand here, where they are proved alone.
#![tactic(auto)]

#[cfg(test)]
mod tests;
