//! What the crates of tests share that run the program's server: its peers, and what the program says of itself.
//!
//! `peer` has what a peer sends and the link in memory that gives it, `facts` the program. It stands on pt_io, for links in memory,
//! and on ep_defs, for the types, and crates of tests alone stand on it.
//!
//! Its one contract: the links of peers are unused (`links_of`), and the facts are valid (`facts_of`).
#![tactic(auto)]

mod facts;
mod peer;

pub use facts::facts_of;
pub use peer::{INFO, JOBS, MOST, Peer, links_of};
