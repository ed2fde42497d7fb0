//! The system as what the program has around it: the trusted edge.
//!
//! `standard` has standard input and output as a source and a sink, `socket` Unix sockets as links, `dock` a listening one as a
//! dock, `caller` the way to those of others, `clock` the system's clocks as one; `arguments` has the words of the command line,
//! `name` where the process listens, and `facts` what it says of itself. It stands on pt_io and ipc_reverse, whose traits it
//! fulfils, and on ep_defs. Everything that can be said of bytes is said of any source, sink and link, in the crates of the
//! commands: these tell nothing of content, but for what a socket takes first.
//!
//! Its one contract: the adapters keep the clauses of the traits.
//!
//! What was chosen here, and why: docs/DECISIONS.md, "The program".
#![tactic(auto)]

mod arguments;
mod caller;
mod clock;
mod dock;
mod facts;
pub mod name;
mod socket;
mod standard;

pub use arguments::words;
pub use caller::SocketCaller;
pub use clock::SystemClock;
pub use dock::SocketDock;
pub use facts::{facts_of, units_of};
pub use socket::SocketLink;
pub use standard::{StandardInput, StandardOutput};
