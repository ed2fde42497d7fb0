//! Reverse ports: the traced program calls a tool that listens, and says first who it is, by the advertise message.
//!
//! `message` has the message both ways, `advertise` the links over which it is sent, and `dock` the calls of one tool as a dock,
//! so that a server takes the connections that it called for itself as it takes those that come in. `named` is that dock by a
//! name of its calls. It stands on pt_io, for callers, links and docks, and on ep_defs and pt_num, for what is said. What the
//! message is stands in `specs/Advert`, what a dock of calls is in `specs/Calls`; the public source is the DOTNET_IPC_V1
//! protocol document of dotnet/diagnostics.
//!
//! Its one contract: each link of the dock took exactly the message of its program before it comes, and the answer to a
//! message is what it says.
//!
//! What was chosen here, and why: docs/DECISIONS.md, "The protocol".
#![tactic(auto)]

mod advertise;
mod dock;
pub mod limits;
mod message;
mod named;
mod receive;

pub use advertise::Advertise;
pub use dock::ReverseDock;
pub use message::{TakenAdvert, advert, take_advert};
pub use named::{Calls, NamedDock};
pub use receive::receive_advert;
