//! The client's side of the DOTNET_IPC_V1 protocol: one request on a link, and the reply to it.
//!
//! It stands on ipc_take, which reads one message of a link, ipc_body, for requests and replies as bytes, ep_defs, for
//! rules, and pt_io, for links and sinks. A link carries one request; what comes after the reply to `collect` is the session's
//! stream, which is copied piece by piece, however long it is.
//!
//! Its one contract: an answer is what the peer's bytes say, or names the object whose count of faults rose.
//!
//! What was chosen here, and why: docs/DECISIONS.md, "The protocol".
#![tactic(auto)]

mod ask;
mod calls;
mod fault;
mod stream;

pub use calls::{collect, info, stop};
pub use fault::CallFault;
