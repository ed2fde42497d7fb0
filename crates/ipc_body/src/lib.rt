//! What the messages of the DOTNET_IPC_V1 protocol say: requests to the traced program, and its replies.
//!
//! It stands on ipc_frame, which has the header, and on ep_defs, which has what a session is asked for. What the bytes
//! of a request and of a reply are, and what bytes are refused, stands in `specs/`: `Asking` and `Request`, `Answering`
//! and `Reply`. The public source is the DOTNET_IPC_V1 protocol document of dotnet/diagnostics; docs/PROFILE.md says
//! what is this project's own.
//!
//! Its one contract: a request or a reply is read exactly where its bytes are one, a reply that is none is refused at
//! its first wrong field, and what is put is read back. No count that the bytes claim makes it take memory.
//!
//! What was chosen here, and why: docs/DECISIONS.md, "The protocol".
#![tactic(auto)]

mod asking;
pub mod commands;
mod laws;
pub mod limits;
mod providers;
mod reply;
mod request;

pub use asking::{Asked, collect_size, put_collect, put_info, put_stop};
pub use laws::what_is_put_is_read;
pub use reply::{ProcessInfo, Reply, ReplyFault, read_reply};
pub use request::{Request, RequestFault, read_request};
