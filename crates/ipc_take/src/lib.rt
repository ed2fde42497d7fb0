//! One message from a link, and never a byte past it: both the client, which reads a reply, and the server, which reads
//! a request, begin so.
//!
//! It stands on ipc_frame, for the size that a header says, and on pt_io, for links. The header is read first, and then
//! as many bytes as it says that its message has after it; what is no header ends with its 20 bytes. Which bytes of a
//! peer are its message's own stands in `specs/Own`; the public source is the DOTNET_IPC_V1 protocol document of
//! dotnet/diagnostics.
//!
//! Its one contract: `receive` answers the message's own bytes, or all that came before the link ended, and has taken no
//! other; or it names why it has none.
//!
//! What was chosen here, and why: docs/DECISIONS.md, "The protocol".
#![tactic(auto)]

mod lack;
mod message;
mod pieces;

pub use lack::Lack;
pub use message::receive;
pub use pieces::PIECE_BYTES;
