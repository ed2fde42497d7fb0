//! A message of the DOTNET_IPC_V1 protocol: its header of 20 bytes, and its body.
//!
//! It stands on pt_num. A diagnostic client and the traced program speak in such messages, one each on a connection.
//! What the bytes of a message are, and what the first bytes of a connection are found to be, stands in
//! `specs/Message`; the public source is the DOTNET_IPC_V1 protocol document of dotnet/diagnostics.
//!
//! Its one contract: `put_message` appends the bytes of a message, which `take_message` finds again whatever follows
//! them, and `take_message` says of any bytes what they begin with. It takes no memory.
//!
//! What was chosen here, and why: docs/DECISIONS.md, "The protocol".
#![tactic(auto)]

mod frame;
pub mod limits;

pub use frame::{Framed, has_magic, header, put_message, size_in, take_message};
