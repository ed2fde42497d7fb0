//! A client's command: one call of a peer, and what is written of its answer.
ghost use Rattle.std.specs.Prelude.{◌≡◌, ◌≢◌, ℕ, Some};
ghost use Rattle.ipc_call.specs.declared.fault.CallFault.TheVariants.{PeerError, BadReply, LinkFault, WriteFault, OutOfMemory};
ghost use Rattle.pt_command.specs.declared.end.End.TheVariants as ends;
ghost use Rattle.pt_command.specs.Says.{SaysLine};
ghost use Rattle.pt_client.specs.Lines.{peer_error, reply_error};
ghost use Rattle.pt_client.specs.Answers.{Fits, Asks};

use crate::ask::ask;
use crate::lines::{peer_error_text, reply_error_text};
use crate::words::Command;
use ipc_call::CallFault;
use pt_command::{End, say_line};
use pt_io::{Caller, Sink};
use std::alloc::Global;

/// How a client's command ended, and the link to the peer that was called.
#[derive(Debug, Drop)]
pub struct Called<L> {
    pub end: End,
    /// None where the caller gave none.
    pub peer: Option<L>,
}

/// Calls the peer that the command names, asks it, and writes what it answers.
///
/// `collect` writes the stream that comes after the reply piece by piece, as it comes. The others write a line, and so
/// do an error of the peer and a reply that is none.
pub fn client<K: Caller, O: Sink>(
    alloc: Global,
    command: &Command<'_>,
    output: &mut O,
    caller: &mut K,
) -> Called<K::Link>
    requires { Fits command.now }
    ensures asks { Asks O.Sink K.Caller K.Link.Source K.Link.Sink command.now output.old output.new caller.old caller.new result.peer result.end }

    // Nothing takes memory before the peer is called.
    ensures memory { result.end ≡ ends.OutOfMemory → (link : K.Link) × (result.peer ≡ Some link) }
{
    let Ok(mut link) = caller.call(command.target()) else {
        return Called {
            end: End::LinkFault,
            peer: None,
        };
    };
    match ask(alloc, command, &mut link, output) {
        Ok(()) => Called {
            end: End::Done,
            peer: Some(link),
        },
        Err(fault) => Called {
            end: end_by(alloc, fault, output),
            peer: Some(link),
        },
    }
}

/// Ends a command that has no result, with a line where the peer is why.
pub(crate) fn end_by<O: Sink>(alloc: Global, fault: CallFault, output: &mut O) -> End
    ensures peer_error { (code : ℕ) → fault ≡ PeerError code
        → SaysLine O.Sink output.old output.new (peer_error code) (ends.PeerError code) result }
    ensures bad_reply { (at : ℕ) → fault ≡ BadReply at
        → SaysLine O.Sink output.old output.new (reply_error at) (ends.BadReply at) result }
    ensures link_fault { fault ≡ LinkFault
        → (result ≡ ends.LinkFault) × (output.new ≡ output.old) }
    ensures write_fault { fault ≡ WriteFault
        → (result ≡ ends.WriteFault) × (output.new ≡ output.old) }
    ensures memory { fault ≡ OutOfMemory
        → (result ≡ ends.OutOfMemory) × (output.new ≡ output.old) }
{
    match fault {
        CallFault::PeerError { code } => {
            say_line(
                output,
                peer_error_text(alloc, code),
                End::PeerError { code },
            )
        }
        CallFault::BadReply { at } => {
            say_line(output, reply_error_text(alloc, at), End::BadReply { at })
        }
        CallFault::LinkFault => End::LinkFault,
        CallFault::WriteFault => End::WriteFault,
        CallFault::OutOfMemory => End::OutOfMemory,
    }
}
