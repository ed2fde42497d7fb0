//! The calls of a peer.
ghost use Rattle.std.specs.Prelude.{◌≡◌, ◌≢◌, ◌≤◌, ◌++◌, ℕ, [], length, true, false, IsTrue, IfOk, IfErr, OnOk, Ok, Err};
ghost use Rattle.pt_io.specs.Faults.{HasRisen};
ghost use Rattle.pt_io.specs.Taken.{TookAll, TookPart};
ghost use Rattle.ipc_frame.specs.declared.limits.TheConstants.{MESSAGE_BYTES};
ghost use Rattle.ipc_body.specs.Asking.{collect_request, stop_request, info_request};
ghost use Rattle.ipc_body.specs.Reply.{reply_of, IsReplyTo};
ghost use Rattle.ipc_body.specs.declared.reply.Reply.TheVariants as replies;
ghost use Rattle.ipc_take.specs.Own.{own_bytes, later_bytes};
ghost use Rattle.ipc_take.specs.Given.{Gave, HasFailed, IsSound};
ghost use Rattle.ipc_call.specs.Said.{SaysError, SaysBadly, LosesNothing};
ghost use Rattle.ipc_call.specs.declared.fault.CallFault.TheVariants.{PeerError, BadReply, LinkFault, WriteFault};

use crate::ask::ask;
use crate::fault::CallFault;
use crate::stream::copy;
use ipc_body::{Asked, ProcessInfo, Reply, put_collect, put_info, put_stop};
use pt_io::{Link, Sink};
use std::alloc::Global;

/// Asks for a session without a rundown, and copies its stream to the output until the link ends. It answers the
/// session's id.
///
/// Nothing is written before the reply was read. After a fault the output has a first part of the stream.
pub fn collect<L: Link, O: Sink>(
    alloc: Global,
    link: &mut L,
    asked: &Asked<'_>,
    output: &mut O,
) -> Result<u64, CallFault>
    requires { length (collect_request asked.now.megabytes asked.now.rules.now) ≤ MESSAGE_BYTES }

    // What the peer said, where the link tells it.
    ensures session { IsTrue (L.tells_given link.old)
        → IfOk result (λ id. reply_of false (own_bytes (L.left link.old)) ≡ Ok (replies.Session id)) }
    ensures error { SaysError (L.tells_given link.old) false (L.left link.old) result }
    ensures bad { SaysBadly (L.tells_given link.old) false (L.left link.old) result }

    // The output takes what comes after the reply, up to the link's end.
    ensures read { IsTrue (L.tells_given link.old) → OnOk result (L.left link.new ≡ []) }
    ensures stream { IsTrue (L.tells_given link.old)
        → OnOk result (TookAll O.tells_taken O.taken output.old output.new (later_bytes (L.left link.old))) }
    ensures part { IsTrue (L.tells_given link.old)
        → TookPart O.tells_taken O.taken output.old output.new (later_bytes (L.left link.old)) }
    ensures begun { IsTrue (L.tells_given link.old) → result ≡ Err WriteFault
        → (id : ℕ) × (reply_of false (own_bytes (L.left link.old)) ≡ Ok (replies.Session id)) }
    ensures no_stream { (code : ℕ) → result ≡ Err (PeerError code) → output.new ≡ output.old }
    ensures no_reply { (at : ℕ) → result ≡ Err (BadReply at) → output.new ≡ output.old }

    // It has what it had: what it gave then and what it has left.
    ensures told { L.tells_given link.new ≡ L.tells_given link.old }
    ensures whole { LosesNothing L.tells_given L.given L.left link.old link.new }

    // The link takes the request.
    ensures tells { L.tells_taken link.new ≡ L.tells_taken link.old }
    ensures asked { OnOk result (TookAll L.tells_taken L.taken link.old link.new
        (collect_request asked.now.megabytes asked.now.rules.now)) }
    ensures asked_part { TookPart L.tells_taken L.taken link.old link.new
        (collect_request asked.now.megabytes asked.now.rules.now) }

    // A fault comes only from the object that was handed in, in this call.
    ensures link_fault { result ≡ Err LinkFault → HasFailed L.read_faults L.write_faults link.old link.new }
    ensures sound { result ≢ Err LinkFault → IsSound L.read_faults L.write_faults link.old link.new }
    ensures write_fault { result ≡ Err WriteFault
        → HasRisen (O.write_faults output.old) (O.write_faults output.new) }
    ensures written { result ≢ Err WriteFault → O.write_faults output.new ≡ O.write_faults output.old }
{
    let mut request = Vec::new(alloc);
    put_collect(&mut request, asked)?;
    let id = session_of(ask(alloc, link, &request, false)?)?;
    copy(link, output)?;
    Ok(id)
}

/// Asks for the end of a session, and answers the id of the session that the peer ends.
pub fn stop<L: Link>(alloc: Global, link: &mut L, id: u64) -> Result<u64, CallFault>
    // What the peer said, where the link tells it.
    ensures session { IsTrue (L.tells_given link.old)
        → IfOk result (λ id. reply_of false (own_bytes (L.left link.old)) ≡ Ok (replies.Session id)) }
    ensures error { SaysError (L.tells_given link.old) false (L.left link.old) result }
    ensures bad { SaysBadly (L.tells_given link.old) false (L.left link.old) result }

    // It has what it had: what it gave then and what it has left. What comes after the reply is left unread.
    ensures told { L.tells_given link.new ≡ L.tells_given link.old }
    ensures whole { LosesNothing L.tells_given L.given L.left link.old link.new }
    ensures unread { OnOk result (Gave L.tells_given L.given L.left link.old link.new (own_bytes (L.left link.old))) }

    // The link takes the request.
    ensures tells { L.tells_taken link.new ≡ L.tells_taken link.old }
    ensures asked { OnOk result (TookAll L.tells_taken L.taken link.old link.new (stop_request id)) }
    ensures asked_part { TookPart L.tells_taken L.taken link.old link.new (stop_request id) }

    // A fault comes only from the link, in this call.
    ensures link_fault { result ≡ Err LinkFault → HasFailed L.read_faults L.write_faults link.old link.new }
    ensures sound { result ≢ Err LinkFault → IsSound L.read_faults L.write_faults link.old link.new }
    ensures no_output { result ≢ Err WriteFault }
{
    let mut request = Vec::new(alloc);
    put_stop(&mut request, id)?;
    let reply = ask(alloc, link, &request, false)?;
    session_of(reply)
}

/// Asks a program what it is.
pub fn info<L: Link>(alloc: Global, link: &mut L) -> Result<ProcessInfo, CallFault>
    // What the peer said, where the link tells it.
    ensures info { IsTrue (L.tells_given link.old)
        → IfOk result (λ info. reply_of true (own_bytes (L.left link.old)) ≡ Ok (replies.Info info)) }
    ensures error { SaysError (L.tells_given link.old) true (L.left link.old) result }
    ensures bad { SaysBadly (L.tells_given link.old) true (L.left link.old) result }

    // It has what it had: what it gave then and what it has left. What comes after the reply is left unread.
    ensures told { L.tells_given link.new ≡ L.tells_given link.old }
    ensures whole { LosesNothing L.tells_given L.given L.left link.old link.new }
    ensures unread { OnOk result (Gave L.tells_given L.given L.left link.old link.new (own_bytes (L.left link.old))) }

    // The link takes the request.
    ensures tells { L.tells_taken link.new ≡ L.tells_taken link.old }
    ensures asked { OnOk result (TookAll L.tells_taken L.taken link.old link.new info_request) }
    ensures asked_part { TookPart L.tells_taken L.taken link.old link.new info_request }

    // A fault comes only from the link, in this call.
    ensures link_fault { result ≡ Err LinkFault → HasFailed L.read_faults L.write_faults link.old link.new }
    ensures sound { result ≢ Err LinkFault → IsSound L.read_faults L.write_faults link.old link.new }
    ensures no_output { result ≢ Err WriteFault }
{
    let mut request = Vec::new(alloc);
    put_info(&mut request)?;
    match ask(alloc, link, &request, true)? {
        Reply::Info(info) => Ok(info),
        Reply::Error { code } => Err(CallFault::PeerError { code }),
        Reply::Session { .. } => unreachable!(),
    }
}

// The id of a reply about a session, or the peer's error.
fn session_of(reply: Reply) -> Result<u64, CallFault>
    requires { IsReplyTo false reply }
    ensures session { IfOk result (λ id. reply ≡ replies.Session id) }
    ensures error { IfErr result (λ fault. (code : ℕ) × (fault ≡ PeerError code)
        × (reply ≡ replies.Error code)) }
{
    match reply {
        Reply::Session { id } => Ok(id),
        Reply::Error { code } => Err(CallFault::PeerError { code }),
        Reply::Info(_) => unreachable!(),
    }
}
