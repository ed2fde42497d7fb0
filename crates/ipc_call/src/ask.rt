//! One request, and the reply to it.
ghost use Rattle.std.specs.Prelude.{◌≡◌, ◌≢◌, ◌++◌, ◌⊎◌, ℕ, IsTrue, IfOk, IfErr, OnOk, Ok, Err};
ghost use Rattle.pt_io.specs.Taken.{TookAll, TookPart};
ghost use Rattle.ipc_body.specs.Reply.{reply_of, IsReplyTo};
ghost use Rattle.ipc_take.specs.Own.{own_bytes};
ghost use Rattle.ipc_take.specs.Given.{Gave, HasFailed, IsSound};
ghost use Rattle.ipc_call.specs.Said.{SaysBadly, LosesNothing};
ghost use Rattle.ipc_call.specs.declared.fault.CallFault.TheVariants.{BadReply, LinkFault, OutOfMemory};

use crate::fault::CallFault;
use ipc_body::{Reply, ReplyFault, read_reply};
use ipc_take::receive;
use pt_io::{Failed, Link};
use std::alloc::Global;

/// Sends a request, and reads the reply to it and nothing more.
pub(crate) fn ask<L: Link>(
    alloc: Global,
    link: &mut L,
    request: &[u8],
    wants_info: bool,
) -> Result<Reply, CallFault>
    ensures reply { IsTrue (L.tells_given link.old)
        → IfOk result (λ reply. reply_of wants_info (own_bytes (L.left link.old)) ≡ Ok reply) }
    ensures gave { OnOk result (Gave L.tells_given L.given L.left link.old link.new (own_bytes (L.left link.old))) }
    ensures kind { IfOk result (IsReplyTo wants_info) }
    ensures bad { SaysBadly (L.tells_given link.old) wants_info (L.left link.old) result }
    ensures told { L.tells_given link.new ≡ L.tells_given link.old }
    ensures whole { LosesNothing L.tells_given L.given L.left link.old link.new }

    // What the link took.
    ensures tells { L.tells_taken link.new ≡ L.tells_taken link.old }
    ensures asked { OnOk result (TookAll L.tells_taken L.taken link.old link.new request.now) }
    ensures asked_bad { (at : ℕ) → result ≡ Err (BadReply at)
        → TookAll L.tells_taken L.taken link.old link.new request.now }
    ensures part { TookPart L.tells_taken L.taken link.old link.new request.now }

    // Faults.
    ensures fault { result ≡ Err LinkFault → HasFailed L.read_faults L.write_faults link.old link.new }
    ensures sound { result ≢ Err LinkFault → IsSound L.read_faults L.write_faults link.old link.new }
    ensures only { IfErr result (λ fault. (fault ≡ LinkFault) ⊎ (fault ≡ OutOfMemory)
        ⊎ ((at : ℕ) × (fault ≡ BadReply at))) }
{
    if let Err(Failed) = link.write(request) {
        return Err(CallFault::LinkFault);
    }
    let bytes = receive(alloc, link)?;
    match read_reply(alloc, &bytes, wants_info) {
        Ok(reply) => Ok(reply),
        Err(ReplyFault::Bad { at }) => Err(CallFault::BadReply { at }),
        Err(ReplyFault::OutOfMemory) => Err(CallFault::OutOfMemory),
    }
}
