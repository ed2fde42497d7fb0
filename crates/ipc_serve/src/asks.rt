//! What a connection asks for.
ghost use Rattle.std.specs.Prelude.{◌≡◌, ◌≢◌, ℕ, List, Ok, Err, IsTrue, MatchResult, IfOk};
ghost use Rattle.ep_defs.specs.declared.session.Facts.{Facts};
ghost use Rattle.ep_table.specs.Sessions.{Sessions};
ghost use Rattle.ipc_body.specs.Request.{is_valid_request};
ghost use Rattle.ipc_body.specs.declared.request.Request.{Request as RequestValue};
ghost use Rattle.ipc_frame.specs.Message.{found};
ghost use Rattle.ipc_serve.specs.declared.codes.TheConstants.{OUT_OF_MEMORY};
ghost use Rattle.ipc_serve.specs.Decision as wanted;
ghost use Rattle.ipc_serve.specs.Decision.{Decision, asked_by, asks_collect, decision};

use crate::codes::{BAD_ENCODING, OUT_OF_MEMORY, UNKNOWN_COMMAND, UNKNOWN_MAGIC};
use ipc_body::{Request, RequestFault, read_request};
use ipc_frame::{Framed, take_message};
use std::alloc::Global;

/// What the bytes of a connection ask for, or the code with which they are refused: the whole message, or what came
/// before the link ended.
///
/// Bytes after the message are not looked at. Only a request for a session takes memory.
pub fn asked(alloc: Global, bytes: &[u8]) -> Result<Request, u32>
    ensures exact { MatchResult result (λ request. asked_by bytes.now ≡ Ok request) (λ code. code ≢ OUT_OF_MEMORY
        → asked_by bytes.now ≡ Err code) }
    ensures valid { IfOk result (λ request. IsTrue (is_valid_request request)) }
    ensures memory { result ≡ Err OUT_OF_MEMORY → IsTrue (asks_collect (found bytes.now)) }
{
    match take_message(bytes) {
        Framed::Message {
            set,
            command,
            body,
            ..
        } => match read_request(alloc, set, command, body) {
            Ok(request) => Ok(request),
            Err(fault) => Err(fault_code(fault)),
        },
        Framed::BadMagic => Err(UNKNOWN_MAGIC),
        Framed::Need(_) => Err(BAD_ENCODING),
        Framed::BadSize(_) => Err(BAD_ENCODING),
    }
}

fn fault_code(fault: RequestFault) -> u32
    ensures { result ≡ wanted.fault_code fault }
{
    match fault {
        RequestFault::BadEncoding => BAD_ENCODING,
        RequestFault::UnknownCommand => UNKNOWN_COMMAND,
        RequestFault::OutOfMemory => OUT_OF_MEMORY,
    }
}

/// A decision is made in two steps: what the bytes ask for stands before the table is looked at, and then one call of
/// the table decides. What is refused or described leaves the table alone.
#[tactic(auto, unfolding(crate::specs::Decision::decision))]
pub fn a_decision_is_made_in_two_steps()
    ensures answered { (facts : Facts) (table : Sessions) (conn : ℕ) (bytes : List ℕ) (request : RequestValue)
        → asked_by bytes ≡ Ok request
        → decision facts table conn bytes ≡ wanted.answer facts table conn request }
    ensures refused { (facts : Facts) (table : Sessions) (conn : ℕ) (bytes : List ℕ) (code : ℕ)
        → asked_by bytes ≡ Err code
        → decision facts table conn bytes ≡ record { action = wanted.refused code; table = table } }
{}
