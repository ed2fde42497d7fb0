//! One question to a peer, and its answer as far as it is no error.
ghost use Rattle.std.specs.Prelude.{◌≡◌, ◌≢◌, ◌++◌, ℕ, List, false, true, IsTrue, OnOk, OnErr, Ok, Err};
ghost use Rattle.pt_io.specs.Faults.{HasRisen};
ghost use Rattle.pt_io.specs.Taken.{TookAll, TookPart};
ghost use Rattle.ipc_body.specs.Asking.{stop_request, info_request};
ghost use Rattle.ipc_body.specs.Reply.{reply_of};
ghost use Rattle.ipc_body.specs.declared.reply.ProcessInfo.{ProcessInfo};
ghost use Rattle.ipc_body.specs.declared.reply.Reply.TheVariants as replies;
ghost use Rattle.ipc_take.specs.Own.{own_bytes};
ghost use Rattle.ipc_take.specs.Given.{HasFailed, IsSound};
ghost use Rattle.ipc_call.specs.Said.{SaysError, SaysBadly, LosesNothing};
ghost use Rattle.ipc_call.specs.declared.fault.CallFault.TheVariants.{PeerError, BadReply, LinkFault, WriteFault};
ghost use Rattle.pt_client.specs.Lines.{stopped_line, process_line};
ghost use Rattle.pt_client.specs.Answers.{Fits, request_of, wants_info, IsDone, answer_of, stream_of};

use crate::lines::{process_text, stopped_text};
use crate::words::Command;
use ipc_body::Asked;
use ipc_call::{CallFault, collect, info, stop};
use pt_io::{Failed, Link, Sink};
use std::alloc::Global;

/// Asks what the command asks, and writes the answer where it is no error.
pub(crate) fn ask<L: Link, O: Sink>(
    alloc: Global,
    command: &Command<'_>,
    link: &mut L,
    output: &mut O,
) -> Result<(), CallFault>
    requires { Fits command.now }

    // What the peer said, where the link tells it.
    ensures done { IsTrue (L.tells_given link.old) → OnOk result
        (IsDone O.tells_taken O.taken output.old output.new (answer_of command.now (L.left link.old))) }
    ensures error { SaysError (L.tells_given link.old) (wants_info command.now) (L.left link.old) result }
    ensures bad { SaysBadly (L.tells_given link.old) (wants_info command.now) (L.left link.old) result }
    ensures no_stream { (code : ℕ) → result ≡ Err (PeerError code) → output.new ≡ output.old }
    ensures no_reply { (at : ℕ) → result ≡ Err (BadReply at) → output.new ≡ output.old }
    ensures unwritten { IsTrue (L.tells_given link.old) → result ≡ Err WriteFault
        → TookPart O.tells_taken O.taken output.old output.new (answer_of command.now (L.left link.old)).text }
    ensures part { IsTrue (L.tells_given link.old) → result ≢ Err WriteFault → OnErr result
        (TookPart O.tells_taken O.taken output.old output.new (stream_of command.now (L.left link.old))) }

    // It has what it had, and takes the request.
    ensures told { L.tells_given link.new ≡ L.tells_given link.old }
    ensures whole { LosesNothing L.tells_given L.given L.left link.old link.new }
    ensures tells { L.tells_taken link.new ≡ L.tells_taken link.old }
    ensures asked { OnOk result (TookAll L.tells_taken L.taken link.old link.new (request_of command.now)) }
    ensures asked_part { TookPart L.tells_taken L.taken link.old link.new (request_of command.now) }

    // Faults.
    ensures link_fault { result ≡ Err LinkFault → HasFailed L.read_faults L.write_faults link.old link.new }
    ensures sound { result ≢ Err LinkFault → IsSound L.read_faults L.write_faults link.old link.new }
    ensures write_fault { result ≡ Err WriteFault
        → HasRisen (O.write_faults output.old) (O.write_faults output.new) }
    ensures written { result ≢ Err WriteFault → O.write_faults output.new ≡ O.write_faults output.old }
{
    match command {
        Command::Collect {
            megabytes,
            rules,
            ..
        } => {
            let asked = Asked {
                megabytes: *megabytes,
                rules: rules.as_slice(),
            };
            collect(alloc, link, &asked, output)?;
            Ok(())
        }
        Command::Stop { id, .. } => ask_to_stop(alloc, *id, link, output),
        Command::Ps { .. } => ask_what_it_is(alloc, link, output),
    }
}

// Asks for the end of a session, and writes the id in the reply.
fn ask_to_stop<L: Link, O: Sink>(
    alloc: Global,
    id: u64,
    link: &mut L,
    output: &mut O,
) -> Result<(), CallFault>
    ensures done { IsTrue (L.tells_given link.old) → OnOk result ((id : ℕ)
        × (reply_of false (own_bytes (L.left link.old)) ≡ Ok (replies.Session id))
        × TookAll O.tells_taken O.taken output.old output.new (stopped_line id)) }
    ensures error { SaysError (L.tells_given link.old) false (L.left link.old) result }
    ensures bad { SaysBadly (L.tells_given link.old) false (L.left link.old) result }
    ensures unwritten { IsTrue (L.tells_given link.old) → result ≡ Err WriteFault → (id : ℕ)
        × (reply_of false (own_bytes (L.left link.old)) ≡ Ok (replies.Session id))
        × TookPart O.tells_taken O.taken output.old output.new (stopped_line id) }
    ensures silent { result ≢ Err WriteFault → OnErr result (output.new ≡ output.old) }
    ensures told { L.tells_given link.new ≡ L.tells_given link.old }
    ensures whole { LosesNothing L.tells_given L.given L.left link.old link.new }
    ensures tells { L.tells_taken link.new ≡ L.tells_taken link.old }
    ensures asked { OnOk result (TookAll L.tells_taken L.taken link.old link.new (stop_request id)) }
    ensures asked_part { TookPart L.tells_taken L.taken link.old link.new (stop_request id) }
    ensures link_fault { result ≡ Err LinkFault → HasFailed L.read_faults L.write_faults link.old link.new }
    ensures sound { result ≢ Err LinkFault → IsSound L.read_faults L.write_faults link.old link.new }
    ensures write_fault { result ≡ Err WriteFault
        → HasRisen (O.write_faults output.old) (O.write_faults output.new) }
    ensures written { result ≢ Err WriteFault → O.write_faults output.new ≡ O.write_faults output.old }
{
    let stopped = stop(alloc, link, id)?;
    let line = stopped_text(alloc, stopped)?;
    write(output, &line)
}

/// Asks a program what it is, and writes it.
pub(crate) fn ask_what_it_is<L: Link, O: Sink>(
    alloc: Global,
    link: &mut L,
    output: &mut O,
) -> Result<(), CallFault>
    ensures done { IsTrue (L.tells_given link.old) → OnOk result ((info : ProcessInfo)
        × (reply_of true (own_bytes (L.left link.old)) ≡ Ok (replies.Info info))
        × TookAll O.tells_taken O.taken output.old output.new (process_line info)) }
    ensures error { SaysError (L.tells_given link.old) true (L.left link.old) result }
    ensures bad { SaysBadly (L.tells_given link.old) true (L.left link.old) result }
    ensures unwritten { IsTrue (L.tells_given link.old) → result ≡ Err WriteFault → (info : ProcessInfo)
        × (reply_of true (own_bytes (L.left link.old)) ≡ Ok (replies.Info info))
        × TookPart O.tells_taken O.taken output.old output.new (process_line info) }
    ensures silent { result ≢ Err WriteFault → OnErr result (output.new ≡ output.old) }
    ensures told { L.tells_given link.new ≡ L.tells_given link.old }
    ensures whole { LosesNothing L.tells_given L.given L.left link.old link.new }
    ensures tells { L.tells_taken link.new ≡ L.tells_taken link.old }
    ensures asked { OnOk result (TookAll L.tells_taken L.taken link.old link.new info_request) }
    ensures asked_part { TookPart L.tells_taken L.taken link.old link.new info_request }
    ensures link_fault { result ≡ Err LinkFault → HasFailed L.read_faults L.write_faults link.old link.new }
    ensures sound { result ≢ Err LinkFault → IsSound L.read_faults L.write_faults link.old link.new }
    ensures write_fault { result ≡ Err WriteFault
        → HasRisen (O.write_faults output.old) (O.write_faults output.new) }
    ensures written { result ≢ Err WriteFault → O.write_faults output.new ≡ O.write_faults output.old }
{
    let program = info(alloc, link)?;
    let line = process_text(alloc, &program)?;
    write(output, &line)
}

// Writes a line.
fn write<O: Sink>(output: &mut O, line: &[u8]) -> Result<(), CallFault>
    ensures took { OnOk result (TookAll O.tells_taken O.taken output.old output.new line.now) }
    ensures part { OnErr result (TookPart O.tells_taken O.taken output.old output.new line.now) }
    ensures only { OnErr result (result ≡ Err WriteFault) }
    ensures fault { OnErr result (HasRisen (O.write_faults output.old) (O.write_faults output.new)) }
    ensures written { OnOk result (O.write_faults output.new ≡ O.write_faults output.old) }
{
    match output.write(line) {
        Ok(()) => Ok(()),
        Err(Failed) => Err(CallFault::WriteFault),
    }
}
