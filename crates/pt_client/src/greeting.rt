//! A tool that listens: a program calls it, says who it is, and is asked what it is.
ghost use Rattle.std.specs.Prelude.{◌≡◌, ◌≢◌, ◌+◌, ◌++◌, ℕ, [], map, IsTrue, IfOk, IfSome, IfNone, OnOk, OnErr, Some, Err};
ghost use Rattle.std.specs.String.{string_bytes};
ghost use Rattle.pt_io.specs.Faults.{HasRisen};
ghost use Rattle.pt_io.specs.Taken.{TookAll, TookPart};
ghost use Rattle.ipc_body.specs.Asking.{info_request};
ghost use Rattle.ipc_take.specs.Given.{HasFailed, IsSound};
ghost use Rattle.ipc_call.specs.Said.{LosesNothing};
ghost use Rattle.ipc_call.specs.declared.fault.CallFault.TheVariants.{PeerError, BadReply, LinkFault, WriteFault};
ghost use Rattle.pt_command.specs.declared.end.End.TheVariants as ends;
ghost use Rattle.pt_client.specs.Answers.{IsDone, to_bad_reply, to_peer_error};
ghost use Rattle.pt_client.specs.Greeting.{Greets, greet_in, greeted};

use crate::ask::ask_what_it_is;
use crate::calling::{Called, end_by};
use ipc_call::CallFault;
use ipc_reverse::{TakenAdvert, receive_advert};
use pt_command::{End, say};
use pt_io::{Arrival, Dock, Failed, Link, Sink};
use pt_words::{Target, one_text};
use std::alloc::{AllocError, Global};
use std::sync::Wait;

/// The path at which a tool is to listen, where the words of the command line, without the program's name, are `greet TARGET`.
pub fn greet_of<'a>(alloc: Global, words: &'a [String]) -> Result<Option<Target<'a>>, AllocError>
    ensures { IfOk result (λ target. target ≡ greet_in (map string_bytes words.now)) }
{
    let [name, rest @ ..] = words else {
        return Ok(None);
    };
    if name.as_str() != "greet" {
        return Ok(None);
    }
    match one_text(alloc, rest)? {
        Some(target) => Ok(Target::new(target)),
        None => Ok(None),
    }
}

/// Waits for the first program that calls, reads who it is, asks it what it is, and writes its answer, a line as `ps` does.
/// Where the dock is closed before one comes it writes that nobody came.
pub fn greet<R: Wait, D: Dock, O: Sink>(
    rt: &R,
    alloc: Global,
    output: &mut O,
    dock: &mut D,
) -> Called<D::Link>
    ensures greets { Greets O.Sink D.Dock D.Link.Source D.Link.Sink output.old output.new dock.old dock.new result.peer result.end }

    // Nothing takes memory before a program came.
    ensures memory { result.end ≡ ends.OutOfMemory → (link : D.Link) × (result.peer ≡ Some link) }
{
    let mut link = match first(rt, dock) {
        Ok(Some(link)) => link,
        Ok(None) => {
            return Called {
                end: say(output, b"error: no peer\n", End::Refused { at: 0 }),
                peer: None,
            };
        }
        Err(Failed) => {
            return Called {
                end: End::LinkFault,
                peer: None,
            };
        }
    };
    match ask_caller(alloc, &mut link, output) {
        Ok(()) => Called {
            end: End::Done,
            peer: Some(link),
        },
        Err(fault) => Called {
            end: end_by(alloc, fault, output),
            peer: Some(link),
        },
    }
}

// The first link that comes, none where the dock is closed before.
fn first<R: Wait, D: Dock>(rt: &R, dock: &mut D) -> Result<Option<D::Link>, Failed>
    ensures given { IfOk result (λ came. IfSome came (λ link. D.Link.given link ≡ [])) }
    ensures reads { IfOk result (λ came. IfSome came (λ link. D.Link.read_faults link ≡ 0)) }
    ensures writes { IfOk result (λ came. IfSome came (λ link. D.Link.write_faults link ≡ 0)) }
    ensures greeted { IfOk result (λ came. IfSome came (λ link. D.Link.taken link ≡ D.greeting dock.old)) }
    ensures arrived { IfOk result (λ came. IfSome came (λ _. D.arrivals dock.new ≡ D.arrivals dock.old + 1)) }
    ensures nobody { IfOk result (λ came. IfNone came (IsTrue (D.is_closed dock.new))) }
    ensures none { IfOk result (λ came. IfNone came (D.arrivals dock.new ≡ D.arrivals dock.old)) }
    ensures sound { OnOk result (D.dock_faults dock.new ≡ D.dock_faults dock.old) }
    ensures failed { OnErr result (HasRisen (D.dock_faults dock.old) (D.dock_faults dock.new)) }
    ensures no_link { OnErr result (D.arrivals dock.new ≡ D.arrivals dock.old) }
{
    for _ in rt.forever() {
        match dock.next()? {
            Arrival::Link(link) => return Ok(Some(link)),
            Arrival::Quiet => {}
            Arrival::Closed => return Ok(None),
        }
    }
    unreachable!()
}

// Reads who calls, asks what it is, and writes it.
fn ask_caller<L: Link, O: Sink>(
    alloc: Global,
    link: &mut L,
    output: &mut O,
) -> Result<(), CallFault>
    ensures done { IsTrue (L.tells_given link.old) → OnOk result
        (IsDone O.tells_taken O.taken output.old output.new (greeted (L.left link.old))) }
    ensures error { (code : ℕ) → result ≡ Err (PeerError code) → IsTrue (L.tells_given link.old)
        → greeted (L.left link.old) ≡ to_peer_error code }
    ensures bad { (at : ℕ) → result ≡ Err (BadReply at) → IsTrue (L.tells_given link.old)
        → greeted (L.left link.old) ≡ to_bad_reply at }
    ensures unwritten { IsTrue (L.tells_given link.old) → result ≡ Err WriteFault
        → TookPart O.tells_taken O.taken output.old output.new (greeted (L.left link.old)).text }
    ensures silent { result ≢ Err WriteFault → OnErr result (output.new ≡ output.old) }

    // It has what it had, and takes the request.
    ensures told { L.tells_given link.new ≡ L.tells_given link.old }
    ensures whole { LosesNothing L.tells_given L.given L.left link.old link.new }
    ensures tells { L.tells_taken link.new ≡ L.tells_taken link.old }
    ensures asked { OnOk result (TookAll L.tells_taken L.taken link.old link.new info_request) }
    ensures asked_part { TookPart L.tells_taken L.taken link.old link.new info_request }

    // Faults.
    ensures link_fault { result ≡ Err LinkFault → HasFailed L.read_faults L.write_faults link.old link.new }
    ensures sound { result ≢ Err LinkFault → IsSound L.read_faults L.write_faults link.old link.new }
    ensures write_fault { result ≡ Err WriteFault
        → HasRisen (O.write_faults output.old) (O.write_faults output.new) }
    ensures written { result ≢ Err WriteFault → O.write_faults output.new ≡ O.write_faults output.old }
{
    match receive_advert(link) {
        Ok(TakenAdvert::Advert { .. }) => ask_what_it_is(alloc, link, output),
        Ok(TakenAdvert::BadAdvert { at }) => Err(CallFault::BadReply { at: at as u64 }),
        Err(Failed) => Err(CallFault::LinkFault),
    }
}
