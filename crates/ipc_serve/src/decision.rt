//! The decision on one connection.

ghost use Rattle.std.specs.Prelude.{◌≡◌, ◌<◌, ◌^◌, IsTrue};
ghost use Rattle.ep_defs.specs.Session.{is_valid_facts};
ghost use Rattle.ep_table.specs.Sessions.{accepted_by, after_accept, stop_answer, after_stop};
ghost use Rattle.ipc_serve.specs.declared.codes.TheConstants.{OUT_OF_MEMORY};
ghost use Rattle.ipc_serve.specs.Decision as wanted;
ghost use Rattle.ipc_serve.specs.Decision.{Decides, DecidesOn, OnError, IsDescription, TakesMemory, started, ended};

use crate::asks::asked;
use crate::codes::{OUT_OF_MEMORY, REFUSED};
use crate::replies::{ERROR_BYTES, SESSION_BYTES, error_reply, info_reply, session_reply};
use ep_defs::{Bytes, Config, Facts};
use ep_table::{Accepted, StopAnswer, StopTicket, Table};
use ipc_body::Request;
use std::alloc::Global;

/// What the server does with a connection, and the bytes that it replies.
#[derive(Debug, PartialEq, Eq, Drop)]
pub enum Action {
    /// The request is refused with this code.
    Error {
        code: u32,
        reply: [u8; ERROR_BYTES],
    },
    /// The program describes itself.
    Info {
        reply: Bytes,
    },
    /// A session begins, in this slot. Its stream follows the reply.
    Start {
        slot: u32,
        id: u64,
        config: Config,
        reply: [u8; SESSION_BYTES],
    },
    /// A session is to end.
    Stop {
        ticket: StopTicket,
        reply: [u8; SESSION_BYTES],
    },
}

/// The answer to the bytes of this connection, which are the whole message or what came before the link ended.
///
/// Bytes after the message are not looked at. Out of memory is answered with a code of its own, and only to what takes
/// memory. A server whose table is behind a lock makes the same decision in two steps: `asked` before the lock is taken,
/// and the table's call under it.
#[tactic(auto, unfolding(crate::specs::Decision::decision))]
pub fn decide(alloc: Global, table: &mut Table, facts: &Facts, conn: u32, bytes: &[u8]) -> Action
    requires next { table.old.next < 2 ^ 63 }
    requires valid { IsTrue (is_valid_facts facts.now) }
    ensures decided { Decides (wanted.decision facts.now table.old conn bytes.now) table.old result table.new }
    ensures error { OnError result (table.new ≡ table.old) }
    ensures memory { result ≡ wanted.refused OUT_OF_MEMORY → TakesMemory bytes.now }
{
    match asked(alloc, bytes) {
        Ok(request) => answer(alloc, table, facts, conn, request),
        Err(code) => refused(code),
    }
}

/// The answer to a request of this connection. Only a description takes memory, and it leaves the table alone.
pub fn answer(
    alloc: Global,
    table: &mut Table,
    facts: &Facts,
    conn: u32,
    request: Request,
) -> Action
    requires next { table.old.next < 2 ^ 63 }
    requires valid { IsTrue (is_valid_facts facts.now) }
    ensures { DecidesOn request (wanted.answer facts.now table.old conn request) table.old result table.new }
{
    match request {
        Request::Collect { config } => start(table, config),
        Request::Stop { id } => stop(table, id, conn),
        Request::Info => describe(alloc, facts),
    }
}

fn refused(code: u32) -> Action
    ensures { result ≡ wanted.refused code }
{
    Action::Error {
        code,
        reply: error_reply(code),
    }
}

// The table changes last: the configuration was read, and the reply takes no memory.
fn start(table: &mut Table, config: Config) -> Action
    requires { table.old.next < 2 ^ 63 }
    ensures action { result ≡ started config (accepted_by table.old) }
    ensures after { table.new ≡ after_accept table.old }
{
    match table.accept() {
        Accepted::Seat { slot, id } => Action::Start {
            slot,
            id,
            config,
            reply: session_reply(id),
        },
        Accepted::Full => refused(REFUSED),
    }
}

fn stop(table: &mut Table, id: u64, conn: u32) -> Action
    ensures action { result ≡ ended (stop_answer table.old id conn) }
    ensures after { table.new ≡ after_stop table.old id }
{
    match table.stop(id, conn) {
        StopAnswer::Ticket(ticket) => {
            let reply = session_reply(ticket.id);
            Action::Stop { ticket, reply }
        }
        StopAnswer::NotLive { .. } => refused(REFUSED),
    }
}

fn describe(alloc: Global, facts: &Facts) -> Action
    requires { IsTrue (is_valid_facts facts.now) }
    ensures { IsDescription facts.now result }
{
    match info_reply(alloc, facts) {
        Ok(reply) => Action::Info { reply },
        Err(_) => refused(OUT_OF_MEMORY),
    }
}
