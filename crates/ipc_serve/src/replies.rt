//! The replies as bytes.

ghost use Rattle.std.specs.Prelude.{◌≡◌, IsTrue, IfOk};
ghost use Rattle.ep_defs.specs.Session.{is_valid_facts};
ghost use Rattle.ipc_body.specs.Answering as answering;
ghost use Rattle.ipc_serve.specs.Info.{info_of};

use byteorder::{ByteOrder, LittleEndian};
use ep_defs::{Bytes, Facts};
use ipc_body::commands::{ERROR, OK, SERVER};
use ipc_frame::limits::HEADER_BYTES;
use ipc_frame::{header, put_message};
use pt_num::{put_counted, put_u64};
use std::alloc::{AllocError, Global};

/// The bytes of an error reply: its header and a code.
pub const ERROR_BYTES: usize = HEADER_BYTES + 4;

/// The bytes of a reply with a session's id.
pub const SESSION_BYTES: usize = HEADER_BYTES + 8;

/// The reply that a request is refused with this code.
pub fn error_reply(code: u32) -> [u8; ERROR_BYTES]
    ensures { result ≡ answering.error_reply code }
{
    let mut reply = [0; ERROR_BYTES];
    reply[..HEADER_BYTES].copy_from_slice(&header(SERVER, ERROR, ERROR_BYTES as u16));
    LittleEndian::write_u32(&mut reply[HEADER_BYTES..], code);
    reply
}

/// The reply that the session of this id begins, or is to end.
pub fn session_reply(id: u64) -> [u8; SESSION_BYTES]
    ensures { result ≡ answering.session_reply id }
{
    let mut reply = [0; SESSION_BYTES];
    reply[..HEADER_BYTES].copy_from_slice(&header(SERVER, OK, SESSION_BYTES as u16));
    LittleEndian::write_u64(&mut reply[HEADER_BYTES..], id);
    reply
}

/// The reply that describes the program.
pub fn info_reply(alloc: Global, facts: &Facts) -> Result<Bytes, AllocError>
    requires { IsTrue (is_valid_facts facts.now) }
    ensures { IfOk result (λ reply. reply ≡ answering.info_reply (info_of facts.now)) }
{
    let mut body = Vec::new(alloc);
    put_u64(&mut body, facts.process_id)?;
    body.extend_from_slice(&facts.cookie)?;
    put_counted(&mut body, facts.command_line.as_slice())?;
    put_counted(&mut body, facts.system.as_slice())?;
    put_counted(&mut body, facts.arch.as_slice())?;
    let mut reply = Vec::new(alloc);
    put_message(&mut reply, SERVER, OK, &body)?;
    Ok(Bytes::new(reply))
}
