//! Messages as bytes, both ways.

ghost use Rattle.std.specs.Prelude.{◌≡◌, ◌+◌, ◌≤◌, ◌++◌, ◌↔◌, length, take, drop, OnOk, OnErr};
ghost use Rattle.std.specs.Int.{w16};
ghost use Rattle.ipc_frame.specs.declared.limits.TheConstants.{HEADER_BYTES, MESSAGE_BYTES, SET_AT, SIZE_AT};
ghost use Rattle.pt_num.specs.Numbers.{fixed};
ghost use Rattle.ipc_frame.specs.Message.{Message, message, found, IsFound, IfMessage, IsMessage, IsReadBack};
ghost use Rattle.ipc_frame.specs.Message as messages;

use crate::limits::{COMMAND_AT, HEADER_BYTES, MAGIC, MESSAGE_BYTES, SET_AT, SIZE_AT};
use byteorder::{ByteOrder, LittleEndian};
use pt_num::take_u16;
use std::alloc::AllocError;

/// What the first bytes of a connection are.
#[derive(Clone, Copy, Debug, PartialEq, Eq)]
pub enum Framed<'a> {
    /// A whole message, and the number of its bytes.
    Message {
        set: u8,
        command: u8,
        body: &'a [u8],
        used: usize,
    },
    /// This many bytes more are needed: first for the header, then for the whole message.
    Need(usize),
    /// The first 14 bytes are others than the magic.
    BadMagic,
    /// The size counts fewer bytes than the header has.
    BadSize(u16),
}

/// What these bytes begin with. Bytes that follow a message are not looked at.
///
/// The reserved bytes of the header may be any.
pub fn take_message(bytes: &[u8]) -> Framed<'_>
    ensures found { IsFound bytes.now result }
    ensures message { IfMessage result (λ set command body used. IsMessage set command body (take used bytes.now)) }
{
    if !has_magic(bytes) {
        return Framed::BadMagic;
    }
    if bytes.len() < SET_AT {
        return Framed::Need(HEADER_BYTES - bytes.len());
    }
    let size = size_in(bytes);
    let used = usize::from(size);
    if used < HEADER_BYTES {
        return Framed::BadSize(size);
    }
    if bytes.len() < HEADER_BYTES {
        return Framed::Need(HEADER_BYTES - bytes.len());
    }
    if bytes.len() < used {
        return Framed::Need(used - bytes.len());
    }
    Framed::Message {
        set: bytes[SET_AT],
        command: bytes[COMMAND_AT],
        body: &bytes[HEADER_BYTES..used],
        used,
    }
}

/// The header of a message of this set and command that has this many bytes, the header among them.
pub fn header(set: u8, command: u8, size: u16) -> [u8; HEADER_BYTES]
    ensures { result ≡ messages.header set command size }
{
    let mut header = [0; HEADER_BYTES];
    header[..SIZE_AT].copy_from_slice(&MAGIC);
    LittleEndian::write_u16(&mut header[SIZE_AT..], size);
    header[SET_AT] = set;
    header[COMMAND_AT] = command;
    header
}

/// Appends a message of this set and command, with this body.
#[tactic(auto, using(crate::proofs::Back::read_back))]
pub fn put_message(out: &mut Vec<u8>, set: u8, command: u8, body: &[u8]) -> Result<(), AllocError>
    requires { HEADER_BYTES + length body.now ≤ MESSAGE_BYTES }
    ensures ok { OnOk result (out.new.items ≡ out.old.items ++ message set command body.now) }
    ensures back { IsReadBack set command body.now }
    ensures err { OnErr result (out.new.items ≡ out.old.items) }
{
    let size = HEADER_BYTES + body.len();
    out.reserve(size)?;
    out.extend_from_slice(&header(set, command, size as u16))?;
    out.extend_from_slice(body)
}

/// Whether the bytes begin with the magic, as far as it is judged: only once all of it is there.
pub fn has_magic(bytes: &[u8]) -> bool
    ensures { result ≡ messages.has_magic bytes.now }
{
    bytes.len() < MAGIC.len() || bytes.starts_with(&MAGIC)
}

/// The size of the whole message that its header says, once the bytes of the size are there.
pub fn size_in(bytes: &[u8]) -> u16
    requires { SET_AT ≤ length bytes.now }
    ensures value { result ≡ messages.size_in bytes.now }
    ensures form { fixed w16 result ≡ take 2 (drop SIZE_AT bytes.now) }
{
    match take_u16(&bytes[SIZE_AT..]) {
        Some(size) => size,
        None => unreachable!(),
    }
}
