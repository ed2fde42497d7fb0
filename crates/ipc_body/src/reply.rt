//! Replies as a client reads them.

ghost use Rattle.std.specs.Prelude.{◌≡◌, ◌≤◌, ◌<◌, length, IfOk, MatchOption, slice_range, Bool, true, false};
ghost use Rattle.ipc_body.specs.declared.reply.ReplyFault.TheVariants as fault;
ghost use Rattle.ipc_frame.specs.Message as messages;
ghost use Rattle.ipc_body.specs.Reply.{Replies, IsReplyTo, reply_of, header_of, whole_body, body_at, error_at, session_at, info_at, text_at};

use crate::commands::{ERROR, OK, SERVER};
use crate::limits::COOKIE_BYTES;
use ep_defs::{Units, units_of};
use ipc_frame::limits::{COMMAND_AT, HEADER_BYTES, MAGIC, SET_AT, SIZE_AT};
use ipc_frame::size_in;
use pt_num::{TakenText, take_counted, take_u32, take_u64};
use std::alloc::{AllocError, Global};

// The offset of the cookie in what a program says of itself.
const COOKIE_AT: usize = HEADER_BYTES + 8;

// The offset of its texts.
const TEXTS_AT: usize = COOKIE_AT + COOKIE_BYTES;

/// What a traced program says of itself.
#[derive(Debug, PartialEq, Eq, Drop)]
pub struct ProcessInfo {
    pub process_id: u64,
    /// It tells one run of the program from another.
    pub cookie: [u8; COOKIE_BYTES],
    pub command_line: Units,
    /// The operating system's name.
    pub system: Units,
    /// The processor's architecture.
    pub arch: Units,
}

/// What a traced program answers.
#[derive(Debug, PartialEq, Eq, Drop)]
pub enum Reply {
    /// The session of this id was begun, or is to end.
    Session { id: u64 },
    /// What it says of itself.
    Info(ProcessInfo),
    /// The request is refused, with a code of the protocol or of the runtime.
    Error { code: u32 },
}

/// Why bytes are no reply.
#[derive(Clone, Copy, Debug, PartialEq, Eq)]
pub enum ReplyFault {
    /// The offset of the first field that is wrong; where bytes are missing, how many are there.
    Bad { at: u64 },
    OutOfMemory,
}

impl From<AllocError> for ReplyFault {
    ghost from_gives = { λ _ given. given ≡ fault.OutOfMemory };

    fn from(_error: AllocError) -> ReplyFault {
        ReplyFault::OutOfMemory
    }
}

/// The reply that these bytes are, to a request for the program's description or to another request.
///
/// The bytes are all that came before the link ended, but at most as many as the reply's own size says.
#[tactic(auto, unfolding(crate::specs::Reply::reply_of))]
pub fn read_reply(alloc: Global, bytes: &[u8], wants_info: bool) -> Result<Reply, ReplyFault>
    ensures exact { Replies (reply_of wants_info bytes.now) result }
    ensures kind { IfOk result (IsReplyTo wants_info) }
    ensures whole { IfOk result (λ _. length bytes.now ≡ messages.size_in bytes.now) }
{
    match judge_header(bytes) {
        Ok(()) => read_whole_body(alloc, bytes, wants_info),
        Err(at) => Err(bad(at)),
    }
}

fn bad(at: usize) -> ReplyFault
    ensures { result ≡ fault.Bad at }
{
    ReplyFault::Bad { at: at as u64 }
}

// The offset of the header's first wrong field.
fn judge_header(bytes: &[u8]) -> Result<(), usize>
    ensures exact { result ≡ header_of bytes.now }
    ensures long { IfOk result (λ _. HEADER_BYTES ≤ length bytes.now) }
    ensures sized { IfOk result (λ _. length bytes.now ≤ messages.size_in bytes.now) }
{
    let there = bytes.len();
    if there < SIZE_AT {
        return Err(there);
    }
    if !bytes.starts_with(&MAGIC) {
        return Err(0);
    }
    if there < SET_AT {
        return Err(there);
    }
    let size = usize::from(size_in(bytes));
    if size < HEADER_BYTES || size < there {
        return Err(SIZE_AT);
    }
    if there < SET_AT + 1 {
        return Err(there);
    }
    if bytes[SET_AT] != SERVER {
        return Err(SET_AT);
    }
    if there < COMMAND_AT + 1 {
        return Err(there);
    }
    if bytes[COMMAND_AT] != OK && bytes[COMMAND_AT] != ERROR {
        return Err(COMMAND_AT);
    }
    if there < HEADER_BYTES {
        return Err(there);
    }
    Ok(())
}

// The body, which ends where the size says.
fn read_whole_body(alloc: Global, bytes: &[u8], wants_info: bool) -> Result<Reply, ReplyFault>
    requires long { HEADER_BYTES ≤ length bytes.now }
    requires sized { length bytes.now ≤ messages.size_in bytes.now }
    ensures exact { Replies (whole_body wants_info bytes.now) result }
    ensures kind { IfOk result (IsReplyTo wants_info) }
    ensures whole { IfOk result (λ _. length bytes.now ≡ messages.size_in bytes.now) }
{
    match read_body(alloc, bytes, wants_info) {
        Ok((reply, end)) => {
            if end != usize::from(size_in(bytes)) {
                return Err(bad(end));
            }
            Ok(reply)
        }
        Err(fault) => Err(fault),
    }
}

// The body, and the offset after it.
fn read_body(alloc: Global, bytes: &[u8], wants_info: bool) -> Result<(Reply, usize), ReplyFault>
    requires { HEADER_BYTES ≤ length bytes.now }
    ensures exact { Replies (body_at wants_info bytes.now) result }
    ensures kind { IfOk result (λ body. IsReplyTo wants_info body.0) }
    ensures within { IfOk result (λ body. body.1 ≤ length bytes.now) }
{
    if bytes[COMMAND_AT] == ERROR {
        read_error(bytes)
    } else if wants_info {
        read_info(alloc, bytes)
    } else {
        read_session(bytes)
    }
}

fn read_error(bytes: &[u8]) -> Result<(Reply, usize), ReplyFault>
    requires { HEADER_BYTES ≤ length bytes.now }
    ensures exact { Replies (error_at bytes.now) result }
    ensures kind { IfOk result (λ body. (wants_info : Bool) → IsReplyTo wants_info body.0) }
    ensures within { IfOk result (λ body. body.1 ≤ length bytes.now) }
{
    match take_u32(&bytes[HEADER_BYTES..]) {
        Some(code) => Ok((Reply::Error { code }, HEADER_BYTES + 4)),
        None => Err(bad(bytes.len())),
    }
}

fn read_session(bytes: &[u8]) -> Result<(Reply, usize), ReplyFault>
    requires { HEADER_BYTES ≤ length bytes.now }
    ensures exact { Replies (session_at bytes.now) result }
    ensures kind { IfOk result (λ body. IsReplyTo false body.0) }
    ensures within { IfOk result (λ body. body.1 ≤ length bytes.now) }
{
    match take_u64(&bytes[HEADER_BYTES..]) {
        Some(id) => Ok((Reply::Session { id }, COOKIE_AT)),
        None => Err(bad(bytes.len())),
    }
}

fn read_info(alloc: Global, bytes: &[u8]) -> Result<(Reply, usize), ReplyFault>
    requires { HEADER_BYTES ≤ length bytes.now }
    ensures exact { Replies (info_at bytes.now) result }
    ensures kind { IfOk result (λ body. IsReplyTo true body.0) }
    ensures within { IfOk result (λ body. body.1 ≤ length bytes.now) }
{
    let Some(process_id) = take_u64(&bytes[HEADER_BYTES..]) else {
        return Err(bad(bytes.len()));
    };
    let Some(cookie) = take_cookie(bytes) else {
        return Err(bad(bytes.len()));
    };
    let (command_line, at) = match read_text(alloc, bytes, TEXTS_AT) {
        Ok(text) => text,
        Err(fault) => return Err(fault),
    };
    let (system, at) = match read_text(alloc, bytes, at) {
        Ok(text) => text,
        Err(fault) => return Err(fault),
    };
    let (arch, at) = match read_text(alloc, bytes, at) {
        Ok(text) => text,
        Err(fault) => return Err(fault),
    };
    let info = ProcessInfo {
        process_id,
        cookie,
        command_line,
        system,
        arch,
    };
    Ok((Reply::Info(info), at))
}

// The runtime cookie, if all of it is there.
fn take_cookie(bytes: &[u8]) -> Option<[u8; COOKIE_BYTES]>
    ensures { MatchOption result (length bytes.now < TEXTS_AT) (λ cookie. (TEXTS_AT ≤ length bytes.now)
        × (cookie ≡ slice_range bytes.now COOKIE_AT TEXTS_AT)) }
{
    if bytes.len() < TEXTS_AT {
        return None;
    }
    let mut cookie = [0; COOKIE_BYTES];
    cookie.copy_from_slice(&bytes[COOKIE_AT..TEXTS_AT]);
    Some(cookie)
}

// The text at this offset, and the offset after it.
fn read_text(alloc: Global, bytes: &[u8], at: usize) -> Result<(Units, usize), ReplyFault>
    requires { at ≤ length bytes.now }
    ensures exact { Replies (text_at bytes.now at) result }
    ensures within { IfOk result (λ text. text.1 ≤ length bytes.now) }
{
    match take_counted(&bytes[at..]) {
        TakenText::Units { count, used } => {
            let text = units_of(alloc, &bytes[at + 4..at + 4 + 2 * count])?;
            Ok((text, at + used))
        }
        TakenText::Short => Err(bad(bytes.len())),
        TakenText::NoZero => Err(bad(at)),
    }
}
