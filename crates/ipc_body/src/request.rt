//! Requests as the traced program reads them.

ghost use Rattle.std.specs.Prelude.{◌≡◌, ◌≢◌, ◌≤◌, Ok, Err, length, drop, IfOk, IsTrue};
ghost use Rattle.ipc_body.specs.declared.request.RequestFault.TheVariants.{BadEncoding, UnknownCommand, OutOfMemory};
ghost use Rattle.ipc_body.specs.declared.commands.TheConstants.{EVENT_PIPE};
ghost use Rattle.ipc_body.specs.Read.{AnswersWanted, Reads, ReadsAt};
ghost use Rattle.ipc_body.specs.Request as asked;
ghost use Rattle.ipc_body.specs.Request.{request_of, is_collect, is_valid_request};

use crate::commands::{
    COLLECT_TRACING, COLLECT_TRACING2, COLLECT_TRACING3, EVENT_PIPE, NETTRACE, PROCESS,
    PROCESS_INFO, STOP_TRACING,
};
use crate::limits::{MEGABYTE_CHUNKS, MEGABYTES};
use crate::providers::read_providers;
use ep_defs::Config;
use ep_defs::limits::RULES;
use pt_num::{take_u32, take_u64};
use std::alloc::{AllocError, AllocFailed, Global};

/// What a client asks the traced program for.
#[derive(Debug, PartialEq, Eq, Drop)]
pub enum Request {
    /// A session; its configuration is valid.
    Collect { config: Config },
    /// The end of the session of this id.
    Stop { id: u64 },
    /// What the program says of itself.
    Info,
}

/// Why a request is refused.
#[derive(Clone, Copy, Debug, PartialEq, Eq)]
pub enum RequestFault {
    /// The body is not one of this command.
    BadEncoding,
    /// No request has this command set and command.
    UnknownCommand,
    OutOfMemory,
}

impl From<AllocError> for RequestFault {
    ghost from_gives = { λ _ fault. fault ≡ OutOfMemory };

    fn from(_error: AllocError) -> RequestFault {
        RequestFault::OutOfMemory
    }
}

impl<T: Drop> From<AllocFailed<T>> for RequestFault {
    ghost from_gives = { λ _ fault. fault ≡ OutOfMemory };

    fn from(_error: AllocFailed<T>) -> RequestFault {
        RequestFault::OutOfMemory
    }
}

// What stands in the body of a request for a session before its providers.
#[derive(Clone, Copy)]
struct Wish {
    megabytes: u32,
    format: u32,
    rundown: bool,
    stackwalk: bool,
    count: u32,
}

/// The request that this command of this set makes, with this body.
///
/// A body is read in time that grows with its length alone, whatever counts it claims. Only a request for a session
/// takes memory.
pub fn read_request(
    alloc: Global,
    set: u8,
    command: u8,
    body: &[u8],
) -> Result<Request, RequestFault>
    ensures exact { AnswersWanted (request_of set command body.now) result }
    ensures valid { IfOk result (λ request. IsTrue (is_valid_request request)) }
    ensures memory { result ≡ Err OutOfMemory → IsTrue (is_collect set command) }
{
    if set == EVENT_PIPE {
        read_event_pipe(alloc, command, body)
    } else if set == PROCESS && command == PROCESS_INFO {
        read_info(body)
    } else {
        Err(RequestFault::UnknownCommand)
    }
}

fn read_event_pipe(alloc: Global, command: u8, body: &[u8]) -> Result<Request, RequestFault>
    ensures exact { AnswersWanted (asked.event_pipe_of command body.now) result }
    ensures valid { IfOk result (λ request. IsTrue (is_valid_request request)) }
    ensures memory { result ≡ Err OutOfMemory → IsTrue (is_collect EVENT_PIPE command) }
{
    if command == STOP_TRACING {
        read_stop(body)
    } else if command == COLLECT_TRACING {
        read_collect(alloc, body, false, false)
    } else if command == COLLECT_TRACING2 {
        read_collect(alloc, body, true, false)
    } else if command == COLLECT_TRACING3 {
        read_collect(alloc, body, true, true)
    } else {
        Err(RequestFault::UnknownCommand)
    }
}

fn read_info(body: &[u8]) -> Result<Request, RequestFault>
    ensures exact { result ≡ asked.info_of body.now }
    ensures valid { IfOk result (λ request. IsTrue (is_valid_request request)) }
    ensures known { result ≢ Err OutOfMemory }
{
    if !body.is_empty() {
        return Err(RequestFault::BadEncoding);
    }
    Ok(Request::Info)
}

fn read_stop(body: &[u8]) -> Result<Request, RequestFault>
    ensures exact { result ≡ asked.stop_of body.now }
    ensures valid { IfOk result (λ request. IsTrue (is_valid_request request)) }
    ensures known { result ≢ Err OutOfMemory }
{
    match take_u64(body) {
        Some(id) if body.len() == 8 => Ok(Request::Stop { id }),
        _ => Err(RequestFault::BadEncoding),
    }
}

// The command has the flag rundown, and the flag stackwalk, or lacks it.
fn read_collect(
    alloc: Global,
    body: &[u8],
    has_rundown: bool,
    has_stackwalk: bool,
) -> Result<Request, RequestFault>
    ensures exact { AnswersWanted (asked.collect_of has_rundown has_stackwalk body.now) result }
    ensures valid { IfOk result (λ request. IsTrue (is_valid_request request)) }
{
    let Some((wish, used)) = take_wish(body, has_rundown, has_stackwalk) else {
        return Err(RequestFault::BadEncoding);
    };
    if !can_grant(&wish) {
        return Err(RequestFault::BadEncoding);
    }
    let rules = read_providers(alloc, &body[used..], wish.count)?;
    Ok(Request::Collect {
        config: Config {
            rules,
            chunks: wish.megabytes.min(MEGABYTES) * MEGABYTE_CHUNKS,
            stackwalk: wish.stackwalk,
            rundown: wish.rundown,
        },
    })
}

fn take_wish(body: &[u8], has_rundown: bool, has_stackwalk: bool) -> Option<(Wish, usize)>
    ensures { Reads (asked.wish_at has_rundown has_stackwalk body.now) body.now result }
{
    let megabytes = take_u32(body)?;
    let format = take_u32(&body[4..])?;
    let (rundown, at) = take_flag(body, 8, has_rundown)?;
    let (stackwalk, at) = take_flag(body, at, has_stackwalk)?;
    let count = take_u32(&body[at..])?;
    let wish = Wish {
        megabytes,
        format,
        rundown,
        stackwalk,
        count,
    };
    Some((wish, at + 4))
}

// The flag that stands at this offset, where the command has it, and the offset after it.
fn take_flag(body: &[u8], at: usize, there: bool) -> Option<(bool, usize)>
    requires { at ≤ length body.now }
    ensures { ReadsAt (asked.flag_at there (drop at body.now)) body.now result }
{
    if !there {
        return Some((true, at));
    }
    let flag = body.get(at)?;
    Some((*flag != 0, at + 1))
}

fn can_grant(wish: &Wish) -> bool
    ensures { result ≡ asked.can_grant wish.now }
{
    wish.megabytes > 0 && wish.format == NETTRACE && (1..=RULES as u32).contains(&wish.count)
}
