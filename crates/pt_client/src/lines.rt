//! The lines that are printed, each with its line feed.
ghost use Rattle.std.specs.Prelude.{◌≡◌, IfOk};
ghost use Rattle.std.specs.String.{string_bytes};
ghost use Rattle.pt_client.specs.Lines.{stopped_line, process_line, peer_error, reply_error};

use ipc_body::ProcessInfo;
use pt_print::{put_end, put_number, put_text, put_units, put_word};
use std::alloc::{AllocError, Global};
use uuid::Uuid;

/// The line of a session that ends.
pub(crate) fn stopped_text(alloc: Global, id: u64) -> Result<Vec<u8>, AllocError>
    ensures { IfOk result (λ line. line.items ≡ stopped_line id) }
{
    let mut line = Vec::new(alloc);
    put_word(&mut line, "stopped")?;
    put_number(&mut line, id)?;
    put_end(&mut line)?;
    Ok(line)
}

/// The line of a program.
pub(crate) fn process_text(alloc: Global, info: &ProcessInfo) -> Result<Vec<u8>, AllocError>
    ensures { IfOk result (λ line. line.items ≡ process_line info.now) }
{
    let mut cookie = Uuid::encode_buffer();
    let cookie = Uuid::from_bytes(info.cookie)
        .hyphenated()
        .encode_lower(&mut cookie);
    let mut line = Vec::new(alloc);
    put_word(&mut line, "process")?;
    put_number(&mut line, info.process_id)?;
    put_text(&mut line, cookie.as_bytes())?;
    put_units(&mut line, info.command_line.as_slice())?;
    put_units(&mut line, info.system.as_slice())?;
    put_units(&mut line, info.arch.as_slice())?;
    put_end(&mut line)?;
    Ok(line)
}

/// The line of a peer's error.
pub(crate) fn peer_error_text(alloc: Global, code: u32) -> Result<String, AllocError>
    ensures { IfOk result (λ text. string_bytes text ≡ peer_error code) }
{
    let digits = hex::encode(alloc, code.to_be_bytes())?;
    format!(in alloc; "error: peer {digits}\n")
}

/// The line of a reply that is none.
pub(crate) fn reply_error_text(alloc: Global, at: u64) -> Result<String, AllocError>
    ensures { IfOk result (λ text. string_bytes text ≡ reply_error at) }
{
    format!(in alloc; "error: reply at {at}\n")
}
