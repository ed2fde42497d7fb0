//! Ids and payloads.
ghost use Rattle.std.specs.Prelude.{◌≡◌, ◌++◌, IfOk, OnOk};
ghost use Rattle.hex.specs.Hex.{encode_lower};
ghost use Rattle.ep_plan.specs.Words.{id_in, id_text, payload_in, payload_text};

use ep_defs::{Bytes, Items};
use hex::{FromHex, FromHexError};
use std::alloc::{AllocError, Global};

/// An id of 16 bytes: 32 hexadecimal digits, or `-` for 16 bytes of 0.
pub(crate) fn id(word: &[u8]) -> Option<[u8; 16]>
    ensures { result ≡ id_in word.now }
{
    if word == b"-".as_slice() {
        return Some([0; 16]);
    }
    <[u8; 16] as FromHex>::from_hex(word).ok()
}

/// Bytes of two hexadecimal digits each, or `-` for none. No digits at all are no payload.
pub(crate) fn payload(alloc: Global, word: &[u8]) -> Result<Option<Bytes>, AllocError>
    ensures { IfOk result (λ payload. payload ≡ payload_in word.now) }
{
    if word == b"-".as_slice() {
        return Ok(Some(Items::new(Vec::new(alloc))));
    }
    if word.is_empty() {
        return Ok(None);
    }
    match hex::decode(alloc, word) {
        Ok(bytes) => Ok(Some(Items::new(bytes))),
        Err(error) => match error {
            FromHexError::OutOfMemory => Err(AllocError),
            _ => Ok(None),
        },
    }
}

/// Appends an id: `-` for 16 bytes of 0, else 32 hexadecimal digits in lower case.
pub(crate) fn put_id(out: &mut Vec<u8>, id: &[u8; 16]) -> Result<(), AllocError>
    ensures { OnOk result (out.new.items ≡ out.old.items ++ id_text id.now) }
{
    if id.iter().all(|byte| *byte == 0) {
        return out.extend_from_slice(b"-");
    }
    put_bytes(out, id)
}

/// Appends a payload: `-` for none, else two hexadecimal digits for each byte, in lower case.
pub(crate) fn put_payload(out: &mut Vec<u8>, payload: &[u8]) -> Result<(), AllocError>
    ensures { OnOk result (out.new.items ≡ out.old.items ++ payload_text payload.now) }
{
    if payload.is_empty() {
        return out.extend_from_slice(b"-");
    }
    put_bytes(out, payload)
}

// Appends two hexadecimal digits for each byte.
fn put_bytes(out: &mut Vec<u8>, bytes: &[u8]) -> Result<(), AllocError>
    ensures { OnOk result (out.new.items ≡ out.old.items ++ encode_lower bytes.now) }
{
    let text = hex::encode(*out.allocator(), bytes)?;
    out.extend_from_slice(text.as_bytes())
}
