//! Requests that are none, each of which changes nothing.

use super::{COLLECT, Told, serve, sound_peer};
use ep_journal::Decision;
use ipc_serve::codes::{BAD_ENCODING, UNKNOWN_COMMAND, UNKNOWN_MAGIC};
use pt_server::ConnAnswer;
use std::alloc::{AllocError, Global};
use std::test::Fail;

// ProcessInfo with a byte behind its end.
const LONG_INFO: [u8; 21] = *b"DOTNET_IPC_V1\0\x15\0\x04\0\0\0\0";

// The code with which the one connection was refused, where nothing was decided on it and its peer got 24 bytes.
fn code_of(told: &Told) -> Option<u32> {
    if told.held != 0 || told.decisions.as_slice() != [Decision::Nothing].as_slice() {
        return None;
    }
    match told.ends.as_slice() {
        [(_, ConnAnswer::Error { code }, reply)] if reply.len() == 24 => Some(*code),
        _ => None,
    }
}

// The codes with which these bytes are refused, in one read and in reads of one byte.
fn codes(alloc: Global, bytes: &[u8]) -> Result<[Option<u32>; 2], AllocError> {
    let mut codes = [None; 2];
    for (code, most) in codes.iter_mut().zip([4_096, 1]) {
        *code = code_of(&serve(alloc, &[sound_peer(bytes, most)])?);
    }
    Ok(codes)
}

// CollectTracing2 with other bytes at a place, and with these behind its end.
fn changed(
    alloc: Global,
    place: usize,
    bytes: &[u8],
    more: &[u8],
) -> Result<[Option<u32>; 2], AllocError> {
    let mut request = COLLECT;
    for (there, byte) in request.iter_mut().skip(place).zip(bytes) {
        *there = *byte;
    }
    let mut request = request.to_vec(alloc)?;
    request.extend_from_slice(more)?;
    codes(alloc, &request)
}

#[test]
fn a_request_that_is_cut_is_badly_encoded(rt: HostRuntime) -> Result<(), Fail> {
    for there in 0..175usize {
        assert_eq!(rt;
            codes(rt.alloc(), &COLLECT[..there])?,
            [Some(BAD_ENCODING); 2]
        );
    }
    Ok(())
}

#[test]
fn each_finding_has_its_code(rt: HostRuntime) -> Result<(), Fail> {
    // Offset, bytes, bytes behind the end, and the code of: another magic, a size of 19, one of 0, one that is a byte short
    // and one that is a byte long, the set 9, the budget 0, the format 0, no provider, 2^30 providers, 2^32 - 1 of them, an
    // empty name, a name without its zero, names of 2^30 and 2^32 - 1 units, and a byte too many that the size counts.
    let findings: [(usize, &[u8], &[u8], u32); 16] = [
        (0, &[0], b"", UNKNOWN_MAGIC),
        (14, &[19, 0], b"", BAD_ENCODING),
        (14, &[0, 0], b"", BAD_ENCODING),
        (14, &[174, 0], b"", BAD_ENCODING),
        (14, &[176, 0], b"", BAD_ENCODING),
        (16, &[9], b"", UNKNOWN_COMMAND),
        (20, &[0, 0, 0, 0], b"", BAD_ENCODING),
        (24, &[0], b"", BAD_ENCODING),
        (29, &[0], b"", BAD_ENCODING),
        (29, &[0, 0, 0, 64], b"", BAD_ENCODING),
        (29, &[255, 255, 255, 255], b"", BAD_ENCODING),
        (45, &[0], b"", BAD_ENCODING),
        (69, &[1], b"", BAD_ENCODING),
        (45, &[0, 0, 0, 64], b"", BAD_ENCODING),
        (45, &[255, 255, 255, 255], b"", BAD_ENCODING),
        (14, &[176, 0], &[0], BAD_ENCODING),
    ];
    for (place, bytes, more, want) in findings {
        assert_eq!(rt; changed(rt.alloc(), place, bytes, more)?, [Some(want); 2]);
    }
    Ok(())
}

#[test]
fn a_byte_too_many_is_badly_encoded(rt: HostRuntime) -> Result<(), Fail> {
    assert_eq!(rt; codes(rt.alloc(), &LONG_INFO)?, [Some(BAD_ENCODING); 2]);
    Ok(())
}
