//! What a program without a command line says of itself, byte by byte and as its parts.

use ep_defs::Units;
use ipc_body::ProcessInfo;
use std::alloc::{AllocError, Global};

pub(crate) const PROGRAM: [u8; 78] =
    *b"DOTNET_IPC_V1\0\x4e\0\xff\0\0\0\x01\0\0\0\0\0\0\0\x00\x01\x02\x03\x04\x05\x06\x07\x08\x09\x0a\x0b\x0c\x0d\x0e\x0f\x01\0\0\0\0\0\x06\0\0\0l\0i\0n\0u\0x\0\0\0\x04\0\0\0x\06\04\0\0\0";

// The id of its process, its cookie, and three texts with a zero behind each: the empty command line, `linux` and `x64`.
pub(crate) const PARTS: [u64; 28] = [
    1, 0, 1, 2, 3, 4, 5, 6, 7, 8, 9, 10, 11, 12, 13, 14, 15, 0, 108, 105, 110, 117, 120, 0, 120,
    54, 52, 0,
];

fn push_text(parts: &mut Vec<u64>, text: &Units) -> Result<(), AllocError> {
    for unit in text.as_slice() {
        parts.push(u64::from(*unit))?;
    }
    parts.push(0)?;
    Ok(())
}

// The parts of what a program says, as those above.
pub(crate) fn parts_of(alloc: Global, info: &ProcessInfo) -> Result<Vec<u64>, AllocError> {
    let mut parts = Vec::new(alloc);
    parts.push(info.process_id)?;
    for byte in info.cookie {
        parts.push(u64::from(byte))?;
    }
    push_text(&mut parts, &info.command_line)?;
    push_text(&mut parts, &info.system)?;
    push_text(&mut parts, &info.arch)?;
    Ok(parts)
}
