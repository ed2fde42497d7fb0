//! Who comes in at the dock of a run, and who is found where a client calls.
use pt_io::{MemCaller, MemDock};
use pt_peers::{MOST, Peer, links_of};
use std::alloc::{AllocError, Global};

/// The peer `MOST` of whose link the first read fails; or the first write, the second one, the third one, which takes nothing; or
/// the third one, which takes five bytes.
pub(super) const MOST_UNHEARD: Peer = Peer {
    failing_read: 1,
    ..MOST
};

pub(super) const MOST_DEAF_1: Peer = Peer {
    failing_write: 1,
    ..MOST
};

pub(super) const MOST_DEAF_2: Peer = Peer {
    failing_write: 2,
    ..MOST
};

pub(super) const MOST_DEAF_3: Peer = Peer {
    failing_write: 3,
    ..MOST
};

pub(super) const MOST_DEAF_3_PART: Peer = Peer {
    failing_write: 3,
    keep: 5,
    ..MOST
};

/// What a program says of itself that has process id 1.
pub(super) const PROGRAM: Peer = Peer {
    bytes: b"DOTNET_IPC_V1\0\x4e\0\xff\0\0\0\x01\0\0\0\0\0\0\0\x00\x01\x02\x03\x04\x05\x06\x07\x08\x09\x0a\x0b\x0c\x0d\x0e\x0f\x01\0\0\0\0\0\x06\0\0\0l\0i\0n\0u\0x\0\0\0\x04\0\0\0x\x006\x004\0\0\0",
    failing_read: 0,
    failing_write: 0,
    keep: 0,
};

/// A dock to which these come. The turn with this number fails.
pub(super) fn dock_of(
    alloc: Global,
    peers: &[Peer],
    failing_turn: u64,
) -> Result<MemDock, AllocError> {
    let turns = [failing_turn].to_vec(alloc)?;
    Ok(MemDock::new(links_of(alloc, peers)?, 0, turns))
}

/// A caller that leads to these.
pub(super) fn caller_of(alloc: Global, peers: &[Peer]) -> Result<MemCaller, AllocError> {
    Ok(MemCaller::new(links_of(alloc, peers)?, Vec::new(alloc)))
}
