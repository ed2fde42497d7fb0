//! Who comes in beside the peers of `pt_peers`, and whose links fail.
use pt_peers::Peer;

/// CollectTracing2 for one megabyte and no rundown, with all keywords and levels of the provider Sample-Web: three of eight
/// writes of a thread.
pub(super) const WEB: Peer = Peer {
    bytes: b"DOTNET_IPC_V1\0\x4b\0\x02\x03\0\0\x01\0\0\0\x01\0\0\0\0\x01\0\0\0\xff\xff\xff\xff\xff\xff\xff\xff\x05\0\0\0\x0b\0\0\0S\0a\0m\0p\0l\0e\0-\0W\0e\0b\0\0\0\0\0\0\0",
    failing_read: 0,
    failing_write: 0,
    keep: 0,
};

/// StopTracing of the session with id 1.
pub(super) const STOP: Peer = Peer {
    bytes: b"DOTNET_IPC_V1\0\x1c\0\x02\x01\0\0\x01\0\0\0\0\0\0\0",
    failing_read: 0,
    failing_write: 0,
    keep: 0,
};

/// The peer, of whose link this read fails.
pub(super) fn unheard(peer: Peer, failing_read: u64) -> Peer {
    Peer {
        failing_read,
        ..peer
    }
}

/// The peer, of whose link this write fails, which takes so many bytes.
pub(super) fn deaf(peer: Peer, failing_write: u64, keep: usize) -> Peer {
    Peer {
        failing_write,
        keep,
        ..peer
    }
}
