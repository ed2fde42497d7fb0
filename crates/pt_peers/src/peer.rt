//! What a peer sends.
ghost use Rattle.std.specs.Prelude.{IfOk};
ghost use Rattle.std.specs.List.{All};
ghost use Rattle.pt_io.specs.Memory.{IsUnused};

use pt_io::{MemLink, MemSink, MemSource};
use std::alloc::{AllocError, Global};
use std::collections::VecDeque;

/// The most bytes that a link gives at once.
const PIECE_BYTES: usize = 4_096;

/// What a peer's link gives, the numbers of its read and its write that fail, or 0, and how many bytes that write takes.
#[derive(Clone, Copy, Debug)]
pub struct Peer {
    pub bytes: &'static [u8],
    pub failing_read: u64,
    pub failing_write: u64,
    pub keep: usize,
}

/// CollectTracing2 for 256 megabytes and a rundown, with three providers: Sample-Web with all keywords and level 5,
/// Sample-Store with keyword 1 and level 4, and one that is not there. It gets every second write of a thread.
pub const MOST: Peer = Peer {
    bytes: b"DOTNET_IPC_V1\0\xaf\0\x02\x03\0\0\0\x01\0\0\x01\0\0\0\x01\x03\0\0\0\xff\xff\xff\xff\xff\xff\xff\xff\x05\0\0\0\x0b\0\0\0S\0a\0m\0p\0l\0e\0-\0W\0e\0b\0\0\0\0\0\0\0\x01\0\0\0\0\0\0\0\x04\0\0\0\x0d\0\0\0S\0a\0m\0p\0l\0e\0-\0S\0t\0o\0r\0e\0\0\0\0\0\0\0\xff\xff\xff\xff\xff\xff\xff\xff\x05\0\0\0\x11\0\0\0U\0n\0k\0n\0o\0w\0n\0-\0P\0r\0o\0v\0i\0d\0e\0r\0\0\0\0\0\0\0",
    failing_read: 0,
    failing_write: 0,
    keep: 0,
};

/// CollectTracing2 for one megabyte and no rundown, with Sample-Jobs, keywords 4 and level 3: every eighth write.
pub const JOBS: Peer = Peer {
    bytes: b"DOTNET_IPC_V1\0\x4d\0\x02\x03\0\0\x01\0\0\0\x01\0\0\0\0\x01\0\0\0\x04\0\0\0\0\0\0\0\x03\0\0\0\x0c\0\0\0S\0a\0m\0p\0l\0e\0-\0J\0o\0b\0s\0\0\0\0\0\0\0",
    failing_read: 0,
    failing_write: 0,
    keep: 0,
};

/// ProcessInfo.
pub const INFO: Peer = Peer {
    bytes: b"DOTNET_IPC_V1\0\x14\0\x04\0\0\0",
    failing_read: 0,
    failing_write: 0,
    keep: 0,
};

fn link_of(alloc: Global, peer: &Peer) -> Result<MemLink, AllocError>
    ensures { IfOk result IsUnused }
{
    let bytes = peer.bytes.to_vec(alloc)?;
    let source = MemSource::new(bytes, PIECE_BYTES, [peer.failing_read].to_vec(alloc)?);
    let sink = MemSink::partial([peer.failing_write].to_vec(alloc)?, peer.keep);
    Ok(MemLink::new(source, sink))
}

/// The links of these peers, in their order.
pub fn links_of(alloc: Global, peers: &[Peer]) -> Result<VecDeque<MemLink>, AllocError>
    ensures { IfOk result (λ links. All IsUnused links.items) }
{
    let mut links = VecDeque::new(alloc);
    for peer in peers {
        links.push_back(link_of(alloc, peer)?)?;
    }
    Ok(links)
}
