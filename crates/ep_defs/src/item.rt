//! What a NetTrace stream holds, item by item.
use crate::event::EventDef;
use crate::list::{Bytes, Items};
use crate::session::TraceInfo;

/// Threads with their last numbers.
pub type ThreadNumbers = Items<(u64, u32)>;

/// One thing that a NetTrace stream holds, and where.
#[derive(Debug, PartialEq, Eq, Drop)]
pub struct Item {
    /// The offset of its first byte in the stream.
    pub at: u64,
    pub kind: ItemKind,
}

#[derive(Debug, PartialEq, Eq, Drop)]
pub enum ItemKind {
    Trace {
        info: TraceInfo,
    },
    Meta {
        id: u32,
        def: EventDef,
    },
    Stack {
        id: u32,
        bytes: Bytes,
    },
    Event {
        metadata: u32,
        number: u32,
        capture: u64,
        processor: u32,
        thread: u64,
        stack: u32,
        stamp: u64,
        activity: [u8; 16],
        related: [u8; 16],
        payload: Bytes,
    },
    Point {
        stamp: u64,
        threads: ThreadNumbers,
    },
}
