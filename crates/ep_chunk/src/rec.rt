//! A record on its way into a chunk, and out of one.

/// A record that is to be appended.
#[derive(Clone, Copy, Debug)]
pub struct RecIn<'a> {
    /// The number of the event's definition, from 1.
    pub event: u32,
    /// The write's number among those of its thread that the session admits, from 1.
    pub number: u32,
    pub thread: u64,
    /// In nanoseconds.
    pub stamp: u64,
    pub activity: [u8; 16],
    pub related: [u8; 16],
    /// Return addresses of the stack, the innermost first.
    pub frames: &'a [u64],
    pub payload: &'a [u8],
}

/// A record as it stands in a chunk.
#[derive(Clone, Copy, Debug)]
pub struct RecOut<'a> {
    /// The number of the event's definition, from 1.
    pub event: u32,
    /// The write's number among those of its thread that the session admits, from 1.
    pub number: u32,
    pub thread: u64,
    /// In nanoseconds.
    pub stamp: u64,
    pub activity: [u8; 16],
    pub related: [u8; 16],
    /// The chunk's own bytes of the frames: eight bytes a frame, the low byte first.
    pub frames: &'a [u8],
    /// The chunk's own bytes of the payload.
    pub payload: &'a [u8],
    /// The place of the record after this one, in bytes from the chunk's start.
    pub next: usize,
}
