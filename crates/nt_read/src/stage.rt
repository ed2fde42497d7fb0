//! Where a reader stands in a stream: which unit is the next one.
ghost use Rattle.std.specs.Prelude.{◌≡◌, ◌≢◌, true, false};
ghost use Rattle.nt_read.specs.Stages.{needs};

use crate::limits::{BEGUN_BYTES, INFO_BYTES, SIZE_BYTES, TAG_BYTES};
use nt_object::limits::HEAD_BYTES;
use nt_object::{BlockKind, padding};

/// A field that holds a version: its offset in the stream, and its value.
#[derive(Clone, Copy, Debug, PartialEq, Eq)]
pub struct Version {
    pub at: u64,
    pub number: u32,
}

/// The next unit. A unit is judged when all its bytes are there.
#[derive(Clone, Copy, Debug, PartialEq, Eq)]
pub enum Stage {
    /// The stream's head.
    Head,
    /// A tag that begins an object or ends the stream, which it may once a Trace object was read.
    Tag {
        has_trace: bool,
    },
    /// What an object begins with after that tag.
    Begun {
        has_trace: bool,
    },
    /// The name of the object's type, of this many bytes, and the tag after it.
    Name {
        has_trace: bool,
        len: u32,
        version: Version,
        least: Version,
    },
    /// The payload of a Trace object.
    Trace,
    /// The size of a block's body.
    Size {
        kind: BlockKind,
    },
    /// What brings a body of this size to an offset that 4 divides.
    Padding {
        kind: BlockKind,
        size: u32,
    },
    Body {
        kind: BlockKind,
        size: u32,
    },
    /// The tag that ends an object.
    Close,
    /// The stream has ended. Any byte is one too many.
    Ended,
}

impl Stage {
    ghost use Rattle.nt_read.specs.declared.stage.Stage.TheVariants.{Close};

    /// How many bytes the unit has that begins at this offset of the stream.
    pub fn needs(self, at: u64) -> usize
        ensures { result ≡ needs self at }
    {
        match self {
            Stage::Head => HEAD_BYTES,
            Stage::Tag { .. } | Stage::Close | Stage::Ended => TAG_BYTES,
            Stage::Begun { .. } => BEGUN_BYTES,
            Stage::Name { len, .. } => len as usize + TAG_BYTES,
            Stage::Trace => INFO_BYTES,
            Stage::Size { .. } => SIZE_BYTES,
            Stage::Padding { .. } => padding(at),
            Stage::Body { size, .. } => size as usize,
        }
    }
    /// Whether an object ends with this unit.
    pub fn is_close(self) -> bool
        ensures is { result ≡ true → self ≡ Close }
        ensures other { result ≡ false → self ≢ Close }
    {
        match self {
            Stage::Close => true,
            _ => false,
        }
    }
}
