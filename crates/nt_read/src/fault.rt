//! What a reader refuses.
use std::alloc::{AllocError, AllocFailed};

/// What is wrong with a stream at some place.
#[derive(Clone, Copy, Debug, PartialEq, Eq)]
pub enum ReadKind {
    /// The first 32 bytes are not those of a NetTrace stream. It stands at 0.
    BadMagic,
    /// A tag, the length of a type's name or the name is wrong, the first object is not Trace or a later one is, or
    /// bytes follow the end. It stands at the first byte of the unit.
    BadObject,
    /// The version there is not that of the object's kind.
    BadVersion,
    /// The body that begins there has a wrong header or count, or its stacks or threads don't fill it.
    BadBlock,
    /// The blob that begins there has a wrong header, or its payload runs past the body.
    BadHead,
    /// The payload that begins there defines no event.
    BadMeta,
    /// The flags there say that headers aren't compressed.
    Uncompressed,
    /// The size there is above `nt_blocks::limits::READ_BYTES`.
    TooLarge { size: u32 },
    /// The bytes end there, and the stream doesn't.
    Truncated,
}

/// Why reading stops. Offsets are counted from the stream's first byte.
#[derive(Clone, Copy, Debug, PartialEq, Eq)]
pub enum ReadFault {
    Bad { at: u64, kind: ReadKind },
    OutOfMemory,
}

impl From<AllocError> for ReadFault {
    ghost use Rattle.std.specs.Prelude.{◌≡◌};
    ghost use Rattle.nt_read.specs.declared.fault.ReadFault.TheVariants.{OutOfMemory};

    ghost from_gives = { λ _ fault. fault ≡ OutOfMemory };

    fn from(_error: AllocError) -> ReadFault {
        ReadFault::OutOfMemory
    }
}

impl<T: Drop> From<AllocFailed<T>> for ReadFault {
    ghost use Rattle.std.specs.Prelude.{◌≡◌};
    ghost use Rattle.nt_read.specs.declared.fault.ReadFault.TheVariants.{OutOfMemory};

    ghost from_gives = { λ _ fault. fault ≡ OutOfMemory };

    fn from(_failed: AllocFailed<T>) -> ReadFault {
        ReadFault::OutOfMemory
    }
}
