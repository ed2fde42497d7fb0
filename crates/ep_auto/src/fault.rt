//! Why a text is refused.
ghost use Rattle.std.specs.Prelude.{◌≡◌};
ghost use Rattle.ep_auto.specs.declared.fault.AutoFault.TheVariants.{OutOfMemory};

use std::alloc::{AllocError, AllocFailed};

/// What is wrong with a text.
#[derive(Clone, Copy, Debug, PartialEq, Eq)]
pub enum AutoKind {
    /// A provider's name is empty, or has a character outside of `!` to `~`.
    Name,
    /// Keywords are not 1 to 16 hexadecimal digits.
    Keywords,
    /// A level is no decimal number of 32 bits.
    Level,
    /// There are more than `ep_defs::limits::RULES` parts.
    Count,
}

/// Why a text was not read.
#[derive(Clone, Copy, Debug, PartialEq, Eq)]
pub enum AutoFault {
    /// The 1-based byte column of the first wrong field, or 1 where there are too many parts.
    Bad { column: u64, kind: AutoKind },
    OutOfMemory,
}

impl From<AllocError> for AutoFault {
    ghost from_gives = { λ error fault. fault ≡ OutOfMemory };

    fn from(_error: AllocError) -> Self {
        AutoFault::OutOfMemory
    }
}

impl<T: Drop> From<AllocFailed<T>> for AutoFault {
    ghost from_gives = { λ error fault. fault ≡ OutOfMemory };

    fn from(_error: AllocFailed<T>) -> Self {
        AutoFault::OutOfMemory
    }
}
