//! Why there is no message.
ghost use Rattle.std.specs.Prelude.{◌≡◌};
ghost use Rattle.ipc_take.specs.declared.lack.Lack.TheVariants.{OutOfMemory};

use std::alloc::AllocError;

/// Why there is no message.
#[derive(Clone, Copy, Debug, PartialEq, Eq)]
pub enum Lack {
    /// A read of the link failed.
    LinkFault,
    OutOfMemory,
}

impl From<AllocError> for Lack {
    ghost from_gives = { λ _ lack. lack ≡ OutOfMemory };

    fn from(_error: AllocError) -> Lack {
        Lack::OutOfMemory
    }
}
