//! Why a call of a peer has no result.
ghost use Rattle.std.specs.Prelude.{◌≡◌};
ghost use Rattle.ipc_call.specs.declared.fault.CallFault.TheVariants.{OutOfMemory};
ghost use Rattle.ipc_call.specs.Fault.{fault_of};

use ipc_take::Lack;
use std::alloc::AllocError;
use thiserror::Error;

/// Why a call of a peer has no result.
#[derive(Clone, Copy, Debug, PartialEq, Eq, Error)]
pub enum CallFault {
    /// The peer refused the request, with a code of the protocol or of its runtime.
    #[error("the peer answers error {code:08x}")]
    PeerError { code: u32 },
    /// The peer's bytes are no reply: the offset of the first field that is wrong, or how many bytes came where the
    /// link ended early.
    #[error("the peer's reply is wrong at offset {at}")]
    BadReply { at: u64 },
    /// A read or a write of the link failed.
    #[error("the link failed")]
    LinkFault,
    /// A write of the output failed.
    #[error("the output failed")]
    WriteFault,
    #[error("out of memory")]
    OutOfMemory,
}

impl From<AllocError> for CallFault {
    ghost from_gives = { λ _ fault. fault ≡ OutOfMemory };

    fn from(_error: AllocError) -> CallFault {
        CallFault::OutOfMemory
    }
}

impl From<Lack> for CallFault {
    ghost from_gives = { λ lack fault. fault ≡ fault_of lack };

    fn from(lack: Lack) -> CallFault {
        match lack {
            Lack::LinkFault => CallFault::LinkFault,
            Lack::OutOfMemory => CallFault::OutOfMemory,
        }
    }
}
