//! How a command ends.
ghost use Rattle.std.specs.Prelude.{◌≡◌};

use crate::status::{
    BAD_REPLY, DONE, LINK_FAULT, OUT_OF_MEMORY, PEER_ERROR, READ_FAULT, REFUSED, TOO_LONG, WORDS,
    WRITE_FAULT,
};
use std::alloc::AllocError;

/// How a command ended.
#[derive(Clone, Copy, Debug, PartialEq, Eq)]
pub enum End {
    Done,
    /// The words ask for nothing.
    Words,
    /// The input is refused. Its offset is 0 where the error line has none.
    Refused { at: u64 },
    /// A read of the input failed.
    ReadFault,
    /// A write of the output failed.
    WriteFault,
    /// The peer can't be called, or the link to it failed.
    LinkFault,
    /// The peer's reply is an error.
    PeerError { code: u32 },
    /// The peer's bytes are no reply, from this offset on.
    BadReply { at: u64 },
    OutOfMemory,
    /// A session took more events than its stream can have.
    TooLong,
}

impl From<AllocError> for End {
    ghost use Rattle.pt_command.specs.declared.end.End.TheVariants as ends;

    ghost from_gives = { λ _ end. end ≡ ends.OutOfMemory };

    fn from(_error: AllocError) -> End {
        End::OutOfMemory
    }
}

impl End {
    ghost use Rattle.pt_command.specs.Ends.{status_of, code_of, at_of};

    /// The status of the program.
    pub fn status(self) -> u8
        ensures { result ≡ status_of self }
    {
        match self {
            End::Done => DONE,
            End::Words => WORDS,
            End::Refused { .. } => REFUSED,
            End::ReadFault => READ_FAULT,
            End::WriteFault => WRITE_FAULT,
            End::LinkFault => LINK_FAULT,
            End::PeerError { .. } => PEER_ERROR,
            End::BadReply { .. } => BAD_REPLY,
            End::OutOfMemory => OUT_OF_MEMORY,
            End::TooLong => TOO_LONG,
        }
    }

    /// A peer's error code, 0 where there is none.
    pub fn code(self) -> u32
        ensures { result ≡ code_of self }
    {
        match self {
            End::PeerError { code } => code,
            _ => 0,
        }
    }

    /// The offset of what was refused, 0 where there is none.
    pub fn at(self) -> u64
        ensures { result ≡ at_of self }
    {
        match self {
            End::Refused { at } | End::BadReply { at } => at,
            _ => 0,
        }
    }
}
