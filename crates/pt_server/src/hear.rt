//! What a connection asks for.
ghost use Rattle.std.specs.Prelude.{◌≡◌, []};
ghost use Rattle.pt_server.specs.Heard.{IsHeard};

use ipc_body::Request;
use ipc_serve::asked;
use ipc_serve::codes::OUT_OF_MEMORY;
use ipc_take::{Lack, receive};
use pt_io::Link;
use std::alloc::Global;

/// What the bytes of a connection ask for.
#[derive(Debug, Drop)]
pub(crate) enum Heard {
    Request(Request),
    /// They are refused with this code.
    Refused { code: u32 },
    /// A read of the link failed.
    Lost,
}

/// Reads one message of a link that was not used, and no byte after it.
pub(crate) fn hear<L: Link>(alloc: Global, link: &mut L) -> Heard
    requires none { L.given link.old ≡ [] }
    requires reads { L.read_faults link.old ≡ 0 }
    ensures heard { IsHeard result (L.read_side link.new) }
    ensures took { L.write_side link.new ≡ L.write_side link.old }
{
    match receive(alloc, link) {
        Ok(bytes) => match asked(alloc, &bytes) {
            Ok(request) => Heard::Request(request),
            Err(code) => Heard::Refused { code },
        },
        Err(Lack::OutOfMemory) => Heard::Refused {
            code: OUT_OF_MEMORY,
        },
        Err(Lack::LinkFault) => Heard::Lost,
    }
}
