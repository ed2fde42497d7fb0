//! One message of a link.
ghost use Rattle.std.specs.Prelude.{◌≡◌, ◌≢◌, ◌+◌, ◌++◌, ◌⊎◌, length, IsTrue, IfOk, OnErr, Err};
ghost use Rattle.pt_io.specs.Faults.{HasRisen};
ghost use Rattle.ipc_frame.specs.Message.{found};
ghost use Rattle.ipc_take.specs.Own.{said_size, own_bytes};
ghost use Rattle.ipc_take.specs.Given.{Gave, GavePart};
ghost use Rattle.ipc_take.specs.declared.lack.Lack.TheVariants.{LinkFault, OutOfMemory};

use crate::lack::Lack;
use crate::pieces::read_more;
use ipc_frame::limits::HEADER_BYTES;
use ipc_frame::{Framed, take_message};
use pt_io::Link;
use std::alloc::Global;

/// Reads the bytes of one message, or as many of them as come before the link ends, and no byte after them.
pub fn receive<L: Link>(alloc: Global, link: &mut L) -> Result<Vec<u8>, Lack>
    ensures own { IsTrue (L.tells_given link.old)
        → IfOk result (λ bytes. bytes.items ≡ own_bytes (L.left link.old)) }
    ensures gave { IfOk result (λ bytes. Gave L.tells_given L.given L.left link.old link.new bytes.items) }
    ensures part { GavePart L.tells_given L.given L.left link.old link.new (own_bytes (L.left link.old)) }
    ensures told { L.tells_given link.new ≡ L.tells_given link.old }
    ensures whole { IsTrue (L.tells_given link.old)
        → L.given link.new ++ L.left link.new ≡ L.given link.old ++ L.left link.old }
    ensures fault { result ≡ Err LinkFault → HasRisen (L.read_faults link.old) (L.read_faults link.new) }
    ensures sound { result ≢ Err LinkFault → L.read_faults link.new ≡ L.read_faults link.old }
    ensures only { OnErr result ((result ≡ Err LinkFault) ⊎ (result ≡ Err OutOfMemory)) }
    ensures writes { L.write_side link.new ≡ L.write_side link.old }
{
    let mut bytes = Vec::new(alloc);
    read_more(link, &mut bytes, HEADER_BYTES)?;
    let lacking = lacking_bytes(&bytes);
    read_more(link, &mut bytes, lacking)?;
    Ok(bytes)
}

// How many bytes the message of this header has after it.
fn lacking_bytes(head: &[u8]) -> usize
    ensures { length head.now + result ≡ said_size head.now (found head.now) }
{
    match take_message(head) {
        Framed::Need(more) => more,
        Framed::Message { .. } | Framed::BadMagic | Framed::BadSize(_) => 0,
    }
}
