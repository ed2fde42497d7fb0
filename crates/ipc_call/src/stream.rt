//! The stream that comes after a reply.
ghost use Rattle.std.specs.Prelude.{◌≡◌, ◌≢◌, ◌++◌, ◌⊎◌, ℕ, List, [], IsTrue, OnOk, OnErr, Err};
ghost use Rattle.pt_io.specs.Faults.{HasRisen};
ghost use Rattle.pt_io.specs.Taken.{TookAll, TookPart};
ghost use Rattle.ipc_take.specs.Given.{Gave};
ghost use Rattle.ipc_call.specs.Said.{LosesNothing};
ghost use Rattle.ipc_call.specs.declared.fault.CallFault.TheVariants.{LinkFault, WriteFault};

use crate::fault::CallFault;
use ipc_take::PIECE_BYTES;
use pt_io::{Failed, Link, Sink};

/// Copies all that the link has left to the output, piece by piece.
pub(crate) fn copy<L: Link, O: Sink>(link: &mut L, output: &mut O) -> Result<(), CallFault>
    ensures gave { (more : List ℕ) × Gave L.tells_given L.given L.left link.old link.new more
        × TookPart O.tells_taken O.taken output.old output.new more
        × OnOk result (TookAll O.tells_taken O.taken output.old output.new more) }
    ensures read { OnOk result (IsTrue (L.tells_given link.old) → L.left link.new ≡ []) }
    ensures told { L.tells_given link.new ≡ L.tells_given link.old }
    ensures whole { LosesNothing L.tells_given L.given L.left link.old link.new }
    ensures link_fault { result ≡ Err LinkFault → HasRisen (L.read_faults link.old) (L.read_faults link.new) }
    ensures sound { result ≢ Err LinkFault → L.read_faults link.new ≡ L.read_faults link.old }
    ensures write_fault { result ≡ Err WriteFault
        → HasRisen (O.write_faults output.old) (O.write_faults output.new) }
    ensures written { result ≢ Err WriteFault → O.write_faults output.new ≡ O.write_faults output.old }
    ensures only { OnErr result ((result ≡ Err LinkFault) ⊎ (result ≡ Err WriteFault)) }
    ensures writes { L.write_side link.new ≡ L.write_side link.old }
{
    let mut piece = [0; PIECE_BYTES];
    loop {
        let read = match link.read(&mut piece) {
            Ok(0) => return Ok(()),
            Ok(read) => read,
            Err(Failed) => return Err(CallFault::LinkFault),
        };
        if let Err(Failed) = output.write(&piece[..read]) {
            return Err(CallFault::WriteFault);
        }
    }
}
