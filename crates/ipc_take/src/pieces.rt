//! Some bytes of a link.
ghost use Rattle.std.specs.Prelude.{◌≡◌, ◌≢◌, ◌≤◌, ◌++◌, ◌⊎◌, ℕ, List, [], length, IsTrue, OnOk, OnErr, Err};
ghost use Rattle.pt_io.specs.Faults.{HasRisen};
ghost use Rattle.ipc_take.specs.Given.{Gave, IsFull};
ghost use Rattle.ipc_take.specs.declared.lack.Lack.TheVariants.{LinkFault, OutOfMemory};

use crate::lack::Lack;
use pt_io::{Failed, Link};

/// How many bytes of a link are read at once.
pub const PIECE_BYTES: usize = 4_096;

/// Appends this many bytes of the link, or as many as come before it ends.
pub(crate) fn read_more<L: Link>(
    link: &mut L,
    bytes: &mut Vec<u8>,
    count: usize,
) -> Result<(), Lack>
    ensures gave { (more : List ℕ) × Gave L.tells_given L.given L.left link.old link.new more
        × (length more ≤ count) × OnOk result ((bytes.new.items ≡ bytes.old.items ++ more)
        × IsFull L.tells_given L.left link.old link.new more count) }
    ensures told { L.tells_given link.new ≡ L.tells_given link.old }
    ensures fault { result ≡ Err LinkFault → HasRisen (L.read_faults link.old) (L.read_faults link.new) }
    ensures sound { result ≢ Err LinkFault → L.read_faults link.new ≡ L.read_faults link.old }
    ensures only { OnErr result ((result ≡ Err LinkFault) ⊎ (result ≡ Err OutOfMemory)) }
    ensures writes { L.write_side link.new ≡ L.write_side link.old }
{
    let mut lacking = count;
    let mut piece = [0; PIECE_BYTES];
    while lacking > 0 {
        let most = lacking.min(PIECE_BYTES);
        match link.read(&mut piece[..most]) {
            Ok(0) => return Ok(()),
            Ok(read) => {
                bytes.extend_from_slice(&piece[..read])?;
                lacking -= read;
            }
            Err(Failed) => return Err(Lack::LinkFault),
        }
    }
    Ok(())
}
