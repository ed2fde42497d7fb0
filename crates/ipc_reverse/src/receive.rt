//! The message of a link.
ghost use Rattle.std.specs.Prelude.{◌≡◌, ◌≤◌, length, take, IsTrue, IfOk, OnOk, OnErr};
ghost use Rattle.pt_io.specs.Faults.{HasRisen};
ghost use Rattle.ipc_reverse.specs.Advert.{advert_in};
ghost use Rattle.ipc_reverse.specs.declared.limits.TheConstants.{ADVERT_BYTES};
ghost use Rattle.ipc_reverse.specs.Received.{GaveNext, KeepsBytes};

use crate::limits::ADVERT_BYTES;
use crate::message::{TakenAdvert, take_advert};
use pt_io::{Failed, Source};

/// Reads the message with which a program that has called says who it is, or as many of its bytes as come before the link ends,
/// and no byte after it. It takes no memory.
pub fn receive_advert<S: Source>(link: &mut S) -> Result<TakenAdvert, Failed>
    ensures found { IsTrue (S.tells_given link.old)
        → IfOk result (λ taken. taken ≡ advert_in (take ADVERT_BYTES (S.left link.old))) }
    ensures gave { IsTrue (S.tells_given link.old)
        → OnOk result (GaveNext S.Source link.old link.new ADVERT_BYTES) }
    ensures told { S.tells_given link.new ≡ S.tells_given link.old }
    ensures whole { KeepsBytes S.Source link.old link.new }
    ensures failed { OnErr result (HasRisen (S.read_faults link.old) (S.read_faults link.new)) }
    ensures read { OnOk result (S.read_faults link.new ≡ S.read_faults link.old) }
    ensures writes { S.write_side link.new ≡ S.write_side link.old }
{
    let mut bytes = [0; ADVERT_BYTES];
    let there = fill(link, &mut bytes)?;
    Ok(take_advert(&bytes[..there]))
}

// Reads as many bytes as there is room for, or as come before the link ends, and answers their number.
fn fill<S: Source>(link: &mut S, bytes: &mut [u8; ADVERT_BYTES]) -> Result<usize, Failed>
    ensures within { IfOk result (λ n. n ≤ length bytes.new) }
    ensures gave { IsTrue (S.tells_given link.old)
        → OnOk result (GaveNext S.Source link.old link.new ADVERT_BYTES) }
    ensures taken { IsTrue (S.tells_given link.old)
        → IfOk result (λ n. take n bytes.new ≡ take ADVERT_BYTES (S.left link.old)) }
    ensures told { S.tells_given link.new ≡ S.tells_given link.old }
    ensures whole { KeepsBytes S.Source link.old link.new }
    ensures failed { OnErr result (HasRisen (S.read_faults link.old) (S.read_faults link.new)) }
    ensures read { OnOk result (S.read_faults link.new ≡ S.read_faults link.old) }
    ensures writes { S.write_side link.new ≡ S.write_side link.old }
{
    let mut there = 0;
    while there < ADVERT_BYTES {
        let more = link.read(&mut bytes[there..])?;
        if more == 0 {
            return Ok(there);
        }
        there += more;
    }
    Ok(there)
}
