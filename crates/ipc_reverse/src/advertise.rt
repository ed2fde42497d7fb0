//! Links over which a program says first who it is.
ghost use Rattle.std.specs.Prelude.{◌≡◌, ◌≤◌, [], IsTrue, OnOk, OnErr};
ghost use Rattle.pt_io.specs.Faults.{HasRisen};
ghost use Rattle.ipc_reverse.specs.Calls.{IsFirstPart};

use crate::limits::ADVERT_BYTES;
use pt_io::{Failed, Link, MemLink, Sink};

/// A link over which a program can say first who it is.
pub trait Advertise: Link {
    /// Writes the message as the first that the link takes. What the link took is then known to be the message, also where the
    /// link does not tell its bytes. It fails as a write does, and has then taken a part of the message.
    fn advertise(&mut self, advert: &[u8; ADVERT_BYTES]) -> Result<(), Failed>
        requires unused { Self.taken self.old ≡ [] }
        ensures took { OnOk result (Self.taken self.new ≡ advert.now) }
        ensures told { Self.tells_taken self.new ≡ Self.tells_taken self.old }
        ensures part { IsTrue (Self.tells_taken self.old) → OnErr result (IsFirstPart (Self.taken self.new) advert.now) }
        ensures failed { OnErr result (HasRisen (Self.write_faults self.old) (Self.write_faults self.new)) }
        ensures wrote { OnOk result (Self.write_faults self.new ≡ Self.write_faults self.old) }
        ensures later { Self.write_faults self.old ≤ Self.write_faults self.new }

        // It gives nothing.
        ensures other_side { Self.read_side self.new ≡ Self.read_side self.old };
}

impl Advertise for MemLink {
    #[tactic(auto, using(crate::proofs::Back::first_part))]
    fn advertise(&mut self, advert: &[u8; ADVERT_BYTES]) -> Result<(), Failed> {
        self.write(advert)
    }
}
