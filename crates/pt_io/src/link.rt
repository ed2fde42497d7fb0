//! A connection to a peer.
ghost use Rattle.std.specs.Prelude.{◌≡◌};
ghost use Rattle.pt_io.specs.Sides.{ReadSide, WriteSide};

use crate::sink::Sink;
use crate::source::Source;

/// A connection to a peer, which gives bytes and takes bytes.
pub trait Link: Source + Sink + Send {
    /// Says that nothing more will be read or written. It changes neither bytes nor counts.
    fn shut(&mut self)
        ensures given { Self.read_side self.new ≡ Self.read_side self.old }
        ensures taken { Self.write_side self.new ≡ Self.write_side self.old };

    /// What a write leaves is all that it gives.
    ghost reads: { (link : Self) → Self.read_side link ≡ record {
      tells = Self.tells_given link;
      given = Self.given link;
      left = Self.left link;
      may_give = Self.may_give link;
      faults = Self.read_faults link;
    } };

    /// What a read leaves is all that it takes.
    ghost writes: { (link : Self) → Self.write_side link ≡ record {
      tells = Self.tells_taken link;
      taken = Self.taken link;
      faults = Self.write_faults link;
    } };
}
