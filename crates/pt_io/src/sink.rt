//! Where bytes go.
ghost use Rattle.std.specs.Prelude.{◌≡◌, ℕ, ◌≤◌, ◌++◌, Bool, List, IsTrue, OnOk, OnErr};
ghost use Rattle.pt_io.specs.Faults.{HasRisen};
ghost use Rattle.pt_io.specs.Taken.{TookPartOf};
ghost use Rattle.pt_io.specs.Sides.{ReadSide, no_read_side};

use crate::source::Failed;

/// A place where bytes go.
pub trait Sink {
    /// Whether it tells its bytes. Files, sockets and standard output do not.
    ghost tells_taken: { Self → Bool };

    /// The bytes taken so far, where it tells them.
    ghost taken: { Self → List ℕ };

    /// How often a write has failed.
    ghost write_faults: { Self → ℕ };

    /// What it has given and may still give, where it is a source too.
    ghost read_side: { Self → ReadSide } = { λ _. no_read_side };

    /// Takes the whole piece, or fails and has taken a prefix of it.
    fn write(&mut self, piece: &[u8]) -> Result<(), Failed>
        ensures told { tells_taken self.new ≡ tells_taken self.old }
        ensures taken { IsTrue (tells_taken self.old)
            → OnOk result (taken self.new ≡ taken self.old ++ piece.now) }
        ensures part { IsTrue (tells_taken self.old)
            → OnErr result (TookPartOf piece.now (taken self.old) (taken self.new)) }
        ensures failed { OnErr result (HasRisen (write_faults self.old) (write_faults self.new)) }
        ensures wrote { OnOk result (write_faults self.new ≡ write_faults self.old) }
        ensures later { write_faults self.old ≤ write_faults self.new }

        // A write gives nothing.
        ensures other_side { read_side self.new ≡ read_side self.old };
}
