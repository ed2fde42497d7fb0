//! Reading an input to its end.
ghost use Rattle.std.specs.Prelude.{◌≡◌, ◌≢◌, ◌≤◌, ◌<◌, ◌+◌, ◌^◌, ◌++◌, ◌⊎◌, ℕ, List, [], length, IfErr, OnOk, Err};
ghost use Rattle.pt_io.specs.Faults.{HasRisen};
ghost use Rattle.pt_command.specs.declared.end.End.TheVariants as ends;
ghost use Rattle.pt_command.specs.Input.{ReadWhole};

use crate::end::End;
use crate::limits::PIECE_BYTES;
use pt_io::{Failed, Source};
use std::alloc::AllocError;

/// What reads the bytes of an input, piece by piece.
pub trait Reads {
    /// It has read these bytes.
    ghost has_read: { List ℕ → Self → Type 0 };

    /// What it counts of them, no more than there are.
    ghost used: { Self → ℕ };

    /// Reads the next piece.
    fn take(&mut self, piece: &[u8]) -> Result<(), AllocError>
        requires read { (bytes : List ℕ) × has_read bytes self.old }
        requires few { used self.old + length piece.now < 2 ^ 63 }
        ensures read { (bytes : List ℕ) → has_read bytes self.old
            → OnOk result (has_read (bytes ++ piece.now) self.new) }
        ensures counted { OnOk result (used self.new ≤ used self.old + length piece.now) };
}

/// Gives all bytes of the input to what reads them, up to its end.
pub fn read_all<I: Source, T: Reads>(input: &mut I, reader: &mut T) -> Result<(), End>
    requires fresh { T.has_read [] reader.old }
    requires unused { T.used reader.old ≡ 0 }
    ensures all { OnOk result ((bytes : List ℕ) × T.has_read bytes reader.new
        × ReadWhole I.Source input.old input.new bytes) }
    ensures few { OnOk result (T.used reader.new < 2 ^ 63) }
    ensures end { IfErr result (λ end. (end ≡ ends.ReadFault) ⊎ (end ≡ ends.OutOfMemory)) }
    ensures fault { result ≡ Err ends.ReadFault
        → HasRisen (I.read_faults input.old) (I.read_faults input.new) }
    ensures read { result ≢ Err ends.ReadFault → I.read_faults input.new ≡ I.read_faults input.old }
{
    let mut buffer = [0; PIECE_BYTES];
    loop {
        let count = match input.read(&mut buffer) {
            Ok(count) => count,
            Err(Failed) => return Err(End::ReadFault),
        };
        if count == 0 {
            return Ok(());
        }
        reader.take(&buffer[..count])?;
    }
}
