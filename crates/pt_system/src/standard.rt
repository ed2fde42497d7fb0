//! Standard input and output as a source and a sink. They are trusted: no clause can say what the system gives or takes.
ghost use Rattle.std.specs.Prelude.{◌≡◌, ℕ, ◌+◌, ◌^◌, ◌<◌, ◌≤◌, [], length, false, IsErr, IfOk, OnOk, OnErr};
ghost use Rattle.pt_io.specs.Faults.{HasRisen};
ghost use Rattle.std.specs.Io.KnownBytes.{Appends, ReadConsumes};
ghost use Rattle.pt_system.specs.Standard.{InputState, OutputState, fresh_input, fresh_output};

use pt_io::{Failed, Sink, Source};
use std::io::{Read, Write};
use std::marker::Model;

/// How many bytes a real source gives at most.
const MOST: u64 = (1 << 63) - 1;

/// A reader of the system as a source. It tells nothing of its bytes.
#[derive(Drop)]
pub struct StandardInput<R: Read> {
    reader: R,
    may_give: u64,
    faults: u64,
}

impl<R: Read> Model for StandardInput<R> {
    ghost Value = { InputState };

    ghost view = { λ s. record { remaining = R.remaining s.reader; may_give = s.may_give; faults = s.faults } };

    ghost invariant = { λ s. s.may_give < 2 ^ 63 };
}

impl<R: Read> StandardInput<R> {
    /// A source that may give 2^63 - 1 bytes, and has not failed.
    pub fn new(reader: R) -> StandardInput<R>
        ensures { result ≡ fresh_input (R.remaining reader) }
    {
        StandardInput {
            reader,
            may_give: MOST,
            faults: 0,
        }
    }
}

impl<R: Read> Source for StandardInput<R> {
    ghost tells_given = { λ _. false };

    ghost given = { λ _. [] };

    ghost left = { λ _. [] };

    ghost may_give = { λ s. s.may_give };

    ghost read_faults = { λ s. s.faults };

    /// Gives what the reader gives. It fails where the reader does, and where all that it may give was given.
    fn read(&mut self, buf: &mut [u8]) -> Result<usize, Failed>
        requires { 0 < length buf.old }

        // What the reader says of its bytes holds of those that are given.
        ensures gives { ReadConsumes self.old.remaining self.new.remaining result buf.new }
        ensures spent { self.old.may_give ≡ 0 → IsErr result }

        // What the trait says.
        ensures within { IfOk result (λ n. n ≤ length buf.new) }
        ensures few { self.old.may_give < 2 ^ 63 }
        ensures falls { IfOk result (λ n. self.new.may_give + n ≡ self.old.may_give) }
        ensures failed { OnErr result (HasRisen self.old.faults self.new.faults) }
        ensures read { OnOk result (self.new.faults ≡ self.old.faults) }
        ensures later { self.old.faults ≤ self.new.faults }
        ensures falls_err { OnErr result (self.new.may_give ≡ self.old.may_give) }
    {
        if self.may_give > 0 {
            let most = (buf.len() as u64).min(self.may_give) as usize;
            if let Ok(count) = self.reader.read(&mut buf[..most]) {
                self.may_give -= count as u64;
                return Ok(count);
            }
        }
        self.faults = self.faults.saturating_add(1);
        Err(Failed)
    }
}

/// A writer of the system as a sink. It tells nothing of its bytes.
#[derive(Drop)]
pub struct StandardOutput<W: Write> {
    writer: W,
    faults: u64,
}

impl<W: Write> Model for StandardOutput<W> {
    ghost Value = { OutputState };

    ghost view = { λ s. record { contents = W.contents s.writer; faults = s.faults } };
}

impl<W: Write> StandardOutput<W> {
    /// A sink that has not failed.
    pub fn new(writer: W) -> StandardOutput<W>
        ensures { result ≡ fresh_output (W.contents writer) }
    {
        StandardOutput { writer, faults: 0 }
    }
}

impl<W: Write> Sink for StandardOutput<W> {
    ghost tells_taken = { λ _. false };

    ghost taken = { λ _. [] };

    ghost write_faults = { λ s. s.faults };

    /// Writes the whole piece and flushes it, or fails.
    fn write(&mut self, piece: &[u8]) -> Result<(), Failed>
        // What the writer says of its bytes holds of those that are taken.
        ensures takes { OnOk result (Appends self.old.contents self.new.contents piece.now) }

        // What the trait says.
        ensures failed { OnErr result (HasRisen self.old.faults self.new.faults) }
        ensures wrote { OnOk result (self.new.faults ≡ self.old.faults) }
        ensures later { self.old.faults ≤ self.new.faults }
    {
        if self.writer.write_all(piece).is_ok() && self.writer.flush().is_ok() {
            return Ok(());
        }
        self.faults = self.faults.saturating_add(1);
        Err(Failed)
    }
}
