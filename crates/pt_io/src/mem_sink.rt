//! A sink in memory.
ghost use Rattle.std.specs.Prelude.{◌≡◌, ◌+◌, ◌≤◌, ◌⊎◌, ◌++◌, [], true, ◌-◌, length, min, IsErr, OnOk, OnErr, Contains};
ghost use Rattle.pt_io.specs.Faults.{HasRisen};
ghost use Rattle.pt_io.specs.Taken.{TookPartOf};
ghost use Rattle.pt_io.specs.Memory.{SinkState, fresh_sink, partial_sink, after_taking, kept_of, after_failed_write};

use crate::calls::count_call;
use crate::sink::Sink;
use crate::source::Failed;
use std::marker::Model;

/// A sink that keeps what it takes in memory, and fails at the calls that it is told.
#[derive(Debug, Drop)]
pub struct MemSink {
    taken: Vec<u8>,
    fails: Vec<u64>,
    keep: usize,
    calls: u64,
    faults: u64,
}

impl Model for MemSink {
    ghost Value = { SinkState };

    ghost view = { λ s. record {
      taken = s.taken.items;
      fails = s.fails.items;
      keep = s.keep;
      calls = s.calls;
      faults = s.faults;
    } };
}

impl MemSink {
    /// A sink that has taken nothing. `fails` are the numbers, from 1, of the writes that fail and take nothing.
    pub fn new(fails: Vec<u64>) -> MemSink
        ensures { result ≡ fresh_sink fails.items }
    {
        MemSink::partial(fails, 0)
    }

    /// A sink that has taken nothing. `fails` are the numbers, from 1, of the writes that fail. Such a write takes the
    /// first `keep` bytes of its piece, or all but the last where that is fewer.
    pub fn partial(fails: Vec<u64>, keep: usize) -> MemSink
        ensures { result ≡ partial_sink fails.items keep }
    {
        MemSink {
            taken: Vec::new(*fails.allocator()),
            fails,
            keep,
            calls: 0,
            faults: 0,
        }
    }

    /// The bytes taken.
    pub fn taken(&self) -> &[u8]
        ensures { result.now ≡ self.now.taken }
    {
        &self.taken
    }
}

impl Sink for MemSink {
    ghost tells_taken = { λ _. true };

    ghost taken = { λ s. s.taken };

    ghost write_faults = { λ s. s.faults };

    /// Takes the whole piece. It fails where its number is one of `fails`, and takes then what it keeps, or where no
    /// memory is left, and takes nothing then.
    fn write(&mut self, piece: &[u8]) -> Result<(), Failed>
        ensures fails { Contains self.old.fails (self.old.calls + 1) → IsErr result }
        ensures after { OnOk result (self.new ≡ after_taking piece.now self.old) }
        ensures after_err { OnErr result ((self.new ≡ after_failed_write [] self.old)
            ⊎ (Contains self.old.fails (self.old.calls + 1)
            × (self.new ≡ after_failed_write (kept_of self.old.keep piece.now) self.old))) }

        // What the trait says.
        ensures taken { OnOk result (self.new.taken ≡ self.old.taken ++ piece.now) }
        ensures part { OnErr result (TookPartOf piece.now self.old.taken self.new.taken) }
        ensures failed { OnErr result (HasRisen self.old.faults self.new.faults) }
        ensures wrote { OnOk result (self.new.faults ≡ self.old.faults) }
        ensures later { self.old.faults ≤ self.new.faults }
    {
        if count_call(&mut self.calls, &self.fails) {
            let kept = kept_count(self.keep, piece);
            // Where no memory is left it keeps nothing.
            let _ = self.taken.extend_from_slice(&piece[..kept]);
        } else if self.taken.extend_from_slice(piece).is_ok() {
            return Ok(());
        }
        self.faults = self.faults.saturating_add(1);
        Err(Failed)
    }
}

/// How many bytes of a piece are kept at a call that fails.
fn kept_count(keep: usize, piece: &[u8]) -> usize
    ensures { result ≡ min keep (length piece.now - 1) }
{
    keep.min(piece.len().saturating_sub(1))
}
