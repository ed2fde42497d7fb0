//! A link in memory.
ghost use Rattle.std.specs.Prelude.{◌≡◌, ◌+◌, ◌^◌, ◌<◌, ◌≤◌, ◌⊎◌, ◌↔◌, ◌++◌, [], length, take, drop, min, true, IsErr, IfOk, OnOk, OnErr, Contains};
ghost use Rattle.pt_io.specs.Faults.{HasRisen};
ghost use Rattle.pt_io.specs.Taken.{TookPartOf};
ghost use Rattle.pt_io.specs.Memory.{LinkState, after_giving, after_failed_read, after_taking, kept_of, after_failed_write};

use crate::link::Link;
use crate::mem_sink::MemSink;
use crate::mem_source::MemSource;
use crate::sink::Sink;
use crate::source::{Failed, Source};
use std::marker::Model;

/// A link that gives what a source in memory gives, and takes what a sink in memory takes.
#[derive(Debug, Drop)]
pub struct MemLink {
    source: MemSource,
    sink: MemSink,
}

impl Model for MemLink {
    ghost Value = { LinkState };

    ghost view = { λ s. record { source = s.source; sink = s.sink } };
}

impl MemLink {
    /// A link of a source and a sink.
    pub fn new(source: MemSource, sink: MemSink) -> MemLink
        ensures { result ≡ record { source = source; sink = sink } }
    {
        MemLink { source, sink }
    }

    /// The bytes taken.
    pub fn taken(&self) -> &[u8]
        ensures { result.now ≡ self.now.sink.taken }
    {
        self.sink.taken()
    }
}

impl Source for MemLink {
    ghost tells_given = { λ _. true };

    ghost given = { λ s. s.source.given };

    ghost left = { λ s. s.source.left };

    ghost may_give = { λ s. length s.source.left };

    ghost read_faults = { λ s. s.source.faults };

    ghost write_side = { λ s. record { tells = true; taken = s.sink.taken; faults = s.sink.faults } };

    /// Gives what the source gives, and fails where it does.
    fn read(&mut self, buf: &mut [u8]) -> Result<usize, Failed>
        requires { 0 < length buf.old }

        ensures fails { IsErr result ↔ Contains self.old.source.fails (self.old.source.calls + 1) }
        ensures count { IfOk result (λ n. n
            ≡ min (min self.old.source.most (length buf.old)) (length self.old.source.left)) }
        ensures front { IfOk result (λ n. take n buf.new ≡ take n self.old.source.left) }
        ensures rest { IfOk result (λ n. drop n buf.new ≡ drop n buf.old) }
        ensures after { IfOk result (λ n. self.new.source ≡ after_giving n self.old.source) }
        ensures rest_err { OnErr result (buf.new ≡ buf.old) }
        ensures after_err { OnErr result (self.new.source ≡ after_failed_read self.old.source) }
        ensures sink { self.new.sink ≡ self.old.sink }

        // What the trait says.
        ensures within { IfOk result (λ n. n ≤ length buf.new) }
        ensures given { IfOk result (λ n. self.new.source.given ≡ self.old.source.given ++ take n buf.new) }
        ensures left { IfOk result (λ n. self.old.source.left ≡ take n buf.new ++ self.new.source.left) }
        ensures end { IfOk result (λ n. n ≡ 0 → self.old.source.left ≡ []) }
        ensures few { length self.old.source.left < 2 ^ 63 }
        ensures falls { IfOk result (λ n. length self.new.source.left + n ≡ length self.old.source.left) }
        ensures failed { OnErr result (HasRisen self.old.source.faults self.new.source.faults) }
        ensures read { OnOk result (self.new.source.faults ≡ self.old.source.faults) }
        ensures later { self.old.source.faults ≤ self.new.source.faults }
        ensures given_err { OnErr result (self.new.source.given ≡ self.old.source.given) }
        ensures left_err { OnErr result (self.new.source.left ≡ self.old.source.left) }
        ensures falls_err { OnErr result (length self.new.source.left ≡ length self.old.source.left) }
    {
        self.source.read(buf)
    }
}

impl Sink for MemLink {
    ghost tells_taken = { λ _. true };

    ghost taken = { λ s. s.sink.taken };

    ghost write_faults = { λ s. s.sink.faults };

    ghost read_side = { λ s. record {
      tells = true;
      given = s.source.given;
      left = s.source.left;
      may_give = length s.source.left;
      faults = s.source.faults;
    } };

    /// Takes what the sink takes, and fails where it does.
    fn write(&mut self, piece: &[u8]) -> Result<(), Failed>
        ensures fails { Contains self.old.sink.fails (self.old.sink.calls + 1) → IsErr result }
        ensures after { OnOk result (self.new.sink ≡ after_taking piece.now self.old.sink) }
        ensures after_err { OnErr result ((self.new.sink ≡ after_failed_write [] self.old.sink)
            ⊎ (Contains self.old.sink.fails (self.old.sink.calls + 1)
            × (self.new.sink ≡ after_failed_write (kept_of self.old.sink.keep piece.now) self.old.sink))) }
        ensures source { self.new.source ≡ self.old.source }

        // What the trait says.
        ensures taken { OnOk result (self.new.sink.taken ≡ self.old.sink.taken ++ piece.now) }
        ensures part { OnErr result (TookPartOf piece.now self.old.sink.taken self.new.sink.taken) }
        ensures failed { OnErr result (HasRisen self.old.sink.faults self.new.sink.faults) }
        ensures wrote { OnOk result (self.new.sink.faults ≡ self.old.sink.faults) }
        ensures later { self.old.sink.faults ≤ self.new.sink.faults }
    {
        self.sink.write(piece)
    }
}

impl Link for MemLink {
    ghost use Rattle.std.specs.Prelude.{refl};

    /// Changes nothing.
    fn shut(&mut self)
        ensures { self.new ≡ self.old }
    {}

    ghost reads = { λ _. refl };

    ghost writes = { λ _. refl };
}
