//! An output that a run is lent.
ghost use Rattle.std.specs.Prelude.{◌≡◌, ◌≤◌, ◌++◌, IsTrue, OnOk, OnErr};
ghost use Rattle.pt_io.specs.Faults.{HasRisen};
ghost use Rattle.pt_io.specs.Taken.{TookPartOf};

use crate::run::TraceRun;
use pt_io::{Failed, Sink};
use std::marker::PhantomData;

/// A reference to an output.
#[derive(Drop)]
pub(crate) struct Lent<'o, O> {
    output: &'o mut O,
}

impl<'o, O> Lent<'o, O> {
    pub(crate) fn new(output: &'o mut O) -> Lent<'o, O>
        ensures same { result.output.ghost_name ≡ output.entry.ghost_name }
        ensures now { result.output.now ≡ output.old }
    {
        Lent { output }
    }
}

impl<O: Sink> Lent<'_, O> {
    // What a sink says, and that it is still the same reference.
    fn write(&mut self, piece: &[u8]) -> Result<(), Failed>
        ensures same { self.new.output.ghost_name ≡ self.old.output.ghost_name }
        ensures told { O.tells_taken self.new.output.now ≡ O.tells_taken self.old.output.now }
        ensures taken { IsTrue (O.tells_taken self.old.output.now)
            → OnOk result (O.taken self.new.output.now ≡ O.taken self.old.output.now ++ piece.now) }
        ensures part { IsTrue (O.tells_taken self.old.output.now)
            → OnErr result
            (TookPartOf piece.now (O.taken self.old.output.now) (O.taken self.new.output.now)) }
        ensures failed { OnErr result
            (HasRisen (O.write_faults self.old.output.now) (O.write_faults self.new.output.now)) }
        ensures wrote { OnOk result
            (O.write_faults self.new.output.now ≡ O.write_faults self.old.output.now) }
        ensures later { O.write_faults self.old.output.now ≤ O.write_faults self.new.output.now }
    {
        self.output.write(piece)
    }
}

/// The output that a run is lent, as the sink of its session's stream. Its type says by which reference, and whether it
/// tells what it takes, so that what a session hands back at its end is known to be that one.
#[derive(Drop)]
pub(crate) struct RunOutput<'o, O: Sink, P: TraceRun> {
    pub(crate) lent: Lent<'o, O>,
    pub(crate) name: PhantomData<P>,
    ghost same: { lent.output.ghost_name ≡ P.run.loan },
    ghost tells: { O.tells_taken lent.output.now ≡ P.run.tells },
}

impl<O: Sink, P: TraceRun> Sink for RunOutput<'_, O, P> {
    ghost tells_taken = { λ _. P.run.tells };

    ghost taken = { λ o. O.taken o.lent.output.now };

    ghost write_faults = { λ o. O.write_faults o.lent.output.now };

    fn write(&mut self, piece: &[u8]) -> Result<(), Failed> {
        self.lent.write(piece)
    }
}
