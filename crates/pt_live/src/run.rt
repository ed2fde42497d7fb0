//! What is fixed of a run.
use pt_stream::Run;
use pt_writers::SampleRun;
use std::marker::Brand;

/// One run of the sample program over a lent output, by its name. A call picks it where it passes `Brand`.
pub trait TraceRun: Run + SampleRun {
    ghost use Rattle.pt_live.specs.state.Run.{RunState};

    // What is fixed from its beginning, beside what its threads write.
    ghost run: { RunState };
}

impl TraceRun for Brand {
    ghost use Rattle.pt_live.specs.state.Run.{no_run};

    ghost run = { no_run };
}
