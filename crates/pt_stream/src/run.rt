//! What all streams of a run share.
use ep_guarded::Program;
use std::marker::Brand;

/// One run over whose rows sessions stream, by its name. A call picks it where it passes `Brand`.
pub trait Run: Program {
    ghost use Rattle.pt_stream.specs.Setting.{Setting};

    // What is fixed of it, beside what its threads write.
    ghost setting: { Setting };
}

impl Run for Brand {
    ghost use Rattle.pt_stream.specs.Setting.{no_setting};

    ghost setting = { no_setting };
}
