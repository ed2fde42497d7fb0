//! What is fixed of a run.
use pt_writers::SampleRun;
use std::marker::Brand;

/// One run of the sample program under a listener, by its name. A call picks it where it passes `Brand`.
pub trait WatchRun: SampleRun {
    ghost use Rattle.std.specs.Prelude.{List};
    ghost use Rattle.ep_defs.specs.declared.session.Config.{Config};
    ghost use Rattle.ep_listen.specs.Heard.{HeardEvent};

    // What the session is asked for.
    ghost config: { Config };

    // What the callback stood for before the run.
    ghost at_first: { List HeardEvent → Type 0 };
}

impl WatchRun for Brand {
    ghost use Rattle.pt_listen.specs.state.Hearing.{no_config};

    ghost config = { no_config };

    ghost at_first = { λ _. Unit {0} };
}
