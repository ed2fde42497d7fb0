//! What the threads of a program write in a run.
use ep_tie::Named;
use std::marker::Brand;

/// One run of a program with threads, with the name of its ties. A call picks it where it passes `Brand`.
pub trait Program: Named {
    ghost use Rattle.std.specs.Prelude.{ℕ, List};
    ghost use Rattle.ep_defs.specs.declared.event.EventDef.{EventDef};
    ghost use Rattle.ep_defs.specs.declared.session.Write.{Write};

    // How many rows there are.
    ghost rows: { ℕ };

    // The definitions of the events that threads write.
    ghost events: { List EventDef };

    // All that a thread writes in the run, also what is to come.
    ghost writes: { ℕ → List Write };
}

impl Program for Brand {
    ghost use Rattle.std.specs.Prelude.{[]};

    ghost rows = { 0 };

    ghost events = { [] };

    ghost writes = { λ _. [] };
}
