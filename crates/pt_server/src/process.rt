//! The process whose server it is.
use std::marker::Brand;

/// A traced process, by its name: a call picks it where it passes `Brand`.
pub trait Process {
    ghost use Rattle.std.specs.Prelude.{ℕ, List};
    ghost use Rattle.ep_defs.specs.declared.session.Facts.{Facts};

    // What it says of itself.
    ghost facts: { Facts };

    // What each link of its dock has taken before it comes.
    ghost greeting: { List ℕ };
}

impl Process for Brand {
    ghost use Rattle.std.specs.Prelude.{[]};
    ghost use Rattle.pt_server.specs.Process.{no_facts};

    ghost facts = { no_facts };

    ghost greeting = { [] };
}
