//! The name of a set of ties.
use std::marker::Brand;

/// Names one set of ties, so that types can say that their halves are of the same set. A call picks the set where it
/// passes `Brand`.
pub trait Named {
    ghost use Rattle.ep_tie.specs.Tied.{TieSet};

    ghost ties: { TieSet };
}

impl Named for Brand {
    ghost use Rattle.ep_tie.specs.Tied.{no_ties};

    ghost ties = { no_ties };
}
