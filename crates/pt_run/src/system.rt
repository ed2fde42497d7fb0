//! What the program runs on.
ghost use Rattle.std.specs.Prelude.{IsTrue};
ghost use Rattle.ep_defs.specs.Session.{is_valid_facts};

use ep_defs::Facts;
use std::alloc::Global;

/// What the program runs on from its first command to its end: the runtime, its memory, what it says of itself, and the clock
/// and the gate that its threads pass.
#[derive(Drop)]
pub struct System<'r, R, C, G> {
    pub rt: &'r R,
    pub alloc: Global,
    pub facts: &'r Facts,
    pub clock: &'r C,
    pub gate: &'r G,
    pub ghost facts_are: { IsTrue (is_valid_facts facts.now) },
}
