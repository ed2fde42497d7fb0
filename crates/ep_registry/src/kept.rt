//! What is kept for the registry's users.
ghost use Rattle.std.specs.Prelude.{◌≡◌, IfOk, None, length, replicate, true, false};
ghost use Rattle.ep_table.specs.declared.limits.TheConstants.{SLOTS};
ghost use Rattle.ep_journal.specs.declared.limits.TheConstants.{CONNECTIONS};
ghost use Rattle.ep_registry.specs.Places.{AreAt};

use crate::free::Frees;
use crate::gone::Gone;
use crate::kinds::Kinds;
use crate::over::Overs;
use crate::waiting::Waiting;
use ep_tie::Named;
use std::alloc::{AllocError, Global};

/// What is there of the free slots, the sessions that wait for their roles, what is left of those that have ended, and
/// what the writers leave.
#[derive(Drop)]
pub struct Kept<S: Named, P: Kinds<F, W, E, G>, F, W, E, G> {
    pub frees: Frees<P, F, W, E, G>,
    pub waiting: Waiting<S, P, F, W, E, G>,
    pub overs: Overs<P, F, W, E, G>,
    pub gone: Gone<P, F, W, E, G>,
}

impl<S: Named, P: Kinds<F, W, E, G>, F: Drop, W: Drop, E: Drop, G: Drop> Kept<S, P, F, W, E, G> {
    /// All slots are free, and no session has begun.
    pub fn new(alloc: Global, free: Vec<F>) -> Result<Kept<S, P, F, W, E, G>, AllocError>
        requires all { length free.items ≡ SLOTS }
        requires each { AreAt P.free free.items }
        ensures frees { IfOk result (λ kept. kept.frees ≡ replicate SLOTS true) }
        ensures waiting { IfOk result (λ kept. kept.waiting ≡ replicate SLOTS None) }
        ensures overs { IfOk result (λ kept. kept.overs ≡ replicate CONNECTIONS None) }
        ensures gone { IfOk result (λ kept. kept.gone ≡ false) }
    {
        let frees = Frees::new(alloc, free)?;
        let waiting = Waiting::new(alloc)?;
        let overs = Overs::new(alloc)?;
        Ok(Kept {
            frees,
            waiting,
            overs,
            gone: Gone::new(),
        })
    }
}
