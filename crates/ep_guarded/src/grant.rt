//! What a session was granted.
ghost use Rattle.std.specs.Prelude.{◌≡◌, IfOk};

use ep_defs::{Config, EventDef, admits};
use ep_pool::Pool;
use std::alloc::{AllocError, Global};

/// What a session was granted, which its buffers share: its configuration, its chunks, and which of a program's events it
/// gets.
#[derive(Drop)]
pub struct Grant {
    pub config: Config,
    pub pool: Pool,
    // By event.
    pub(crate) admitted: Vec<bool>,
    // The pool is the session's whole budget.
    ghost whole: { pool.total ≡ config.chunks },
}

impl Grant {
    ghost use Rattle.ep_guarded.specs.Granted.{IsGrantFor};

    /// What a session is granted in a program of these events: what it was asked for, and its whole budget as a pool. Its
    /// rules are read here, once for each event, and by no opening on a row.
    pub fn new(
        alloc: Global,
        config: Config,
        pool: Pool,
        events: &[EventDef],
    ) -> Result<Grant, AllocError>
        requires whole { pool.total ≡ config.chunks }
        ensures asked { IfOk result (λ grant. grant.config ≡ config) }
        ensures pool { IfOk result (λ grant. grant.pool ≡ pool) }
        ensures admitted { IfOk result (IsGrantFor events.now) }
    {
        let admitted = events
            .iter()
            .map(|def| admits(&config, def))
            .collect(alloc)?;
        Ok(Grant {
            config,
            pool,
            admitted,
        })
    }
}
