//! A callback that counts.
ghost use Rattle.std.specs.Prelude.{◌≡◌, [], IfOk};
ghost use Rattle.pt_watch.specs.Counting.{StandsFor, counts_in};

use crate::limits::EVENTS;
use ep_listen::{Callback, Heard};
use std::alloc::{AllocError, Global};

/// How often each event was heard, by the number of its definition. A count stands still at the last number of 64 bits.
#[derive(Debug, Drop)]
pub struct Counts {
    counts: Vec<u64>,
}

impl Counts {
    /// Of the sample program's events, of which nothing was heard.
    pub fn new(alloc: Global) -> Result<Counts, AllocError>
        ensures { IfOk result (λ counts. StandsFor counts []) }
    {
        Ok(Counts {
            counts: vec![in alloc; 0u64; EVENTS + 1]?,
        })
    }

    /// How often each event was heard, by the number of its definition: there is none for 0.
    pub fn as_slice(&self) -> &[u64]
        ensures { result.now ≡ counts_in self.now }
    {
        self.counts.as_slice()
    }
}

impl Callback for Counts {
    ghost has_heard = { StandsFor };

    fn heard(&mut self, _alloc: Global, event: &Heard<'_>) -> Result<(), AllocError> {
        let place = event.event as usize;
        if place < self.counts.len() {
            self.counts[place] = self.counts[place].saturating_add(1);
        }
        Ok(())
    }
}
