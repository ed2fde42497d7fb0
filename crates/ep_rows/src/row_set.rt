//! The rows as a row set that tells them.
ghost use Rattle.std.specs.Prelude.{◌≡◌, Some};

use crate::places;
use crate::rows::Rows;
use ep_defs::limits::THREADS;
use ep_defs::{Config, Marks};
use ep_slot::{Batch, Hand};
use ep_stream::RowSet;
use std::alloc::{AllocError, Global};

impl RowSet for Rows {
    ghost use Rattle.std.specs.Prelude.{◌≡◌, None, Some};
    ghost use Rattle.ep_defs.specs.declared.limits.TheConstants.{THREADS as ROWS};
    ghost use Rattle.ep_rows.specs.Rows.{told_of, definitions_of, configured_in, expected_in, out_in};
    ghost use Rattle.ep_rows.specs.Outside.{none_outside};

    ghost count = { λ _. ROWS };

    ghost rows = { λ set. Some (told_of set) };

    ghost definitions = { definitions_of };

    ghost can_attach = { λ _ _ _. Unit {0} };

    ghost configured = { configured_in };

    ghost expected = { expected_in };

    ghost out = { out_in };

    ghost tests_record = { λ _ _ _ _ _ _. Unit {0} };

    ghost tests_hand = { λ set row hand. hand.thread ≡ ((told_of set).row row).thread };

    ghost tests_marks = { λ _ _ _. Unit {0} };

    ghost refused = { λ _. None };

    fn threads(&self) -> u32 {
        THREADS
    }

    fn attach(
        &mut self,
        alloc: Global,
        row: u32,
        slot: u32,
        session: u64,
        config: &Config,
    ) -> Result<Hand, AllocError> {
        let asked = places::ToOpen {
            slot,
            session,
            config,
        };
        places::attach(
            alloc,
            &mut self.columns[slot as usize],
            &mut self.rows[row as usize - 1],
            row,
            &asked,
            self.events.as_slice(),
        )
    }

    fn steal(&mut self, row: u32, slot: u32, hand: &mut Hand) -> Batch {
        places::steal(&mut self.columns[slot as usize], row, hand)
    }

    fn detach(&mut self, row: u32, slot: u32, hand: Hand) -> (Batch, Marks) {
        places::detach(
            &mut self.columns[slot as usize],
            &mut self.rows[row as usize - 1],
            row,
            slot,
            hand,
        )
    }

    fn give(&mut self, slot: u32, batch: Batch) {
        places::give(&mut self.columns[slot as usize], batch.chain);
    }

    ghost none_outside = { none_outside };
}
