//! Where a stream waits to be pulled.
ghost use Rattle.std.specs.Prelude.{◌≡◌, ◌≤◌, ◌++◌, true, length, take, drop, min, vec_len, OnOk, OnErr};
ghost use Rattle.pt_io.specs.Faults.{HasRisen};
ghost use Rattle.pt_io.specs.Taken.{TookPartOf};
ghost use Rattle.tp_c.specs.Outgoing.{Outgoing, no_bytes, all_of, after_pull, given_by};

use crate::history::History;
use pt_io::{Failed, Sink};
use std::alloc::Global;
use std::marker::Model;

/// A sink that keeps what it takes until that is pulled.
#[derive(Drop)]
pub struct Outlet {
    kept: Vec<u8>,
    // How many of these were pulled. They are no more than are left, so the memory is that of what is left, twice.
    gone: usize,
    faults: u64,
    history: History,
}

impl Model for Outlet {
    ghost Value = { Outgoing };

    ghost view = { λ o. record {
      pulled = o.history.bytes;
      left = drop o.gone o.kept.items;
      faults = o.faults;
    } };

    ghost invariant = { λ o. o.gone ≤ vec_len o.kept };
}

impl Outlet {
    /// An outlet that has taken nothing. It takes no memory.
    pub fn new(alloc: Global) -> Outlet
        ensures { result ≡ no_bytes }
    {
        Outlet {
            kept: Vec::new(alloc),
            gone: 0,
            faults: 0,
            history: History::new(),
        }
    }

    /// How many bytes are left.
    pub fn left(&self) -> usize
        ensures { result ≡ length self.now.left }
    {
        self.kept.len() - self.gone
    }

    /// Moves the next bytes to the front of `out`, as many as there are and as fit, and answers their count.
    pub fn pull(&mut self, out: &mut [u8]) -> usize
        ensures count { result ≡ min (length out.old) (length self.old.left) }
        ensures front { take result out.new ≡ take result self.old.left }
        ensures rest { drop result out.new ≡ drop result out.old }
        ensures after { self.new ≡ after_pull result self.old }
    {
        let count = out.len().min(self.left());
        let next = &self.kept[self.gone..self.gone + count];
        out[..count].copy_from_slice(next);
        self.history = History::with(&self.history, next);
        self.gone += count;
        self.shrink();
        count
    }

    // Moves what is left to the front, where that is no more than what is gone.
    fn shrink(&mut self)
        ensures { self.new ≡ self.old }
    {
        let left = self.kept.len() - self.gone;
        if left <= self.gone {
            self.kept.copy_within(self.gone.., 0);
            self.kept.truncate(left);
            self.gone = 0;
        }
    }
}

impl Sink for Outlet {
    ghost tells_taken = { λ _. true };

    ghost taken = { all_of };

    ghost write_faults = { λ o. o.faults };

    ghost read_side = { given_by };

    /// Takes the whole piece, or nothing of it where there is no memory.
    fn write(&mut self, piece: &[u8]) -> Result<(), Failed>
        ensures pulled { self.new.pulled ≡ self.old.pulled }
        ensures left { OnOk result (self.new.left ≡ self.old.left ++ piece.now) }
        ensures left_err { OnErr result (self.new.left ≡ self.old.left) }

        // What the trait says.
        ensures taken { OnOk result (all_of self.new ≡ all_of self.old ++ piece.now) }
        ensures part { OnErr result (TookPartOf piece.now (all_of self.old) (all_of self.new)) }
        ensures failed { OnErr result (HasRisen self.old.faults self.new.faults) }
        ensures wrote { OnOk result (self.new.faults ≡ self.old.faults) }
        ensures later { self.old.faults ≤ self.new.faults }
        ensures other_side { given_by self.new ≡ given_by self.old }
    {
        if self.kept.extend_from_slice(piece).is_ok() {
            return Ok(());
        }
        self.faults = self.faults.saturating_add(1);
        Err(Failed)
    }
}
