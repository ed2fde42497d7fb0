//! The rounds: in each of them one thread makes a write.
ghost use Rattle.std.specs.Prelude.{◌≡◌, IfOk};
ghost use Rattle.pt_gen.specs.Schedule.{gets, plan_of, thread_at, write_at, writes_before};
ghost use Rattle.pt_gen.specs.state.ToCome.{number_of};

use crate::limits::THREADS;
use crate::session::Session;
use ep_defs::Write;
use ep_defs::limits::WRITES;
use pt_load::{Plan, STORE_OPENED, event_at, nth_write};
use std::alloc::{AllocError, Global};

/// How many rounds there are, numbered from 0, and the seed, which says what is written in them.
#[derive(Clone, Copy, Debug)]
pub(crate) struct Rounds {
    pub(crate) seed: u64,
    pub(crate) count: u32,
}

impl Rounds {
    // The thread that makes the round's write.
    pub(crate) fn thread_at(self, round: u32) -> u32
        ensures { result ≡ thread_at self.seed round }
    {
        let turn = self.seed % u64::from(THREADS) + u64::from(round);
        1 + (turn % u64::from(THREADS)) as u32
    }

    // The round's write, in memory of its own.
    pub(crate) fn write_at(self, alloc: Global, round: u32) -> Result<Write, AllocError>
        ensures { IfOk result (λ write. write ≡ write_at self.seed round) }
    {
        nth_write(
            alloc,
            &self.plan(),
            self.thread_at(round),
            self.writes_before(round),
        )
    }

    // Whether a session gets the round's write.
    pub(crate) fn are_got(self, session: Session, round: u32) -> bool
        ensures { result ≡ gets (write_at self.seed round) (number_of session) }
    {
        match session {
            Session::Wide => true,
            Session::Narrow => {
                let thread = self.thread_at(round);
                event_at(&self.plan(), thread, self.writes_before(round)) == STORE_OPENED
            }
        }
    }

    // The plan by which threads make their writes.
    pub(crate) fn plan(self) -> Plan
        ensures { result ≡ plan_of self.seed }
    {
        Plan {
            seed: self.seed,
            threads: THREADS,
            writes: WRITES,
        }
    }

    // How many writes the round's thread made before.
    pub(crate) fn writes_before(self, round: u32) -> u32
        ensures { result ≡ writes_before self.seed round }
    {
        round / THREADS
    }
}
