//! A thread's turn to write.
ghost use Rattle.std.specs.Prelude.{◌≡◌, Some, option_map};
ghost use Rattle.ep_guarded.specs.Tied.{stand_in};
ghost use Rattle.ep_live.specs.Live.{with_one, IsNextWrite};
ghost use Rattle.ep_live.specs.Written.{IsWrittenFrom};

use crate::live::Live;
use crate::next_write::NextWrite;
use crate::written::Written;
use ep_guarded::{Agreed, Program, TiedRow};
use ep_locks::Held;
use ep_tie::Right;
use pt_io::Gate;
use std::marker::Model;
use std::sync::Wait;

/// The row of a thread that is to write next, taken, where a session gets the write. It can't be let go: it ends by `write`
/// alone. Contracts see the row.
pub struct Turn<'t, 'a, P: Program> {
    pub(crate) live: &'t Live<'a, P>,
    pub(crate) number: usize,
    pub(crate) row: Box<TiedRow<'a, P>>,
    pub(crate) held: Held<Box<TiedRow<'a, P>>>,
}

impl<'t, 'a, P: Program> Model for Turn<'t, 'a, P> {
    ghost use Rattle.std.specs.Prelude.{◌≡◌, ◌<◌, false};
    ghost use Rattle.ep_guarded.specs.Tied.{TiedRowState};

    ghost Value = { TiedRowState };

    ghost view = { λ t. t.row.value };

    ghost invariant = { λ t. (t.held.row ≡ t.live.now.locks) × (t.held.number ≡ t.number) × (t.row.value.number ≡ t.number) × (t.row.value.row.in_write ≡ false) × (t.number < P.rows) };
}

impl<'t, 'a, P: Program> Turn<'t, 'a, P> {
    /// The next write of the row's thread, which has its half of the tie: it is shown to each session that gets it, and the
    /// row goes back. The thread passes the gate between the begin and the first show. It waits for each buffer that is due
    /// and for the pools of their sessions, and takes no memory. It answers the write's number, and which sessions it was
    /// shown to and which of them refused it.
    #[inline(always)]
    pub fn write<R: Wait, G: Gate>(
        self,
        rt: &R,
        gate: &G,
        half: &mut Right<P, Agreed<'a>>,
        next: &NextWrite<'_>,
    ) -> Written
        requires place { half.old.place ≡ self.number }
        requires write { IsNextWrite P.events P.writes half.old.value next.now.write.now }
        ensures answer { IsWrittenFrom next.now.stamp next.now.write.now self.entry.row result }
        ensures stood { stand_in half.old.value ≡ Some (record { thread = self.entry.row.thread; index = self.entry.row.index }) }
        ensures stands { stand_in half.new.value ≡ option_map with_one (stand_in half.old.value) }
        ensures place { half.new.place ≡ half.old.place }
    {
        let Turn {
            live,
            number,
            row,
            held,
        } = self;
        let mut row = row;
        let written = live.write_on(rt, gate, number, &mut row, half, next);
        live.put_row(held, row);
        written
    }
}
