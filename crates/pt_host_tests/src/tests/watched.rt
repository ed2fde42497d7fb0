//! A dock whose turns may wait, and its links, of which a gate learns when they are shut.
ghost use Rattle.std.specs.Prelude.{[], length, true};
ghost use Rattle.pt_io.specs.Memory.{is_over};

use super::gates::{Event, Holds};
use pt_io::{Arrival, Dock, Failed, Link, MemDock, MemLink, Sink, Source};
use std::marker::Model;

/// A link in memory. The gate is told once it is shut.
#[derive(Drop)]
pub(super) struct WatchedLink<'g> {
    link: MemLink,
    gate: &'g Holds,
    conn: u32,
}

impl<'g> Model for WatchedLink<'g> {
    ghost use Rattle.pt_io.specs.Memory.{LinkState};

    ghost Value = { LinkState };

    ghost view = { λ s. s.link };
}

impl<'g> WatchedLink<'g> {
    /// The bytes taken.
    pub(super) fn taken(&self) -> &[u8] {
        self.link.taken()
    }
}

impl<'g> Source for WatchedLink<'g> {
    ghost tells_given = { λ _. true };

    ghost given = { λ s. s.source.given };

    ghost left = { λ s. s.source.left };

    ghost may_give = { λ s. length s.source.left };

    ghost read_faults = { λ s. s.source.faults };

    ghost write_side = { λ s. record { tells = true; taken = s.sink.taken; faults = s.sink.faults } };

    fn read(&mut self, buf: &mut [u8]) -> Result<usize, Failed> {
        self.link.read(buf)
    }
}

impl<'g> Sink for WatchedLink<'g> {
    ghost tells_taken = { λ _. true };

    ghost taken = { λ s. s.sink.taken };

    ghost write_faults = { λ s. s.sink.faults };

    ghost read_side = { λ s. record {
      tells = true;
      given = s.source.given;
      left = s.source.left;
      may_give = length s.source.left;
      faults = s.source.faults;
    } };

    fn write(&mut self, piece: &[u8]) -> Result<(), Failed> {
        self.link.write(piece)
    }
}

impl<'g> Link for WatchedLink<'g> {
    ghost use Rattle.std.specs.Prelude.{refl};

    fn shut(&mut self) {
        self.link.shut();
        self.gate.tell(Event::Shut { conn: self.conn });
    }

    ghost reads = { λ _. refl };

    ghost writes = { λ _. refl };
}

/// A dock in memory, whose turns wait at a gate.
#[derive(Drop)]
pub(super) struct WatchedDock<'g> {
    dock: MemDock,
    gate: &'g Holds,
    turns: u64,
    conns: u32,
}

impl<'g> Model for WatchedDock<'g> {
    ghost use Rattle.pt_io.specs.Memory.{DockState};

    ghost Value = { DockState };

    ghost view = { λ d. d.dock };
}

impl<'g> WatchedDock<'g> {
    pub(super) fn new(dock: MemDock, gate: &'g Holds) -> WatchedDock<'g> {
        WatchedDock {
            dock,
            gate,
            turns: 0,
            conns: 0,
        }
    }
}

impl<'g> Dock for WatchedDock<'g> {
    type Link = WatchedLink<'g>;

    ghost greeting = { λ _. [] };

    ghost arrivals = { λ s. s.arrivals };

    ghost quiets = { λ s. s.quiets };

    ghost dock_faults = { λ s. s.faults };

    ghost is_closed = { is_over };

    fn next(&mut self) -> Result<Arrival<WatchedLink<'g>>, Failed> {
        self.turns = self.turns.saturating_add(1);
        self.gate.turn(self.turns);
        match self.dock.next() {
            Ok(Arrival::Link(link)) => {
                self.conns = self.conns.saturating_add(1);
                Ok(Arrival::Link(WatchedLink {
                    link,
                    gate: self.gate,
                    conn: self.conns,
                }))
            }
            Ok(Arrival::Quiet) => Ok(Arrival::Quiet),
            Ok(Arrival::Closed) => Ok(Arrival::Closed),
            Err(Failed) => Err(Failed),
        }
    }
}
