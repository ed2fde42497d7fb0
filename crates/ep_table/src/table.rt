//! The table and its answers.

ghost use Rattle.std.specs.Prelude.{◌≡◌, ◌+◌, ◌<◌, ◌≤◌, ◌^◌, ◌↔◌, IsTrue, false, position};
ghost use Rattle.ep_table.specs.Sessions.{no_sessions, is_free, is_live_as, is_live, is_held, held_count, accepted_by, after_accept, stop_answer, after_stop, after_free, AreNumbered};

use crate::limits::SLOTS;
use std::marker::Model;

/// What became of the wish for a session.
#[derive(Clone, Copy, Debug, PartialEq, Eq)]
pub enum Accepted {
    /// The session has this slot, from 0, and this id.
    Seat { slot: u32, id: u64 },
    /// All slots are held.
    Full,
}

/// The leave to end a session, for the connection that asked for it.
#[derive(Clone, Copy, Debug, PartialEq, Eq)]
pub struct StopTicket {
    pub id: u64,
    /// The session's slot, from 0.
    pub slot: u32,
    /// The number of the connection that asked.
    pub conn: u32,
}

/// What became of the wish to stop a session.
#[derive(Clone, Copy, Debug, PartialEq, Eq)]
pub enum StopAnswer {
    Ticket(StopTicket),
    /// No live session has this id.
    NotLive { id: u64 },
}

/// What a held slot holds.
#[derive(Clone, Copy, Debug, PartialEq, Eq)]
pub struct Seat {
    pub id: u64,
    /// Whether nobody has stopped the session yet.
    pub live: bool,
}

/// Which sessions hold which slots.
#[derive(Debug, Drop)]
pub struct Table {
    seats: [Option<Seat>; SLOTS],
    next: u64,
}

impl Model for Table {
    ghost use Rattle.ep_table.specs.Sessions.{Sessions, AreNumbered};

    ghost Value = { Sessions };

    ghost view = { λ table. record { seats = table.seats; next = table.next } };

    ghost invariant = { λ table. AreNumbered (record { seats = table.seats; next = table.next }) };
}

impl Table {
    /// A table without sessions. The first one gets the id 1.
    pub fn new() -> Table
        ensures { result ≡ no_sessions }
    {
        Table {
            seats: [None; SLOTS],
            next: 1,
        }
    }

    /// Gives a session the lowest free slot and the next id. Where all slots are held nothing changes.
    pub fn accept(&mut self) -> Accepted
        requires { self.old.next < 2 ^ 63 }
        ensures answer { result ≡ accepted_by self.old }
        ensures after { self.new ≡ after_accept self.old }
        ensures full { (result ≡ Accepted.Full) ↔ (held_count self.old ≡ SLOTS) }
    {
        match first_free(&self.seats) {
            Some(slot) => {
                let id = self.next;
                self.seats[slot] = Some(Seat { id, live: true });
                self.next = id + 1;
                Accepted::Seat {
                    slot: slot as u32,
                    id,
                }
            }
            None => Accepted::Full,
        }
    }

    /// Frees a held slot. The id of its session is live no more.
    pub fn free(&mut self, slot: u32)
        requires { IsTrue (is_held self.old slot) }
        ensures { self.new ≡ after_free self.old slot }
    {
        self.seats[slot as usize] = None;
    }

    /// Lets this connection end the session of this id, which is live no more but keeps its slot. Where the id is not
    /// live nothing changes.
    pub fn stop(&mut self, id: u64, conn: u32) -> StopAnswer
        ensures answer { result ≡ stop_answer self.old id conn }
        ensures after { self.new ≡ after_stop self.old id }
        ensures not_live { (result ≡ StopAnswer.NotLive id) ↔ (is_live self.old id ≡ false) }
        ensures stopped { is_live self.new id ≡ false }
    {
        match first_live(&self.seats, id) {
            Some(slot) => {
                self.seats[slot] = Some(Seat { id, live: false });
                StopAnswer::Ticket(StopTicket {
                    id,
                    slot: slot as u32,
                    conn,
                })
            }
            None => StopAnswer::NotLive { id },
        }
    }

    /// How many slots are held.
    pub fn held(&self) -> u32
        ensures count { result ≡ held_count self.now }
        ensures bound { result ≤ SLOTS }
    {
        self.seats.iter().filter(|seat| seat.is_some()).count() as u32
    }

    /// The id that the next session gets. All sessions of the table have lower ones.
    pub fn next(&self) -> u64
        ensures value { result ≡ self.now.next }
        ensures numbered { AreNumbered self.now }
    {
        self.next
    }
}

// The lowest free slot.
fn first_free(seats: &[Option<Seat>]) -> Option<usize>
    ensures { result ≡ position is_free seats.now }
{
    seats.iter().position(|seat| seat.is_none())
}

// The slot of the live session of this id.
fn first_live(seats: &[Option<Seat>], id: u64) -> Option<usize>
    ensures { result ≡ position (is_live_as id) seats.now }
{
    seats.iter().position(|seat| is_live_as(id, seat))
}

fn is_live_as(id: u64, seat: &Option<Seat>) -> bool
    ensures { result ≡ is_live_as id seat.now }
{
    match seat {
        Some(seat) => seat.live && seat.id == id,
        None => false,
    }
}
