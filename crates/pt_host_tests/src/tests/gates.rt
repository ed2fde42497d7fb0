//! What the threads of a run wait for in the tests.
use pt_io::{Gate, Moment};
use std::alloc::{AllocError, Global};
use std::sync::atomic::{AtomicBool, AtomicU64, Ordering};
use std::thread;

/// How often a gate looks before it gives up.
const LOOKS: u32 = 10_000_000;

/// What a gate learns of.
#[derive(Clone, Copy, PartialEq, Eq)]
pub(super) enum Event {
    /// A thread of the run came to a moment.
    At(Moment),
    /// The dock came to its turn with this number, from 1.
    Turn(u64),
    /// The link of the connection with this number was shut.
    Shut { conn: u32 },
}

/// Where somebody waits.
#[derive(Clone, Copy)]
enum Place {
    /// A thread of the run, at a moment.
    At(Moment),
    /// The dock, at its turn with this number, from 1.
    Turn(u64),
}

/// Whoever comes to a place waits there until something has happened so often. A sweep stands for each of its session that
/// took as much at least.
#[derive(Clone, Copy)]
pub(super) struct Hold {
    place: Place,
    awaited: Event,
    times: u64,
    /// Whether it counts only what happens while somebody waits.
    anew: bool,
}

/// Whoever comes to the first moment waits until the other one has come.
pub(super) fn until(at: Moment, awaited: Moment) -> Hold {
    Hold {
        place: Place::At(at),
        awaited: Event::At(awaited),
        times: 1,
        anew: false,
    }
}

/// The dock's turn with this number waits until the moment has come.
pub(super) fn late(turn: u64, awaited: Moment) -> Hold {
    Hold {
        place: Place::Turn(turn),
        awaited: Event::At(awaited),
        times: 1,
        anew: false,
    }
}

/// It waits until the link of this connection was shut.
pub(super) fn late_as(turn: u64, conn: u32) -> Hold {
    Hold {
        place: Place::Turn(turn),
        awaited: Event::Shut { conn },
        times: 1,
        anew: false,
    }
}

/// Whoever comes to the moment waits until the dock has come to its turn with this number. The server asks the dock no more
/// once all threads have ended.
pub(super) fn until_turn(at: Moment, turn: u64) -> Hold {
    Hold {
        place: Place::At(at),
        awaited: Event::Turn(turn),
        times: 1,
        anew: false,
    }
}

/// The same hold until it has come so often from then on.
pub(super) fn often(hold: Hold, times: u64) -> Hold {
    Hold {
        times,
        anew: true,
        ..hold
    }
}

pub(super) fn begun(thread: u32, index: u32) -> Moment {
    Moment::Begun { thread, index }
}

pub(super) fn wrote(thread: u32, index: u32) -> Moment {
    Moment::Wrote { thread, index }
}

pub(super) fn opened(session: u64) -> Moment {
    Moment::Opened { session }
}

/// A sweep of this session that took so much at least.
pub(super) fn swept(session: u64, taken: u64) -> Moment {
    Moment::Swept { session, taken }
}

pub(super) fn answered(conn: u32) -> Moment {
    Moment::Answered { conn }
}

// A hold, and how often that has happened which it awaits.
#[derive(Drop)]
struct Held {
    hold: Hold,
    come: AtomicU64,
}

/// A gate with some holds.
#[derive(Drop)]
pub(super) struct Holds {
    held: Vec<Held>,
    gave_up: AtomicBool,
}

impl Holds {
    pub(super) fn new(alloc: Global, holds: &[Hold]) -> Result<Holds, AllocError> {
        let mut held = Vec::new(alloc);
        for hold in holds {
            held.push(Held {
                hold: *hold,
                come: AtomicU64::new(0),
            })?;
        }
        Ok(Holds {
            held,
            gave_up: AtomicBool::new(false),
        })
    }

    /// Whether all that somebody waited for happened in time.
    pub(super) fn have_met(&self) -> bool {
        !self.gave_up.load(Ordering::SeqCst)
    }

    /// Something has happened.
    pub(super) fn tell(&self, event: Event) {
        for held in &self.held {
            if is_meant(event, held.hold.awaited) {
                held.come.fetch_add(1, Ordering::SeqCst);
            }
        }
    }

    /// The dock comes to its turn with this number.
    pub(super) fn turn(&self, number: u64) {
        self.tell(Event::Turn(number));
        for held in &self.held {
            if matches!(held.hold.place, Place::Turn(turn) if turn == number) {
                self.wait(held);
            }
        }
    }

    fn wait(&self, held: &Held) {
        if held.hold.anew {
            held.come.store(0, Ordering::SeqCst);
        }
        for _ in 0..LOOKS {
            if held.come.load(Ordering::SeqCst) >= held.hold.times {
                return;
            }
            thread::yield_now();
        }
        self.gave_up.store(true, Ordering::SeqCst);
    }
}

impl Gate for Holds {
    fn pass(&self, at: Moment) {
        let event = Event::At(at);
        self.tell(event);
        for held in &self.held {
            if matches!(held.hold.place, Place::At(meant) if is_meant(event, Event::At(meant))) {
                self.wait(held);
            }
        }
    }
}

// Whether it is what is meant.
fn is_meant(event: Event, meant: Event) -> bool {
    match (meant, event) {
        (
            Event::At(Moment::Swept { session, taken }),
            Event::At(
                Moment::Swept {
                    session: other,
                    taken: more,
                },
            ),
        ) => { session == other && taken <= more }
        (meant, event) => meant == event,
    }
}
