//! A gate that counts what a run does, and holds its threads at some of their writes.
use pt_io::{Gate, Moment};
use std::sync::atomic::{AtomicBool, AtomicU64, Ordering};
use std::thread;

/// How often a thread that is held looks before it gives up.
const LOOKS: u32 = 10_000_000;

/// Where threads are held.
#[derive(Clone, Copy)]
pub(super) enum Place {
    Nowhere,
    /// In the write with this number, which has begun.
    In(u32),
    /// Behind the write with this number.
    Behind(u32),
    /// Behind each write.
    BehindEach,
}

/// Where threads are held, and until when.
#[derive(Clone, Copy)]
pub(super) struct Hold {
    pub(super) place: Place,
    /// So many sweeps have ended since the thread came there.
    pub(super) sweeps: u64,
    /// The sweeps have taken so many events in all.
    pub(super) taken: u64,
    /// So many times a thread came there.
    pub(super) arrivals: u64,
}

impl Hold {
    // Whether a thread is held at this moment.
    fn is_at(self, at: Moment) -> bool {
        match (self.place, at) {
            (Place::In(held), Moment::Begun { index, .. }) => index == held,
            (Place::Behind(held), Moment::Wrote { index, .. }) => index == held,
            (Place::BehindEach, Moment::Wrote { .. }) => true,
            _ => false,
        }
    }
}

/// The gate of a run.
#[derive(Drop)]
pub(super) struct Watch {
    hold: Hold,
    writes: AtomicU64,
    sweeps: AtomicU64,
    taken: AtomicU64,
    arrivals: AtomicU64,
    gave_up: AtomicBool,
}

impl Watch {
    pub(super) fn new(hold: Hold) -> Watch {
        Watch {
            hold,
            writes: AtomicU64::new(0),
            sweeps: AtomicU64::new(0),
            taken: AtomicU64::new(0),
            arrivals: AtomicU64::new(0),
            gave_up: AtomicBool::new(false),
        }
    }

    /// How many writes have ended.
    pub(super) fn writes(&self) -> u64 {
        self.writes.load(Ordering::SeqCst)
    }

    /// Whether no thread waited in vain.
    pub(super) fn has_met(&self) -> bool {
        !self.gave_up.load(Ordering::SeqCst)
    }

    // Holds a thread.
    fn wait(&self) {
        self.arrivals.fetch_add(1, Ordering::SeqCst);
        let before = self.sweeps.load(Ordering::SeqCst);
        for _ in 0..LOOKS {
            if self.is_over(before) {
                return;
            }
            thread::yield_now();
        }
        self.gave_up.store(true, Ordering::SeqCst);
    }

    // Whether a thread may go on that came when there were so many sweeps before.
    fn is_over(&self, before: u64) -> bool {
        let sweeps = self.sweeps.load(Ordering::SeqCst).wrapping_sub(before);
        sweeps >= self.hold.sweeps
            && self.taken.load(Ordering::SeqCst) >= self.hold.taken
            && self.arrivals.load(Ordering::SeqCst) >= self.hold.arrivals
    }
}

impl Gate for Watch {
    fn pass(&self, at: Moment) {
        match at {
            Moment::Wrote { .. } => {
                self.writes.fetch_add(1, Ordering::SeqCst);
            }
            Moment::Swept { taken, .. } => {
                self.taken.fetch_add(taken, Ordering::SeqCst);
                self.sweeps.fetch_add(1, Ordering::SeqCst);
            }
            _ => (),
        }
        if self.hold.is_at(at) {
            self.wait();
        }
    }
}
