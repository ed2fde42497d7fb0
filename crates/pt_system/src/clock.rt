//! The system's clocks as a clock that threads share. It is trusted: no clause can say what the system answers.

use pt_io::Clock;
use std::time::Duration;
use std::{io, time};

/// A clock that was set by the system's time when it was made, and goes on with the system's monotonic clock. So it never
/// goes back, whatever the system's time is set to meanwhile.
#[derive(Drop)]
pub struct SystemClock<R: time::Clock + Sync> {
    system: R,
    // The time at which the monotonic clock stood at 0, in nanoseconds since 1970.
    zero: u64,
}

impl<R: time::Clock + Sync> SystemClock<R> {
    /// The clock of this system, set to its time.
    pub fn new(system: R) -> SystemClock<R> {
        let time = nanoseconds(system.since_1970());
        let zero = time.saturating_sub(nanoseconds(system.monotonic()));
        SystemClock { system, zero }
    }
}

impl<R: time::Clock + Sync> Clock for SystemClock<R> {
    /// The time in nanoseconds since 1970, and the last number where 64 bits don't hold it, from the year 2554 on.
    fn now(&self) -> u64 {
        let passed = nanoseconds(self.system.monotonic());
        self.zero.saturating_add(passed)
    }
}

// What a clock says in nanoseconds: 0 where it fails, and the last number where 64 bits don't hold it.
fn nanoseconds(said: io::Result<Duration>) -> u64 {
    match said {
        Ok(time) => u64::try_from(time.as_nanos()).unwrap_or(u64::MAX),
        Err(_) => 0,
    }
}
