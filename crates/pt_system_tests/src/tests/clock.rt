//! A system that says its time, and one that says none.
use pt_io::Clock;
use pt_system::SystemClock;
use std::io::ErrorKind;
use std::sync::atomic::{AtomicU64, Ordering};
use std::time::Duration;
use std::{io, time};

// Its monotonic clock goes on by a second at each look. It says this time since 1970, or fails.
#[derive(Drop)]
struct Said {
    seconds: AtomicU64,
    since_1970: Option<Duration>,
}

impl time::Clock for Said {
    fn monotonic(&self) -> io::Result<Duration> {
        Ok(Duration::new(self.seconds.fetch_add(1, Ordering::SeqCst), 3))
    }

    fn since_1970(&self) -> io::Result<Duration> {
        self.since_1970.ok_or(io::Error::from(ErrorKind::Other))
    }
}

// What a clock says once it was set by a system that says this.
fn said_by(since_1970: Option<Duration>) -> u64 {
    let clock = SystemClock::new(Said {
        seconds: AtomicU64::new(7),
        since_1970,
    });
    clock.now()
}

#[test]
fn a_clock_goes_on_from_the_time_at_which_it_was_set(rt: HostRuntime) {
    let said = [
        (
            Some(Duration::new(1_700_000_000, 5)),
            1_700_000_001_000_000_005,
        ),
        (Some(Duration::new(18_446_744_073, 0)), u64::MAX),
        (Some(Duration::new(18_446_744_074, 0)), u64::MAX),
        (Some(Duration::new(1, 0)), 8_000_000_003),
        (None, 8_000_000_003),
    ];
    for (since_1970, nanoseconds) in said {
        assert_eq!(rt; said_by(since_1970), nanoseconds);
    }
}
