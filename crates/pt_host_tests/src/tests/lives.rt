//! Runs whose rows serve one thread after another.
use super::gates::{answered, begun, opened, swept, until, wrote};
use super::peers::{STOP, deaf};
use super::scene::{Case, come, lives};
use pt_peers::{INFO, JOBS, MOST};
use std::alloc::AllocError;

// A session is open on each of a row's threads, from its first write to its last.
#[test]
fn threads_come_and_go(rt: HostRuntime) -> Result<(), AllocError> {
    let cases: [Case<'_>; 4] = [
        (lives(2, 80, 1, 3), &[], &[], "rows [5-6 80]"),
        (
            lives(2, 80, 1, 3),
            &[MOST],
            &[],
            "rows [5-6 80]\nsession 1 of 1: program [1-6 0..80 40+0]",
        ),
        (
            lives(2, 0, 1, 3),
            &[MOST],
            &[],
            "rows [5-6 0]\nsession 1 of 1: program [1-6 0..0 0+0]",
        ),
        (
            lives(256, 8, 1, 2),
            &[MOST],
            &[],
            "rows [257-512 8]\nsession 1 of 1: program [1-512 0..8 4+0]",
        ),
    ];
    come(&rt, rt.alloc(), &cases)
}

#[test]
fn sessions_come_and_end_between_two_threads(rt: HostRuntime) -> Result<(), AllocError> {
    let cases: [Case<'_>; 3] = [
        // The second session comes once the second threads have made one write each.
        (
            lives(2, 80, 1, 3),
            &[MOST, JOBS],
            &[
                until(answered(2), begun(3, 0)),
                until(answered(2), begun(4, 0)),
                until(wrote(3, 0), opened(2)),
                until(wrote(4, 0), opened(2)),
            ],
            "rows [5-6 80]\nsession 1 of 1: program [1-6 0..80 40+0]\nsession 2 of 2: program [3-4 1..80 10+0] [5-6 0..80 10+0]",
        ),
        // The session's role learns of the stop once the first threads have made all their writes.
        (
            lives(2, 80, 1, 2),
            &[MOST, INFO, STOP],
            &[
                until(answered(2), wrote(1, 79)),
                until(answered(2), wrote(2, 79)),
                until(swept(1, 0), answered(3)),
            ],
            "rows [3-4 80]\nsession 1 of 1: stopped by 3 [1-2 0..80 40+0]\nconnection 2: info 62 bytes\nconnection 3: stops 1 28 bytes",
        ),
        // The first write behind its stream's start is made once they have, and fails.
        (
            lives(2, 80, 2, 2),
            &[deaf(MOST, 3, 0), JOBS],
            &[
                until(begun(1, 0), swept(1, 0)),
                until(begun(2, 0), swept(1, 0)),
                until(swept(1, 0), wrote(1, 79)),
                until(swept(1, 0), wrote(2, 79)),
            ],
            "rows [3-4 80]\nsession 1 of 1: link\nsession 2 of 2: program [1-4 0..80 10+0]",
        ),
    ];
    come(&rt, rt.alloc(), &cases)
}
