//! Runs whose session is stopped.
use super::gates::{answered, begun, late, late_as, swept, until, until_turn, wrote};
use super::peers::STOP;
use super::scene::{Case, come, run, runs};
use pt_peers::{JOBS, MOST};
use std::alloc::AllocError;

// A session that is stopped within its threads' writes was open on each from the first write on.
#[test]
fn a_session_is_stopped_while_its_threads_write(rt: HostRuntime) -> Result<(), AllocError> {
    let cases: [Case<'_>; 2] = [
        (
            runs(2, 10, 1),
            &[MOST, STOP],
            &[until(wrote(1, 5), answered(2))],
            "rows [1-2 10]\nsession 1 of 1: stopped by 2 [1-*\nconnection 2: stops 1 28 bytes",
        ),
        // The other session goes on.
        (
            runs(2, 16, 2),
            &[MOST, JOBS, STOP],
            &[until(wrote(1, 5), answered(3))],
            "rows [1-2 16]\nsession 1 of 1: stopped by 3 [1-*\nsession 2 of 2: program [1-2 0..16 2+0]\nconnection 3: stops 1 28 bytes",
        ),
    ];
    for (asked, peers, holds, wanted) in cases {
        let told = run(&rt, rt.alloc(), asked, peers, holds)?;
        assert!(rt; told.says(wanted) & told.is_within, "{}", told.text);
    }
    Ok(())
}

#[test]
fn a_session_is_stopped_before_and_behind_its_threads_writes(
    rt: HostRuntime,
) -> Result<(), AllocError> {
    let cases: [Case<'_>; 3] = [
        // Before any write. It counts among those that are waited for, though it has ended.
        (
            runs(2, 16, 2),
            &[MOST, STOP, JOBS],
            &[late_as(3, 1)],
            "rows [1-2 16]\nsession 1 of 1: stopped by 2 [1-2 0..0 0+0]\nsession 2 of 3: program [1-2 0..16 2+0]\nconnection 2: stops 1 28 bytes",
        ),
        // Behind the last write, before its role knows of the program's end.
        (
            runs(2, 16, 1),
            &[MOST, STOP],
            &[
                until_turn(begun(1, 0), 2),
                until(begun(1, 0), swept(1, 0)),
                late(2, wrote(1, 15)),
                late(2, wrote(2, 15)),
                until(swept(1, 0), answered(2)),
            ],
            "rows [1-2 16]\nsession 1 of 1: stopped by 2 [1-2 0..16 8+0]\nconnection 2: stops 1 28 bytes",
        ),
        // Once it has ended with the program.
        (
            runs(2, 16, 1),
            &[MOST, STOP],
            &[until_turn(begun(1, 0), 2), late_as(2, 1)],
            "rows [1-2 16]\nsession 1 of 1: program [1-2 0..16 8+0]\nconnection 2: error 80004005 24 bytes",
        ),
    ];
    come(&rt, rt.alloc(), &cases)
}
