//! Whole runs, whose links take all that is written.
use super::peers::STOP;
use super::scene::{Asked, Case, come, run, runs};
use super::stream::described_in;
use pt_peers::{INFO, JOBS, MOST};
use std::alloc::AllocError;

const BOTH: &str =
    "rows [1-2 16]\nsession 1 of 1: program [1-2 0..16 8+0]\nsession 2 of 2: program [1-2 0..16 2+0]";

// A session gets of each thread what its rules admit, whatever the number of streaming roles is.
#[test]
fn sessions_get_what_their_rules_admit(rt: HostRuntime) -> Result<(), AllocError> {
    let alone = Asked {
        streamers: 1,
        ..runs(2, 16, 2)
    };
    let apart = Asked {
        streamers: 64,
        ..runs(2, 16, 2)
    };
    let cases: [Case<'_>; 5] = [
        (runs(1, 0, 1), &[], &[], "rows [1-1 0]"),
        (
            runs(4, 10_000, 2),
            &[MOST, JOBS],
            &[],
            "rows [1-4 10000]\nsession 1 of 1: program [1-4 0..10000 5000+0]\nsession 2 of 2: program [1-4 0..10000 1250+0]",
        ),
        (alone, &[MOST, JOBS], &[], BOTH),
        (apart, &[MOST, JOBS], &[], BOTH),
        (
            runs(1, 8, 1),
            &[INFO, STOP, MOST],
            &[],
            "rows [1-1 8]\nsession 1 of 3: program [1-1 0..8 4+0]\nconnection 1: info 62 bytes\nconnection 2: error 80004005 24 bytes",
        ),
    ];
    come(&rt, rt.alloc(), &cases)
}

// Who asks for a rundown gets events of four definitions, each described once; who asks for none has no events of thread 0.
#[test]
fn a_session_with_a_rundown_describes_what_it_used(rt: HostRuntime) -> Result<(), AllocError> {
    let alloc = rt.alloc();
    let most = run(&rt, alloc, runs(2, 16, 1), &[MOST], &[])?;
    let jobs = run(&rt, alloc, runs(2, 16, 1), &[JOBS], &[])?;
    let described = (
        described_in(alloc, &most.taken),
        described_in(alloc, &jobs.taken),
    );
    assert_eq!(rt; described, (Some(4), Some(0)));
    Ok(())
}

// Nobody is let in behind them, so the threads wait for no session more, and the session that is there goes on to its end.
#[test]
fn a_run_takes_500_connections(rt: HostRuntime) -> Result<(), AllocError> {
    let mut peers = [INFO; 501];
    peers[0] = JOBS;
    let told = run(&rt, rt.alloc(), runs(2, 8, 2), &peers, &[])?;
    let mut wanted = String::from_str(
        rt.alloc(),
        "rows [1-2 8]\nsession 1 of 1: program [1-2 0..8 1+0]",
    )?;
    for conn in 2..=500 {
        write!(wanted, "\nconnection {conn}: info 62 bytes")?;
    }
    assert_eq!(rt; told.text, wanted);
    Ok(())
}
