//! Runs of which a link or the dock fails.
use super::peers::{deaf, unheard};
use super::scene::{Asked, Case, come, lives, run, runs};
use super::stream::is_part;
use pt_peers::{JOBS, MOST};
use std::alloc::{AllocError, Global};
use std::process::Abort;
use std::sync::Wait;
use std::thread::Threads;
use std::time::Clock as Timer;

// The first link fails at its read, and at its reply; another session gets all.
#[test]
fn a_link_that_fails_begins_no_session(rt: HostRuntime) -> Result<(), AllocError> {
    let cases: [Case<'_>; 3] = [
        (
            runs(4, 80, 2),
            &[unheard(MOST, 1), JOBS],
            &[],
            "rows [1-4 80]\nsession 1 of 2: program [1-4 0..80 10+0]\nconnection 1: read fault 0 bytes",
        ),
        (
            runs(4, 80, 2),
            &[deaf(MOST, 1, 0), JOBS],
            &[],
            "rows [1-4 80]\nsession 2 of 2: program [1-4 0..80 10+0]\nconnection 1: write fault 0 bytes",
        ),
        (
            runs(4, 80, 2),
            &[deaf(MOST, 2, 0), JOBS],
            &[],
            "rows [1-4 80]\nsession 2 of 2: program [1-4 0..80 10+0]\nconnection 1: write fault 28 bytes",
        ),
    ];
    come(&rt, rt.alloc(), &cases)
}

// The first link fails behind the start of its stream; another session gets all.
#[test]
fn a_link_that_fails_ends_its_own_session(rt: HostRuntime) -> Result<(), AllocError> {
    let ended = "rows [1-4 80]\nsession 1 of 1: link\nsession 2 of 2: program [1-4 0..80 10+0]";
    for (keep, bytes) in [(0, 130), (5, 135)] {
        let peers = [deaf(MOST, 3, keep), JOBS];
        let told = run(&rt, rt.alloc(), runs(4, 80, 2), &peers, &[])?;
        let seen = (
            told.says(ended),
            told.taken.len(),
            is_part(rt.alloc(), &told.taken),
        );
        assert_eq!(rt; seen, (true, bytes, true), "{}", told.text);
    }
    Ok(())
}

// The first link fails at one write behind its stream's start after another, where its session ends and the other one gets
// all, until it fails at none that is made. Gives the number of that one.
fn first_that_is_not_made<R: Threads + Wait + Timer + Sync + Abort>(
    rt: &R,
    alloc: Global,
    asked: Asked,
    failed: &str,
    sound_run: &str,
) -> Result<u64, AllocError> {
    for failing in 3..1_000 {
        let peers = [deaf(MOST, failing, 7), JOBS];
        let told = run(rt, alloc, asked, &peers, &[])?;
        if told.says(sound_run) {
            return Ok(failing);
        }
        let is_failed = told.says(failed) & is_part(alloc, &told.taken);
        assert!(rt; is_failed, "write {failing}: {}", told.text);
    }
    Ok(1_000)
}

#[test]
fn each_write_of_a_link_fails_in_turn(rt: HostRuntime) -> Result<(), AllocError> {
    let cases = [
        (
            runs(2, 16, 2),
            "rows [1-2 16]\nsession 1 of 1: link\nsession 2 of 2: program [1-2 0..16 2+0]",
            "rows [1-2 16]\nsession 1 of 1: program [1-2 0..16 8+0]\nsession 2 of 2: program [1-2 0..16 2+0]",
        ),
        (
            lives(2, 16, 2, 2),
            "rows [3-4 16]\nsession 1 of 1: link\nsession 2 of 2: program [1-4 0..16 2+0]",
            "rows [3-4 16]\nsession 1 of 1: program [1-4 0..16 8+0]\nsession 2 of 2: program [1-4 0..16 2+0]",
        ),
    ];
    for (asked, failed, sound_run) in cases {
        let last = first_that_is_not_made(&rt, rt.alloc(), asked, failed, sound_run)?;
        assert!(rt; 4 < last && last < 1_000, "{last}");
    }
    Ok(())
}

// Nobody comes in any more, and what is there goes on to its end.
#[test]
fn a_dock_that_fails_ends_no_session(rt: HostRuntime) -> Result<(), AllocError> {
    let first = Asked {
        failing_turn: 1,
        ..runs(1, 0, 1)
    };
    let second = Asked {
        failing_turn: 2,
        ..runs(4, 80, 2)
    };
    let cases: [Case<'_>; 2] = [
        (first, &[], &[], "rows [1-1 0]\nthe dock failed"),
        (
            second,
            &[MOST, JOBS],
            &[],
            "rows [1-4 80]\nsession 1 of 1: program [1-4 0..80 40+0]\nthe dock failed",
        ),
    ];
    come(&rt, rt.alloc(), &cases)
}
