//! Two rows behind locks, and sessions that are open on one of them or on both while threads write.
use std::test::Fail;

mod begun;
mod places;
mod plays;
mod rows;
mod threads;

use plays::{Play, told};

#[test]
fn a_session_takes_what_a_thread_wrote(rt: HostRuntime) -> Result<(), Fail> {
    let said = told(&rt, rt.alloc(), Play::Taken, 2, 4)?;
    // it was opened, the last number stolen, the shares, chunks taken and given; and thread, from, to, taken, refused, last
    let wanted = [[1, 1, 3, 2, 2, 0], [1, 0, 2, 2, 0, 2]];
    assert_eq!(rt; said.as_slice(), wanted.as_slice());
    Ok(())
}

#[test]
fn a_session_takes_beside_two_threads(rt: HostRuntime) -> Result<(), Fail> {
    let said = told(&rt, rt.alloc(), Play::Beside, 300, 4)?;
    // of each row thread, from, to, and what was taken or refused; and the shares, chunks owed, the slot, and all chunks
    let wanted = [
        [1, 0, 300, 300, 0, 0],
        [2, 0, 300, 300, 0, 0],
        [3, 0, 3, 4, 0, 0],
    ];
    assert_eq!(rt; said.as_slice(), wanted.as_slice());
    Ok(())
}

// The lines of three lives of the first row, and of three of the other. Of each, whether the session was opened, the thread of
// marks that it gave too early, how many writes had their number, the slots in which all were shown and in which one was, and
// whether the next thread entered; the thread that leaves, how many writes it has begun, the slots in which a session was open,
// and whether the row says that it was left; and the marks' thread, from, to, and what was taken or refused.
const LIVES: [[u64; 6]; 18] = [
    [1, 0, 200, 8, 8, 1],
    [1, 200, 8, 1, 0, 0],
    [1, 0, 200, 200, 0, 0],
    [1, 0, 200, 8, 8, 1],
    [3, 200, 8, 1, 0, 0],
    [3, 0, 200, 200, 0, 0],
    [1, 0, 200, 8, 8, 1],
    [5, 200, 8, 1, 0, 0],
    [5, 0, 200, 200, 0, 0],
    [1, 0, 200, 8, 8, 1],
    [2, 200, 8, 1, 0, 0],
    [2, 0, 200, 200, 0, 0],
    [1, 0, 200, 8, 8, 1],
    [4, 200, 8, 1, 0, 0],
    [4, 0, 200, 200, 0, 0],
    [1, 0, 200, 8, 8, 1],
    [6, 200, 8, 1, 0, 0],
    [6, 0, 200, 200, 0, 0],
];

#[test]
fn a_session_is_opened_and_closed_in_each_of_three_lives(rt: HostRuntime) -> Result<(), Fail> {
    let said = told(&rt, rt.alloc(), Play::Lives, 200, 4)?;
    assert_eq!(rt; said.as_slice(), LIVES.as_slice());
    Ok(())
}

#[test]
fn a_write_during_an_opening_is_seen_by_those_that_are_open(rt: HostRuntime) -> Result<(), Fail> {
    let said = told(&rt, rt.alloc(), Play::Openings, 200, 4)?;
    // thread, from, to, taken, refused, last; and it was opened, writes with their number, the slot in which all were shown,
    // that in which one was refused, openings in order, and how many more or fewer writes they saw than were shown to both
    let wanted = [[1, 0, 200, 200, 0, 200], [1, 200, 8, 0, 50, 0]];
    assert_eq!(rt; said.as_slice(), wanted.as_slice());
    Ok(())
}

#[test]
fn a_second_session_has_the_slot_of_one_that_was_retired(rt: HostRuntime) -> Result<(), Fail> {
    let said = told(&rt, rt.alloc(), Play::Retired, 0, 7)?;
    // of each session the shares, chunks owed, the slot, and all chunks
    let wanted = [[3, 0, 3, 4, 0, 0], [3, 0, 3, 7, 0, 0]];
    assert_eq!(rt; said.as_slice(), wanted.as_slice());
    Ok(())
}
