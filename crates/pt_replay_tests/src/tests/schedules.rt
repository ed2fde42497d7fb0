//! Schedules, good and bad: which line is refused and why, whose stream is whose, and inputs and outputs that fail.
use crate::tests::pieces::{Piece, joined, repeated};
use crate::tests::runs::{Calls, GOOD, compare, replayed};
use crate::tests::streams::{OPENING, WRITTEN};
use pt_command::status;
use std::alloc::{AllocError, Global};
use std::test::Fail;

/// What stands behind the opening, from line 4 on, and what the replay answers: it names the first bad line.
const BEHIND_THE_OPENING: [(&[u8], &[u8]); 35] = [
    (b"open 1 1\n", b"error: line 4 column 1: AlreadyOpen\n"),
    (b"open 1 1", b"error: line 4 column 1: AlreadyOpen\n"),
    (b"\n#\nopne 1 1\n", b"error: line 6 column 1: Word\n"),
    (
        b"open 1 1\nopne 1 1\n",
        b"error: line 4 column 1: AlreadyOpen\n",
    ),
    (b"close 1 1\r\n", b"error: line 4 column 9: Number\n"),
    (
        b"event 2 P 2 0 4 1 E -\n",
        b"error: line 4 column 1: LateEvent\n",
    ),
    (b"close 1 1\n", b"error: end: NotFinished 1\n"),
    (b"begin 1 5 1 x - - -\n", b"error: line 4 column 13: Hex\n"),
    (
        b"accept3 2 16 2 P:1:4\n",
        b"error: line 4 column 14: Number\n",
    ),
    // The last line is a step that can't be made.
    (
        b"accept 1 16 P:1:4\n",
        b"error: line 4 column 1: SessionNumber\n",
    ),
    (
        b"accept 2 0 P:1:4\n",
        b"error: line 4 column 1: BadConfig\n",
    ),
    (b"open 2 1\n", b"error: line 4 column 1: NoSession\n"),
    (b"point 2 5\n", b"error: line 4 column 1: NoSession\n"),
    (b"open 1 257\n", b"error: line 4 column 1: NoThread\n"),
    (b"enter 256\n", b"error: line 4 column 1: NoThread\n"),
    (b"enter 300\n", b"error: line 4 column 1: ThreadsFull\n"),
    (b"leave 300\n", b"error: line 4 column 1: NoThread\n"),
    (b"leave 1\nleave 1\n", b"error: line 5 column 1: NoThread\n"),
    (
        b"leave 1\nbegin 1 5 1 - - - -\n",
        b"error: line 5 column 1: NoThread\n",
    ),
    (
        b"leave 2\nenter 300\nenter 301\n",
        b"error: line 6 column 1: ThreadsFull\n",
    ),
    (
        b"leave 2\nenter 300\nenter 300\n",
        b"error: line 6 column 1: NoThread\n",
    ),
    // The thread's row is taken while the session is open on it.
    (
        b"leave 1\nenter 300\n",
        b"error: line 5 column 1: ThreadsFull\n",
    ),
    (
        b"leave 1\nclose 1 1\nenter 300\nopen 1 1\n",
        b"error: line 7 column 1: NoThread\n",
    ),
    (b"open 1 1\n", b"error: line 4 column 1: AlreadyOpen\n"),
    (
        b"begin 1 5 1 - - - -\nbegin 1 5 1 - - - -\n",
        b"error: line 5 column 1: InWrite\n",
    ),
    (
        b"begin 1 5 1 - - - -\nleave 1\n",
        b"error: line 5 column 1: InWrite\n",
    ),
    (b"show 1 1\n", b"error: line 4 column 1: NotInWrite\n"),
    (
        b"begin 1 5 2 - - - -\n",
        b"error: line 4 column 1: NoEvent\n",
    ),
    (
        b"begin 1 5 1 - - - -\nshow 1 1\nshow 1 1\n",
        b"error: line 6 column 1: NotDue\n",
    ),
    (
        b"begin 1 5 1 - - - -\nend 1\n",
        b"error: line 5 column 1: ShowsDue\n",
    ),
    (b"steal 1 2\n", b"error: line 4 column 1: NotOpen\n"),
    (b"steal 1 300\n", b"error: line 4 column 1: NoThread\n"),
    (
        b"begin 1 5 1 - - - -\nshow 1 1\nsteal 1 1\nsteal 1 1\n",
        b"error: line 7 column 1: HandFull\n",
    ),
    // What a steal inside a write took is in hand too.
    (
        b"begin 1 5 1 - - - -\nshow 1 1\nsteal 1 1\nend 1\nclose 1 1\n",
        b"error: line 8 column 1: HandFull\n",
    ),
    (b"finish 1 9\n", b"error: line 4 column 1: StillOpen\n"),
];

/// Texts without a step, and what the replay answers.
const TEXTS: [(&[u8], &[u8]); 12] = [
    (b"", b"error: end: NotFinished 1\n"),
    (b"\n", b"error: end: NotFinished 1\n"),
    (
        b"event 1 P 1 0 4 1 E -\nevent 2 P 1 0 4 1 E -\n",
        b"error: line 2 column 1: Same\n",
    ),
    (
        b"event 1 P 1 0 4 1 E -\naccept 1 16 P:1:4\nopne 1 1\n",
        b"error: line 3 column 1: Word\n",
    ),
    (
        b"event 2 P 1 0 4 1 E -\n",
        b"error: line 1 column 7: EventOrder\n",
    ),
    (
        b"event 1 P 1 0 4 1 E x\n",
        b"error: line 1 column 21: Fields\n",
    ),
    (
        b"accept3 1 16 2 P:1:4\n",
        b"error: line 1 column 14: Number\n",
    ),
    (
        b"accept4 1 16 2 1 P:1:4\n",
        b"error: line 1 column 14: Number\n",
    ),
    (
        b"accept4 1 16 1 2 P:1:4\n",
        b"error: line 1 column 16: Number\n",
    ),
    (
        b"event 1 Pipe-Rundown 1 0 4 0 EventDescription -\n",
        b"error: line 1 column 1: Same\n",
    ),
    (b"enter 256\n", b"error: line 1 column 1: NoThread\n"),
    (b"enter 300\n", b"error: line 1 column 1: ThreadsFull\n"),
];

// The answers of the replay for a session to texts that stand behind the same one.
fn put_wrong_answers(
    alloc: Global,
    wrong: &mut String,
    session: u32,
    first: &[u8],
    rows: &[(&[u8], &[u8])],
) -> Result<(), AllocError> {
    for (row, (second, error)) in rows.iter().enumerate() {
        let schedule = joined(alloc, &[first, *second])?;
        let found = replayed(alloc, session, &schedule, GOOD)?;
        compare(alloc, wrong, row, &found, (status::REFUSED, 0, error))?;
    }
    Ok(())
}

fn wrong_answers(alloc: Global) -> Result<String, AllocError> {
    let mut wrong = String::new(alloc);
    put_wrong_answers(alloc, &mut wrong, 1, OPENING, &BEHIND_THE_OPENING)?;
    put_wrong_answers(alloc, &mut wrong, 1, b"", &TEXTS)?;
    put_wrong_answers(
        alloc,
        &mut wrong,
        1,
        WRITTEN,
        &[(b"", b"error: end: NotFinished 1\n")],
    )?;
    let other: (&[u8], &[u8]) = (b"finish 1 200\n", b"error: end: NotFinished 4294967295\n");
    put_wrong_answers(alloc, &mut wrong, u32::MAX, WRITTEN, &[other])?;
    Ok(wrong)
}

#[test]
fn a_text_is_refused_at_its_first_bad_line_or_its_end(rt: HostRuntime) -> Result<(), Fail> {
    assert_eq!(rt; wrong_answers(rt.alloc())?.as_str(), "");
    Ok(())
}

/// Long texts, and what the replay answers.
const LONG_TEXTS: [(&[Piece], &[u8]); 7] = [
    // There are at most 64 sessions.
    (
        &[(b"accept % 1 P:1:4\n", 1, 65)],
        b"error: line 65 column 1: Full\n",
    ),
    // A write has at most 100 frames and 60,000 bytes.
    (
        &[
            (OPENING, 1, 1),
            (b"begin 1 5 1 - - 1", 1, 1),
            (b",1", 1, 99),
            (b" ff", 1, 1),
            (b"00", 1, 59_999),
            (b"\nend 1\n", 1, 1),
        ],
        b"error: line 5 column 1: ShowsDue\n",
    ),
    (
        &[
            (OPENING, 1, 1),
            (b"begin 1 5 1 - - 1", 1, 1),
            (b",1", 1, 100),
            (b" ff\nend 1\n", 1, 1),
        ],
        b"error: line 4 column 1: TooLarge\n",
    ),
    (
        &[
            (OPENING, 1, 1),
            (b"begin 1 5 1 - - 1 ff", 1, 1),
            (b"00", 1, 60_000),
            (b"\nend 1\n", 1, 1),
        ],
        b"error: line 4 column 1: TooLarge\n",
    ),
    // A line has at most 262,144 bytes, a comment too.
    (
        &[(b"\n\n", 1, 1), (b"#", 1, 262_144), (b"\nopne\n", 1, 1)],
        b"error: line 4 column 1: Word\n",
    ),
    (
        &[(b"\n\n", 1, 1), (b"#", 1, 262_145), (b"\nopne\n", 1, 1)],
        b"error: line 3 column 1: Long\n",
    ),
    (
        &[(b"\n\n", 1, 1), (b"#", 1, 300_000), (b"\nopne\n", 1, 1)],
        b"error: line 3 column 1: Long\n",
    ),
];

fn wrong_answers_to_long(alloc: Global) -> Result<String, AllocError> {
    let mut wrong = String::new(alloc);
    for (row, (pieces, error)) in LONG_TEXTS.iter().enumerate() {
        let schedule = repeated(alloc, pieces)?;
        let found = replayed(alloc, 1, &schedule, GOOD)?;
        compare(alloc, &mut wrong, row, &found, (status::REFUSED, 0, error))?;
    }
    Ok(wrong)
}

#[test]
fn limits_of_sessions_writes_and_lines_are_kept(rt: HostRuntime) -> Result<(), Fail> {
    assert_eq!(rt; wrong_answers_to_long(rt.alloc())?.as_str(), "");
    Ok(())
}

/// Events 1 to 3 have the keywords 1, 2 and 3. Session 1 admits the first and the third, session 2 the last two.
const TWO_SESSIONS: &[u8] =
    b"# two sessions\n\nevent 1 P 1 0 4 1 A -\nevent 2 P 2 0 4 2 B -\nevent 3 P 3 0 4 3 C -\n\
    accept 1 16 P:1:4\naccept 2 16 P:2:4\nopen 1 1\nopen 2 1\n\
    begin 1 10 1 - - - -\nshow 1 1\nend 1\n\
    begin 1 20 2 - - - -\nshow 1 2\nend 1\n\
    begin 1 30 3 - - - -\nshow 1 1\nshow 1 2\nend 1\n\
    close 1 1\ngive 1\nfinish 1 40\nclose 2 1\ngive 2\nfinish 2 50\n";

/// The same with the steps of the sessions in another order.
const SHUFFLED: &[u8] = b"event 1 P 1 0 4 1 A -\nevent 2 P 2 0 4 2 B -\nevent 3 P 3 0 4 3 C -\n\
    accept 1 16 P:1:4\nopen 1 1\naccept 2 16 P:2:4\nopen 2 1\n\
    begin 1 10 1 - - - -\nshow 1 1\nend 1\nsteal 1 1\n\
    begin 1 20 2 - - - -\nshow 1 2\nend 1\ngive 1\nsteal 2 1\ngive 2\n\
    begin 1 30 3 - - - -\nshow 1 2\nshow 1 1\nend 1\n\
    close 2 1\ngive 2\nclose 1 1\ngive 1\nfinish 2 50\nfinish 1 40\n";

/// The same with one session alone, so numbered that its stream is that of the session of two.
const FIRST_ALONE: &[u8] = b"event 1 P 1 0 4 1 A -\nevent 2 P 2 0 4 2 B -\nevent 3 P 3 0 4 3 C -\n\
    accept 1 16 P:1:4\nopen 1 1\n\
    begin 1 10 1 - - - -\nshow 1 1\nend 1\nbegin 1 20 2 - - - -\nend 1\nbegin 1 30 3 - - - -\nshow 1 1\nend 1\n\
    close 1 1\ngive 1\nfinish 1 40\n";

/// A session of `TWO_SESSIONS`, a session of another schedule, and whether their streams are the same.
const STREAMS: [(u32, u32, &[u8], bool); 4] = [
    // Each session has its own stream.
    (1, 1, FIRST_ALONE, true),
    (1, 2, TWO_SESSIONS, false),
    // The order of the sessions does not show.
    (1, 1, SHUFFLED, true),
    (2, 2, SHUFFLED, true),
];

// The statuses of both replays, and whether they wrote the same.
fn compared(
    alloc: Global,
    session: u32,
    other: u32,
    schedule: &[u8],
) -> Result<(u8, u8, bool), AllocError> {
    let one = replayed(alloc, session, TWO_SESSIONS, GOOD)?;
    let other = replayed(alloc, other, schedule, GOOD)?;
    Ok((one.0, other.0, one.2 == other.2))
}

#[test]
fn each_session_has_its_own_stream_in_any_order(rt: HostRuntime) -> Result<(), Fail> {
    for (row, (session, other, schedule, same)) in STREAMS.iter().enumerate() {
        let found = compared(rt.alloc(), *session, *other, schedule)?;
        assert_eq!(rt; found, (status::DONE, status::DONE, *same), "row {row}");
    }
    Ok(())
}

/// Texts that are read ten bytes at a time, the read and the write that fail, each from the first to the last, and the status.
/// Of 126 bytes the 14th read finds the end. The text that is refused at its first line is read to its end all the same.
const FAULTS: [(&[&[u8]], (u64, u64), u64, u8); 5] = [
    (
        &[WRITTEN, b"finish 1 200\n"],
        (1, 14),
        0,
        status::READ_FAULT,
    ),
    (
        &[b"opne\nevent 1 P 1 0 4 1 E -\naccept 1 16 P:1:4\n"],
        (1, 6),
        0,
        status::READ_FAULT,
    ),
    (
        &[WRITTEN, b"finish 1 200\n"],
        (0, 0),
        1,
        status::WRITE_FAULT,
    ),
    (&[], (0, 0), 1, status::WRITE_FAULT),
    (&[b"opne"], (0, 0), 1, status::WRITE_FAULT),
];

fn wrong_ends(alloc: Global) -> Result<String, AllocError> {
    let mut wrong = String::new(alloc);
    for (row, (text, (first, last), write, status)) in FAULTS.iter().enumerate() {
        let schedule = joined(alloc, text)?;
        for read in *first..=*last {
            let calls = Calls {
                most: 10,
                read,
                write: *write,
                kept: 0,
            };
            let found = replayed(alloc, 1, &schedule, calls)?;
            compare(alloc, &mut wrong, row, &found, (*status, 0, b""))?;
        }
    }
    Ok(wrong)
}

#[test]
fn each_failed_read_and_a_failed_write_end_the_run(rt: HostRuntime) -> Result<(), Fail> {
    assert_eq!(rt; wrong_ends(rt.alloc())?.as_str(), "");
    Ok(())
}
