//! The streams of schedules, and their reports: with budgets, stacks, points, steals inside a write, and threads that come and
//! go.
use crate::tests::pieces::{Block, Piece, joined, put_pieces, repeated, repeated_blocks};
use crate::tests::runs::{Calls, GOOD, Outcome, compare, replayed, reported};
use pt_command::status;
use std::alloc::{AllocError, Global};
use std::test::Fail;

/// The start of a stream: the head and the Trace object.
const START: &[u8] =
    b"Nettrace\x14\0\0\0!FastSerialization.1\x05\x05\x01\x04\0\0\0\x04\0\0\0\x05\0\0\0Trace\x06\xb2\x07\x01\0\x04\0\x01\0\0\0\0\0\0\0\0\0\0\0\0\0\0\0\0\0\0\xca\x9a;\0\0\0\0\x08\0\0\0\x01\0\0\0\x01\0\0\0\0\0\0\0\x06";

/// The block that defines event 1.
const DEFINITION: &[u8] =
    b"\x05\x05\x01\x02\0\0\0\x02\0\0\0\x0d\0\0\0MetadataBlock\x06;\0\0\0\0\x14\0\x01\0\0\0\0\0\0\0\0\0\0\0\0\0\0\0\0\0\xc0\0$\x01\0\0\0P\0\0\0\x01\0\0\0E\0\0\0\x01\0\0\0\0\0\0\0\0\0\0\0\x04\0\0\0\0\0\0\0\x06";

// The heads of a stream's objects, up to the size of the body.
const EVENTS: &[u8] = b"\x05\x05\x01\x02\0\0\0\x02\0\0\0\x0a\0\0\0EventBlock\x06";

const STACKS: &[u8] = b"\x05\x05\x01\x02\0\0\0\x02\0\0\0\x0a\0\0\0StackBlock\x06";

const POINT: &[u8] = b"\x05\x05\x01\x02\0\0\0\x02\0\0\0\x07\0\0\0SPBlock\x06";

/// An event of the same thread with the next number and the next stamp.
const NEXT: &[u8] = b"\0\x01";

/// The body of a stack block, with the frame 4096 alone.
const ONE_STACK: &[u8] = b"\x01\0\0\0\x01\0\0\0\x08\0\0\0\0\x10\0\0\0\0\0\0\x06";

/// What follows the start where one event was written at stamp 100: the definition, an event block, a point, the end tag.
pub const ONE_EVENT: &[&[u8]] = &[
    DEFINITION,
    EVENTS,
    b"\x1b\0\0\0\0\0\x14\0\x01\0\x64\0\0\0\0\0\0\0\x64\0\0\0\0\0\0\0",
    b"\x07\x01\0\x01\0\x01\x64\x06",
    POINT,
    b"\x18\0\0\0\0\xc8\0\0\0\0\0\0\0\x01\0\0\0\x01\0\0\0\0\0\0\0\x01\0\0\0\x06\x01",
];

/// What follows the start where nothing was written: a point and the end tag.
const NO_EVENTS: &[&[u8]] = &[
    POINT,
    b"\x18\0\0\0\0\0\0\xc8\0\0\0\0\0\0\0\x01\0\0\0\x01\0\0\0\0\0\0\0\0\0\0\0\x06\x01",
];

/// What follows the start of the same two with a rundown: thread 0 is named first, and an event of it describes the
/// definition that was used.
const ONE_DESCRIBED: &[&[u8]] = &[
    b"\x05\x05\x01\x02\0\0\0\x02\0\0\0\x0d\0\0\0MetadataBlock\x06\x96\0\0\0\0",
    b"\x14\0\x01\0\0\0\0\0\0\0\0\0\0\0\0\0\0\0\0\0",
    b"\xc0\0\x24\x01\0\0\0P\0\0\0\x01\0\0\0E\0\0\0\x01\0\0\0\0\0\0\0\0\0\0\0\x04\0\0\0\0\0\0\0",
    b"\xc0\0\x58\x02\0\0\0P\0i\0p\0e\0-\0R\0u\0n\0d\0o\0w\0n\0\0\0\x01\0\0\0",
    b"E\0v\0e\0n\0t\0D\0e\0s\0c\0r\0i\0p\0t\0i\0o\0n\0\0\0\0\0\0\0\0\0\0\0\0\0\0\0\x04\0\0\0\0\0\0\0\x06",
    EVENTS,
    b"\x4b\0\0\0\0\0\0\x14\0\x01\0\x64\0\0\0\0\0\0\0\xc8\0\0\0\0\0\0\0\x07\x01\0\x01\0\x01\x64",
    b"\x87\x02\xff\xff\xff\xff\x0f\0\0\0\x64\x24",
    b"\x01\0\0\0P\0\0\0\x01\0\0\0E\0\0\0\x01\0\0\0\0\0\0\0\0\0\0\0\x04\0\0\0\0\0\0\0\x06",
    POINT,
    b"\x24\0\0\0\0\xc8\0\0\0\0\0\0\0\x02\0\0\0\0\0\0\0\0\0\0\0\x01\0\0\0\x01\0\0\0\0\0\0\0\x01\0\0\0\x06\x01",
];

const NONE_DESCRIBED: &[&[u8]] = &[
    POINT,
    b"\x24\0\0\0\0\0\0\xc8\0\0\0\0\0\0\0\x02\0\0\0\0\0\0\0\0\0\0\0\0\0\0\0\x01\0\0\0\0\0\0\0\0\0\0\0\x06\x01",
];

/// The start of a stream, and what follows it.
pub fn stream_of(alloc: Global, pieces: &[&[u8]]) -> Result<Vec<u8>, AllocError> {
    let mut stream = START.to_vec(alloc)?;
    put_pieces(&mut stream, pieces)?;
    Ok(stream)
}

/// Event 1, session 1 with many chunks, and its opening on thread 1.
pub const OPENING: &[u8] = b"event 1 P 1 0 4 1 E -\naccept 1 16 P:1:4\nopen 1 1\n";

/// The schedule of one event, but for its last step.
pub const WRITTEN: &[u8] = b"event 1 P 1 0 4 1 E -\naccept 1 16 P:1:4\nopen 1 1\n\
    begin 1 100 1 - - - -\nshow 1 1\nend 1\nsteal 1 1\ngive 1\nclose 1 1\n";

/// The lines that follow the opening, with three writes that have one stack.
const ONE_FRAME: &[u8] =
    b"begin 1 1 1 - - 1000 -\nshow 1 1\nend 1\nbegin 1 2 1 - - 1000 -\nshow 1 1\nend 1\n\
    steal 1 1\ngive 1\npoint 1 10\nbegin 1 3 1 - - 1000 -\nshow 1 1\nend 1\n\
    steal 1 1\ngive 1\nclose 1 1\nfinish 1 20\n";

/// Schedules, the bytes that a read gives at most, and the length of the stream of session 1 with the bytes that follow
/// its start.
const SCHEDULES: [(&[&[u8]], usize, u64, &[&[u8]]); 11] = [
    (&[WRITTEN, b"finish 1 200\n"], 4096, 310, ONE_EVENT),
    (&[WRITTEN, b"finish 1 200\n"], 1, 310, ONE_EVENT),
    // The last line feed may be missing.
    (&[WRITTEN, b"finish 1 200"], 4096, 310, ONE_EVENT),
    (
        &[OPENING, b"close 1 1\nfinish 1 200\n"],
        4096,
        158,
        NO_EVENTS,
    ),
    // With a rundown the definition that was used is described.
    (
        &[
            b"event 1 P 1 0 4 1 E -\naccept4 1 16 1 1 P:1:4\nopen 1 1\n\
            begin 1 100 1 - - - -\nshow 1 1\nend 1\nsteal 1 1\ngive 1\nclose 1 1\nfinish 1 200\n",
        ],
        4096,
        462,
        ONE_DESCRIBED,
    ),
    (
        &[b"accept4 1 16 1 1 P:1:4\nopen 1 1\nclose 1 1\nfinish 1 200\n"],
        4096,
        170,
        NONE_DESCRIBED,
    ),
    // A steal between the beginning of a write and its show takes nothing.
    (
        &[
            OPENING,
            b"begin 1 100 1 - - - -\nsteal 1 1\nshow 1 1\nend 1\nsteal 1 1\ngive 1\nclose 1 1\nfinish 1 200\n",
        ],
        4096,
        310,
        ONE_EVENT,
    ),
    // A thread on which the session was closed is named by one more point.
    (
        &[
            OPENING,
            b"begin 1 100 1 - - - -\nshow 1 1\nend 1\nclose 1 1\ngive 1\npoint 1 150\nfinish 1 200\n",
        ],
        4096,
        350,
        &[
            DEFINITION,
            EVENTS,
            b"\x1b\0\0\0\0\0\x14\0\x01\0\x64\0\0\0\0\0\0\0\x64\0\0\0\0\0\0\0",
            b"\x07\x01\0\x01\0\x01\x64\x06",
            POINT,
            b"\x18\0\0\0\0\x96\0\0\0\0\0\0\0\x01\0\0\0\x01\0\0\0\0\0\0\0\x01\0\0\0\x06",
            POINT,
            b"\x0c\0\0\0\xc8\0\0\0\0\0\0\0\0\0\0\0\x06\x01",
        ],
    ),
    // Events of two threads in one block: each thread's first event has number 1.
    (
        &[
            OPENING,
            b"open 1 2\nbegin 1 10 1 - - - -\nshow 1 1\nend 1\nbegin 1 11 1 - - - -\nshow 1 1\nend 1\n\
            begin 1 12 1 - - - -\nshow 1 1\nend 1\nbegin 1 13 1 - - - -\nshow 1 1\nend 1\n\
            begin 1 14 1 - - - -\nshow 1 1\nend 1\nbegin 2 20 1 - - - -\nshow 2 1\nend 2\n\
            steal 1 1\ngive 1\nsteal 1 2\ngive 1\nclose 1 1\nclose 1 2\nfinish 1 30\n",
        ],
        4096,
        342,
        &[
            DEFINITION,
            EVENTS,
            b"\x2d\0\0\0\0\0\x14\0\x01\0\x0a\0\0\0\0\0\0\0\x14\0\0\0\0\0\0\0",
            b"\x07\x01\0\x01\0\x01\x0a",
            b"\0\x01\0\x01\0\x01\0\x01",
            b"\x06\xfb\xff\xff\xff\x0f\x02\0\x02\x06\x06",
            POINT,
            b"\x24\0\0\0\0\0\0\x1e\0\0\0\0\0\0\0\x02\0\0\0",
            b"\x01\0\0\0\0\0\0\0\x05\0\0\0\x02\0\0\0\0\0\0\0\x01\0\0\0\x06\x01",
        ],
    ),
    // A stack is defined once until the next point.
    (
        &[OPENING, ONE_FRAME],
        4096,
        530,
        &[
            DEFINITION,
            STACKS,
            b"\x14\0\0\0\0\0",
            ONE_STACK,
            EVENTS,
            b"\x1e\0\0\0\0\x14\0\x01\0\x01\0\0\0\0\0\0\0\x02\0\0\0\0\0\0\0",
            b"\x0f\x01\0\x01\0\x01\x01\x01\0\x01\x06",
            POINT,
            b"\x18\0\0\0\0\0\x0a\0\0\0\0\0\0\0\x01\0\0\0\x01\0\0\0\0\0\0\0\x02\0\0\0\x06",
            STACKS,
            b"\x14\0\0\0\0",
            ONE_STACK,
            EVENTS,
            b"\x1c\0\0\0\0\x14\0\x01\0\x03\0\0\0\0\0\0\0\x03\0\0\0\0\0\0\0",
            b"\x0f\x01\x02\x01\0\x01\x01\x03\x06",
            POINT,
            b"\x18\0\0\0\x14\0\0\0\0\0\0\0\x01\0\0\0\x01\0\0\0\0\0\0\0\x03\0\0\0\x06\x01",
        ],
    ),
    // A session without stacks gets the same events.
    (
        &[
            b"event 1 P 1 0 4 1 E -\naccept3 1 16 0 P:1:4\nopen 1 1\n",
            ONE_FRAME,
        ],
        4096,
        426,
        &[
            DEFINITION,
            EVENTS,
            b"\x1d\0\0\0\0\0\x14\0\x01\0\x01\0\0\0\0\0\0\0\x02\0\0\0\0\0\0\0",
            b"\x07\x01\0\x01\0\x01\x01\0\x01\x06",
            POINT,
            b"\x18\0\0\0\0\0\0\x0a\0\0\0\0\0\0\0\x01\0\0\0\x01\0\0\0\0\0\0\0\x02\0\0\0\x06",
            EVENTS,
            b"\x1b\0\0\0\0\x14\0\x01\0\x03\0\0\0\0\0\0\0\x03\0\0\0\0\0\0\0",
            b"\x07\x01\x02\x01\0\x01\x03\x06",
            POINT,
            b"\x18\0\0\0\0\x14\0\0\0\0\0\0\0\x01\0\0\0\x01\0\0\0\0\0\0\0\x03\0\0\0\x06\x01",
        ],
    ),
];

// The replay of a schedule for session 1, of which a read gives at most this many bytes. In place of the offset it has the
// length of what was written.
fn replay_of(alloc: Global, schedule: &[u8], most: usize) -> Result<Outcome, AllocError> {
    let calls = Calls {
        most,
        read: 0,
        write: 0,
        kept: 0,
    };
    let replay = replayed(alloc, 1, schedule, calls)?;
    Ok((replay.0, replay.2.len() as u64, replay.2))
}

fn wrong_streams(alloc: Global) -> Result<String, AllocError> {
    let mut wrong = String::new(alloc);
    for (row, (schedule, most, length, stream)) in SCHEDULES.iter().enumerate() {
        let schedule = joined(alloc, schedule)?;
        let want = stream_of(alloc, stream)?;
        let found = replay_of(alloc, &schedule, *most)?;
        compare(
            alloc,
            &mut wrong,
            row,
            &found,
            (status::DONE, *length, &want),
        )?;
    }
    Ok(wrong)
}

#[test]
fn each_schedule_has_its_stream(rt: HostRuntime) -> Result<(), Fail> {
    assert_eq!(rt; wrong_streams(rt.alloc())?.as_str(), "");
    Ok(())
}

/// The head of a schedule with a session of one chunk.
const ONE_CHUNK: &[u8] = b"event 1 P 1 0 4 1 E -\naccept 1 1 P:1:4\nopen 1 1\n";

/// A write with the stamp that is put in. A record takes 68 bytes: 963 of them take 65,484, and one more does not fit in a chunk.
const WRITE: &[u8] = b"begin 1 % 1 - - - -\nshow 1 1\nend 1\n";

/// The session is closed at once.
const NO_MORE: &[u8] = b"close 1 1\ngive 1\nfinish 1 1000\n";

/// The chunk is handed back, and one more write follows.
const ONE_MORE: &[u8] = b"steal 1 1\ngive 1\nbegin 1 965 1 - - - -\nshow 1 1\nend 1\n\
    steal 1 1\ngive 1\nclose 1 1\nfinish 1 1000\n";

const REFUSED_AT_THE_END: &[Piece] = &[(ONE_CHUNK, 1, 1), (WRITE, 1, 964), (NO_MORE, 1, 1)];

const REFUSED_BEFORE_THE_END: &[Piece] = &[(ONE_CHUNK, 1, 1), (WRITE, 1, 964), (ONE_MORE, 1, 1)];

/// Schedules, and the length of the stream of session 1 with its bytes.
const LONG_SCHEDULES: [(&[Piece], u64, &[Piece]); 3] = [
    // A write is refused while the budget is spent.
    (
        REFUSED_AT_THE_END,
        2_234,
        &[
            (START, 1, 1),
            (DEFINITION, 1, 1),
            (EVENTS, 1, 1),
            (
                b"\x9f\x07\0\0\0\0\x14\0\x01\0\x01\0\0\0\0\0\0\0\xc3\x03\0\0\0\0\0\0",
                1,
                1,
            ),
            (b"\x07\x01\0\x01\0\x01\x01", 1, 1),
            (NEXT, 1, 962),
            (b"\x06", 1, 1),
            (POINT, 1, 1),
            (
                b"\x18\0\0\0\0\xe8\x03\0\0\0\0\0\0\x01\0\0\0\x01\0\0\0\0\0\0\0\xc4\x03\0\0\x06\x01",
                1,
                1,
            ),
        ],
    ),
    // A chunk that was handed back takes the next write.
    (
        REFUSED_BEFORE_THE_END,
        2_238,
        &[
            (START, 1, 1),
            (DEFINITION, 1, 1),
            (EVENTS, 1, 1),
            (
                b"\xa4\x07\0\0\0\0\x14\0\x01\0\x01\0\0\0\0\0\0\0\xc5\x03\0\0\0\0\0\0",
                1,
                1,
            ),
            (b"\x07\x01\0\x01\0\x01\x01", 1, 1),
            (NEXT, 1, 962),
            (b"\x02\x01\x01\0\x02\x06", 1, 1),
            (POINT, 1, 1),
            (
                b"\x18\0\0\0\xe8\x03\0\0\0\0\0\0\x01\0\0\0\x01\0\0\0\0\0\0\0\xc5\x03\0\0\x06\x01",
                1,
                1,
            ),
        ],
    ),
    // Two writes of 100 frames and 60,000 bytes of payload take two event blocks.
    (
        &[
            (OPENING, 1, 1),
            (b"begin 1 100 1 - - 1", 1, 1),
            (b",1", 1, 99),
            (b" ", 1, 1),
            (b"00", 1, 60_000),
            (b"\nshow 1 1\nend 1\nbegin 1 101 1 - - 1", 1, 1),
            (b",1", 1, 99),
            (b" ", 1, 1),
            (b"00", 1, 60_000),
            (
                b"\nshow 1 1\nend 1\nclose 1 1\ngive 1\nfinish 1 200\n",
                1,
                1,
            ),
        ],
        121_222,
        &[
            (START, 1, 1),
            (DEFINITION, 1, 1),
            (STACKS, 1, 1),
            (b"\x2c\x03\0\0\0\0\x01\0\0\0\x01\0\0\0\x20\x03\0\0", 1, 1),
            (b"\x01\0\0\0\0\0\0\0", 1, 100),
            (b"\x06", 1, 1),
            (EVENTS, 1, 1),
            (
                b"\x7f\xea\0\0\0\x14\0\x01\0\x64\0\0\0\0\0\0\0\x64\0\0\0\0\0\0\0",
                1,
                1,
            ),
            (b"\x8f\x01\0\x01\0\x01\x01\x64\xe0\xd4\x03", 1, 1),
            (b"\0", 1, 60_000),
            (b"\x06", 1, 1),
            (EVENTS, 1, 1),
            (
                b"\x7f\xea\0\0\0\0\x14\0\x01\0\x65\0\0\0\0\0\0\0\x65\0\0\0\0\0\0\0",
                1,
                1,
            ),
            (b"\x8f\x01\x01\x01\0\x01\x01\x65\xe0\xd4\x03", 1, 1),
            (b"\0", 1, 60_000),
            (b"\x06", 1, 1),
            (POINT, 1, 1),
            (
                b"\x18\0\0\0\0\xc8\0\0\0\0\0\0\0\x01\0\0\0\x01\0\0\0\0\0\0\0\x02\0\0\0\x06\x01",
                1,
                1,
            ),
        ],
    ),
];

fn wrong_long_streams(alloc: Global) -> Result<String, AllocError> {
    let mut wrong = String::new(alloc);
    for (row, (schedule, length, stream)) in LONG_SCHEDULES.iter().enumerate() {
        let schedule = repeated(alloc, schedule)?;
        let want = repeated(alloc, stream)?;
        let found = replay_of(alloc, &schedule, 4096)?;
        compare(
            alloc,
            &mut wrong,
            row,
            &found,
            (status::DONE, *length, &want),
        )?;
    }
    Ok(wrong)
}

#[test]
fn long_schedules_have_their_streams(rt: HostRuntime) -> Result<(), Fail> {
    assert_eq!(rt; wrong_long_streams(rt.alloc())?.as_str(), "");
    Ok(())
}

// The report of the stream of a session, which is read so many bytes at a time.
fn report_of(
    alloc: Global,
    session: u32,
    schedule: &[u8],
    most: usize,
) -> Result<Outcome, AllocError> {
    let replay = replayed(alloc, session, schedule, GOOD)?;
    let calls = Calls {
        most,
        read: 0,
        write: 0,
        kept: 0,
    };
    reported(alloc, &replay.2, calls)
}

/// Schedules of session 1, the bytes that a read of its stream gives at most, and the report of the stream.
const REPORTS: [(&[Piece], usize, &[u8]); 7] = [
    // The second thread's first write finds the one chunk taken, and its second write gets it.
    (
        &[
            (ONE_CHUNK, 1, 1),
            (
                b"open 1 2\n\
                begin 1 1 1 - - - -\nshow 1 1\nend 1\nbegin 2 2 1 - - - -\nshow 2 1\nend 2\nsteal 1 1\ngive 1\n\
                begin 2 3 1 - - - -\nshow 2 1\nend 2\nsteal 1 2\ngive 1\nclose 1 1\nclose 1 2\nfinish 1 9\n",
                1,
                1,
            ),
        ],
        4096,
        b"trace          8          1          1\nitems          2          1          0          1\n\
        provider          2 P\nevent          2          1          0 P E\n\
        thread          1          1          1          0\nthread          2          1          2          1\n",
    ),
    // A thread leaves, and one that comes takes its row.
    (
        &[
            (OPENING, 1, 1),
            (
                b"begin 1 1 1 - - - -\nshow 1 1\nend 1\nleave 1\nclose 1 1\ngive 1\npoint 1 2\nenter 300\nopen 1 300\n\
                begin 300 3 1 - - - -\nshow 300 1\nend 300\nbegin 300 4 1 - - - -\nshow 300 1\nend 300\n\
                close 1 300\ngive 1\nfinish 1 9\n",
                1,
                1,
            ),
        ],
        4096,
        b"trace          8          1          1\nitems          3          1          0          2\n\
        provider          3 P\nevent          3          1          0 P E\n\
        thread          1          1          1          0\nthread        300          2          2          0\n",
    ),
    // Each definition that was used is described once, by an event of thread 0; the third one is not used.
    (
        &[(
            b"event 1 P 1 0 4 1 A -\nevent 2 P 2 0 4 1 B -\nevent 3 P 3 0 4 1 C -\naccept4 1 16 0 1 P:1:4\nopen 1 1\n\
            begin 1 1 2 - - - -\nshow 1 1\nend 1\nbegin 1 2 1 - - - -\nshow 1 1\nend 1\nbegin 1 3 2 - - - -\nshow 1 1\nend 1\n\
            close 1 1\ngive 1\nfinish 1 9\n",
            1,
            1,
        )],
        4096,
        b"trace          8          1          1\nitems          5          3          0          1\n\
        provider          3 P\nprovider          2 Pipe-Rundown\n\
        event          1          1          0 P A\nevent          2          2          0 P B\n\
        event          2          1          0 Pipe-Rundown EventDescription\n\
        thread          0          2          2          0\nthread          1          3          3          0\n",
    ),
    // One number is missing before the last event.
    (REFUSED_BEFORE_THE_END, 4096, MISSING_BEFORE),
    (REFUSED_BEFORE_THE_END, 1, MISSING_BEFORE),
    // One number is missing behind the last event.
    (REFUSED_AT_THE_END, 4096, MISSING_BEHIND),
    (REFUSED_AT_THE_END, 1, MISSING_BEHIND),
];

const MISSING_BEFORE: &[u8] =
    b"trace          8          1          1\nitems        964          1          0          1\n\
    provider        964 P\nevent        964          1          0 P E\n\
    thread          1        964        965          1\n";

const MISSING_BEHIND: &[u8] =
    b"trace          8          1          1\nitems        963          1          0          1\n\
    provider        963 P\nevent        963          1          0 P E\n\
    thread          1        963        964          1\n";

fn wrong_reports(alloc: Global) -> Result<String, AllocError> {
    let mut wrong = String::new(alloc);
    for (row, (schedule, most, want)) in REPORTS.iter().enumerate() {
        let schedule = repeated(alloc, schedule)?;
        let found = report_of(alloc, 1, &schedule, *most)?;
        compare(alloc, &mut wrong, row, &found, (status::DONE, 0, want))?;
    }
    Ok(wrong)
}

#[test]
fn the_report_counts_what_was_refused(rt: HostRuntime) -> Result<(), Fail> {
    assert_eq!(rt; wrong_reports(rt.alloc())?.as_str(), "");
    Ok(())
}

/// A write of a thread that all sessions get.
const WRITE_FOR_ALL: &[Piece] = &[
    (b"begin & 1 1 - - - -\n", 1, 1),
    (b"show & %\n", 1, 64),
    (b"end &\n", 1, 1),
];

/// 64 sessions of one chunk each, all open on 256 threads, which write once. Between the writes of threads 128 and 129 each
/// session steals from thread 1 and hands its chunk back. Of thread 129 it gets the chunk when it is closed, and gives it back.
const ALL_SESSIONS: [Block; 6] = [
    (&[(b"event 1 P 1 0 4 1 E -\n", 1, 1)], 1, 1),
    (
        &[(b"accept & 1 P:1:4\n", 1, 1), (b"open & %\n", 1, 256)],
        1,
        64,
    ),
    (WRITE_FOR_ALL, 1, 128),
    (&[(b"steal & 1\ngive &\n", 1, 1)], 1, 64),
    (WRITE_FOR_ALL, 129, 256),
    (
        &[
            (b"close & %\n", 1, 129),
            (b"give &\n", 1, 1),
            (b"close & %\n", 130, 256),
            (b"finish & 9\n", 1, 1),
        ],
        1,
        64,
    ),
];

/// The report of one of the sessions: the write of thread 1 and that of thread 129 found a chunk.
const REPORT_OF_ONE: [Piece; 7] = [
    (
        b"trace          8          1          1\nitems          2          1          0          1\n\
        provider          2 P\nevent          2          1          0 P E\n",
        1,
        1,
    ),
    (
        b"thread          %          1          1          0\n",
        1,
        1,
    ),
    (
        b"thread          %          0          1          1\n",
        2,
        9,
    ),
    (
        b"thread         %          0          1          1\n",
        10,
        99,
    ),
    (
        b"thread        %          0          1          1\n",
        100,
        128,
    ),
    (
        b"thread        %          1          1          0\n",
        129,
        129,
    ),
    (
        b"thread        %          0          1          1\n",
        130,
        256,
    ),
];

fn wrong_report_of_one(alloc: Global) -> Result<String, AllocError> {
    let mut wrong = String::new(alloc);
    let schedule = repeated_blocks(alloc, &ALL_SESSIONS)?;
    let want = repeated(alloc, &REPORT_OF_ONE)?;
    let found = report_of(alloc, 64, &schedule, 4096)?;
    compare(alloc, &mut wrong, 0, &found, (status::DONE, 0, &want))?;
    Ok(wrong)
}

#[test]
fn sixty_four_sessions_of_one_chunk_on_all_threads(rt: HostRuntime) -> Result<(), Fail> {
    assert_eq!(rt; wrong_report_of_one(rt.alloc())?.as_str(), "");
    Ok(())
}
