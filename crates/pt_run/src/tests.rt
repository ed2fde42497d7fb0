//! The lines that tell what a run came to.
use crate::summary::{put_connections, put_plan, put_session};
use ep_defs::Marks;
use ep_defs::limits::SESSION_THREADS;
use ep_stream::Fate;
use pt_load::Plan;
use std::alloc::{AllocError, Global};
use std::test::Fail;

/// What a session had of a thread: from where to where, how many writes were taken, and how many were refused.
type Had = (u32, u32, u32, u32);

/// All writes of three threads, of which half were taken, or an eighth.
const HALF: [Had; 3] = [(0, 10_000, 5_000, 0); 3];

const EIGHTH: [Had; 3] = [(0, 10_000, 1_250, 0); 3];

/// What the sessions, of ids 1, 2, .., had of threads 1, 2, .., and why each ended; how many connections there were; the
/// lines, of a run of three threads and 10,000 writes of each.
type Case = (&'static [(&'static [Had], Fate)], u64, &'static str);

const CASES: [Case; 3] = [
    // Two sessions to the program's end.
    (
        &[(&HALF, Fate::ProgramEnd), (&EIGHTH, Fate::ProgramEnd)],
        2,
        "run          3      10000
session          1      15000          0 end
mark          1          1          0      10000       5000          0
mark          1          2          0      10000       5000          0
mark          1          3          0      10000       5000          0
session          2       3750          0 end
mark          2          1          0      10000       1250          0
mark          2          2          0      10000       1250          0
mark          2          3          0      10000       1250          0
connections          2
",
    ),
    // Each other fate.
    (
        &[
            (&[(7, 9, 1, 1)], Fate::Requested { conn: 5 }),
            (&[], Fate::LinkFault),
            (&[], Fate::TooLong),
            (&[], Fate::OutOfMemory),
        ],
        500,
        "run          3      10000
session          1          1          1 stop
mark          1          1          7          9          1          1
session          2          0          0 link
session          3          0          0 long
session          4          0          0 memory
connections        500
",
    ),
    // Nobody.
    (
        &[],
        0,
        "run          3      10000\nconnections          0\n",
    ),
];

fn marks_of(alloc: Global, had: &[Had]) -> Result<Vec<Marks>, AllocError> {
    let mut marks = Vec::with_capacity(alloc, had.len())?;
    for (thread, (from, to, taken, refused)) in (1..=256).zip(had.iter()) {
        marks.push(Marks {
            thread,
            from: *from,
            to: *to,
            taken: *taken,
            refused: *refused,
        })?;
    }
    Ok(marks)
}

fn put_had(
    alloc: Global,
    text: &mut Vec<u8>,
    id: u64,
    had: &[Had],
    fate: Fate,
) -> Result<(), AllocError> {
    let marks = marks_of(alloc, had)?;
    if marks.len() > SESSION_THREADS {
        return Ok(());
    }
    put_session(text, id, &marks, fate)
}

fn lines(
    alloc: Global,
    sessions: &[(&[Had], Fate)],
    connections: u64,
) -> Result<Vec<u8>, AllocError> {
    let plan = Plan {
        seed: 0,
        threads: 3,
        writes: 10_000,
    };
    let mut text = Vec::new(alloc);
    put_plan(&mut text, &plan)?;
    for (id, (had, fate)) in (1..=64).zip(sessions.iter()) {
        put_had(alloc, &mut text, id, had, *fate)?;
    }
    put_connections(&mut text, connections)?;
    Ok(text)
}

#[test]
fn a_run_is_told_in_its_lines(rt: HostRuntime) -> Result<(), Fail> {
    for (sessions, connections, want) in CASES {
        let text = lines(rt.alloc(), sessions, connections)?;
        assert_eq!(rt; text.as_slice(), want.as_bytes());
    }
    Ok(())
}
