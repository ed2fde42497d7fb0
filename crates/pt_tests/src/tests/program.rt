//! What the program's one call comes to with the other words, and what it leaves alone.
use super::peers::PROGRAM;
use super::scene::{Asked, run, words};
use pt_command::status;
use pt_peers::{INFO, Peer};
use std::test::Fail;

/// Words, whom a client finds where it calls, the status, what is written, and whether somebody is left whom it could have
/// called.
const CASES: [(&str, &[Peer], u8, &[u8], bool); 12] = [
    (
        "ps /x",
        &[PROGRAM],
        status::DONE,
        b"process          1 00010203-0405-0607-0809-0a0b0c0d0e0f - linux x64\n",
        false,
    ),
    (
        "ps /x /y",
        &[PROGRAM],
        status::WORDS,
        b"error: words\n",
        true,
    ),
    (
        "gen 0 16",
        &[PROGRAM],
        status::DONE,
        b"gen          0         16\nsession          1         16         16          0\nsession          2          3          1          2\n",
        true,
    ),
    (
        "replay",
        &[PROGRAM],
        status::REFUSED,
        b"error: line 1 column 1: Word\n",
        true,
    ),
    (
        "report",
        &[PROGRAM],
        status::REFUSED,
        b"error: offset 5: Truncated\n",
        true,
    ),
    (
        "trace 1 1 :1",
        &[PROGRAM],
        status::WORDS,
        b"error: words\n",
        true,
    ),
    (
        "run 0 1",
        &[PROGRAM],
        status::WORDS,
        b"error: words\n",
        true,
    ),
    ("", &[PROGRAM], status::WORDS, b"error: words\n", true),
    // A caller that fails is a link fault.
    ("ps /x", &[], status::LINK_FAULT, b"", false),
    ("stop /x 1", &[], status::LINK_FAULT, b"", false),
    ("collect /x 1 P:1:4", &[], status::LINK_FAULT, b"", false),
    // So it is of a tool that a run calls.
    (
        "run 1 0 --reverse /x",
        &[],
        status::LINK_FAULT,
        b"run          1          0\nconnections          0\n",
        false,
    ),
];

// Nobody is called but for a client's words, and nobody is let in but for those of a run.
#[test]
fn a_command_leaves_alone_what_it_has_no_use_for(rt: HostRuntime) -> Result<(), Fail> {
    for (of, called, wanted, text, is_left) in CASES {
        let asked = Asked {
            input: b"opne\n",
            peers: &[INFO],
            called,
            ..words(of)
        };
        let told = run(&rt, rt.alloc(), &asked)?;
        assert_eq!(rt;
            (told.status, told.written.as_slice(), told.left),
            (wanted, text, (true, is_left))
        );
    }
    Ok(())
}

// Who waits for a program leaves those alone that it could call.
#[test]
fn nobody_comes_to_a_dock_without_links(rt: HostRuntime) -> Result<(), Fail> {
    let asked = Asked {
        called: &[PROGRAM],
        ..words("greet /x")
    };
    let told = run(&rt, rt.alloc(), &asked)?;
    assert_eq!(rt;
        (told.status, told.written.as_slice(), told.left),
        (
            status::REFUSED,
            b"error: no peer\n".as_slice(),
            (false, true)
        )
    );
    Ok(())
}

// Whether a report says this but for its numbers of stacks and points, which differ from run to run, and the stacks' lines.
fn says(report: &[u8], first: &[u8], lines: &[u8]) -> bool {
    let rest = report.strip_prefix(first).unwrap_or(b"");
    let end = rest
        .iter()
        .position(|byte| *byte == b'\n')
        .unwrap_or(rest.len());
    rest.get(end..).unwrap_or(b"").starts_with(lines)
}

#[test]
fn a_trace_of_two_threads_is_reported(rt: HostRuntime) -> Result<(), Fail> {
    let traced = run(&rt, rt.alloc(), &words("trace 2 8 Sample-Store:1:4 --mb 1"))?;
    let asked = Asked {
        input: &traced.written,
        ..words("report")
    };
    let told = run(&rt, rt.alloc(), &asked)?;
    let first = b"trace          8          1          1\nitems          2          1          ";
    let lines = b"
provider          2 Sample-Store
event          2          3          0 Sample-Store StoreOpened
thread          1          1          1          0
thread          2          1          1          0
";
    assert_eq!(rt;
        (
            traced.status,
            told.status,
            says(&told.written, first, lines)
        ),
        (status::DONE, status::DONE, true)
    );
    Ok(())
}
