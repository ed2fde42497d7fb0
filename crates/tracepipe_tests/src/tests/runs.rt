//! `run` on a real socket, to which this program's own clients come, or which calls this program's own `greet`.
use super::scene::{ALL_HELD, Company, Part, Scene, meet};
use pt_command::status;
use std::sync::Wait;
use std::thread::Threads;
use std::time::Clock as Timer;
use std::{fs, io};

/// What the run says of its three sessions, the second of which is stopped while the threads wait. The connections are those
/// of the three, of `ps` and of `stop`.
const RUN: &[u8] = b"run          2      20000
session          1      20000          0 end
mark          1          1          0      20000      10000          0
mark          1          2          0      20000      10000          0
session          2          2          0 stop
mark          2          1          0          8          1          0
mark          2          2          0          8          1          0
session          3      15000          0 end
mark          3          1          0      20000       7500          0
mark          3          2          0      20000       7500          0
connections          5
";

/// A run, who asks it what it is, three who collect, each with what is reported of the threads in its stream, and one who stops
/// the second session while the threads wait.
const TOOLS: [Part<'static>; 6] = [
    Part::Writes {
        behind: 0,
        words: &["run", "2", "20000", "--wait", "3"],
        status: status::DONE,
        written: RUN,
    },
    Part::Asks,
    Part::Collects {
        behind: 1,
        words: &[
            "collect",
            "@",
            "256",
            "Sample-Web:ffffffffffffffff:5",
            "Sample-Store:1:4",
        ],
        lines: "thread          1      10000      10000          0
thread          2      10000      10000          0
",
    },
    Part::Collects {
        behind: 2,
        words: &["collect", "@", "1", "Sample-Jobs:4:3"],
        lines: "thread          1          1          1          0
thread          2          1          1          0
",
    },
    Part::Collects {
        behind: 3,
        words: &["collect", "@", "16", "Sample-Store:ffffffffffffffff:5"],
        lines: "thread          1       7500       7500          0
thread          2       7500       7500          0
",
    },
    Part::Writes {
        behind: ALL_HELD,
        words: &["stop", "@", "2"],
        status: status::DONE,
        written: b"stopped          2\n",
    },
];

#[test]
fn tools_come_to_a_run_over_its_socket(rt: HostRuntime) {
    assert_eq!(rt; meet(&rt, rt, "whole", None, &TOOLS), None);
}

/// A run that calls a tool once, and the tool, which begins to listen meanwhile.
const CALLED: [Part<'static>; 2] = [
    Part::Writes {
        behind: 0,
        words: &["run", "1", "0", "--reverse", "@", "--calls", "1"],
        status: status::DONE,
        written: b"run          1          0\nconnections          1\n",
    },
    Part::Greets,
];

#[test]
fn a_run_calls_a_tool_that_asks_what_it_is(rt: HostRuntime) {
    assert_eq!(rt; meet(&rt, rt, "called", Some(500), &CALLED), None);
}

/// A run that calls where nobody listens.
const MISSED: [Part<'static>; 1] = [Part::Writes {
    behind: 0,
    words: &["run", "1", "0", "--reverse", "@", "--calls", "2"],
    status: status::LINK_FAULT,
    written: b"run          1          0\nconnections          0\n",
}];

#[test]
fn a_tool_that_never_listens_is_a_link_fault(rt: HostRuntime) {
    assert_eq!(rt; meet(&rt, rt, "missed", Some(2), &MISSED), None);
}

/// A run that cannot listen.
const DEAF: [Part<'static>; 1] = [Part::Writes {
    behind: 0,
    words: &["run", "1", "0"],
    status: status::LINK_FAULT,
    written: b"run          1          0\nconnections          0\n",
}];

// Whether the file at this path still has its text. It is removed.
fn is_mine(rt: HostRuntime, path: &str) -> io::Result<bool> {
    let text = fs::read_to_string(&rt, path)?;
    fs::remove_file(&rt, path)?;
    Ok(text.as_str() == "mine")
}

// Who has not come to what it was to come to where a file stands in the place of the socket, and whether that stays.
fn meet_at_a_file<R: Threads + Wait + Timer + Sync>(
    threads: &R,
    rt: HostRuntime,
) -> (Option<usize>, bool) {
    let Ok(scene) = Scene::new(rt, "held", None) else {
        return (None, false);
    };
    let company = Company {
        threads,
        scene: &scene,
    };
    let stands = fs::write(&rt, &scene.path, "mine").is_ok();
    let first = company.meet(&DEAF);
    let stays = is_mine(rt, &scene.path).unwrap_or(false);
    (first, stands && stays)
}

#[test]
fn a_run_that_cannot_listen_is_a_link_fault(rt: HostRuntime) {
    assert_eq!(rt; meet_at_a_file(&rt, rt), (None, true));
}
