//! The name of this process's socket.
use pt_system::name::{path_in, socket_path, start_in};
use std::alloc::AllocError;
use std::{io, process};

// What the system tells of a process, and its start there.
const TOLD: [(&str, Option<u64>); 6] = [
    (
        "7 (sh) S 1 7 7 0 -1 0 0 0 0 0 0 0 0 0 20 0 1 0 8561 0",
        Some(8_561),
    ),
    (
        "7 (a) b) (c) S 1 7 7 0 -1 0 0 0 0 0 0 0 0 0 20 0 1 0 12 9\n",
        Some(12),
    ),
    ("7 (sh) S 1 7 7 0 -1 0 0 0 0 0 0 0 0 0 20 0 1 0", None),
    ("7 (sh) S 1 7 7 0 -1 0 0 0 0 0 0 0 0 0 20 0 1 0 -4 0", None),
    ("7 sh S 1 7 7 0 -1 0 0 0 0 0 0 0 0 0 20 0 1 0 8561 0", None),
    ("", None),
];

#[test]
fn the_start_is_the_22nd_word(rt: HostRuntime) {
    for (stat, start) in TOLD {
        assert_eq!(rt; start_in(stat), start);
    }
}

// The path in the folder that is named.
const PATHS: [(&str, &str); 2] = [
    ("/var/tmp", "/var/tmp/dotnet-diagnostic-7-8561-socket"),
    ("", "/tmp/dotnet-diagnostic-7-8561-socket"),
];

#[test]
fn the_name_has_the_processs_number_and_start(rt: HostRuntime) -> Result<(), AllocError> {
    for (folder, path) in PATHS {
        assert_eq!(rt; path_in(rt.alloc(), folder, 7, 8_561)?.as_str(), path);
    }
    Ok(())
}

// Whether a path of this process is the name of its socket, but for the start.
fn is_named(rt: HostRuntime, path: &str, process: u32) -> Result<bool, AllocError> {
    let part = format!(in rt.alloc(); "/dotnet-diagnostic-{process}-")?;
    Ok(path.contains(part.as_str()) && path.ends_with("-socket"))
}

#[test]
fn this_process_has_a_name(rt: HostRuntime) -> io::Result<()> {
    let process = process::id(rt.process());
    let path = socket_path(&rt, process)?;
    assert!(rt; is_named(rt, path.as_str(), process)?);
    Ok(())
}
