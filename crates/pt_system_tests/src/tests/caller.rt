//! Sockets that are called.
use super::paths::path_of;
use pt_io::{Caller, Failed, Link, Sink, Source};
use pt_system::{SocketCaller, SocketLink};
use std::alloc::AllocError;
use std::io::{ErrorKind, Read, Write};
use std::os::unix::net::{UnixListener, UnixStream};
use std::thread::Threads;
use std::time::Duration;
use std::{fs, io, thread};

// What a link answered to a write, and to a write once its peer had gone; to a read, and to a read then; and what the peer read,
// and what the link read, into three bytes.
type Said = (
    [Result<(), Failed>; 2],
    [Result<usize, Failed>; 2],
    [[u8; 3]; 2],
);

// The link writes three bytes and the peer two, and goes. A peer that has gone ends the bytes, and takes none. No signal
// comes.
fn talk(link: &mut SocketLink<HostRuntime>, mut peer: UnixStream) -> io::Result<Said> {
    let mut theirs = [0; 3];
    let first = link.write(&[1, 2, 3]);
    peer.read_exact(&mut theirs)?;
    peer.write_all(&[4, 5])?;
    let mut ours = theirs;
    let read = link.read(&mut ours);
    let heard = [theirs, ours];
    drop(peer);
    let end = link.read(&mut ours);
    let last = link.write(&[6]);
    link.shut();
    Ok(([first, last], [read, end], heard))
}

// Calls who listens at this path.
fn call(rt: HostRuntime, path: &str) -> io::Result<Said> {
    let listener = UnixListener::bind(&rt, path)?;
    let Ok(mut link) = SocketCaller::new(rt, None).call(path) else {
        return Err(io::Error::from(ErrorKind::NotFound));
    };
    let (peer, _address) = listener.accept()?;
    talk(&mut link, peer)
}

#[test]
fn a_socket_is_called_gives_takes_and_goes_away(rt: HostRuntime) -> io::Result<()> {
    let path = path_of(rt, "peer")?;
    assert_eq!(rt;
        call(rt, &path)?,
        (
            [Ok(()), Err(Failed)],
            [Ok(2), Ok(0)],
            [[1, 2, 3], [4, 5, 3]]
        )
    );
    fs::remove_file(&rt, &path)
}

// Whether a call fails of this path, at which it tries so often.
fn is_missed(rt: HostRuntime, tries: Option<u32>, path: &str) -> bool {
    SocketCaller::new(rt, tries).call(path).is_err()
}

// A path that is not there, one of 200 bytes, and a folder.
#[test]
fn a_path_that_is_no_sockets_cannot_be_called(rt: HostRuntime) -> io::Result<()> {
    let long = "a".repeat(rt.alloc(), 200)?;
    assert_eq!(rt;
        [
            is_missed(rt, None, "/none/at/all"),
            is_missed(rt, None, &long),
            is_missed(rt, None, "/")
        ],
        [true; 3]
    );
    Ok(())
}

/// After how many milliseconds a tool begins to listen.
const LATE: u64 = 100;

// Begins to listen, and lets in who calls first.
fn listen_late(rt: HostRuntime, path: &str) -> io::Result<()> {
    thread::sleep(&rt, Duration::from_millis(LATE));
    let listener = UnixListener::bind(&rt, path)?;
    let (_peer, _address) = listener.accept()?;
    Ok(())
}

// Whether one who is called again and one who begins to listen meanwhile meet at this path.
fn do_meet<R: Threads + Sync>(threads: &R, rt: HostRuntime, path: &str) -> bool {
    let did = thread::map_indices(
        threads,
        rt.alloc(),
        2,
        &|place| match place {
            0 => !is_missed(rt, Some(500), path),
            _ => listen_late(rt, path).is_ok(),
        },
    );
    match did {
        Ok(did) => did.as_slice() == [true; 2].as_slice(),
        Err(AllocError) => false,
    }
}

// What is called once has nobody there.
#[test]
fn a_tool_that_is_not_there_yet_is_called_again(rt: HostRuntime) -> io::Result<()> {
    let path = path_of(rt, "late")?;
    assert_eq!(rt;
        (is_missed(rt, Some(1), &path), do_meet(&rt, rt, &path)),
        (true, true)
    );
    fs::remove_file(&rt, &path)
}
