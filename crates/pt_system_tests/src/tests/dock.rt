//! A socket that listens.
use super::paths::path_of;
use pt_io::{Arrival, Dock, Link, Sink, Source};
use pt_system::{SocketDock, SocketLink};
use std::io::{Read, Write};
use std::os::unix::fs::PermissionsExt;
use std::os::unix::net::{UnixListener, UnixStream};
use std::thread::Threads;
use std::{fs, io, thread};

// Connects and sends a byte. Says whether the next one comes back.
fn one_peer(rt: HostRuntime, path: &str, byte: u8) -> io::Result<bool> {
    let mut stream = UnixStream::connect(&rt, path)?;
    stream.write_all(&[byte])?;
    let mut answer = [0];
    stream.read_exact(&mut answer)?;
    Ok(answer == [byte.wrapping_add(1)])
}

// Three peers, one after another.
fn three_peers(rt: HostRuntime, path: &str) -> io::Result<[bool; 3]> {
    Ok([
        one_peer(rt, path, 0)?,
        one_peer(rt, path, 1)?,
        one_peer(rt, path, 2)?,
    ])
}

// Answers a peer with the byte after the one that it sends.
fn is_answered(link: &mut SocketLink<HostRuntime>) -> bool {
    let mut byte = [0];
    let is_read = link.read(&mut byte) == Ok(1);
    let is_written = link.write(&[byte[0].wrapping_add(1)]) == Ok(());
    link.shut();
    is_read && is_written
}

// Answers the next peer.
fn is_served(dock: &mut SocketDock<HostRuntime>) -> bool {
    for _turn in 0..1_000 {
        if let Ok(Arrival::Link(mut link)) = dock.next() {
            return is_answered(&mut link);
        }
    }
    false
}

fn is_quiet(dock: &mut SocketDock<HostRuntime>) -> bool {
    matches!(dock.next(), Ok(Arrival::Quiet))
}

// A dock at this path.
fn dock_at(rt: HostRuntime, path: &str) -> io::Result<SocketDock<HostRuntime>> {
    let path = String::from_str(rt.alloc(), path)?;
    Ok(SocketDock::new(rt, Some(path)))
}

// Whether two turns of a dock fail: it does not try again.
fn turns_fail(mut dock: SocketDock<HostRuntime>) -> [bool; 2] {
    [dock.next().is_err(), dock.next().is_err()]
}

// Three peers come from a thread. Whether each is served, and got its answer.
fn meet(
    threads: &impl Threads,
    rt: HostRuntime,
    dock: &mut SocketDock<HostRuntime>,
    path: String,
) -> io::Result<[[bool; 3]; 2]> {
    let peers = thread::spawn(threads, move || three_peers(rt, &path))?;
    let served = [is_served(dock), is_served(dock), is_served(dock)];
    Ok([served, peers.join(threads)?])
}

// Whether the first turn of a dock at this path is quiet, whether two turns of another dock there fail then, and what comes of
// three peers.
fn stand(
    threads: &impl Threads,
    rt: HostRuntime,
    path: String,
) -> io::Result<(bool, [bool; 2], [[bool; 3]; 2])> {
    let mut dock = dock_at(rt, &path)?;
    // Nobody can come before it listens.
    let quiet = is_quiet(&mut dock);
    let other = turns_fail(dock_at(rt, &path)?);
    Ok((quiet, other, meet(threads, rt, &mut dock, path)?))
}

#[test]
fn three_peers_are_answered_by_a_socket_that_is_not_pushed_away(rt: HostRuntime) -> io::Result<()> {
    let path = path_of(rt, "peers")?;
    assert_eq!(rt; stand(&rt, rt, path)?, (true, [true; 2], [[true; 3]; 2]));
    Ok(())
}

// Whether the file is there before a dock at this path listens, its mode while it does, and whether it is there once the
// dock has gone.
fn file_of(rt: HostRuntime, path: &str) -> io::Result<(bool, u32, bool)> {
    let mut dock = dock_at(rt, path)?;
    let before = fs::exists(&rt, path)?;
    let _quiet = is_quiet(&mut dock);
    let mode = fs::metadata(&rt, path)?.permissions().mode();
    drop(dock);
    Ok((before, mode & 0o777, fs::exists(&rt, path)?))
}

#[test]
fn the_file_is_its_owners_and_goes_with_the_dock(rt: HostRuntime) -> io::Result<()> {
    let path = path_of(rt, "file")?;
    assert_eq!(rt; file_of(rt, path.as_str())?, (false, 0o600, false));
    Ok(())
}

// Whether two turns fail where a file stands, and whether that stays.
fn beside_a_file(rt: HostRuntime, path: &str) -> io::Result<([bool; 2], bool)> {
    fs::write(&rt, path, "mine")?;
    let turns = turns_fail(dock_at(rt, path)?);
    let stays = fs::read_to_string(&rt, path)?.as_str() == "mine";
    fs::remove_file(&rt, path)?;
    Ok((turns, stays))
}

#[test]
fn a_path_that_is_taken_fails_and_stays(rt: HostRuntime) -> io::Result<()> {
    let path = path_of(rt, "taken")?;
    assert_eq!(rt; beside_a_file(rt, &path)?, ([true; 2], true));
    Ok(())
}

// Whether two turns fail where a socket's file stands whose owner has gone, and whether that stays.
fn beside_a_left_socket(rt: HostRuntime, path: &str) -> io::Result<([bool; 2], bool)> {
    drop(UnixListener::bind(&rt, path)?);
    let turns = turns_fail(dock_at(rt, path)?);
    let stays = fs::exists(&rt, path)?;
    fs::remove_file(&rt, path)?;
    Ok((turns, stays))
}

#[test]
fn a_socket_that_was_left_fails_and_stays(rt: HostRuntime) -> io::Result<()> {
    let path = path_of(rt, "left")?;
    assert_eq!(rt; beside_a_left_socket(rt, &path)?, ([true; 2], true));
    Ok(())
}

#[test]
fn a_dock_without_a_path_or_with_a_long_one_fails(rt: HostRuntime) -> io::Result<()> {
    let long = dock_at(rt, "a".repeat(rt.alloc(), 200)?.as_str())?;
    assert_eq!(rt;
        [turns_fail(SocketDock::new(rt, None)), turns_fail(long)],
        [[true; 2]; 2]
    );
    Ok(())
}
