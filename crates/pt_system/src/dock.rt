//! A listening Unix socket as a dock. It is trusted: no clause can say who comes, nor what stands at a path.
ghost use Rattle.std.specs.Prelude.{◌≡◌, ◌+◌, ◌<◌, ◌≤◌, false, IsTrue, OnOk, OnErr};
ghost use Rattle.pt_io.specs.Faults.{HasRisen};
ghost use Rattle.pt_io.specs.Arrivals.{IfLink, OnNoLink, OnQuiet, OnClosed};

use crate::socket::SocketLink;
use pt_io::{Arrival, Dock, Failed};
use std::fs::Files;
use std::io::{Eprint, ErrorKind};
use std::marker::Model;
use std::net::Net;
use std::os::fd::{AsFd, AsRawFd, OwnedFd};
use std::os::unix::net::{SocketAddr, UnixListener, UnixStream};
use std::time::{Clock, Duration, Instant};
use std::{fs, io};

/// How long a turn waits for a peer, in milliseconds. Whoever asks the dock looks after other things between two turns,
/// so a turn is short. It ends at once when a peer comes.
const TURN_MILLISECONDS: u64 = 20;

/// How long a peer may take to send its whole request, and how long it may take nothing of what is sent to it, in seconds. A
/// server reads one request after another, and a streaming role writes to one session after another, so others wait for
/// such a peer, once. A tool sends its request at once and reads as fast as it can: on a busy machine, too, it needs far
/// less than this.
const PATIENCE_SECONDS: u64 = 5;

/// The mode of the socket's file: only its owner connects.
const OWNER_ONLY: u32 = 0o600;

/// How many peers may wait to be accepted: as many as the system allows.
const MOST_WAITING: i32 = -1;

/// A Unix socket at a path as a dock. From its first turn on it listens there, says so on standard error, and is open to
/// its owner alone. When it is dropped its file is removed.
///
/// Where there is no path, or where something stands there already, each turn fails, and nothing is removed.
#[derive(Drop)]
pub struct SocketDock<R: Files + Drop> {
    system: R,
    path: Option<String>,
    standing: Option<Standing<R>>,
    arrivals: u64,
    quiets: u64,
    faults: u64,
}

// A socket that listens, and its file.
#[derive(Drop)]
struct Standing<R: Files + Drop> {
    file: SocketFile<R>,
    listener: UnixListener,
}

// The file of a socket. It is removed when this is dropped.
struct SocketFile<R: Files + Drop> {
    files: R,
    path: String,
}

impl<R: Files + Drop> Drop for SocketFile<R> {
    fn drop(self) {
        let _removed = fs::remove_file(&self.files, &self.path);
        let SocketFile { files: _, path: _ } = self;
    }
}

impl<R: Files + Drop> Model for SocketDock<R> {
    ghost use Rattle.pt_system.specs.Docks.{DockState};

    ghost Value = { DockState };

    ghost view = { λ s. record { arrivals = s.arrivals; quiets = s.quiets; faults = s.faults } };
}

impl<R: Files + Drop> SocketDock<R> {
    ghost use Rattle.pt_system.specs.Docks.{fresh_dock};

    /// A dock at this path, which does not listen yet.
    pub fn new(system: R, path: Option<String>) -> SocketDock<R>
        ensures { result ≡ fresh_dock }
    {
        SocketDock {
            system,
            path,
            standing: None,
            arrivals: 0,
            quiets: 0,
            faults: 0,
        }
    }
}

impl<R: Files + Net + Eprint + Clock + Copy + Drop + Send> Dock for SocketDock<R> {
    ghost use Rattle.std.specs.Prelude.{[]};
    ghost use Rattle.pt_system.specs.Sockets.{fresh_socket};

    type Link = SocketLink<R>;

    ghost greeting = { λ _. [] };

    ghost arrivals = { λ s. s.arrivals };

    ghost quiets = { λ s. s.quiets };

    ghost dock_faults = { λ s. s.faults };

    ghost is_closed = { λ _. false };

    /// The next peer, or a quiet turn where none came for a while. It fails where it can't listen, where the system accepts
    /// nobody, as without a free descriptor, and where no more peers or quiet turns can be counted.
    fn next(&mut self) -> Result<Arrival<SocketLink<R>>, Failed>
        ensures fresh { IfLink result (λ link. link ≡ fresh_socket) }

        // What the trait says.
        ensures arrived { IfLink result (λ _. self.new.arrivals ≡ self.old.arrivals + 1) }
        ensures no_link { OnNoLink result (self.new.arrivals ≡ self.old.arrivals) }
        ensures quiet { OnQuiet result (self.old.quiets < self.new.quiets) }
        ensures quiets { self.old.quiets ≤ self.new.quiets }
        ensures failed { OnErr result (HasRisen self.old.faults self.new.faults) }
        ensures answered { OnOk result (self.new.faults ≡ self.old.faults) }
        ensures later { self.old.faults ≤ self.new.faults }
        ensures closed { OnClosed result (IsTrue false) }
    {
        match next_stream(self.system, &mut self.path, &mut self.standing) {
            Ok((stream, until)) => {
                if let Some(arrivals) = self.arrivals.checked_add(1) {
                    self.arrivals = arrivals;
                    let link = SocketLink::new(stream, self.system, Some(until));
                    return Ok(Arrival::Link(link));
                }
            }
            Err(error) if error.kind() == ErrorKind::WouldBlock => {
                if let Some(quiets) = self.quiets.checked_add(1) {
                    self.quiets = quiets;
                    return Ok(Arrival::Quiet);
                }
            }
            Err(_) => {}
        }
        self.faults = self.faults.saturating_add(1);
        Err(Failed)
    }
}

// The stream of the next peer, and by when that is to have sent its request. It listens first where it doesn't yet, and is
// `WouldBlock` where nobody came.
fn next_stream<R: Files + Net + Eprint + Clock + Copy + Drop>(
    system: R,
    path: &mut Option<String>,
    standing: &mut Option<Standing<R>>,
) -> io::Result<(UnixStream, Instant)> {
    if let Some(path) = path.take() {
        *standing = Some(listening(system, path)?);
    }
    let Some(standing) = standing else {
        return Err(io::Error::from(ErrorKind::NotFound));
    };
    let (stream, _address) = standing.listener.accept()?;
    let patience = Duration::from_secs(PATIENCE_SECONDS);
    stream.set_write_timeout(Some(patience))?;
    match Instant::now(&system)?.checked_add(patience) {
        Some(until) => Ok((stream, until)),
        None => Err(io::Error::from(ErrorKind::Other)),
    }
}

// A socket that listens at the path, and says so, or that it can't. Who can't read it still finds the socket by its name.
fn listening<R: Files + Net + Eprint + Copy + Drop>(
    system: R,
    path: String,
) -> io::Result<Standing<R>> {
    let told = path.clone()?;
    let answer = standing_at(system, path);
    let _told = match &answer {
        Ok(_) => eprintln!(system; "listening at {told}"),
        Err(_) => eprintln!(system; "nobody can come to {told}"),
    };
    answer
}

// A socket that listens at the path. Its file has its mode before it has its name, so nobody else connects meanwhile.
fn standing_at<R: Files + Net + Copy + Drop>(system: R, path: String) -> io::Result<Standing<R>> {
    let address = SocketAddr::from_pathname(&path)?;
    let socket = system.unix_socket()?;
    check(libc::fchmod(socket.as_raw_fd(), OWNER_ONLY))?;
    system.bind_unix(socket.as_fd(), &address)?;
    let file = SocketFile {
        files: system,
        path,
    };
    check(libc::net::listen(socket.as_raw_fd(), MOST_WAITING))?;
    let listener = waiting(socket)?;
    Ok(Standing { file, listener })
}

// A listener whose `accept` waits for a turn at most: on Linux a socket's time limit for reads counts for it too
// (socket(7), `SO_RCVTIMEO`).
fn waiting(socket: OwnedFd) -> io::Result<UnixListener> {
    let socket = UnixStream::from(socket);
    socket.set_read_timeout(Some(Duration::from_millis(TURN_MILLISECONDS)))?;
    Ok(UnixListener::from(OwnedFd::from(socket)))
}

// What the system says of a call.
fn check(status: i32) -> io::Result<()> {
    if status < 0 {
        Err(io::Error::from(ErrorKind::Other))
    } else {
        Ok(())
    }
}
