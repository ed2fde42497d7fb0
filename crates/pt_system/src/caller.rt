//! The way to the Unix sockets of this machine. It is trusted: no clause can say who listens at a path.
ghost use Rattle.std.specs.Prelude.{◌≡◌, ◌+◌, ◌≤◌, IsErr, IfOk, OnOk, OnErr};
ghost use Rattle.pt_io.specs.Faults.{HasRisen};

use crate::socket::SocketLink;
use pt_io::{Caller, Failed};
use std::io::ErrorKind;
use std::marker::Model;
use std::net::Net;
use std::os::unix::net::UnixStream;
use std::time::{Clock, Duration, Instant};
use std::{io, thread};

/// How long a caller rests before it calls a tool again that was not there, in milliseconds. A tool that begins to listen is
/// called about at once, as a peer that comes to a listening socket is.
const REST_MILLISECONDS: u64 = 20;

/// How long a tool that was called may take to send its whole request, and how long it may take nothing of what is sent to it,
/// in seconds. A server reads one request after another, so it calls again after such a tool.
const PATIENCE_SECONDS: u64 = 5;

/// The way to the Unix sockets of this machine. A target is the path of one.
#[derive(Drop)]
pub struct SocketCaller<N: Net + Send> {
    network: N,
    /// How often a socket at which nobody listens yet is called for one link, where a server calls.
    tries: Option<u32>,
    links: u64,
    faults: u64,
}

impl<N: Net + Send> Model for SocketCaller<N> {
    ghost use Rattle.pt_system.specs.Sockets.{CallerState};

    ghost Value = { CallerState };

    ghost view = { λ s. record { links = s.links; faults = s.faults } };
}

impl<N: Net + Send> SocketCaller<N> {
    ghost use Rattle.pt_system.specs.Sockets.{fresh_caller};

    /// A caller that has called nobody. Without tries it is a client's: it calls once for a link, whose peer may take its time.
    /// With tries it is a server's: where nobody listens yet it calls again after a rest, so many times for a link in all, and
    /// its links wait for their peers no longer than those of a listening socket.
    pub fn new(network: N, tries: Option<u32>) -> SocketCaller<N>
        ensures { result ≡ fresh_caller }
    {
        SocketCaller {
            network,
            tries,
            links: 0,
            faults: 0,
        }
    }
}

impl<N: Net + Clock + Copy + Drop + Send> Caller for SocketCaller<N> {
    ghost use Rattle.pt_system.specs.Sockets.{fresh_socket, MOST_LINKS};

    type Link = SocketLink<N>;

    ghost leads_to = { λ _ _. Unit {0} };

    ghost links = { λ s. s.links };

    ghost call_faults = { λ s. s.faults };

    /// Connects to the socket at a path. It fails where no socket listens there, where the path is no path of a socket,
    /// and where no more links can be counted.
    fn call(&mut self, target: &str) -> Result<SocketLink<N>, Failed>
        ensures full { self.old.links ≡ MOST_LINKS → IsErr result }
        ensures fresh { IfOk result (λ link. link ≡ fresh_socket) }

        // What the trait says.
        ensures counted { OnOk result (self.new.links ≡ self.old.links + 1) }
        ensures uncounted { OnErr result (self.new.links ≡ self.old.links) }
        ensures failed { OnErr result (HasRisen self.old.faults self.new.faults) }
        ensures called { OnOk result (self.new.faults ≡ self.old.faults) }
        ensures later { self.old.faults ≤ self.new.faults }
    {
        if let Some(links) = self.links.checked_add(1) {
            if let Ok((stream, until)) = connected(&self.network, target, self.tries) {
                self.links = links;
                return Ok(SocketLink::new(stream, self.network, until));
            }
        }
        self.faults = self.faults.saturating_add(1);
        Err(Failed)
    }
}

// The stream to who listens at the path, and by when that is to have sent its request, where a server calls.
fn connected<N: Net + Clock>(
    network: &N,
    target: &str,
    tries: Option<u32>,
) -> io::Result<(UnixStream, Option<Instant>)> {
    let Some(tries) = tries else {
        return Ok((UnixStream::connect(network, target)?, None));
    };
    let stream = connected_in(network, target, tries)?;
    let patience = Duration::from_secs(PATIENCE_SECONDS);
    stream.set_write_timeout(Some(patience))?;
    match Instant::now(network)?.checked_add(patience) {
        Some(until) => Ok((stream, Some(until))),
        None => Err(io::Error::from(ErrorKind::Other)),
    }
}

// Calls until somebody listens, so many times at most.
fn connected_in<N: Net + Clock>(network: &N, target: &str, tries: u32) -> io::Result<UnixStream> {
    for _ in 1..tries {
        match UnixStream::connect(network, target) {
            Err(error) if is_away(&error) => {
                thread::sleep(network, Duration::from_millis(REST_MILLISECONDS));
            }
            answer => return answer,
        }
    }
    UnixStream::connect(network, target)
}

// Whether nobody listens at a path yet: there is no socket, or one that its owner has left.
fn is_away(error: &io::Error) -> bool {
    matches!(
        error.kind(),
        ErrorKind::NotFound | ErrorKind::ConnectionRefused
    )
}
