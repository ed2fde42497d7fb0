//! Unix sockets as links. They are trusted: no clause can say what the system gives or takes.
ghost use Rattle.std.specs.Prelude.{◌≡◌, ◌+◌, ◌^◌, ◌<◌, ◌≤◌, [], length, false, IsErr, IfOk, IfSome, OnOk, OnErr};
ghost use Rattle.pt_io.specs.Faults.{HasRisen};

use ipc_reverse::Advertise;
use ipc_reverse::limits::ADVERT_BYTES;
use pt_io::{Failed, Link, Sink, Source};
use std::io::{ErrorKind, Read, Write};
use std::marker::Model;
use std::net::Shutdown;
use std::os::unix::net::UnixStream;
use std::time::{Clock, Duration, Instant};

/// How many bytes a socket gives at most.
const MOST: u64 = (1 << 63) - 1;

/// How long a read waits at least, in milliseconds: what is there is read, however late its reader is.
const LEAST_WAIT: u64 = 1;

/// A Unix stream socket as a link. It tells nothing of its bytes, but for the message that it took first, if it took one.
#[derive(Drop)]
pub struct SocketLink<C: Clock> {
    stream: UnixStream,
    clock: C,
    /// By when its peer has to have sent what is read, if it may not take its time.
    until: Option<Instant>,
    /// What it took first, if that was to be known.
    advert: Option<[u8; ADVERT_BYTES]>,
    may_give: u64,
    read_faults: u64,
    write_faults: u64,
}

impl<C: Clock> Model for SocketLink<C> {
    ghost use Rattle.std.specs.Prelude.{◌<◌, ◌^◌};
    ghost use Rattle.pt_system.specs.Sockets.{SocketState, first_of};

    ghost Value = { SocketState };

    ghost view = { λ s. record {
      taken = first_of s.advert;
      may_give = s.may_give;
      read_faults = s.read_faults;
      write_faults = s.write_faults;
    } };

    ghost invariant = { λ s. s.may_give < 2 ^ 63 };
}

impl<C: Clock> SocketLink<C> {
    ghost use Rattle.std.specs.Prelude.{◌≡◌};
    ghost use Rattle.pt_system.specs.Sockets.{fresh_socket};

    /// A link over this socket, which has not failed. Where a time is given, no read waits much beyond it: one that finds
    /// nothing then fails.
    pub fn new(stream: UnixStream, clock: C, until: Option<Instant>) -> SocketLink<C>
        ensures { result ≡ fresh_socket }
    {
        SocketLink {
            stream,
            clock,
            until,
            advert: None,
            may_give: MOST,
            read_faults: 0,
            write_faults: 0,
        }
    }
}

impl<C: Clock> Source for SocketLink<C> {
    ghost tells_given = { λ _. false };

    ghost given = { λ _. [] };

    ghost left = { λ _. [] };

    ghost may_give = { λ s. s.may_give };

    ghost read_faults = { λ s. s.read_faults };

    ghost write_side = { λ s. record { tells = false; taken = s.taken; faults = s.write_faults } };

    /// Gives what the socket gives. It fails where the socket does, where nothing is there by the time by which it is to be,
    /// and where all that it may give was given.
    fn read(&mut self, buf: &mut [u8]) -> Result<usize, Failed>
        requires { 0 < length buf.old }

        ensures spent { self.old.may_give ≡ 0 → IsErr result }
        ensures writes { self.new.write_faults ≡ self.old.write_faults }
        ensures taken { self.new.taken ≡ self.old.taken }

        // What the trait says.
        ensures within { IfOk result (λ n. n ≤ length buf.new) }
        ensures few { self.old.may_give < 2 ^ 63 }
        ensures falls { IfOk result (λ n. self.new.may_give + n ≡ self.old.may_give) }
        ensures failed { OnErr result (HasRisen self.old.read_faults self.new.read_faults) }
        ensures read { OnOk result (self.new.read_faults ≡ self.old.read_faults) }
        ensures later { self.old.read_faults ≤ self.new.read_faults }
        ensures falls_err { OnErr result (self.new.may_give ≡ self.old.may_give) }
    {
        if self.may_give > 0 {
            let most = (buf.len() as u64).min(self.may_give) as usize;
            let part = &mut buf[..most];
            if let Some(count) = read_once(&mut self.stream, &self.clock, self.until, part) {
                self.may_give -= count as u64;
                return Ok(count);
            }
        }
        self.read_faults = self.read_faults.saturating_add(1);
        Err(Failed)
    }
}

// How many bytes one read gave, None where it failed or nothing came in time. A read that a signal broke off, as after
// Ctrl-Z, is made again.
fn read_once<C: Clock>(
    stream: &mut UnixStream,
    clock: &C,
    until: Option<Instant>,
    buf: &mut [u8],
) -> Option<usize>
    ensures { IfSome result (λ n. n ≤ length buf.old) }
{
    for _ in 0..u64::MAX {
        if let Some(until) = until {
            let left = until.duration_since(Instant::now(clock).ok()?);
            stream
                .set_read_timeout(Some(left.max(Duration::from_millis(LEAST_WAIT))))
                .ok()?;
        }
        match stream.read(buf) {
            Ok(count) => return Some(count),
            Err(error) if error.kind() == ErrorKind::Interrupted => {}
            Err(_) => return None,
        }
    }
    None
}

impl<C: Clock> Sink for SocketLink<C> {
    ghost tells_taken = { λ _. false };

    ghost taken = { λ s. s.taken };

    ghost write_faults = { λ s. s.write_faults };

    ghost read_side = { λ s. record {
      tells = false;
      given = [];
      left = [];
      may_give = s.may_give;
      faults = s.read_faults;
    } };

    /// Writes the whole piece, or fails. A socket whose peer has gone fails, and sends no signal.
    fn write(&mut self, piece: &[u8]) -> Result<(), Failed>
        ensures gives { self.new.may_give ≡ self.old.may_give }
        ensures reads { self.new.read_faults ≡ self.old.read_faults }
        ensures first { self.new.taken ≡ self.old.taken }

        // What the trait says.
        ensures failed { OnErr result (HasRisen self.old.write_faults self.new.write_faults) }
        ensures wrote { OnOk result (self.new.write_faults ≡ self.old.write_faults) }
        ensures later { self.old.write_faults ≤ self.new.write_faults }
    {
        if self.stream.write_all(piece).is_ok() {
            return Ok(());
        }
        self.write_faults = self.write_faults.saturating_add(1);
        Err(Failed)
    }
}

impl<C: Clock + Send> Link for SocketLink<C> {
    ghost use Rattle.std.specs.Prelude.{refl};

    /// Ends both directions of the socket. One that its peer has ended stays as it is.
    fn shut(&mut self)
        ensures { self.new ≡ self.old }
    {
        let _ended = self.stream.shutdown(Shutdown::Both);
    }

    ghost reads = { λ _. refl };

    ghost writes = { λ _. refl };
}

impl<C: Clock + Send> Advertise for SocketLink<C> {
    /// Writes the message, as all else is written, and keeps it as what the socket took first.
    fn advertise(&mut self, advert: &[u8; ADVERT_BYTES]) -> Result<(), Failed>
        requires { self.old.taken ≡ [] }

        ensures gives { self.new.may_give ≡ self.old.may_give }
        ensures reads { self.new.read_faults ≡ self.old.read_faults }

        // What the trait says.
        ensures took { OnOk result (self.new.taken ≡ advert.now) }
        ensures failed { OnErr result (HasRisen self.old.write_faults self.new.write_faults) }
        ensures wrote { OnOk result (self.new.write_faults ≡ self.old.write_faults) }
        ensures later { self.old.write_faults ≤ self.new.write_faults }
    {
        self.write(advert)?;
        self.advert = Some(*advert);
        Ok(())
    }
}
