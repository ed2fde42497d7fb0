//! The link of a session.
ghost use Rattle.std.specs.Prelude.{◌≡◌, ◌≢◌, ◌<◌, [], false, IsTrue};
ghost use Rattle.ipc_body.specs.declared.request.Request.TheVariants as request;
ghost use Rattle.nt_write.specs.declared.fault.Fault.TheVariants.{WriteFault};
ghost use Rattle.pt_server.specs.Connection.{HasAsked, Took, TookStart};
ghost use Rattle.pt_server.specs.Unstarted.{HasAskedSession, IsUnstarted};

use crate::process::Process;
use crate::unstarted::Unstarted;
use ep_defs::Config;
use nt_write::Fault;
use pt_io::{Failed, Link, Sink};
use std::marker::{Model, PhantomData};

/// The link of a session, as the sink of its stream. Its type keeps that the bytes which the link gave asked for this
/// configuration, and that the link has taken nothing but the greeting until something is written, and more from then on,
/// unless a write of it failed.
#[derive(Drop)]
pub struct Served<'a, N: Process, L: Link> {
    link: L,
    config: &'a Config,
    // A piece that is not empty was written, or a write failed.
    wrote: bool,
    tag: PhantomData<N>,
}

impl<'a, N: Process, L: Link> Model for Served<'a, N, L> {
    ghost use Rattle.pt_server.specs.Served.{ServedState, IsServed};

    ghost Value = { ServedState L };

    ghost view = { λ s. record { link = s.link; config = s.config.now; wrote = s.wrote } };

    ghost invariant = { λ s. IsServed N.greeting s.config.now s.wrote (L.read_side s.link) (L.write_side s.link) };
}

impl<'a, N: Process, L: Link> Served<'a, N, L> {
    /// The link of a connection that asked for a session of this configuration.
    pub fn new(link: L, config: &'a Config) -> Served<'a, N, L>
        requires asked { HasAsked (L.read_side link) (request.Collect config.now) }
        requires silent { Took N.greeting [] (L.write_side link) }
        ensures value { result ≡ record { link = link; config = config.now; wrote = false } }
        ensures greeted { IsTrue (L.tells_taken link) → L.taken link ≡ N.greeting }
        ensures sound { L.write_faults link ≡ 0 }
    {
        Served {
            link,
            config,
            wrote: false,
            tag: PhantomData,
        }
    }

    /// The link alone. It gave the request for the session.
    pub fn into_link(self) -> L
        ensures link { result ≡ self.entry.link }
        ensures asked { HasAsked (L.read_side result) (request.Collect self.entry.config) }
    {
        self.link
    }

    /// The link alone, and why its session did not start, by the fault that its stream's start told.
    pub fn unstarted(self, fault: Fault) -> (L, Unstarted)
        requires start { TookStart N.facts.info N.greeting (L.tells_taken self.link)
            (L.taken self.link) }
        requires fault { fault ≡ WriteFault → 0 < L.write_faults self.link }
        requires sound { fault ≢ WriteFault → L.write_faults self.link ≡ 0 }
        ensures link { result.0 ≡ self.entry.link }
        ensures asked { HasAskedSession (L.read_side result.0) }
        ensures why { IsUnstarted N.facts N.greeting (L.write_side result.0) result.1 }
    {
        if !self.wrote {
            return (self.link, Unstarted::Silent);
        }
        match fault {
            Fault::WriteFault => (self.link, Unstarted::WriteFault),
            Fault::TooLong | Fault::OutOfMemory => (self.link, Unstarted::Cut),
        }
    }

    /// Says that nothing more will be written.
    pub fn shut(&mut self)
        ensures config { self.new.config ≡ self.old.config }
        ensures wrote { self.new.wrote ≡ self.old.wrote }
        ensures given { L.read_side self.new.link ≡ L.read_side self.old.link }
        ensures taken { L.write_side self.new.link ≡ L.write_side self.old.link }
    {
        self.link.shut();
    }
}

impl<N: Process, L: Link> Sink for Served<'_, N, L> {
    ghost tells_taken = { λ s. L.tells_taken s.link };

    ghost taken = { λ s. L.taken s.link };

    ghost write_faults = { λ s. L.write_faults s.link };

    ghost read_side = { λ s. L.read_side s.link };

    fn write(&mut self, piece: &[u8]) -> Result<(), Failed> {
        let written = self.link.write(piece);
        if !piece.is_empty() || written.is_err() {
            self.wrote = true;
        }
        written
    }
}
