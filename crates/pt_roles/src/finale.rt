//! What is left of a session once its role has ended it.
ghost use Rattle.std.specs.Prelude.{◌≡◌};
ghost use Rattle.pt_roles.specs.Ran.{IsEnd};

use crate::live_end::LiveSession;
use crate::world::World;
use pt_io::Link;
use std::marker::{Model, PhantomData};

/// A session that has ended as a session of the run. Contracts see what is left of it.
#[derive(Drop)]
pub struct Finale<W: World, L: Link> {
    session: LiveSession<L>,
    name: PhantomData<W>,
}

impl<W: World, L: Link> Model for Finale<W, L> {
    ghost use Rattle.pt_roles.specs.declared.live_end.LiveSession.{LiveSession};
    ghost use Rattle.pt_roles.specs.Ran.{IsEnd};

    ghost Value = { LiveSession L };

    ghost view = { λ f. f.session };

    ghost invariant = { λ f. IsEnd L.read_side L.Sink W.world f.session };
}

impl<W: World, L: Link> Finale<W, L> {
    /// A session that has ended so.
    pub fn new(session: LiveSession<L>) -> Finale<W, L>
        requires ended { IsEnd L.read_side L.Sink W.world session }
        ensures { result ≡ session }
    {
        Finale {
            session,
            name: PhantomData,
        }
    }

    /// What is left of it.
    pub fn open(self) -> LiveSession<L>
        ensures value { result ≡ self }
        ensures is_end { IsEnd L.read_side L.Sink W.world result }
    {
        self.session
    }
}
