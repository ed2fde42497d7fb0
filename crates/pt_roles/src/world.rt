//! What a run is known by.
use ep_tie::Named;
use pt_server::Process;
use pt_stream::Run;
use std::marker::{Brand, PhantomData};

/// One run with its server, by its name. A call picks it where it passes `Brand`.
pub trait World: Run + Process {
    ghost use Rattle.ep_tie.specs.Tied.{TieSet};
    ghost use Rattle.pt_roles.specs.World.{WorldState};

    // What is fixed from its beginning.
    ghost world: { WorldState };

    // The ties of the table: to the server's decisions, to whoever has a session, and to the marks of the roles.
    ghost books: { TieSet };

    ghost holds: { TieSet };

    ghost marks: { TieSet };
}

impl World for Brand {
    ghost use Rattle.ep_tie.specs.Tied.{no_ties};
    ghost use Rattle.pt_roles.specs.World.{no_world};

    ghost world = { no_world };

    ghost books = { no_ties };

    ghost holds = { no_ties };

    ghost marks = { no_ties };
}

/// The ties to the decisions of a run's server.
#[derive(Drop)]
pub struct Books<W> {
    name: PhantomData<W>,
}

impl<W: World> Named for Books<W> {
    ghost ties = { W.books };
}

/// The ties to whoever has a session of a run.
#[derive(Drop)]
pub struct Holds<W> {
    name: PhantomData<W>,
}

impl<W: World> Named for Holds<W> {
    ghost ties = { W.holds };
}

/// The ties to the marks of a run's server and of its roles.
#[derive(Drop)]
pub struct RoleMarks<W> {
    name: PhantomData<W>,
}

impl<W: World> Named for RoleMarks<W> {
    ghost ties = { W.marks };
}
