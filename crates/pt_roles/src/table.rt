//! The table of a run's sessions, as all roles share it.
use crate::finale::Finale;
use crate::world::{Books, Holds, RoleMarks, World};
use crate::writers::Gone;
use ep_live::Free;
use ep_registry::{Finished, Handed, Kinds, Registry};
use pt_io::Link;
use pt_server::{Process, Served};
use pt_stream::{Run, Stream};

/// What the table keeps: the slots that are free, the streams that wait for their roles, what is left of the sessions that
/// have ended, and what the writers leave.
pub struct Kept;

impl<'a, W: World, L: Link> Kinds<
    Free<'a, W>,
    Stream<'a, W, Served<'a, W, L>>,
    Finale<W, L>,
    Gone<'a, W>,
> for Kept {
    ghost use Rattle.std.specs.Prelude.{◌≡◌};
    ghost use Rattle.pt_roles.specs.Table.{IsOver, Waits};

    ghost free = { λ slot free. free ≡ slot };

    ghost fits = { λ hold stream. Waits W.writes hold stream };

    ghost over = { λ hold session. IsOver W.world hold session };

    ghost gone = { λ _. Unit {0} };
}

/// The stream of a session, which goes to the link that asked for it.
pub type Telling<'a, W, L> = Stream<'a, W, Served<'a, W, L>>;

/// The table. It stands behind one lock.
pub type Table<'a, W, L> = Registry<
    Books<W>,
    Holds<W>,
    RoleMarks<W>,
    Kept,
    Free<'a, W>,
    Stream<'a, W, Served<'a, W, L>>,
    Finale<W, L>,
    Gone<'a, W>,
>;

/// A session with its stream.
pub type Held<'a, W, L> = Handed<
    Holds<W>,
    Kept,
    Free<'a, W>,
    Stream<'a, W, Served<'a, W, L>>,
    Finale<W, L>,
    Gone<'a, W>,
>;

/// A session that has ended, with what is left of it.
pub type Left<'a, W, L> = Finished<
    Kept,
    Free<'a, W>,
    Stream<'a, W, Served<'a, W, L>>,
    Finale<W, L>,
    Gone<'a, W>,
>;
