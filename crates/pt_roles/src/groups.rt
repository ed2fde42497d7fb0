//! The writers and the streaming roles of a run, each in a group that goes to a thread of its own.
ghost use Rattle.std.specs.Prelude.{◌≡◌, ◌<◌, ◌≤◌, [], length, vec_len, vec_capacity};
ghost use Rattle.ep_live.specs.Made.{AreStands};
ghost use Rattle.ep_registry.specs.Registered.{AreLeft};
ghost use Rattle.pt_roles.specs.Streamers.{AreThere};
ghost use Rattle.pt_roles.specs.World.{rows_of};
ghost use Rattle.pt_roles.specs.Writers.{AreRowDrafts, HaveYetToWrite};

use crate::drafts::Drafts;
use crate::scene::Scene;
use crate::shared::Shared;
use crate::streamers::{Streamer, play_each};
use crate::world::{RoleMarks, World};
use crate::writers::{Writer, give_back, write_each, writers_of};
use ep_guarded::Agreed;
use ep_registry::Role;
use ep_tie::Right;
use pt_io::{Clock, Gate, Link};
use std::marker::PhantomData;
use std::sync::Wait;
use std::thread::Threads;
use std::time::Clock as Timer;

/// What the writers are made of, and memory for what they leave.
#[derive(Drop)]
pub struct WritersKit<'r, 't, 'a, W: World, R: Wait, L: Link, C, G> {
    pub scene: Scene<'r, W, R, C, G>,
    pub shared: &'t Shared<'a, W, L>,
    pub drafts: Vec<Drafts>,
    pub writers: Vec<Writer<'t, 'a, W, L>>,
    pub rows: Vec<(u64, u32)>,
    pub halves: Vec<Right<W, Agreed<'a>>>,
    pub ghost count: { vec_len drafts ≡ W.rows },
    pub ghost drafts_are: { AreRowDrafts W.world.plan W.world.options.lives drafts.items },
    pub ghost none: { (writers.items ≡ []) × (rows.items ≡ []) × (halves.items ≡ []) },
    pub ghost writer_room: { W.rows ≤ vec_capacity writers },
    pub ghost row_room: { W.rows ≤ vec_capacity rows },
    pub ghost half_room: { W.rows ≤ vec_capacity halves },
}

/// The writers of a run, none of whose threads has made a write.
#[derive(Drop)]
pub struct Writing<'r, 't, 'a, W: World, R: Wait, L: Link, C, G> {
    scene: Scene<'r, W, R, C, G>,
    shared: &'t Shared<'a, W, L>,
    writers: Vec<Writer<'t, 'a, W, L>>,
    rows: Vec<(u64, u32)>,
    halves: Vec<Right<W, Agreed<'a>>>,
    pub ghost count: { vec_len writers ≡ W.rows },
    pub ghost ready: { HaveYetToWrite W.world.plan W.world.options.lives writers.items },
    pub ghost none: { (rows.items ≡ []) × (halves.items ≡ []) },
    pub ghost row_room: { W.rows ≤ vec_capacity rows },
    pub ghost half_room: { W.rows ≤ vec_capacity halves },
}

/// The rows of a run whose writers have ended: each row's last thread, and how many writes it has made.
#[derive(Drop)]
pub struct AtEnd<W: World> {
    pub rows: Vec<(u64, u32)>,
    name: PhantomData<W>,
    pub ghost rows_are: { rows.items ≡ rows_of W.world.plan W.world.options.lives },
}

impl<'r, 't, 'a, W: World, R: Wait, L: Link, C, G> WritersKit<'r, 't, 'a, W, R, L, C, G> {
    /// The writers with their halves of the ties to the rows, by row.
    pub fn ready(self, stands: Vec<Right<W, Agreed<'a>>>) -> Writing<'r, 't, 'a, W, R, L, C, G>
        requires count { vec_len stands ≡ W.rows }
        requires halves { AreStands 0 stands.items }
    {
        let WritersKit {
            scene,
            shared,
            drafts,
            mut writers,
            rows,
            halves,
        } = self;
        writers_of(shared, stands, drafts, &mut writers);
        Writing {
            scene,
            shared,
            writers,
            rows,
            halves,
        }
    }
}

impl<
    'r,
    't,
    'a,
    W: World + Send + Sync,
    R: Threads + Wait + Timer + Sync,
    L: Link + Drop,
    C: Clock,
    G: Gate,
> Writing<'r, 't, 'a, W, R, L, C, G> {
    /// Lets each writer make its writes, and tells the roles once all have ended.
    pub fn write_all(self) -> AtEnd<W> {
        let Writing {
            scene,
            shared,
            mut writers,
            mut rows,
            halves,
        } = self;
        write_each(&scene, writers.as_mut_slice());
        let gone = give_back(&scene, writers, &mut rows, halves);
        shared.end_writers(scene.rt, gone);
        AtEnd {
            rows,
            name: PhantomData,
        }
    }
}

/// The streaming roles, and memory for what they leave.
#[derive(Drop)]
pub struct Streaming<'r, 't, 'a, W: World, R: Wait, L: Link, C, G> {
    pub scene: Scene<'r, W, R, C, G>,
    pub streamers: Vec<Streamer<'t, 'a, W, L>>,
    pub roles: Vec<Role<RoleMarks<W>>>,
    pub ghost there: { AreThere streamers.items },
    pub ghost none: { roles.items ≡ [] },
    pub ghost room: { vec_len streamers ≤ vec_capacity roles },
}

/// The streaming roles of a run, each of which has ended.
#[derive(Drop)]
pub struct AllLeft<W: World> {
    pub roles: Vec<Role<RoleMarks<W>>>,
    pub ghost left: { AreLeft roles.items },
}

impl<
    'r,
    't,
    'a,
    W: World + Send + Sync,
    R: Threads + Wait + Timer + Sync,
    L: Link + Drop,
    C: Clock,
    G: Gate,
> Streaming<'r, 't, 'a, W, R, L, C, G> {
    /// Lets each role serve its sessions until the server has ended and all of them are over.
    pub fn play_all(self) -> AllLeft<W> {
        let Streaming {
            scene,
            mut streamers,
            roles,
        } = self;
        play_each(&scene, streamers.as_mut_slice());
        all_left(streamers, roles)
    }
}

// The roles alone, in memory that is there.
fn all_left<W: World, L: Link + Drop>(
    streamers: Vec<Streamer<'_, '_, W, L>>,
    roles: Vec<Role<RoleMarks<W>>>,
) -> AllLeft<W>
    requires left { AreLeft streamers.items }
    requires none { roles.items ≡ [] }
    requires room { vec_len streamers ≤ vec_capacity roles }
{
    let mut roles = roles;
    for streamer in streamers {
        roles.push_reserved(streamer.into_role());
    }
    AllLeft { roles }
}
