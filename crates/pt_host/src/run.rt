//! A run with its server, from its first turn to its end.
ghost use Rattle.std.specs.Prelude.{◌≡◌, ◌+◌, ◌*◌, ◌<◌, ◌≤◌, ℕ, [], length, None, Some, true, false, vec_capacity, vec_len, IfOk, IfErr, IfNone, IfSome, OnErr, IsTrue};
ghost use Rattle.ep_journal.specs.declared.limits.TheConstants.{CONNECTIONS};
ghost use Rattle.ep_table.specs.declared.limits.TheConstants.{SLOTS};
ghost use Rattle.ep_registry.specs.declared.server.Mark.TheVariants as mark;
ghost use Rattle.ep_registry.specs.Places.{numbered};
ghost use Rattle.ep_live.specs.Made.{AreStands};
ghost use Rattle.ep_live.specs.declared.limits.TheConstants.{ROW_TIES};
ghost use Rattle.pt_host.specs.declared.exit.Exit.TheVariants as exit;
ghost use Rattle.pt_host.specs.Ending.{AreLeftOver, IsAllOver, has_failed};
ghost use Rattle.pt_host.specs.Server.{GoesOnFrom, HasServed, HasTurned, no_server};
ghost use Rattle.ep_defs.specs.declared.limits.TheConstants.{THREADS as MOST_THREADS, WRITES};
ghost use Rattle.ep_defs.specs.Session.{is_valid_facts};
ghost use Rattle.ep_journal.specs.declared.session.Entry.{Entry as EntryValue};
ghost use Rattle.ep_journal.specs.Items.{item};
ghost use Rattle.ep_journal.specs.Recorded.{goes_on};
ghost use Rattle.ep_registry.specs.Held.{AreOver};
ghost use Rattle.pt_roles.specs.Table.{IsOver};
ghost use Rattle.pt_roles.specs.Ran.{IsEnd, IsRan};
ghost use Rattle.pt_roles.specs.World.{AreOptions, IsWorldOf, rows_of, world_of};

use crate::exit::Exit;
use crate::held_dock::HeldDock;
use crate::host::{LiveDesk, close, serve_early, serve_late};
use crate::locked::Locked;
use crate::prepared::{Blanks, Prepared};
use ep_defs::Facts;
use ep_guarded::{Agreed, Grant};
use ep_journal::limits::CONNECTIONS;
use ep_journal::{Entry, Log};
use ep_live::Stands;
use ep_registry::{Mark, Server};
use ep_shelf::Shelf;
use ep_tie::Right;
use pt_io::{Clock, Dock, Gate, Link};
use pt_load::Plan;
use pt_load::laws::sample_events_are_valid;
use pt_roles::{
    AllLeft, AtEnd, Books, Left, LiveEnd, LiveOptions, LiveSession, RoleMarks, Scene, Shared,
    Streaming, Table, World, WritersKit, Writing, drafts_of, streamers_of,
};
use pt_server::{ConnEnd, Desk};
use std::alloc::{AllocError, Global};
use std::marker::{Brand, PhantomData};
use std::sync::Wait;
use std::thread;
use std::thread::Threads;
use std::time::Clock as Timer;

/// Runs the sample program with its diagnostic server. The server takes the connections of the dock on the calling thread;
/// the streaming roles and the writers go to threads of their own. The writers begin once as many sessions as are waited
/// for were opened on all rows, or once nobody comes in any more. Sessions come and end while they write, and the run ends
/// once all writers, sessions and the server have. Out of memory before the dock is asked there is an error; later a
/// session ends for it, or its connection is told so.
pub fn run_live<
    'r,
    R: Threads + Wait + Timer + Sync,
    L: Link + Drop,
    D: Dock<Link = L>,
    C: Clock,
    G: Gate,
>(
    rt: &'r R,
    alloc: Global,
    plan: &'r Plan,
    options: &LiveOptions,
    facts: &'r Facts,
    dock: &mut D,
    clock: &'r C,
    gate: &'r G,
) -> Result<LiveEnd<L>, AllocError>
    requires threads { (0 < plan.now.threads) × (plan.now.threads ≤ MOST_THREADS) }
    requires writes { plan.now.writes ≤ WRITES }
    requires options { AreOptions options.now }
    requires facts { IsTrue (is_valid_facts facts.now) }
    ensures ran { IfOk result (IsRan D.Dock L.Sink L.read_side L.write_side
        (world_of plan.now options.now facts.now (D.greeting dock.old)) dock.old dock.new) }
    ensures memory { OnErr result (dock.new ≡ dock.old) }
{
    let shelf = Shelf::new(alloc)?;
    let parts = Parts {
        rt,
        alloc,
        plan,
        options: *options,
        facts,
        clock,
        gate,
    };
    let blanks = Blanks::new(alloc, plan.threads)?;
    let mut answer = Err(AllocError);
    let held = HeldDock::new(dock);
    let _held = run_named::<Brand, _, _, _, _, _>(parts, &shelf, blanks, held, &mut answer);
    answer
}

// What a run is given.
#[derive(Drop)]
struct Parts<'r, R, C, G> {
    rt: &'r R,
    alloc: Global,
    plan: &'r Plan,
    options: LiveOptions,
    facts: &'r Facts,
    clock: &'r C,
    gate: &'r G,
}

// The run, which has its name.
fn run_named<
    'd,
    'a,
    W: World + Send + Sync,
    R: Threads + Wait + Timer + Sync,
    L: Link + Drop,
    D: Dock<Link = L>,
    C: Clock,
    G: Gate,
>(
    parts: Parts<'_, R, C, G>,
    shelf: &'a Shelf<Grant>,
    blanks: Blanks<'a>,
    held: HeldDock<'d, D>,
    answer: &mut Result<LiveEnd<L>, AllocError>,
) -> HeldDock<'d, D>
    requires world { IsWorldOf W.world W.rows W.events W.writes W.setting W.facts W.greeting }
    requires plan { (parts.plan.now ≡ W.world.plan) × (parts.options ≡ W.world.options) }
    requires facts { (parts.facts.now ≡ W.world.facts) × IsTrue (is_valid_facts parts.facts.now) }
    requires rows { (blanks.rows.ties ≡ W.ties) × (blanks.rows.places ≡ W.rows + ROW_TIES * W.rows) }
    requires table { (blanks.books.ties ≡ W.books) × (blanks.holds.ties ≡ W.holds)
        × (blanks.marks.ties ≡ W.marks) }
    requires places { (blanks.books.places ≡ 1) × (blanks.holds.places ≡ CONNECTIONS)
        × (blanks.marks.places ≡ SLOTS + 1) }
    requires events { blanks.events.items ≡ W.events }
    requires greeting { D.greeting held.dock.now ≡ W.world.greeting }
    ensures same { result.dock.ghost_name ≡ held.entry.dock.ghost_name }
    ensures ran { IfOk answer.new (IsRan D.Dock L.Sink L.read_side L.write_side W.world
        held.entry.dock.now result.dock.now) }
    ensures memory { IfErr answer.new (λ _. result.dock.now ≡ held.entry.dock.now) }
{
    match Prepared::<W, L>::new(parts.alloc, parts.plan, parts.options.streamers, blanks) {
        Ok(prepared) => {
            let (held, end) = run_prepared(&parts, shelf, prepared, held);
            *answer = end;
            held
        }
        Err(error) => {
            *answer = Err(error);
            held
        }
    }
}

// The run over what was made for it before anybody comes in.
fn run_prepared<
    'd,
    'r,
    'a,
    W: World + Send + Sync,
    R: Threads + Wait + Timer + Sync,
    L: Link + Drop,
    D: Dock<Link = L>,
    C: Clock,
    G: Gate,
>(
    parts: &Parts<'r, R, C, G>,
    shelf: &'a Shelf<Grant>,
    prepared: Prepared<'a, W, L>,
    held: HeldDock<'d, D>,
) -> (HeldDock<'d, D>, Result<LiveEnd<L>, AllocError>)
    requires world { IsWorldOf W.world W.rows W.events W.writes W.setting W.facts W.greeting }
    requires plan { (parts.now.plan.now ≡ W.world.plan) × (parts.now.options ≡ W.world.options) }
    requires facts { (parts.now.facts.now ≡ W.world.facts) × IsTrue (is_valid_facts parts.now.facts.now) }
    requires greeting { D.greeting held.dock.now ≡ W.world.greeting }
    ensures same { result.0.dock.ghost_name ≡ held.entry.dock.ghost_name }
    ensures ran { IfOk result.1 (IsRan D.Dock L.Sink L.read_side L.write_side W.world
        held.entry.dock.now result.0.dock.now) }
    ensures memory { IfErr result.1 (λ _. result.0.dock.now ≡ held.entry.dock.now) }
{
    let Prepared {
        shared,
        sessions,
        server,
        roles,
        stands,
    } = prepared;
    let (held, over) = run_shared(parts, shelf, &shared, server, roles, stands, held);
    match over {
        Ok(over) => (held, Ok(end_of(shared.into_table(), over, sessions))),
        Err(error) => (held, Err(error)),
    }
}

// The run over what its threads share.
fn run_shared<
    'd,
    'r,
    't,
    'a,
    W: World + Send + Sync,
    R: Threads + Wait + Timer + Sync,
    L: Link + Drop,
    D: Dock<Link = L>,
    C: Clock,
    G: Gate,
>(
    parts: &Parts<'r, R, C, G>,
    shelf: &'a Shelf<Grant>,
    shared: &'t Shared<'a, W, L>,
    server: Server<Books<W>, RoleMarks<W>>,
    roles: Vec<Right<RoleMarks<W>, Mark>>,
    stands: Stands<'a, W>,
    held: HeldDock<'d, D>,
) -> (HeldDock<'d, D>, Result<Over<W, L>, AllocError>)
    requires world { IsWorldOf W.world W.rows W.events W.writes W.setting W.facts W.greeting }
    requires plan { (parts.now.plan.now ≡ W.world.plan) × (parts.now.options ≡ W.world.options) }
    requires facts { (parts.now.facts.now ≡ W.world.facts) × IsTrue (is_valid_facts parts.now.facts.now) }
    requires server { server ≡ no_server }
    requires roles { roles.items ≡ numbered SLOTS (mark.Role W.world.options.streamers false) }
    requires stands { stands ≡ Some 0 }
    requires greeting { D.greeting held.dock.now ≡ W.greeting }
    ensures same { result.0.dock.ghost_name ≡ held.entry.dock.ghost_name }
    ensures served { IfOk result.1 (λ over. HasServed D.Dock L.read_side L.write_side W.facts W.greeting
        W.world.options.wait over.exit over.conns.items held.entry.dock.now result.0.dock.now over.server) }
    ensures none { IfErr result.1 (λ _. result.0.dock.now ≡ held.entry.dock.now) }
{
    let wait = parts.options.wait;
    match groups_of(parts, shelf, shared, server, roles, stands) {
        Ok((front, streaming)) => run_groups(parts.rt, wait, front, streaming, held),
        Err(error) => (held, Err(error)),
    }
}

// The server, the roles and the writers, each with what it needs.
fn groups_of<'r, 't, 'a, W: World, R: Wait, L: Link + Drop, C, G>(
    parts: &Parts<'r, R, C, G>,
    shelf: &'a Shelf<Grant>,
    shared: &'t Shared<'a, W, L>,
    server: Server<Books<W>, RoleMarks<W>>,
    roles: Vec<Right<RoleMarks<W>, Mark>>,
    stands: Stands<'a, W>,
) -> Result<
    (
        Front<'r, 't, 'a, W, R, L, C, G>,
        Streaming<'r, 't, 'a, W, R, L, C, G>,
    ),
    AllocError,
>
    requires world { IsWorldOf W.world W.rows W.events W.writes W.setting W.facts W.greeting }
    requires plan { (parts.now.plan.now ≡ W.world.plan) × (parts.now.options ≡ W.world.options) }
    requires facts { (parts.now.facts.now ≡ W.world.facts) × IsTrue (is_valid_facts parts.now.facts.now) }
    requires server { server ≡ no_server }
    requires roles { roles.items ≡ numbered SLOTS (mark.Role W.world.options.streamers false) }
    requires stands { stands ≡ Some 0 }
    ensures { IfOk result (λ groups. (groups.0.serving.desk.decider ≡ no_server)
        × (groups.0.serving.stands ≡ Some 0)) }
{
    let alloc = parts.alloc;
    let threads = parts.plan.threads as usize;
    let count = parts.options.streamers;
    let streaming = Streaming {
        scene: scene(parts),
        streamers: streamers_of(alloc, shared, roles, count)?,
        roles: Vec::with_capacity(alloc, count as usize)?,
    };
    let kit = WritersKit {
        scene: scene(parts),
        shared,
        drafts: drafts_of(alloc, parts.plan, parts.options.lives)?,
        writers: Vec::with_capacity(alloc, threads)?,
        rows: Vec::with_capacity(alloc, threads)?,
        halves: Vec::with_capacity(alloc, threads)?,
    };
    let desk = Desk::new(alloc, Locked::new(parts.rt, shared, server))?;
    let serving = Serving {
        scene: scene(parts),
        shared,
        shelf,
        desk,
        stands,
    };
    Ok((Front { serving, kit }, streaming))
}

// What never changes in the run.
fn scene<'r, W: World, R, C, G>(parts: &Parts<'r, R, C, G>) -> Scene<'r, W, R, C, G>
    requires world { IsWorldOf W.world W.rows W.events W.writes W.setting W.facts W.greeting }
    requires plan { (parts.now.plan.now ≡ W.world.plan) × (parts.now.options ≡ W.world.options) }
    requires facts { (parts.now.facts.now ≡ W.world.facts) × IsTrue (is_valid_facts parts.now.facts.now) }
{
    sample_events_are_valid();
    Scene {
        rt: parts.rt,
        alloc: parts.alloc,
        clock: parts.clock,
        gate: parts.gate,
        plan: parts.plan,
        facts: parts.facts,
        lives: parts.options.lives,
        name: PhantomData,
    }
}

// The server, and what the writers are made of.
#[derive(Drop)]
struct Front<'r, 't, 'a, W: World, R: Wait, L: Link + Drop, C, G> {
    serving: Serving<'r, 't, 'a, W, R, L, C, G>,
    kit: WritersKit<'r, 't, 'a, W, R, L, C, G>,
}

// The server with what it needs.
#[derive(Drop)]
struct Serving<'r, 't, 'a, W: World, R: Wait, L: Link + Drop, C, G> {
    scene: Scene<'r, W, R, C, G>,
    shared: &'t Shared<'a, W, L>,
    shelf: &'a Shelf<Grant>,
    desk: LiveDesk<'r, 't, 'a, W, R, L>,
    stands: Stands<'a, W>,
}

// What the groups leave.
#[derive(Drop)]
struct Over<W: World, L: Link> {
    server: Server<Books<W>, RoleMarks<W>>,
    conns: Vec<ConnEnd<L>>,
    exit: Exit,
    left: AllLeft<W>,
    end: AtEnd<W>,
}

// Lets the server, the roles and the writers do their parts. Where no thread can be made for the roles the dock is not
// asked.
fn run_groups<
    'd,
    'r,
    't,
    'a,
    W: World + Send + Sync,
    R: Threads + Wait + Timer + Sync,
    L: Link + Drop,
    D: Dock<Link = L>,
    C: Clock,
    G: Gate,
>(
    rt: &'r R,
    wait: u32,
    front: Front<'r, 't, 'a, W, R, L, C, G>,
    streaming: Streaming<'r, 't, 'a, W, R, L, C, G>,
    held: HeldDock<'d, D>,
) -> (HeldDock<'d, D>, Result<Over<W, L>, AllocError>)
    requires server { (front.serving.desk.decider ≡ no_server) × (front.serving.stands ≡ Some 0) }
    requires greeting { D.greeting held.dock.now ≡ W.greeting }
    ensures same { result.0.dock.ghost_name ≡ held.entry.dock.ghost_name }
    ensures served { IfOk result.1 (λ over. HasServed D.Dock L.read_side L.write_side W.facts W.greeting
        wait over.exit over.conns.items held.entry.dock.now result.0.dock.now over.server) }
    ensures none { IfErr result.1 (λ _. result.0.dock.now ≡ held.entry.dock.now) }
{
    thread::scope(
        thread::scope_env(),
        rt,
        move |scope|
            requires { (front.serving.desk.decider ≡ no_server) × (front.serving.stands ≡ Some 0)
                × (D.greeting held.dock.now ≡ W.greeting) }
            ensures same { result.0.dock.ghost_name ≡ held.entry.dock.ghost_name }
            ensures served { IfOk result.1 (λ over. HasServed D.Dock L.read_side L.write_side W.facts W.greeting
                wait over.exit over.conns.items held.entry.dock.now result.0.dock.now over.server) }
            ensures none { IfErr result.1 (λ _. result.0.dock.now ≡ held.entry.dock.now) }
        {
            let play = move || streaming.play_all();
            let playing = match scope.spawn(play) {
                Ok(handle) => handle,
                Err(_) => {
                    give_up(front);
                    return (held, Err(AllocError));
                }
            };
            let (held, first, serving, writing) = serve_until_ready(front, held, wait);
            let write = move ||
                ensures { result.rows.items ≡ rows_of W.world.plan W.world.options.lives }
            { writing.write_all() };
            let writers = match scope.spawn(write) {
                Ok(handle) => Ok(handle),
                Err(refused) => Err((refused.value)()),
            };
            let (held, exit, serving) = serve_on(serving, held, first);
            let end = match writers {
                Ok(handle) => handle.join(rt),
                Err(end) => end,
            };
            let (server, conns) = close(serving.desk);
            let left = playing.join(rt);
            let over = Over {
                server,
                conns,
                exit,
                left,
                end,
            };
            (held, Ok(over))
        },
    )
}

// The server ends before it has asked the dock.
fn give_up<'r, 't, 'a, W: World, R: Wait, L: Link + Drop, C, G>(
    front: Front<'r, 't, 'a, W, R, L, C, G>,
) {
    let Front { serving, kit: _ } = front;
    let Serving {
        scene: _,
        shared: _,
        shelf: _,
        desk,
        stands: _,
    } = serving;
    let _ended = close(desk);
}

// The server takes connections until the writers are to begin, and lends them the threads' halves.
fn serve_until_ready<
    'd,
    'r,
    't,
    'a,
    W: World,
    R: Wait + Timer,
    L: Link + Drop,
    D: Dock<Link = L>,
    C: Clock,
    G: Gate,
>(
    front: Front<'r, 't, 'a, W, R, L, C, G>,
    held: HeldDock<'d, D>,
    wait: u32,
) -> (
    HeldDock<'d, D>,
    Exit,
    Serving<'r, 't, 'a, W, R, L, C, G>,
    Writing<'r, 't, 'a, W, R, L, C, G>,
)
    requires open { front.serving.desk.decider.left ≡ false }
    requires stands { front.serving.stands ≡ Some 0 }
    requires greeting { D.greeting held.dock.now ≡ W.greeting }
    ensures turned { HasTurned D.Dock true (Some result.1) held.entry.dock.now result.0.dock.now
        front.entry.serving.desk.decider result.2.desk.decider }
    ensures enough { result.1 ≡ exit.Enough → wait ≤ result.2.desk.decider.early }
    ensures stands { result.2.stands ≡ None }
    ensures same { result.0.dock.ghost_name ≡ held.entry.dock.ghost_name }
{
    let Front { serving, kit } = front;
    let (held, first, serving) = serve_first(serving, held, wait);
    let (serving, stands) = lend(serving);
    (held, first, serving, kit.ready(stands))
}

// The server takes connections until the writers are to begin.
fn serve_first<
    'd,
    'r,
    't,
    'a,
    W: World,
    R: Wait + Timer,
    L: Link + Drop,
    D: Dock<Link = L>,
    C: Clock,
    G: Gate,
>(
    serving: Serving<'r, 't, 'a, W, R, L, C, G>,
    held: HeldDock<'d, D>,
    wait: u32,
) -> (HeldDock<'d, D>, Exit, Serving<'r, 't, 'a, W, R, L, C, G>)
    requires open { serving.desk.decider.left ≡ false }
    requires stands { serving.stands ≡ Some 0 }
    requires greeting { D.greeting held.dock.now ≡ W.greeting }
    ensures turned { HasTurned D.Dock true (Some result.1) held.entry.dock.now result.0.dock.now
        serving.entry.desk.decider result.2.desk.decider }
    ensures enough { result.1 ≡ exit.Enough → wait ≤ result.2.desk.decider.early }
    ensures stands { result.2.stands ≡ Some 0 }
    ensures same { result.0.dock.ghost_name ≡ held.entry.dock.ghost_name }
{
    let Serving {
        scene,
        shared,
        shelf,
        mut desk,
        mut stands,
    } = serving;
    let mut held = held;
    let exit = serve_early(
        &scene,
        shared,
        shelf,
        &mut desk,
        &mut stands,
        &mut held,
        wait,
    );
    let serving = Serving {
        scene,
        shared,
        shelf,
        desk,
        stands,
    };
    (held, exit, serving)
}

// The server lends the threads' halves to the writers.
fn lend<'r, 't, 'a, W: World, R: Wait, L: Link + Drop, C, G>(
    serving: Serving<'r, 't, 'a, W, R, L, C, G>,
) -> (
    Serving<'r, 't, 'a, W, R, L, C, G>,
    Vec<Right<W, Agreed<'a>>>,
)
    requires { serving.stands ≡ Some 0 }
    ensures desk { result.0.desk ≡ serving.entry.desk }
    ensures none { result.0.stands ≡ None }
    ensures count { vec_len result.1 ≡ W.rows }
    ensures halves { AreStands 0 result.1.items }
{
    let Serving {
        scene,
        shared,
        shelf,
        desk,
        mut stands,
    } = serving;
    let halves = stands.lend();
    let serving = Serving {
        scene,
        shared,
        shelf,
        desk,
        stands,
    };
    (serving, halves)
}

// The server goes on while the writers write, unless nobody comes in any more.
fn serve_on<
    'd,
    'r,
    't,
    'a,
    W: World,
    R: Wait + Timer,
    L: Link + Drop,
    D: Dock<Link = L>,
    C: Clock,
    G: Gate,
>(
    serving: Serving<'r, 't, 'a, W, R, L, C, G>,
    held: HeldDock<'d, D>,
    first: Exit,
) -> (HeldDock<'d, D>, Exit, Serving<'r, 't, 'a, W, R, L, C, G>)
    requires open { serving.desk.decider.left ≡ false }
    requires stands { serving.stands ≡ None }
    requires greeting { D.greeting held.dock.now ≡ W.greeting }
    ensures turned { GoesOnFrom D.Dock first result.1 held.entry.dock.now result.0.dock.now
        serving.entry.desk.decider result.2.desk.decider }
    ensures same { result.0.dock.ghost_name ≡ held.entry.dock.ghost_name }
{
    let Exit::Enough = first else {
        return (held, first, serving);
    };
    let Serving {
        scene,
        shared,
        shelf,
        mut desk,
        mut stands,
    } = serving;
    let mut held = held;
    let exit = serve_late(&scene, shared, shelf, &mut desk, &mut stands, &mut held);
    let serving = Serving {
        scene,
        shared,
        shelf,
        desk,
        stands,
    };
    (held, exit, serving)
}

// What the run comes to, in memory that is there.
fn end_of<'a, W: World, L: Link + Drop>(
    table: Table<'a, W, L>,
    over: Over<W, L>,
    sessions: Vec<LiveSession<L>>,
) -> LiveEnd<L>
    requires none { sessions.items ≡ [] }
    requires room { CONNECTIONS ≤ vec_capacity sessions }
    ensures rows { result.rows.items ≡ rows_of W.world.plan W.world.options.lives }
    ensures conns { result.conns ≡ over.conns }
    ensures sessions { IsAllOver L.read_side L.Sink W.world over.server result.sessions.items }
    ensures failed { result.dock_failed ≡ has_failed over.exit }
{
    let Over {
        mut server,
        conns,
        exit,
        left,
        end,
    } = over;
    let ended = table.finish(&mut server, left.roles);
    // Both logs have room for as many items as connections, and no more.
    let _decided = ended.decisions.len();
    let _accepted = ended.sessions.len();
    LiveEnd {
        rows: end.rows,
        sessions: sessions_of(ended.over, &ended.sessions, sessions),
        conns,
        dock_failed: has_failed(exit),
    }
}

// Whether the dock has failed.
fn has_failed(exit: Exit) -> bool
    ensures { result ≡ has_failed exit }
{
    match exit {
        Exit::Failed => true,
        Exit::Enough | Exit::Closed | Exit::Full => false,
    }
}

// What is left of the sessions, by id, in memory that is there.
fn sessions_of<'a, W: World, L: Link + Drop>(
    over: Vec<Option<Left<'a, W, L>>>,
    entries: &Log<Entry>,
    sessions: Vec<LiveSession<L>>,
) -> Vec<LiveSession<L>>
    requires over { AreOver over.items entries.now }
    requires ended { (id : ℕ) (e : EntryValue) → item entries.now id ≡ Some e → goes_on e.stage ≡ false }
    requires few { length entries.now ≤ CONNECTIONS }
    requires none { sessions.items ≡ [] }
    requires room { CONNECTIONS ≤ vec_capacity sessions }
    ensures { AreLeftOver L.read_side L.Sink W.world entries.now result.items }
{
    let mut over = over;
    over.truncate(CONNECTIONS);
    let mut sessions = sessions;
    let mut id = 0;
    for place in over {
        id += 1;
        if let Some(finished) = place {
            let gone = entries.at(id).gone;
            sessions.push_reserved(session_with(finished, gone));
        }
    }
    sessions
}

// What is left of a session, and since when it could be stopped no more.
fn session_with<'a, W: World, L: Link + Drop>(
    finished: Left<'a, W, L>,
    gone: Option<u32>,
) -> LiveSession<L>
    ensures over { IsOver W.world finished.entry result }
    ensures gone { result.gone ≡ gone }
    ensures is_end { IsEnd L.read_side L.Sink W.world result }
{
    let (_hold, finale) = finished.open();
    LiveSession {
        gone,
        ..finale.open()
    }
}
