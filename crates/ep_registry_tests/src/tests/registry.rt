//! A whole history of a registry with its server and two roles, from the first connection to what is left in the end.
ghost use Rattle.std.specs.Prelude.{◌≡◌, ◌+◌, ◌<◌, ◌≤◌, [], IfOk, false, length, true};
ghost use Rattle.ep_table.specs.declared.limits.TheConstants.{SLOTS};
ghost use Rattle.ep_journal.specs.declared.limits.TheConstants.{CONNECTIONS};
ghost use Rattle.ep_registry.specs.declared.server.Mark.TheVariants as mark;
ghost use Rattle.ep_registry.specs.Places.{numbered, AreAt};
ghost use Rattle.ep_registry.specs.Registered.{AreLeft};

use ep_journal::limits::CONNECTIONS;
use ep_journal::{Decision, Entry, Fate, Log, Opened, Stage};
use ep_registry::{Ended, Finished, Handed, Hold, Kinds, Mark, Registry, Role, Server};
use ep_table::StopAnswer;
use ep_table::limits::SLOTS;
use ep_tie::{Blank, Named, Right};
use std::alloc::{AllocError, AllocGlobal, Global};
use std::marker::Brand;
use std::process::Abort;

/// A free slot is there with its number, which goes with its session; what is left of a session is its id.
struct ByNumber;

impl Kinds<u32, u32, u64, u32> for ByNumber {
    ghost use Rattle.std.specs.Prelude.{◌≡◌};

    ghost free = { λ slot free. free ≡ slot };

    ghost fits = { λ hold free. free ≡ hold.slot };

    ghost over = { λ hold end. end ≡ hold.id };

    ghost gone = { λ writers. writers ≡ 2 };
}

/// What came of the steps of a history, and what is left in the end.
#[derive(Drop)]
struct Told {
    /// Whether each connection that asked for a session had it.
    begun: [bool; 3],
    /// Whether each stop was granted.
    stopped: [bool; 2],
    /// How each session ended at which its role looked.
    found: [Option<Fate>; 3],
    /// How many sessions were opened early, and how many late.
    opened: [u32; 2],
    ended: Ended<ByNumber, u32, u32, u64, u32>,
}

/// The ties of a registry.
#[derive(Drop)]
struct Sets {
    book: Blank<Log<Decision>>,
    holds: Blank<Option<Hold>>,
    marks: Blank<Mark>,
}

impl Sets {
    fn new(rt: &(impl Abort + AllocGlobal)) -> Sets
        ensures { (result.book.places ≡ 1) × (result.holds.places ≡ CONNECTIONS)
            × (result.marks.places ≡ SLOTS + 1) }
    {
        let alloc = rt.alloc();
        Sets {
            book: Blank::new(alloc, 1).expect(rt, "a tie"),
            holds: Blank::new(alloc, CONNECTIONS as u32).expect(rt, "ties"),
            marks: Blank::new(alloc, SLOTS as u32 + 1).expect(rt, "ties"),
        }
    }
}

/// A registry at work.
#[derive(Drop)]
struct Run<B: Named, S: Named, R: Named> {
    registry: Registry<B, S, R, ByNumber, u32, u32, u64, u32>,
    server: Server<B, R>,
}

impl<B: Named, S: Named, R: Named> Run<B, S, R> {
    // The next connection asks for a session, whose start fails.
    fn fail_start(&mut self) -> bool
        requires room { length self.old.server.decisions < CONNECTIONS }
        requires open { self.old.server.left ≡ false }
        ensures room { length self.new.server.decisions ≤ length self.old.server.decisions + 1 }
        ensures open { self.new.server.left ≡ false }
    {
        let Some((holder, free)) = self.registry.accept(&mut self.server) else {
            return false;
        };
        self.registry.fail(&mut self.server, holder, free);
        true
    }

    // The next connection asks for a session, which is opened early or late and waits for its role.
    fn begin(&mut self, early: bool) -> bool
        requires room { length self.old.server.decisions < CONNECTIONS }
        requires open { self.old.server.left ≡ false }
        ensures room { length self.new.server.decisions ≤ length self.old.server.decisions + 1 }
        ensures open { self.new.server.left ≡ false }
    {
        let Some((holder, free)) = self.registry.accept(&mut self.server) else {
            return false;
        };
        let mut holder = holder;
        self.registry.open(&mut self.server, &mut holder, early);
        self.registry.hand_over(Handed::new(holder, free));
        true
    }

    // Whether the next connection stopped the session of this id.
    fn stop(&mut self, id: u64) -> bool
        requires room { length self.old.server.decisions < CONNECTIONS }
        requires open { self.old.server.left ≡ false }
        ensures room { length self.new.server.decisions ≤ length self.old.server.decisions + 1 }
        ensures open { self.new.server.left ≡ false }
    {
        matches!(
            self.registry.stop(&mut self.server, id),
            StopAnswer::Ticket(_)
        )
    }

    // The role of this slot looks at its session, and ends it as it finds.
    fn turn(&mut self, slot: u32) -> Option<Fate>
        requires { slot < SLOTS }
        ensures { self.new.server ≡ self.old.server }
    {
        let (holder, free) = self.registry.take(slot)?.open();
        let mut holder = holder;
        if !matches!(holder.hold().stage, Stage::Serving) {
            self.registry.hand_over(Handed::new(holder, free));
            return None;
        }
        let Some(fate) = self.registry.look(&mut holder) else {
            self.registry.hand_over(Handed::new(holder, free));
            return None;
        };
        let id = holder.hold().id;
        self.registry.end(holder, fate, free, id);
        Some(fate)
    }

    // The first start fails, one session is opened early and one late, the second of these is stopped, and the first goes
    // on until all writers have ended.
    fn play(&mut self) -> ([bool; 3], [bool; 2], [Option<Fate>; 3])
        requires { (self.old.server.decisions ≡ []) × (self.old.server.left ≡ false) }
    {
        let begun = [self.fail_start(), self.begin(true), self.begin(false)];
        let stopped = [self.stop(3), self.stop(9)];
        let second = self.turn(1);
        let first = self.turn(0);
        self.registry.end_writers(2);
        (begun, stopped, [second, first, self.turn(0)])
    }
}

// The ids of the sessions that have ended, with what is left of each.
fn left_of(
    rt: &(impl Abort + AllocGlobal),
    over: Vec<Option<Finished<ByNumber, u32, u32, u64, u32>>>,
) -> Vec<(u64, u64)> {
    let mut left = Vec::new(rt.alloc());
    for place in over {
        if let Some(finished) = place {
            let (hold, end) = finished.open();
            left.push((hold.id, end))
                .expect(rt, "room for what is left");
        }
    }
    left
}

fn leave<B: Named, S: Named, R: Named>(
    rt: &impl Abort,
    registry: &mut Registry<B, S, R, ByNumber, u32, u32, u64, u32>,
    role: Role<R>,
) -> Role<R>
    ensures { result ≡ record role { left = true } }
{
    let mut role = role;
    let left = registry.leave(&mut role);
    assert!(rt; left);
    role
}

fn two<R: Named>(rt: &(impl Abort + AllocGlobal), first: Role<R>, second: Role<R>) -> Vec<Role<R>>
    requires first { first ≡ record { number = 0; roles = 2; left = true } }
    requires second { second ≡ record { number = 1; roles = 2; left = true } }
    ensures { AreLeft result.items }
{
    let mut roles = Vec::with_capacity(rt.alloc(), 2).expect(rt, "room for two roles");
    roles.push_reserved(first);
    roles.push_reserved(second);
    roles
}

fn two_roles<R: Named>(halves: Vec<Right<R, Mark>>) -> (Role<R>, Role<R>)
    requires { halves.items ≡ numbered SLOTS (mark.Role 2 false) }
    ensures first { result.0 ≡ record { number = 0; roles = 2; left = false } }
    ensures second { result.1 ≡ record { number = 1; roles = 2; left = false } }
{
    let mut halves = halves;
    let second = halves.swap_remove(1);
    let first = halves.swap_remove(0);
    (Role::new(0, 2, first), Role::new(1, 2, second))
}

// The numbers of the slots.
fn numbers(alloc: Global) -> Result<Vec<u32>, AllocError>
    ensures { IfOk result (λ free. (length free.items ≡ SLOTS) × AreAt (λ slot f. f ≡ slot) free.items) }
{
    let mut free = Vec::new(alloc);
    for slot in 0..SLOTS as u32 {
        free.push(slot)?;
    }
    Ok(free)
}

// All roles end behind the server. Gives what the registry leaves, and how many sessions were opened early and late.
fn close<B: Named, S: Named, R: Named>(
    rt: &(impl Abort + AllocGlobal),
    run: Run<B, S, R>,
    halves: Vec<Right<R, Mark>>,
) -> (Ended<ByNumber, u32, u32, u64, u32>, u32, u32)
    requires { halves.items ≡ numbered SLOTS (mark.Role 2 false) }
{
    let (first, second) = two_roles(halves);
    let Run {
        mut registry,
        mut server,
    } = run;
    registry.close(&mut server);
    let first = leave(rt, &mut registry, first);
    let second = leave(rt, &mut registry, second);
    let ended = registry.finish(&mut server, two(rt, first, second));
    (ended, server.early(), server.late())
}

fn whole<B: Named, S: Named, R: Named>(rt: &(impl Abort + AllocGlobal), sets: Sets) -> Told
    requires named { (sets.book.ties ≡ B.ties) × (sets.holds.ties ≡ S.ties) × (sets.marks.ties ≡ R.ties) }
    requires room { (sets.book.places ≡ 1) × (sets.holds.places ≡ CONNECTIONS)
        × (sets.marks.places ≡ SLOTS + 1) }
{
    let alloc = rt.alloc();
    let free = numbers(alloc).expect(rt, "the slots");
    let Sets { book, holds, marks } = sets;
    let opening = Registry::<B, S, R, ByNumber, u32, u32, u64, u32>::new(
        alloc, book, holds, marks, 2, free,
    ).expect(rt, "a registry");
    let mut run = Run {
        registry: opening.registry,
        server: opening.server,
    };
    let (begun, stopped, found) = run.play();
    let (ended, early, late) = close(rt, run, opening.roles);
    Told {
        begun,
        stopped,
        found,
        opened: [early, late],
        ended,
    }
}

// What a registry tells at the end of its history.
fn history(rt: &(impl Abort + AllocGlobal)) -> Told {
    let sets = Sets::new(rt);
    whole::<Brand, Brand, Brand>(rt, sets)
}

fn entry(
    conn: u32,
    slot: u32,
    ticket: Option<u32>,
    stage: Stage,
    opened: Opened,
    gone: u32,
) -> Entry {
    Entry {
        conn,
        slot,
        ticket,
        stage,
        opened,
        gone: Some(gone),
    }
}

#[test]
fn each_call_is_told_in_the_end(rt: HostRuntime) {
    let requested = Fate::Requested { conn: 4 };
    let decisions = [
        Decision::Nothing,
        Decision::Accepted { id: 2 },
        Decision::Accepted { id: 3 },
        Decision::Ticket { id: 3 },
        Decision::Refused { id: 9 },
    ];
    let sessions = [
        entry(1, 0, None, Stage::Failed, Opened::No, 1),
        entry(2, 0, None, Stage::Over(Fate::ProgramEnd), Opened::Early, 5),
        entry(3, 1, Some(4), Stage::Over(requested), Opened::Late, 3),
    ];
    let Told {
        begun,
        stopped,
        found,
        opened,
        ended,
    } = history(&rt);
    let left = left_of(&rt, ended.over);
    assert_eq!(rt;
        (
            (begun, stopped, found, opened),
            ended.decisions.as_slice(),
            ended.sessions.as_slice(),
            left.as_slice(),
            ended.gone,
        ),
        (
            (
                [true; 3],
                [true, false],
                [Some(requested), None, Some(Fate::ProgramEnd)],
                [1, 1],
            ),
            &decisions[..],
            &sessions[..],
            [(2, 2), (3, 3)].as_slice(),
            Some(2),
        )
    );
}
