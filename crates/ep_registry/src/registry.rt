//! The registry as the server, the writers and the roles use it: a call is made with the caller's half of a tie, and
//! changes it.
ghost use Rattle.std.specs.Prelude.{◌≡◌, ◌+◌, ◌<◌, ◌≤◌, [], ◌∷◌, ◌++◌, ◌-◌, IfOk, IfSome, replicate, slice_get, IsTrue, Some, None, is_some, length, slice_set, true, false, not, ◌&&◌, ◌==◌, count_by};
ghost use Rattle.ep_table.specs.declared.limits.TheConstants.{SLOTS};
ghost use Rattle.ep_table.specs.Sessions.{accepted_by};
ghost use Rattle.ep_journal.specs.declared.limits.TheConstants.{CONNECTIONS};
ghost use Rattle.ep_journal.specs.declared.decision.Decision.TheVariants as decision;
ghost use Rattle.ep_journal.specs.declared.session.Stage.TheVariants as stage;
ghost use Rattle.ep_journal.specs.declared.session.Opened.TheVariants as opened;
ghost use Rattle.ep_registry.specs.declared.server.Mark.TheVariants as mark;
ghost use Rattle.ep_registry.specs.Places.{numbered, AreAt};
ghost use Rattle.ep_journal.specs.Recorded.{nothing_recorded, decided, after_accepting, answer_to, after_stopping, after_failing, after_opening, opened_at, found, after_looking, may_end, after_end, goes_on, is_serving};
ghost use Rattle.ep_journal.specs.Kept.{is_last, is_of, is_on, is_early, is_late};
ghost use Rattle.ep_journal.specs.Items.{with_item};
ghost use Rattle.ep_journal.specs.Told.{AreTold};
ghost use Rattle.ep_registry.specs.Held.{hold_at, begun_as, holder_in, stage_found, accept_decides, stop_decides, AreHeld, AreOver, NoneWaits};
ghost use Rattle.ep_registry.specs.Registered.{counted_if, AreLeft, AreMarked};

use crate::ends::Ends;
use crate::halves::Halves;
use crate::hold::{Hold, Holder};
use crate::kept::Kept;
use crate::kinds::Kinds;
use crate::over::Finished;
use crate::server::{Mark, Role, Server};
use crate::waiting::{Handed, Waiting};
use ep_journal::{Decision, Entry, Fate, Journal, Log, Opened, Stage};
use ep_table::limits::SLOTS;
use ep_table::{Accepted, StopAnswer};
use ep_tie::{Blank, Named, Right};
use std::alloc::{AllocError, Global};
use std::marker::Model;

/// The journal, with the registry's halves of the ties, one for the decisions, one for each session, and one for each role
/// and the server, and with what it keeps for its users.
#[derive(Drop)]
pub struct Registry<B: Named, S: Named, R: Named, P: Kinds<F, W, E, G>, F, W, E, G> {
    journal: Journal,
    halves: Halves<B, S, R>,
    roles: u32,
    closed: bool,
    early: u32,
    late: u32,
    kept: Kept<S, P, F, W, E, G>,
}

impl<B: Named, S: Named, R: Named, P: Kinds<F, W, E, G>, F, W, E, G> Model
    for Registry<B, S, R, P, F, W, E, G> {
    ghost use Rattle.ep_registry.specs.Registered.{Registered, IsRegistered};

    ghost Value = { Registered };

    ghost view = { λ r. record { recorded = r.journal; closed = r.closed; roles = r.roles; waiting = r.kept.waiting } };

    ghost invariant = { λ r. IsRegistered (record {
      recorded = r.journal;
      book = r.halves.book;
      holds = r.halves.holds;
      spare = r.halves.spare.items;
      marks = r.halves.marks;
      roles = r.roles;
      closed = r.closed;
      early = r.early;
      late = r.late;
    }) r.kept.frees r.kept.overs r.kept.gone };
}

/// A registry with the halves of the others.
#[derive(Drop)]
pub struct Opening<B: Named, S: Named, R: Named, P: Kinds<F, W, E, G>, F, W, E, G> {
    pub registry: Registry<B, S, R, P, F, W, E, G>,
    pub server: Server<B, R>,
    /// By the numbers of the roles, from 0.
    pub roles: Vec<Right<R, Mark>>,
}

/// What a registry leaves in the end.
#[derive(Drop)]
pub struct Ended<P: Kinds<F, W, E, G>, F, W, E, G> {
    /// What was decided, by connection from 1.
    pub decisions: Log<Decision>,
    /// What became of the sessions, by id from 1.
    pub sessions: Log<Entry>,
    /// What is left of each session that has ended, by id from 1, with a place for each connection.
    pub over: Vec<Option<Finished<P, F, W, E, G>>>,
    /// What all writers leave, if they have ended.
    pub gone: Option<G>,
}

impl<
    B: Named,
    S: Named,
    R: Named,
    P: Kinds<F, W, E, G>,
    F: Drop,
    W: Drop,
    E: Drop,
    G: Drop,
> Registry<B, S, R, P, F, W, E, G> {
    /// No connection was decided, and these are there of the free slots, by slot. The only call that takes memory: room
    /// for all connections.
    pub fn new(
        alloc: Global,
        book: Blank<Log<Decision>>,
        holds: Blank<Option<Hold>>,
        marks: Blank<Mark>,
        roles: u32,
        free: Vec<F>,
    ) -> Result<Opening<B, S, R, P, F, W, E, G>, AllocError>
        requires named { (book.ties ≡ B.ties) × (holds.ties ≡ S.ties) × (marks.ties ≡ R.ties) }
        requires room { (0 < book.places) × (CONNECTIONS ≤ holds.places) × (SLOTS < marks.places) }
        requires roles { (0 < roles) × (roles ≤ SLOTS) }
        requires free { (length free.items ≡ SLOTS) × AreAt P.free free.items }
        ensures registry { IfOk result (λ made. made.registry ≡ record {
          recorded = nothing_recorded;
          closed = false;
          roles = roles;
          waiting = replicate SLOTS None;
        }) }
        ensures server { IfOk result (λ made. made.server
            ≡ record { decisions = []; early = 0; late = 0; left = false }) }
        ensures roles { IfOk result (λ made. made.roles.items ≡ numbered SLOTS (mark.Role roles false)) }
    {
        let journal = Journal::new(alloc)?;
        let kept = Kept::new(alloc, free)?;
        let (halves, server, others) = Halves::new(
            alloc,
            book,
            holds,
            marks,
            roles,
            journal.decisions(),
        )?;
        let registry = Registry {
            journal,
            halves,
            roles,
            closed: false,
            early: 0,
            late: 0,
            kept,
        };
        Ok(Opening {
            registry,
            server,
            roles: others,
        })
    }

    /// The next connection neither began nor stopped a session.
    pub fn pass(&mut self, server: &mut Server<B, R>)
        requires room { length server.old.decisions < CONNECTIONS }
        ensures after { self.new ≡ record self.old { recorded = decided self.old.recorded decision.Nothing } }
        ensures agreed { server.old.decisions ≡ self.old.recorded.decisions }
        ensures half { server.new ≡ record server.old { decisions = server.old.decisions ++ decision.Nothing ∷ [] } }
    {
        server.meet(&mut self.halves.book);
        self.journal.pass();
        server.tell(&mut self.halves.book, self.journal.decisions());
    }

    /// The next connection asked for a session. The server has it, with what is there of its slot, unless all slots are
    /// held.
    pub fn accept(&mut self, server: &mut Server<B, R>) -> Option<(Holder<S>, F)>
        requires open { server.old.left ≡ false }
        requires room { length server.old.decisions < CONNECTIONS }
        ensures answer { holder_in result ≡ begun_as self.old.recorded (accepted_by self.old.recorded.table) }
        ensures free { IfSome result (λ begun. P.free begun.0.slot begun.1) }
        ensures after { self.new ≡ record self.old { recorded = after_accepting self.old.recorded } }
        ensures agreed { server.old.decisions ≡ self.old.recorded.decisions }
        ensures half { server.new ≡ record server.old {
          decisions = server.old.decisions ++ accept_decides (holder_in result) ∷ [];
        } }
        ensures begins { IfSome result (λ begun. (begun.0.stage ≡ stage.Serving)
            × (begun.0.opened ≡ opened.No) × (begun.0.conn ≡ length server.old.decisions + 1)) }
    {
        server.meet(&mut self.halves.book);
        server.meet_mark(&mut self.halves.marks);
        let conn = self.journal.decided() + 1;
        let answer = self.journal.accept();
        server.tell(&mut self.halves.book, self.journal.decisions());
        match answer {
            Accepted::Seat { slot, id } => {
                let hold = begun(id, conn, slot);
                let free = self.kept.frees.take(slot);
                let holder = hand_out(&mut self.halves.holds, &mut self.halves.spare, hold);
                Some((holder, free))
            }
            Accepted::Full => None,
        }
    }

    /// The next connection asked for the end of the session of this id.
    pub fn stop(&mut self, server: &mut Server<B, R>, id: u64) -> StopAnswer
        requires room { length server.old.decisions < CONNECTIONS }
        ensures answer { result ≡ answer_to self.old.recorded id }
        ensures after { self.new ≡ record self.old { recorded = after_stopping self.old.recorded id } }
        ensures agreed { server.old.decisions ≡ self.old.recorded.decisions }
        ensures half { server.new ≡ record server.old { decisions = server.old.decisions ++ stop_decides result ∷ [] } }
    {
        server.meet(&mut self.halves.book);
        let answer = self.journal.stop(id);
        server.tell(&mut self.halves.book, self.journal.decisions());
        answer
    }

    /// The start of the session that was accepted last has failed, and nobody has it from then on. Its slot is free, with
    /// this, and its connection began no session.
    pub fn fail(&mut self, server: &mut Server<B, R>, holder: Holder<S>, free: F)
        requires last { IsTrue (is_last server.old.decisions holder.id) }
        requires serves { IsTrue (is_serving holder.stage) }
        requires unopened { holder.opened ≡ opened.No }
        requires free { P.free holder.slot free }
        ensures after { self.new ≡ record self.old { recorded = after_failing self.old.recorded holder.id } }
        ensures agreed { server.old.decisions ≡ self.old.recorded.decisions }
        ensures known { hold_at self.old.recorded.sessions holder.id ≡ Some holder }
        ensures half { server.new
            ≡ record server.old { decisions = with_item server.old.decisions (length server.old.decisions) decision.Nothing } }
    {
        let mut holder = holder;
        server.meet(&mut self.halves.book);
        holder.meet(&mut self.halves.holds);
        let hold = holder.hold();
        self.journal.fail(hold.id);
        server.tell(&mut self.halves.book, self.journal.decisions());
        let stage = Stage::Failed;
        holder.close(&mut self.halves.holds, Hold { stage, ..hold });
        self.kept.frees.put(hold.slot, free);
    }

    /// The server has opened the session on all rows, before any write or later.
    pub fn open(&mut self, server: &mut Server<B, R>, holder: &mut Holder<S>, early: bool)
        requires serves { IsTrue (is_serving holder.old.stage) }
        requires unopened { holder.old.opened ≡ opened.No }
        ensures after { self.new ≡ record self.old { recorded = after_opening self.old.recorded holder.old.id early } }
        ensures known { hold_at self.old.recorded.sessions holder.old.id ≡ Some holder.old }
        ensures opened { holder.new ≡ record holder.old { opened = opened_at early } }
        ensures counted { server.new ≡ record server.old {
          early = server.old.early + counted_if early;
          late = server.old.late + counted_if (not early);
        } }
    {
        server.meet_mark(&mut self.halves.marks);
        holder.meet(&mut self.halves.holds);
        let hold = holder.hold();
        self.journal.open(hold.id, early);
        let opened = opened_at(early);
        holder.put(&mut self.halves.holds, Hold { opened, ..hold });
        self.early += counted_if(early);
        self.late += counted_if(!early);
        server.put_mark(&mut self.halves.marks, self.early, self.late, self.closed);
    }

    /// Whether the session is to end, and as what. Once the program's end is found, no stop of it is granted.
    pub fn look(&mut self, holder: &mut Holder<S>) -> Option<Fate>
        requires serves { IsTrue (is_serving holder.old.stage) }
        ensures answer { result ≡ found self.old.recorded holder.old.id }
        ensures after { self.new ≡ record self.old { recorded = after_looking self.old.recorded holder.old.id } }
        ensures known { hold_at self.old.recorded.sessions holder.old.id ≡ Some holder.old }
        ensures found { holder.new ≡ record holder.old { stage = stage_found holder.old.stage result } }
    {
        holder.meet(&mut self.halves.holds);
        let hold = holder.hold();
        let found = self.journal.look(hold.id);
        let stage = stage_found(hold.stage, found);
        holder.put(&mut self.halves.holds, Hold { stage, ..hold });
        found
    }

    /// The session has ended so, and nobody has it from then on. Its slot is free, with this, and the end is what is left
    /// of it.
    pub fn end(&mut self, holder: Holder<S>, fate: Fate, free: F, end: E)
        requires may { IsTrue (may_end fate holder.stage) }
        requires free { P.free holder.slot free }
        requires over { P.over (record holder { stage = stage.Over fate }) end }
        ensures after { self.new ≡ record self.old { recorded = after_end self.old.recorded holder.id fate } }
        ensures known { hold_at self.old.recorded.sessions holder.id ≡ Some holder }
    {
        let mut holder = holder;
        holder.meet(&mut self.halves.holds);
        let hold = holder.hold();
        self.journal.end(hold.id, fate);
        let stage = Stage::Over(fate);
        let over = Hold { stage, ..hold };
        holder.close(&mut self.halves.holds, over);
        self.kept.frees.put(hold.slot, free);
        let finished = Finished::new(over, end);
        self.kept.overs.put(finished);
    }

    /// The session goes to its role, with what fits it. None waits in its slot: it would be the same session, and there is
    /// one half of its tie.
    pub fn hand_over(&mut self, handed: Handed<S, P, F, W, E, G>)
        ensures alone { slice_get self.old.waiting handed.slot ≡ Some None }
        ensures after { self.new ≡ record self.old { waiting = slice_set self.old.waiting handed.slot (Some handed) } }
    {
        let slot = handed.hold().slot;
        match self.kept.waiting.take(slot) {
            Some(other) => {
                let (mut other, _) = other.open();
                let (mut holder, _) = handed.open();
                other.meet(&mut self.halves.holds);
                holder.meet(&mut self.halves.holds);
                let _count = self.journal.decided();
                meet_both(&mut self.halves.holds, &mut other, &mut holder);
                unreachable!()
            }
            None => self.kept.waiting.put(handed),
        }
    }

    /// The session that waits in this slot, if there is one.
    pub fn take(&mut self, slot: u32) -> Option<Handed<S, P, F, W, E, G>>
        requires { slot < SLOTS }
        ensures value { slice_get self.old.waiting slot ≡ Some result }
        ensures slot { IfSome result (λ handed. handed.slot ≡ slot) }
        ensures after { self.new ≡ record self.old { waiting = slice_set self.old.waiting slot None } }
    {
        self.kept.waiting.take(slot)
    }

    /// All writers have ended, and leave this.
    pub fn end_writers(&mut self, gone: G)
        requires { P.gone gone }
        ensures { self.new ≡ record self.old { recorded = record self.old.recorded { ended = true } } }
    {
        self.kept.gone.put(gone);
        self.journal.end_writers();
    }

    /// The server has ended: it takes no more connections.
    pub fn close(&mut self, server: &mut Server<B, R>)
        ensures after { self.new ≡ record self.old { closed = true } }
        ensures left { server.new ≡ record server.old { left = true } }
    {
        server.meet_mark(&mut self.halves.marks);
        self.closed = true;
        server.put_mark(&mut self.halves.marks, self.early, self.late, true);
    }

    /// Lets the role end, where the server has ended and none of the role's sessions goes on.
    pub fn leave(&mut self, role: &mut Role<R>) -> bool
        ensures answer { result
            ≡ self.old.closed && (count_by (is_of role.old.roles role.old.number) self.old.recorded.sessions == 0) }
        ensures same { self.new ≡ self.old }
        ensures left { (result ≡ true → role.new ≡ record role.old { left = true })
            × (result ≡ false → role.new ≡ role.old) }
    {
        role.meet(&mut self.halves.marks);
        if !self.closed {
            return false;
        }
        if self.journal.serving(role.roles(), role.number()) != 0 {
            return false;
        }
        role.leave(&mut self.halves.marks);
        true
    }

    /// What the registry leaves once all roles have ended: no slot is held then, and no session waits.
    pub fn finish(self, server: &mut Server<B, R>, roles: Vec<Role<R>>) -> Ended<P, F, W, E, G>
        requires roles { AreLeft roles.items }
        ensures told { AreTold result.decisions result.sessions self.recorded.ended }
        ensures same { (result.decisions ≡ self.recorded.decisions)
            × (result.sessions ≡ self.recorded.sessions) }
        ensures agreed { server.old.decisions ≡ result.decisions }
        ensures early { server.old.early ≡ count_by is_early result.sessions }
        ensures late { server.old.late ≡ count_by is_late result.sessions }
        ensures over { AreOver result.over.items result.sessions }
        ensures gone { IfSome result.gone P.gone }
        ensures ended { self.recorded.ended ≡ is_some result.gone }
        ensures none_waits { NoneWaits self.waiting }
    {
        let Registry {
            journal,
            mut halves,
            kept,
            ..
        } = self;
        server.meet(&mut halves.book);
        server.meet_mark(&mut halves.marks);
        meet_roles(&mut halves.marks, roles);
        meet_waiting(&mut halves.holds, &journal, kept.waiting);
        let (decisions, sessions) = journal.finish();
        Ended {
            decisions,
            sessions,
            over: kept.overs.into_places(),
            gone: kept.gone.open(),
        }
    }
}

fn begun(id: u64, conn: u32, slot: u32) -> Hold
    ensures { result
        ≡ record { id = id; conn = conn; slot = slot; stage = stage.Serving; opened = opened.No } }
{
    Hold {
        id,
        conn,
        slot,
        stage: Stage::Serving,
        opened: Opened::No,
    }
}

// Gives the next half to who has the session.
fn hand_out<S: Named>(
    holds: &mut Ends<S, Option<Hold>>,
    spare: &mut Vec<Right<S, Option<Hold>>>,
    hold: Hold,
) -> Holder<S>
    requires known { (0 < hold.id) × (hold.id ≤ CONNECTIONS) }
    requires slot { hold.slot < SLOTS }
    requires on { IsTrue (goes_on hold.stage) }
    requires all { length holds.old ≡ CONNECTIONS }
    requires spare { spare.old.items ≡ numbered (CONNECTIONS - hold.id + 1) None }
    ensures holds { holds.new ≡ slice_set holds.old (CONNECTIONS - hold.id) (Some (Some hold)) }
    ensures spare { spare.new.items ≡ numbered (CONNECTIONS - hold.id) None }
    ensures value { result ≡ hold }
{
    let Some(half) = spare.pop() else {
        unreachable!()
    };
    Holder::new(holds, half, hold)
}

fn stage_found(stage: Stage, found: Option<Fate>) -> Stage
    ensures { result ≡ stage_found stage found }
{
    match found {
        Some(fate) => Stage::Ending(fate),
        None => stage,
    }
}

fn opened_at(early: bool) -> Opened
    ensures { result ≡ opened_at early }
{
    if early { Opened::Early } else { Opened::Late }
}

fn counted_if(is_one: bool) -> u32
    ensures { result ≡ counted_if is_one }
{
    if is_one { 1 } else { 0 }
}

fn meet_roles<R: Named>(marks: &mut Ends<R, Mark>, roles: Vec<Role<R>>)
    requires all { SLOTS < length marks.old }
    ensures same { marks.new ≡ marks.old }
    ensures met { AreMarked marks.old roles.items }
{
    for role in roles {
        let mut role = role;
        role.meet(marks);
    }
}

// There is one half of the tie of a session, so nobody else has it: were there two, one could be given another value
// without the other.
fn meet_both<S: Named>(
    holds: &mut Ends<S, Option<Hold>>,
    one: &mut Holder<S>,
    other: &mut Holder<S>,
)
    requires all { length holds.old ≡ CONNECTIONS }
    requires same { one.old.id ≡ other.old.id }
    ensures { ⊥ }
{
    one.meet(holds);
    other.meet(holds);
    let hold = other.hold();
    let conn = if hold.conn == 0 { 1 } else { 0 };
    other.put(holds, Hold { conn, ..hold });
    one.meet(holds);
    unreachable!()
}

// Once no session goes on, none waits: whoever has a session has one that goes on.
fn meet_waiting<S: Named, P: Kinds<F, W, E, G>, F, W: Drop, E, G>(
    holds: &mut Ends<S, Option<Hold>>,
    journal: &Journal,
    waiting: Waiting<S, P, F, W, E, G>,
)
    requires all { length holds.old ≡ CONNECTIONS }
    requires held { AreHeld holds.old journal.now.sessions }
    requires none { count_by is_on journal.now.sessions ≡ 0 }
    ensures { NoneWaits waiting }
{
    let _ = journal;
    for place in waiting.into_places() {
        match place {
            Some(handed) => {
                let (mut holder, _) = handed.open();
                holder.meet(holds);
                unreachable!()
            }
            None => {}
        }
    }
}
