//! What stands against a step, and what a step that can be made finds.
ghost use Rattle.std.specs.Prelude.{◌≡◌, ◌∷◌, ◌<◌, ◌==◌, ℕ, [], map, not, IfOk, OnOk};
ghost use Rattle.std.specs.Int.{bit_at};
ghost use Rattle.ep_model.specs.declared.step.Kind.TheVariants.{NoSession, NoThread, NotOpen};
ghost use Rattle.ep_model.specs.declared.step.Step.TheVariants.{Accept, Enter, Leave, Open, Begin, Show, End, Steal, Give, Point, Close, Finish};
ghost use Rattle.ep_model.specs.History.{is_open, is_present, was_there};
ghost use Rattle.ep_model.specs.Lawful.{against, first_kind};
ghost use Rattle.ep_tables.specs.Can.{CanMake};
ghost use Rattle.ep_tables.specs.Judged.{Finds, HasBoth, Judges, Tells, kind_in};
ghost use Rattle.ep_tables.specs.Tables.{objection_of};

use crate::judged::{Judged, OfSession, OnBoth, OnRow};
use crate::tables::Tables;
use ep_defs::limits::{SCHEDULE_WRITES, SESSION_THREADS, SESSIONS, THREADS};
use ep_defs::{Config, Write};
use ep_model::laws::a_budget_can_be_counted;
use ep_model::{Kind, Step};

impl Tables {
    /// The step with what it needs, or why it can't be made after those that the tables stand for: the first reason in
    /// the order in which a step is judged.
    #[inline(always)]
    pub fn judge(&self, step: Step) -> Result<Judged, Kind>
        ensures judges { Judges self.now step result }
        ensures can { Tells self.now (λ events past. OnOk result (CanMake step self.now)) }
    {
        a_budget_can_be_counted();
        self.judged(step)
    }

    // Nearly all steps of a long schedule begin, show or end a write; the others are judged out of line.
    #[inline(always)]
    fn judged(&self, step: Step) -> Result<Judged, Kind>
        ensures { Judges self.now step result }
    {
        match step {
            Step::Accept { session, config } => self.to_accept(session, config),
            Step::Enter { thread } => self.to_enter(thread),
            Step::Leave { thread } => self.to_leave(thread),
            Step::Open { session, thread } => self.to_open(session, thread),
            Step::Begin {
                thread,
                stamp,
                write,
            } => self.to_begin(thread, stamp, write),
            Step::Show { thread, session } => self.to_show(thread, session),
            Step::End { thread } => self.to_end(thread),
            Step::Steal { session, thread } => self.to_steal(session, thread),
            Step::Give { session } => self.to_give(session),
            Step::Point { session, stamp } => self.to_point(session, stamp),
            Step::Close { session, thread } => self.to_close(session, thread),
            Step::Finish { session, stamp } => self.to_finish(session, stamp),
        }
    }

    #[inline(never)]
    fn to_accept(&self, session: u32, config: Config) -> Result<Judged, Kind>
        ensures { Judges self.now (Accept session config) result }
    {
        let objections = [
            (session <= self.last_session, Kind::SessionNumber),
            (!config.is_valid(), Kind::BadConfig),
            (SESSIONS <= self.present.len(), Kind::Full),
        ];
        unless(&objections, Judged::Accept { session, config })
    }

    #[inline(never)]
    fn to_enter(&self, thread: u32) -> Result<Judged, Kind>
        ensures { Judges self.now (Enter thread) result }
    {
        if thread <= THREADS || thread <= self.last_thread {
            return Err(Kind::NoThread);
        }
        match self.rows.free_row() {
            Some(row) => Ok(Judged::Enter(OnRow { thread, row })),
            None => Err(Kind::ThreadsFull),
        }
    }

    #[inline(never)]
    fn to_leave(&self, thread: u32) -> Result<Judged, Kind>
        ensures { Judges self.now (Leave thread) result }
    {
        let Some(row) = self.row_there(thread) else {
            return Err(Kind::NoThread);
        };
        let objections = [(self.rows.in_write(row), Kind::InWrite)];
        unless(&objections, Judged::Leave(OnRow { thread, row }))
    }

    #[inline(never)]
    fn to_open(&self, session: u32, thread: u32) -> Result<Judged, Kind>
        ensures { Judges self.now (Open session thread) result }
    {
        let Some(place) = self.place_of(session) else {
            return Err(Kind::NoSession);
        };
        let Some(row) = self.row_there(thread) else {
            return Err(Kind::NoThread);
        };
        let opened = &self.present[place].opened;
        let objections = [
            (opened.contains_key(&thread), Kind::AlreadyOpen),
            (SESSION_THREADS <= opened.len(), Kind::ThreadLimit),
            (self.rows.in_write(row), Kind::InWrite),
        ];
        unless(&objections, Judged::Open(both(session, place, thread, row)))
    }

    #[inline(always)]
    fn to_begin(&self, thread: u32, stamp: u64, write: Write) -> Result<Judged, Kind>
        ensures { Judges self.now (Begin thread stamp write) result }
    {
        let Some(row) = self.row_there(thread) else {
            return Err(Kind::NoThread);
        };
        if self.rows.in_write(row) {
            return Err(Kind::InWrite);
        }
        if self.lacks_event(write.event) {
            return Err(Kind::NoEvent);
        }
        if !write.fits() {
            return Err(Kind::TooLarge);
        }
        if SCHEDULE_WRITES <= self.begins {
            return Err(Kind::TooMany);
        }
        let on = OnRow { thread, row };
        Ok(Judged::Begin { on, stamp, write })
    }

    #[inline(always)]
    fn to_show(&self, thread: u32, session: u32) -> Result<Judged, Kind>
        ensures { Judges self.now (Show thread session) result }
    {
        let Some(row) = self.row_there(thread) else {
            return Err(Kind::NoThread);
        };
        let Some(place) = self.place_of(session) else {
            return Err(Kind::NoSession);
        };
        let slot = self.present[place].slot;
        if !self.rows.in_write(row) {
            return Err(Kind::NotInWrite);
        }
        if !has_bit(self.rows.due(row), slot) {
            return Err(Kind::NotDue);
        }
        Ok(Judged::Show(both(session, place, thread, row)))
    }

    #[inline(always)]
    fn to_end(&self, thread: u32) -> Result<Judged, Kind>
        ensures { Judges self.now (End thread) result }
    {
        let Some(row) = self.row_there(thread) else {
            return Err(Kind::NoThread);
        };
        if !self.rows.in_write(row) {
            return Err(Kind::NotInWrite);
        }
        if self.rows.due(row) != 0 {
            return Err(Kind::ShowsDue);
        }
        Ok(Judged::End(OnRow { thread, row }))
    }

    // The session and the row of a thread on which it is open.
    fn open_on(&self, session: u32, thread: u32) -> Result<OnBoth, Kind>
        ensures kind_is { Tells self.now (λ events past. kind_in result
            ≡ first_kind (against (not (is_present session past)) NoSession
            ∷ against (not (was_there thread past)) NoThread
            ∷ against (not (is_open session thread past)) NotOpen ∷ [])) }
        ensures found { IfOk result (λ both. HasBoth self.now both) }
        ensures session { IfOk result (λ both. both.of.session ≡ session) }
        ensures thread { IfOk result (λ both. both.on.thread ≡ thread) }
    {
        let Some(place) = self.place_of(session) else {
            return Err(Kind::NoSession);
        };
        if !self.threads.contains_key(&thread) {
            return Err(Kind::NoThread);
        }
        let Some(row) = self.row_of(thread) else {
            return Err(Kind::NotOpen);
        };
        if !self.rows.is_on(row, self.present[place].slot) {
            return Err(Kind::NotOpen);
        }
        Ok(both(session, place, thread, row))
    }

    #[inline(never)]
    fn to_steal(&self, session: u32, thread: u32) -> Result<Judged, Kind>
        ensures { Judges self.now (Steal session thread) result }
    {
        a_budget_can_be_counted();
        let both = match self.open_on(session, thread) {
            Ok(both) => both,
            Err(kind) => return Err(kind),
        };
        let in_hand = self.present[both.of.place].session.in_hand();
        unless(&[(in_hand, Kind::HandFull)], Judged::Steal(both))
    }

    #[inline(never)]
    fn to_give(&self, session: u32) -> Result<Judged, Kind>
        ensures { Judges self.now (Give session) result }
    {
        match self.place_of(session) {
            Some(place) => Ok(Judged::Give(OfSession { session, place })),
            None => Err(Kind::NoSession),
        }
    }

    #[inline(never)]
    fn to_point(&self, session: u32, stamp: u64) -> Result<Judged, Kind>
        ensures { Judges self.now (Point session stamp) result }
    {
        match self.place_of(session) {
            Some(place) => {
                let of = OfSession { session, place };
                Ok(Judged::Point { of, stamp })
            }
            None => Err(Kind::NoSession),
        }
    }

    #[inline(never)]
    fn to_close(&self, session: u32, thread: u32) -> Result<Judged, Kind>
        ensures { Judges self.now (Close session thread) result }
    {
        a_budget_can_be_counted();
        let both = match self.open_on(session, thread) {
            Ok(both) => both,
            Err(kind) => return Err(kind),
        };
        let in_hand = self.present[both.of.place].session.in_hand();
        let objections = [
            (self.rows.in_write(both.on.row), Kind::InWrite),
            (in_hand, Kind::HandFull),
        ];
        unless(&objections, Judged::Close(both))
    }

    #[inline(never)]
    fn to_finish(&self, session: u32, stamp: u64) -> Result<Judged, Kind>
        ensures { Judges self.now (Finish session stamp) result }
    {
        a_budget_can_be_counted();
        let Some(place) = self.place_of(session) else {
            return Err(Kind::NoSession);
        };
        let present = &self.present[place];
        let objections = [
            (!self.rows.is_on_nowhere(present.slot), Kind::StillOpen),
            (present.session.in_hand(), Kind::HandFull),
        ];
        let of = OfSession { session, place };
        unless(&objections, Judged::Finish { of, stamp })
    }
}

#[inline(always)]
fn both(session: u32, place: usize, thread: u32, row: u32) -> OnBoth
    ensures { result ≡ record {
      of = record { session = session; place = place };
      on = record { thread = thread; row = row };
    } }
{
    OnBoth {
        of: OfSession { session, place },
        on: OnRow { thread, row },
    }
}

// The step, unless one of these is there: then its kind, the first one's.
#[inline(always)]
fn unless(objections: &[(bool, Kind)], judged: Judged) -> Result<Judged, Kind>
    ensures kind_is { kind_in result ≡ first_kind (map objection_of objections.now) }
    ensures same { IfOk result (λ found. found ≡ judged) }
{
    match first(objections) {
        Some(kind) => Err(kind),
        None => Ok(judged),
    }
}

// The first kind of those that are there.
#[inline(always)]
fn first(objections: &[(bool, Kind)]) -> Option<Kind>
    ensures { result ≡ first_kind (map objection_of objections.now) }
{
    for (there, kind) in objections {
        if *there {
            return Some(*kind);
        }
    }
    None
}

// Whether the slot's bit stands in the mask.
#[inline(always)]
fn has_bit(mask: u64, slot: u32) -> bool
    requires { slot < SESSIONS }
    ensures { result ≡ (bit_at mask slot == 1) }
{
    mask >> slot & 1 == 1
}
