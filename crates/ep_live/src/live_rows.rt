//! The rows of one session's stream, behind locks.
ghost use Rattle.std.specs.Prelude.{◌≡◌, ℕ, ◌+◌, ◌-◌, ◌<◌, ◌≤◌, None, Some, IsSome, slice_set, vec_len};
ghost use Rattle.std.specs.Option.{ForSome};
ghost use Rattle.ep_pool.specs.Shared.{IsSeatOf};
ghost use Rattle.ep_guarded.specs.Granted.{IsGrantFor};
ghost use Rattle.ep_live.specs.Made.{AreStands};
ghost use Rattle.ep_stream.specs.Rows.{TestsHandsAs};
ghost use Rattle.ep_live.specs.RowSet.{LiveRowsState, AreFresh, expected_in, life_at, out_in, tests_hand_in};

use crate::ended::Ended;
use crate::free::Free;
use crate::live::Live;
use crate::parked::Parked;
use crate::stands::Stands;
use crate::to_close::ToClose;
use ep_defs::limits::SESSION_THREADS;
use ep_defs::{Config, Marks};
use ep_guarded::{Agreed, Grant, NotOpened, Program, Site, ToOpen};
use ep_pool::PoolSeat;
use ep_slot::{Batch, Hand};
use ep_stream::RowSet;
use ep_tie::Right;
use std::alloc::{AllocError, Global};
use std::marker::Model;
use std::sync::Wait;

/// The rows of a program's running threads, as one session's stream has them: with its slot, what it was granted, the halves
/// of its hands, a seat of its pool, and the life in which it expects each row. While nobody writes it may have the
/// threads' halves too: then it knows how many writes of each thread lie before an opening and before a closing.
#[derive(Drop)]
pub struct LiveRows<'r, 'a, P: Program, R: Wait> {
    pub(crate) rt: &'r R,
    pub(crate) live: &'r Live<'a, P>,
    pub(crate) slot: u32,
    pub(crate) grant: &'a Grant,
    // By row, the first being row 1.
    pub(crate) halves: Vec<Right<P, Agreed<'a>>>,
    pub(crate) seat: PoolSeat,
    // How often it was opened on a row.
    pub(crate) openings: u32,
    pub(crate) stands: Stands<'a, P>,
    // By row.
    pub(crate) lives: Vec<u32>,
    // How many writes the threads are to have begun where the session is closed, if that is asked.
    pub(crate) ends: Option<u32>,
    // Whether the last opening found the row away.
    pub(crate) missed: bool,
}

impl<'r, 'a, P: Program, R: Wait> Model for LiveRows<'r, 'a, P, R> {
    ghost use Rattle.ep_live.specs.RowSet.{LiveRowsState, AreRowsOfOne};

    ghost Value = { LiveRowsState };

    ghost view = { λ s. record { slot = s.slot; grant = s.grant.now; halves = s.halves.items; seat = s.seat; stands = s.stands; lives = s.lives.items; ends = s.ends } };

    ghost invariant = { λ s. AreRowsOfOne P.rows P.events s.slot s.grant.now s.halves.items s.seat s.openings s.lives.items };
}

impl<'r, 'a, P: Program, R: Wait> LiveRows<'r, 'a, P, R> {
    /// The rows for a session in this slot, which is open nowhere yet, with what it was granted, a seat of its pool that has
    /// all shares, one more than there are rows, the halves of the threads, or none, and the life in which it expects each
    /// row.
    pub fn new(
        rt: &'r R,
        live: &'r Live<'a, P>,
        free: Free<'a, P>,
        grant: &'a Grant,
        seat: PoolSeat,
        stands: Stands<'a, P>,
        lives: Vec<u32>,
    ) -> LiveRows<'r, 'a, P, R>
        requires seat { seat ≡ record { pool = grant.now.pool.pool; total = grant.now.pool.total; seats = P.rows + 1; share = P.rows + 1; taken = 0; given = 0; dry = 0 } }
        requires admitted { IsGrantFor P.events grant.now }
        requires lives { vec_len lives ≡ P.rows }
        ensures { AreFresh P.rows free.entry grant.now seat stands.entry lives.items result }
    {
        let Free { slot, halves } = free;
        LiveRows {
            rt,
            live,
            slot,
            grant,
            halves,
            seat,
            openings: 0,
            stands,
            lives,
            ends: None,
            missed: false,
        }
    }

    /// What waits of the rows while nobody takes from them.
    pub fn park(self) -> Parked<'a, P>
        ensures { result ≡ self.entry }
    {
        let LiveRows {
            slot,
            grant,
            halves,
            seat,
            openings,
            stands,
            lives,
            ends,
            rt: _,
            live: _,
            missed: _,
        } = self;
        Parked {
            slot,
            grant,
            halves,
            seat,
            openings,
            stands,
            lives,
            ends,
        }
    }

    /// Expects a row, the first being row 1, in this life.
    pub fn expect(&mut self, row: u32, life: u32)
        requires { (0 < row) × (row ≤ P.rows) }
        ensures set { self.new ≡ record self.old { lives = slice_set self.old.lives (row - 1) life } }
        ensures expected { life_at self.new row ≡ life }
    {
        self.lives[row as usize - 1] = life;
    }

    /// Where it is asked, a closing waits until the row's thread has begun so many writes, unless the threads' halves are here.
    pub fn close_at(&mut self, ends: Option<u32>)
        ensures { self.new ≡ record self.old { ends = ends } }
    {
        self.ends = ends;
    }

    /// Whether the last opening that was refused found the row in another life, or left by its thread. It is a hint.
    pub fn missed(&self) -> bool {
        self.missed
    }

    /// Lends the threads' halves to those that write, by row. It takes no memory.
    pub fn lend(&mut self) -> Vec<Right<P, Agreed<'a>>>
        requires here { IsSome self.old.stands }
        ensures count { vec_len result ≡ P.rows }
        ensures halves { ForSome self.old.stands (λ index. AreStands index result.items) }
        ensures lent { self.new ≡ record self.old { stands = None } }
    {
        self.stands.lend()
    }

    /// Takes the threads' halves, by row, where each thread has begun so many writes.
    pub fn take_back(&mut self, stands: Vec<Right<P, Agreed<'a>>>, index: u32)
        requires count { vec_len stands ≡ P.rows }
        requires halves { AreStands index stands.items }
        ensures { self.new ≡ record self.old { stands = Some index } }
    {
        self.stands.take_back(stands, index);
    }

    /// Ends the rows of a session that is closed everywhere and has given each chunk back.
    pub fn end(self) -> Ended<'a, P>
        requires closed { (row slot : ℕ) → expected_in self row slot ≡ None }
        requires given { (slot : ℕ) → out_in self slot ≡ 0 }
        ensures ended { (result.slot ≡ self.entry.slot) × (result.grant ≡ self.entry.grant) × (result.seat ≡ self.entry.seat) }
        ensures seat { IsSeatOf result.grant.pool result.seat }
        ensures share { (result.seat.share ≡ P.rows + 1) × (result.seat.seats ≡ P.rows + 1) }
        ensures taken { result.seat.taken ≡ result.seat.given }
    {
        let LiveRows {
            slot,
            grant,
            halves,
            seat,
            ..
        } = self;
        let free = Free { slot, halves };
        Ended { free, grant, seat }
    }
}

impl<P: Program, R: Wait> RowSet for LiveRows<'_, '_, P, R> {
    ghost use Rattle.std.specs.Prelude.{◌≡◌, ◌-◌, None, Some, length, slice_get};
    ghost use Rattle.ep_model.specs.History.{admitted_from};
    ghost use Rattle.ep_live.specs.RowSet.{configured_in, expected_in, out_in, tests_hand_in, tests_marks_in};

    ghost count = { λ set. length set.halves };

    ghost rows = { λ _. None };

    ghost definitions = { λ _. P.events };

    ghost can_attach = { λ set slot config. (slot ≡ set.slot) × (config ≡ set.grant.config) };

    ghost configured = { configured_in };

    ghost expected = { expected_in };

    ghost out = { out_in };

    ghost tests_record = { λ _ config thread from number write. slice_get (admitted_from P.events (Some config) from (P.writes thread)) (number - 1) ≡ Some write };

    ghost tests_hand = { tests_hand_in P.rows };

    ghost tests_marks = { tests_marks_in P.events P.writes };

    ghost refused = { λ set. Some set.seat.dry };

    fn threads(&self) -> u32 {
        self.live.threads()
    }

    /// It has the memory of its own session alone, and opens none where that was opened on as many threads as one can be.
    /// It opens none on a row that has left or that serves another life than the one in which it is expected, which `missed`
    /// tells.
    fn attach(
        &mut self,
        alloc: Global,
        row: u32,
        slot: u32,
        session: u64,
        _config: &Config,
    ) -> Result<Hand, AllocError> {
        if self.openings as usize == SESSION_THREADS {
            return Err(AllocError);
        }
        let number = row as usize - 1;
        let asked = ToOpen {
            site: Site {
                number,
                slot,
                life: self.lives[number],
            },
            session,
            grant: self.grant,
        };
        match self.live.open(
            self.rt,
            alloc,
            &asked,
            &mut self.halves[number],
            &mut self.stands,
            &mut self.seat,
        ) {
            Ok(hand) => {
                self.openings += 1;
                Ok(hand)
            }
            Err(why) => {
                self.missed = why == NotOpened::Away;
                Err(AllocError)
            }
        }
    }

    fn steal(&mut self, row: u32, slot: u32, hand: &mut Hand) -> Batch {
        let number = row as usize - 1;
        self.live
            .steal(self.rt, number, slot, &mut self.halves[number], hand)
    }

    fn detach(&mut self, row: u32, slot: u32, hand: Hand) -> (Batch, Marks) {
        let number = row as usize - 1;
        let asked = ToClose {
            site: Site {
                number,
                slot,
                life: self.lives[number],
            },
            ends: self.ends,
        };
        self.live.close_by(
            self.rt,
            asked,
            &mut self.halves[number],
            &mut self.stands,
            hand,
            &mut self.seat,
        )
    }

    fn give(&mut self, _slot: u32, batch: Batch) {
        self.grant.pool.give(self.rt, &mut self.seat, batch.chain);
    }

    ghost use Rattle.ep_live.specs.Outside.{none_outside};

    ghost none_outside = { none_outside };
}

/// Row sets whose tests on hands say the same know alike how many writes each thread has begun. So what a stream does with
/// its rows lends no half and takes none back.
pub fn same_tests_have_the_same_stands()
    ensures { (rows : ℕ) (old new : LiveRowsState) → TestsHandsAs (tests_hand_in rows old) (tests_hand_in rows new) → new.stands ≡ old.stands }
{}

/// They expect each row in the same life, where there are rows.
pub fn same_tests_have_the_same_lives()
    ensures { (rows : ℕ) (old new : LiveRowsState) → 0 < rows → TestsHandsAs (tests_hand_in rows old) (tests_hand_in rows new)
        → (row : ℕ) → life_at new row ≡ life_at old row }
{}
