//! A session that is open on both rows, as its stream has them.
ghost use Rattle.std.specs.Prelude.{◌≡◌, ℕ, None, Some, IfOk, length, vec_len};
ghost use Rattle.ep_stream.specs.Rows.{IsRow, IsSetAt};
ghost use Rattle.ep_live.specs.Made.{AreStands};
ghost use Rattle.ep_live.specs.RowSet.{expected_in, out_in};
ghost use Rattle.ep_live_tests.specs.Begun.{IsGranted};
ghost use Rattle.ep_live_tests.specs.Rows.{AreClosed, AreOpen};

use super::begun::Granted;
use ep_defs::{Config, Marks};
use ep_guarded::{Agreed, Program};
use ep_live::{Ended, Free, Live, LiveRows, Stands, same_tests_have_the_same_stands};
use ep_slot::Hand;
use ep_stream::RowSet;
use ep_tie::Right;
use std::alloc::{AllocError, Global};
use std::marker::Model;
use std::sync::Wait;

/// A session that is open in slot 3 of both rows. Contracts see how many writes each thread has begun, while the session has
/// their halves.
#[derive(Drop)]
pub(super) struct Opened<'r, 'a, P: Program, R: Wait> {
    rows: LiveRows<'r, 'a, P, R>,
    first: Hand,
    second: Hand,
}

impl<'r, 'a, P: Program, R: Wait> Model for Opened<'r, 'a, P, R> {
    ghost use Rattle.std.specs.Prelude.{ℕ, Option};
    ghost use Rattle.ep_live_tests.specs.Rows.{AreOpen};

    ghost Value = { Option ℕ };

    ghost view = { λ o. o.rows.stands };

    ghost invariant = { λ o. AreOpen o.first o.second o.rows };
}

// The rows of a session that is open nowhere.
fn closed<'r, 'a, P: Program, R: Wait>(
    rt: &'r R,
    alloc: Global,
    live: &'r Live<'a, P>,
    free: Free<'a, P>,
    granted: Granted<'a>,
    stands: Stands<'a, P>,
) -> Result<LiveRows<'r, 'a, P, R>, AllocError>
    requires two { P.rows ≡ 2 }
    requires slot { free ≡ 3 }
    requires granted { IsGranted P.events granted.grant.now granted.seat }
    ensures closed { IfOk result AreClosed }
    ensures granted { IfOk result (λ rows. (rows.slot ≡ 3) × (rows.grant ≡ granted.entry.grant.now)) }
    ensures stands { IfOk result (λ rows. rows.stands ≡ stands.entry) }
{
    let lives = vec![in alloc; 0u32; 2]?;
    let Granted { grant, seat } = granted;
    Ok(LiveRows::new(rt, live, free, grant, seat, stands, lives))
}

// The session opens itself on both rows.
fn open_both<P: Program, R: Wait>(
    alloc: Global,
    rows: &mut LiveRows<'_, '_, P, R>,
    config: &Config,
) -> Result<(Hand, Hand), AllocError>
    requires closed { AreClosed rows.old }
    requires granted { (rows.old.slot ≡ 3) × (config.now ≡ rows.old.grant.config) }
    ensures open { IfOk result (λ hands. AreOpen hands.0 hands.1 rows.new) }
    ensures stands { rows.new.stands ≡ rows.old.stands }
{
    same_tests_have_the_same_stands();
    let first = rows.attach(alloc, 1, 3, 5, config)?;
    let second = rows.attach(alloc, 2, 3, 5, config)?;
    Ok((first, second))
}

// It takes what is pending on a row, and gives the chunks back.
fn take_once<P: Program, R: Wait>(rows: &mut LiveRows<'_, '_, P, R>, row: u32, hand: &mut Hand)
    requires row { IsRow (length rows.old.halves) row }
    requires hand { expected_in rows.old row 3 ≡ Some hand.old }
    ensures hand { IsSetAt row 3 (Some hand.new) (expected_in rows.old) (expected_in rows.new) }
    ensures out { (s : ℕ) → out_in rows.new s ≡ out_in rows.old s }
    ensures count { length rows.new.halves ≡ length rows.old.halves }
{
    let batch = rows.steal(row, 3, hand);
    rows.give(3, batch);
}

// It closes itself on a row, and gives the chunks back.
fn close_once<P: Program, R: Wait>(rows: &mut LiveRows<'_, '_, P, R>, row: u32, hand: Hand) -> Marks
    requires row { IsRow (length rows.old.halves) row }
    requires hand { expected_in rows.old row 3 ≡ Some hand }
    ensures hand { IsSetAt row 3 None (expected_in rows.old) (expected_in rows.new) }
    ensures out { (s : ℕ) → out_in rows.new s ≡ out_in rows.old s }
    ensures count { length rows.new.halves ≡ length rows.old.halves }
{
    let (batch, marks) = rows.detach(row, 3, hand);
    rows.give(3, batch);
    marks
}

impl<'r, 'a, P: Program, R: Wait> Opened<'r, 'a, P, R> {
    /// Opens the session in a slot that is free.
    pub(super) fn new(
        rt: &'r R,
        alloc: Global,
        live: &'r Live<'a, P>,
        free: Free<'a, P>,
        granted: Granted<'a>,
        stands: Stands<'a, P>,
    ) -> Result<Opened<'r, 'a, P, R>, AllocError>
        requires two { P.rows ≡ 2 }
        requires slot { free ≡ 3 }
        requires granted { IsGranted P.events granted.grant.now granted.seat }
        ensures stands { IfOk result (λ opened. opened ≡ stands.entry) }
    {
        let grant = granted.grant;
        let mut rows = closed(rt, alloc, live, free, granted, stands)?;
        let (first, second) = open_both(alloc, &mut rows, &grant.config)?;
        Ok(Opened {
            rows,
            first,
            second,
        })
    }

    /// Lends the threads' halves to those that write.
    pub(super) fn lend(&mut self) -> Vec<Right<P, Agreed<'a>>>
        requires here { self.old ≡ Some 0 }
        ensures count { vec_len result ≡ P.rows }
        ensures halves { AreStands 0 result.items }
    {
        self.rows.lend()
    }

    /// Takes the threads' halves back, where each has begun so many writes.
    pub(super) fn take_back(&mut self, halves: Vec<Right<P, Agreed<'a>>>, index: u32)
        requires count { vec_len halves ≡ P.rows }
        requires halves { AreStands index halves.items }
    {
        self.rows.take_back(halves, index);
    }

    /// Takes from both rows, again and again.
    pub(super) fn take_often(self, turns: u32) -> Opened<'r, 'a, P, R> {
        let mut opened = self;
        for _ in 0..turns {
            opened.take();
        }
        opened
    }

    fn take(&mut self) {
        take_once(&mut self.rows, 1, &mut self.first);
        take_once(&mut self.rows, 2, &mut self.second);
    }

    /// Closes the session on both rows.
    pub(super) fn close(self) -> (Ended<'a, P>, Marks, Marks) {
        let Opened {
            mut rows,
            first,
            second,
        } = self;
        let one = close_once(&mut rows, 1, first);
        let other = close_once(&mut rows, 2, second);
        (rows.end(), one, other)
    }
}
