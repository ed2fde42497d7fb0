//! A run of two rows, and a thread on one of them.
ghost use Rattle.std.specs.Prelude.{◌<◌, IfOk};
ghost use Rattle.ep_live.specs.Made.{IsStand};

use ep_defs::Write;
use ep_guarded::{Agreed, Program, Stand};
use ep_live::{Live, NextWrite, Written};
use ep_tie::Right;
use pt_io::{Moment, OpenGate};
use std::alloc::{AllocError, Global};
use std::marker::Model;
use std::sync::Wait;
use std::sync::atomic::{AtomicU64, Ordering};

/// What became of a write that was not made.
const NOTHING: Written = Written {
    number: 0,
    shown: 0,
    refused: 0,
};

/// The rows, and what each thread writes, so often.
#[derive(Drop)]
pub(super) struct Run<'a, P: Program> {
    pub(super) live: Live<'a, P>,
    pub(super) write: Write,
    pub(super) turns: u32,
}

impl<'a, P: Program> Model for Run<'a, P> {
    ghost use Rattle.std.specs.Prelude.{ℕ};
    ghost use Rattle.ep_live_tests.specs.Runs.{IsRun};

    ghost Value = { ℕ };

    ghost view = { λ r. r.turns };

    ghost invariant = { λ r. IsRun P.rows P.events P.writes r.turns r.write };
}

/// What became of all writes of a thread.
#[derive(Clone, Copy)]
pub(super) struct Tally {
    /// How many had the number that was their turn's, the first being 1.
    pub(super) in_turn: u64,
    /// A bit for each slot in which all were shown.
    pub(super) always: u64,
    /// A bit for each slot in which one was shown.
    pub(super) ever: u64,
    /// A bit for each slot in which one was refused.
    pub(super) refused: u64,
    /// How many were shown in slots 3 and 5, and in no other.
    pub(super) both: u64,
}

impl Tally {
    fn new() -> Tally {
        Tally {
            in_turn: 0,
            always: u64::MAX,
            ever: 0,
            refused: 0,
            both: 0,
        }
    }

    // With one write more.
    fn with(self, turn: u32, written: Written) -> Tally {
        let in_turn = u64::from(written.number == turn);
        let both = u64::from(written.shown == 1 << 3 | 1 << 5);
        Tally {
            in_turn: self.in_turn.saturating_add(in_turn),
            always: self.always & written.shown,
            ever: self.ever | written.shown,
            refused: self.refused | written.refused,
            both: self.both.saturating_add(both),
        }
    }
}

/// A thread with its half of the tie, which stands here, on its row or left of it, and lines of numbers that tell of it.
/// Contracts see the number of its row.
#[derive(Drop)]
pub(super) struct Thread<'a, P: Program> {
    number: u32,
    half: Right<P, Agreed<'a>>,
    stand: Stand,
    left: bool,
    lines: Vec<[u64; 6]>,
}

impl<'a, P: Program> Model for Thread<'a, P> {
    ghost use Rattle.std.specs.Prelude.{ℕ};
    ghost use Rattle.ep_live_tests.specs.Runs.{IsThread};

    ghost Value = { ℕ };

    ghost view = { λ t. t.number };

    ghost invariant = { λ t. IsThread P.rows t.number t.left t.stand t.half };
}

impl<'a, P: Program> Thread<'a, P> {
    /// The first thread of a row, which has made no write.
    pub(super) fn new(alloc: Global, number: u32, half: Right<P, Agreed<'a>>) -> Thread<'a, P>
        requires row { number < P.rows }
        requires few { number < 1000 }
        requires stands { IsStand 0 number half }
    {
        let stand = Stand {
            thread: u64::from(number) + 1,
            index: 0,
        };
        Thread {
            number,
            half,
            stand,
            left: false,
            lines: Vec::new(alloc),
        }
    }

    /// A line more. One that finds no memory is lost.
    pub(super) fn tell(&mut self, line: [u64; 6]) {
        let _told = self.lines.push(line).is_ok();
    }

    pub(super) fn lines(&self) -> &[[u64; 6]] {
        self.lines.as_slice()
    }

    /// It makes its next write, unless it has left or made all.
    pub(super) fn write<R: Wait>(&mut self, rt: &R, run: &Run<'a, P>) -> Written {
        if self.left || self.stand.index >= run.turns {
            return NOTHING;
        }
        let at = Moment::Begun {
            thread: 1,
            index: self.stand.index,
        };
        let next = NextWrite {
            at,
            stamp: 100,
            write: &run.write,
        };
        let number = self.number as usize;
        let written = run.live.write(rt, &OpenGate, number, &mut self.half, &next);
        self.stand.index += 1;
        written
    }

    /// It makes all its writes.
    pub(super) fn write_all<R: Wait>(&mut self, rt: &R, run: &Run<'a, P>) -> Tally {
        let mut tally = Tally::new();
        for turn in 0..run.turns {
            tally = tally.with(turn + 1, self.write(rt, run));
        }
        tally
    }

    /// Its half, where it has made so many writes as the first thread of this row.
    pub(super) fn into_half(
        self,
        number: u32,
        turns: u32,
    ) -> Result<Right<P, Agreed<'a>>, AllocError>
        requires { number < 1000 }
        ensures { IfOk result (IsStand turns number) }
    {
        let Thread {
            number: own,
            half,
            stand,
            left,
            ..
        } = self;
        let thread = u64::from(number) + 1;
        if left || own != number || stand.thread != thread || stand.index != turns {
            return Err(AllocError);
        }
        Ok(half)
    }

    /// It leaves its row, once it has made all its writes. Gives the thread, how many writes it has begun, a bit for each
    /// session that was open there, and whether the row says that it was left.
    pub(super) fn leave<R: Wait>(&mut self, rt: &R, run: &Run<'a, P>) -> [u64; 4] {
        if self.left || self.stand.index != run.turns {
            return [0; 4];
        }
        let number = self.number as usize;
        let stand = run.live.stand(rt, number, &mut self.half);
        let on = AtomicU64::new(0);
        run.live.leave(rt, number, &mut self.half, &on);
        self.left = true;
        let left = run.live.life(rt, number).1;
        let on = on.load(Ordering::SeqCst);
        [stand.thread, u64::from(stand.index), on, u64::from(left)]
    }

    /// The next thread enters the row, if it can.
    pub(super) fn enter<R: Wait>(&mut self, rt: &R, run: &Run<'a, P>) -> bool {
        if !self.left || self.stand.thread > 1000 {
            return false;
        }
        let entered = run.live.enter(rt, self.number as usize, &mut self.half);
        if entered {
            self.left = false;
            self.stand.thread += 2;
            self.stand.index = 0;
        }
        entered
    }
}
