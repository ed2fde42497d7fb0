//! The step that comes next.
ghost use Rattle.std.specs.Prelude.{◌≡◌, ◌+◌, ◌<◌, ◌≤◌, ◌∷◌, ◌++◌, IfOk, IfSome};
ghost use Rattle.ep_model.specs.declared.step.Step.TheVariants as made;
ghost use Rattle.pt_gen.specs.Schedule.{Gives, made as steps_of_write, sweep_after, thread_at, write_at};
ghost use Rattle.pt_gen.specs.state.ToCome.{IsStage, IsThread, after_session, end_from, first_walked, next_step, number_of, rounds_from, shows_from, to_come};

use crate::limits::{SWEEP_ROUNDS, THREADS};
use crate::rounds::Rounds;
use crate::session::Session;
use crate::walk::{START, Walk};
use ep_model::Step;
use std::alloc::{AllocError, Global};

/// Where a schedule stands: each stage but the last is one step.
#[derive(Clone, Copy, Debug)]
pub(crate) enum Stage {
    Accept { session: Session },
    Open { session: Session, thread: u32 },
    Begin { round: u32 },
    Show { round: u32, session: Session },
    End { round: u32 },
    /// The sessions sweep after the round.
    Sweep { round: u32, walk: Walk },
    /// They are closed and finished.
    Close { walk: Walk },
    Ended,
}

impl Stage {
    // Its step.
    pub(crate) fn step(self, alloc: Global, rounds: Rounds) -> Result<Option<Step>, AllocError>
        requires { IsStage rounds.count self }
        ensures { IfOk result (λ step. step ≡ next_step rounds.seed rounds.count self) }
    {
        let step = match self {
            Stage::Accept { session } => Step::Accept {
                session: session.number(),
                config: session.config(alloc)?,
            },
            Stage::Open { session, thread } => Step::Open {
                session: session.number(),
                thread,
            },
            Stage::Begin { round } => Step::Begin {
                thread: rounds.thread_at(round),
                stamp: u64::from(round),
                write: rounds.write_at(alloc, round)?,
            },
            Stage::Show { round, session } => Step::Show {
                thread: rounds.thread_at(round),
                session: session.number(),
            },
            Stage::End { round } => Step::End {
                thread: rounds.thread_at(round),
            },
            Stage::Sweep { round, walk } => steal(walk, u64::from(round) + 1),
            Stage::Close { walk } => close(walk, u64::from(rounds.count)),
            Stage::Ended => return Ok(None),
        };
        Ok(Some(step))
    }

    // The stage after it. The last one stays.
    pub(crate) fn after(self, rounds: Rounds) -> Stage
        requires { IsStage rounds.count self }
        ensures within { IsStage rounds.count result }
        ensures follows { Gives (to_come rounds.seed rounds.count self)
            (next_step rounds.seed rounds.count self) (to_come rounds.seed rounds.count result) }
    {
        match self {
            Stage::Accept {
                session: Session::Wide,
            } => Stage::Accept {
                session: Session::Narrow,
            },
            Stage::Accept { .. } => Stage::Open {
                session: Session::Wide,
                thread: 1,
            },
            Stage::Open { session, thread } => after_open(rounds, session, thread),
            Stage::Begin { round } => Stage::Show {
                round,
                session: Session::Wide,
            },
            Stage::Show { round, session } => after_show(rounds, round, session),
            Stage::End { round } => after_write(rounds, round),
            Stage::Sweep { round, walk } => match walk.after() {
                Some(walk) => Stage::Sweep { round, walk },
                None => round_or_close(rounds, round + 1),
            },
            Stage::Close { walk } => match walk.after() {
                Some(walk) => Stage::Close { walk },
                None => Stage::Ended,
            },
            Stage::Ended => Stage::Ended,
        }
    }

    // Where a write comes next, its round, and the stage behind all its steps.
    pub(crate) fn after_whole_write(self, rounds: Rounds) -> Option<(u32, Stage)>
        requires { IsStage rounds.count self }
        ensures within { IfSome result (λ passed. IsStage rounds.count passed.1) }
        ensures follows { IfSome result (λ passed. to_come rounds.seed rounds.count self
            ≡ steps_of_write (thread_at rounds.seed passed.0) passed.0 (write_at rounds.seed passed.0)
            ++ to_come rounds.seed rounds.count passed.1) }
    {
        match self {
            Stage::Begin { round } => Some((round, after_write(rounds, round))),
            _ => None,
        }
    }
}

// The stage after a session was opened on a thread.
fn after_open(rounds: Rounds, session: Session, thread: u32) -> Stage
    requires { IsThread thread }
    ensures within { IsStage rounds.count result }
    ensures follows { to_come rounds.seed rounds.count (Stage.Open session thread)
        ≡ made.Open (number_of session) thread ∷ to_come rounds.seed rounds.count result }
{
    match session {
        _ if thread < THREADS => Stage::Open {
            session,
            thread: thread + 1,
        },
        Session::Wide => Stage::Open {
            session: Session::Narrow,
            thread: 1,
        },
        Session::Narrow => round_or_close(rounds, 0),
    }
}

// The stage at which a round begins, or at which the end does where all rounds were made.
fn round_or_close(rounds: Rounds, round: u32) -> Stage
    requires { round ≤ rounds.count }
    ensures within { IsStage rounds.count result }
    ensures follows { to_come rounds.seed rounds.count result ≡ rounds_from rounds.seed rounds.count round }
{
    if round < rounds.count {
        Stage::Begin { round }
    } else {
        Stage::Close { walk: START }
    }
}

// The stage after a round's write was shown to a session.
fn after_show(rounds: Rounds, round: u32, session: Session) -> Stage
    requires { round < rounds.count }
    ensures within { IsStage rounds.count result }
    ensures follows { to_come rounds.seed rounds.count result
        ≡ shows_from rounds.seed round (after_session session) ++ end_from rounds.seed rounds.count round }
{
    match session {
        Session::Wide if rounds.are_got(Session::Narrow, round) => Stage::Show {
            round,
            session: Session::Narrow,
        },
        _ => Stage::End { round },
    }
}

// The stage after a round's write has ended.
fn after_write(rounds: Rounds, round: u32) -> Stage
    requires { round < rounds.count }
    ensures within { IsStage rounds.count result }
    ensures follows { to_come rounds.seed rounds.count result
        ≡ sweep_after (round + 1) ++ rounds_from rounds.seed rounds.count (round + 1) }
{
    if (round + 1).is_multiple_of(SWEEP_ROUNDS) {
        Stage::Sweep { round, walk: START }
    } else {
        round_or_close(rounds, round + 1)
    }
}

// What a sweep does next.
fn steal(walk: Walk, stamp: u64) -> Step
    ensures { result ≡ first_walked (λ s t. made.Steal s t) (λ s. made.Point s stamp) walk }
{
    match walk {
        Walk::Take { session, thread } => Step::Steal {
            session: session.number(),
            thread,
        },
        Walk::Give { session, .. } => Step::Give {
            session: session.number(),
        },
        Walk::Tell { session } => Step::Point {
            session: session.number(),
            stamp,
        },
    }
}

// What the sessions do next at their end.
fn close(walk: Walk, stamp: u64) -> Step
    ensures { result ≡ first_walked (λ s t. made.Close s t) (λ s. made.Finish s stamp) walk }
{
    match walk {
        Walk::Take { session, thread } => Step::Close {
            session: session.number(),
            thread,
        },
        Walk::Give { session, .. } => Step::Give {
            session: session.number(),
        },
        Walk::Tell { session } => Step::Finish {
            session: session.number(),
            stamp,
        },
    }
}
