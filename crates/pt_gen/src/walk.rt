//! The way over both sessions and all threads, on which each session takes something from each thread.
ghost use Rattle.std.specs.Prelude.{◌≡◌, ℕ, ◌∷◌, IfSome};
ghost use Rattle.ep_model.specs.declared.step.Step.{Step};
ghost use Rattle.pt_gen.specs.state.ToCome.{IsWalk, walked, first_walked, left_to_walk};

use crate::limits::THREADS;
use crate::session::Session;

/// What comes next on the way.
#[derive(Clone, Copy, Debug)]
pub(crate) enum Walk {
    /// The session takes what a thread has.
    Take { session: Session, thread: u32 },
    /// It gives back what it took of the thread.
    Give { session: Session, thread: u32 },
    /// It tells of what it took.
    Tell { session: Session },
}

/// The first of all.
pub(crate) const START: Walk = Walk::Take {
    session: Session::Wide,
    thread: 1,
};

impl Walk {
    // What comes next but one.
    pub(crate) fn after(self) -> Option<Walk>
        requires { IsWalk self }
        ensures within { IfSome result IsWalk }
        ensures follows { (take : ℕ → ℕ → Step) (tell : ℕ → Step)
            → walked take tell self ≡ first_walked take tell self ∷ left_to_walk take tell result }
    {
        match self {
            Walk::Take { session, thread } => Some(Walk::Give { session, thread }),
            Walk::Give { session, thread } if thread < THREADS => Some(Walk::Take {
                session,
                thread: thread + 1,
            }),
            Walk::Give { session, .. } => Some(Walk::Tell { session }),
            Walk::Tell {
                session: Session::Wide,
            } => Some(Walk::Take {
                session: Session::Narrow,
                thread: 1,
            }),
            Walk::Tell {
                session: Session::Narrow,
            } => None,
        }
    }
}
