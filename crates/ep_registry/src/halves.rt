//! The registry's halves of all its ties.
ghost use Rattle.std.specs.Prelude.{◌≡◌, ◌+◌, ◌<◌, ◌≤◌, [], ◌∷◌, IfOk, None, Some, false, replicate, slice_set};
ghost use Rattle.ep_table.specs.declared.limits.TheConstants.{SLOTS};
ghost use Rattle.ep_journal.specs.declared.limits.TheConstants.{CONNECTIONS};
ghost use Rattle.ep_registry.specs.declared.server.Mark.TheVariants as mark;
ghost use Rattle.ep_registry.specs.Places.{numbered};

use crate::ends::Ends;
use crate::hold::Hold;
use crate::server::{Mark, Server};
use ep_journal::limits::CONNECTIONS;
use ep_journal::{Decision, Log};
use ep_table::limits::SLOTS;
use ep_tie::{Blank, Named, Right};
use std::alloc::{AllocError, Global};

/// One half for the decisions, one for each session, and one for each role and the server. The other halves of the
/// sessions that have not begun are spare.
#[derive(Drop)]
pub struct Halves<B: Named, S: Named, R: Named> {
    pub book: Ends<B, Log<Decision>>,
    pub holds: Ends<S, Option<Hold>>,
    pub spare: Vec<Right<S, Option<Hold>>>,
    pub marks: Ends<R, Mark>,
}

impl<B: Named, S: Named, R: Named> Halves<B, S, R> {
    /// All halves before any connection was decided, the server's, and those of the roles by their numbers from 0.
    pub fn new(
        alloc: Global,
        book: Blank<Log<Decision>>,
        holds: Blank<Option<Hold>>,
        marks: Blank<Mark>,
        roles: u32,
        decisions: &Log<Decision>,
    ) -> Result<(Halves<B, S, R>, Server<B, R>, Vec<Right<R, Mark>>), AllocError>
        requires named { (book.ties ≡ B.ties) × (holds.ties ≡ S.ties) × (marks.ties ≡ R.ties) }
        requires room { (0 < book.places) × (CONNECTIONS ≤ holds.places) × (SLOTS < marks.places) }
        requires none { decisions.now ≡ [] }
        ensures book { IfOk result (λ made. made.0.book ≡ Some [] ∷ []) }
        ensures holds { IfOk result (λ made. (made.0.holds ≡ replicate CONNECTIONS (Some None))
            × (made.0.spare.items ≡ numbered CONNECTIONS None)) }
        ensures marks { IfOk result (λ made. made.0.marks
            ≡ slice_set (replicate (SLOTS + 1) (Some (mark.Role roles false))) SLOTS (Some (mark.Server 0 0 false))) }
        ensures server { IfOk result (λ made. made.1
            ≡ record { decisions = []; early = 0; late = 0; left = false }) }
        ensures roles { IfOk result (λ made. made.2.items ≡ numbered SLOTS (mark.Role roles false)) }
    {
        let (book, _, other) = Ends::with_last(alloc, book, 0, decisions)?;
        let (holds, spare) = Ends::new(alloc, holds, CONNECTIONS as u32, &None)?;
        let mark = Mark::Role { roles, left: false };
        let (mut marks, others, last) = Ends::with_last(alloc, marks, SLOTS as u32, &mark)?;
        let server = Server::new(other, &mut marks, last);
        let halves = Halves {
            book,
            holds,
            spare,
            marks,
        };
        Ok((halves, server, others))
    }
}
