//! What holds of every list of steps, by the definitions of `specs/`.
ghost use Rattle.std.specs.Prelude.{◌≡◌, ℕ, ◌+◌, ◌≤◌, true, List, ◌++◌, length, reverse, None};
ghost use Rattle.ep_defs.specs.declared.limits.TheConstants.{SCHEDULE_WRITES, SESSION_THREADS};
ghost use Rattle.ep_defs.specs.declared.event.EventDef.{EventDef};
ghost use Rattle.ep_model.specs.declared.step.Step.{Step};
ghost use Rattle.ep_model.specs.Budget.{needs_chunk};
ghost use Rattle.ep_model.specs.Chunks.{turns, needs_chunk_after, held, in_hand, is_refused, chunks_of, shown_size, refused};
ghost use Rattle.ep_model.specs.Entries.{entries};
ghost use Rattle.ep_model.specs.Faithful.{AreFaithful, AreWrittenOrRefused, shares_of};
ghost use Rattle.ep_model.specs.Fold.{budget_of, lacks_chunk};
ghost use Rattle.ep_model.specs.History.{Past, is_finished, opened};
ghost use Rattle.ep_model.specs.Lawful.{IsLawful, first_unlawful, begins, was_opened};
ghost use Rattle.ep_model.specs.Only.{only};

/// What other sessions do, does not matter to a session: without their steps a lawful list is lawful, and the session's
/// entries and the numbers of its refused writes are the same.
pub fn other_sessions_steps_do_not_matter()
    ensures lawful { (definitions : List EventDef) (session : ℕ) (past : Past)
        → IsLawful definitions past → IsLawful definitions (only session past) }
    ensures same_entries { (definitions : List EventDef) (session : ℕ) (past : Past)
        → IsLawful definitions past
        → entries definitions session (only session past) ≡ entries definitions session past }
    ensures same_refused { (definitions : List EventDef) (session thread : ℕ) (past : Past)
        → IsLawful definitions past
        → refused session thread (only session past) ≡ refused session thread past }
{}

/// After every lawful list of steps, what a finished session's stream tells is faithful, and what it wrote and refused
/// of a thread makes up the thread's admitted writes.
pub fn finished_sessions_are_faithful()
    ensures faithful { (definitions : List EventDef) (session : ℕ) (past : Past)
        → IsLawful definitions past → is_finished session past ≡ true
        → AreFaithful (shares_of definitions session past) (entries definitions session past) }
    ensures counted { (definitions : List EventDef) (session thread : ℕ) (past : Past)
        → IsLawful definitions past → is_finished session past ≡ true
        → was_opened session thread past ≡ true
        → AreWrittenOrRefused definitions session thread past }
{}

/// A list of steps is lawful exactly where none of its steps is the first that can't be made.
pub fn lawful_lists_have_no_unlawful_step()
    ensures none { (definitions : List EventDef) (past : Past) (steps : List Step) → IsLawful definitions past
        → first_unlawful definitions (length past + 1) past steps ≡ None
        → IsLawful definitions (reverse steps ++ past) }
    ensures lawful { (definitions : List EventDef) (past : Past) (steps : List Step)
        → IsLawful definitions (reverse steps ++ past)
        → first_unlawful definitions (length past + 1) past steps ≡ None }
{}

/// A lawful list begins no more writes, and opens a session on no more threads, than their limits.
pub fn lawful_lists_are_limited()
    ensures begins { (definitions : List EventDef) (past : Past) → IsLawful definitions past
        → begins past ≤ SCHEDULE_WRITES }
    ensures threads { (definitions : List EventDef) (session : ℕ) (past : Past) → IsLawful definitions past
        → length (opened session past) ≤ SESSION_THREADS }
{}

/// Code can count a session's chunks step by step: the fold's counts are those that hold by places.
pub fn a_budget_can_be_counted()
    ensures held { (session : ℕ) (past : Past) → held (turns session past) ≡ (budget_of session past).held }
    ensures in_hand { (session : ℕ) (past : Past)
        → in_hand (turns session past) ≡ (budget_of session past).in_hand }
    ensures needs { (session thread size : ℕ) (past : Past)
        → needs_chunk_after (turns session past) thread size
        ≡ needs_chunk ((budget_of session past).pending thread) size }
    ensures refused { (session thread : ℕ) (past : Past)
        → is_refused session thread past
        ≡ lacks_chunk (budget_of session past) (chunks_of session past) thread (shown_size thread past) }
{}
