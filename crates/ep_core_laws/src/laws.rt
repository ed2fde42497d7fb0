//! A machine follows each step, by the definitions of `specs/`, and has what the step needs.
ghost use Rattle.std.specs.Prelude.{◌≡◌, ◌≢◌, ◌-◌, ◌^◌, ◌<◌, ℕ, false, List, [], ◌∷◌, length, Option, None, Some, slice_get, slice_set};
ghost use Rattle.ep_defs.specs.declared.limits.TheConstants.{THREADS};
ghost use Rattle.ep_defs.specs.declared.event.EventDef.{EventDef};
ghost use Rattle.ep_defs.specs.declared.session.Config.{Config};
ghost use Rattle.ep_defs.specs.declared.session.TraceInfo.{TraceInfo};
ghost use Rattle.ep_defs.specs.declared.session.Write.{Write};
ghost use Rattle.pt_io.specs.Memory.{SinkState};
ghost use Rattle.ep_model.specs.declared.step.Step.{Step};
ghost use Rattle.ep_model.specs.declared.step.Step.TheVariants.{Accept, Enter, Leave, Open, Begin, Show, End, Steal, Give, Point, Close, Finish};
ghost use Rattle.ep_model.specs.History.{Past};
ghost use Rattle.ep_model.specs.Marks.{marks_of};
ghost use Rattle.ep_stream.specs.Steps.{ToldRows};
ghost use Rattle.ep_stream.specs.Session.{rest_of};
ghost use Rattle.ep_stream.specs.declared.session.SessionEnd.{SessionEnd};
ghost use Rattle.ep_stream.specs.declared.session.Fate.TheVariants.{TooLong};
ghost use Rattle.ep_tables.specs.declared.tables.Present.{Present};
ghost use Rattle.ep_tables.specs.declared.tables.Tables.{Tables};
ghost use Rattle.ep_tables.specs.Tables.{row_of};
ghost use Rattle.ep_tables.specs.Tied.{AreTied};
ghost use Rattle.ep_tables.specs.Made.{MakesAccept, MakesEnter, MakesLeave, MakesOpen, MakesBegin, MakesShow, MakesEnd, MakesSteal, MakesGive, MakesPoint, MakesClose, MakesFinish, CanTake, HasId, HasNumber, RunsOut, PointRunsOut, EndsAs, IsStart};
ghost use Rattle.ep_core_laws.specs.Ends.{EndsNext, LeavesStream};
ghost use Rattle.ep_core_laws.specs.Rests.{IsKeptAt};
ghost use Rattle.ep_core_laws.specs.Stands.{is_for, KeepsSlot, StandsOn};
ghost use Rattle.ep_core_laws.specs.Works.{CanGoOn, Works, WorksOn, WorksOnWith};

use ep_model::laws::{a_budget_can_be_counted, lawful_lists_are_limited};
use ep_stream_laws::{
    a_closed_thread_is_marked, a_finished_session_tells_its_last_entries,
    a_new_session_keeps_nothing, a_point_forgets_closed_threads, an_opened_thread_is_named,
    entries_are_what_was_told, other_steps_change_nothing_kept, the_last_marks_are_all,
    what_is_given_back_is_not_in_hand, what_is_stolen_is_told,
};

// ---- the start

/// No session is there, each row is new, and no thread is in a write.
pub fn a_machine_follows_its_start()
    ensures { (events : List EventDef) (info : TraceInfo) (tables : Tables)
        (begun : List (Option Write))
        → IsStart events tables → AreTied tables → length begun ≡ THREADS
        → Works events info [] tables begun }
{}

// ---- steps of threads

/// The thread that comes has made no write and takes a row on which nothing is open.
pub fn a_machine_follows_an_enter()
    ensures { (thread : ℕ) (old new : Tables) (begun : List (Option Write))
        → MakesEnter thread old new → AreTied new → WorksOn (Enter thread) old begun new begun }
{
    a_session_stands_through_other_steps();
}

/// A thread that leaves keeps its writes.
pub fn a_machine_follows_a_leave()
    ensures { (thread : ℕ) (old new : Tables) (begun : List (Option Write))
        → MakesLeave thread old new → AreTied new → WorksOn (Leave thread) old begun new begun }
{
    a_session_stands_through_other_steps();
}

/// The write is one more of its thread, and is put in the list at the row's place.
pub fn a_machine_follows_a_begin()
    ensures { (thread stamp : ℕ) (write : Write) (old new : Tables) (begun : List (Option Write))
        → (makes : MakesBegin thread stamp write old new) → AreTied new
        → WorksOn (Begin thread stamp write) old begun new (slice_set begun (makes.own.row - 1) (Some write)) }
{
    a_session_stands_through_other_steps();
}

/// The write that is shown is the last of its thread, and gets the next number of the session's.
pub fn a_machine_follows_a_show()
    ensures { (thread session : ℕ) (write : Write) (old new : Tables) (begun : List (Option Write))
        → (makes : MakesShow thread session write old new) → AreTied new
        → IsKeptAt makes.row write begun → WorksOn (Show thread session) old begun new begun }
{
    a_budget_can_be_counted();
    other_steps_change_nothing_kept();
    a_session_stands_through_other_steps();
}

/// A write that ended stays the last of its thread, which is in no write then.
pub fn a_machine_follows_an_end()
    ensures { (thread : ℕ) (old new : Tables) (begun : List (Option Write))
        → MakesEnd thread old new → AreTied new → WorksOn (End thread) old begun new begun }
{
    a_session_stands_through_other_steps();
}

// ---- steps of a session on a thread

/// A session that was just opened on a row has no records, and the row knows its configuration.
pub fn a_machine_follows_an_open()
    ensures { (session thread : ℕ) (old new : Tables) (begun : List (Option Write))
        → MakesOpen session thread old new → AreTied new → WorksOn (Open session thread) old begun new begun }
{
    an_opened_thread_is_named();
    a_session_stands_through_other_steps();
}

/// A steal leaves no records, and tells all that were pending.
pub fn a_machine_follows_a_steal()
    ensures { (session thread : ℕ) (old new : Tables) (begun : List (Option Write))
        → MakesSteal session thread old new → AreTied new → WorksOn (Steal session thread) old begun new begun }
{
    what_is_stolen_is_told();
    entries_are_what_was_told();
    a_session_stands_through_other_steps();
}

/// Chunks that are given back leave rows and slots.
pub fn a_machine_follows_a_give()
    ensures { (session : ℕ) (old new : Tables) (begun : List (Option Write))
        → MakesGive session old new → AreTied new → WorksOn (Give session) old begun new begun }
{
    a_budget_can_be_counted();
    what_is_given_back_is_not_in_hand();
    a_session_stands_through_other_steps();
}

/// So does a point, which the session's stream tells.
pub fn a_machine_follows_a_point()
    ensures { (session stamp : ℕ) (old new : Tables) (begun : List (Option Write))
        → MakesPoint session stamp old new → AreTied new → WorksOn (Point session stamp) old begun new begun }
{
    a_point_forgets_closed_threads();
    entries_are_what_was_told();
    a_session_stands_through_other_steps();
}

/// A session that was closed on a row has no slot there, and marks what it had of the thread.
pub fn a_machine_follows_a_close()
    ensures { (session thread : ℕ) (old new : Tables) (begun : List (Option Write))
        → MakesClose session thread old new → AreTied new → WorksOn (Close session thread) old begun new begun }
{
    a_closed_thread_is_marked();
    entries_are_what_was_told();
    a_session_stands_through_other_steps();
}

// ---- a session comes and goes

/// The session that comes is open on no row, and no other has its slot.
pub fn a_machine_follows_an_accept()
    ensures { (info : TraceInfo) (session : ℕ) (config : Config) (old new : Tables) (begun : List (Option Write))
        → MakesAccept session config info old new → AreTied new
        → WorksOnWith info (Accept session config) old begun new begun }
{
    a_new_session_keeps_nothing();
    a_session_stands_through_other_steps();
}

/// The sessions that stay keep what they have.
pub fn a_machine_follows_a_finish()
    ensures { (session stamp : ℕ) (old new : Tables) (begun : List (Option Write))
        → MakesFinish session old new → AreTied new → WorksOn (Finish session stamp) old begun new begun }
{
    a_session_stands_through_other_steps();
}

/// A session that finishes leaves the marks that the steps so far say (`marks`), and where its end is the program's,
/// the one stream of its entries, with the section of a rundown where it was asked for one (`stream`).
pub fn a_session_ends_with_its_entries()
    ensures marks { (events : List EventDef) (info : TraceInfo) (past : Past) (session stamp : ℕ)
        (end : SessionEnd SinkState) → EndsNext events info past session stamp end
        → end.marks ≡ marks_of session (Finish session stamp ∷ past) }
    ensures stream { (events : List EventDef) (info : TraceInfo) (past : Past) (session stamp : ℕ)
        (end : SessionEnd SinkState) → EndsNext events info past session stamp end
        → LeavesStream events info session (Finish session stamp ∷ past) end }
{
    the_last_marks_are_all();
    a_finished_session_tells_its_last_entries();
}

// ---- what a step needs

/// The table has an id for a session that can be accepted.
pub fn a_session_that_comes_has_an_id()
    ensures { (session : ℕ) (config : Config) (tables : Tables) (begun : List (Option Write))
        → session < 2 ^ 32 → CanGoOn (Accept session config) tables begun → HasId tables }
{}

/// A write that can begin has a number left.
pub fn a_write_that_begins_has_a_number()
    ensures { (thread stamp row : ℕ) (write : Write) (tables : Tables) (begun : List (Option Write))
        → CanGoOn (Begin thread stamp write) tables begun
        → row_of tables thread ≡ Some row → HasNumber tables row }
{}

/// A write that can be shown was kept where it began (`kept`), and the session can take it (`taken`).
pub fn a_due_write_can_be_taken()
    ensures kept { (thread session row : ℕ) (tables : Tables) (begun : List (Option Write))
        → CanGoOn (Show thread session) tables begun
        → row_of tables thread ≡ Some row → slice_get begun (row - 1) ≢ Some None }
    ensures taken { (thread session row : ℕ) (write : Write) (tables : Tables) (begun : List (Option Write))
        → CanGoOn (Show thread session) tables begun
        → row_of tables thread ≡ Some row → IsKeptAt row write begun
        → CanTake thread session write tables }
{
    lawful_lists_are_limited();
    a_budget_can_be_counted();
}

/// No session runs out of stack ids: it has told no more events than writes were begun, and there are as many ids.
pub fn stack_ids_suffice()
    ensures steal { (session thread : ℕ) (tables : Tables) (begun : List (Option Write))
        → CanGoOn (Steal session thread) tables begun → RunsOut session thread tables → ⊥ }
    ensures close { (session thread : ℕ) (tables : Tables) (begun : List (Option Write))
        → CanGoOn (Close session thread) tables begun → RunsOut session thread tables → ⊥ }
    ensures point { (session stamp : ℕ) (tables : Tables) (begun : List (Option Write))
        → CanGoOn (Point session stamp) tables begun → PointRunsOut session stamp tables → ⊥ }
    ensures end { (session stamp : ℕ) (tables : Tables) (begun : List (Option Write)) (end : SessionEnd SinkState)
        → CanGoOn (Finish session stamp) tables begun
        → EndsAs session stamp tables end → end.fate ≢ TooLong }
{
    lawful_lists_are_limited();
}

// ---- steps of others

// A session stands through a step that is not for it, if what is in its slot stays.
fn a_session_stands_through_other_steps()
    ensures { (step : Step) (old new : ToldRows) (present : Present)
        → is_for present.number step ≡ false → (rest_of present.session).seat.id ≡ present.number
        → KeepsSlot present.slot old new → StandsOn step old new present }
{
    other_steps_change_nothing_kept();
}
