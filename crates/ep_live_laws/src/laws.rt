//! Laws: what holds of the definitions alone.
ghost use Rattle.std.specs.Prelude.{ℕ, List, []};
ghost use Rattle.ep_defs.specs.declared.event.EventDef.{EventDef};
ghost use Rattle.ep_defs.specs.declared.session.Config.{Config};
ghost use Rattle.ep_defs.specs.declared.session.Write.{Write};
ghost use Rattle.ep_defs.specs.Entry.{Entry};
ghost use Rattle.ep_model.specs.History.{insert_ascending};
ghost use Rattle.ep_stream.specs.declared.session.Fate.{Fate};
ghost use Rattle.ep_stream.specs.declared.session.Session.{Session};
ghost use Rattle.ep_stream.specs.Session.{WasOpened, rest_of};
ghost use Rattle.ep_live_laws.specs.Calls.{IsNew, OpensOn, TakesNothing, SweptIn, ClosedIn, EndsOver, IsOutcome, TellsSame, TellsMore};
ghost use Rattle.ep_live_laws.specs.Streams.{TracesAreFound, PartsAreFound};
ghost use Rattle.ep_live_laws.specs.Tracing.{IsOneOf, IsTracing, Watch};

use ep_rundown::the_section_stands_before_the_last_point;
use nt_laws::{
    a_faithful_stream_is_found, a_part_of_a_stream_is_found, a_stream_with_a_rundown_is_faithful,
};
use pt_io::Sink;

/// A session that was just started was opened on no thread and has told nothing.
pub fn a_session_starts_with_no_trace<S: Sink>()
    ensures { (watch : Watch) (session : Session S) → IsNew S.Sink watch session
        → IsTracing S.Sink watch [] [] session }
{}

/// A session that is opened on one thread more, in a row on which it was not open, has told the same (`traced`). Where
/// it is open on a thread or was, it was opened there (`fresh`).
pub fn an_opened_row_is_traced<S: Sink>()
    ensures traced { (watch : Watch) (opened : List ℕ) (thread : ℕ) (old new : Session S)
        → OpensOn watch opened thread old new
        → TellsSame S.Sink watch opened (insert_ascending thread opened) old new }
    ensures fresh { (watch : Watch) (opened : List ℕ) (told : List Entry) (thread : ℕ) (session : Session S)
        → IsTracing S.Sink watch opened told session
        → WasOpened session thread → IsOneOf opened thread }
{}

/// A session that has its hands, its writer and what else it is, but for what it has in hand, has told the same: so
/// it is after a Give, and where it could not be opened on a row.
pub fn a_call_that_takes_nothing_changes_no_trace<S: Sink>()
    ensures { (watch : Watch) (opened : List ℕ) (old new : Session S) → TakesNothing old new
        → TellsSame S.Sink watch opened opened old new }
{}

/// A session that was swept with the definitions of the program's events, also one that a fault stopped, has told
/// some entries more.
pub fn a_sweep_is_traced<S: Sink>()
    ensures { (watch : Watch) (old new : Session S)
        → SweptIn S.Sink watch old new
        → TellsMore S.Sink watch old new }
{}

/// A session that was closed on a row with these definitions, also one that a fault stopped, has told some entries
/// more.
pub fn a_closed_row_is_traced<S: Sink>()
    ensures { (watch : Watch) (old new : Session S)
        → ClosedIn S.Sink watch old new
        → TellsMore S.Sink watch old new }
{}

/// A session that was closed on each of its rows and ended has the marks of the threads on which it was opened. Where
/// its fate is no fault, and the threads make no more writes than they can, its sink took the stream of all that they
/// wrote and it got, less the writes whose numbers are missing, as many as its marks count as refused; and whatever its
/// fate is, what begins the stream of a part of that. Where it ran out of stack ids, more events were taken of the
/// threads than there are ids.
pub fn a_session_that_ends_has_traced<S: Sink>()
    ensures { (watch : Watch) (opened : List ℕ) (handed fate : Fate) (old : Session S) (sink : S)
        → EndsOver S.Sink watch opened handed old fate sink
        → IsOutcome S.Sink watch opened handed (rest_of old).marks fate sink }
{
    the_section_stands_before_the_last_point();
}

/// The stream of entries that trace the threads, with the section of a rundown where one is asked for, is found whole,
/// and its items, without what is the rundown's, tell of each thread what it wrote and the session got, less the writes
/// whose numbers are missing.
pub fn a_traced_stream_is_found()
    ensures { (events : List EventDef) (config : Config) (writes : ℕ → List Write)
        → TracesAreFound events config writes }
{
    a_faithful_stream_is_found();
    a_stream_with_a_rundown_is_faithful();
}

/// What begins the stream of what is told first of entries that trace a part of what the threads wrote, or is all of it,
/// is read as far as it goes: nothing in it is refused, and its items stand in order and tell the first entries.
pub fn a_part_is_found()
    ensures { (events : List EventDef) (config : Config) (writes : ℕ → List Write)
        → PartsAreFound events config writes }
{
    a_part_of_a_stream_is_found();
}
