//! Laws: what holds of the definitions alone.
ghost use Rattle.std.specs.Prelude.{◌≡◌, ℕ, true, false, List, ◌∷◌, IsTrue};
ghost use Rattle.ep_defs.specs.declared.event.EventDef.{EventDef};
ghost use Rattle.ep_defs.specs.Entry.{Entry};
ghost use Rattle.ep_model.specs.Entries.{entries};
ghost use Rattle.ep_model.specs.Faithful.{Share, AreFaithful, is_of, shares_of};
ghost use Rattle.ep_model.specs.History.{Past, is_finished};
ghost use Rattle.ep_model.specs.Lawful.{IsLawful};
ghost use Rattle.ep_model.specs.Only.{only};
ghost use Rattle.ep_rundown.specs.Rundown.{lacks_rundown, with_section};
ghost use Rattle.ep_told.specs.Told.{told_entries, AreOfProgram, rundown_share};

use ep_model::laws::{finished_sessions_are_faithful, other_sessions_steps_do_not_matter};

/// What the stream of a session tells, with a rundown or without, does not depend on the steps of other sessions.
pub fn what_is_told_is_a_session_s_own()
    ensures { (definitions : List EventDef) (session : ℕ) (past : Past) → IsLawful definitions past
        → told_entries definitions session (only session past) ≡ told_entries definitions session past }
{
    other_sessions_steps_do_not_matter();
}

/// Thread 0 is no thread of the program: no session was opened on it, and none of a finished session's entries is an event
/// of it or names it; nor is one an event of the rundown's definition, where the program does not define that.
pub fn the_program_has_no_thread_0()
    ensures shares { (definitions : List EventDef) (session : ℕ) (past : Past)
        → IsLawful definitions past → is_of (shares_of definitions session past) 0 ≡ false }
    ensures entries { (definitions : List EventDef) (session : ℕ) (past : Past)
        → IsLawful definitions past → is_finished session past ≡ true
        → IsTrue (lacks_rundown definitions) → AreOfProgram (entries definitions session past) }
{
    finished_sessions_are_faithful();
}

/// With the section of a rundown, entries that tell faithfully of threads above 0 tell faithfully of thread 0 too: the
/// events of the section, none of them refused.
pub fn a_rundown_tells_of_thread_0()
    ensures { (shares : List Share) (entries : List Entry)
        → AreFaithful shares entries → is_of shares 0 ≡ false
        → AreFaithful (rundown_share entries ∷ shares) (with_section true entries) }
{}
