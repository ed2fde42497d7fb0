//! Laws: what holds of the definitions alone.
ghost use Rattle.std.specs.Prelude.{◌≡◌, ℕ, true, false, List, [], ◌∷◌, ◌++◌, map};
ghost use Rattle.ep_defs.specs.Entry.{Event, Point};
ghost use Rattle.ep_defs.specs.declared.event.EventDef.{EventDef};
ghost use Rattle.ep_defs.specs.declared.session.Config.{Config};
ghost use Rattle.ep_defs.specs.declared.session.Marks.{Marks};
ghost use Rattle.ep_model.specs.declared.step.Step.{Step};
ghost use Rattle.ep_model.specs.declared.step.Step.TheVariants.{Accept, Open, Steal, Give, Point as PointStep, Close, Finish};
ghost use Rattle.ep_model.specs.Entries.{entries, pending};
ghost use Rattle.ep_model.specs.History.{Past, config_of, is_finished};
ghost use Rattle.ep_model.specs.Lawful.{IsLawful};
ghost use Rattle.ep_model.specs.Marks.{marks_of};
ghost use Rattle.nt_write.specs.Writer.{point_of};
ghost use Rattle.ep_stream.specs.declared.session.Seat.{Seat};
ghost use Rattle.ep_stream.specs.Named.{still_open, numbers_of};
ghost use Rattle.ep_stream.specs.Session.{Rest, new_rest, with_opened, with_stolen, with_closed, last_entries};
ghost use Rattle.ep_stream_laws.specs.Kept.{RestFollows, StealFollows, CloseFollows, finished_entries};
ghost use Rattle.ep_stream_laws.specs.Makers.{is_made_by, is_told_by};

use ep_model::laws::a_budget_can_be_counted;
use ep_rundown::the_section_stands_before_the_last_point;

// ---- what is kept

/// A session that was just accepted keeps nothing.
pub fn a_new_session_keeps_nothing()
    ensures { (events : List EventDef) (past : Past) (seat : Seat) (config : Config)
        → IsLawful events (Accept seat.id config ∷ past)
        → RestFollows (Accept seat.id config ∷ past) (new_rest seat config) }
{}

/// A thread on which the session was just opened is named, with the number 0.
pub fn an_opened_thread_is_named()
    ensures { (events : List EventDef) (past : Past) (rest : Rest) (thread : ℕ) → RestFollows past rest
        → IsLawful events (Open rest.seat.id thread ∷ past)
        → RestFollows (Open rest.seat.id thread ∷ past) (with_opened thread rest) }
{}

/// After a Steal the thread is named with the number of its last Show, and what it had is in hand.
pub fn what_is_stolen_is_told()
    ensures { (events : List EventDef) (past : Past) (rest : Rest) (thread last chunks : ℕ)
        → StealFollows events past thread last chunks rest (with_stolen thread last chunks rest) }
{
    a_budget_can_be_counted();
}

/// After a Close the thread is named so too, as one that is closed, and its marks are kept.
pub fn a_closed_thread_is_marked()
    ensures { (events : List EventDef) (past : Past) (rest : Rest) (thread last chunks : ℕ)
        (marks : Marks)
        → CloseFollows events past thread last chunks marks rest (with_closed thread last chunks marks rest) }
{
    a_budget_can_be_counted();
}

/// After a Give nothing is in hand.
pub fn what_is_given_back_is_not_in_hand()
    ensures { (past : Past) (rest : Rest) → RestFollows past rest
        → RestFollows (Give rest.seat.id ∷ past) (record rest { in_hand = 0 }) }
{}

/// After a point the threads on which the session is closed are named no more.
pub fn a_point_forgets_closed_threads()
    ensures { (past : Past) (rest : Rest) (stamp : ℕ) → RestFollows past rest
        → RestFollows (PointStep rest.seat.id stamp ∷ past) (record rest { named = still_open rest.named }) }
{}

/// No step of another session or of a thread changes what a session keeps, or the entries of its stream.
pub fn other_steps_change_nothing_kept()
    ensures follows { (events : List EventDef) (past : Past) (rest : Rest) (step : Step)
        → RestFollows past rest
        → IsLawful events (step ∷ past) → is_made_by rest.seat.id step ≡ false
        → RestFollows (step ∷ past) rest }
    ensures same_entries { (events : List EventDef) (session : ℕ) (past : Past) (step : Step)
        → is_made_by session step ≡ false
        → entries events session (step ∷ past) ≡ entries events session past }
{}

// ---- what is told

/// A Steal and a Close tell what was pending on the thread, a Point and a Finish how far the threads that the session
/// keeps by name had come, and no other step tells anything.
pub fn entries_are_what_was_told()
    ensures stolen { (events : List EventDef) (session thread : ℕ) (past : Past)
        → entries events session (Steal session thread ∷ past)
        ≡ entries events session past ++ map Event (pending events session thread past) }
    ensures closed { (events : List EventDef) (session thread : ℕ) (past : Past)
        → entries events session (Close session thread ∷ past)
        ≡ entries events session past ++ map Event (pending events session thread past) }
    ensures pointed { (events : List EventDef) (past : Past) (rest : Rest) (stamp : ℕ) → RestFollows past rest
        → entries events rest.seat.id (PointStep rest.seat.id stamp ∷ past)
        ≡ entries events rest.seat.id past ++ Point (point_of stamp (numbers_of rest.named)) ∷ [] }
    ensures finished { (events : List EventDef) (past : Past) (rest : Rest) (stamp : ℕ)
        → RestFollows past rest
        → entries events rest.seat.id (Finish rest.seat.id stamp ∷ past)
        ≡ entries events rest.seat.id past ++ Point (point_of stamp (numbers_of rest.named)) ∷ [] }
    ensures others { (events : List EventDef) (session : ℕ) (past : Past) (step : Step)
        → is_told_by session step ≡ false
        → entries events session (step ∷ past) ≡ entries events session past }
{}

/// A finished session tells, with the section of a rundown where it was asked for one, what its stream had told before and
/// what ep_stream's call for a Finish ends it with.
pub fn a_finished_session_tells_its_last_entries()
    ensures { (events : List EventDef) (past : Past) (rest : Rest) (stamp : ℕ) → RestFollows past rest
        → finished_entries events stamp past rest
        ≡ entries events rest.seat.id past ++ last_entries stamp (entries events rest.seat.id past) rest }
{
    the_section_stands_before_the_last_point();
}

// ---- the end

/// A session that can be finished has kept its marks of every thread on which it was opened.
pub fn the_last_marks_are_all()
    ensures { (events : List EventDef) (past : Past) (rest : Rest) (stamp : ℕ) → RestFollows past rest
        → IsLawful events (Finish rest.seat.id stamp ∷ past)
        → rest.marks ≡ marks_of rest.seat.id (Finish rest.seat.id stamp ∷ past) }
{}

/// A session has finished once its Finish was made, and stays so. It makes no step more, and no step changes its
/// configuration, what its stream told, or its marks.
pub fn a_finished_session_stays()
    ensures ended { (session stamp : ℕ) (past : Past)
        → is_finished session (Finish session stamp ∷ past) ≡ true }
    ensures stays { (session : ℕ) (past : Past) (step : Step) → is_finished session past ≡ true
        → is_finished session (step ∷ past) ≡ true }
    ensures none { (events : List EventDef) (session : ℕ) (past : Past) (step : Step)
        → IsLawful events (step ∷ past)
        → is_finished session past ≡ true → is_made_by session step ≡ false }
    ensures same_config { (events : List EventDef) (session : ℕ) (past : Past) (step : Step)
        → IsLawful events (step ∷ past)
        → is_finished session past ≡ true → config_of session (step ∷ past) ≡ config_of session past }
    ensures same_entries { (events : List EventDef) (session : ℕ) (past : Past) (step : Step)
        → IsLawful events (step ∷ past)
        → is_finished session past ≡ true
        → entries events session (step ∷ past) ≡ entries events session past }
    ensures same_marks { (events : List EventDef) (session : ℕ) (past : Past) (step : Step)
        → IsLawful events (step ∷ past)
        → is_finished session past ≡ true → marks_of session (step ∷ past) ≡ marks_of session past }
{}
