//! Laws: what holds of the definitions alone.
ghost use Rattle.std.specs.Prelude.{ℕ, ◌<◌, ◌≤◌, length, IsTrue};
ghost use Rattle.std.specs.List.{list_all};
ghost use Rattle.ep_defs.specs.declared.limits.TheConstants.{EVENTS};
ghost use Rattle.ep_defs.specs.Definitions.{AreDistinct, definition_at};
ghost use Rattle.ep_defs.specs.Event.{is_valid_event};
ghost use Rattle.ep_defs.specs.Session.{fits};
ghost use Rattle.ep_rundown.specs.Rundown.{lacks_rundown};
ghost use Rattle.pt_load.specs.Sample.{sample, nth, event_at};
ghost use Rattle.pt_load.specs.declared.plan.Plan.{Plan};

/// The sample program has few enough events, each is valid, no two are the same, and none is that of a rundown.
pub fn sample_events_are_valid()
    ensures few { length sample ≤ EVENTS }
    ensures valid { IsTrue (list_all is_valid_event sample) }
    ensures distinct { AreDistinct (definition_at sample) }
    ensures lacks { IsTrue (lacks_rundown sample) }
{}

/// Each write is of an event that is defined, and a thread can make it.
pub fn sample_writes_can_be_made()
    ensures defined { (plan : Plan) (thread index : ℕ) → (0 < event_at plan thread index) × (event_at plan thread index ≤ length sample) }
    ensures fits { (plan : Plan) (thread index : ℕ) → IsTrue (fits (nth plan thread index)) }
{}
