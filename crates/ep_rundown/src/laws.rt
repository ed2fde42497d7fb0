//! Laws: what holds of the definitions alone.
ghost use Rattle.std.specs.Prelude.{◌≡◌, ◌≢◌, ℕ, ◌↔◌, ◌<◌, ◌≤◌, Bool, true, false, List, [], ◌∷◌, ◌++◌, length, Ok, IsTrue, Contains, Any, AllPairs};
ghost use Rattle.ep_defs.specs.Entry.{Entry, PointEntry, Point};
ghost use Rattle.ep_defs.specs.Event.{is_valid_event};
ghost use Rattle.ep_defs.specs.Ranges.{EventFits};
ghost use Rattle.ep_defs.specs.declared.event.EventDef.{EventDef};
ghost use Rattle.nt_meta.specs.Reading.{meta_at};
ghost use Rattle.nt_meta.specs.declared.limits.TheConstants.{LAST_ID};
ghost use Rattle.ep_rundown.specs.Rows.{written, point_at_end, described, event_e_bytes};
ghost use Rattle.ep_rundown.specs.Rundown.{description, Names, used, section, naming, ending, with_section};

/// A description is read back as the id and the definition.
pub fn a_description_is_read_back()
    ensures { (id : ℕ) (def : EventDef) → 0 < id → id ≤ LAST_ID → EventFits def
        → IsTrue (is_valid_event def) → meta_at (description id def) ≡ Ok (id, def) }
{}

/// The definitions that are used are those that events name, each once.
pub fn each_definition_that_is_named_is_used_once()
    ensures named { (entries : List Entry) (def : EventDef)
        → Contains (used entries) def ↔ Any (Names def) entries }
    ensures once { (entries : List Entry) → AllPairs (λ a b. a ≢ b) (used entries) }
{}

/// Where the entries end with a point, the section stands before it, and it names thread 0 first.
pub fn the_section_stands_before_the_last_point()
    ensures asked { (entries : List Entry) (point : PointEntry)
        → with_section true (entries ++ Point point ∷ [])
        ≡ entries ++ section point.stamp entries ++ Point (naming (length (used entries)) point) ∷ [] }
    ensures not_asked { (entries : List Entry) → with_section false entries ≡ entries }
    ensures ending { (rundown : Bool) (entries : List Entry) (point : PointEntry)
        → with_section rundown (entries ++ Point point ∷ []) ≡ entries ++ ending rundown entries point }
{}

/// What small sessions tell with a rundown, worked out by hand: one without events, one with an event, and one with two
/// definitions that are used in turn.
pub fn small_sessions_are_described()
    ensures none { with_section true (point_at_end ((1, 0) ∷ []) ∷ []) ≡ point_at_end ((0, 0) ∷ (1, 0) ∷ []) ∷ [] }
    ensures one { with_section true (written 1 4 ∷ point_at_end ((1, 1) ∷ []) ∷ [])
        ≡ written 1 4 ∷ described 1 (event_e_bytes 1 4) ∷ point_at_end ((0, 1) ∷ (1, 1) ∷ []) ∷ [] }
    ensures in_turn { with_section true (written 1 5 ∷ written 2 4 ∷ written 3 5 ∷ point_at_end ((1, 3) ∷ []) ∷ [])
        ≡ written 1 5 ∷ written 2 4 ∷ written 3 5 ∷ described 1 (event_e_bytes 1 5) ∷ described 2 (event_e_bytes 2 4)
        ∷ point_at_end ((0, 2) ∷ (1, 3) ∷ []) ∷ [] }
{}
