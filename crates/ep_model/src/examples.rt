//! What some small schedules amount to, computed by the prover.
ghost use Rattle.std.specs.Prelude.{◌≡◌, true, false, [], ◌∷◌, length, map, replicate, reverse, Some, None};
ghost use Rattle.ep_model.specs.Chunks.{refused};
ghost use Rattle.ep_model.specs.Entries.{entries};
ghost use Rattle.ep_model.specs.Lawful.{IsLawful, first_unlawful};
ghost use Rattle.ep_model.specs.Schedules.{two_levels, one_event, one_event_told, stolen_in_write, named_once, named_once_told, one_frame, one_frame_told, full_chunk, over_chunk, given_late, given_early, stolen_elsewhere, spent, refused_elsewhere, one_refused, numbers_told, came_and_went, came_and_went_told, row_is_freed, refusals, four_keywords, two_sessions, keywords_told};

/// One event is begun, shown, stolen and given back, and the session is closed and finished.
pub fn one_event_is_told_with_a_point()
    ensures lawful { first_unlawful two_levels 1 [] one_event ≡ None }
    ensures told { entries two_levels 1 (reverse one_event) ≡ one_event_told }
{}

/// A Steal may stand between a Begin and its Show.
pub fn a_steal_in_a_write_takes_nothing()
    ensures lawful { first_unlawful two_levels 1 [] stolen_in_write ≡ None }
    ensures told { entries two_levels 1 (reverse stolen_in_write) ≡ one_event_told }
{}

/// A point names a thread until its last number is told.
pub fn the_last_point_names_none()
    ensures lawful { first_unlawful two_levels 1 [] named_once ≡ None }
    ensures told { entries two_levels 1 (reverse named_once) ≡ named_once_told }
{}

/// A stack has eight bytes a frame, and a session without stacks has none.
pub fn stacks_are_told_where_they_are_wanted()
    ensures lawful { first_unlawful two_levels 1 [] (one_frame false) ≡ None }
    ensures wanted { entries two_levels 1 (reverse (one_frame true)) ≡ one_frame_told (0 ∷ 16 ∷ replicate 6 0) }
    ensures unwanted { entries two_levels 1 (reverse (one_frame false)) ≡ one_frame_told [] }
{}

/// A record goes into the last chunk up to its last byte.
pub fn a_chunk_is_filled_to_its_last_byte()
    ensures full { refused 1 1 (reverse full_chunk) ≡ 3 ∷ [] }
    ensures over { refused 1 1 (reverse over_chunk) ≡ 2 ∷ [] }
{}

/// A chunk is held to the first Give after the first Steal of its thread.
pub fn a_chunk_is_free_after_steal_and_give()
    ensures late { refused 1 1 (reverse given_late) ≡ 2 ∷ 3 ∷ [] }
    ensures early { refused 1 1 (reverse given_early) ≡ 2 ∷ [] }
    ensures elsewhere { refused 1 1 (reverse stolen_elsewhere) ≡ 2 ∷ [] }
{}

/// One chunk has room for 963 writes of 68 bytes; the 964th is refused, and the 965th taken after a Steal and a Give.
pub fn a_chunk_holds_963_small_writes()
    ensures lawful { IsLawful two_levels spent }
    ensures refused { refused 1 1 spent ≡ 964 ∷ [] }
{}

/// A hand is full of chunks, and not of refused writes.
pub fn refused_writes_fill_no_hand()
    ensures lawful { first_unlawful two_levels 1 [] refused_elsewhere ≡ None }
    ensures refused { refused 1 2 (reverse refused_elsewhere) ≡ 1 ∷ [] }
{}

/// A refused write uses a number.
pub fn refused_writes_use_numbers()
    ensures lawful { first_unlawful two_levels 1 [] one_refused ≡ None }
    ensures refused { refused 1 1 (reverse one_refused) ≡ 2 ∷ [] }
    ensures told { numbers_told (entries two_levels 1 (reverse one_refused)) ≡ 1 ∷ 3 ∷ [] }
{}

/// A thread comes, writes and leaves, and is closed afterwards.
pub fn a_thread_that_left_is_told()
    ensures lawful { first_unlawful two_levels 1 [] came_and_went ≡ None }
    ensures told { entries two_levels 1 (reverse came_and_went) ≡ came_and_went_told }
{}

/// The row of a thread that left is free once no session is open on the thread.
pub fn a_row_is_free_after_the_last_close()
    ensures freed { first_unlawful two_levels 1 [] row_is_freed ≡ None }
{}

/// The last step of each of these lists is refused, with the first kind that is there.
pub fn kinds_come_in_their_order()
    ensures kinds { map (λ refusal. first_unlawful two_levels 1 [] refusal.1) refusals
        ≡ map (λ refusal. Some (record { step = length refusal.1; kind = refusal.0 })) refusals }
{}

/// Of events with the keywords 0 to 3, a session gets those without keywords and those that share its own, under the
/// numbers 1, 2 and 3.
pub fn sessions_number_their_own_events()
    ensures lawful { first_unlawful four_keywords 1 [] two_sessions ≡ None }
    ensures first { keywords_told (entries four_keywords 1 (reverse two_sessions)) ≡ (0, 1) ∷ (1, 2) ∷ (3, 3) ∷ [] }
    ensures second { keywords_told (entries four_keywords 2 (reverse two_sessions)) ≡ (0, 1) ∷ (2, 2) ∷ (3, 3) ∷ [] }
{}
