//! What a small run amounts to, computed by the prover.
ghost use Rattle.std.specs.Prelude.{◌≡◌, [], ◌∷◌, map};
ghost use Rattle.ep_defs.specs.Samples.{config_p};
ghost use Rattle.ep_model.specs.Schedules.{two_levels};
ghost use Rattle.ep_rundown.specs.Rundown.{with_section};
ghost use Rattle.ep_stream.specs.Telling.{IsFront};
ghost use Rattle.ep_live_laws.specs.Traced.{AreMarks, ArePart, AreTraced, refused_by};
ghost use Rattle.ep_live_laws.specs.TwoThreads.{two_threads, two_marks, two_told, two_lost, two_begun, two_swapped, with_rundown, two_described, two_cut};

/// Of two threads what one session got is told with its numbers, less a write whose number is missing and which counts
/// as refused. Without one of the events it is not.
pub fn two_threads_are_traced()
    ensures marks { AreMarks two_levels (config_p 1) two_threads (1 ∷ 2 ∷ []) two_marks }
    ensures refused { map (refused_by two_levels (config_p 1) two_threads two_told) two_marks ≡ (2 ∷ []) ∷ [] ∷ [] }
    ensures traced { AreTraced two_levels (config_p 1) two_threads two_marks two_told }
    ensures lost { AreTraced two_levels (config_p 1) two_threads two_marks two_lost → ⊥ }
{}

/// What a stream begins with is a part of what the threads wrote, unless it stands in another order.
pub fn a_part_of_two_threads_is_traced()
    ensures part { ArePart two_levels (config_p 1) two_threads two_marks two_begun }
    ensures swapped { ArePart two_levels (config_p 1) two_threads two_marks two_swapped → ⊥ }
{}

/// With a rundown the same is told, and before the last point, which names thread 0 first, the one definition that the
/// events name is described. A stream that breaks off behind that has what is told first.
pub fn two_threads_are_described()
    ensures told { with_section with_rundown.rundown two_told ≡ two_described }
    ensures traced { AreTraced two_levels with_rundown two_threads two_marks two_told }
    ensures cut { IsFront two_cut (with_section with_rundown.rundown two_told) }
{}
