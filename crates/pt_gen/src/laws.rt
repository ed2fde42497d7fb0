//! What holds of the whole schedule, whatever the seed. It is proved, and does nothing.
ghost use Rattle.std.specs.Prelude.{◌≡◌, ℕ, ◌≤◌, true, List, ◌∷◌, ◌++◌, ◌+◌, ◌*◌, length, reverse, None};
ghost use Rattle.ep_defs.specs.declared.limits.TheConstants.{SCHEDULE_WRITES};
ghost use Rattle.ep_model.specs.declared.step.Step.{Step};
ghost use Rattle.ep_model.specs.History.{Past, is_finished, opened};
ghost use Rattle.ep_model.specs.Lawful.{IsLawful, objection_to};
ghost use Rattle.pt_load.specs.Sample.{sample};
ghost use Rattle.pt_gen.specs.declared.limits.TheConstants.{NARROW, WIDE};
ghost use Rattle.pt_gen.specs.Schedule.{generated, threads};

use ep_model::laws::a_budget_can_be_counted;

/// Each step of the schedule can be made after those before it, as long as there are no more rounds than a schedule can
/// have writes; and both sessions are finished in the end, and were opened on all threads and on no other.
pub fn a_schedule_can_be_made()
    ensures lawful { (seed rounds : ℕ) → rounds ≤ SCHEDULE_WRITES
        → IsLawful sample (reverse (generated seed rounds)) }
    ensures made { (seed rounds : ℕ) (past : Past) (step : Step) (later : List Step)
        → rounds ≤ SCHEDULE_WRITES → generated seed rounds ≡ reverse past ++ step ∷ later
        → objection_to sample past step ≡ None }
    ensures wide { (seed rounds : ℕ) → rounds ≤ SCHEDULE_WRITES
        → is_finished WIDE (reverse (generated seed rounds)) ≡ true }
    ensures narrow { (seed rounds : ℕ) → rounds ≤ SCHEDULE_WRITES
        → is_finished NARROW (reverse (generated seed rounds)) ≡ true }
    ensures wide_opened { (seed rounds : ℕ) → rounds ≤ SCHEDULE_WRITES
        → opened WIDE (reverse (generated seed rounds)) ≡ threads }
    ensures narrow_opened { (seed rounds : ℕ) → rounds ≤ SCHEDULE_WRITES
        → opened NARROW (reverse (generated seed rounds)) ≡ threads }
    // There are ten steps before the rounds, 22 at most in each, and 18 after them.
    ensures short { (seed rounds : ℕ) → length (generated seed rounds) ≤ 28 + 22 * rounds }
{
    a_budget_can_be_counted();
}
