//! Laws: what the text of a schedule comes to is determined.
ghost use Rattle.std.specs.Prelude.{◌≡◌, ℕ, List};
ghost use Rattle.ep_plan.specs.declared.line.Line.{Line};
ghost use Rattle.pt_replay.specs.declared.errors.Refusal.{Refusal};
ghost use Rattle.pt_replay.specs.Schedule.{IsSchedule, IsRefused};

use ep_plan::a_line_means_one_thing;

/// A text has one outcome at most: it is a schedule of one list of lines, or it is refused in one way.
pub fn a_text_has_one_outcome()
    ensures one_schedule { (bytes : List ℕ) (a b : List Line) → IsSchedule bytes a → IsSchedule bytes b → a ≡ b }
    ensures one_refusal { (bytes : List ℕ) (a b : Refusal) → IsRefused bytes a → IsRefused bytes b → a ≡ b }
    ensures not_both { (bytes : List ℕ) (lines : List Line) (refusal : Refusal) → IsSchedule bytes lines → IsRefused bytes refusal → ⊥ }
{
    a_line_means_one_thing();
}
