//! Bits by number.
ghost use Rattle.std.specs.Prelude.{◌≡◌, ◌<◌, ℕ, ◌==◌, if◌then◌else◌};
ghost use Rattle.std.specs.Int.{bit_at};
ghost use Rattle.ep_row.specs.Bits.{one_if};

use ep_defs::limits::SESSIONS;

// The mask with one bit set or cleared.
pub(crate) fn with_bit(mask: u64, slot: u32, on: bool) -> u64
    requires { slot < SESSIONS }
    ensures { (s : ℕ) → s < SESSIONS → bit_at result s ≡ (if s == slot then one_if on else bit_at mask s) }
{
    if on {
        mask | (1 << slot)
    } else {
        mask & !(1 << slot)
    }
}
