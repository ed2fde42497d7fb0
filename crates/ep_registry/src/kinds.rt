//! What a registry keeps for its users.

/// What a registry keeps beside what it knows: at each free slot an `F`, with each session that waits for its role a `W`,
/// of each session that has ended an `E`, and of the writers, once all have ended, a `G`. The registry looks into none
/// of them. An implementor says which of them may stand where.
pub trait Kinds<F, W, E, G> {
    ghost use Rattle.std.specs.Prelude.{ℕ};
    ghost use Rattle.ep_registry.specs.declared.hold.Hold.{Hold};

    // What is there of a free slot, by its number.
    ghost free: { ℕ → F → Type 0 };

    // What waits with a session.
    ghost fits: { Hold → W → Type 0 };

    // What is left of a session, by what was known of it in the end.
    ghost over: { Hold → E → Type 0 };

    // What all writers leave.
    ghost gone: { G → Type 0 };
}
