//! What a writer takes chunks from, and who reads gives them back to.
ghost use Rattle.std.specs.Prelude.{◌≡◌, ℕ, [], ◌∷◌, length, IfNone, IfSome};

use ep_chunk::Chain;

/// A pool's chunks, as one user of the pool sees them.
pub trait Purse {
    // How many chunks the pool has, free ones and others.
    ghost total: { Self → ℕ };

    // Whether one more chunk can be counted as taken.
    ghost can_take: { Self → Type 0 };

    // Whether this many chunks can be counted as given back.
    ghost can_give: { Self → ℕ → Type 0 };

    // What a take makes of the purse that got a chunk.
    ghost got: { Self → Self → Type 0 };

    // What a take makes of the purse that found its pool dry, with no chunk that is free.
    ghost dry: { Self → Self → Type 0 };

    /// A chain of one empty chunk. None exactly where the pool was found dry. It takes no memory.
    fn take(&mut self) -> Option<Chain>
        requires { can_take self.old }
        ensures one { IfSome result (λ chain. chain ≡ [] ∷ []) }
        ensures got { IfSome result (λ _. got self.old self.new) }
        ensures dry { IfNone result (dry self.old self.new) };

    /// Gives the chunks of a chain back. It takes no memory.
    fn give(&mut self, chain: Chain)
        requires { can_give self.old (length chain) }
        ensures { total self.new ≡ total self.old };

    /// How many chunks the pool has, free ones and others.
    fn total(&self) -> u32
        ensures { result ≡ total self.now };

    // No take does both.
    ghost got_is_not_dry: { (old new : Self) → got old new → dry old new → ⊥ };
}
