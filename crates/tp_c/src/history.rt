//! What was pulled, which proofs alone know: it takes no memory.
ghost use Rattle.std.specs.Prelude.{◌≡◌, ℕ, ◌++◌, List, []};
ghost use Rattle.std.specs.Borrow.{ftrue};

use std::marker::Model;

/// The bytes that were pulled so far, for contracts. It holds nothing.
#[derive(Drop)]
pub struct History {
    pub ghost bytes: { List ℕ },
}

impl Model for History {
    ghost also_owns = { λ _. ftrue };
}

impl History {
    /// Nothing was pulled.
    pub fn new() -> History
        ensures { result.bytes ≡ [] }
    {
        History {}
    }

    /// The history with one pull more.
    pub fn with(_before: &History, _pulled: &[u8]) -> History
        ensures { result.bytes ≡ _before.now.bytes ++ _pulled.now }
    {
        History {}
    }
}
