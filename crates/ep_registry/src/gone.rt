//! What all writers leave.
ghost use Rattle.std.specs.Prelude.{◌≡◌, IfSome, is_some, true, false};

use crate::kinds::Kinds;
use std::marker::{Model, PhantomData};

/// What all writers leave, once they have ended. Contracts see whether they have.
#[derive(Drop)]
pub struct Gone<P: Kinds<F, W, E, G>, F, W, E, G> {
    what: Option<G>,
    tag: PhantomData<(P, F, W, E)>,
}

impl<P: Kinds<F, W, E, G>, F, W, E, G> Model for Gone<P, F, W, E, G> {
    ghost use Rattle.std.specs.Prelude.{Bool, IfSome, is_some};

    ghost Value = { Bool };

    ghost view = { λ g. is_some g.what };

    ghost invariant = { λ g. IfSome g.what P.gone };
}

impl<P: Kinds<F, W, E, G>, F, W, E, G: Drop> Gone<P, F, W, E, G> {
    /// Writers go on.
    pub fn new() -> Gone<P, F, W, E, G>
        ensures { result ≡ false }
    {
        Gone {
            what: None,
            tag: PhantomData,
        }
    }

    /// All writers have ended, and leave this.
    pub fn put(&mut self, what: G)
        requires { P.gone what }
        ensures { self.new ≡ true }
    {
        self.what = Some(what);
    }

    /// What they leave, if they have ended.
    pub fn open(self) -> Option<G>
        ensures there { is_some result ≡ self }
        ensures gone { IfSome result P.gone }
    {
        self.what
    }
}
