//! What C holds of a recorder between its calls.
ghost use Rattle.std.specs.Prelude.{◌≡◌, true, false};

mod parts;
mod vault;

use crate::recorder::Recorder;
use parts::Parts;
use std::alloc::Global;
use std::mem;
use vault::Vault;

/// What C holds. All zeros are a handle that is not live.
#[repr(C)]
#[derive(Drop)]
pub struct Handle {
    pub vault: Vault,
    /// Whether it holds a recorder.
    pub live: bool,
    ghost agrees: { vault.full ≡ live },
}

impl Handle {
    /// A handle that is not live, as C makes one by zeros.
    #[cfg(test)]
    pub fn new(alloc: Global) -> Handle
        ensures { result.live ≡ false }
    {
        Handle {
            vault: Vault::empty(alloc),
            live: false,
        }
    }

    /// The recorder that a live handle holds, which is not live then.
    pub fn open(&mut self, alloc: Global) -> Box<Recorder>
        requires { self.old.live ≡ true }
        ensures recorder { result.value ≡ self.old.vault.value }
        ensures live { self.new.live ≡ false }
    {
        let vault = mem::replace(&mut self.vault, Vault::empty(alloc));
        self.live = false;
        vault.into_parts().into_box()
    }

    /// Puts a recorder into a handle, which is live then.
    pub fn shut(&mut self, recorder: Box<Recorder>)
        ensures recorder { self.new.vault.value ≡ recorder.value }
        ensures live { self.new.live ≡ true }
    {
        self.vault = Vault::of_parts(Parts::of(recorder));
        self.live = true;
    }
}
