//! A recorder on the heap as C keeps it: a pointer of which C knows nothing.
ghost use Rattle.std.specs.Prelude.{◌≡◌, Bool, true, false};
ghost use Rattle.tp_c.specs.declared.recorder.Recorder.{Recorder};
ghost use Rattle.tp_c.specs.Owning.{vault_owns, recorder_coded};

use super::parts::Parts;
use crate::recorder::Recorder;
use std::alloc::Global;
use std::marker::Model;
use std::ptr::null_mut;

/// A recorder on the heap, or nothing.
#[repr(C)]
#[derive(Drop)]
pub struct Vault {
    at: *mut u8,
    alloc: Global,
    pub ghost full: { Bool },
    pub ghost value: { Recorder } by { recorder_coded },
}

impl Model for Vault {
    ghost also_owns = { λ v. vault_owns v.full v.alloc v.at v.value };
}

impl Vault {
    /// Nothing.
    pub fn empty(alloc: Global) -> Vault
        ensures { result.full ≡ false }
    {
        Vault {
            at: null_mut(),
            alloc,
        }
    }

    /// The recorder that the parts own.
    pub fn of_parts(parts: Parts<Recorder, Global>) -> Vault
        ensures { (result.full ≡ true) × (result.value ≡ parts.value) }
    {
        let Parts { ptr, alloc } = parts;
        let at = ptr as *mut u8;
        Vault { at, alloc }
    }

    /// The parts that own the recorder.
    pub fn into_parts(self) -> Parts<Recorder, Global>
        requires { self.full ≡ true }
        ensures { result.value ≡ self.value }
    {
        let Vault { at, alloc } = self;
        let ptr = at as *mut Recorder;
        Parts { ptr, alloc }
    }
}
