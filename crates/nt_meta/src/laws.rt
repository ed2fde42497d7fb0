//! Laws: what holds of the definitions alone.
ghost use Rattle.std.specs.Prelude.{◌≡◌, ℕ, List, Ok};
ghost use Rattle.ep_defs.specs.declared.event.EventDef.{EventDef};
ghost use Rattle.ep_defs.specs.Ranges.{AreBytes};
ghost use Rattle.nt_meta.specs.Meta.{IsMeta};
ghost use Rattle.nt_meta.specs.Reading.{meta_at};

/// Bytes in which a definition stands under an id are a payload of it.
pub fn what_is_read_is_a_payload()
    ensures { (bytes : List ℕ) (id : ℕ) (def : EventDef) → AreBytes bytes
        → meta_at bytes ≡ Ok (id, def) → IsMeta id def bytes }
{}

/// A payload of a definition under an id is read back as both.
pub fn a_payload_is_read_back()
    ensures { (bytes : List ℕ) (id : ℕ) (def : EventDef) → IsMeta id def bytes
        → meta_at bytes ≡ Ok (id, def) }
{}
