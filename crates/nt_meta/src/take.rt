//! A payload that is taken.
ghost use Rattle.std.specs.Prelude.{◌≡◌, IfOk};
ghost use Rattle.nt_meta.specs.Reading.{meta_at};
ghost use Rattle.nt_meta.specs.Taking.{TakesMeta};

use crate::cursor::{Cursor, Stop};
use ep_defs::EventDef;
use std::alloc::{AllocError, Global};

/// What the payload of a metadata blob says.
#[derive(Debug, Drop)]
pub enum TakenMeta {
    /// It defines this event under this id.
    Meta { id: u32, def: EventDef },
    /// It defines none. `at` is where the payload begins, counted from the first of the bytes: 0.
    BadMeta { at: usize },
}

/// Takes a whole payload. Bytes after the fields are passed over.
///
/// It is `BadMeta` where a field or a text is cut, the metadata id is 0 or 2^31 or more, a type code is none of the
/// NetTrace format, or a field stands inside of more than 32 objects.
pub fn take_meta(alloc: Global, bytes: &[u8]) -> Result<TakenMeta, AllocError>
    ensures { IfOk result (TakesMeta (meta_at bytes.now)) }
{
    let mut cursor = Cursor::new(bytes);
    match cursor.meta(alloc) {
        Ok((id, def)) => Ok(TakenMeta::Meta { id, def }),
        Err(Stop::BadMeta) => Ok(TakenMeta::BadMeta { at: 0 }),
        Err(Stop::OutOfMemory) => Err(AllocError),
    }
}
