//! A chunk of records.
ghost use Rattle.std.specs.Prelude.{◌≡◌, ◌≤◌, ◌+◌, ◌++◌, [], ◌∷◌, IsTrue, ◌↔◌, IsNone, IsSome, IfOk, IfNone, IfSome, if◌then◌else◌};
ghost use Rattle.ep_chunk.specs.Record.{record_of, size_of, total_size};
ghost use Rattle.ep_chunk.specs.Places.{records_at, TellsAt};

use crate::layout::{put_record, record_at};
use crate::limits::{CHUNK_LEN, FRAME_LEN, HEAD_LEN};
use crate::rec::{RecIn, RecOut};
use std::alloc::{AllocError, Global};
use std::marker::Model;

/// Records, one after another in 65,536 reserved bytes.
#[derive(Debug, Drop)]
pub struct Chunk {
    bytes: Vec<u8>,
}

impl Model for Chunk {
    ghost use Rattle.std.specs.Prelude.{List, vec_capacity};
    ghost use Rattle.ep_chunk.specs.Record.{Record};
    ghost use Rattle.ep_chunk.specs.Held.{records_in, IsHeld};

    ghost Value = { List Record };

    ghost view = { λ c. records_in c.bytes.items };

    ghost invariant = { λ c. IsHeld c.bytes.items (vec_capacity c.bytes) };
}

impl Chunk {
    /// A chunk without records. All its bytes are reserved.
    pub fn new(alloc: Global) -> Result<Chunk, AllocError>
        ensures { IfOk result (λ chunk. chunk ≡ []) }
    {
        let bytes = Vec::with_capacity(alloc, CHUNK_LEN)?;
        Ok(Chunk { bytes })
    }

    /// Appends a record. False where it doesn't fit what is left. It takes no memory.
    pub fn append(&mut self, rec: &RecIn) -> bool
        ensures fits { IsTrue result ↔ (total_size self.old + size_of (record_of rec.now) ≤ CHUNK_LEN) }
        ensures records { self.new ≡ (if result then self.old ++ record_of rec.now ∷ [] else self.old) }
    {
        let left = CHUNK_LEN - self.bytes.len();
        if rec.frames.len() > CHUNK_LEN || rec.payload.len() > CHUNK_LEN {
            return false;
        }
        let size = HEAD_LEN + FRAME_LEN * rec.frames.len() + rec.payload.len();
        if size > left {
            return false;
        }
        put_record(&mut self.bytes, rec, size);
        true
    }

    /// How many bytes the records take.
    pub fn used(&self) -> usize
        ensures used { result ≡ total_size self.now }
        ensures within { result ≤ CHUNK_LEN }
    {
        self.bytes.len()
    }

    /// The record at a place, which is 0, the `next` of another record, or `used`. None where it is `used`. Its frames
    /// and payload are the chunk's own bytes.
    pub fn at(&self, place: usize) -> Option<RecOut<'_>>
        requires { IsSome (records_at self.now place) }
        ensures end { IsNone result ↔ (place ≡ total_size self.now) }
        ensures over { IfNone result (records_at self.now place ≡ Some []) }
        ensures told { IfSome result (TellsAt self.now place) }
    {
        let bytes = self.bytes.as_slice();
        if place == bytes.len() {
            return None;
        }
        Some(record_at(&bytes[place..], place))
    }

    /// Leaves no record. The bytes stay reserved.
    pub fn clear(&mut self)
        ensures { self.new ≡ [] }
    {
        self.bytes.clear();
    }
}
