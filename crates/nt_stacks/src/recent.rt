//! Stacks that were asked for lately.
ghost use Rattle.std.specs.Prelude.{◌≡◌, ◌<◌, List, ℕ, [], IfSome, IsTrue, Some};
ghost use Rattle.nt_stacks.specs.Interning.{id_at, AreKnown};

use crate::limits::{PLACE_SPREAD, PLACES, WORD_BYTES};
use byteorder::{ByteOrder, LittleEndian};
use std::alloc::{AllocError, Global};
use std::marker::Model;

/// A stack and its id, or the id 0 for none.
#[derive(Drop)]
struct Kept {
    bytes: Vec<u8>,
    id: u32,
}

impl Model for Kept {
    ghost use Rattle.std.specs.Prelude.{List, ℕ};

    ghost Value = { List ℕ × ℕ };

    ghost view = { λ kept. (kept.bytes.items, kept.id) };
}

/// Some of the stacks of a map, each in the place that its bytes choose, so that one is found without the map. Where two
/// stacks choose one place, it has the one that was asked for last.
#[derive(Drop)]
pub struct Recent {
    places: Vec<Kept>,
}

impl Model for Recent {
    ghost use Rattle.std.specs.Prelude.{List, ℕ};

    ghost Value = { List (List ℕ × ℕ) };

    ghost view = { λ recent. recent.places.items };
}

impl Recent {
    /// No stacks. It takes no memory.
    pub fn new(alloc: Global) -> Recent
        ensures { result ≡ [] }
    {
        Recent {
            places: Vec::new(alloc),
        }
    }

    /// The id of the stack with these bytes, if it is here.
    pub fn find(&self, bytes: &[u8]) -> Option<u32>
        ensures { (entries : List (List ℕ × ℕ)) → AreKnown entries self.now
            → IfSome result (λ id. id_at bytes.now entries ≡ Some id) }
    {
        let place = place_of(bytes);
        if place >= self.places.len() {
            return None;
        }
        let kept = &self.places[place];
        if kept.id > 0 && is_same(&kept.bytes, bytes) {
            Some(kept.id)
        } else {
            None
        }
    }

    /// Keeps a stack with its id. Out of memory, it keeps nothing in its place.
    pub fn keep(&mut self, alloc: Global, bytes: &[u8], id: u32)
        ensures { (entries : List (List ℕ × ℕ)) → AreKnown entries self.old
            → id_at bytes.now entries ≡ Some id → AreKnown entries self.new }
    {
        if self.places.is_empty() && make_places(alloc, &mut self.places).is_err() {
            return;
        }
        let place = place_of(bytes);
        if place < self.places.len() {
            refill(&mut self.places[place], bytes, id);
        }
    }

    /// Forgets all stacks.
    pub fn clear(&mut self)
        ensures { self.new ≡ [] }
    {
        self.places.clear();
    }
}

// Makes the places, in each of which is none. Out of memory, there are fewer.
fn make_places(alloc: Global, places: &mut Vec<Kept>) -> Result<(), AllocError>
    requires { places.old.items ≡ [] }
    ensures { (entries : List (List ℕ × ℕ)) → AreKnown entries places.new.items }
{
    for _ in 0..PLACES {
        places.push(Kept {
            bytes: Vec::new(alloc),
            id: 0,
        })?;
    }
    Ok(())
}

// Puts a stack in a place. Out of memory, it puts none there.
fn refill(kept: &mut Kept, bytes: &[u8], id: u32)
    ensures { 0 < kept.new.1 → kept.new ≡ (bytes.now, id) }
{
    kept.bytes.clear();
    kept.id = match kept.bytes.extend_from_slice(bytes) {
        Ok(()) => id,
        Err(AllocError) => 0,
    };
}

// Whether two stacks are the same. Frame by frame, as most have a few.
#[inline(always)]
fn is_same(kept: &[u8], bytes: &[u8]) -> bool
    ensures { IsTrue result → kept.now ≡ bytes.now }
{
    if kept.len() != bytes.len() {
        return false;
    }
    let mut at = 0;
    while bytes.len() - at >= WORD_BYTES {
        if LittleEndian::read_u64(&kept[at..]) != LittleEndian::read_u64(&bytes[at..]) {
            return false;
        }
        at += WORD_BYTES;
    }
    at == bytes.len() || kept[at..] == bytes[at..]
}

// The place of a stack, by its first and its last frame.
fn place_of(bytes: &[u8]) -> usize
    ensures { result < PLACES }
{
    if bytes.len() < WORD_BYTES {
        return 0;
    }
    let first = LittleEndian::read_u64(bytes);
    let last = LittleEndian::read_u64(&bytes[bytes.len() - WORD_BYTES..]);
    let mixed = (first ^ last.rotate_left(32)).wrapping_mul(PLACE_SPREAD);
    ((mixed >> 32) % PLACES as u64) as usize
}
