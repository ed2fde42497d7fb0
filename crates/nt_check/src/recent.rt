//! Where ids that were put in or asked for lately have their places.

use std::alloc::Global;

// How many slots there are at first.
const FEWEST: usize = 64;

// How many slots there are for each id at least, as long as memory allows, so that few ids share one.
const FOR_EACH: usize = 4;

// Spreads ids over slots: 2 ^ 64 by the golden ratio, as an odd number.
const SPREAD: u64 = 0x9e37_79b9_7f4a_7c15;

/// A guess for each id of the place where its value stands. Each id has one slot, and where ids share it, it has the
/// place of the one that was kept last: so whoever asks looks whether the id stands there, and no choice of ids costs
/// more than this look.
#[derive(Drop)]
pub struct Recent {
    slots: Vec<usize>,
    // How far the spread bits of an id are shifted to make its slot.
    shift: u32,
}

impl Recent {
    /// No slots. It takes no memory.
    pub fn new(alloc: Global) -> Recent {
        Recent {
            slots: Vec::new(alloc),
            shift: 0,
        }
    }

    #[inline(always)]
    fn slot_of(&self, id: u64) -> usize {
        id.wrapping_mul(SPREAD).wrapping_shr(self.shift) as usize
    }

    /// The place where an id may stand.
    #[inline(always)]
    pub fn guess(&self, id: u64) -> usize {
        let slot = self.slot_of(id);
        if slot < self.slots.len() {
            self.slots[slot]
        } else {
            0
        }
    }

    /// Keeps the place of an id.
    pub fn keep(&mut self, id: u64, place: usize) {
        let slot = self.slot_of(id);
        if slot < self.slots.len() {
            self.slots[slot] = place;
        }
    }

    /// Whether there are too few slots for so many ids.
    pub fn is_small(&self, ids: usize) -> bool {
        self.slots.len() / FOR_EACH < ids
    }

    /// Makes twice as many slots, so that what was kept is no longer found. Out of memory, it makes fewer.
    pub fn grow(&mut self) {
        let more = self.slots.len().max(FEWEST);
        for _ in 0..more {
            if self.slots.push(0).is_err() {
                break;
            }
        }
        self.shift = self.slots.len().leading_zeros() + 1;
    }
}
