//! How far each thread has come.
ghost use Rattle.std.specs.Prelude.{◌≡◌, ◌+◌, ◌==◌, ℕ, List, [], ◌∷◌, ◌++◌, Some, IfOk, OnOk, if◌then◌else◌};
ghost use Rattle.ep_defs.specs.Gaps.{Sighting, Seen, Known, distance};
ghost use Rattle.nt_check.specs.state.Ids.{value_at};
ghost use Rattle.pt_events.specs.Lines.{last_of, left_out};
ghost use Rattle.pt_events.specs.state.Known.{HasSeen};

use nt_check::ById;
use std::alloc::{AllocError, Global};

/// The last number that was told of each thread.
#[derive(Drop)]
pub struct Lasts {
    numbers: ById<u32>,
}

impl Lasts {
    /// No threads. It takes no memory.
    pub fn new(alloc: Global) -> Lasts
        ensures { HasSeen [] result }
    {
        Lasts {
            numbers: ById::new(alloc),
        }
    }

    /// An event of a thread has this number: answers how many numbers are left out before it, modulo 2^32.
    pub fn see(&mut self, thread: u64, number: u32) -> Result<u32, AllocError>
        ensures count { (past : List (ℕ × Sighting)) → HasSeen past self.old
            → IfOk result (λ count. count ≡ left_out (last_of thread past) (Seen number)) }
        ensures seen { (past : List (ℕ × Sighting)) → HasSeen past self.old
            → OnOk result (HasSeen (past ++ (thread, Seen number) ∷ []) self.new) }
    {
        let last = self.put(thread, number)?;
        Ok(left_out_before(last, number))
    }

    /// A point knows this last number of a thread: answers how many numbers are left out up to it, modulo 2^32.
    pub fn know(&mut self, thread: u64, number: u32) -> Result<u32, AllocError>
        ensures count { (past : List (ℕ × Sighting)) → HasSeen past self.old
            → IfOk result (λ count. count ≡ left_out (last_of thread past) (Known number)) }
        ensures seen { (past : List (ℕ × Sighting)) → HasSeen past self.old
            → OnOk result (HasSeen (past ++ (thread, Known number) ∷ []) self.new) }
    {
        let last = self.put(thread, number)?;
        Ok(left_out_up_to(last, number))
    }

    // Puts the last number of a thread, and answers the one that was told before, or 0.
    #[inline(always)]
    fn put(&mut self, thread: u64, number: u32) -> Result<u32, AllocError>
        ensures last { (past : List (ℕ × Sighting)) → HasSeen past self.old
            → IfOk result (λ last. last ≡ last_of thread past) }
        ensures put { OnOk result ((other : ℕ) → value_at self.new.numbers other
            ≡ (if thread == other then Some number else value_at self.old.numbers other)) }
    {
        // Nearly all threads have ids that lie close together.
        if self.numbers.is_in_row(thread) {
            let last = *self.numbers.in_row(thread);
            self.numbers.set_in_row(thread, number);
            return Ok(last);
        }
        match self.numbers.replace(thread, number)? {
            Some(last) => Ok(last),
            None => Ok(0),
        }
    }
}

// How many numbers stand between the last one and an event's own.
fn left_out_before(last: u32, number: u32) -> u32
    ensures { result ≡ distance (last + 1) number }
{
    number.wrapping_sub(last.wrapping_add(1))
}

// How many numbers stand after the last one, up to this.
fn left_out_up_to(last: u32, number: u32) -> u32
    ensures { result ≡ distance last number }
{
    number.wrapping_sub(last)
}
