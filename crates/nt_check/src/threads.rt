//! The numbers of each thread.
ghost use Rattle.std.specs.Prelude.{◌≡◌, ℕ, Some, None, IsSome, is_some, not, ◌==◌, IfOk, OnOk, OnErr, if◌then◌else◌};
ghost use Rattle.ep_defs.specs.Gaps.{Seen, Known};
ghost use Rattle.nt_blocks.specs.Seen.{seen_in};
ghost use Rattle.nt_check.specs.state.Ids.{value_at};
ghost use Rattle.nt_check.specs.state.Counting.{numbers_in, after, after_all, point_sightings, HasRoom, HasRooms};

use crate::by_id::ById;
use ep_defs::ItemKind;
use std::alloc::{AllocError, Global};

/// What the items of a stream tell of a thread.
#[derive(Clone, Copy, Debug, PartialEq, Eq)]
pub struct Numbers {
    /// How many events have it as their capture thread, held at `MOST_COUNTED`.
    pub events: u64,
    /// The number that stands last, of an event or in a point.
    pub last: u32,
    /// How many numbers are left out, each time counted modulo 2 ^ 32, held at `MOST_COUNTED`.
    pub gaps: u64,
}

/// The numbers of each thread that was seen. A thread may have room, and not have been seen yet.
#[derive(Drop)]
pub struct Threads {
    numbers: ById<Option<Numbers>>,
}

impl Threads {
    /// No threads.
    pub fn new(alloc: Global) -> Threads
        ensures { (thread : ℕ) → numbers_in result thread ≡ None }
    {
        Threads {
            numbers: ById::new(alloc),
        }
    }

    /// The numbers of a thread, if it was seen.
    pub fn numbers(&self, thread: u64) -> Option<Numbers>
        ensures { result ≡ numbers_in self.now thread }
    {
        match self.numbers.get(thread) {
            Some(numbers) => *numbers,
            None => None,
        }
    }

    /// Makes room for the threads that an item speaks of. It changes no thread's numbers, also where it is out of
    /// memory.
    pub fn make_room(&mut self, kind: &ItemKind) -> Result<(), AllocError>
        ensures same { (thread : ℕ) → numbers_in self.new thread ≡ numbers_in self.old thread }
        ensures room { OnOk result (HasRoom kind.now self.new) }
    {
        match kind {
            ItemKind::Event { capture, .. } => self.make_one_room(*capture),
            ItemKind::Point { threads, .. } => self.make_rooms(threads.as_slice()),
            _ => Ok(()),
        }
    }

    fn make_one_room(&mut self, thread: u64) -> Result<(), AllocError>
        ensures same { (other : ℕ) → numbers_in self.new other ≡ numbers_in self.old other }
        ensures kept { (other : ℕ) → IsSome (value_at self.old.numbers other)
            → IsSome (value_at self.new.numbers other) }
        ensures room { OnOk result (IsSome (value_at self.new.numbers thread)) }
    {
        if self.numbers.get(thread).is_some() {
            return Ok(());
        }
        self.numbers.insert(thread, None)?;
        Ok(())
    }

    fn make_rooms(&mut self, threads: &[(u64, u32)]) -> Result<(), AllocError>
        ensures same { (other : ℕ) → numbers_in self.new other ≡ numbers_in self.old other }
        ensures room { OnOk result (HasRooms threads.now self.new) }
    {
        for (thread, _) in threads {
            self.make_one_room(*thread)?;
        }
        Ok(())
    }

    /// Counts an event of a thread. Answers whether it is the first that is said of the thread. Out of memory, no
    /// thread's numbers change.
    #[inline(always)]
    pub fn count_event(&mut self, thread: u64, number: u32) -> Result<bool, AllocError>
        ensures ok { OnOk result ((other : ℕ) → numbers_in self.new other
            ≡ (if thread == other then after (numbers_in self.old thread) (Seen number) else numbers_in self.old other)) }
        ensures first { IfOk result (λ first. first ≡ not (is_some (numbers_in self.old thread))) }
        ensures err { OnErr result ((other : ℕ) → numbers_in self.new other ≡ numbers_in self.old other) }
    {
        if self.numbers.is_in_row(thread) {
            if let Some(before) = *self.numbers.in_row(thread) {
                self.numbers
                    .set_in_row(thread, Some(one_more(before, number)));
                return Ok(false);
            }
        } else if let Some(place) = self.numbers.other_at_once(thread) {
            if let Some(before) = *self.numbers.other(place) {
                let _ = self
                    .numbers
                    .replace_other(place, Some(one_more(before, number)));
                return Ok(false);
            }
        }
        self.count_elsewhere(thread, number)
    }

    // The same for a thread that stands elsewhere, or was not seen.
    #[inline(never)]
    fn count_elsewhere(&mut self, thread: u64, number: u32) -> Result<bool, AllocError>
        ensures ok { OnOk result ((other : ℕ) → numbers_in self.new other
            ≡ (if thread == other then after (numbers_in self.old thread) (Seen number) else numbers_in self.old other)) }
        ensures first { IfOk result (λ first. first ≡ not (is_some (numbers_in self.old thread))) }
        ensures err { OnErr result ((other : ℕ) → numbers_in self.new other ≡ numbers_in self.old other) }
    {
        if self.numbers.is_in_row(thread) {
            let before = *self.numbers.in_row(thread);
            self.numbers
                .set_in_row(thread, Some(after_event(before, number)));
            return Ok(before.is_none());
        }
        if let Some(place) = self.numbers.find_other(thread) {
            let before = *self.numbers.other(place);
            let _ = self
                .numbers
                .replace_other(place, Some(after_event(before, number)));
            return Ok(before.is_none());
        }
        self.numbers
            .insert(thread, Some(after_event(None, number)))?;
        Ok(true)
    }

    /// Counts what an item says of its threads, for which there is room. It takes no memory.
    pub fn see(&mut self, kind: &ItemKind)
        requires { HasRoom kind.now self.old }
        ensures { (thread : ℕ)
            → numbers_in self.new thread ≡ after_all (numbers_in self.old thread) (seen_in thread kind.now) }
    {
        match kind {
            ItemKind::Event {
                capture,
                number,
                ..
            } => self.see_event(*capture, *number),
            ItemKind::Point { threads, .. } => self.see_point(threads.as_slice()),
            _ => {}
        }
    }

    fn see_event(&mut self, thread: u64, number: u32)
        requires { IsSome (value_at self.old.numbers thread) }
        ensures { (other : ℕ) → value_at self.new.numbers other
            ≡ (if thread == other then Some (after (numbers_in self.old thread) (Seen number)) else value_at self.old.numbers other) }
    {
        match self.numbers.get(thread) {
            Some(numbers) => {
                let after = after_event(*numbers, number);
                self.numbers.set(thread, Some(after));
            }
            None => unreachable!(),
        }
    }

    fn see_known(&mut self, thread: u64, number: u32)
        requires { IsSome (value_at self.old.numbers thread) }
        ensures { (other : ℕ) → value_at self.new.numbers other
            ≡ (if thread == other then Some (after (numbers_in self.old thread) (Known number)) else value_at self.old.numbers other) }
    {
        match self.numbers.get(thread) {
            Some(numbers) => {
                let after = after_known(*numbers, number);
                self.numbers.set(thread, Some(after));
            }
            None => unreachable!(),
        }
    }

    fn see_point(&mut self, threads: &[(u64, u32)])
        requires { HasRooms threads.now self.old }
        ensures { (thread : ℕ)
            → numbers_in self.new thread ≡ after_all (numbers_in self.old thread) (point_sightings thread threads.now) }
    {
        for (thread, number) in threads {
            self.see_known(*thread, *number);
        }
    }
}

// The numbers of a thread before anything is told of it.
const NOTHING: Numbers = Numbers {
    events: 0,
    last: 0,
    gaps: 0,
};

// One event more.
fn after_event(numbers: Option<Numbers>, number: u32) -> Numbers
    ensures { Some result ≡ after numbers (Seen number) }
{
    one_more(numbers.unwrap_or(NOTHING), number)
}

#[inline(always)]
fn one_more(before: Numbers, number: u32) -> Numbers
    ensures { Some result ≡ after (Some before) (Seen number) }
{
    let gap = number.wrapping_sub(before.last.wrapping_add(1));
    Numbers {
        events: before.events.saturating_add(1),
        last: number,
        gaps: before.gaps.saturating_add(u64::from(gap)),
    }
}

// A number more that a point knows of.
fn after_known(numbers: Option<Numbers>, number: u32) -> Numbers
    ensures { Some result ≡ after numbers (Known number) }
{
    let before = numbers.unwrap_or(NOTHING);
    let gap = number.wrapping_sub(before.last);
    Numbers {
        events: before.events,
        last: number,
        gaps: before.gaps.saturating_add(u64::from(gap)),
    }
}
