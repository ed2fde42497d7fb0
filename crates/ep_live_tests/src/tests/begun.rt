//! What the runs of the tests begin with.
ghost use Rattle.std.specs.Prelude.{◌≡◌, ◌<◌, IfOk, IsTrue, length, vec_len};
ghost use Rattle.ep_defs.specs.Session as valid;
ghost use Rattle.ep_live.specs.Made.{AreStands, AreHandTies, IsHandTie, IsStand};
ghost use Rattle.ep_live_tests.specs.Begun.{IsGranted};

use super::threads::Thread;
use ep_defs::{Config, EventDef, Items, Rule, Units, Write};
use ep_guarded::{Agreed, Grant, Program};
use ep_live::{Free, free_slots, place};
use ep_pool::{Pool, PoolSeat};
use ep_shelf::Shelf;
use ep_tie::Right;
use std::alloc::{AllocError, Global};
use std::marker::Model;
use std::sync::Wait;

fn text(alloc: Global, unit: u16) -> Result<Units, AllocError> {
    Ok(Items::new(Vec::from_array(alloc, [unit])?))
}

/// The program's event: E of the provider P.
fn event(alloc: Global) -> Result<EventDef, AllocError> {
    Ok(EventDef {
        provider: text(alloc, 0x50)?,
        id: 1,
        version: 0,
        level: 4,
        keywords: 1,
        name: text(alloc, 0x45)?,
        fields: Items::new(Vec::new(alloc)),
    })
}

/// The program's events, of which there is one.
pub(super) fn events(alloc: Global) -> Result<Vec<EventDef>, AllocError>
    ensures { IfOk result (λ events. length events.items ≡ 1) }
{
    Ok(Vec::from_array(alloc, [event(alloc)?])?)
}

/// What the threads write.
pub(super) fn write(alloc: Global) -> Write
    ensures event { result.event ≡ 1 }
    ensures fits { IsTrue (valid.fits result) }
{
    Write {
        event: 1,
        activity: [0; 16],
        related: [0; 16],
        frames: Items::new(Vec::new(alloc)),
        payload: Items::new(Vec::new(alloc)),
    }
}

// A session that gets all events of the provider P, with so many chunks.
fn config(alloc: Global, chunks: u32) -> Result<Config, AllocError>
    ensures { IfOk result (λ config. config.chunks ≡ chunks) }
{
    let rule = Rule {
        name: text(alloc, 0x50)?,
        keywords: 1,
        level: 5,
    };
    Ok(Config {
        rules: Items::new(Vec::from_array(alloc, [rule])?),
        chunks,
        stackwalk: false,
        rundown: false,
    })
}

/// What a session is granted, and the first seat of its pool.
#[derive(Drop)]
pub(super) struct Granted<'a> {
    pub(super) grant: &'a Grant,
    pub(super) seat: PoolSeat,
}

/// What a session of so many chunks is granted, on the shelf.
pub(super) fn placed_grant<'a, R: Wait>(
    rt: &R,
    alloc: Global,
    grants: &'a Shelf<Grant>,
    events: &[EventDef],
    chunks: u32,
) -> Result<Granted<'a>, AllocError>
    requires some { 0 < chunks }
    ensures { IfOk result (λ made. IsGranted events.now made.grant.now made.seat) }
{
    let (pool, seat) = Pool::new(rt, alloc, chunks, 3)?;
    let grant = Grant::new(alloc, config(alloc, chunks)?, pool, events)?;
    match place(rt, grants, grant) {
        Ok(grant) => Ok(Granted { grant, seat }),
        Err(_back) => Err(AllocError),
    }
}

/// The halves that a run of two rows begins with: those of the threads, by row, and those of the hands that are to come, by
/// the number of the buffer.
#[derive(Drop)]
pub(super) struct Halves<'a, P: Program> {
    pub(super) threads: Vec<Right<P, Agreed<'a>>>,
    pub(super) hands: Vec<Right<P, Agreed<'a>>>,
}

impl<'a, P: Program> Model for Halves<'a, P> {
    ghost use Rattle.std.specs.Prelude.{ℕ, length};
    ghost use Rattle.ep_live_tests.specs.Begun.{AreHalves};

    ghost Value = { ℕ };

    ghost view = { λ h. length h.threads.items };

    ghost invariant = { λ h. AreHalves P.rows h.threads.items h.hands.items };
}

/// The threads of both rows.
pub(super) fn threads_of<'a, P: Program>(
    alloc: Global,
    halves: Vec<Right<P, Agreed<'a>>>,
) -> (Thread<'a, P>, Thread<'a, P>)
    requires two { P.rows ≡ 2 }
    requires count { vec_len halves ≡ 2 }
    requires stands { AreStands 0 halves.items }
{
    let (first, second) = halves_of_two(halves);
    (Thread::new(alloc, 0, first), Thread::new(alloc, 1, second))
}

// Their halves.
fn halves_of_two<'a, P: Program>(
    halves: Vec<Right<P, Agreed<'a>>>,
) -> (Right<P, Agreed<'a>>, Right<P, Agreed<'a>>)
    requires count { vec_len halves ≡ 2 }
    requires stands { AreStands 0 halves.items }
    ensures { IsStand 0 0 result.0 × IsStand 0 1 result.1 }
{
    let mut halves = halves;
    let second = halves.swap_remove(1);
    (halves.swap_remove(0), second)
}

/// The halves of the hands of two buffers, by the buffers' numbers.
pub(super) fn hands_of<'a, P: Program>(
    hands: Vec<Right<P, Agreed<'a>>>,
    low: usize,
    high: usize,
) -> (Right<P, Agreed<'a>>, Right<P, Agreed<'a>>)
    requires hands { AreHandTies P.rows hands.items }
    requires many { vec_len hands ≡ 128 }
    requires ordered { low < high }
    requires within { high < 128 }
    ensures { IsHandTie P.rows low result.0 × IsHandTie P.rows high result.1 }
{
    let mut hands = hands;
    let second = hands.swap_remove(high);
    (hands.swap_remove(low), second)
}

/// Slot 3 of both rows.
pub(super) fn third_slot<'a, P: Program>(
    alloc: Global,
    hands: Vec<Right<P, Agreed<'a>>>,
) -> Result<Free<'a, P>, AllocError>
    requires two { P.rows ≡ 2 }
    requires hands { AreHandTies P.rows hands.items }
    requires many { vec_len hands ≡ 128 }
    ensures { IfOk result (λ free. free ≡ 3) }
{
    let mut slots = free_slots(alloc, hands)?;
    Ok(slots.swap_remove(3))
}
