//! The stacks since the last point.
ghost use Rattle.std.specs.Prelude.{◌≡◌, ◌⊎◌, ℕ, ◌+◌, ◌<◌, ◌≤◌, ◌++◌, ◌↔◌, ◌==◌, List, [], ◌∷◌, length, nat_lt, false, IsTrue, IfOk, OnOk, OnErr, if◌then◌else◌};
ghost use Rattle.nt_blocks.specs.declared.limits.TheConstants.{LAST_COUNT, WRITTEN_BYTES};
ghost use Rattle.nt_blocks.specs.Bodies.{stack_body};
ghost use Rattle.nt_stacks.specs.Stacks.{stack_id, with_stack};
ghost use Rattle.nt_write.specs.declared.limits.TheConstants.{FRAMED_EVENTS, SIZE_BYTES};
ghost use Rattle.nt_write.specs.Value.{no_stacks, framed_with, AreFew};

use crate::limits::{FRAMED_EVENTS, SIZE_BYTES, STACKS_BYTES};
use ep_defs::{Bytes, Items};
use nt_blocks::limits::WRITTEN_BYTES;
use nt_blocks::put_stacks;
use nt_stacks::{Interned, Interner};
use std::alloc::{AllocError, Global};
use std::marker::Model;

// What stands for no frames.
const NO_STACK: Interned = Interned {
    id: 0,
    is_new: false,
};

/// The stacks since the last point: those that have ids, how many events had one, and those that are not written yet,
/// which have the ids from the first one on.
#[derive(Drop)]
pub struct Stacks {
    known: Interner,
    framed: u32,
    first: u32,
    fresh: Vec<Bytes>,
    // The bytes of the body that the new stacks make.
    size: usize,
}

impl Model for Stacks {
    ghost use Rattle.nt_write.specs.Value.{StacksSeen, AreBounded};

    ghost Value = { StacksSeen };

    ghost view = { λ stacks. record {
      known = stacks.known;
      framed = stacks.framed;
      first = stacks.first;
      fresh = stacks.fresh.items;
    } };

    ghost invariant = { λ stacks. AreBounded stacks.known stacks.framed stacks.first stacks.fresh.items stacks.size };
}

impl Stacks {
    /// No stacks. It takes no memory.
    pub fn new(alloc: Global) -> Stacks
        ensures { result ≡ no_stacks }
    {
        Stacks {
            known: Interner::new(alloc),
            framed: 0,
            first: 1,
            fresh: Vec::new(alloc),
            size: STACKS_BYTES,
        }
    }

    /// Whether as many events had a stack as can between two points.
    pub fn are_spent(&self) -> bool
        ensures spent { result ≡ (self.now.framed == FRAMED_EVENTS) }
        ensures left { result ≡ false → self.now.framed < FRAMED_EVENTS }
    {
        self.framed == FRAMED_EVENTS
    }

    /// The id of the stack of one event more, and whether it is new. Out of memory, nothing changes.
    #[inline(always)]
    pub fn id_of(&mut self, alloc: Global, frames: &[u8]) -> Result<Interned, AllocError>
        requires { (frames.now ≡ []) ⊎ (self.old.framed < FRAMED_EVENTS) }
        ensures ok { OnOk result (self.new ≡ record self.old {
          known = with_stack self.old.known frames.now;
          framed = framed_with self.old.framed frames.now;
        }) }
        ensures id { IfOk result (λ stack. stack.id ≡ stack_id self.new.known frames.now) }
        ensures is_new { IfOk result (λ stack. stack.is_new ≡ nat_lt (length self.old.known) (length self.new.known)) }
        ensures next { IfOk result (λ stack. IsTrue stack.is_new
            → self.new.first + length self.new.fresh ≤ length self.new.known) }
        ensures few { OnOk result (AreFew self.new.known self.new.framed) }
        ensures err { OnErr result (self.new ≡ self.old) }
    {
        let framed = self.framed;
        if frames.is_empty() {
            return Ok(NO_STACK);
        }
        let stack = self.known.id_of(alloc, frames)?;
        self.framed = framed + 1;
        Ok(stack)
    }

    /// Whether this many bytes more keep the body of the new stacks at 102,400 bytes at most.
    pub fn fits(&self, bytes: usize) -> bool
        ensures { IsTrue result
            ↔ (length (stack_body self.now.first self.now.fresh) + bytes ≤ WRITTEN_BYTES) }
    {
        bytes <= WRITTEN_BYTES - self.size
    }

    /// Keeps a new stack until it is written. Out of memory, nothing changes.
    pub fn add(&mut self, alloc: Global, frames: &[u8]) -> Result<(), AllocError>
        requires room { length (stack_body self.old.first self.old.fresh) + (SIZE_BYTES + length frames.now) ≤ WRITTEN_BYTES }
        requires next { self.old.first + length self.old.fresh ≤ length self.old.known }
        ensures ok { OnOk result (self.new ≡ record self.old { fresh = self.old.fresh ++ frames.now ∷ [] }) }
        ensures err { OnErr result (self.new ≡ self.old) }
    {
        let stack = Items::new(Vec::from_slice(alloc, frames)?);
        self.fresh.push(stack)?;
        self.size += SIZE_BYTES + frames.len();
        Ok(())
    }

    /// Whether there are new stacks.
    pub fn is_empty(&self) -> bool
        ensures { IsTrue result ↔ (self.now.fresh ≡ []) }
    {
        self.fresh.is_empty()
    }

    /// The body of the new stacks.
    pub fn body(&self, alloc: Global) -> Result<Vec<u8>, AllocError>
        ensures ok { IfOk result (λ body. body.items ≡ stack_body self.now.first self.now.fresh) }
        ensures few { IfOk result (λ body. length body.items ≤ WRITTEN_BYTES) }
    {
        let mut body = Vec::with_capacity(alloc, self.size)?;
        put_stacks(&mut body, self.first, &self.fresh)?;
        Ok(body)
    }

    /// The new stacks are written.
    pub fn settle(&mut self)
        ensures { self.new ≡ record self.old { first = self.old.first + length self.old.fresh; fresh = [] } }
    {
        self.first += self.fresh.len() as u32;
        self.fresh.clear();
        self.size = STACKS_BYTES;
    }

    /// Forgets all stacks, at a point.
    pub fn forget(&mut self)
        ensures { self.new ≡ no_stacks }
    {
        self.known.clear();
        self.framed = 0;
        self.first = 1;
        self.fresh.clear();
        self.size = STACKS_BYTES;
    }
}
