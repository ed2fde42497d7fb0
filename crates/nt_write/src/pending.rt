//! What a writer keeps until the next flush.
ghost use Rattle.std.specs.Prelude.{◌≡◌, ℕ, ◌+◌, ◌^◌, ◌<◌, ◌≤◌, [], List, length, true, false, Some, IsTrue, OnOk};
ghost use Rattle.ep_defs.specs.declared.limits.TheConstants.{PAYLOAD_BYTES};
ghost use Rattle.ep_defs.specs.declared.event.EventDef.{EventDef};
ghost use Rattle.nt_object.specs.declared.object.BlockKind.TheVariants as block;
ghost use Rattle.nt_head.specs.declared.limits.TheConstants.{HEAD_BYTES};
ghost use Rattle.nt_head.specs.Head.{zero_state};
ghost use Rattle.nt_blocks.specs.declared.limits.TheConstants.{WRITTEN_BYTES};
ghost use Rattle.nt_blocks.specs.Bodies.{stack_body};
ghost use Rattle.nt_blocks.specs.Drafts.{Draft, blob_body};
ghost use Rattle.nt_blocks.specs.Making.{IsMaking};
ghost use Rattle.nt_write.specs.declared.limits.TheConstants.{SIZE_BYTES, STACK_BYTES};
ghost use Rattle.nt_write.specs.Arriving.{HasRoomFor, IsAtMost, passes_by};

use crate::limits::SIZE_BYTES;
use crate::stacks::Stacks;
use nt_blocks::BlobBlock;
use nt_head::HeadState;
use nt_head::limits::HEAD_BYTES;
use nt_object::BlockKind;
use nt_stacks::Interned;
use std::alloc::{AllocError, Global};

/// The definitions and the events since the last flush, and the stacks since the last point.
#[derive(Drop)]
pub struct Pending {
    pub metadata: BlobBlock,
    pub stacks: Stacks,
    pub events: BlobBlock,
    ghost of_metadata: { metadata.kind ≡ block.Metadata },
    ghost of_events: { events.kind ≡ block.Event },
}

/// How many bytes an event brings: those of its payload, and of the payload of its definition and of its stack where
/// these are new.
#[derive(Clone, Copy, Debug)]
pub struct Arrival {
    pub payload: usize,
    pub meta: Option<usize>,
    pub stack: Option<usize>,
}

impl Pending {
    ghost use Rattle.nt_write.specs.Layout.{Layout, empty_layout, new_stack_body};
    ghost use Rattle.nt_write.specs.Value.{no_stacks};
    ghost use Rattle.nt_write.specs.Arriving.{IsDefining, IsNew, IsInterned, with_definition, with_new_stack, with_draft};
    ghost use Rattle.nt_write.specs.Writing.{IsPending, IsSmall, HasRoom, lacks_room};

    /// Nothing. It takes no memory.
    pub fn new(alloc: Global) -> Pending
        ensures pending { IsPending empty_layout result }
        ensures stacks { result.stacks ≡ no_stacks }
    {
        Pending {
            metadata: BlobBlock::new(alloc, BlockKind::Metadata),
            stacks: Stacks::new(alloc),
            events: BlobBlock::new(alloc, BlockKind::Event),
        }
    }

    /// Whether a body has no room for what arrives.
    pub fn lacks_room(&self, arrival: &Arrival) -> bool
        requires { IsSmall arrival.now }
        ensures lacks { (layout : Layout) → IsPending layout self.now
            → result ≡ lacks_room layout arrival.now }
        ensures room { result ≡ false → HasRoom arrival.now self.now }
    {
        !self.events.fits(HEAD_BYTES + arrival.payload)
            || lacks(&self.metadata, arrival.meta)
            || self.lacks_stack(arrival.stack)
    }

    /// Adds the payload of a definition, for which there is room. Out of memory, nothing changes.
    pub fn add_definition(&mut self, payload: &[u8]) -> Result<(), AllocError>
        requires defining { (def : EventDef) × IsDefining def payload.now }
        requires room { HasRoomFor (length payload.now) self.old.metadata }
        ensures ok { (layout : Layout) (def : EventDef)
            → IsPending layout self.old → layout.definitions_flushed ≤ length layout.definitions
            → IsNew layout.definitions def (Some payload.now)
            → OnOk result (IsPending (with_definition layout def) self.new) }
        ensures events { self.new.events ≡ self.old.events }
        ensures stacks { self.new.stacks ≡ self.old.stacks }
    {
        self.metadata.add(&meta_head(payload.len()), payload)
    }

    /// Keeps a stack that is new, for which there is room. Out of memory, nothing changes.
    pub fn keep_stack(
        &mut self,
        alloc: Global,
        stack: &Interned,
        frames: &[u8],
    ) -> Result<(), AllocError>
        requires room { IsTrue stack.now.is_new
            → length (stack_body self.old.stacks.first self.old.stacks.fresh) + (SIZE_BYTES + length frames.now) ≤ WRITTEN_BYTES }
        requires next { IsTrue stack.now.is_new
            → self.old.stacks.first + length self.old.stacks.fresh ≤ length self.old.stacks.known }
        ensures ok { (layout : Layout) → IsPending layout self.old
            → layout.stacks_flushed ≤ length layout.stacks
            → IsInterned layout.stacks frames.now stack.now
            → OnOk result (IsPending (with_new_stack layout frames.now) self.new) }
        ensures known { self.new.stacks.known ≡ self.old.stacks.known }
        ensures framed { self.new.stacks.framed ≡ self.old.stacks.framed }
        ensures metadata { self.new.metadata ≡ self.old.metadata }
        ensures events { self.new.events ≡ self.old.events }
    {
        if stack.is_new {
            return self.stacks.add(alloc, frames);
        }
        Ok(())
    }

    /// Adds an event, for which there is room. Out of memory, nothing changes.
    #[inline(always)]
    pub fn add_event(&mut self, head: &HeadState, payload: &[u8]) -> Result<(), AllocError>
        requires room { HasRoomFor (length payload.now) self.old.events }
        requires size { head.now.size ≡ length payload.now }
        requires named { 0 < head.now.metadata }
        ensures ok { (layout : Layout) → IsPending layout self.old
            → OnOk result (IsPending (with_draft layout (record { state = head.now; payload = payload.now })) self.new) }
        ensures stacks { self.new.stacks ≡ self.old.stacks }
    {
        self.events.add(head, payload)
    }

    // Whether the body of the new stacks has no room for one of this size.
    fn lacks_stack(&self, stack: Option<usize>) -> bool
        requires { IsAtMost STACK_BYTES stack }
        ensures lacks { (layout : Layout) → IsPending layout self.now
            → result ≡ passes_by (new_stack_body layout) SIZE_BYTES stack }
        ensures room { (size : ℕ) → result ≡ false → stack ≡ Some size
            → length (stack_body self.now.stacks.first self.now.stacks.fresh) + (SIZE_BYTES + size) ≤ WRITTEN_BYTES }
    {
        match stack {
            Some(size) => !self.stacks.fits(SIZE_BYTES + size),
            None => false,
        }
    }
}

// Whether a body has no room for a payload of this size.
fn lacks(block: &BlobBlock, payload: Option<usize>) -> bool
    requires { IsAtMost PAYLOAD_BYTES payload }
    ensures lacks { (drafts : List Draft) → IsMaking drafts block.now
        → result ≡ passes_by (blob_body drafts) HEAD_BYTES payload }
    ensures room { (size : ℕ) → result ≡ false → payload ≡ Some size → HasRoomFor size block.now }
{
    match payload {
        Some(size) => !block.fits(HEAD_BYTES + size),
        None => false,
    }
}

// A metadata blob's header says nothing but the size of the payload.
fn meta_head(size: usize) -> HeadState
    requires { size < 2 ^ 32 }
    ensures { result ≡ record zero_state { sorted = true; size = size } }
{
    let mut head = HeadState::zero();
    head.sorted = true;
    head.size = size as u32;
    head
}
