//! Where the blocks of a stream go.
ghost use Rattle.std.specs.Prelude.{◌≡◌, ℕ, ◌+◌, ◌*◌, ◌^◌, ◌<◌, ◌≤◌, ◌++◌, List, [], ◌∷◌, length, OnOk, OnErr};

use crate::fault::Fault;
use crate::pending::{Arrival, Pending};
use crate::stacks::Stacks;
use nt_blocks::BlobBlock;
use nt_object::{BlockKind, put_block};
use pt_io::Sink;
use std::alloc::Global;
use std::mem;

// The null reference, which ends a stream.
const END: u8 = 1;

/// A sink that takes a stream, and what the place of the next block depends on.
#[derive(Drop)]
pub struct Output<S: Sink> {
    sink: S,
    // The stream's length modulo 4.
    alignment: u8,
    // The object that is written next, with the room of the ones before.
    object: Vec<u8>,
}

impl<S: Sink> Output<S> {
    ghost use Rattle.nt_object.specs.declared.object.BlockKind.TheVariants as block;
    ghost use Rattle.nt_object.specs.Object.{Block};
    ghost use Rattle.nt_object.specs.Stream.{blocks_bytes};
    ghost use Rattle.nt_blocks.specs.Bodies.{stack_body};
    ghost use Rattle.nt_blocks.specs.Drafts.{Draft, blob_body};
    ghost use Rattle.nt_blocks.specs.Making.{IsMaking};
    ghost use Rattle.nt_write.specs.Layout.{with_block, with_block_of, flushed};
    ghost use Rattle.nt_write.specs.Arriving.{flushed_if};
    ghost use Rattle.nt_write.specs.Flushing.{Writes, WritesPart, Flushes, FlushesPart};
    ghost use Rattle.nt_write.specs.Writing.{HasWritten, TookAll, TookSome, IsCounted, output_sink, IsEmptied, IsSmall, HasRoom, KeepsStacks, lacks_room};

    /// After the 102 bytes of a stream's start, which the sink has taken.
    pub fn new(alloc: Global, sink: S) -> Output<S>
        ensures sink { output_sink result ≡ sink }
        ensures empty { HasWritten S.tells_taken S.taken (S.taken sink) [] result }
    {
        Output {
            sink,
            alignment: 2,
            object: Vec::new(alloc),
        }
    }

    /// Writes a block in one write.
    pub fn write_block(&mut self, kind: BlockKind, body: &[u8]) -> Result<(), Fault>
        requires { length body.now < 2 ^ 31 }
        ensures ok { Writes S.Sink (λ blocks. with_block kind body.now blocks) self.old self.new result }
        ensures part { WritesPart S.Sink (λ blocks. with_block kind body.now blocks) self.old self.new result }
        ensures counted { IsCounted S.write_faults (output_sink self.old) (output_sink self.new) result }
        ensures other_side { S.read_side (output_sink self.new) ≡ S.read_side (output_sink self.old) }
    {
        self.object.clear();
        put_block(&mut self.object, u64::from(self.alignment), kind, body)?;
        self.sink.write(&self.object)?;
        let len = u64::from(self.alignment) + self.object.len() as u64;
        self.alignment = (len % 4) as u8;
        Ok(())
    }

    // Writes the block, unless it has no blobs, and forgets the blobs.
    fn write_blobs(&mut self, alloc: Global, block: &mut BlobBlock) -> Result<(), Fault>
        ensures ok { (drafts : List Draft) → IsMaking drafts block.old
            → Writes S.Sink (λ blocks. with_block_of block.old.kind drafts (blob_body drafts) blocks)
            self.old self.new result }
        ensures empty { OnOk result (IsMaking [] block.new) }
        ensures kind { block.new.kind ≡ block.old.kind }
        ensures part { (drafts : List Draft) → IsMaking drafts block.old
            → WritesPart S.Sink (λ blocks. with_block_of block.old.kind drafts (blob_body drafts) blocks)
            self.old self.new result }
        ensures counted { IsCounted S.write_faults (output_sink self.old) (output_sink self.new) result }
        ensures other_side { S.read_side (output_sink self.new) ≡ S.read_side (output_sink self.old) }
    {
        self.write_body(alloc, block)?;
        block.clear();
        Ok(())
    }

    // Writes the block, unless it has no blobs.
    fn write_body(&mut self, alloc: Global, block: &BlobBlock) -> Result<(), Fault>
        ensures ok { (drafts : List Draft) → IsMaking drafts block.now
            → Writes S.Sink (λ blocks. with_block_of block.now.kind drafts (blob_body drafts) blocks)
            self.old self.new result }
        ensures part { (drafts : List Draft) → IsMaking drafts block.now
            → WritesPart S.Sink (λ blocks. with_block_of block.now.kind drafts (blob_body drafts) blocks)
            self.old self.new result }
        ensures counted { IsCounted S.write_faults (output_sink self.old) (output_sink self.new) result }
        ensures other_side { S.read_side (output_sink self.new) ≡ S.read_side (output_sink self.old) }
    {
        if block.is_empty() {
            return Ok(());
        }
        let body = block.body(alloc)?;
        self.write_block(block.kind(), &body)
    }

    // Writes the new stacks, if there are any.
    fn write_stacks(&mut self, alloc: Global, stacks: &mut Stacks) -> Result<(), Fault>
        ensures ok { Writes S.Sink
            (λ blocks. with_block_of block.Stack stacks.old.fresh (stack_body stacks.old.first stacks.old.fresh) blocks)
            self.old self.new result }
        ensures settled { OnOk result (stacks.new
            ≡ record stacks.old { first = stacks.old.first + length stacks.old.fresh; fresh = [] }) }
        ensures part { WritesPart S.Sink
            (λ blocks. with_block_of block.Stack stacks.old.fresh (stack_body stacks.old.first stacks.old.fresh) blocks)
            self.old self.new result }
        ensures counted { IsCounted S.write_faults (output_sink self.old) (output_sink self.new) result }
        ensures other_side { S.read_side (output_sink self.new) ≡ S.read_side (output_sink self.old) }
    {
        if stacks.is_empty() {
            return Ok(());
        }
        let body = stacks.body(alloc)?;
        self.write_block(BlockKind::Stack, &body)?;
        stacks.settle();
        Ok(())
    }

    /// Writes what is pending: the new definitions, the new stacks, and then the events.
    pub fn flush(&mut self, alloc: Global, pending: &mut Pending) -> Result<(), Fault>
        ensures ok { Flushes S.Sink (λ layout. flushed layout) self.old pending.old self.new pending.new result }
        ensures part { FlushesPart S.Sink (λ layout. flushed layout) self.old pending.old self.new result }
        ensures empty { OnOk result (IsEmptied pending.new) }
        ensures keeps { OnOk result (KeepsStacks pending.old pending.new) }
        ensures counted { IsCounted S.write_faults (output_sink self.old) (output_sink self.new) result }
        ensures other_side { S.read_side (output_sink self.new) ≡ S.read_side (output_sink self.old) }
    {
        self.write_blobs(alloc, &mut pending.metadata)?;
        self.write_stacks(alloc, &mut pending.stacks)?;
        self.write_blobs(alloc, &mut pending.events)
    }

    /// Writes what is pending where a body has no room for what arrives.
    pub fn make_room(
        &mut self,
        alloc: Global,
        pending: &mut Pending,
        arrival: &Arrival,
    ) -> Result<(), Fault>
        requires { IsSmall arrival.now }
        ensures ok { Flushes S.Sink (λ layout. flushed_if (lacks_room layout arrival.now) layout)
            self.old pending.old self.new pending.new result }
        ensures part { FlushesPart S.Sink (λ layout. flushed_if (lacks_room layout arrival.now) layout)
            self.old pending.old self.new result }
        ensures room { OnOk result (HasRoom arrival.now pending.new) }
        ensures keeps { OnOk result (KeepsStacks pending.old pending.new) }
        ensures counted { IsCounted S.write_faults (output_sink self.old) (output_sink self.new) result }
        ensures other_side { S.read_side (output_sink self.new) ≡ S.read_side (output_sink self.old) }
    {
        if pending.lacks_room(arrival) {
            return self.flush(alloc, pending);
        }
        Ok(())
    }

    /// Ends the stream, in one write.
    pub fn write_end(&mut self) -> Result<(), Fault>
        ensures ok { (start : List ℕ) (blocks : List Block)
            → HasWritten S.tells_taken S.taken start blocks self.old
            → OnOk result (TookAll S.tells_taken S.taken start (blocks_bytes blocks ++ 1 ∷ []) (output_sink self.new)) }
        ensures part { (start : List ℕ) (blocks : List Block)
            → HasWritten S.tells_taken S.taken start blocks self.old
            → OnErr result (TookSome S.tells_taken S.taken start (blocks_bytes blocks
            ++ 1 ∷ []) (output_sink self.new)) }
        ensures counted { IsCounted S.write_faults (output_sink self.old) (output_sink self.new) result }
        ensures other_side { S.read_side (output_sink self.new) ≡ S.read_side (output_sink self.old) }
    {
        self.sink.write(&[END])?;
        Ok(())
    }

    /// Puts another sink in the place of this one, which it gives back.
    pub fn replace_sink(&mut self, sink: S) -> S
        ensures given { result ≡ output_sink self.old }
        ensures placed { self.new ≡ record self.old { sink = sink } }
    {
        mem::replace(&mut self.sink, sink)
    }

    /// The sink.
    pub fn into_sink(self) -> S
        ensures { result ≡ output_sink self }
    {
        let Output {
            sink,
            alignment: _,
            object: _,
        } = self;
        sink
    }
}
