//! Chunks one after another, joined and split without memory.
ghost use Rattle.std.specs.Prelude.{◌≡◌, ◌+◌, ◌-◌, ◌^◌, ◌<◌, [], ◌∷◌, ◌++◌, length, slice_get, slice_index_or, IsNone, IsOk, ◌↔◌, IfOk, IfErr, IfSome, IfNone, MatchResult};
ghost use Rattle.std.specs.Option.{option_copied};
ghost use Rattle.std.specs.Borrow.{sem};
ghost use Rattle.ep_chunk.specs.Lending.{LendsLast};

use crate::chunk::Chunk;
use std::alloc::Global;
use std::collections::LinkedList;
use std::marker::Model;
use std::mem;

/// A list of chunks, the oldest first.
#[derive(Debug, Drop)]
pub struct Chain {
    chunks: LinkedList<Chunk>,
}

impl Model for Chain {
    ghost use Rattle.std.specs.Prelude.{List, length, ◌<◌, ◌^◌};
    ghost use Rattle.ep_chunk.specs.Record.{Record};

    ghost Value = { List (List Record) };

    ghost view = { λ c. c.chunks };

    ghost invariant = { λ c. length c.chunks < 2 ^ 32 };
}

impl Chain {
    /// A chain of no chunk. It takes no memory.
    pub fn empty(alloc: Global) -> Chain
        ensures { result ≡ [] }
    {
        Chain {
            chunks: LinkedList::new(alloc),
        }
    }

    /// A chain of one chunk. Out of memory, it hands the chunk back.
    pub fn one(alloc: Global, chunk: Chunk) -> Result<Chain, Chunk>
        ensures ok { IfOk result (λ chain. chain ≡ chunk ∷ []) }
        ensures err { IfErr result (λ back. back ≡ chunk) }
    {
        let mut chunks = LinkedList::new(alloc);
        match chunks.push_back(chunk) {
            Ok(()) => Ok(Chain { chunks }),
            Err(failed) => Err(failed.value),
        }
    }

    /// How many chunks there are.
    pub fn count(&self) -> u32
        ensures { result ≡ length self.now }
    {
        self.chunks.len() as u32
    }

    /// Puts the chunks of another chain after its own.
    pub fn join(&mut self, other: Chain)
        requires { length self.old + length other < 2 ^ 32 }
        ensures { self.new ≡ self.old ++ other }
    {
        let Chain { mut chunks } = other;
        if self.chunks.append(&mut chunks).is_err() {
            unreachable!();
        }
    }

    /// Takes all chunks, and leaves none.
    pub fn take(&mut self) -> Chain
        ensures all { result ≡ self.old }
        ensures none { self.new ≡ [] }
    {
        let alloc = *self.chunks.allocator();
        Chain {
            chunks: mem::replace(&mut self.chunks, LinkedList::new(alloc)),
        }
    }

    /// Takes the first chunk, as a chain. None where there is no chunk.
    pub fn split_first(&mut self) -> Option<Chain>
        ensures empty { IsNone result ↔ (self.old ≡ []) }
        ensures none { IfNone result (self.new ≡ []) }
        ensures one { IfSome result (λ first. length first ≡ 1) }
        ensures others { IfSome result (λ first. self.old ≡ first ++ self.new) }
    {
        if self.chunks.is_empty() {
            return None;
        }
        match self.chunks.split_off(1) {
            Ok(others) => Some(Chain {
                chunks: mem::replace(&mut self.chunks, others),
            }),
            Err(_) => unreachable!(),
        }
    }

    /// The last chunk, to be written to. None where there is no chunk.
    pub fn last_mut(&mut self) -> Option<&mut Chunk>
        ensures* writes_back { sem 𝓛 (LendsLast self.entry result) }
        ensures empty { IsNone result ↔ (self.old ≡ []) }
        ensures last { IfSome result (λ chunk. chunk.now ≡ slice_index_or self.old (length self.old - 1) chunk.now) }
    {
        self.chunks.back_mut()
    }

    /// The chunk at a place, from 0. None where there are no more than this many.
    pub fn chunk(&self, place: u32) -> Option<&Chunk>
        ensures { option_copied result ≡ slice_get self.now place }
    {
        self.chunks.iter().nth(place as usize)
    }
}
