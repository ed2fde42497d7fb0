//! A pool with one owner.
ghost use Rattle.std.specs.Prelude.{◌≡◌, ◌+◌, ◌-◌, ◌<◌, ◌≤◌, [], ◌∷◌, ◌++◌, length, min, vec_len, vec_capacity, IfOk, IfSome, IsNone, ◌↔◌, is_some, if◌then◌else◌};
ghost use Rattle.ep_pool.specs.Counts.{PoolCounts};
ghost use Rattle.ep_pool.specs.Free.{IsFree};

use crate::purse::Purse;
use ep_chunk::{Chain, Chunk};
use std::alloc::{AllocError, Global};
use std::marker::Model;

/// Chunks of one owner. Those that are not out are free.
#[derive(Debug, Drop)]
pub struct OwnPool {
    // The free chunks, each a chain of its own.
    free: Vec<Chain>,
    total: u32,
}

impl Model for OwnPool {
    ghost use Rattle.std.specs.Prelude.{vec_len, vec_capacity};
    ghost use Rattle.ep_pool.specs.Counts.{PoolCounts};
    ghost use Rattle.ep_pool.specs.Free.{IsFree};

    ghost Value = { PoolCounts };

    ghost view = { λ p. record { total = p.total; free = vec_len p.free } };

    ghost invariant = { λ p. IsFree p.total p.free };
}

impl OwnPool {
    /// A pool of this many chunks, all of them free and reserved.
    pub fn new(alloc: Global, chunks: u32) -> Result<OwnPool, AllocError>
        ensures { IfOk result (λ pool. pool ≡ record { total = chunks; free = chunks }) }
    {
        let mut free = Vec::with_capacity(alloc, chunks as usize)?;
        for _ in 0..chunks {
            let chunk = Chunk::new(alloc)?;
            match Chain::one(alloc, chunk) {
                Ok(one) => free.push(one)?,
                Err(_) => return Err(AllocError),
            }
        }
        Ok(OwnPool {
            free,
            total: chunks,
        })
    }

    /// How many chunks are free.
    pub fn free(&self) -> u32
        ensures free { result ≡ self.now.free }
        ensures within { self.now.free ≤ self.now.total }
    {
        self.free.len() as u32
    }
}

impl Purse for OwnPool {
    ghost use Rattle.std.specs.Prelude.{◌≡◌, ◌-◌, ◌<◌};

    ghost total = { λ p. p.total };

    ghost can_take = { λ _. Unit {0} };

    ghost can_give = { λ _ _. Unit {0} };

    ghost got = { λ old new. (0 < old.free) × (new ≡ record old { free = old.free - 1 }) };

    ghost dry = { λ old new. (old.free ≡ 0) × (new ≡ old) };

    /// A chain of one empty chunk. None exactly where no chunk is free.
    fn take(&mut self) -> Option<Chain>
        ensures one { IfSome result (λ chain. chain ≡ [] ∷ []) }
        ensures none { IsNone result ↔ (self.old.free ≡ 0) }
        ensures free { self.new ≡ record self.old { free = self.old.free - 1 } }
        ensures within { self.old.free ≤ self.old.total }
    {
        self.free.pop()
    }

    /// Clears the chunks and keeps as many as the pool has room for.
    fn give(&mut self, chain: Chain)
        ensures { self.new ≡ record self.old { free = min self.old.total (self.old.free + length chain) } }
    {
        give_all(&mut self.free, self.total as usize, chain);
    }

    fn total(&self) -> u32
        ensures { result ≡ self.now.total }
    {
        self.total
    }

    ghost use Rattle.std.proofs.Common.{arith};

    ghost got_is_not_dry = { λ old new got dry. omega (arith, got.0, dry.0) };
}

// The chunk of a chain of one, without its records.
pub(crate) fn cleared(mut one: Chain) -> Chain
    requires { length one ≡ 1 }
    ensures { result ≡ [] ∷ [] }
{
    if let Some(chunk) = one.last_mut() {
        chunk.clear();
    }
    one
}

// Keeps a chunk where there is room for it.
fn keep(free: &mut Vec<Chain>, one: Chain)
    requires room { vec_len free.old < vec_capacity free.old }
    ensures items { free.new.items ≡ free.old.items ++ one ∷ [] }
    ensures len { vec_len free.new ≡ vec_len free.old + 1 }
    ensures capacity { vec_capacity free.old ≤ vec_capacity free.new }
{
    if free.push(one).is_err() {
        unreachable!();
    }
}

// Keeps cleared chunks, as many as bring the free ones to at most the total.
fn give_all(free: &mut Vec<Chain>, total: usize, chain: Chain)
    requires { IsFree total free.old }
    ensures free { IsFree total free.new }
    ensures count { vec_len free.new ≡ min total (vec_len free.old + length chain) }
{
    let mut left = chain;
    while let Some(one) = left.split_first() {
        if free.len() < total {
            keep(free, cleared(one));
        }
    }
}
