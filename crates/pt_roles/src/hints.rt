//! What the threads of a run tell one another without a lock.
ghost use Rattle.std.specs.Prelude.{◌≡◌, ◌*◌, ◌<◌, ◌≤◌, length, IfOk, IfSome, vec_len};

use crate::world::World;
use std::alloc::{AllocError, Global};
use std::marker::PhantomData;
use std::sync::atomic::{AtomicBool, AtomicU64, Ordering};

/// What threads tell one another without a lock. Nothing that a run comes to rests on it: they are hints.
#[derive(Drop)]
pub struct Hints<P: World> {
    /// Of each row, twice its life from 0, and one more once the life's thread has left.
    lives: Vec<AtomicU64>,
    /// Of each row, the slots whose sessions are to be opened again before the next life writes.
    reopen: Vec<AtomicU64>,
    /// Whether all writers have ended.
    done: AtomicBool,
    name: PhantomData<P>,
    ghost lives_are: { vec_len lives ≡ P.rows },
    ghost reopen_are: { vec_len reopen ≡ P.rows },
}

impl<P: World> Hints<P> {
    pub fn new(alloc: Global, rows: u32) -> Result<Hints<P>, AllocError>
        requires { rows ≡ P.rows }
    {
        Ok(Hints {
            lives: zeros(alloc, rows)?,
            reopen: zeros(alloc, rows)?,
            done: AtomicBool::new(false),
            name: PhantomData,
        })
    }

    /// The life that a row serves, by its number, one of so many, unless its thread has left.
    pub fn life(&self, number: usize, lives: u32) -> Option<u32>
        requires { number < P.rows }
        ensures { IfSome result (λ life. life < lives) }
    {
        let said = self.lives[number].load(Ordering::SeqCst);
        let life = said / 2;
        if said % 2 == 1 || life >= u64::from(lives) {
            return None;
        }
        Some(life as u32)
    }

    /// The thread of this life has left the row.
    pub fn leaves(&self, number: usize, life: u32)
        requires { number < P.rows }
    {
        self.lives[number].store(u64::from(life) * 2 + 1, Ordering::SeqCst);
    }

    /// The thread of this life has entered the row.
    pub fn enters(&self, number: usize, life: u32)
        requires { number < P.rows }
    {
        self.lives[number].store(u64::from(life) * 2, Ordering::SeqCst);
    }

    /// The slots whose sessions are to be opened again on the row.
    pub fn reopen(&self, number: usize) -> &AtomicU64
        requires { number < P.rows }
    {
        &self.reopen[number]
    }

    /// Whether a session is still to be opened again on the row.
    pub fn waits(&self, number: usize) -> bool
        requires { number < P.rows }
    {
        self.reopen[number].load(Ordering::SeqCst) != 0
    }

    /// The session in this slot is open on the row again.
    pub fn opened(&self, number: usize, slot: u32)
        requires row { number < P.rows }
        requires slot { slot < 64 }
    {
        self.reopen[number].fetch_and(!(1u64 << slot), Ordering::SeqCst);
    }

    /// The session in this slot ends, and is open on no row: no row's next life waits for it.
    pub fn ended(&self, slot: u32)
        requires { slot < 64 }
    {
        for reopen in &self.reopen {
            reopen.fetch_and(!(1u64 << slot), Ordering::SeqCst);
        }
    }

    /// All writers have ended.
    pub fn end(&self) {
        self.done.store(true, Ordering::SeqCst);
    }

    /// Whether all writers have ended.
    pub fn have_ended(&self) -> bool {
        self.done.load(Ordering::SeqCst)
    }
}

fn zeros(alloc: Global, count: u32) -> Result<Vec<AtomicU64>, AllocError>
    ensures { IfOk result (λ zeros. vec_len zeros ≡ count) }
{
    let mut zeros = Vec::with_capacity(alloc, count as usize)?;
    for _made in 0..count {
        zeros.push(AtomicU64::new(0))?;
    }
    Ok(zeros)
}
