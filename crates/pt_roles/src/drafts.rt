//! What gives the writes of a row's threads.
ghost use Rattle.std.specs.Prelude.{◌≡◌, ◌≢◌, ◌+◌, ◌-◌, ◌*◌, ◌^◌, ◌<◌, ◌≤◌, ◌++◌, [], ◌∷◌, IfOk, suc, vec_len};
ghost use Rattle.ep_defs.specs.declared.limits.TheConstants.{THREADS as MOST_THREADS};
ghost use Rattle.ep_guarded.specs.Tied.{thread_of};
ghost use Rattle.pt_roles.specs.declared.limits.TheConstants.{LIVES};
ghost use Rattle.pt_roles.specs.Writers.{AreRowDrafts, drafted, drafts_from};

use pt_load::{Draft, Plan};
use std::alloc::{AllocError, Global};
use std::marker::Model;

/// What gives the writes of the threads that a row is still to serve, that of the next one last. Contracts see whose
/// writes they are.
#[derive(Drop)]
pub struct Drafts {
    lives: Vec<Draft>,
}

impl Model for Drafts {
    ghost use Rattle.std.specs.Prelude.{List};
    ghost use Rattle.pt_load.specs.Shape.{Drafted};

    ghost Value = { List Drafted };

    ghost view = { λ d. d.lives.items };
}

impl Drafts {
    /// Those of the row with this number, from 0, in all of its lives.
    pub fn new(alloc: Global, plan: &Plan, number: u32, lives: u32) -> Result<Drafts, AllocError>
        requires row { number < plan.now.threads }
        requires few { plan.now.threads ≤ MOST_THREADS }
        requires few_lives { lives ≤ LIVES }
        ensures { IfOk result (λ drafts. drafts ≡ drafts_from plan.now number 0 lives) }
    {
        let mut drafts = Vec::with_capacity(alloc, lives as usize)?;
        for made in 0..lives {
            let thread = thread_of(plan.threads, number, lives - 1 - made);
            drafts.push(Draft::new(alloc, plan, thread)?)?;
        }
        Ok(Drafts { lives: drafts })
    }

    /// What gives the writes of the next thread.
    pub fn next(&mut self) -> Draft
        requires { self.old ≢ [] }
        ensures { self.old ≡ self.new ++ result ∷ [] }
    {
        let Some(draft) = self.lives.pop() else {
            unreachable!()
        };
        draft
    }
}

/// The thread that a row, by its number from 0, serves in this life, from 0.
pub fn thread_of(rows: u32, number: u32, life: u32) -> u32
    requires row { number < rows }
    requires few { rows ≤ MOST_THREADS }
    requires few_lives { life < LIVES }
    ensures { result ≡ thread_of rows number life }
{
    number + 1 + life * rows
}

/// What gives the writes of each row, by number, in all of its lives.
pub fn drafts_of(alloc: Global, plan: &Plan, lives: u32) -> Result<Vec<Drafts>, AllocError>
    requires few { plan.now.threads ≤ MOST_THREADS }
    requires few_lives { lives ≤ LIVES }
    ensures count { IfOk result (λ drafts. vec_len drafts ≡ plan.now.threads) }
    ensures drafts { IfOk result (λ drafts. AreRowDrafts plan.now lives drafts.items) }
{
    let mut drafts = Vec::with_capacity(alloc, plan.threads as usize)?;
    for number in 0..plan.threads {
        drafts.push(Drafts::new(alloc, plan, number, lives)?)?;
    }
    Ok(drafts)
}
