//! The steps of the schedule, one after another.
ghost use Rattle.std.specs.Prelude.{◌≡◌, ◌++◌, [], List, IfOk, IfNone, IfSome, OnErr};
ghost use Rattle.pt_gen.specs.Schedule.{Gives, generated, made, thread_at, write_at};

use crate::rounds::Rounds;
use crate::session::Session;
use crate::stage::Stage;
use ep_model::Step;
use std::alloc::{AllocError, Global};
use std::marker::Model;

/// What gives the steps of a schedule. It keeps where it stands, and none of the steps.
#[derive(Debug, Drop)]
pub struct Gen {
    rounds: Rounds,
    stage: Stage,
}

impl Model for Gen {
    ghost use Rattle.std.specs.Prelude.{List};
    ghost use Rattle.ep_model.specs.declared.step.Step.{Step};
    ghost use Rattle.pt_gen.specs.state.ToCome.{IsStage, to_come};

    ghost Value = { List Step };

    ghost view = { λ g. to_come g.rounds.seed g.rounds.count g.stage };

    ghost invariant = { λ g. IsStage g.rounds.count g.stage };
}

impl Gen {
    /// What gives the whole schedule of a seed, with this many rounds: each is one write of one of the threads.
    pub fn new(seed: u64, rounds: u32) -> Gen
        ensures { result ≡ generated seed rounds }
    {
        Gen {
            rounds: Rounds {
                seed,
                count: rounds,
            },
            stage: Stage::Accept {
                session: Session::Wide,
            },
        }
    }

    /// The next step, None after the last one. Where there is no memory for it, it is still the next one.
    pub fn next(&mut self, alloc: Global) -> Result<Option<Step>, AllocError>
        ensures given { IfOk result (λ step. Gives self.old step self.new) }
        ensures kept { OnErr result (self.new ≡ self.old) }
    {
        let step = self.stage.step(alloc, self.rounds)?;
        self.stage = self.stage.after(self.rounds);
        Ok(step)
    }

    /// Passes over all steps of a write, where one comes next and the schedule has this seed, and answers its round.
    pub(crate) fn pass_write(&mut self, seed: u64) -> Option<u32>
        ensures passed { IfSome result (λ round. self.old
            ≡ made (thread_at seed round) round (write_at seed round) ++ self.new) }
        ensures kept { IfNone result (self.new ≡ self.old) }
    {
        if self.rounds.seed != seed {
            return None;
        }
        let (round, stage) = self.stage.after_whole_write(self.rounds)?;
        self.stage = stage;
        Some(round)
    }
}
