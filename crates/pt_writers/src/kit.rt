//! What a run is used up for.
ghost use Rattle.std.specs.Prelude.{◌≡◌, ◌≤◌, [], vec_len, vec_capacity};
ghost use Rattle.pt_writers.specs.state.Writers.{AreDrafts};

use crate::run::{Around, SampleRun};
use crate::writers::{Writer, drafts_of};
use ep_guarded::Agreed;
use ep_live::Live;
use ep_tie::Right;
use pt_load::Draft;
use std::alloc::{AllocError, Global};

/// A draft for each thread, and memory for their writers, for the writers' halves, and for what is left of each row.
#[derive(Drop)]
pub struct Kit<'w, 'g, P: SampleRun> {
    pub live: &'w Live<'g, P>,
    pub drafts: Vec<Draft>,
    pub writers: Vec<Writer<'w, 'g, P>>,
    pub halves: Vec<Right<P, Agreed<'g>>>,
    pub rows: Vec<(u64, u32)>,
    ghost count: { vec_len drafts ≡ P.plan.threads },
    ghost drafts_are: { AreDrafts P.plan drafts.items },
    ghost none: { (writers.items ≡ []) × (halves.items ≡ []) × (rows.items ≡ []) },
    ghost writer_room: { P.plan.threads ≤ vec_capacity writers },
    ghost half_room: { P.plan.threads ≤ vec_capacity halves },
    ghost row_room: { P.plan.threads ≤ vec_capacity rows },
}

impl<'w, 'g, P: SampleRun> Kit<'w, 'g, P> {
    /// Of a run over these rows. It takes the memory for all that its threads need.
    pub fn new<R, C, G>(
        alloc: Global,
        around: &Around<'_, P, R, C, G>,
        live: &'w Live<'g, P>,
    ) -> Result<Kit<'w, 'g, P>, AllocError> {
        let threads = around.plan.threads as usize;
        Ok(Kit {
            live,
            drafts: drafts_of(alloc, around.plan)?,
            writers: Vec::with_capacity(alloc, threads)?,
            halves: Vec::with_capacity(alloc, threads)?,
            rows: Vec::with_capacity(alloc, threads)?,
        })
    }
}
