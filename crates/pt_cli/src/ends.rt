//! How the program ended.
ghost use Rattle.std.specs.Prelude.{◌≡◌, [], None};
ghost use Rattle.pt_cli.specs.Ends.{Ended};

use ep_defs::{Items, MarkList};
use ep_pool::PoolSeat;
use pt_command::End;
use pt_roles::LiveEnd;
use std::alloc::Global;

/// How the program ended.
#[derive(Drop)]
pub struct Finished<L> {
    /// One of those of `pt_command::status`.
    pub status: u8,
    /// A peer's error code, 0 where there is none.
    pub code: u32,
    /// The offset of what was refused, 0 where there is none.
    pub at: u64,
    /// The link of a client's command, or of `greet`, to its peer, or, of a run that calls a tool, the one that could not take
    /// what each is to take first; none where there is none.
    pub peer: Option<L>,
    /// Each thread of the sample program that `trace` or `watch` ran, from 1, and how many writes it has made; none for all
    /// other commands.
    pub rows: Vec<(u64, u32)>,
    /// A seat, with all shares, of the pool of the session of `trace` or `watch`; none where its stream could not be begun or
    /// there was no memory for the run, and for all other commands.
    pub seat: Option<PoolSeat>,
    /// What the session of `trace` or `watch` had of each thread, ascending by thread; none for all other commands.
    pub marks: MarkList,
    /// What is left of the run of `run`; none for all other commands, and where there was no memory for it to begin.
    pub live: Option<LiveEnd<L>>,
}

/// How a command ended that waits for nobody.
#[derive(Clone, Copy, Debug)]
pub struct Plain {
    /// One of those of `pt_command::status`.
    pub status: u8,
    /// The offset of what was refused, 0 where there is none.
    pub at: u64,
}

/// The end of a command that ran no threads.
pub(crate) fn ended_with<L>(alloc: Global, end: End, peer: Option<L>) -> Finished<L>
    ensures ended { Ended end result.status result.code result.at }
    ensures peer { result.peer ≡ peer }
    ensures rows { result.rows.items ≡ [] }
    ensures seat { result.seat ≡ None }
    ensures marks { result.marks ≡ [] }
    ensures live { result.live ≡ None }
{
    Finished {
        status: end.status(),
        code: end.code(),
        at: end.at(),
        peer,
        rows: Vec::new(alloc),
        seat: None,
        marks: Items::new(Vec::new(alloc)),
        live: None,
    }
}
