//! What the threads of a run with its diagnostic server share, and what each of them does: the roles that write the streams of
//! sessions, and the threads of the program that write events.
//!
//! Each streaming role serves the sessions of its slots, and each writer makes the writes of its row's threads, one life after
//! another. They share the rows, behind locks of their own, and the registry of sessions behind one lock, under which nobody
//! waits and nothing is written. What a run comes to is defined here; pt_host, above it, makes the run.
//!
//! Its contract: a session that a role has ended is one of the run (`Finale`), and the writers leave each row's last thread with
//! all its writes made (`AtEnd`).
//!
//! What was chosen here, and why: docs/DECISIONS.md, "The program".
#![tactic(auto)]

mod drafts;
mod finale;
mod groups;
mod hints;
mod limits;
mod live_end;
mod options;
mod scene;
mod serving;
mod shared;
mod streamers;
mod table;
mod world;
mod writers;

pub use drafts::{Drafts, drafts_of};
pub use finale::Finale;
pub use groups::{AllLeft, AtEnd, Streaming, WritersKit, Writing};
pub use hints::Hints;
pub use limits::LIVES;
pub use live_end::{LiveEnd, LiveSession};
pub use options::LiveOptions;
pub use scene::Scene;
pub use shared::Shared;
pub use streamers::{Streamer, streamers_of};
pub use table::{Held, Kept, Left, Table, Telling};
pub use world::{Books, Holds, RoleMarks, World};
pub use writers::{Gone, Writer};
