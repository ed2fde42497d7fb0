//! What is left of a session that was finished.
use ep_defs::MarkList;
use pt_io::MemSink;

#[derive(Drop)]
pub(crate) struct Ended {
    /// It has taken the whole stream.
    pub(crate) sink: MemSink,
    /// Of each thread on which the session was opened, ascending by thread.
    pub(crate) marks: MarkList,
}
