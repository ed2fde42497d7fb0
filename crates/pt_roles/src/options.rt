//! What is asked of a run beside its plan.

/// How a run with its server goes on.
#[derive(Clone, Copy, Debug, PartialEq, Eq)]
pub struct LiveOptions {
    /// The writers begin once this many sessions were opened on all rows, or once nobody comes in any more: from 1 to
    /// 64.
    pub wait: u32,
    /// How many streaming roles there are: from 1 to 64.
    pub streamers: u32,
    /// How many threads each row serves, one after another: from 1 to `LIVES`.
    pub lives: u32,
}
