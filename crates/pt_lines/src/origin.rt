//! Where the lines of a stream come from.

/// What a stream has said of the traced program, as far as lines need it. All of it is 0 while no Trace object said it.
#[derive(Clone, Copy, Debug, PartialEq, Eq)]
pub struct Origin {
    /// How many bytes an address of a stack has.
    pub address: u32,
    pub process: u32,
    /// How many ticks of a stamp make a second.
    pub frequency: u64,
}
