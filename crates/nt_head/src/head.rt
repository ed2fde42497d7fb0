//! What a header says.
ghost use Rattle.std.specs.Prelude.{◌≡◌};
ghost use Rattle.nt_head.specs.Head.{zero_state, AreIds, IsState};

/// What the compressed header of a blob says (NetTrace, version 4).
#[derive(Clone, Copy, Debug, PartialEq, Eq)]
pub struct HeadState {
    /// The id of the event's definition, 0 in a metadata blob.
    pub metadata: u32,
    /// The sequence number of the event among those of its capture thread, from 1.
    pub number: u32,
    /// The thread that wrote the blob.
    pub capture: u64,
    pub processor: u32,
    /// The thread that the event speaks of.
    pub thread: u64,
    /// The id of the stack, 0 for none.
    pub stack: u32,
    /// The timestamp, in counts of the stream's clock.
    pub stamp: u64,
    pub activity: [u8; 16],
    pub related: [u8; 16],
    pub sorted: bool,
    /// Bytes of the payload.
    pub size: u32,
}

impl HeadState {
    /// The state before the first blob of a block.
    pub fn zero() -> HeadState
        ensures { result ≡ zero_state }
    {
        HeadState {
            metadata: 0,
            number: 0,
            capture: 0,
            processor: 0,
            thread: 0,
            stack: 0,
            stamp: 0,
            activity: [0; 16],
            related: [0; 16],
            sorted: false,
            size: 0,
        }
    }
}

/// The parts of a state fit their types: it reads them and does nothing.
pub fn state_fits(state: &HeadState)
    ensures { IsState state.now }
{
    ids_fit(state);
    let _capture = state.capture;
    let _thread = state.thread;
    let _stamp = state.stamp;
}

fn ids_fit(state: &HeadState)
    ensures { AreIds state.now }
{
    let _metadata = state.metadata;
    let _number = state.number;
    let _processor = state.processor;
    let _stack = state.stack;
    let _size = state.size;
}
