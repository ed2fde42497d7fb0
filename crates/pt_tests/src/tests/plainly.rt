//! How the tests call the commands that wait for nobody.
use super::texts::list_of;
use pt_cli::plain;
use pt_io::{MemSink, MemSource};
use std::alloc::{AllocError, Global};

/// Words, and what the commands have around them that wait for nobody.
#[derive(Clone, Copy, Debug)]
pub(super) struct Call<'a> {
    pub(super) words: &'a [&'a str],
    /// What the input gives, and how much in a read at most.
    pub(super) bytes: &'a [u8],
    pub(super) most: usize,
    /// The number of the output's write that fails, from 1, or 0, and how many bytes it takes.
    pub(super) failing: u64,
    pub(super) keep: usize,
}

/// These words over an input of these bytes, where nothing fails.
pub(super) fn call_of<'a>(words: &'a [&'a str], bytes: &'a [u8]) -> Call<'a> {
    Call {
        words,
        bytes,
        most: 4_096,
        failing: 0,
        keep: 0,
    }
}

// The call alone.
fn status_of(alloc: Global, words: &[String], input: &mut MemSource, output: &mut MemSink) -> u8 {
    plain(alloc, words, input, output).status
}

/// What the program answers, and what it writes.
pub(super) fn run(alloc: Global, call: &Call<'_>) -> Result<(u8, Vec<u8>), AllocError> {
    let words = list_of(alloc, call.words)?;
    let failing = [call.failing].to_vec(alloc)?;
    let bytes = call.bytes.to_vec(alloc)?;
    let mut input = MemSource::new(bytes, call.most.max(1), Vec::new(alloc));
    let mut output = MemSink::partial(failing, call.keep);
    let status = status_of(alloc, &words, &mut input, &mut output);
    Ok((status, output.taken().to_vec(alloc)?))
}
