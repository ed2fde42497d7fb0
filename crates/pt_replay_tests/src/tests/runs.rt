//! The commands over memory: bytes in, and what they come to as plain data.
use pt_command::End;
use pt_gen::{asked_of, generate};
use pt_io::{MemSink, MemSource};
use pt_replay::replay;
use pt_report::write_report;
use std::alloc::{AllocError, Global};

/// A status, the offset that the command names, and the bytes that it wrote.
pub type Outcome = (u8, u64, Vec<u8>);

/// Tells which row of a table came to what, where that is not what is wanted.
pub fn compare(
    alloc: Global,
    wrong: &mut String,
    row: usize,
    found: &Outcome,
    want: (u8, u64, &[u8]),
) -> Result<(), AllocError> {
    if (found.0, found.1, found.2.as_slice()) == want {
        return Ok(());
    }
    let line = format!(in alloc; "row {row}: {found:?}\n")?;
    wrong.push_str(line.as_str())
}

/// How the calls of an input and an output go.
#[derive(Clone, Copy)]
pub struct Calls {
    /// The bytes that a read gives at most.
    pub most: usize,
    /// The number, from 1, of the read that fails, 0 for none.
    pub read: u64,
    /// The number, from 1, of the write that fails, 0 for none.
    pub write: u64,
    /// How many bytes the write that fails takes.
    pub kept: usize,
}

/// No call fails, and short inputs come in one read.
pub const GOOD: Calls = Calls {
    most: 4096,
    read: 0,
    write: 0,
    kept: 0,
};

fn source(alloc: Global, bytes: &[u8], calls: Calls) -> Result<MemSource, AllocError> {
    let bytes = bytes.to_vec(alloc)?;
    let fails = [calls.read].to_vec(alloc)?;
    Ok(MemSource::new(bytes, calls.most.max(1), fails))
}

fn sink(alloc: Global, calls: Calls) -> Result<MemSink, AllocError> {
    let fails = [calls.write].to_vec(alloc)?;
    Ok(MemSink::partial(fails, calls.kept))
}

fn outcome(alloc: Global, end: End, output: &MemSink) -> Result<Outcome, AllocError> {
    Ok((end.status(), end.at(), output.taken().to_vec(alloc)?))
}

/// The report of a stream.
pub fn reported(alloc: Global, stream: &[u8], calls: Calls) -> Result<Outcome, AllocError> {
    let mut input = source(alloc, stream, calls)?;
    let mut output = sink(alloc, calls)?;
    let end = write_report(alloc, &mut input, &mut output);
    outcome(alloc, end, &output)
}

/// The stream of a session after a schedule.
pub fn replayed(
    alloc: Global,
    session: u32,
    schedule: &[u8],
    calls: Calls,
) -> Result<Outcome, AllocError> {
    let mut input = source(alloc, schedule, calls)?;
    let mut output = sink(alloc, calls)?;
    let end = replay(alloc, session, &mut input, &mut output);
    outcome(alloc, end, &output)
}

/// The words of a command line, between spaces.
pub fn words_of(alloc: Global, line: &str) -> Result<Vec<String>, AllocError> {
    let mut words = Vec::new(alloc);
    for word in line.split(' ') {
        words.push(String::from_str(alloc, word)?)?;
    }
    Ok(words)
}

/// The summary of the schedule that a command line asks for.
pub fn generated(alloc: Global, line: &str, calls: Calls) -> Result<Outcome, AllocError> {
    let asked = asked_of(alloc, &words_of(alloc, line)?)?;
    let mut output = sink(alloc, calls)?;
    let end = match asked {
        Some(asked) => generate(alloc, asked, &mut output),
        None => End::Words,
    };
    outcome(alloc, end, &output)
}
