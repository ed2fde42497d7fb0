//! Where this process listens: the name that .NET's runtime gives to a process's diagnostic socket, and by which its tools
//! find it.

use std::alloc::{AllocError, Global};
use std::env::Env;
use std::fs::Files;
use std::{env, fs, io};

/// Where sockets stand where the environment names no folder.
const USUAL_FOLDER: &str = "/tmp";

/// The place of a process's start among the words behind its name in `/proc/self/stat`: proc(5) has it as the 22nd word of
/// the line, `starttime`. It is in ticks since the machine's start.
const START_PLACE: usize = 19;

/// The path of the socket of this process, whose number is `process`:
/// `dotnet-diagnostic-{process}-{key}-socket` in the folder that `TMPDIR` names, else in `/tmp`. The key is the process's
/// start, so that two processes that get one number in turn have different names.
///
/// It fails where the folder's name is no UTF-8, where the system does not tell the start, and where it is out of memory.
pub fn socket_path<R: Env + Files + AllocGlobal>(rt: &R, process: u32) -> io::Result<String> {
    let stat = fs::read_to_string(rt, "/proc/self/stat")?;
    let Some(key) = start_in(stat.as_str()) else {
        return Err(io::Error::from(io::ErrorKind::InvalidData));
    };
    let named = env::temp_dir(rt)?;
    Ok(path_in(rt.alloc(), named.as_str(), process, key)?)
}

/// The path of the socket of a process of this number and start, in the folder that is named, or else in the usual one.
pub fn path_in(alloc: Global, named: &str, process: u32, key: u64) -> Result<String, AllocError> {
    let folder = if named.is_empty() {
        USUAL_FOLDER
    } else {
        named
    };
    format!(in alloc; "{folder}/dotnet-diagnostic-{process}-{key}-socket")
}

/// The start of a process, in the line that the system tells of it, None where it has none. The process's own name stands in
/// front of the words, in parentheses, and may hold blanks and parentheses itself.
pub fn start_in(stat: &str) -> Option<u64> {
    let (_name, words) = stat.rsplit_once(')')?;
    words
        .split_ascii_whitespace()
        .nth(START_PLACE)?
        .parse::<u64>()
        .ok()
}
