//! Paths of the tests' own.
use std::{env, io, process};

/// A path for a socket of this name, which no other test and no other run of the tests has.
pub(super) fn path_of(rt: HostRuntime, name: &str) -> io::Result<String> {
    let folder = env::temp_dir(&rt)?;
    let process = process::id(rt.process());
    Ok(format!(in rt.alloc(); "{}/system-{process}-{name}", folder.display())?)
}
