//! The program: it makes the real objects of the outside and hands them to the logic.
//!
//! It stands on pt_cli, whose call `tracepipe` it makes, on pt_system, for what the program has around it, on pt_client and pt_run,
//! whose words say where it listens and how often it calls, on pt_command, for the statuses, and on pt_io, for a gate that is
//! open. Everything that can be said of what it does is said by `tracepipe`, over any source, sink and link.
//!
//! What was chosen here, and why: docs/DECISIONS.md, "The program".
#![tactic(auto)]

ghost use Rattle.std.specs.Prelude.{IfOk, IsTrue};
ghost use Rattle.ep_defs.specs.Session.{is_valid_facts};

use ep_defs::Facts;
use pt_cli::tracepipe;
use pt_client::greet_of;
use pt_command::status;
use pt_io::OpenGate;
use pt_run::{Asked, Reverse, asked_of};
use pt_system::name::socket_path;
use pt_system::{
    SocketCaller, SocketDock, StandardInput, StandardOutput, SystemClock, facts_of, words,
};
use std::alloc::{AllocError, Global};
use std::process::ExitCode;
use std::{io, process, thread};

fn main(rt: HostRuntime) -> ExitCode {
    let mut input = StandardInput::new(rt.reader());
    let mut output = StandardOutput::new(io::writer(&rt));
    let process = process::id(rt.process());
    let processors = match thread::available_parallelism(&rt) {
        Ok(count) => u32::try_from(count.get()).unwrap_or(u32::MAX),
        Err(_) => 1,
    };
    let clock = SystemClock::new(rt);
    let status = match scene_of(&rt, process, processors) {
        Ok(
            Scene {
                words,
                facts,
                path,
                tries,
            },
        ) => {
            // It listens once it is asked for a peer, so for `run` and `greet` alone.
            let mut dock = SocketDock::new(rt, path);
            let mut caller = SocketCaller::new(rt, tries);
            tracepipe(
                &rt,
                rt.alloc(),
                &words,
                &facts,
                &mut input,
                &mut output,
                &mut dock,
                &mut caller,
                &clock,
                &OpenGate,
            )
            .status
        }
        Err(AllocError) => status::OUT_OF_MEMORY,
    };
    ExitCode::from(status)
}

// What the program is asked, and what it goes by.
#[derive(Drop)]
struct Scene {
    words: Vec<String>,
    // What it says of itself.
    facts: Facts,
    // Where it listens, if there is such a place.
    path: Option<String>,
    // How often it calls a tool that is not there yet, where its server calls one.
    tries: Option<u32>,
}

fn scene_of(rt: &HostRuntime, process: u32, processors: u32) -> Result<Scene, AllocError>
    ensures { IfOk result (λ scene. IsTrue (is_valid_facts scene.facts)) }
{
    let words = words(rt)?;
    let path = path_for(rt, &words, process)?;
    let tries = tries_for(rt.alloc(), &words)?;
    let facts = facts_of(rt, process, processors)?;
    Ok(Scene {
        words,
        facts,
        path,
        tries,
    })
}

// The path that the words name for a program that is to call, or else that of the process.
fn path_for(
    rt: &HostRuntime,
    words: &[String],
    process: u32,
) -> Result<Option<String>, AllocError> {
    match greet_of(rt.alloc(), words)? {
        Some(target) => Ok(Some(String::from_str(rt.alloc(), target.path())?)),
        None => Ok(socket_path(rt, process).ok()),
    }
}

// As often as there are to be links to the tool at most.
fn tries_for(alloc: Global, words: &[String]) -> Result<Option<u32>, AllocError> {
    match asked_of(alloc, words)? {
        Some(
            Asked {
                reverse: Some(Reverse { calls, .. }),
                ..
            },
        ) => Ok(Some(calls)),
        _ => Ok(None),
    }
}
