//! The words of the command line.
ghost use Rattle.std.specs.Prelude.{◌≡◌, map, IfOk, IfSome};
ghost use Rattle.std.specs.String.{string_bytes};
ghost use Rattle.pt_cli.specs.Words.{meant, replay_in, is_report, session_number, Fits};

use ep_plan::number;
use pt_asked::{Asked, asked_of};
use pt_client::{Target, greet_of};
use pt_events::{Form, form_of};
use pt_words::session_text;
use std::alloc::{AllocError, Global};

/// What the words of the command line ask for.
#[derive(Debug, Drop)]
pub enum Command<'a> {
    /// For the stream of a session after a schedule.
    Replay { session: u32 },
    /// For the report of a stream.
    Report,
    /// For the events of a stream one by one, in this form: `events`, `convert` or `page`.
    Events(Form),
    /// For a schedule that is made and summed up.
    Gen(pt_gen::Asked),
    /// For a trace of the sample program.
    Trace(Asked),
    /// For a listener over the sample program.
    Watch(Asked),
    /// For a run of the sample program with its diagnostic server.
    Run(pt_run::Asked<'a>),
    /// For something of a peer.
    Client(pt_client::Command<'a>),
    /// For who calls first at this path.
    Greet(Target<'a>),
}

/// What the words of the command line, without the program's name, ask for.
pub(crate) fn command_of<'a>(
    alloc: Global,
    words: &'a [String],
) -> Result<Option<Command<'a>>, AllocError>
    ensures meant { IfOk result (λ command. command ≡ meant (map string_bytes words.now)) }
    ensures fits { IfOk result (λ command. IfSome command Fits) }
{
    if let Some(session) = session_of(alloc, words)? {
        return Ok(Some(Command::Replay { session }));
    }
    if is_report(words) {
        return Ok(Some(Command::Report));
    }
    if let Some(form) = form_of(words) {
        return Ok(Some(Command::Events(form)));
    }
    if let Some(asked) = pt_gen::asked_of(alloc, words)? {
        return Ok(Some(Command::Gen(asked)));
    }
    if let Some(asked) = asked_of(alloc, "trace", words)? {
        return Ok(Some(Command::Trace(asked)));
    }
    if let Some(asked) = asked_of(alloc, "watch", words)? {
        return Ok(Some(Command::Watch(asked)));
    }
    if let Some(asked) = pt_run::asked_of(alloc, words)? {
        return Ok(Some(Command::Run(asked)));
    }
    if let Some(command) = pt_client::command_of(alloc, words)? {
        return Ok(Some(Command::Client(command)));
    }
    match greet_of(alloc, words)? {
        Some(target) => Ok(Some(Command::Greet(target))),
        None => Ok(None),
    }
}

// The session whose stream the words ask for.
fn session_of(alloc: Global, words: &[String]) -> Result<Option<u32>, AllocError>
    ensures { IfOk result (λ session. session ≡ replay_in (map string_bytes words.now)) }
{
    let [name, rest @ ..] = words else {
        return Ok(None);
    };
    if name.as_str() != "replay" {
        return Ok(None);
    }
    match session_text(alloc, rest)? {
        Some(Some(digits)) => Ok(session_number(digits.as_bytes())),
        Some(None) => Ok(Some(1)),
        None => Ok(None),
    }
}

// Whether the words are `report`.
fn is_report(words: &[String]) -> bool
    ensures { result ≡ is_report (map string_bytes words.now) }
{
    match words {
        [name] => name.as_str() == "report",
        _ => false,
    }
}

// From 1 on.
fn session_number(digits: &[u8]) -> Option<u32>
    ensures { result ≡ session_number digits.now }
{
    match u32::try_from(number(digits, u64::MAX)?) {
        Ok(0) | Err(_) => None,
        Ok(session) => Some(session),
    }
}
