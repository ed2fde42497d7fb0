//! The commands that `clap` is given. None has help, a version or a name before its words.
ghost use Rattle.std.specs.Prelude.{◌≡◌, IfOk, false};
ghost use Rattle.clap.specs.Words.{app_of, rule_of};
ghost use Rattle.pt_words.specs.Commands.{plain_command, position_rule, several_rule, option_rule, one_app, two_app, several_app, session_app, trace_app, common_app, run_app};

use clap::{Arg, ArgAction, Command};
use std::alloc::{AllocError, Global};

/// One position.
pub(crate) fn one_position<'a>(alloc: Global) -> Result<Command<'a>, AllocError>
    ensures { IfOk result (λ command. app_of command ≡ one_app) }
{
    plain_command(alloc).arg(position(alloc, "one"))
}

/// Two positions.
pub(crate) fn two_positions<'a>(alloc: Global) -> Result<Command<'a>, AllocError>
    ensures { IfOk result (λ command. app_of command ≡ two_app) }
{
    one_position(alloc)?.arg(position(alloc, "two"))
}

/// Two positions, and after them one or more.
pub(crate) fn several_positions<'a>(alloc: Global) -> Result<Command<'a>, AllocError>
    ensures { IfOk result (λ command. app_of command ≡ several_app) }
{
    two_positions(alloc)?.arg(several(alloc))
}

/// The option `--session`, which has one text.
pub(crate) fn session_option<'a>(alloc: Global) -> Result<Command<'a>, AllocError>
    ensures { IfOk result (λ command. app_of command ≡ session_app) }
{
    plain_command(alloc).arg(Arg::new(alloc, "session").long("session"))
}

/// Three positions, and the options `--seed` and `--mb`, each of which has one text.
pub(crate) fn trace_words<'a>(alloc: Global) -> Result<Command<'a>, AllocError>
    ensures { IfOk result (λ command. app_of command ≡ trace_app) }
{
    two_positions(alloc)?
        .arg(position(alloc, "three"))?
        .arg(option(alloc, "seed"))?
        .arg(option(alloc, "mb"))
}

// Two positions, and the options `--seed`, `--wait`, `--streamers` and `--lives`, each of which has one text.
fn common_words<'a>(alloc: Global) -> Result<Command<'a>, AllocError>
    ensures { IfOk result (λ command. app_of command ≡ common_app) }
{
    two_positions(alloc)?
        .arg(option(alloc, "seed"))?
        .arg(option(alloc, "wait"))?
        .arg(option(alloc, "streamers"))?
        .arg(option(alloc, "lives"))
}

/// The same, and the options `--reverse` and `--calls`, each of which has one text.
pub(crate) fn run_words<'a>(alloc: Global) -> Result<Command<'a>, AllocError>
    ensures { IfOk result (λ command. app_of command ≡ run_app) }
{
    common_words(alloc)?
        .arg(option(alloc, "reverse"))?
        .arg(option(alloc, "calls"))
}

// No positions.
fn plain_command<'a>(alloc: Global) -> Command<'a>
    ensures { app_of result ≡ plain_command }
{
    Command::new(alloc, "words")
        .no_binary_name(true)
        .disable_help_flag(true)
        .disable_version_flag(true)
}

// A word that has to be there.
fn position<'a>(alloc: Global, id: &'a str) -> Arg<'a>
    ensures rule { rule_of result ≡ position_rule id.entry.now }
    ensures local { result.global ≡ false }
{
    Arg::new(alloc, id).required(true)
}

// An option with one text.
fn option<'a>(alloc: Global, name: &'a str) -> Arg<'a>
    ensures rule { rule_of result ≡ option_rule name.entry.now }
    ensures local { result.global ≡ false }
{
    Arg::new(alloc, name).long(name)
}

// One word or more.
fn several<'a>(alloc: Global) -> Arg<'a>
    ensures rule { rule_of result ≡ several_rule }
    ensures local { result.global ≡ false }
{
    position(alloc, "rest")
        .action(ArgAction::Append)
        .num_args(1..)
}
