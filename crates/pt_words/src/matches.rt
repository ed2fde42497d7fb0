//! What `clap` makes of the words of a command.
ghost use Rattle.std.specs.Prelude.{◌≡◌, IfOk, map, true};
ghost use Rattle.std.specs.String.{string_bytes};
ghost use Rattle.clap.specs.Words.{app_of, is_simple_and_free};
ghost use Rattle.pt_words.specs.Matches.{IsRead};

use clap::error::ErrorKind;
use clap::{ArgMatches, Command};
use std::alloc::{AllocError, Global};

/// The matches of a command that is simple, where it takes the words.
pub(crate) fn matches_of<'a>(
    command: Command<'a>,
    words: &'a [String],
) -> Result<Option<ArgMatches<'a>>, AllocError>
    ensures { is_simple_and_free (app_of command.entry) ≡ true
        → IfOk result (IsRead (app_of command.entry) (map string_bytes words.now)) }
{
    match command.try_get_matches_from(words) {
        Ok(matches) => Ok(Some(matches)),
        Err(error) if error.kind() == ErrorKind::OutOfMemory => Err(AllocError),
        Err(_) => Ok(None),
    }
}
