//! The words of a command whose one option is `--session`.
ghost use Rattle.std.specs.Prelude.{◌≡◌, IfOk, map, option_map};
ghost use Rattle.std.specs.List.{list_any};
ghost use Rattle.std.specs.String.{string_bytes};
ghost use Rattle.pt_words.specs.Session.{is_foreign, session_in};

use crate::commands::session_option;
use crate::matches::matches_of;
use crate::positions::is_option;
use std::alloc::{AllocError, Global};

/// The text of the option `--session`, which is the word after it, or stands after `=` in its own word.
///
/// `Some(None)` where there are no words, and None where they are others: with a word over, with the option twice or
/// without a text, or where a word begins with `-` and is not the option.
pub fn session_text<'a>(
    alloc: Global,
    words: &'a [String],
) -> Result<Option<Option<&'a str>>, AllocError>
    ensures { IfOk result (λ text. option_map (option_map (λ t. t.now)) text
        ≡ session_in (map string_bytes words.now)) }
{
    if has_foreign(words) {
        return Ok(None);
    }
    match matches_of(session_option(alloc)?, words)? {
        Some(matches) => Ok(Some(matches.get_str("session"))),
        None => Ok(None),
    }
}

// Whether a word begins with `-` and is not the option.
fn has_foreign(words: &[String]) -> bool
    ensures { result ≡ list_any (λ word. is_foreign (string_bytes word)) words.now }
{
    words.iter().any(|word| is_foreign(word))
}

fn is_foreign(word: &String) -> bool
    ensures { result ≡ is_foreign (string_bytes word.now) }
{
    is_option(word) && word.as_str() != "--session" && !word.as_bytes().starts_with(b"--session=")
}
