//! The words of a command of three positions with the options `--seed` and `--mb`.
ghost use Rattle.std.specs.Prelude.{◌≡◌, IfOk, map, option_map, codes};
ghost use Rattle.std.specs.List.{list_any};
ghost use Rattle.std.specs.String.{string_bytes};
ghost use Rattle.clap.specs.Words.{found_of, first_value};
ghost use Rattle.pt_words.specs.Trace.{is_foreign, is_known, trace_in};
ghost use Rattle.pt_words.specs.TraceTexts.{texts_of, trace_from};

use crate::commands::trace_words;
use crate::matches::matches_of;
use crate::positions::is_option;
use clap::ArgMatches;
use std::alloc::{AllocError, Global};

/// The texts of three positions, and of the options that are there.
#[derive(Clone, Copy, Debug)]
pub struct Trace<'a> {
    pub threads: &'a str,
    pub writes: &'a str,
    pub text: &'a str,
    pub seed: Option<&'a str>,
    pub megabytes: Option<&'a str>,
}

/// The texts of three positions, and of the options `--seed` and `--mb`, each of which may stand before, between or
/// after them, as two words or as one with `=`.
///
/// None where there are more positions or fewer, where an option stands twice or has no text, or where a word begins
/// with `-` and is not one of them.
pub fn trace_texts<'a>(alloc: Global, words: &'a [String]) -> Result<Option<Trace<'a>>, AllocError>
    ensures { IfOk result (λ texts. option_map texts_of texts ≡ trace_in (map string_bytes words.now)) }
{
    if has_foreign(words) {
        return Ok(None);
    }
    match matches_of(trace_words(alloc)?, words)? {
        Some(matches) => Ok(texts_of(&matches)),
        None => Ok(None),
    }
}

// The texts of the matches, where each position has one.
fn texts_of<'a>(matches: &ArgMatches<'a>) -> Option<Trace<'a>>
    ensures { option_map texts_of result ≡ trace_from (first_value (found_of matches.now)) }
{
    Some(Trace {
        threads: matches.get_str("one")?,
        writes: matches.get_str("two")?,
        text: matches.get_str("three")?,
        seed: matches.get_str("seed"),
        megabytes: matches.get_str("mb"),
    })
}

// Whether a word begins with `-` and is no option of the command.
fn has_foreign(words: &[String]) -> bool
    ensures { result ≡ list_any (λ word. is_foreign (string_bytes word)) words.now }
{
    words.iter().any(|word| is_foreign(word))
}

fn is_foreign(word: &String) -> bool
    ensures { result ≡ is_foreign (string_bytes word.now) }
{
    is_option(word) && !is_seed(word) && !is_megabytes(word)
}

fn is_seed(word: &String) -> bool
    ensures { result ≡ is_known (codes "--seed") (string_bytes word.now) }
{
    word.as_str() == "--seed" || word.as_bytes().starts_with(b"--seed=")
}

fn is_megabytes(word: &String) -> bool
    ensures { result ≡ is_known (codes "--mb") (string_bytes word.now) }
{
    word.as_str() == "--mb" || word.as_bytes().starts_with(b"--mb=")
}
