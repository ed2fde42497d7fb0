//! The words of a command of two positions with the options `--seed`, `--wait`, `--streamers`, `--lives`, `--reverse` and `--calls`.
ghost use Rattle.std.specs.Prelude.{◌≡◌, ◌||◌, ◌++◌, ◌∷◌, [], IfOk, map, nat_eq, option_map};
ghost use Rattle.std.specs.List.{list_any, starts_with};
ghost use Rattle.std.specs.Str.{bytes_eq};
ghost use Rattle.std.specs.String.{string_bytes};
ghost use Rattle.clap.specs.Words.{found_of, first_value};
ghost use Rattle.pt_words.specs.Options.{is_foreign, is_known};
ghost use Rattle.pt_words.specs.Run.{run_in, run_options, common_options, calling_options};
ghost use Rattle.pt_words.specs.RunTexts.{run_from, texts_of};

use crate::commands::run_words;
use crate::matches::matches_of;
use crate::positions::is_option;
use clap::ArgMatches;
use std::alloc::{AllocError, Global};

/// The texts of two positions, and of the options that are there.
#[derive(Clone, Copy, Debug)]
pub struct Run<'a> {
    pub threads: &'a str,
    pub writes: &'a str,
    pub seed: Option<&'a str>,
    pub wait: Option<&'a str>,
    pub streamers: Option<&'a str>,
    pub lives: Option<&'a str>,
    pub reverse: Option<&'a str>,
    pub calls: Option<&'a str>,
}

/// The texts of two positions, and of the options `--seed`, `--wait`, `--streamers`, `--lives`, `--reverse` and `--calls`, each of
/// which may stand before, between or after them, as two words or as one with `=`.
///
/// None where there are more positions or fewer, where an option stands twice or has no text, or where a word begins
/// with `-` and is not one of them.
pub fn run_texts<'a>(alloc: Global, words: &'a [String]) -> Result<Option<Run<'a>>, AllocError>
    ensures { IfOk result (λ texts. option_map texts_of texts ≡ run_in (map string_bytes words.now)) }
{
    if has_foreign(words) {
        return Ok(None);
    }
    match matches_of(run_words(alloc)?, words)? {
        Some(matches) => Ok(texts_of(&matches)),
        None => Ok(None),
    }
}

// The texts of the matches, where each position has one.
fn texts_of<'a>(matches: &ArgMatches<'a>) -> Option<Run<'a>>
    ensures { option_map texts_of result ≡ run_from (first_value (found_of matches.now)) }
{
    Some(Run {
        threads: matches.get_str("one")?,
        writes: matches.get_str("two")?,
        seed: matches.get_str("seed"),
        wait: matches.get_str("wait"),
        streamers: matches.get_str("streamers"),
        lives: matches.get_str("lives"),
        reverse: matches.get_str("reverse"),
        calls: matches.get_str("calls"),
    })
}

// Whether a word begins with `-` and is no option of the command.
fn has_foreign(words: &[String]) -> bool
    ensures { result ≡ list_any (λ word. is_foreign run_options (string_bytes word)) words.now }
{
    words.iter().any(|word| is_foreign(word))
}

fn is_foreign(word: &String) -> bool
    ensures { result ≡ is_foreign run_options (string_bytes word.now) }
{
    is_option(word) && !is_known(word)
}

#[tactic(auto, using(crate::proofs::RunKnown::known_run))]
fn is_known(word: &String) -> bool
    ensures { result ≡ is_known run_options (string_bytes word.now) }
{
    is_common(word) || is_calling(word)
}

// Whether a word is an option of any run, alone or with its text.
fn is_common(word: &String) -> bool
    ensures { result ≡ is_known common_options (string_bytes word.now) }
{
    is_named(word, "--seed", "--seed=")
        || is_named(word, "--wait", "--wait=")
        || is_named(word, "--streamers", "--streamers=")
        || is_named(word, "--lives", "--lives=")
}

// Whether it is one of a run that calls a tool.
fn is_calling(word: &String) -> bool
    ensures { result ≡ is_known calling_options (string_bytes word.now) }
{
    is_named(word, "--reverse", "--reverse=") || is_named(word, "--calls", "--calls=")
}

// Whether a word is an option alone, or begins as the option with its text does.
fn is_named(word: &String, alone: &str, attached: &str) -> bool
    ensures { result ≡ (bytes_eq (string_bytes word.now) alone.now
        || starts_with nat_eq (string_bytes word.now) attached.now) }
{
    word.as_str() == alone || word.as_bytes().starts_with(attached.as_bytes())
}
