//! The words of a command that has no options.
ghost use Rattle.std.specs.Prelude.{◌≡◌, ◌<◌, ◌^◌, ℕ, List, IfOk, map, length, option_map, codes};
ghost use Rattle.std.specs.List.{list_any};
ghost use Rattle.std.specs.String.{string_bytes};
ghost use Rattle.clap.specs.Words.{found_of, first_value, matched_of, raw_values};
ghost use Rattle.pt_words.specs.Words.{is_option, has_option, one_in, two_in, several_in, texts_of, pair_of, several_from};

use crate::commands::{one_position, several_positions, two_positions};
use crate::matches::matches_of;
use clap::ArgMatches;
use std::alloc::{AllocError, Global};

/// Two texts, and one or more after them.
#[derive(Debug, Drop)]
pub struct Several<'a> {
    pub one: &'a str,
    pub two: &'a str,
    pub rest: Vec<&'a str>,
}

/// The text of the only word. None where there are more or none, or where it begins with `-`.
pub fn one_text<'a>(alloc: Global, words: &'a [String]) -> Result<Option<&'a str>, AllocError>
    ensures { IfOk result (λ text. option_map (λ t. t.now) text ≡ one_in (map string_bytes words.now)) }
{
    if has_option(words) {
        return Ok(None);
    }
    match matches_of(one_position(alloc)?, words)? {
        Some(matches) => Ok(matches.get_str("one")),
        None => Ok(None),
    }
}

/// The texts of two words. None where there are more or fewer, or where one begins with `-`.
pub fn two_texts<'a>(
    alloc: Global,
    words: &'a [String],
) -> Result<Option<(&'a str, &'a str)>, AllocError>
    ensures { IfOk result (λ texts. option_map pair_of texts ≡ two_in (map string_bytes words.now)) }
{
    if has_option(words) {
        return Ok(None);
    }
    match matches_of(two_positions(alloc)?, words)? {
        Some(matches) => Ok(matches.get_str("one").zip(matches.get_str("two"))),
        None => Ok(None),
    }
}

/// The texts of three words or more. None where there are fewer, or where one begins with `-`.
pub fn several_texts<'a>(
    alloc: Global,
    words: &'a [String],
) -> Result<Option<Several<'a>>, AllocError>
    ensures { IfOk result (λ texts. option_map texts_of texts ≡ several_in (map string_bytes words.now)) }
{
    if has_option(words) {
        return Ok(None);
    }
    match matches_of(several_positions(alloc)?, words)? {
        Some(matches) => several_of(alloc, &matches),
        None => Ok(None),
    }
}

// The texts of three positions, where each has one.
fn several_of<'a>(
    alloc: Global,
    matches: &ArgMatches<'a>,
) -> Result<Option<Several<'a>>, AllocError>
    ensures { let found = found_of matches.now in IfOk result (λ texts. option_map texts_of texts
        ≡ several_from (first_value found (codes "one")) (first_value found (codes "two"))
        (option_map raw_values (matched_of found (codes "rest")))) }
{
    let Some(one) = matches.get_str("one") else {
        return Ok(None);
    };
    let Some(two) = matches.get_str("two") else {
        return Ok(None);
    };
    let Some(rest) = matches.get_strs("rest") else {
        return Ok(None);
    };
    let rest = rest.to_vec(alloc)?;
    Ok(Some(Several { one, two, rest }))
}

// Whether a word begins with `-`.
fn has_option(words: &[String]) -> bool
    ensures found { result ≡ list_any (λ word. is_option (string_bytes word)) words.now }
    ensures few { length words.now < 2 ^ 64 }
{
    words.iter().any(|word| is_option(word))
}

/// Whether the word begins with `-`.
pub(crate) fn is_option(word: &String) -> bool
    ensures { result ≡ is_option (string_bytes word.now) }
{
    match word.as_bytes() {
        [first, ..] => *first == b'-',
        [] => false,
    }
}
