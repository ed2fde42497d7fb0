//! The words of the command line.
ghost use Rattle.std.specs.Prelude.{◌≡◌, ◌≤◌, map, IfOk, IfSome};
ghost use Rattle.std.specs.String.{string_bytes};
ghost use Rattle.pt_gen.specs.declared.limits.TheConstants.{MOST_WRITES};
ghost use Rattle.pt_gen.specs.Words.{asked_in, asked_by, seed_in, writes_in};

use crate::limits::MOST_WRITES;
use ep_plan::number;
use pt_words::two_texts;
use std::alloc::{AllocError, Global};

/// Which schedule is to be made.
#[derive(Clone, Copy, Debug)]
pub struct Asked {
    pub seed: u64,
    /// How many writes the threads make together, one in each round.
    pub writes: u32,
}

/// What the words of the command line, without the program's name, ask for, where they are `gen SEED N`.
pub fn asked_of(alloc: Global, words: &[String]) -> Result<Option<Asked>, AllocError>
    ensures meant { IfOk result (λ asked. asked ≡ asked_in (map string_bytes words.now)) }
    ensures few { IfOk result (λ asked. IfSome asked (λ asked. asked.writes ≤ MOST_WRITES)) }
{
    let [name, rest @ ..] = words else {
        return Ok(None);
    };
    if name.as_str() != "gen" {
        return Ok(None);
    }
    match two_texts(alloc, rest)? {
        Some((seed, writes)) => Ok(spelled(seed.as_bytes(), writes.as_bytes())),
        None => Ok(None),
    }
}

fn spelled(seed: &[u8], writes: &[u8]) -> Option<Asked>
    ensures meant { result ≡ asked_by (seed_in seed.now) (writes_in writes.now) }
    ensures few { IfSome result (λ asked. asked.writes ≤ MOST_WRITES) }
{
    let seed = number(seed, u64::MAX)?;
    let writes = writes_of(writes)?;
    Some(Asked { seed, writes })
}

// From 1 to the bound.
fn writes_of(word: &[u8]) -> Option<u32>
    ensures meant { result ≡ writes_in word.now }
    ensures few { IfSome result (λ writes. writes ≤ MOST_WRITES) }
{
    match u32::try_from(number(word, u64::MAX)?) {
        Ok(writes) if (1..=MOST_WRITES).contains(&writes) => Some(writes),
        _ => None,
    }
}
