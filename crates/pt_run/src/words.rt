//! The words of the command line.
ghost use Rattle.std.specs.Prelude.{◌≡◌, map, option_map, IfOk, IfSome};
ghost use Rattle.std.specs.String.{string_bytes};
ghost use Rattle.pt_words.specs.RunTexts.{texts_of};
ghost use Rattle.pt_run.specs.Words.{asked_by, asked_in, count_in, reverse_in, Fits, FitsReverse, IsCount};

use crate::limits::{
    MOST_CALLS, MOST_LIVES, MOST_STREAMERS, MOST_WAIT, USUAL_CALLS, USUAL_LIVES, USUAL_STREAMERS,
    USUAL_WAIT,
};
use crate::plan::{number_from, plan_of};
use pt_load::Plan;
use pt_words::{Run, Target, run_texts};
use std::alloc::{AllocError, Global};

/// A tool that is called.
#[derive(Debug, Drop)]
pub struct Reverse<'a> {
    /// The path of the socket at which it listens.
    pub target: Target<'a>,
    /// How many links to it there are to be at most.
    pub calls: u32,
}

/// Which run is to be made.
#[derive(Debug, Drop)]
pub struct Asked<'a> {
    /// What the threads write.
    pub plan: Plan,
    /// For how many sessions the threads wait before they write.
    pub wait: u32,
    /// How many roles write the streams of sessions.
    pub streamers: u32,
    /// How many threads have a row, one after another.
    pub lives: u32,
    /// The tool that is called in place of listening, if one is.
    pub reverse: Option<Reverse<'a>>,
}

/// What the words of the command line, without the program's name, ask for, where they are
/// `run THREADS WRITES [--seed S] [--wait N] [--streamers K] [--lives L] [--reverse TARGET] [--calls M]`.
pub fn asked_of<'a>(alloc: Global, words: &'a [String]) -> Result<Option<Asked<'a>>, AllocError>
    ensures meant { IfOk result (λ asked. asked ≡ asked_in (map string_bytes words.now)) }
    ensures fits { IfOk result (λ asked. IfSome asked Fits) }
{
    let [name, rest @ ..] = words else {
        return Ok(None);
    };
    if name.as_str() != "run" {
        return Ok(None);
    }
    match run_texts(alloc, rest)? {
        Some(texts) => Ok(spelled(&texts)),
        None => Ok(None),
    }
}

// What the texts ask for, where each of them is good.
fn spelled<'a>(texts: &Run<'a>) -> Option<Asked<'a>>
    ensures meant { result ≡ asked_by (texts_of texts.now) }
    ensures fits { IfSome result Fits }
{
    Some(Asked {
        plan: plan_of(texts.threads, texts.writes, texts.seed)?,
        wait: count_of(texts.wait, USUAL_WAIT, MOST_WAIT)?,
        streamers: count_of(texts.streamers, USUAL_STREAMERS, MOST_STREAMERS)?,
        lives: count_of(texts.lives, USUAL_LIVES, MOST_LIVES)?,
        reverse: reverse_of(texts.reverse, texts.calls)?,
    })
}

// The tool that is called, if one is. Calls without a tool are none.
fn reverse_of<'a>(target: Option<&'a str>, calls: Option<&str>) -> Option<Option<Reverse<'a>>>
    ensures meant { result ≡ reverse_in (option_map (λ text. text.now) target.entry)
        (option_map (λ text. text.now) calls.entry) }
    ensures fits { IfSome result FitsReverse }
{
    let Some(target) = target else {
        return match calls {
            Some(_) => None,
            None => Some(None),
        };
    };
    Some(Some(Reverse {
        target: Target::new(target)?,
        calls: count_of(calls, USUAL_CALLS, MOST_CALLS)?,
    }))
}

// A number from 1 to the bound, and the usual one where there is no word.
fn count_of(word: Option<&str>, usual: u32, most: u32) -> Option<u32>
    requires { IsCount most usual }
    ensures meant { result ≡ count_in usual most (option_map (λ text. text.now) word.entry) }
    ensures fits { IfSome result (IsCount most) }
{
    match word {
        Some(word) => number_from(word.as_bytes(), 1, most),
        None => Some(usual),
    }
}
