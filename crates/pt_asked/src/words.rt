//! The words of the command line.
ghost use Rattle.std.specs.Prelude.{◌≡◌, ◌^◌, ◌<◌, ◌≤◌, map, option_map, IfOk, IfSome};
ghost use Rattle.std.specs.String.{string_bytes};
ghost use Rattle.ep_defs.specs.declared.limits.TheConstants.{CHUNKS};
ghost use Rattle.ipc_body.specs.Request.{chunks_of};
ghost use Rattle.pt_words.specs.TraceTexts.{texts_of};
ghost use Rattle.pt_asked.specs.Words.{asked_in, asked_by, plan_in, seed_in, megabytes_in, number_from, Fits, FitsPlan};

use crate::limits::{USUAL_MEGABYTES, USUAL_SEED};
use ep_auto::{AutoFault, a_text_is_good_or_bad, read_auto};
use ep_defs::Config;
use ep_defs::limits::{THREADS, WRITES};
use ep_plan::number;
use ipc_body::limits::{MEGABYTE_CHUNKS, MEGABYTES};
use pt_load::Plan;
use pt_words::{Trace, trace_texts};
use std::alloc::{AllocError, Global};

/// What is to run, and for which session.
#[derive(Debug, PartialEq, Eq, Drop)]
pub struct Asked {
    /// What the threads write.
    pub plan: Plan,
    /// What the session is asked for.
    pub config: Config,
}

/// What the words of the command line, without the program's name, ask for, where they are this command's name and
/// `THREADS WRITES TEXT [--seed S] [--mb MB]`.
pub fn asked_of(alloc: Global, command: &str, words: &[String]) -> Result<Option<Asked>, AllocError>
    ensures meant { IfOk result (λ asked. asked ≡ asked_in command.now (map string_bytes words.now)) }
    ensures fits { IfOk result (λ asked. IfSome asked Fits) }
{
    let [name, rest @ ..] = words else {
        return Ok(None);
    };
    if name.as_str() != command {
        return Ok(None);
    }
    match trace_texts(alloc, rest)? {
        Some(texts) => spelled(alloc, &texts),
        None => Ok(None),
    }
}

// What the texts ask for, where each of them is good.
fn spelled(alloc: Global, texts: &Trace<'_>) -> Result<Option<Asked>, AllocError>
    ensures meant { IfOk result (λ asked. asked ≡ asked_by (texts_of texts.now)) }
    ensures fits { IfOk result (λ asked. IfSome asked Fits) }
{
    a_text_is_good_or_bad();
    let Some(plan) = plan_of(texts) else {
        return Ok(None);
    };
    let Some(megabytes) = megabytes_of(texts.megabytes) else {
        return Ok(None);
    };
    match read_auto(alloc, texts.text.as_bytes(), chunks_of(megabytes)) {
        Ok(config) => Ok(Some(Asked { plan, config })),
        Err(AutoFault::Bad { .. }) => Ok(None),
        Err(AutoFault::OutOfMemory) => Err(AllocError),
    }
}

// What the threads write.
fn plan_of(texts: &Trace<'_>) -> Option<Plan>
    ensures meant { result ≡ plan_in (texts_of texts.now) }
    ensures fits { IfSome result FitsPlan }
{
    let threads = number_from(texts.threads.as_bytes(), 1, THREADS)?;
    let writes = number_from(texts.writes.as_bytes(), 0, WRITES)?;
    let seed = seed_of(texts.seed)?;
    Some(Plan {
        seed,
        threads,
        writes,
    })
}

// Any number of 64 bits.
fn seed_of(word: Option<&str>) -> Option<u64>
    ensures { result ≡ seed_in (option_map (λ text. text.now) word.entry) }
{
    match word {
        Some(word) => number(word.as_bytes(), u64::MAX),
        None => Some(USUAL_SEED),
    }
}

// A budget in megabytes.
fn megabytes_of(word: Option<&str>) -> Option<u32>
    ensures meant { result ≡ megabytes_in (option_map (λ text. text.now) word.entry) }
    ensures some { IfSome result (λ megabytes. 1 ≤ megabytes) }
{
    match word {
        Some(word) => number_from(word.as_bytes(), 1, u32::MAX),
        None => Some(USUAL_MEGABYTES),
    }
}

// A number of 32 bits that is at least `least` and at most `most`.
fn number_from(word: &[u8], least: u32, most: u32) -> Option<u32>
    ensures meant { result ≡ number_from least most word.now }
    ensures low { IfSome result (λ value. least ≤ value) }
    ensures high { IfSome result (λ value. value ≤ most) }
{
    let value = number(word, u64::from(most))? as u32;
    if value < least {
        return None;
    }
    Some(value)
}

// The budget in chunks, as a server counts what it is asked for.
fn chunks_of(megabytes: u32) -> u32
    ensures meant { result ≡ chunks_of megabytes }
    ensures some { 1 ≤ megabytes → 1 ≤ result }
    ensures few { result ≤ CHUNKS }
{
    megabytes.min(MEGABYTES) * MEGABYTE_CHUNKS
}
