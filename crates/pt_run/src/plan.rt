//! The words that say what the sample program writes.
ghost use Rattle.std.specs.Prelude.{◌≡◌, ◌≤◌, option_map, IfSome};
ghost use Rattle.pt_run.specs.Plans.{number_from, plan_in, seed_in, FitsPlan};

use crate::limits::USUAL_SEED;
use ep_defs::limits::{THREADS, WRITES};
use ep_plan::number;
use pt_load::Plan;

/// What the threads write, where the words are good: 1 to 256 threads, 0 to 4,000,000,000 writes of each, and any number of
/// 64 bits for the seed, which is 0 where there is none.
pub fn plan_of(threads: &str, writes: &str, seed: Option<&str>) -> Option<Plan>
    ensures meant { result ≡ plan_in threads.now writes.now (option_map (λ text. text.now) seed.entry) }
    ensures fits { IfSome result FitsPlan }
{
    let threads = number_from(threads.as_bytes(), 1, THREADS)?;
    let writes = number_from(writes.as_bytes(), 0, WRITES)?;
    let seed = seed_of(seed)?;
    Some(Plan {
        seed,
        threads,
        writes,
    })
}

// Any number of 64 bits.
fn seed_of(word: Option<&str>) -> Option<u64>
    ensures { result ≡ seed_in (option_map (λ text. text.now) word.entry) }
{
    match word {
        Some(word) => number(word.as_bytes(), u64::MAX),
        None => Some(USUAL_SEED),
    }
}

/// The number that a word spells, where it is at least `least` and at most `most`.
pub fn number_from(word: &[u8], least: u32, most: u32) -> Option<u32>
    ensures meant { result ≡ number_from least most word.now }
    ensures low { IfSome result (λ value. least ≤ value) }
    ensures high { IfSome result (λ value. value ≤ most) }
{
    let value = number(word, u64::from(most))? as u32;
    if value < least {
        return None;
    }
    Some(value)
}
