//! The two sessions.
ghost use Rattle.std.specs.Prelude.{◌≡◌, IfOk};
ghost use Rattle.pt_gen.specs.Schedule.{all_of, config_of, narrow, wide};
ghost use Rattle.pt_gen.specs.state.ToCome.{number_of};

use crate::limits::{NARROW, NARROW_CHUNKS, WIDE, WIDE_CHUNKS};
use ep_defs::{Config, Items, Rule};
use pt_load::{JOBS, STORE, WEB, units};
use std::alloc::{AllocError, Global};

/// The finest level.
const VERBOSE: u32 = 5;

/// The level of events that only inform.
const INFORMATIONAL: u32 = 4;

/// One of the two sessions.
#[derive(Clone, Copy, Debug)]
pub(crate) enum Session {
    Wide,
    Narrow,
}

impl Session {
    pub(crate) fn number(self) -> u32
        ensures { result ≡ number_of self }
    {
        match self {
            Session::Wide => WIDE,
            Session::Narrow => NARROW,
        }
    }

    // What the session asks for.
    pub(crate) fn config(self, alloc: Global) -> Result<Config, AllocError>
        ensures { IfOk result (λ config. config ≡ config_of (number_of self)) }
    {
        match self {
            Session::Wide => wide(alloc),
            Session::Narrow => narrow(alloc),
        }
    }
}

fn wide(alloc: Global) -> Result<Config, AllocError>
    ensures { IfOk result (λ config. config ≡ wide) }
{
    let mut rules = Vec::with_capacity(alloc, 3)?;
    rules.push(all_of(alloc, WEB)?)?;
    rules.push(all_of(alloc, STORE)?)?;
    rules.push(all_of(alloc, JOBS)?)?;
    Ok(Config {
        rules: Items::new(rules),
        chunks: WIDE_CHUNKS,
        stackwalk: true,
        rundown: false,
    })
}

fn narrow(alloc: Global) -> Result<Config, AllocError>
    ensures { IfOk result (λ config. config ≡ narrow) }
{
    let mut rules = Vec::with_capacity(alloc, 1)?;
    rules.push(Rule {
        name: units(alloc, STORE)?,
        keywords: 1,
        level: INFORMATIONAL,
    })?;
    Ok(Config {
        rules: Items::new(rules),
        chunks: NARROW_CHUNKS,
        stackwalk: true,
        rundown: false,
    })
}

// A rule for all events of a provider.
fn all_of(alloc: Global, provider: &str) -> Result<Rule, AllocError>
    ensures { IfOk result (λ rule. rule ≡ all_of provider.now) }
{
    Ok(Rule {
        name: units(alloc, provider)?,
        keywords: u64::MAX,
        level: VERBOSE,
    })
}
