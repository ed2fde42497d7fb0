//! Reading a text.
ghost use Rattle.std.specs.Prelude.{◌≡◌, ◌<◌, ◌≤◌, ◌+◌, ◌^◌, ◌⊎◌, ℕ, List, length, not, is_some, IsTrue, IfOk, IfErr, Some};
ghost use Rattle.ep_defs.specs.declared.limits.TheConstants.{CHUNKS};
ghost use Rattle.ep_defs.specs.Session.{is_valid_config};
ghost use Rattle.ep_auto.specs.declared.fault.AutoFault.TheVariants.{OutOfMemory};
ghost use Rattle.ep_auto.specs.Fields.{rule_in, fields_at, first_wrong};
ghost use Rattle.ep_auto.specs.StartUp.{has_too_many, config_in, fault_in};

use crate::fault::{AutoFault, AutoKind};
use crate::fields::{field, keywords, level};
use ep_defs::limits::RULES;
use ep_defs::{Config, Items, Rule};
use ep_plan::provider;
use std::alloc::Global;

/// Reads a start-up text, for a session with stacks and this budget: parts that are joined by commas, each of them
/// `NAME`, `NAME:KEYWORDS` or `NAME:KEYWORDS:LEVEL`, with anything after a third colon.
pub fn read_auto(alloc: Global, text: &[u8], chunks: u32) -> Result<Config, AutoFault>
    requires some { 1 ≤ chunks }
    requires few { chunks ≤ CHUNKS }
    ensures meant { IfOk result (λ config. Some config ≡ config_in chunks text.now) }
    ensures valid { IfOk result (λ config. IsTrue (is_valid_config config)) }
    ensures wrong { IfErr result (λ fault. (fault ≡ OutOfMemory) ⊎ (Some fault ≡ fault_in text.now)) }
{
    if has_too_many(text) {
        return Err(AutoFault::Bad {
            column: 1,
            kind: AutoKind::Count,
        });
    }
    let mut rules = Vec::new(alloc);
    let mut column = 1;
    for part in text.split(|byte| *byte == b',') {
        rules.push(rule(alloc, part, column)?)?;
        column += part.len() as u64 + 1;
    }
    Ok(Config {
        rules: Items::new(rules),
        chunks,
        stackwalk: true,
        rundown: false,
    })
}

// Whether there are more parts than a session can have rules.
fn has_too_many(text: &[u8]) -> bool
    ensures { result ≡ has_too_many text.now }
{
    text.split(|byte| *byte == b',').count() > RULES
}

// The rule of a part that begins at this column.
fn rule(alloc: Global, part: &[u8], column: u64) -> Result<Rule, AutoFault>
    requires { column + length part.now + 2 < 2 ^ 64 }
    ensures meant { IfOk result (λ rule. Some rule ≡ rule_in part.now) }
    ensures wrong { IfErr result (λ fault. (fault ≡ OutOfMemory)
        ⊎ (Some fault ≡ first_wrong (fields_at column part.now))) }
{
    let Some(name) = provider(alloc, field(part, 0))? else {
        return Err(AutoFault::Bad {
            column,
            kind: AutoKind::Name,
        });
    };
    let column = column + field(part, 0).len() as u64 + 1;
    let Some(keywords) = keywords(field(part, 1)) else {
        return Err(AutoFault::Bad {
            column,
            kind: AutoKind::Keywords,
        });
    };
    let column = column + field(part, 1).len() as u64 + 1;
    let Some(level) = level(field(part, 2)) else {
        return Err(AutoFault::Bad {
            column,
            kind: AutoKind::Level,
        });
    };
    Ok(Rule {
        name,
        keywords,
        level,
    })
}

/// A text has a fault exactly where it means no configuration.
pub fn a_text_is_good_or_bad()
    ensures { (chunks : ℕ) (text : List ℕ) → is_some (config_in chunks text) ≡ not (is_some (fault_in text)) }
{}
