//! Rules.
ghost use Rattle.std.specs.Prelude.{◌≡◌, ◌++◌, IsTrue, IfOk, OnOk};
ghost use Rattle.ep_plan.specs.Words.{is_name, rule_in, rule_text};

use super::names::{provider, put_name};
use super::numbers::{hexadecimal, number, put_hexadecimal, put_number};
use super::split::three_parts;
use ep_defs::Rule;
use std::alloc::{AllocError, Global};

/// A rule: a provider's name, keywords of 1 to 16 hexadecimal digits, and a level in decimal digits, joined by colons.
pub fn rule(alloc: Global, word: &[u8]) -> Result<Option<Rule>, AllocError>
    ensures { IfOk result (λ rule. rule ≡ rule_in word.now) }
{
    let Some((name, keywords, level)) = three_parts(word, b':') else {
        return Ok(None);
    };
    let Some(keywords) = hexadecimal(keywords) else {
        return Ok(None);
    };
    let Some(level) = number(level, u32::MAX as u64) else {
        return Ok(None);
    };
    let Some(name) = provider(alloc, name)? else {
        return Ok(None);
    };
    Ok(Some(Rule {
        name,
        keywords,
        level: level as u32,
    }))
}

/// Appends a rule whose name `provider` can read.
pub(crate) fn put_rule(out: &mut Vec<u8>, rule: &Rule) -> Result<(), AllocError>
    requires { IsTrue (is_name rule.now.name) }
    ensures { OnOk result (out.new.items ≡ out.old.items ++ rule_text rule.now) }
{
    put_name(out, rule.name.as_slice())?;
    out.extend_from_slice(b":")?;
    put_hexadecimal(out, rule.keywords)?;
    out.extend_from_slice(b":")?;
    put_number(out, u64::from(rule.level))
}
