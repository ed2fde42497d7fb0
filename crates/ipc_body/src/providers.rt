//! The providers of a request for a session.

ghost use Rattle.std.specs.Prelude.{◌≡◌, ◌<◌, length, IsTrue, IfOk};
ghost use Rattle.ipc_body.specs.Read.{AnswersWanted, ReadsWanted};
ghost use Rattle.ipc_body.specs.Request.{name_at, provider_at, whole_providers, are_named};

use crate::request::RequestFault;
use ep_defs::{Rule, RuleList, Units, units_of};
use pt_num::{TakenText, take_counted, take_u32, take_u64};
use std::alloc::Global;

/// This many providers, which take all of these bytes.
pub fn read_providers(alloc: Global, bytes: &[u8], count: u32) -> Result<RuleList, RequestFault>
    ensures exact { AnswersWanted (whole_providers count bytes.now) result }
    ensures many { IfOk result (λ rules. length rules ≡ count) }
    ensures named { IfOk result (λ rules. IsTrue (are_named rules)) }
{
    let mut rules = Vec::new(alloc);
    let mut used = 0;
    for _place in 0..count {
        match read_provider(alloc, &bytes[used..]) {
            Ok((rule, more)) => {
                rules.push(rule)?;
                used += more;
            }
            Err(fault) => return Err(fault),
        }
    }
    if used != bytes.len() {
        return Err(RequestFault::BadEncoding);
    }
    Ok(RuleList::new(rules))
}

// The provider at the front of the bytes, and the number of its bytes.
fn read_provider(alloc: Global, bytes: &[u8]) -> Result<(Rule, usize), RequestFault>
    ensures exact { ReadsWanted (provider_at bytes.now) bytes.now result }
    ensures named { IfOk result (λ taken. 0 < length taken.0.name) }
{
    let Some(keywords) = take_u64(bytes) else {
        return Err(RequestFault::BadEncoding);
    };
    let Some(level) = take_u32(&bytes[8..]) else {
        return Err(RequestFault::BadEncoding);
    };
    let (name, used) = read_name(alloc, &bytes[12..])?;
    match take_counted(&bytes[12 + used..]) {
        TakenText::Units { used: filter, .. } => {
            let rule = Rule {
                name,
                keywords,
                level,
            };
            Ok((rule, 12 + used + filter))
        }
        TakenText::Short => Err(RequestFault::BadEncoding),
        TakenText::NoZero => Err(RequestFault::BadEncoding),
    }
}

// The name at the front of the bytes, which is not empty, and the number of its bytes.
fn read_name(alloc: Global, bytes: &[u8]) -> Result<(Units, usize), RequestFault>
    ensures exact { ReadsWanted (name_at bytes.now) bytes.now result }
    ensures some { IfOk result (λ taken. 0 < length taken.0) }
{
    match take_counted(bytes) {
        TakenText::Units { count, used } if count > 0 => {
            let name = units_of(alloc, &bytes[4..4 + 2 * count])?;
            Ok((name, used))
        }
        _ => Err(RequestFault::BadEncoding),
    }
}
