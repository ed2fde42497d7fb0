//! Requests as a client puts them.

ghost use Rattle.std.specs.Prelude.{◌≡◌, ◌+◌, ◌≤◌, ◌++◌, length, OnOk, OnErr, vec_len, vec_capacity};
ghost use Rattle.std.specs.Option.{SomeIff};
ghost use Rattle.std.specs.List.{flat_map};
ghost use Rattle.ipc_frame.specs.declared.limits.TheConstants.{MESSAGE_BYTES};
ghost use Rattle.pt_num.specs.Texts.{text_c};
ghost use Rattle.ipc_body.specs.Asking.{collect_request, stop_request, info_request, provider_bytes};

use crate::commands::{
    COLLECT_TRACING2, EVENT_PIPE, NETTRACE, PROCESS, PROCESS_INFO, STOP_TRACING,
};
use ep_defs::Rule;
use ipc_frame::limits::{HEADER_BYTES, MESSAGE_BYTES};
use ipc_frame::{header, put_message};
use std::alloc::AllocError;

/// The session that a client asks for: CollectTracing2 with the format NetTrace and without a rundown.
#[derive(Clone, Copy, Debug)]
pub struct Asked<'a> {
    /// The session's budget.
    pub megabytes: u32,
    pub rules: &'a [Rule],
}

// The bytes of a request for a session before its providers: its header, and the 13 bytes of budget, format, rundown
// and count.
const BEFORE_PROVIDERS: usize = HEADER_BYTES + 13;

// The bytes of a provider beside the units of its name: keywords, level, the count and the final zero of the name, and
// the count of the filter.
const BESIDE_NAME: usize = 22;

/// The bytes of the request for this session, or none where they are more than a message may have.
pub fn collect_size(asked: &Asked) -> Option<usize>
    ensures { let size = length (collect_request asked.now.megabytes asked.now.rules.now) in SomeIff result (size ≤ MESSAGE_BYTES) size }
{
    let rules = asked.rules;
    let mut size = BEFORE_PROVIDERS;
    for rule in rules {
        let units = rule.name.as_slice().len();
        if units > MESSAGE_BYTES || size + BESIDE_NAME + 2 * units > MESSAGE_BYTES {
            return None;
        }
        size += BESIDE_NAME + 2 * units;
    }
    Some(size)
}

/// Appends the request for this session.
pub fn put_collect(out: &mut Vec<u8>, asked: &Asked) -> Result<(), AllocError>
    requires { length (collect_request asked.now.megabytes asked.now.rules.now) ≤ MESSAGE_BYTES }
    ensures ok { OnOk result (out.new.items
        ≡ out.old.items ++ collect_request asked.now.megabytes asked.now.rules.now) }
    ensures err { OnErr result (out.new.items ≡ out.old.items) }
{
    let Some(size) = collect_size(asked) else {
        unreachable!();
    };
    out.reserve(size)?;
    push_collect(out, asked, size as u16);
    Ok(())
}

/// Appends the request to end the session of this id.
#[tactic(auto, unfolding(pt_num::specs::Numbers::fixed))]
pub fn put_stop(out: &mut Vec<u8>, id: u64) -> Result<(), AllocError>
    ensures ok { OnOk result (out.new.items ≡ out.old.items ++ stop_request id) }
    ensures err { OnErr result (out.new.items ≡ out.old.items) }
{
    put_message(out, EVENT_PIPE, STOP_TRACING, &id.to_le_bytes())
}

/// Appends the request for what a process says of itself.
pub fn put_info(out: &mut Vec<u8>) -> Result<(), AllocError>
    ensures ok { OnOk result (out.new.items ≡ out.old.items ++ info_request) }
    ensures err { OnErr result (out.new.items ≡ out.old.items) }
{
    put_message(out, PROCESS, PROCESS_INFO, &[])
}

// Appends the request for this session, of this size, for which there is room.
#[tactic(auto, unfolding(pt_num::specs::Numbers::fixed))]
fn push_collect(out: &mut Vec<u8>, asked: &Asked, size: u16)
    requires whole { size ≡ length (collect_request asked.now.megabytes asked.now.rules.now) }
    requires room { vec_len out.old + size ≤ vec_capacity out.old }
    ensures { out.new.items ≡ out.old.items ++ collect_request asked.now.megabytes asked.now.rules.now }
{
    push_all(out, &header(EVENT_PIPE, COLLECT_TRACING2, size));
    push_all(out, &asked.megabytes.to_le_bytes());
    push_all(out, &NETTRACE.to_le_bytes());
    push_all(out, &[0]);
    push_all(out, &(asked.rules.len() as u32).to_le_bytes());
    push_providers(out, asked.rules);
}

// Appends providers, for which there is room.
fn push_providers(out: &mut Vec<u8>, rules: &[Rule])
    requires few { length (flat_map provider_bytes rules.now) ≤ MESSAGE_BYTES }
    requires room { vec_len out.old + length (flat_map provider_bytes rules.now) ≤ vec_capacity out.old }
    ensures { out.new.items ≡ out.old.items ++ flat_map provider_bytes rules.now }
{
    for rule in rules {
        push_provider(out, rule);
    }
}

#[tactic(auto, unfolding(pt_num::specs::Numbers::fixed))]
fn push_provider(out: &mut Vec<u8>, rule: &Rule)
    requires few { length (provider_bytes rule.now) ≤ MESSAGE_BYTES }
    requires room { vec_len out.old + length (provider_bytes rule.now) ≤ vec_capacity out.old }
    ensures items { out.new.items ≡ out.old.items ++ provider_bytes rule.now }
    ensures len { vec_len out.new ≡ vec_len out.old + length (provider_bytes rule.now) }
    ensures capacity { vec_capacity out.new ≡ vec_capacity out.old }
{
    push_all(out, &rule.keywords.to_le_bytes());
    push_all(out, &rule.level.to_le_bytes());
    push_text(out, rule.name.as_slice());
    push_all(out, &0u32.to_le_bytes());
}

// Appends a text with its count, for which there is room. A name may be longer than the texts that are written
// elsewhere.
#[tactic(auto, unfolding(pt_num::specs::Numbers::fixed))]
fn push_text(out: &mut Vec<u8>, units: &[u16])
    requires few { length units.now ≤ MESSAGE_BYTES }
    requires room { vec_len out.old + length (text_c units.now) ≤ vec_capacity out.old }
    ensures items { out.new.items ≡ out.old.items ++ text_c units.now }
    ensures len { vec_len out.new ≡ vec_len out.old + length (text_c units.now) }
    ensures capacity { vec_capacity out.new ≡ vec_capacity out.old }
{
    push_all(out, &(units.len() as u32 + 1).to_le_bytes());
    for unit in units {
        push_all(out, &unit.to_le_bytes());
    }
    push_all(out, &0u16.to_le_bytes());
}

// Appends bytes for which there is room.
fn push_all(out: &mut Vec<u8>, bytes: &[u8])
    requires { vec_len out.old + length bytes.now ≤ vec_capacity out.old }
    ensures items { out.new.items ≡ out.old.items ++ bytes.now }
    ensures len { vec_len out.new ≡ vec_len out.old + length bytes.now }
    ensures capacity { vec_capacity out.new ≡ vec_capacity out.old }
{
    for byte in bytes {
        out.push_reserved(*byte);
    }
}
