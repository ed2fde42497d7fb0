//! What the words of the command line ask a client for.
ghost use Rattle.std.specs.Prelude.{◌≡◌, ℕ, List, map, IfOk, IfSome};
ghost use Rattle.std.specs.String.{string_bytes};
ghost use Rattle.pt_client.specs.Words.{command_in, megabytes_in, rules_in, collect_in, stop_in, ps_in, without_options};
ghost use Rattle.pt_client.specs.Answers.{Fits};

use ep_defs::limits::RULES;
use ep_defs::{Items, RuleList};
use ep_plan::{number, rule};
use ipc_body::{Asked, collect_size};
use pt_words::{Target, one_text, several_texts, two_texts};
use std::alloc::{AllocError, Global};

/// What a client is to ask of a peer.
#[derive(Debug, Drop)]
pub enum Command<'a> {
    /// For a session of this budget, whose stream is written.
    Collect {
        target: Target<'a>,
        megabytes: u32,
        rules: RuleList,
    },
    /// For the end of a session.
    Stop {
        target: Target<'a>,
        id: u64,
    },
    /// For what the program says of itself.
    Ps {
        target: Target<'a>,
    },
}

impl<'a> Command<'a> {
    ghost use Rattle.std.specs.Prelude.{◌≡◌};
    ghost use Rattle.pt_client.specs.Answers.{target_of};

    /// The path of the socket that is called.
    pub fn target(&self) -> &'a str
        ensures { result.now ≡ target_of self.now }
    {
        match self {
            Command::Collect { target, .. }
            | Command::Stop { target, .. }
            | Command::Ps { target } => target.path(),
        }
    }
}

/// What the words of the command line, without the program's name, ask a client for, if anything.
pub fn command_of<'a>(alloc: Global, words: &'a [String]) -> Result<Option<Command<'a>>, AllocError>
    ensures meant { IfOk result (λ command. command ≡ command_in (map string_bytes words.now)) }
    ensures fits { IfOk result (λ command. IfSome command Fits) }
{
    let [name, rest @ ..] = words else {
        return Ok(None);
    };
    match name.as_str() {
        "collect" => collect(alloc, rest),
        "stop" => stop(alloc, rest),
        "ps" => ps(alloc, rest),
        _ => Ok(None),
    }
}

// The words after `collect`.
fn collect<'a>(alloc: Global, words: &'a [String]) -> Result<Option<Command<'a>>, AllocError>
    ensures meant { IfOk result (λ command. command ≡ without_options collect_in (map string_bytes words.now)) }
    ensures fits { IfOk result (λ command. IfSome command Fits) }
{
    let Some(texts) = several_texts(alloc, words)? else {
        return Ok(None);
    };
    let Some(target) = Target::new(texts.one) else {
        return Ok(None);
    };
    let Some(megabytes) = megabytes_of(texts.two.as_bytes()) else {
        return Ok(None);
    };
    let Some(rules) = rules_of(alloc, &texts.rest)? else {
        return Ok(None);
    };
    let asked = Asked {
        megabytes,
        rules: rules.as_slice(),
    };
    if collect_size(&asked).is_none() {
        return Ok(None);
    }
    Ok(Some(Command::Collect {
        target,
        megabytes,
        rules,
    }))
}

// The words after `stop`.
fn stop<'a>(alloc: Global, words: &'a [String]) -> Result<Option<Command<'a>>, AllocError>
    ensures meant { IfOk result (λ command. command ≡ without_options stop_in (map string_bytes words.now)) }
    ensures fits { IfOk result (λ command. IfSome command Fits) }
{
    let Some((target, id)) = two_texts(alloc, words)? else {
        return Ok(None);
    };
    let Some(target) = Target::new(target) else {
        return Ok(None);
    };
    let Some(id) = number(id.as_bytes(), u64::MAX) else {
        return Ok(None);
    };
    Ok(Some(Command::Stop { target, id }))
}

// The words after `ps`.
fn ps<'a>(alloc: Global, words: &'a [String]) -> Result<Option<Command<'a>>, AllocError>
    ensures meant { IfOk result (λ command. command ≡ without_options ps_in (map string_bytes words.now)) }
    ensures fits { IfOk result (λ command. IfSome command Fits) }
{
    let Some(target) = one_text(alloc, words)? else {
        return Ok(None);
    };
    let Some(target) = Target::new(target) else {
        return Ok(None);
    };
    Ok(Some(Command::Ps { target }))
}

// A budget.
fn megabytes_of(word: &[u8]) -> Option<u32>
    ensures { result ≡ megabytes_in word.now }
{
    match u32::try_from(number(word, u64::MAX)?) {
        Ok(0) | Err(_) => None,
        Ok(megabytes) => Some(megabytes),
    }
}

// 1 to 1,000 rules.
fn rules_of(alloc: Global, words: &[&str]) -> Result<Option<RuleList>, AllocError>
    ensures { IfOk result (λ rules. rules ≡ rules_in (map (λ word. word.now) words.now)) }
{
    if words.is_empty() || words.len() > RULES {
        return Ok(None);
    }
    let mut rules = Vec::new(alloc);
    for word in words {
        let Some(rule) = rule(alloc, word.as_bytes())? else {
            return Ok(None);
        };
        rules.push(rule)?;
    }
    Ok(Some(Items::new(rules)))
}
