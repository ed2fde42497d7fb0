//! Writing the line of a step.
ghost use Rattle.std.specs.Prelude.{◌≡◌, ◌++◌, ℕ, true, [], ◌∷◌, List, map, IsTrue, IfOk, OnOk};
ghost use Rattle.std.specs.List.{list_all, join_with_byte};
ghost use Rattle.ep_defs.specs.declared.event.EventDef.{EventDef};
ghost use Rattle.ep_model.specs.declared.step.Step.TheVariants.{Accept};
ghost use Rattle.ep_plan.specs.declared.line.Line.TheVariants.{Step as StepLine};
ghost use Rattle.ep_plan.specs.Lines.{form_of, IsLine};
ghost use Rattle.ep_plan.specs.Words.{space, is_name, id_text, frames_text, payload_text, rule_text};
ghost use Rattle.ep_plan.specs.Printing.{spaced, number_words, step_text, has_parts, can_print};

use crate::verb::Verb;
use crate::words::{put_frames, put_id, put_number, put_payload, put_rule};
use ep_defs::{Config, Rule, Write};
use ep_model::Step;
use ep_model::ranges::step_fits;
use std::alloc::{AllocError, Global};

/// The line of a step, without its line feed. It takes a step that a line can hold: names that the text can hold, in
/// an Accept 1 to `RULES` rules, and at most `LINE_BYTES` bytes.
pub fn print_step(alloc: Global, step: &Step) -> Result<Vec<u8>, AllocError>
    requires { IsTrue (can_print step.now) }
    ensures text { IfOk result (λ text. text.items ≡ step_text step.now) }
    // what is printed is read back as that step
    ensures read { IfOk result (λ text. (events : List EventDef) (stepped : _)
        → IsLine events stepped text.items (StepLine step.now)) }
{
    step_fits(step);
    let mut line = Vec::new(alloc);
    put_step(&mut line, step)?;
    Ok(line)
}

// Appends the line of a step.
fn put_step(line: &mut Vec<u8>, step: &Step) -> Result<(), AllocError>
    requires { IsTrue (has_parts step.now) }
    ensures { OnOk result (line.new.items ≡ line.old.items ++ step_text step.now) }
{
    match step {
        Step::Accept { session, config } => put_accept(line, *session, config),
        Step::Enter { thread } => put_numbers(line, Verb::Enter, &[u64::from(*thread)]),
        Step::Leave { thread } => put_numbers(line, Verb::Leave, &[u64::from(*thread)]),
        Step::Open { session, thread } => put_pair(line, Verb::Open, *session, *thread),
        Step::Begin {
            thread,
            stamp,
            write,
        } => {
            let event = u64::from(write.event);
            put_numbers(line, Verb::Begin, &[u64::from(*thread), *stamp, event])?;
            put_write(line, write)
        }
        Step::Show { thread, session } => put_pair(line, Verb::Show, *thread, *session),
        Step::End { thread } => put_numbers(line, Verb::End, &[u64::from(*thread)]),
        Step::Steal { session, thread } => put_pair(line, Verb::Steal, *session, *thread),
        Step::Give { session } => put_numbers(line, Verb::Give, &[u64::from(*session)]),
        Step::Point { session, stamp } => {
            put_numbers(line, Verb::Point, &[u64::from(*session), *stamp])
        }
        Step::Close { session, thread } => put_pair(line, Verb::Close, *session, *thread),
        Step::Finish { session, stamp } => {
            put_numbers(line, Verb::Finish, &[u64::from(*session), *stamp])
        }
    }
}

// Appends the line of an Accept: `accept4` where the session has a rundown, else `accept` where it has stacks, else
// `accept3` with the flag 0.
fn put_accept(line: &mut Vec<u8>, session: u32, config: &Config) -> Result<(), AllocError>
    requires { IsTrue (has_parts (Accept session config.now)) }
    ensures { OnOk result (line.new.items ≡ line.old.items ++ step_text (Accept session config.now)) }
{
    if config.rundown {
        return put_accept4(line, session, config);
    }
    let session = u64::from(session);
    let chunks = u64::from(config.chunks);
    let rules = config.rules.as_slice();
    if config.stackwalk {
        put_numbers(line, Verb::Accept, &[session, chunks])?;
        put_rules(line, rules)
    } else {
        put_numbers(line, Verb::Accept3, &[session, chunks, 0])?;
        put_rules(line, rules)
    }
}

// Appends the line of an Accept with a rundown, which has both flags.
fn put_accept4(line: &mut Vec<u8>, session: u32, config: &Config) -> Result<(), AllocError>
    requires parts { IsTrue (has_parts (Accept session config.now)) }
    requires ends { config.now.rundown ≡ true }
    ensures { OnOk result (line.new.items ≡ line.old.items ++ step_text (Accept session config.now)) }
{
    let session = u64::from(session);
    let chunks = u64::from(config.chunks);
    let stacks = u64::from(config.stackwalk);
    put_numbers(line, Verb::Accept4, &[session, chunks, stacks, 1])?;
    put_rules(line, config.rules.as_slice())
}

// Appends a verb and two numbers below 2 ^ 32.
fn put_pair(line: &mut Vec<u8>, verb: Verb, first: u32, second: u32) -> Result<(), AllocError>
    ensures { OnOk result (line.new.items
        ≡ line.old.items ++ join_with_byte space (number_words (form_of verb).name (first ∷ second ∷ []))) }
{
    put_numbers(line, verb, &[u64::from(first), u64::from(second)])
}

// Appends a verb and numbers.
fn put_numbers(line: &mut Vec<u8>, verb: Verb, numbers: &[u64]) -> Result<(), AllocError>
    ensures { OnOk result (line.new.items
        ≡ line.old.items ++ join_with_byte space (number_words (form_of verb).name numbers.now)) }
{
    line.extend_from_slice(verb.name())?;
    for number in numbers {
        line.extend_from_slice(b" ")?;
        put_number(line, *number)?;
    }
    Ok(())
}

// Appends each rule as a word more.
fn put_rules(line: &mut Vec<u8>, rules: &[Rule]) -> Result<(), AllocError>
    requires { IsTrue (list_all (λ rule. is_name rule.name) rules.now) }
    ensures { OnOk result (line.new.items ≡ line.old.items ++ spaced (map rule_text rules.now)) }
{
    for rule in rules {
        put_rule_word(line, rule)?;
    }
    Ok(())
}

// Appends a rule as a word more.
fn put_rule_word(line: &mut Vec<u8>, rule: &Rule) -> Result<(), AllocError>
    requires { IsTrue (is_name rule.now.name) }
    ensures { OnOk result (line.new.items ≡ line.old.items ++ space ∷ rule_text rule.now) }
{
    line.extend_from_slice(b" ")?;
    put_rule(line, rule)
}

// Appends what a write has beside its event.
fn put_write(line: &mut Vec<u8>, write: &Write) -> Result<(), AllocError>
    ensures { OnOk result (line.new.items ≡ line.old.items
        ++ spaced (id_text write.now.activity ∷ id_text write.now.related ∷ frames_text write.now.frames ∷ payload_text write.now.payload ∷ [])) }
{
    put_id_word(line, &write.activity)?;
    put_id_word(line, &write.related)?;
    put_frames_word(line, write.frames.as_slice())?;
    put_payload_word(line, write.payload.as_slice())
}

// Appends an id as a word more.
fn put_id_word(line: &mut Vec<u8>, id: &[u8; 16]) -> Result<(), AllocError>
    ensures { OnOk result (line.new.items ≡ line.old.items ++ space ∷ id_text id.now) }
{
    line.extend_from_slice(b" ")?;
    put_id(line, id)
}

// Appends return addresses as a word more.
fn put_frames_word(line: &mut Vec<u8>, frames: &[u64]) -> Result<(), AllocError>
    ensures { OnOk result (line.new.items ≡ line.old.items ++ space ∷ frames_text frames.now) }
{
    line.extend_from_slice(b" ")?;
    put_frames(line, frames)
}

// Appends a payload as a word more.
fn put_payload_word(line: &mut Vec<u8>, payload: &[u8]) -> Result<(), AllocError>
    ensures { OnOk result (line.new.items ≡ line.old.items ++ space ∷ payload_text payload.now) }
{
    line.extend_from_slice(b" ")?;
    put_payload(line, payload)
}
