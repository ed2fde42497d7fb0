//! The lines of a report.
ghost use Rattle.std.specs.Prelude.{◌≡◌, ℕ, ◌++◌, List, OnOk};
ghost use Rattle.std.specs.List.{flat_map};
ghost use Rattle.std.specs.BTreeMap.{keys};
ghost use Rattle.std.specs.Cmp.Lexicographic.{slice_cmp};
ghost use Rattle.std.specs.Ordering.{nat_cmp};
ghost use Rattle.ep_defs.specs.declared.item.ItemKind.{ItemKind};
ghost use Rattle.nt_check.specs.Numbers.{numbers_of};
ghost use Rattle.nt_check.specs.state.Took.{Took};
ghost use Rattle.pt_report.specs.declared.key.EventKey.{EventKey};
ghost use Rattle.pt_report.specs.Keys.{key_order};
ghost use Rattle.pt_report.specs.Report.{trace_lines, items_line, lines_of, provider_line, event_line, event_numbers, thread_line, numbers_line, stack_line};
ghost use Rattle.pt_report.specs.state.Counts.{Counts};

use crate::counters::Totals;
use crate::key::{EventKey, Text};
use crate::tally::Tally;
use ep_defs::TraceInfo;
use nt_check::{Checker, Numbers};
use pt_print::{put_end, put_number, put_text, put_units, put_word};
use std::alloc::{AllocError, Global};

pub fn put_trace(out: &mut Vec<u8>, trace: &Option<TraceInfo>) -> Result<(), AllocError>
    ensures { OnOk result (out.new.items ≡ out.old.items ++ trace_lines trace.now) }
{
    let Some(info) = trace else {
        return Ok(());
    };
    put_word(out, "trace")?;
    put_number(out, u64::from(info.pointer_size))?;
    put_number(out, u64::from(info.process_id))?;
    put_number(out, u64::from(info.processors))?;
    put_end(out)
}

pub fn put_items(out: &mut Vec<u8>, totals: &Totals) -> Result<(), AllocError>
    ensures { OnOk result (out.new.items
        ≡ out.old.items ++ items_line totals.now.events totals.now.metadata totals.now.stacks totals.now.points) }
{
    put_word(out, "items")?;
    put_number(out, totals.events)?;
    put_number(out, totals.metadata)?;
    put_number(out, totals.stacks)?;
    put_number(out, totals.points)?;
    put_end(out)
}

pub fn put_providers(out: &mut Vec<u8>, providers: &Tally<Text<u16>>) -> Result<(), AllocError>
    ensures { OnOk result ((names : List (List ℕ)) → (uses : List (List ℕ))
        → Counts (slice_cmp nat_cmp) names uses providers.now
        → out.new.items ≡ out.old.items ++ lines_of (slice_cmp nat_cmp) provider_line names uses) }
{
    for name in providers.places.keys() {
        put_provider(out, name.as_slice(), providers.uses(name))?;
    }
    Ok(())
}

fn put_provider(out: &mut Vec<u8>, name: &[u16], events: u64) -> Result<(), AllocError>
    ensures { OnOk result (out.new.items ≡ out.old.items ++ provider_line name.now events) }
{
    put_word(out, "provider")?;
    put_number(out, events)?;
    put_units(out, name)?;
    put_end(out)
}

pub fn put_events(out: &mut Vec<u8>, counts: &Tally<EventKey>) -> Result<(), AllocError>
    ensures { OnOk result ((names : List EventKey) → (uses : List EventKey)
        → Counts key_order names uses counts.now
        → out.new.items ≡ out.old.items ++ lines_of key_order event_line names uses) }
{
    for event in counts.places.keys() {
        put_event(out, event, counts.uses(event))?;
    }
    Ok(())
}

fn put_event(out: &mut Vec<u8>, event: &EventKey, events: u64) -> Result<(), AllocError>
    ensures { OnOk result (out.new.items ≡ out.old.items ++ event_line event.now events) }
{
    put_event_numbers(out, event, events)?;
    put_units(out, event.provider.as_slice())?;
    put_units(out, event.name.as_slice())?;
    put_end(out)
}

fn put_event_numbers(out: &mut Vec<u8>, event: &EventKey, events: u64) -> Result<(), AllocError>
    ensures { OnOk result (out.new.items ≡ out.old.items ++ event_numbers event.now events) }
{
    put_word(out, "event")?;
    put_number(out, events)?;
    put_number(out, u64::from(event.id))?;
    put_number(out, u64::from(event.version))
}

pub fn put_threads(
    out: &mut Vec<u8>,
    threads: &Tally<u64>,
    checker: &Checker,
) -> Result<(), AllocError>
    ensures { OnOk result ((kinds : List ItemKind) → Took kinds checker.now → out.new.items ≡ out.old.items
        ++ flat_map (λ thread. numbers_line thread (numbers_of thread kinds)) (keys threads.now.places)) }
{
    for thread in threads.places.keys() {
        if let Some(numbers) = checker.gaps(*thread) {
            put_thread(out, *thread, &numbers)?;
        }
    }
    Ok(())
}

fn put_thread(out: &mut Vec<u8>, thread: u64, numbers: &Numbers) -> Result<(), AllocError>
    ensures { OnOk result (out.new.items ≡ out.old.items ++ thread_line thread numbers.now) }
{
    put_word(out, "thread")?;
    put_number(out, thread)?;
    put_number(out, numbers.events)?;
    put_number(out, u64::from(numbers.last))?;
    put_number(out, numbers.gaps)?;
    put_end(out)
}

pub fn put_stacks(
    out: &mut Vec<u8>,
    alloc: Global,
    stacks: &Tally<Text<u8>>,
) -> Result<(), AllocError>
    ensures { OnOk result ((names : List (List ℕ)) → (uses : List (List ℕ))
        → Counts (slice_cmp nat_cmp) names uses stacks.now
        → out.new.items ≡ out.old.items ++ lines_of (slice_cmp nat_cmp) stack_line names uses) }
{
    for stack in stacks.places.keys() {
        put_stack(out, alloc, stack.as_slice(), stacks.uses(stack))?;
    }
    Ok(())
}

fn put_stack(out: &mut Vec<u8>, alloc: Global, stack: &[u8], events: u64) -> Result<(), AllocError>
    ensures { OnOk result (out.new.items ≡ out.old.items ++ stack_line stack.now events) }
{
    put_word(out, "stack")?;
    put_number(out, events)?;
    put_text(out, hex::encode(alloc, stack)?.as_bytes())?;
    put_end(out)
}
