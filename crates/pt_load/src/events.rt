//! The events of the sample program.
ghost use Rattle.std.specs.Prelude.{◌≡◌, ◌++◌, map, take, drop, IfOk};
ghost use Rattle.pt_load.specs.Sample as sample;

use ep_defs::{EventDef, FieldDef, FieldList, Items, Units};
use std::alloc::{AllocError, Global};

/// The type code of a field for a write's index, a number of 32 bits (the NetTrace format document of PerfView).
pub const INDEX_CODE: u8 = 9;

/// The type code of a field for a write's thread, a number of 64 bits without a sign.
pub const THREAD_CODE: u8 = 12;

/// The number of the event `RequestStop`, whose payload has the thread too.
pub(crate) const REQUEST_STOP: u32 = 2;

/// The last event of requests, which have activities.
pub(crate) const LAST_REQUEST: u32 = 3;

/// The number of the event `StoreOpened`, which has no payload.
pub const STORE_OPENED: u32 = 6;

/// How many events there are.
pub(crate) const SAMPLES: u32 = 8;

/// The provider of requests.
pub const WEB: &str = "Sample-Web";

/// The provider of the store.
pub const STORE: &str = "Sample-Store";

/// The provider of jobs.
pub const JOBS: &str = "Sample-Jobs";

const INDEX: (&str, u8) = ("index", INDEX_CODE);

const THREAD: (&str, u8) = ("thread", THREAD_CODE);

/// The eight events, in the order of their numbers.
pub fn sample_events(alloc: Global) -> Result<Vec<EventDef>, AllocError>
    ensures { IfOk result (λ events. events.items ≡ sample.sample) }
{
    let mut events = Vec::with_capacity(alloc, SAMPLES as usize)?;
    push_web(alloc, &mut events)?;
    push_store(alloc, &mut events)?;
    push_jobs(alloc, &mut events)?;
    Ok(events)
}

fn push_web(alloc: Global, events: &mut Vec<EventDef>) -> Result<(), AllocError>
    ensures { IfOk result (λ _. events.new.items ≡ events.old.items ++ take 3 sample.sample) }
{
    events.push(event(alloc, WEB, 1, 4, 1, "RequestStart", &[INDEX])?)?;
    events.push(event(alloc, WEB, 2, 4, 1, "RequestStop", &[INDEX, THREAD])?)?;
    events.push(event(alloc, WEB, 3, 2, 2, "RequestFailed", &[INDEX])?)?;
    Ok(())
}

fn push_store(alloc: Global, events: &mut Vec<EventDef>) -> Result<(), AllocError>
    ensures { IfOk result (λ _. events.new.items ≡ events.old.items ++ take 3 (drop 3 sample.sample)) }
{
    events.push(event(alloc, STORE, 1, 5, 1, "PageRead", &[INDEX])?)?;
    events.push(event(alloc, STORE, 2, 4, 2, "PageWrite", &[INDEX])?)?;
    events.push(event(alloc, STORE, 3, 0, 0, "StoreOpened", &[])?)?;
    Ok(())
}

fn push_jobs(alloc: Global, events: &mut Vec<EventDef>) -> Result<(), AllocError>
    ensures { IfOk result (λ _. events.new.items ≡ events.old.items ++ drop 6 sample.sample) }
{
    events.push(event(alloc, JOBS, 1, 4, 3, "JobQueued", &[INDEX])?)?;
    events.push(event(alloc, JOBS, 2, 3, 4, "JobSlow", &[INDEX])?)?;
    Ok(())
}

// An event of version 0, with fields of these names and type codes.
fn event(
    alloc: Global,
    provider: &str,
    id: u32,
    level: u32,
    keywords: u64,
    name: &str,
    fields: &[(&str, u8)],
) -> Result<EventDef, AllocError>
    ensures { IfOk result (λ def. def
        ≡ sample.event provider.now id level keywords name.now (map (λ field. record { depth = 0; code = field.1; name = field.0.now }) fields.now)) }
{
    Ok(EventDef {
        provider: units(alloc, provider)?,
        id,
        version: 0,
        level,
        keywords,
        name: units(alloc, name)?,
        fields: outermost(alloc, fields)?,
    })
}

/// The units of an ASCII text.
pub fn units(alloc: Global, text: &str) -> Result<Units, AllocError>
    ensures { IfOk result (λ units. units ≡ text.now) }
{
    let mut units = Vec::with_capacity(alloc, text.len())?;
    for byte in text.bytes() {
        units.push(u16::from(byte))?;
    }
    Ok(Items::new(units))
}

fn outermost(alloc: Global, fields: &[(&str, u8)]) -> Result<FieldList, AllocError>
    ensures { IfOk result (λ defs. defs
        ≡ map (λ field. record { depth = 0; code = field.1; name = field.0.now }) fields.now) }
{
    let mut defs = Vec::with_capacity(alloc, fields.len())?;
    for field in fields {
        defs.push(FieldDef {
            depth: 0,
            code: field.1,
            name: units(alloc, field.0)?,
        })?;
    }
    Ok(Items::new(defs))
}
