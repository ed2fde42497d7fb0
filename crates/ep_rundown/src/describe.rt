//! What describes a definition.
ghost use Rattle.std.specs.Prelude.{◌≡◌, ◌<◌, ◌≤◌, length, IsTrue, IfOk};
ghost use Rattle.ep_defs.specs.declared.limits.TheConstants.{PAYLOAD_BYTES};
ghost use Rattle.ep_defs.specs.Event.{is_valid_event};
ghost use Rattle.ep_rundown.specs.Rundown as rundown;
ghost use Rattle.nt_meta.specs.declared.limits.TheConstants.{LAST_ID};

use ep_defs::{EventDef, Items, Units};
use nt_meta::put_meta;
use std::alloc::{AllocError, Global};

const PROVIDER: &str = "Pipe-Rundown";

const NAME: &str = "EventDescription";

const LEVEL: u32 = 4;

/// The definition of the events that describe others: event 1 of the provider `Pipe-Rundown`, without fields.
pub fn rundown_def(alloc: Global) -> Result<EventDef, AllocError>
    ensures is { IfOk result (λ def. def ≡ rundown.rundown_def) }
    ensures valid { IsTrue (is_valid_event rundown.rundown_def) }
{
    Ok(EventDef {
        provider: units(alloc, PROVIDER)?,
        id: 1,
        version: 0,
        level: LEVEL,
        keywords: 0,
        name: units(alloc, NAME)?,
        fields: Items::new(Vec::new(alloc)),
    })
}

/// The payload of the event that describes a definition with this metadata id: at most 60,000 bytes.
pub fn description(alloc: Global, id: u32, def: &EventDef) -> Result<Vec<u8>, AllocError>
    requires valid { IsTrue (is_valid_event def.now) }
    requires not_zero { 0 < id }
    requires id_fits { id ≤ LAST_ID }
    ensures is { IfOk result (λ payload. payload.items ≡ rundown.description id def.now) }
    ensures short { length (rundown.description id def.now) ≤ PAYLOAD_BYTES }
{
    let mut payload = Vec::new(alloc);
    put_meta(&mut payload, id, def)?;
    Ok(payload)
}

// The units of an ASCII text.
fn units(alloc: Global, text: &str) -> Result<Units, AllocError>
    ensures { IfOk result (λ units. units ≡ text.now) }
{
    let mut units = Vec::with_capacity(alloc, text.len())?;
    for byte in text.bytes() {
        units.push(u16::from(byte))?;
    }
    Ok(Items::new(units))
}
