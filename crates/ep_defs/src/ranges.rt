//! Laws: what the types of the code say of each value.
//!
//! Definitions and contracts speak of all numbers. What needs to know that a value's numbers have 8, 16, 32 or 64 bits
//! calls its law here; it reads the numbers and does nothing.
ghost use Rattle.std.specs.Prelude.{◌^◌, ◌<◌, All, IsTrue};
ghost use Rattle.ep_defs.specs.Event.{is_valid_event};
ghost use Rattle.ep_defs.specs.Ranges.{AreBytes, AreUnits, ConfigFits, EventFits, RuleFits, WriteFits};
ghost use Rattle.ep_defs.specs.Session.{is_info};

use crate::event::EventDef;
use crate::session::{Config, Rule, TraceInfo, Write};

/// Bytes have 8 bits.
pub fn bytes_fit(bytes: &[u8])
    ensures { AreBytes bytes.now }
{
    let _count = bytes.len();
}

/// Units of UTF-16 have 16 bits.
pub fn units_fit(units: &[u16])
    ensures { AreUnits units.now }
{
    let _count = units.len();
}

/// Frames have 64 bits.
pub fn frames_fit(frames: &[u64])
    ensures { All (λ frame. frame < 2 ^ 64) frames.now }
{
    let _count = frames.len();
}

/// The numbers of a valid definition fit their types.
pub fn event_fits(def: &EventDef)
    ensures { IsTrue (is_valid_event def.now) → EventFits def.now }
{
    let _id = def.id;
    let _version = def.version;
    let _level = def.level;
    let _keywords = def.keywords;
}

/// The numbers of a rule fit their types.
pub fn rule_fits(rule: &Rule)
    ensures { RuleFits rule.now }
{
    units_fit(rule.name.as_slice());
    let _keywords = rule.keywords;
    let _level = rule.level;
}

/// The numbers of a configuration and of its rules fit their types.
pub fn config_fits(config: &Config)
    ensures { ConfigFits config.now }
{
    let _chunks = config.chunks;
    for rule in config.rules.as_slice() {
        rule_fits(rule);
    }
}

/// The numbers of a write fit their types, and its ids have 16 bytes.
pub fn write_fits(write: &Write)
    ensures { WriteFits write.now }
{
    let _event = write.event;
    bytes_fit(&write.activity);
    bytes_fit(&write.related);
    frames_fit(write.frames.as_slice());
    bytes_fit(write.payload.as_slice());
}

/// The numbers of a program's Trace content fit their types.
pub fn info_fits(info: &TraceInfo)
    ensures { IsTrue (is_info info.now) }
{
    units_fit(&info.date);
    let _sync = info.sync;
    let _frequency = info.frequency;
    let _pointer_size = info.pointer_size;
    let _process_id = info.process_id;
    let _processors = info.processors;
    let _rate = info.rate;
}
