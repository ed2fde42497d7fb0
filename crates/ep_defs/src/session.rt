//! Sessions, the writes that they get, and what a program says of itself.
ghost use Rattle.std.specs.Prelude.{◌≡◌, length, nat_lt};
ghost use Rattle.std.specs.List.{list_all};
ghost use Rattle.ep_defs.specs.Admits.{rule_admits, session_admits};
ghost use Rattle.ep_defs.specs.Session as valid;
ghost use Rattle.ep_defs.specs.Session.{is_valid_config, is_valid_facts, standard_info_of};

use crate::event::EventDef;
use crate::limits::{CHUNKS, FACTS_UNITS, FRAMES, PAYLOAD_BYTES, RULES};
use crate::list::{Bytes, Duplicate, Frames, Items, Units};
use std::alloc::{AllocError, Global};

/// Counts of the profile's clock in a second: it counts nanoseconds.
pub const CLOCK_FREQUENCY: u64 = 1_000_000_000;

/// The bytes of a pointer.
pub const POINTER_BYTES: u32 = 8;

/// Which events of a provider a session wants.
#[derive(Debug, PartialEq, Eq, Drop)]
pub struct Rule {
    /// The provider's name.
    pub name: Units,
    /// Events without keywords, and those that share a bit with these.
    pub keywords: u64,
    /// Events of level 0, and those of at most this level.
    pub level: u32,
}

pub type RuleList = Items<Rule>;

/// What a session was asked for.
#[derive(Debug, PartialEq, Eq, Drop)]
pub struct Config {
    pub rules: RuleList,
    /// The session's budget, in chunks of `limits::CHUNK_BYTES`.
    pub chunks: u32,
    /// Whether the stream has the stack of each event.
    pub stackwalk: bool,
    /// Whether the stream ends with a rundown of the definitions that it used.
    pub rundown: bool,
}

/// One write of a thread.
#[derive(Debug, PartialEq, Eq, Drop)]
pub struct Write {
    /// The number of the event's definition, from 1.
    pub event: u32,
    pub activity: [u8; 16],
    pub related: [u8; 16],
    pub frames: Frames,
    pub payload: Bytes,
}

/// What the Trace object of a NetTrace stream says of the traced program.
#[derive(Clone, Copy, Debug, PartialEq, Eq)]
pub struct TraceInfo {
    /// Year, month, day of the week, day, hour, minute, second and millisecond.
    pub date: [u16; 8],
    /// The clock's counter at that date.
    pub sync: u64,
    /// Counts of the clock in a second.
    pub frequency: u64,
    /// In bytes.
    pub pointer_size: u32,
    pub process_id: u32,
    pub processors: u32,
    /// Expected samples in a second.
    pub rate: u32,
}

/// What the traced program says of itself.
#[derive(Debug, PartialEq, Eq, Drop)]
pub struct Facts {
    pub process_id: u64,
    /// It tells one run of the program from another.
    pub cookie: [u8; 16],
    pub command_line: Units,
    /// The operating system's name.
    pub system: Units,
    /// The processor's architecture.
    pub arch: Units,
    /// What each of its traces begins with.
    pub info: TraceInfo,
}

/// What a session had of one thread, from its opening there to its closing.
#[derive(Clone, Copy, Debug, PartialEq, Eq)]
pub struct Marks {
    pub thread: u64,
    /// How many writes the thread had made at the opening.
    pub from: u32,
    /// How many it had made at the closing.
    pub to: u32,
    /// How many events the session took.
    pub taken: u32,
    /// How many were refused.
    pub refused: u32,
}

pub type MarkList = Items<Marks>;

impl Duplicate for Rule {
    fn copy(&self, alloc: Global) -> Result<Self, AllocError> {
        let name = self.name.copy(alloc)?;
        Ok(Rule {
            name,
            keywords: self.keywords,
            level: self.level,
        })
    }
}

impl Duplicate for Config {
    fn copy(&self, alloc: Global) -> Result<Self, AllocError> {
        let rules = self.rules.copy(alloc)?;
        Ok(Config {
            rules,
            chunks: self.chunks,
            stackwalk: self.stackwalk,
            rundown: self.rundown,
        })
    }
}

impl Duplicate for Write {
    fn copy(&self, alloc: Global) -> Result<Self, AllocError> {
        let frames = self.frames.copy(alloc)?;
        let payload = self.payload.copy(alloc)?;
        Ok(Write {
            event: self.event,
            activity: self.activity,
            related: self.related,
            frames,
            payload,
        })
    }
}

impl Duplicate for Marks {
    fn copy(&self, _alloc: Global) -> Result<Self, AllocError> {
        Ok(*self)
    }
}

impl Rule {
    // Whether the rule alone lets the session get the event.
    fn admits(&self, def: &EventDef) -> bool
        ensures { result ≡ rule_admits self.now def.now }
    {
        self.name.as_slice() == def.provider.as_slice()
            && (def.keywords == 0 || def.keywords & self.keywords > 0)
            && (def.level == 0 || def.level <= self.level)
    }
}

impl Config {
    /// Whether a session can be asked for this: it has rules and chunks, no rule is without a provider's name, and
    /// neither passes its bound in `limits`. Both flags may be anything.
    pub fn is_valid(&self) -> bool
        ensures { result ≡ is_valid_config self.now }
    {
        let rules = self.rules.as_slice();
        (1..=RULES).contains(&rules.len())
            && have_names(rules)
            && (1..=CHUNKS).contains(&self.chunks)
    }
}

impl Write {
    /// Whether a thread can make the write: neither its frames nor its payload pass their bounds in `limits`.
    pub fn fits(&self) -> bool
        ensures { result ≡ valid.fits self.now }
    {
        self.frames.as_slice().len() <= FRAMES && self.payload.as_slice().len() <= PAYLOAD_BYTES
    }
}

impl Facts {
    /// Whether the three texts have at most `limits::FACTS_UNITS` together.
    pub fn is_valid(&self) -> bool
        ensures { result ≡ is_valid_facts self.now }
    {
        let command_line = self.command_line.as_slice().len();
        let system = self.system.as_slice().len();
        let arch = self.arch.as_slice().len();
        command_line <= FACTS_UNITS
            && system <= FACTS_UNITS
            && command_line + system + arch <= FACTS_UNITS
    }
}

fn have_names(rules: &[Rule]) -> bool
    ensures { result ≡ list_all (λ rule. nat_lt 0 (length rule.name)) rules.now }
{
    rules.iter().all(|rule| !rule.name.as_slice().is_empty())
}

/// Whether a session that was asked for this gets the event: one of its rules has the event's provider, shares a
/// keyword with the event or the event has none, and wants the event's level.
pub fn admits(config: &Config, def: &EventDef) -> bool
    ensures { result ≡ session_admits config.now def.now }
{
    config.rules.as_slice().iter().any(|rule| rule.admits(def))
}

/// The Trace content of this project's profile: a clock that counts nanoseconds since midnight of Thursday,
/// 1 January 1970.
pub fn standard_info(process_id: u32, processors: u32) -> TraceInfo
    ensures { result ≡ standard_info_of process_id processors }
{
    TraceInfo {
        date: [1970, 1, 4, 1, 0, 0, 0, 0],
        sync: 0,
        frequency: CLOCK_FREQUENCY,
        pointer_size: POINTER_BYTES,
        process_id,
        processors,
        rate: 0,
    }
}
