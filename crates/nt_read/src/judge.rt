//! Judging a unit whose bytes are all there.
ghost use Rattle.std.specs.Prelude.{◌≡◌, ℕ, ◌+◌, ◌<◌, ◌≤◌, ◌^◌, ◌&&◌, List, [], ◌∷◌, length, drop, take, true, nat_eq, IfOk, IfErr};
ghost use Rattle.std.specs.Cmp.Lexicographic.{pointwise};
ghost use Rattle.byteorder.specs.Endian.{little_number};
ghost use Rattle.ep_defs.specs.declared.item.Item.{Item};
ghost use Rattle.ep_defs.specs.Text.{units_in};
ghost use Rattle.nt_object.specs.Reading.{is_name_length, number_in};
ghost use Rattle.nt_object.specs.Object.{to_multiple_of_4};
ghost use Rattle.nt_object.specs.Stream.{stream_head};
ghost use Rattle.nt_blocks.specs.Taking.{StandsWithin};
ghost use Rattle.nt_blocks.specs.Verdict.{info_in, may_stand};
ghost use Rattle.nt_read.specs.declared.stage.Stage.TheVariants as stage;
ghost use Rattle.nt_read.specs.declared.stage.Stage.TheVariants.{Close, Tag};
ghost use Rattle.nt_read.specs.Stages.{needs};
ghost use Rattle.nt_read.specs.state.Objects.{JudgesTold};
ghost use Rattle.nt_read.specs.state.Units.{IsPlain, Judges, body_fault, payload_stage};
ghost use Rattle.nt_read.specs.declared.fault.ReadFault.{ReadFault};

use crate::fault::{ReadFault, ReadKind};
use crate::stage::{Stage, Version};
use crate::telling::Telling;
use byteorder::{ByteOrder, LittleEndian};
use ep_defs::{Item, ItemKind, TraceInfo};
use nt_blocks::BodyFault;
use nt_blocks::limits::READ_BYTES;
use nt_object::limits::{BEGIN_OBJECT, END_OBJECT, NULL_REFERENCE};
use nt_object::{BlockKind, ObjectKind, is_name_length, kind_named, number_at, version_of};
use std::alloc::Global;

/// The stage after a unit that stands at this offset of the stream, or why the unit is refused.
///
/// `pending` tells of the object whose end is not read yet. Only bodies take memory.
pub fn judge<T: Telling>(
    alloc: Global,
    stage: Stage,
    at: u64,
    unit: &[u8],
    pending: &mut T,
) -> Result<Stage, ReadFault>
    requires whole { length unit.now ≡ needs stage at }
    requires at { at + length unit.now < 2 ^ 63 }
    ensures judged { JudgesTold T.tells stage at pending.old unit.now result pending.new }
    ensures tag { IfOk result (λ next. stage ≡ Close → next ≡ Tag true) }
{
    match stage {
        Stage::Trace => trace(at, unit, pending),
        Stage::Body { kind, size } => body(alloc, kind, size, at, unit, pending),
        _ => plain(stage, at, unit),
    }
}

// The same of a unit that tells nothing.
fn plain(stage: Stage, at: u64, unit: &[u8]) -> Result<Stage, ReadFault>
    requires plain { IsPlain stage }
    requires whole { length unit.now ≡ needs stage at }
    requires at { at + length unit.now < 2 ^ 63 }
    ensures judged { (pending : List Item) → Judges stage at pending unit.now result pending }
    ensures tag { IfOk result (λ next. stage ≡ Close → next ≡ Tag true) }
{
    match stage {
        Stage::Head => head(at, unit),
        Stage::Tag { has_trace } => tag(has_trace, at, unit),
        Stage::Begun { has_trace } => begun(has_trace, at, unit),
        Stage::Name {
            has_trace,
            len,
            version,
            least,
        } => name(has_trace, len, version, least, at, unit),
        Stage::Size { kind } => size(kind, at, unit),
        Stage::Padding { kind, size } => padding(kind, size, at, unit),
        Stage::Close => close(at, unit),
        Stage::Ended => ended(at, unit),
        Stage::Trace | Stage::Body { .. } => unreachable!(),
    }
}

fn bad(at: u64, kind: ReadKind) -> ReadFault
    ensures { result ≡ ReadFault.Bad at kind }
{
    ReadFault::Bad { at, kind }
}

// The first 32 bytes of a stream: the two marks and the length of the second.
fn is_head(unit: &[u8]) -> bool
    ensures { result ≡ pointwise nat_eq unit.now stream_head }
{
    unit == b"Nettrace\x14\0\0\0!FastSerialization.1".as_slice()
}

fn head(at: u64, unit: &[u8]) -> Result<Stage, ReadFault>
    requires { length unit.now ≡ 32 }
    ensures { (pending : List Item) → Judges stage.Head at pending unit.now result pending }
{
    if !is_head(unit) {
        return Err(bad(at, ReadKind::BadMagic));
    }
    Ok(Stage::Tag { has_trace: false })
}

fn tag(has_trace: bool, at: u64, unit: &[u8]) -> Result<Stage, ReadFault>
    requires { length unit.now ≡ 1 }
    ensures { (pending : List Item) → Judges (stage.Tag has_trace) at pending unit.now result pending }
{
    if unit[0] == BEGIN_OBJECT {
        return Ok(Stage::Begun { has_trace });
    }
    if unit[0] != NULL_REFERENCE || !has_trace {
        return Err(bad(at, ReadKind::BadObject));
    }
    Ok(Stage::Ended)
}

// Whether the tags, and the length of the name, can be.
fn begins_well(unit: &[u8]) -> bool
    requires { length unit.now ≡ 14 }
    ensures { result ≡ (pointwise nat_eq (take 2 unit.now) (5 ∷ 1 ∷ []) && is_name_length (number_in unit.now 10)) }
{
    &unit[..2] == [BEGIN_OBJECT, NULL_REFERENCE].as_slice() && is_name_length(number_at(unit, 10))
}

fn begun(has_trace: bool, at: u64, unit: &[u8]) -> Result<Stage, ReadFault>
    requires whole { length unit.now ≡ 14 }
    requires at { at + length unit.now < 2 ^ 63 }
    ensures { (pending : List Item) → Judges (stage.Begun has_trace) at pending unit.now result pending }
{
    if !begins_well(unit) {
        return Err(bad(at, ReadKind::BadObject));
    }
    Ok(Stage::Name {
        has_trace,
        len: number_at(unit, 10),
        version: version_in(unit, at, 2),
        least: version_in(unit, at, 6),
    })
}

// The version in this place of a unit, which begins at this offset.
fn version_in(unit: &[u8], at: u64, place: usize) -> Version
    requires there { place + 4 ≤ length unit.now }
    requires at { at + length unit.now < 2 ^ 63 }
    ensures { result ≡ record { at = at + place; number = number_in unit.now place } }
{
    Version {
        at: at + place as u64,
        number: number_at(unit, place),
    }
}

// Trace is the first object, and stands once.
fn may_stand(has_trace: bool, kind: ObjectKind) -> bool
    ensures { result ≡ may_stand has_trace kind }
{
    match kind {
        ObjectKind::Trace => !has_trace,
        ObjectKind::Block(_) => has_trace,
    }
}

fn payload(kind: ObjectKind) -> Stage
    ensures { result ≡ payload_stage kind }
{
    match kind {
        ObjectKind::Trace => Stage::Trace,
        ObjectKind::Block(kind) => Stage::Size { kind },
    }
}

fn name(
    has_trace: bool,
    len: u32,
    version: Version,
    least: Version,
    at: u64,
    unit: &[u8],
) -> Result<Stage, ReadFault>
    requires { length unit.now ≡ len + 1 }
    ensures { (pending : List Item)
        → Judges (stage.Name has_trace len version least) at pending unit.now result pending }
{
    let len = len as usize;
    let Some(kind) = kind_named(&unit[..len]) else {
        return Err(bad(at, ReadKind::BadObject));
    };
    if unit[len] != END_OBJECT || !may_stand(has_trace, kind) {
        return Err(bad(at, ReadKind::BadObject));
    }
    if version.number != version_of(kind) {
        return Err(bad(version.at, ReadKind::BadVersion));
    }
    if least.number != version_of(kind) {
        return Err(bad(least.at, ReadKind::BadVersion));
    }
    Ok(payload(kind))
}

// What the payload of a Trace object says.
fn info_in(unit: &[u8]) -> TraceInfo
    requires { length unit.now ≡ 48 }
    ensures { result ≡ info_in unit.now }
{
    TraceInfo {
        date: date_in(&unit[..16]),
        sync: long_at(unit, 16),
        frequency: long_at(unit, 24),
        pointer_size: number_at(unit, 32),
        process_id: number_at(unit, 36),
        processors: number_at(unit, 40),
        rate: number_at(unit, 44),
    }
}

fn date_in(bytes: &[u8]) -> [u16; 8]
    requires { length bytes.now ≡ 16 }
    ensures { result ≡ units_in bytes.now }
{
    let mut date = [0; 8];
    LittleEndian::read_u16_into(bytes, &mut date);
    date
}

// The number of eight bytes in this place.
fn long_at(bytes: &[u8], place: usize) -> u64
    requires { place + 8 ≤ length bytes.now }
    ensures { result ≡ little_number 8 (drop place bytes.now) }
{
    LittleEndian::read_u64(&bytes[place..])
}

fn trace<T: Telling>(at: u64, unit: &[u8], pending: &mut T) -> Result<Stage, ReadFault>
    requires { length unit.now ≡ 48 }
    ensures { JudgesTold T.tells stage.Trace at pending.old unit.now result pending.new }
{
    let info = info_in(unit);
    pending.tell(Item {
        at,
        kind: ItemKind::Trace { info },
    })?;
    Ok(Stage::Close)
}

fn size(kind: BlockKind, at: u64, unit: &[u8]) -> Result<Stage, ReadFault>
    requires { length unit.now ≡ 4 }
    ensures { (pending : List Item) → Judges (stage.Size kind) at pending unit.now result pending }
{
    let size = number_at(unit, 0);
    if size > READ_BYTES {
        return Err(bad(at, ReadKind::TooLarge { size }));
    }
    Ok(Stage::Padding { kind, size })
}

fn padding(kind: BlockKind, size: u32, at: u64, unit: &[u8]) -> Result<Stage, ReadFault>
    requires { length unit.now ≡ to_multiple_of_4 at }
    ensures { (pending : List Item) → Judges (stage.Padding kind size) at pending unit.now result pending }
{
    let _unit = unit;
    Ok(Stage::Body { kind, size })
}

fn body<T: Telling>(
    alloc: Global,
    kind: BlockKind,
    size: u32,
    at: u64,
    unit: &[u8],
    pending: &mut T,
) -> Result<Stage, ReadFault>
    requires whole { length unit.now ≡ size }
    requires at { at + length unit.now < 2 ^ 63 }
    ensures { JudgesTold T.tells (stage.Body kind size) at pending.old unit.now result pending.new }
{
    match pending.tell_body(alloc, kind, unit, at) {
        Ok(()) => Ok(Stage::Close),
        Err(fault) => Err(fault_in(at, fault)),
    }
}

// The fault of a body that begins at this offset.
fn fault_in(at: u64, fault: BodyFault) -> ReadFault
    requires { (most : ℕ) × (at + most < 2 ^ 63) × StandsWithin most fault }
    ensures { result ≡ body_fault at fault }
{
    match fault {
        BodyFault::BadBlock { at: place } => bad(at + place as u64, ReadKind::BadBlock),
        BodyFault::BadHead { at: place } => bad(at + place as u64, ReadKind::BadHead),
        BodyFault::BadMeta { at: place } => bad(at + place as u64, ReadKind::BadMeta),
        BodyFault::Uncompressed { at: place } => bad(at + place as u64, ReadKind::Uncompressed),
        BodyFault::OutOfMemory => ReadFault::OutOfMemory,
    }
}

fn close(at: u64, unit: &[u8]) -> Result<Stage, ReadFault>
    requires { length unit.now ≡ 1 }
    ensures judged { (pending : List Item) → Judges stage.Close at pending unit.now result pending }
    ensures tag { IfOk result (λ next. next ≡ stage.Tag true) }
{
    if unit[0] != END_OBJECT {
        return Err(bad(at, ReadKind::BadObject));
    }
    Ok(Stage::Tag { has_trace: true })
}

fn ended(at: u64, unit: &[u8]) -> Result<Stage, ReadFault>
    requires { length unit.now ≡ 1 }
    ensures { (pending : List Item) → Judges stage.Ended at pending unit.now result pending }
{
    let _unit = unit;
    Err(bad(at, ReadKind::BadObject))
}
