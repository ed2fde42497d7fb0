//! Reading what an object begins with.
ghost use Rattle.std.specs.Prelude.{◌≡◌, ◌+◌, ◌^◌, ◌<◌, ◌≤◌, length, nat_eq};
ghost use Rattle.std.specs.Cmp.Lexicographic.{pointwise};
ghost use Rattle.nt_object.specs.Reading.{begins_well, is_name_length, kind_named, named_at, number_in, object_head_at, version_of, versions_at};

use crate::limits::{BEGIN_OBJECT, BLOCK_VERSION, END_OBJECT, NULL_REFERENCE, TRACE_VERSION};
use crate::object::BlockKind;
use byteorder::{ByteOrder, LittleEndian};

/// The objects of a stream.
#[derive(Clone, Copy, Debug, PartialEq, Eq)]
pub enum ObjectKind {
    Trace,
    Block(BlockKind),
}

/// What the front of some bytes is as an object's head. Offsets count from the first byte.
#[derive(Clone, Copy, Debug, PartialEq, Eq)]
pub enum ObjectHead {
    /// The head of an object of this kind, and the number of its bytes, up to the tag after the name.
    Head { kind: ObjectKind, used: usize },
    /// The bytes end before the head does.
    Short,
    /// A tag, the name's length or the name is wrong, in the part of the head that begins here.
    BadObject { at: usize },
    /// The version here is not this kind's.
    BadVersion { at: usize },
}

/// What stands at the front of the bytes, from an object's first tag on.
pub fn take_head(bytes: &[u8]) -> ObjectHead
    ensures { result ≡ object_head_at bytes.now }
{
    if bytes.len() < 1 {
        return ObjectHead::Short;
    }
    if bytes[0] != BEGIN_OBJECT {
        return ObjectHead::BadObject { at: 0 };
    }
    if bytes.len() < 15 {
        return ObjectHead::Short;
    }
    if !begins_well(bytes) {
        return ObjectHead::BadObject { at: 1 };
    }
    let name_len = number_at(bytes, 11) as usize;
    if bytes.len() < 16 + name_len {
        return ObjectHead::Short;
    }
    named(bytes, name_len)
}

/// The number of the four bytes at this place, the low byte first.
pub fn number_at(bytes: &[u8], place: usize) -> u32
    requires { place + 4 ≤ length bytes.now }
    ensures { result ≡ number_in bytes.now place }
{
    LittleEndian::read_u32(&bytes[place..])
}

// Whether the tags after the first one, and the length of the name, can be.
fn begins_well(bytes: &[u8]) -> bool
    requires { 15 ≤ length bytes.now }
    ensures { result ≡ begins_well bytes.now }
{
    bytes[1] == BEGIN_OBJECT && bytes[2] == NULL_REFERENCE && is_name_length(number_at(bytes, 11))
}

/// Whether the name of one of the five objects has this many bytes.
pub fn is_name_length(len: u32) -> bool
    ensures { result ≡ is_name_length len }
{
    len == 5 || len == 7 || len == 10 || len == 13
}

// The name of this length, the tag after it, and the versions.
fn named(bytes: &[u8], name_len: usize) -> ObjectHead
    requires few { name_len < 2 ^ 32 }
    requires there { 16 + name_len ≤ length bytes.now }
    ensures { result ≡ named_at name_len bytes.now }
{
    let Some(kind) = kind_named(&bytes[15..15 + name_len]) else {
        return ObjectHead::BadObject { at: 15 };
    };
    if bytes[15 + name_len] != END_OBJECT {
        return ObjectHead::BadObject { at: 15 };
    }
    versions(bytes, kind, 16 + name_len)
}

/// The object whose type has this name, if one has.
pub fn kind_named(name: &[u8]) -> Option<ObjectKind>
    ensures { result ≡ kind_named name.now }
{
    if name == b"Trace".as_slice() {
        Some(ObjectKind::Trace)
    } else if name == b"EventBlock".as_slice() {
        Some(ObjectKind::Block(BlockKind::Event))
    } else if name == b"MetadataBlock".as_slice() {
        Some(ObjectKind::Block(BlockKind::Metadata))
    } else if name == b"StackBlock".as_slice() {
        Some(ObjectKind::Block(BlockKind::Stack))
    } else if name == b"SPBlock".as_slice() {
        Some(ObjectKind::Block(BlockKind::Point))
    } else {
        None
    }
}

fn versions(bytes: &[u8], kind: ObjectKind, used: usize) -> ObjectHead
    requires { 11 ≤ length bytes.now }
    ensures { result ≡ versions_at kind used bytes.now }
{
    if number_at(bytes, 3) != version_of(kind) {
        return ObjectHead::BadVersion { at: 3 };
    }
    if number_at(bytes, 7) != version_of(kind) {
        return ObjectHead::BadVersion { at: 7 };
    }
    ObjectHead::Head { kind, used }
}

/// The version of an object of this kind, and the least that a reader must know.
pub fn version_of(kind: ObjectKind) -> u32
    ensures { result ≡ version_of kind }
{
    match kind {
        ObjectKind::Trace => TRACE_VERSION,
        ObjectKind::Block(_) => BLOCK_VERSION,
    }
}
