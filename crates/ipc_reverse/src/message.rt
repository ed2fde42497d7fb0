//! The advertise message, both ways.
ghost use Rattle.std.specs.Prelude.{◌≡◌, ◌++◌, ℕ, List};
ghost use Rattle.ipc_reverse.specs.Advert.{advert_of, advert_in, message_of};
ghost use Rattle.ipc_reverse.specs.declared.message.TakenAdvert.TheVariants.{Advert};

use crate::limits::{ADVERT_BYTES, COOKIE_AT, MAGIC, PROCESS_AT};
use byteorder::{ByteOrder, LittleEndian};
use ep_defs::Facts;

/// What the first bytes of a program are that has called.
#[derive(Clone, Copy, Debug, PartialEq, Eq)]
pub enum TakenAdvert {
    /// An advertise message, which says which program calls.
    Advert { cookie: [u8; 16], process_id: u64 },
    /// They are none, from this offset on: 0 where they begin otherwise, and else the number of bytes that are there.
    BadAdvert { at: usize },
}

/// The bytes with which the program says who it is.
pub fn advert(facts: &Facts) -> [u8; ADVERT_BYTES]
    ensures bytes { result ≡ advert_of facts.now }
    ensures back { (after : List ℕ) → advert_in (result ++ after) ≡ Advert facts.now.cookie facts.now.process_id }
{
    message(facts.cookie, facts.process_id)
}

// The message of a program of this cookie and this id.
fn message(cookie: [u8; 16], process_id: u64) -> [u8; ADVERT_BYTES]
    ensures bytes { result ≡ message_of cookie process_id }
    ensures back { (after : List ℕ) → advert_in (result ++ after) ≡ Advert cookie process_id }
{
    let mut message = [0; ADVERT_BYTES];
    message[..COOKIE_AT].copy_from_slice(&MAGIC);
    LittleEndian::write_u64(&mut message[PROCESS_AT..], process_id);
    message[COOKIE_AT..PROCESS_AT].copy_from_slice(&cookie);
    message
}

/// What the first bytes of a program that has called say. The reserved bytes may be any, and bytes that follow the message are
/// not looked at.
pub fn take_advert(bytes: &[u8]) -> TakenAdvert
    ensures { result ≡ advert_in bytes.now }
{
    if bytes.len() >= MAGIC.len() && !bytes.starts_with(&MAGIC) {
        return TakenAdvert::BadAdvert { at: 0 };
    }
    if bytes.len() < ADVERT_BYTES {
        return TakenAdvert::BadAdvert { at: bytes.len() };
    }
    let mut cookie = [0; 16];
    cookie.copy_from_slice(&bytes[COOKIE_AT..PROCESS_AT]);
    let process_id = LittleEndian::read_u64(&bytes[PROCESS_AT..]);
    TakenAdvert::Advert { cookie, process_id }
}
