//! The stack of an event.
ghost use Rattle.std.specs.Prelude.{◌≡◌, ◌<◌, ◌++◌, [], length, IfOk, IfSome, OnOk};
ghost use Rattle.pt_lines.specs.Json.{IsStack, address_text, byte_text, width_of as address_width};
ghost use Rattle.pt_lines.specs.Appends.{Appends};
ghost use Rattle.pt_lines.specs.state.Nest.{comma};
ghost use Rattle.pt_lines.specs.state.Opening.{IsStackOpened};

use crate::form::Form;
use crate::json::fields::OPENING;
use crate::limits::ADDRESS_BYTES;
use crate::text::{high_text, low_text};
use ep_defs::{Bytes, Duplicate};
use pt_print::put_word;
use std::alloc::{AllocError, Global};
use std::marker::Model;

/// A stack. Its text in an object is put once, and copied from here, since most events have a stack of others before them.
#[derive(Drop)]
pub struct ShownStack {
    bytes: Bytes,
    // How many bytes an address has in the text, 0 where there is no text.
    width: usize,
    text: Vec<u8>,
}

impl Model for ShownStack {
    ghost use Rattle.std.specs.Prelude.{ℕ, ◌<◌, List};
    ghost use Rattle.pt_lines.specs.state.Opening.{IsStackOpened};

    ghost Value = { List ℕ };

    ghost view = { λ s. s.bytes };

    ghost invariant = { λ s. 0 < s.width → IsStackOpened s.width s.bytes s.text.items };
}

impl ShownStack {
    /// The stack of an event that has none. It takes no memory.
    pub fn none(alloc: Global) -> ShownStack
        ensures { result ≡ [] }
    {
        ShownStack {
            bytes: Bytes::new(Vec::new(alloc)),
            width: 0,
            text: Vec::new(alloc),
        }
    }

    /// A copy of a stack in a stream that says this of the size of an address. It has a text where lines of this form show
    /// stacks.
    pub fn new(
        alloc: Global,
        form: Form,
        address: u32,
        stack: &Bytes,
    ) -> Result<ShownStack, AllocError>
        ensures { IfOk result (λ shown. shown ≡ stack.now) }
    {
        let width = text_width(form, address);
        let mut text = Vec::new(alloc);
        put_text(&mut text, width, stack.as_slice())?;
        let bytes = stack.copy(alloc)?;
        Ok(ShownStack { bytes, width, text })
    }

    /// Appends its addresses, each of so many bytes, and what opens the fields behind them.
    pub fn put(&self, out: &mut Vec<u8>, width: usize) -> Result<(), AllocError>
        requires { 0 < width }
        ensures { OnOk result (Appends (IsStackOpened width self.now) out.old.items out.new.items) }
    {
        match self.text(width) {
            Some(text) => out.extend_from_slice(text),
            None => put_opened(out, width, self.bytes()),
        }
    }

    // Its text, if that is of addresses of so many bytes.
    fn text(&self, width: usize) -> Option<&[u8]>
        requires { 0 < width }
        ensures { IfSome result (λ text. IsStackOpened width self.now text.now) }
    {
        if self.width == width {
            Some(self.text.as_slice())
        } else {
            None
        }
    }

    fn bytes(&self) -> &[u8]
        ensures { result.now ≡ self.now }
    {
        self.bytes.as_slice()
    }
}

// How many bytes an address has in the text of a stack, 0 where lines of this form show none.
fn text_width(form: Form, address: u32) -> usize {
    match form {
        Form::Lines | Form::Chromium => 0,
        Form::Json | Form::Page => width_of(address),
    }
}

// Puts the text of a stack, where it is to have one.
fn put_text(text: &mut Vec<u8>, width: usize, stack: &[u8]) -> Result<(), AllocError>
    requires { text.old.items ≡ [] }
    ensures { OnOk result (0 < width → IsStackOpened width stack.now text.new.items) }
{
    if width == 0 {
        return Ok(());
    }
    put_opened(text, width, stack)
}

// Appends the addresses of a stack, each of so many bytes, and what opens the fields behind them.
fn put_opened(out: &mut Vec<u8>, width: usize, stack: &[u8]) -> Result<(), AllocError>
    requires { 0 < width }
    ensures { OnOk result (Appends (IsStackOpened width stack.now) out.old.items out.new.items) }
{
    put_stack(out, width, stack)?;
    put_word(out, OPENING)
}

/// How many bytes an address has where the stream says this.
pub fn width_of(address: u32) -> usize
    ensures value { result ≡ address_width address }
    ensures some { 0 < result }
{
    if address == 0 {
        return ADDRESS_BYTES;
    }
    address as usize
}

// Appends the addresses of a stack, each of so many bytes.
fn put_stack(out: &mut Vec<u8>, width: usize, stack: &[u8]) -> Result<(), AllocError>
    requires { 0 < width }
    ensures { OnOk result (Appends (IsStack width stack.now) out.old.items out.new.items) }
{
    out.push(b'[')?;
    let mut is_first = true;
    let mut left = stack;
    while !left.is_empty() {
        let (frame, rest) = left.split_at(width.min(left.len()));
        put_frame(out, is_first, frame)?;
        is_first = false;
        left = rest;
    }
    Ok(out.push(b']')?)
}

// Appends an address, behind a comma where another one stands before it.
fn put_frame(out: &mut Vec<u8>, is_first: bool, frame: &[u8]) -> Result<(), AllocError>
    ensures { OnOk result (out.new.items ≡ out.old.items ++ comma is_first ++ address_text frame.now) }
{
    if !is_first {
        out.push(b',')?;
    }
    put_address(out, frame)
}

fn put_address(out: &mut Vec<u8>, frame: &[u8]) -> Result<(), AllocError>
    ensures { OnOk result (out.new.items ≡ out.old.items ++ address_text frame.now) }
{
    if frame.len() == 8 {
        return put_eight(out, frame);
    }
    out.push(b'"')?;
    let mut left = frame;
    while let [rest @ .., last] = left {
        put_byte(out, *last)?;
        left = rest;
    }
    Ok(out.push(b'"')?)
}

// Appends an address of eight bytes, as nearly all are, in one piece.
fn put_eight(out: &mut Vec<u8>, frame: &[u8]) -> Result<(), AllocError>
    requires { length frame.now ≡ 8 }
    ensures { OnOk result (out.new.items ≡ out.old.items ++ address_text frame.now) }
{
    out.extend_from_slice(&[
        b'"',
        high_text(frame[7]),
        low_text(frame[7]),
        high_text(frame[6]),
        low_text(frame[6]),
        high_text(frame[5]),
        low_text(frame[5]),
        high_text(frame[4]),
        low_text(frame[4]),
        high_text(frame[3]),
        low_text(frame[3]),
        high_text(frame[2]),
        low_text(frame[2]),
        high_text(frame[1]),
        low_text(frame[1]),
        high_text(frame[0]),
        low_text(frame[0]),
        b'"',
    ])
}

fn put_byte(out: &mut Vec<u8>, byte: u8) -> Result<(), AllocError>
    ensures { OnOk result (out.new.items ≡ out.old.items ++ byte_text byte) }
{
    out.extend_from_slice(&[high_text(byte), low_text(byte)])
}
