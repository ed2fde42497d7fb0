//! Lists that contracts see as lists, and copies of what they hold.
ghost use Rattle.std.specs.Prelude.{◌≡◌, ◌<◌, ◌%◌, List, length, IfOk, slice_set};
ghost use Rattle.std.specs.Cmp.{on_equiv, on_per};
ghost use Rattle.std.specs.Cmp.Lexicographic.{pointwise, lists_equiv, lists_per};
ghost use Rattle.ep_defs.specs.Text.{units_in};

use byteorder::{ByteOrder, LittleEndian};
use std::alloc::{AllocError, Global};
use std::marker::Model;

/// A value of which a whole copy can be made, where there is memory for it.
pub trait Duplicate {
    /// A copy that equals the value.
    fn copy(&self, alloc: Global) -> Result<Self, AllocError>
        ensures { IfOk result (λ copy. copy ≡ self.now) };
}

impl Duplicate for u8 {
    fn copy(&self, _alloc: Global) -> Result<Self, AllocError> {
        Ok(*self)
    }
}

impl Duplicate for u16 {
    fn copy(&self, _alloc: Global) -> Result<Self, AllocError> {
        Ok(*self)
    }
}

impl Duplicate for u64 {
    fn copy(&self, _alloc: Global) -> Result<Self, AllocError> {
        Ok(*self)
    }
}

impl Duplicate for (u64, u32) {
    fn copy(&self, _alloc: Global) -> Result<Self, AllocError> {
        Ok(*self)
    }
}

/// A list that contracts see as the list of its items.
#[derive(Debug, Drop)]
pub struct Items<I> {
    items: Vec<I>,
}

/// Units of UTF-16.
pub type Units = Items<u16>;

pub type Bytes = Items<u8>;

/// Return addresses of a stack, the innermost first.
pub type Frames = Items<u64>;

impl<I> Model for Items<I> {
    ghost Value = { List I };

    ghost view = { λ list. list.items.items };
}

impl<I: PartialEq> PartialEq for Items<I> {
    ghost eq = { pointwise I.eq };

    ghost laws = { lists_per I.laws };

    fn eq(&self, other: &Self) -> bool {
        self.items.as_slice() == other.items.as_slice()
    }
}

impl<I: Eq> Eq for Items<I> {
    ghost laws = { lists_equiv I.Eq.laws };
}

impl<I> Items<I> {
    /// The list of these items. It takes no memory.
    pub fn new(items: Vec<I>) -> Self
        ensures { result ≡ items.items }
    {
        Items { items }
    }

    /// The items in their order.
    pub fn as_slice(&self) -> &[I]
        ensures { result.now ≡ self.now }
    {
        self.items.as_slice()
    }
}

impl<I: Drop> Items<I> {
    /// Puts another item in a place, counted from 0. It takes no memory.
    pub fn set(&mut self, place: usize, value: I)
        requires { place < length self.old }
        ensures { self.new ≡ slice_set self.old place value }
    {
        self.items[place] = value;
    }
}

impl<I: Duplicate + Drop> Duplicate for Items<I> {
    fn copy(&self, alloc: Global) -> Result<Self, AllocError> {
        let items = copies(alloc, self.items.as_slice())?;
        Ok(Items { items })
    }
}

/// A copy of each item, in order.
pub fn copies<I: Duplicate + Drop>(alloc: Global, items: &[I]) -> Result<Vec<I>, AllocError>
    ensures { IfOk result (λ copies. copies.items ≡ items.now) }
{
    let mut copies = Vec::with_capacity(alloc, items.len())?;
    for item in items {
        copies.push(item.copy(alloc)?)?;
    }
    Ok(copies)
}

/// The units of a text in UTF-16 of two bytes each, the low byte first.
pub fn units_of(alloc: Global, bytes: &[u8]) -> Result<Units, AllocError>
    requires { length bytes.now % 2 ≡ 0 }
    ensures { IfOk result (λ units. units ≡ units_in bytes.now) }
{
    let mut units = vec![in alloc; 0u16; bytes.len() / 2]?;
    LittleEndian::read_u16_into(bytes, &mut units);
    Ok(Items::new(units))
}
