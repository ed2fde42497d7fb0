//! A list with room for one item a connection.
ghost use Rattle.std.specs.Prelude.{◌≡◌, ◌+◌, ◌<◌, ◌≤◌, ◌++◌, ◌∷◌, [], length, IfOk, Some};
ghost use Rattle.ep_journal.specs.Items.{item, with_item};

use crate::limits::CONNECTIONS;
use std::alloc::{AllocError, Global};
use std::marker::Model;

/// Items that are numbered from 1. Contracts see them as a list.
#[derive(Debug, Drop)]
pub struct Log<I> {
    items: Vec<I>,
}

impl<I> Model for Log<I> {
    ghost use Rattle.std.specs.Prelude.{List, ◌≤◌, vec_capacity, vec_len};
    ghost use Rattle.ep_journal.specs.declared.limits.TheConstants.{CONNECTIONS};

    ghost Value = { List I };

    ghost view = { λ log. log.items.items };

    ghost invariant = { λ log. (CONNECTIONS ≤ vec_capacity log.items) × (vec_len log.items ≤ CONNECTIONS) };
}

impl<I: Copy> Log<I> {
    /// A log with all of its room and no item.
    pub fn new(alloc: Global) -> Result<Log<I>, AllocError>
        ensures { IfOk result (λ log. log ≡ []) }
    {
        let mut items = Vec::new(alloc);
        items.reserve(CONNECTIONS)?;
        Ok(Log { items })
    }

    /// How many items there are.
    pub fn len(&self) -> u32
        ensures value { result ≡ length self.now }
        ensures bound { result ≤ CONNECTIONS }
    {
        self.items.len() as u32
    }

    /// The items in their order.
    pub fn as_slice(&self) -> &[I]
        ensures { result.now ≡ self.now }
    {
        self.items.as_slice()
    }

    /// One item more.
    pub fn push(&mut self, item: I)
        requires { length self.old < CONNECTIONS }
        ensures { self.new ≡ self.old ++ item ∷ [] }
    {
        self.items.push_reserved(item);
    }

    /// The item of this number, if there is one.
    pub fn get(&self, number: u64) -> Option<I>
        ensures { result ≡ item self.now number }
    {
        if number == 0 || number > u64::from(self.len()) {
            return None;
        }
        Some(self.at(number))
    }

    /// The item of this number.
    pub fn at(&self, number: u64) -> I
        requires { (0 < number) × (number ≤ length self.now) }
        ensures { item self.now number ≡ Some result }
    {
        self.items[number as usize - 1]
    }

    /// Puts another item in the place of this number.
    pub fn set(&mut self, number: u64, item: I)
        requires { (0 < number) × (number ≤ length self.old) }
        ensures { self.new ≡ with_item self.old number item }
    {
        self.items[number as usize - 1] = item;
    }
}
