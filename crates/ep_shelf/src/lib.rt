//! The shelf: values that threads share by reference, each placed once and never changed.
//!
//! Who places a value gets a token of it. With a token any thread finds just that value, at any time and without
//! waiting, and two tokens with one index show one value. So it is enough that two owners agree on an index, by a tie,
//! for both to see one configuration.
//!
//! It stands on boxcar alone, whose vector only grows.
//!
//! Its one contract: a token shows the value that was placed.
//!
//! What was chosen here, and why: docs/DECISIONS.md, "Running threads".
#![tactic(auto)]

ghost use Rattle.std.specs.Prelude.{◌≡◌, IfOk, IfErr};
ghost use Rattle.ep_shelf.specs.Shelf.{IsOf};

use boxcar::{Pushed, Vec};
use std::alloc::{AllocError, Global};
use std::marker::Model;
use std::sync::Wait;

/// Values of one type, each at an index of its own. Contracts see which shelf it is.
#[derive(Drop)]
pub struct Shelf<T> {
    values: Vec<T>,
}

/// What shows that a shelf has a value at an index, for as long as the shelf lasts. Contracts see the shelf's mark, the
/// index and the value.
#[derive(Drop)]
pub struct Token<T> {
    pushed: Pushed<T>,
}

impl<T> Model for Shelf<T> {
    ghost use Rattle.ep_shelf.specs.Shelf.{ShelfName};
    ghost use Rattle.boxcar.specs.Table.{shelves_coded};

    ghost Value = { ShelfName };

    ghost coded = { shelves_coded };

    ghost view = { λ s. s.values };
}

impl<T> Model for Token<T> {
    ghost use Rattle.ep_shelf.specs.Shelf.{Placed};
    ghost use Rattle.boxcar.specs.Table.{where_coded};

    ghost Value = { Placed T };

    ghost coded = { where_coded T.code };

    ghost view = { λ t. t.pushed };
}

impl<T: Drop + Send + Sync> Shelf<T> {
    /// An empty shelf. It waits for nobody.
    pub fn new(alloc: Global) -> Result<Shelf<T>, AllocError> {
        Ok(Shelf {
            values: Vec::new(alloc)?,
        })
    }

    /// Places a value at an index of its own, and gives a token of it. Out of memory, or where every index below
    /// 2^63 - 32 was given out, the value comes back. It may wait while another thread stores the memory that the value
    /// goes to.
    pub fn place<R: Wait>(&self, rt: &R, value: T) -> Result<Token<T>, T>
        ensures placed { IfOk result (λ token. IsOf self.now token × (token.value ≡ value)) }
        ensures back { IfErr result (λ handed. handed ≡ value) }
    {
        let pushed = self.values.push_shown(rt, value)?;
        Ok(Token { pushed })
    }
}

impl<T> Shelf<T> {
    /// The value that was placed. It waits for nobody.
    pub fn at<'a>(&'a self, token: &Token<T>) -> &'a T
        requires { IsOf self.now token.now }
        ensures { result.now ≡ token.now.value }
    {
        self.values.value(&token.pushed)
    }

    /// Says that two tokens of one index show one value. It waits for nobody.
    pub fn agree(&self, one: &Token<T>, other: &Token<T>)
        requires here { IsOf self.now one.now × IsOf self.now other.now }
        requires same { one.now.index ≡ other.now.index }
        ensures { one.now.value ≡ other.now.value }
    {
        self.values.agrees(&one.pushed, &other.pushed);
    }
}

impl<T> Token<T> {
    /// The index of the value. It waits for nobody.
    pub fn index(&self) -> usize
        ensures { result ≡ self.now.index }
    {
        self.pushed.index()
    }

    /// Another token of the same value. It takes no memory and waits for nobody.
    pub fn copy(&self) -> Token<T>
        ensures { result ≡ self.now }
    {
        Token {
            pushed: self.pushed.again(),
        }
    }
}
