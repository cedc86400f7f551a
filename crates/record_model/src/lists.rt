ghost use Rattle.std.specs.Prelude.{◌≡◌, ◌<◌, ◌^◌, [], ◌∷◌, ◌++◌, length, slice_get, Some, OnOk, OnErr};

use crate::words::{CacheLine, Item};
use std::alloc::{AllocError, Global};
use std::marker::Model;

/// The records that a scan found, in order.
#[derive(Debug, Drop)]
pub struct Items {
    items: Vec<Item>,
}

impl Model for Items {
    ghost use Rattle.std.specs.Prelude.{List};
    ghost use Rattle.record_model.specs.declared.words.Item.{Item};

    ghost Value = { List Item };

    ghost view = { λ s. s.items.items };
}

impl Items {
    /// No item. It allocates nothing yet.
    pub fn new(alloc: Global) -> Items
        ensures { result ≡ [] }
    {
        Items {
            items: Vec::new(alloc),
        }
    }

    /// One item more, at the end. Where memory is wanting the list stays as it was.
    pub fn push(&mut self, item: Item) -> Result<(), AllocError>
        ensures ok { OnOk result (self.new ≡ self.old ++ item ∷ []) }
        ensures err { OnErr result (self.new ≡ self.old) }
    {
        self.items.push(item)?;
        Ok(())
    }

    /// How many there are.
    pub fn len(&self) -> usize
        ensures len { result ≡ length self.now }
        ensures small { result < 2 ^ 63 }
    {
        self.items.len()
    }

    /// The one at a place, counted from 0.
    pub fn at(&self, place: usize) -> &Item
        requires { place < length self.now }
        ensures { slice_get self.now place ≡ Some result.now }
    {
        &self.items[place]
    }
}

/// The lines of the cache listing, in order.
#[derive(Debug, Drop)]
pub struct Listing {
    lines: Vec<CacheLine>,
}

impl Model for Listing {
    ghost use Rattle.std.specs.Prelude.{List};
    ghost use Rattle.record_model.specs.declared.words.CacheLine.{CacheLine};

    ghost Value = { List CacheLine };

    ghost view = { λ s. s.lines.items };
}

impl Listing {
    /// No line. It allocates nothing yet.
    pub fn new(alloc: Global) -> Listing
        ensures { result ≡ [] }
    {
        Listing {
            lines: Vec::new(alloc),
        }
    }

    /// One line more, at the end. Where memory is wanting the list stays as it was.
    pub fn push(&mut self, line: CacheLine) -> Result<(), AllocError>
        ensures ok { OnOk result (self.new ≡ self.old ++ line ∷ []) }
        ensures err { OnErr result (self.new ≡ self.old) }
    {
        self.lines.push(line)?;
        Ok(())
    }

    /// How many there are.
    pub fn len(&self) -> usize
        ensures len { result ≡ length self.now }
        ensures small { result < 2 ^ 63 }
    {
        self.lines.len()
    }

    /// The one at a place, counted from 0.
    pub fn at(&self, place: usize) -> &CacheLine
        requires { place < length self.now }
        ensures { slice_get self.now place ≡ Some result.now }
    {
        &self.lines[place]
    }
}
