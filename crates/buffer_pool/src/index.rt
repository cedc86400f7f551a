ghost use Rattle.std.specs.Prelude.{◌≡◌, ◌+◌, ◌-◌, ◌^◌, ◌<◌, true, false, [], map, take, IfOk, OnOk};
ghost use Rattle.buffer_pool.specs.Listing.{struck, enlisted};

use std::alloc::{AllocError, Global};
use std::collections::BTreeMap;

/// The pages that a push may take from the pool, by the numbers of their last touches, so that the coldest come first.
#[derive(Drop)]
pub(crate) struct Index {
    /// Each such page, and whether it was changed.
    pub(crate) listed: BTreeMap<u64, (u32, bool)>,
    /// The number of the next touch.
    pub(crate) next: u64,
    /// Whether all of them are there. Once memory was wanting for one they aren't, and the index is out of use. Nothing
    /// outside this module writes it.
    whole: bool,
}

impl Index {
    /// An index of no pages.
    pub(crate) fn new(alloc: Global) -> Index
        ensures none { result.listed.entries ≡ [] }
        ensures whole { result.whole ≡ true }
    {
        Index {
            listed: BTreeMap::new(alloc),
            next: 0,
            whole: true,
        }
    }

    /// Takes the page with this number off the list, where it is listed.
    pub(crate) fn strike(&mut self, stamp: u64, listed: bool)
        ensures listed { self.new.listed.entries ≡ struck stamp listed self.old.listed.entries }
        ensures next { self.new.next ≡ self.old.next }
        ensures whole { self.new.whole ≡ self.old.whole }
    {
        if listed {
            self.listed.remove(&stamp);
        }
    }

    /// Lists a page under its number, where that is wanted. The index stays whole unless memory is wanting.
    pub(crate) fn list(
        &mut self,
        stamp: u64,
        page: u32,
        changed: bool,
        wanted: bool,
    ) -> Result<(), AllocError>
        ensures listed { self.new.whole ≡ true
            → self.new.listed.entries ≡ enlisted stamp (page, changed) wanted self.old.listed.entries }
        ensures next { self.new.next ≡ self.old.next }
        ensures whole { self.new.whole ≡ true → self.old.whole ≡ true }
        ensures kept { OnOk result (self.new.whole ≡ self.old.whole) }
    {
        if wanted && self.listed.insert(stamp, (page, changed)).is_err() {
            self.whole = false;
            return Err(AllocError);
        }
        Ok(())
    }

    /// Takes the number of the next touch for a page, and lists it under that where it is wanted.
    pub(crate) fn add(&mut self, page: u32, changed: bool, wanted: bool) -> Result<(), AllocError>
        ensures listed { self.new.whole ≡ true
            → self.new.listed.entries ≡ enlisted self.old.next (page, changed) wanted self.old.listed.entries }
        ensures next { self.new.whole ≡ true → self.new.next ≡ self.old.next + 1 }
        ensures whole { self.new.whole ≡ true → self.old.whole ≡ true }
        ensures kept { self.old.next < 2 ^ 64 - 1 → OnOk result (self.new.whole ≡ self.old.whole) }
    {
        let listed = self.list(self.next, page, changed, wanted);
        match self.next.checked_add(1) {
            Some(next) => self.next = next,
            // No caller makes so many touches.
            None => self.whole = false,
        }
        listed
    }

    /// Whether all of the pages are there.
    pub(crate) fn is_whole(&self) -> bool
        ensures { result ≡ self.now.whole }
    {
        self.whole
    }

    /// The first pages of the list, so many at most, and whether each was changed.
    pub(crate) fn coldest(&self, alloc: Global, most: usize) -> Result<Vec<(u32, bool)>, AllocError>
        ensures marks { IfOk result (λ marks. marks.items ≡ take most (map (λ w. w.1) self.now.listed.entries)) }
    {
        let mut marks = Vec::new(alloc);
        let mut warmer = self.listed.iter();
        while let Some((_, mark)) = warmer.next() {
            if marks.len() == most {
                return Ok(marks);
            }
            marks.push(*mark)?;
        }
        Ok(marks)
    }
}
