// The table that the records so far leave.
ghost use Rattle.std.specs.Prelude.{◌≡◌, ◌*◌, ◌+◌, ◌<◌, ◌≤◌, ℕ, List, length, nat_lt, replicate, slice_set};
ghost use Rattle.std.specs.Prelude.{Some, None, IfOk, if◌then◌else◌};
ghost use Rattle.record_model.specs.State.{content_at};
ghost use Rattle.log_archive.specs.Accepted.{same_content};

use crate::kept::{Kept, is_same};
use record_model::Octets;
use std::alloc::{AllocError, Global};
use std::marker::Model;

/// How many records a page has.
const RECORDS: u32 = 32;

/// What each record of the table has.
#[derive(Drop)]
pub struct Table {
    pages: u32,
    contents: Vec<Option<Kept>>,
}

impl Model for Table {
    ghost use Rattle.std.specs.Prelude.{◌≡◌, ◌*◌, ◌≤◌, List, length};
    ghost use Rattle.record_model.specs.State.{Content};

    ghost Value = { List Content };

    ghost view = { λ t. t.contents.items };

    ghost invariant = { λ t. (length t.contents.items ≡ 32 * t.pages) × (t.pages ≤ 65536) };
}

impl Table {
    /// The table of a database that was never written.
    pub fn blank(alloc: Global, pages: u32) -> Result<Table, AllocError>
        requires { pages ≤ 65536 }
        ensures { IfOk result (λ table. table ≡ replicate (32 * pages) None) }
    {
        let records = (RECORDS * pages) as usize;
        let mut contents: Vec<Option<Kept>> = Vec::with_capacity(alloc, records)?;
        for _count in 0..records {
            contents.push(None)?;
        }
        Ok(Table { pages, contents })
    }

    /// The number of the record in a slot of a page, none where the database hasn't the page.
    pub fn number_of(&self, page: u32, slot: u8) -> Option<u32>
        requires { slot < 32 }
        ensures { (pages : ℕ) → length self.now ≡ 32 * pages
            → result ≡ (if nat_lt page pages then Some (32 * page + slot) else None) }
    {
        if page < self.pages {
            Some(RECORDS * page + u32::from(slot))
        } else {
            None
        }
    }

    /// Whether a record has this.
    pub fn shows(&self, number: u32, content: &Option<Octets>) -> bool
        ensures { result ≡ same_content content.now (content_at self.now number) }
    {
        match self.contents.get(number as usize) {
            Some(kept) => is_same(content, kept),
            None => content.is_none(),
        }
    }

    /// A record has something else, where it is one of the table.
    pub fn write(&mut self, number: u32, content: Option<Kept>)
        ensures { self.new ≡ slice_set self.old number content }
    {
        let place = number as usize;
        if place < self.contents.len() {
            self.contents[place] = content;
        }
    }
}
