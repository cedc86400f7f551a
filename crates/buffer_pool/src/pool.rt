ghost use Rattle.std.specs.Prelude.{◌≡◌, ◌<◌, ◌≤◌, ◌==◌, ◌↔◌, ◌∷◌, ◌++◌, [], length, map, IsTrue, true, false};
ghost use Rattle.std.specs.Prelude.{Some, None, IsSome, is_some, if◌then◌else◌, IfOk, IfErr, IfSome, IfNone};
ghost use Rattle.std.specs.Prelude.{OnOk, OnErr, OnSome, slice_get, option_map, option_copied};
ghost use Rattle.slotted_page.specs.Layout.{slots_of, content_length, IsSound, FitsPage};
ghost use Rattle.buffer_pool.specs.Frames.{IsPool, frame_of, is_framed, without, touched, cleared, mark_of, front_of};
ghost use Rattle.buffer_pool.specs.Frames.{coldest_changed, coldest_movable, KnowsSame, Knows, ChangesFront};

use crate::frame::Frame;
use crate::index::Index;
use crate::pool_entry::PoolEntry;
use byte_fields::VALUE_MAX;
use lru::LruCache;
use site::Stop;
use slotted_page::Page;
use std::alloc::{AllocError, Global};
use std::marker::Model;
use std::num::NonZeroUsize;

/// The pages in memory, the one that was touched last in front, each of them once and at most as many as the pool's
/// size.
#[derive(Drop)]
pub struct Pool {
    size: u32,
    pages: LruCache<u32, PoolEntry>,
    index: Index,
}

impl Model for Pool {
    ghost use Rattle.std.specs.Prelude.{◌≡◌};
    ghost use Rattle.buffer_pool.specs.Frames.{State, IsPool};
    ghost use Rattle.buffer_pool.specs.Entries.{state_in};
    ghost use Rattle.buffer_pool.specs.Listing.{IsIndex};

    ghost Value = { State };

    ghost view = { λ p. state_in p.size p.pages.entries };

    ghost invariant = { λ p. (p.pages.cap ≡ p.size)
        × IsPool (state_in p.size p.pages.entries)
        × IsIndex p.index p.pages.entries };
}

// Adds a page to others where it is wanted.
fn add_if(pages: &mut Vec<u32>, page: u32, wanted: bool) -> Result<(), AllocError>
    ensures ok { OnOk result (pages.new.items ≡ pages.old.items ++ (if wanted then page ∷ [] else [])) }
{
    if wanted {
        pages.push(page)?;
    }
    Ok(())
}

// Adds a page to others where it is wanted, and whether it was changed.
fn add_mark_if(
    marks: &mut Vec<(u32, bool)>,
    page: u32,
    changed: bool,
    wanted: bool,
) -> Result<(), AllocError>
    ensures ok { OnOk result (marks.new.items ≡ marks.old.items ++ (if wanted then (page, changed) ∷ [] else [])) }
{
    if wanted {
        marks.push((page, changed))?;
    }
    Ok(())
}

impl Pool {
    /// An empty pool with room for so many pages, 1 to 4,096.
    pub fn new(alloc: Global, size: u32) -> Result<Pool, AllocError>
        requires least { 1 ≤ size }
        requires most { size ≤ 4096 }
        ensures empty { IfOk result (λ pool. pool ≡ record { size = size; frames = []; framed = [] }) }
    {
        let Some(most) = NonZeroUsize::new(size as usize) else {
            unreachable!();
        };
        Ok(Pool {
            size,
            pages: LruCache::sparse(alloc, most)?,
            index: Index::new(alloc),
        })
    }

    /// How many pages are in memory.
    pub fn len(&self) -> usize
        ensures len { result ≡ length self.now.frames }
        ensures pool { IsPool self.now }
    {
        self.pages.len()
    }

    /// Whether there are no pages in memory.
    pub fn is_empty(&self) -> bool
        ensures { IsTrue result ↔ (self.now.frames ≡ []) }
    {
        self.pages.is_empty()
    }

    /// Whether the pool has as many pages as it may have.
    pub fn is_full(&self) -> bool
        ensures full { IsTrue result ↔ (length self.now.frames ≡ self.now.size) }
        ensures room { result ≡ false → length self.now.frames < self.now.size }
    {
        self.pages.len() == self.size as usize
    }

    /// Brings a page to the front. It says false exactly where the page isn't there, and then nothing changed.
    pub fn touch(&mut self, page: u32) -> bool
        ensures found { result ≡ is_some (frame_of self.old.frames page) }
        ensures after { self.new
            ≡ record self.old { frames = touched self.old.frames page; framed = self.new.framed } }
        ensures framed { KnowsSame self.old self.new }
        ensures pool { IsPool self.new }
        ensures front { IsTrue result → frame_of self.old.frames page ≡ Some (front_of self.new.frames) }
        ensures there { IsTrue result → 0 < length self.new.frames }
        ensures absent { result ≡ false → frame_of self.old.frames page ≡ None }
        ensures same { result ≡ false → self.new ≡ self.old }
    {
        let Some(kept) = self.pages.get_mut(&page) else {
            return false;
        };
        let listed = kept.is_listed();
        self.index.strike(kept.stamp, listed);
        kept.stamp = self.index.next;
        let _ = self.index.add(page, kept.changed, listed);
        true
    }

    /// Puts a page that isn't there in front, unchanged, and with a frame in the queue on flash or without one. The
    /// pool isn't full. Where memory is wanting it stays as it was.
    pub fn put(&mut self, page: u32, content: Page, framed: bool) -> Result<(), Stop>
        requires absent { frame_of self.old.frames page ≡ None }
        requires room { length self.old.frames < self.old.size }
        ensures ok { OnOk result (self.new
            ≡ record self.old {
              frames = record { page = page; changed = false; content = content }
                  ∷ self.old.frames;
              framed = self.new.framed;
            }) }
        ensures framed { OnOk result (Knows page framed self.old self.new) }
        ensures memory { IfErr result (λ stop. stop ≡ Stop.Memory) }
        ensures err { OnErr result (self.new ≡ self.old) }
    {
        let kept = PoolEntry {
            changed: false,
            framed,
            stamp: self.index.next,
            content: Box::new(*self.pages.allocator(), content)?,
        };
        self.pages.put(page, kept)?;
        let _ = self.index.add(page, false, !framed);
        Ok(())
    }

    /// What the page in front holds, or none where the pool is empty.
    pub fn front(&self) -> Option<&Page>
        ensures content { IfSome result (λ content. content.now ≡ (front_of self.now.frames).content) }
        ensures there { OnSome result (0 < length self.now.frames) }
        ensures none { IfNone result (self.now.frames ≡ []) }
    {
        let (_, kept) = self.pages.peek_mru()?;
        Some(&*kept.content)
    }

    /// Changes the page in front: a slot, below 32, gets another content, and the page another LSN. The page is sound,
    /// and the content fits.
    pub fn change_front(&mut self, slot: u8, value: Option<&[u8]>, lsn: u64)
        requires there { 0 < length self.old.frames }
        requires sound { IsSound (front_of self.old.frames).content }
        requires slot { slot < 32 }
        requires short { content_length (option_copied value) ≤ VALUE_MAX }
        requires fits { FitsPage (slots_of (front_of self.old.frames).content) slot (option_copied value) }
        ensures front { ChangesFront self.old.frames self.new.frames slot (option_copied value.entry) lsn }
        ensures size { self.new.size ≡ self.old.size }
        ensures framed { KnowsSame self.old self.new }
    {
        let Some((page, _)) = self.pages.peek_mru() else {
            unreachable!();
        };
        let page = *page;
        let Some(kept) = self.pages.peek_mut(&page) else {
            unreachable!();
        };
        kept.content.set(slot, value, lsn);
        if kept.changed {
            return;
        }
        let before = kept.is_listed();
        self.index.strike(kept.stamp, before);
        kept.changed = true;
        let _ = self.index.list(kept.stamp, page, true, true);
    }

    /// Takes out the page that was touched longest ago, and tells whether it has a frame in the queue on flash, as the
    /// pool was told.
    pub fn take_coldest(&mut self) -> Option<(Frame, bool)>
        ensures some { IfSome result (λ taken. self.old.frames ≡ self.new.frames ++ taken.0 ∷ []) }
        ensures told { IfSome result (λ taken. taken.1 ≡ is_framed self.old taken.0.page) }
        ensures framed { IfSome result (λ taken. Knows taken.0.page false self.old self.new) }
        ensures none { IfNone result (self.old.frames ≡ []) }
        ensures same { IfNone result (self.new ≡ self.old) }
        ensures size { self.new.size ≡ self.old.size }
    {
        let (page, kept) = self.pages.pop_lru()?;
        let listed = kept.is_listed();
        self.index.strike(kept.stamp, listed);
        let frame = Frame {
            page,
            changed: kept.changed,
            content: Box::into_inner(kept.content),
        };
        Some((frame, kept.framed))
    }

    /// Takes out a page: whether it was changed, and what it holds; none exactly where it isn't there. The others stay
    /// in their order.
    pub fn take_page(&mut self, page: u32) -> Option<(bool, Page)>
        ensures some { IfSome result (λ taken. frame_of self.old.frames page
            ≡ Some (record { page = page; changed = taken.0; content = taken.1 })) }
        ensures none { IfNone result (frame_of self.old.frames page ≡ None) }
        ensures same { IfNone result (self.new ≡ self.old) }
        ensures after { self.new
            ≡ record self.old { frames = without self.old.frames page; framed = self.new.framed } }
        ensures framed { Knows page false self.old self.new }
    {
        let kept = self.pages.pop(&page)?;
        let listed = kept.is_listed();
        self.index.strike(kept.stamp, listed);
        Some((kept.changed, Box::into_inner(kept.content)))
    }

    /// A page that is there is no longer marked as changed. The order stays.
    pub fn clear_changed(&mut self, page: u32)
        requires { IsSome (frame_of self.old.frames page) }
        ensures after { self.new
            ≡ record self.old { frames = cleared self.old.frames page; framed = self.new.framed } }
        ensures framed { KnowsSame self.old self.new }
        ensures pool { IsPool self.new }
    {
        let Some(kept) = self.pages.peek_mut(&page) else {
            unreachable!();
        };
        let before = kept.is_listed();
        self.index.strike(kept.stamp, before);
        kept.changed = false;
        let after = kept.is_listed();
        let _ = self.index.list(kept.stamp, page, false, after);
    }

    /// Tells whether a page has a frame in the queue on flash; of a page that isn't there nothing is kept. The order
    /// stays.
    pub fn set_framed(&mut self, page: u32, framed: bool)
        ensures kept { self.new ≡ record self.old { framed = self.new.framed } }
        ensures framed { IsSome (frame_of self.old.frames page) → Knows page framed self.old self.new }
        ensures absent { frame_of self.old.frames page ≡ None → self.new ≡ self.old }
    {
        let Some(kept) = self.pages.peek_mut(&page) else {
            return;
        };
        let before = kept.is_listed();
        self.index.strike(kept.stamp, before);
        kept.framed = framed;
        let after = kept.is_listed();
        let _ = self.index.list(kept.stamp, page, kept.changed, after);
    }

    /// What a page holds; none exactly where it isn't there. The order stays.
    pub fn page(&self, page: u32) -> Option<&Page>
        ensures content { option_copied result ≡ option_map (λ frame. frame.content) (frame_of self.now.frames page) }
        ensures some { OnSome result (IsSome (frame_of self.now.frames page)) }
        ensures none { IfNone result (frame_of self.now.frames page ≡ None) }
    {
        let kept = self.pages.peek(&page)?;
        Some(&*kept.content)
    }

    /// The number of the page at a place, counted from 0 at the front, and whether it was changed.
    pub fn mark(&self, place: usize) -> (u32, bool)
        requires { place < length self.now.frames }
        ensures { option_map mark_of (slice_get self.now.frames place) ≡ Some (result.0, result.1) }
    {
        match self.pages.iter().nth(place) {
            Some((page, kept)) => (*page, kept.changed),
            None => unreachable!(),
        }
    }

    /// The number of each page, the front first, and whether it was changed.
    pub fn marks(&self, alloc: Global) -> Result<Vec<(u32, bool)>, AllocError>
        ensures marks { IfOk result (λ marks. marks.items ≡ map mark_of self.now.frames) }
    {
        let mut marks = Vec::new(alloc);
        let mut colder = self.pages.iter();
        while let Some((page, kept)) = colder.next() {
            marks.push((*page, kept.changed))?;
        }
        Ok(marks)
    }

    /// The pages that were changed, the one that was touched longest ago in front, so many at most.
    pub fn coldest_changed(&self, alloc: Global, most: usize) -> Result<Vec<u32>, AllocError>
        ensures pages { IfOk result (λ pages. pages.items
            ≡ map (λ frame. frame.page) (coldest_changed most self.now.frames)) }
    {
        let mut pages = Vec::new(alloc);
        let mut warmer = self.pages.iter();
        while let Some((page, kept)) = warmer.next_back() {
            if pages.len() == most {
                return Ok(pages);
            }
            add_if(&mut pages, *page, kept.changed)?;
        }
        Ok(pages)
    }

    // The pages that are listed, found without the index, which isn't whole.
    fn walk_to_listed(
        &self,
        _index: &Index,
        alloc: Global,
        most: usize,
    ) -> Result<Vec<(u32, bool)>, AllocError>
        requires { _index.now.whole ≡ false }
        ensures marks { IfOk result (λ marks. marks.items ≡ map mark_of (coldest_movable most self.now)) }
    {
        let mut marks = Vec::new(alloc);
        let mut warmer = self.pages.iter();
        while let Some((page, kept)) = warmer.next_back() {
            if marks.len() == most {
                return Ok(marks);
            }
            add_mark_if(&mut marks, *page, kept.changed, kept.is_listed())?;
        }
        Ok(marks)
    }

    /// The pages that were changed or have no frame in the queue on flash, the one that was touched longest ago in
    /// front, so many at most, and whether each was changed. The pool is walked only where memory was wanting once for
    /// the index of these pages.
    pub fn coldest_movable(
        &self,
        alloc: Global,
        most: usize,
    ) -> Result<Vec<(u32, bool)>, AllocError>
        ensures marks { IfOk result (λ marks. marks.items ≡ map mark_of (coldest_movable most self.now)) }
    {
        if self.index.is_whole() {
            return self.index.coldest(alloc, most);
        }
        self.walk_to_listed(&self.index, alloc, most)
    }
}
