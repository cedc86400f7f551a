ghost use Rattle.std.specs.Prelude.{◌≡◌, ◌≤◌, ◌==◌, ◌&&◌, ◌||◌, not, false, ℕ, Bool, nat_eq, take, [], ◌∷◌, ◌++◌};
ghost use Rattle.std.specs.Prelude.{length, IfOk, OnOk, IfSome, IfNone};
ghost use Rattle.std.specs.Map.{remove_entry};
ghost use Rattle.second_chance.specs.Queue.{Queue, has_frame};
ghost use Rattle.second_chance.specs.Machine.{holds, is_changed, without, pool_mark};
ghost use Rattle.second_chance.specs.Laws.{AreApart, names};
ghost use Rattle.policy_sim.specs.Pools.{page_of, pages_of, candidates};
ghost use Rattle.policy_sim.specs.Listing.{IsPool, IsListed, IsListedBy, but, enlisted, kept_of, listed_of, struck};

use crate::directory::Directory;
use crate::entry::{Entry, Kept};
use lru::LruCache;
use second_chance::{Places, PoolMark};
use std::alloc::{AllocError, Global};
use std::collections::BTreeMap;

/// The most pages that a push takes from the pool.
const MOST_PULLED: usize = 7;

/// The pages in the pool, the one that was touched last in front, and a list of those that a push may take: by the
/// numbers of their last touches, so that the coldest come first.
#[derive(Drop)]
pub struct Pool {
    pub pages: LruCache<u32, Kept>,
    pub listed: BTreeMap<u64, Entry>,
    /// The number of the next touch.
    pub next: u64,
}

impl Pool {
    /// A pool without pages.
    pub fn new(alloc: Global) -> Result<Pool, AllocError>
        ensures empty { IfOk result (λ pool. pool.pages.entries ≡ []) }
        ensures pool { IfOk result (λ pool. IsPool pool) }
    {
        Ok(Pool {
            pages: LruCache::unbounded(alloc)?,
            listed: BTreeMap::new(alloc),
            next: 0,
        })
    }

    /// How many pages are in it.
    pub fn len(&self) -> usize
        ensures len { result ≡ length (pages_of self.now) }
        ensures apart { AreApart (pages_of self.now) }
    {
        self.pages.len()
    }

    /// Whether a page is in it.
    pub fn holds(&self, page: u32) -> bool
        ensures { result ≡ holds (pages_of self.now) page }
    {
        self.pages.contains(&page)
    }

    /// Whether a page is in it and was changed.
    pub fn is_changed(&self, page: u32) -> bool
        ensures { result ≡ is_changed (pages_of self.now) page }
    {
        // No page is in it twice.
        let _len = self.pages.len();
        match self.pages.peek(&page) {
            Some(kept) => kept.changed,
            None => false,
        }
    }

    /// What is kept of a page.
    fn kept(&self, page: u32) -> Kept
        ensures { result ≡ kept_of page self.now.pages.entries }
    {
        match self.pages.peek(&page) {
            Some(kept) => *kept,
            None => Kept::NONE,
        }
    }

    /// Takes a page off the list, of which this is kept.
    fn strike(&mut self, kept: &Kept)
        ensures listed { self.new.listed.entries ≡ struck kept.now self.old.listed.entries }
        ensures pages { self.new.pages ≡ self.old.pages }
        ensures next { self.new.next ≡ self.old.next }
    {
        if kept.listed {
            self.listed.remove(&kept.stamp);
        }
    }

    /// Lists a page where it is to be listed, of which this is kept.
    fn enlist(&mut self, page: u32, kept: &Kept) -> Result<(), AllocError>
        ensures listed { OnOk result (self.new.listed.entries ≡ enlisted page kept.now self.old.listed.entries) }
        ensures pages { self.new.pages ≡ self.old.pages }
        ensures next { self.new.next ≡ self.old.next }
    {
        if !kept.listed {
            return Ok(());
        }
        let entry = Entry {
            page,
            changed: kept.changed,
        };
        self.listed.insert(kept.stamp, entry)?;
        Ok(())
    }

    /// Takes a page off the list, and answers what is kept of it.
    fn unlist(&mut self, page: u32) -> Kept
        requires { IsPool self.old }
        ensures kept { result ≡ kept_of page self.old.pages.entries }
        ensures listed { self.new.listed.entries ≡ listed_of (remove_entry (nat_eq page) self.old.pages.entries) }
        ensures pages { self.new.pages ≡ self.old.pages }
        ensures next { self.new.next ≡ self.old.next }
    {
        let kept = self.kept(page);
        self.strike(&kept);
        kept
    }

    /// Brings a page to the front, whether it is in the pool or not. It is changed where it was, and where it is now.
    /// It is listed where it was, and where it is to be listed now: a page that is changed, or comes into the pool with
    /// no frame in the queue, where a list is wanted.
    pub fn touch(&mut self, page: u32, change: bool, list: bool) -> Result<(), AllocError>
        requires { IsPool self.old }
        ensures ok { OnOk result (pages_of self.new
            ≡ record { page = page; changed = is_changed (pages_of self.old) page || change }
            ∷ without (λ other. other == page) (pages_of self.old)) }
        ensures pool { OnOk result (IsPool self.new) }
        ensures listed { (queue : Queue) → IsListed queue self.old
            → list ≡ (change || (not (holds (pages_of self.old) page) && not (has_frame queue page)))
            → OnOk result (IsListed queue self.new) }
    {
        let before = self.unlist(page);
        let kept = touched(&before, change, list, self.next);
        self.enlist(page, &kept)?;
        let _len = self.pages.len();
        self.pages.put(page, kept)?;
        // No caller makes so many touches.
        let Some(next) = self.next.checked_add(1) else {
            return Err(AllocError);
        };
        self.next = next;
        Ok(())
    }

    /// Takes out the page that was touched longest ago.
    pub fn take_coldest(&mut self) -> Option<Entry>
        requires { IsPool self.old }
        ensures some { IfSome result (λ coldest. pages_of self.old ≡ pages_of self.new ++ page_of coldest ∷ []) }
        ensures gone { IfSome result (λ coldest. holds (pages_of self.new) coldest.page ≡ false) }
        ensures none { IfNone result (pages_of self.old ≡ []) }
        ensures same { IfNone result (self.new ≡ self.old) }
        ensures pool { IsPool self.new }
        ensures listed { (queue : Queue) → IsListed queue self.old → IsListed queue self.new }
    {
        let _len = self.pages.len();
        let (page, kept) = self.pages.pop_lru()?;
        self.strike(&kept);
        Some(Entry {
            page,
            changed: kept.changed,
        })
    }

    /// Writes what a push knows of the first seven pages of the list into the first places of `into`, and answers how
    /// many there are.
    pub fn candidates(&self, queue: &Directory, into: &mut [PoolMark; 7]) -> usize
        requires pool { IsPool self.now }
        requires listed { IsListed queue.now self.now }
        ensures candidates { take result into.new ≡ candidates queue.now (pages_of self.now) }
        ensures few { result ≤ 7 }
    {
        let mut count = 0;
        let mut coldest = self.listed.iter();
        while let Some((_, entry)) = coldest.next() {
            if count == MOST_PULLED {
                return count;
            }
            into[count] = mark_of(entry, queue);
            count += 1;
        }
        count
    }

    /// Takes out a page.
    fn remove(&mut self, page: u32)
        requires { IsPool self.old }
        ensures pages { pages_of self.new ≡ without (λ other. other == page) (pages_of self.old) }
        ensures pool { IsPool self.new }
        ensures listed { (queue : Queue) → IsListed queue self.old → IsListed queue self.new }
    {
        self.unlist(page);
        let _len = self.pages.len();
        self.pages.pop(&page);
    }

    /// Takes out these pages.
    pub fn remove_all(&mut self, pages: &Places)
        requires { IsPool self.old }
        ensures pages { pages_of self.new ≡ without (names pages.now) (pages_of self.old) }
        ensures pool { IsPool self.new }
        ensures listed { (queue : Queue) → IsListed queue self.old → IsListed queue self.new }
    {
        for place in 0..pages.len() {
            self.remove(pages.at(place));
        }
    }

    /// Lists a page where it is in the pool, since it has no frame in the queue any more.
    pub fn list(&mut self, page: u32) -> Result<(), AllocError>
        requires { IsPool self.old }
        ensures pages { OnOk result (pages_of self.new ≡ pages_of self.old) }
        ensures pool { OnOk result (IsPool self.new) }
        ensures listed { (framed : ℕ → Bool) → IsListedBy framed self.old.pages.entries
            → OnOk result (IsListedBy (but page framed) self.new.pages.entries) }
    {
        let _len = self.pages.len();
        let Some(kept) = self.pages.peek(&page) else {
            return Ok(());
        };
        if kept.listed {
            return Ok(());
        }
        let kept = Kept {
            changed: kept.changed,
            listed: true,
            stamp: kept.stamp,
        };
        self.enlist(page, &kept)?;
        let Some(place) = self.pages.peek_mut(&page) else {
            unreachable!();
        };
        *place = kept;
        Ok(())
    }
}

/// What is kept of a page after a touch with this number.
fn touched(before: &Kept, change: bool, list: bool, stamp: u64) -> Kept
    ensures { result ≡ record {
      changed = before.now.changed || change;
      listed = before.now.listed || list;
      stamp = stamp;
    } }
{
    Kept {
        changed: either(before.changed, change),
        listed: either(before.listed, list),
        stamp,
    }
}

/// Whether at least one of the two holds.
fn either(a: bool, b: bool) -> bool
    ensures { result ≡ (a || b) }
{
    a || b
}

/// What a push knows of a page in the pool.
fn mark_of(entry: &Entry, queue: &Directory) -> PoolMark
    ensures { result ≡ pool_mark queue.now (page_of entry.now) }
{
    PoolMark {
        page: entry.page,
        changed: entry.changed,
        framed: queue.newest(entry.page).is_some(),
    }
}
