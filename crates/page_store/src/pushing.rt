// Pages leave the pool for the queue on flash.
ghost use Rattle.std.specs.Prelude.{◌≡◌, ◌≢◌, ◌+◌, ◌^◌, ◌<◌, ◌≤◌, ◌&&◌, ℕ, [], length, true, false};
ghost use Rattle.std.specs.Prelude.{if◌then◌else◌, ◌||◌, not, OnOk, IsErrOf, Some, None, AllPairs};
ghost use Rattle.std.specs.List.{All};
ghost use Rattle.site.specs.declared.outside.Dev.{Dev};
ghost use Rattle.site.specs.declared.outside.Stop.{Stop};
ghost use Rattle.flash_cache.specs.Pushed.{pages_pushed, known_pushed, pushed_queue, IsPlan};
ghost use Rattle.second_chance.specs.Machine.{rules_of, evict_coldest, must_be_pushed};
ghost use Rattle.buffer_pool.specs.Frames.{frame_of};
ghost use Rattle.log_store.specs.declared.store.LogStore.{LogStore};
ghost use Rattle.log_store.specs.LogList.{LogList};
ghost use Rattle.write_ahead.specs.Forcing.{forces};
ghost use Rattle.page_store.specs.Caching.{cache_of, rules, is_full, is_pushed, with_way};
ghost use Rattle.page_store.specs.Pulling.{room_for_pages};
ghost use Rattle.page_store.specs.Ahead.{evicted, pushed_for_room};
ghost use Rattle.page_store.specs.Leaves.{AreReady};
ghost use Rattle.page_store.specs.Changing.{given_changes, eviction_changes};
ghost use Rattle.page_store.specs.Calls.{MayWork, Pushes, StopsAtEnd, Keeps, Stands, KeepsGiven, StandsGiven};
ghost use Rattle.page_store.specs.Rooms.{MakesRoom};
ghost use Rattle.second_chance.specs.Machine.{staged_in_push};
ghost use Rattle.page_store.specs.Caching.{next_group};
ghost use Rattle.page_store.specs.Staging.{staged_by_eviction, Stages};

use crate::store::PageStore;
use crate::taking::EvictedPages;
use buffer_pool::frames_of_pages;
use byte_fields::Mark;
use flash_cache::{FlashCache, PushPlan, unframed_is_disk};
use image_changes::{changes_add_up, fronts_add_up, ring_kept};
use image_meaning::rings_kept_under;
use log_store::{LogStore, stays_beside};
use second_chance::plan_flush;
use site::{Site, Stop};
use slotted_page::Page;
use write_ahead::force_for;

/// The most frames that a group has.
pub const GROUP_SIZE: usize = 8;

pub const NO_MARK: Mark = Mark {
    page: 0,
    valid: false,
    dirty: false,
    referenced: false,
};

/// How many pages the next group has room for beside its second chances.
pub fn room_for_pages(flash: &FlashCache) -> usize
    requires groups { 2 ≤ flash.now.geometry.groups }
    requires few { length flash.now.directory.groups < flash.now.geometry.groups }
    ensures room { result ≡ room_for_pages (rules_of 0 flash.now.geometry.groups) flash.now.directory }
    ensures some { 1 ≤ result }
    ensures few { result ≤ 8 }
{
    let mut marks = [NO_MARK; 8];
    let count = flash.front_marks(&mut marks);
    GROUP_SIZE - plan_flush(Some(&marks[..count]), &[]).chances.len()
}

/// Whether a page that leaves the pool is to be pushed: it was changed, or it has no frame in the queue.
fn must_be_pushed(changed: bool, framed: bool) -> bool
    ensures { result ≡ (changed || not framed) }
{
    changed || !framed
}

impl PageStore {
    /// Pushes a group with the pages given, once the log is sealed up to their last changes. The pool is told which
    /// pages have a frame then.
    pub(crate) fn push<S: Site>(
        &mut self,
        site: &mut S,
        log: &mut LogStore,
        plan: &PushPlan,
        pages: &[u32],
        changed: &[bool],
        contents: &[Page],
    ) -> Result<(), Stop>
        requires going { MayWork log.old self.old (S.state site.old) }
        requires plan { IsPlan plan.now self.old.flash }
        requires marks { length changed.now ≡ length pages.now }
        requires lists { length contents.now ≡ length pages.now }
        requires some { 1 ≤ length pages.now }
        requires few { length (pages_pushed self.old.flash pages.now) ≤ 8 }
        requires exist { All (λ page. page < self.old.flash.geometry.pages) pages.now }
        requires apart { AllPairs (λ a b. a ≢ b) pages.now }

        // Of an honest site.
        ensures keeps { (list : LogList) → AreReady self.old log.old list (S.state site.old)
            → KeepsGiven result log.old self.old pages.now changed.now contents.now
            (S.state site.old) (S.state site.new) list
            (given_changes log.old list self.old (S.state site.old).image pages.now changed.now contents.now) }
        ensures stands { (list : LogList) → AreReady self.old log.old list (S.state site.old)
            → OnOk result (StandsGiven log.old log.new self.old self.new pages.now changed.now contents.now
            (S.state site.old) (S.state site.new) list
            (given_changes log.old list self.old (S.state site.old).image pages.now changed.now contents.now)) }

        // Of every site.
        ensures pushes { Pushes result log.old log.new self.old self.new (S.state site.old) (S.state site.new)
            (forces log.old contents.now) }
        ensures stages { Stages result (staged_in_push (rules self.old) self.old.flash.directory)
            (next_group (cache_of self.old) + 1) self.old self.new (S.state site.old) (S.state site.new) }
        ensures worn { StopsAtEnd result log.old self.old (forces log.old contents.now) true }
        ensures worn_at { IsErrOf result (Stop.Worn Dev.Flash) → self.new.flash.ring.hi ≡ 2 ^ 40 }
        ensures pool { self.new.pool ≡ record self.old.pool { framed = self.new.pool.framed } }
        ensures directory { OnOk result (self.new.flash.directory
            ≡ pushed_queue self.old.flash (known_pushed self.old.flash pages.now changed.now)) }
        ensures reads { (S.state site.new).flash_reads ≤ (S.state site.old).flash_reads + 12 }
    {
        stays_beside();
        ring_kept();
        changes_add_up();
        fronts_add_up();
        rings_kept_under();
        match force_for(site, log, contents) {
            Ok(()) => {
                let pushed = self.flash.push_group(site, plan, pages, changed, contents);
                self.update_framed_marks(plan.front);
                self.update_framed_pages(pages);
                pushed
            }
            Err(stop) => Err(stop),
        }
    }

    /// Takes the coldest page out of the pool. Where it was changed, or has no frame in the queue, it is pushed, with
    /// the coldest others of which one or the other is so: as many as the group has room for leave the pool too.
    pub(crate) fn evict<S: Site>(&mut self, site: &mut S, log: &mut LogStore) -> Result<(), Stop>
        requires going { MayWork log.old self.old (S.state site.old) }

        // Of an honest site.
        ensures keeps { (list : LogList) → AreReady self.old log.old list (S.state site.old)
            → Keeps result log.old self.old (S.state site.old) (S.state site.new) list
            (forces log.old (evicted self.old)) (eviction_changes log.old list self.old (S.state site.old).image) }
        ensures stands { (list : LogList) → AreReady self.old log.old list (S.state site.old)
            → OnOk result (Stands log.old log.new self.old self.new (S.state site.old) (S.state site.new) list
            (forces log.old (evicted self.old)) (eviction_changes log.old list self.old (S.state site.old).image)) }

        // Of every site.
        ensures pushes { Pushes result log.old log.new self.old self.new (S.state site.old) (S.state site.new)
            (forces log.old (evicted self.old)) }
        ensures stages { Stages result (staged_by_eviction (rules self.old) (cache_of self.old))
            (next_group (cache_of self.old) + (if is_pushed (cache_of self.old) then 1 else 0))
            self.old self.new (S.state site.old) (S.state site.new) }
        ensures worn { StopsAtEnd result log.old self.old (forces log.old (evicted self.old))
            (is_pushed (cache_of self.old)) }
        ensures machine { OnOk result (cache_of self.new ≡ evict_coldest (rules self.old) (cache_of self.old)) }
        ensures room_made { 0 < length self.old.pool.frames
            → length self.new.pool.frames < length self.old.pool.frames }
        ensures absent { (page : ℕ) → frame_of self.old.pool.frames page ≡ None
            → frame_of self.new.pool.frames page ≡ None }
        ensures reads { (S.state site.new).flash_reads ≤ (S.state site.old).flash_reads
            + (if is_pushed (cache_of self.old) then 12 else 0) }
    {
        frames_of_pages();
        unframed_is_disk();
        let Some((coldest, framed)) = self.pool.take_coldest() else {
            return Ok(());
        };
        if !must_be_pushed(coldest.changed, framed) {
            return Ok(());
        }
        let mut marks = [NO_MARK; 8];
        let count = self.flash.front_marks(&mut marks);
        let front = &marks[..count];
        match self.take_with(front, coldest) {
            Ok((plan, taken)) => {
                let plan = PushPlan { front, plan };
                let EvictedPages {
                    pages,
                    changed,
                    contents,
                } = &taken;
                self.push(site, log, &plan, pages, changed, contents)
            }
            Err(stop) => Err(stop),
        }
    }

    /// Makes room for one page more: where the pool is full its coldest page is evicted.
    pub(crate) fn make_room<S: Site>(
        &mut self,
        site: &mut S,
        log: &mut LogStore,
    ) -> Result<(), Stop>
        requires going { MayWork log.old self.old (S.state site.old) }

        // Of an honest site, and of every site.
        ensures room { MakesRoom result log.old log.new self.old self.new (S.state site.old) (S.state site.new) }

        // Of every site.
        ensures pushes { Pushes result log.old log.new self.old self.new (S.state site.old) (S.state site.new)
            (forces log.old (pushed_for_room self.old)) }
        ensures machine { OnOk result (cache_of self.new ≡ with_way self.old) }
        ensures room_made { OnOk result (length self.new.pool.frames < self.new.pool.size) }
        ensures absent { (page : ℕ) → frame_of self.old.pool.frames page ≡ None
            → frame_of self.new.pool.frames page ≡ None }
        ensures reads { (S.state site.new).flash_reads ≤ (S.state site.old).flash_reads
            + (if (is_full self.old && is_pushed (cache_of self.old)) then 12 else 0) }
    {
        if !self.pool.is_full() {
            return Ok(());
        }
        self.evict(site, log)
    }
}
