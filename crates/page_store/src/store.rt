// The pool, the queue on flash and the disk, joined under the write-ahead rule.
ghost use Rattle.std.specs.Prelude.{◌≡◌, ◌≢◌, ◌⊎◌, ◌↔◌, ◌+◌, ◌^◌, ◌<◌, ◌≤◌, ℕ, List, [], length, true, false};
ghost use Rattle.std.specs.Prelude.{if◌then◌else◌, IsTrue, IfOk, OnOk, OnErr, IfErr, IsErrOf, Some, None};
ghost use Rattle.std.specs.Prelude.{option_copied, slice_index_or, Option};
ghost use Rattle.site.specs.declared.outside.Dev.{Dev};
ghost use Rattle.site.specs.declared.outside.Stop.{Stop};
ghost use Rattle.site.specs.Geometry.{HasLimits, HasLengths};
ghost use Rattle.site.specs.State.{State, Image, reads_of};
ghost use Rattle.site.specs.Calls.{Preserves, FaultRose, IsUnchanged};
ghost use Rattle.site.specs.Faults.{WorkFaults};
ghost use Rattle.slotted_page.specs.Layout.{lsn_of, slots_of, content_length, IsSound, FitsPage};
ghost use Rattle.frame_group.specs.Groups.{Frame as Stored};
ghost use Rattle.flash_cache.specs.Representation.{IsNext, HasGroups, AreSaved, version_on, IsCleanOn, queue_of};
ghost use Rattle.flash_cache.specs.Representation.{start_reads};
ghost use Rattle.second_chance.specs.Machine.{touched, holds, finds, misses, wants_flush};
ghost use Rattle.buffer_pool.specs.Frames.{front_of, ChangesFront};
ghost use Rattle.log_store.specs.LogList.{LogList};
ghost use Rattle.log_store.specs.declared.store.LogStore.{LogStore};
ghost use Rattle.write_ahead.specs.Forcing.{end_forced, forces};
ghost use Rattle.page_store.specs.Representation.{IsStore, Invariant, Matches, current};
ghost use Rattle.page_store.specs.Caching.{cache_of, rules, with_change, pushes};
ghost use Rattle.page_store.specs.Ahead.{IsAhead, pushed_by_touch};
ghost use Rattle.page_store.specs.Leaves.{AreReady};
ghost use Rattle.page_store.specs.Flushing.{flushed_contents};
ghost use Rattle.page_store.specs.Changing.{touch_changes, flush_changes};
ghost use Rattle.page_store.specs.Calls.{MayWork, KeepsInvariant, StopsAtEnd, Flushes, Keeps, Stands};
ghost use Rattle.record_model.specs.Touches.{touch, flush};
ghost use Rattle.second_chance.specs.Machine.{staged_by, flushed};
ghost use Rattle.page_store.specs.Caching.{next_group};
ghost use Rattle.page_store.specs.Staging.{Stages};

use buffer_pool::{Pool, frames_of_pages};
use byte_fields::VALUE_MAX;
use flash_cache::FlashCache;
use log_store::LogStore;
use second_chance::flushes_save_all;
use site::{Geometry, Site, Stop};
use slotted_page::Page;
use std::alloc::Global;

/// The pages of a site. It is ended once a call gave an error.
#[derive(Drop)]
pub struct PageStore {
    pub(crate) alloc: Global,
    pub(crate) pool: Pool,
    pub(crate) flash: FlashCache,
    pub(crate) ended: bool,
}

impl PageStore {
    /// The pages of a site, with an empty pool of so many pages, 1 to 4,096, and the queue that stands on the flash,
    /// found by its segments.
    pub fn start<S: Site>(
        alloc: Global,
        site: &mut S,
        geometry: &Geometry,
        pool: u32,
    ) -> Result<PageStore, Stop>
        requires limits { HasLimits geometry.now }
        requires lengths { HasLengths geometry.now (S.state site.old).image }
        requires least { 1 ≤ pool }
        requires most { pool ≤ 4096 }

        ensures going { IfOk result (λ store. Invariant store (S.state site.new)) }
        ensures geometry { IfOk result (λ store. store.flash.geometry ≡ geometry.now) }
        ensures size { IfOk result (λ store. store.pool.size ≡ pool) }
        ensures empty { IfOk result (λ store. store.pool.frames ≡ []) }
        ensures ended { IfOk result (λ store. store.ended ≡ false) }
        ensures machine { IsTrue (S.state site.old).honest → (first : ℕ) (groups : List (List Stored))
            → HasGroups geometry.now first groups (S.state site.old).image
            → AreSaved geometry.now groups (S.state site.old).image
            → IfOk result (λ store. cache_of store ≡ record { pool = []; queue = queue_of first groups }) }
        ensures fits { IsTrue (S.state site.old).honest
            → (first : ℕ) (groups : List (List Stored))
            → HasGroups geometry.now first groups (S.state site.old).image
            → AreSaved geometry.now groups (S.state site.old).image
            → IsCleanOn geometry.now (S.state site.old).image
            → ((page : ℕ) → page < geometry.now.pages
            → IsSound (version_on geometry.now (S.state site.old).image page))
            → IfOk result (λ store. Matches store (S.state site.new)) }
        ensures is_next { IsTrue (S.state site.old).honest
            → IfOk result (λ store. IsNext store.flash (S.state site.new)) }
        ensures same { IsTrue (S.state site.old).honest
            → IsUnchanged (S.state site.old) (S.state site.new) }
        ensures preserves { Preserves (S.state site.old) (S.state site.new) }
        ensures faults { WorkFaults result (S.state site.old) (S.state site.new) }
        ensures reads { (S.state site.new).flash_reads
            ≤ (S.state site.old).flash_reads + start_reads geometry.now }
        ensures others { (d : Dev) → d ≢ Dev.Flash
            → reads_of d (S.state site.new) ≡ reads_of d (S.state site.old) }

        // When each answer comes.
        ensures device { IsErrOf result (Stop.Device Dev.Flash)
            → FaultRose Dev.Flash (S.state site.old) (S.state site.new) }
        ensures foreign { IsErrOf result Stop.Foreign → IsTrue (S.state site.old).honest
            → (first : ℕ) (groups : List (List Stored))
            → HasGroups geometry.now first groups (S.state site.old).image
            → AreSaved geometry.now groups (S.state site.old).image → ⊥ }
        ensures stops { IfErr result (λ stop. (stop ≡ Stop.Device Dev.Flash)
            ⊎ ((stop ≡ Stop.Memory) ⊎ (stop ≡ Stop.Foreign))) }
    {
        let pool = Pool::new(alloc, pool)?;
        let flash = match FlashCache::start(alloc, site, geometry) {
            Ok(flash) => flash,
            Err(stop) => return Err(stop),
        };
        Ok(PageStore {
            alloc,
            pool,
            flash,
            ended: false,
        })
    }

    /// What a slot, below 32, of the page in front has. The pool isn't empty.
    pub fn get(&self, slot: u8) -> Option<&[u8]>
        requires store { IsStore self.now }
        requires there { 0 < length self.now.pool.frames }
        requires slot { slot < 32 }
        ensures content { option_copied result
            ≡ slice_index_or (slots_of (front_of self.now.pool.frames).content) slot None }
        ensures short { content_length (option_copied result) ≤ VALUE_MAX }
    {
        match self.pool.front() {
            Some(page) => page.get(slot),
            None => None,
        }
    }

    /// The LSN of the last change of the page in front. The pool isn't empty.
    pub fn front_lsn(&self) -> u64
        requires { 0 < length self.now.pool.frames }
        ensures { result ≡ lsn_of (front_of self.now.pool.frames).content }
    {
        match self.pool.front() {
            Some(page) => page.lsn(),
            None => 0,
        }
    }

    /// Whether a content has room in a slot, below 32, of the page in front, beside the values of its other slots. The
    /// pool isn't empty.
    pub fn fits(&self, slot: u8, value: Option<&[u8]>) -> bool
        requires store { IsStore self.now }
        requires there { 0 < length self.now.pool.frames }
        requires slot { slot < 32 }
        ensures { IsTrue result ↔ FitsPage (slots_of (front_of self.now.pool.frames).content) slot
            (option_copied value.entry) }
    {
        match self.pool.front() {
            Some(page) => page.fits(slot, value),
            None => false,
        }
    }

    /// Gives a slot, below 32, of the page in front another content, and the page a greater LSN, and marks it as
    /// changed. The pool isn't empty. A value has at most 200 octets, and fits.
    pub fn change(&mut self, slot: u8, value: Option<&[u8]>, lsn: u64)
        requires store { IsStore self.old }
        requires there { 0 < length self.old.pool.frames }
        requires slot { slot < 32 }
        requires short { content_length (option_copied value) ≤ VALUE_MAX }
        requires fits { FitsPage (slots_of (front_of self.old.pool.frames).content) slot (option_copied value) }
        requires rises { lsn_of (front_of self.old.pool.frames).content < lsn }

        ensures front { ChangesFront self.old.pool.frames self.new.pool.frames slot (option_copied value.entry) lsn }
        ensures machine { cache_of self.new ≡ with_change (cache_of self.old) }
        ensures others { (image : Image) (page : ℕ) → page ≢ (front_of self.old.pool.frames).page
            → current self.new image page ≡ current self.old image page }
        ensures changed { (image : Image) → current self.new image (front_of self.old.pool.frames).page
            ≡ (front_of self.new.pool.frames).content }
        ensures going { (site : State) → Invariant self.old site → Invariant self.new site }
        ensures fit { (site : State) → Matches self.old site → Matches self.new site }
        ensures ahead { (log : LogStore) (image : Image) → IsAhead log self.old image
            → lsn < end_forced log → IsAhead log self.new image }
        ensures size { self.new.pool.size ≡ self.old.pool.size }
        ensures flash { self.new.flash ≡ self.old.flash }
        ensures ended { self.new.ended ≡ self.old.ended }
    {
        frames_of_pages();
        self.pool.change_front(slot, value, lsn);
    }

    /// Brings a page to the front of the pool. A page that isn't there is read, from its last frame on flash or from
    /// the disk; where the pool is full its coldest page is evicted before. An evicted page that was changed, or has no
    /// frame in the queue, is pushed, and the log is forced before exactly where its tail has that page's last change.
    pub fn touch<S: Site>(
        &mut self,
        site: &mut S,
        log: &mut LogStore,
        page: u32,
    ) -> Result<(), Stop>
        requires going { MayWork log.old self.old (S.state site.old) }
        requires exists { page < self.old.flash.geometry.pages }

        // Of an honest site.
        ensures keeps { (list : LogList) → AreReady self.old log.old list (S.state site.old)
            → Keeps result log.old self.old (S.state site.old) (S.state site.new) list
            (forces log.old (pushed_by_touch self.old page))
            (touch_changes log.old list self.old (S.state site.old).image page) }
        ensures stands { (list : LogList) → AreReady self.old log.old list (S.state site.old)
            → OnOk result (Stands log.old log.new self.old self.new (S.state site.old) (S.state site.new) list
            (forces log.old (pushed_by_touch self.old page))
            (touch_changes log.old list self.old (S.state site.old).image page)) }

        // Of every site.
        ensures works { KeepsInvariant result log.old log.new self.old self.new (S.state site.old) (S.state site.new)
            (forces log.old (pushed_by_touch self.old page)) }
        ensures stages { Stages result (staged_by (rules self.old) (touch page false) (cache_of self.old))
            (next_group (cache_of self.old) + (if pushes (rules self.old) page (cache_of self.old) then 1 else 0))
            self.old self.new (S.state site.old) (S.state site.new) }
        ensures worn { StopsAtEnd result log.old self.old (forces log.old (pushed_by_touch self.old page))
            (pushes (rules self.old) page (cache_of self.old)) }
        ensures machine { OnOk result (cache_of self.new ≡ touched (rules self.old) page false (cache_of self.old)) }
        ensures front { OnOk result ((front_of self.new.pool.frames).page ≡ page) }
        ensures there { OnOk result (0 < length self.new.pool.frames) }
        ensures held { IsTrue (holds (cache_of self.old).pool page)
            → (site.new ≡ site.old) × (log.new ≡ log.old) }
        ensures ended { OnOk result (self.new.ended ≡ self.old.ended) }
        ensures err { OnErr result (self.new.ended ≡ true) }
        ensures flash_reads { (S.state site.new).flash_reads ≤ (S.state site.old).flash_reads
            + (if pushes (rules self.old) page (cache_of self.old) then 12 else 0)
            + (if finds (rules self.old) page (cache_of self.old) then 1 else 0) }
        ensures disk_reads { (S.state site.new).disk_reads ≤ (S.state site.old).disk_reads
            + (if misses (rules self.old) page (cache_of self.old) then 1 else 0) }
    {
        frames_of_pages();
        if self.pool.touch(page) {
            return Ok(());
        }
        if let Err(stop) = self.bring_in(site, log, page) {
            self.ended = true;
            return Err(stop);
        }
        Ok(())
    }

    /// Pushes groups of changed pages, the coldest first, until no page in the pool is changed. The pages stay in the
    /// pool. Before a group is pushed the log is forced, exactly where its tail has the last change of a page of the
    /// group.
    pub fn flush_all<S: Site>(&mut self, site: &mut S, log: &mut LogStore) -> Result<(), Stop>
        requires going { MayWork log.old self.old (S.state site.old) }

        // Of an honest site.
        ensures keeps { (list : LogList) → AreReady self.old log.old list (S.state site.old)
            → Keeps result log.old self.old (S.state site.old) (S.state site.new) list
            (forces log.old (flushed_contents self.old))
            (flush_changes log.old list self.old (S.state site.old).image) }
        ensures stands { (list : LogList) → AreReady self.old log.old list (S.state site.old)
            → OnOk result (Stands log.old log.new self.old self.new (S.state site.old) (S.state site.new) list
            (forces log.old (flushed_contents self.old))
            (flush_changes log.old list self.old (S.state site.old).image)) }

        // Of every site.
        ensures works { KeepsInvariant result log.old log.new self.old self.new (S.state site.old) (S.state site.new)
            (forces log.old (flushed_contents self.old)) }
        ensures stages { Stages result (staged_by (rules self.old) flush (cache_of self.old))
            (next_group (flushed (rules self.old) (cache_of self.old)))
            self.old self.new (S.state site.old) (S.state site.new) }
        ensures flushes { Flushes result log.old self.old self.new (S.state site.old) (S.state site.new) }
        ensures clean { OnOk result (wants_flush (cache_of self.new) ≡ false) }
        ensures ended { OnOk result (self.new.ended ≡ self.old.ended) }
        ensures err { OnErr result (self.new.ended ≡ true) }
        ensures others { (d : Dev) → d ≢ Dev.Flash
            → reads_of d (S.state site.new) ≡ reads_of d (S.state site.old) }
        ensures never_past_log { forces log.old (flushed_contents self.old) ≡ true → log.old.ring.hi ≡ 2 ^ 40
            → OnOk result ⊥ }
    {
        flushes_save_all();
        if let Err(stop) = self.push_all_changed(site, log) {
            self.ended = true;
            return Err(stop);
        }
        Ok(())
    }

    /// Whether a call gave an error. No further call on the store is lawful then, though each stays safe.
    pub fn ended(&self) -> bool
        ensures { result ≡ self.now.ended }
    {
        self.ended
    }
}
