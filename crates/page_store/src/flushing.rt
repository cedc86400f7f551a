// Changed pages are pushed, until none is changed.
ghost use Rattle.std.specs.Prelude.{◌≡◌, ◌<◌, [], map, true, IfOk, OnOk, IfErr, IsSome};
ghost use Rattle.std.specs.Prelude.{Some};
ghost use Rattle.std.specs.List.{All};
ghost use Rattle.site.specs.declared.outside.Stop.{Stop};
ghost use Rattle.flash_cache.specs.Pushed.{IsPlan};
ghost use Rattle.second_chance.specs.Machine.{wants_flush, push_changed};
ghost use Rattle.buffer_pool.specs.Frames.{IsPool, frame_of};
ghost use Rattle.log_store.specs.declared.store.LogStore.{LogStore};
ghost use Rattle.log_store.specs.LogList.{LogList};
ghost use Rattle.write_ahead.specs.Forcing.{forces};
ghost use Rattle.page_store.specs.Representation.{AreTold};
ghost use Rattle.page_store.specs.Caching.{cache_of};
ghost use Rattle.page_store.specs.Leaves.{AreReady};
ghost use Rattle.page_store.specs.Flushing.{saved_next, content_in, cleared_all, flushed_contents};
ghost use Rattle.page_store.specs.Changing.{flush_changes};
ghost use Rattle.page_store.specs.Rooms.{SavesFirst};
ghost use Rattle.page_store.specs.Calls.{MayWork, Pushes, Flushes, Keeps, Stands};
ghost use Rattle.record_model.specs.Touches.{flush};
ghost use Rattle.second_chance.specs.Machine.{staged_by, flushed};
ghost use Rattle.page_store.specs.Caching.{next_group, rules};
ghost use Rattle.page_store.specs.Staging.{Stages};

use crate::pushing::{GROUP_SIZE, NO_MARK, room_for_pages};
use crate::store::PageStore;
use buffer_pool::frames_of_pages;
use flash_cache::PushPlan;
use image_changes::{changes_add_up, fronts_add_up};
use log_store::LogStore;
use second_chance::{flushes_save_all, plan_flush};
use site::{Site, Stop};
use slotted_page::Page;
use std::alloc::Global;

impl PageStore {
    // What a page that is in the pool has.
    fn content_of(&self, page: u32) -> Page
        requires { IsSome (frame_of self.now.pool.frames page) }
        ensures { result ≡ content_in self.now.pool.frames page }
    {
        match self.pool.page(page) {
            Some(content) => Page::from_bytes(content.bytes()),
            None => Page::empty(),
        }
    }

    // What pages that are in the pool have.
    fn contents_of(&self, pages: &[u32]) -> Result<Vec<Page>, Stop>
        requires { All (λ page. IsSome (frame_of self.now.pool.frames page)) pages.now }
        ensures contents { IfOk result (λ contents. contents.items ≡ map (content_in self.now.pool.frames) pages.now) }
        ensures memory { IfErr result (λ stop. stop ≡ Stop.Memory) }
    {
        let mut contents = Vec::new(self.alloc);
        for page in pages {
            contents.push(self.content_of(*page))?;
        }
        Ok(contents)
    }

    // Pages that are in the pool are no longer marked as changed.
    fn clear_all(&mut self, pages: &[u32])
        requires there { All (λ page. IsSome (frame_of self.old.pool.frames page)) pages.now }
        requires pool { IsPool self.old.pool }
        ensures cleared { self.new ≡ record self.old {
          pool
              = record self.old.pool {
                frames = cleared_all pages.now self.old.pool.frames;
                framed = self.new.pool.framed;
              };
        } }
        ensures pool { IsPool self.new.pool }
        ensures told { AreTold self.old → AreTold self.new }
    {
        frames_of_pages();
        for page in pages {
            self.pool.clear_changed(*page);
        }
    }

    // Pushes the coldest changed pages, which are then no longer marked as changed.
    fn push_and_clear<S: Site>(
        &mut self,
        site: &mut S,
        log: &mut LogStore,
        plan: &PushPlan,
        pages: &[u32],
        contents: &[Page],
    ) -> Result<(), Stop>
        requires going { MayWork log.old self.old (S.state site.old) }
        requires some { wants_flush (cache_of self.old) ≡ true }
        requires plan { IsPlan plan.now self.old.flash }
        requires pages { pages.now ≡ map (λ f. f.page) (saved_next self.old) }
        requires contents { contents.now ≡ map (content_in self.old.pool.frames) pages.now }

        ensures { SavesFirst result log.old log.new self.old self.new (S.state site.old) (S.state site.new) }
    {
        frames_of_pages();
        let changed = [true; GROUP_SIZE];
        match self.push(site, log, plan, pages, &changed[..pages.len()], contents) {
            Ok(()) => {
                self.clear_all(pages);
                Ok(())
            }
            Err(stop) => Err(stop),
        }
    }

    /// Pushes a group of these pages, which are the coldest changed ones. They are then no longer marked as changed.
    fn push_changed<S: Site>(
        &mut self,
        site: &mut S,
        log: &mut LogStore,
        pages: &[u32],
    ) -> Result<(), Stop>
        requires going { MayWork log.old self.old (S.state site.old) }
        requires some { wants_flush (cache_of self.old) ≡ true }
        requires pages { pages.now ≡ map (λ f. f.page) (saved_next self.old) }

        ensures { SavesFirst result log.old log.new self.old self.new (S.state site.old) (S.state site.new) }
    {
        let mut marks = [NO_MARK; 8];
        let count = self.flash.front_marks(&mut marks);
        let front = &marks[..count];
        let plan = PushPlan {
            front,
            plan: plan_flush(Some(front), &[]),
        };
        let contents = self.contents_of(pages)?;
        self.push_and_clear(site, log, &plan, pages, contents.as_slice())
    }

    /// Pushes groups of changed pages, the coldest first, until no page in the pool is changed.
    pub(crate) fn push_all_changed<S: Site>(
        &mut self,
        site: &mut S,
        log: &mut LogStore,
    ) -> Result<(), Stop>
        requires going { MayWork log.old self.old (S.state site.old) }

        // Of an honest site.
        ensures keeps { (list : LogList) → AreReady self.old log.old list (S.state site.old)
            → Keeps result log.old self.old (S.state site.old) (S.state site.new) list
            (forces log.old (flushed_contents self.old))
            (flush_changes log.old list self.old (S.state site.old).image) }
        ensures stands { (list : LogList) → AreReady self.old log.old list (S.state site.old)
            → OnOk result (Stands log.old log.new self.old self.new (S.state site.old) (S.state site.new) list
            (forces log.old (flushed_contents self.old))
            (flush_changes log.old list self.old (S.state site.old).image)) }

        // Of every site.
        ensures pushes { Pushes result log.old log.new self.old self.new (S.state site.old) (S.state site.new)
            (forces log.old (flushed_contents self.old)) }
        ensures stages { Stages result (staged_by (rules self.old) flush (cache_of self.old))
            (next_group (flushed (rules self.old) (cache_of self.old)))
            self.old self.new (S.state site.old) (S.state site.new) }
        ensures flushes { Flushes result log.old self.old self.new (S.state site.old) (S.state site.new) }
    {
        flushes_save_all();
        changes_add_up();
        fronts_add_up();
        // The pool is walked once.
        let pages = self.pool.coldest_changed(self.alloc, self.pool.len())?;
        let mut rest = pages.as_slice();
        while !rest.is_empty() {
            let room = room_for_pages(&self.flash);
            let (group, behind) = rest.split_at(room.min(rest.len()));
            if let Err(stop) = self.push_changed(site, log, group) {
                return Err(stop);
            }
            rest = behind;
        }
        Ok(())
    }
}
