// Pages come into the pool.
ghost use Rattle.std.specs.Prelude.{None, length, ◌≡◌, ◌⊎◌, ◌+◌, ◌≤◌, ◌<◌, false, if◌then◌else◌, IsTrue, IfOk};
ghost use Rattle.std.specs.Prelude.{OnOk, OnErr, IfErr};
ghost use Rattle.site.specs.declared.outside.Dev.{Dev};
ghost use Rattle.site.specs.declared.outside.Stop.{Stop};
ghost use Rattle.site.specs.Calls.{IsUnchanged};
ghost use Rattle.slotted_page.specs.Layout.{IsSound};
ghost use Rattle.disk_pages.specs.Pages.{LiesOn, page_on};
ghost use Rattle.flash_cache.specs.Representation.{version_on};
ghost use Rattle.second_chance.specs.Queue.{with_read};
ghost use Rattle.second_chance.specs.Machine.{in_front};
ghost use Rattle.buffer_pool.specs.Frames.{frame_of, front_of};
ghost use Rattle.page_store.specs.Representation.{Invariant, Matches, current};
ghost use Rattle.page_store.specs.Caching.{cache_of};
ghost use Rattle.page_store.specs.Leaves.{KeepsCurrent, PutsIn};
ghost use Rattle.site.specs.Work.{Calls};
ghost use Rattle.page_store.specs.Rooms.{BringsIn};
ghost use Rattle.page_store.specs.Calls.{MayWork, Reads};
ghost use Rattle.std.specs.Prelude.{[]};
ghost use Rattle.page_store.specs.Caching.{next_group};
ghost use Rattle.page_store.specs.Staging.{Stages};

use crate::store::PageStore;
use disk_pages::{PAGE_LEN, read_page};
use flash_cache::unframed_is_disk;
use log_store::LogStore;
use site::{Dev, Site, Stop};
use slotted_page::Page;

// A page as it stands on the disk.
fn read_disk<S: Site>(site: &mut S, page: u32) -> Result<Page, Stop>
    requires lies { LiesOn page (S.state site.old).image.disk }

    ensures calls { Calls result (S.state site.old) (S.state site.new) }
    ensures read { IsTrue (S.state site.old).honest
        → IfOk result (λ content. content ≡ page_on page (S.state site.old).image.disk) }
    ensures same { IsTrue (S.state site.old).honest
        → IsUnchanged (S.state site.old) (S.state site.new) }
    ensures reads { (S.state site.new).disk_reads ≤ (S.state site.old).disk_reads + 1 }
    ensures flash { (S.state site.new).flash_reads ≡ (S.state site.old).flash_reads }
    ensures log { (S.state site.new).log_reads ≡ (S.state site.old).log_reads }
    ensures stops { IfErr result (λ stop. stop ≡ Stop.Device Dev.Disk) }
{
    let mut octets = [0; PAGE_LEN];
    read_page(site, page, &mut octets)?;
    Ok(Page::from_bytes(&octets))
}

// The page itself where it is sound.
fn sound_page(content: Page) -> Result<Page, Stop>
    ensures same { IfOk result (λ sound. sound ≡ content) }
    ensures sound { OnOk result (IsSound content) }
    ensures unsound { OnErr result (IsSound content → ⊥) }
    ensures stops { IfErr result (λ stop. stop ≡ Stop.Foreign) }
{
    if content.sound() {
        Ok(content)
    } else {
        Err(Stop::Foreign)
    }
}

impl PageStore {
    /// Reads the version of a page: its last frame, which is referenced then, or its disk page where it has none.
    pub(crate) fn read_version<S: Site>(&mut self, site: &mut S, page: u32) -> Result<Page, Stop>
        requires going { Invariant self.old (S.state site.old) }
        requires exists { page < self.old.flash.geometry.pages }

        ensures reads { Reads result self.old self.new (S.state site.old) (S.state site.new) page }
        ensures stages { Stages result [] (next_group (cache_of self.old))
            self.old self.new (S.state site.old) (S.state site.new) }
        ensures read { Matches self.old (S.state site.old) → IfOk result (λ content.
            content ≡ version_on self.old.flash.geometry (S.state site.old).image page) }
        ensures sound { IfOk result (λ content. IsSound content) }
        ensures queue { OnOk result (self.new.flash.directory ≡ with_read page self.old.flash.directory) }
        ensures pool { self.new.pool ≡ self.old.pool }
        ensures stops { IfErr result (λ stop. (stop ≡ Stop.Device Dev.Flash)
            ⊎ ((stop ≡ Stop.Device Dev.Disk) ⊎ (stop ≡ Stop.Foreign))) }
    {
        unframed_is_disk();
        let mut content = Page::empty();
        let found = match self.flash.fetch(site, page, &mut content) {
            Ok(found) => found,
            Err(stop) => return Err(stop),
        };
        if found {
            return sound_page(content);
        }
        match read_disk(site, page) {
            Ok(content) => sound_page(content),
            Err(stop) => Err(stop),
        }
    }

    /// Brings a page that isn't in the pool to its front. The pool isn't full.
    pub(crate) fn read_in<S: Site>(&mut self, site: &mut S, page: u32) -> Result<(), Stop>
        requires going { Invariant self.old (S.state site.old) }
        requires exists { page < self.old.flash.geometry.pages }
        requires absent { frame_of self.old.pool.frames page ≡ None }
        requires room { length self.old.pool.frames < self.old.pool.size }

        ensures reads { Reads result self.old self.new (S.state site.old) (S.state site.new) page }
        ensures stages { Stages result [] (next_group (cache_of self.old))
            self.old self.new (S.state site.old) (S.state site.new) }
        ensures read { Matches self.old (S.state site.old) → OnOk result ((front_of self.new.pool.frames).content
            ≡ version_on self.old.flash.geometry (S.state site.old).image page) }
        ensures current { Matches self.old (S.state site.old)
            → OnOk result (KeepsCurrent self.old (S.state site.old).image self.new (S.state site.new).image) }
        ensures machine { OnOk result (cache_of self.new ≡ in_front page false (cache_of self.old)) }
        ensures put { OnOk result (PutsIn page self.old.pool.frames self.new.pool.frames) }
        ensures size { self.new.pool.size ≡ self.old.pool.size }
        ensures stops { IfErr result (λ stop. (stop ≡ Stop.Device Dev.Flash)
            ⊎ ((stop ≡ Stop.Device Dev.Disk) ⊎ ((stop ≡ Stop.Memory) ⊎ (stop ≡ Stop.Foreign)))) }
    {
        match self.read_version(site, page) {
            Ok(content) => {
                let framed = self.flash.holds(page);
                self.pool.put(page, content, framed)
            }
            Err(stop) => Err(stop),
        }
    }

    /// Brings a page that isn't in the pool to its front. Where the pool is full its coldest page is evicted before.
    pub(crate) fn bring_in<S: Site>(
        &mut self,
        site: &mut S,
        log: &mut LogStore,
        page: u32,
    ) -> Result<(), Stop>
        requires going { MayWork log.old self.old (S.state site.old) }
        requires exists { page < self.old.flash.geometry.pages }
        requires absent { frame_of self.old.pool.frames page ≡ None }

        ensures { BringsIn result log.old log.new self.old self.new (S.state site.old) (S.state site.new) page }
    {
        match self.make_room(site, log) {
            Ok(()) => self.read_in(site, page),
            Err(stop) => Err(stop),
        }
    }
}
