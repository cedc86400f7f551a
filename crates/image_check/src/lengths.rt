// How many octets pages take up, record by record.
ghost use Rattle.std.specs.Prelude.{◌≡◌, ◌↔◌, ◌==◌, ◌/◌, ◌%◌, ◌<◌, ◌≤◌, ◌++◌, ◌∷◌, [], ℕ, nat_eq, nat_lt, max, List};
ghost use Rattle.std.specs.Prelude.{slice_index_or, slice_set, is_some, Some, IsTrue, IfOk, IfSome, IfNone, OnOk};
ghost use Rattle.std.specs.Prelude.{if◌then◌else◌};
ghost use Rattle.indexmap.specs.IndexMap.{get};
ghost use Rattle.site.specs.Work.{OnlyReads};
ghost use Rattle.record_model.specs.State.{content_at, length_of, page_room};
ghost use Rattle.log_records.specs.declared.log_record.LogRecord.{LogRecord};
ghost use Rattle.log_records.specs.Log.{Entry, Version, number_of, before_of, after_of};
ghost use Rattle.log_records.specs.Room.{total_on};
ghost use Rattle.slotted_page.specs.Layout.{lsn_of, slots_of, IsSound};
ghost use Rattle.image_meaning.specs.Meaning.{versions_on};
ghost use Rattle.image_form.specs.Counted.{ReadsAtMost};
ghost use Rattle.image_form.specs.Octets.{AreVersions};
ghost use Rattle.image_form.specs.Newest.{AreLive};
ghost use Rattle.image_check.specs.Judging.{MayBeJudged};
ghost use Rattle.log_judge.specs.Outcomes.{OrMemory};
ghost use Rattle.image_check.specs.Looking.{LooksOnce, without};
ghost use Rattle.image_check.specs.Showing.{FindsVersions};
ghost use Rattle.image_check.specs.Filling.{AreKept, KnownOn, AreOn, Fills, filled, opened};

use crate::holding::number_of;
use crate::showing::version_of;
use flash_directory::Directory;
use image_form::Found;
use indexmap::IndexMap;
use log_records::LogRecord;
use record_model::Octets;
use site::{Site, Stop};
use slotted_page::{HEAP_LEN, Page, SLOTS};
use std::alloc::Global;

// How many octets a content takes up: 0 where there is no value.
fn length_of(content: &Option<Octets>) -> u16
    ensures { result ≡ length_of content.now }
{
    match content {
        Some(octets) => octets.as_slice().len() as u16,
        None => 0,
    }
}

// How many octets what an Update or a CLR has written takes up.
fn length_after(rec: &LogRecord) -> u16
    ensures { result ≡ length_of (after_of rec.now) }
{
    match rec {
        LogRecord::Update { after, .. } => length_of(after),
        LogRecord::Clr { after, .. } => length_of(after),
        _ => 0,
    }
}

// How many octets what stood before an Update takes up.
fn length_before(rec: &LogRecord) -> u16
    ensures { result ≡ length_of (before_of rec.now) }
{
    match rec {
        LogRecord::Update { before, .. } => length_of(before),
        _ => 0,
    }
}

// How many octets what a slot of a page has takes up.
fn length_in(page: &Page, slot: u8) -> u16
    requires sound { IsSound page.now }
    requires slot { slot < 32 }
    ensures { result ≡ length_of (content_at (slots_of page.now) slot) }
{
    match page.get(slot) {
        Some(value) => value.len() as u16,
        None => 0,
    }
}

/// The LSN of a page's version, and how many octets each of its slots takes up.
#[derive(Clone, Copy, Debug, Drop)]
pub struct PageLengths {
    pub lsn: u64,
    pub lengths: [u16; 32],
}

impl PageLengths {
    // Of a page that isn't of the form.
    const BLANK: PageLengths = PageLengths {
        lsn: 0,
        lengths: [0; 32],
    };

    // Those of a version.
    fn of(version: &Page) -> PageLengths
        requires { IsSound version.now }
        ensures lsn { result.lsn ≡ lsn_of version.now }
        ensures lengths { (slot : ℕ) → slot < 32
            → slice_index_or result.lengths slot 0 ≡ length_of (content_at (slots_of version.now) slot) }
    {
        let mut lengths = [0; 32];
        for slot in 0..SLOTS {
            lengths[slot as usize] = length_in(version, slot);
        }
        PageLengths {
            lsn: version.lsn(),
            lengths,
        }
    }

    // With another length of a slot.
    fn with(&self, slot: usize, length: u16) -> PageLengths
        requires { slot < 32 }
        ensures { result ≡ record { lsn = self.now.lsn; lengths = slice_set self.now.lengths slot length } }
    {
        let mut with = *self;
        with.lengths[slot] = length;
        with
    }

    // After a record that leaves a slot so long: one that the version knows of changes nothing.
    fn after(&self, lsn: u64, slot: usize, length: u16) -> PageLengths
        requires { slot < 32 }
        ensures { result ≡ (if nat_lt self.now.lsn lsn
            then record { lsn = self.now.lsn; lengths = slice_set self.now.lengths slot length }
            else self.now) }
    {
        if lsn <= self.lsn {
            return *self;
        }
        self.with(slot, length)
    }

    // With no less than this length of a slot.
    fn raised(&self, slot: usize, length: u16) -> PageLengths
        requires { slot < 32 }
        ensures { result ≡ record {
          lsn = self.now.lsn;
          lengths = slice_set self.now.lengths slot (max (slice_index_or self.now.lengths slot 0) length);
        } }
    {
        self.with(slot, self.lengths[slot].max(length))
    }

    // Whether a page has room for all of them.
    fn fit(&self) -> bool
        ensures { (page : ℕ) → IsTrue result
            ↔ (total_on page (λ number. slice_index_or self.now.lengths (number % 32) 0) ≤ page_room) }
    {
        let mut total = 0;
        for slot in 0..SLOTS {
            total += self.lengths[slot as usize] as usize;
        }
        total <= HEAP_LEN
    }
}

/// How many octets the slots of pages take up, of each page that was asked for.
#[derive(Drop)]
pub struct Lengths {
    pub pages: IndexMap<u64, PageLengths>,
}

impl Lengths {
    /// Before the first page.
    pub fn new(alloc: Global) -> Lengths
        ensures { (pages : List Version) → AreKept pages (filled pages []) result.pages }
    {
        Lengths {
            pages: IndexMap::new(alloc),
        }
    }

    // Those of a page: what is kept of it, or its version's, which is read. `None` where there is no such page.
    fn of_page<S: Site>(
        &self,
        site: &mut S,
        found: &Found,
        frames: &Directory,
        page: u64,
    ) -> Result<Option<PageLengths>, Stop>
        requires may { MayBeJudged found.now (S.state site.old) }
        requires live { AreLive found.now.rings frames.now }

        ensures lengths { (lengths : ℕ → ℕ) → FindsVersions found.now frames.now (S.state site.old)
            → AreVersions found.now.log.geometry (S.state site.old).image
            → AreKept (versions_on found.now.log.geometry (S.state site.old).image) lengths self.now.pages
            → IfOk result
            (KnownOn (versions_on found.now.log.geometry (S.state site.old).image) lengths page) }
        ensures some { IfOk result (λ lengths. IfSome lengths (λ lengths. (page < found.now.log.geometry.pages)
            × ReadsAtMost 0 (if is_some (get nat_eq self.now.pages page) then 0 else 1)
            (S.state site.old) (S.state site.new))) }
        ensures none { IfOk result (λ lengths. IfNone lengths
            (ReadsAtMost 0 0 (S.state site.old) (S.state site.new))) }
        ensures looks { ReadsAtMost 0 (without self.now.pages found.now.log.geometry.pages)
            (S.state site.old) (S.state site.new) }
        ensures reads { OnlyReads result (S.state site.old) (S.state site.new) }
    {
        if page >= found.log.geometry().pages as u64 {
            return Ok(None);
        }
        if let Some(lengths) = self.pages.get(&page) {
            return Ok(Some(*lengths));
        }
        let version = match version_of(site, found, frames, page as u32) {
            Ok(version) => version,
            Err(stop) => return Err(stop),
        };
        if !version.sound() {
            return Ok(Some(PageLengths::BLANK));
        }
        Ok(Some(PageLengths::of(&version)))
    }

    // Keeps those of a page, and answers whether it has room for all of them.
    fn put(&mut self, page: u64, lengths: PageLengths) -> Result<bool, Stop>
        ensures puts { OnOk result ((p : ℕ) → get nat_eq self.new.pages p
            ≡ (if page == p then Some lengths else get nat_eq self.old.pages p)) }
        ensures keeps { OrMemory result (λ fits. (pages : List Version) (old new : ℕ → ℕ)
            → AreKept pages old self.old.pages → AreOn pages new page lengths
            → ((number : ℕ) → (number / 32 ≡ page → ⊥) → new number ≡ old number)
            → AreKept pages new self.new.pages × (IsTrue fits ↔ (total_on page new ≤ page_room))) }
    {
        let Ok(_) = self.pages.insert(page, lengths) else {
            return Err(Stop::Memory);
        };
        Ok(lengths.fit())
    }

    /// Hears the next record of a log, and answers whether its page has room for what its slots then have. It reads the
    /// page's version where it isn't kept.
    pub fn hear<S: Site>(
        &mut self,
        site: &mut S,
        found: &Found,
        frames: &Directory,
        lsn: u64,
        rec: &LogRecord,
    ) -> Result<bool, Stop>
        requires may { MayBeJudged found.now (S.state site.old) }
        requires live { AreLive found.now.rings frames.now }

        ensures heard { (records : List Entry) → FindsVersions found.now frames.now (S.state site.old)
            → AreVersions found.now.log.geometry (S.state site.old).image
            → AreKept (versions_on found.now.log.geometry (S.state site.old).image)
            (filled (versions_on found.now.log.geometry (S.state site.old).image) records) self.old.pages
            → IfOk result (λ fits. Fills (versions_on found.now.log.geometry (S.state site.old).image)
            (filled (versions_on found.now.log.geometry (S.state site.old).image)
            (records ++ record { lsn = lsn; rec = rec.now } ∷ [])) (number_of rec.now) self.new.pages fits) }
        ensures looks { LooksOnce found.now.log.geometry.pages result self.old.pages self.new.pages
            (S.state site.old) (S.state site.new) }
        ensures reads { OnlyReads result (S.state site.old) (S.state site.new) }
    {
        let Some(number) = number_of(rec) else {
            return Ok(true);
        };
        let lengths = match self.of_page(site, found, frames, number / 32) {
            Ok(Some(lengths)) => lengths,
            Ok(None) => return Ok(true),
            Err(stop) => return Err(stop),
        };
        let after = lengths.after(lsn, (number % 32) as usize, length_after(rec));
        self.put(number / 32, after)
    }

    /// Leaves room for what undo of an Update puts back, and answers whether its page has room for all that it is to
    /// have room for. It reads the page's version where it isn't kept.
    pub fn raise<S: Site>(
        &mut self,
        site: &mut S,
        found: &Found,
        frames: &Directory,
        update: &LogRecord,
    ) -> Result<bool, Stop>
        requires may { MayBeJudged found.now (S.state site.old) }
        requires live { AreLive found.now.rings frames.now }

        ensures raised { (log : List Entry) (updates : List LogRecord)
            → FindsVersions found.now frames.now (S.state site.old)
            → AreVersions found.now.log.geometry (S.state site.old).image
            → AreKept (versions_on found.now.log.geometry (S.state site.old).image)
            (opened log (versions_on found.now.log.geometry (S.state site.old).image) updates) self.old.pages
            → IfOk result (λ fits. Fills (versions_on found.now.log.geometry (S.state site.old).image)
            (opened log (versions_on found.now.log.geometry (S.state site.old).image)
            (updates ++ update.now ∷ [])) (number_of update.now) self.new.pages fits) }
        ensures looks { LooksOnce found.now.log.geometry.pages result self.old.pages self.new.pages
            (S.state site.old) (S.state site.new) }
        ensures reads { OnlyReads result (S.state site.old) (S.state site.new) }
    {
        let Some(number) = number_of(update) else {
            return Ok(true);
        };
        let lengths = match self.of_page(site, found, frames, number / 32) {
            Ok(Some(lengths)) => lengths,
            Ok(None) => return Ok(true),
            Err(stop) => return Err(stop),
        };
        let raised = lengths.raised((number % 32) as usize, length_before(update));
        self.put(number / 32, raised)
    }
}
