// What versions have to show of the log.
ghost use Rattle.std.specs.Prelude.{◌≡◌, ◌↔◌, ◌*◌, ◌/◌, ◌^◌, ◌<◌, ◌≤◌, ◌++◌, ◌∷◌, [], ℕ, nat_eq, List, length, map};
ghost use Rattle.std.specs.Prelude.{slice_get, option_copied, is_none, IsTrue, IfOk};
ghost use Rattle.std.specs.List.{list_all};
ghost use Rattle.site.specs.Work.{OnlyReads};
ghost use Rattle.indexmap.specs.IndexMap.{get};
ghost use Rattle.record_model.specs.State.{content_at};
ghost use Rattle.log_records.specs.Log.{Entry, after_of};
ghost use Rattle.slotted_page.specs.Layout.{slots_of, IsSound};
ghost use Rattle.flash_cache.specs.Representation.{version_on};
ghost use Rattle.image_meaning.specs.Meaning.{versions_on};
ghost use Rattle.image_form.specs.Counted.{ReadsAtMost};
ghost use Rattle.image_form.specs.Newest.{AreLive};
ghost use Rattle.image_check.specs.Judging.{MayBeJudged};
ghost use Rattle.log_judge.specs.Outcomes.{OrMemory};
ghost use Rattle.image_check.specs.Showing.{FindsVersions, AreExpected, IsKnownEarly, IsAs, HasContents, is_logged};

use crate::holding::number_of;
use flash_directory::Directory;
use frame_group::PAGE_LEN;
use image_form::{Found, Place, are_same, read_version};
use indexmap::IndexMap;
use log_records::LogRecord;
use record_model::Octets;
use site::{Site, Stop};
use slotted_page::{Page, SLOTS};
use std::alloc::Global;

/// The version of a page.
pub fn version_of<S: Site>(
    site: &mut S,
    found: &Found,
    frames: &Directory,
    page: u32,
) -> Result<Page, Stop>
    requires may { MayBeJudged found.now (S.state site.old) }
    requires live { AreLive found.now.rings frames.now }
    requires exists { page < found.now.log.geometry.pages }

    ensures version { FindsVersions found.now frames.now (S.state site.old)
        → IfOk result (λ version. version ≡ version_on found.now.log.geometry (S.state site.old).image page) }
    ensures looks { ReadsAtMost 0 1 (S.state site.old) (S.state site.new) }
    ensures reads { OnlyReads result (S.state site.old) (S.state site.new) }
{
    let mut octets = [0u8; PAGE_LEN];
    let geometry = found.log.geometry();
    if let Err(stop) = read_version(site, &geometry, &found.rings, frames, page, &mut octets) {
        return Err(stop);
    }
    Ok(Page::from_bytes(&octets))
}

/// The LSNs of the versions of all pages: reads each once.
pub fn version_lsns<S: Site>(
    alloc: Global,
    site: &mut S,
    found: &Found,
    frames: &Directory,
) -> Result<Vec<u64>, Stop>
    requires may { MayBeJudged found.now (S.state site.old) }
    requires live { AreLive found.now.rings frames.now }

    ensures lsns { FindsVersions found.now frames.now (S.state site.old) → IfOk result (λ lsns.
        lsns.items ≡ map (λ v. v.lsn) (versions_on found.now.log.geometry (S.state site.old).image)) }
    ensures many { IfOk result (λ lsns. length lsns.items ≡ found.now.log.geometry.pages) }
    ensures looks { ReadsAtMost 0 found.now.log.geometry.pages (S.state site.old) (S.state site.new) }
    ensures reads { OnlyReads result (S.state site.old) (S.state site.new) }
{
    let mut lsns = Vec::new(alloc);
    for page in 0..found.log.geometry().pages {
        let version = match version_of(site, found, frames, page) {
            Ok(version) => version,
            Err(stop) => return Err(stop),
        };
        let Ok(()) = lsns.push(version.lsn()) else {
            return Err(Stop::Memory);
        };
    }
    Ok(lsns)
}

// Whether a version with this LSN knows of no record that isn't sealed.
fn is_logged(lsn: u64, end: u64) -> bool
    ensures { result ≡ is_logged end lsn }
{
    lsn == 0 || lsn < end
}

/// The first page whose version knows of a record that isn't sealed, `None` exactly where each has the LSN 0 or one
/// below the end.
pub fn find_unlogged(lsns: &[u64], end: u64) -> Option<Place>
    requires { length lsns.now ≤ 2 ^ 32 }
    ensures { IsTrue (is_none result) ↔ IsTrue (list_all (is_logged end) lsns.now) }
{
    for (page, lsn) in lsns.iter().enumerate() {
        if !is_logged(*lsn, end) {
            return Some(Place::Page(page as u32));
        }
    }
    None
}

// The LSN of the version that has a number, if there is one.
fn lsn_for(lsns: &[u64], number: u64) -> Option<u64>
    ensures { result ≡ slice_get lsns.now (number / 32) }
{
    lsns.get((number / 32) as usize).copied()
}

/// Whether a record stands from the redo block on, or the version of its page knows of it.
pub fn is_known_early(lsns: &[u64], lsn: u64, rec: &LogRecord, redo: u64) -> bool
    ensures { IsTrue result ↔ IsKnownEarly redo lsns.now (record { lsn = lsn; rec = rec.now }) }
{
    if lsn / 512 >= redo {
        return true;
    }
    let Some(number) = number_of(rec) else {
        return true;
    };
    match lsn_for(lsns, number) {
        Some(known) => lsn <= known,
        None => true,
    }
}

// What an Update or a CLR has written.
fn after_of(rec: LogRecord) -> Option<Octets>
    ensures { result ≡ after_of rec }
{
    match rec {
        LogRecord::Update { after, .. } => after,
        LogRecord::Clr { after, .. } => after,
        _ => None,
    }
}

// Whether a slot has this content.
fn is_content(slot: Option<&[u8]>, content: &Option<Octets>) -> bool
    ensures { IsTrue result ↔ (option_copied slot.entry ≡ content.now) }
{
    let Some(value) = slot else {
        return content.is_none();
    };
    let Some(octets) = content else {
        return false;
    };
    are_same(value, octets.as_slice())
}

/// What versions have to show: of each number that they know records on, what the last of these has written.
#[derive(Drop)]
pub struct Expected {
    contents: IndexMap<u64, Option<Octets>>,
}

impl Expected {
    /// Before the first record.
    pub fn new(alloc: Global) -> Expected
        ensures { (lsns : List ℕ) → AreExpected lsns [] result.contents }
    {
        Expected {
            contents: IndexMap::new(alloc),
        }
    }

    /// Hears the next record of a log, where the versions have these LSNs.
    pub fn hear(&mut self, lsns: &[u64], lsn: u64, rec: LogRecord) -> Result<(), Stop>
        ensures { OrMemory result (λ done. (records : List Entry) → AreExpected lsns.now records self.old.contents
            → AreExpected lsns.now (records ++ record { lsn = lsn; rec = rec } ∷ []) self.new.contents) }
    {
        let Some(number) = number_of(&rec) else {
            return Ok(());
        };
        let Some(known) = lsn_for(lsns, number) else {
            return Ok(());
        };
        if lsn > known {
            return Ok(());
        }
        let Ok(_) = self.contents.insert(number, after_of(rec)) else {
            return Err(Stop::Memory);
        };
        Ok(())
    }

    // Whether a slot of a page has what is expected on a number, if anything is.
    fn is_in_slot(&self, number: u64, page: &Page, slot: u8) -> bool
        requires sound { IsSound page.now }
        requires slot { slot < 32 }
        ensures { IsTrue result ↔ IsAs (content_at (slots_of page.now) slot) (get nat_eq self.now.contents number) }
    {
        match self.contents.get(&number) {
            Some(content) => is_content(page.get(slot), content),
            None => true,
        }
    }

    /// Whether a page of a number has in all slots what is expected there.
    pub fn is_on_page(&self, number: u32, page: &Page) -> bool
        requires sound { IsSound page.now }
        ensures { IsTrue result ↔ HasContents self.now.contents number page.now }
    {
        for slot in 0..SLOTS {
            if !self.is_in_slot(32 * number as u64 + slot as u64, page, slot) {
                return false;
            }
        }
        true
    }
}
