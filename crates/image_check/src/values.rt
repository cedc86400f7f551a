// What versions show of the log, and the numbers that have a value.
ghost use Rattle.std.specs.Prelude.{◌≡◌, ◌↔◌, ◌*◌, ◌+◌, ◌<◌, ◌≤◌, ◌++◌, ◌∷◌, [], ℕ, List, map, count_by, is_some};
ghost use Rattle.std.specs.Prelude.{is_ok, IsTrue, IfOk, IfSome, if◌then◌else◌};
ghost use Rattle.std.specs.List.{AllByRecursion, range_with_len};
ghost use Rattle.site.specs.Work.{OnlyReads};
ghost use Rattle.log_records.specs.Log.{Entry, Version, version_at, value_of, table_of};
ghost use Rattle.log_records.specs.Sound.{Pairwise, HoldsOff};
ghost use Rattle.slotted_page.specs.Layout.{IsSound};
ghost use Rattle.flash_cache.specs.Representation.{version_on};
ghost use Rattle.image_meaning.specs.Meaning.{version_in, versions_on};
ghost use Rattle.image_form.specs.Counted.{ReadsAtMost};
ghost use Rattle.image_form.specs.Octets.{AreVersions};
ghost use Rattle.image_form.specs.Findings.{AreFound};
ghost use Rattle.image_form.specs.Newest.{AreLive};
ghost use Rattle.image_check.specs.Judging.{JudgesBy, MayBeJudged, reading_of, records_of};
ghost use Rattle.log_judge.specs.Outcomes.{OrMemory};
ghost use Rattle.image_check.specs.Showing.{FindsVersions, AreExpected, IsKnownEarly, HasContents};
ghost use Rattle.image_check.specs.Values.{Hears, ShowsLog};
ghost use Rattle.image_form.specs.Verdict.{OctetsAreFormed, logical_image_of};
ghost use Rattle.image_check.specs.Writing.{AreWritten};

use crate::showing::{Expected, find_unlogged, is_known_early, version_lsns, version_of};
use crate::written::Writings;
use flash_directory::Directory;
use image_form::{Found, Place, Walk, find_frames};
use log_records::LogRecord;
use site::{Site, Stop};
use slotted_page::Page;
use std::alloc::Global;

// One where there is a value.
fn one_if(has_value: bool) -> u64
    ensures { result ≡ (if has_value then 1 else 0) }
{
    if has_value { 1 } else { 0 }
}

// How many numbers of a page have a value, by its version.
fn count_on(written: &Writings, page: u32, version: &Page) -> u64
    requires { IsSound version.now }

    ensures values { (log : List Entry) (pages : List Version) → AreWritten log log written.now
        → version_at pages page ≡ version_in version.now
        → result ≡ count_by is_some (map (value_of log pages) (range_with_len (32 * page) 32)) }
    ensures few { result ≤ 32 }
{
    let mut count = 0;
    for slot in 0..32u8 {
        let in_slot = version.get(slot).is_some();
        let has_value = written.has_value(32 * page as u64 + slot as u64, in_slot);
        count += one_if(has_value);
    }
    count
}

/// The page of a record.
pub fn page_of(rec: &LogRecord) -> Place {
    match rec {
        LogRecord::Update { page, .. } => Place::Page(*page),
        LogRecord::Clr { page, .. } => Place::Page(*page),
        _ => Place::Blocks,
    }
}

// What the records of a log say of versions: what these have to show, and what was written last on each number.
#[derive(Drop)]
struct Logged {
    expected: Expected,
    written: Writings,
}

impl Logged {
    // Before the first record.
    fn new(alloc: Global) -> Logged
        ensures expected { (lsns : List ℕ) → AreExpected lsns [] result.expected.contents }
        ensures written { (log : List Entry) → AreWritten log [] result.written }
    {
        Logged {
            expected: Expected::new(alloc),
            written: Writings::new(alloc),
        }
    }

    // Hears the next record of a log, where the versions have these LSNs.
    fn hear(&mut self, lsns: &[u64], lsn: u64, rec: LogRecord) -> Result<(), Stop>
        ensures { OrMemory result (λ done. ((records : List Entry)
            → AreExpected lsns.now records self.old.expected.contents
            → AreExpected lsns.now (records ++ record { lsn = lsn; rec = rec } ∷ []) self.new.expected.contents)
            × ((log : List Entry) (records : List Entry) → Pairwise (HoldsOff log) records
            → AreWritten log records self.old.written
            → AreWritten log (records ++ record { lsn = lsn; rec = rec } ∷ []) self.new.written)) }
    {
        self.written.hear(&rec)?;
        self.expected.hear(lsns, lsn, rec)
    }

    // What the kept blocks say of versions with these LSNs, or a page whose version doesn't know of a record before the
    // redo block, exactly where there is one: reads each kept block once.
    fn of_log<S: Site>(
        alloc: Global,
        site: &mut S,
        found: &Found,
        lsns: &[u64],
    ) -> Result<Result<Logged, Place>, Stop>
        requires { MayBeJudged found.now (S.state site.old) }

        ensures { JudgesBy found.now 1 0 result (S.state site.old) (S.state site.new) (λ blocks answer.
            (IsTrue (is_ok answer)
            ↔ AllByRecursion (IsKnownEarly found.now.master.redo lsns.now) (records_of found.now blocks))
            × IfOk answer (λ logged.
            Hears found.now.master.redo lsns.now (records_of found.now blocks) logged (records_of found.now blocks))) }
    {
        let mut walk = Walk::start(&found.log, found.master.kept);
        let mut logged = Logged::new(alloc);
        while let Some((lsn, rec)) = walk.next(site, &found.log)? {
            if !is_known_early(lsns, lsn, &rec, found.master.redo) {
                return Ok(Err(page_of(&rec)));
            }
            if let Err(stop) = logged.hear(lsns, lsn, rec) {
                return Err(stop);
            }
        }
        Ok(Ok(logged))
    }

    // How many numbers of a page have a value, `None` exactly where its version hasn't what is expected there: reads
    // it.
    fn count_page<S: Site>(
        &self,
        site: &mut S,
        found: &Found,
        frames: &Directory,
        page: u32,
    ) -> Result<Option<u64>, Stop>
        requires may { MayBeJudged found.now (S.state site.old) }
        requires live { AreLive found.now.rings frames.now }
        requires exists { page < found.now.log.geometry.pages }

        ensures shown { FindsVersions found.now frames.now (S.state site.old)
            → AreVersions found.now.log.geometry (S.state site.old).image
            → IfOk result (λ count. IsTrue (is_some count)
            ↔ HasContents self.now.expected.contents page
            (version_on found.now.log.geometry (S.state site.old).image page)) }
        ensures values { (log : List Entry) → FindsVersions found.now frames.now (S.state site.old)
            → AreVersions found.now.log.geometry (S.state site.old).image → AreWritten log log self.now.written
            → IfOk result (λ count. IfSome count (λ count. count ≡ count_by is_some (map
            (value_of log (versions_on found.now.log.geometry (S.state site.old).image))
            (range_with_len (32 * page) 32)))) }
        ensures few { IfOk result (λ count. IfSome count (λ count. count ≤ 32)) }
        ensures looks { ReadsAtMost 0 1 (S.state site.old) (S.state site.new) }
        ensures reads { OnlyReads result (S.state site.old) (S.state site.new) }
    {
        let version = match version_of(site, found, frames, page) {
            Ok(version) => version,
            Err(stop) => return Err(stop),
        };
        if !version.sound() {
            return Ok(None);
        }
        if !self.expected.is_on_page(page, &version) {
            return Ok(None);
        }
        Ok(Some(count_on(&self.written, page, &version)))
    }

    // How many numbers of all pages have a value, or the first page whose version hasn't what is expected there,
    // exactly where there is one: reads each version once.
    fn count_pages<S: Site>(
        &self,
        site: &mut S,
        found: &Found,
        frames: &Directory,
    ) -> Result<Result<u64, Place>, Stop>
        requires may { MayBeJudged found.now (S.state site.old) }
        requires live { AreLive found.now.rings frames.now }

        ensures shown { FindsVersions found.now frames.now (S.state site.old)
            → AreVersions found.now.log.geometry (S.state site.old).image
            → IfOk result (λ answer. IsTrue (is_ok answer) ↔ ((page : ℕ) → page < found.now.log.geometry.pages
            → HasContents self.now.expected.contents page
            (version_on found.now.log.geometry (S.state site.old).image page))) }
        ensures values { (log : List Entry) → FindsVersions found.now frames.now (S.state site.old)
            → AreVersions found.now.log.geometry (S.state site.old).image → AreWritten log log self.now.written
            → IfOk result (λ answer. IfOk answer (λ count. count
            ≡ count_by is_some (table_of log (versions_on found.now.log.geometry (S.state site.old).image)))) }
        ensures looks { ReadsAtMost 0 found.now.log.geometry.pages (S.state site.old) (S.state site.new) }
        ensures reads { OnlyReads result (S.state site.old) (S.state site.new) }
    {
        let mut count = 0;
        for page in 0..found.log.geometry().pages {
            let more = match self.count_page(site, found, frames, page) {
                Ok(Some(more)) => more,
                Ok(None) => return Ok(Err(Place::Page(page))),
                Err(stop) => return Err(stop),
            };
            count += more;
        }
        Ok(Ok(count))
    }
}

// The sixth rule, where the newest frames of pages are known.
fn show_log<S: Site>(
    alloc: Global,
    site: &mut S,
    found: &Found,
    frames: &Directory,
) -> Result<Result<u64, Place>, Stop>
    requires may { MayBeJudged found.now (S.state site.old) }
    requires live { AreLive found.now.rings frames.now }

    ensures { JudgesBy found.now 1 (2 * found.now.log.geometry.pages) result (S.state site.old) (S.state site.new)
        (λ blocks answer.
        FindsVersions found.now frames.now (S.state site.old)
        → AreVersions found.now.log.geometry (S.state site.old).image
        → ShowsLog (logical_image_of (reading_of found.now blocks) (S.state site.old).image) answer) }
{
    let lsns = match version_lsns(alloc, site, found, frames) {
        Ok(lsns) => lsns,
        Err(stop) => return Err(stop),
    };
    if let Some(place) = find_unlogged(&lsns, found.log.sealed_end()) {
        return Ok(Err(place));
    }
    let logged = match Logged::of_log(alloc, site, found, &lsns) {
        Ok(Ok(logged)) => logged,
        Ok(Err(place)) => return Ok(Err(place)),
        Err(stop) => return Err(stop),
    };
    match logged.count_pages(site, found, frames) {
        Ok(answer) => Ok(answer),
        Err(stop) => Err(stop),
    }
}

/// The sixth rule, of devices that meet the first one: how many numbers have a value, an unfinished transaction
/// counting as undone, where each version shows the records that it knows of, knows of all before the redo block, and
/// of none that isn't sealed; or a page of which that isn't so. The number is that of the table that devices stand for
/// which meet the fifth rule, too. It reads the heads of the live groups and each kept block once, and each version
/// twice; it holds an LSN for each page, where the newest frames stand, what the kept blocks have written last on each
/// number, and which transactions they close.
pub fn rule_shown<S: Site>(
    alloc: Global,
    site: &mut S,
    found: &Found,
) -> Result<Result<u64, Place>, Stop>
    requires { MayBeJudged found.now (S.state site.old) }

    ensures { JudgesBy found.now 1 (found.now.log.geometry.groups + 2 * found.now.log.geometry.pages) result
        (S.state site.old) (S.state site.new) (λ blocks answer.
        AreFound found.now.rings (S.state site.old)
        → OctetsAreFormed found.now.log.geometry found.now.master (S.state site.old).image
        → ShowsLog (logical_image_of (reading_of found.now blocks) (S.state site.old).image) answer) }
{
    let frames = match find_frames(alloc, site, &found.log.geometry(), &found.rings) {
        Ok(Some(frames)) => frames,
        Ok(None) => return Ok(Err(Place::Groups)),
        Err(stop) => return Err(stop),
    };
    match show_log(alloc, site, found, &frames) {
        Ok(answer) => Ok(answer),
        Err(stop) => Err(stop),
    }
}
