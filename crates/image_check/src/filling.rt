// Whether pages have room for what is redone on them, and for what undo puts back.
ghost use Rattle.std.specs.Prelude.{◌↔◌, ◌+◌, ◌*◌, ◌++◌, ◌∷◌, [], ℕ, List, reverse, is_none, is_ok, IsTrue, IfOk};
ghost use Rattle.site.specs.Work.{OnlyReads};
ghost use Rattle.log_records.specs.declared.log_record.LogRecord.{LogRecord};
ghost use Rattle.log_records.specs.Log.{Entry, Version, number_of};
ghost use Rattle.log_records.specs.Sound.{HaveBegunBefore};
ghost use Rattle.log_records.specs.Unfinished.{losers};
ghost use Rattle.image_meaning.specs.Meaning.{versions_on};
ghost use Rattle.image_form.specs.Counted.{ReadsAtMost};
ghost use Rattle.image_form.specs.Octets.{AreVersions};
ghost use Rattle.image_form.specs.Findings.{AreFound};
ghost use Rattle.image_form.specs.Newest.{AreLive};
ghost use Rattle.image_check.specs.Chaining.{StandsIn};
ghost use Rattle.image_check.specs.Filling.{AreKept, FitsAt, HaveRoom, HearsLog, KeepsOpen, Opens, RedoneFits};
ghost use Rattle.image_check.specs.Filling.{filled, opened, put_back_by};
ghost use Rattle.image_check.specs.Judging.{JudgesBy, MayBeJudged, reading_of, records_of};
ghost use Rattle.image_check.specs.Looking.{LooksOnce, without};
ghost use Rattle.image_check.specs.Showing.{FindsVersions};
ghost use Rattle.log_judge.specs.Unended.{AreLeft};
ghost use Rattle.image_form.specs.Verdict.{OctetsAreFormed, RecordsFollowBegins, LosersCanBeUndone, VersionsFit};
ghost use Rattle.image_form.specs.Verdict.{PagesHaveRoom, logical_image_of};

use crate::chains::Chains;
use crate::lengths::Lengths;
use crate::unfinished::is_left;
use crate::values::page_of;
use flash_directory::Directory;
use image_form::{Found, Place, Walk, find_frames};
use log_judge::{LeftTxns, txn_of};
use log_records::LogRecord;
use site::{Site, Stop};
use std::alloc::Global;

// What one walk over the kept blocks finds: how many octets pages take up behind the records, and what is left of the
// unfinished transactions.
#[derive(Drop)]
struct Filling {
    lengths: Lengths,
    chains: Chains,
}

impl Filling {
    // Before the first record.
    fn new(alloc: Global) -> Filling
        ensures { (log : List Entry) (pages : List Version) → HearsLog log pages [] result }
    {
        Filling {
            lengths: Lengths::new(alloc),
            chains: Chains::none(alloc),
        }
    }

    // Hears the next record of a log that leaves these transactions unfinished, and answers whether its page has room.
    fn hear<S: Site>(
        &mut self,
        site: &mut S,
        found: &Found,
        frames: &Directory,
        left: &LeftTxns,
        lsn: u64,
        rec: LogRecord,
    ) -> Result<bool, Stop>
        requires may { MayBeJudged found.now (S.state site.old) }
        requires live { AreLive found.now.rings frames.now }

        ensures heard { (log : List Entry) (records : List Entry)
            → FindsVersions found.now frames.now (S.state site.old)
            → AreVersions found.now.log.geometry (S.state site.old).image
            → StandsIn log records (record { lsn = lsn; rec = rec }) → AreLeft log left.now.left
            → HearsLog log (versions_on found.now.log.geometry (S.state site.old).image) records self.old
            → IfOk result (λ fits. HearsLog log (versions_on found.now.log.geometry (S.state site.old).image)
            (records ++ record { lsn = lsn; rec = rec } ∷ []) self.new
            × (IsTrue fits ↔ FitsAt (versions_on found.now.log.geometry (S.state site.old).image)
            (filled (versions_on found.now.log.geometry (S.state site.old).image)
            (records ++ record { lsn = lsn; rec = rec } ∷ [])) (number_of rec))) }
        ensures looks { LooksOnce found.now.log.geometry.pages result self.old.lengths.pages self.new.lengths.pages
            (S.state site.old) (S.state site.new) }
        ensures reads { OnlyReads result (S.state site.old) (S.state site.new) }
    {
        let fits = match self.lengths.hear(site, found, frames, lsn, &rec) {
            Ok(fits) => fits,
            Err(stop) => return Err(stop),
        };
        if !is_left(left, txn_of(lsn, &rec)) {
            return Ok(fits);
        }
        if let Err(stop) = self.chains.hear(lsn, rec) {
            return Err(stop);
        }
        Ok(fits)
    }

    // What the kept blocks leave, or a page that has no room for what is redone on it, exactly where there is one:
    // reads each kept block once, and the version of each page that has records there.
    fn of_log<S: Site>(
        alloc: Global,
        site: &mut S,
        found: &Found,
        frames: &Directory,
        left: &LeftTxns,
    ) -> Result<Result<Filling, Place>, Stop>
        requires may { MayBeJudged found.now (S.state site.old) }
        requires live { AreLive found.now.rings frames.now }

        ensures { JudgesBy found.now 1 found.now.log.geometry.pages result (S.state site.old) (S.state site.new)
            (λ blocks answer.
            FindsVersions found.now frames.now (S.state site.old)
            → AreVersions found.now.log.geometry (S.state site.old).image
            → HaveBegunBefore (records_of found.now blocks) → AreLeft (records_of found.now blocks) left.now.left
            → VersionsFit (logical_image_of (reading_of found.now blocks) (S.state site.old).image)
            → (IsTrue (is_ok answer)
            ↔ RedoneFits (logical_image_of (reading_of found.now blocks) (S.state site.old).image))
            × IfOk answer (λ filling. HearsLog (records_of found.now blocks)
            (versions_on found.now.log.geometry (S.state site.old).image) (records_of found.now blocks) filling)) }
    {
        let mut walk = Walk::start(&found.log, found.master.kept);
        let mut filling = Filling::new(alloc);
        while let Some((lsn, rec)) = walk.next(site, &found.log)? {
            let place = page_of(&rec);
            match filling.hear(site, found, frames, left, lsn, rec) {
                Ok(true) => {}
                Ok(false) => return Ok(Err(place)),
                Err(stop) => return Err(stop),
            }
        }
        Ok(Ok(filling))
    }
}

// Leaves room for what undo of these Updates puts back, the last one first; or a page that hasn't so much.
fn raise_all<S: Site>(
    lengths: &mut Lengths,
    site: &mut S,
    found: &Found,
    frames: &Directory,
    updates: &[LogRecord],
) -> Result<Option<Place>, Stop>
    requires may { MayBeJudged found.now (S.state site.old) }
    requires live { AreLive found.now.rings frames.now }

    ensures opens { (log : List Entry) (before : List LogRecord)
        → FindsVersions found.now frames.now (S.state site.old)
        → AreVersions found.now.log.geometry (S.state site.old).image
        → AreKept (versions_on found.now.log.geometry (S.state site.old).image)
        (opened log (versions_on found.now.log.geometry (S.state site.old).image) before) lengths.old.pages
        → HaveRoom (versions_on found.now.log.geometry (S.state site.old).image)
        (opened log (versions_on found.now.log.geometry (S.state site.old).image) before)
        → IfOk result (λ failing. Opens log (versions_on found.now.log.geometry (S.state site.old).image)
        (before ++ reverse updates.now) lengths.new.pages failing) }
    ensures looks { LooksOnce found.now.log.geometry.pages result lengths.old.pages lengths.new.pages
        (S.state site.old) (S.state site.new) }
    ensures reads { OnlyReads result (S.state site.old) (S.state site.new) }
{
    let mut left = updates.len();
    while left > 0 {
        left -= 1;
        let update = &updates[left];
        match lengths.raise(site, found, frames, update) {
            Ok(true) => {}
            Ok(false) => return Ok(Some(page_of(update))),
            Err(stop) => return Err(stop),
        }
    }
    Ok(None)
}

// A page that has no room for all that undo of these transactions puts back, `None` exactly where each has.
fn find_crowded<S: Site>(
    site: &mut S,
    found: &Found,
    frames: &Directory,
    left: &LeftTxns,
    mut filling: Filling,
) -> Result<Option<Place>, Stop>
    requires may { MayBeJudged found.now (S.state site.old) }
    requires live { AreLive found.now.rings frames.now }

    ensures crowded { (log : List Entry) → FindsVersions found.now frames.now (S.state site.old)
        → AreVersions found.now.log.geometry (S.state site.old).image
        → AreLeft log left.now.left → KeepsOpen log filling.chains
        → AreKept (versions_on found.now.log.geometry (S.state site.old).image)
        (opened log (versions_on found.now.log.geometry (S.state site.old).image) []) filling.lengths.pages
        → HaveRoom (versions_on found.now.log.geometry (S.state site.old).image)
        (opened log (versions_on found.now.log.geometry (S.state site.old).image) [])
        → IfOk result (λ failing. IsTrue (is_none failing)
        ↔ HaveRoom (versions_on found.now.log.geometry (S.state site.old).image)
        (opened log (versions_on found.now.log.geometry (S.state site.old).image)
        (put_back_by log (losers log)))) }
    ensures looks { ReadsAtMost 0 (without filling.lengths.pages found.now.log.geometry.pages)
        (S.state site.old) (S.state site.new) }
    ensures reads { OnlyReads result (S.state site.old) (S.state site.new) }
{
    for (txn, _) in &left.left {
        let updates = filling.chains.left_of(*txn);
        match raise_all(&mut filling.lengths, site, found, frames, updates) {
            Ok(None) => {}
            Ok(Some(place)) => return Ok(Some(place)),
            Err(stop) => return Err(stop),
        }
    }
    Ok(None)
}

/// The twelfth rule, of devices that meet those before it, by what is left unfinished: a page that has no room for what
/// is redone on it up to some record, or for what it shows once all is redone and all that undo puts back; `None`
/// exactly where there is none. It reads the heads of the live groups, each kept block, and the version of each page
/// that has records there once; it holds where the newest frames stand, 32 lengths for each of these pages, and of the
/// unfinished transactions what remains of their Updates and what they have written last on each number.
pub fn rule_page_room<S: Site>(
    alloc: Global,
    site: &mut S,
    found: &Found,
    left: &LeftTxns,
) -> Result<Option<Place>, Stop>
    requires { MayBeJudged found.now (S.state site.old) }

    ensures { JudgesBy found.now 1 (found.now.log.geometry.groups + 2 * found.now.log.geometry.pages) result
        (S.state site.old) (S.state site.new) (λ blocks failing.
        AreFound found.now.rings (S.state site.old)
        → OctetsAreFormed found.now.log.geometry found.now.master (S.state site.old).image
        → RecordsFollowBegins (logical_image_of (reading_of found.now blocks) (S.state site.old).image)
        → LosersCanBeUndone (logical_image_of (reading_of found.now blocks) (S.state site.old).image)
        → VersionsFit (logical_image_of (reading_of found.now blocks) (S.state site.old).image)
        → AreLeft (records_of found.now blocks) left.now.left
        → (IsTrue (is_none failing)
        ↔ PagesHaveRoom (logical_image_of (reading_of found.now blocks) (S.state site.old).image))) }
{
    let frames = match find_frames(alloc, site, &found.log.geometry(), &found.rings) {
        Ok(Some(frames)) => frames,
        Ok(None) => return Ok(Some(Place::Groups)),
        Err(stop) => return Err(stop),
    };
    match Filling::of_log(alloc, site, found, &frames, left) {
        Ok(Ok(filling)) => find_crowded(site, found, &frames, left, filling),
        Ok(Err(place)) => Ok(Some(place)),
        Err(stop) => Err(stop),
    }
}
