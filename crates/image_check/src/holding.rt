// The records that unfinished transactions have written, record by record.
ghost use Rattle.std.specs.Prelude.{◌≡◌, ◌↔◌, ◌+◌, ◌++◌, ◌∷◌, [], nat_eq, List, is_none, IsTrue, IfOk};
ghost use Rattle.indexmap.specs.IndexMap.{get};
ghost use Rattle.log_records.specs.Log.{Entry, txn_by, number_of};
ghost use Rattle.image_check.specs.Judging.{JudgesBy, MayBeJudged, reading_of, records_of};
ghost use Rattle.log_judge.specs.Outcomes.{OrMemory};
ghost use Rattle.log_judge.specs.Unended.{AreLeft};
ghost use Rattle.image_check.specs.Holding.{AreHeld, IsListed, clashes_by};
ghost use Rattle.image_form.specs.Verdict.{LosersCanBeUndone, LosersHoldOthersOff, logical_image_of};

use crate::unfinished::is_left;
use image_form::{Found, Place, Walk};
use indexmap::IndexMap;
use log_judge::{LeftTxns, txn_of};
use log_records::LogRecord;
use site::{Site, Stop};
use std::alloc::Global;

/// The number that an Update or a CLR is on.
pub fn number_of(rec: &LogRecord) -> Option<u64>
    ensures { result ≡ number_of rec.now }
{
    match rec {
        LogRecord::Update { page, slot, .. } => Some(32 * *page as u64 + *slot as u64),
        LogRecord::Clr { page, slot, .. } => Some(32 * *page as u64 + *slot as u64),
        _ => None,
    }
}

// The numbers that they have written, each with the transaction that did.
#[derive(Drop)]
struct HeldNumbers {
    held: IndexMap<u64, u64>,
}

impl HeldNumbers {
    // Whether a record is on a number that another unfinished transaction has written.
    fn clashes(&self, lsn: u64, rec: &LogRecord) -> bool
        ensures { result ≡ clashes_by (get nat_eq self.now.held) (number_of rec.now) (txn_by lsn rec.now) }
    {
        let Some(number) = number_of(rec) else {
            return false;
        };
        match self.held.get(&number) {
            Some(txn) => *txn != txn_of(lsn, rec),
            None => false,
        }
    }

    // Hears the next record of a log that leaves these transactions unfinished: an Update of one of them holds its
    // number.
    fn hear(&mut self, lsn: u64, rec: &LogRecord, left: &LeftTxns) -> Result<(), Stop>
        ensures { OrMemory result (λ done. (log : List Entry) (records : List Entry) → AreLeft log left.now.left
            → IsListed log (txn_by lsn rec.now) → AreHeld log records self.old.held
            → AreHeld log (records ++ record { lsn = lsn; rec = rec.now } ∷ []) self.new.held) }
    {
        let LogRecord::Update {
            txn,
            page,
            slot,
            ..
        } = rec
        else {
            return Ok(());
        };
        if !is_left(left, *txn) {
            return Ok(());
        }
        let Ok(_) = self.held.insert(32 * *page as u64 + *slot as u64, *txn) else {
            return Err(Stop::Memory);
        };
        Ok(())
    }
}

/// The fifth rule, of devices that meet the fourth one, by what is left unfinished: the block of the first record of
/// another transaction on a number that an unfinished one has written before, `None` exactly where there is none. It
/// reads each kept block once, and holds each number that the unfinished transactions have written, once.
pub fn rule_apart<S: Site>(
    alloc: Global,
    site: &mut S,
    found: &Found,
    left: &LeftTxns,
) -> Result<Option<Place>, Stop>
    requires { MayBeJudged found.now (S.state site.old) }

    ensures { JudgesBy found.now 1 0 result (S.state site.old) (S.state site.new) (λ blocks failing.
        LosersCanBeUndone (logical_image_of (reading_of found.now blocks) (S.state site.old).image)
        → AreLeft (records_of found.now blocks) left.now.left
        → (IsTrue (is_none failing)
        ↔ LosersHoldOthersOff (logical_image_of (reading_of found.now blocks) (S.state site.old).image))) }
{
    let mut walk = Walk::start(&found.log, found.master.kept);
    let mut held = HeldNumbers {
        held: IndexMap::new(alloc),
    };
    while let Some((lsn, rec)) = walk.next(site, &found.log)? {
        if held.clashes(lsn, &rec) {
            return Ok(Some(Place::Block(lsn / 512)));
        }
        if let Err(stop) = held.hear(lsn, &rec, left) {
            return Err(stop);
        }
    }
    Ok(None)
}
