// Whether unfinished transactions can be undone.
ghost use Rattle.std.specs.Prelude.{◌≡◌, ◌↔◌, ◌++◌, ◌∷◌, [], ℕ, nat_eq, true, List, is_none, is_some, IsTrue};
ghost use Rattle.indexmap.specs.IndexMap.{get};
ghost use Rattle.log_records.specs.Log.{Entry, is_closed};
ghost use Rattle.log_records.specs.Sound.{HaveBegunBefore};
ghost use Rattle.log_judge.specs.Unended.{AreLeft};
ghost use Rattle.image_check.specs.Chaining.{IsUndoing, StandsIn};
ghost use Rattle.image_check.specs.Judging.{JudgesBy, MayBeJudged, reading_of, records_of};
ghost use Rattle.log_judge.specs.Outcomes.{OrMemory};
ghost use Rattle.image_form.specs.Verdict.{RecordsFollowBegins, LosersCanBeUndone, logical_image_of};

use crate::chains::Chains;
use crate::strays::Strays;
use crate::unfinished::is_left;
use image_form::{Found, Place, Walk};
use indexmap::IndexMap;
use log_judge::{LeftTxns, closes, txn_of};
use log_records::LogRecord;
use site::{Site, Stop};
use std::alloc::Global;

// What one walk over the kept blocks finds of the transactions that they may leave unfinished: those with their Begin
// there, and the others.
#[derive(Drop)]
struct Undoing {
    chains: Chains,
    strays: Strays,
}

impl Undoing {
    // Before the first record.
    fn none(alloc: Global) -> Undoing
        ensures { (log : List Entry) → IsUndoing log [] result }
    {
        Undoing {
            chains: Chains::none(alloc),
            strays: Strays {
                txns: IndexMap::new(alloc),
            },
        }
    }

    // Hears the next record of a log that leaves these transactions unfinished.
    fn hear(&mut self, lsn: u64, rec: LogRecord, left: &LeftTxns) -> Result<(), Stop>
        ensures { OrMemory result (λ done. (log : List Entry) (records : List Entry)
            → StandsIn log records (record { lsn = lsn; rec = rec }) → AreLeft log left.now.left
            → IsUndoing log records self.old
            → IsUndoing log (records ++ record { lsn = lsn; rec = rec } ∷ []) self.new) }
    {
        if is_left(left, txn_of(lsn, &rec)) {
            return self.chains.hear(lsn, rec);
        }
        self.strays.hear(lsn, &rec)
    }

    // What the records of the kept blocks leave of these.
    fn of_log<S: Site>(
        alloc: Global,
        site: &mut S,
        found: &Found,
        left: &LeftTxns,
    ) -> Result<Undoing, Stop>
        requires { MayBeJudged found.now (S.state site.old) }

        ensures { JudgesBy found.now 1 0 result (S.state site.old) (S.state site.new) (λ blocks undoing.
            HaveBegunBefore (records_of found.now blocks) → AreLeft (records_of found.now blocks) left.now.left
            → IsUndoing (records_of found.now blocks) (records_of found.now blocks) undoing) }
    {
        let mut walk = Walk::start(&found.log, found.master.kept);
        let mut undoing = Undoing::none(alloc);
        while let Some((lsn, rec)) = walk.next(site, &found.log)? {
            if let Err(stop) = undoing.hear(lsn, rec, left) {
                return Err(stop);
            }
        }
        Ok(undoing)
    }
}

// The first of some transactions that no record closes, `None` exactly where there is none.
fn find_open<S: Site>(
    site: &mut S,
    found: &Found,
    mut strays: Strays,
) -> Result<Option<Place>, Stop>
    requires { MayBeJudged found.now (S.state site.old) }

    ensures { JudgesBy found.now 1 0 result (S.state site.old) (S.state site.new) (λ blocks failing.
        IsTrue (is_none failing) ↔ ((t : ℕ) → is_some (get nat_eq strays.txns t) ≡ true
        → is_closed (records_of found.now blocks) t ≡ true)) }
{
    if strays.txns.is_empty() {
        return Ok(None);
    }
    let mut walk = Walk::start(&found.log, found.master.kept);
    while let Some((lsn, rec)) = walk.next(site, &found.log)? {
        if closes(&rec) {
            strays.close(txn_of(lsn, &rec));
        }
    }
    match strays.first() {
        Some(txn) => Ok(Some(Place::Transaction(txn))),
        None => Ok(None),
    }
}

/// The fourth rule, of devices that meet the third one, by what is left unfinished: the first unfinished transaction
/// that hasn't its Begin, then Updates and CLRs, each CLR of the last Update that is left, each Update from what the
/// transaction has written there last; `None` exactly where there is none. It reads each kept block once, and once more
/// where the last record of a transaction doesn't close it and its Begin isn't there; it holds the transactions that
/// are open, and of the unfinished ones what remains of their Updates and what they have written last on each number.
pub fn rule_undoable<S: Site>(
    alloc: Global,
    site: &mut S,
    found: &Found,
    left: &LeftTxns,
) -> Result<Option<Place>, Stop>
    requires { MayBeJudged found.now (S.state site.old) }

    ensures { JudgesBy found.now 2 0 result (S.state site.old) (S.state site.new) (λ blocks failing.
        RecordsFollowBegins (logical_image_of (reading_of found.now blocks) (S.state site.old).image)
        → AreLeft (records_of found.now blocks) left.now.left
        → (IsTrue (is_none failing)
        ↔ LosersCanBeUndone (logical_image_of (reading_of found.now blocks) (S.state site.old).image))) }
{
    let undoing = match Undoing::of_log(alloc, site, found, left) {
        Ok(undoing) => undoing,
        Err(stop) => return Err(stop),
    };
    if let Some(txn) = undoing.chains.broken {
        return Ok(Some(Place::Transaction(txn)));
    }
    match find_open(site, found, undoing.strays) {
        Ok(failing) => Ok(failing),
        Err(stop) => Err(stop),
    }
}
