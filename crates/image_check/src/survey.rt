// What one walk over the kept blocks finds.
ghost use Rattle.std.specs.Prelude.{◌≡◌, ◌↔◌, ◌^◌, ◌<◌, ◌++◌, ◌∷◌, [], ℕ, List, length, is_ok, IsTrue};
ghost use Rattle.std.specs.Prelude.{IfOk};
ghost use Rattle.log_records.specs.Log.{Entry};
ghost use Rattle.log_records.specs.Sound.{before_block};
ghost use Rattle.log_judge.specs.Counting.{NumbersAre};
ghost use Rattle.image_check.specs.Deciding.{IsSurveyOf};
ghost use Rattle.image_check.specs.Judging.{JudgesBy, MayBeJudged, reading_of};
ghost use Rattle.log_judge.specs.Outcomes.{OrMemory};
ghost use Rattle.image_check.specs.Surveying.{Surveys};
ghost use Rattle.log_judge.specs.Unended.{AreLeft, Comes};
ghost use Rattle.image_form.specs.Verdict.{RecordsFollowBegins, logical_image_of};

use image_form::{Found, Place, Walk};
use log_judge::{LeftTxns, Numbers, OpenTxns};
use log_records::LogRecord;
use site::{Site, Stop};
use std::alloc::Global;

/// What the records of a log leave: the unfinished transactions, those that were before the redo block, and the numbers
/// of the commits, `None` where these don't run on.
#[derive(Drop)]
pub struct Survey {
    pub left: LeftTxns,
    pub early: LeftTxns,
    pub numbers: Option<Numbers>,
}

// The numbers of the commits with one record more.
fn numbers_after(numbers: Option<Numbers>, lsn: u64, rec: &LogRecord, redo: u64) -> Option<Numbers>
    ensures { (records : List Entry) → length records < 2 ^ 62 → NumbersAre redo records numbers
        → NumbersAre redo (records ++ record { lsn = lsn; rec = rec.now } ∷ []) result }
{
    match numbers {
        Some(numbers) => numbers.after(lsn, rec, redo),
        None => None,
    }
}

impl Survey {
    // Before the first record.
    fn start(alloc: Global) -> Survey
        ensures { (redo : ℕ) → Surveys redo [] result }
    {
        Survey {
            left: LeftTxns::none(alloc),
            early: LeftTxns::none(alloc),
            numbers: Some(Numbers::NONE),
        }
    }

    // Hears a record of those before the redo block.
    fn hear_early(&mut self, lsn: u64, rec: &LogRecord, redo: u64) -> Result<(), Stop>
        ensures early { OrMemory result (λ done. (records : List Entry) → Comes records lsn
            → AreLeft (before_block redo records) self.old.early.left
            → AreLeft (before_block redo (records ++ record { lsn = lsn; rec = rec.now } ∷ []))
            self.new.early.left) }
        ensures left { self.new.left ≡ self.old.left }
        ensures numbers { self.new.numbers ≡ self.old.numbers }
    {
        if lsn / 512 >= redo {
            return Ok(());
        }
        self.early.hear(lsn, rec)
    }

    // Hears the next record.
    fn hear(&mut self, lsn: u64, rec: &LogRecord, redo: u64) -> Result<(), Stop>
        ensures { OrMemory result (λ done. (records : List Entry) → Comes records lsn
            → Surveys redo records self.old
            → Surveys redo (records ++ record { lsn = lsn; rec = rec.now } ∷ []) self.new) }
    {
        self.left.hear(lsn, rec)?;
        self.hear_early(lsn, rec, redo)?;
        self.numbers = numbers_after(self.numbers, lsn, rec, redo);
        Ok(())
    }
}

/// The third rule: what the records of the kept blocks leave, where from the redo block on each record but a Begin is
/// of an open transaction, and no record stands before the Begin that it names; or the block of the first one of which
/// that isn't so. It reads each kept block once, and holds the open and the unfinished transactions.
pub fn rule_transactions<S: Site>(
    alloc: Global,
    site: &mut S,
    found: &Found,
) -> Result<Result<Survey, Place>, Stop>
    requires { MayBeJudged found.now (S.state site.old) }

    ensures { JudgesBy found.now 1 0 result (S.state site.old) (S.state site.new) (λ blocks answer.
        (IsTrue (is_ok answer)
        ↔ RecordsFollowBegins (logical_image_of (reading_of found.now blocks) (S.state site.old).image))
        × IfOk answer (λ survey. IsSurveyOf found.now blocks survey)) }
{
    let redo = found.master.redo;
    let mut walk = Walk::start(&found.log, found.master.kept);
    let mut transactions = OpenTxns::start(alloc, &found.master)?;
    let mut survey = Survey::start(alloc);
    while let Some((lsn, rec)) = walk.next(site, &found.log)? {
        if !transactions.admits(lsn, &rec, redo) {
            return Ok(Err(Place::Block(lsn / 512)));
        }
        if let Err(stop) = transactions.hear(lsn, &rec, redo) {
            return Err(stop);
        }
        if let Err(stop) = survey.hear(lsn, &rec, redo) {
            return Err(stop);
        }
    }
    Ok(Ok(survey))
}
