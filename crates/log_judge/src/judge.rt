// The rules that records are judged by, all together.
ghost use Rattle.std.specs.Prelude.{◌≡◌, ◌⊎◌, ◌↔◌, ◌+◌, ◌*◌, ◌^◌, ◌<◌, ◌≤◌, ◌++◌, ◌∷◌, [], ℕ, List};
ghost use Rattle.std.specs.Prelude.{length, false, IsTrue};
ghost use Rattle.std.specs.Prelude.{IfOk, OnOk, IfErr, IsErrOf, IfSome, IfNone};
ghost use Rattle.site.specs.declared.outside.Stop.{Stop};
ghost use Rattle.log_records.specs.Spelling.{HasForm};
ghost use Rattle.log_records.specs.Log.{Entry, Version};
ghost use Rattle.log_records.specs.Sound.{LogicalImage, IsInOrder, IsInTable, active_in, before_block};
ghost use Rattle.checkpoint.specs.Newest.{seen};
ghost use Rattle.log_judge.specs.Counting.{Heard};
ghost use Rattle.log_judge.specs.Judging.{HasHeard, IsOfSizes, MayBeKept};
ghost use Rattle.log_judge.specs.Opening.{MayStand};
ghost use Rattle.log_judge.specs.Outcomes.{OrMemory};
ghost use Rattle.log_judge.specs.Unended.{AreLeft, Comes};
ghost use Rattle.log_judge.specs.Rules.{IsJudged};

use crate::chains::Chains;
use crate::commits::Numbers;
use crate::txns::OpenTxns;
use crate::unfinished::LeftTxns;
use checkpoint::Master;
use log_records::LogRecord;
use site::Stop;
use std::alloc::Global;

/// How large a log and its table are: the pages of the disk, the blocks that the log has room for, and one past its
/// last sealed block.
#[derive(Clone, Copy, Debug, PartialEq, Eq, Drop)]
pub struct Sizes {
    pub pages: u32,
    pub blocks: u32,
    pub hi: u64,
}

/// What is known of the records of a log that were heard, from its oldest kept block on.
#[derive(Drop)]
pub struct Judge {
    sizes: Sizes,
    txns: OpenTxns,
    early: LeftTxns,
    numbers: Numbers,
    chains: Chains,
    // a record from the redo block on was heard
    reached: bool,
}

// Whether an Update or a CLR is on a page of the disk.
fn is_on_disk(rec: &LogRecord, pages: u32) -> bool
    requires form { HasForm rec.now }
    ensures { (of : List Version) (lsn : ℕ) → length of ≡ pages
        → IsTrue result ↔ IsInTable of (record { lsn = lsn; rec = rec.now }) }
{
    match rec {
        LogRecord::Update { page, .. } => *page < pages,
        LogRecord::Clr { page, .. } => *page < pages,
        _ => true,
    }
}

impl Sizes {
    // Whether the blocks that a master keeps can all be live, and redo begins among them or behind them.
    fn admit(&self, master: &Master) -> bool
        ensures { (p : LogicalImage) → p.master ≡ seen master.now → IsOfSizes p self.now
            → IsTrue result ↔ MayBeKept p }
    {
        if master.kept > master.redo {
            return false;
        }
        if master.redo > self.hi {
            return false;
        }
        self.hi - master.kept <= (self.blocks as u64).saturating_sub(1)
    }
}

impl Judge {
    /// Before the first record. It is Foreign exactly where the blocks that the master keeps can't all be live, or redo
    /// doesn't begin among them or behind them.
    pub fn start(alloc: Global, master: &Master, sizes: Sizes) -> Result<Judge, Stop>
        requires few { sizes.hi ≤ 2 ^ 40 }
        ensures sizes { IfOk result (λ judge. judge.sizes ≡ sizes) }
        ensures heard { (p : LogicalImage) → p.master ≡ seen master.now → IsOfSizes p sizes
            → IfOk result (λ judge. HasHeard p [] judge) }
        ensures foreign { (p : LogicalImage) → p.master ≡ seen master.now → IsOfSizes p sizes
            → IsErrOf result Stop.Foreign → IsJudged p → ⊥ }
        ensures stops { IfErr result (λ stop. (stop ≡ Stop.Memory) ⊎ (stop ≡ Stop.Foreign)) }
    {
        if !sizes.admit(master) {
            return Err(Stop::Foreign);
        }
        let txns = match OpenTxns::start(alloc, master) {
            Ok(txns) => txns,
            Err(stop) => return Err(stop),
        };
        Ok(Judge {
            sizes,
            txns,
            early: LeftTxns::none(alloc),
            numbers: Numbers::NONE,
            chains: Chains::none(alloc),
            reached: false,
        })
    }

    // Whether the master names the transactions that were active before the redo block, where this record is the first
    // from there on.
    fn reaches(&self, master: &Master, lsn: u64) -> bool
        ensures named { (p : LogicalImage) (records : List Entry) → p.master ≡ seen master.now
            → HasHeard p records self.now
            → 512 * p.master.redo ≤ lsn → result ≡ false
            → (p.master.active ≡ active_in (before_block p.master.redo records) → ⊥) }
        ensures early { (p : LogicalImage) → p.master ≡ seen master.now → lsn < 512 * p.master.redo
            → IsTrue result }
    {
        if self.reached {
            return true;
        }
        if lsn / 512 < master.redo {
            return true;
        }
        self.early.are_named(master)
    }

    // The numbers of the commits with the next record, `None` exactly where it may not stand there.
    fn numbers_after(&self, master: &Master, lsn: u64, rec: &LogRecord) -> Option<Numbers>
        requires form { HasForm rec.now }
        ensures stands { (p : LogicalImage) (records : List Entry) → p.master ≡ seen master.now
            → HasHeard p records self.now → length records < 2 ^ 62
            → IfSome result (λ numbers. IsInTable p.pages (record { lsn = lsn; rec = rec.now })
            × MayStand p.master records (record { lsn = lsn; rec = rec.now })
            × Heard p.master.redo numbers (records ++ record { lsn = lsn; rec = rec.now } ∷ [])) }
        ensures broken { (p : LogicalImage) (records rest : List Entry) (from to : ℕ) → p.master ≡ seen master.now
            → HasHeard p records self.now → length records < 2 ^ 62
            → p.log ≡ records ++ record { lsn = lsn; rec = rec.now } ∷ rest → IsInOrder from p.log to
            → IfNone result (IsJudged p → ⊥) }
    {
        if !is_on_disk(rec, self.sizes.pages) {
            return None;
        }
        if !self.txns.admits(lsn, rec, master.redo) {
            return None;
        }
        if !self.reaches(master, lsn) {
            return None;
        }
        self.numbers.after(lsn, rec, master.redo)
    }

    // Hears a record of those before the redo block.
    fn hear_early(&mut self, lsn: u64, rec: &LogRecord, redo: u64) -> Result<(), Stop>
        ensures early { OrMemory result (λ done. (records : List Entry) → Comes records lsn
            → AreLeft (before_block redo records) self.old.early.left
            → AreLeft (before_block redo (records ++ record { lsn = lsn; rec = rec.now } ∷ []))
            self.new.early.left) }
        ensures rest { self.new ≡ record self.old { early = self.new.early } }
    {
        if lsn / 512 >= redo {
            return Ok(());
        }
        self.early.hear(lsn, rec)
    }

    /// Hears the next record, of a log whose records stand in order. It is Foreign exactly where this log can't keep
    /// the rules, whatever stands behind the record. After an error the judge is ended.
    pub fn hear(&mut self, master: &Master, lsn: u64, rec: &LogRecord) -> Result<(), Stop>
        requires form { HasForm rec.now }
        ensures sizes { self.new.sizes ≡ self.old.sizes }
        ensures heard { (p : LogicalImage) (records : List Entry) (from : ℕ) → p.master ≡ seen master.now
            → HasHeard p records self.old → IsInOrder from records lsn → length records < 2 ^ 62
            → OnOk result (HasHeard p (records ++ record { lsn = lsn; rec = rec.now } ∷ []) self.new) }
        ensures foreign { (p : LogicalImage) (records rest : List Entry) (from to : ℕ) → p.master ≡ seen master.now
            → HasHeard p records self.old → length records < 2 ^ 62
            → p.log ≡ records ++ record { lsn = lsn; rec = rec.now } ∷ rest → IsInOrder from p.log to
            → IsErrOf result Stop.Foreign → IsJudged p → ⊥ }
        ensures stops { IfErr result (λ stop. (stop ≡ Stop.Memory) ⊎ (stop ≡ Stop.Foreign)) }
    {
        let Some(numbers) = self.numbers_after(master, lsn, rec) else {
            return Err(Stop::Foreign);
        };
        if let Err(stop) = self.txns.hear(lsn, rec, master.redo) {
            return Err(stop);
        }
        if let Err(stop) = self.hear_early(lsn, rec, master.redo) {
            return Err(stop);
        }
        if let Err(stop) = self.chains.hear(lsn, rec) {
            return Err(stop);
        }
        self.numbers = numbers;
        self.reached = lsn / 512 >= master.redo;
        Ok(())
    }

    /// Whether the log keeps the rules, once all of its records were heard.
    pub fn is_sound(&self, master: &Master) -> bool
        requires few { self.now.sizes.hi ≤ 2 ^ 40 }
        ensures { (p : LogicalImage) → p.master ≡ seen master.now → HasHeard p p.log self.now → length p.log < 2 ^ 62
            → IsTrue result ↔ IsJudged p }
    {
        if !self.early.are_named(master) {
            return false;
        }
        if !self.numbers.fit(master.commits, self.sizes.hi) {
            return false;
        }
        self.chains.are_linked()
    }
}
