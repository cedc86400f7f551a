// One unfinished transaction, record by record.
ghost use Rattle.std.specs.Prelude.{◌≡◌, ◌↔◌, ◌++◌, ◌∷◌, [], ℕ, List, true, drop, IsTrue};
ghost use Rattle.log_records.specs.Log.{Entry, entries_of, is_update};
ghost use Rattle.log_records.specs.Unfinished.{is_clr, open_updates};
ghost use Rattle.log_records.specs.Sound.{Compensates, Undoes, Continues};
ghost use Rattle.image_check.specs.Chaining.{IsKept, HearsOwn, begin_at};
ghost use Rattle.log_judge.specs.Outcomes.{OrMemory};

use crate::contents::Contents;
use log_judge::txn_of;
use log_records::LogRecord;
use site::Stop;

// Whether a CLR compensates an Update.
fn compensates(clr: &LogRecord, update: &LogRecord) -> bool
    ensures { IsTrue result ↔ Compensates clr.now update.now }
{
    let LogRecord::Clr {
        undo_next,
        page,
        slot,
        after,
        ..
    } = clr
    else {
        return false;
    };
    let LogRecord::Update {
        prev,
        page: of_page,
        slot: of_slot,
        before,
        ..
    } = update
    else {
        return false;
    };
    if page != of_page {
        return false;
    }
    if slot != of_slot {
        return false;
    }
    if undo_next != prev {
        return false;
    }
    after == before
}

// Whether a record is an Update.
fn updates(rec: &LogRecord) -> bool
    ensures { result ≡ is_update rec.now }
{
    match rec {
        LogRecord::Update { .. } => true,
        _ => false,
    }
}

/// What is kept of a transaction behind its Begin: the LSN of its last record, its Updates that no CLR compensates, the
/// last one last, and what it has written last on each number.
#[derive(Drop)]
pub struct Chain {
    pub last: u64,
    pub updates: Vec<LogRecord>,
    pub written: Contents,
}

impl Chain {
    // Whether a record compensates the last Update that is left.
    fn undoes(&self, rec: &LogRecord) -> bool
        ensures { (t : ℕ) (rest : List Entry) → IsKept t self.now rest → is_clr rec.now ≡ true
            → IsTrue result ↔ Undoes (open_updates [] rest) rec.now }
    {
        let Some(update) = self.updates.last() else {
            return false;
        };
        compensates(rec, update)
    }

    /// Whether a record may come next.
    pub fn continues(&self, rec: &LogRecord) -> bool
        ensures { (t : ℕ) (rest : List Entry) (lsn : ℕ) → IsKept t self.now rest
            → IsTrue result ↔ Continues (begin_at t ∷ rest) (record { lsn = lsn; rec = rec.now }) }
    {
        match rec {
            LogRecord::Update {
                prev,
                page,
                slot,
                before,
                ..
            } => {
                if *prev != self.last {
                    return false;
                }
                self.written
                    .admits(32 * *page as u64 + *slot as u64, before)
            }
            LogRecord::Clr { prev, .. } => {
                if *prev != self.last {
                    return false;
                }
                self.undoes(rec)
            }
            _ => false,
        }
    }

    /// Takes a record that may come next.
    pub fn add(&mut self, lsn: u64, rec: LogRecord) -> Result<(), Stop>
        ensures { OrMemory result (λ done. (t : ℕ) (rest : List Entry) → IsKept t self.old rest
            → Continues (begin_at t ∷ rest) (record { lsn = lsn; rec = rec })
            → IsKept t self.new (rest ++ record { lsn = lsn; rec = rec } ∷ [])) }
    {
        self.last = lsn;
        if let Err(stop) = self.written.hear(&rec) {
            return Err(stop);
        }
        if !updates(&rec) {
            self.updates.pop();
            return Ok(());
        }
        let Ok(()) = self.updates.push(rec) else {
            return Err(Stop::Memory);
        };
        Ok(())
    }

    /// Hears the next record of a log, and answers whether it continues the transaction, if it is one behind its Begin.
    pub fn hear(&mut self, txn: u64, lsn: u64, rec: LogRecord) -> Result<bool, Stop>
        ensures { OrMemory result (λ goes_on. (records : List Entry)
            → IsKept txn self.old (drop 1 (entries_of txn records))
            → HearsOwn txn self.new records (record { lsn = lsn; rec = rec }) goes_on) }
    {
        if txn_of(lsn, &rec) != txn {
            return Ok(true);
        }
        if lsn == txn {
            return Ok(true);
        }
        if !self.continues(&rec) {
            return Ok(false);
        }
        if let Err(stop) = self.add(lsn, rec) {
            return Err(stop);
        }
        Ok(true)
    }
}
