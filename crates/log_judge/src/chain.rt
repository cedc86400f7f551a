// One unfinished transaction, record by record.
ghost use Rattle.std.specs.Prelude.{◌≡◌, ◌↔◌, ◌++◌, ◌∷◌, [], ℕ, List, true, false, IsTrue, Some, None};
ghost use Rattle.log_records.specs.declared.log_record.LogRecord.{LogRecord};
ghost use Rattle.log_records.specs.Log.{Entry, is_update};
ghost use Rattle.log_records.specs.Unfinished.{is_clr, open_updates};
ghost use Rattle.log_records.specs.Sound.{Compensates, Undoes};
ghost use Rattle.log_judge.specs.Chaining.{IsKept, begin_at, begun_at, kept_by, pending_of};
ghost use Rattle.log_judge.specs.Outcomes.{OrMemory};
ghost use Rattle.log_judge.specs.Rules.{Links};

use log_records::LogRecord;
use record_model::Octets;
use site::Stop;
use std::alloc::Global;

/// An Update that no CLR compensates: where it stands in the table, what stood there before, and the transaction's
/// record before it.
#[derive(Drop)]
pub struct Pending {
    pub prev: u64,
    pub page: u32,
    pub slot: u8,
    pub before: Option<Octets>,
}

// A copy of what a number has.
fn copy_of(content: &Option<Octets>) -> Option<Octets>
    ensures { result ≡ content.now }
{
    match content {
        Some(octets) => Octets::from_slice(octets.as_slice()),
        None => None,
    }
}

impl Pending {
    // What a CLR of this Update has to say.
    fn of(rec: &LogRecord) -> Option<Pending>
        ensures some { is_update rec.now ≡ true → result ≡ Some (pending_of rec.now) }
        ensures none { is_update rec.now ≡ false → result ≡ None }
    {
        let LogRecord::Update {
            prev,
            page,
            slot,
            before,
            ..
        } = rec
        else {
            return None;
        };
        Some(Pending {
            prev: *prev,
            page: *page,
            slot: *slot,
            before: copy_of(before),
        })
    }

    // Whether a CLR compensates it.
    fn is_compensated_by(&self, clr: &LogRecord) -> bool
        ensures { (rec : LogRecord) → is_update rec ≡ true → self.now ≡ pending_of rec
            → IsTrue result ↔ Compensates clr.now rec }
    {
        let LogRecord::Clr {
            undo_next,
            page,
            slot,
            after,
            ..
        } = clr
        else {
            return false;
        };
        if *page != self.page {
            return false;
        }
        if *slot != self.slot {
            return false;
        }
        if *undo_next != self.prev {
            return false;
        }
        *after == self.before
    }
}

/// What is kept of a transaction: the LSN of its last record, and its Updates that no CLR compensates, the last one
/// last.
#[derive(Drop)]
pub struct Chain {
    pub last: u64,
    pub updates: Vec<Pending>,
}

impl Chain {
    /// Behind its Begin.
    pub fn begun(alloc: Global, txn: u64) -> Chain
        ensures { kept_by result ≡ begun_at txn }
    {
        Chain {
            last: txn,
            updates: Vec::new(alloc),
        }
    }

    // Whether a record compensates the last Update that is left.
    fn undoes(&self, rec: &LogRecord) -> bool
        ensures { (t : ℕ) (rest : List Entry) → IsKept t (kept_by self.now) rest → is_clr rec.now ≡ true
            → IsTrue result ↔ Undoes (open_updates [] rest) rec.now }
    {
        let Some(update) = self.updates.last() else {
            return false;
        };
        update.is_compensated_by(rec)
    }

    /// Whether a record may come next.
    pub fn continues(&self, rec: &LogRecord) -> bool
        ensures { (t : ℕ) (rest : List Entry) (lsn : ℕ) → IsKept t (kept_by self.now) rest
            → IsTrue result ↔ Links (begin_at t ∷ rest) (record { lsn = lsn; rec = rec.now }) }
    {
        match rec {
            LogRecord::Update { prev, .. } => *prev == self.last,
            LogRecord::Clr { prev, .. } => {
                if *prev != self.last {
                    return false;
                }
                self.undoes(rec)
            }
            _ => false,
        }
    }

    /// Takes a record that may come next.
    pub fn add(&mut self, lsn: u64, rec: &LogRecord) -> Result<(), Stop>
        ensures { OrMemory result (λ done. (t : ℕ) (rest : List Entry) → IsKept t (kept_by self.old) rest
            → Links (begin_at t ∷ rest) (record { lsn = lsn; rec = rec.now })
            → IsKept t (kept_by self.new) (rest ++ record { lsn = lsn; rec = rec.now } ∷ [])) }
    {
        self.last = lsn;
        let Some(update) = Pending::of(rec) else {
            self.updates.pop();
            return Ok(());
        };
        let Ok(()) = self.updates.push(update) else {
            return Err(Stop::Memory);
        };
        Ok(())
    }
}
