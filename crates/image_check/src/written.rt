// What a log has written to the records of the table, record by record.
ghost use Rattle.std.specs.Prelude.{◌≡◌, ◌==◌, ◌++◌, ◌∷◌, [], ℕ, nat_eq, List, Some, true, is_some};
ghost use Rattle.std.specs.Prelude.{if◌then◌else◌};
ghost use Rattle.std.specs.Option.{option_or};
ghost use Rattle.indexmap.specs.IndexMap.{get};
ghost use Rattle.indexmap.specs.IndexSet.{contains};
ghost use Rattle.log_records.specs.Log.{Entry, Version, slot_at, value_of};
ghost use Rattle.log_records.specs.Sound.{Pairwise, HoldsOff};
ghost use Rattle.log_judge.specs.Outcomes.{OrMemory};
ghost use Rattle.image_check.specs.Writing.{AreWritten, before_by};

use indexmap::{IndexMap, IndexSet};
use log_records::LogRecord;
use site::Stop;
use std::alloc::Global;

// What is kept of the last Update or CLR on a number.
#[derive(Clone, Copy, Debug, Drop)]
struct Written {
    txn: u64,
    // Whether it leaves a value.
    after: bool,
    // Whether one stood before the transaction's first Update on the number; `None` where it has none there.
    before: Option<bool>,
}

// The last record on each number, and the transactions that are closed.
#[derive(Drop)]
pub struct Writings {
    last: IndexMap<u64, Written>,
    closed: IndexSet<u64>,
}

impl Writings {
    /// Before the first record.
    pub fn new(alloc: Global) -> Writings
        ensures { (log : List Entry) → AreWritten log [] result }
    {
        Writings {
            last: IndexMap::new(alloc),
            closed: IndexSet::new(alloc),
        }
    }

    // Whether a value stood before a transaction's first Update on a number, where the last record there is its own.
    fn before(&self, number: u64, txn: u64) -> Option<bool>
        ensures { result ≡ before_by (get nat_eq self.now.last number) txn }
    {
        let written = self.last.get(&number)?;
        if written.txn != txn {
            return None;
        }
        written.before
    }

    // A transaction has a record on a number.
    fn write(
        &mut self,
        number: u64,
        txn: u64,
        before: Option<bool>,
        after: bool,
    ) -> Result<(), Stop>
        ensures { OrMemory result (λ done. ((n : ℕ) → get nat_eq self.new.last n ≡ (if number == n
            then Some (record {
              txn = txn;
              after = after;
              before = option_or (before_by (get nat_eq self.old.last number) txn) before;
            })
            else get nat_eq self.old.last n)) × (self.new.closed ≡ self.old.closed)) }
    {
        let written = Written {
            txn,
            after,
            before: self.before(number, txn).or(before),
        };
        let Ok(_) = self.last.insert(number, written) else {
            return Err(Stop::Memory);
        };
        Ok(())
    }

    // A transaction is closed.
    fn close(&mut self, txn: u64) -> Result<(), Stop>
        ensures { OrMemory result (λ done. ((t : ℕ) → contains nat_eq self.new.closed t
            ≡ (if txn == t then true else contains nat_eq self.old.closed t)) × (self.new.last ≡ self.old.last)) }
    {
        let Ok(_) = self.closed.insert(txn) else {
            return Err(Stop::Memory);
        };
        Ok(())
    }

    /// Hears the next record.
    pub fn hear(&mut self, rec: &LogRecord) -> Result<(), Stop>
        ensures { OrMemory result (λ done. (log : List Entry) (records : List Entry) (lsn : ℕ)
            → Pairwise (HoldsOff log) records → AreWritten log records self.old
            → AreWritten log (records ++ record { lsn = lsn; rec = rec.now } ∷ []) self.new) }
    {
        match rec {
            LogRecord::Begin => Ok(()),
            LogRecord::Update {
                txn,
                page,
                slot,
                before,
                after,
                ..
            } => {
                let number = 32 * *page as u64 + *slot as u64;
                self.write(number, *txn, Some(before.is_some()), after.is_some())
            }
            LogRecord::Clr {
                txn,
                page,
                slot,
                after,
                ..
            } => {
                let number = 32 * *page as u64 + *slot as u64;
                self.write(number, *txn, None, after.is_some())
            }
            LogRecord::Commit { txn, .. } => self.close(*txn),
            LogRecord::End { txn } => self.close(*txn),
        }
    }

    /// Whether a number has a value in the table, where its slot has one or hasn't.
    pub fn has_value(&self, number: u64, in_slot: bool) -> bool
        ensures { (log : List Entry) (pages : List Version) → AreWritten log log self.now
            → in_slot ≡ is_some (slot_at pages number) → result ≡ is_some (value_of log pages number) }
    {
        let Some(written) = self.last.get(&number) else {
            return in_slot;
        };
        if self.closed.contains(&written.txn) {
            return written.after;
        }
        written.before.unwrap_or(false)
    }
}
