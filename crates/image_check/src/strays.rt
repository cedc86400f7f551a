// Transactions that may be unfinished without their Begin, record by record.
ghost use Rattle.std.specs.Prelude.{◌≡◌, ◌==◌, ◌++◌, ◌∷◌, [], ℕ, nat_eq, is_some, true, false, if◌then◌else◌};
ghost use Rattle.std.specs.Prelude.{List, IfNone, IfSome};
ghost use Rattle.indexmap.specs.IndexMap.{get};
ghost use Rattle.log_records.specs.Log.{Entry, txn_by};
ghost use Rattle.log_records.specs.Unfinished.{losers};
ghost use Rattle.std.specs.List.{list_any};
ghost use Rattle.image_check.specs.Chaining.{AreStrays};
ghost use Rattle.log_judge.specs.Outcomes.{OrMemory};

use indexmap::IndexMap;
use log_judge::{closes, txn_of};
use log_records::LogRecord;
use site::Stop;

/// Transactions whose last record so far doesn't close them, but for those whose Begin is in the log and that no record
/// of it closes; each with the LSN of its first record behind one that closed it.
#[derive(Drop)]
pub struct Strays {
    pub txns: IndexMap<u64, u64>,
}

impl Strays {
    // A transaction is one of them.
    fn add(&mut self, txn: u64, lsn: u64) -> Result<(), Stop>
        ensures { OrMemory result (λ done. (t : ℕ) → is_some (get nat_eq self.new.txns t)
            ≡ (if txn == t then true else is_some (get nat_eq self.old.txns t))) }
    {
        let Ok(_) = self.txns.insert(txn, lsn) else {
            return Err(Stop::Memory);
        };
        Ok(())
    }

    /// It isn't any more.
    pub fn close(&mut self, txn: u64)
        ensures { (t : ℕ) → is_some (get nat_eq self.new.txns t)
            ≡ (if txn == t then false else is_some (get nat_eq self.old.txns t)) }
    {
        self.txns.swap_remove(&txn);
    }

    /// Hears the next record, of a transaction that isn't unfinished with its Begin in the log.
    pub fn hear(&mut self, lsn: u64, rec: &LogRecord) -> Result<(), Stop>
        ensures { OrMemory result (λ done. (log : List Entry) (records : List Entry)
            → list_any (λ t. t == txn_by lsn rec.now) (losers log) ≡ false
            → AreStrays log records self.old.txns
            → AreStrays log (records ++ record { lsn = lsn; rec = rec.now } ∷ []) self.new.txns) }
    {
        let txn = txn_of(lsn, rec);
        if closes(rec) {
            self.close(txn);
            return Ok(());
        }
        if self.txns.contains_key(&txn) {
            return Ok(());
        }
        self.add(txn, lsn)
    }

    /// The first of them, by those LSNs.
    pub fn first(&self) -> Option<u64>
        ensures one { IfSome result (λ t. is_some (get nat_eq self.now.txns t) ≡ true) }
        ensures none { IfNone result ((t : ℕ) → is_some (get nat_eq self.now.txns t) ≡ false) }
    {
        let (mut first, mut least) = match self.txns.first() {
            Some((txn, lsn)) => (*txn, *lsn),
            None => return None,
        };
        for place in 1..self.txns.len() {
            let Some((txn, lsn)) = self.txns.get_index(place) else {
                return Some(first);
            };
            if *lsn < least {
                first = *txn;
                least = *lsn;
            }
        }
        Some(first)
    }
}
