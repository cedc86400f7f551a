// The open transactions, and which of them has written a record.
ghost use Rattle.std.specs.Prelude.{◌≡◌, ◌==◌, ◌<◌, ◌∷◌, [], ℕ, nat_eq, List, Some, None, OnOk, if◌then◌else◌};
ghost use Rattle.std.specs.List.{list_any};
ghost use Rattle.indexmap.specs.IndexMap.{get};
ghost use Rattle.log_archive.specs.Accepted.{Unclosed};
ghost use Rattle.log_replay.specs.Opened.{AreOpen, begun, is_others};

use crate::net::Net;
use crate::transaction::Transaction;
use indexmap::IndexMap;
use std::alloc::{AllocError, Global};

/// The open transactions, by the LSNs of their Begins, and which of them has written each record.
#[derive(Drop)]
pub struct Transactions {
    pub active: IndexMap<u64, Transaction>,
    pub writers: IndexMap<u32, u64>,
}

impl Transactions {
    /// None.
    pub fn none(alloc: Global) -> Transactions
        ensures { (lsn : ℕ) → AreOpen lsn [] result }
    {
        Transactions {
            active: IndexMap::new(alloc),
            writers: IndexMap::new(alloc),
        }
    }

    /// One begins.
    pub fn begin(&mut self, alloc: Global, lsn: u64) -> Result<(), AllocError>
        ensures active { OnOk result ((txn : ℕ) → get nat_eq self.new.active txn
            ≡ (if lsn == txn then Some (begun lsn) else get nat_eq self.old.active txn)) }
        ensures writers { self.new.writers ≡ self.old.writers }
    {
        self.active.insert(lsn, Transaction::begun(alloc, lsn))?;
        Ok(())
    }

    /// Takes one out.
    pub fn take(&mut self, txn: u64) -> Option<Transaction>
        ensures taken { result ≡ get nat_eq self.old.active txn }
        ensures others { (t : ℕ) → get nat_eq self.new.active t
            ≡ (if txn == t then None else get nat_eq self.old.active t) }
        ensures writers { self.new.writers ≡ self.old.writers }
    {
        self.active.swap_remove(&txn)
    }

    /// Whether another one than this has written a record.
    pub fn is_taken(&self, txn: u64, number: u32) -> bool
        ensures { result ≡ is_others txn (get nat_eq self.now.writers number) }
    {
        match self.writers.get(&number) {
            Some(writer) => *writer != txn,
            None => false,
        }
    }

    /// Puts one back, which has written a record.
    pub fn put(&mut self, transaction: Transaction, number: u32) -> Result<(), AllocError>
        ensures active { OnOk result ((t : ℕ) → get nat_eq self.new.active t
            ≡ (if transaction.begin == t then Some transaction else get nat_eq self.old.active t)) }
        ensures writers { OnOk result ((n : ℕ) → get nat_eq self.new.writers n
            ≡ (if number == n then Some transaction.begin else get nat_eq self.old.writers n)) }
    {
        let begin = transaction.begin();
        self.active.insert(begin, transaction)?;
        self.writers.insert(number, begin)?;
        Ok(())
    }

    /// Nobody has written the records of a net any longer.
    pub fn release(&mut self, net: &Net)
        ensures active { self.new.active ≡ self.old.active }
        ensures writers { (n : ℕ) → get nat_eq self.new.writers n
            ≡ (if list_any (λ write. write.0 == n) net.now then None else get nat_eq self.old.writers n) }
    {
        for place in 0..net.len() {
            self.writers.swap_remove(&net.number(place));
        }
    }
}
