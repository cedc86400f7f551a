// All unfinished transactions, record by record.
ghost use Rattle.std.specs.Prelude.{◌≡◌, ◌==◌, ◌++◌, ◌∷◌, [], ◌↔◌, ℕ, nat_eq, true, false, if◌then◌else◌, Some, None};
ghost use Rattle.std.specs.Prelude.{List, IsTrue, option_map};
ghost use Rattle.indexmap.specs.IndexSet.{contains};
ghost use Rattle.lsn_set.specs.Held.{has};
ghost use Rattle.log_records.specs.declared.log_record.LogRecord.TheVariants.{Begin};
ghost use Rattle.log_records.specs.Log.{Entry, txn_by, is_closing};
ghost use Rattle.log_records.specs.Unfinished.{is_begin};
ghost use Rattle.log_laws.specs.Follow.{IsFresh};
ghost use Rattle.log_judge.specs.Chaining.{AreChains, begun_at, kept_by, kept_of};
ghost use Rattle.log_judge.specs.Outcomes.{OrMemory};
ghost use Rattle.log_judge.specs.Rules.{LosersAreLinked};

use crate::chain::Chain;
use crate::txns::{begins, closes, txn_of};
use indexmap::{IndexMap, IndexSet};
use log_records::LogRecord;
use lsn_set::LsnSet;
use site::Stop;
use std::alloc::Global;

/// What is kept of each unfinished transaction whose Begin was heard: those of which nothing stands behind it, and the
/// chains of the others; and those that their records can't undo.
#[derive(Drop)]
pub struct Chains {
    pub alloc: Global,
    pub begun: LsnSet,
    pub chains: IndexMap<u64, Chain>,
    pub broken: IndexSet<u64>,
}

impl Chains {
    /// Before the first record.
    pub fn none(alloc: Global) -> Chains
        ensures { AreChains [] result }
    {
        Chains {
            alloc,
            begun: LsnSet::new(alloc),
            chains: IndexMap::new(alloc),
            broken: IndexSet::new(alloc),
        }
    }

    // What is kept of a transaction behind which nothing stands.
    fn put_begun(&mut self, txn: u64) -> Result<(), Stop>
        ensures { OrMemory result (λ done. ((t : ℕ) → kept_of self.new t
            ≡ (if txn == t then Some (begun_at txn) else kept_of self.old t))
            × (self.new.broken ≡ self.old.broken)) }
    {
        let Ok(()) = self.begun.insert(txn) else {
            return Err(Stop::Memory);
        };
        Ok(())
    }

    // What is kept of a transaction of which nothing was kept.
    fn put(&mut self, txn: u64, chain: Chain) -> Result<(), Stop>
        requires { has self.old.begun txn ≡ false }
        ensures { OrMemory result (λ done. ((t : ℕ) → kept_of self.new t
            ≡ (if txn == t then Some (kept_by chain) else kept_of self.old t))
            × (self.new.broken ≡ self.old.broken)) }
    {
        let Ok(_) = self.chains.insert(txn, chain) else {
            return Err(Stop::Memory);
        };
        Ok(())
    }

    // Takes out what is kept of a transaction.
    fn take(&mut self, txn: u64) -> Option<Chain>
        ensures taken { option_map kept_by result ≡ kept_of self.old txn }
        ensures others { (t : ℕ) → kept_of self.new t ≡ (if txn == t then None else kept_of self.old t) }
        ensures broken { self.new.broken ≡ self.old.broken }
        ensures begun { has self.new.begun txn ≡ false }
    {
        let chain = self.chains.swap_remove(&txn);
        if !self.begun.contains(txn) {
            return chain;
        }
        self.begun.remove(txn);
        Some(Chain::begun(self.alloc, txn))
    }

    // Nothing is kept of a transaction.
    fn close(&mut self, txn: u64)
        ensures chains { (t : ℕ) → kept_of self.new t ≡ (if txn == t then None else kept_of self.old t) }
        ensures broken { (t : ℕ) → contains nat_eq self.new.broken t
            ≡ (if txn == t then false else contains nat_eq self.old.broken t) }
    {
        self.begun.remove(txn);
        self.chains.swap_remove(&txn);
        self.broken.swap_remove(&txn);
    }

    // Its records can't undo a transaction.
    fn breaks(&mut self, txn: u64) -> Result<(), Stop>
        ensures { OrMemory result (λ done. ((t : ℕ) → contains nat_eq self.new.broken t
            ≡ (if txn == t then true else contains nat_eq self.old.broken t))
            × ((t : ℕ) → kept_of self.new t ≡ kept_of self.old t)) }
    {
        let Ok(_) = self.broken.insert(txn) else {
            return Err(Stop::Memory);
        };
        Ok(())
    }

    // Hears the next record of a transaction, one behind its Begin that doesn't close it.
    fn go_on(&mut self, txn: u64, lsn: u64, rec: &LogRecord) -> Result<(), Stop>
        ensures { OrMemory result (λ done. (records : List Entry)
            → txn ≡ txn_by lsn rec.now → is_begin rec.now ≡ false → is_closing rec.now ≡ false
            → AreChains records self.old
            → AreChains (records ++ record { lsn = lsn; rec = rec.now } ∷ []) self.new) }
    {
        let Some(mut chain) = self.take(txn) else {
            return Ok(());
        };
        if !chain.continues(rec) {
            return self.breaks(txn);
        }
        if let Err(stop) = chain.add(lsn, rec) {
            return Err(stop);
        }
        self.put(txn, chain)
    }

    // A transaction begins.
    fn begin(&mut self, lsn: u64) -> Result<(), Stop>
        ensures { OrMemory result (λ done. (records : List Entry) → IsFresh lsn records
            → AreChains records self.old
            → AreChains (records ++ record { lsn = lsn; rec = Begin } ∷ []) self.new) }
    {
        self.put_begun(lsn)
    }

    /// Hears the next record.
    pub fn hear(&mut self, lsn: u64, rec: &LogRecord) -> Result<(), Stop>
        ensures { OrMemory result (λ done. (records : List Entry) → IsFresh lsn records
            → AreChains records self.old
            → AreChains (records ++ record { lsn = lsn; rec = rec.now } ∷ []) self.new) }
    {
        if begins(rec) {
            return self.begin(lsn);
        }
        let txn = txn_of(lsn, rec);
        if closes(rec) {
            self.close(txn);
            return Ok(());
        }
        self.go_on(txn, lsn, rec)
    }

    /// Whether each unfinished transaction can be undone by its records.
    pub fn are_linked(&self) -> bool
        ensures { (records : List Entry) → AreChains records self.now → IsTrue result ↔ LosersAreLinked records }
    {
        self.broken.is_empty()
    }
}
