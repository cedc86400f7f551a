// All unfinished transactions, record by record.
ghost use Rattle.std.specs.Prelude.{◌≡◌, ◌⊎◌, ◌==◌, ◌++◌, ◌∷◌, [], ℕ, nat_eq, true, Some, None, if◌then◌else◌, List};
ghost use Rattle.std.specs.Prelude.{reverse};
ghost use Rattle.std.specs.List.{list_any};
ghost use Rattle.indexmap.specs.IndexMap.{get};
ghost use Rattle.log_records.specs.Log.{Entry, txn_by};
ghost use Rattle.log_records.specs.Unfinished.{losers};
ghost use Rattle.image_check.specs.Chaining.{AreChains, Keeps, IsKept, StandsIn};
ghost use Rattle.image_check.specs.Filling.{left_in};
ghost use Rattle.log_judge.specs.Outcomes.{OrMemory};

use crate::chain::Chain;
use crate::contents::Contents;
use indexmap::IndexMap;
use log_judge::txn_of;
use log_records::LogRecord;
use site::Stop;
use std::alloc::Global;

/// What is kept of each unfinished transaction that has its Begin in the log and a record behind it, and the least of
/// those that their records don't undo.
#[derive(Drop)]
pub struct Chains {
    pub alloc: Global,
    pub chains: IndexMap<u64, Chain>,
    pub broken: Option<u64>,
}

// The lesser of two transactions.
fn lesser(broken: Option<u64>, txn: u64) -> u64
    ensures { (result ≡ txn) ⊎ (broken ≡ Some result) }
{
    match broken {
        Some(other) => { if other < txn { other } else { txn } }
        None => txn,
    }
}

impl Chains {
    /// Before the first record.
    pub fn none(alloc: Global) -> Chains
        ensures { (log : List Entry) → AreChains log [] result }
    {
        Chains {
            alloc,
            chains: IndexMap::new(alloc),
            broken: None,
        }
    }

    // Takes out what is kept of a transaction.
    fn take(&mut self, txn: u64) -> Chain
        ensures taken { (rest : List Entry) → Keeps txn (get nat_eq self.old.chains txn) rest
            → IsKept txn result rest }
        ensures others { (t : ℕ) → get nat_eq self.new.chains t
            ≡ (if txn == t then None else get nat_eq self.old.chains t) }
        ensures broken { self.new.broken ≡ self.old.broken }
    {
        match self.chains.swap_remove(&txn) {
            Some(chain) => chain,
            None => Chain {
                last: txn,
                updates: Vec::new(self.alloc),
                written: Contents::new(self.alloc),
            },
        }
    }

    /// The Updates that a transaction has left open.
    pub fn left_of(&self, txn: u64) -> &[LogRecord]
        ensures { reverse result.now ≡ left_in (get nat_eq self.now.chains txn) }
    {
        match self.chains.get(&txn) {
            Some(chain) => chain.updates.as_slice(),
            None => &[],
        }
    }

    // Puts it back.
    fn put(&mut self, txn: u64, chain: Chain) -> Result<(), Stop>
        ensures { OrMemory result (λ done. ((t : ℕ) → get nat_eq self.new.chains t
            ≡ (if txn == t then Some chain else get nat_eq self.old.chains t))
            × (self.new.broken ≡ self.old.broken)) }
    {
        let Ok(_) = self.chains.insert(txn, chain) else {
            return Err(Stop::Memory);
        };
        Ok(())
    }

    /// Hears the next record, of one of these transactions.
    pub fn hear(&mut self, lsn: u64, rec: LogRecord) -> Result<(), Stop>
        ensures { OrMemory result (λ done. (log : List Entry) (records : List Entry)
            → StandsIn log records (record { lsn = lsn; rec = rec })
            → list_any (λ t. t == txn_by lsn rec) (losers log) ≡ true
            → AreChains log records self.old
            → AreChains log (records ++ record { lsn = lsn; rec = rec } ∷ []) self.new) }
    {
        let txn = txn_of(lsn, &rec);
        if lsn == txn {
            return Ok(());
        }
        let mut chain = self.take(txn);
        let goes_on = match chain.hear(txn, lsn, rec) {
            Ok(goes_on) => goes_on,
            Err(stop) => return Err(stop),
        };
        if !goes_on {
            self.broken = Some(lesser(self.broken, txn));
            return Ok(());
        }
        self.put(txn, chain)
    }
}
