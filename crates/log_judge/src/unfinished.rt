// The transactions that records leave unfinished, record by record.
ghost use Rattle.std.specs.Prelude.{◌≡◌, ◌↔◌, ◌^◌, ◌<◌, ◌++◌, ◌∷◌, [], List, map};
ghost use Rattle.std.specs.Prelude.{false, IsTrue};
ghost use Rattle.std.specs.BTreeMap.{insert_entry};
ghost use Rattle.std.specs.Ordering.{nat_cmp};
ghost use Rattle.log_records.specs.Log.{Entry};
ghost use Rattle.log_records.specs.Unfinished.{is_begin};
ghost use Rattle.log_records.specs.Sound.{active_in};
ghost use Rattle.log_laws.specs.Analysis.{remaining_by};
ghost use Rattle.checkpoint.specs.Newest.{seen};
ghost use Rattle.log_judge.specs.Unended.{AreLeft, Comes};
ghost use Rattle.log_judge.specs.Outcomes.{OrMemory};

use crate::txns::{begins, closes, txn_of};
use checkpoint::Master;
use log_records::LogRecord;
use site::Stop;
use std::alloc::Global;
use std::collections::BTreeMap;

/// What is kept of an unfinished transaction: the LSN of its last record, and how many of its Updates no CLR
/// compensates.
#[derive(Clone, Copy, Debug, Drop)]
pub struct Left {
    pub last: u64,
    pub remaining: u64,
}

impl Left {
    // After one more record of its own.
    fn after(&self, lsn: u64, rec: &LogRecord) -> Left
        ensures { self.now.remaining < 2 ^ 62
            → result ≡ record { last = lsn; remaining = remaining_by self.now.remaining rec.now } }
    {
        let remaining = match rec {
            LogRecord::Update { .. } => self.remaining.saturating_add(1),
            LogRecord::Clr { .. } => self.remaining.saturating_sub(1),
            _ => self.remaining,
        };
        Left {
            last: lsn,
            remaining,
        }
    }
}

/// The unfinished transactions, by the LSNs of their Begins.
#[derive(Drop)]
pub struct LeftTxns {
    pub left: BTreeMap<u64, Left>,
}

impl LeftTxns {
    // A transaction begins.
    fn begin(&mut self, lsn: u64) -> Result<(), Stop>
        ensures { OrMemory result (λ done. self.new.left.entries
            ≡ insert_entry nat_cmp self.old.left.entries lsn (record { last = lsn; remaining = 0 })) }
    {
        let first = Left {
            last: lsn,
            remaining: 0,
        };
        let Ok(_) = self.left.insert(lsn, first) else {
            return Err(Stop::Memory);
        };
        Ok(())
    }

    // Hears a record that isn't a Begin.
    fn go_on(&mut self, lsn: u64, rec: &LogRecord)
        ensures { (records : List Entry) → Comes records lsn → is_begin rec.now ≡ false
            → AreLeft records self.old.left
            → AreLeft (records ++ record { lsn = lsn; rec = rec.now } ∷ []) self.new.left }
    {
        let txn = txn_of(lsn, rec);
        if closes(rec) {
            self.left.remove(&txn);
            return;
        }
        let Some(left) = self.left.get_mut(&txn) else {
            return;
        };
        *left = left.after(lsn, rec);
    }

    /// None.
    pub fn none(alloc: Global) -> LeftTxns
        ensures { AreLeft [] result.left }
    {
        LeftTxns {
            left: BTreeMap::new(alloc),
        }
    }

    /// Hears the next record.
    pub fn hear(&mut self, lsn: u64, rec: &LogRecord) -> Result<(), Stop>
        ensures { OrMemory result (λ done. (records : List Entry) → Comes records lsn
            → AreLeft records self.old.left
            → AreLeft (records ++ record { lsn = lsn; rec = rec.now } ∷ []) self.new.left) }
    {
        if begins(rec) {
            return self.begin(lsn);
        }
        self.go_on(lsn, rec);
        Ok(())
    }

    // Whether they are those that a master names.
    fn are_those(&self, master: &Master) -> bool
        ensures { IsTrue result
            ↔ (map (λ e. record { begin = e.0; last = e.1.last }) self.now.left.entries ≡ master.now.active) }
    {
        if self.left.len() != master.active.len() {
            return false;
        }
        let mut place = 0;
        for (txn, left) in &self.left {
            let (begin, last) = master.active.at(place);
            if begin != *txn {
                return false;
            }
            if last != left.last {
                return false;
            }
            place += 1;
        }
        true
    }

    /// Whether a master names these, each with the LSN of its last record.
    pub fn are_named(&self, master: &Master) -> bool
        ensures { (records : List Entry) → AreLeft records self.now.left
            → IsTrue result ↔ ((seen master.now).active ≡ active_in records) }
    {
        self.are_those(master)
    }
}
