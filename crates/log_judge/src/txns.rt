// The transactions that are open, record by record.
ghost use Rattle.std.specs.Prelude.{◌≡◌, ◌↔◌, ◌++◌, ◌∷◌, [], ◌==◌, ℕ, true, false, if◌then◌else◌, List, IsTrue};
ghost use Rattle.lsn_set.specs.Held.{has};
ghost use Rattle.log_records.specs.declared.log_record.LogRecord.{LogRecord};
ghost use Rattle.log_records.specs.Log.{Entry, txn_by, is_closing};
ghost use Rattle.log_records.specs.Unfinished.{is_begin};
ghost use Rattle.log_records.specs.Sound as sound;
ghost use Rattle.log_laws.specs.Follow.{IsFresh};
ghost use Rattle.checkpoint.specs.Newest.{seen};
ghost use Rattle.log_judge.specs.Outcomes.{OrMemory};
ghost use Rattle.log_judge.specs.Opening.{AreOpen, MayStand};

use checkpoint::Master;
use log_records::LogRecord;
use lsn_set::LsnSet;
use site::Stop;
use std::alloc::Global;

/// The transaction of a record at an LSN.
pub fn txn_of(lsn: u64, rec: &LogRecord) -> u64
    ensures { result ≡ txn_by lsn rec.now }
{
    match rec {
        LogRecord::Begin => lsn,
        LogRecord::Update { txn, .. } => *txn,
        LogRecord::Clr { txn, .. } => *txn,
        LogRecord::Commit { txn, .. } => *txn,
        LogRecord::End { txn } => *txn,
    }
}

/// Whether a record is a Begin.
pub fn begins(rec: &LogRecord) -> bool
    ensures { result ≡ is_begin rec.now }
{
    match rec {
        LogRecord::Begin => true,
        _ => false,
    }
}

/// Whether a record is a Commit or an End.
pub fn closes(rec: &LogRecord) -> bool
    ensures { result ≡ is_closing rec.now }
{
    match rec {
        LogRecord::Commit { .. } => true,
        LogRecord::End { .. } => true,
        _ => false,
    }
}

/// The transactions that are known from the redo block on, and that no record has closed.
#[derive(Drop)]
pub struct OpenTxns {
    txns: LsnSet,
}

impl OpenTxns {
    /// Before the first record: those that the master names.
    pub fn start(alloc: Global, master: &Master) -> Result<OpenTxns, Stop>
        ensures { OrMemory result (λ set. AreOpen (seen master.now) [] set.txns) }
    {
        let mut txns = LsnSet::new(alloc);
        for place in 0..master.active.len() {
            let (begin, _last) = master.active.at(place);
            let Ok(()) = txns.insert(begin) else {
                return Err(Stop::Memory);
            };
        }
        Ok(OpenTxns { txns })
    }

    /// Whether a record may come next: it isn't before its transaction's Begin, and from the redo block on it is a
    /// Begin or of an open transaction.
    pub fn admits(&self, lsn: u64, rec: &LogRecord, redo: u64) -> bool
        ensures { (m : sound.Master) (records : List Entry) → m.redo ≡ redo → AreOpen m records self.now.txns
            → IsTrue result ↔ MayStand m records (record { lsn = lsn; rec = rec.now }) }
    {
        let txn = txn_of(lsn, rec);
        if lsn < txn {
            return false;
        }
        if lsn / 512 < redo {
            return true;
        }
        if begins(rec) {
            return true;
        }
        self.txns.contains(txn)
    }

    // A transaction begins.
    fn begin(&mut self, txn: u64) -> Result<(), Stop>
        ensures { OrMemory result (λ done. (t : ℕ) → has self.new.txns t
            ≡ (if txn == t then true else has self.old.txns t)) }
    {
        let Ok(()) = self.txns.insert(txn) else {
            return Err(Stop::Memory);
        };
        Ok(())
    }

    // A transaction is closed.
    fn close(&mut self, txn: u64)
        ensures { (t : ℕ) → has self.new.txns t
            ≡ (if txn == t then false else has self.old.txns t) }
    {
        self.txns.remove(txn);
    }

    /// Hears a record that may come next.
    pub fn hear(&mut self, lsn: u64, rec: &LogRecord, redo: u64) -> Result<(), Stop>
        ensures { OrMemory result (λ done. (m : sound.Master) (records : List Entry) → m.redo ≡ redo
            → AreOpen m records self.old.txns → IsFresh lsn records
            → AreOpen m (records ++ record { lsn = lsn; rec = rec.now } ∷ []) self.new.txns) }
    {
        if closes(rec) {
            self.close(txn_of(lsn, rec));
            return Ok(());
        }
        if !begins(rec) {
            return Ok(());
        }
        if lsn / 512 < redo {
            return Ok(());
        }
        self.begin(lsn)
    }
}
