// The transactions that a log leaves unfinished, heard record by record.
ghost use Rattle.std.specs.Prelude.{◌≡◌, ◌⊎◌, ◌≤◌, ◌<◌, ◌==◌, ◌+◌, ◌*◌, ◌++◌, ◌∷◌, [], ℕ, List, drop, nat_eq, Some};
ghost use Rattle.std.specs.Prelude.{None, OnOk, IfOk, IsErrOf, if◌then◌else◌};
ghost use Rattle.indexmap.specs.IndexMap.{get};
ghost use Rattle.log_records.specs.Log.{Entry};
ghost use Rattle.log_records.specs.declared.log_record.LogRecord.TheVariants.{Begin, Clr, Commit, End, Update};
ghost use Rattle.log_archive.specs.Accepted.{Unclosed};
ghost use Rattle.log_replay.specs.Opened.{written};
ghost use Rattle.archive_base.specs.Opening.{HasHeard, HaveClaimed, IsBeyond, IsWriter};

use indexmap::IndexMap;
use log_records::LogRecord;
use log_replay::{Change, ReplayFault, Stood, Transaction, Transactions, copy_of};
use record_model::Octets;
use std::alloc::{AllocError, Global};

/// How many records a page has, and how many pages a database can have.
const RECORDS: u32 = 32;

const PAGES: u32 = 65_536;

/// The transactions that have begun in the records so far and aren't closed.
#[derive(Drop)]
pub struct Opening {
    alloc: Global,
    pub transactions: Transactions,
}

impl Opening {
    /// Before the first record.
    pub fn none(alloc: Global) -> Opening
        ensures { HasHeard [] result.transactions }
    {
        Opening {
            alloc,
            transactions: Transactions::none(alloc),
        }
    }

    // Puts a transaction back with an Update more.
    fn updated(
        &mut self,
        transaction: Transaction,
        change: Change,
        number: u32,
        before: &Option<Octets>,
        after: &Option<Octets>,
    ) -> Result<(), AllocError>
        ensures { change.slot < 32 → number ≡ 32 * change.page + change.slot
            → OnOk result ((t : ℕ) → get nat_eq self.new.transactions.active t
            ≡ (if transaction.begin == t then Some (written change.lsn (number, after.now)
            (record { prev = change.prev; page = change.page; slot = change.slot; before = before.now }
            ∷ transaction.standing) transaction) else get nat_eq self.old.transactions.active t)) }
    {
        let mut transaction = transaction;
        let stood = Stood::of(self.alloc, change.prev, number, before)?;
        let content = copy_of(self.alloc, after)?;
        transaction.update(change.lsn, stood, number, content)?;
        self.transactions.put(transaction, number)?;
        Ok(())
    }

    // Puts it back with a CLR more.
    fn undone(
        &mut self,
        transaction: Transaction,
        lsn: u64,
        number: u32,
        after: &Option<Octets>,
    ) -> Result<(), AllocError>
        ensures { OnOk result ((t : ℕ) → get nat_eq self.new.transactions.active t
            ≡ (if transaction.begin == t then Some (written lsn (number, after.now) (drop 1 transaction.standing)
            transaction) else get nat_eq self.old.transactions.active t)) }
    {
        let mut transaction = transaction;
        let content = copy_of(self.alloc, after)?;
        transaction.undo(lsn, number, content)?;
        self.transactions.put(transaction, number)?;
        Ok(())
    }

    fn update(
        &mut self,
        change: Change,
        before: &Option<Octets>,
        after: &Option<Octets>,
    ) -> Result<(), ReplayFault>
        ensures heard { (log : List Entry) → HasHeard log self.old.transactions → OnOk result (HasHeard
            (log ++ record {
              lsn = change.lsn;
              rec = Update change.txn change.prev change.page change.slot before.now
                  after.now;
            } ∷ []) self.new.transactions) }
        ensures bad { IsErrOf result ReplayFault.BadStream → (65536 ≤ change.page) ⊎ (32 ≤ change.slot) }
    {
        if change.page >= PAGES {
            return Err(ReplayFault::BadStream);
        }
        if u32::from(change.slot) >= RECORDS {
            return Err(ReplayFault::BadStream);
        }
        let number = RECORDS * change.page + u32::from(change.slot);
        let Some(transaction) = self.transactions.take(change.txn) else {
            return Ok(());
        };
        match self.updated(transaction, change, number, before, after) {
            Ok(()) => Ok(()),
            Err(_) => Err(ReplayFault::Memory),
        }
    }

    fn undo(
        &mut self,
        change: Change,
        undo_next: u64,
        after: &Option<Octets>,
    ) -> Result<(), ReplayFault>
        ensures heard { (log : List Entry) → HasHeard log self.old.transactions → OnOk result (HasHeard
            (log ++ record {
              lsn = change.lsn;
              rec = Clr change.txn change.prev undo_next change.page change.slot
                  after.now;
            } ∷ []) self.new.transactions) }
        ensures bad { IsErrOf result ReplayFault.BadStream → (65536 ≤ change.page) ⊎ (32 ≤ change.slot) }
    {
        if change.page >= PAGES {
            return Err(ReplayFault::BadStream);
        }
        if u32::from(change.slot) >= RECORDS {
            return Err(ReplayFault::BadStream);
        }
        let number = RECORDS * change.page + u32::from(change.slot);
        let Some(transaction) = self.transactions.take(change.txn) else {
            return Ok(());
        };
        match self.undone(transaction, change.lsn, number, after) {
            Ok(()) => Ok(()),
            Err(_) => Err(ReplayFault::Memory),
        }
    }

    fn begin(&mut self, lsn: u64) -> Result<(), ReplayFault>
        ensures heard { (log : List Entry) → HasHeard log self.old.transactions
            → OnOk result (HasHeard (log ++ record { lsn = lsn; rec = Begin } ∷ []) self.new.transactions) }
        ensures bad { IsErrOf result ReplayFault.BadStream → ⊥ }
    {
        match self.transactions.begin(self.alloc, lsn) {
            Ok(()) => Ok(()),
            Err(_) => Err(ReplayFault::Memory),
        }
    }

    // A transaction is closed.
    fn close(&mut self, txn: u64) -> Result<(), ReplayFault>
        ensures closes { OnOk result ((t : ℕ) → get nat_eq self.new.transactions.active t
            ≡ (if txn == t then None else get nat_eq self.old.transactions.active t)) }
        ensures bad { IsErrOf result ReplayFault.BadStream → ⊥ }
    {
        self.transactions.take(txn);
        Ok(())
    }

    /// Hears the record at an LSN. Of a transaction whose Begin wasn't heard it knows nothing. A record that
    /// no page of any database has is BadStream.
    pub fn hear(&mut self, lsn: u64, rec: &LogRecord) -> Result<(), ReplayFault>
        ensures heard { (log : List Entry) → HasHeard log self.old.transactions
            → OnOk result (HasHeard (log ++ record { lsn = lsn; rec = rec.now } ∷ []) self.new.transactions) }
        ensures bad { IsErrOf result ReplayFault.BadStream → IsBeyond rec.now }
    {
        match rec {
            LogRecord::Begin => self.begin(lsn),
            LogRecord::Update {
                txn,
                prev,
                page,
                slot,
                before,
                after,
            } => {
                let change = Change {
                    lsn,
                    txn: *txn,
                    prev: *prev,
                    page: *page,
                    slot: *slot,
                };
                self.update(change, before, after)
            }
            LogRecord::Clr {
                txn,
                prev,
                undo_next,
                page,
                slot,
                after,
            } => {
                let change = Change {
                    lsn,
                    txn: *txn,
                    prev: *prev,
                    page: *page,
                    slot: *slot,
                };
                self.undo(change, *undo_next, after)
            }
            LogRecord::Commit { txn, .. } => self.close(*txn),
            LogRecord::End { txn } => self.close(*txn),
        }
    }

    /// Behind the last record: the transactions, each the writer of the records that it has left something on.
    pub fn claimed(self) -> Result<Transactions, AllocError>
        ensures { (log : List Entry) → HasHeard log self.transactions
            → IfOk result (λ kept. HasHeard log kept × HaveClaimed kept) }
    {
        let alloc = self.alloc;
        let transactions = self.transactions;
        let active = transactions.active;
        let writers = writers_of(alloc, &active)?;
        Ok(Transactions { active, writers })
    }
}

// Who has written each record.
fn writers_of(
    alloc: Global,
    active: &IndexMap<u64, Transaction>,
) -> Result<IndexMap<u32, u64>, AllocError>
    ensures { ((t : ℕ) (u : Unclosed) → get nat_eq active.now t ≡ Some u → u.begin ≡ t)
        → IfOk result (λ writers. (number : ℕ) → IsWriter (λ t. get nat_eq active.now t) number
        (get nat_eq writers number)) }
{
    let mut writers = IndexMap::new(alloc);
    for txn in active.keys() {
        if let Some(transaction) = active.get(txn) {
            transaction.claim(&mut writers)?;
        }
    }
    Ok(writers)
}
