// What is known of a stream, record by record.
ghost use Rattle.std.specs.Prelude.{◌≡◌, ◌+◌, ◌*◌, ◌^◌, ◌<◌, ◌≤◌, ℕ, List, ◌∷◌, [], drop, length, IfOk, OnOk};
ghost use Rattle.record_model.specs.State.{Write};
ghost use Rattle.log_records.specs.declared.log_record.LogRecord.TheVariants.{Begin, Clr, Commit, End, Update};
ghost use Rattle.log_records.specs.declared.log_record.LogRecord.{LogRecord};
ghost use Rattle.log_records.specs.Log.{entries_from};
ghost use Rattle.log_records.specs.Spelling.{HasForm, IsBlock, used_by};
ghost use Rattle.log_archive.specs.Accepted.{Stream, after_entries, after_record, blank_stream};
ghost use Rattle.log_replay.specs.Opened.{written};
ghost use Rattle.log_replay.specs.Stands.{Closes, Hears, Puts, StandsAt};

use crate::kept::copy_of;
use crate::net::Net;
use crate::table::Table;
use crate::transaction::{Stood, Transaction};
use crate::transactions::Transactions;
use log_records::{BLOCK_LEN, LogRecord, read_record};
use record_model::Octets;
use std::alloc::{AllocError, Global};
use std::collections::VecDeque;

/// Why a line isn't taken.
#[derive(Clone, Copy, Debug, PartialEq, Eq)]
pub enum ReplayFault {
    /// The lines so far aren't an archive.
    BadStream,
    /// There is no memory.
    Memory,
}

/// What an Update and a CLR both say: the LSN where the record stands, its transaction, the LSN of the transaction's
/// record before it, and the record of the table that it is on.
#[derive(Clone, Copy, Debug)]
pub struct Change {
    pub lsn: u64,
    pub txn: u64,
    pub prev: u64,
    pub page: u32,
    pub slot: u8,
}

/// What the records so far leave: the table, the number of commits, the open transactions, and the nets that wait.
#[derive(Drop)]
pub struct Ledger {
    pub alloc: Global,
    pub commits: u64,
    pub table: Table,
    pub transactions: Transactions,
    pub waiting: VecDeque<Net>,
}

impl Ledger {
    /// Before the first record.
    pub fn blank(alloc: Global, pages: u32) -> Result<Ledger, AllocError>
        requires { pages ≤ 65536 }
        ensures { IfOk result (λ ledger. StandsAt pages 2 (blank_stream pages) [] ledger) }
    {
        let table = Table::blank(alloc, pages)?;
        Ok(Ledger {
            alloc,
            commits: 0,
            table,
            transactions: Transactions::none(alloc),
            waiting: VecDeque::new(alloc),
        })
    }

    fn begin(&mut self, lsn: u64) -> Result<(), ReplayFault>
        ensures { (pages next : ℕ) (s : Stream) (popped : List (List Write)) → lsn < next
            → StandsAt pages lsn s popped self.old
            → Hears result (after_record pages lsn Begin s) (λ now. StandsAt pages next now popped self.new) }
    {
        let Ok(()) = self.transactions.begin(self.alloc, lsn) else {
            return Err(ReplayFault::Memory);
        };
        Ok(())
    }

    // Puts a transaction back that has written a record, and writes it in the table.
    fn write(
        &mut self,
        transaction: Transaction,
        number: u32,
        after: &Option<Octets>,
    ) -> Result<(), AllocError>
        ensures { OnOk result (Puts transaction (number, after.now) self.old self.new) }
    {
        let content = copy_of(self.alloc, after)?;
        self.table.write(number, content);
        self.transactions.put(transaction, number)?;
        Ok(())
    }

    fn updated(
        &mut self,
        transaction: Transaction,
        change: Change,
        number: u32,
        before: &Option<Octets>,
        after: &Option<Octets>,
    ) -> Result<(), AllocError>
        ensures { change.slot < 32 → number ≡ 32 * change.page + change.slot
            → OnOk result (Puts (written change.lsn (number, after.now)
            (record { prev = change.prev; page = change.page; slot = change.slot; before = before.now }
            ∷ transaction.standing) transaction) (number, after.now) self.old self.new) }
    {
        let mut transaction = transaction;
        let stood = Stood::of(self.alloc, change.prev, number, before)?;
        let content = copy_of(self.alloc, after)?;
        transaction.update(change.lsn, stood, number, content)?;
        self.write(transaction, number, after)
    }

    fn update(
        &mut self,
        change: Change,
        before: &Option<Octets>,
        after: &Option<Octets>,
    ) -> Result<(), ReplayFault>
        requires { change.slot < 32 }
        ensures { (pages next : ℕ) (s : Stream) (popped : List (List Write)) → change.lsn < next
            → StandsAt pages change.lsn s popped self.old
            → Hears result (after_record pages change.lsn
            (Update change.txn change.prev change.page change.slot before.now after.now) s)
            (λ now. StandsAt pages next now popped self.new) }
    {
        let Some(number) = self.table.number_of(change.page, change.slot) else {
            return Err(ReplayFault::BadStream);
        };
        if !self.table.shows(number, before) {
            return Err(ReplayFault::BadStream);
        }
        if self.transactions.is_taken(change.txn, number) {
            return Err(ReplayFault::BadStream);
        }
        let Some(transaction) = self.transactions.take(change.txn) else {
            return Err(ReplayFault::BadStream);
        };
        if !transaction.is_at(change.prev) {
            return Err(ReplayFault::BadStream);
        }
        match self.updated(transaction, change, number, before, after) {
            Ok(()) => Ok(()),
            Err(_) => Err(ReplayFault::Memory),
        }
    }

    fn undone(
        &mut self,
        transaction: Transaction,
        lsn: u64,
        number: u32,
        after: &Option<Octets>,
    ) -> Result<(), AllocError>
        ensures { OnOk result (Puts (written lsn (number, after.now) (drop 1 transaction.standing) transaction)
            (number, after.now) self.old self.new) }
    {
        let mut transaction = transaction;
        let content = copy_of(self.alloc, after)?;
        transaction.undo(lsn, number, content)?;
        self.write(transaction, number, after)
    }

    fn undo(
        &mut self,
        change: Change,
        undo_next: u64,
        after: &Option<Octets>,
    ) -> Result<(), ReplayFault>
        ensures { (pages next : ℕ) (s : Stream) (popped : List (List Write)) → change.lsn < next
            → StandsAt pages change.lsn s popped self.old
            → Hears result (after_record pages change.lsn
            (Clr change.txn change.prev undo_next change.page change.slot after.now) s)
            (λ now. StandsAt pages next now popped self.new) }
    {
        let Some(transaction) = self.transactions.take(change.txn) else {
            return Err(ReplayFault::BadStream);
        };
        if !transaction.is_at(change.prev) {
            return Err(ReplayFault::BadStream);
        }
        let Some(number) = transaction.compensated(undo_next, change.page, change.slot, after)
        else {
            return Err(ReplayFault::BadStream);
        };
        match self.undone(transaction, change.lsn, number, after) {
            Ok(()) => Ok(()),
            Err(_) => Err(ReplayFault::Memory),
        }
    }

    // What a transaction leaves, which was taken out and has written nothing any longer.
    fn close(&mut self, transaction: Transaction) -> Result<Net, AllocError>
        ensures { IfOk result (λ net. Closes transaction.net net self.old self.new) }
    {
        let net = transaction.into_net(self.alloc)?;
        self.transactions.release(&net);
        Ok(net)
    }

    fn commit(&mut self, txn: u64, number: u64) -> Result<(), ReplayFault>
        ensures { (pages lsn next : ℕ) (s : Stream) (popped : List (List Write)) → lsn < next
            → StandsAt pages lsn s popped self.old
            → Hears result (after_record pages lsn (Commit txn number) s)
            (λ now. StandsAt pages next now popped self.new) }
    {
        let Some(transaction) = self.transactions.take(txn) else {
            return Err(ReplayFault::BadStream);
        };
        if number == 0 {
            return Err(ReplayFault::BadStream);
        }
        if number - 1 != self.commits {
            return Err(ReplayFault::BadStream);
        }
        let Ok(net) = self.close(transaction) else {
            return Err(ReplayFault::Memory);
        };
        let Ok(()) = self.waiting.push_back(net) else {
            return Err(ReplayFault::Memory);
        };
        self.commits = number;
        Ok(())
    }

    fn end(&mut self, txn: u64) -> Result<(), ReplayFault>
        ensures { (pages lsn next : ℕ) (s : Stream) (popped : List (List Write)) → lsn < next
            → StandsAt pages lsn s popped self.old
            → Hears result (after_record pages lsn (End txn) s)
            (λ now. StandsAt pages next now popped self.new) }
    {
        let Some(transaction) = self.transactions.take(txn) else {
            return Err(ReplayFault::BadStream);
        };
        if !transaction.is_undone() {
            return Err(ReplayFault::BadStream);
        }
        let Ok(_net) = self.close(transaction) else {
            return Err(ReplayFault::Memory);
        };
        Ok(())
    }

    /// Hears the record at an LSN. After a fault the ledger stands for no stream.
    pub fn hear(&mut self, lsn: u64, rec: &LogRecord) -> Result<(), ReplayFault>
        requires { HasForm rec.now }
        ensures { (pages next : ℕ) (s : Stream) (popped : List (List Write)) → lsn < next
            → StandsAt pages lsn s popped self.old
            → Hears result (after_record pages lsn rec.now s) (λ now. StandsAt pages next now popped self.new) }
    {
        match rec {
            LogRecord::Begin => self.begin(lsn),
            LogRecord::Update {
                txn,
                prev,
                page,
                slot,
                before,
                after,
            } => {
                let change = Change {
                    lsn,
                    txn: *txn,
                    prev: *prev,
                    page: *page,
                    slot: *slot,
                };
                self.update(change, before, after)
            }
            LogRecord::Clr {
                txn,
                prev,
                undo_next,
                page,
                slot,
                after,
            } => {
                let change = Change {
                    lsn,
                    txn: *txn,
                    prev: *prev,
                    page: *page,
                    slot: *slot,
                };
                self.undo(change, *undo_next, after)
            }
            LogRecord::Commit { txn, number } => self.commit(*txn, *number),
            LogRecord::End { txn } => self.end(*txn),
        }
    }

    /// Hears the records of a block of a number, which end at `used`. After a fault the ledger stands for no stream.
    pub fn hear_block(
        &mut self,
        number: u64,
        content: &[u8],
        used: usize,
    ) -> Result<(), ReplayFault>
        requires number { number < 2 ^ 40 }
        requires size { length content.now ≡ BLOCK_LEN }
        requires block { (records : List LogRecord) × IsBlock content.now records × (used ≡ used_by records) }
        ensures { (pages : ℕ) (s : Stream) (popped : List (List Write)) (records : List LogRecord)
            → StandsAt pages (512 * number + 2) s popped self.old → IsBlock content.now records
            → Hears result (after_entries pages (entries_from (512 * number + 2) records) s)
            (λ now. StandsAt pages (512 * (number + 1) + 2) now popped self.new) }
    {
        let mut at = 2;
        while at < used {
            let Ok((rec, end)) = read_record(content, at, used) else {
                return Err(ReplayFault::BadStream);
            };
            match self.hear(512 * number + at as u64, &rec) {
                Ok(()) => at = end,
                Err(fault) => return Err(fault),
            }
        }
        Ok(())
    }
}
