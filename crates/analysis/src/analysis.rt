// Analysis, record by record.
ghost use Rattle.std.specs.Prelude.{◌≡◌, ◌⊎◌, ◌↔◌, ◌+◌, ◌-◌, ◌^◌, ◌<◌, ◌≤◌, min, ℕ, List, [], ◌∷◌, ◌++◌, length, map};
ghost use Rattle.std.specs.Prelude.{drop, filter, true, false, IfOk, OnOk, OnErr, IfErr, IsErrOf, IsSome, IfSome};
ghost use Rattle.std.specs.Prelude.{option_map};
ghost use Rattle.site.specs.declared.outside.Stop.{Stop};
ghost use Rattle.record_model.specs.State.{Content};
ghost use Rattle.log_records.specs.declared.log_record.LogRecord.TheVariants.{Clr, End};
ghost use Rattle.log_records.specs.Log.{Entry, txn_by};
ghost use Rattle.log_records.specs.Unfinished.{is_begin};
ghost use Rattle.log_records.specs.Sound as sound;
ghost use Rattle.log_records.specs.Sound.{Active, IsInOrder, commit_numbers};
ghost use Rattle.checkpoint.specs.Actives.{Ascend};
ghost use Rattle.checkpoint.specs.Newest.{seen};
ghost use Rattle.analysis.specs.Open.{found_in, Replaces, TakesOut, HasLeft, none_remains, owed_for};
ghost use Rattle.analysis.specs.Order.{IsOrder};
ghost use Rattle.analysis.specs.Table.{open_of, listed};
ghost use Rattle.analysis.specs.Read.{is_active, loser_of, IsTable, Invariant, IsAnalysis, IsLoser, MayCome};

use crate::order::Order;
use crate::table::{Table, Transaction};
use checkpoint::Master;
use log_records::LogRecord;
use site::Stop;
use std::alloc::Global;

/// An unfinished transaction.
#[derive(Clone, Copy, Debug, PartialEq, Eq)]
pub struct Loser {
    /// The LSN of its Begin.
    pub txn: u64,
    /// The LSN of its last record.
    pub last: u64,
    /// How many of its Updates no CLR compensates.
    pub remaining: u64,
}

/// The transactions that are active after the records read so far, and the number of commits. It is ended once `step`
/// gave an error.
#[derive(Drop)]
pub struct Analysis {
    alloc: Global,
    table: Table,
    commits: u64,
    ended: bool,
}

// Notes a transaction of which no Update remains.
fn note_undone(txns: &mut Vec<u64>, txn: u64, transaction: &Transaction) -> Result<(), Stop>
    ensures noted { OnOk result (txns.new.items ≡ txns.old.items
        ++ map (λ x. x.txn) (filter none_remains (open_of (txn, transaction.now) ∷ []))) }
    ensures stops { IfErr result (λ stop. stop ≡ Stop.Memory) }
{
    if !transaction.updates.is_empty() {
        return Ok(());
    }
    let Ok(()) = txns.push(txn) else {
        return Err(Stop::Memory);
    };
    Ok(())
}

impl Analysis {
    /// Analysis from a master on: the transactions that it names are active. It takes memory for these.
    pub fn start(alloc: Global, master: &Master) -> Result<Analysis, Stop>
        requires { Ascend master.now.active }
        ensures going { IfOk result (λ analysis. Invariant analysis) }
        ensures read { IfOk result (λ analysis. IsAnalysis (seen master.now) [] analysis) }
        ensures owed { IfOk result (λ analysis. owed_for (listed analysis.table) ≡ length master.now.active) }
        ensures ended { IfOk result (λ analysis. analysis.ended ≡ false) }
        ensures stops { IfErr result (λ stop. stop ≡ Stop.Memory) }
    {
        let (commits, named) = (master.commits, &master.active);
        let table = Table::start(alloc, named)?;
        Ok(Analysis {
            alloc,
            table,
            commits,
            ended: false,
        })
    }

    /// Takes the next record of a log, which stands at an LSN above those of the records before it. A Begin makes its
    /// transaction active, a Commit or an End ends that; a CLR compensates the greatest Update that remains. `Foreign`
    /// comes exactly where a record other than a Begin is of a transaction that isn't active. After an error the table
    /// is as it was, and the analysis is ended.
    pub fn step(&mut self, lsn: u64, rec: &LogRecord) -> Result<(), Stop>
        requires { Invariant self.old }
        ensures going { Invariant self.new }
        ensures owed { owed_for (listed self.new.table) ≤ owed_for (listed self.old.table) + 1 }
        ensures read { (m : sound.Master) (records : List Entry) → IsAnalysis m records self.old
            → MayCome records (record { lsn = lsn; rec = rec.now })
            → OnOk result (IsAnalysis m (records ++ record { lsn = lsn; rec = rec.now } ∷ []) self.new) }
        ensures ended { OnOk result (self.new.ended ≡ self.old.ended) }
        ensures err { OnErr result ((listed self.new.table ≡ listed self.old.table)
            × (self.new.commits ≡ self.old.commits) × (self.new.ended ≡ true)) }

        // When each answer comes.
        ensures foreign { (m : sound.Master) (records : List Entry) → IsAnalysis m records self.old
            → IsErrOf result Stop.Foreign
            ↔ ((is_begin rec.now ≡ false) × (is_active m.active records (txn_by lsn rec.now) ≡ false)) }
        ensures stops { IfErr result (λ stop. (stop ≡ Stop.Memory) ⊎ (stop ≡ Stop.Foreign)) }
    {
        match self.take(lsn, rec) {
            Ok(()) => Ok(()),
            Err(stop) => {
                self.ended = true;
                Err(stop)
            }
        }
    }

    fn take(&mut self, lsn: u64, rec: &LogRecord) -> Result<(), Stop>
        requires { Invariant self.old }
        ensures going { Invariant self.new }
        ensures owed { owed_for (listed self.new.table) ≤ owed_for (listed self.old.table) + 1 }
        ensures read { (m : sound.Master) (records : List Entry) → IsAnalysis m records self.old
            → MayCome records (record { lsn = lsn; rec = rec.now })
            → OnOk result (IsAnalysis m (records ++ record { lsn = lsn; rec = rec.now } ∷ []) self.new) }
        ensures ended { self.new.ended ≡ self.old.ended }
        ensures err { OnErr result ((listed self.new.table ≡ listed self.old.table)
            × (self.new.commits ≡ self.old.commits)) }

        // When each answer comes.
        ensures foreign { (m : sound.Master) (records : List Entry) → IsAnalysis m records self.old
            → IsErrOf result Stop.Foreign
            ↔ ((is_begin rec.now ≡ false) × (is_active m.active records (txn_by lsn rec.now) ≡ false)) }
        ensures stops { IfErr result (λ stop. (stop ≡ Stop.Memory) ⊎ (stop ≡ Stop.Foreign)) }
    {
        match rec {
            LogRecord::Begin => self.table.begin(self.alloc, lsn),
            LogRecord::Update { txn, .. } => self.table.update(*txn, lsn),
            LogRecord::Clr { txn, .. } => self.table.compensate(*txn, lsn),
            LogRecord::Commit { txn, .. } => {
                let Ok(()) = self.table.close(*txn) else {
                    return Err(Stop::Foreign);
                };
                self.commits = self.commits.saturating_add(1);
                Ok(())
            }
            LogRecord::End { txn } => self.table.close(*txn),
        }
    }

    /// How many transactions are active.
    pub fn losers(&self) -> usize
        ensures { result ≡ length (listed self.now.table) }
    {
        self.table.transactions.len()
    }

    /// An active transaction by the LSN of its Begin.
    pub fn loser(&self, txn: u64) -> Option<Loser>
        ensures loser { result ≡ option_map loser_of (found_in (listed self.now.table) txn) }
        ensures active { IfSome result (λ loser. IsSome (found_in (listed self.now.table) txn)) }
        ensures of_records { (m : sound.Master) (records : List Entry) → IsAnalysis m records self.now
            → IfSome result (IsLoser m.active records) }
    {
        let Some(transaction) = self.table.transactions.get(&txn) else {
            return None;
        };
        Some(Loser {
            txn,
            last: transaction.last,
            remaining: transaction.updates.len() as u64,
        })
    }

    /// What undoing all active transactions logs: a CLR for each Update that remains, and an End for each of them.
    pub fn owed(&self) -> u64
        requires bounded { owed_for (listed self.now.table) ≤ 2 ^ 41 }
        ensures { result ≡ owed_for (listed self.now.table) }
    {
        let mut sum = 0;
        for transaction in self.table.transactions.values() {
            sum += transaction.updates.len() as u64 + 1;
        }
        sum
    }

    /// The active transactions of which no Update remains, by ascending LSN of their Begins.
    pub fn undone(&self) -> Result<Vec<u64>, Stop>
        ensures undone { IfOk result (λ txns. txns.items
            ≡ map (λ x. x.txn) (filter none_remains (listed self.now.table))) }
        ensures stops { IfErr result (λ stop. stop ≡ Stop.Memory) }
    {
        let mut txns = Vec::new(self.alloc);
        for (txn, transaction) in &self.table.transactions {
            note_undone(&mut txns, *txn, transaction)?;
        }
        Ok(txns)
    }

    /// All Updates of active transactions that no CLR compensates, in order. Where those of a transaction don't stand
    /// at rising LSNs, or two stand at one, it answers Foreign; of records in order that doesn't come.
    pub fn order(&self) -> Result<Order, Stop>
        requires { Invariant self.now }
        ensures order { IfOk result (λ order. IsOrder order (listed self.now.table)) }
        ensures readable { (named : List Active) (records : List Entry) (from to : ℕ)
            → IsTable named records (listed self.now.table) → IsInOrder from records to
            → IsErrOf result Stop.Foreign → ⊥ }
        ensures stops { IfErr result (λ stop. (stop ≡ Stop.Memory) ⊎ (stop ≡ Stop.Foreign)) }
    {
        let mut order = Order::new(self.alloc);
        for (txn, transaction) in &self.table.transactions {
            match order.add_all(*txn, &transaction.updates) {
                Ok(()) => {}
                Err(stop) => return Err(stop),
            }
        }
        Ok(order)
    }

    /// The commits of the master and of the records, at most 2^64 - 1.
    pub fn commits(&self) -> u64
        ensures commits { result ≡ self.now.commits }
        ensures of_records { (m : sound.Master) (records : List Entry) → IsAnalysis m records self.now
            → result ≡ min (m.commits + length (commit_numbers records)) (2 ^ 64 - 1) }
    {
        self.commits
    }

    /// The greatest Update of an active transaction has been compensated, by the CLR with this `undo_next` at the LSN
    /// `last`. What remains the table knows without it.
    pub fn compensated(&mut self, txn: u64, _undo_next: u64, last: u64)
        requires going { Invariant self.old }
        requires left { HasLeft (listed self.old.table) txn }
        ensures replaces { Replaces (listed self.old.table) (listed self.new.table) txn
            (λ x. record x { last = last; updates = drop 1 x.updates }) }
        ensures owed { owed_for (listed self.new.table) + 1 ≡ owed_for (listed self.old.table) }
        ensures going { Invariant self.new }
        ensures read { (m : sound.Master) (records : List Entry) (prev page slot : ℕ) (after : Content)
            → IsAnalysis m records self.old
            → IsAnalysis m (records ++ record { lsn = last; rec = Clr txn prev _undo_next page slot after }
            ∷ []) self.new }
        ensures table { (named : List Active) (records : List Entry) (prev page slot : ℕ) (after : Content)
            → IsTable named records (listed self.old.table)
            → IsTable named (records ++ record { lsn = last; rec = Clr txn prev _undo_next page slot after } ∷ [])
            (listed self.new.table) }
        ensures rest { self.new ≡ record self.old { table = self.new.table } }
    {
        let Ok(()) = self.table.compensate(txn, last) else {
            unreachable!()
        };
    }

    /// An active transaction has come to its End.
    pub fn finished(&mut self, txn: u64)
        requires going { Invariant self.old }
        requires active { IsSome (found_in (listed self.old.table) txn) }
        ensures takes { TakesOut (listed self.old.table) (listed self.new.table) txn }
        ensures owed { owed_for (listed self.new.table) < owed_for (listed self.old.table) }
        ensures going { Invariant self.new }
        ensures read { (m : sound.Master) (records : List Entry) (lsn : ℕ)
            → IsAnalysis m records self.old
            → IsAnalysis m (records ++ record { lsn = lsn; rec = End txn } ∷ []) self.new }
        ensures table { (named : List Active) (records : List Entry) (lsn : ℕ)
            → IsTable named records (listed self.old.table)
            → IsTable named (records ++ record { lsn = lsn; rec = End txn } ∷ []) (listed self.new.table) }
        ensures rest { self.new ≡ record self.old { table = self.new.table } }
    {
        let Ok(()) = self.table.close(txn) else {
            unreachable!()
        };
    }

    /// Whether `step` gave an error. No further call is lawful then, though each stays safe.
    pub fn ended(&self) -> bool
        ensures { result ≡ self.now.ended }
    {
        self.ended
    }
}
