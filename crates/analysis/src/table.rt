// The active transactions, in a table.
ghost use Rattle.std.specs.Prelude.{◌≡◌, ◌⊎◌, ◌+◌, ◌≤◌, ◌↔◌, ℕ, ◌∷◌, [], map, drop, IfOk, IfErr, OnOk, OnErr, IsErrOf};
ghost use Rattle.std.specs.Prelude.{Some, None};
ghost use Rattle.site.specs.declared.outside.Stop.{Stop};
ghost use Rattle.checkpoint.specs.Actives.{Ascend};
ghost use Rattle.analysis.specs.Open.{found_in, AscendFrom, Changes, owed_for, begun};
ghost use Rattle.analysis.specs.Table.{open_of, listed, Becomes, Closes};

use checkpoint::Pairs;
use site::Stop;
use std::alloc::Global;
use std::collections::BTreeMap;

/// An active transaction: the LSNs of its last record, and of those of its Updates that no CLR compensates, the
/// greatest last.
#[derive(Drop)]
pub struct Transaction {
    pub last: u64,
    pub updates: Vec<u64>,
}

impl Transaction {
    // It has one more Update.
    fn update(&mut self, lsn: u64) -> Result<(), Stop>
        ensures ok { (txn : ℕ) → OnOk result (open_of (txn, self.new)
            ≡ record (open_of (txn, self.old)) { last = lsn; updates = lsn ∷ (open_of (txn, self.old)).updates }) }
        ensures err { (txn : ℕ) → OnErr result (open_of (txn, self.new) ≡ open_of (txn, self.old)) }
        ensures stops { IfErr result (λ stop. stop ≡ Stop.Memory) }
    {
        let Ok(()) = self.updates.push(lsn) else {
            return Err(Stop::Memory);
        };
        self.last = lsn;
        Ok(())
    }

    // Its greatest Update is compensated.
    fn compensate(&mut self, lsn: u64)
        ensures { (txn : ℕ) → open_of (txn, self.new) ≡ record (open_of (txn, self.old)) {
          last = lsn;
          updates = drop 1 (open_of (txn, self.old)).updates;
        } }
    {
        self.updates.pop();
        self.last = lsn;
    }
}

/// The active transactions, by the LSNs of their Begins.
#[derive(Drop)]
pub struct Table {
    pub transactions: BTreeMap<u64, Transaction>,
}

impl Table {
    /// The transactions that a master names. Of their Updates nothing is known yet.
    pub fn start(alloc: Global, named: &Pairs) -> Result<Table, Stop>
        requires { Ascend named.now }
        ensures named { IfOk result (λ table. listed table
            ≡ map (λ pair. record { txn = pair.begin; last = pair.last; updates = [] }) named.now) }
        ensures stops { IfErr result (λ stop. stop ≡ Stop.Memory) }
    {
        let mut transactions = BTreeMap::new(alloc);
        for place in 0..named.len() {
            let (txn, last) = named.at(place);
            let first = Transaction {
                last,
                updates: Vec::new(alloc),
            };
            let Ok(_) = transactions.insert(txn, first) else {
                return Err(Stop::Memory);
            };
        }
        Ok(Table { transactions })
    }

    /// A transaction begins, where it isn't active yet.
    pub fn begin(&mut self, alloc: Global, lsn: u64) -> Result<(), Stop>
        ensures begun { OnOk result (Changes (listed self.old) (listed self.new) lsn
            (Some (begun lsn (found_in (listed self.old) lsn)))) }
        ensures owed { owed_for (listed self.new) ≤ owed_for (listed self.old) + 1 }
        ensures err { OnErr result (listed self.new ≡ listed self.old) }
        ensures stops { IfErr result (λ stop. stop ≡ Stop.Memory) }
    {
        if let Some(transaction) = self.transactions.get_mut(&lsn) {
            transaction.last = lsn;
            return Ok(());
        }
        let first = Transaction {
            last: lsn,
            updates: Vec::new(alloc),
        };
        let Ok(_) = self.transactions.insert(lsn, first) else {
            return Err(Stop::Memory);
        };
        Ok(())
    }

    /// A transaction has one more Update. One that isn't active is Foreign.
    pub fn update(&mut self, txn: u64, lsn: u64) -> Result<(), Stop>
        requires { AscendFrom 0 (listed self.old) }
        ensures becomes { OnOk result (Becomes (listed self.old) (listed self.new) txn
            (λ x. record x { last = lsn; updates = lsn ∷ x.updates })) }
        ensures err { OnErr result (listed self.new ≡ listed self.old) }
        ensures absent { IsErrOf result Stop.Foreign ↔ (found_in (listed self.old) txn ≡ None) }
        ensures stops { IfErr result (λ stop. (stop ≡ Stop.Memory) ⊎ (stop ≡ Stop.Foreign)) }
    {
        let Some(transaction) = self.transactions.get_mut(&txn) else {
            return Err(Stop::Foreign);
        };
        transaction.update(lsn)
    }

    /// The greatest Update of a transaction is compensated. One that isn't active is Foreign.
    pub fn compensate(&mut self, txn: u64, lsn: u64) -> Result<(), Stop>
        requires { AscendFrom 0 (listed self.old) }
        ensures becomes { OnOk result (Becomes (listed self.old) (listed self.new) txn
            (λ x. record x { last = lsn; updates = drop 1 x.updates })) }
        ensures err { OnErr result (listed self.new ≡ listed self.old) }
        ensures absent { IsErrOf result Stop.Foreign ↔ (found_in (listed self.old) txn ≡ None) }
        ensures stops { IfErr result (λ stop. stop ≡ Stop.Foreign) }
    {
        let Some(transaction) = self.transactions.get_mut(&txn) else {
            return Err(Stop::Foreign);
        };
        transaction.compensate(lsn);
        Ok(())
    }

    /// A transaction isn't active any more. One that wasn't is Foreign.
    pub fn close(&mut self, txn: u64) -> Result<(), Stop>
        requires { AscendFrom 0 (listed self.old) }
        ensures closes { OnOk result (Closes (listed self.old) (listed self.new) txn) }
        ensures err { OnErr result (listed self.new ≡ listed self.old) }
        ensures absent { IsErrOf result Stop.Foreign ↔ (found_in (listed self.old) txn ≡ None) }
        ensures stops { IfErr result (λ stop. stop ≡ Stop.Foreign) }
    {
        let Some(_) = self.transactions.remove(&txn) else {
            return Err(Stop::Foreign);
        };
        Ok(())
    }
}
