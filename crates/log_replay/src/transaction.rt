// One open transaction, record by record.
ghost use Rattle.std.specs.Prelude.{◌≡◌, ◌+◌, ◌*◌, ◌<◌, ◌==◌, ◌↔◌, ℕ, [], ◌∷◌, drop, IsTrue, IfOk, OnOk};
ghost use Rattle.std.specs.Prelude.{nat_eq, Some, if◌then◌else◌};
ghost use Rattle.indexmap.specs.IndexMap.{get};
ghost use Rattle.log_replay.specs.Opened.{begun, compensated, has_written, written};

use crate::kept::{Kept, copy_of, is_same};
use crate::net::Net;
use indexmap::IndexMap;
use record_model::Octets;
use std::alloc::{AllocError, Global};
use std::collections::BTreeMap;
use std::marker::Model;

/// An Update that no CLR has compensated: the LSN of its transaction's record before it, the number that it is on, and
/// what stood there.
#[derive(Drop)]
pub struct Stood {
    prev: u64,
    number: u32,
    before: Option<Kept>,
}

impl Model for Stood {
    ghost use Rattle.std.specs.Prelude.{◌/◌, ◌%◌};
    ghost use Rattle.log_archive.specs.Accepted.{Standing};

    ghost Value = { Standing };

    ghost view = { λ u. record { prev = u.prev; page = u.number / 32; slot = u.number % 32; before = u.before } };
}

impl Stood {
    /// An Update on a record of a page.
    pub fn of(
        alloc: Global,
        prev: u64,
        number: u32,
        before: &Option<Octets>,
    ) -> Result<Stood, AllocError>
        ensures { (page slot : ℕ) → slot < 32 → number ≡ 32 * page + slot
            → IfOk result (λ stood. stood ≡ record { prev = prev; page = page; slot = slot; before = before.now }) }
    {
        let before = copy_of(alloc, before)?;
        Ok(Stood {
            prev,
            number,
            before,
        })
    }

    // Its number, where a CLR says that undo goes on at `undo_next` and puts this back on a record of a page.
    fn compensated(
        &self,
        undo_next: u64,
        page: u32,
        slot: u8,
        after: &Option<Octets>,
    ) -> Option<u32>
        ensures { result ≡ compensated undo_next page slot after.now (self.now ∷ []) }
    {
        if undo_next != self.prev {
            return None;
        }
        if page != self.number / 32 {
            return None;
        }
        if u32::from(slot) != self.number % 32 {
            return None;
        }
        if !is_same(after, &self.before) {
            return None;
        }
        Some(self.number)
    }
}

/// A transaction that has begun and isn't closed: the LSNs of its Begin and of its last record, its Updates that no CLR
/// has compensated, the last one last, and what it has left last on each record.
#[derive(Drop)]
pub struct Transaction {
    begin: u64,
    last: u64,
    standing: Vec<Stood>,
    net: BTreeMap<u32, Option<Kept>>,
}

impl Model for Transaction {
    ghost use Rattle.std.specs.Prelude.{reverse};
    ghost use Rattle.log_archive.specs.Accepted.{Unclosed};

    ghost Value = { Unclosed };

    ghost view = { λ t. record {
      begin = t.begin;
      last = t.last;
      standing = reverse t.standing.items;
      net = t.net.entries;
    } };
}

impl Transaction {
    /// One that has begun.
    pub fn begun(alloc: Global, lsn: u64) -> Transaction
        ensures { result ≡ begun lsn }
    {
        Transaction {
            begin: lsn,
            last: lsn,
            standing: Vec::new(alloc),
            net: BTreeMap::new(alloc),
        }
    }

    /// The LSN of its Begin.
    pub fn begin(&self) -> u64
        ensures { result ≡ self.now.begin }
    {
        self.begin
    }

    /// Whether its last record has this LSN.
    pub fn is_at(&self, lsn: u64) -> bool
        ensures { result ≡ (lsn == self.now.last) }
    {
        lsn == self.last
    }

    /// Whether no Update stands.
    pub fn is_undone(&self) -> bool
        ensures { IsTrue result ↔ (self.now.standing ≡ []) }
    {
        self.standing.is_empty()
    }

    /// Takes an Update, whose number this is.
    pub fn update(
        &mut self,
        lsn: u64,
        stood: Stood,
        number: u32,
        after: Option<Kept>,
    ) -> Result<(), AllocError>
        ensures { OnOk result (self.new ≡ written lsn (number, after) (stood ∷ self.old.standing) self.old) }
    {
        self.last = lsn;
        self.standing.push(stood)?;
        self.net.insert(number, after)?;
        Ok(())
    }

    /// The number of its last Update that stands, where a CLR says that undo goes on at `undo_next` and puts this back
    /// on a record of a page.
    pub fn compensated(
        &self,
        undo_next: u64,
        page: u32,
        slot: u8,
        after: &Option<Octets>,
    ) -> Option<u32>
        ensures { result ≡ compensated undo_next page slot after.now self.now.standing }
    {
        let stood = self.standing.last()?;
        stood.compensated(undo_next, page, slot, after)
    }

    /// Takes a CLR of its last Update that stands.
    pub fn undo(&mut self, lsn: u64, number: u32, after: Option<Kept>) -> Result<(), AllocError>
        ensures { OnOk result (self.new ≡ written lsn (number, after) (drop 1 self.old.standing) self.old) }
    {
        self.last = lsn;
        self.standing.pop();
        self.net.insert(number, after)?;
        Ok(())
    }

    /// Says of each record on which it has left something that it is the writer.
    pub fn claim(&self, writers: &mut IndexMap<u32, u64>) -> Result<(), AllocError>
        ensures { OnOk result ((n : ℕ) → get nat_eq writers.new n
            ≡ (if has_written n self.now then Some self.now.begin else get nat_eq writers.old n)) }
    {
        for number in self.net.keys() {
            writers.insert(*number, self.begin)?;
        }
        Ok(())
    }

    /// What it leaves in the table.
    pub fn into_net(self, alloc: Global) -> Result<Net, AllocError>
        ensures { IfOk result (λ net. net ≡ self.net) }
    {
        let mut writes = Vec::with_capacity(alloc, self.net.len())?;
        for (number, content) in self.net {
            writes.push((number, content))?;
        }
        Ok(Net { writes })
    }
}
