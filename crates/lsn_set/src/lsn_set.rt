// A set of LSNs.
ghost use Rattle.std.specs.Prelude.{◌≡◌, ◌==◌, ℕ, true, false, if◌then◌else◌, OnOk, OnErr};
ghost use Rattle.lsn_set.specs.Held.{has};

use crate::row::{LSNS, Row};
use indexmap::IndexMap;
use std::alloc::{AllocError, Global};

/// A set of LSNs, in rows. A row of which none is held isn't kept.
#[derive(Drop)]
pub struct LsnSet {
    rows: IndexMap<u64, Row>,
}

impl LsnSet {
    /// The empty set.
    pub fn new(alloc: Global) -> LsnSet
        ensures { (n : ℕ) → has result n ≡ false }
    {
        LsnSet {
            rows: IndexMap::new(alloc),
        }
    }

    /// Whether an LSN is held.
    pub fn contains(&self, lsn: u64) -> bool
        ensures { result ≡ has self.now lsn }
    {
        match self.rows.get(&(lsn / LSNS)) {
            Some(row) => row.held[(lsn % LSNS) as usize],
            None => false,
        }
    }

    /// Takes an LSN into the set. Where memory is wanting nothing changes.
    pub fn insert(&mut self, lsn: u64) -> Result<(), AllocError>
        ensures held { OnOk result ((n : ℕ) → has self.new n ≡ (if lsn == n then true else has self.old n)) }
        ensures err { OnErr result ((n : ℕ) → has self.new n ≡ has self.old n) }
    {
        if let Some(row) = self.rows.get_mut(&(lsn / LSNS)) {
            let with = row.with((lsn % LSNS) as usize, true);
            *row = with;
            return Ok(());
        }
        let Ok(_) = self.rows.insert(lsn / LSNS, Row::of((lsn % LSNS) as usize)) else {
            return Err(AllocError);
        };
        Ok(())
    }

    /// Takes an LSN out of the set, if it is held.
    pub fn remove(&mut self, lsn: u64)
        ensures { (n : ℕ) → has self.new n ≡ (if lsn == n then false else has self.old n) }
    {
        let Some(row) = self.rows.get_mut(&(lsn / LSNS)) else {
            return;
        };
        let with = row.with((lsn % LSNS) as usize, false);
        *row = with;
        if with.is_empty() {
            self.rows.swap_remove(&(lsn / LSNS));
        }
    }
}
