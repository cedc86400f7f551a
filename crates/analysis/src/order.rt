// All Updates that remain of active transactions, in the order of their LSNs.
ghost use Rattle.std.specs.Prelude.{◌≡◌, ◌⊎◌, ◌↔◌, ◌<◌, ℕ, List, [], reverse, ◌||◌, ◌&&◌, ◌==◌, IfErr, IfSome, IfNone};
ghost use Rattle.std.specs.Prelude.{OnOk, IsErrOf, IsTrue, option_map, true, false};
ghost use Rattle.std.specs.BTreeMap.{get};
ghost use Rattle.std.specs.List.{AllByRecursion, list_any};
ghost use Rattle.std.specs.Ordering.{nat_cmp};
ghost use Rattle.site.specs.declared.outside.Stop.{Stop};
ghost use Rattle.log_records.specs.Log.{Entry, txn_of, is_closed, entries_of, last_where};
ghost use Rattle.log_records.specs.Unfinished.{pending};
ghost use Rattle.log_records.specs.Sound.{Active, IsInOrder, is_known};
ghost use Rattle.analysis.specs.Open.{Open, AscendFrom, Remains, HasLeft, DropsOne};
ghost use Rattle.analysis.specs.Order.{Descend, IsOrder, has_at};
ghost use Rattle.analysis.specs.Read.{IsTable};

use site::Stop;
use std::alloc::Global;
use std::collections::BTreeMap;

/// The Updates that remain to be undone: at each one's LSN its transaction.
#[derive(Drop)]
pub struct Order {
    updates: BTreeMap<u64, u64>,
}

// Whether an LSN is above the one before it, where there is one.
fn is_above(before: Option<u64>, lsn: u64) -> bool
    ensures { IsTrue result ↔ IfSome before (λ last. last < lsn) }
{
    match before {
        Some(last) => last < lsn,
        None => true,
    }
}

impl Order {
    /// None.
    pub(crate) fn new(alloc: Global) -> Order
        ensures { (t lsn : ℕ) → has_at result t lsn ≡ false }
    {
        Order {
            updates: BTreeMap::new(alloc),
        }
    }

    // One more Update, at an LSN at which none stands. Foreign where one does.
    fn add(&mut self, txn: u64, lsn: u64) -> Result<(), Stop>
        ensures added { OnOk result ((t n : ℕ) → has_at self.new t n
            ≡ (has_at self.old t n || ((txn == t) && (lsn == n)))) }
        ensures taken { IsErrOf result Stop.Foreign → (s : ℕ) × (has_at self.old s lsn ≡ true) }
        ensures stops { IfErr result (λ stop. (stop ≡ Stop.Memory) ⊎ (stop ≡ Stop.Foreign)) }
    {
        match self.updates.insert(lsn, txn) {
            Ok(None) => Ok(()),
            Ok(Some(_)) => Err(Stop::Foreign),
            Err(_) => Err(Stop::Memory),
        }
    }

    /// The Updates of one more transaction. Where they don't stand at rising LSNs, or one at an LSN that is taken, it
    /// answers Foreign.
    pub(crate) fn add_all(&mut self, txn: u64, updates: &[u64]) -> Result<(), Stop>
        ensures added { OnOk result ((t n : ℕ) → has_at self.new t n
            ≡ (has_at self.old t n || ((txn == t) && list_any (λ u. u == n) updates.now))) }
        ensures descend { OnOk result (Descend (reverse updates.now)) }
        ensures taken { IsErrOf result Stop.Foreign → Descend (reverse updates.now)
            → (s lsn : ℕ) × (has_at self.old s lsn ≡ true) × (list_any (λ u. u == lsn) updates.now ≡ true) }
        ensures stops { IfErr result (λ stop. (stop ≡ Stop.Memory) ⊎ (stop ≡ Stop.Foreign)) }
    {
        let mut before = None;
        for lsn in updates {
            if !is_above(before, *lsn) {
                return Err(Stop::Foreign);
            }
            match self.add(txn, *lsn) {
                Ok(()) => {}
                Err(stop) => return Err(stop),
            }
            before = Some(*lsn);
        }
        Ok(())
    }

    /// Takes the last Update out: answers its transaction and its LSN, or that there is none.
    pub fn take_last(&mut self) -> Option<(u64, u64)>
        ensures remains { (table : List Open) → IsOrder self.old table
            → IfSome result (λ last. Remains table last.0 last.1) }
        ensures left { (table : List Open) → IsOrder self.old table → IfSome result (λ last. HasLeft table last.0) }
        ensures none { (table : List Open) → AscendFrom 0 table → IsOrder self.old table
            → IfNone result (AllByRecursion (λ x. x.updates ≡ []) table) }
        ensures order { (table now : List Open) → IsOrder self.old table
            → IfSome result (λ last. DropsOne table now last.0 → IsOrder self.new now) }
        ensures of_table { (named : List Active) (records : List Entry) (table : List Open) (from to : ℕ)
            → IsOrder self.old table → IsTable named records table
            → ((t : ℕ) → (is_known named records t || is_closed records t) ≡ false → entries_of t records ≡ [])
            → IsInOrder from records to
            → result ≡ option_map (λ u. record { 0 = txn_of u; 1 = u.lsn }) (last_where (λ u. true) (pending records)) }
    {
        match self.updates.pop_last() {
            Some((lsn, txn)) => Some((txn, lsn)),
            None => None,
        }
    }
}
