// How the table of active sessions changes, and with it what they owe the log.
ghost use Rattle.std.specs.Prelude.{◌≡◌, ◌+◌, ◌^◌, ◌<◌, ◌≤◌, ℕ, map, All, Some, None, option_map};
ghost use Rattle.txn_table.specs.Entries.{IsTable, entry_of, ChangesOnly, after_write, after_mark, after_undone};
ghost use Rattle.txn_table.specs.Entries.{counted_from, owed};
ghost use Rattle.txn_table.specs.declared.active.Active.{Active};
ghost use Rattle.checkpoint.specs.Actives.{Ascend};

use checkpoint::Pairs;
use txn_table::{Active, TxnTable};

/// A session begins: it owes the record that ends it.
pub fn add(active: &mut TxnTable, entry: Active)
    requires session { entry.session < 8 }
    requires absent { entry_of active.old entry.session ≡ None }
    requires writes { entry.writes ≤ 2 ^ 32 }
    requires mark { entry.mark ≤ entry.writes }
    ensures entry { ChangesOnly active.old active.new entry.session (Some entry) }
    ensures owed { owed active.new ≡ owed active.old + (entry.writes + 1) }
    ensures table { IsTable active.new }
{
    let _before = active.len();
    active.add(entry);
    let _after = active.len();
}

/// A session has made one more write: it owes one more record.
pub fn wrote(active: &mut TxnTable, entry: Active, lsn: u64)
    requires active { entry_of active.old entry.session ≡ Some entry }
    requires room { entry.writes < 2 ^ 32 }
    ensures entry { ChangesOnly active.old active.new entry.session (Some (after_write entry lsn)) }
    ensures owed { owed active.new ≡ owed active.old + 1 }
    ensures table { IsTable active.new }
{
    let _before = active.len();
    active.wrote(entry.session, lsn);
    let _after = active.len();
}

/// A session sets its mark behind its writes that stand.
pub fn mark(active: &mut TxnTable, entry: Active)
    requires active { entry_of active.old entry.session ≡ Some entry }
    ensures entry { ChangesOnly active.old active.new entry.session (Some (after_mark entry)) }
    ensures owed { owed active.new ≡ owed active.old }
    ensures table { IsTable active.new }
{
    let _before = active.len();
    active.mark(entry.session);
    let _after = active.len();
}

/// So many of a session's writes, the last ones, were undone: it owes so many fewer records.
pub fn undone(active: &mut TxnTable, entry: Active, count: u64, lsn: u64)
    requires active { entry_of active.old entry.session ≡ Some entry }
    requires count { count ≤ entry.writes }
    ensures entry { ChangesOnly active.old active.new entry.session (Some (after_undone entry count lsn)) }
    ensures owed { owed active.new + count ≡ owed active.old }
    ensures table { IsTable active.new }
{
    let _before = active.len();
    active.undone(entry.session, count, lsn);
    let _after = active.len();
}

/// A session ends, and owes nothing any more.
pub fn remove(active: &mut TxnTable, entry: Active)
    requires active { entry_of active.old entry.session ≡ Some entry }
    ensures entry { ChangesOnly active.old active.new entry.session None }
    ensures owed { owed active.new + (entry.writes + 1) ≡ owed active.old }
    ensures table { IsTable active.new }
{
    let _before = active.len();
    active.remove(entry.session);
    let _after = active.len();
}

/// The transactions of the active sessions, those that began first in front.
pub fn named(active: &TxnTable) -> Pairs
    requires differ { (n m : ℕ) (a b : Active) → entry_of active.now n ≡ Some a → entry_of active.now m ≡ Some b
        → a.begin ≡ b.begin → n ≡ m }
    ensures named { result ≡ map (λ entry. record { begin = entry.begin; last = entry.last }) active.now }
    ensures ascend { Ascend result }
{
    let mut named = Pairs::new();
    for place in 0..active.len() {
        let entry = active.at(place);
        named.push(entry.begin, entry.last);
    }
    named
}

/// Records are counted from a later one: so many fewer were made before each session began.
pub fn count_from(active: &mut TxnTable, first: u64)
    requires born { All (λ entry. first ≤ entry.born) active.old }
    ensures entries { (n : ℕ) → entry_of active.new n ≡ option_map (counted_from first) (entry_of active.old n) }
    ensures owed { owed active.new ≡ owed active.old }
    ensures table { IsTable active.new }
{
    active.count_from(first);
    let _after = active.len();
}
