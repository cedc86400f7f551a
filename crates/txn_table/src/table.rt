ghost use Rattle.std.specs.Prelude.{◌≡◌, ◌+◌, ◌^◌, ◌<◌, ◌≤◌, ◌==◌, [], Some, None, length, map, slice_get, All};
ghost use Rattle.std.specs.Prelude.{AllPairs, IsSome, IsNone, option_map};
ghost use Rattle.std.specs.List.{position_or_len};
ghost use Rattle.std.specs.Option.{ForSome};
ghost use Rattle.txn_table.specs.Entries.{IsTable, entry_of, ChangesOnly, after_write, after_mark, after_undone};
ghost use Rattle.txn_table.specs.Entries.{counted_from, owed, IsLeast};

use crate::active::Active;
use arrayvec::ArrayVec;
use std::marker::Model;

/// The active sessions, at most eight, those that began first in front. It never allocates.
#[derive(Drop)]
pub struct TxnTable {
    entries: ArrayVec<Active, 8>,
}

impl Model for TxnTable {
    ghost use Rattle.std.specs.Prelude.{List};
    ghost use Rattle.txn_table.specs.declared.active.Active.{Active};
    ghost use Rattle.txn_table.specs.Entries.{IsTable};

    ghost Value = { List Active };

    ghost view = { λ t. t.entries.items };

    ghost invariant = { λ t. IsTable t.entries.items };
}

impl TxnTable {
    /// A table without active sessions.
    pub fn new() -> TxnTable
        ensures { result ≡ [] }
    {
        TxnTable {
            entries: ArrayVec::new(),
        }
    }

    /// The entry of a session, where it is active.
    pub fn find(&self, session: u32) -> Option<Active>
        ensures entry { result ≡ entry_of self.now session }
        ensures table { IsTable self.now }
    {
        self.entries
            .iter()
            .find(|entry| entry.session == session)
            .copied()
    }

    /// How many sessions are active.
    pub fn len(&self) -> usize
        ensures len { result ≡ length self.now }
        ensures few { result ≤ 8 }
        ensures table { IsTable self.now }
    {
        self.entries.len()
    }

    /// Whether no session is active.
    pub fn is_empty(&self) -> bool
        ensures { result ≡ (length self.now == 0) }
    {
        self.entries.is_empty()
    }

    /// The active session at a place, counted from 0, in the order in which they began.
    pub fn at(&self, place: usize) -> Active
        requires { place < length self.now }
        ensures entry { slice_get self.now place ≡ Some result }
        ensures ascending { AllPairs (λ a b. a.begin ≤ b.begin) self.now }
    {
        self.entries[place]
    }

    /// A session becomes active.
    pub fn add(&mut self, entry: Active)
        requires session { entry.session < 8 }
        requires absent { IsNone (entry_of self.old entry.session) }
        requires writes { entry.writes ≤ 2 ^ 32 }
        requires mark { entry.mark ≤ entry.writes }
        ensures entry { ChangesOnly self.old self.new entry.session (Some entry) }
        ensures len { length self.new ≡ length self.old + 1 }
    {
        let place = self
            .entries
            .iter()
            .position(|other| entry.begin < other.begin)
            .unwrap_or(self.entries.len());
        self.entries.insert(place, entry);
    }

    /// A session has made one more write, whose log record is at this LSN.
    pub fn wrote(&mut self, session: u32, last: u64)
        requires active { IsSome (entry_of self.old session) }
        requires room { ForSome (entry_of self.old session) (λ entry. entry.writes < 2 ^ 32) }
        ensures entry { ChangesOnly self.old self.new session
            (option_map (λ entry. after_write entry last) (entry_of self.old session)) }
        ensures len { length self.new ≡ length self.old }
    {
        let place = place_of(&self.entries, session);
        let entry = &mut self.entries[place];
        entry.writes += 1;
        entry.last = last;
    }

    /// A session sets its mark behind all its writes that stand.
    pub fn mark(&mut self, session: u32)
        requires active { IsSome (entry_of self.old session) }
        ensures entry { ChangesOnly self.old self.new session
            (option_map after_mark (entry_of self.old session)) }
        ensures len { length self.new ≡ length self.old }
    {
        let place = place_of(&self.entries, session);
        let entry = &mut self.entries[place];
        entry.mark = entry.writes;
    }

    /// So many of a session's writes, the last ones, were undone, and its last log record is at this LSN. Where its
    /// mark was above what is left of them, it falls to that.
    pub fn undone(&mut self, session: u32, count: u64, lsn: u64)
        requires active { IsSome (entry_of self.old session) }
        requires count { ForSome (entry_of self.old session) (λ entry. count ≤ entry.writes) }
        ensures entry { ChangesOnly self.old self.new session
            (option_map (λ entry. after_undone entry count lsn) (entry_of self.old session)) }
        ensures len { length self.new ≡ length self.old }
    {
        let place = place_of(&self.entries, session);
        let entry = &mut self.entries[place];
        entry.writes -= count;
        entry.mark = entry.mark.min(entry.writes);
        entry.last = lsn;
    }

    /// A session isn't active any more.
    pub fn remove(&mut self, session: u32)
        requires { IsSome (entry_of self.old session) }
        ensures entry { ChangesOnly self.old self.new session None }
        ensures len { length self.new + 1 ≡ length self.old }
    {
        let place = place_of(&self.entries, session);
        self.entries.remove(place);
    }

    /// Records are counted from a later one: so many fewer were made before each session began.
    pub fn count_from(&mut self, first: u64)
        requires born { All (λ entry. first ≤ entry.born) self.old }
        ensures entries { self.new ≡ map (counted_from first) self.old }
    {
        for place in 0..self.entries.len() {
            self.entries[place].born -= first;
        }
    }

    /// How many log records the active sessions may still make: if each of them is undone, one for each of its writes
    /// and one that ends it.
    pub fn owed(&self) -> u64
        ensures { result ≡ owed self.now }
    {
        let mut owed = 0;
        for entry in self.entries.as_slice() {
            owed += entry.writes + 1;
        }
        owed
    }

    /// The least `born` of the active sessions.
    pub fn oldest_born(&self) -> Option<u64>
        ensures { IsLeast (map (λ entry. entry.born) self.now) result }
    {
        self.entries.iter().map(|entry| entry.born).min()
    }

    /// The least begin LSN of the active sessions.
    pub fn oldest_begin(&self) -> Option<u64>
        ensures { IsLeast (map (λ entry. entry.begin) self.now) result }
    {
        let first = self.entries.first()?;
        Some(first.begin)
    }
}

/// The place of a session's entry, or the length where it has none.
fn place_of(entries: &[Active], session: u32) -> usize
    ensures place { result ≡ position_or_len (λ entry. entry.session == session) entries.now }
    ensures entry { slice_get entries.now result ≡ entry_of entries.now session }
{
    entries
        .iter()
        .position(|entry| entry.session == session)
        .unwrap_or(entries.len())
}
