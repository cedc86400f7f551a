// Log and pages of a run: the records that it logs, and the pages that they change.
ghost use Rattle.std.specs.Prelude.{take, drop, ◌-◌};
ghost use Rattle.std.specs.Prelude.{Option, map, reverse, ◌≡◌, ◌⊎◌, ◌+◌, ◌*◌, ◌/◌, ◌%◌, ◌^◌, ◌<◌, ◌≤◌, ◌↔◌, ◌++◌, []};
ghost use Rattle.std.specs.Prelude.{◌∷◌, List, length, IfOk, OnOk, IfErr, IsErrOf, IsTrue, ℕ};
ghost use Rattle.site.specs.declared.outside.Dev.{Dev};
ghost use Rattle.site.specs.declared.outside.Stop.{Stop};
ghost use Rattle.site.specs.State.{State};
ghost use Rattle.record_model.specs.State.{Content, Write};
ghost use Rattle.log_records.specs.declared.log_record.LogRecord.{LogRecord};
ghost use Rattle.log_records.specs.Log.{Entry, entries_of, updates_in};
ghost use Rattle.log_records.specs.Spelling.{IsShort};
ghost use Rattle.log_records.specs.Unfinished as unfinished;
ghost use Rattle.log_records.specs.Unfinished.{left_open};
ghost use Rattle.log_laws.specs.Follow.{IsActive};
ghost use Rattle.log_store.specs.Representation.{end_of};
ghost use Rattle.slotted_page.specs.Layout.{lsn_of};
ghost use Rattle.buffer_pool.specs.Frames.{front_of};
ghost use Rattle.page_store.specs.Representation.{IsStore};
ghost use Rattle.checkpoint.specs.declared.master.Master.{Master};
ghost use Rattle.image_meaning.specs.Meaning.{master_of};
ghost use Rattle.image_meaning.specs.Moments.{LeavesFor};
ghost use Rattle.redo_laws.specs.Holding.{blocks_to};
ghost use Rattle.redo_laws.specs.Running.{History};
ghost use Rattle.redo_laws.specs.Waiting.{LeavesSome};
ghost use Rattle.redo_undo.specs.Fitting.{FitsFront};
ghost use Rattle.redo_laws.specs.Holding as both;
ghost use Rattle.redo_undo.specs.Stores.{sizes_of, MayWork, MayLog, Holds, Represents, MayGrow, IsInFront, shown_in};
ghost use Rattle.redo_undo.specs.Stores.{update_by};
ghost use Rattle.redo_undo.specs.StoreRollback.{RollsBack, RollsBackOver, GoesBack, GoesBackOver};
ghost use Rattle.redo_undo.specs.StoreCalls.{KeepsInvariant, Keeps};
ghost use Rattle.redo_undo.specs.Mirroring.{PerformsStore, updates, undo_one_work, clrs_for};
ghost use Rattle.ring_machine.specs.Commands.{reads, begins};
ghost use Rattle.record_model.specs.Touches.{write_touch};
ghost use Rattle.redo_laws.specs.MachineSteps.{StepsMachine, one_touch};
ghost use Rattle.page_store.specs.Caching.{cache_of, rules, with_change};
ghost use Rattle.site.specs.Calls.{SameReads};
ghost use Rattle.page_store.specs.Caching.{next_group};
ghost use Rattle.page_store.specs.Staging.{Stages};

use crate::changing::slice_of;
use crate::logging::{log_change, log_record, touch};
use crate::undo::{undo_one, undo_to};
use log_records::LogRecord;
use log_store::LogStore;
use page_store::PageStore;
use record_model::Octets;
use sealed_ring::Ring;
use site::{Site, Stop};
use txn_table::Active;

/// The number of a page's slots.
const SLOTS: u32 = 32;

/// Log, pages and master units of a run, and how many of its records count: all that were made since those that a
/// checkpoint let go.
#[derive(Drop)]
pub struct TransactionStore {
    pub log: LogStore,
    pub pages: PageStore,
    pub masters: Ring,
    pub made: u64,
}

// The same value once more.
fn copy_of(content: &Option<Octets>) -> Option<Octets>
    ensures { result ≡ content.now }
{
    match content {
        None => None,
        Some(value) => match Octets::from_slice(value.as_slice()) {
            Some(copy) => Some(copy),
            None => unreachable!(),
        },
    }
}

impl TransactionStore {
    /// How many blocks the log has once its tail is sealed.
    pub fn blocks(&self) -> u64
        requires low { 2 ≤ self.now.log.used }
        requires bounded { self.now.log.ring.hi ≤ 2 ^ 40 }
        ensures { result ≡ blocks_to self.now.log }
    {
        let tail = if self.log.tail_empty() { 0 } else { 1 };
        self.log.sealed_end() / 512 + tail
    }

    /// Whether there is no such record.
    pub fn lacks(&self, number: u32) -> bool
        requires sizes { self.now.log.geometry ≡ sizes_of self.now }
        ensures { IsTrue result ↔ (32 * (sizes_of self.now).pages ≤ number) }
    {
        number / SLOTS >= self.log.geometry().pages
    }

    /// Logs the Begin of a transaction, and answers its LSN.
    pub fn begin<S: Site>(&mut self, site: &mut S) -> Result<u64, Stop>
        requires may { MayLog self.old (S.state site.old) }

        // Of an honest site whose log and pages hold these records.
        ensures holds { (newest : Option Master) (records : List Entry) (table : List Content) (commits : ℕ)
            → Represents self.old (S.state site.old) newest records table commits
            → IfOk result (λ lsn. MayGrow self.old (S.state site.old) newest records
            (record { lsn = lsn; rec = LogRecord.Begin })
            → Represents self.new (S.state site.new) newest
            (records ++ record { lsn = lsn; rec = LogRecord.Begin } ∷ []) table commits) }
        ensures keeps { (newest : Option Master) (records : List Entry) (table : List Content) (commits : ℕ)
            → Represents self.old (S.state site.old) newest records table commits
            → Keeps result self.old self.new (S.state site.old) (S.state site.new)
            (LeavesFor (sizes_of self.old) table commits (S.state site.old).told) 1 0 }

        // The same of any history, where commits wait for their seal.
        ensures holds_over { (newest : Option Master) (records : List Entry) (history : History)
            → Holds self.old (S.state site.old) newest records history
            → IfOk result (λ lsn. MayGrow self.old (S.state site.old) newest records
            (record { lsn = lsn; rec = LogRecord.Begin })
            → Holds self.new (S.state site.new) newest
            (records ++ record { lsn = lsn; rec = LogRecord.Begin } ∷ []) history) }
        ensures keeps_over { (newest : Option Master) (records : List Entry) (history : History)
            → Holds self.old (S.state site.old) newest records history
            → Keeps result self.old self.new (S.state site.old) (S.state site.new)
            (LeavesSome (sizes_of self.old) history (S.state site.old).told) 1 0 }
        ensures performs_over { (newest : Option Master) (records : List Entry) (history : History)
            → Holds self.old (S.state site.old) newest records history
            → PerformsStore result begins self.old self.new (S.state site.old) (S.state site.new) }

        // Of every site.
        ensures works { KeepsInvariant result self.old self.new (S.state site.old) (S.state site.new) 1 }
        ensures rises { IfOk result (λ lsn. (end_of self.old.log ≤ lsn) × (lsn < end_of self.new.log)) }
        ensures last_block { IfOk result (λ lsn. 512 * self.new.log.ring.hi ≤ lsn) }
        ensures reads { SameReads (S.state site.old) (S.state site.new) }
        ensures asks { StepsMachine result ([]) self.old.pages self.new.pages
            (S.state site.old) (S.state site.new) }
        ensures pages { self.new.pages ≡ self.old.pages }
        ensures performs { (newest : Option Master) (records : List Entry) (table : List Content) (commits : ℕ)
            → Represents self.old (S.state site.old) newest records table commits
            → PerformsStore result begins self.old self.new (S.state site.old) (S.state site.new) }
        ensures stops { IfErr result (λ stop. (stop ≡ Stop.Device Dev.Log) ⊎ (stop ≡ Stop.Worn Dev.Log)) }
    {
        match log_record(site, &mut self.log, &LogRecord::Begin) {
            Ok(lsn) => {
                self.made += 1;
                Ok(lsn)
            }
            Err(stop) => Err(stop),
        }
    }

    /// Brings the page of a record to the front of the pool.
    pub fn touch<S: Site>(&mut self, site: &mut S, number: u32) -> Result<(), Stop>
        requires going { MayWork self.old (S.state site.old) }
        requires exists { number < 32 * (sizes_of self.old).pages }

        // Of an honest site whose log and pages hold these records.
        ensures holds { (newest : Option Master) (records : List Entry) (table : List Content) (commits : ℕ)
            → Represents self.old (S.state site.old) newest records table commits
            → OnOk result (Represents self.new (S.state site.new) newest records table commits) }
        ensures keeps { (newest : Option Master) (records : List Entry) (table : List Content) (commits : ℕ)
            → Represents self.old (S.state site.old) newest records table commits
            → Keeps result self.old self.new (S.state site.old) (S.state site.new)
            (LeavesFor (sizes_of self.old) table commits (S.state site.old).told) 0 0 }

        // The same of any history, where commits wait for their seal.
        ensures holds_over { (newest : Option Master) (records : List Entry) (history : History)
            → Holds self.old (S.state site.old) newest records history
            → OnOk result (Holds self.new (S.state site.new) newest records history) }
        ensures keeps_over { (newest : Option Master) (records : List Entry) (history : History)
            → Holds self.old (S.state site.old) newest records history
            → Keeps result self.old self.new (S.state site.old) (S.state site.new)
            (LeavesSome (sizes_of self.old) history (S.state site.old).told) 0 0 }
        ensures performs_over { (newest : Option Master) (records : List Entry) (history : History)
            → Holds self.old (S.state site.old) newest records history
            → PerformsStore result (reads number) self.old self.new (S.state site.old) (S.state site.new) }

        // Of every site.
        ensures works { KeepsInvariant result self.old self.new (S.state site.old) (S.state site.new) 0 }
        ensures front { OnOk result (IsInFront self.new number) }
        ensures made { self.new.made ≡ self.old.made }
        ensures blocks { OnOk result (blocks_to self.new.log ≡ blocks_to self.old.log) }
        ensures log_reads { (S.state site.new).log_reads ≡ (S.state site.old).log_reads }
        ensures performs { (newest : Option Master) (records : List Entry) (table : List Content) (commits : ℕ)
            → Represents self.old (S.state site.old) newest records table commits
            → PerformsStore result (reads number) self.old self.new (S.state site.old) (S.state site.new) }
        ensures asks { StepsMachine result (one_touch (number / 32)) self.old.pages self.new.pages
            (S.state site.old) (S.state site.new) }
    {
        touch(site, &mut self.log, &mut self.pages, number / SLOTS)
    }

    /// What was written last to a record whose page is in front.
    pub fn shown(&self, number: u32) -> Option<Octets>
        requires pages { IsStore self.now.pages }
        requires front { IsInFront self.now number }
        ensures shown { (site : State) (newest : Option Master) (records : List Entry) (history : History)
            → Holds self.now site newest records history → result ≡ shown_in self.now site records number }
        ensures short { IsShort result }
    {
        match self.pages.get((number % SLOTS) as u8) {
            None => None,
            Some(value) => match Octets::from_slice(value) {
                Some(copy) => Some(copy),
                None => unreachable!(),
            },
        }
    }

    /// Whether a content has room in the page of a record, which is in front, beside what the other slots have.
    pub fn fits(&self, number: u32, after: &Option<Octets>) -> bool
        requires pages { IsStore self.now.pages }
        requires front { IsInFront self.now number }
        requires short { IsShort after.now }

        // Of an honest site whose log and pages hold these records: where an Update may follow, there or behind the
        // Begin of its transaction, it has room.
        ensures grows { (site : State) (newest : Option Master) (records : List Entry)
            (history : History) (txn prev lsn : ℕ)
            → Holds self.now site newest records history
            → MayGrow self.now site newest records
            (record {
              lsn = lsn;
              rec = update_by txn prev number (shown_in self.now site records number) after.now;
            })
            → IsTrue result }
        ensures begins { (site : State) (newest : Option Master) (records : List Entry)
            (history : History) (txn lsn : ℕ)
            → Holds self.now site newest records history
            → MayGrow self.now site newest (records ++ record { lsn = txn; rec = LogRecord.Begin } ∷ [])
            (record {
              lsn = lsn;
              rec = update_by txn txn number
                  (shown_in self.now site (records ++ record { lsn = txn; rec = LogRecord.Begin } ∷ []) number)
                  after.now;
            })
            → IsTrue result }

        // Of every site.
        ensures room { IsTrue result ↔ FitsFront self.now.pages (number % 32) after.now }
    {
        self.pages.fits((number % SLOTS) as u8, slice_of(after))
    }

    /// Logs an Update of a record whose page is in front and has room for it, and changes the page by it. Answers the
    /// Update's LSN. Where the page has an LSN from the log's end on it answers Foreign.
    pub fn update<S: Site>(
        &mut self,
        site: &mut S,
        txn: u64,
        prev: u64,
        number: u32,
        after: &Option<Octets>,
    ) -> Result<u64, Stop>
        requires may { MayLog self.old (S.state site.old) }
        requires front { IsInFront self.old number }
        requires short { IsShort after.now }
        requires room { FitsFront self.old.pages (number % 32) after.now }

        // Of an honest site whose log and pages hold these records.
        ensures holds { (newest : Option Master) (records : List Entry) (table : List Content) (commits : ℕ)
            → Represents self.old (S.state site.old) newest records table commits
            → IfOk result (λ lsn. MayGrow self.old (S.state site.old) newest records
            (record {
              lsn = lsn;
              rec = update_by txn prev number (shown_in self.old (S.state site.old) records number)
                  after.now;
            })
            → Represents self.new (S.state site.new) newest (records
            ++ record {
              lsn = lsn;
              rec = update_by txn prev number (shown_in self.old (S.state site.old) records number)
                  after.now;
            } ∷ [])
            table commits) }
        ensures keeps { (newest : Option Master) (records : List Entry) (table : List Content) (commits : ℕ)
            → Represents self.old (S.state site.old) newest records table commits
            → Keeps result self.old self.new (S.state site.old) (S.state site.new)
            (LeavesFor (sizes_of self.old) table commits (S.state site.old).told) 1 0 }

        // The same of any history, where commits wait for their seal.
        ensures holds_over { (newest : Option Master) (records : List Entry) (history : History)
            → Holds self.old (S.state site.old) newest records history
            → IfOk result (λ lsn. MayGrow self.old (S.state site.old) newest records
            (record {
              lsn = lsn;
              rec = update_by txn prev number (shown_in self.old (S.state site.old) records number)
                  after.now;
            })
            → Holds self.new (S.state site.new) newest (records
            ++ record {
              lsn = lsn;
              rec = update_by txn prev number (shown_in self.old (S.state site.old) records number)
                  after.now;
            } ∷ [])
            history) }
        ensures keeps_over { (newest : Option Master) (records : List Entry) (history : History)
            → Holds self.old (S.state site.old) newest records history
            → Keeps result self.old self.new (S.state site.old) (S.state site.new)
            (LeavesSome (sizes_of self.old) history (S.state site.old).told) 1 0 }
        ensures performs_over { (newest : Option Master) (records : List Entry) (history : History)
            → Holds self.old (S.state site.old) newest records history
            → PerformsStore result (updates number (shown_in self.old (S.state site.old) records number) after.now)
            self.old self.new (S.state site.old) (S.state site.new) }

        // Of every site.
        ensures works { KeepsInvariant result self.old self.new (S.state site.old) (S.state site.new) 1 }
        ensures rises { IfOk result (λ lsn. (end_of self.old.log ≤ lsn) × (lsn < end_of self.new.log)) }
        ensures machine { OnOk result (cache_of self.new.pages ≡ with_change (cache_of self.old.pages)) }
        ensures rules_stay { rules self.new.pages ≡ rules self.old.pages }
        ensures performs { (newest : Option Master) (records : List Entry) (table : List Content) (commits : ℕ)
            → Represents self.old (S.state site.old) newest records table commits
            → PerformsStore result (updates number (shown_in self.old (S.state site.old) records number) after.now)
            self.old self.new (S.state site.old) (S.state site.new) }
        ensures reads { SameReads (S.state site.old) (S.state site.new) }
        ensures stages { Stages result [] (next_group (cache_of self.old.pages)) self.old.pages self.new.pages
            (S.state site.old) (S.state site.new) }
        ensures stops { IfErr result (λ stop. (stop ≡ Stop.Device Dev.Log)
            ⊎ ((stop ≡ Stop.Worn Dev.Log) ⊎ (stop ≡ Stop.Foreign))) }
        ensures foreign { IsErrOf result Stop.Foreign
            → end_of self.old.log ≤ lsn_of (front_of self.old.pages.pool.frames).content }
    {
        let update = LogRecord::Update {
            txn,
            prev,
            page: number / SLOTS,
            slot: (number % SLOTS) as u8,
            before: self.shown(number),
            after: copy_of(after),
        };
        match log_change(site, &mut self.log, &mut self.pages, &update) {
            Ok(lsn) => {
                self.made += 1;
                Ok(lsn)
            }
            Err(stop) => Err(stop),
        }
    }

    /// Undoes a session's transaction: a compensation record for each of its writes, the last one first, and its End.
    /// Where the log has other records of it than the session has made, they may leave too little room, and it answers
    /// Foreign.
    pub fn roll_back<S: Site>(&mut self, site: &mut S, entry: Active, owed: u64) -> Result<(), Stop>
        requires going { MayWork self.old (S.state site.old) }
        requires last { entry.last < end_of self.old.log }
        requires few { self.old.made + (entry.writes + 1) ≤ 2 ^ 40 }
        requires little { owed ≤ 2 ^ 40 }

        // Of an honest site whose log and pages hold these records.
        ensures undone { (newest : Option Master) (records : List Entry) (table : List Content) (commits : ℕ)
            → Represents self.old (S.state site.old) newest records table commits
            → (writes : List Write) → IsActive (master_of newest) records entry.begin entry.last writes
            → length writes ≡ entry.writes
            → OnOk result (RollsBack self.new (S.state site.new) newest records table commits entry.begin
            entry.writes) }
        ensures keeps { (newest : Option Master) (records : List Entry) (table : List Content) (commits : ℕ)
            → Represents self.old (S.state site.old) newest records table commits
            → (writes : List Write) → IsActive (master_of newest) records entry.begin entry.last writes
            → length writes ≡ entry.writes → unfinished.owed records ≡ owed + (entry.writes + 1)
            → Keeps result self.old self.new (S.state site.old) (S.state site.new)
            (LeavesFor (sizes_of self.old) table commits (S.state site.old).told) (entry.writes + 1) 0 }
        ensures asks { (newest : Option Master) (records : List Entry) (table : List Content) (commits : ℕ)
            → Represents self.old (S.state site.old) newest records table commits
            → (writes : List Write) → IsActive (master_of newest) records entry.begin entry.last writes
            → StepsMachine result (map (λ write. write_touch write.0) (reverse writes)) self.old.pages self.new.pages
            (S.state site.old) (S.state site.new) }
        ensures log_reads { (newest : Option Master) (records : List Entry) (table : List Content) (commits : ℕ)
            → Represents self.old (S.state site.old) newest records table commits
            → (writes : List Write) → IsActive (master_of newest) records entry.begin entry.last writes
            → (S.state site.new).log_reads
            ≤ (S.state site.old).log_reads + length (updates_in (entries_of entry.begin records)) }
        ensures performs { (newest : Option Master) (records : List Entry) (table : List Content) (commits : ℕ)
            → Represents self.old (S.state site.old) newest records table commits
            → (writes : List Write) → IsActive (master_of newest) records entry.begin entry.last writes
            → PerformsStore result (undo_one_work records entry.begin) self.old self.new (S.state site.old)
            (S.state site.new) }

        // The same of any history, where commits wait for their seal.
        ensures undone_over { (newest : Option Master) (records : List Entry) (history : History)
            → Holds self.old (S.state site.old) newest records history
            → (writes : List Write) → IsActive (master_of newest) records entry.begin entry.last writes
            → length writes ≡ entry.writes
            → OnOk result (RollsBackOver self.new (S.state site.new) newest records history entry.begin
            entry.writes) }
        ensures keeps_over { (newest : Option Master) (records : List Entry) (history : History)
            → Holds self.old (S.state site.old) newest records history
            → (writes : List Write) → IsActive (master_of newest) records entry.begin entry.last writes
            → length writes ≡ entry.writes → unfinished.owed records ≡ owed + (entry.writes + 1)
            → Keeps result self.old self.new (S.state site.old) (S.state site.new)
            (LeavesSome (sizes_of self.old) history (S.state site.old).told) (entry.writes + 1) 0 }
        ensures asks_over { (newest : Option Master) (records : List Entry) (history : History)
            → Holds self.old (S.state site.old) newest records history
            → (writes : List Write) → IsActive (master_of newest) records entry.begin entry.last writes
            → StepsMachine result (map (λ write. write_touch write.0) (reverse writes)) self.old.pages self.new.pages
            (S.state site.old) (S.state site.new) }
        ensures log_reads_over { (newest : Option Master) (records : List Entry) (history : History)
            → Holds self.old (S.state site.old) newest records history
            → (writes : List Write) → IsActive (master_of newest) records entry.begin entry.last writes
            → (S.state site.new).log_reads
            ≤ (S.state site.old).log_reads + length (updates_in (entries_of entry.begin records)) }
        ensures performs_over { (newest : Option Master) (records : List Entry) (history : History)
            → Holds self.old (S.state site.old) newest records history
            → (writes : List Write) → IsActive (master_of newest) records entry.begin entry.last writes
            → PerformsStore result (undo_one_work records entry.begin) self.old self.new (S.state site.old)
            (S.state site.new) }

        // Of every site.
        ensures works { KeepsInvariant result self.old self.new (S.state site.old) (S.state site.new)
            (entry.writes + 1) }
        ensures room { OnOk result (blocks_to self.new.log + owed < self.new.log.kept + (sizes_of self.new).blocks) }
    {
        let before = self.blocks();
        match undo_one(
            site,
            &mut self.log,
            &mut self.pages,
            entry.begin,
            entry.last,
        ) {
            Ok(_) => {}
            Err(stop) => return Err(stop),
        }
        self.made += entry.writes + 1;
        let blocks = self.blocks();
        if blocks > before + entry.writes + 1 {
            return Err(Stop::Foreign);
        }
        if blocks + owed >= self.log.kept() + self.log.geometry().blocks as u64 {
            return Err(Stop::Foreign);
        }
        Ok(())
    }

    /// Undoes the last writes of a session's transaction that stand, so many: a compensation record for each, the last
    /// one first. Answers the LSN of the transaction's last record. Where the log has other records of it than the
    /// session has made it answers Foreign.
    pub fn back<S: Site>(&mut self, site: &mut S, entry: Active, count: u64) -> Result<u64, Stop>
        requires going { MayWork self.old (S.state site.old) }
        requires last { entry.last < end_of self.old.log }
        requires few { self.old.made + count ≤ 2 ^ 40 }

        // Of an honest site whose log and pages hold these records, and of a transaction of which so many writes stand.
        ensures undone { (newest : Option Master) (records : List Entry) (table : List Content) (commits : ℕ)
            → Represents self.old (S.state site.old) newest records table commits
            → (writes : List Write) → IsActive (master_of newest) records entry.begin entry.last writes
            → count ≤ length writes
            → IfOk result (GoesBack self.new (S.state site.new) newest records table commits entry.begin count
            writes) }
        ensures keeps { (newest : Option Master) (records : List Entry) (table : List Content) (commits : ℕ)
            → Represents self.old (S.state site.old) newest records table commits
            → (writes : List Write) → IsActive (master_of newest) records entry.begin entry.last writes
            → count ≤ length writes
            → Keeps result self.old self.new (S.state site.old) (S.state site.new)
            (LeavesFor (sizes_of self.old) table commits (S.state site.old).told) count 0 }
        ensures asks { (newest : Option Master) (records : List Entry) (table : List Content) (commits : ℕ)
            → Represents self.old (S.state site.old) newest records table commits
            → (writes : List Write) → IsActive (master_of newest) records entry.begin entry.last writes
            → count ≤ length writes
            → StepsMachine result (map (λ write. write_touch write.0) (reverse (drop (length writes - count) writes)))
            self.old.pages self.new.pages (S.state site.old) (S.state site.new) }
        ensures log_reads { (newest : Option Master) (records : List Entry) (table : List Content) (commits : ℕ)
            → Represents self.old (S.state site.old) newest records table commits
            → (writes : List Write) → IsActive (master_of newest) records entry.begin entry.last writes
            → count ≤ length writes
            → (S.state site.new).log_reads
            ≤ (S.state site.old).log_reads
            + (count + (length (updates_in (entries_of entry.begin records)) - length writes)) }
        ensures performs { (newest : Option Master) (records : List Entry) (table : List Content) (commits : ℕ)
            → Represents self.old (S.state site.old) newest records table commits
            → (writes : List Write) → IsActive (master_of newest) records entry.begin entry.last writes
            → count ≤ length writes
            → PerformsStore result (clrs_for (take count (left_open records entry.begin))) self.old self.new
            (S.state site.old) (S.state site.new) }

        // The same of any history, where commits wait for their seal.
        ensures undone_over { (newest : Option Master) (records : List Entry) (history : History)
            → Holds self.old (S.state site.old) newest records history
            → (writes : List Write) → IsActive (master_of newest) records entry.begin entry.last writes
            → count ≤ length writes
            → IfOk result (GoesBackOver self.new (S.state site.new) newest records history entry.begin count
            writes) }
        ensures keeps_over { (newest : Option Master) (records : List Entry) (history : History)
            → Holds self.old (S.state site.old) newest records history
            → (writes : List Write) → IsActive (master_of newest) records entry.begin entry.last writes
            → count ≤ length writes
            → Keeps result self.old self.new (S.state site.old) (S.state site.new)
            (LeavesSome (sizes_of self.old) history (S.state site.old).told) count 0 }
        ensures asks_over { (newest : Option Master) (records : List Entry) (history : History)
            → Holds self.old (S.state site.old) newest records history
            → (writes : List Write) → IsActive (master_of newest) records entry.begin entry.last writes
            → count ≤ length writes
            → StepsMachine result (map (λ write. write_touch write.0) (reverse (drop (length writes - count) writes)))
            self.old.pages self.new.pages (S.state site.old) (S.state site.new) }
        ensures log_reads_over { (newest : Option Master) (records : List Entry) (history : History)
            → Holds self.old (S.state site.old) newest records history
            → (writes : List Write) → IsActive (master_of newest) records entry.begin entry.last writes
            → count ≤ length writes
            → (S.state site.new).log_reads
            ≤ (S.state site.old).log_reads
            + (count + (length (updates_in (entries_of entry.begin records)) - length writes)) }
        ensures performs_over { (newest : Option Master) (records : List Entry) (history : History)
            → Holds self.old (S.state site.old) newest records history
            → (writes : List Write) → IsActive (master_of newest) records entry.begin entry.last writes
            → count ≤ length writes
            → PerformsStore result (clrs_for (take count (left_open records entry.begin))) self.old self.new
            (S.state site.old) (S.state site.new) }

        // Of every site.
        ensures works { KeepsInvariant result self.old self.new (S.state site.old) (S.state site.new) count }
        ensures last { IfOk result (λ last. (entry.last ≤ last) × (last < end_of self.new.log)) }
    {
        match undo_to(
            site,
            &mut self.log,
            &mut self.pages,
            entry.begin,
            entry.last,
            count,
        ) {
            Ok(last) => {
                self.made += count;
                Ok(last)
            }
            Err(stop) => Err(stop),
        }
    }
}
