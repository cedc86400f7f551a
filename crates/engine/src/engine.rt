// The database.
ghost use Rattle.std.specs.Prelude.{Option, ◌≡◌, ◌+◌, ◌/◌, ◌^◌, ◌<◌, ◌≤◌, List, false, Some, None};
ghost use Rattle.std.specs.Prelude.{option_map, IsTrue, IfSome, IfNone, IfOk, IfErr, OnOk, ℕ};
ghost use Rattle.site.specs.declared.outside.Stop.{Stop};
ghost use Rattle.site.specs.declared.geometry.Geometry.{Geometry};
ghost use Rattle.site.specs.Geometry.{HasLimits, HasLengths};
ghost use Rattle.site.specs.State.{State as Site, IsQuiet};
ghost use Rattle.record_model.specs.declared.words.Command.{Command};
ghost use Rattle.record_model.specs.declared.words.Reply.{Reply};
ghost use Rattle.record_model.specs.State.{State, Content};
ghost use Rattle.record_model.specs.State as model;
ghost use Rattle.record_model.specs.Step.{step};
ghost use Rattle.log_records.specs.declared.log_record.LogRecord.{LogRecord};
ghost use Rattle.lock_table.specs.Locks.{busy_read, busy_write};
ghost use Rattle.txn_table.specs.Entries.{owed};
ghost use Rattle.page_store.specs.Stopping.{MayStop};
ghost use Rattle.engine.specs.Judged.{JudgesRecords};
ghost use Rattle.engine.specs.Restarting.{LeavesNext};
ghost use Rattle.engine.specs.Invariant.{Invariant, sizes_of};
ghost use Rattle.engine.specs.Image.{log_under, IsSound, Stands, Opens};
ghost use Rattle.engine.specs.Representation.{Matches, run, IsFull};
ghost use Rattle.engine.specs.Leaves.{LeavesTable, HasNoSizes, IsRefused};
ghost use Rattle.flash_cache.specs.Representation.{start_reads};
ghost use Rattle.engine.specs.Paging.{AsksFrom, cache_on, restart_works};
ghost use Rattle.ring_machine.specs.Restart.{restart_work};
ghost use Rattle.engine.specs.RingWork.{PerformsFrom, machine_on};
ghost use Rattle.second_chance.specs.Machine.{rules_of};
ghost use Rattle.checkpoint.specs.declared.master.Master.{Master};
ghost use Rattle.image_meaning.specs.Meaning.{logical_image_under};
ghost use Rattle.engine.specs.Listings.{listing_of};
ghost use Rattle.engine.specs.Calls.{Ends};
ghost use Rattle.engine.specs.Numbers.{RestartsWithin};
ghost use Rattle.engine.specs.LogReads.{restart_log_reads};
ghost use Rattle.site.specs.Work.{Calls};
ghost use Rattle.engine.specs.Paging.{HasStagedFrom, WritesFrom};

use crate::restart::restart;
use footprints::Footprints;
use lock_table::LockTable;
use record_model::{Reply, Stat, Why};
use redo_undo::TransactionStore;
use site::{Site, Stop};
use std::alloc::Global;
use txn_table::TxnTable;

/// How many sessions there are, numbered from 0.
pub(crate) const SESSIONS: u32 = 8;

/// The database. Each call on it answers the model's reply and leaves the model's state.
#[derive(Drop)]
pub struct Engine {
    pub(crate) alloc: Global,
    pub(crate) store: TransactionStore,
    // How many blocks of the log may be used.
    pub(crate) cap: u64,
    pub(crate) locks: LockTable,
    // What the sessions' writes may still have taken back.
    pub(crate) footprints: Footprints,
    pub(crate) active: TxnTable,
    pub(crate) commits: u64,
    pub(crate) ended: bool,
}

impl Engine {
    /// Restart: reads the log, redoes what its pages lack, undoes what it leaves unfinished, makes a checkpoint, and
    /// answers the database.
    /// It keeps so many pages in memory, 1 to 4,096.
    pub fn start<S: Site>(alloc: Global, site: &mut S, pool: u32) -> Result<Engine, Stop>
        requires pool { (1 ≤ pool) × (pool ≤ 4096) }

        // Of an honest site whose image is sound.
        ensures opens { IsTrue (S.state site.old).honest
            → (g : Geometry) (s : State) → Opens g (S.state site.old).image s
            → IfOk result (λ engine. Matches engine (S.state site.new) s × (sizes_of engine.store ≡ g)) }
        ensures ends { IsTrue (S.state site.old).honest
            → (g : Geometry) (table : List Content) (commits : ℕ)
            → Stands g (S.state site.old).image table commits
            → Ends result g (S.state site.old) (S.state site.new)
            (LeavesTable g table commits (S.state site.old).told) }
        ensures numbers { IsTrue (S.state site.old).honest → IsQuiet (S.state site.old)
            → (g : Geometry) (newest : Option Master) (blocks : List (List LogRecord))
            → IsSound newest g (S.state site.old).image blocks
            → RestartsWithin result (λ engine. engine.store.log) g (log_under newest blocks) (S.state site.old)
            (S.state site.new) }
        ensures asks { IsTrue (S.state site.old).honest
            → (g : Geometry) (newest : Option Master) (blocks : List (List LogRecord))
            → IsSound newest g (S.state site.old).image blocks
            → AsksFrom result (λ engine. engine.store.pages) (rules_of pool g.groups)
            (restart_works (logical_image_under newest g (S.state site.old).image blocks))
            (cache_on g (S.state site.old).image)
            (start_reads g) (S.state site.old) (S.state site.new) }
        ensures log_reads { IsTrue (S.state site.old).honest
            → (g : Geometry) (newest : Option Master) (blocks : List (List LogRecord))
            → IsSound newest g (S.state site.old).image blocks
            → (S.state site.new).log_reads ≤ (S.state site.old).log_reads + restart_log_reads g newest blocks }
        ensures writes { IsTrue (S.state site.old).honest → IsQuiet (S.state site.old)
            → (g : Geometry) (newest : Option Master) (blocks : List (List LogRecord))
            → IsSound newest g (S.state site.old).image blocks
            → WritesFrom g (rules_of pool g.groups)
            (restart_works (logical_image_under newest g (S.state site.old).image blocks))
            (cache_on g (S.state site.old).image) (S.state site.old) (S.state site.new) }
        ensures last { IsTrue (S.state site.old).honest → IsQuiet (S.state site.old)
            → (g : Geometry) (newest : Option Master) (blocks : List (List LogRecord))
            → IsSound newest g (S.state site.old).image blocks
            → OnOk result (HasStagedFrom g (rules_of pool g.groups)
            (restart_works (logical_image_under newest g (S.state site.old).image blocks))
            (cache_on g (S.state site.old).image) (S.state site.old) (S.state site.new)) }
        ensures performs { IsTrue (S.state site.old).honest
            → (g : Geometry) (newest : Option Master) (blocks : List (List LogRecord))
            → IsSound newest g (S.state site.old).image blocks
            → PerformsFrom result (λ engine. engine.store) (rules_of pool g.groups)
            (restart_work (logical_image_under newest g (S.state site.old).image blocks))
            (machine_on g (S.state site.old).image) (S.state site.new) }

        // Of every honest site: records that break a rule of those that are judged are refused.
        ensures judged { IsTrue (S.state site.old).honest → JudgesRecords result (S.state site.old).image }

        // Of every honest site of these sizes.
        ensures next { IsTrue (S.state site.old).honest
            → (g : Geometry) → HasLimits g → HasLengths g (S.state site.old).image
            → LeavesNext result (λ engine. engine.store) g (S.state site.new) }

        // Of every site.
        ensures calls { Calls result (S.state site.old) (S.state site.new) }
        ensures going { IfOk result (λ engine. Invariant engine (S.state site.new)) }
        ensures pool { IfOk result (λ engine. engine.store.pages.pool.size ≡ pool) }
        ensures refuses { HasNoSizes (S.state site.old) → IsRefused result site.old site.new }
        ensures stops { IfErr result (λ stop. MayStop stop) }
    {
        let restarted = match restart(alloc, site, pool) {
            Ok(restarted) => restarted,
            Err(stop) => return Err(stop),
        };
        let locks = match LockTable::new(alloc) {
            Ok(locks) => locks,
            Err(stop) => return Err(stop),
        };
        Ok(Engine {
            alloc,
            cap: restarted.blocks as u64 - 1,
            store: restarted.store,
            locks,
            footprints: Footprints::new(alloc),
            active: TxnTable::new(),
            commits: restarted.commits,
            ended: false,
        })
    }

    /// The number of commits that the devices hold.
    pub fn commits(&self) -> u64
        ensures count { result ≡ self.now.commits }
        ensures model { (s : State) (site : Site) → Matches self.now site s → result ≡ s.commits }
    {
        self.commits
    }

    /// Whether a call gave an error. No further call is lawful then.
    pub fn ended(&self) -> bool
        ensures { result ≡ self.now.ended }
    {
        self.ended
    }

    /// Why so many more log records can't be made, if they can't.
    pub(crate) fn full(&self, more: u64) -> Option<Reply>
        requires bounded { self.now.store.made + owed self.now.active ≤ 2 ^ 40 }
        requires few { more ≤ 4 }
        ensures full { IfSome result (λ reply. IsFull self.now more reply) }
        ensures room { IfNone result (self.now.store.made + owed self.now.active + more ≤ self.now.cap) }
    {
        let used = self.store.made;
        let owed = self.active.owed();
        if used + owed + more > self.cap {
            return Some(Reply::Full {
                used,
                owed,
                cap: self.cap,
            });
        }
        None
    }

    /// The reply where another session has written a record.
    pub(crate) fn read_busy(&self, own: Option<u32>, number: u32) -> Option<Reply>
        ensures { result ≡ option_map Reply.Busy (busy_read self.now.locks own number) }
    {
        match self.locks.may_read(own, number) {
            Ok(()) => None,
            Err(busy) => Some(Reply::Busy(busy.holder)),
        }
    }

    /// The reply where another session has written or read a record.
    pub(crate) fn write_busy(&self, own: Option<u32>, number: u32) -> Option<Reply>
        ensures { result ≡ option_map Reply.Busy (busy_write self.now.locks own number) }
    {
        match self.locks.may_write(own, number) {
            Ok(()) => None,
            Err(busy) => Some(Reply::Busy(busy.holder)),
        }
    }

    /// Whether so many records count that a checkpoint is due.
    pub fn is_due(&self) -> bool
        ensures { (s : State) (site : Site) → Matches self.now site s → result ≡ model.is_due s }
    {
        self.store.made >= self.cap / 2
    }

    /// The listing of the page cache: the frames of its queue, the oldest group first, and then the pages in memory. It
    /// changes nothing.
    pub fn cache(&self) -> Result<Reply, Stop>
        requires going { (site : Site) × Invariant self.now site }
        ensures listing { IfOk result (λ reply. reply ≡ Reply.Listing (listing_of self.now)) }
        ensures model { (s : State) → IfOk result (λ reply. step s Command.Cache (listing_of self.now)
            ≡ record { after = s; reply = reply }) }
        ensures stops { IfErr result (λ stop. stop ≡ Stop.Memory) }
    {
        match self.store.pages.listing() {
            Ok(lines) => Ok(Reply::Listing(lines)),
            Err(stop) => Err(stop),
        }
    }

    /// The counts of the database.
    pub fn stat(&self) -> Reply
        ensures { (s : State) (site : Site) → Matches self.now site s → result ≡ (run s Command.Stat).reply }
    {
        Reply::Stat(Stat {
            commits: self.commits,
            used: self.store.made,
            owed: self.active.owed(),
            cap: self.cap,
            active: self.active.len() as u64,
        })
    }
}
