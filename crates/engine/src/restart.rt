// Restart: the pages get what they lack of the log, what it leaves unfinished is undone, and a checkpoint is made.
ghost use Rattle.std.specs.Prelude.{Option, ◌≡◌, ◌+◌, ◌^◌, ◌<◌, ◌≤◌, ℕ, List, IsTrue, IfOk, IfErr, OnOk, IsErrOf};
ghost use Rattle.site.specs.declared.outside.Dev.{Dev};
ghost use Rattle.site.specs.declared.outside.Stop.{Stop};
ghost use Rattle.site.specs.declared.geometry.Geometry.{Geometry};
ghost use Rattle.site.specs.Geometry.{HasLimits, HasLengths};
ghost use Rattle.site.specs.State.{State, IsQuiet};
ghost use Rattle.site.specs.Calls.{Preserves, IsUnchanged, FaultRose};
ghost use Rattle.site.specs.Faults.{WorkFaults};
ghost use Rattle.record_model.specs.State.{Content};
ghost use Rattle.log_records.specs.declared.log_record.LogRecord.{LogRecord};
ghost use Rattle.log_records.specs.Sound.{Means};
ghost use Rattle.log_store.specs.Representation as log_store;
ghost use Rattle.checkpoint.specs.declared.master.Master.{Master};
ghost use Rattle.page_store.specs.Stopping.{MayStop};
ghost use Rattle.image_meaning.specs.Meaning.{logical_image_under, saved_by};
ghost use Rattle.engine.specs.Invariant.{sizes_of};
ghost use Rattle.log_judge.specs.Rules.{IsJudged};
ghost use Rattle.redo_undo.specs.Redoing as redoing;
ghost use Rattle.redo_undo.specs.Redoing.{Opening, IsReadable};
ghost use Rattle.engine.specs.Judged.{IsLegible, JudgesRecords, read_of};
ghost use Rattle.engine.specs.Image.{log_under, IsSound, Stands};
ghost use Rattle.engine.specs.Leaves.{HasNoSizes, IsRefused, LeavesTable};
ghost use Rattle.engine.specs.Restarting.{MayRecover, IsReady, RestartedAs, Restarts, Recovers};
ghost use Rattle.engine.specs.Restarting.{LeavesNext, found_store};
ghost use Rattle.redo_undo.specs.StoreCalls.{AreNext};
ghost use Rattle.engine.specs.Calls.{Ends};
ghost use Rattle.flash_cache.specs.Representation.{start_reads};
ghost use Rattle.engine.specs.Paging.{AsksFrom, cache_on, restart_works};
ghost use Rattle.engine.specs.Numbers.{RestartsWithin};
ghost use Rattle.engine.specs.LogReads.{restart_log_reads};
ghost use Rattle.page_store.specs.Caching.{cache_of, rules};
ghost use Rattle.ring_machine.specs.Restart.{restart_work};
ghost use Rattle.engine.specs.RingWork.{PerformsFrom, found_machine, machine_on};
ghost use Rattle.second_chance.specs.Machine.{rules_of};
ghost use Rattle.engine.specs.Paging.{HasStagedFrom, WritesFrom};

use analysis::{losers_are_taken, table_of_records};
use checkpoint::{Master, Pairs, newest, one_master};
use log_store::LogStore;
use page_store::PageStore;
use redo_undo::{TransactionStore, redo, undo_all};
use sealed_ring::Ring;
use site::{Dev, Geometry, Site, Stop};
use std::alloc::Global;

/// Log and pages of devices, the ring of master units, and the newest master.
#[derive(Drop)]
pub struct Opened {
    pub log: LogStore,
    pub pages: PageStore,
    pub masters: Ring,
    pub master: Master,
}

/// What a restart makes of devices: log and pages, how many blocks the log may have, and the commits.
#[derive(Drop)]
pub struct Restarted {
    pub blocks: u32,
    pub store: TransactionStore,
    pub commits: u64,
}

// The sizes of the devices.
fn geometry_of<S: Site>(site: &S) -> Result<Geometry, Stop>
    ensures limits { IfOk result (λ geometry. HasLimits geometry) }
    ensures lengths { IfOk result (λ geometry. HasLengths geometry (S.state site.now).image) }
    ensures found { (g : Geometry) → HasLimits g → HasLengths g (S.state site.now).image
        → IfErr result (λ stop. ⊥) × IfOk result (λ geometry. geometry ≡ g) }
    ensures stops { IfErr result (λ stop. stop ≡ Stop.Foreign) }
{
    match Geometry::of_lengths(
        site.len(Dev::Log),
        site.len(Dev::Flash),
        site.len(Dev::Disk),
    ) {
        Some(geometry) => Ok(geometry),
        None => Err(Stop::Foreign),
    }
}

// The log keeps the blocks from this one on. Where that is no live one and not the next one, it answers Foreign.
fn keep_from(log: &mut LogStore, block: u64) -> Result<(), Stop>
    requires bounded { log.old.ring.hi ≤ 2 ^ 40 }
    ensures keeps { OnOk result (log.new ≡ record log.old { kept = block }) }
    ensures going { (site : State) → log_store.Invariant log.old site → OnOk result (log_store.Invariant log.new site) }
    ensures live { log.old.kept ≤ block → block ≤ log.old.ring.hi → IfErr result (λ stop. ⊥) }
    ensures stops { IfErr result (λ stop. stop ≡ Stop.Foreign) }
{
    if block < log.kept() {
        return Err(Stop::Foreign);
    }
    if block > log.sealed_end() / 512 {
        return Err(Stop::Foreign);
    }
    log.keep(block);
    Ok(())
}

// Finds the log's blocks, the queue on flash, and the newest master.
fn open<S: Site>(
    alloc: Global,
    site: &mut S,
    geometry: &Geometry,
    pool: u32,
) -> Result<Opened, Stop>
    requires limits { HasLimits geometry.now }
    requires lengths { HasLengths geometry.now (S.state site.old).image }
    requires pool { (1 ≤ pool) × (pool ≤ 4096) }

    // Of an honest site that stands for a table after so many commits.
    ensures ready { IsTrue (S.state site.old).honest
        → (newest : Option Master) (blocks : List (List LogRecord)) (table : List Content) (commits : ℕ)
        → IsSound newest geometry.now (S.state site.old).image blocks
        → Means (logical_image_under newest geometry.now (S.state site.old).image blocks) table commits
        → IfOk result (λ opened. IsReady opened (S.state site.new) newest blocks table commits) }
    ensures readable { IsTrue (S.state site.old).honest
        → (newest : Option Master) (blocks : List (List LogRecord))
        → IsSound newest geometry.now (S.state site.old).image blocks
        → IsErrOf result Stop.Foreign → ⊥ }
    ensures same { IsTrue (S.state site.old).honest
        → IsUnchanged (S.state site.old) (S.state site.new) }
    ensures next { IsTrue (S.state site.old).honest
        → IfOk result (λ opened. AreNext (found_store opened) (S.state site.new)) }
    ensures legible { IsTrue (S.state site.old).honest
        → (newest : Option Master) (blocks : List (List LogRecord))
        → IsLegible newest geometry.now (S.state site.old).image blocks
        → IfOk result (λ opened. (opened.master ≡ saved_by newest)
        × IsReadable (read_of geometry.now (S.state site.old).image newest blocks) opened.log opened.pages
        (S.state site.new)) }
    ensures cache { IsTrue (S.state site.old).honest
        → (newest : Option Master) (blocks : List (List LogRecord))
        → IsSound newest geometry.now (S.state site.old).image blocks
        → IfOk result (λ opened. cache_of opened.pages ≡ cache_on geometry.now (S.state site.old).image) }

    // Of every site.
    ensures going { IfOk result (λ opened. MayRecover opened (S.state site.new)) }
    ensures log_reads { (S.state site.new).log_reads ≤ (S.state site.old).log_reads + (geometry.now.blocks + 6) }
    ensures flash_reads { (S.state site.new).flash_reads ≤ (S.state site.old).flash_reads + start_reads geometry.now }
    ensures disk_reads { (S.state site.new).disk_reads ≡ (S.state site.old).disk_reads }
    ensures sizes { IfOk result (λ opened. opened.pages.flash.geometry ≡ geometry.now) }
    ensures pool { IfOk result (λ opened. opened.pages.pool.size ≡ pool) }
    ensures empty { IfOk result (λ opened. opened.log.used ≡ 2) }
    ensures preserves { Preserves (S.state site.old) (S.state site.new) }
    ensures faults { WorkFaults result (S.state site.old) (S.state site.new) }

    // When each answer comes.
    ensures device { (d : Dev) → IsErrOf result (Stop.Device d)
        → FaultRose d (S.state site.old) (S.state site.new) }
    ensures unworn { (d : Dev) → IsErrOf result (Stop.Worn d) → ⊥ }
    ensures stops { IfErr result (λ stop. MayStop stop) }
{
    one_master();
    let mut log = match LogStore::start(site, geometry) {
        Ok(log) => log,
        Err(stop) => return Err(stop),
    };
    let pages = match PageStore::start(alloc, site, geometry, pool) {
        Ok(pages) => pages,
        Err(stop) => return Err(stop),
    };
    match newest(site) {
        Ok((masters, master)) => match keep_from(&mut log, master.kept) {
            Ok(()) => Ok(Opened {
                log,
                pages,
                masters,
                master,
            }),
            Err(stop) => Err(stop),
        },
        Err(stop) => Err(stop),
    }
}

// Redoes what the pages lack, undoes all that is unfinished, and makes a checkpoint.
fn recover<S: Site>(alloc: Global, site: &mut S, opened: Opened) -> Result<Restarted, Stop>
    requires may { MayRecover opened (S.state site.old) }
    requires empty { opened.log.used ≡ 2 }

    // Of an honest site that stands for a table after so many commits.
    ensures recovers { (newest : Option Master) (blocks : List (List LogRecord)) (table : List Content) (commits : ℕ)
        → IsReady opened (S.state site.old) newest blocks table commits
        → Recovers result opened (S.state site.old) (S.state site.new) newest blocks table commits }
    ensures performs { (newest : Option Master) (blocks : List (List LogRecord)) (table : List Content) (commits : ℕ)
        → IsReady opened (S.state site.old) newest blocks table commits
        → PerformsFrom result (λ restarted. restarted.store) (rules opened.pages)
        (restart_work (logical_image_under newest opened.pages.flash.geometry (S.state site.old).image blocks))
        (found_machine opened) (S.state site.new) }

    // Of an honest site that log and pages fit, whatever the records say.
    ensures judged { (o : Opening) → opened.master ≡ saved_by o.newest → o.sizes ≡ opened.pages.flash.geometry
        → IsReadable o opened.log opened.pages (S.state site.old) → OnOk result (IsJudged (redoing.opened o)) }

    // Of every honest site on which the next units are those that were found.
    ensures next { IsTrue (S.state site.old).honest → AreNext (found_store opened) (S.state site.old)
        → LeavesNext result (λ restarted. restarted.store) opened.pages.flash.geometry (S.state site.new) }

    // Of every site.
    ensures restarts { Restarts result opened.pages.pool.size (S.state site.old) (S.state site.new) }
    ensures sizes { IfOk result (λ restarted. sizes_of restarted.store ≡ opened.pages.flash.geometry) }
{
    table_of_records();
    losers_are_taken();
    let Opened {
        mut log,
        mut pages,
        masters,
        master,
    } = opened;
    let redone = match redo(alloc, site, &mut log, &mut pages, &master) {
        Ok(redone) => redone,
        Err(stop) => return Err(stop),
    };
    let (mut found, records) = (redone.found, redone.records);
    let owed = found.owed();
    let blocks = log.geometry().blocks;
    if log.sealed_end() / 512 + owed >= log.kept() + blocks as u64 {
        return Err(Stop::Foreign);
    }
    match undo_all(site, &mut log, &mut pages, &mut found) {
        Ok(()) => {}
        Err(stop) => return Err(stop),
    }
    let commits = found.commits();
    if commits > log.sealed_end() {
        return Err(Stop::Foreign);
    }
    let made = records + owed;
    let mut store = TransactionStore {
        log,
        pages,
        masters,
        made,
    };
    match store.checkpoint(site, Pairs::new(), commits, made) {
        Ok(()) => Ok(Restarted {
            blocks,
            store,
            commits,
        }),
        Err(stop) => Err(stop),
    }
}

/// Opens the devices, redoes what their pages lack, undoes all transactions that the log leaves unfinished, and makes a
/// checkpoint: then the log keeps nothing. Devices without sizes are Foreign.
pub fn restart<S: Site>(alloc: Global, site: &mut S, pool: u32) -> Result<Restarted, Stop>
    requires pool { (1 ≤ pool) × (pool ≤ 4096) }

    // Of an honest site that stands for a table after so many commits.
    ensures opens { IsTrue (S.state site.old).honest
        → (g : Geometry) (newest : Option Master) (blocks : List (List LogRecord)) (table : List Content) (commits : ℕ)
        → IsSound newest g (S.state site.old).image blocks
        → Means (logical_image_under newest g (S.state site.old).image blocks) table commits
        → IfOk result (λ restarted. RestartedAs restarted (S.state site.new) table commits
        × (sizes_of restarted.store ≡ g)) }
    ensures ends { IsTrue (S.state site.old).honest
        → (g : Geometry) (table : List Content) (commits : ℕ)
        → Stands g (S.state site.old).image table commits
        → Ends result g (S.state site.old) (S.state site.new) (LeavesTable g table commits (S.state site.old).told) }
    ensures numbers { IsTrue (S.state site.old).honest → IsQuiet (S.state site.old)
        → (g : Geometry) (newest : Option Master) (blocks : List (List LogRecord))
        → IsSound newest g (S.state site.old).image blocks
        → RestartsWithin result (λ restarted. restarted.store.log) g (log_under newest blocks) (S.state site.old)
        (S.state site.new) }
    ensures asks { IsTrue (S.state site.old).honest
        → (g : Geometry) (newest : Option Master) (blocks : List (List LogRecord))
        → IsSound newest g (S.state site.old).image blocks
        → AsksFrom result (λ restarted. restarted.store.pages) (rules_of pool g.groups)
        (restart_works (logical_image_under newest g (S.state site.old).image blocks))
        (cache_on g (S.state site.old).image)
        (start_reads g) (S.state site.old) (S.state site.new) }
    ensures log_reads { IsTrue (S.state site.old).honest
        → (g : Geometry) (newest : Option Master) (blocks : List (List LogRecord))
        → IsSound newest g (S.state site.old).image blocks
        → (S.state site.new).log_reads ≤ (S.state site.old).log_reads + restart_log_reads g newest blocks }
    ensures writes { IsTrue (S.state site.old).honest → IsQuiet (S.state site.old)
        → (g : Geometry) (newest : Option Master) (blocks : List (List LogRecord))
        → IsSound newest g (S.state site.old).image blocks
        → WritesFrom g (rules_of pool g.groups)
        (restart_works (logical_image_under newest g (S.state site.old).image blocks))
        (cache_on g (S.state site.old).image) (S.state site.old) (S.state site.new) }
    ensures last { IsTrue (S.state site.old).honest → IsQuiet (S.state site.old)
        → (g : Geometry) (newest : Option Master) (blocks : List (List LogRecord))
        → IsSound newest g (S.state site.old).image blocks
        → OnOk result (HasStagedFrom g (rules_of pool g.groups)
        (restart_works (logical_image_under newest g (S.state site.old).image blocks))
        (cache_on g (S.state site.old).image) (S.state site.old) (S.state site.new)) }

    ensures performs { IsTrue (S.state site.old).honest
        → (g : Geometry) (newest : Option Master) (blocks : List (List LogRecord))
        → IsSound newest g (S.state site.old).image blocks
        → PerformsFrom result (λ restarted. restarted.store) (rules_of pool g.groups)
        (restart_work (logical_image_under newest g (S.state site.old).image blocks))
        (machine_on g (S.state site.old).image) (S.state site.new) }

    // Of every honest site: records that break a rule of those that are judged are refused.
    ensures judged { IsTrue (S.state site.old).honest → JudgesRecords result (S.state site.old).image }

    // Of every honest site of these sizes.
    ensures next { IsTrue (S.state site.old).honest
        → (g : Geometry) → HasLimits g → HasLengths g (S.state site.old).image
        → LeavesNext result (λ restarted. restarted.store) g (S.state site.new) }

    // Of every site.
    ensures restarts { Restarts result pool (S.state site.old) (S.state site.new) }
    ensures refuses { HasNoSizes (S.state site.old) → IsRefused result site.old site.new }
{
    let geometry = match geometry_of(site) {
        Ok(geometry) => geometry,
        Err(stop) => return Err(stop),
    };
    let opened = match open(alloc, site, &geometry, pool) {
        Ok(opened) => opened,
        Err(stop) => return Err(stop),
    };
    recover(alloc, site, opened)
}
