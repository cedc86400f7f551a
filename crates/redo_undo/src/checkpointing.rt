// A checkpoint: what is unsealed is sealed, the changed pages are flushed, and a new master is saved.
ghost use Rattle.std.specs.Prelude.{◌≡◌, ◌⊎◌, ◌+◌, ◌<◌, ◌≤◌, List, false, Option, min, IfOk, OnOk, IfErr, ℕ};
ghost use Rattle.std.specs.Prelude.{◌^◌, IsErrOf};
ghost use Rattle.site.specs.declared.outside.Dev.{Dev};
ghost use Rattle.site.specs.declared.outside.Stop.{Stop};
ghost use Rattle.site.specs.Calls.{SameReads};
ghost use Rattle.sealed_ring.specs.Ring.{hi_of};
ghost use Rattle.sealed_ring.specs.Ready.{IsUsable};
ghost use Rattle.record_model.specs.State.{Content};
ghost use Rattle.log_records.specs.Log.{Entry};
ghost use Rattle.checkpoint.specs.declared.master.Master.{Master};
ghost use Rattle.checkpoint.specs.Actives.{Ascend};
ghost use Rattle.image_changes.specs.Rings.{master_shape};
ghost use Rattle.second_chance.specs.Machine.{wants_flush};
ghost use Rattle.log_store.specs.Representation as log_store;
ghost use Rattle.log_store.specs.Representation.{end_of};
ghost use Rattle.page_store.specs.declared.store.PageStore.{PageStore};
ghost use Rattle.page_store.specs.Caching.{cache_of};
ghost use Rattle.page_store.specs.Stopping.{MayStop};
ghost use Rattle.image_meaning.specs.Moments.{LeavesFor};
ghost use Rattle.redo_laws.specs.Running.{History, settled};
ghost use Rattle.redo_laws.specs.Waiting.{LeavesSomeUnder};
ghost use Rattle.image_meaning.specs.Flushed.{first_block};
ghost use Rattle.redo_laws.specs.Holding.{Invariant, Represents, blocks_to};
ghost use Rattle.redo_laws.specs.Checkpointing.{MayBeMade, IsSaved, begins_of};
ghost use Rattle.redo_undo.specs.Stores.{MayWork, HasCheckpoint, sizes_of};
ghost use Rattle.redo_undo.specs.StoreCalls as stores;
ghost use Rattle.redo_laws.specs.MachineSteps.{StepsMachine, checkpoint_works};
ghost use Rattle.redo_laws.specs.Calls.{KeepsInvariant, Keeps};
ghost use Rattle.redo_undo.specs.Mirroring.{PerformsOn, PerformsStore, flush_work};
ghost use Rattle.ring_machine.specs.Commands.{saves};
ghost use Rattle.site.specs.Work.{Calls};
ghost use Rattle.std.specs.Prelude.{IsTrue};
ghost use Rattle.site.specs.Moments.{ChangesOnly};

use crate::forcing::force;
use crate::store::TransactionStore;
use checkpoint::{Master, Pairs, save};
use log_store::LogStore;
use page_store::PageStore;
use sealed_ring::Ring;
use site::{Site, Stop};

// Pushes all changed pages. What log and pages hold together stays, and so does what the devices stand for at each
// moment. The log's tail is empty, so the log isn't forced.
fn flush<S: Site>(site: &mut S, log: &mut LogStore, pages: &mut PageStore) -> Result<(), Stop>
    requires going { Invariant log.old pages.old (S.state site.old) }
    requires sealed { log.old.used ≡ 2 }

    // Of an honest site on which log and pages hold together.
    ensures holds { (newest : Option Master) (records : List Entry) (history : History)
        → Represents log.old pages.old (S.state site.old) newest records history
        → OnOk result (Represents log.new pages.new (S.state site.new) newest records history) }
    ensures keeps { (newest : Option Master) (records : List Entry) (history : History)
        → Represents log.old pages.old (S.state site.old) newest records history
        → Keeps result pages.old.flash.geometry log.old log.new (S.state site.old) (S.state site.new)
        (LeavesSomeUnder newest pages.old.flash.geometry history (S.state site.old).told) 0 0 }
    ensures performs { (newest : Option Master) (records : List Entry) (history : History)
        → Represents log.old pages.old (S.state site.old) newest records history
        → PerformsOn result flush_work log.old log.new pages.old pages.new (S.state site.old) (S.state site.new) }

    // Of every site.
    ensures asks { StepsMachine result checkpoint_works pages.old pages.new (S.state site.old) (S.state site.new) }
    ensures clean { OnOk result (wants_flush (cache_of pages.new) ≡ false) }
    ensures sealed { OnOk result (log.new.used ≡ 2) }
    ensures works { KeepsInvariant result log.old log.new pages.old pages.new (S.state site.old) (S.state site.new) }
    ensures hi { OnOk result (log.new.ring.hi ≡ log.old.ring.hi) }
    ensures log_reads { (S.state site.new).log_reads ≡ (S.state site.old).log_reads }
{
    pages.flush_all(site, log)
}

// The block of the oldest Begin of these transactions, and the next block where there is none: one from the kept block
// on.
fn oldest_block(active: &Pairs, kept: u64, next: u64) -> u64
    requires { kept ≤ next }
    ensures low { kept ≤ result }
    ensures high { result ≤ next }
    ensures least { min next (first_block next (begins_of active.now)) ≤ result }
    ensures is { kept ≤ first_block next (begins_of active.now) → first_block next (begins_of active.now) ≤ next
        → result ≡ first_block next (begins_of active.now) }
{
    if active.is_empty() {
        return next;
    }
    let (begin, _last) = active.at(0);
    let block = begin / 512;
    if block < kept {
        return kept;
    }
    if block > next {
        return next;
    }
    block
}

// Saves the master of a checkpoint over flushed pages and an empty tail: redo begins with the next block, and the
// blocks from that of the oldest active Begin on are kept. Then the log lets go of the others. Log and pages hold
// together under the new master, with the records from its oldest kept block on.
fn save_master<S: Site>(
    site: &mut S,
    log: &mut LogStore,
    masters: &mut Ring,
    active: Pairs,
    commits: u64,
) -> Result<Master, Stop>
    requires going { log_store.Invariant log.old (S.state site.old) }
    requires usable { IsUsable masters.old (S.state site.old) }
    requires shape { masters.old.shape ≡ master_shape }
    requires ascend { Ascend active }

    // Of an honest site on which log and pages hold together, and of the unfinished transactions.
    ensures saved { (pages : PageStore) (newest : Option Master) (records : List Entry) (table : List Content)
        → log.old.geometry ≡ pages.flash.geometry
        → Represents log.old pages (S.state site.old) newest records (settled table commits)
        → log.old.used ≡ 2 → wants_flush (cache_of pages) ≡ false
        → MayBeMade masters.old (S.state site.old) records active
        → IfOk result (λ master. IsSaved log.new pages masters.new (S.state site.new) records table commits master) }
    ensures keeps { (pages : PageStore) (newest : Option Master) (records : List Entry) (table : List Content)
        → log.old.geometry ≡ pages.flash.geometry
        → Represents log.old pages (S.state site.old) newest records (settled table commits)
        → log.old.used ≡ 2 → wants_flush (cache_of pages) ≡ false
        → MayBeMade masters.old (S.state site.old) records active
        → Keeps result pages.flash.geometry log.old log.new (S.state site.old) (S.state site.new)
        (LeavesFor pages.flash.geometry table commits (S.state site.old).told) 0 1 }

    // Of every site.
    ensures master { IfOk result (λ master. (master.redo ≡ log.old.ring.hi) × (master.commits ≡ commits)
        × (master.active ≡ active)) }
    ensures log { IfOk result (λ master. log.new ≡ record log.old { kept = master.kept }) }
    ensures least { IfOk result (λ master. min log.old.ring.hi (first_block log.old.ring.hi (begins_of active))
        ≤ master.kept) }
    ensures rises { IfOk result (λ master. (log.old.kept ≤ master.kept) × (master.kept ≤ log.old.ring.hi)) }
    ensures log_going { log_store.Invariant log.new (S.state site.new) }
    ensures shape { masters.new.shape ≡ master_shape }
    ensures usable { IsUsable masters.new (S.state site.new) }
    ensures calls { Calls result (S.state site.old) (S.state site.new) }
    ensures reads { SameReads (S.state site.old) (S.state site.new) }
    ensures changes { IsTrue (S.state site.old).honest → ChangesOnly Dev.Log (S.state site.old) (S.state site.new) }
    ensures next { IsTrue (S.state site.old).honest → log_store.IsNext log.old (S.state site.old)
        → masters.old.hi ≡ hi_of master_shape (S.state site.old).image.log
        → OnOk result (log_store.IsNext log.new (S.state site.new)
        × (masters.new.hi ≡ hi_of master_shape (S.state site.new).image.log)) }
    ensures worn { IsTrue (S.state site.old).honest
        → masters.old.hi ≡ hi_of master_shape (S.state site.old).image.log
        → IsErrOf result (Stop.Worn Dev.Log) → hi_of master_shape (S.state site.new).image.log ≡ 2 ^ 40 }
    ensures unit { OnOk result (masters.new.hi ≡ masters.old.hi + 1) }
    ensures at_end { IsErrOf result (Stop.Worn Dev.Log) → masters.old.hi ≡ 2 ^ 40 }
    ensures stops { IfErr result (λ stop. (stop ≡ Stop.Device Dev.Log) ⊎ (stop ≡ Stop.Worn Dev.Log)) }
{
    let redo = log.sealed_end() / 512;
    let kept = oldest_block(&active, log.kept(), redo);
    let master = Master {
        redo,
        kept,
        commits,
        active,
    };
    match save(site, masters, &master) {
        Ok(()) => {}
        Err(stop) => return Err(stop),
    }
    log.keep(kept);
    Ok(master)
}

impl TransactionStore {
    /// A checkpoint that names these unfinished transactions: what is unsealed is sealed, the changed pages are flushed
    /// to flash, a master is saved, and the log lets go of the blocks that nothing needs. The first so many records
    /// count no more.
    pub fn checkpoint<S: Site>(
        &mut self,
        site: &mut S,
        active: Pairs,
        commits: u64,
        first: u64,
    ) -> Result<(), Stop>
        requires going { MayWork self.old (S.state site.old) }
        requires ascend { Ascend active }
        requires first { first ≤ self.old.made }
        // The blocks that are kept have records that go on counting.
        requires begun { first_block (blocks_to self.old.log) (begins_of active) ≤ blocks_to self.old.log }
        requires enough { blocks_to self.old.log + first
            ≤ first_block (blocks_to self.old.log) (begins_of active) + self.old.made }

        // Of an honest site on which log and pages hold together, and of the unfinished transactions.
        ensures checkpoint { (newest : Option Master) (records : List Entry) (table : List Content)
            → Represents self.old.log self.old.pages (S.state site.old) newest records (settled table commits)
            → MayBeMade self.old.masters (S.state site.old) records active
            → OnOk result (HasCheckpoint self.new (S.state site.new) records table commits active) }
        ensures keeps { (newest : Option Master) (records : List Entry) (table : List Content)
            → Represents self.old.log self.old.pages (S.state site.old) newest records (settled table commits)
            → MayBeMade self.old.masters (S.state site.old) records active
            → stores.Keeps result self.old self.new (S.state site.old) (S.state site.new)
            (LeavesFor (sizes_of self.old) table commits (S.state site.old).told) 0 1 }
        ensures performs { (newest : Option Master) (records : List Entry) (table : List Content)
            → Represents self.old.log self.old.pages (S.state site.old) newest records (settled table commits)
            → PerformsStore result saves self.old self.new (S.state site.old) (S.state site.new) }

        // Of every site.
        ensures calls { Calls result (S.state site.old) (S.state site.new) }
        ensures next { IsTrue (S.state site.old).honest
            → stores.KeepsNext result self.old self.new (S.state site.old) (S.state site.new) }
        ensures going { OnOk result (MayWork self.new (S.state site.new)) }
        ensures made { OnOk result (self.new.made + first ≡ self.old.made) }
        ensures blocks { OnOk result (blocks_to self.new.log ≡ blocks_to self.old.log) }
        ensures end { OnOk result (end_of self.old.log ≤ end_of self.new.log) }
        ensures log_reads { (S.state site.new).log_reads ≡ (S.state site.old).log_reads }
        ensures asks { StepsMachine result checkpoint_works self.old.pages self.new.pages
            (S.state site.old) (S.state site.new) }
        ensures kept { OnOk result (self.old.log.kept ≤ self.new.log.kept) }
        ensures sizes { sizes_of self.new ≡ sizes_of self.old }
        ensures stops { IfErr result (λ stop. MayStop stop) }
    {
        match force(site, &mut self.log) {
            Ok(()) => {}
            Err(stop) => return Err(stop),
        }
        match flush(site, &mut self.log, &mut self.pages) {
            Ok(()) => {}
            Err(stop) => return Err(stop),
        }
        match save_master(site, &mut self.log, &mut self.masters, active, commits) {
            Ok(_) => {
                self.made -= first;
                Ok(())
            }
            Err(stop) => Err(stop),
        }
    }
}
