// A page is touched, a record is logged, and the page is changed.
ghost use Rattle.std.specs.Prelude.{◌*◌, ◌≡◌, ◌⊎◌, ◌+◌, ◌<◌, ◌≤◌, ◌++◌, ◌∷◌, [], ℕ, List, length, None, IfOk, true};
ghost use Rattle.std.specs.Prelude.{OnOk, IfErr, IsErrOf, Option};
ghost use Rattle.site.specs.declared.outside.Dev.{Dev};
ghost use Rattle.site.specs.declared.outside.Stop.{Stop};
ghost use Rattle.site.specs.Calls.{SameReads};
ghost use Rattle.record_model.specs.State.{table_with};
ghost use Rattle.log_records.specs.declared.log_record.LogRecord.{LogRecord};
ghost use Rattle.log_records.specs.Log.{Entry, number_of};
ghost use Rattle.log_records.specs.Sound.{AreOrderly};
ghost use Rattle.log_records.specs.Spelling.{HasForm};
ghost use Rattle.log_store.specs.LogList.{LogList};
ghost use Rattle.log_store.specs.Representation as log_store;
ghost use Rattle.log_store.specs.Representation.{end_of, has_tail};
ghost use Rattle.write_ahead.specs.Forcing.{end_forced};
ghost use Rattle.page_store.specs.declared.store.PageStore.{PageStore};
ghost use Rattle.page_store.specs.Leaves.{AreReady};
ghost use Rattle.second_chance.specs.Machine.{holds};
ghost use Rattle.slotted_page.specs.Layout.{lsn_of};
ghost use Rattle.buffer_pool.specs.Frames.{front_of};
ghost use Rattle.page_store.specs.Caching.{cache_of, with_change};
ghost use Rattle.checkpoint.specs.declared.master.Master.{Master};
ghost use Rattle.redo_laws.specs.Waiting.{LeavesSomeUnder};
ghost use Rattle.redo_laws.specs.Running.{History};
ghost use Rattle.redo_laws.specs.Holding.{Invariant, RepresentsLog, Represents, MayGrow, KeepsPages, IsOnPage};
ghost use Rattle.redo_laws.specs.Holding.{blocks_to};
ghost use Rattle.redo_undo.specs.Fitting.{HasRoomInFront};
ghost use Rattle.redo_laws.specs.Committing.{EndsWith, MayCommit};
ghost use Rattle.log_laws.specs.Follow.{writes_in};
ghost use Rattle.redo_undo.specs.Mirroring.{PerformsOn, PerformsAtRest, touch_work, record_work, change_work};
ghost use Rattle.redo_laws.specs.MachineSteps.{StepsMachine, one_touch};
ghost use Rattle.redo_undo.specs.Redoing.{Opening, IsRedoing, LeavesOpened};
ghost use Rattle.redo_laws.specs.Calls.{KeepsInvariant, LogsNothing, KeepsInvariantBeside, Keeps, KeepsBeside};
ghost use Rattle.page_store.specs.Caching.{next_group};
ghost use Rattle.page_store.specs.Staging.{Stages};

use crate::changing::change_front;
use log_records::LogRecord;
use log_store::LogStore;
use page_store::PageStore;
use site::{Site, Stop};

/// Brings a page to the front of the pool. What log and pages hold together stays, and at each moment the devices stand
/// for the table after some commits, none below the floor. The machine says which pages leave; where they have changes
/// that aren't sealed the log is sealed before.
pub fn touch<S: Site>(
    site: &mut S,
    log: &mut LogStore,
    pages: &mut PageStore,
    page: u32,
) -> Result<(), Stop>
    requires going { Invariant log.old pages.old (S.state site.old) }
    requires exists { page < pages.old.flash.geometry.pages }

    // Of an honest site on which log and pages hold together.
    ensures holds { (newest : Option Master) (records : List Entry) (history : History)
        → Represents log.old pages.old (S.state site.old) newest records history
        → OnOk result (Represents log.new pages.new (S.state site.new) newest records history) }
    ensures keeps { (newest : Option Master) (records : List Entry) (history : History)
        → Represents log.old pages.old (S.state site.old) newest records history
        → Keeps result pages.old.flash.geometry log.old log.new (S.state site.old) (S.state site.new)
        (LeavesSomeUnder newest pages.old.flash.geometry history (S.state site.old).told) 0 0 }

    // Of an honest site with an opened log, while its records are redone: no page knows of a record that isn't sealed.
    ensures redoing { (o : Opening) (front : List Entry) → IsRedoing o log.old pages.old (S.state site.old) front
        → OnOk result (IsRedoing o log.new pages.new (S.state site.new) front) }
    ensures keeps_opened { (o : Opening) (front : List Entry)
        → IsRedoing o log.old pages.old (S.state site.old) front
        → Keeps result pages.old.flash.geometry log.old log.new (S.state site.old) (S.state site.new)
        (LeavesOpened o (S.state site.old).told) 0 0 }
    ensures at_rest { (o : Opening) (front : List Entry) → IsRedoing o log.old pages.old (S.state site.old) front
        → PerformsAtRest result (one_touch page) pages.old pages.new }

    // Of an honest site that log and pages fit, whatever the records say.
    ensures ready { (list : LogList) → AreReady pages.old log.old list (S.state site.old) → list.tail ≡ []
        → OnOk result (AreReady pages.new log.new list (S.state site.new)) }

    // Of every site.
    ensures asks { StepsMachine result (one_touch page) pages.old pages.new (S.state site.old) (S.state site.new) }
    ensures front { OnOk result ((front_of pages.new.pool.frames).page ≡ page) }
    ensures performs { (newest : Option Master) (records : List Entry) (history : History)
        → Represents log.old pages.old (S.state site.old) newest records history
        → PerformsOn result (touch_work page) log.old log.new pages.old pages.new (S.state site.old)
        (S.state site.new) }
    ensures there { OnOk result (0 < length pages.new.pool.frames) }
    ensures logs_nothing { LogsNothing result log.old log.new pages.old pages.new (S.state site.old)
        (S.state site.new) }
{
    pages.touch(site, log, page)
}

/// Appends a record, and answers its LSN. From the kept block on there is room for one block more. The pages stay as
/// they are, so where the record is on none of them log and pages hold together still.
pub fn log_record<S: Site>(site: &mut S, log: &mut LogStore, rec: &LogRecord) -> Result<u64, Stop>
    requires going { log_store.Invariant log.old (S.state site.old) }
    requires form { HasForm rec.now }
    requires room { blocks_to log.old + 1 < log.old.kept + log.old.geometry.blocks }

    // Of an honest site on which log and pages hold together.
    ensures log_holds { (pages : PageStore) (newest : Option Master) (records : List Entry) (history : History)
        → log.old.geometry ≡ pages.flash.geometry
        → Represents log.old pages (S.state site.old) newest records history
        → IfOk result (λ lsn. MayGrow log.old pages (S.state site.old).image newest records
        (record { lsn = lsn; rec = rec.now })
        → RepresentsLog pages.flash.geometry log.new pages (S.state site.new) newest
        (records ++ record { lsn = lsn; rec = rec.now } ∷ []) history) }
    ensures pages { (pages : PageStore) (newest : Option Master) (records : List Entry) (history : History)
        → Represents log.old pages (S.state site.old) newest records history
        → KeepsPages pages.flash.geometry pages (S.state site.old).image (S.state site.new).image }
    ensures holds { (pages : PageStore) (newest : Option Master) (records : List Entry) (history : History)
        → log.old.geometry ≡ pages.flash.geometry
        → Represents log.old pages (S.state site.old) newest records history → number_of rec.now ≡ None
        → IfOk result (λ lsn. MayGrow log.old pages (S.state site.old).image newest records
        (record { lsn = lsn; rec = rec.now })
        → Represents log.new pages (S.state site.new) newest
        (records ++ record { lsn = lsn; rec = rec.now } ∷ []) history) }
    // A Commit waits for its seal: it is one commit more, after which the history has the table with its writes.
    ensures commit { (pages : PageStore) (newest : Option Master) (records : List Entry) (history : History)
        (txn number : ℕ)
        → log.old.geometry ≡ pages.flash.geometry
        → Represents log.old pages (S.state site.old) newest records history
        → rec.now ≡ LogRecord.Commit txn number → MayCommit newest records txn number history.commits
        → history.tables (history.commits + 1)
        ≡ table_with (history.tables history.commits) (writes_in txn records)
        → IfOk result (λ lsn. Represents log.new pages (S.state site.new) newest
        (records ++ record { lsn = lsn; rec = rec.now } ∷ [])
        (record history { commits = history.commits + 1 })) }
    ensures orderly { (pages : PageStore) (newest : Option Master) (records : List Entry) (history : History)
        → log.old.geometry ≡ pages.flash.geometry
        → Represents log.old pages (S.state site.old) newest records history
        → IfOk result (λ lsn. MayGrow log.old pages (S.state site.old).image newest records
        (record { lsn = lsn; rec = rec.now })
        → AreOrderly records → AreOrderly (records ++ record { lsn = lsn; rec = rec.now } ∷ [])) }
    ensures last { (pages : PageStore) (newest : Option Master) (records : List Entry) (history : History)
        → log.old.geometry ≡ pages.flash.geometry
        → Represents log.old pages (S.state site.old) newest records history
        → IfOk result (λ lsn. EndsWith pages.flash.geometry log.new pages (S.state site.new) newest records
        history
        (record { lsn = lsn; rec = rec.now })) }
    ensures keeps { (pages : PageStore) (newest : Option Master) (records : List Entry) (history : History)
        → Represents log.old pages (S.state site.old) newest records history
        → KeepsBeside result log.old log.new pages (S.state site.old) (S.state site.new)
        (LeavesSomeUnder newest pages.flash.geometry history (S.state site.old).told) 1 }
    ensures performs { (pages : PageStore) (newest : Option Master) (records : List Entry) (history : History)
        → Invariant log.old pages (S.state site.old)
        → Represents log.old pages (S.state site.old) newest records history
        → PerformsOn result (record_work rec.now) log.old log.new pages pages (S.state site.old) (S.state site.new) }

    // Of every site.
    ensures rises { IfOk result (λ lsn. (end_of log.old ≤ lsn) × (lsn < end_of log.new)) }
    ensures forced { IfOk result (λ lsn. lsn < end_forced log.new) }
    ensures works { KeepsInvariantBeside result log.old log.new (S.state site.old) (S.state site.new) }
    ensures last_block { IfOk result (λ lsn. 512 * log.new.ring.hi ≤ lsn) }
    ensures some { OnOk result (has_tail log.new ≡ true) }
    ensures blocks { OnOk result (blocks_to log.new ≤ blocks_to log.old + 1) }

    // When each answer comes.
    ensures stops { IfErr result (λ stop. (stop ≡ Stop.Device Dev.Log) ⊎ (stop ≡ Stop.Worn Dev.Log)) }
{
    log.append(site, rec)
}

/// Appends an Update or a CLR, which is on the page in front of the pool and has room there, and changes that page by
/// it. Answers the record's LSN. From the kept block on there is room for one block more. What log and pages hold
/// together goes on by the record, and at each moment the devices stand as they do while a page is touched. Where the
/// page has an LSN from the log's end on it answers Foreign.
pub fn log_change<S: Site>(
    site: &mut S,
    log: &mut LogStore,
    pages: &mut PageStore,
    rec: &LogRecord,
) -> Result<u64, Stop>
    requires going { Invariant log.old pages.old (S.state site.old) }
    requires there { 0 < length pages.old.pool.frames }
    requires form { HasForm rec.now }
    requires on_page { IsOnPage (front_of pages.old.pool.frames).page rec.now }
    requires fits { HasRoomInFront pages.old rec.now }
    requires room { blocks_to log.old + 1 < log.old.kept + log.old.geometry.blocks }

    // Of an honest site on which log and pages hold together.
    ensures holds { (newest : Option Master) (records : List Entry) (history : History)
        → Represents log.old pages.old (S.state site.old) newest records history
        → IfOk result (λ lsn. MayGrow log.old pages.old (S.state site.old).image newest records
        (record { lsn = lsn; rec = rec.now })
        → Represents log.new pages.new (S.state site.new) newest
        (records ++ record { lsn = lsn; rec = rec.now } ∷ []) history) }
    ensures orderly { (newest : Option Master) (records : List Entry) (history : History)
        → Represents log.old pages.old (S.state site.old) newest records history
        → IfOk result (λ lsn. MayGrow log.old pages.old (S.state site.old).image newest records
        (record { lsn = lsn; rec = rec.now })
        → AreOrderly records → AreOrderly (records ++ record { lsn = lsn; rec = rec.now } ∷ [])) }
    ensures keeps { (newest : Option Master) (records : List Entry) (history : History)
        → Represents log.old pages.old (S.state site.old) newest records history
        → Keeps result pages.old.flash.geometry log.old log.new (S.state site.old) (S.state site.new)
        (LeavesSomeUnder newest pages.old.flash.geometry history (S.state site.old).told) 1 0 }
    ensures performs { (newest : Option Master) (records : List Entry) (history : History)
        → Represents log.old pages.old (S.state site.old) newest records history
        → PerformsOn result (change_work rec.now (front_of pages.old.pool.frames).page) log.old log.new pages.old
        pages.new (S.state site.old) (S.state site.new) }

    // Of every site.
    ensures machine { OnOk result (cache_of pages.new ≡ with_change (cache_of pages.old)) }
    ensures rises { IfOk result (λ lsn. (end_of log.old ≤ lsn) × (lsn < end_of log.new)) }
    ensures works { KeepsInvariant result log.old log.new pages.old pages.new (S.state site.old) (S.state site.new) }
    ensures blocks { OnOk result (blocks_to log.new ≤ blocks_to log.old + 1) }
    ensures reads { SameReads (S.state site.old) (S.state site.new) }
    ensures stages { Stages result [] (next_group (cache_of pages.old)) pages.old pages.new (S.state site.old)
        (S.state site.new) }

    // When each answer comes.
    ensures stops { IfErr result (λ stop. (stop ≡ Stop.Device Dev.Log)
        ⊎ ((stop ≡ Stop.Worn Dev.Log) ⊎ (stop ≡ Stop.Foreign))) }
    ensures foreign { IsErrOf result Stop.Foreign
        → end_of log.old ≤ lsn_of (front_of pages.old.pool.frames).content }
{
    let lsn = match log_record(site, log, rec) {
        Ok(lsn) => lsn,
        Err(stop) => return Err(stop),
    };
    if pages.front_lsn() >= lsn {
        return Err(Stop::Foreign);
    }
    change_front(pages, rec, lsn);
    Ok(lsn)
}
