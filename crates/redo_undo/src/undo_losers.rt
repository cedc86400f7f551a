// Undoing all transactions that a log leaves unfinished.
ghost use Rattle.std.specs.Prelude.{◌≡◌, ◌⊎◌, ◌+◌, ◌-◌, ◌<◌, ◌≤◌, [], ◌∷◌, ℕ, List, length, drop, reverse, false};
ghost use Rattle.std.specs.Prelude.{IfOk, IfErr, OnOk, Option};
ghost use Rattle.site.specs.declared.outside.Dev.{Dev};
ghost use Rattle.site.specs.declared.outside.Stop.{Stop};
ghost use Rattle.record_model.specs.State.{Content};
ghost use Rattle.log_records.specs.Log.{Entry};
ghost use Rattle.log_records.specs.Unfinished.{pending};
ghost use Rattle.log_store.specs.Representation as log_store;
ghost use Rattle.log_store.specs.Representation.{end_of, has_tail};
ghost use Rattle.page_store.specs.declared.store.PageStore.{PageStore};
ghost use Rattle.checkpoint.specs.declared.master.Master.{Master};
ghost use Rattle.analysis.specs.Open.{Replaces, Remains, TakesOut, LeavesSame, DropsOne, owed_for};
ghost use Rattle.analysis.specs.Table.{listed};
ghost use Rattle.analysis.specs.Read as analysis;
ghost use Rattle.analysis.specs.Read.{IsTable};
ghost use Rattle.redo_laws.specs.Running.{History};
ghost use Rattle.redo_laws.specs.Holding.{Invariant, Represents, blocks_to};
ghost use Rattle.redo_laws.specs.MachineSteps.{undo_works};
ghost use Rattle.redo_laws.specs.UndoWorks.{works_of, IsLastAt, UndoesUpdates};
ghost use Rattle.redo_laws.specs.UndoingAll.{IsHeard, IsOf, Remain, HasNone, IsUndoing, UndoesAll};
ghost use Rattle.redo_laws.specs.Calls.{KeepsInvariant, KeepsInvariantBeside};
ghost use Rattle.redo_undo.specs.Mirroring.{ends_for};
ghost use Rattle.redo_undo.specs.UndoCalls.{UndoesWork, taken_by};
ghost use Rattle.ring_machine.specs.Commands.{ends};
ghost use Rattle.ring_machine.specs.Restart.{clr_work, undoing_one, undo_work};

use crate::logging::log_record;
use crate::undo::{UndoCursor, has_room, undo_update};
use analysis::{Analysis, Loser, table_of_records};
use log_records::LogRecord;
use log_store::LogStore;
use page_store::PageStore;
use site::{Site, Stop};

// Ends a transaction of which nothing remains to be undone. Answers the LSN of its End.
fn end_one<S: Site>(
    site: &mut S,
    log: &mut LogStore,
    found: &mut Analysis,
    txn: u64,
) -> Result<u64, Stop>
    requires going { log_store.Invariant log.old (S.state site.old) }
    requires found { analysis.Invariant found.old }
    requires none { HasNone (listed found.old.table) txn }

    // Of an honest site on which log and pages hold together.
    ensures does { (pages : PageStore) (newest : Option Master) (records : List Entry) (history : History)
        (known : ℕ)
        → Invariant log.old pages (S.state site.old)
        → IsUndoing log.old pages (S.state site.old) newest records history found.old known
        → UndoesWork result ends [] log.old log.new pages pages (S.state site.old) (S.state site.new) newest history
        1 0 }
    ensures updates { (pages : PageStore) (newest : Option Master) (records : List Entry) (history : History)
        (known : ℕ)
        → log.old.geometry ≡ pages.flash.geometry
        → IsUndoing log.old pages (S.state site.old) newest records history found.old known
        → IfOk result (λ lsn. UndoesUpdates log.new pages (S.state site.new) newest records history
        found.new lsn []) }

    // Of every site.
    ensures before { IfOk result (λ lsn. lsn < end_of log.new) }
    ensures rises { OnOk result (end_of log.old ≤ end_of log.new) }
    ensures works { KeepsInvariantBeside result log.old log.new (S.state site.old) (S.state site.new) }
    ensures found { IsHeard found.old found.new }
    ensures takes { OnOk result (TakesOut (listed found.old.table) (listed found.new.table) txn) }
    ensures left { OnOk result (LeavesSame (listed found.old.table) (listed found.new.table)) }
    ensures falls { OnOk result (owed_for (listed found.new.table) < owed_for (listed found.old.table)) }
    ensures blocks { OnOk result (blocks_to log.new ≤ blocks_to log.old + 1) }

    // When each answer comes.
    ensures stops { IfErr result (λ stop. (stop ≡ Stop.Device Dev.Log)
        ⊎ ((stop ≡ Stop.Worn Dev.Log) ⊎ (stop ≡ Stop.Foreign))) }
{
    table_of_records();
    if !has_room(log) {
        return Err(Stop::Foreign);
    }
    let lsn = match log_record(site, log, &LogRecord::End { txn }) {
        Ok(lsn) => lsn,
        Err(stop) => return Err(stop),
    };
    found.finished(txn);
    Ok(lsn)
}

// Ends the transactions of which nothing remains to be undone. `known` is an LSN before the
// log's end, and so is the answer: that of the last record that undo has logged, or `known`.
fn end_undone<S: Site>(
    site: &mut S,
    log: &mut LogStore,
    found: &mut Analysis,
    known: u64,
) -> Result<u64, Stop>
    requires going { log_store.Invariant log.old (S.state site.old) }
    requires found { analysis.Invariant found.old }
    requires known { known < end_of log.old }

    // Of an honest site on which log and pages hold together.
    ensures does { (pages : PageStore) (newest : Option Master) (records : List Entry) (history : History)
        → Invariant log.old pages (S.state site.old)
        → IsUndoing log.old pages (S.state site.old) newest records history found.old known
        → UndoesWork result (ends_for (listed found.old.table)) [] log.old log.new pages pages (S.state site.old)
        (S.state site.new) newest history
        (taken_by result (owed_for (listed found.old.table)) (owed_for (listed found.new.table))) 0 }
    ensures updates { (pages : PageStore) (newest : Option Master) (records : List Entry) (history : History)
        → Invariant log.old pages (S.state site.old)
        → IsUndoing log.old pages (S.state site.old) newest records history found.old known
        → IfOk result (λ lsn. UndoesUpdates log.new pages (S.state site.new) newest records history
        found.new lsn []) }

    // Of every site.
    ensures before { IfOk result (λ lsn. lsn < end_of log.new) }
    ensures rises { OnOk result (end_of log.old ≤ end_of log.new) }
    ensures works { KeepsInvariantBeside result log.old log.new (S.state site.old) (S.state site.new) }
    ensures found { IsHeard found.old found.new }
    ensures remain { OnOk result (Remain (listed found.new.table)) }
    ensures left { OnOk result (LeavesSame (listed found.old.table) (listed found.new.table)) }
    ensures fewer { OnOk result (owed_for (listed found.new.table) ≤ owed_for (listed found.old.table)) }
    ensures blocks { OnOk result (blocks_to log.new + owed_for (listed found.new.table)
        ≤ blocks_to log.old + owed_for (listed found.old.table)) }

    // When each answer comes.
    ensures stops { IfErr result (λ stop. (stop ≡ Stop.Device Dev.Log)
        ⊎ ((stop ≡ Stop.Worn Dev.Log) ⊎ ((stop ≡ Stop.Memory) ⊎ (stop ≡ Stop.Foreign)))) }
{
    let undone = match found.undone() {
        Ok(undone) => undone,
        Err(stop) => return Err(stop),
    };
    let mut last = known;
    for txn in undone.as_slice() {
        last = match end_one(site, log, found, *txn) {
            Ok(lsn) => lsn,
            Err(stop) => return Err(stop),
        };
    }
    Ok(last)
}

// Compensates an Update, the greatest of all that remain, of this unfinished transaction. Answers the LSN of its CLR.
fn undo_greatest<S: Site>(
    site: &mut S,
    log: &mut LogStore,
    pages: &mut PageStore,
    found: &mut Analysis,
    loser: Loser,
    lsn: u64,
) -> Result<u64, Stop>
    requires going { Invariant log.old pages.old (S.state site.old) }
    requires found { analysis.Invariant found.old }
    requires last { loser.last < end_of log.old }
    requires there { IsOf (listed found.old.table) loser }
    requires greatest { Remains (listed found.old.table) loser.txn lsn }
    requires remain { Remain (listed found.old.table) }

    // Of an honest site on which log and pages hold together.
    ensures updates { (newest : Option Master) (records : List Entry) (history : History) (known : ℕ)
        (u : Entry)
        → IsUndoing log.old pages.old (S.state site.old) newest records history found.old known
        → IsLastAt records loser.txn lsn u
        → IfOk result (λ last. UndoesUpdates log.new pages.new (S.state site.new) newest records history found.new
        last (u ∷ [])) }
    ensures does { (newest : Option Master) (records : List Entry) (history : History) (known : ℕ)
        (u : Entry)
        → IsUndoing log.old pages.old (S.state site.old) newest records history found.old known
        → IsLastAt records loser.txn lsn u
        → UndoesWork result (clr_work u) (works_of (u ∷ [])) log.old log.new pages.old pages.new (S.state site.old)
        (S.state site.new) newest history 1 1 }

    // Of every site.
    ensures before { IfOk result (λ last. last < end_of log.new) }
    ensures works { KeepsInvariant result log.old log.new pages.old pages.new (S.state site.old) (S.state site.new) }
    ensures found { IsHeard found.old found.new }
    ensures replaces { IfOk result (λ last. Replaces (listed found.old.table) (listed found.new.table) loser.txn
        (λ x. record x { last = last; updates = drop 1 x.updates })) }
    ensures owed { OnOk result (owed_for (listed found.new.table) + 1 ≡ owed_for (listed found.old.table)) }
    ensures blocks { OnOk result (blocks_to log.new ≤ blocks_to log.old + 1) }
    ensures log_reads { (S.state site.new).log_reads ≤ (S.state site.old).log_reads + 1 }
{
    table_of_records();
    let at = UndoCursor {
        txn: loser.txn,
        last: loser.last,
        next: lsn,
    };
    let now = match undo_update(site, log, pages, at) {
        Ok(now) => now,
        Err(stop) => return Err(stop),
    };
    found.compensated(loser.txn, now.next, now.last);
    Ok(now.last)
}

// Compensates the greatest Update newest that remains, and ends its transaction where nothing of that remains. `known`
// is an LSN before the log's end, and so is the answer, which is that of the last record that undo has logged. A
// transaction whose last record stands behind `known` is Foreign.
fn undo_next<S: Site>(
    site: &mut S,
    log: &mut LogStore,
    pages: &mut PageStore,
    found: &mut Analysis,
    next: (u64, u64),
    known: u64,
) -> Result<u64, Stop>
    requires going { Invariant log.old pages.old (S.state site.old) }
    requires found { analysis.Invariant found.old }
    requires known { known < end_of log.old }
    requires greatest { Remains (listed found.old.table) next.0 next.1 }
    requires remain { Remain (listed found.old.table) }

    // Of an honest site on which log and pages hold together.
    ensures updates { (newest : Option Master) (records : List Entry) (history : History) (u : Entry)
        → IsUndoing log.old pages.old (S.state site.old) newest records history found.old known
        → IsLastAt records next.0 next.1 u
        → IfOk result (λ last. UndoesUpdates log.new pages.new (S.state site.new) newest records history found.new
        last (u ∷ [])) }
    ensures does { (newest : Option Master) (records : List Entry) (history : History) (u : Entry)
        (earlier : List Entry)
        → IsUndoing log.old pages.old (S.state site.old) newest records history found.old known
        → IsLastAt records next.0 next.1 u → reverse (pending records) ≡ u ∷ earlier
        → UndoesWork result (undoing_one u earlier) (works_of (u ∷ [])) log.old log.new pages.old pages.new
        (S.state site.old) (S.state site.new) newest history
        (taken_by result (owed_for (listed found.old.table)) (owed_for (listed found.new.table))) 1 }

    // Of every site.
    ensures before { IfOk result (λ last. last < end_of log.new) }
    ensures works { KeepsInvariant result log.old log.new pages.old pages.new (S.state site.old) (S.state site.new) }
    ensures found { IsHeard found.old found.new }
    ensures remain { OnOk result (Remain (listed found.new.table)) }
    ensures drops { OnOk result (DropsOne (listed found.old.table) (listed found.new.table) next.0) }
    ensures falls { OnOk result (owed_for (listed found.new.table) < owed_for (listed found.old.table)) }
    ensures blocks { OnOk result (blocks_to log.new + owed_for (listed found.new.table)
        ≤ blocks_to log.old + owed_for (listed found.old.table)) }
    ensures log_reads { (S.state site.new).log_reads ≤ (S.state site.old).log_reads + 1 }
{
    table_of_records();
    let Some(loser) = found.loser(next.0) else {
        return Err(Stop::Foreign);
    };
    if loser.last > known {
        return Err(Stop::Foreign);
    }
    let last = match undo_greatest(site, log, pages, found, loser, next.1) {
        Ok(last) => last,
        Err(stop) => return Err(stop),
    };
    if loser.remaining > 1 {
        return Ok(last);
    }
    end_one(site, log, found, next.0)
}

/// Undoes all transactions that analysis has found unfinished. Those of which nothing remains are ended first, in any
/// order; then always the Update with the greatest LSN of all that remain is compensated, and its
/// transaction ended as soon as nothing of it remains. Undo reads no record outside of the kept log. Where what it
/// reads isn't what analysis says, or log or page has no room for what it logs, it answers Foreign. It wants memory for
/// an order of all these Updates, and for the names of the transactions that it ends first.
pub fn undo_all<S: Site>(
    site: &mut S,
    log: &mut LogStore,
    pages: &mut PageStore,
    found: &mut Analysis,
) -> Result<(), Stop>
    requires going { Invariant log.old pages.old (S.state site.old) }
    requires found { analysis.Invariant found.old }

    // Of an honest site on which log and pages hold together, where each record is sealed and analysis has taken all of
    // them.
    ensures undone { (newest : Option Master) (records : List Entry) (history : History)
        → has_tail log.old ≡ false
        → Represents log.old pages.old (S.state site.old) newest records history
        → IsTable [] records (listed found.old.table)
        → OnOk result (UndoesAll log.new pages.new (S.state site.new) newest records history) }
    ensures does { (newest : Option Master) (records : List Entry) (history : History)
        → has_tail log.old ≡ false
        → Represents log.old pages.old (S.state site.old) newest records history
        → IsTable [] records (listed found.old.table)
        → UndoesWork result (undo_work records) (undo_works records) log.old log.new pages.old pages.new
        (S.state site.old) (S.state site.new) newest history (owed_for (listed found.old.table))
        (length (pending records)) }

    // Of every site.
    ensures works { KeepsInvariant result log.old log.new pages.old pages.new (S.state site.old) (S.state site.new) }
    ensures none { OnOk result (listed found.new.table ≡ []) }
    ensures commits { found.new.commits ≡ found.old.commits }
    ensures blocks { OnOk result (blocks_to log.new ≤ blocks_to log.old + owed_for (listed found.old.table)) }
    ensures log_reads { (S.state site.new).log_reads
        ≤ (S.state site.old).log_reads + owed_for (listed found.old.table) }
{
    table_of_records();
    let mut order = match found.order() {
        Ok(order) => order,
        Err(stop) => return Err(stop),
    };
    let sealed = log.sealed_end() + 1;
    let mut known = match end_undone(site, log, found, sealed) {
        Ok(lsn) => lsn,
        Err(stop) => return Err(stop),
    };
    while let Some(next) = order.take_last() {
        known = match undo_next(site, log, pages, found, next, known) {
            Ok(lsn) => lsn,
            Err(stop) => return Err(stop),
        };
    }
    Ok(())
}
