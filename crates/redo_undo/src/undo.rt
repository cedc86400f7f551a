// Undoing an Update: a compensation record, and what stood before it.
ghost use Rattle.std.specs.Prelude.{◌≡◌, ◌≢◌, ◌↔◌, ◌+◌, ◌<◌, ◌≤◌, ◌++◌, ◌∷◌, [], ◌^◌, ℕ, List, length, IsTrue, true};
ghost use Rattle.std.specs.Prelude.{◌*◌, ◌-◌, min, take, IfOk, IfErr, IfSome, IfNone, OnOk, Option};
ghost use Rattle.site.specs.declared.outside.Stop.{Stop};
ghost use Rattle.record_model.specs.State.{Content};
ghost use Rattle.log_records.specs.declared.log_record.LogRecord.{LogRecord};
ghost use Rattle.log_records.specs.Log.{Entry, is_update};
ghost use Rattle.log_records.specs.Sound.{AreOrderly};
ghost use Rattle.log_records.specs.Spelling.{HasForm, IsShort};
ghost use Rattle.log_records.specs.Unfinished.{is_clr, left_open};
ghost use Rattle.log_laws.specs.Analysis.{Unfinished, IsUnfinished};
ghost use Rattle.log_store.specs.Representation as log_store;
ghost use Rattle.log_store.specs.Representation.{end_of};
ghost use Rattle.page_store.specs.declared.store.PageStore.{PageStore};
ghost use Rattle.checkpoint.specs.declared.master.Master.{Master};
ghost use Rattle.redo_laws.specs.Running.{History};
ghost use Rattle.redo_laws.specs.Holding.{Invariant, Represents, MayGrow, blocks_to};
ghost use Rattle.redo_undo.specs.Undoing.{IsAt, IsStepOf, Undone, Passed};
ghost use Rattle.redo_undo.specs.Undoing as spec;
ghost use Rattle.redo_undo.specs.declared.undo.Step.{Step};
ghost use Rattle.redo_undo.specs.Rollback.{CompensatesUpTo, UndoesLast, RollsBack};
ghost use Rattle.redo_laws.specs.MachineSteps.{one_change, undo_one_works};
ghost use Rattle.redo_laws.specs.UndoWorks.{works_of};
ghost use Rattle.redo_laws.specs.Calls.{KeepsInvariant, ReadsOne};
ghost use Rattle.redo_undo.specs.Mirroring.{clrs_for, undo_one_work};
ghost use Rattle.redo_undo.specs.UndoCalls.{UndoesWork};
ghost use Rattle.ring_machine.specs.Commands.{takes_back};
ghost use Rattle.ring_machine.specs.Restart.{clr_work};

use crate::changing::fits_front;
use crate::logging::{log_change, log_record, touch};
use log_records::LogRecord;
use log_store::LogStore;
use page_store::PageStore;
use record_model::Octets;
use site::{Site, Stop};

/// Where a transaction stands that is being undone.
#[derive(Clone, Copy)]
pub(crate) struct UndoCursor {
    /// The transaction: the LSN of its Begin.
    pub txn: u64,
    /// The LSN of its last record.
    pub last: u64,
    /// The LSN of the record that is read next, or of its Begin.
    pub next: u64,
}

/// An Update that is to be compensated.
#[derive(Drop)]
struct Wanted {
    prev: u64,
    page: u32,
    slot: u8,
    before: Option<Octets>,
}

/// What undoing does with a record that it has read.
#[derive(Drop)]
enum Step {
    /// An Update is compensated.
    Compensate(Wanted),
    /// A CLR is passed over: undoing goes on at this LSN.
    Pass(u64),
}

// Whether from the kept block on there is room for one block more, besides the tail.
pub(crate) fn has_room(log: &LogStore) -> bool
    requires limits { log.now.geometry.blocks < 2 ^ 32 }
    requires bounded { log.now.ring.hi ≤ 2 ^ 40 }
    requires kept { log.now.kept ≤ log.now.ring.hi }
    requires low { 2 ≤ log.now.used }
    ensures { IsTrue result ↔ (blocks_to log.now + 1 < log.now.kept + log.now.geometry.blocks) }
{
    let tail = if log.tail_empty() { 0 } else { 1 };
    let geometry = log.geometry();
    log.sealed_end() / 512 + tail + 1 < log.kept() + geometry.blocks as u64
}

// What undoing a transaction does with the record at the LSN where it goes on: that is an Update or a CLR of this
// transaction, names an earlier one to go on with, and an Update is on a page that exists. Of any other record it says
// none.
fn step_of(rec: LogRecord, at: &UndoCursor, pages: u32) -> Option<Step>
    ensures some { IfSome result (IsStepOf at.now pages rec) }
    ensures none { IfNone result ((step : Step) → IsStepOf at.now pages rec step → ⊥) }
{
    match rec {
        LogRecord::Update {
            txn,
            prev,
            page,
            slot,
            before,
            ..
        } => {
            if txn != at.txn {
                return None;
            }
            if prev >= at.next {
                return None;
            }
            if page >= pages {
                return None;
            }
            Some(Step::Compensate(Wanted {
                prev,
                page,
                slot,
                before,
            }))
        }
        LogRecord::Clr { txn, undo_next, .. } => {
            if txn != at.txn {
                return None;
            }
            if undo_next >= at.next {
                return None;
            }
            Some(Step::Pass(undo_next))
        }
        _ => None,
    }
}

// Reads the record where undoing a transaction goes on. It stands in the kept log.
fn read_step<S: Site>(log: &LogStore, site: &mut S, at: &UndoCursor) -> Result<Step, Stop>
    requires going { log_store.Invariant log.now (S.state site.old) }
    requires last { at.now.last < end_of log.now }

    // Of an honest site on which log and pages hold together.
    ensures step { (pages : PageStore) (newest : Option Master) (records : List Entry) (history : History)
        (x : Unfinished) (e : Entry) (rest : List Entry)
        → log.now.geometry ≡ pages.flash.geometry
        → Represents log.now pages (S.state site.old) newest records history
        → IsUnfinished records x → IsAt at.now x → x.chain ≡ e ∷ rest
        → IfOk result (IsStepOf at.now log.now.geometry.pages e.rec) }
    ensures readable { (pages : PageStore) (newest : Option Master) (records : List Entry) (history : History)
        (x : Unfinished) (e : Entry) (rest : List Entry)
        → log.now.geometry ≡ pages.flash.geometry
        → Represents log.now pages (S.state site.old) newest records history
        → IsUnfinished records x → IsAt at.now x → x.chain ≡ e ∷ rest
        → IfErr result (λ stop. stop ≢ Stop.Foreign) }

    // Of every site: the step is that of some record of this transaction.
    ensures own { IfOk result (λ step. (rec : LogRecord) × HasForm rec
        × IsStepOf at.now log.now.geometry.pages rec step) }
    ensures reads { ReadsOne result (S.state site.old) (S.state site.new) }
{
    if at.next > at.last {
        return Err(Stop::Foreign);
    }
    if at.next < 512 * log.kept() {
        return Err(Stop::Foreign);
    }
    let rec = match log.read_at(site, at.next) {
        Ok(rec) => rec,
        Err(stop) => return Err(stop),
    };
    match step_of(rec, at, log.geometry().pages) {
        Some(step) => Ok(step),
        None => Err(Stop::Foreign),
    }
}

// Logs the CLR of an Update, and its slot has again what stood there before. Answers the CLR's LSN. Where the page has
// no room for that it answers Foreign, and logs nothing.
fn compensate<S: Site>(
    site: &mut S,
    log: &mut LogStore,
    pages: &mut PageStore,
    at: &UndoCursor,
    wanted: Wanted,
) -> Result<u64, Stop>
    requires going { Invariant log.old pages.old (S.state site.old) }
    requires form { (wanted.slot < 32) × IsShort wanted.before }
    requires exists { wanted.page < pages.old.flash.geometry.pages }
    requires room { blocks_to log.old + 1 < log.old.kept + log.old.geometry.blocks }

    // Of an honest site on which log and pages hold together.
    ensures holds { (newest : Option Master) (records : List Entry) (history : History)
        → Represents log.old pages.old (S.state site.old) newest records history
        → IfOk result (λ lsn. MayGrow log.old pages.old (S.state site.old).image newest records
        (record {
          lsn = lsn;
          rec = LogRecord.Clr at.now.txn at.now.last wanted.prev wanted.page wanted.slot
              wanted.before;
        })
        → Represents log.new pages.new (S.state site.new) newest (records
        ++ record {
          lsn = lsn;
          rec = LogRecord.Clr at.now.txn at.now.last wanted.prev wanted.page wanted.slot
              wanted.before;
        } ∷ [])
        history) }
    ensures orderly { (newest : Option Master) (records : List Entry) (history : History)
        → Represents log.old pages.old (S.state site.old) newest records history
        → IfOk result (λ lsn. MayGrow log.old pages.old (S.state site.old).image newest records
        (record {
          lsn = lsn;
          rec = LogRecord.Clr at.now.txn at.now.last wanted.prev wanted.page wanted.slot
              wanted.before;
        })
        → AreOrderly records → AreOrderly (records
        ++ record {
          lsn = lsn;
          rec = LogRecord.Clr at.now.txn at.now.last wanted.prev wanted.page wanted.slot
              wanted.before;
        } ∷ [])) }
    ensures does { (newest : Option Master) (records : List Entry) (history : History) (lsn : ℕ)
        → Represents log.old pages.old (S.state site.old) newest records history
        → MayGrow log.old pages.old (S.state site.old).image newest records
        (record {
          lsn = lsn;
          rec = LogRecord.Clr at.now.txn at.now.last wanted.prev wanted.page wanted.slot
              wanted.before;
        })
        → UndoesWork result (takes_back (32 * wanted.page + wanted.slot, wanted.before)) (one_change wanted.page)
        log.old log.new pages.old pages.new (S.state site.old) (S.state site.new) newest history 1 0 }

    // Of every site.
    ensures rises { IfOk result (λ lsn. (end_of log.old ≤ lsn) × (lsn < end_of log.new)) }
    ensures works { KeepsInvariant result log.old log.new pages.old pages.new (S.state site.old) (S.state site.new) }
    ensures blocks { OnOk result (blocks_to log.new ≤ blocks_to log.old + 1) }
    ensures log_reads { (S.state site.new).log_reads ≡ (S.state site.old).log_reads }
{
    let page = wanted.page;
    let clr = LogRecord::Clr {
        txn: at.txn,
        prev: at.last,
        undo_next: wanted.prev,
        page,
        slot: wanted.slot,
        after: wanted.before,
    };
    match touch(site, log, pages, page) {
        Ok(()) => {}
        Err(stop) => return Err(stop),
    }
    if !fits_front(pages, &clr) {
        return Err(Stop::Foreign);
    }
    log_change(site, log, pages, &clr)
}

// Compensates an Update that was read where undoing its transaction goes on: its slot has again what stood before it.
// Where log or page has no room for that it answers Foreign, and logs nothing.
fn put_back<S: Site>(
    site: &mut S,
    log: &mut LogStore,
    pages: &mut PageStore,
    at: UndoCursor,
    wanted: Wanted,
) -> Result<UndoCursor, Stop>
    requires going { Invariant log.old pages.old (S.state site.old) }
    requires last { at.last < end_of log.old }
    requires form { (wanted.slot < 32) × IsShort wanted.before }
    requires exists { wanted.page < pages.old.flash.geometry.pages }

    // Of an honest site on which log and pages hold together.
    ensures undone { (newest : Option Master) (records : List Entry) (history : History)
        (x : Unfinished) (u : Entry) (rest : List Entry)
        → Represents log.old pages.old (S.state site.old) newest records history
        → IsUnfinished records x → IsAt at x → x.chain ≡ u ∷ rest
        → IsStepOf at log.old.geometry.pages u.rec (Step.Compensate wanted)
        → IfOk result (Undone log.new pages.new (S.state site.new) newest records history x) }
    ensures does { (newest : Option Master) (records : List Entry) (history : History)
        (x : Unfinished) (u : Entry) (rest : List Entry)
        → Represents log.old pages.old (S.state site.old) newest records history
        → IsUnfinished records x → IsAt at x → x.chain ≡ u ∷ rest
        → IsStepOf at log.old.geometry.pages u.rec (Step.Compensate wanted)
        → UndoesWork result (clr_work u) (works_of (u ∷ [])) log.old log.new pages.old pages.new (S.state site.old)
        (S.state site.new) newest history 1 0 }

    // Of every site.
    ensures last { IfOk result (λ now. (end_of log.old ≤ now.last) × (now.last < end_of log.new)) }
    ensures next { IfOk result (λ now. now.next ≡ wanted.prev) }
    ensures same { IfOk result (λ now. now.txn ≡ at.txn) }
    ensures works { KeepsInvariant result log.old log.new pages.old pages.new (S.state site.old) (S.state site.new) }
    ensures blocks { OnOk result (blocks_to log.new ≤ blocks_to log.old + 1) }
    ensures log_reads { (S.state site.new).log_reads ≡ (S.state site.old).log_reads }
{
    if !has_room(log) {
        return Err(Stop::Foreign);
    }
    let next = wanted.prev;
    let last = match compensate(site, log, pages, &at, wanted) {
        Ok(last) => last,
        Err(stop) => return Err(stop),
    };
    Ok(UndoCursor {
        txn: at.txn,
        last,
        next,
    })
}

/// Compensates the Update of a transaction where undoing it goes on. Where what it reads is no such Update, or log or
/// page has no room for what it logs, it answers Foreign, and logs nothing.
pub(crate) fn undo_update<S: Site>(
    site: &mut S,
    log: &mut LogStore,
    pages: &mut PageStore,
    at: UndoCursor,
) -> Result<UndoCursor, Stop>
    requires going { Invariant log.old pages.old (S.state site.old) }
    requires last { at.last < end_of log.old }

    // Of an honest site on which log and pages hold together.
    ensures undone { (newest : Option Master) (records : List Entry) (history : History)
        (x : Unfinished) (u : Entry) (rest : List Entry)
        → Represents log.old pages.old (S.state site.old) newest records history
        → IsUnfinished records x → IsAt at x → x.chain ≡ u ∷ rest → is_update u.rec ≡ true
        → IfOk result (Undone log.new pages.new (S.state site.new) newest records history x) }
    ensures does { (newest : Option Master) (records : List Entry) (history : History) (x : Unfinished)
        (u : Entry) (rest : List Entry)
        → Represents log.old pages.old (S.state site.old) newest records history
        → IsUnfinished records x → IsAt at x → x.chain ≡ u ∷ rest → is_update u.rec ≡ true
        → UndoesWork result (clr_work u) (works_of (u ∷ [])) log.old log.new pages.old pages.new (S.state site.old)
        (S.state site.new) newest history 1 1 }

    // Of every site.
    ensures last { IfOk result (λ now. now.last < end_of log.new) }
    ensures falls { IfOk result (λ now. now.next < at.next) }
    ensures same { IfOk result (λ now. now.txn ≡ at.txn) }
    ensures works { KeepsInvariant result log.old log.new pages.old pages.new (S.state site.old) (S.state site.new) }
    ensures blocks { OnOk result (blocks_to log.new ≤ blocks_to log.old + 1) }
    ensures log_reads { (S.state site.new).log_reads ≤ (S.state site.old).log_reads + 1 }
{
    match read_step(log, site, &at) {
        Ok(Step::Compensate(wanted)) => put_back(site, log, pages, at, wanted),
        Ok(Step::Pass(_)) => Err(Stop::Foreign),
        Err(stop) => Err(stop),
    }
}

// Takes one step back in a transaction: an Update is compensated, and a CLR passed over.
fn undo_step<S: Site>(
    site: &mut S,
    log: &mut LogStore,
    pages: &mut PageStore,
    at: UndoCursor,
) -> Result<UndoCursor, Stop>
    requires going { Invariant log.old pages.old (S.state site.old) }
    requires last { at.last < end_of log.old }

    // Of an honest site on which log and pages hold together.
    ensures undone { (newest : Option Master) (records : List Entry) (history : History)
        (x : Unfinished) (u : Entry) (rest : List Entry)
        → Represents log.old pages.old (S.state site.old) newest records history
        → IsUnfinished records x → IsAt at x → x.chain ≡ u ∷ rest → is_update u.rec ≡ true
        → IfOk result (Undone log.new pages.new (S.state site.new) newest records history x) }
    ensures does { (newest : Option Master) (records : List Entry) (history : History) (x : Unfinished)
        (u : Entry) (rest : List Entry)
        → Represents log.old pages.old (S.state site.old) newest records history
        → IsUnfinished records x → IsAt at x → x.chain ≡ u ∷ rest → is_update u.rec ≡ true
        → UndoesWork result (clr_work u) (works_of (u ∷ [])) log.old log.new pages.old pages.new (S.state site.old)
        (S.state site.new) newest history 1 1 }
    ensures passed { (newest : Option Master) (records : List Entry) (history : History)
        (x : Unfinished) (c : Entry) (rest : List Entry)
        → Represents log.old pages.old (S.state site.old) newest records history
        → IsUnfinished records x → IsAt at x → x.chain ≡ c ∷ rest → is_clr c.rec ≡ true
        → IfOk result (Passed log.old log.new pages.new (S.state site.new) newest records history x c) }
    ensures passes { (newest : Option Master) (records : List Entry) (history : History)
        (x : Unfinished) (c : Entry) (rest : List Entry)
        → Represents log.old pages.old (S.state site.old) newest records history
        → IsUnfinished records x → IsAt at x → x.chain ≡ c ∷ rest → is_clr c.rec ≡ true
        → UndoesWork result [] [] log.old log.new pages.old pages.new (S.state site.old) (S.state site.new) newest
        history 0 1 }

    // Of every site.
    ensures last { IfOk result (λ now. (at.last ≤ now.last) × (now.last < end_of log.new)) }
    ensures falls { IfOk result (λ now. now.next < at.next) }
    ensures same { IfOk result (λ now. now.txn ≡ at.txn) }
    ensures works { KeepsInvariant result log.old log.new pages.old pages.new (S.state site.old) (S.state site.new) }
    ensures blocks { IfOk result (λ now. blocks_to log.new ≤ blocks_to log.old + spec.clrs_logged at now) }
{
    match read_step(log, site, &at) {
        Ok(Step::Compensate(wanted)) => put_back(site, log, pages, at, wanted),
        Ok(Step::Pass(next)) => Ok(UndoCursor {
            txn: at.txn,
            last: at.last,
            next,
        }),
        Err(stop) => Err(stop),
    }
}

// How many CLRs a step back has logged.
fn clrs_logged(before: &UndoCursor, now: &UndoCursor) -> u64
    ensures { result ≡ spec.clrs_logged before.now now.now }
{
    if now.last == before.last { 0 } else { 1 }
}

// Compensates the last Updates of a transaction that aren't compensated, so many, the last one first: undoing goes back
// from record to record, down to its Begin at most.
fn undo_updates<S: Site>(
    site: &mut S,
    log: &mut LogStore,
    pages: &mut PageStore,
    first: UndoCursor,
    count: u64,
) -> Result<UndoCursor, Stop>
    requires going { Invariant log.old pages.old (S.state site.old) }
    requires last { first.last < end_of log.old }

    // Of an honest site on which log and pages hold together.
    ensures undone { (newest : Option Master) (records : List Entry) (history : History)
        (x : Unfinished)
        → Represents log.old pages.old (S.state site.old) newest records history
        → IsUnfinished records x → IsAt first x
        → IfOk result (CompensatesUpTo log.new pages.new (S.state site.new) newest records history x.txn count
        (blocks_to log.old)) }
    ensures does { (newest : Option Master) (records : List Entry) (history : History) (x : Unfinished)
        → Represents log.old pages.old (S.state site.old) newest records history
        → IsUnfinished records x → IsAt first x
        → UndoesWork result (clrs_for (take count (left_open records x.txn)))
        (works_of (take count (left_open records x.txn))) log.old log.new pages.old pages.new (S.state site.old)
        (S.state site.new) newest history (min count x.remaining)
        (min count x.remaining + (length x.chain - x.remaining)) }

    // Of every site.
    ensures last { IfOk result (λ now. (first.last ≤ now.last) × (now.last < end_of log.new)) }
    ensures works { KeepsInvariant result log.old log.new pages.old pages.new (S.state site.old) (S.state site.new) }
    ensures blocks { OnOk result (blocks_to log.new ≤ blocks_to log.old + count) }
{
    let mut at = first;
    let mut more = count;
    while more > 0 {
        if at.next == at.txn {
            return Ok(at);
        }
        let next = match undo_step(site, log, pages, at) {
            Ok(next) => next,
            Err(stop) => return Err(stop),
        };
        more -= clrs_logged(&at, &next);
        at = next;
    }
    Ok(at)
}

/// Undoes the last Updates of a transaction that aren't compensated, so many: a CLR for each, the last one first. `txn`
/// is the LSN of its Begin and `last` that of its last record. Answers the LSN of its last record then. It goes back as
/// `undo_one` does: it passes over CLRs, and reads each record once.
/// Where what it reads is no record of the transaction that undo may read, or log or page has no room for what it logs,
/// it answers Foreign.
pub fn undo_to<S: Site>(
    site: &mut S,
    log: &mut LogStore,
    pages: &mut PageStore,
    txn: u64,
    last: u64,
    count: u64,
) -> Result<u64, Stop>
    requires going { Invariant log.old pages.old (S.state site.old) }
    requires last { last < end_of log.old }

    // Of an honest site on which log and pages hold together, and of an unfinished transaction of which so many remain.
    ensures undone { (newest : Option Master) (records : List Entry) (history : History)
        (x : Unfinished)
        → Represents log.old pages.old (S.state site.old) newest records history
        → IsUnfinished records x → x.txn ≡ txn → x.last ≡ last → x.next ≡ last → count ≤ x.remaining
        → IfOk result (UndoesLast log.new pages.new (S.state site.new) newest records history txn count) }
    ensures does { (newest : Option Master) (records : List Entry) (history : History) (x : Unfinished)
        → Represents log.old pages.old (S.state site.old) newest records history
        → IsUnfinished records x → x.txn ≡ txn → x.last ≡ last → x.next ≡ last → count ≤ x.remaining
        → UndoesWork result (clrs_for (take count (left_open records txn)))
        (works_of (take count (left_open records txn))) log.old log.new pages.old pages.new (S.state site.old)
        (S.state site.new) newest history count (count + (length x.chain - x.remaining)) }

    // Of every site.
    ensures last { IfOk result (λ now. (last ≤ now) × (now < end_of log.new)) }
    ensures works { KeepsInvariant result log.old log.new pages.old pages.new (S.state site.old) (S.state site.new) }
    ensures blocks { OnOk result (blocks_to log.new ≤ blocks_to log.old + count) }
{
    let first = UndoCursor {
        txn,
        last,
        next: last,
    };
    match undo_updates(site, log, pages, first, count) {
        Ok(at) => Ok(at.last),
        Err(stop) => Err(stop),
    }
}

/// Undoes a transaction as a whole: a CLR for each of its Updates that has none, the last one first, and its End. `txn`
/// is the LSN of its Begin and `last` that of its last record. Undo reads no record outside of the kept log, and
/// follows a transaction to falling LSNs only: from an Update to the record before it, from a CLR to the record that
/// this names, down to the Begin. It reads each record once.
/// Where what it reads is no such record of the transaction, or log or page has no room for what it logs, it answers
/// Foreign.
pub fn undo_one<S: Site>(
    site: &mut S,
    log: &mut LogStore,
    pages: &mut PageStore,
    txn: u64,
    last: u64,
) -> Result<(), Stop>
    requires going { Invariant log.old pages.old (S.state site.old) }
    requires last { last < end_of log.old }

    // Of an honest site on which log and pages hold together, and of an unfinished transaction.
    ensures undone { (newest : Option Master) (records : List Entry) (history : History)
        (x : Unfinished)
        → Represents log.old pages.old (S.state site.old) newest records history
        → IsUnfinished records x → x.txn ≡ txn → x.last ≡ last → x.next ≡ last
        → OnOk result (RollsBack log.new pages.new (S.state site.new) newest records history txn) }
    ensures does { (newest : Option Master) (records : List Entry) (history : History) (x : Unfinished)
        → Represents log.old pages.old (S.state site.old) newest records history
        → IsUnfinished records x → x.txn ≡ txn → x.last ≡ last → x.next ≡ last
        → UndoesWork result (undo_one_work records txn) (undo_one_works records txn) log.old log.new pages.old pages.new
        (S.state site.old) (S.state site.new) newest history (x.remaining + 1) (length x.chain) }
    ensures blocks { (newest : Option Master) (records : List Entry) (history : History)
        (x : Unfinished)
        → Represents log.old pages.old (S.state site.old) newest records history
        → IsUnfinished records x → x.txn ≡ txn → x.last ≡ last → x.next ≡ last
        → OnOk result (blocks_to log.new ≤ blocks_to log.old + (x.remaining + 1)) }

    // Of every site.
    ensures works { KeepsInvariant result log.old log.new pages.old pages.new (S.state site.old) (S.state site.new) }
{
    let first = UndoCursor {
        txn,
        last,
        next: last,
    };
    // No log has as many Updates.
    let _undone = match undo_updates(site, log, pages, first, u64::MAX) {
        Ok(at) => at,
        Err(stop) => return Err(stop),
    };
    if !has_room(log) {
        return Err(Stop::Foreign);
    }
    match log_record(site, log, &LogRecord::End { txn }) {
        Ok(_) => Ok(()),
        Err(stop) => Err(stop),
    }
}
