// Analysis and redo of a restart: the log is read once, from its kept block on.
ghost use Rattle.std.specs.Prelude.{◌≡◌, ◌⊎◌, ◌+◌, ◌-◌, ◌*◌, ◌^◌, ◌<◌, ◌≤◌, ◌++◌, ◌∷◌, [], ℕ, List, length, None, true};
ghost use Rattle.std.specs.Prelude.{false, IfSome, IfNone, OnOk, IfOk, IfErr, IsErrOf, Option};
ghost use Rattle.site.specs.declared.outside.Stop.{Stop};
ghost use Rattle.record_model.specs.State.{Content};
ghost use Rattle.log_records.specs.declared.log_record.LogRecord.{LogRecord};
ghost use Rattle.log_records.specs.Spelling.{HasForm, IsBlock, used_by};
ghost use Rattle.log_records.specs.Log.{Entry, log_from, entries_from, number_of, txn_by};
ghost use Rattle.checkpoint.specs.Actives.{Ascend};
ghost use Rattle.checkpoint.specs.Newest.{seen};
ghost use Rattle.image_meaning.specs.Meaning.{logical_image_under, master_of, kept_by, saved_by};
ghost use Rattle.image_meaning.specs.Moments.{LeavesTableUnder};
ghost use Rattle.analysis.specs.Open.{owed_for};
ghost use Rattle.analysis.specs.Table.{listed};
ghost use Rattle.analysis.specs.Read as read;
ghost use Rattle.analysis.specs.Read.{IsAnalysis, IsTable};
ghost use Rattle.analysis.specs.Taken.{is_named, is_taken, Steps, taken};
ghost use Rattle.redo_laws.specs.Holding.{Invariant, Represents, IsOnPage, blocks_to};
ghost use Rattle.redo_laws.specs.Running.{settled};
ghost use Rattle.redo_undo.specs.Redoing.{IsOpened, Opening, Takes, LeavesOpened, IsRedoing, HasTaken, touches_of};
ghost use Rattle.redo_undo.specs.Redoing.{AsksAtRest, IsReadable, IsReading, heard_of, opened};
ghost use Rattle.log_judge.specs.Judging.{HasHeard};
ghost use Rattle.log_judge.specs.Rules.{IsJudged};
ghost use Rattle.log_store.specs.LogList.{LogList};
ghost use Rattle.page_store.specs.Leaves.{AreReady};
ghost use Rattle.checkpoint.specs.declared.master.Master.{Master};
ghost use Rattle.redo_laws.specs.MachineSteps.{redo_works};
ghost use Rattle.redo_laws.specs.Calls.{KeepsInvariant, LogsNothing, Keeps};

use crate::changing::{change_front, fits_front};
use crate::logging::touch;
use analysis::{Analysis, losers_are_taken, sound_log_steps, table_of_records};
use checkpoint::Master;
use log_judge::{Judge, Sizes, sound_is_judged};
use log_records::{BLOCK_LEN, LogRecord, read_record};
use log_store::LogStore;
use page_store::PageStore;
use site::{Site, Stop};
use std::alloc::Global;

/// What the log leaves unfinished, the number of its records that were read, and what is known of them for judging
/// them.
#[derive(Drop)]
pub struct Redone {
    pub found: Analysis,
    pub records: u64,
    pub judge: Judge,
}

// The page that an Update or a CLR is on, and none of any other record.
fn page_of(rec: &LogRecord) -> Option<u32>
    requires form { HasForm rec.now }
    ensures on { IfSome result (λ page. IsOnPage page rec.now) }
    ensures none { IfNone result (number_of rec.now ≡ None) }
{
    match rec {
        LogRecord::Update { page, .. } => Some(*page),
        LogRecord::Clr { page, .. } => Some(*page),
        _ => None,
    }
}

// The transaction of a record, named by the LSN of its Begin.
fn txn_of(lsn: u64, rec: &LogRecord) -> u64
    ensures { result ≡ txn_by lsn rec.now }
{
    match rec {
        LogRecord::Begin => lsn,
        LogRecord::Update { txn, .. } => *txn,
        LogRecord::Clr { txn, .. } => *txn,
        LogRecord::Commit { txn, .. } => *txn,
        LogRecord::End { txn } => *txn,
    }
}

// Whether a master names a transaction.
fn names(master: &Master, txn: u64) -> bool
    ensures { result ≡ is_named (seen master.now).active txn }
{
    for place in 0..master.active.len() {
        let (begin, _last) = master.active.at(place);
        if begin == txn {
            return true;
        }
    }
    false
}

// Whether analysis hears of a record: it stands from the redo block on, or is of a transaction that the master names.
fn is_heard(master: &Master, lsn: u64, rec: &LogRecord) -> bool
    ensures { result ≡ is_taken (seen master.now) (record { lsn = lsn; rec = rec.now }) }
{
    if lsn / 512 >= master.redo {
        return true;
    }
    names(master, txn_of(lsn, rec))
}

// Analysis of the next record.
fn analyse(master: &Master, found: &mut Analysis, lsn: u64, rec: &LogRecord) -> Result<(), Stop>
    requires going { read.Invariant found.old }

    // Of a sound log of which these records were read: it may come next, where it is heard.
    ensures heard { (records : List Entry) → IsAnalysis (seen master.now) (heard_of (seen master.now) records) found.old
        → (is_taken (seen master.now) (record { lsn = lsn; rec = rec.now }) ≡ true
        → Steps (seen master.now).active (heard_of (seen master.now) records) (record { lsn = lsn; rec = rec.now }))
        → OnOk result (IsAnalysis (seen master.now)
        (heard_of (seen master.now) (records ++ record { lsn = lsn; rec = rec.now } ∷ [])) found.new) }
    ensures readable { (records : List Entry)
        → IsAnalysis (seen master.now) (heard_of (seen master.now) records) found.old
        → (is_taken (seen master.now) (record { lsn = lsn; rec = rec.now }) ≡ true
        → Steps (seen master.now).active (heard_of (seen master.now) records) (record { lsn = lsn; rec = rec.now }))
        → IsErrOf result Stop.Foreign → ⊥ }

    // Of every log.
    ensures going { read.Invariant found.new }
    ensures owed { owed_for (listed found.new.table) ≤ owed_for (listed found.old.table) + 1 }
    ensures stops { IfErr result (λ stop. (stop ≡ Stop.Memory) ⊎ (stop ≡ Stop.Foreign)) }
{
    if !is_heard(master, lsn, rec) {
        return Ok(());
    }
    found.step(lsn, rec)
}

// Redoes a record: where it is on a page whose LSN is smaller, the page is changed by it. A page that doesn't exist is
// Foreign, and so is one that has no room for what the record has written.
fn redo_record<S: Site>(
    site: &mut S,
    log: &mut LogStore,
    pages: &mut PageStore,
    lsn: u64,
    rec: &LogRecord,
) -> Result<(), Stop>
    requires going { Invariant log.old pages.old (S.state site.old) }
    requires form { HasForm rec.now }

    // Of an honest site with an opened log, of which it is the next record.
    ensures redoing { (o : Opening) (front rest : List Entry) → IsRedoing o log.old pages.old (S.state site.old) front
        → log_from (kept_by o.newest) o.blocks ≡ front ++ record { lsn = lsn; rec = rec.now } ∷ rest
        → OnOk result (IsRedoing o log.new pages.new (S.state site.new)
        (front ++ record { lsn = lsn; rec = rec.now } ∷ [])) }
    ensures keeps { (o : Opening) (front rest : List Entry)
        → IsRedoing o log.old pages.old (S.state site.old) front
        → log_from (kept_by o.newest) o.blocks ≡ front ++ record { lsn = lsn; rec = rec.now } ∷ rest
        → Keeps result pages.old.flash.geometry log.old log.new (S.state site.old) (S.state site.new)
        (LeavesOpened o (S.state site.old).told) 0 0 }
    ensures asks { (o : Opening) (front rest : List Entry) → IsRedoing o log.old pages.old (S.state site.old) front
        → log_from (kept_by o.newest) o.blocks ≡ front ++ record { lsn = lsn; rec = rec.now } ∷ rest
        → AsksAtRest result (touches_of o (record { lsn = lsn; rec = rec.now } ∷ [])) pages.old pages.new
        (S.state site.old) (S.state site.new) }

    // Of an honest site that log and pages fit, whatever the records say.
    ensures ready { (list : LogList) → AreReady pages.old log.old list (S.state site.old) → list.tail ≡ []
        → OnOk result (AreReady pages.new log.new list (S.state site.new)) }

    // Of every site.
    ensures logs_nothing { LogsNothing result log.old log.new pages.old pages.new (S.state site.old)
        (S.state site.new) }
{
    let Some(page) = page_of(rec) else {
        return Ok(());
    };
    if page >= log.geometry().pages {
        return Err(Stop::Foreign);
    }
    match touch(site, log, pages, page) {
        Ok(()) => {}
        Err(stop) => return Err(stop),
    }
    if pages.front_lsn() >= lsn {
        return Ok(());
    }
    if !fits_front(pages, rec) {
        return Err(Stop::Foreign);
    }
    change_front(pages, rec, lsn);
    Ok(())
}

// Takes the next record: it is judged, analysis hears of it, and from the redo block on it is redone.
fn take_record<S: Site>(
    site: &mut S,
    log: &mut LogStore,
    pages: &mut PageStore,
    master: &Master,
    so_far: &mut Redone,
    lsn: u64,
    rec: &LogRecord,
) -> Result<(), Stop>
    requires going { Invariant log.old pages.old (S.state site.old) }
    requires found_going { read.Invariant so_far.old.found }
    requires form { HasForm rec.now }
    requires few { so_far.old.records < 2 ^ 40 }

    // Of an honest site with an opened log and its newest master, of which it is the next record.
    ensures takes { (o : Opening) (front rest : List Entry) → master.now ≡ saved_by o.newest
        → HasTaken o log.old pages.old (S.state site.old) so_far.old front
        → log_from (kept_by o.newest) o.blocks ≡ front ++ record { lsn = lsn; rec = rec.now } ∷ rest
        → Takes result o log.old log.new pages.old pages.new (S.state site.old) (S.state site.new) so_far.new
        front (record { lsn = lsn; rec = rec.now } ∷ []) }

    // Of an honest site that log and pages fit, whatever the records say.
    ensures reads { (o : Opening) (front rest : List Entry) → master.now ≡ saved_by o.newest
        → IsReading o log.old pages.old (S.state site.old) so_far.old front
        → log_from (kept_by o.newest) o.blocks ≡ front ++ record { lsn = lsn; rec = rec.now } ∷ rest
        → OnOk result (IsReading o log.new pages.new (S.state site.new) so_far.new
        (front ++ record { lsn = lsn; rec = rec.now } ∷ [])) }

    // Of every site.
    ensures logs_nothing { LogsNothing result log.old log.new pages.old pages.new (S.state site.old)
        (S.state site.new) }
    ensures found_going { read.Invariant so_far.new.found }
    ensures records { OnOk result (so_far.new.records ≡ so_far.old.records + 1) }
    ensures sizes { so_far.new.judge.sizes ≡ so_far.old.judge.sizes }
    ensures owed { OnOk result (owed_for (listed so_far.new.found.table)
        ≤ owed_for (listed so_far.old.found.table) + 1) }
{
    sound_log_steps();
    sound_is_judged();
    if let Err(stop) = so_far.judge.hear(master, lsn, rec) {
        return Err(stop);
    }
    if let Err(stop) = analyse(master, &mut so_far.found, lsn, rec) {
        return Err(stop);
    }
    so_far.records += 1;
    if lsn / 512 < master.redo {
        return Ok(());
    }
    redo_record(site, log, pages, lsn, rec)
}

// Takes the records of a block.
fn take_block<S: Site>(
    site: &mut S,
    log: &mut LogStore,
    pages: &mut PageStore,
    master: &Master,
    so_far: &mut Redone,
    block: u64,
    content: &[u8],
    used: usize,
) -> Result<(), Stop>
    requires going { Invariant log.old pages.old (S.state site.old) }
    requires found_going { read.Invariant so_far.old.found }
    requires low { 3 ≤ used }
    requires high { used ≤ 503 }
    requires inside { length content.now ≡ 503 }
    requires few { so_far.old.records + 503 ≤ 2 ^ 40 }
    requires number { block ≤ 2 ^ 40 }

    // Of an honest site with an opened log and its newest master, of which they are the next records.
    ensures takes { (o : Opening) (front rest : List Entry) (records : List LogRecord) → master.now ≡ saved_by o.newest
        → HasTaken o log.old pages.old (S.state site.old) so_far.old front
        → IsBlock content.now records → used ≡ used_by records
        → log_from (kept_by o.newest) o.blocks ≡ front ++ (entries_from (512 * block + 2) records ++ rest)
        → Takes result o log.old log.new pages.old pages.new (S.state site.old) (S.state site.new) so_far.new
        front (entries_from (512 * block + 2) records) }

    // Of an honest site that log and pages fit, whatever the records say.
    ensures reads { (o : Opening) (front rest : List Entry) (records : List LogRecord) → master.now ≡ saved_by o.newest
        → IsReading o log.old pages.old (S.state site.old) so_far.old front
        → IsBlock content.now records → used ≡ used_by records
        → log_from (kept_by o.newest) o.blocks ≡ front ++ (entries_from (512 * block + 2) records ++ rest)
        → OnOk result (IsReading o log.new pages.new (S.state site.new) so_far.new
        (front ++ entries_from (512 * block + 2) records)) }

    // Of every site.
    ensures logs_nothing { LogsNothing result log.old log.new pages.old pages.new (S.state site.old)
        (S.state site.new) }
    ensures found_going { OnOk result (read.Invariant so_far.new.found) }
    ensures some { OnOk result (so_far.old.records < so_far.new.records) }
    ensures few { OnOk result (so_far.new.records ≤ so_far.old.records + 503) }
    ensures sizes { OnOk result (so_far.new.judge.sizes ≡ so_far.old.judge.sizes) }
    ensures owed { OnOk result (owed_for (listed so_far.new.found.table) + so_far.old.records
        ≤ owed_for (listed so_far.old.found.table) + so_far.new.records) }
{
    let mut at = 2;
    while at < used {
        let Ok((rec, end)) = read_record(content, at, used) else {
            return Err(Stop::Foreign);
        };
        match take_record(
            site,
            log,
            pages,
            master,
            so_far,
            512 * block + at as u64,
            &rec,
        ) {
            Ok(()) => {}
            Err(stop) => return Err(stop),
        }
        at = end;
    }
    Ok(())
}

// A judge of the records of a log.
fn judge_of(alloc: Global, log: &LogStore, master: &Master) -> Result<Judge, Stop>
    requires bounded { log.now.ring.hi ≤ 2 ^ 40 }
    ensures sizes { IfOk result (λ judge. judge.sizes.hi ≡ log.now.ring.hi) }
    ensures heard { (o : Opening) → master.now ≡ saved_by o.newest → log.now.geometry ≡ o.sizes
        → log.now.ring.hi ≡ kept_by o.newest + length o.blocks
        → IfOk result (λ judge. HasHeard (opened o) [] judge) }
    ensures foreign { (o : Opening) → master.now ≡ saved_by o.newest → log.now.geometry ≡ o.sizes
        → log.now.ring.hi ≡ kept_by o.newest + length o.blocks
        → IsErrOf result Stop.Foreign → IsJudged (opened o) → ⊥ }
    ensures stops { IfErr result (λ stop. (stop ≡ Stop.Memory) ⊎ (stop ≡ Stop.Foreign)) }
{
    let geometry = log.geometry();
    let hi = log.sealed_end() / 512;
    let sizes = Sizes {
        pages: geometry.pages,
        blocks: geometry.blocks,
        hi,
    };
    Judge::start(alloc, master, sizes)
}

/// Analysis and redo of a restart: the log is read once, from its kept block on. Its records are judged as they are
/// read: where one breaks a rule, or all of them do, it answers Foreign. Analysis hears of each record from the
/// master's redo block on, and of those of the transactions that the master names; from the redo block on each Update
/// and each CLR is redone where its page has a smaller LSN. Where the log's content isn't of the form, or a record is
/// on a page that doesn't exist or has no room for it, it answers Foreign.
pub fn redo<S: Site>(
    alloc: Global,
    site: &mut S,
    log: &mut LogStore,
    pages: &mut PageStore,
    master: &Master,
) -> Result<Redone, Stop>
    requires going { Invariant log.old pages.old (S.state site.old) }
    requires ascend { Ascend master.now.active }

    // Of an honest site with a sound image, whose newest master is handed in. Blocks are those from the oldest kept one
    // on.
    ensures holds { (newest : Option Master) (blocks : List (List LogRecord)) (table : List Content) (commits : ℕ)
        → master.now ≡ saved_by newest
        → IsOpened pages.old.flash.geometry log.old pages.old (S.state site.old) newest blocks table commits
        → OnOk result (Represents log.new pages.new (S.state site.new) newest (log_from (kept_by newest) blocks)
        (settled table commits)) }
    ensures read { (newest : Option Master) (blocks : List (List LogRecord)) (table : List Content) (commits : ℕ)
        → master.now ≡ saved_by newest
        → IsOpened pages.old.flash.geometry log.old pages.old (S.state site.old) newest blocks table commits
        → IfOk result (λ redone. IsAnalysis (master_of newest)
        (taken (logical_image_under newest pages.old.flash.geometry (S.state site.old).image blocks)) redone.found) }
    ensures unfinished { (newest : Option Master) (blocks : List (List LogRecord)) (table : List Content) (commits : ℕ)
        → master.now ≡ saved_by newest
        → IsOpened pages.old.flash.geometry log.old pages.old (S.state site.old) newest blocks table commits
        → IfOk result (λ redone. IsTable [] (log_from (kept_by newest) blocks) (listed redone.found.table)) }
    ensures count { (newest : Option Master) (blocks : List (List LogRecord)) (table : List Content) (commits : ℕ)
        → master.now ≡ saved_by newest
        → IsOpened pages.old.flash.geometry log.old pages.old (S.state site.old) newest blocks table commits
        → IfOk result (λ redone. redone.records ≡ length (log_from (kept_by newest) blocks)) }
    ensures keeps { (newest : Option Master) (blocks : List (List LogRecord)) (table : List Content) (commits : ℕ)
        → master.now ≡ saved_by newest
        → IsOpened pages.old.flash.geometry log.old pages.old (S.state site.old) newest blocks table commits
        → Keeps result pages.old.flash.geometry log.old log.new (S.state site.old) (S.state site.new)
        (LeavesTableUnder newest pages.old.flash.geometry table commits (S.state site.old).told) 0 0 }
    ensures asks { (newest : Option Master) (blocks : List (List LogRecord)) (table : List Content) (commits : ℕ)
        → master.now ≡ saved_by newest
        → IsOpened pages.old.flash.geometry log.old pages.old (S.state site.old) newest blocks table commits
        → AsksAtRest result
        (redo_works (logical_image_under newest pages.old.flash.geometry (S.state site.old).image blocks))
        pages.old pages.new (S.state site.old) (S.state site.new) }

    // Of an honest site that log and pages fit, with these blocks, whatever their records say: it answers Ok only where
    // they keep the rules that are judged.
    ensures judged { (o : Opening) → master.now ≡ saved_by o.newest → o.sizes ≡ pages.old.flash.geometry
        → IsReadable o log.old pages.old (S.state site.old) → IfOk result (λ redone. IsJudged (opened o)) }

    // Of every site.
    ensures works { KeepsInvariant result log.old log.new pages.old pages.new (S.state site.old) (S.state site.new) }
    ensures found_going { IfOk result (λ redone. read.Invariant redone.found) }
    ensures some { IfOk result (λ redone. log.old.ring.hi ≤ log.old.kept + redone.records) }
    ensures few { IfOk result (λ redone. redone.records ≤ 503 * (log.old.ring.hi - log.old.kept)) }
    ensures owed { IfOk result (λ redone. owed_for (listed redone.found.table)
        ≤ redone.records + length master.now.active) }
    ensures blocks { OnOk result (blocks_to log.new ≡ blocks_to log.old) }
    ensures rises { OnOk result (log.old.ring.hi ≤ log.new.ring.hi) }
    ensures log_reads { (S.state site.new).log_reads
        ≤ (S.state site.old).log_reads + (log.old.ring.hi - log.old.kept) }
{
    table_of_records();
    losers_are_taken();
    sound_is_judged();
    let found = match Analysis::start(alloc, master) {
        Ok(found) => found,
        Err(stop) => return Err(stop),
    };
    let judge = match judge_of(alloc, log, master) {
        Ok(judge) => judge,
        Err(stop) => return Err(stop),
    };
    let mut so_far = Redone {
        found,
        records: 0,
        judge,
    };
    let mut content = [0u8; BLOCK_LEN];
    for block in log.kept()..log.sealed_end() / 512 {
        let used = match log.read_block(site, block, &mut content) {
            Ok(used) => used,
            Err(stop) => return Err(stop),
        };
        match take_block(site, log, pages, master, &mut so_far, block, &content, used) {
            Ok(()) => {}
            Err(stop) => return Err(stop),
        }
    }
    if !so_far.judge.is_sound(master) {
        return Err(Stop::Foreign);
    }
    Ok(so_far)
}
