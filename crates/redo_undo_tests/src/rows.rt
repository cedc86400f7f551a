// Log, pages and analysis of a site in memory. A test is a table of rows, which one function plays.
ghost use Rattle.std.specs.Prelude.{◌≡◌, ◌↔◌, ◌+◌, ◌<◌, ◌≤◌, ◌^◌, IfOk, IsTrue, OnOk};
ghost use Rattle.site.specs.Geometry.{HasLengths, HasLimits};
ghost use Rattle.mem_site.specs.MemState.{state_of};
ghost use Rattle.log_records.specs.Spelling.{HasForm, IsShort};
ghost use Rattle.log_store.specs.Representation as log_store;
ghost use Rattle.log_store.specs.Representation.{end_of};
ghost use Rattle.analysis.specs.Read as analysis;
ghost use Rattle.redo_laws.specs.Holding.{Invariant, IsOnPage, blocks_to};

use analysis::Analysis;
use checkpoint::Master;
use log_records::LogRecord;
use log_store::LogStore;
use mem_site::MemSite;
use page_store::PageStore;
use record_model::Octets;
use redo_undo::{fits_front, log_change, log_record, redo, touch, undo_all, undo_one, undo_to};
use site::{Dev, Geometry, Site, Stop};
use std::alloc::Global;

const SMALL: Geometry = Geometry {
    pages: 1,
    groups: 8,
    blocks: 16,
};

// A row of a test. The records are on slots of page 0.
#[derive(Clone, Copy)]
pub(crate) enum Row {
    // The Begin of a transaction is logged with this LSN.
    Begin(u64),
    // An Update is logged with this LSN, by a transaction, behind the record at another one. A slot had the value 07,
    // and gets 0a0b. The record has 27 octets, and its CLR 32. No page is changed.
    Update(u64, u64, u64, u8),
    // The CLR of such an Update is logged so. Behind the record before it stands where undo goes on.
    Clr(u64, u64, u64, u64, u8),
    // Behind its Begin transaction 2 has Updates by which slots 0 to 18 get 200 octets each. The last one is logged
    // with this LSN. No page is changed.
    Fill(u64),
    // An Update is logged with this LSN, by a transaction, behind the record at another one. A slot had a value of so
    // many octets, and gets one of so many. No page is changed.
    Resize(u64, u64, u64, u8, usize, usize),
    // An Update of transaction 2 is logged with this LSN, and slot 5 gets the value 0a0b.
    Change(u64),
    // The same, and then this transaction is undone from it on.
    ChangeAndUndo(u64, u64),
    // The log is sealed, and the next life begins.
    Reopen,
    // The changed pages are pushed, and the next life begins.
    Flush,
    // So many records are redone.
    Redo(u64),
    // A transaction is undone, from its last record, which is sealed, on.
    Undo(u64, u64),
    // The last Updates of a transaction that are left are undone, so many, from its last record on, which is sealed.
    // Its last record has this LSN then.
    UndoTo(u64, u64, u64, u64),
    // The unfinished transactions are undone, and so many are left.
    UndoAll(usize),
    // Whether a slot has a value whose first octet is this one.
    Value(u8, u8, bool),
    // The page has the LSN of this record.
    PageLsn(u64),
    // So many transactions are unfinished.
    Losers(usize),
    // The log is sealed up to this LSN.
    Sealed(u64),
    // Each record is sealed.
    TailEmpty,
    // So many changes of the devices were asked for.
    Changes(u64),
}

// What a run has of a site.
#[derive(Drop)]
struct Life {
    log: LogStore,
    pages: PageStore,
    found: Analysis,
}

// An Update of a slot that had a value.
fn update(txn: u64, prev: u64, slot: u8) -> LogRecord
    ensures { HasForm result }
{
    LogRecord::Update {
        txn,
        prev,
        page: 0,
        slot: slot % 32,
        before: Octets::from_slice(&[0x07]),
        after: Octets::from_slice(&[0x0a, 0x0b]),
    }
}

// The CLR of such an Update.
fn clr(txn: u64, prev: u64, undo_next: u64, slot: u8) -> LogRecord
    ensures { HasForm result }
{
    LogRecord::Clr {
        txn,
        prev,
        undo_next,
        page: 0,
        slot: slot % 32,
        after: Octets::from_slice(&[0x07]),
    }
}

// The Update of a slot that had no value. It has 26 octets.
fn first_update() -> LogRecord
    ensures form { HasForm result }
    ensures on { IsOnPage 0 result }
{
    LogRecord::Update {
        txn: 2,
        prev: 2,
        page: 0,
        slot: 5,
        before: None,
        after: Octets::from_slice(&[0x0a, 0x0b]),
    }
}

// A value of so many octets, up to 200.
fn long(len: usize) -> Option<Octets>
    ensures { IsShort result }
{
    match [0x5a; 200].get(..len) {
        Some(value) => Octets::from_slice(value),
        None => None,
    }
}

// The Update of a slot with values of such lengths.
fn resize(txn: u64, prev: u64, slot: u8, before: usize, after: usize) -> LogRecord
    ensures { HasForm result }
{
    LogRecord::Update {
        txn,
        prev,
        page: 0,
        slot: slot % 32,
        before: long(before),
        after: long(after),
    }
}

// Whether the log has room for one block more, besides its tail.
fn has_room(log: &LogStore) -> bool
    requires limits { log.now.geometry.blocks < 2 ^ 32 }
    requires bounded { log.now.ring.hi ≤ 2 ^ 40 }
    requires kept { log.now.kept ≤ log.now.ring.hi }
    requires low { 2 ≤ log.now.used }
    ensures { IsTrue result ↔ (blocks_to log.now + 1 < log.now.kept + log.now.geometry.blocks) }
{
    let tail = if log.tail_empty() { 0 } else { 1 };
    let geometry = log.geometry();
    log.sealed_end() / 512 + tail + 1 < log.kept() + geometry.blocks as u64
}

// Log and pages of devices of these sizes.
pub(crate) fn opened<S: Site>(
    alloc: Global,
    site: &mut S,
    sizes: &Geometry,
) -> Result<(LogStore, PageStore), Stop>
    requires limits { HasLimits sizes.now }
    requires lengths { HasLengths sizes.now (S.state site.old).image }
    ensures going { IfOk result (λ both. Invariant both.0 both.1 (S.state site.new)) }
    ensures empty { IfOk result (λ both. both.0.used ≡ 2) }
    ensures sizes { IfOk result (λ both. both.0.geometry ≡ sizes.now) }
{
    let pages = PageStore::start(alloc, site, sizes, 4)?;
    let log = LogStore::start(site, sizes)?;
    Ok((log, pages))
}

// Whether a record, which analysis takes too, is logged with this LSN.
fn logs<S: Site>(life: &mut Life, site: &mut S, rec: &LogRecord, wanted: u64) -> Result<bool, Stop>
    requires going { Invariant life.old.log life.old.pages (S.state site.old) }
    requires found { analysis.Invariant life.old.found }
    requires form { HasForm rec.now }
    ensures going { OnOk result (Invariant life.new.log life.new.pages (S.state site.new)) }
    ensures found { OnOk result (analysis.Invariant life.new.found) }
{
    if !has_room(&life.log) {
        return Ok(false);
    }
    let lsn = log_record(site, &mut life.log, rec)?;
    life.found.step(lsn, rec)?;
    Ok(lsn == wanted)
}

// Logs Updates by which slots 0 to 18 get 200 octets each, and answers whether the last one has this LSN.
fn fill<S: Site>(life: &mut Life, site: &mut S, wanted: u64) -> Result<bool, Stop>
    requires going { Invariant life.old.log life.old.pages (S.state site.old) }
    requires found { analysis.Invariant life.old.found }
    ensures going { OnOk result (Invariant life.new.log life.new.pages (S.state site.new)) }
    ensures found { OnOk result (analysis.Invariant life.new.found) }
{
    let mut prev = 2;
    for slot in 0..19 {
        if !has_room(&life.log) {
            return Ok(false);
        }
        let rec = resize(2, prev, slot, 0, 200);
        prev = log_record(site, &mut life.log, &rec)?;
        life.found.step(prev, &rec)?;
    }
    Ok(prev == wanted)
}

// Logs the Update of slot 5, changes the page, and answers the LSN.
fn change<S: Site>(log: &mut LogStore, pages: &mut PageStore, site: &mut S) -> Result<u64, Stop>
    requires going { Invariant log.old pages.old (S.state site.old) }
    ensures going { OnOk result (Invariant log.new pages.new (S.state site.new)) }
    ensures last { IfOk result (λ lsn. lsn < end_of log.new) }
{
    touch(site, log, pages, 0)?;
    if !has_room(log) {
        return Err(Stop::Worn(Dev::Log));
    }
    let update = first_update();
    if !fits_front(pages, &update) {
        return Err(Stop::Foreign);
    }
    log_change(site, log, pages, &update)
}

// The same, and a transaction is undone from that record on.
fn change_and_undo<S: Site>(
    log: &mut LogStore,
    pages: &mut PageStore,
    site: &mut S,
    txn: u64,
) -> Result<u64, Stop>
    requires going { Invariant log.old pages.old (S.state site.old) }
    ensures going { OnOk result (Invariant log.new pages.new (S.state site.new)) }
{
    let lsn = change(log, pages, site)?;
    undo_one(site, log, pages, txn, lsn)?;
    Ok(lsn)
}

// Undoes a transaction from a record on that is sealed.
fn undo<S: Site>(
    log: &mut LogStore,
    pages: &mut PageStore,
    site: &mut S,
    txn: u64,
    last: u64,
) -> Result<bool, Stop>
    requires going { Invariant log.old pages.old (S.state site.old) }
    ensures going { OnOk result (Invariant log.new pages.new (S.state site.new)) }
{
    if last >= log.sealed_end() {
        return Ok(false);
    }
    undo_one(site, log, pages, txn, last)?;
    Ok(true)
}

// Undoes the last Updates of a transaction from a record on that is sealed, and answers the LSN of its last record.
fn undo_last<S: Site>(
    log: &mut LogStore,
    pages: &mut PageStore,
    site: &mut S,
    txn: u64,
    last: u64,
    count: u64,
) -> Result<u64, Stop>
    requires going { Invariant log.old pages.old (S.state site.old) }
    ensures going { OnOk result (Invariant log.new pages.new (S.state site.new)) }
{
    if last >= log.sealed_end() {
        return Err(Stop::Foreign);
    }
    undo_to(site, log, pages, txn, last, count)
}

// Whether a slot has a value whose first octet is this one.
fn has_value<S: Site>(
    log: &mut LogStore,
    pages: &mut PageStore,
    site: &mut S,
    slot: u8,
    octet: u8,
) -> Result<bool, Stop>
    requires going { Invariant log.old pages.old (S.state site.old) }
    ensures going { OnOk result (Invariant log.new pages.new (S.state site.new)) }
{
    touch(site, log, pages, 0)?;
    match pages.get(slot % 32) {
        Some(value) => Ok(value.get(0) == Some(&octet)),
        None => Ok(false),
    }
}

// The LSN of the page.
fn page_lsn<S: Site>(log: &mut LogStore, pages: &mut PageStore, site: &mut S) -> Result<u64, Stop>
    requires going { Invariant log.old pages.old (S.state site.old) }
    ensures going { OnOk result (Invariant log.new pages.new (S.state site.new)) }
{
    touch(site, log, pages, 0)?;
    Ok(pages.front_lsn())
}

// The next life begins.
fn reopen<S: Site>(alloc: Global, life: &mut Life, site: &mut S) -> Result<bool, Stop>
    requires going { log_store.Invariant life.old.log (S.state site.old) }
    requires found { analysis.Invariant life.old.found }
    ensures going { OnOk result (Invariant life.new.log life.new.pages (S.state site.new)) }
    ensures found { analysis.Invariant life.new.found }
{
    let sizes = life.log.geometry();
    let (log, pages) = opened(alloc, site, &sizes)?;
    life.log = log;
    life.pages = pages;
    Ok(true)
}

// The log is sealed, and the next life begins.
fn seal<S: Site>(alloc: Global, life: &mut Life, site: &mut S) -> Result<bool, Stop>
    requires going { Invariant life.old.log life.old.pages (S.state site.old) }
    requires found { analysis.Invariant life.old.found }
    ensures going { OnOk result (Invariant life.new.log life.new.pages (S.state site.new)) }
    ensures found { analysis.Invariant life.new.found }
{
    if !has_room(&life.log) {
        return Ok(false);
    }
    life.log.force(site)?;
    reopen(alloc, life, site)
}

// The changed pages are pushed, and the next life begins.
fn flush<S: Site>(alloc: Global, life: &mut Life, site: &mut S) -> Result<bool, Stop>
    requires going { Invariant life.old.log life.old.pages (S.state site.old) }
    requires found { analysis.Invariant life.old.found }
    ensures going { OnOk result (Invariant life.new.log life.new.pages (S.state site.new)) }
    ensures found { analysis.Invariant life.new.found }
{
    life.pages.flush_all(site, &mut life.log)?;
    reopen(alloc, life, site)
}

// Redoes the log, and answers of how many records.
fn redo_all<S: Site>(alloc: Global, life: &mut Life, site: &mut S) -> Result<u64, Stop>
    requires going { Invariant life.old.log life.old.pages (S.state site.old) }
    ensures going { OnOk result (Invariant life.new.log life.new.pages (S.state site.new)) }
    ensures found { OnOk result (analysis.Invariant life.new.found) }
{
    let redone = redo(
        alloc,
        site,
        &mut life.log,
        &mut life.pages,
        &Master::blank(),
    )?;
    life.found = redone.found;
    Ok(redone.records)
}

// Undoes the unfinished transactions, and answers how many are left. Analysis begins anew then.
fn undo_losers<S: Site>(alloc: Global, life: &mut Life, site: &mut S) -> Result<usize, Stop>
    requires going { Invariant life.old.log life.old.pages (S.state site.old) }
    requires found { analysis.Invariant life.old.found }
    ensures going { OnOk result (Invariant life.new.log life.new.pages (S.state site.new)) }
    ensures found { OnOk result (analysis.Invariant life.new.found) }
{
    undo_all(site, &mut life.log, &mut life.pages, &mut life.found)?;
    let losers = life.found.losers();
    life.found = Analysis::start(alloc, &Master::blank())?;
    Ok(losers)
}

// Makes the call of a row on the log, and answers whether it is as the row says.
fn carry_out<S: Site>(alloc: Global, life: &mut Life, site: &mut S, row: Row) -> Result<bool, Stop>
    requires going { Invariant life.old.log life.old.pages (S.state site.old) }
    requires found { analysis.Invariant life.old.found }
    ensures going { OnOk result (Invariant life.new.log life.new.pages (S.state site.new)) }
    ensures found { OnOk result (analysis.Invariant life.new.found) }
{
    match row {
        Row::Begin(lsn) => logs(life, site, &LogRecord::Begin, lsn),
        Row::Update(lsn, txn, prev, slot) => logs(life, site, &update(txn, prev, slot), lsn),
        Row::Clr(lsn, txn, prev, undo_next, slot) => {
            logs(life, site, &clr(txn, prev, undo_next, slot), lsn)
        }
        Row::Fill(lsn) => fill(life, site, lsn),
        Row::Resize(lsn, txn, prev, slot, before, after) => {
            logs(life, site, &resize(txn, prev, slot, before, after), lsn)
        }
        Row::Change(lsn) => Ok(change(&mut life.log, &mut life.pages, site)? == lsn),
        Row::ChangeAndUndo(lsn, txn) => {
            Ok(change_and_undo(&mut life.log, &mut life.pages, site, txn)? == lsn)
        }
        Row::Undo(txn, last) => undo(&mut life.log, &mut life.pages, site, txn, last),
        Row::UndoTo(txn, last, count, lsn) => {
            Ok(undo_last(&mut life.log, &mut life.pages, site, txn, last, count)? == lsn)
        }
        Row::Value(slot, octet, wanted) => {
            Ok(has_value(&mut life.log, &mut life.pages, site, slot, octet)? == wanted)
        }
        Row::PageLsn(lsn) => Ok(page_lsn(&mut life.log, &mut life.pages, site)? == lsn),
        Row::Reopen => seal(alloc, life, site),
        Row::Flush => flush(alloc, life, site),
        Row::Redo(records) => Ok(redo_all(alloc, life, site)? == records),
        Row::UndoAll(losers) => Ok(undo_losers(alloc, life, site)? == losers),
        _ => Ok(true),
    }
}

// Whether a row that makes no call holds.
fn holds(life: &Life, site: &MemSite, row: Row) -> bool
    requires going { Invariant life.now.log life.now.pages (state_of site.now) }
{
    match row {
        Row::Losers(losers) => life.found.losers() == losers,
        Row::Sealed(end) => life.log.sealed_end() == end,
        Row::TailEmpty => life.log.tail_empty(),
        Row::Changes(changes) => site.changes() == changes,
        _ => true,
    }
}

// Plays rows, and answers how many are as they say, up to the first one that isn't.
fn play(alloc: Global, life: &mut Life, site: &mut MemSite, rows: &[Row]) -> Result<usize, Stop>
    requires going { Invariant life.old.log life.old.pages (state_of site.old) }
    requires found { analysis.Invariant life.old.found }
{
    for (place, row) in rows.iter().enumerate() {
        if !carry_out(alloc, life, site, *row)? {
            return Ok(place);
        }
        if !holds(life, site, *row) {
            return Ok(place);
        }
    }
    Ok(rows.len())
}

// Plays rows over blank devices.
pub(crate) fn run(alloc: Global, rows: &[Row]) -> Result<usize, Stop> {
    let mut site = MemSite::new(alloc, &SMALL)?;
    let (log, pages) = opened(alloc, &mut site, &SMALL)?;
    let found = Analysis::start(alloc, &Master::blank())?;
    let mut life = Life { log, pages, found };
    play(alloc, &mut life, &mut site, rows)
}
