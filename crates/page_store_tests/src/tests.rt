// Pages of a site in memory. A test is a table of rows, which one function plays. The mixed script's pool, queue and
// counts were worked out by another program.
ghost use Rattle.std.specs.Prelude.{◌≡◌, ◌<◌, ◌≤◌, length, true, IfOk};
ghost use Rattle.site.specs.State.{State};
ghost use Rattle.site.specs.Geometry.{HasLengths};
ghost use Rattle.site.specs.Calls.{Preserves};
ghost use Rattle.mem_site.specs.MemState.{state_of};
ghost use Rattle.log_records.specs.Spelling.{HasForm};
ghost use Rattle.log_store.specs.Representation as log_store;
ghost use Rattle.page_store.specs.Representation.{IsStore, Invariant};
ghost use Rattle.page_store_tests.specs.Trying.{small, AreGoing};

use flash_cache::FlashCache;
use log_records::LogRecord;
use log_store::LogStore;
use mem_site::{Call, MemSite};
use page_store::PageStore;
use record_model::{CacheLine, Listing, Octets};
use site::{Dev, Geometry, Site, Stop};
use std::alloc::Global;
use std::test::Fail;

const SMALL: Geometry = Geometry {
    pages: 16,
    groups: 8,
    blocks: 16,
};

// A row of a script.
#[derive(Clone, Copy)]
enum Row {
    // A page is touched.
    Touch(u32),
    // A page is touched, and its slot 5 gets the place of the row as its octet.
    Change(u32),
    // The changed pages are pushed.
    Flush,
    // A page is touched, and its slot 5 has this octet.
    Octet(u32, u8),
    // A touch of a page is stopped so.
    Stops(u32, Stop),
    // The store is ended, or not.
    Ended(bool),
    // So many lines are listed.
    Lines(usize),
    // At a place of the listing there is a frame: the number of its group, its place there, its page, and whether it is
    // valid, dirty and referenced.
    Frame(usize, u64, u8, u32, bool, bool, bool),
    // At a place of the listing there is a page of the pool, which was changed or not.
    Pool(usize, u32, bool),
    // So many changes were asked for, so many reads of the disk made, and so many of the flash by the rows.
    Changes(u64),
    DiskReads(u64),
    FlashReads(u64),
    // The log is sealed up to this LSN.
    Sealed(u64),
}

// A log record of 25 octets.
fn update() -> LogRecord
    ensures { HasForm result }
{
    LogRecord::Update {
        txn: 2,
        prev: 2,
        page: 0,
        slot: 5,
        before: None,
        after: Octets::from_slice(&[1]),
    }
}

// A store and a log on a site.
fn opened(alloc: Global, site: &mut MemSite, pool: u32) -> Result<(PageStore, LogStore), Stop>
    requires lengths { HasLengths small (state_of site.old).image }
    requires least { 1 ≤ pool }
    requires most { pool ≤ 4096 }
    ensures going { IfOk result (λ both. AreGoing both.0 both.1 (state_of site.new)) }
{
    let log = LogStore::start(site, &SMALL)?;
    let pages = PageStore::start(alloc, site, &SMALL, pool)?;
    Ok((pages, log))
}

// Touches a page that exists, once the blocks before the next one may be overwritten.
fn touch<S: Site>(
    pages: &mut PageStore,
    log: &mut LogStore,
    site: &mut S,
    page: u32,
) -> Result<bool, Stop>
    requires going { AreGoing pages.old log.old (S.state site.old) }
    ensures going { AreGoing pages.new log.new (S.state site.new) }
    ensures there { IfOk result (λ exists. exists ≡ true → 0 < length pages.new.pool.frames) }
{
    if page >= 16 {
        return Ok(false);
    }
    log.keep(log.sealed_end() / 512);
    pages.touch(site, log, page)?;
    Ok(true)
}

// Appends a record, once the blocks before the next one may be overwritten.
fn append<S: Site>(log: &mut LogStore, site: &mut S) -> Result<u64, Stop>
    requires going { log_store.Invariant log.old (S.state site.old) }
    requires sizes { log.old.geometry ≡ small }
    ensures going { log_store.Invariant log.new (S.state site.new) }
    ensures sizes { log.new.geometry ≡ small }
    ensures preserves { Preserves (S.state site.old) (S.state site.new) }
{
    log.keep(log.sealed_end() / 512);
    log.append(site, &update())
}

// Gives slot 5 of the page in front this octet, once it is known that it may have it.
fn change_front(pages: &mut PageStore, octet: u8, lsn: u64) -> bool
    requires store { IsStore pages.old }
    requires there { 0 < length pages.old.pool.frames }
    ensures going { (site : State) → Invariant pages.old site → Invariant pages.new site }
    ensures sizes { pages.new.flash.geometry ≡ pages.old.flash.geometry }
{
    if !pages.fits(5, Some(&[octet])) {
        return false;
    }
    if pages.front_lsn() >= lsn {
        return false;
    }
    pages.change(5, Some(&[octet]), lsn);
    true
}

// Touches a page, and gives its slot 5 this octet.
fn change<S: Site>(
    pages: &mut PageStore,
    log: &mut LogStore,
    site: &mut S,
    page: u32,
    octet: u8,
) -> Result<bool, Stop>
    requires going { AreGoing pages.old log.old (S.state site.old) }
    ensures going { AreGoing pages.new log.new (S.state site.new) }
{
    if !touch(pages, log, site, page)? {
        return Ok(false);
    }
    let lsn = append(log, site)?;
    Ok(change_front(pages, octet, lsn))
}

// Pushes the changed pages.
fn flush<S: Site>(pages: &mut PageStore, log: &mut LogStore, site: &mut S) -> Result<bool, Stop>
    requires going { AreGoing pages.old log.old (S.state site.old) }
    ensures going { AreGoing pages.new log.new (S.state site.new) }
{
    log.keep(log.sealed_end() / 512);
    pages.flush_all(site, log)?;
    Ok(true)
}

// Whether slot 5 of a page has this octet.
fn has_octet<S: Site>(
    pages: &mut PageStore,
    log: &mut LogStore,
    site: &mut S,
    page: u32,
    octet: u8,
) -> Result<bool, Stop>
    requires going { AreGoing pages.old log.old (S.state site.old) }
    ensures going { AreGoing pages.new log.new (S.state site.new) }
{
    if !touch(pages, log, site, page)? {
        return Ok(false);
    }
    Ok(pages.get(5) == Some(&[octet]))
}

// Makes the call of a row, whose place is this octet, and answers whether it is as the row says.
fn carry_out<S: Site>(
    pages: &mut PageStore,
    log: &mut LogStore,
    site: &mut S,
    row: Row,
    octet: u8,
) -> Result<bool, Stop>
    requires going { AreGoing pages.old log.old (S.state site.old) }
    ensures going { AreGoing pages.new log.new (S.state site.new) }
{
    match row {
        Row::Touch(page) => touch(pages, log, site, page),
        Row::Change(page) => change(pages, log, site, page, octet),
        Row::Flush => flush(pages, log, site),
        Row::Octet(page, wanted) => has_octet(pages, log, site, page, wanted),
        Row::Stops(page, stop) => Ok(touch(pages, log, site, page) == Err(stop)),
        _ => Ok(true),
    }
}

// The listing of a store over a site.
fn listed(pages: &PageStore, _site: &MemSite) -> Result<Listing, Stop>
    requires going { Invariant pages.now (state_of _site.now) }
{
    pages.listing()
}

// Whether the line at a place of the listing is this one.
fn has_line(
    pages: &PageStore,
    site: &MemSite,
    place: usize,
    wanted: CacheLine,
) -> Result<bool, Stop>
    requires going { Invariant pages.now (state_of site.now) }
{
    let lines = listed(pages, site)?;
    Ok(place < lines.len() && *lines.at(place) == wanted)
}

// Whether what a row says of the listing holds.
fn is_listed(pages: &PageStore, site: &MemSite, row: Row) -> Result<bool, Stop>
    requires going { Invariant pages.now (state_of site.now) }
{
    match row {
        Row::Lines(count) => Ok(listed(pages, site)?.len() == count),
        Row::Frame(place, group, index, page, valid, dirty, referenced) => {
            let wanted = CacheLine::Frame {
                group,
                index,
                page,
                valid,
                dirty,
                referenced,
            };
            has_line(pages, site, place, wanted)
        }
        Row::Pool(place, page, changed) => {
            has_line(pages, site, place, CacheLine::Pool { page, changed })
        }
        _ => Ok(true),
    }
}

// Whether what a row says of store, log and site holds. The flash had been read so often before the first row.
fn holds(pages: &PageStore, log: &LogStore, site: &MemSite, row: Row, before: u64) -> bool
    requires going { AreGoing pages.now log.now (state_of site.now) }
{
    match row {
        Row::Ended(ended) => pages.ended() == ended,
        Row::Changes(count) => site.changes() == count,
        Row::DiskReads(count) => site.reads(Dev::Disk) == count,
        Row::FlashReads(count) => site.reads(Dev::Flash).saturating_sub(before) == count,
        Row::Sealed(end) => log.sealed_end() == end,
        _ => true,
    }
}

// Plays rows, and answers how many are as they say, up to the first one that isn't.
fn play(
    pages: &mut PageStore,
    log: &mut LogStore,
    site: &mut MemSite,
    rows: &[Row],
) -> Result<usize, Stop>
    requires going { AreGoing pages.old log.old (state_of site.old) }
    ensures going { AreGoing pages.new log.new (state_of site.new) }
{
    let before = site.reads(Dev::Flash);
    for (place, row) in rows.iter().enumerate() {
        if !carry_out(pages, log, site, *row, (place % 256) as u8)? {
            return Ok(place);
        }
        if !is_listed(pages, site, *row)? {
            return Ok(place);
        }
        if !holds(pages, log, site, *row, before) {
            return Ok(place);
        }
    }
    Ok(rows.len())
}

// Plays rows over blank devices, with a pool of so many pages.
fn run(alloc: Global, pool: u32, rows: &[Row]) -> Result<usize, Stop>
    requires least { 1 ≤ pool }
    requires most { pool ≤ 4096 }
{
    let mut site = MemSite::new(alloc, &SMALL)?;
    let (mut pages, mut log) = opened(alloc, &mut site, pool)?;
    play(&mut pages, &mut log, &mut site, rows)
}

// Sixty pieces of work on a pool of three pages, and the pool and the queue then.
const MIXED: &[Row] = &[
    Row::Change(8),
    Row::Touch(8),
    Row::Change(0),
    Row::Touch(5),
    Row::Change(1),
    Row::Touch(8),
    Row::Change(1),
    Row::Touch(0),
    Row::Touch(4),
    Row::Touch(7),
    Row::Change(4),
    Row::Change(3),
    Row::Touch(2),
    Row::Change(2),
    Row::Touch(6),
    Row::Touch(4),
    Row::Change(0),
    Row::Touch(3),
    Row::Touch(6),
    Row::Touch(2),
    Row::Change(7),
    Row::Flush,
    Row::Touch(7),
    Row::Touch(0),
    Row::Change(2),
    Row::Change(3),
    Row::Change(8),
    Row::Flush,
    Row::Touch(6),
    Row::Change(1),
    Row::Change(7),
    Row::Change(4),
    Row::Touch(8),
    Row::Touch(7),
    Row::Change(8),
    Row::Touch(8),
    Row::Touch(6),
    Row::Touch(4),
    Row::Change(1),
    Row::Flush,
    Row::Change(4),
    Row::Touch(8),
    Row::Touch(1),
    Row::Touch(5),
    Row::Change(8),
    Row::Change(8),
    Row::Change(6),
    Row::Change(8),
    Row::Touch(5),
    Row::Change(6),
    Row::Change(8),
    Row::Change(3),
    Row::Touch(5),
    Row::Change(2),
    Row::Change(5),
    Row::Change(7),
    Row::Change(4),
    Row::Touch(3),
    Row::Change(3),
    Row::Flush,
    Row::Lines(20),
    Row::Frame(0, 7, 0, 1, false, true, true),
    Row::Frame(1, 7, 1, 7, false, true, true),
    Row::Frame(2, 7, 2, 4, false, true, true),
    Row::Frame(3, 8, 0, 8, false, true, true),
    Row::Frame(4, 9, 0, 1, true, true, false),
    Row::Frame(5, 10, 0, 6, false, false, true),
    Row::Frame(6, 10, 1, 4, false, true, true),
    Row::Frame(7, 11, 0, 0, true, true, false),
    Row::Frame(8, 11, 1, 5, false, false, true),
    Row::Frame(9, 11, 2, 6, true, true, false),
    Row::Frame(10, 11, 3, 8, true, true, false),
    Row::Frame(11, 12, 0, 3, false, true, true),
    Row::Frame(12, 12, 1, 2, true, true, false),
    Row::Frame(13, 12, 2, 5, true, true, false),
    Row::Frame(14, 13, 0, 7, true, true, false),
    Row::Frame(15, 13, 1, 4, true, true, false),
    Row::Frame(16, 13, 2, 3, true, true, false),
    Row::Pool(17, 3, false),
    Row::Pool(18, 4, false),
    Row::Pool(19, 7, false),
    // Three segments are saved.
    Row::Changes(155),
    Row::DiskReads(10),
    Row::FlashReads(43),
    Row::Sealed(7_168),
];

const BACK: &[Row] = &[
    Row::Change(0),
    Row::Change(7),
    Row::Change(2),
    Row::Octet(7, 1),
    Row::Octet(0, 0),
    Row::Octet(2, 2),
];

// A touch of a page that is in the pool makes no device call.
const HITS: &[Row] = &[
    Row::Touch(3),
    Row::Touch(4),
    Row::DiskReads(2),
    Row::FlashReads(0),
    Row::Touch(3),
    Row::Touch(3),
    Row::Touch(4),
    Row::DiskReads(2),
    Row::FlashReads(0),
    Row::Changes(0),
];

// Nine pages change in a pool of one page; page 0 is read again behind page 1, and so has a second chance in the queue.
const NINE: &[Row] = &[
    Row::Change(0),
    Row::Change(1),
    Row::Touch(0),
    Row::Change(2),
    Row::Change(3),
    Row::Change(4),
    Row::Change(5),
    Row::Change(6),
    Row::Change(7),
    Row::Change(8),
    Row::Lines(9),
    Row::Frame(0, 1, 0, 1, true, true, false),
    Row::Frame(1, 2, 0, 2, true, true, false),
    Row::Frame(2, 3, 0, 3, true, true, false),
    Row::Frame(3, 4, 0, 4, true, true, false),
    Row::Frame(4, 5, 0, 5, true, true, false),
    Row::Frame(5, 6, 0, 6, true, true, false),
    Row::Frame(6, 7, 0, 0, true, true, false),
    Row::Frame(7, 7, 1, 7, true, true, false),
    Row::Pool(8, 8, true),
];

// What a crash leaves.
fn crashed(site: MemSite, seed: u64) -> MemSite
    requires { HasLengths small (state_of site).image }
    ensures { HasLengths small (state_of result).image }
{
    site.crash(seed)
}

// Two pages change in turn in a pool of one page, and only so many changes of the devices pass. Answers what a crash
// leaves then.
fn stopped(alloc: Global, changes: u64, seed: u64) -> Result<MemSite, Stop>
    ensures { IfOk result (λ site. HasLengths small (state_of site).image) }
{
    let mut site = MemSite::new(alloc, &SMALL)?;
    site.fuse(changes);
    let (mut pages, mut log) = opened(alloc, &mut site, 1)?;
    let rows = [Row::Change(0), Row::Change(1)];
    let _stopped = play(&mut pages, &mut log, &mut site, &rows);
    Ok(crashed(site, seed))
}

// Whether the log's block and page 0's frame are there then.
fn stopped_at(alloc: Global, changes: u64, seed: u64) -> Result<(bool, bool), Stop> {
    let mut site = stopped(alloc, changes, seed)?;
    let log = LogStore::start(&mut site, &SMALL)?;
    let flash = FlashCache::start(alloc, &mut site, &SMALL)?;
    Ok((log.sealed_end() == 512, flash.holds(0)))
}

// The changes that pass, and whether the log's block and page 0's frame are there then: the log is sealed, by five
// changes, before the first of the five changes that append page 0.
const STOPPED: [(u64, bool, bool); 4] = [
    (3, false, false),
    (5, true, false),
    (8, true, false),
    (10, true, true),
];

#[test]
fn the_log_is_sealed_before_a_page_leaves(rt: HostRuntime) -> Result<(), Fail> {
    for (changes, sealed, holds) in STOPPED {
        assert!(rt; stopped_at(rt.alloc(), changes, 1)? == (sealed, holds));
    }
    Ok(())
}

const FAULT: [Row; 4] = [
    Row::Touch(3),
    Row::Ended(false),
    Row::Stops(4, Stop::Device(Dev::Disk)),
    Row::Ended(true),
];

#[test]
fn a_fault_ends_the_store(rt: HostRuntime) -> Result<(), Fail> {
    let mut site = MemSite::new(rt.alloc(), &SMALL)?;
    site.fail(Call::Read(Dev::Disk), 2)?;
    let (mut pages, mut log) = opened(rt.alloc(), &mut site, 2)?;
    assert!(rt; play(&mut pages, &mut log, &mut site, &FAULT)? == FAULT.len());
    Ok(())
}

// The tests by their names, with the pool's pages.
const TESTS: [(&str, u32, &[Row]); 4] = [
    ("a_mixed_script", 3, MIXED),
    ("changed_pages_come_back", 1, BACK),
    ("a_hit_makes_no_call", 2, HITS),
    ("nine_pages_are_listed", 1, NINE),
];

#[test]
fn rows_hold(rt: HostRuntime) -> Result<(), Fail> {
    for (name, pool, rows) in TESTS {
        let held = run(rt.alloc(), pool, rows)?;
        assert!(rt; held == rows.len(), "{name}: row {held}");
    }
    Ok(())
}
