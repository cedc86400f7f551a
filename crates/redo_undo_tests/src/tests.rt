// Log and pages on a site in memory.
ghost use Rattle.std.specs.Prelude.{◌≡◌, ◌+◌, ◌<◌, ◌≤◌, IfOk};
ghost use Rattle.site.specs.Geometry.{HasLengths};
ghost use Rattle.mem_site.specs.MemState.{state_of};
ghost use Rattle.log_records.specs.Spelling.{HasForm};
ghost use Rattle.checkpoint.specs.Actives.{Ascend};
ghost use Rattle.log_store.specs.Representation as log_store;
ghost use Rattle.image_meaning.specs.Flushed.{first_block};
ghost use Rattle.redo_laws.specs.Checkpointing.{begins_of};
ghost use Rattle.redo_laws.specs.Holding.{Invariant, IsOnPage, blocks_to};
ghost use Rattle.redo_undo.specs.Stores.{MayWork, MayLog, sizes_of};

use crate::room_tests::{FILLED, FILLED_AGAIN, TAKEN, TOO_LONG};
use crate::rows;
use crate::rows::{Row, run};
use crate::undo_tests::{
    ANOTHERS_CLR, ANOTHERS_UPDATE, BACK_AND_RESTARTED, BACK_OVER_A_CLR, BACK_TO_A_CLR, BACK_TWICE,
    BEHIND_A_CLR, BEHIND_A_CLR_RESTARTED, COMPENSATED, FROM_A_CLR, NONE, TWO, TWO_CLRS,
    TWO_CLRS_RESTARTED,
};
use checkpoint::{Master, Pairs, newest};
use log_records::LogRecord;
use log_store::LogStore;
use mem_site::MemSite;
use page_store::PageStore;
use record_model::Octets;
use redo_undo::{TransactionStore, fits_front, log_change, log_record, touch};
use site::{Geometry, Stop};
use std::alloc::Global;
use std::test::Fail;

const SMALL: Geometry = Geometry {
    pages: 1,
    groups: 8,
    blocks: 16,
};

// Record 5, on slot 5 of page 0, gets the value 0a0b.
fn update() -> LogRecord
    ensures form { HasForm result }
    ensures on { IsOnPage 0 result }
{
    LogRecord::Update {
        txn: 2,
        prev: 2,
        page: 0,
        slot: 5,
        before: None,
        after: Octets::from_slice(&[0x0a, 0x0b]),
    }
}

// Log and pages, where the log has room for all of its blocks.
fn opened(alloc: Global, site: &mut MemSite) -> Result<(LogStore, PageStore), Stop>
    requires { HasLengths (record { pages = 1; groups = 8; blocks = 16 }) (state_of site.old).image }
    ensures going { IfOk result (λ both. Invariant both.0 both.1 (state_of site.new)) }
    ensures room { IfOk result (λ both. blocks_to both.0 + 5 < both.0.kept + both.0.geometry.blocks) }
    ensures geometry { IfOk result (λ both. both.0.geometry ≡ record { pages = 1; groups = 8; blocks = 16 }) }
{
    let (mut log, pages) = rows::opened(alloc, site, &SMALL)?;
    log.keep(log.sealed_end() / 512);
    Ok((log, pages))
}

// A transaction has begun, and has changed record 5.
fn changed(alloc: Global, site: &mut MemSite) -> Result<(LogStore, PageStore), Stop>
    requires { HasLengths (record { pages = 1; groups = 8; blocks = 16 }) (state_of site.old).image }
    ensures going { IfOk result (λ both. Invariant both.0 both.1 (state_of site.new)) }
    ensures room { IfOk result (λ both. blocks_to both.0 + 3 < both.0.kept + both.0.geometry.blocks) }
    ensures geometry { IfOk result (λ both. both.0.geometry ≡ record { pages = 1; groups = 8; blocks = 16 }) }
{
    let (mut log, mut pages) = opened(alloc, site)?;
    log_record(site, &mut log, &LogRecord::Begin)?;
    touch(site, &mut log, &mut pages, 0)?;
    let update = update();
    if !fits_front(&pages, &update) {
        return Err(Stop::Foreign);
    }
    log_change(site, &mut log, &mut pages, &update)?;
    Ok((log, pages))
}

const SEEN: &[Row] = &[
    Row::Begin(2),
    Row::Change(3),
    Row::Value(5, 0x0a, true),
    Row::Changes(0),
];

const UNDONE: &[Row] = &[
    Row::Begin(2),
    Row::ChangeAndUndo(3, 2),
    Row::Value(5, 0x0a, false),
    Row::PageLsn(29),
];

const FOREIGN: &[Row] = &[Row::Begin(2), Row::ChangeAndUndo(3, 1)];

#[test]
fn a_record_of_another_is_foreign(rt: HostRuntime) {
    for rows in [FOREIGN, ANOTHERS_UPDATE, ANOTHERS_CLR] {
        assert!(rt; run(rt.alloc(), rows) == Err(Stop::Foreign));
    }
}

#[test]
fn a_record_without_room_is_foreign(rt: HostRuntime) {
    for rows in [TOO_LONG, TAKEN] {
        assert!(rt; run(rt.alloc(), rows) == Err(Stop::Foreign));
    }
}

// What a crash leaves.
fn crashed(site: MemSite) -> MemSite
    requires { HasLengths (record { pages = 1; groups = 8; blocks = 16 }) (state_of site).image }
    ensures { HasLengths (record { pages = 1; groups = 8; blocks = 16 }) (state_of result).image }
{
    site.crash(7)
}

// Log and pages with the ring of master units, where all records count that the log has room for.
fn stored(site: &mut MemSite, log: LogStore, pages: PageStore) -> Result<TransactionStore, Stop>
    requires going { Invariant log pages (state_of site.old) }
    requires room { blocks_to log + 3 < log.kept + log.geometry.blocks }
    requires sizes { log.geometry ≡ record { pages = 1; groups = 8; blocks = 16 } }
    ensures may { IfOk result (λ store. MayLog store (state_of site.new)) }
    ensures room { IfOk result (λ store. blocks_to store.log + 3 < store.log.kept + (sizes_of store).blocks) }
    ensures made { IfOk result (λ store. store.made ≡ 16) }
    ensures sizes { IfOk result (λ store. sizes_of store ≡ record { pages = 1; groups = 8; blocks = 16 }) }
{
    let (masters, _blank) = newest(site)?;
    Ok(TransactionStore {
        log,
        pages,
        masters,
        made: 16,
    })
}

// Whether the record with LSN 29 is sealed, and is the Commit of transaction 2 as commit 1.
fn is_committed(log: &LogStore, site: &mut MemSite) -> Result<bool, Stop>
    requires going { log_store.Invariant log.now (state_of site.old) }
{
    if log.kept() > 0 {
        return Ok(false);
    }
    if log.sealed_end() < 512 {
        return Ok(false);
    }
    match log.read_at(site, 29)? {
        LogRecord::Commit { txn, number } => Ok(txn == 2 && number == 1),
        _ => Ok(false),
    }
}

// The Update stands at LSN 3 and takes 26 octets.
#[test]
fn a_commit_outlives_a_crash(rt: HostRuntime) -> Result<(), Fail> {
    let mut site = MemSite::new(rt.alloc(), &SMALL)?;
    let (log, pages) = changed(rt.alloc(), &mut site)?;
    let mut store = stored(&mut site, log, pages)?;
    assert!(rt; store.commit(&mut site, 2, 1)? == 29);
    let mut site = crashed(site);
    let log = LogStore::start(&mut site, &SMALL)?;
    assert!(rt; is_committed(&log, &mut site)?);
    Ok(())
}

// A Commit that is logged waits for its seal.
#[test]
fn a_commit_waits_for_its_seal(rt: HostRuntime) -> Result<(), Fail> {
    let mut site = MemSite::new(rt.alloc(), &SMALL)?;
    let (log, pages) = changed(rt.alloc(), &mut site)?;
    let mut store = stored(&mut site, log, pages)?;
    assert!(rt; store.log_commit(&mut site, 2, 1)? == 29);
    assert!(rt; store.log.sealed_end() < 512);
    store.seal(&mut site)?;
    assert!(rt; is_committed(&store.log, &mut site)?);
    Ok(())
}

// A life in which a transaction changes record 5, and all of its log is sealed, and the next one.
// The page has the value that its Update wrote, with the Update's LSN, and the transaction is found as unfinished.
const EARLIER: &[Row] = &[
    Row::Begin(2),
    Row::Change(3),
    Row::Reopen,
    Row::Redo(2),
    Row::Losers(1),
    Row::Value(5, 0x0a, true),
    Row::PageLsn(3),
];

// The first restart and the flush of its pages make changes behind those that seal the log, and the second makes none.
// Once the page is on the flash a second restart finds its LSN there, and leaves it unchanged.
const TWICE: &[Row] = &[
    Row::Begin(2),
    Row::Change(3),
    Row::Reopen,
    Row::Changes(5),
    Row::Redo(2),
    Row::Flush,
    Row::Changes(10),
    Row::Redo(2),
    Row::Flush,
    Row::Changes(10),
];

// A transaction is committed, and its records are block 0.
fn committed(alloc: Global, site: &mut MemSite) -> Result<TransactionStore, Stop>
    requires { HasLengths (record { pages = 1; groups = 8; blocks = 16 }) (state_of site.old).image }
    ensures may { IfOk result (λ store. MayLog store (state_of site.new)) }
    ensures made { IfOk result (λ store. store.made ≡ 17) }
{
    let (log, pages) = changed(alloc, site)?;
    let mut store = stored(site, log, pages)?;
    store.commit(site, 2, 1)?;
    Ok(store)
}

// The newest master once a checkpoint is made with these active transactions after one commit. No record that counts is
// let go.
fn checkpointed(
    site: &mut MemSite,
    store: &mut TransactionStore,
    active: Pairs,
) -> Result<Master, Stop>
    requires going { MayWork store.old (state_of site.old) }
    requires ascend { Ascend active }
    requires begun { first_block (blocks_to store.old.log) (begins_of active) ≤ blocks_to store.old.log }
    requires enough { blocks_to store.old.log
        ≤ first_block (blocks_to store.old.log) (begins_of active) + store.old.made }
{
    store.checkpoint(site, active, 1, 0)?;
    let (_ring, master) = newest(site)?;
    Ok(master)
}

// What a checkpoint says: from which block on redo reads, which block it keeps, as the master and the log have it, how
// many commits there were, and how many transactions are active.
fn told(master: &Master, store: &TransactionStore) -> (u64, u64, u64, u64, usize) {
    let active = master.active.len();
    (
        master.redo,
        master.kept,
        store.log.kept(),
        master.commits,
        active,
    )
}

// Whether one transaction is active, which has only its Begin, at this LSN.
fn is_active(master: &Master, begin: u64) -> bool {
    if master.active.len() != 1 {
        return false;
    }
    master.active.at(0) == (begin, begin)
}

// The Begin stands at LSN 514.
#[test]
fn a_checkpoint_keeps_the_block_of_an_active_begin(rt: HostRuntime) -> Result<(), Fail> {
    let mut site = MemSite::new(rt.alloc(), &SMALL)?;
    let mut store = committed(rt.alloc(), &mut site)?;
    let begin = store.begin(&mut site)?;
    assert!(rt; begin == 514);
    let mut active = Pairs::new();
    active.push(514, 514);
    if store.blocks() != 2 {
        return Ok(());
    }
    let master = checkpointed(&mut site, &mut store, active)?;
    assert!(rt; told(&master, &store) == (2, 1, 1, 1, 1));
    assert!(rt; is_active(&master, 514));
    Ok(())
}

#[test]
fn a_checkpoint_of_no_transaction_keeps_no_block(rt: HostRuntime) -> Result<(), Fail> {
    let mut site = MemSite::new(rt.alloc(), &SMALL)?;
    let mut store = committed(rt.alloc(), &mut site)?;
    let master = checkpointed(&mut site, &mut store, Pairs::new())?;
    assert!(rt; told(&master, &store) == (1, 1, 1, 1, 0));
    Ok(())
}

// The tests by their names.
const TESTS: [(&str, &[Row]); 18] = [
    ("two_transactions_are_undone_from_the_last_update_on", TWO),
    ("a_transaction_with_a_clr_is_undone", COMPENSATED),
    ("an_update_behind_a_clr_is_undone", BEHIND_A_CLR),
    (
        "an_update_behind_a_clr_is_undone_at_restart",
        BEHIND_A_CLR_RESTARTED,
    ),
    ("two_clrs_are_passed_over", TWO_CLRS),
    ("two_clrs_are_passed_over_at_restart", TWO_CLRS_RESTARTED),
    ("a_transaction_is_undone_from_a_clr_on", FROM_A_CLR),
    (
        "an_update_is_undone_and_then_all_at_restart",
        BACK_AND_RESTARTED,
    ),
    ("two_updates_are_undone_in_turn_and_then_all", BACK_TWICE),
    ("a_clr_between_two_updates_is_passed_over", BACK_OVER_A_CLR),
    ("none_or_one_update_is_undone", BACK_TO_A_CLR),
    ("a_page_is_filled_by_redo", FILLED),
    ("a_page_is_filled_again_by_undo", FILLED_AGAIN),
    ("where_none_is_unfinished_nothing_is_logged", NONE),
    ("a_change_is_seen", SEEN),
    ("a_transaction_is_undone", UNDONE),
    ("an_earlier_life_is_redone", EARLIER),
    ("a_record_is_redone_once", TWICE),
];

#[test]
fn rows_hold(rt: HostRuntime) -> Result<(), Fail> {
    for (name, rows) in TESTS {
        let held = run(rt.alloc(), rows)?;
        assert!(rt; held == rows.len(), "{name}: row {held}");
    }
    Ok(())
}
