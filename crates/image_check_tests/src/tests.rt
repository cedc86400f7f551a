// The rules on a site in memory. A test is a table of devices and of what is found on them, which one function plays.
ghost use Rattle.std.specs.Prelude.{IfOk, IfSome};
ghost use Rattle.image_check.specs.Judging.{MayBeJudged};
ghost use Rattle.mem_site.specs.MemState.{state_of};

use checkpoint::{Master, Pairs};
use image_check::{
    Verdict, check_image, find_place, rule_apart, rule_commits, rule_named, rule_page_room,
    rule_room, rule_shown, rule_transactions, rule_undoable,
};
use image_form::{
    Found, Place, rule_blocks, rule_clean, rule_following, rule_groups, rule_kept, rule_lengths,
    rule_master, rule_rings, rule_segments, rule_versions,
};
use log_store::LogStore;
use mem_site::MemSite;
use site::{Dev, Failed, Geometry, Site, Stop};
use std::alloc::Global;
use std::test::Fail;

const SMALL: Geometry = Geometry {
    pages: 1,
    groups: 8,
    blocks: 16,
};

// Where the first block's slot stands in the log.
const BLOCK_AT: u64 = 1_536;

// Block 0 behind its open gate: the first transaction sets record 5 to 0a0b.
const BLOCK: &[u8] = &[
    0xa5, // gate
    0x00, 0x00, 0x00, 0x00, 0x00, 0x00, 0x00, 0x00, // number
    0x00, 0x2e, // used
    0x01, // Begin
    0x02, // Update
    0x00, 0x00, 0x00, 0x00, 0x00, 0x00, 0x00, 0x02, // txn
    0x00, 0x00, 0x00, 0x00, 0x00, 0x00, 0x00, 0x02, // prev
    0x00, 0x00, 0x00, 0x00, // page
    0x05, // slot
    0x00, // before
    0x03, 0x0a, 0x0b, // after
    0x04, // Commit
    0x00, 0x00, 0x00, 0x00, 0x00, 0x00, 0x00, 0x02, // txn
    0x00, 0x00, 0x00, 0x00, 0x00, 0x00, 0x00, 0x01, // commit number
];

// The first octet of the block in the log, its gate; the last ones of what its records name; and the last one of
// where its records end.
const GATE_AT: u64 = BLOCK_AT;

const USED_AT: u64 = BLOCK_AT + 10;

const PREV_AT: u64 = BLOCK_AT + 28;

const PAGE_AT: u64 = BLOCK_AT + 32;

const TXN_AT: u64 = BLOCK_AT + 46;

const COMMIT_AT: u64 = BLOCK_AT + 54;

// The block of the first transaction without its Commit.
const UNFINISHED: &[u8] = &[
    0xa5, // gate
    0x00, 0x00, 0x00, 0x00, 0x00, 0x00, 0x00, 0x00, // number
    0x00, 0x1d, // used
    0x01, // Begin
    0x02, // Update
    0x00, 0x00, 0x00, 0x00, 0x00, 0x00, 0x00, 0x02, // txn
    0x00, 0x00, 0x00, 0x00, 0x00, 0x00, 0x00, 0x02, // prev
    0x00, 0x00, 0x00, 0x00, // page
    0x05, // slot
    0x00, // before
    0x03, 0x0a, 0x0b, // after
];

// What a second transaction has written behind the finished one, from octet 55 on, with its own Commit.
const ALSO: &[u8] = &[
    0x01, // Begin
    0x02, // Update
    0x00, 0x00, 0x00, 0x00, 0x00, 0x00, 0x00, 0x2e, // txn
    0x00, 0x00, 0x00, 0x00, 0x00, 0x00, 0x00, 0x2e, // prev
    0x00, 0x00, 0x00, 0x00, // page
    0x06, // slot
    0x00, // before
    0x02, 0x0c, // after
    0x04, // Commit
    0x00, 0x00, 0x00, 0x00, 0x00, 0x00, 0x00, 0x2e, // txn
    0x00, 0x00, 0x00, 0x00, 0x00, 0x00, 0x00, 0x02, // commit number
];

// Where its records end, and the last octet of its Commit's number; that of the commits that the master names.
const ALSO_USED: u8 = 0x59;

const ALSO_COMMIT_AT: u64 = BLOCK_AT + 97;

const MASTER_COMMITS_AT: u64 = 32;

// What a second transaction has written behind the unfinished one, from octet 38 on.
const SECOND: &[u8] = &[
    0x01, // Begin
    0x02, // Update
    0x00, 0x00, 0x00, 0x00, 0x00, 0x00, 0x00, 0x1d, // txn
    0x00, 0x00, 0x00, 0x00, 0x00, 0x00, 0x00, 0x1d, // prev
    0x00, 0x00, 0x00, 0x00, // page
    0x05, // slot
    0x03, 0x0a, 0x0b, // before
    0x00, // after
];

// The slot of its Update behind the first transaction, and where its records end.
const SECOND_SLOT_AT: u64 = BLOCK_AT + 60;

const SECOND_USED: u8 = 0x38;

// What the unfinished one has written behind its Update, from octet 38 on: it has undone it, and written the number
// again.
const AGAIN: &[u8] = &[
    0x03, // CLR
    0x00, 0x00, 0x00, 0x00, 0x00, 0x00, 0x00, 0x02, // txn
    0x00, 0x00, 0x00, 0x00, 0x00, 0x00, 0x00, 0x03, // prev
    0x00, 0x00, 0x00, 0x00, 0x00, 0x00, 0x00, 0x02, // undo_next
    0x00, 0x00, 0x00, 0x00, // page
    0x05, // slot
    0x00, // after
    0x02, // Update
    0x00, 0x00, 0x00, 0x00, 0x00, 0x00, 0x00, 0x02, // txn
    0x00, 0x00, 0x00, 0x00, 0x00, 0x00, 0x00, 0x1d, // prev
    0x00, 0x00, 0x00, 0x00, // page
    0x05, // slot
    0x00, // before
    0x03, 0x0a, 0x0b, // after
];

// The slot and the first octet of what stood before in the second Update, and where the records end.
const AGAIN_SLOT_AT: u64 = BLOCK_AT + 90;

const BEFORE_AT: u64 = BLOCK_AT + 91;

const AGAIN_USED: u8 = 0x56;

// The front of group 0 in its slot: a clean frame of page 0.
const GROUP: &[u8] = &[
    0xa5, // gate
    0x00, 0x00, 0x00, 0x00, 0x00, 0x00, 0x00, 0x00, // number
    0x01, // present
];

// The front of a page whose slot 5 has the last two octets, which knows of the first Update.
const PAGE: &[u8] = &[
    0x00, 0x00, 0x00, 0x00, 0x00, 0x00, 0x00, 0x03, // LSN
    0x00, 0x02, // used
    0x00, 0x00, 0x00, 0x00, 0x00, 0x00, // zeros
    0x00, 0x00, 0x00, 0x00, // slot 0
    0x00, 0x00, 0x00, 0x00, // slot 1
    0x00, 0x00, 0x00, 0x00, // slot 2
    0x00, 0x00, 0x00, 0x00, // slot 3
    0x00, 0x00, 0x00, 0x00, // slot 4
    0x0f, 0xfe, 0x00, 0x03, // slot 5
];

// The front of a page that is full but for what slot 5 and slot 20 may have: 19 values of 200 octets take up the others
// of the first 20 slots. All values are zeros. The last octet is that of the length of slot 20, plus one.
const CROWDED: &[u8] = &[
    0x00, 0x00, 0x00, 0x00, 0x00, 0x00, 0x00, 0x00, // LSN
    0x0f, 0x70, // used
    0x00, 0x00, 0x00, 0x00, 0x00, 0x00, // zeros
    0x0f, 0x38, 0x00, 0xc9, // slot 0
    0x0e, 0x70, 0x00, 0xc9, // slot 1
    0x0d, 0xa8, 0x00, 0xc9, // slot 2
    0x0c, 0xe0, 0x00, 0xc9, // slot 3
    0x0c, 0x18, 0x00, 0xc9, // slot 4
    0x00, 0x00, 0x00, 0x00, // slot 5
    0x0b, 0x50, 0x00, 0xc9, // slot 6
    0x0a, 0x88, 0x00, 0xc9, // slot 7
    0x09, 0xc0, 0x00, 0xc9, // slot 8
    0x08, 0xf8, 0x00, 0xc9, // slot 9
    0x08, 0x30, 0x00, 0xc9, // slot 10
    0x07, 0x68, 0x00, 0xc9, // slot 11
    0x06, 0xa0, 0x00, 0xc9, // slot 12
    0x05, 0xd8, 0x00, 0xc9, // slot 13
    0x05, 0x10, 0x00, 0xc9, // slot 14
    0x04, 0x48, 0x00, 0xc9, // slot 15
    0x03, 0x80, 0x00, 0xc9, // slot 16
    0x02, 0xb8, 0x00, 0xc9, // slot 17
    0x01, 0xf0, 0x00, 0xc9, // slot 18
    0x01, 0x28, 0x00, 0xc9, // slot 19
    0x00, 0x90, 0x00, 0x97, // slot 20
];

// Where that octet stands, and the last one of the LSN.
const LENGTH_AT: u64 = 99;

const LSN_AT: u64 = 7;

// What the unfinished transaction has written behind its Update, from octet 38 on: it has emptied slot 5 again, and is
// finished.
const EMPTIED: &[u8] = &[
    0x02, // Update
    0x00, 0x00, 0x00, 0x00, 0x00, 0x00, 0x00, 0x02, // txn
    0x00, 0x00, 0x00, 0x00, 0x00, 0x00, 0x00, 0x03, // prev
    0x00, 0x00, 0x00, 0x00, // page
    0x05, // slot
    0x03, 0x0a, 0x0b, // before
    0x00, // after
    0x04, // Commit
    0x00, 0x00, 0x00, 0x00, 0x00, 0x00, 0x00, 0x02, // txn
    0x00, 0x00, 0x00, 0x00, 0x00, 0x00, 0x00, 0x01, // commit number
];

const EMPTIED_USED: u8 = 0x48;

// An Update that has emptied slot 5: what stood before, and none after.
const EMPTIES: &[u8] = &[0x03, 0x0a, 0x0b, 0x00];

// The gate of the first slot of groups: group 0 stands there, with a frame of page 0 that has no values and the LSN 0,
// or it doesn't.
const FRAMED: u8 = 0xa5;

const BARE: u8 = 0;

// The entry of a slot with the empty value.
const ENTRY: &[u8] = &[0x10, 0x00, 0x00, 0x01];

// Octets that are written on blank devices, each behind its device and place.
type Written = &'static [(Dev, u64, &'static [u8])];

// Nothing but this octet of the disk page, which is to be zero.
macro_rules! blank {
    ($octet:literal) => {
        &[(Dev::Disk, 10, &[$octet])]
    };
}

// A block at the front of the log, with another octet at a place of it: the first commit, the first transaction without
// its Commit, the same that has written again behind a CLR, and two transactions without Commits.
macro_rules! finished {
    ($at:expr, $octet:literal) => {
        &[(Dev::Log, BLOCK_AT, BLOCK), (Dev::Log, $at, &[$octet])]
    };
}

// Two commits in one block, behind a master: the last two octets of the master's count and of their numbers.
macro_rules! two_commits {
    ($count:literal, $low:literal; $first:literal, $first_low:literal; $second:literal, $second_low:literal) => {
        &[
            (Dev::Log, 0, &[0xa5]),
            (Dev::Log, MASTER_COMMITS_AT - 1, &[$count, $low]),
            (Dev::Log, BLOCK_AT, BLOCK),
            (Dev::Log, BLOCK_AT + 55, ALSO),
            (Dev::Log, USED_AT, &[ALSO_USED]),
            (Dev::Log, COMMIT_AT - 1, &[$first, $first_low]),
            (Dev::Log, ALSO_COMMIT_AT - 1, &[$second, $second_low]),
        ]
    };
}

macro_rules! unfinished {
    ($at:expr, $octet:literal) => {
        &[(Dev::Log, BLOCK_AT, UNFINISHED), (Dev::Log, $at, &[$octet])]
    };
}

macro_rules! written_again {
    ($at:expr, $octet:literal) => {
        &[
            (Dev::Log, BLOCK_AT, UNFINISHED),
            (Dev::Log, BLOCK_AT + 38, AGAIN),
            (Dev::Log, USED_AT, &[AGAIN_USED]),
            (Dev::Log, $at, &[$octet]),
        ]
    };
}

macro_rules! two_unfinished {
    ($at:expr, $octet:literal) => {
        &[
            (Dev::Log, BLOCK_AT, UNFINISHED),
            (Dev::Log, BLOCK_AT + 38, SECOND),
            (Dev::Log, USED_AT, &[SECOND_USED]),
            (Dev::Log, $at, &[$octet]),
        ]
    };
}

// Four groups of a clean frame of page 0 each, and what is written besides.
macro_rules! groups {
    ($($dev:expr, $at:literal, $octets:expr;)*) => {
        &[
            (Dev::Flash, 0, GROUP),
            (Dev::Flash, 33_280, GROUP),
            (Dev::Flash, 33_288, &[1]),
            (Dev::Flash, 66_560, GROUP),
            (Dev::Flash, 66_568, &[2]),
            (Dev::Flash, 99_840, GROUP),
            (Dev::Flash, 99_848, &[3]),
            $(($dev, $at, $octets),)*
        ]
    };
}

const FOUR: Written = groups!();

// The LSN of another page in the head of the first group.
const OTHER_LSN: Written = groups! { Dev::Flash, 24, &[1]; };

// A disk page of another form.
const OTHER_PAGE: Written = groups! { Dev::Disk, 10, &[1]; };

// The segment of the groups, with a clean frame of page 0 in each of them, and one with a dirty frame in the fourth.
const SEGMENT: Written = groups! {
    Dev::Flash, 266_240, &[0xa5];
    Dev::Flash, 266_249, &[1];
    Dev::Flash, 266_377, &[1];
    Dev::Flash, 266_505, &[1];
    Dev::Flash, 266_633, &[1];
};

const OTHER_SEGMENT: Written = groups! {
    Dev::Flash, 266_240, &[0xa5];
    Dev::Flash, 266_249, &[1];
    Dev::Flash, 266_377, &[1];
    Dev::Flash, 266_505, &[1];
    Dev::Flash, 266_633, &[1, 1];
};

// A value in slot 0 of the frame in the fourth group; or in those of the disk page and of the frame in the third.
const SHOWN: Written = groups! { Dev::Flash, 99_993, ENTRY; };

const HIDDEN: Written = groups! {
    Dev::Disk, 16, ENTRY;
    Dev::Flash, 66_713, ENTRY;
};

// The block of the first commit; a disk page with the last octets of its LSN and of slot 5; the gate of group 0.
macro_rules! page {
    ($high:literal, $low:literal, $value:literal, $gate:expr) => {
        &[
            (Dev::Log, BLOCK_AT, BLOCK),
            (Dev::Disk, 0, PAGE),
            (Dev::Disk, 6, &[$high, $low]),
            (Dev::Disk, 4_094, &[0x0a, $value]),
            (Dev::Flash, 0, GROUP),
            (Dev::Flash, 0, &[$gate]),
        ]
    };
}

// The crowded page, with another octet at a place of it, and a block of the log: the first commit, which sets slot 5 to
// two octets; the same emptied again before its commit; and a transaction without a Commit that has emptied it.
macro_rules! crowded {
    ($at:expr, $octet:literal) => {
        &[
            (Dev::Log, BLOCK_AT, BLOCK),
            (Dev::Disk, 0, CROWDED),
            (Dev::Disk, $at, &[$octet]),
        ]
    };
}

macro_rules! crowded_between {
    ($lsn:literal, $octet:literal) => {
        &[
            (Dev::Log, BLOCK_AT, UNFINISHED),
            (Dev::Log, BLOCK_AT + 38, EMPTIED),
            (Dev::Log, USED_AT, &[EMPTIED_USED]),
            (Dev::Disk, 0, CROWDED),
            (Dev::Disk, LSN_AT, &[$lsn]),
            (Dev::Disk, LENGTH_AT, &[$octet]),
        ]
    };
}

macro_rules! crowded_by_undo {
    ($octet:literal) => {
        &[
            (Dev::Log, BLOCK_AT, UNFINISHED),
            (Dev::Log, BLOCK_AT + 34, EMPTIES),
            (Dev::Disk, 0, CROWDED),
            (Dev::Disk, LENGTH_AT, &[$octet]),
        ]
    };
}

// Writes octets.
fn put<S: Site>(site: &mut S, octets: &[(Dev, u64, &[u8])]) -> Result<(), Failed> {
    for &(dev, at, piece) in octets {
        let len = site.len(dev);
        if len < at {
            return Err(Failed);
        }
        if len - at < piece.len() as u64 {
            return Err(Failed);
        }
        site.write_at(dev, at, piece)?;
    }
    Ok(())
}

// The rules on the log, the first and the third as one.
#[derive(Clone, Copy, Drop)]
enum LogRule {
    Formed,
    Undoable,
    Apart,
    Room,
    Named,
    OneCommit,
    PageRoom,
}

// The log and the rings that stand there, with this master, where the lengths are those of sizes, the rings are of the
// form and the kept blocks are live.
fn found_with(site: &mut MemSite, master: Master) -> Result<Option<Found>, Stop>
    ensures { IfOk result (λ found. IfSome found (λ found. MayBeJudged found (state_of site.new))) }
{
    let Some(geometry) = rule_lengths(site) else {
        return Ok(None);
    };
    let Ok(rings) = rule_rings(site, &geometry)? else {
        return Ok(None);
    };
    let log = LogStore::start(site, &geometry)?;
    if !rule_kept(&log, &master) {
        return Ok(None);
    }
    Ok(Some(Found { rings, master, log }))
}

// Whether a rule on the log holds with the first and the third.
fn holds_of_log(
    alloc: Global,
    site: &mut MemSite,
    master: Master,
    rule: LogRule,
) -> Result<Option<bool>, Stop> {
    let Some(found) = found_with(site, master)? else {
        return Ok(None);
    };
    if rule_blocks(site, &found.log, 0)?.is_some() {
        return Ok(Some(false));
    }
    let Ok(survey) = rule_transactions(alloc, site, &found)? else {
        return Ok(Some(false));
    };
    let holds = match rule {
        LogRule::Formed => true,
        LogRule::Undoable => rule_undoable(alloc, site, &found, &survey.left)?.is_none(),
        LogRule::Apart => rule_apart(alloc, site, &found, &survey.left)?.is_none(),
        LogRule::Room => rule_room(&found, &survey.left),
        LogRule::Named => rule_named(&found.master, &survey.early),
        LogRule::OneCommit => rule_commits(&found, &survey.numbers) == Some(1),
        LogRule::PageRoom => rule_page_room(alloc, site, &found, &survey.left)?.is_none(),
    };
    Ok(Some(holds))
}

// Whether a master before the second block that names these transactions, the active one or none, names the active
// ones.
fn names_the_active(alloc: Global, site: &mut MemSite, named: bool) -> Result<Option<bool>, Stop> {
    let mut active = Pairs::new();
    if named {
        active.push(2, 3);
    }
    let master = Master {
        redo: 1,
        kept: 0,
        commits: 0,
        active,
    };
    holds_of_log(alloc, site, master, LogRule::Named)
}

// The rules on the rings of flash, and on pages.
#[derive(Clone, Copy, Drop)]
enum PageRule {
    Groups,
    Segments,
    Versions,
    Clean,
    Following,
}

// Whether such a rule holds, where the rings are of the form.
fn holds_of_pages(alloc: Global, site: &mut MemSite, rule: PageRule) -> Result<Option<bool>, Stop> {
    let Some(geometry) = rule_lengths(site) else {
        return Ok(None);
    };
    let Ok(rings) = rule_rings(site, &geometry)? else {
        return Ok(None);
    };
    let failing = match rule {
        PageRule::Groups => rule_groups(site, &geometry, &rings)?,
        PageRule::Segments => rule_segments(site, &geometry, &rings)?,
        PageRule::Versions => rule_versions(alloc, site, &geometry, &rings)?,
        PageRule::Clean => rule_clean(alloc, site, &geometry, &rings)?,
        PageRule::Following => rule_following(site, &geometry, &rings)?,
    };
    Ok(Some(failing.is_none()))
}

// How many numbers have a value, where lengths, rings and kept blocks are so and versions show what the log has.
fn values_after(alloc: Global, site: &mut MemSite, redo: u64) -> Result<Option<u64>, Stop> {
    let master = Master {
        redo,
        kept: 0,
        commits: 0,
        active: Pairs::new(),
    };
    let Some(found) = found_with(site, master)? else {
        return Ok(None);
    };
    Ok(rule_shown(alloc, site, &found)?.ok())
}

// The place where devices fail the first rule that fails, if one does.
fn place_on(alloc: Global, site: &mut MemSite) -> Result<Option<Place>, Stop> {
    match check_image(alloc, site)? {
        Verdict::Sound { .. } => Ok(None),
        Verdict::Unsound { place, .. } => Ok(Some(place)),
    }
}

// Whether this is the verdict, and the place is found again by its rule.
fn is_judged(alloc: Global, site: &mut MemSite, verdict: Verdict) -> Result<bool, Stop> {
    if check_image(alloc, site)? != verdict {
        return Ok(false);
    }
    match verdict {
        Verdict::Sound { .. } => Ok(true),
        Verdict::Unsound { rule, place } => Ok(find_place(alloc, site, rule)? == Some(place)),
    }
}

// What is asked of devices, and what is found.
#[derive(Clone, Copy)]
enum Finds {
    // Whether a rule on the log holds, under the master of blank devices.
    OnLog(LogRule, bool),
    // Whether a master that names the active transaction, or none, names the active ones.
    Named(bool, bool),
    // The sizes and the master are those of blank devices.
    Lengths,
    Master,
    // Whether a rule on the rings of flash or on pages holds.
    OnPages(PageRule, bool),
    // Whether versions show what the log has from this redo block on, and how many numbers then have a value.
    Shown(u64, bool),
    Values(u64, u64),
    // The verdict, or its place alone.
    Judged(Verdict),
    At(Option<Place>),
}

// Whether this is found.
fn is_found(alloc: Global, site: &mut MemSite, found: Finds) -> Result<bool, Stop> {
    match found {
        Finds::OnLog(rule, holds) => {
            Ok(holds_of_log(alloc, site, Master::blank(), rule)? == Some(holds))
        }
        Finds::Named(named, holds) => Ok(names_the_active(alloc, site, named)? == Some(holds)),
        Finds::Lengths => Ok(rule_lengths(site) == Some(SMALL)),
        Finds::Master => {
            if site.len(Dev::Log) < 1_536 {
                return Ok(false);
            }
            Ok(rule_master(site)? == Some(Master::blank()))
        }
        Finds::OnPages(rule, holds) => Ok(holds_of_pages(alloc, site, rule)? == Some(holds)),
        Finds::Shown(redo, shown) => Ok(values_after(alloc, site, redo)?.is_some() == shown),
        Finds::Values(redo, count) => Ok(values_after(alloc, site, redo)? == Some(count)),
        Finds::Judged(verdict) => is_judged(alloc, site, verdict),
        Finds::At(place) => Ok(place_on(alloc, site)? == place),
    }
}

// Makes the devices of each row, and answers of how many this is found, up to the first one of which it isn't.
fn play(alloc: Global, rows: &[(Written, Finds)]) -> Result<usize, Fail> {
    for (index, &(written, found)) in rows.iter().enumerate() {
        let mut site = MemSite::new(alloc, &SMALL)?;
        put(&mut site, written)?;
        if !is_found(alloc, &mut site, found)? {
            return Ok(index);
        }
    }
    Ok(rows.len())
}

// The tests by their names: devices and what is found on them.
const TESTS: [(&str, &[(Written, Finds)]); 20] = [
    (
        "a finished transaction",
        &[
            (
                finished!(GATE_AT, 0xa5),
                Finds::OnLog(LogRule::Formed, true),
            ),
            (
                finished!(GATE_AT, 0xa5),
                Finds::OnLog(LogRule::OneCommit, true),
            ),
            (finished!(PAGE_AT, 1), Finds::OnLog(LogRule::Formed, false)),
            (finished!(TXN_AT, 3), Finds::OnLog(LogRule::Formed, false)),
            (
                finished!(COMMIT_AT, 2),
                Finds::OnLog(LogRule::OneCommit, false),
            ),
        ],
    ),
    (
        "an unfinished transaction",
        &[
            (
                unfinished!(GATE_AT, 0xa5),
                Finds::OnLog(LogRule::Room, true),
            ),
            (
                unfinished!(GATE_AT, 0xa5),
                Finds::OnLog(LogRule::Undoable, true),
            ),
            (
                unfinished!(PREV_AT, 1),
                Finds::OnLog(LogRule::Undoable, false),
            ),
        ],
    ),
    (
        "an unfinished transaction that has written again behind a CLR",
        &[
            (
                written_again!(GATE_AT, 0xa5),
                Finds::OnLog(LogRule::Undoable, true),
            ),
            (
                written_again!(BEFORE_AT, 1),
                Finds::OnLog(LogRule::Undoable, false),
            ),
            (
                written_again!(AGAIN_SLOT_AT, 6),
                Finds::OnLog(LogRule::Undoable, true),
            ),
            (
                written_again!(GATE_AT, 0xa5),
                Finds::Judged(Verdict::Sound {
                    records: 0,
                    commits: 0,
                }),
            ),
            (
                written_again!(BEFORE_AT, 1),
                Finds::Judged(Verdict::Unsound {
                    rule: 4,
                    place: Place::Transaction(2),
                }),
            ),
        ],
    ),
    (
        "a master with an active transaction",
        &[
            (unfinished!(GATE_AT, 0xa5), Finds::Named(true, true)),
            (unfinished!(GATE_AT, 0xa5), Finds::Named(false, false)),
        ],
    ),
    (
        "two unfinished transactions",
        &[
            (
                two_unfinished!(SECOND_SLOT_AT, 6),
                Finds::OnLog(LogRule::Apart, true),
            ),
            (
                two_unfinished!(SECOND_SLOT_AT, 5),
                Finds::OnLog(LogRule::Apart, false),
            ),
        ],
    ),
    (
        "blank devices",
        &[
            (blank!(0), Finds::Lengths),
            (blank!(0), Finds::Master),
            (blank!(0), Finds::OnPages(PageRule::Segments, true)),
        ],
    ),
    (
        "a disk page of another form",
        &[(blank!(1), Finds::OnPages(PageRule::Versions, false))],
    ),
    (
        "four groups of one frame",
        &[
            (FOUR, Finds::OnPages(PageRule::Groups, true)),
            (OTHER_LSN, Finds::OnPages(PageRule::Groups, false)),
            (OTHER_PAGE, Finds::OnPages(PageRule::Versions, true)),
            (FOUR, Finds::OnPages(PageRule::Clean, true)),
            (OTHER_PAGE, Finds::OnPages(PageRule::Clean, false)),
            (SEGMENT, Finds::OnPages(PageRule::Following, true)),
            (OTHER_SEGMENT, Finds::OnPages(PageRule::Following, false)),
        ],
    ),
    (
        "a page of the first commit",
        &[
            (page!(0x00, 0x03, 0x0b, BARE), Finds::Shown(1, true)),
            (page!(0x00, 0x03, 0x0c, BARE), Finds::Shown(0, false)),
            (page!(0x00, 0x03, 0x0c, FRAMED), Finds::Shown(0, true)),
            (page!(0x00, 0x02, 0x0c, BARE), Finds::Shown(0, true)),
            (page!(0x00, 0x02, 0x0b, BARE), Finds::Shown(1, false)),
            (page!(0x01, 0xff, 0x0b, BARE), Finds::Shown(0, true)),
            (page!(0x02, 0x00, 0x0b, BARE), Finds::Shown(0, false)),
        ],
    ),
    (
        "values of one transaction",
        &[
            (finished!(GATE_AT, 0xa5), Finds::Values(0, 1)),
            (unfinished!(GATE_AT, 0xa5), Finds::Values(0, 0)),
        ],
    ),
    // Slot 0 of the frame in the fourth group has a value, or those of the disk page and of the frame in the third.
    (
        "values of the newest frame",
        &[(SHOWN, Finds::Values(0, 1)), (HIDDEN, Finds::Values(0, 0))],
    ),
    (
        "verdicts on the first commit",
        &[
            (
                finished!(GATE_AT, 0xa5),
                Finds::Judged(Verdict::Sound {
                    records: 1,
                    commits: 1,
                }),
            ),
            (
                finished!(TXN_AT, 3),
                Finds::Judged(Verdict::Unsound {
                    rule: 3,
                    place: Place::Block(0),
                }),
            ),
            (
                finished!(COMMIT_AT, 2),
                Finds::Judged(Verdict::Unsound {
                    rule: 11,
                    place: Place::Blocks,
                }),
            ),
        ],
    ),
    // One block may hold any number of Commits, whose numbers run on from the master's count; it lets at most 512 be.
    (
        "verdicts on two commits in one block",
        &[
            (
                two_commits!(0x00, 0x00; 0x00, 0x01; 0x00, 0x02),
                Finds::Judged(Verdict::Sound {
                    records: 2,
                    commits: 2,
                }),
            ),
            (
                two_commits!(0x00, 0x00; 0x00, 0x01; 0x00, 0x01),
                Finds::Judged(Verdict::Unsound {
                    rule: 11,
                    place: Place::Blocks,
                }),
            ),
            (
                two_commits!(0x00, 0x00; 0x00, 0x01; 0x00, 0x03),
                Finds::Judged(Verdict::Unsound {
                    rule: 11,
                    place: Place::Blocks,
                }),
            ),
            (
                two_commits!(0x01, 0xfe; 0x01, 0xff; 0x02, 0x00),
                Finds::Judged(Verdict::Sound {
                    records: 2,
                    commits: 512,
                }),
            ),
            (
                two_commits!(0x01, 0xff; 0x02, 0x00; 0x02, 0x01),
                Finds::Judged(Verdict::Unsound {
                    rule: 11,
                    place: Place::Blocks,
                }),
            ),
        ],
    ),
    (
        "verdicts on blank devices",
        &[
            (
                blank!(0),
                Finds::Judged(Verdict::Sound {
                    records: 0,
                    commits: 0,
                }),
            ),
            (
                blank!(1),
                Finds::Judged(Verdict::Unsound {
                    rule: 1,
                    place: Place::Page(0),
                }),
            ),
        ],
    ),
    // Slot 20 has 150 octets, or one more.
    (
        "a page that is full to its last octet",
        &[
            (
                crowded!(LENGTH_AT, 0x97),
                Finds::OnLog(LogRule::PageRoom, true),
            ),
            (
                crowded!(LENGTH_AT, 0x98),
                Finds::OnLog(LogRule::PageRoom, false),
            ),
            (
                crowded!(LENGTH_AT, 0x97),
                Finds::Judged(Verdict::Sound {
                    records: 21,
                    commits: 1,
                }),
            ),
            (
                crowded!(LENGTH_AT, 0x98),
                Finds::Judged(Verdict::Unsound {
                    rule: 12,
                    place: Place::Page(0),
                }),
            ),
        ],
    ),
    // What the version knows of isn't redone.
    (
        "a page that is too full only in between",
        &[
            (
                crowded_between!(0x00, 0x97),
                Finds::Judged(Verdict::Sound {
                    records: 20,
                    commits: 1,
                }),
            ),
            (
                crowded_between!(0x00, 0x98),
                Finds::Judged(Verdict::Unsound {
                    rule: 12,
                    place: Place::Page(0),
                }),
            ),
            (
                crowded_between!(0x1d, 0x98),
                Finds::Judged(Verdict::Sound {
                    records: 20,
                    commits: 1,
                }),
            ),
        ],
    ),
    (
        "a page that undo would fill",
        &[
            (
                crowded_by_undo!(0x97),
                Finds::Judged(Verdict::Sound {
                    records: 21,
                    commits: 0,
                }),
            ),
            (
                crowded_by_undo!(0x98),
                Finds::Judged(Verdict::Unsound {
                    rule: 12,
                    place: Place::Page(0),
                }),
            ),
        ],
    ),
    (
        "places in the log",
        &[
            (finished!(GATE_AT, 0xa5), Finds::At(None)),
            (finished!(PAGE_AT, 1), Finds::At(Some(Place::Block(0)))),
            (finished!(TXN_AT, 3), Finds::At(Some(Place::Block(0)))),
        ],
    ),
    (
        "places in four groups",
        &[
            (FOUR, Finds::At(None)),
            (OTHER_LSN, Finds::At(Some(Place::Group(0)))),
            (OTHER_PAGE, Finds::At(Some(Place::Group(3)))),
            (OTHER_SEGMENT, Finds::At(Some(Place::Group(3)))),
        ],
    ),
    (
        "places on pages",
        &[
            (blank!(1), Finds::At(Some(Place::Page(0)))),
            (
                page!(0x00, 0x03, 0x0c, BARE),
                Finds::At(Some(Place::Page(0))),
            ),
        ],
    ),
];

#[test]
fn each_rule_finds_what_is_written(rt: HostRuntime) -> Result<(), Fail> {
    for (name, rows) in TESTS {
        let held = play(rt.alloc(), rows)?;
        assert!(rt; held == rows.len(), "{name}: row {held}");
    }
    Ok(())
}
