// Pages on a site in memory. A test is a table of rows, which one function plays.
use disk_pages::{PAGE_LEN, read_page, sync_disk, write_page};
use mem_site::MemSite;
use site::{Dev, Geometry, Site};
use std::alloc::Global;
use std::test::Fail;

pub const SMALL: Geometry = Geometry {
    pages: 3,
    groups: 8,
    blocks: 16,
};

// A row of a test.
#[derive(Clone, Copy)]
enum Step {
    // A page is written, with this octet alone.
    Write(u32, u8),
    // The disk is synced; the power is cut, with this seed.
    Sync,
    Crash(u64),
    // An octet is written to the disk, without `disk_pages`.
    Put(u64, u8),
    // A page is read, and has these octets at these places; the disk has them.
    Read(u32, &'static [(usize, u8)]),
    Has(&'static [(usize, u8)]),
    // So many changes were made in all, and so many reads of the disk.
    Changes(u64),
    Reads(u64),
}

// Whether there are these octets at these places.
pub fn have(octets: &[u8], wanted: &[(usize, u8)]) -> bool {
    for &(place, octet) in wanted {
        if octets.get(place) != Some(&octet) {
            return false;
        }
    }
    true
}

// Writes a page, where the disk has it.
fn write<S: Site>(site: &mut S, page: u32, octet: u8) -> Result<bool, Fail> {
    if site.len(Dev::Disk) < 4_096 * u64::from(page) + 4_096 {
        return Ok(false);
    }
    write_page(site, page, &[octet; PAGE_LEN])?;
    Ok(true)
}

// Writes an octet, where the disk has the place.
fn put_octet<S: Site>(site: &mut S, place: u64, octet: u8) -> Result<bool, Fail> {
    if place >= site.len(Dev::Disk) {
        return Ok(false);
    }
    site.write_at(Dev::Disk, place, &[octet])?;
    Ok(true)
}

// Whether the disk has this page, with these octets.
fn reads<S: Site>(site: &mut S, page: u32, wanted: &[(usize, u8)]) -> Result<bool, Fail> {
    if site.len(Dev::Disk) < 4_096 * u64::from(page) + 4_096 {
        return Ok(false);
    }
    let mut octets = [1; PAGE_LEN];
    read_page(site, page, &mut octets)?;
    Ok(have(&octets, wanted))
}

// Makes a call, or looks, and answers whether that is as the row says.
fn holds(site: &mut MemSite, step: Step) -> Result<bool, Fail> {
    match step {
        Step::Write(page, octet) => write(site, page, octet),
        Step::Sync => Ok(sync_disk(site).is_ok()),
        Step::Put(place, octet) => put_octet(site, place, octet),
        Step::Read(page, wanted) => reads(site, page, wanted),
        Step::Has(wanted) => Ok(have(site.content(Dev::Disk), wanted)),
        Step::Changes(changes) => Ok(site.changes() == changes),
        Step::Reads(count) => Ok(site.reads(Dev::Disk) == count),
        Step::Crash(_) => Ok(true),
    }
}

// Plays rows over a new site, and answers how many hold, up to the first one that doesn't.
fn play(alloc: Global, steps: &[Step]) -> Result<usize, Fail> {
    let mut site = MemSite::new(alloc, &SMALL)?;
    for (row, step) in steps.iter().enumerate() {
        match *step {
            Step::Crash(seed) => site = site.crash(seed),
            step => {
                if !holds(&mut site, step)? {
                    return Ok(row);
                }
            }
        }
    }
    Ok(steps.len())
}

const IN_PLACE: &[Step] = &[
    Step::Write(1, 7),
    Step::Has(&[(4_095, 0), (4_096, 7), (8_191, 7), (8_192, 0)]),
    Step::Changes(1),
];

// The first octet of page 1, and its last.
const READ: &[Step] = &[
    Step::Put(4_096, 7),
    Step::Put(8_191, 8),
    Step::Read(1, &[(0, 7), (1, 0), (4_094, 0), (4_095, 8)]),
    Step::Reads(1),
];

const SYNCED: &[Step] = &[
    Step::Write(0, 7),
    Step::Sync,
    Step::Changes(2),
    Step::Crash(2),
    Step::Has(&[(0, 7), (1, 7), (4_095, 7), (4_096, 0)]),
];

// The tests by their names.
const TESTS: [(&str, &[Step]); 3] = [
    ("a_page_stands_in_its_place", IN_PLACE),
    ("a_page_is_read", READ),
    ("a_synced_page_stays", SYNCED),
];

#[test]
fn steps_hold(rt: HostRuntime) -> Result<(), Fail> {
    for (name, rows) in TESTS {
        let held = play(rt.alloc(), rows)?;
        assert!(rt; held == rows.len(), "{name}: row {held}");
    }
    Ok(())
}
