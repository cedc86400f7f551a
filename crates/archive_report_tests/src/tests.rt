// Archives of a log on a site in memory. Block n has 503 octets n.
use archive_report::archive;
use mem_site::{Call, MemSite};
use site::{Dev, Geometry, Site, Stop};
use std::alloc::Global;
use std::test::Fail;

const SMALL: Geometry = Geometry {
    pages: 1,
    groups: 8,
    blocks: 16,
};

const DIGITS: &[u8; 16] = b"0123456789abcdef";

// Writes these octets over the log's, where it has the place.
fn write(site: &mut MemSite, at: u64, octets: &[u8]) -> Result<(), Stop> {
    let len = site.len(Dev::Log);
    if at > len || len - at < octets.len() as u64 {
        return Err(Stop::Foreign);
    }
    match site.write_at(Dev::Log, at, octets) {
        Ok(()) => Ok(()),
        Err(_) => Err(Stop::Device(Dev::Log)),
    }
}

// Puts a block into its slot behind an open gate, and closes the next gate. Nothing is synced.
fn put(site: &mut MemSite, number: u8) -> Result<(), Stop> {
    let slot = u64::from(number % 16);
    let next = u64::from((number % 16 + 1) % 16);
    let mut octets = [number; 512];
    octets[..9].copy_from_slice(&[0xA5, 0, 0, 0, 0, 0, 0, 0, number]);
    write(site, 1_536 + 512 * slot, &octets)?;
    write(site, 1_536 + 512 * next, &[0])
}

// A site with so many blocks; they are synced where it is asked for.
fn site_with(alloc: Global, blocks: u8, synced: bool) -> Result<MemSite, Stop> {
    let mut site = MemSite::new(alloc, &SMALL)?;
    for number in 0..blocks {
        put(&mut site, number)?;
    }
    if synced && site.sync(Dev::Log).is_err() {
        return Err(Stop::Device(Dev::Log));
    }
    Ok(site)
}

// The lines of the blocks from one on, and a last line.
fn text(alloc: Global, first: u8, past: u8, last: &[u8]) -> Result<Vec<u8>, Stop> {
    let mut text = Vec::new(alloc);
    for number in first..past {
        push_all(&mut text, b"block ")?;
        if number >= 10 {
            text.push(b'0' + number / 10 % 10)?;
        }
        text.push(b'0' + number % 10)?;
        text.push(b' ')?;
        for _octet in 0..503 {
            text.push(DIGITS[usize::from(number / 16)])?;
            text.push(DIGITS[usize::from(number % 16)])?;
        }
        text.push(b'\n')?;
    }
    push_all(&mut text, last)?;
    Ok(text)
}

fn push_all(text: &mut Vec<u8>, more: &[u8]) -> Result<(), Stop> {
    for octet in more {
        text.push(*octet)?;
    }
    Ok(())
}

// A row: so many blocks were sealed, and the archive from this one on has this status, and tells the blocks from one
// up to another, and a last line.
type Row = (u8, u64, u8, u8, u8, &'static [u8]);

const ROWS: [Row; 12] = [
    (0, 0, 0, 0, 0, b"end 0\n"),
    (0, 1, 12, 0, 0, b"ahead 0\n"),
    (1, 0, 0, 0, 1, b"end 1\n"),
    (1, 2, 12, 0, 0, b"ahead 1\n"),
    (3, 0, 0, 0, 3, b"end 3\n"),
    (3, 2, 0, 2, 3, b"end 3\n"),
    (3, 3, 0, 0, 0, b"end 3\n"),
    (15, 0, 0, 0, 15, b"end 15\n"),
    (16, 0, 12, 0, 0, b"gone 1\n"),
    (20, 4, 12, 0, 0, b"gone 5\n"),
    (20, 5, 0, 5, 20, b"end 20\n"),
    (20, 18_446_744_073_709_551_615, 12, 0, 0, b"ahead 20\n"),
];

// Whether a row is as it says, each head was read at most three times and each block once, and nothing but one sync
// was asked of the devices.
fn holds(alloc: Global, row: Row) -> Result<bool, Stop> {
    let (blocks, from, status, first, past, last) = row;
    let mut site = site_with(alloc, blocks, true)?;
    let reads = site.reads(Dev::Log);
    let works = site.changes();
    if archive(from, &mut site) != status {
        return Ok(false);
    }
    let lines = u64::from(past.saturating_sub(first));
    let few = site.reads(Dev::Log) <= reads.saturating_add(48 + lines);
    let calm = site.changes() == works.saturating_add(2 + lines);
    Ok(few && calm && site.told() == text(alloc, first, past, last)?.as_slice())
}

#[test]
fn archives_are_told(rt: HostRuntime) -> Result<(), Fail> {
    for row in ROWS {
        assert!(rt; holds(rt.alloc(), row)?);
    }
    Ok(())
}

// What was told stands after a loss of power, though nothing was synced before; and without an archive it needn't.
#[test]
fn no_crash_takes_what_was_told(rt: HostRuntime) -> Result<(), Fail> {
    for seed in 0..4 {
        let mut site = site_with(rt.alloc(), 2, false)?;
        assert!(rt; archive(0, &mut site) == 0);
        let mut left = site.crash(seed);
        assert!(rt; archive(0, &mut left) == 0);
        assert!(rt; left.told() == text(rt.alloc(), 0, 2, b"end 2\n")?.as_slice());
    }
    let mut lost = site_with(rt.alloc(), 2, false)?.crash(1);
    assert!(rt; archive(0, &mut lost) == 0);
    assert!(rt; lost.told() == b"end 0\n".as_slice());
    Ok(())
}

// Of three blocks: a call of this kind fails at this number, the status is this one, and so many blocks are told before
// a last line. Reads 1 to 32 are those of heads.
const FAILURES: [(Call, u64, u8, u8, &[u8]); 7] = [
    (Call::Sync(Dev::Log), 1, 3, 0, b"fault log\n"),
    (Call::Read(Dev::Log), 1, 3, 0, b"fault log\n"),
    (Call::Read(Dev::Log), 32, 3, 0, b"fault log\n"),
    (Call::Read(Dev::Log), 33, 3, 0, b"fault log\n"),
    (Call::Read(Dev::Log), 35, 3, 2, b"fault log\n"),
    (Call::Tell, 1, 6, 0, b""),
    (Call::Tell, 4, 6, 3, b""),
];

#[test]
fn failing_calls_are_told(rt: HostRuntime) -> Result<(), Fail> {
    for (call, nth, status, past, last) in FAILURES {
        let mut site = site_with(rt.alloc(), 3, true)?;
        site.fail(call, nth)?;
        assert!(rt; archive(0, &mut site) == status);
        assert!(rt; site.told() == text(rt.alloc(), 0, past, last)?.as_slice());
    }
    Ok(())
}

// A gate stands open behind the last block.
#[test]
fn a_log_that_is_none(rt: HostRuntime) -> Result<(), Fail> {
    let mut site = site_with(rt.alloc(), 3, true)?;
    write(&mut site, 1_536 + 3 * 512, &[0xA5])?;
    assert!(rt; archive(0, &mut site) == 9);
    assert!(rt; site.told() == b"fault foreign\n".as_slice());
    Ok(())
}

// A tell that takes a few octets only is followed by one of the rest.
#[test]
fn short_tells(rt: HostRuntime) -> Result<(), Fail> {
    let mut site = site_with(rt.alloc(), 1, true)?;
    site.short_tell(1, 5)?;
    site.short_tell(2, 1_000)?;
    assert!(rt; archive(0, &mut site) == 0);
    assert!(rt; site.told() == text(rt.alloc(), 0, 1, b"end 1\n")?.as_slice());
    Ok(())
}
