// Random lines in a log of the least size, over several lives. What is told is compared, by its hash, with what another
// program told.
use crate::steps;
use mem_site::MemSite;
use site::Geometry;
use std::alloc::{AllocError, Global};
use std::test::Fail;
use workload::next;

const SMALL: Geometry = Geometry {
    pages: 16,
    groups: 8,
    blocks: 16,
};

// The line that a number stands for: of three sessions, on two records of eight pages each.
fn line_of(alloc: Global, x: u64) -> Result<String, AllocError> {
    let session = (x >> 37) % 3;
    let number = 32 * ((x >> 40) % 8) + (x >> 45) % 2;
    let value = 10 + (x >> 50) % 90;
    match (x >> 33) % 16 {
        0..=3 => format!(in alloc; "begin {session}\n"),
        4..=7 => format!(in alloc; "write {session} {number} {value}\n"),
        8 => format!(in alloc; "erase {session} {number}\n"),
        9..=10 => format!(in alloc; "commit {session}\n"),
        11 => format!(in alloc; "abort {session}\n"),
        12 => format!(in alloc; "read {session} {number}\n"),
        13 => format!(in alloc; "set {number} {value}\n"),
        14 => format!(in alloc; "get {number}\n"),
        _ => {
            if session == 0 {
                return String::from_str(alloc, "checkpoint\n");
            }
            format!(in alloc; "scan {session} {number} 3\n")
        }
    }
}

// Feeds 250 lines, and answers the number of the last one.
fn feed_lines(alloc: Global, site: &mut MemSite, first: u64) -> Result<u64, Fail> {
    let mut x = first;
    for _line in 0..250 {
        x = next(x);
        site.feed(line_of(alloc, x)?.as_bytes())?;
    }
    Ok(x)
}

// The hash FNV-1a with 64 bits, gone on with from another one.
fn hashed(octets: &[u8], from: u64) -> u64 {
    let mut hash = from;
    for octet in octets {
        hash = (hash ^ u64::from(*octet)).wrapping_mul(1_099_511_628_211);
    }
    hash
}

#[test]
fn a_small_log_serves_random_lines_for_four_lives(rt: HostRuntime) -> Result<(), Fail> {
    let mut site = MemSite::new(rt.alloc(), &SMALL)?;
    let mut x = 7;
    let mut hash = 14_695_981_039_346_656_037;
    for life in 0..4 {
        x = feed_lines(rt.alloc(), &mut site, x)?;
        assert!(rt; steps::call(rt.alloc(), &mut site, "run 2")? == 0);
        hash = hashed(site.told(), hash);
        site = site.crash(life);
    }
    assert!(rt; hash == 17_547_571_156_839_552_343);
    Ok(())
}
