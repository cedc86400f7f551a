// Logs on a site in memory.
ghost use Rattle.std.specs.Prelude.{◌+◌, ◌<◌, IfOk};
ghost use Rattle.site.specs.Geometry.{HasLengths};
ghost use Rattle.mem_site.specs.MemState.{state_of};
ghost use Rattle.log_records.specs.Spelling.{HasForm};
ghost use Rattle.log_store.specs.Representation.{Invariant};

use log_records::{BLOCK_LEN, LogRecord};
use log_store::LogStore;
use mem_site::MemSite;
use record_model::Octets;
use site::{Dev, Geometry, Stop};
use std::test::Fail;

const SMALL: Geometry = Geometry {
    pages: 1,
    groups: 8,
    blocks: 16,
};

// A block with a Begin at 2 and an Update at 3, which sets record 5 from none to 0a0b. Zeros follow.
const FIRST_BLOCK: [u8; 30] = [
    0x00, 0x1d, // used
    0x01, // Begin
    0x02, // Update
    0x00, 0x00, 0x00, 0x00, 0x00, 0x00, 0x00, 0x02, // txn
    0x00, 0x00, 0x00, 0x00, 0x00, 0x00, 0x00, 0x02, // prev
    0x00, 0x00, 0x00, 0x00, // page
    0x05, // slot
    0x00, // before
    0x03, 0x0a, 0x0b, // after
    0x00, // the octet behind
];

// The log of blank devices of these sizes, from its next block on.
fn opened(site: &mut MemSite) -> Result<LogStore, Stop>
    requires { HasLengths (record { pages = 1; groups = 8; blocks = 16 }) (state_of site.old).image }
    ensures going { IfOk result (λ log. Invariant log (state_of site.new)) }
    ensures room { IfOk result (λ log. log.ring.hi + 3 < log.kept + log.geometry.blocks) }
{
    let mut log = LogStore::start(site, &SMALL)?;
    log.keep(log.sealed_end() / 512);
    Ok(log)
}

fn update() -> LogRecord
    ensures { HasForm result }
{
    LogRecord::Update {
        txn: 2,
        prev: 2,
        page: 0,
        slot: 5,
        before: None,
        after: Octets::from_slice(&[0x0a, 0x0b]),
    }
}

fn long_update() -> LogRecord
    ensures { HasForm result }
{
    LogRecord::Update {
        txn: 2,
        prev: 2,
        page: 1,
        slot: 31,
        before: Octets::from_slice(&[1; 120]),
        after: Octets::from_slice(&[2; 120]),
    }
}

#[test]
fn seals_a_block(rt: HostRuntime) -> Result<(), Fail> {
    let mut site = MemSite::new(rt.alloc(), &SMALL)?;
    let mut log = opened(&mut site)?;
    assert_eq!(rt; log.append(&mut site, &LogRecord::Begin)?, 2);
    assert_eq!(rt; log.append(&mut site, &update())?, 3);
    assert!(rt; !log.tail_empty());
    assert_eq!(rt; site.changes(), 0);
    log.force(&mut site)?;
    assert_eq!(rt; site.changes(), 5);
    assert!(rt; log.tail_empty());
    assert_eq!(rt; log.sealed_end(), 512);
    let stands = site.content(Dev::Log).iter().skip(1_545);
    assert!(rt;
        stands
            .zip(FIRST_BLOCK.iter())
            .all(|(octet, wanted)| octet == wanted)
    );
    Ok(())
}

#[test]
fn seals_what_a_record_does_not_fit(rt: HostRuntime) -> Result<(), Fail> {
    let mut site = MemSite::new(rt.alloc(), &SMALL)?;
    let mut log = opened(&mut site)?;
    let long = long_update();
    assert_eq!(rt; log.append(&mut site, &long)?, 2);
    assert_eq!(rt; log.append(&mut site, &long)?, 514);
    assert_eq!(rt; log.sealed_end(), 512);
    assert_eq!(rt; site.changes(), 5);
    Ok(())
}

#[test]
fn reads_from_the_tail_and_from_a_block(rt: HostRuntime) -> Result<(), Fail> {
    let mut site = MemSite::new(rt.alloc(), &SMALL)?;
    let mut log = opened(&mut site)?;
    let lsn = log.append(&mut site, &update())?;
    assert_eq!(rt; log.read_at(&mut site, lsn)?, update());
    log.force(&mut site)?;
    assert_eq!(rt; log.read_at(&mut site, lsn)?, update());
    assert_eq!(rt; log.kept(), 0);
    let mut content = [0; BLOCK_LEN];
    assert_eq!(rt; log.read_block(&mut site, log.kept(), &mut content)?, 28);
    Ok(())
}
