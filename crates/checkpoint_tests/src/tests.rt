// Master units, and masters on a site in memory.
ghost use Rattle.std.specs.Prelude.{◌≡◌, ◌∷◌, []};

use checkpoint::{BadMaster, Master, Pairs, UNIT_LEN, newest, read_master, save, write_master};
use mem_site::MemSite;
use site::{Dev, Geometry};
use std::test::Fail;

const SMALL: Geometry = Geometry {
    pages: 1,
    groups: 8,
    blocks: 16,
};

// Redo from block 3 on, block 1 kept, 7 commits, and transactions 514 and 600 active, whose last records are at 1,030
// and at 70,000.
const UNIT: [u8; 57] = [
    0x00, 0x00, 0x00, 0x00, 0x00, 0x00, 0x00, 0x03, // redo block
    0x00, 0x00, 0x00, 0x00, 0x00, 0x00, 0x00, 0x01, // kept block
    0x00, 0x00, 0x00, 0x00, 0x00, 0x00, 0x00, 0x07, // commits
    0x02, // active transactions
    0x00, 0x00, 0x00, 0x00, 0x00, 0x00, 0x02, 0x02, // Begin of the first
    0x00, 0x00, 0x00, 0x00, 0x00, 0x00, 0x04, 0x06, // its last record
    0x00, 0x00, 0x00, 0x00, 0x00, 0x00, 0x02, 0x58, // Begin of the second
    0x00, 0x00, 0x00, 0x00, 0x00, 0x01, 0x11, 0x70, // its last record
];

fn two_active() -> Pairs
    ensures { result ≡ record { begin = 514; last = 1030 } ∷ record { begin = 600; last = 70000 } ∷ [] }
{
    let mut active = Pairs::new();
    active.push(514, 1_030);
    active.push(600, 70_000);
    active
}

#[test]
fn writes_and_reads_a_unit(rt: HostRuntime) {
    let master = Master {
        redo: 3,
        kept: 1,
        commits: 7,
        active: two_active(),
    };
    let content = write_master(&master);
    assert!(rt; content.starts_with(&UNIT));
    assert_eq!(rt; content.get(57), Some(&0));
    assert_eq!(rt; content.get(502), Some(&0));
    let Ok(read) = read_master(&content) else {
        return;
    };
    assert_eq!(rt; read, master);
    assert_eq!(rt; read.active.len(), 2);
    assert_eq!(rt; read.active.at(1), (600, 70_000));
}

#[test]
fn zeros_are_the_blank_master(rt: HostRuntime) {
    assert_eq!(rt; write_master(&Master::blank()), [0; UNIT_LEN]);
    assert_eq!(rt; read_master(&[0; UNIT_LEN]), Ok(Master::blank()));
    assert!(rt; Pairs::new().is_empty());
}

// A place and an octet that make the unit bad: nine transactions, one more than pairs that ascend, the second Begin at
// the first one's LSN and before it, an octet behind the pairs, and the last octet.
const BAD: [(usize, u8); 6] = [(24, 9), (24, 3), (48, 0x02), (47, 0x01), (57, 1), (502, 1)];

#[test]
fn refuses_what_is_no_unit(rt: HostRuntime) {
    let master = Master {
        redo: 3,
        kept: 1,
        commits: 7,
        active: two_active(),
    };
    for (place, octet) in BAD {
        let mut content = write_master(&master);
        content[place] = octet;
        assert_eq!(rt; read_master(&content), Err(BadMaster));
    }
}

#[test]
fn blank_devices_have_the_blank_master(rt: HostRuntime) -> Result<(), Fail> {
    let mut site = MemSite::new(rt.alloc(), &SMALL)?;
    let (ring, master) = newest(&mut site)?;
    assert_eq!(rt; master, Master::blank());
    assert_eq!(rt; ring.hi(), 0);
    assert_eq!(rt; site.changes(), 0);
    Ok(())
}

#[test]
fn a_saved_master_is_the_newest(rt: HostRuntime) -> Result<(), Fail> {
    let mut site = MemSite::new(rt.alloc(), &SMALL)?;
    let (mut ring, mut master) = newest(&mut site)?;
    save(&mut site, &mut ring, &master)?;
    master.redo = 3;
    master.kept = 1;
    master.commits = 7;
    master.active = two_active();
    save(&mut site, &mut ring, &master)?;
    assert_eq!(rt; site.changes(), 10);
    let (again, read) = newest(&mut site)?;
    assert_eq!(rt; again, ring);
    assert_eq!(rt; again.hi(), 2);
    assert_eq!(rt; read, master);
    // Unit 1 in slot 1, behind its open gate.
    let log = site.content(Dev::Log);
    assert_eq!(rt; log.get(512), Some(&0xA5));
    assert_eq!(rt; log.get(520), Some(&1));
    assert_eq!(rt; log.get(528), Some(&3));
    assert_eq!(rt; log.get(545), Some(&2));
    Ok(())
}
