use mem_site::{Call, MemSite};
use site::{Dev, Failed, Geometry, Site, Take, tell_all};
use std::test::Fail;

const SMALL: Geometry = Geometry {
    pages: 1,
    groups: 8,
    blocks: 16,
};

#[test]
fn lengths_tell_the_sizes(rt: HostRuntime) {
    let standard = Geometry {
        pages: 16,
        groups: 8,
        blocks: 64,
    };
    assert_eq!(rt; standard.lengths(), (34_304, 271_360, 65_536));
    assert_eq!(rt;
        Geometry::of_lengths(34_304, 271_360, 65_536),
        Some(standard)
    );
    assert_eq!(rt; Geometry::of_lengths(34_304, 271_361, 65_536), None);
}

#[test]
fn a_fuse_cuts_a_write(rt: HostRuntime) -> Result<(), Fail> {
    let mut site = MemSite::new(rt.alloc(), &SMALL)?;
    site.fuse(2);
    assert!(rt; site.write_at(Dev::Disk, 2, &[1, 2, 3]).is_ok());
    assert!(rt; site.sync(Dev::Disk).is_ok());
    assert_eq!(rt; site.len(Dev::Disk), 4_096);
    assert_eq!(rt; site.write_at(Dev::Disk, 4, &[9, 9]), Err(Failed));
    assert_eq!(rt; site.tell(&[1]), Err(Failed));
    assert!(rt; site.content(Dev::Disk).starts_with(&[0, 0, 1, 2, 9, 9, 0]));
    assert_eq!(rt; site.told().len(), 0);
    assert_eq!(rt; site.changes(), 4);
    assert!(rt; !site.lacked());
    let site = site.crash(2);
    assert!(rt;
        site.content(Dev::Disk)
            .starts_with(&[0, 0, 1, 2, 0xA5, 0xA5, 0])
    );
    assert_eq!(rt; site.lives(), [4].as_slice());
    Ok(())
}

#[test]
fn a_crash_draws_numbers(rt: HostRuntime) -> Result<(), Fail> {
    let mut site = MemSite::new(rt.alloc(), &SMALL)?;
    site.poke(Dev::Log, 0, 5);
    assert!(rt; site.write_at(Dev::Log, 1, &[7, 7]).is_ok());
    // The generator's first two numbers after 77, by their top octets.
    let site = site.crash(77);
    assert!(rt; site.content(Dev::Log).starts_with(&[5, 164, 126, 0]));
    Ok(())
}

#[test]
fn a_named_call_fails_once(rt: HostRuntime) -> Result<(), Fail> {
    let mut site = MemSite::new(rt.alloc(), &SMALL)?;
    site.feed(b"ab")?;
    site.fail(Call::Take, 2)?;
    let mut octet = [0];
    assert_eq!(rt; site.take(&mut octet), Ok(1));
    assert_eq!(rt; site.take(&mut octet), Err(Failed));
    assert_eq!(rt; site.take(&mut octet), Ok(1));
    assert_eq!(rt; octet, *b"b");
    assert_eq!(rt; site.take(&mut octet), Ok(0));
    Ok(())
}

#[test]
fn a_read_counts_pages(rt: HostRuntime) -> Result<(), Fail> {
    let mut site = MemSite::new(rt.alloc(), &SMALL)?;
    let mut octets = [1; 4_097];
    assert!(rt; site.read_at(Dev::Flash, 3, &mut octets).is_ok());
    assert_eq!(rt; octets[4_096], 0);
    assert_eq!(rt; site.reads(Dev::Flash), 2);
    Ok(())
}

#[test]
fn a_short_tell_is_told_on(rt: HostRuntime) -> Result<(), Fail> {
    let mut site = MemSite::new(rt.alloc(), &SMALL)?;
    site.short_tell(1, 2)?;
    assert!(rt; tell_all(&mut site, b"hello").is_ok());
    assert_eq!(rt; site.told(), b"hello".as_slice());
    assert_eq!(rt; site.changes(), 2);
    Ok(())
}

// Five octets are heard by takes of three and of two; the end is asked for twice and remembered once.
#[test]
fn the_first_take_at_each_place_is_remembered(rt: HostRuntime) -> Result<(), Fail> {
    let mut site = MemSite::new(rt.alloc(), &SMALL)?;
    site.feed(&[1, 2, 3, 4, 5])?;
    let mut into = [0; 3];
    assert_eq!(rt; site.take(&mut into), Ok(3));
    assert_eq!(rt; site.tell(&[7, 7]), Ok(2));
    assert_eq!(rt; site.take(&mut into), Ok(2));
    assert_eq!(rt; into, [4, 5, 3]);
    assert_eq!(rt; site.take(&mut into), Ok(0));
    assert_eq!(rt; site.tell(&[7]), Ok(1));
    assert_eq!(rt; site.take(&mut into), Ok(0));
    assert_eq!(rt;
        site.takes(),
        [(0, 0), (3, 2), (5, 2)]
            .map(|(heard, told)| Take { heard, told })
            .as_slice()
    );
    Ok(())
}
