// Restores over a site in memory. What is expected was worked out by hand or by another program.
use archive_report::archive;
use archive_restore::restore;
use face::serve;
use mem_site::MemSite;
use site::{Dev, Geometry, Site};
use std::alloc::Global;
use std::test::Fail;

const STANDARD: Geometry = Geometry {
    pages: 16,
    groups: 8,
    blocks: 64,
};

const SMALL: Geometry = Geometry {
    pages: 16,
    groups: 8,
    blocks: 16,
};

// The first block of a log, of `set 5 0a0b`, up to its last record.
const FIRST: &[u8] =
    b"block 0 002e010200000000000000020000000000000002000000000500030a0b0400000000000000020000000000000001";

// Feeds that block as a line: 457 octets more of it are zero.
fn feed_first(site: &mut MemSite) -> Result<(), Fail> {
    site.feed(FIRST)?;
    for _octet in 46..503 {
        site.feed(b"00")?;
    }
    site.feed(b"\n")?;
    Ok(())
}

// Restores so many commits from this input on blank devices of these sizes.
fn restored(
    alloc: Global,
    sizes: &Geometry,
    count: u64,
    input: &[u8],
) -> Result<(u8, MemSite), Fail> {
    let mut site = MemSite::new(alloc, sizes)?;
    site.feed(input)?;
    let status = restore(alloc, count, 1, &mut site);
    Ok((status, site))
}

// The archive of all that a run over this input leaves in the log.
fn archive_of(alloc: Global, sizes: &Geometry, input: &[u8]) -> Result<Vec<u8>, Fail> {
    let mut site = MemSite::new(alloc, sizes)?;
    site.feed(input)?;
    let _ = serve(alloc, 4, &mut site);
    let before = site.told().len();
    let _ = archive(0, &mut site);
    let mut stream = Vec::new(alloc);
    if before <= site.told().len() {
        stream.extend_from_slice(&site.told()[before..])?;
    }
    Ok(stream)
}

// Whether this was told behind what was told before.
fn is_told(site: &MemSite, before: usize, text: &[u8]) -> bool {
    before <= site.told().len() && &site.told()[before..] == text
}

// What a run over this input tells on a site, behind what was told before.
fn told_by(alloc: Global, site: &mut MemSite, input: &[u8], told: &[u8]) -> Result<bool, Fail> {
    let before = site.told().len();
    site.feed(input)?;
    let _ = serve(alloc, 1, site);
    Ok(is_told(site, before, told))
}

#[test]
fn the_first_commit(rt: HostRuntime) -> Result<(), Fail> {
    let mut site = MemSite::new(rt.alloc(), &STANDARD)?;
    feed_first(&mut site)?;
    site.feed(b"end 1\n")?;
    let status = restore(rt.alloc(), 1, 1, &mut site);
    assert!(rt; status == 0);
    assert!(rt; site.told() == b"restored 1\n".as_slice());
    let mut site = site.crash(1);
    assert!(rt; told_by(rt.alloc(), &mut site, b"get 5\n", b"open 1\nvalue 0a0b\n")?);
    Ok(())
}

#[test]
fn too_short(rt: HostRuntime) -> Result<(), Fail> {
    let mut site = MemSite::new(rt.alloc(), &STANDARD)?;
    feed_first(&mut site)?;
    site.feed(b"end 1\n")?;
    let status = restore(rt.alloc(), 2, 1, &mut site);
    assert!(rt; status == 14);
    assert!(rt; site.told() == b"fault short 1\n".as_slice());
    assert!(rt; told_by(rt.alloc(), &mut site, b"get 5\n", b"open 1\nvalue 0a0b\n")?);
    Ok(())
}

#[test]
fn no_stream(rt: HostRuntime) -> Result<(), Fail> {
    let (status, site) = restored(rt.alloc(), &STANDARD, 1, b"end 1\n")?;
    assert!(rt; status == 13);
    assert!(rt; site.told() == b"fault stream 1\n".as_slice());
    let (status, site) = restored(rt.alloc(), &STANDARD, 1, b"end 0\nend 0\nend 0")?;
    assert!(rt; status == 14);
    assert!(rt; site.told() == b"fault short 0\n".as_slice());
    let (status, site) = restored(rt.alloc(), &STANDARD, 1, b"end 0\n\n")?;
    assert!(rt; status == 13);
    assert!(rt; site.told() == b"fault stream 2\n".as_slice());
    Ok(())
}

#[test]
fn nothing_is_read_for_no_commit(rt: HostRuntime) -> Result<(), Fail> {
    let (status, site) = restored(rt.alloc(), &STANDARD, 0, b"nonsense\n")?;
    assert!(rt; status == 0);
    assert!(rt; site.told() == b"restored 0\n".as_slice());
    assert!(rt; site.takes().is_empty());
    Ok(())
}

#[test]
fn not_blank(rt: HostRuntime) -> Result<(), Fail> {
    let mut site = MemSite::new(rt.alloc(), &STANDARD)?;
    site.sync(Dev::Disk)?;
    if site.len(Dev::Disk) > 7 {
        site.poke(Dev::Disk, 7, 1);
    }
    let status = restore(rt.alloc(), 1, 1, &mut site);
    assert!(rt; status == 10);
    assert!(rt; site.told() == b"fault notblank disk 7\n".as_slice());
    Ok(())
}

// Sessions that commit, abort and go back, and values that go.
const WORK: &[u8] =
    b"begin 0\nwrite 0 7 01\nbegin 1\nwrite 1 8 02\nwrite 0 7 03\nmark 0\nwrite 0 9 04\nback 0\n\
abort 1\ncommit 0\nset 8 aa\nbegin 2\nerase 2 7\nwrite 2 500 0102030405\ncommit 2\n";

#[test]
fn each_commit(rt: HostRuntime) -> Result<(), Fail> {
    let stream = archive_of(rt.alloc(), &STANDARD, WORK)?;
    let (status, mut site) = restored(rt.alloc(), &STANDARD, 1, stream.as_slice())?;
    assert!(rt; status == 0);
    let (status, site) = restored(rt.alloc(), &STANDARD, 1, stream.as_slice())?;
    assert!(rt; status == 0);
    let mut site = site.crash(0);
    assert!(rt;
        told_by(
            rt.alloc(),
            &mut site,
            b"begin 0\nscan 0 0 64\nget 500\n",
            b"open 1\nok\nitem 7 03\nend 1\nnone\n"
        )?
    );
    let (status, site) = restored(rt.alloc(), &STANDARD, 2, stream.as_slice())?;
    assert!(rt; status == 0);
    let mut site = site.crash(0);
    assert!(rt;
        told_by(
            rt.alloc(),
            &mut site,
            b"begin 0\nscan 0 0 64\n",
            b"open 2\nok\nitem 7 03\nitem 8 aa\nend 2\n"
        )?
    );
    let (status, site) = restored(rt.alloc(), &STANDARD, 3, stream.as_slice())?;
    assert!(rt; status == 0);
    let mut site = site.crash(0);
    assert!(rt;
        told_by(
            rt.alloc(),
            &mut site,
            b"begin 0\nscan 0 0 64\nget 500\n",
            b"open 3\nok\nitem 8 aa\nend 1\nvalue 0102030405\n"
        )?
    );
    Ok(())
}

// What a run tells after 0, 1, 2 and 3 of its commits.
const STATES: [&[u8]; 4] = [
    b"open 0\nok\nend 0\nnone\n",
    b"open 1\nok\nitem 7 03\nend 1\nnone\n",
    b"open 2\nok\nitem 7 03\nitem 8 aa\nend 2\nnone\n",
    b"open 3\nok\nitem 8 aa\nend 1\nvalue 0102030405\n",
];

// Which of these states a site is in.
fn state_of(alloc: Global, site: &mut MemSite) -> Result<Option<usize>, Fail> {
    let before = site.told().len();
    site.feed(b"begin 0\nscan 0 0 64\nget 500\n")?;
    let _ = serve(alloc, 1, site);
    for place in 0..4 {
        if is_told(site, before, STATES[place]) {
            return Ok(Some(place));
        }
    }
    Ok(None)
}

#[test]
fn cut_at_each_change(rt: HostRuntime) -> Result<(), Fail> {
    let stream = archive_of(rt.alloc(), &STANDARD, WORK)?;
    let mut before = 0;
    for changes in 0..80 {
        let mut site = MemSite::new(rt.alloc(), &STANDARD)?;
        site.feed(stream.as_slice())?;
        site.fuse(changes);
        let status = restore(rt.alloc(), 3, 1, &mut site);
        assert!(rt; status == 0 || status == 3 || status == 6);
        let mut site = site.crash(2);
        let state = state_of(rt.alloc(), &mut site)?;
        assert!(rt; state.is_some());
        let now = state.unwrap_or(0);
        assert!(rt; before <= now);
        before = now;
    }
    assert!(rt; before == 3);
    Ok(())
}

// A transaction of eight writes wants 18 blocks of a log that has 15 to use.
const LARGE: &[u8] =
    b"set 1 aa\nbegin 0\nwrite 0 1 01\nwrite 0 2 01\nwrite 0 3 01\nwrite 0 4 01\nwrite 0 5 01\nwrite 0 6 01\n\
write 0 7 01\nwrite 0 8 01\ncommit 0\n";

#[test]
fn no_room(rt: HostRuntime) -> Result<(), Fail> {
    let stream = archive_of(rt.alloc(), &STANDARD, LARGE)?;
    let (status, site) = restored(rt.alloc(), &SMALL, 2, stream.as_slice())?;
    assert!(rt; status == 15);
    assert!(rt; site.told() == b"fault full\n".as_slice());
    let mut site = site.crash(0);
    assert!(rt;
        told_by(
            rt.alloc(),
            &mut site,
            b"begin 0\nscan 0 0 64\n",
            b"open 1\nok\nitem 1 aa\nend 1\n"
        )?
    );
    Ok(())
}
