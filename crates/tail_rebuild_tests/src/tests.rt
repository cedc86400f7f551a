// Groups and segments on a site in memory.
ghost use Rattle.std.specs.Prelude.{IfOk};
ghost use Rattle.site.specs.Geometry.{HasLengths};
ghost use Rattle.mem_site.specs.MemState.{state_of};
ghost use Rattle.tail_rebuild_tests.specs.Trying.{small, MayTry};

use frame_group::GROUP_LEN;
use mem_site::MemSite;
use meta_segments::SEGMENT_LEN;
use sealed_ring::{Ring, Shape};
use site::{Dev, Geometry, Stop};
use std::alloc::Global;
use std::test::Fail;
use tail_rebuild::{rebuild, save_due};

const SMALL: Geometry = Geometry {
    pages: 16,
    groups: 8,
    blocks: 16,
};

const MANY: Geometry = Geometry {
    pages: 16,
    groups: 16_384,
    blocks: 16,
};

// Where the groups of the smaller devices lie, and the segments behind them.
const GROUPS: Shape = Shape {
    dev: Dev::Flash,
    base: 0,
    slots: 8,
    stride: 33_280,
    room: 32_896,
};

const SEGMENTS: Shape = Shape {
    dev: Dev::Flash,
    base: 266_240,
    slots: 5,
    stride: 1_024,
    room: 512,
};

// Appends a group of one frame for each of these pages.
fn append_pages(site: &mut MemSite, groups: &mut Ring, pages: &[u8]) -> Result<(), Stop>
    requires { MayTry groups.old (state_of site.old) }
    ensures { MayTry groups.new (state_of site.new) }
{
    for page in pages {
        let mut content = [0u8; GROUP_LEN];
        content[0] = 1;
        content[7] = *page;
        groups.append(site, &content)?;
    }
    Ok(())
}

// Devices with these groups.
fn with_groups(alloc: Global, pages: &[u8]) -> Result<MemSite, Stop>
    ensures { IfOk result (λ site. HasLengths small (state_of site).image) }
{
    let mut site = MemSite::new(alloc, &SMALL)?;
    let mut groups = Ring::scan(&mut site, GROUPS)?;
    append_pages(&mut site, &mut groups, pages)?;
    Ok(site)
}

#[test]
fn many_groups_that_are_blank(rt: HostRuntime) -> Result<(), Fail> {
    let mut site = MemSite::new(rt.alloc(), &MANY)?;
    let heads = rebuild(rt.alloc(), &mut site, &MANY)?;
    assert!(rt; heads.list.is_empty());
    assert!(rt; site.reads(Dev::Flash) <= 8_210);
    Ok(())
}

#[test]
fn a_segment_and_a_group_behind_it(rt: HostRuntime) -> Result<(), Fail> {
    let mut site = with_groups(rt.alloc(), &[0, 1, 2, 3, 4])?;
    let mut segments = Ring::scan(&mut site, SEGMENTS)?;
    let mut content = [0u8; SEGMENT_LEN];
    for place in 0..4 {
        content[128 * place] = 1;
        content[128 * place + 7] = place as u8;
    }
    segments.append(&mut site, &content)?;
    // The groups' slots and the segments', once each and once more.
    assert_eq!(rt; site.reads(Dev::Flash), 15);
    let heads = rebuild(rt.alloc(), &mut site, &SMALL)?;
    let list = heads.list.as_slice();
    assert_eq!(rt; list.len(), 5);
    assert_eq!(rt; list[3][0].page, 3);
    assert_eq!(rt; list[4][0].page, 4);
    assert!(rt; !list[4][1].present);
    // The segments' slots once more, two of the groups', one segment and one group.
    assert_eq!(rt; site.reads(Dev::Flash), 25);
    Ok(())
}

#[test]
fn a_segment_is_saved_once_it_is_due(rt: HostRuntime) -> Result<(), Fail> {
    let mut site = with_groups(rt.alloc(), &[9, 8, 7, 6])?;
    let mut heads = rebuild(rt.alloc(), &mut site, &SMALL)?;
    assert_eq!(rt; heads.list.len(), 4);
    assert_eq!(rt; heads.list.at(1)[0].page, 8);
    assert_eq!(rt; heads.segments.hi(), 0);
    save_due(&mut site, &SMALL, &heads.groups, &mut heads.segments)?;
    assert_eq!(rt; heads.segments.hi(), 1);
    // In slot 0 of the segments: its open gate, and the head of the second group.
    let flash = site.content(Dev::Flash);
    assert_eq!(rt; flash.get(266_240), Some(&0xA5));
    assert_eq!(rt; flash.get(266_377), Some(&1));
    assert_eq!(rt; flash.get(266_384), Some(&8));
    Ok(())
}
