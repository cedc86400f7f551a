// Staging on a site in memory.
ghost use Rattle.site.specs.Geometry.{HasLengths};
ghost use Rattle.mem_site.specs.MemState.{state_of};

use crate::disk_pages_tests::{SMALL, have};
use mem_site::MemSite;
use site::{Dev, Stop};
use slotted_page::Page;
use stage_out::stage;
use std::test::Fail;

// Stages 7s as page 2 and 8s as page 0 of a blank disk.
fn stage_two(site: &mut MemSite) -> Result<(), Stop>
    requires { HasLengths (record { pages = 3; groups = 8; blocks = 16 }) (state_of site.old).image }
{
    let contents = [Page::from_bytes(&[7; 4096]), Page::from_bytes(&[8; 4096])];
    stage(site, &[2, 0], &contents)
}

#[test]
fn two_pages_are_written_and_synced_once(rt: HostRuntime) -> Result<(), Fail> {
    let mut site = MemSite::new(rt.alloc(), &SMALL)?;
    stage_two(&mut site)?;
    assert!(rt; site.changes() == 3);
    let site = site.crash(2);
    let wanted = [(4_095, 8), (4_096, 0), (8_191, 0), (8_192, 7)];
    assert!(rt; have(site.content(Dev::Disk), &wanted));
    Ok(())
}
