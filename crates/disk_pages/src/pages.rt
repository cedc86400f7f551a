// Reading and writing the pages of the disk.
ghost use Rattle.std.specs.Prelude.{◌≡◌, ◌≢◌, ◌+◌, ◌*◌, ◌≤◌, length, IsTrue, IfErr, OnOk, OnErr};
ghost use Rattle.site.specs.declared.outside.Dev.{Dev};
ghost use Rattle.site.specs.declared.outside.Stop.{Stop};
ghost use Rattle.site.specs.State.{reads_of, now_of, MayLeave, IsSettled};
ghost use Rattle.site.specs.Calls.{Lies, Adds};
ghost use Rattle.site.specs.Moments.{LeavesOnly, ChangesOnly};
ghost use Rattle.site.specs.Work.{OnlyReads};
ghost use Rattle.disk_pages.specs.Calls.{WritesDisk};
ghost use Rattle.disk_pages.specs.Pages.{LiesOn, page_on, within_page};

use site::{Dev, Site, Stop};

/// The octets of a page.
pub const PAGE_LEN: usize = 4096;

// Where a page begins.
fn place_of(page: u32) -> u64
    ensures { result ≡ 4096 * page }
{
    PAGE_LEN as u64 * page as u64
}

/// Reads a page of the disk into 4,096 octets, by one read. The one error is that of the disk.
pub fn read_page<S: Site>(site: &mut S, page: u32, into: &mut [u8]) -> Result<(), Stop>
    requires lies { LiesOn page (S.state site.old).image.disk }
    requires room { length into.old ≡ 4096 }

    ensures read { IsTrue (S.state site.old).honest
        → OnOk result (into.new ≡ page_on page (S.state site.old).image.disk) }
    ensures looks { OnlyReads result (S.state site.old) (S.state site.new) }
    ensures reads { (S.state site.new).disk_reads ≤ (S.state site.old).disk_reads + 1 }
    ensures others { (d : Dev) → d ≢ Dev.Disk
        → reads_of d (S.state site.new) ≡ reads_of d (S.state site.old) }
    ensures stops { IfErr result (λ stop. stop ≡ Stop.Device Dev.Disk) }
{
    let Ok(()) = site.read_at(Dev::Disk, place_of(page), into) else {
        return Err(Stop::Device(Dev::Disk));
    };
    Ok(())
}

/// Writes 4,096 octets as a page of the disk, by one write. Until a sync the page is loose: a crash may leave any
/// octets there. The one error is that of the disk.
pub fn write_page<S: Site>(site: &mut S, page: u32, from: &[u8]) -> Result<(), Stop>
    requires lies { LiesOn page (S.state site.old).image.disk }
    requires room { length from.now ≡ 4096 }

    // A crash at any moment leaves what it might have left before, but any octets on the page.
    ensures any_moment { IsTrue (S.state site.old).honest
        → LeavesOnly (S.state site.old) (S.state site.new) (MayLeave (within_page page (S.state site.old))) }
    ensures written { IsTrue (S.state site.old).honest
        → OnOk result (Lies Dev.Disk (4096 * page) from.now (S.state site.old) (S.state site.new)) }
    ensures calls { IsTrue (S.state site.old).honest
        → OnOk result (Adds (within_page page (S.state site.old)) (S.state site.old) (S.state site.new)) }
    ensures changes { IsTrue (S.state site.old).honest
        → ChangesOnly Dev.Disk (S.state site.old) (S.state site.new) }
    ensures writes { WritesDisk result (S.state site.old) (S.state site.new) }
{
    let Ok(()) = site.write_at(Dev::Disk, place_of(page), from) else {
        return Err(Stop::Device(Dev::Disk));
    };
    Ok(())
}

/// Makes the pages that were written stable, by one sync. The one error is that of the disk.
pub fn sync_disk<S: Site>(site: &mut S) -> Result<(), Stop>
    // A crash at any moment leaves what it might have left before.
    ensures any_moment { IsTrue (S.state site.old).honest
        → LeavesOnly (S.state site.old) (S.state site.new) (MayLeave (now_of (S.state site.old))) }
    ensures image { IsTrue (S.state site.old).honest → (S.state site.new).image ≡ (S.state site.old).image }
    ensures settled { IsTrue (S.state site.old).honest
        → OnOk result (IsSettled Dev.Disk (S.state site.new)) }
    ensures failed { IsTrue (S.state site.old).honest
        → OnErr result ((S.state site.new).loose ≡ (S.state site.old).loose) }
    ensures calls { IsTrue (S.state site.old).honest
        → OnOk result (Adds (now_of (S.state site.old)) (S.state site.old) (S.state site.new)) }
    ensures changes { IsTrue (S.state site.old).honest
        → ChangesOnly Dev.Disk (S.state site.old) (S.state site.new) }
    ensures writes { WritesDisk result (S.state site.old) (S.state site.new) }
{
    let Ok(()) = site.sync(Dev::Disk) else {
        return Err(Stop::Device(Dev::Disk));
    };
    Ok(())
}
