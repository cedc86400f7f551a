// Pages are written one after the other, and then the disk is synced once.
ghost use Rattle.std.specs.Prelude.{◌≡◌, ◌≢◌, ◌+◌, ◌<◌, length, get_or, [], IsTrue, OnOk, IsOk};
ghost use Rattle.std.specs.List.{All, AllPairs};
ghost use Rattle.site.specs.declared.geometry.Geometry.{Geometry};
ghost use Rattle.site.specs.declared.outside.Dev.{Dev};
ghost use Rattle.site.specs.declared.outside.Stop.{Stop};
ghost use Rattle.site.specs.Geometry.{HasLengths};
ghost use Rattle.site.specs.State.{IsSettled, IsQuiet};
ghost use Rattle.site.specs.Moments.{LeavesOnly, ChangesOnly};
ghost use Rattle.disk_pages.specs.Calls.{WritesDisk};
ghost use Rattle.disk_pages.specs.Pages.{LiesOn};
ghost use Rattle.image_changes.specs.Changes.{Reaches};
ghost use Rattle.image_changes.specs.Reached.{LeavesFront};
ghost use Rattle.stage_out.specs.Staged.{HasStaged, LeavesStaged, changes_of, calls_of, unsynced_in, HasWritten};
ghost use Rattle.stage_out.specs.Staged.{HasLeft};

use disk_pages::{sync_disk, write_page};
use site::{Site, Stop};
use slotted_page::Page;

/// Writes pages to the disk, in order, and syncs it once; where there is none it makes no call. Until the sync a crash
/// may leave any octets on these pages. The one error is that of the disk.
pub fn stage<S: Site>(site: &mut S, pages: &[u32], contents: &[Page]) -> Result<(), Stop>
    requires lists { length contents.now ≡ length pages.now }
    requires once { AllPairs (λ a b. a ≢ b) pages.now }
    requires lie { All (λ page. LiesOn page (S.state site.old).image.disk) pages.now }

    // Of an honest site.
    ensures any_moment { IsTrue (S.state site.old).honest
        → LeavesOnly (S.state site.old) (S.state site.new) (LeavesStaged pages.now (S.state site.old)) }
    ensures front { (g : Geometry) → IsTrue (S.state site.old).honest
        → HasLengths g (S.state site.old).image → IsQuiet (S.state site.old)
        → LeavesFront g (changes_of pages.now) (S.state site.old) (S.state site.new) }
    ensures reaches { (g : Geometry) → IsTrue (S.state site.old).honest
        → HasLengths g (S.state site.old).image
        → OnOk result (Reaches g (changes_of pages.now) (S.state site.old).image (S.state site.new).image) }
    ensures staged { IsTrue (S.state site.old).honest → OnOk result (HasStaged pages.now contents.now
        (S.state site.old).image.disk (S.state site.new).image.disk) }
    ensures changes { IsTrue (S.state site.old).honest
        → ChangesOnly Dev.Disk (S.state site.old) (S.state site.new) }
    ensures settled { IsTrue (S.state site.old).honest → IsSettled Dev.Disk (S.state site.old)
        → OnOk result (IsSettled Dev.Disk (S.state site.new)) }
    ensures quiet { IsTrue (S.state site.old).honest → IsQuiet (S.state site.old)
        → OnOk result (IsQuiet (S.state site.new)) }
    ensures calls { IsTrue (S.state site.old).honest → OnOk result (length (S.state site.new).past
        ≡ length (S.state site.old).past + calls_of pages.now) }
    ensures unsynced { IsTrue (S.state site.old).honest → OnOk result (unsynced_in (S.state site.new).past
        ≡ unsynced_in (S.state site.old).past + calls_of pages.now) }

    // Of every site.
    ensures none { pages.now ≡ [] → (site.new ≡ site.old) × IsOk result }
    ensures writes { WritesDisk result (S.state site.old) (S.state site.new) }
{
    if pages.is_empty() {
        return Ok(());
    }
    write_all(site, pages, contents)?;
    sync_disk(site)
}

// The octets of the content at a place.
fn octets_at(contents: &[Page], place: usize) -> &[u8]
    requires { place < length contents.now }
    ensures octets { result.now ≡ get_or contents.now place [] }
    ensures size { length result.now ≡ 4096 }
{
    contents[place].bytes()
}

// Writes the pages, in order.
fn write_all<S: Site>(site: &mut S, pages: &[u32], contents: &[Page]) -> Result<(), Stop>
    requires lists { length contents.now ≡ length pages.now }
    requires once { AllPairs (λ a b. a ≢ b) pages.now }
    requires lie { All (λ page. LiesOn page (S.state site.old).image.disk) pages.now }

    ensures left { IsTrue (S.state site.old).honest
        → HasLeft pages.now (S.state site.old) (S.state site.new) }
    ensures written { IsTrue (S.state site.old).honest → OnOk result (HasWritten pages.now contents.now
        (length pages.now) (S.state site.old) (S.state site.new)) }
    ensures writes { WritesDisk result (S.state site.old) (S.state site.new) }
{
    for place in 0..pages.len() {
        match write_page(site, pages[place], octets_at(contents, place)) {
            Ok(()) => {}
            Err(stop) => return Err(stop),
        }
    }
    Ok(())
}
