// The versions of the pages.
ghost use Rattle.std.specs.Prelude.{◌≡◌, ◌↔◌, ◌+◌, ◌<◌, is_none, IsTrue, IfOk};
ghost use Rattle.site.specs.Work.{OnlyReads};
ghost use Rattle.slotted_page.specs.Layout.{IsSound};
ghost use Rattle.flash_cache.specs.Representation.{version_on};
ghost use Rattle.image_form.specs.Counted.{ReadsAtMost};
ghost use Rattle.image_form.specs.Octets.{AreGroups, AreVersions};
ghost use Rattle.image_form.specs.Findings.{MayRead, AreFound};
ghost use Rattle.image_form.specs.Newest.{AreLive, ShowsFrames};

use crate::newest::{find_frames, read_version};
use crate::place::Place;
use crate::rings::Rings;
use flash_directory::Directory;
use frame_group::PAGE_LEN;
use site::{Geometry, Site, Stop};
use slotted_page::Page;
use std::alloc::Global;

// Whether the version of a page is a sound page: reads it.
fn is_sound_version<S: Site>(
    site: &mut S,
    geometry: &Geometry,
    rings: &Rings,
    frames: &Directory,
    page: u32,
) -> Result<bool, Stop>
    requires may_read { MayRead geometry.now rings.now (S.state site.old) }
    requires live { AreLive rings.now frames.now }
    requires exists { page < geometry.now.pages }

    ensures sound { IsTrue (S.state site.old).honest → AreFound rings.now (S.state site.old)
        → AreGroups geometry.now (S.state site.old).image
        → ShowsFrames geometry.now (S.state site.old).image frames.now
        → IfOk result (λ sound. IsTrue sound ↔ IsSound (version_on geometry.now (S.state site.old).image page)) }
    ensures looks { ReadsAtMost 0 1 (S.state site.old) (S.state site.new) }
    ensures reads { OnlyReads result (S.state site.old) (S.state site.new) }
{
    let mut octets = [0u8; PAGE_LEN];
    if let Err(stop) = read_version(site, geometry, rings, frames, page, &mut octets) {
        return Err(stop);
    }
    Ok(Page::from_bytes(&octets).sound())
}

// The first page whose version isn't a sound page, `None` exactly where there is none: reads each version once.
fn find_unsound<S: Site>(
    site: &mut S,
    geometry: &Geometry,
    rings: &Rings,
    frames: &Directory,
) -> Result<Option<Place>, Stop>
    requires may_read { MayRead geometry.now rings.now (S.state site.old) }
    requires live { AreLive rings.now frames.now }

    ensures versions { IsTrue (S.state site.old).honest → AreFound rings.now (S.state site.old)
        → AreGroups geometry.now (S.state site.old).image
        → ShowsFrames geometry.now (S.state site.old).image frames.now
        → IfOk result (λ failing. IsTrue (is_none failing) ↔ AreVersions geometry.now (S.state site.old).image) }
    ensures looks { ReadsAtMost 0 geometry.now.pages (S.state site.old) (S.state site.new) }
    ensures reads { OnlyReads result (S.state site.old) (S.state site.new) }
{
    for page in 0..geometry.pages {
        let stands = match is_sound_version(site, geometry, rings, frames, page) {
            Ok(stands) => stands,
            Err(stop) => return Err(stop),
        };
        if !stands {
            return Ok(Some(Place::Page(page)));
        }
    }
    Ok(None)
}

/// The first page whose version isn't a sound page, where the live groups are of the form; `None` exactly where there
/// is none. It reads the heads of the live groups and each version once, and holds where the newest frames stand.
pub fn rule_versions<S: Site>(
    alloc: Global,
    site: &mut S,
    geometry: &Geometry,
    rings: &Rings,
) -> Result<Option<Place>, Stop>
    requires { MayRead geometry.now rings.now (S.state site.old) }

    ensures versions { IsTrue (S.state site.old).honest → AreFound rings.now (S.state site.old)
        → AreGroups geometry.now (S.state site.old).image
        → IfOk result (λ failing. IsTrue (is_none failing) ↔ AreVersions geometry.now (S.state site.old).image) }
    ensures looks { ReadsAtMost 0 (geometry.now.groups + geometry.now.pages) (S.state site.old) (S.state site.new) }
    ensures reads { OnlyReads result (S.state site.old) (S.state site.new) }
{
    let frames = match find_frames(alloc, site, geometry, rings) {
        Ok(Some(frames)) => frames,
        Ok(None) => return Ok(Some(Place::Groups)),
        Err(stop) => return Err(stop),
    };
    match find_unsound(site, geometry, rings, &frames) {
        Ok(failing) => Ok(failing),
        Err(stop) => Err(stop),
    }
}
