// The newest versions of pages.
ghost use Rattle.std.specs.Prelude.{◌≡◌, ◌<◌, ◌≤◌, List, map, Some, IsTrue, IfOk, IfSome, IfNone, OnOk};
ghost use Rattle.site.specs.declared.geometry.Geometry.{Geometry};
ghost use Rattle.site.specs.Work.{OnlyReads};
ghost use Rattle.sealed_ring.specs.Ring.{IsLive};
ghost use Rattle.byte_fields.specs.FrameHeads.{AreGroupHeads};
ghost use Rattle.frame_group.specs.Groups.{Frame, heads_of, IsGroup};
ghost use Rattle.tail_rebuild.specs.Standing.{group_on};
ghost use Rattle.flash_cache.specs.Representation.{version_on};
ghost use Rattle.image_form.specs.Counted.{ReadsAtMost};
ghost use Rattle.image_form.specs.Octets.{AreGroups};
ghost use Rattle.image_form.specs.Findings.{MayRead, AreFound};
ghost use Rattle.image_form.specs.Newest.{AreLive, ShowsFrames};

use crate::rings::Rings;
use byte_fields::FrameHead;
use disk_pages::read_page;
use flash_directory::{Directory, HeadView};
use frame_group::{HEADS_LEN, PAGE_LEN, group_heads};
use site::{Geometry, Site, Stop};
use std::alloc::Global;

/// The heads of a live group, by one read; `None` where they aren't of the form.
pub fn heads_at<S: Site>(
    site: &mut S,
    rings: &Rings,
    group: u64,
) -> Result<Option<[FrameHead; 8]>, Stop>
    requires may_read { (g : Geometry) × MayRead g rings.now (S.state site.old) }
    requires live { IsLive rings.now.groups.shape rings.now.groups.hi group }

    ensures heads { (g : Geometry) (frames : List Frame) → MayRead g rings.now (S.state site.old)
        → IsTrue (S.state site.old).honest → AreFound rings.now (S.state site.old)
        → IsGroup (group_on g (S.state site.old).image group) frames
        → IfOk result (λ found. found ≡ Some (heads_of frames)) }
    ensures formed { IfOk result (λ found. IfSome found (λ heads. AreGroupHeads heads)) }
    ensures looks { ReadsAtMost 0 1 (S.state site.old) (S.state site.new) }
    ensures reads { OnlyReads result (S.state site.old) (S.state site.new) }
{
    let mut octets = [0u8; HEADS_LEN];
    if let Err(stop) = rings.groups.read_part(site, group, 0, &mut octets) {
        return Err(stop);
    }
    let Ok(heads) = group_heads(&octets) else {
        return Ok(None);
    };
    Ok(Some(heads))
}

/// Where the newest frame of each page stands, by the heads of the live groups: reads those of each once. `None` where
/// heads aren't of the form.
pub fn find_frames<S: Site>(
    alloc: Global,
    site: &mut S,
    geometry: &Geometry,
    rings: &Rings,
) -> Result<Option<Directory>, Stop>
    requires { MayRead geometry.now rings.now (S.state site.old) }

    ensures shown { IsTrue (S.state site.old).honest → AreFound rings.now (S.state site.old)
        → AreGroups geometry.now (S.state site.old).image
        → IfOk result (λ found. IfSome found (λ frames. ShowsFrames geometry.now (S.state site.old).image frames)) }
    ensures formed { IsTrue (S.state site.old).honest → AreFound rings.now (S.state site.old)
        → AreGroups geometry.now (S.state site.old).image → IfOk result (λ found. IfNone found ⊥) }
    ensures live { IfOk result (λ found. IfSome found (λ frames. AreLive rings.now frames)) }
    ensures looks { ReadsAtMost 0 geometry.now.groups (S.state site.old) (S.state site.new) }
    ensures reads { OnlyReads result (S.state site.old) (S.state site.new) }
{
    let first = rings.groups.oldest();
    let mut list = Vec::new(alloc);
    for group in first..rings.groups.hi() {
        let heads = match heads_at(site, rings, group) {
            Ok(Some(heads)) => heads,
            Ok(None) => return Ok(None),
            Err(stop) => return Err(stop),
        };
        let Ok(()) = list.push(heads) else {
            return Err(Stop::Memory);
        };
    }
    let view = HeadView {
        first,
        list: list.as_slice(),
    };
    match Directory::of_groups(alloc, &view) {
        Ok(frames) => Ok(Some(frames)),
        Err(stop) => Err(stop),
    }
}

/// Reads the newest version of a page: its newest frame, or its disk page where it has none.
pub fn read_version<S: Site>(
    site: &mut S,
    geometry: &Geometry,
    rings: &Rings,
    frames: &Directory,
    page: u32,
    into: &mut [u8; PAGE_LEN],
) -> Result<(), Stop>
    requires may_read { MayRead geometry.now rings.now (S.state site.old) }
    requires live { AreLive rings.now frames.now }
    requires exists { page < geometry.now.pages }

    ensures version { IsTrue (S.state site.old).honest → AreFound rings.now (S.state site.old)
        → AreGroups geometry.now (S.state site.old).image
        → ShowsFrames geometry.now (S.state site.old).image frames.now
        → OnOk result (into.new ≡ version_on geometry.now (S.state site.old).image page) }
    ensures looks { ReadsAtMost 0 1 (S.state site.old) (S.state site.new) }
    ensures reads { OnlyReads result (S.state site.old) (S.state site.new) }
{
    let Some(place) = frames.newest(page) else {
        return read_page(site, page, into);
    };
    let at = HEADS_LEN as u64 + PAGE_LEN as u64 * place.index as u64;
    rings.groups.read_part(site, place.group, at, into)
}
