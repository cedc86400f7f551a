// The frames that aren't dirty.
ghost use Rattle.std.specs.Prelude.{◌≡◌, ◌↔◌, ◌+◌, ◌*◌, ◌<◌, ℕ, List, Some, drop, take, get_or, is_none, IsTrue, IfOk};
ghost use Rattle.site.specs.declared.geometry.Geometry.{Geometry};
ghost use Rattle.site.specs.Work.{OnlyReads};
ghost use Rattle.sealed_ring.specs.Ring.{IsLive};
ghost use Rattle.disk_pages.specs.Pages.{LiesOn};
ghost use Rattle.frame_group.specs.Groups.{Frame, heads_of};
ghost use Rattle.tail_rebuild.specs.Standing.{group_on};
ghost use Rattle.flash_directory.specs.Heads.{newest};
ghost use Rattle.flash_cache.specs.Representation.{disk_on};
ghost use Rattle.image_form.specs.Counted.{ReadsAtMost};
ghost use Rattle.image_form.specs.Octets.{IsGroupOn, AreGroups};
ghost use Rattle.image_form.specs.Framing.{IsCleanFrame};
ghost use Rattle.image_form.specs.Findings.{MayRead, AreFound};
ghost use Rattle.image_form.specs.Newest.{ShowsFrames};
ghost use Rattle.image_form.specs.Verdict.{FramesAreClean};

use crate::groups::are_same;
use crate::newest::{find_frames, heads_at};
use crate::place::Place;
use crate::rings::Rings;
use byte_fields::FrameHead;
use disk_pages::read_page;
use flash_directory::{Directory, Place as FramePlace};
use frame_group::{HEADS_LEN, PAGE_LEN};
use site::{Geometry, Site, Stop};
use std::alloc::Global;

// Whether the newest frame of a page stands here.
fn is_newest(frames: &Directory, page: u32, here: FramePlace) -> bool
    ensures { IsTrue result ↔ (newest frames.now page ≡ Some here) }
{
    match frames.newest(page) {
        Some(place) => place == here,
        None => false,
    }
}

// Whether a page of a live group, by its place there, is that of the disk: two reads.
fn is_as_on_disk<S: Site>(
    site: &mut S,
    rings: &Rings,
    group: u64,
    index: usize,
    page: u32,
) -> Result<bool, Stop>
    requires may_read { (g : Geometry) × MayRead g rings.now (S.state site.old) }
    requires live { IsLive rings.now.groups.shape rings.now.groups.hi group }
    requires index { index < 8 }
    requires page { LiesOn page (S.state site.old).image.disk }

    ensures same { (g : Geometry) → MayRead g rings.now (S.state site.old) → IsTrue (S.state site.old).honest
        → AreFound rings.now (S.state site.old)
        → IfOk result (λ same. IsTrue same ↔ (take PAGE_LEN (drop (HEADS_LEN + PAGE_LEN * index)
        (group_on g (S.state site.old).image group)) ≡ disk_on (S.state site.old).image page)) }
    ensures looks { ReadsAtMost 0 2 (S.state site.old) (S.state site.new) }
    ensures reads { OnlyReads result (S.state site.old) (S.state site.new) }
{
    let at = HEADS_LEN as u64 + PAGE_LEN as u64 * index as u64;
    let mut octets = [0u8; PAGE_LEN];
    if let Err(stop) = rings.groups.read_part(site, group, at, &mut octets) {
        return Err(stop);
    }
    let mut on_disk = [0u8; PAGE_LEN];
    if let Err(stop) = read_page(site, page, &mut on_disk) {
        return Err(stop);
    }
    Ok(are_same(&octets, &on_disk))
}

// Whether the frame of a place of a live group is dirty, isn't the newest one of its page, or equals its disk page:
// reads it and its disk page where that decides.
fn is_clean_frame<S: Site>(
    site: &mut S,
    geometry: &Geometry,
    rings: &Rings,
    frames: &Directory,
    group: u64,
    heads: &[FrameHead; 8],
    index: usize,
) -> Result<bool, Stop>
    requires may_read { MayRead geometry.now rings.now (S.state site.old) }
    requires live { IsLive rings.now.groups.shape rings.now.groups.hi group }
    requires index { index < 8 }

    ensures clean { (members : List Frame) → IsTrue (S.state site.old).honest → AreFound rings.now (S.state site.old)
        → IsGroupOn geometry.now (group_on geometry.now (S.state site.old).image group) members
        → heads.now ≡ heads_of members
        → IfOk result (λ clean. IsTrue clean
        ↔ IsCleanFrame (S.state site.old).image frames.now group members index) }
    ensures looks { ReadsAtMost 0 2 (S.state site.old) (S.state site.new) }
    ensures reads { OnlyReads result (S.state site.old) (S.state site.new) }
{
    let head = heads[index];
    if !head.present {
        return Ok(true);
    }
    if head.dirty {
        return Ok(true);
    }
    if head.page >= geometry.pages {
        return Ok(false);
    }
    let here = FramePlace {
        group,
        index: index as u8,
    };
    if !is_newest(frames, head.page, here) {
        return Ok(true);
    }
    match is_as_on_disk(site, rings, group, index, head.page) {
        Ok(same) => Ok(same),
        Err(stop) => Err(stop),
    }
}

// Whether that holds of each frame of a live group.
fn is_clean_group<S: Site>(
    site: &mut S,
    geometry: &Geometry,
    rings: &Rings,
    frames: &Directory,
    group: u64,
) -> Result<bool, Stop>
    requires may_read { MayRead geometry.now rings.now (S.state site.old) }
    requires live { IsLive rings.now.groups.shape rings.now.groups.hi group }

    ensures clean { (members : List Frame) → IsTrue (S.state site.old).honest → AreFound rings.now (S.state site.old)
        → IsGroupOn geometry.now (group_on geometry.now (S.state site.old).image group) members
        → IfOk result (λ clean. IsTrue clean
        ↔ ((i : ℕ) → IsCleanFrame (S.state site.old).image frames.now group members i)) }
    ensures looks { ReadsAtMost 0 17 (S.state site.old) (S.state site.new) }
    ensures reads { OnlyReads result (S.state site.old) (S.state site.new) }
{
    let heads = match heads_at(site, rings, group) {
        Ok(Some(heads)) => heads,
        Ok(None) => return Ok(false),
        Err(stop) => return Err(stop),
    };
    for index in 0..8 {
        let clean = match is_clean_frame(site, geometry, rings, frames, group, &heads, index) {
            Ok(clean) => clean,
            Err(stop) => return Err(stop),
        };
        if !clean {
            return Ok(false);
        }
    }
    Ok(true)
}

// The first live group of which that isn't so, `None` exactly where there is none.
fn find_unclean<S: Site>(
    site: &mut S,
    geometry: &Geometry,
    rings: &Rings,
    frames: &Directory,
) -> Result<Option<Place>, Stop>
    requires { MayRead geometry.now rings.now (S.state site.old) }

    ensures clean { IsTrue (S.state site.old).honest → AreFound rings.now (S.state site.old)
        → AreGroups geometry.now (S.state site.old).image
        → ShowsFrames geometry.now (S.state site.old).image frames.now
        → IfOk result (λ failing. IsTrue (is_none failing) ↔ FramesAreClean geometry.now (S.state site.old).image) }
    ensures looks { ReadsAtMost 0 (17 * geometry.now.groups) (S.state site.old) (S.state site.new) }
    ensures reads { OnlyReads result (S.state site.old) (S.state site.new) }
{
    for group in rings.groups.oldest()..rings.groups.hi() {
        let clean = match is_clean_group(site, geometry, rings, frames, group) {
            Ok(clean) => clean,
            Err(stop) => return Err(stop),
        };
        if !clean {
            return Ok(Some(Place::Group(group)));
        }
    }
    Ok(None)
}

/// The seventh rule, of devices whose live groups are of the form: the first group with a valid frame that isn't dirty
/// and doesn't equal its disk page, `None` exactly where there is none. It reads the heads of the live groups twice,
/// each such frame and its disk page once, and holds where the newest frames stand.
pub fn rule_clean<S: Site>(
    alloc: Global,
    site: &mut S,
    geometry: &Geometry,
    rings: &Rings,
) -> Result<Option<Place>, Stop>
    requires { MayRead geometry.now rings.now (S.state site.old) }

    ensures clean { IsTrue (S.state site.old).honest → AreFound rings.now (S.state site.old)
        → AreGroups geometry.now (S.state site.old).image
        → IfOk result (λ failing. IsTrue (is_none failing) ↔ FramesAreClean geometry.now (S.state site.old).image) }
    ensures looks { ReadsAtMost 0 (18 * geometry.now.groups) (S.state site.old) (S.state site.new) }
    ensures reads { OnlyReads result (S.state site.old) (S.state site.new) }
{
    let frames = match find_frames(alloc, site, geometry, rings) {
        Ok(Some(frames)) => frames,
        Ok(None) => return Ok(Some(Place::Groups)),
        Err(stop) => return Err(stop),
    };
    match find_unclean(site, geometry, rings, &frames) {
        Ok(failing) => Ok(failing),
        Err(stop) => Err(stop),
    }
}
