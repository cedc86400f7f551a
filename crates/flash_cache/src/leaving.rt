// What leaves the queue with its front group and goes to the disk.
ghost use Rattle.std.specs.Prelude.{◌≡◌, ◌⊎◌, ◌+◌, ◌<◌, ◌≤◌, length, map, IsTrue, IfOk, IfErr};
ghost use Rattle.std.specs.List.{All};
ghost use Rattle.site.specs.declared.outside.Dev.{Dev};
ghost use Rattle.site.specs.declared.outside.Stop.{Stop};
ghost use Rattle.sealed_ring.specs.Ring.{IsLive, unit_at};
ghost use Rattle.sealed_ring.specs.Reading.{ReadsFrom};
ghost use Rattle.sealed_ring.specs.Ready.{units_in, Matches as RingFits};
ghost use Rattle.flash_cache.specs.Leaving.{mark_at, page_at, AreAt, IsGroupRing};

use byte_fields::Mark;
use frame_group::{HEADS_LEN, PAGE_LEN};
use sealed_ring::Ring;
use second_chance::{Places, Plan};
use site::{Dev, Site, Stop};
use slotted_page::Page;
use std::alloc::{AllocError, Global};

/// Frames of the front group.
#[derive(Drop)]
pub struct DepartingFrames {
    /// The page of each.
    pub pages: Vec<u32>,
    /// Whether each is dirty.
    pub dirty: Vec<bool>,
    /// What each has.
    pub contents: Vec<Page>,
}

/// The frames of the front group that a plan stages, and those that it gives a second chance, each by one read of one
/// page. The group has this number, and these marks where it leaves with the push.
pub fn frames_leaving<S: Site>(
    alloc: Global,
    site: &mut S,
    ring: &Ring,
    group: u64,
    front: &[Mark],
    plan: &Plan,
) -> Result<(DepartingFrames, DepartingFrames), Stop>
    requires ring { IsGroupRing ring.now (S.state site.old) }
    requires live { 0 < length front.now → IsLive ring.now.shape ring.now.hi group }
    requires few { length front.now ≤ 8 }
    requires staged { All (λ place. place < length front.now) plan.now.staged }
    requires chances { All (λ place. place < length front.now) plan.now.chances }

    ensures staged { IfOk result (λ both. AreAt front.now plan.now.staged both.0) }
    ensures chances { IfOk result (λ both. AreAt front.now plan.now.chances both.1) }
    ensures staged_contents { IsTrue (S.state site.old).honest → RingFits ring.now (S.state site.old)
        → IfOk result (λ both. both.0.contents.items ≡ map (page_at (unit_at ring.now.shape
        (units_in ring.now.shape (S.state site.old)) group)) plan.now.staged) }
    ensures chances_contents { IsTrue (S.state site.old).honest → RingFits ring.now (S.state site.old)
        → IfOk result (λ both. both.1.contents.items ≡ map (page_at (unit_at ring.now.shape
        (units_in ring.now.shape (S.state site.old)) group)) plan.now.chances) }
    ensures reads { ReadsFrom result Dev.Flash (length plan.now.staged + length plan.now.chances)
        (S.state site.old) (S.state site.new) }
    ensures stops { IfErr result (λ stop. (stop ≡ Stop.Device Dev.Flash) ⊎ (stop ≡ Stop.Memory)) }
{
    let staged = match frames_at(alloc, site, ring, group, front, &plan.staged) {
        Ok(frames) => frames,
        Err(stop) => return Err(stop),
    };
    match frames_at(alloc, site, ring, group, front, &plan.chances) {
        Ok(chances) => Ok((staged, chances)),
        Err(stop) => Err(stop),
    }
}

// The frames of the front group at these places, each by one read of one page.
fn frames_at<S: Site>(
    alloc: Global,
    site: &mut S,
    ring: &Ring,
    group: u64,
    front: &[Mark],
    places: &Places,
) -> Result<DepartingFrames, Stop>
    requires ring { IsGroupRing ring.now (S.state site.old) }
    requires live { 0 < length front.now → IsLive ring.now.shape ring.now.hi group }
    requires few { length front.now ≤ 8 }
    requires places { All (λ place. place < length front.now) places.now }

    ensures are { IfOk result (λ frames. AreAt front.now places.now frames) }
    ensures contents { IsTrue (S.state site.old).honest → RingFits ring.now (S.state site.old)
        → IfOk result (λ frames. frames.contents.items ≡ map (page_at (unit_at ring.now.shape
        (units_in ring.now.shape (S.state site.old)) group)) places.now) }
    ensures reads { ReadsFrom result Dev.Flash (length places.now) (S.state site.old) (S.state site.new) }
    ensures stops { IfErr result (λ stop. (stop ≡ Stop.Device Dev.Flash) ⊎ (stop ≡ Stop.Memory)) }
{
    let (pages, dirty) = pages_at(alloc, front, places)?;
    match contents_at(alloc, site, ring, group, places) {
        Ok(contents) => Ok(DepartingFrames {
            pages,
            dirty,
            contents,
        }),
        Err(stop) => Err(stop),
    }
}

// The pages of the frames at these places, and whether each frame is dirty.
fn pages_at(
    alloc: Global,
    front: &[Mark],
    places: &Places,
) -> Result<(Vec<u32>, Vec<bool>), AllocError>
    requires { All (λ place. place < length front.now) places.now }

    ensures pages { IfOk result (λ both. both.0.items ≡ map (λ place. (mark_at front.now place).page) places.now) }
    ensures dirty { IfOk result (λ both. both.1.items ≡ map (λ place. (mark_at front.now place).dirty) places.now) }
{
    let mut pages = Vec::new(alloc);
    let mut dirty = Vec::new(alloc);
    for index in 0..places.len() {
        let mark = &front[places.at(index) as usize];
        pages.push(mark.page)?;
        dirty.push(mark.dirty)?;
    }
    Ok((pages, dirty))
}

// What the frames of a live group have at these places, each by one read of one page.
fn contents_at<S: Site>(
    alloc: Global,
    site: &mut S,
    ring: &Ring,
    group: u64,
    places: &Places,
) -> Result<Vec<Page>, Stop>
    requires ring { IsGroupRing ring.now (S.state site.old) }
    requires live { 0 < length places.now → IsLive ring.now.shape ring.now.hi group }
    requires places { All (λ place. place < 8) places.now }

    ensures contents { IsTrue (S.state site.old).honest → RingFits ring.now (S.state site.old)
        → IfOk result (λ list. list.items ≡ map (page_at
        (unit_at ring.now.shape (units_in ring.now.shape (S.state site.old)) group)) places.now) }
    ensures count { IfOk result (λ list. length list.items ≡ length places.now) }
    ensures reads { ReadsFrom result Dev.Flash (length places.now) (S.state site.old) (S.state site.new) }
    ensures stops { IfErr result (λ stop. (stop ≡ Stop.Device Dev.Flash) ⊎ (stop ≡ Stop.Memory)) }
{
    let mut contents = Vec::new(alloc);
    for index in 0..places.len() {
        let page = match read_frame(site, ring, group, places.at(index)) {
            Ok(page) => page,
            Err(stop) => return Err(stop),
        };
        contents.push(page)?;
    }
    Ok(contents)
}

// The page of a live group's frame, by one read of one page.
fn read_frame<S: Site>(site: &mut S, ring: &Ring, group: u64, place: u32) -> Result<Page, Stop>
    requires ring { IsGroupRing ring.now (S.state site.old) }
    requires live { IsLive ring.now.shape ring.now.hi group }
    requires place { place < 8 }

    ensures page { IsTrue (S.state site.old).honest → RingFits ring.now (S.state site.old)
        → IfOk result (λ page. page ≡ page_at
        (unit_at ring.now.shape (units_in ring.now.shape (S.state site.old)) group) place) }
    ensures reads { ReadsFrom result Dev.Flash 1 (S.state site.old) (S.state site.new) }
    ensures stops { IfErr result (λ stop. stop ≡ Stop.Device Dev.Flash) }
{
    let mut octets = [0u8; PAGE_LEN];
    let at = HEADS_LEN as u64 + PAGE_LEN as u64 * place as u64;
    ring.read_part(site, group, at, &mut octets)?;
    Ok(Page::from_bytes(&octets))
}
