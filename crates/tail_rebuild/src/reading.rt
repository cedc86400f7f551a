// The heads of a live group, and the slots of live segments, each by one read.
ghost use Rattle.std.specs.Prelude.{◌≡◌, ◌↔◌, ◌+◌, ◌-◌, ◌/◌, ◌<◌, ℕ, List, [], length, map, slice_index_or};
ghost use Rattle.std.specs.Prelude.{IsTrue, IfOk, IsErrOf};
ghost use Rattle.site.specs.declared.outside.Stop.{Stop};
ghost use Rattle.sealed_ring.specs.Ring.{IsLive};
ghost use Rattle.sealed_ring.specs.Row.{in_row};
ghost use Rattle.sealed_ring.specs.Ready.{IsUsable, Matches as RingFits};
ghost use Rattle.byte_fields.specs.declared.frame_head.FrameHead.{FrameHead};
ghost use Rattle.image_changes.specs.Rings.{group_shape as group_ring, segment_shape as segment_ring};
ghost use Rattle.frame_group.specs.Groups.{Frame, heads_of};
ghost use Rattle.meta_segments.specs.Following.{heads_with};
ghost use Rattle.tail_rebuild.specs.Standing.{HasGroups, HasSegments, PagesExist};
ghost use Rattle.tail_rebuild.specs.Listing.{AreHeadsIn, HoldSegments, ReadsFlash};

use byte_fields::FrameHead;
use frame_group::{GROUP_LEN, HEADS_LEN, group_heads};
use meta_segments::SEGMENT_LEN;
use sealed_ring::{Ring, Shape};
use site::{Dev, Geometry, Site, Stop};

// The octets of a slot of the ring of groups.
const GROUP_STRIDE: u64 = 33_280;

// The octets of a slot of the ring of segments.
pub const SEGMENT_STRIDE: usize = 1_024;

// Where the groups lie: at the front of the flash.
pub fn group_shape(geometry: &Geometry) -> Shape
    ensures { result ≡ group_ring geometry.now }
{
    Shape {
        dev: Dev::Flash,
        base: 0,
        slots: geometry.groups as u64,
        stride: GROUP_STRIDE,
        room: GROUP_LEN as u64,
    }
}

// Where the segments lie: behind the groups.
pub fn segment_shape(geometry: &Geometry) -> Shape
    ensures { result ≡ segment_ring geometry.now }
{
    Shape {
        dev: Dev::Flash,
        base: GROUP_STRIDE * geometry.groups as u64,
        slots: geometry.groups as u64 / 4 + 3,
        stride: SEGMENT_STRIDE as u64,
        room: SEGMENT_LEN as u64,
    }
}

// Whether each head that is present names a page below `pages`.
pub fn pages_exist(heads: &[FrameHead; 8], pages: u32) -> bool
    ensures { IsTrue result ↔ PagesExist pages heads.now }
{
    for head in heads {
        if head.present && head.page >= pages {
            return false;
        }
    }
    true
}

// The heads of a live group, as the group has them.
pub fn read_group<S: Site>(
    site: &mut S,
    geometry: &Geometry,
    ring: &Ring,
    group: u64,
) -> Result<[FrameHead; 8], Stop>
    requires usable { IsUsable ring.now (S.state site.old) }
    requires shape { ring.now.shape ≡ group_ring geometry.now }
    requires live { IsLive ring.now.shape ring.now.hi group }

    ensures are_heads { IfOk result (λ heads. AreHeadsIn geometry.now.pages heads) }
    ensures heads { IsTrue (S.state site.old).honest → RingFits ring.now (S.state site.old)
        → (first : ℕ) (groups : List (List Frame)) → HasGroups geometry.now first groups (S.state site.old).image
        → IfOk result (λ heads. heads ≡ slice_index_or (map heads_of groups) (group - first) []) }
    ensures reads { ReadsFlash result 1 (S.state site.old) (S.state site.new) }
    ensures no_memory { IsErrOf result Stop.Memory → ⊥ }
    ensures foreign { IsErrOf result Stop.Foreign → IsTrue (S.state site.old).honest
        → RingFits ring.now (S.state site.old)
        → (first : ℕ) (groups : List (List Frame)) → HasGroups geometry.now first groups (S.state site.old).image → ⊥ }
{
    let mut unit = [0u8; 8 + HEADS_LEN];
    ring.read_unit(site, group, &mut unit)?;
    let Ok(heads) = group_heads(&unit[8..]) else {
        return Err(Stop::Foreign);
    };
    if pages_exist(&heads, geometry.pages) {
        Ok(heads)
    } else {
        Err(Stop::Foreign)
    }
}

// Reads the slots of live segments by one read, whole slots one behind the other: of this segment and of those behind
// it that have room in `slots`. Answers how many.
pub fn read_segments<S: Site>(
    site: &mut S,
    geometry: &Geometry,
    ring: &Ring,
    segment: u64,
    slots: &mut [u8],
) -> Result<u64, Stop>
    requires usable { IsUsable ring.now (S.state site.old) }
    requires shape { ring.now.shape ≡ segment_ring geometry.now }
    requires live { IsLive ring.now.shape ring.now.hi segment }

    ensures count { IfOk result (λ count.
        count ≡ in_row ring.now.shape ring.now.hi segment (length slots.old / SEGMENT_STRIDE)) }
    ensures hold { IsTrue (S.state site.old).honest → RingFits ring.now (S.state site.old)
        → (segments : List (List FrameHead)) → HasSegments geometry.now segments (S.state site.old).image
        → IfOk result (λ count. HoldSegments slots.new count (λ i. heads_with ring.now.hi segments (segment + i))) }
    ensures reads { ReadsFlash result (in_row ring.now.shape ring.now.hi segment (length slots.old / SEGMENT_STRIDE))
        (S.state site.old) (S.state site.new) }
    ensures no_memory { IsErrOf result Stop.Memory → ⊥ }
    ensures foreign { IsErrOf result Stop.Foreign → IsTrue (S.state site.old).honest
        → RingFits ring.now (S.state site.old)
        → (segments : List (List FrameHead)) → HasSegments geometry.now segments (S.state site.old).image → ⊥ }
{
    ring.read_units(site, segment, slots)
}
