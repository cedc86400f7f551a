// The heads of the live groups, one group after the other.
ghost use Rattle.std.specs.Prelude.{◌≡◌, ◌+◌, ◌-◌, ◌*◌, ◌/◌, ◌^◌, ◌<◌, ◌≤◌, max, ℕ, List, [], length, map, IsTrue};
ghost use Rattle.std.specs.Prelude.{IfOk, OnOk, IfErr, IsErrOf, ◌⊎◌};
ghost use Rattle.std.specs.List.{All};
ghost use Rattle.site.specs.declared.outside.Stop.{Stop};
ghost use Rattle.site.specs.Geometry.{HasLimits};
ghost use Rattle.sealed_ring.specs.Ready.{IsUsable, Matches as RingFits};
ghost use Rattle.image_changes.specs.Rings.{group_shape as group_ring};
ghost use Rattle.byte_fields.specs.declared.frame_head.FrameHead.{FrameHead};
ghost use Rattle.frame_group.specs.Groups.{Frame, heads_of};
ghost use Rattle.meta_segments.specs.Segments.{heads_of_group, AreSegmentHeads};
ghost use Rattle.tail_rebuild.specs.Standing.{HasGroups, HasSaved, PagesExist};
ghost use Rattle.tail_rebuild.specs.Listing.{AreHeadsIn, IsFront, GoesOnWith, HoldSegments, RowGoesOn};
ghost use Rattle.tail_rebuild.specs.Listing.{ReadsFlash};
ghost use Rattle.tail_rebuild.specs.Rebuilt.{AreRings};

use crate::reading::{SEGMENT_STRIDE, pages_exist, read_group, read_segments};
use byte_fields::FrameHead;
use meta_segments::{SEGMENT_LEN, segment_heads};
use sealed_ring::{CONTENT_AT, Ring};
use site::{Geometry, Site, Stop};

// The octets of the slots of sixteen segments, which are read at once.
const ROW_LEN: usize = 16_384;

// The eight heads of one of a segment's four groups.
fn heads_of(heads: &[FrameHead; 32], group: usize) -> &[FrameHead; 8]
    requires { group < 4 }
    ensures { result.now ≡ heads_of_group heads.now group }
{
    let Some(eight) = heads[8 * group..].first_chunk::<8>() else {
        unreachable!();
    };
    eight
}

// Lists the heads of a segment's groups, from this one of the four on.
fn list_saved(
    list: &mut Vec<[FrameHead; 8]>,
    heads: &[FrameHead; 32],
    skip: usize,
    pages: u32,
) -> Result<(), Stop>
    requires skip { skip ≤ 4 }
    requires segment { AreSegmentHeads heads.now }
    requires listed { All (AreHeadsIn pages) list.old.items }

    ensures listed { OnOk result (All (AreHeadsIn pages) list.new.items) }
    ensures more { OnOk result (length list.new.items ≡ length list.old.items + (4 - skip)) }
    ensures front { (all : List (List FrameHead)) → IsFront all list.old.items
        → GoesOnWith heads.now skip all (length list.old.items) → OnOk result (IsFront all list.new.items) }
    ensures foreign { IsErrOf result Stop.Foreign
        → ((group : ℕ) → skip ≤ group → group < 4 → PagesExist pages (heads_of_group heads.now group)) → ⊥ }
    ensures stops { IfErr result (λ stop. (stop ≡ Stop.Memory) ⊎ (stop ≡ Stop.Foreign)) }
{
    for group in skip..4 {
        let eight = heads_of(heads, group);
        if !pages_exist(eight, pages) {
            return Err(Stop::Foreign);
        }
        let Ok(()) = list.push(*eight) else {
            return Err(Stop::Memory);
        };
    }
    Ok(())
}

// Lists the heads of the live groups of so many segments, from this one on, as their slots were read.
fn list_row(
    list: &mut Vec<[FrameHead; 8]>,
    slots: &[u8],
    segment: u64,
    count: u64,
    first: u64,
    pages: u32,
) -> Result<(), Stop>
    requires size { count * SEGMENT_STRIDE ≤ length slots.now }
    requires least { first / 4 ≤ segment }
    requires bounded { segment + count ≤ 2 ^ 40 }
    requires listed { All (AreHeadsIn pages) list.old.items }
    requires begun { first + length list.old.items ≡ max first (4 * segment) }

    ensures listed { OnOk result (All (AreHeadsIn pages) list.new.items) }
    ensures more { OnOk result (first + length list.new.items ≡ max first (4 * (segment + count))) }
    ensures front { (all : List (List FrameHead)) (each : ℕ → List FrameHead) → HoldSegments slots.now count each
        → RowGoesOn each count first segment all → IsFront all list.old.items
        → OnOk result (IsFront all list.new.items) }
    ensures foreign { IsErrOf result Stop.Foreign
        → (each : ℕ → List FrameHead) → HoldSegments slots.now count each
        → ((i : ℕ) → i < count → (group : ℕ) → first - 4 * (segment + i) ≤ group → group < 4
        → PagesExist pages (heads_of_group (each i) group)) → ⊥ }
    ensures stops { IfErr result (λ stop. (stop ≡ Stop.Memory) ⊎ (stop ≡ Stop.Foreign)) }
{
    for place in 0..count {
        let at = place as usize * SEGMENT_STRIDE + CONTENT_AT;
        let Ok(heads) = segment_heads(&slots[at..at + SEGMENT_LEN]) else {
            return Err(Stop::Foreign);
        };
        let skip = first.saturating_sub(4 * (segment + place)) as usize;
        if let Err(stop) = list_saved(list, &heads, skip, pages) {
            return Err(stop);
        }
    }
    Ok(())
}

// Lists the heads of those live groups that are in segments, by one read for each sixteen segments.
pub fn list_segments<S: Site>(
    site: &mut S,
    geometry: &Geometry,
    groups: &Ring,
    segments: &Ring,
    list: &mut Vec<[FrameHead; 8]>,
) -> Result<(), Stop>
    requires limits { HasLimits geometry.now }
    requires rings { AreRings geometry.now groups.now segments.now (S.state site.old) }
    requires none { list.old.items ≡ [] }

    ensures listed { OnOk result (All (AreHeadsIn geometry.now.pages) list.new.items) }
    ensures count { OnOk result ((groups.now.hi - (geometry.now.groups - 1)) + length list.new.items
        ≡ 4 * segments.now.hi) }
    ensures front { IsTrue (S.state site.old).honest → RingFits segments.now (S.state site.old)
        → RingFits groups.now (S.state site.old)
        → (first : ℕ) (stand : List (List Frame)) (saved : List (List FrameHead))
        → HasGroups geometry.now first stand (S.state site.old).image
        → HasSaved geometry.now stand saved (S.state site.old).image
        → OnOk result (IsFront (map heads_of stand) list.new.items) }
    ensures reads { ReadsFlash result (geometry.now.groups / 4) (S.state site.old) (S.state site.new) }
    ensures foreign { IsErrOf result Stop.Foreign → IsTrue (S.state site.old).honest
        → RingFits segments.now (S.state site.old) → RingFits groups.now (S.state site.old)
        → (first : ℕ) (stand : List (List Frame)) (saved : List (List FrameHead))
        → HasGroups geometry.now first stand (S.state site.old).image
        → HasSaved geometry.now stand saved (S.state site.old).image → ⊥ }
{
    let first = groups.oldest();
    let mut slots = [0u8; ROW_LEN];
    let mut segment = first / 4;
    while segment < segments.hi() {
        let count = match read_segments(site, geometry, segments, segment, &mut slots) {
            Ok(count) => count,
            Err(stop) => return Err(stop),
        };
        if let Err(stop) = list_row(list, &slots, segment, count, first, geometry.pages) {
            return Err(stop);
        }
        segment += count;
    }
    Ok(())
}

// Lists the heads of the live groups that aren't listed yet, by one read for each.
pub fn list_tail<S: Site>(
    site: &mut S,
    geometry: &Geometry,
    groups: &Ring,
    list: &mut Vec<[FrameHead; 8]>,
) -> Result<(), Stop>
    requires usable { IsUsable groups.now (S.state site.old) }
    requires shape { groups.now.shape ≡ group_ring geometry.now }
    requires listed { All (AreHeadsIn geometry.now.pages) list.old.items }
    requires begun { (groups.now.hi - (geometry.now.groups - 1)) + length list.old.items ≤ groups.now.hi }

    ensures listed { OnOk result (All (AreHeadsIn geometry.now.pages) list.new.items) }
    ensures count { OnOk result ((groups.now.hi - (geometry.now.groups - 1)) + length list.new.items ≡ groups.now.hi) }
    ensures front { IsTrue (S.state site.old).honest → RingFits groups.now (S.state site.old)
        → (first : ℕ) (stand : List (List Frame)) → HasGroups geometry.now first stand (S.state site.old).image
        → IsFront (map heads_of stand) list.old.items → OnOk result (IsFront (map heads_of stand) list.new.items) }
    ensures reads { ReadsFlash result
        (groups.now.hi - ((groups.now.hi - (geometry.now.groups - 1)) + length list.old.items))
        (S.state site.old) (S.state site.new) }
    ensures foreign { IsErrOf result Stop.Foreign → IsTrue (S.state site.old).honest
        → RingFits groups.now (S.state site.old)
        → (first : ℕ) (stand : List (List Frame)) → HasGroups geometry.now first stand (S.state site.old).image → ⊥ }
{
    for group in groups.oldest() + list.len() as u64..groups.hi() {
        let heads = match read_group(site, geometry, groups, group) {
            Ok(heads) => heads,
            Err(stop) => return Err(stop),
        };
        let Ok(()) = list.push(heads) else {
            return Err(Stop::Memory);
        };
    }
    Ok(())
}
