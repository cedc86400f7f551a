// The queue on flash, found at a start.
ghost use Rattle.std.specs.Prelude.{◌≡◌, ◌+◌, ◌*◌, ◌/◌, ℕ, List, IsTrue, IfOk, IsErrOf};
ghost use Rattle.site.specs.declared.outside.Stop.{Stop};
ghost use Rattle.site.specs.Geometry.{HasLimits, HasLengths};
ghost use Rattle.sealed_ring.specs.Ready.{Matches as RingFits};
ghost use Rattle.byte_fields.specs.declared.frame_head.FrameHead.{FrameHead};
ghost use Rattle.frame_group.specs.Groups.{Frame};
ghost use Rattle.tail_rebuild.specs.Standing.{HasGroups, HasSaved};
ghost use Rattle.tail_rebuild.specs.Listing.{ReadsFlash};
ghost use Rattle.tail_rebuild.specs.Rebuilt.{MayStart, Finds};

use crate::heads::{HeadList, Heads};
use crate::listing::{list_segments, list_tail};
use crate::reading::{group_shape, segment_shape};
use sealed_ring::Ring;
use site::{Geometry, Site, Stop};
use std::alloc::Global;

// The number at which the ring of groups ends.
const HI_MAX: u64 = 1 << 40;

/// Finds the two rings on flash and the heads of all live groups: it scans the segments, takes the groups from four
/// times the number of the next segment, and reads each segment that has a live group, and the heads of the at most
/// four groups that aren't in segments. It reads about half as often as there are slots for groups.
///
/// `Foreign` comes only where flash isn't of the form, or its segments don't follow the groups; `Memory` where the
/// heads of the live groups find none.
pub fn rebuild<S: Site>(alloc: Global, site: &mut S, geometry: &Geometry) -> Result<Heads, Stop>
    requires limits { HasLimits geometry.now }
    requires lengths { HasLengths geometry.now (S.state site.old).image }

    ensures start { IfOk result (λ heads. MayStart geometry.now heads (S.state site.new)) }
    ensures finds { IsTrue (S.state site.old).honest
        → (first : ℕ) (groups : List (List Frame)) (segments : List (List FrameHead))
        → HasGroups geometry.now first groups (S.state site.old).image
        → HasSaved geometry.now groups segments (S.state site.old).image
        → IfOk result (λ heads. Finds heads groups (S.state site.new)) }
    ensures segments { IsTrue (S.state site.old).honest
        → IfOk result (λ heads. RingFits heads.segments (S.state site.new)) }
    ensures reads { ReadsFlash result (2 * (geometry.now.groups / 4 + 3) + 12) (S.state site.old) (S.state site.new) }
    ensures foreign { IsErrOf result Stop.Foreign → IsTrue (S.state site.old).honest
        → (first : ℕ) (groups : List (List Frame)) (segments : List (List FrameHead))
        → HasGroups geometry.now first groups (S.state site.old).image
        → HasSaved geometry.now groups segments (S.state site.old).image → ⊥ }
{
    let segments = match Ring::scan(site, segment_shape(geometry)) {
        Ok(segments) => segments,
        Err(stop) => return Err(stop),
    };
    if segments.hi() > HI_MAX / 4 {
        return Err(Stop::Foreign);
    }
    let groups = match Ring::scan_near(site, group_shape(geometry), 4 * segments.hi()) {
        Ok(groups) => groups,
        Err(stop) => return Err(stop),
    };
    let mut list = Vec::new(alloc);
    if let Err(stop) = list_segments(site, geometry, &groups, &segments, &mut list) {
        return Err(stop);
    }
    if let Err(stop) = list_tail(site, geometry, &groups, &mut list) {
        return Err(stop);
    }
    Ok(Heads {
        groups,
        segments,
        list: HeadList::of_groups(list),
    })
}
