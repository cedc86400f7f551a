// A segment is saved where one is due.
ghost use Rattle.std.specs.Prelude.{◌≡◌, ◌≢◌, ◌⊎◌, ◌+◌, ◌*◌, ◌<◌, ◌≤◌, ◌++◌, ℕ, List, take, drop, false, IsTrue, IfOk};
ghost use Rattle.std.specs.Prelude.{OnOk, OnErr, IfErr, IsErrOf, length, if◌then◌else◌};
ghost use Rattle.site.specs.declared.outside.Dev.{Dev};
ghost use Rattle.site.specs.declared.outside.Stop.{Stop};
ghost use Rattle.site.specs.Geometry.{HasLimits, HasLengths};
ghost use Rattle.site.specs.State.{reads_of, IsQuiet};
ghost use Rattle.site.specs.Calls.{Preserves, FaultRose};
ghost use Rattle.site.specs.Faults.{WorkFaults};
ghost use Rattle.site.specs.Moments.{ChangesOnly};
ghost use Rattle.sealed_ring.specs.Ready.{IsUsable, Matches as RingFits, Finds as RingFinds};
ghost use Rattle.byte_fields.specs.declared.frame_head.FrameHead.{FrameHead};
ghost use Rattle.image_changes.specs.Rings.{group_shape as group_ring};
ghost use Rattle.frame_group.specs.Groups.{Frame};
ghost use Rattle.meta_segments.specs.Segments.{AreSegmentHeads};
ghost use Rattle.tail_rebuild.specs.Standing.{HasGroups};
ghost use Rattle.tail_rebuild.specs.Listing.{ReadsFlash};
ghost use Rattle.tail_rebuild.specs.Rebuilt.{AreRings};
ghost use Rattle.tail_rebuild.specs.Saving.{is_due, segment_of, Stands, Saves};

use crate::reading::read_group;
use byte_fields::FrameHead;
use meta_segments::{SEGMENT_LEN, write_segment};
use sealed_ring::Ring;
use site::{Geometry, Site, Stop};

// Puts the eight heads of a group at its place among those of a segment.
fn put_heads(heads: &mut [FrameHead; 32], group: usize, eight: &[FrameHead; 8])
    requires { group < 4 }
    ensures { heads.new ≡ take (8 * group) heads.old ++ (eight.now ++ drop (8 * group + 8) heads.old) }
{
    heads[8 * group..8 * group + 8].copy_from_slice(eight);
}

// The heads of the last four groups, by one read for each.
fn read_last_four<S: Site>(
    site: &mut S,
    geometry: &Geometry,
    groups: &Ring,
) -> Result<[FrameHead; 32], Stop>
    requires limits { HasLimits geometry.now }
    requires usable { IsUsable groups.now (S.state site.old) }
    requires shape { groups.now.shape ≡ group_ring geometry.now }
    requires four { 4 ≤ groups.now.hi }

    ensures are_heads { IfOk result (λ heads. AreSegmentHeads heads) }
    ensures heads { IsTrue (S.state site.old).honest → RingFits groups.now (S.state site.old)
        → (first : ℕ) (stand : List (List Frame)) → HasGroups geometry.now first stand (S.state site.old).image
        → IfOk result (λ heads. heads ≡ segment_of stand) }
    ensures reads { ReadsFlash result 4 (S.state site.old) (S.state site.new) }
    ensures no_memory { IsErrOf result Stop.Memory → ⊥ }
    ensures foreign { IsErrOf result Stop.Foreign → IsTrue (S.state site.old).honest
        → RingFits groups.now (S.state site.old)
        → (first : ℕ) (stand : List (List Frame)) → HasGroups geometry.now first stand (S.state site.old).image → ⊥ }
{
    let mut heads = [FrameHead::BLANK; 32];
    let from = groups.hi() - 4;
    for place in 0..4 {
        let eight = match read_group(site, geometry, groups, from + place as u64) {
            Ok(eight) => eight,
            Err(stop) => return Err(stop),
        };
        put_heads(&mut heads, place, &eight);
    }
    Ok(heads)
}

/// Saves a segment where one is due: where four groups aren't in segments, the heads of these are read and appended to
/// the ring of segments. To be called before a group is pushed. It never needs memory, and the ring of segments never
/// ends before that of the groups.
pub fn save_due<S: Site>(
    site: &mut S,
    geometry: &Geometry,
    groups: &Ring,
    segments: &mut Ring,
) -> Result<(), Stop>
    requires limits { HasLimits geometry.now }
    requires lengths { HasLengths geometry.now (S.state site.old).image }
    requires rings { AreRings geometry.now groups.now segments.old (S.state site.old) }

    ensures saves { (first : ℕ) (stand : List (List Frame)) (saved : List (List FrameHead))
        → Stands geometry.now groups.now segments.old first stand saved (S.state site.old)
        → Saves geometry.now groups.now segments.old segments.new first stand saved
        (S.state site.old) (S.state site.new) result }
    ensures fits { IsTrue (S.state site.old).honest
        → RingFinds groups.now (S.state site.old) → RingFinds segments.old (S.state site.old)
        → OnOk result (RingFinds groups.now (S.state site.new) × RingFinds segments.new (S.state site.new)) }
    ensures segments { IsTrue (S.state site.old).honest → RingFits segments.old (S.state site.old)
        → OnOk result (RingFits segments.new (S.state site.new)) }
    ensures changes { IsTrue (S.state site.old).honest
        → ChangesOnly Dev.Flash (S.state site.old) (S.state site.new) }
    ensures quiet { IsTrue (S.state site.old).honest → IsQuiet (S.state site.old)
        → OnOk result (IsQuiet (S.state site.new)) }
    ensures device_calls { IsTrue (S.state site.old).honest
        → OnOk result (length (S.state site.new).past ≡ length (S.state site.old).past
        + (if is_due groups.now.hi segments.old.hi then 5 else 0)) }
    ensures quiet_err { IsTrue (S.state site.old).honest → IsQuiet (S.state site.old)
        → IfErr result (λ stop. ((d : Dev) → stop ≢ Stop.Device d) → IsQuiet (S.state site.new)) }

    // Of every site.
    ensures rings { AreRings geometry.now groups.now segments.new (S.state site.new) }
    ensures none_due { OnOk result (is_due groups.now.hi segments.new.hi ≡ false) }
    ensures ok { OnOk result (segments.new.ended ≡ segments.old.ended) }
    ensures err { OnErr result (segments.new.hi ≡ segments.old.hi) }
    ensures preserves { Preserves (S.state site.old) (S.state site.new) }
    ensures faults { WorkFaults result (S.state site.old) (S.state site.new) }
    ensures reads { (S.state site.new).flash_reads ≤ (S.state site.old).flash_reads
        + (if is_due groups.now.hi segments.old.hi then 4 else 0) }
    ensures others { (d : Dev) → d ≢ Dev.Flash
        → reads_of d (S.state site.new) ≡ reads_of d (S.state site.old) }

    // When each answer comes.
    ensures device { IsErrOf result (Stop.Device Dev.Flash)
        → FaultRose Dev.Flash (S.state site.old) (S.state site.new) }
    ensures foreign { IsErrOf result Stop.Foreign
        → (first : ℕ) (stand : List (List Frame)) (saved : List (List FrameHead))
        → Stands geometry.now groups.now segments.old first stand saved (S.state site.old) → ⊥ }
    ensures stops { IfErr result (λ stop. (stop ≡ Stop.Device Dev.Flash) ⊎ (stop ≡ Stop.Foreign)) }
{
    if groups.hi() != 4 * segments.hi() + 4 {
        return Ok(());
    }
    let heads = match read_last_four(site, geometry, groups) {
        Ok(heads) => heads,
        Err(stop) => return Err(stop),
    };
    let mut content = [0u8; SEGMENT_LEN];
    write_segment(&heads, &mut content);
    if let Err(stop) = segments.append(site, &content) {
        return Err(stop);
    }
    Ok(())
}
