// The live segments and the live groups.
ghost use Rattle.std.specs.Prelude.{◌≡◌, ◌↔◌, ◌*◌, ◌/◌, is_none, IsTrue, IfOk};
ghost use Rattle.sealed_ring.specs.Ring.{IsLive};
ghost use Rattle.site.specs.Work.{OnlyReads};
ghost use Rattle.checkpoint.specs.declared.master.Master.{Master};
ghost use Rattle.site.specs.declared.geometry.Geometry.{Geometry};
ghost use Rattle.image_form.specs.Counted.{ReadsAtMost};
ghost use Rattle.image_form.specs.Findings.{MayRead, AreFound, AreHeadsSaved};
ghost use Rattle.image_form.specs.Verdict.{OctetsAreFormed, SegmentsFollowGroups};

use crate::place::Place;
use crate::rings::Rings;
use site::{Geometry, Site, Stop};

// The octets of a group's heads.
const HEADS_LEN: usize = 128;

fn are_same(one: &[u8], other: &[u8]) -> bool
    ensures { IsTrue result ↔ (one.now ≡ other.now) }
{
    one == other
}

// Whether the heads of a live group are those that its live segment has of it: two reads.
fn are_saved<S: Site>(site: &mut S, rings: &Rings, group: u64) -> Result<bool, Stop>
    requires may_read { (g : Geometry) × MayRead g rings.now (S.state site.old) }
    requires group { IsLive rings.now.groups.shape rings.now.groups.hi group }
    requires segment { IsLive rings.now.segments.shape rings.now.segments.hi (group / 4) }

    ensures saved { (g : Geometry) → MayRead g rings.now (S.state site.old) → IsTrue (S.state site.old).honest
        → AreFound rings.now (S.state site.old)
        → IfOk result (λ same. IsTrue same ↔ AreHeadsSaved g (S.state site.old).image group) }
    ensures looks { ReadsAtMost 0 2 (S.state site.old) (S.state site.new) }
    ensures reads { OnlyReads result (S.state site.old) (S.state site.new) }
{
    let mut own = [0u8; HEADS_LEN];
    if let Err(stop) = rings.groups.read_part(site, group, 0, &mut own) {
        return Err(stop);
    }
    let mut saved = [0u8; HEADS_LEN];
    let at = 128 * (group % 4);
    if let Err(stop) = rings.segments.read_part(site, group / 4, at, &mut saved) {
        return Err(stop);
    }
    Ok(are_same(&own, &saved))
}

/// The eighth rule, of devices that meet the first one: the ring of segments where it doesn't end as the groups say, or
/// the first group whose heads its segment hasn't; `None` exactly where the live segments follow the live groups. It
/// reads the heads of each live group of a saved segment, and what its segment has of it.
pub fn rule_following<S: Site>(
    site: &mut S,
    geometry: &Geometry,
    rings: &Rings,
) -> Result<Option<Place>, Stop>
    requires { MayRead geometry.now rings.now (S.state site.old) }

    ensures following { (m : Master) → IsTrue (S.state site.old).honest → AreFound rings.now (S.state site.old)
        → OctetsAreFormed geometry.now m (S.state site.old).image
        → IfOk result (λ failing. IsTrue (is_none failing)
        ↔ SegmentsFollowGroups geometry.now (S.state site.old).image) }
    ensures looks { ReadsAtMost 0 (2 * geometry.now.groups) (S.state site.old) (S.state site.new) }
    ensures reads { OnlyReads result (S.state site.old) (S.state site.new) }
{
    let saved = 4 * rings.segments.hi();
    let end = rings.groups.hi();
    if end < saved || saved + 4 < end {
        return Ok(Some(Place::Segments));
    }
    for group in rings.groups.oldest()..saved {
        let same = match are_saved(site, rings, group) {
            Ok(same) => same,
            Err(stop) => return Err(stop),
        };
        if !same {
            return Ok(Some(Place::Group(group)));
        }
    }
    Ok(None)
}
