// What stands on the devices, and whether it is of the form.
ghost use Rattle.std.specs.Prelude.{◌≡◌, ◌↔◌, ◌+◌, ◌*◌, is_none, IsTrue, IfOk, IfSome};
ghost use Rattle.image_changes.specs.Rings.{log_shape};
ghost use Rattle.sealed_ring.specs.Ring.{IsRing};
ghost use Rattle.log_store.specs.Representation.{Invariant};
ghost use Rattle.site.specs.Work.{OnlyReads};
ghost use Rattle.image_form.specs.Counted.{ReadsAtMost, ReadsBySizes, log_looks, log_to_find, page_looks};
ghost use Rattle.image_form.specs.Counted.{pages_to_find, segment_slots};
ghost use Rattle.image_form.specs.Octets.{HasSizes};
ghost use Rattle.image_form.specs.Formed.{MayBeRead, IsThere, LogIs, IsThereOr, IsFormedOr};
ghost use Rattle.image_form.specs.Verdict.{OctetsAreFormed};

use crate::blocks::rule_blocks;
use crate::groups::rule_groups;
use crate::lengths::rule_lengths;
use crate::master::rule_master;
use crate::place::Place;
use crate::rings::{Rings, rule_rings};
use crate::segments::rule_segments;
use crate::versions::rule_versions;
use checkpoint::{Master, one_master};
use log_store::LogStore;
use site::{Geometry, Site, Stop};
use std::alloc::Global;

/// The rings, the newest master and the log that were found on devices.
#[derive(Drop)]
pub struct Found {
    pub rings: Rings,
    pub master: Master,
    pub log: LogStore,
}

// The log of devices of these sizes whose ring of blocks is of the form.
fn find_log<S: Site>(site: &mut S, geometry: &Geometry) -> Result<Option<LogStore>, Stop>
    requires { HasSizes geometry.now (S.state site.old).image }

    ensures log { IsTrue (S.state site.old).honest → IsRing (log_shape geometry.now) (S.state site.old).image.log
        → IfOk result (λ log. LogIs log (S.state site.new)) }
    ensures going { IfOk result (λ log. IfSome log (λ log. Invariant log (S.state site.new))) }
    ensures geometry { IfOk result (λ log. IfSome log (λ log. log.geometry ≡ geometry.now)) }
    ensures looks { ReadsAtMost (geometry.now.blocks + 1) 0 (S.state site.old) (S.state site.new) }
    ensures reads { OnlyReads result (S.state site.old) (S.state site.new) }
{
    match LogStore::start(site, geometry) {
        Ok(log) => Ok(Some(log)),
        Err(Stop::Foreign) => Ok(None),
        Err(stop) => Err(stop),
    }
}

// What stands there: sizes, rings of the form, a master, a log. A place only where the first rule fails.
fn find<S: Site>(site: &mut S) -> Result<Result<Found, Place>, Stop>
    ensures found { IsTrue (S.state site.old).honest
        → IfOk result (λ found. IsThereOr found (S.state site.new)) }
    ensures may_read { IfOk result (λ found. IfOk found (λ found. MayBeRead found (S.state site.new))) }
    ensures looks { ReadsBySizes log_to_find pages_to_find (S.state site.old) (S.state site.new) }
    ensures reads { OnlyReads result (S.state site.old) (S.state site.new) }
{
    let Some(geometry) = rule_lengths(site) else {
        return Ok(Err(Place::Lengths));
    };
    let rings = match rule_rings(site, &geometry)? {
        Ok(rings) => rings,
        Err(place) => return Ok(Err(place)),
    };
    let Some(master) = rule_master(site)? else {
        return Ok(Err(Place::Master));
    };
    let Some(log) = find_log(site, &geometry)? else {
        return Ok(Err(Place::Blocks));
    };
    Ok(Ok(Found { rings, master, log }))
}

// Where what stands there fails the first rule, `None` exactly where it doesn't.
fn find_unformed<S: Site>(alloc: Global, site: &mut S, found: &Found) -> Result<Option<Place>, Stop>
    requires { MayBeRead found.now (S.state site.old) }

    ensures formed { IsThere found.now (S.state site.old)
        → IfOk result (λ failing. IsTrue (is_none failing)
        ↔ OctetsAreFormed found.now.log.geometry found.now.master (S.state site.old).image) }
    ensures looks { ReadsAtMost found.now.log.geometry.blocks (10 * found.now.log.geometry.groups
        + segment_slots found.now.log.geometry + found.now.log.geometry.pages)
        (S.state site.old) (S.state site.new) }
    ensures reads { OnlyReads result (S.state site.old) (S.state site.new) }
{
    let geometry = found.log.geometry();
    if let Some(place) = rule_blocks(site, &found.log, found.master.kept)? {
        return Ok(Some(place));
    }
    if let Some(place) = rule_groups(site, &geometry, &found.rings)? {
        return Ok(Some(place));
    }
    if let Some(place) = rule_segments(site, &geometry, &found.rings)? {
        return Ok(Some(place));
    }
    rule_versions(alloc, site, &geometry, &found.rings)
}

/// What stands there and meets the first rule, or where it doesn't, exactly where that rule fails.
pub fn find_formed<S: Site>(alloc: Global, site: &mut S) -> Result<Result<Found, Place>, Stop>
    ensures formed { IsTrue (S.state site.old).honest
        → IfOk result (λ found. IsFormedOr found (S.state site.new)) }
    ensures may_read { IfOk result (λ found. IfOk found (λ found. MayBeRead found (S.state site.new))) }
    ensures looks { ReadsBySizes log_looks page_looks (S.state site.old) (S.state site.new) }
    ensures reads { OnlyReads result (S.state site.old) (S.state site.new) }
{
    one_master();
    let found = match find(site)? {
        Ok(found) => found,
        Err(place) => return Ok(Err(place)),
    };
    if let Some(place) = find_unformed(alloc, site, &found)? {
        return Ok(Err(place));
    }
    Ok(Ok(found))
}
