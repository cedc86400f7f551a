// The four rings of the devices.
ghost use Rattle.std.specs.Prelude.{◌≡◌, ◌+◌, ◌*◌, IsTrue, IfOk};
ghost use Rattle.image_changes.specs.Rings.{log_shape, group_shape, segment_shape, master_shape};
ghost use Rattle.site.specs.Work.{OnlyReads};
ghost use Rattle.image_form.specs.Counted.{ReadsAtMost, pages_to_find};
ghost use Rattle.image_form.specs.Octets.{HasSizes};
ghost use Rattle.image_form.specs.Findings.{RingsAre, MayRead};

use crate::place::Place;
use sealed_ring::{Ring, Shape, judge};
use site::{Dev, Geometry, Site, Stop};

/// The rings of masters, log blocks, groups of frames and segments.
#[derive(Debug, PartialEq, Eq, Drop)]
pub struct Rings {
    pub masters: Ring,
    pub blocks: Ring,
    pub groups: Ring,
    pub segments: Ring,
}

const MASTERS: Shape = Shape {
    dev: Dev::Log,
    base: 0,
    slots: 3,
    stride: 512,
    room: 503,
};

fn blocks_of(geometry: &Geometry) -> Shape
    ensures { result ≡ log_shape geometry.now }
{
    Shape {
        dev: Dev::Log,
        base: 1_536,
        slots: geometry.blocks as u64,
        stride: 512,
        room: 503,
    }
}

fn groups_of(geometry: &Geometry) -> Shape
    ensures { result ≡ group_shape geometry.now }
{
    Shape {
        dev: Dev::Flash,
        base: 0,
        slots: geometry.groups as u64,
        stride: 33_280,
        room: 32_896,
    }
}

fn segments_of(geometry: &Geometry) -> Shape
    ensures { result ≡ segment_shape geometry.now }
{
    Shape {
        dev: Dev::Flash,
        base: 33_280 * geometry.groups as u64,
        slots: geometry.groups as u64 / 4 + 3,
        stride: 1_024,
        room: 512,
    }
}

/// The four rings, or the first of them that isn't of the form, exactly where one isn't.
pub fn rule_rings<S: Site>(site: &mut S, geometry: &Geometry) -> Result<Result<Rings, Place>, Stop>
    requires { HasSizes geometry.now (S.state site.old).image }

    ensures rings { IsTrue (S.state site.old).honest
        → IfOk result (λ rings. RingsAre geometry.now rings (S.state site.new)) }
    ensures may_read { IfOk result (λ rings. IfOk rings (λ rings. MayRead geometry.now rings (S.state site.new))) }
    ensures looks { ReadsAtMost (2 * geometry.now.blocks + 6)
        (pages_to_find geometry.now) (S.state site.old) (S.state site.new) }
    ensures reads { OnlyReads result (S.state site.old) (S.state site.new) }
{
    let masters = match judge(site, MASTERS) {
        Ok(Some(ring)) => ring,
        Ok(None) => return Ok(Err(Place::Masters)),
        Err(stop) => return Err(stop),
    };
    let blocks = match judge(site, blocks_of(geometry)) {
        Ok(Some(ring)) => ring,
        Ok(None) => return Ok(Err(Place::Blocks)),
        Err(stop) => return Err(stop),
    };
    let groups = match judge(site, groups_of(geometry)) {
        Ok(Some(ring)) => ring,
        Ok(None) => return Ok(Err(Place::Groups)),
        Err(stop) => return Err(stop),
    };
    let segments = match judge(site, segments_of(geometry)) {
        Ok(Some(ring)) => ring,
        Ok(None) => return Ok(Err(Place::Segments)),
        Err(stop) => return Err(stop),
    };
    Ok(Ok(Rings {
        masters,
        blocks,
        groups,
        segments,
    }))
}
