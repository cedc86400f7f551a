// Whether what stands on a device is a ring of the form.
ghost use Rattle.std.specs.Prelude.{◌≡◌, ◌↔◌, ◌+◌, ◌-◌, ◌*◌, ◌%◌, ◌^◌, ◌<◌, ◌≤◌, min, length, false, IsTrue, IfOk};
ghost use Rattle.std.specs.Prelude.{IfSome, IfErr};
ghost use Rattle.sealed_ring.specs.Ring.{FitsIn};
ghost use Rattle.sealed_ring.specs.Ready.{region, IsUsable};
ghost use Rattle.sealed_ring.specs.Reading.{ReadsFrom};
ghost use Rattle.site.specs.Work.{OnlyReads};
ghost use Rattle.sealed_ring.specs.Judged.{Stands, LiveStand, UnusedAreBare, IsJudged};

use crate::ring::{Head, Ring, read_head};
use crate::sealing::OPEN;
use crate::slots::Shape;
use site::{Site, Stop};

impl Head {
    // Whether the unit `n` of a ring stands behind this head.
    fn is_of(&self, shape: Shape, hi: u64, n: u64) -> bool
        requires hi { hi ≤ 2 ^ 40 }
        requires n { n < hi }
        requires slots { shape.slots < 2 ^ 63 }
        ensures { IsTrue result ↔ Stands shape hi n self.now.gate self.now.number }
    {
        if self.number != n {
            return false;
        }
        if n + shape.slots <= hi + 1 {
            return true;
        }
        self.gate == OPEN
    }
}

// Whether each live unit of a ring stands in its slot: reads the head of each of their slots once.
fn live_stand<S: Site>(site: &mut S, shape: Shape, hi: u64) -> Result<bool, Stop>
    requires fits { FitsIn shape (length (region shape (S.state site.old))) }
    requires hi { hi ≤ 2 ^ 40 }
    ensures stand { IsTrue (S.state site.old).honest
        → IfOk result (λ stand. IsTrue stand ↔ LiveStand shape hi (region shape (S.state site.old))) }
    ensures reads { ReadsFrom result shape.dev (min hi (shape.slots - 1)) (S.state site.old) (S.state site.new) }
    ensures stops { IfErr result (λ stop. stop ≡ Stop.Device shape.dev) }
{
    for n in hi.saturating_sub(shape.slots - 1)..hi {
        let head = match read_head(site, shape, n % shape.slots) {
            Ok(head) => head,
            Err(stop) => return Err(stop),
        };
        if !head.is_of(shape, hi, n) {
            return Ok(false);
        }
    }
    Ok(true)
}

// Whether no slot behind `hi` that was never used has a number of its own: reads the head of each of them once.
fn unused_are_bare<S: Site>(site: &mut S, shape: Shape, hi: u64) -> Result<bool, Stop>
    requires fits { FitsIn shape (length (region shape (S.state site.old))) }
    requires hi { hi ≤ 2 ^ 40 }
    ensures bare { IsTrue (S.state site.old).honest
        → IfOk result (λ bare. IsTrue bare ↔ UnusedAreBare shape hi (region shape (S.state site.old))) }
    ensures reads { ReadsFrom result shape.dev (shape.slots - (hi + 1)) (S.state site.old) (S.state site.new) }
    ensures stops { IfErr result (λ stop. stop ≡ Stop.Device shape.dev) }
{
    for slot in hi + 1..shape.slots {
        let head = match read_head(site, shape, slot) {
            Ok(head) => head,
            Err(stop) => return Err(stop),
        };
        if head.number % shape.slots == slot {
            return Ok(false);
        }
    }
    Ok(true)
}

/// The ring that stands there, or `None` exactly where what stands there isn't of the form. It reads heads of slots,
/// at most twice as many as there are slots.
pub fn judge<S: Site>(site: &mut S, shape: Shape) -> Result<Option<Ring>, Stop>
    requires { FitsIn shape (length (region shape (S.state site.old))) }

    ensures judged { IsTrue (S.state site.old).honest
        → IfOk result (λ ring. IsJudged shape ring (S.state site.new)) }
    ensures shape { IfOk result (λ ring. IfSome ring (λ ring. ring.shape ≡ shape)) }
    ensures usable { IfOk result (λ ring. IfSome ring (λ ring. IsUsable ring (S.state site.new))) }
    ensures reads { OnlyReads result (S.state site.old) (S.state site.new) }
    ensures looks { ReadsFrom result shape.dev (2 * shape.slots) (S.state site.old) (S.state site.new) }
    ensures stops { IfErr result (λ stop. stop ≡ Stop.Device shape.dev) }
{
    let ring = match Ring::scan(site, shape) {
        Ok(ring) => ring,
        Err(Stop::Foreign) => return Ok(None),
        Err(stop) => return Err(stop),
    };
    let hi = ring.hi();
    let stand = match live_stand(site, shape, hi) {
        Ok(stand) => stand,
        Err(stop) => return Err(stop),
    };
    if !stand {
        return Ok(None);
    }
    let bare = match unused_are_bare(site, shape, hi) {
        Ok(bare) => bare,
        Err(stop) => return Err(stop),
    };
    if !bare {
        return Ok(None);
    }
    Ok(Some(ring))
}
