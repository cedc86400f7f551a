// The newest master.
ghost use Rattle.std.specs.Prelude.{◌≡◌, IsTrue, IfOk, IfSome, ◌≤◌, length};
ghost use Rattle.checkpoint.specs.Actives.{Ascend};
ghost use Rattle.sealed_ring.specs.Ring.{IsRing};
ghost use Rattle.image_changes.specs.Rings.{master_shape};
ghost use Rattle.site.specs.Work.{OnlyReads};
ghost use Rattle.image_form.specs.Counted.{ReadsAtMost};
ghost use Rattle.image_form.specs.Findings.{MasterIs};

use checkpoint::{Master, newest};
use site::{Site, Stop};

/// The newest master, the blank one where no unit stands, or `None` exactly where the newest unit is that of none.
pub fn rule_master<S: Site>(site: &mut S) -> Result<Option<Master>, Stop>
    requires { 1536 ≤ length (S.state site.old).image.log }

    ensures master { IsTrue (S.state site.old).honest → IsRing master_shape (S.state site.old).image.log
        → IfOk result (λ master. MasterIs master (S.state site.old).image) }
    ensures ascend { IfOk result (λ master. IfSome master (λ master. Ascend master.active)) }
    ensures few { IfOk result (λ master. IfSome master (λ master. length master.active ≤ 8)) }
    ensures looks { ReadsAtMost 5 0 (S.state site.old) (S.state site.new) }
    ensures reads { OnlyReads result (S.state site.old) (S.state site.new) }
{
    match newest(site) {
        Ok((_ring, master)) => Ok(Some(master)),
        Err(Stop::Foreign) => Ok(None),
        Err(stop) => Err(stop),
    }
}
