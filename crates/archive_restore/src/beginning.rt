// The restart of a database that was never written.
ghost use Rattle.std.specs.Prelude.{◌≡◌, ◌≢◌, ◌≤◌, IsTrue, IfOk, IfErr};
ghost use Rattle.site.specs.Calls.{Preserves};
ghost use Rattle.site.specs.declared.geometry.Geometry.{Geometry};
ghost use Rattle.front_end.specs.declared.halt.Halt.{Halt};
ghost use Rattle.face.specs.Causes.{WorkEnds};
ghost use Rattle.face.specs.RunInProgress.{GoesOn};
ghost use Rattle.archive_restore.specs.Restores.{IsTarget};
ghost use Rattle.archive_restore.specs.Beginning.{HasBegun, NeverBegins};

use engine::Engine;
use face::blank_stands;
use front_end::Halt;
use site::Site;
use std::alloc::Global;

/// The restart; nothing is told and no input is taken.
pub fn begin<S: Site>(alloc: Global, pool: u32, site: &mut S) -> Result<Engine, Halt>
    requires pool { (1 ≤ pool) × (pool ≤ 4096) }
    ensures begins { (g : Geometry) → IsTarget g (S.state site.old)
        → IfOk result (HasBegun pool g (S.state site.old) (S.state site.new)) }
    ensures never { (g : Geometry) → IsTarget g (S.state site.old)
        → IfErr result (NeverBegins pool g (S.state site.old) (S.state site.new)) }
    ensures going { IfOk result (GoesOn (S.state site.old) (S.state site.new)) }
    ensures left { IsTrue (S.state site.old).honest → (S.state site.new).input ≡ (S.state site.old).input }
    ensures halts { IfErr result (λ halt. (halt ≢ Halt.Input) × (halt ≢ Halt.Limit)) }
    ensures ends { WorkEnds result (S.state site.old) (S.state site.new) }
{
    blank_stands();
    match Engine::start(alloc, site, pool) {
        Ok(engine) => Ok(engine),
        Err(stop) => Err(Halt::Stop(stop)),
    }
}
