// How a run or a load begins.
ghost use Rattle.std.specs.Prelude.{◌≡◌, ◌≢◌, ◌≤◌, IsTrue, IfOk, IfErr, OnOk};
ghost use Rattle.front_end.specs.declared.halt.Halt.{Halt};
ghost use Rattle.face.specs.Causes.{WorkEnds};
ghost use Rattle.face.specs.Headline.{IsGood};
ghost use Rattle.face.specs.Judged.{KeepsRules};
ghost use Rattle.face.specs.Run.{Run};
ghost use Rattle.face.specs.RunInProgress.{GoesOn, NeverOpens, RunInProgress};

use engine::{Engine, queue_is_on_flash, versions_are_seen};
use front_end::Halt;
use shell_text::open_line;
use site::{Site, tell_all};
use std::alloc::Global;

/// Restart, and the line that opens the run. No input is taken.
pub fn open<S: Site>(alloc: Global, pool: u32, site: &mut S) -> Result<Engine, Halt>
    requires pool { (1 ≤ pool) × (pool ≤ 4096) }

    // Of every run, and of every load, that opens with the state of the image.
    ensures opens { (run : Run) → IsGood run.geometry run.opening (S.state site.old)
        → IfOk result (λ engine. RunInProgress pool run (S.state site.old) (S.state site.new) engine 0) }
    ensures never { (run : Run) → IsGood run.geometry run.opening (S.state site.old)
        → IfErr result (λ halt. NeverOpens pool run (S.state site.old) (S.state site.new) halt) }
    // Of every site.
    ensures going { IfOk result (λ engine. GoesOn (S.state site.old) (S.state site.new) engine) }
    ensures left { IsTrue (S.state site.old).honest → (S.state site.new).input ≡ (S.state site.old).input }
    ensures halts { IfErr result (λ halt. (halt ≢ Halt.Input) × (halt ≢ Halt.Limit)) }
    ensures ends { WorkEnds result (S.state site.old) (S.state site.new) }
    // Of every honest site: records that break a rule of those that are judged aren't opened.
    ensures judged { IsTrue (S.state site.old).honest → OnOk result (KeepsRules (S.state site.old).image) }
{
    queue_is_on_flash();
    versions_are_seen();
    let engine = match Engine::start(alloc, site, pool) {
        Ok(engine) => engine,
        Err(stop) => return Err(Halt::Stop(stop)),
    };
    match tell_all(site, open_line(engine.commits()).as_slice()) {
        Ok(()) => Ok(engine),
        Err(_) => Err(Halt::Output),
    }
}
