// The kept blocks and the redo block.
ghost use Rattle.std.specs.Prelude.{◌+◌, ◌-◌, ◌≤◌, ◌^◌, ◌↔◌, IsTrue};
ghost use Rattle.site.specs.State.{State};
ghost use Rattle.log_store.specs.Representation.{Finds};
ghost use Rattle.image_form.specs.Verdict.{KeptBlocksAreLive};

use checkpoint::Master;
use log_store::LogStore;

/// The second rule: whether the oldest kept block is live or nothing is kept, and redo begins among the kept blocks or
/// behind them.
pub fn rule_kept(log: &LogStore, master: &Master) -> bool
    requires bounded { log.now.ring.hi ≤ 2 ^ 40 }
    requires some { 1 ≤ log.now.geometry.blocks }
    ensures kept { (site : State) → Finds log.now site
        → IsTrue result ↔ KeptBlocksAreLive log.now.geometry master.now site.image }
    ensures redo { IsTrue result → master.now.redo ≤ log.now.ring.hi }
    ensures live { IsTrue result → log.now.ring.hi ≤ master.now.kept + (log.now.geometry.blocks - 1) }
{
    let hi = log.sealed_end() / 512;
    let live = log.geometry().blocks as u64 - 1;
    master.kept <= master.redo && master.redo <= hi && hi.saturating_sub(live) <= master.kept
}
