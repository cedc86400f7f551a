// The log is sealed before pages leave for the devices.
ghost use Rattle.std.specs.Prelude.{◌≡◌, ◌≢◌, ◌^◌, ◌≤◌, true, false, IsTrue, OnOk};
ghost use Rattle.std.specs.Prelude.{IfErr, IsErrOf};
ghost use Rattle.std.specs.List.{AllByRecursion};
ghost use Rattle.site.specs.declared.outside.Dev.{Dev};
ghost use Rattle.site.specs.declared.outside.Stop.{Stop};
ghost use Rattle.site.specs.State.{IsQuiet};
ghost use Rattle.log_store.specs.LogList.{LogList, sealed_if};
ghost use Rattle.log_store.specs.Representation.{Invariant, HasRoom, has_tail, Finds, Represents};
ghost use Rattle.log_store.specs.Sealing.{SealsTail};
ghost use Rattle.write_ahead.specs.Forcing.{IsLogged, end_now, end_forced, is_unsealed, forces, Forces, IsLogAtEnd};
ghost use Rattle.site.specs.Work.{Calls};

use log_store::LogStore;
use site::{Site, Stop};
use slotted_page::Page;

// Whether the last change of a page isn't sealed, where the sealed blocks end at this LSN.
fn is_unsealed(end: u64, content: &Page) -> bool
    ensures { result ≡ is_unsealed end content.now }
{
    let lsn = content.lsn();
    0 < lsn && end <= lsn
}

// Whether the log's tail has the last change of one of these pages.
fn wants_force(log: &LogStore, contents: &[Page]) -> bool
    requires low { 2 ≤ log.now.used }
    requires bounded { log.now.ring.hi ≤ 2 ^ 40 }
    ensures { result ≡ forces log.now contents.now }
{
    if log.tail_empty() {
        return false;
    }
    let end = log.sealed_end();
    for content in contents {
        if is_unsealed(end, content) {
            return true;
        }
    }
    false
}

/// Seals the log's tail where it has the last change of one of these pages.
pub fn force_for<S: Site>(site: &mut S, log: &mut LogStore, contents: &[Page]) -> Result<(), Stop>
    requires going { Invariant log.old (S.state site.old) }
    requires room { has_tail log.old ≡ true → HasRoom log.old }

    ensures seals { SealsTail result (forces log.old contents.now) log.old log.new
        (S.state site.old) (S.state site.new) }

    // Of an honest site whose log it found.
    ensures holds { (list : LogList)
        → Finds log.old (S.state site.old) → Represents log.old (S.state site.old).image list
        → OnOk result (Represents log.new (S.state site.new).image (sealed_if (forces log.old contents.now) list)) }
    ensures quiet_err { IsTrue (S.state site.old).honest → IsQuiet (S.state site.old)
        → IfErr result (λ stop. ((d : Dev) → stop ≢ Stop.Device d) → IsQuiet (S.state site.new)) }
    ensures worn_end { Finds log.old (S.state site.old) → IsErrOf result (Stop.Worn Dev.Log)
        → IsLogAtEnd log.old.geometry (S.state site.new).image }

    // Of every site.
    ensures calls { Calls result (S.state site.old) (S.state site.new) }
    ensures forces { Forces result log.old log.new (forces log.old contents.now) }
    ensures sealed { AllByRecursion (IsLogged (end_forced log.old)) contents.now
        → OnOk result (AllByRecursion (IsLogged (end_now log.new)) contents.now) }
    ensures unchanged { forces log.old contents.now ≡ false
        → (site.new ≡ site.old) × (log.new ≡ log.old) }
{
    if !wants_force(log, contents) {
        return Ok(());
    }
    log.force(site)
}
