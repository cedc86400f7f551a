// The log's tail is sealed.
ghost use Rattle.std.specs.Prelude.{◌≡◌, ◌⊎◌, ◌+◌, ◌<◌, ℕ, List, OnOk, IfErr, Option, IsTrue};
ghost use Rattle.site.specs.declared.outside.Dev.{Dev};
ghost use Rattle.site.specs.declared.outside.Stop.{Stop};
ghost use Rattle.record_model.specs.State.{Content};
ghost use Rattle.log_records.specs.Log.{Entry};
ghost use Rattle.log_store.specs.Representation as log_store;
ghost use Rattle.log_store.specs.Representation.{end_of};
ghost use Rattle.slotted_page.specs.Layout.{lsn_of};
ghost use Rattle.page_store.specs.Representation.{current};
ghost use Rattle.page_store.specs.declared.store.PageStore.{PageStore};
ghost use Rattle.checkpoint.specs.declared.master.Master.{Master};
ghost use Rattle.redo_laws.specs.Waiting.{LeavesSomeUnder};
ghost use Rattle.redo_laws.specs.Running.{History, settled};
ghost use Rattle.redo_laws.specs.Holding.{Invariant, Represents, blocks_to};
ghost use Rattle.redo_undo.specs.Mirroring.{PerformsOn, force_work};
ghost use Rattle.redo_laws.specs.Calls.{KeepsInvariantBeside, KeepsBeside};

use log_store::LogStore;
use site::{Site, Stop};

/// Seals the log's tail, where it has records: no commit waits any more. What log and pages hold together stays, and at
/// each moment the devices stand for the table after some of the commits, none below those that were sealed.
pub(crate) fn force<S: Site>(site: &mut S, log: &mut LogStore) -> Result<(), Stop>
    requires going { log_store.Invariant log.old (S.state site.old) }
    requires room { blocks_to log.old < log.old.kept + log.old.geometry.blocks }

    // Of an honest site on which log and pages hold together.
    ensures holds { (pages : PageStore) (newest : Option Master) (records : List Entry) (history : History)
        → log.old.geometry ≡ pages.flash.geometry
        → Represents log.old pages (S.state site.old) newest records history
        → OnOk result (Represents log.new pages (S.state site.new) newest records
        (settled (history.tables history.commits) history.commits)) }
    ensures keeps { (pages : PageStore) (newest : Option Master) (records : List Entry) (history : History)
        → Represents log.old pages (S.state site.old) newest records history
        → KeepsBeside result log.old log.new pages (S.state site.old) (S.state site.new)
        (LeavesSomeUnder newest pages.flash.geometry history (S.state site.old).told) 0 }

    // Of an honest site where no page has an LSN that a next record may get.
    ensures performs { (pages : PageStore) → Invariant log.old pages (S.state site.old)
        → IsTrue (S.state site.old).honest
        → ((page : ℕ) → page < pages.flash.geometry.pages
        → lsn_of (current pages (S.state site.old).image page) < end_of log.old)
        → PerformsOn result force_work log.old log.new pages pages (S.state site.old) (S.state site.new) }

    // Of every site.
    ensures sealed { OnOk result (log.new.used ≡ 2) }
    ensures works { KeepsInvariantBeside result log.old log.new (S.state site.old) (S.state site.new) }
    ensures blocks { OnOk result (blocks_to log.new ≡ blocks_to log.old) }

    // When each answer comes.
    ensures stops { IfErr result (λ stop. (stop ≡ Stop.Device Dev.Log) ⊎ (stop ≡ Stop.Worn Dev.Log)) }
{
    if log.tail_empty() {
        return Ok(());
    }
    log.force(site)
}
