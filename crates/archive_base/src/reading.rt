// What the log of a database leaves unfinished, read from its blocks.
ghost use Rattle.std.specs.Prelude.{◌≤◌, ◌+◌, ◌-◌, List, IfOk};
ghost use Rattle.site.specs.Work.{OnlyReads};
ghost use Rattle.log_records.specs.Log.{log_from};
ghost use Rattle.log_records.specs.declared.log_record.LogRecord.{LogRecord};
ghost use Rattle.log_store.specs.Representation.{Finds, HasBlocks, Invariant};
ghost use Rattle.archive_base.specs.Reading.{Leaves};

use crate::opening::Opening;
use image_form::Walk;
use log_replay::{ReplayFault, Transactions};
use log_store::LogStore;
use site::{Site, Stop};
use std::alloc::Global;

/// The transactions that the log leaves unfinished whose blocks are read from this one on: each with its last record,
/// its Updates that no CLR has compensated, and what it has left. None where the log has a record that no page of any
/// database has.
pub fn read_blocks<S: Site>(
    alloc: Global,
    site: &mut S,
    log: &LogStore,
    kept: u64,
) -> Result<Option<Transactions>, Stop>
    requires going { Invariant log.now (S.state site.old) }
    requires live { log.now.ring.hi ≤ kept + (log.now.geometry.blocks - 1) }
    ensures heard { (blocks : List (List LogRecord)) → Finds log.now (S.state site.old)
        → HasBlocks log.now.geometry kept blocks (S.state site.old).image
        → IfOk result (Leaves (log_from kept blocks)) }
    ensures reads { OnlyReads result (S.state site.old) (S.state site.new) }
{
    let mut walk = Walk::start(log, kept);
    let mut opening = Opening::none(alloc);
    while let Some((lsn, rec)) = walk.next(site, log)? {
        match opening.hear(lsn, &rec) {
            Ok(()) => {}
            Err(ReplayFault::BadStream) => return Ok(None),
            Err(ReplayFault::Memory) => return Err(Stop::Memory),
        }
    }
    match opening.claimed() {
        Ok(transactions) => Ok(Some(transactions)),
        Err(_) => Err(Stop::Memory),
    }
}
