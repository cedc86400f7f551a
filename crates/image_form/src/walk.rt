// The records of a log, one after the other.
ghost use Rattle.std.specs.Prelude.{◌≡◌, ◌<◌, ◌≤◌, ◌+◌, ◌-◌, [], false, List, IsTrue, IfOk, IfSome};
ghost use Rattle.site.specs.State.{Image};
ghost use Rattle.log_records.specs.Log.{Entry, log_from};
ghost use Rattle.log_records.specs.declared.log_record.LogRecord.{LogRecord};
ghost use Rattle.log_store.specs.Representation.{Invariant, Finds, HasBlocks};
ghost use Rattle.site.specs.Work.{OnlyReads};
ghost use Rattle.image_form.specs.Counted.{ReadsAtMost};
ghost use Rattle.image_form.specs.Walking.{MayWalk, StandsBefore, Gives, to_go, unread};

use crate::begins::begins_at;
use log_records::{BLOCK_LEN, LogRecord, read_record};
use log_store::LogStore;
use site::{Site, Stop};

/// A walk over the sealed records of a log, from a block on. It holds the octets of one block.
#[derive(Drop)]
pub struct Walk {
    // the next block, and the LSN of the first octet of the one in memory
    pub block: u64,
    pub from: u64,
    pub content: [u8; BLOCK_LEN],
    // where the next record begins, and where the last one ends
    pub at: usize,
    pub used: usize,
}

impl Walk {
    /// A walk from a kept block on.
    pub fn start(log: &LogStore, kept: u64) -> Walk
        requires { log.now.ring.hi ≤ kept + (log.now.geometry.blocks - 1) }
        ensures walk { MayWalk log.now result }
        ensures first { result.block ≡ kept }
        ensures stands { (image : Image) (blocks : List (List LogRecord)) → HasBlocks log.now.geometry kept blocks image
            → StandsBefore result log.now image (log_from kept blocks) }
    {
        Walk {
            block: kept,
            from: 0,
            content: [0; BLOCK_LEN],
            at: 2,
            used: 2,
        }
    }

    // Reads the next block where no record is left of the one in memory, and answers whether there is a record.
    fn fill<S: Site>(&mut self, site: &mut S, log: &LogStore) -> Result<bool, Stop>
        requires walk { MayWalk log.now self.old }
        requires going { Invariant log.now (S.state site.old) }

        ensures more { (left : List Entry) → Finds log.now (S.state site.old)
            → StandsBefore self.old log.now (S.state site.old).image left
            → IfOk result (λ more. IsTrue more → StandsBefore self.new log.now (S.state site.old).image left) }
        ensures none { (left : List Entry) → Finds log.now (S.state site.old)
            → StandsBefore self.old log.now (S.state site.old).image left
            → IfOk result (λ more. more ≡ false → left ≡ []) }
        ensures some { IfOk result (λ more. IsTrue more → self.new.at < self.new.used) }
        ensures walk { IfOk result (λ more. MayWalk log.now self.new) }
        ensures shorter { IfOk result (λ more. to_go log.now self.new ≤ to_go log.now self.old) }
        ensures few { IfOk result (λ more. IsTrue more → (S.state site.new).log_reads + unread log.now self.new
            ≤ (S.state site.old).log_reads + unread log.now self.old) }
        ensures ends { ReadsAtMost (unread log.now self.old) 0 (S.state site.old) (S.state site.new) }
        ensures reads { OnlyReads result (S.state site.old) (S.state site.new) }
    {
        if self.at < self.used {
            return Ok(true);
        }
        if self.block >= log.sealed_end() / 512 {
            return Ok(false);
        }
        let used = match log.read_block(site, self.block, &mut self.content) {
            Ok(used) => used,
            Err(Stop::Foreign) => return Ok(false),
            Err(stop) => return Err(stop),
        };
        self.from = 512 * self.block;
        self.block += 1;
        self.at = 2;
        self.used = used;
        Ok(true)
    }

    /// The next record with its LSN, `None` where none is left.
    pub fn next<S: Site>(
        &mut self,
        site: &mut S,
        log: &LogStore,
    ) -> Result<Option<(u64, LogRecord)>, Stop>
        requires walk { MayWalk log.now self.old }
        requires going { Invariant log.now (S.state site.old) }

        ensures next { (left : List Entry) → Finds log.now (S.state site.old)
            → StandsBefore self.old log.now (S.state site.old).image left
            → IfOk result (λ found. Gives found left self.new log.now (S.state site.old).image) }
        ensures walk { IfOk result (λ found. MayWalk log.now self.new) }
        ensures shorter { IfOk result (λ found. IfSome found (λ found. to_go log.now self.new
            < to_go log.now self.old)) }
        ensures few { IfOk result (λ found. IfSome found (λ found. (S.state site.new).log_reads
            + unread log.now self.new ≤ (S.state site.old).log_reads + unread log.now self.old)) }
        ensures ends { ReadsAtMost (unread log.now self.old) 0 (S.state site.old) (S.state site.new) }
        ensures reads { OnlyReads result (S.state site.old) (S.state site.new) }
    {
        let more = match self.fill(site, log) {
            Ok(more) => more,
            Err(stop) => return Err(stop),
        };
        if !more {
            return Ok(None);
        }
        let lsn = self.from + self.at as u64;
        if begins_at(&self.content, self.at, self.used) {
            self.at += 1;
            return Ok(Some((lsn, LogRecord::Begin)));
        }
        let Ok((rec, end)) = read_record(&self.content, self.at, self.used) else {
            return Ok(None);
        };
        self.at = end;
        Ok(Some((lsn, rec)))
    }
}
