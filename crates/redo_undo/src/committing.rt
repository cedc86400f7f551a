// A transaction is committed.
ghost use Rattle.std.specs.Prelude.{◌≡◌, ◌⊎◌, ◌+◌, ◌<◌, ◌≤◌, ◌++◌, ◌∷◌, [], ℕ, List, IfOk, OnOk, IfErr, Option};
ghost use Rattle.site.specs.declared.outside.Dev.{Dev};
ghost use Rattle.site.specs.declared.outside.Stop.{Stop};
ghost use Rattle.site.specs.Calls.{SameReads};
ghost use Rattle.record_model.specs.State.{Content, table_with};
ghost use Rattle.log_records.specs.declared.log_record.LogRecord.{LogRecord};
ghost use Rattle.log_records.specs.Log.{Entry};
ghost use Rattle.log_laws.specs.Follow.{writes_in};
ghost use Rattle.log_store.specs.Representation.{end_of};
ghost use Rattle.checkpoint.specs.declared.master.Master.{Master};
ghost use Rattle.image_meaning.specs.Moments.{LeavesEitherFor};
ghost use Rattle.redo_laws.specs.Committing.{MayCommit};
ghost use Rattle.redo_laws.specs.Running.{History};
ghost use Rattle.redo_laws.specs.Waiting.{LeavesSome};
ghost use Rattle.redo_undo.specs.Stores.{MayLog, MayWork, Holds, HasNext, Represents, sizes_of};
ghost use Rattle.redo_undo.specs.StoreCalls.{KeepsInvariant, Keeps};
ghost use Rattle.redo_undo.specs.Mirroring.{PerformsStore, commit_work, force_work};
ghost use Rattle.ring_machine.specs.Commands.{commits as commits_work};
ghost use Rattle.redo_laws.specs.MachineSteps.{StepsMachine};

use crate::forcing::force;
use crate::logging::log_record;
use crate::store::TransactionStore;
use log_records::LogRecord;
use site::{Site, Stop};

impl TransactionStore {
    /// Logs the Commit of a transaction, which waits for its seal. Answers the Commit's LSN.
    pub fn log_commit<S: Site>(&mut self, site: &mut S, txn: u64, number: u64) -> Result<u64, Stop>
        requires may { MayLog self.old (S.state site.old) }

        // Of an honest site whose log and pages hold these records: it is one commit more, after which the history has
        // the table with the transaction's writes.
        ensures holds { (newest : Option Master) (records : List Entry) (history : History)
            → Holds self.old (S.state site.old) newest records history
            → MayCommit newest records txn number history.commits
            → history.tables (history.commits + 1)
            ≡ table_with (history.tables history.commits) (writes_in txn records)
            → IfOk result (λ lsn. Holds self.new (S.state site.new) newest
            (records ++ record { lsn = lsn; rec = LogRecord.Commit txn number } ∷ [])
            (record history { commits = history.commits + 1 })) }
        ensures keeps { (newest : Option Master) (records : List Entry) (history : History)
            → Holds self.old (S.state site.old) newest records history
            → Keeps result self.old self.new (S.state site.old) (S.state site.new)
            (LeavesSome (sizes_of self.old) history (S.state site.old).told) 1 0 }
        ensures performs { (newest : Option Master) (records : List Entry) (history : History)
            → Holds self.old (S.state site.old) newest records history
            → PerformsStore result commit_work self.old self.new (S.state site.old) (S.state site.new) }
        ensures next { (newest : Option Master) (records : List Entry) (history : History)
            → Holds self.old (S.state site.old) newest records history
            → OnOk result (HasNext self.new (S.state site.new)) }

        // Of every site.
        ensures works { KeepsInvariant result self.old self.new (S.state site.old) (S.state site.new) 1 }
        ensures rises { IfOk result (λ lsn. (end_of self.old.log ≤ lsn) × (lsn < end_of self.new.log)) }
        ensures reads { SameReads (S.state site.old) (S.state site.new) }
        ensures pages { self.new.pages ≡ self.old.pages }
        ensures asks { StepsMachine result ([]) self.old.pages self.new.pages
            (S.state site.old) (S.state site.new) }
        ensures stops { IfErr result (λ stop. (stop ≡ Stop.Device Dev.Log) ⊎ (stop ≡ Stop.Worn Dev.Log)) }
    {
        match log_record(site, &mut self.log, &LogRecord::Commit { txn, number }) {
            Ok(lsn) => {
                self.made += 1;
                Ok(lsn)
            }
            Err(stop) => Err(stop),
        }
    }

    /// Seals what the log's tail has: no commit waits any more.
    pub fn seal<S: Site>(&mut self, site: &mut S) -> Result<(), Stop>
        requires going { MayWork self.old (S.state site.old) }

        // Of an honest site whose log and pages hold these records.
        ensures holds { (newest : Option Master) (records : List Entry) (history : History)
            → Holds self.old (S.state site.old) newest records history
            → OnOk result (Represents self.new (S.state site.new) newest records (history.tables history.commits)
            history.commits) }
        ensures keeps { (newest : Option Master) (records : List Entry) (history : History)
            → Holds self.old (S.state site.old) newest records history
            → Keeps result self.old self.new (S.state site.old) (S.state site.new)
            (LeavesSome (sizes_of self.old) history (S.state site.old).told) 0 0 }
        ensures performs { HasNext self.old (S.state site.old)
            → PerformsStore result force_work self.old self.new (S.state site.old) (S.state site.new) }

        // Of every site.
        ensures works { KeepsInvariant result self.old self.new (S.state site.old) (S.state site.new) 0 }
        ensures sealed { OnOk result (self.new.log.used ≡ 2) }
        ensures reads { SameReads (S.state site.old) (S.state site.new) }
        ensures pages { self.new.pages ≡ self.old.pages }
        ensures asks { StepsMachine result ([]) self.old.pages self.new.pages
            (S.state site.old) (S.state site.new) }
        ensures stops { IfErr result (λ stop. (stop ≡ Stop.Device Dev.Log) ⊎ (stop ≡ Stop.Worn Dev.Log)) }
    {
        match force(site, &mut self.log) {
            Ok(()) => Ok(()),
            Err(stop) => Err(stop),
        }
    }

    /// Logs the Commit of a transaction, and seals it: then the transaction is committed. Answers the Commit's LSN.
    pub fn commit<S: Site>(&mut self, site: &mut S, txn: u64, number: u64) -> Result<u64, Stop>
        requires may { MayLog self.old (S.state site.old) }

        // Of an honest site whose log and pages hold these records.
        ensures holds { (newest : Option Master) (records : List Entry) (table : List Content) (commits : ℕ)
            → Represents self.old (S.state site.old) newest records table commits
            → MayCommit newest records txn number commits
            → IfOk result (λ lsn. Represents self.new (S.state site.new) newest
            (records ++ record { lsn = lsn; rec = LogRecord.Commit txn number } ∷ [])
            (table_with table (writes_in txn records)) (commits + 1)) }
        ensures keeps { (newest : Option Master) (records : List Entry) (table : List Content) (commits : ℕ)
            → Represents self.old (S.state site.old) newest records table commits
            → MayCommit newest records txn number commits
            → Keeps result self.old self.new (S.state site.old) (S.state site.new)
            (LeavesEitherFor (sizes_of self.old) table (table_with table (writes_in txn records)) commits
            (S.state site.old).told) 1 0 }
        ensures performs { (newest : Option Master) (records : List Entry) (table : List Content) (commits : ℕ)
            → Represents self.old (S.state site.old) newest records table commits
            → PerformsStore result commits_work self.old self.new (S.state site.old) (S.state site.new) }

        // Of every site.
        ensures works { KeepsInvariant result self.old self.new (S.state site.old) (S.state site.new) 1 }
        ensures rises { IfOk result (λ lsn. (end_of self.old.log ≤ lsn) × (lsn < end_of self.new.log)) }
        ensures reads { SameReads (S.state site.old) (S.state site.new) }
        ensures asks { StepsMachine result ([]) self.old.pages self.new.pages
            (S.state site.old) (S.state site.new) }
        ensures stops { IfErr result (λ stop. (stop ≡ Stop.Device Dev.Log) ⊎ (stop ≡ Stop.Worn Dev.Log)) }
    {
        let lsn = match self.log_commit(site, txn, number) {
            Ok(lsn) => lsn,
            Err(stop) => return Err(stop),
        };
        match self.seal(site) {
            Ok(()) => Ok(lsn),
            Err(stop) => Err(stop),
        }
    }
}
