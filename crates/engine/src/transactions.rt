// Sessions' transactions begin, are committed and are undone.
ghost use Rattle.std.specs.Prelude.{Option, map, reverse, ◌≡◌, ◌⊎◌, ◌+◌, ◌<◌, ◌≤◌, ℕ, List, [], ◌∷◌, ◌++◌, true};
ghost use Rattle.std.specs.Prelude.{Some, None, IfSome, IfNone, IfOk, IfErr, OnOk, OnErr};
ghost use Rattle.site.specs.declared.outside.Dev.{Dev};
ghost use Rattle.site.specs.declared.outside.Stop.{Stop};
ghost use Rattle.site.specs.State.{State as Site};
ghost use Rattle.record_model.specs.declared.words.Command.{Command};
ghost use Rattle.record_model.specs.declared.words.Why.{Why};
ghost use Rattle.record_model.specs.declared.words.Reply.{Reply};
ghost use Rattle.record_model.specs.State.{State, Content, table_with, writes_of, session_at};
ghost use Rattle.record_model.specs.Step.{effect};
ghost use Rattle.log_records.specs.declared.log_record.LogRecord.{LogRecord};
ghost use Rattle.log_records.specs.Log.{Entry};
ghost use Rattle.log_laws.specs.Follow.{writes_in};
ghost use Rattle.txn_table.specs.Entries.{entry_of, owed};
ghost use Rattle.log_store.specs.Representation.{end_of};
ghost use Rattle.image_meaning.specs.Moments as moments;
ghost use Rattle.redo_laws.specs.Committing.{MayCommit};
ghost use Rattle.redo_undo.specs.Mirroring.{PerformsStore};
ghost use Rattle.ring_machine.specs.Commands.{begins, command_work, undoes};
ghost use Rattle.ring_machine.specs.Commands.{commits as commits_work};
ghost use Rattle.engine.specs.Invariant.{Invariant, sizes_of};
ghost use Rattle.engine.specs.Permits.{MayBegin};
ghost use Rattle.redo_undo.specs.Stores.{MayLog};
ghost use Rattle.redo_undo.specs.Stores.{Represents};
ghost use Rattle.engine.specs.Representation.{Matches, run, Refuses, Passes};
ghost use Rattle.engine.specs.Leaves.{LeavesTable, LeavesEither};
ghost use Rattle.record_model.specs.Touches.{command_touches, write_touch};
ghost use Rattle.redo_laws.specs.MachineSteps.{StepsMachine};
ghost use Rattle.checkpoint.specs.declared.master.Master.{Master};
ghost use Rattle.engine.specs.Calls.{KeepsEngine, KeepsUnread, CommandEffect, CommandContract};
ghost use Rattle.engine.specs.Numbers.{checkpoints_by};
ghost use Rattle.engine.specs.LogReads.{undo_reads};
ghost use Rattle.redo_undo.specs.StoreCalls.{KeepsInvariant, Keeps};

use crate::engine::{Engine, SESSIONS};
use crate::sessions;
use record_model::{Reply, Why};
use site::{Site, Stop};
use txn_table::Active;

impl Engine {
    // Why a test refuses a session's begin, if one does.
    fn begin_refusal(&self, session: u32) -> Option<Reply>
        ensures refused { IfSome result (λ reply. Refuses self.now (Command.Begin session) reply) }
        ensures passes { IfNone result (Passes self.now (Command.Begin session)) }
        ensures small { IfNone result (session < 8) }
        ensures absent { IfNone result (entry_of self.now.active session ≡ None) }
    {
        if session >= SESSIONS {
            return Some(Reply::Refused(Why::BadSession));
        }
        if self.active.find(session).is_some() {
            return Some(Reply::Refused(Why::BadSession));
        }
        None
    }

    /// A session begins. Where no test refuses it, a checkpoint comes first if one is due, and then the log's room is
    /// looked at.
    pub fn begin<S: Site>(&mut self, site: &mut S, session: u32) -> Result<Reply, Stop>
        requires going { Invariant self.old (S.state site.old) }

        // Of an honest site that the database fits.
        ensures answers { (s : State) → Matches self.old (S.state site.old) s
            → CommandContract result self.old self.new (S.state site.old) (S.state site.new) s
            (run s (Command.Begin session))
            (command_touches s (Command.Begin session))
            (LeavesTable (sizes_of self.old.store) s.table s.commits (S.state site.old).told)
            (checkpoints_by s (Command.Begin session)) }
        ensures performs { (s : State) → Matches self.old (S.state site.old) s
            → PerformsStore result (command_work s (Command.Begin session))
            self.old.store self.new.store (S.state site.old) (S.state site.new) }

        // Of every site.
        ensures serves { KeepsUnread result self.old self.new (S.state site.old) (S.state site.new) }
        ensures ended { OnErr result (self.new.ended ≡ true) }
    {
        if let Some(refused) = self.begin_refusal(session) {
            return Ok(refused);
        }
        let due = self.is_due();
        match self.checkpoint_if(site, due) {
            Ok(()) => {}
            Err(stop) => return Err(stop),
        }
        if let Some(full) = self.full(2) {
            return Ok(full);
        }
        match self.carry_out_begin(site, session) {
            Ok(reply) => Ok(reply),
            Err(stop) => {
                self.ended = true;
                Err(stop)
            }
        }
    }

    // A session that may begins.
    fn carry_out_begin<S: Site>(&mut self, site: &mut S, session: u32) -> Result<Reply, Stop>
        requires going { Invariant self.old (S.state site.old) }
        requires may { MayBegin self.old session }

        // Of an honest site that the database fits.
        ensures done { IfOk result (λ reply. reply ≡ Reply.Done) }
        ensures does { (s : State) → Matches self.old (S.state site.old) s
            → CommandEffect result self.old self.new (S.state site.old) (S.state site.new) s
            (effect s (Command.Begin session))
            (LeavesTable (sizes_of self.old.store) s.table s.commits (S.state site.old).told) 0 }
        ensures performs { (s : State) → Matches self.old (S.state site.old) s
            → PerformsStore result begins self.old.store self.new.store (S.state site.old) (S.state site.new) }

        // Of every site.
        ensures serves { KeepsUnread result self.old self.new (S.state site.old) (S.state site.new) }
        ensures asks { StepsMachine result ([]) self.old.store.pages self.new.store.pages
            (S.state site.old) (S.state site.new) }
        ensures stops { IfErr result (λ stop. (stop ≡ Stop.Device Dev.Log) ⊎ (stop ≡ Stop.Worn Dev.Log)) }
    {
        let born = self.store.made;
        let begin = match self.store.begin(site) {
            Ok(begin) => begin,
            Err(stop) => return Err(stop),
        };
        sessions::add(
            &mut self.active,
            Active {
                session,
                begin,
                last: begin,
                born,
                writes: 0,
                mark: 0,
            },
        );
        Ok(Reply::Done)
    }

    /// Commits a transaction.
    pub(crate) fn seal_commit<S: Site>(&mut self, site: &mut S, txn: u64) -> Result<Reply, Stop>
        requires may { MayLog self.old.store (S.state site.old) }
        requires commits { self.old.commits ≤ end_of self.old.store.log }

        // Of an honest site whose log and pages hold these records.
        ensures holds { (newest : Option Master) (records : List Entry) (table : List Content) (commits : ℕ)
            → Represents self.old.store (S.state site.old) newest records table commits
            → MayCommit newest records txn (self.old.commits + 1) commits
            → OnOk result ((lsn : ℕ) × Represents self.new.store (S.state site.new) newest
            (records ++ record { lsn = lsn; rec = LogRecord.Commit txn (self.old.commits + 1) } ∷ [])
            (table_with table (writes_in txn records)) (commits + 1)) }
        ensures keeps { (newest : Option Master) (records : List Entry) (table : List Content) (commits : ℕ)
            → Represents self.old.store (S.state site.old) newest records table commits
            → MayCommit newest records txn (self.old.commits + 1) commits
            → Keeps result self.old.store self.new.store (S.state site.old) (S.state site.new)
            (moments.LeavesEitherFor (sizes_of self.old.store) table (table_with table (writes_in txn records)) commits
            (S.state site.old).told) 1 0 }
        ensures performs { (newest : Option Master) (records : List Entry) (table : List Content) (commits : ℕ)
            → Represents self.old.store (S.state site.old) newest records table commits
            → PerformsStore result commits_work self.old.store self.new.store (S.state site.old) (S.state site.new) }

        // Of every site.
        ensures works { KeepsInvariant result self.old.store self.new.store (S.state site.old) (S.state site.new) 1 }
        ensures log_reads { (S.state site.new).log_reads ≡ (S.state site.old).log_reads }
        ensures reply { IfOk result (λ reply. reply ≡ Reply.Committed (self.old.commits + 1)) }
        ensures rest { self.new ≡ record self.old { store = self.new.store; commits = self.new.commits } }
        ensures commits { OnOk result (self.new.commits ≡ self.old.commits + 1) }
        ensures rises { OnOk result (end_of self.old.store.log < end_of self.new.store.log) }
        ensures asks { StepsMachine result ([]) self.old.store.pages self.new.store.pages
            (S.state site.old) (S.state site.new) }
        ensures stops { IfErr result (λ stop. (stop ≡ Stop.Device Dev.Log) ⊎ (stop ≡ Stop.Worn Dev.Log)) }
    {
        let number = self.commits + 1;
        match self.store.commit(site, txn, number) {
            Ok(_) => {
                self.commits = number;
                Ok(Reply::Committed(number))
            }
            Err(stop) => Err(stop),
        }
    }

    // Commits a session's transaction, and ends the session.
    fn carry_out_commit<S: Site>(&mut self, site: &mut S, entry: Active) -> Result<Reply, Stop>
        requires going { Invariant self.old (S.state site.old) }
        requires active { entry_of self.old.active entry.session ≡ Some entry }

        // Of an honest site that the database fits.
        ensures done { (s : State) → Matches self.old (S.state site.old) s
            → IfOk result (λ reply. reply ≡ Reply.Committed (s.commits + 1)) }
        ensures does { (s : State) → Matches self.old (S.state site.old) s
            → CommandEffect result self.old self.new (S.state site.old) (S.state site.new) s
            (effect s (Command.Commit entry.session))
            (LeavesEither (sizes_of self.old.store) s (effect s (Command.Commit entry.session))
            (S.state site.old).told) 0 }
        ensures performs { (s : State) → Matches self.old (S.state site.old) s
            → PerformsStore result commits_work self.old.store self.new.store (S.state site.old) (S.state site.new) }

        // Of every site.
        ensures serves { KeepsUnread result self.old self.new (S.state site.old) (S.state site.new) }
        ensures asks { StepsMachine result ([]) self.old.store.pages self.new.store.pages
            (S.state site.old) (S.state site.new) }
        ensures stops { IfErr result (λ stop. (stop ≡ Stop.Device Dev.Log) ⊎ (stop ≡ Stop.Worn Dev.Log)) }
    {
        match self.seal_commit(site, entry.begin) {
            Ok(reply) => {
                self.locks.release(entry.session);
                self.footprints.end(entry.session);
                sessions::remove(&mut self.active, entry);
                Ok(reply)
            }
            Err(stop) => Err(stop),
        }
    }

    /// A session's writes enter the table, and it ends.
    pub fn commit<S: Site>(&mut self, site: &mut S, session: u32) -> Result<Reply, Stop>
        requires going { Invariant self.old (S.state site.old) }

        // Of an honest site that the database fits.
        ensures answers { (s : State) → Matches self.old (S.state site.old) s
            → CommandContract result self.old self.new (S.state site.old) (S.state site.new) s
            (run s (Command.Commit session))
            (command_touches s (Command.Commit session))
            (LeavesEither (sizes_of self.old.store) s (run s (Command.Commit session)).after (S.state site.old).told)
            (checkpoints_by s (Command.Commit session)) }
        ensures performs { (s : State) → Matches self.old (S.state site.old) s
            → PerformsStore result (command_work s (Command.Commit session))
            self.old.store self.new.store (S.state site.old) (S.state site.new) }

        // Of every site.
        ensures serves { KeepsUnread result self.old self.new (S.state site.old) (S.state site.new) }
        ensures ended { OnErr result (self.new.ended ≡ true) }
        ensures stops { IfErr result (λ stop. (stop ≡ Stop.Device Dev.Log) ⊎ (stop ≡ Stop.Worn Dev.Log)) }
    {
        let Some(entry) = self.active.find(session) else {
            return Ok(Reply::Refused(Why::BadSession));
        };
        match self.carry_out_commit(site, entry) {
            Ok(reply) => Ok(reply),
            Err(stop) => {
                self.ended = true;
                Err(stop)
            }
        }
    }

    // Undoes a session's transaction, and ends the session.
    fn carry_out_abort<S: Site>(&mut self, site: &mut S, entry: Active) -> Result<Reply, Stop>
        requires going { Invariant self.old (S.state site.old) }
        requires active { entry_of self.old.active entry.session ≡ Some entry }

        // Of an honest site that the database fits.
        ensures done { IfOk result (λ reply. reply ≡ Reply.Aborted) }
        ensures does { (s : State) → Matches self.old (S.state site.old) s
            → CommandEffect result self.old self.new (S.state site.old) (S.state site.new) s
            (effect s (Command.Abort entry.session))
            (LeavesTable (sizes_of self.old.store) s.table s.commits (S.state site.old).told) 0 }
        ensures asks { (s : State) → Matches self.old (S.state site.old) s
            → StepsMachine result
            (map (λ write. write_touch write.0) (reverse (writes_of (session_at s entry.session))))
            self.old.store.pages self.new.store.pages (S.state site.old) (S.state site.new) }
        ensures log_reads { (s : State) → Matches self.old (S.state site.old) s
            → (S.state site.new).log_reads ≤ (S.state site.old).log_reads + undo_reads (session_at s entry.session) }
        ensures performs { (s : State) → Matches self.old (S.state site.old) s
            → PerformsStore result (undoes s.table (writes_of (session_at s entry.session))) self.old.store
            self.new.store (S.state site.old) (S.state site.new) }

        // Of every site.
        ensures serves { KeepsEngine result self.old self.new (S.state site.old) (S.state site.new) }
    {
        let owed = self.active.owed() - (entry.writes + 1);
        match self.store.roll_back(site, entry, owed) {
            Ok(()) => {
                self.locks.release(entry.session);
                self.footprints.end(entry.session);
                sessions::remove(&mut self.active, entry);
                Ok(Reply::Aborted)
            }
            Err(stop) => Err(stop),
        }
    }

    /// A session's writes are dropped, and it ends.
    pub fn abort<S: Site>(&mut self, site: &mut S, session: u32) -> Result<Reply, Stop>
        requires going { Invariant self.old (S.state site.old) }

        // Of an honest site that the database fits.
        ensures answers { (s : State) → Matches self.old (S.state site.old) s
            → CommandContract result self.old self.new (S.state site.old) (S.state site.new) s
            (run s (Command.Abort session))
            (command_touches s (Command.Abort session))
            (LeavesTable (sizes_of self.old.store) s.table s.commits (S.state site.old).told)
            (checkpoints_by s (Command.Abort session)) }
        ensures log_reads { (s : State) → Matches self.old (S.state site.old) s
            → (S.state site.new).log_reads ≤ (S.state site.old).log_reads + undo_reads (session_at s session) }
        ensures performs { (s : State) → Matches self.old (S.state site.old) s
            → PerformsStore result (command_work s (Command.Abort session)) self.old.store self.new.store
            (S.state site.old) (S.state site.new) }

        // Of every site.
        ensures serves { KeepsEngine result self.old self.new (S.state site.old) (S.state site.new) }
        ensures ended { OnErr result (self.new.ended ≡ true) }
    {
        let Some(entry) = self.active.find(session) else {
            return Ok(Reply::Refused(Why::BadSession));
        };
        match self.carry_out_abort(site, entry) {
            Ok(reply) => Ok(reply),
            Err(stop) => {
                self.ended = true;
                Err(stop)
            }
        }
    }
}
