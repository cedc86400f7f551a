// Sessions set marks, and go back.
ghost use Rattle.std.specs.Prelude.{Option, ◌≡◌, ◌-◌, ◌+◌, ◌≤◌, Some, IsSome, IfSome, IfNone, IfOk, OnErr, true};
ghost use Rattle.std.specs.Prelude.{unwrap_or};
ghost use Rattle.site.specs.State.{State as Site};
ghost use Rattle.record_model.specs.declared.words.Command.{Command};
ghost use Rattle.record_model.specs.declared.words.Reply.{Reply};
ghost use Rattle.record_model.specs.State.{State, session_at};
ghost use Rattle.record_model.specs.Step.{effect};
ghost use Rattle.record_model.specs.Touches.{command_touches, record_touches};
ghost use Rattle.ring_machine.specs.Commands.{command_work, record_work};
ghost use Rattle.redo_undo.specs.Mirroring.{PerformsStore};
ghost use Rattle.redo_laws.specs.MachineSteps.{StepsMachine};
ghost use Rattle.txn_table.specs.declared.active.Active.{Active};
ghost use Rattle.txn_table.specs.Entries.{entry_of};
ghost use Rattle.engine.specs.Invariant.{Invariant, sizes_of};
ghost use Rattle.engine.specs.Representation.{Matches, run, Refuses, Accepts};
ghost use Rattle.engine.specs.Leaves.{LeavesTable};
ghost use Rattle.engine.specs.LogReads.{back_reads};
ghost use Rattle.engine.specs.Calls.{KeepsEngine, CommandEffect, CommandContract};
ghost use Rattle.engine.specs.Numbers.{checkpoints_by};

use crate::engine::Engine;
use crate::room::take_back;
use crate::sessions;
use record_model::{Reply, Why};
use site::{Site, Stop};
use txn_table::Active;

// How many of a session's writes are to stay where it goes back: so many, or those in front of its mark.
fn stays(entry: Active, standing: Option<u32>) -> u64
    ensures { result ≡ unwrap_or standing entry.mark }
{
    match standing {
        Some(standing) => standing as u64,
        None => entry.mark,
    }
}

impl Engine {
    /// A session's mark is set behind its writes that stand: `back` goes back to it. It takes no memory, and asks
    /// nothing of the site.
    pub fn mark(&mut self, session: u32) -> Reply
        // Of an honest site that the database fits.
        ensures answers { (s : State) (site : Site) → Matches self.old site s
            → (result ≡ (run s (Command.Mark session)).reply)
            × Matches self.new site (run s (Command.Mark session)).after }

        // Of every site.
        ensures going { (site : Site) → Invariant self.old site → Invariant self.new site }
        ensures store { self.new.store ≡ self.old.store }
    {
        let Some(entry) = self.active.find(session) else {
            return Reply::Refused(Why::BadSession);
        };
        sessions::mark(&mut self.active, entry);
        Reply::Done
    }

    // Why a session can't go back, if it can't.
    fn back_refusal(&self, session: u32, standing: Option<u32>) -> Option<Reply>
        ensures refused { IfSome result (λ reply. Refuses self.now (Command.Back session standing) reply) }
        ensures accepted { IfNone result (Accepts self.now (Command.Back session standing)) }
        ensures active { IfNone result (IsSome (entry_of self.now.active session)) }
        ensures stand { IfNone result ((entry : Active) → entry_of self.now.active session ≡ Some entry
            → unwrap_or standing entry.mark ≤ entry.writes) }
    {
        let Some(entry) = self.active.find(session) else {
            return Some(Reply::Refused(Why::BadSession));
        };
        if entry.writes < stays(entry, standing) {
            return Some(Reply::Refused(Why::BadMark));
        }
        None
    }

    // Undoes a session's writes but for the first ones, so many. All its locks stay.
    fn carry_out_back<S: Site>(
        &mut self,
        site: &mut S,
        entry: Active,
        stays: u64,
    ) -> Result<Reply, Stop>
        requires going { Invariant self.old (S.state site.old) }
        requires active { entry_of self.old.active entry.session ≡ Some entry }
        requires stand { stays ≤ entry.writes }

        // Of an honest site that the database fits.
        ensures done { IfOk result (λ reply. reply ≡ Reply.Back (entry.writes - stays)) }
        ensures does { (s : State) → Matches self.old (S.state site.old) s
            → CommandEffect result self.old self.new (S.state site.old) (S.state site.new) s
            (effect s (Command.Back entry.session (Some stays)))
            (LeavesTable (sizes_of self.old.store) s.table s.commits (S.state site.old).told) 0 }
        ensures asks { (s : State) → Matches self.old (S.state site.old) s
            → StepsMachine result (record_touches s (Command.Back entry.session (Some stays)))
            self.old.store.pages self.new.store.pages (S.state site.old) (S.state site.new) }
        ensures log_reads { (s : State) → Matches self.old (S.state site.old) s
            → (S.state site.new).log_reads
            ≤ (S.state site.old).log_reads + back_reads (Some stays) (session_at s entry.session) }
        ensures performs { (s : State) → Matches self.old (S.state site.old) s
            → PerformsStore result (record_work s (Command.Back entry.session (Some stays)))
            self.old.store self.new.store (S.state site.old) (S.state site.new) }

        // Of every site.
        ensures serves { KeepsEngine result self.old self.new (S.state site.old) (S.state site.new) }
    {
        let count = entry.writes - stays;
        match self.store.back(site, entry, count) {
            Ok(last) => {
                take_back(&mut self.footprints, entry.session, count);
                sessions::undone(&mut self.active, entry, count, last);
                Ok(Reply::Back(count))
            }
            Err(stop) => Err(stop),
        }
    }

    /// A session's writes are dropped, the last one first, but for those in front of its mark, or but for the first
    /// `standing` ones. The session goes on, and keeps all its locks.
    pub fn back<S: Site>(
        &mut self,
        site: &mut S,
        session: u32,
        standing: Option<u32>,
    ) -> Result<Reply, Stop>
        requires going { Invariant self.old (S.state site.old) }

        // Of an honest site that the database fits.
        ensures answers { (s : State) → Matches self.old (S.state site.old) s
            → CommandContract result self.old self.new (S.state site.old) (S.state site.new) s
            (run s (Command.Back session standing))
            (command_touches s (Command.Back session standing))
            (LeavesTable (sizes_of self.old.store) s.table s.commits (S.state site.old).told)
            (checkpoints_by s (Command.Back session standing)) }
        ensures log_reads { (s : State) → Matches self.old (S.state site.old) s
            → (S.state site.new).log_reads
            ≤ (S.state site.old).log_reads + back_reads standing (session_at s session) }
        ensures performs { (s : State) → Matches self.old (S.state site.old) s
            → PerformsStore result (command_work s (Command.Back session standing)) self.old.store self.new.store
            (S.state site.old) (S.state site.new) }

        // Of every site.
        ensures serves { KeepsEngine result self.old self.new (S.state site.old) (S.state site.new) }
        ensures ended { OnErr result (self.new.ended ≡ true) }
    {
        if let Some(refused) = self.back_refusal(session, standing) {
            return Ok(refused);
        }
        let entry = self.entry(session);
        match self.carry_out_back(site, entry, stays(entry, standing)) {
            Ok(reply) => Ok(reply),
            Err(stop) => {
                self.ended = true;
                Err(stop)
            }
        }
    }
}
