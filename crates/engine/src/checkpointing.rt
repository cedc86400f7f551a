// Checkpoints.
ghost use Rattle.std.specs.Prelude.{◌≡◌, ℕ, if◌then◌else◌, [], true, None, OnErr};
ghost use Rattle.site.specs.declared.outside.Stop.{Stop};
ghost use Rattle.site.specs.State.{State as Site};
ghost use Rattle.record_model.specs.declared.words.Command.{Command};
ghost use Rattle.record_model.specs.declared.words.Reply.{Reply};
ghost use Rattle.record_model.specs.State.{State};
ghost use Rattle.ring_machine.specs.Commands.{saves, command_work};
ghost use Rattle.redo_undo.specs.Mirroring.{PerformsStore};
ghost use Rattle.txn_table.specs.Entries.{entry_of};
ghost use Rattle.engine.specs.Invariant.{Invariant, sizes_of};
ghost use Rattle.engine.specs.Representation.{Matches, run, checkpointed_if};
ghost use Rattle.engine.specs.Leaves.{LeavesTable};
ghost use Rattle.record_model.specs.Touches.{command_touches};
ghost use Rattle.redo_laws.specs.MachineSteps.{StepsMachine, checkpoint_works};
ghost use Rattle.engine.specs.Calls.{KeepsUnread, CommandEffect, CommandContract};
ghost use Rattle.engine.specs.Numbers.{checkpoints_by};

use crate::engine::Engine;
use crate::sessions;
use record_model::Reply;
use site::{Site, Stop};

impl Engine {
    // Makes a checkpoint: the active sessions' transactions are named, and the records that none of them needs count no
    // more.
    fn carry_out_checkpoint<S: Site>(&mut self, site: &mut S) -> Result<(), Stop>
        requires going { Invariant self.old (S.state site.old) }

        // Of an honest site that the database fits.
        ensures does { (s : State) → Matches self.old (S.state site.old) s
            → CommandEffect result self.old self.new (S.state site.old) (S.state site.new) s (checkpointed_if true s)
            (LeavesTable (sizes_of self.old.store) s.table s.commits (S.state site.old).told) 1 }
        ensures performs { (s : State) → Matches self.old (S.state site.old) s
            → PerformsStore result saves self.old.store self.new.store (S.state site.old) (S.state site.new) }

        // Of every site.
        ensures locks { self.new.locks ≡ self.old.locks }
        ensures absent { (n : ℕ) → entry_of self.old.active n ≡ None → entry_of self.new.active n ≡ None }
        ensures serves { KeepsUnread result self.old self.new (S.state site.old) (S.state site.new) }
        ensures asks { StepsMachine result checkpoint_works self.old.store.pages self.new.store.pages
            (S.state site.old) (S.state site.new) }
    {
        let first = self.active.oldest_born().unwrap_or(self.store.made);
        let named = sessions::named(&self.active);
        match self.store.checkpoint(site, named, self.commits, first) {
            Ok(()) => {
                sessions::count_from(&mut self.active, first);
                Ok(())
            }
            Err(stop) => Err(stop),
        }
    }

    /// Makes a checkpoint where one is wanted.
    pub(crate) fn checkpoint_if<S: Site>(&mut self, site: &mut S, wanted: bool) -> Result<(), Stop>
        requires going { Invariant self.old (S.state site.old) }

        // Of an honest site that the database fits.
        ensures does { (s : State) → Matches self.old (S.state site.old) s
            → CommandEffect result self.old self.new (S.state site.old) (S.state site.new) s (checkpointed_if wanted s)
            (LeavesTable (sizes_of self.old.store) s.table s.commits (S.state site.old).told)
            (if wanted then 1 else 0) }
        ensures performs { (s : State) → Matches self.old (S.state site.old) s
            → PerformsStore result (if wanted then saves else [])
            self.old.store self.new.store (S.state site.old) (S.state site.new) }

        // Of every site.
        ensures locks { self.new.locks ≡ self.old.locks }
        ensures absent { (n : ℕ) → entry_of self.old.active n ≡ None → entry_of self.new.active n ≡ None }
        ensures serves { KeepsUnread result self.old self.new (S.state site.old) (S.state site.new) }
        ensures ended { OnErr result (self.new.ended ≡ true) }
        ensures asks { StepsMachine result (if wanted then checkpoint_works else []) self.old.store.pages
            self.new.store.pages (S.state site.old) (S.state site.new) }
    {
        if !wanted {
            return Ok(());
        }
        match self.carry_out_checkpoint(site) {
            Ok(()) => Ok(()),
            Err(stop) => {
                self.ended = true;
                Err(stop)
            }
        }
    }

    /// A checkpoint: what is unsealed in the log is sealed, all changed pages are flushed to flash and none to disk,
    /// and a master is saved that names the active sessions' transactions. Then the log may write over the blocks that
    /// none of them needs.
    pub fn checkpoint<S: Site>(&mut self, site: &mut S) -> Result<Reply, Stop>
        requires going { Invariant self.old (S.state site.old) }

        // Of an honest site that the database fits.
        ensures answers { (s : State) → Matches self.old (S.state site.old) s
            → CommandContract result self.old self.new (S.state site.old) (S.state site.new) s
            (run s Command.Checkpoint)
            (command_touches s Command.Checkpoint)
            (LeavesTable (sizes_of self.old.store) s.table s.commits (S.state site.old).told)
            (checkpoints_by s Command.Checkpoint) }
        ensures performs { (s : State) → Matches self.old (S.state site.old) s
            → PerformsStore result (command_work s Command.Checkpoint)
            self.old.store self.new.store (S.state site.old) (S.state site.new) }

        // Of every site.
        ensures serves { KeepsUnread result self.old self.new (S.state site.old) (S.state site.new) }
        ensures ended { OnErr result (self.new.ended ≡ true) }
    {
        match self.checkpoint_if(site, true) {
            Ok(()) => Ok(Reply::Checked),
            Err(stop) => Err(stop),
        }
    }
}
