// A transaction of one write, outside sessions.
ghost use Rattle.std.specs.Prelude.{Option, ◌≡◌, ◌*◌, ◌<◌, ◌≤◌, length, true, None, IfSome, IfNone, OnErr};
ghost use Rattle.site.specs.declared.outside.Stop.{Stop};
ghost use Rattle.site.specs.State.{State as Site};
ghost use Rattle.record_model.specs.declared.words.Command.{Command};
ghost use Rattle.record_model.specs.declared.words.Why.{Why};
ghost use Rattle.record_model.specs.declared.words.Reply.{Reply};
ghost use Rattle.record_model.specs.State.{State};
ghost use Rattle.ring_machine.specs.Commands.{command_work};
ghost use Rattle.redo_undo.specs.Mirroring.{PerformsStore};
ghost use Rattle.byte_fields.specs.declared.TheConstants.{VALUE_MAX};
ghost use Rattle.record_model.specs.Step.{wants_page_room};
ghost use Rattle.engine.specs.Invariant.{Invariant, sizes_of};
ghost use Rattle.lock_table.specs.Locks.{busy_write};
ghost use Rattle.engine.specs.PageTests.{tested, touches_by, work_by};
ghost use Rattle.engine.specs.Permits.{MayWrite};
ghost use Rattle.engine.specs.Representation.{Matches, run, Refuses, Passes};
ghost use Rattle.engine.specs.Leaves.{LeavesEither};
ghost use Rattle.record_model.specs.Touches.{command_touches};
ghost use Rattle.engine.specs.Calls.{KeepsUnread, CommandContract};
ghost use Rattle.engine.specs.Numbers.{checkpoints_by};

use crate::engine::Engine;
use crate::values::{is_long, value_of};
use record_model::{Octets, Reply, Why};
use site::{Site, Stop};

impl Engine {
    // Logs a transaction that sets one record, and commits it, where the record's page has room.
    fn carry_out_set<S: Site>(
        &mut self,
        site: &mut S,
        number: u32,
        value: &Octets,
    ) -> Result<Reply, Stop>
        requires going { Invariant self.old (S.state site.old) }
        requires short { length value.now ≤ VALUE_MAX }
        requires may { MayWrite self.old None number 4 }

        // Of an honest site that the database fits.
        ensures answers { (s : State) → Matches self.old (S.state site.old) s
            → CommandContract result self.old self.new (S.state site.old) (S.state site.new) s
            (tested s (Command.Set number value.now) (wants_page_room s number value.now))
            (touches_by s (Command.Set number value.now) (wants_page_room s number value.now))
            (LeavesEither (sizes_of self.old.store) s
            (tested s (Command.Set number value.now) (wants_page_room s number value.now)).after
            (S.state site.old).told) 0 }
        ensures performs { (s : State) → Matches self.old (S.state site.old) s
            → PerformsStore result
            (work_by s (Command.Set number value.now) (wants_page_room s number value.now))
            self.old.store self.new.store (S.state site.old) (S.state site.new) }

        // Of every site.
        ensures serves { KeepsUnread result self.old self.new (S.state site.old) (S.state site.new) }
    {
        let after = value_of(value);
        match self.store.touch(site, number) {
            Ok(()) => {}
            Err(stop) => return Err(stop),
        }
        let refused = match self.test_page(number, &after) {
            Ok(refused) => refused,
            Err(stop) => return Err(stop),
        };
        if let Some(full) = refused {
            return Ok(full);
        }
        let txn = match self.store.begin(site) {
            Ok(txn) => txn,
            Err(stop) => return Err(stop),
        };
        match self.store.update(site, txn, txn, number, &after) {
            Ok(_) => {}
            Err(stop) => return Err(stop),
        }
        match self.seal_commit(site, txn) {
            Ok(reply) => Ok(reply),
            Err(stop) => Err(stop),
        }
    }

    // Why a test refuses to set a record, if one does.
    fn set_refusal(&self, number: u32, value: &Octets) -> Option<Reply>
        requires going { (site : Site) × Invariant self.now site }
        ensures refused { IfSome result (λ reply. Refuses self.now (Command.Set number value.now) reply) }
        ensures passes { IfNone result (Passes self.now (Command.Set number value.now)) }
        ensures short { IfNone result (length value.now ≤ VALUE_MAX) }
        ensures there { IfNone result (number < 32 * (sizes_of self.now.store).pages) }
        ensures free { IfNone result (busy_write self.now.locks None number ≡ None) }
    {
        if self.store.lacks(number) {
            return Some(Reply::Refused(Why::NoRecord));
        }
        if is_long(value) {
            return Some(Reply::Refused(Why::TooLong));
        }
        if let Some(busy) = self.write_busy(None, number) {
            return Some(busy);
        }
        None
    }

    /// Sets a record: a transaction of one write, outside sessions. Where no test refuses it, a checkpoint comes first
    /// if one is due, and then the log's room is looked at.
    pub fn set<S: Site>(&mut self, site: &mut S, number: u32, value: &Octets) -> Result<Reply, Stop>
        requires going { Invariant self.old (S.state site.old) }

        // Of an honest site that the database fits.
        ensures answers { (s : State) → Matches self.old (S.state site.old) s
            → CommandContract result self.old self.new (S.state site.old) (S.state site.new) s
            (run s (Command.Set number value.now))
            (command_touches s (Command.Set number value.now))
            (LeavesEither (sizes_of self.old.store) s (run s (Command.Set number value.now)).after
            (S.state site.old).told) (checkpoints_by s (Command.Set number value.now)) }
        ensures performs { (s : State) → Matches self.old (S.state site.old) s
            → PerformsStore result (command_work s (Command.Set number value.now))
            self.old.store self.new.store (S.state site.old) (S.state site.new) }

        // Of every site.
        ensures serves { KeepsUnread result self.old self.new (S.state site.old) (S.state site.new) }
        ensures ended { OnErr result (self.new.ended ≡ true) }
    {
        if let Some(refused) = self.set_refusal(number, value) {
            return Ok(refused);
        }
        let due = self.is_due();
        match self.checkpoint_if(site, due) {
            Ok(()) => {}
            Err(stop) => return Err(stop),
        }
        if let Some(full) = self.full(4) {
            return Ok(full);
        }
        match self.carry_out_set(site, number, value) {
            Ok(reply) => Ok(reply),
            Err(stop) => {
                self.ended = true;
                Err(stop)
            }
        }
    }
}
