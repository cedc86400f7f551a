// A session's writes.
ghost use Rattle.std.specs.Prelude.{Option, ◌≡◌, ◌<◌, ◌≤◌, length, true, Some, None, IsSome, IfSome, IfNone};
ghost use Rattle.std.specs.Prelude.{OnErr};
ghost use Rattle.site.specs.declared.outside.Stop.{Stop};
ghost use Rattle.site.specs.State.{State as Site};
ghost use Rattle.record_model.specs.declared.words.Command.{Command};
ghost use Rattle.record_model.specs.declared.words.Why.{Why};
ghost use Rattle.record_model.specs.declared.words.Reply.{Reply};
ghost use Rattle.record_model.specs.State.{State};
ghost use Rattle.ring_machine.specs.Commands.{command_work};
ghost use Rattle.byte_fields.specs.declared.TheConstants.{VALUE_MAX};
ghost use Rattle.log_records.specs.Spelling.{IsShort};
ghost use Rattle.redo_undo.specs.Mirroring.{PerformsStore};
ghost use Rattle.txn_table.specs.Entries.{entry_of};
ghost use Rattle.engine.specs.Invariant.{Invariant, sizes_of};
ghost use Rattle.engine.specs.Permits.{MayWrite};
ghost use Rattle.engine.specs.PageTests.{full_for, tested, touches_by, work_by, write_by};
ghost use Rattle.engine.specs.Representation.{Matches, run, Refuses, Accepts, Tests};
ghost use Rattle.engine.specs.Leaves.{LeavesTable};
ghost use Rattle.record_model.specs.Touches.{command_touches};
ghost use Rattle.engine.specs.Calls.{KeepsUnread, CommandContract};
ghost use Rattle.engine.specs.Numbers.{checkpoints_by};

use crate::engine::Engine;
use crate::room::length_of;
use crate::sessions;
use crate::values::{is_long, value_of};
use footprints::Footprint;
use record_model::{Octets, Reply, Why};
use site::{Site, Stop};
use txn_table::Active;

impl Engine {
    // A session that may writes a record, where the record's page has room.
    fn carry_out_write<S: Site>(
        &mut self,
        site: &mut S,
        entry: Active,
        number: u32,
        after: &Option<Octets>,
    ) -> Result<Reply, Stop>
        requires going { Invariant self.old (S.state site.old) }
        requires active { entry_of self.old.active entry.session ≡ Some entry }
        requires short { IsShort after.now }
        requires may { MayWrite self.old (Some entry.session) number 2 }

        // Of an honest site that the database fits.
        ensures answers { (s : State) → Matches self.old (S.state site.old) s
            → CommandContract result self.old self.new (S.state site.old) (S.state site.new) s
            (tested s (write_by entry.session number after.now) (full_for s number after.now))
            (touches_by s (write_by entry.session number after.now) (full_for s number after.now))
            (LeavesTable (sizes_of self.old.store) s.table s.commits (S.state site.old).told) 0 }
        ensures performs { (s : State) → Matches self.old (S.state site.old) s
            → PerformsStore result
            (work_by s (write_by entry.session number after.now) (full_for s number after.now))
            self.old.store self.new.store (S.state site.old) (S.state site.new) }

        // Of every site.
        ensures serves { KeepsUnread result self.old self.new (S.state site.old) (S.state site.new) }
    {
        match self.store.touch(site, number) {
            Ok(()) => {}
            Err(stop) => return Err(stop),
        }
        let refused = match self.test_page(number, after) {
            Ok(refused) => refused,
            Err(stop) => return Err(stop),
        };
        if let Some(full) = refused {
            return Ok(full);
        }
        match self.locks.add(entry.session, number, true) {
            Ok(()) => {}
            Err(_) => return Err(Stop::Memory),
        }
        let footprint = Footprint {
            number,
            stood: self.length_in((number % 32) as u8),
            written: length_of(after),
        };
        match self.footprints.write(entry.session, footprint) {
            Ok(()) => {}
            Err(_) => return Err(Stop::Memory),
        }
        match self
            .store
            .update(site, entry.begin, entry.last, number, after)
        {
            Ok(lsn) => {
                sessions::wrote(&mut self.active, entry, lsn);
                Ok(Reply::Done)
            }
            Err(stop) => Err(stop),
        }
    }

    /// The entry of an active session.
    pub(crate) fn entry(&self, session: u32) -> Active
        requires { IsSome (entry_of self.now.active session) }
        ensures { entry_of self.now.active session ≡ Some result }
    {
        match self.active.find(session) {
            Some(entry) => entry,
            None => unreachable!(),
        }
    }

    // Why a session can't write a value, if it can't.
    fn write_refusal(&self, session: u32, number: u32, value: &Octets) -> Option<Reply>
        requires going { (site : Site) × Invariant self.now site }
        ensures refused { IfSome result (λ reply. Refuses self.now (Command.Write session number value.now) reply) }
        ensures accepted { IfNone result (Tests self.now (Command.Write session number value.now)) }
        ensures active { IfNone result (IsSome (entry_of self.now.active session)) }
        ensures may { IfNone result (MayWrite self.now (Some session) number 2) }
        ensures short { IfNone result (length value.now ≤ VALUE_MAX) }
    {
        if self.active.find(session).is_none() {
            return Some(Reply::Refused(Why::BadSession));
        }
        if self.store.lacks(number) {
            return Some(Reply::Refused(Why::NoRecord));
        }
        if is_long(value) {
            return Some(Reply::Refused(Why::TooLong));
        }
        if let Some(busy) = self.write_busy(Some(session), number) {
            return Some(busy);
        }
        if let Some(full) = self.full(2) {
            return Some(full);
        }
        None
    }

    /// A session writes a value. Nobody else sees it before the session commits.
    pub fn write<S: Site>(
        &mut self,
        site: &mut S,
        session: u32,
        number: u32,
        value: &Octets,
    ) -> Result<Reply, Stop>
        requires going { Invariant self.old (S.state site.old) }

        // Of an honest site that the database fits.
        ensures answers { (s : State) → Matches self.old (S.state site.old) s
            → CommandContract result self.old self.new (S.state site.old) (S.state site.new) s
            (run s (Command.Write session number value.now))
            (command_touches s (Command.Write session number value.now))
            (LeavesTable (sizes_of self.old.store) s.table s.commits (S.state site.old).told)
            (checkpoints_by s (Command.Write session number value.now)) }
        ensures performs { (s : State) → Matches self.old (S.state site.old) s
            → PerformsStore result (command_work s (Command.Write session number value.now))
            self.old.store self.new.store (S.state site.old) (S.state site.new) }

        // Of every site.
        ensures serves { KeepsUnread result self.old self.new (S.state site.old) (S.state site.new) }
        ensures ended { OnErr result (self.new.ended ≡ true) }
    {
        if let Some(refused) = self.write_refusal(session, number, value) {
            return Ok(refused);
        }
        let entry = self.entry(session);
        let after = value_of(value);
        match self.carry_out_write(site, entry, number, &after) {
            Ok(reply) => Ok(reply),
            Err(stop) => {
                self.ended = true;
                Err(stop)
            }
        }
    }

    // Why a session can't take a value away, if it can't.
    fn erase_refusal(&self, session: u32, number: u32) -> Option<Reply>
        requires going { (site : Site) × Invariant self.now site }
        ensures refused { IfSome result (λ reply. Refuses self.now (Command.Erase session number) reply) }
        ensures accepted { IfNone result (Accepts self.now (Command.Erase session number)) }
        ensures active { IfNone result (IsSome (entry_of self.now.active session)) }
        ensures may { IfNone result (MayWrite self.now (Some session) number 2) }
    {
        if self.active.find(session).is_none() {
            return Some(Reply::Refused(Why::BadSession));
        }
        if self.store.lacks(number) {
            return Some(Reply::Refused(Why::NoRecord));
        }
        if let Some(busy) = self.write_busy(Some(session), number) {
            return Some(busy);
        }
        if let Some(full) = self.full(2) {
            return Some(full);
        }
        None
    }

    /// A session takes the value of a record away. Nobody else sees it before the session commits.
    pub fn erase<S: Site>(&mut self, site: &mut S, session: u32, number: u32) -> Result<Reply, Stop>
        requires going { Invariant self.old (S.state site.old) }

        // Of an honest site that the database fits.
        ensures answers { (s : State) → Matches self.old (S.state site.old) s
            → CommandContract result self.old self.new (S.state site.old) (S.state site.new) s
            (run s (Command.Erase session number)) (command_touches s (Command.Erase session number))
            (LeavesTable (sizes_of self.old.store) s.table s.commits (S.state site.old).told)
            (checkpoints_by s (Command.Erase session number)) }
        ensures performs { (s : State) → Matches self.old (S.state site.old) s
            → PerformsStore result (command_work s (Command.Erase session number))
            self.old.store self.new.store (S.state site.old) (S.state site.new) }

        // Of every site.
        ensures serves { KeepsUnread result self.old self.new (S.state site.old) (S.state site.new) }
        ensures ended { OnErr result (self.new.ended ≡ true) }
    {
        if let Some(refused) = self.erase_refusal(session, number) {
            return Ok(refused);
        }
        let entry = self.entry(session);
        let after: Option<Octets> = None;
        match self.carry_out_write(site, entry, number, &after) {
            Ok(reply) => Ok(reply),
            Err(stop) => {
                self.ended = true;
                Err(stop)
            }
        }
    }
}
