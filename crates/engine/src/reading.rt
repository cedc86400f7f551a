// Records are read, in a session and outside of one.
ghost use Rattle.std.specs.Prelude.{Option, map, ◌≡◌, ◌+◌, ◌/◌, ◌<◌, true, false, Some, None, IfSome, IfNone, IfOk};
ghost use Rattle.std.specs.Prelude.{OnOk, OnErr, flat_map};
ghost use Rattle.ring_machine.specs.Commands.{reads, command_work};
ghost use Rattle.redo_undo.specs.Mirroring.{PerformsStore};
ghost use Rattle.std.specs.List.{range_with_len};
ghost use Rattle.site.specs.declared.outside.Stop.{Stop};
ghost use Rattle.site.specs.State.{State as Site};
ghost use Rattle.record_model.specs.declared.words.Command.{Command};
ghost use Rattle.record_model.specs.declared.words.Why.{Why};
ghost use Rattle.record_model.specs.declared.words.Reply.{Reply};
ghost use Rattle.record_model.specs.State.{State, seen, content_at};
ghost use Rattle.record_model.specs.Step.{found};
ghost use Rattle.lock_table.specs.Locks.{AddsLock};
ghost use Rattle.engine.specs.Invariant.{Invariant, sizes_of};
ghost use Rattle.engine.specs.Permits.{MayShow, MayRead, MayScan};
ghost use Rattle.engine.specs.Representation.{Matches, run, with_read, with_reads, Refuses, Accepts};
ghost use Rattle.engine.specs.Leaves.{LeavesTable};
ghost use Rattle.record_model.specs.Touches.{command_touches, read_touch};
ghost use Rattle.redo_laws.specs.MachineSteps.{StepsMachine, one_touch};
ghost use Rattle.engine.specs.Scans.{first_busy, items_seen};
ghost use Rattle.engine.specs.Calls.{KeepsUnread, CommandEffect, CommandContract};
ghost use Rattle.engine.specs.Numbers.{checkpoints_by};

use crate::engine::Engine;
use crate::scan::{add_item, first_busy};
use crate::values::found;
use record_model::{Items, Octets, Reply, Why};
use site::{Site, Stop};

impl Engine {
    // Why a session can't read a record, if it can't.
    fn read_refusal(&self, session: u32, number: u32) -> Option<Reply>
        requires going { (site : Site) × Invariant self.now site }
        ensures refused { IfSome result (λ reply. Refuses self.now (Command.Read session number) reply) }
        ensures accepted { IfNone result (Accepts self.now (Command.Read session number)) }
        ensures may { IfNone result (MayRead self.now session number) }
    {
        if self.active.find(session).is_none() {
            return Some(Reply::Refused(Why::BadSession));
        }
        if self.store.lacks(number) {
            return Some(Reply::Refused(Why::NoRecord));
        }
        if let Some(busy) = self.read_busy(Some(session), number) {
            return Some(busy);
        }
        None
    }

    /// What a session sees at a record.
    pub fn read<S: Site>(&mut self, site: &mut S, session: u32, number: u32) -> Result<Reply, Stop>
        requires going { Invariant self.old (S.state site.old) }

        // Of an honest site that the database fits.
        ensures answers { (s : State) → Matches self.old (S.state site.old) s
            → CommandContract result self.old self.new (S.state site.old) (S.state site.new) s
            (run s (Command.Read session number)) (command_touches s (Command.Read session number))
            (LeavesTable (sizes_of self.old.store) s.table s.commits (S.state site.old).told)
            (checkpoints_by s (Command.Read session number)) }
        ensures performs { (s : State) → Matches self.old (S.state site.old) s
            → PerformsStore result (command_work s (Command.Read session number))
            self.old.store self.new.store (S.state site.old) (S.state site.new) }

        // Of every site.
        ensures serves { KeepsUnread result self.old self.new (S.state site.old) (S.state site.new) }
        ensures ended { OnErr result (self.new.ended ≡ true) }
    {
        if let Some(refused) = self.read_refusal(session, number) {
            return Ok(refused);
        }
        match self.carry_out_read(site, session, number) {
            Ok(content) => Ok(found(content)),
            Err(stop) => {
                self.ended = true;
                Err(stop)
            }
        }
    }

    // A session that may reads a record. Answers what it sees there.
    fn carry_out_read<S: Site>(
        &mut self,
        site: &mut S,
        session: u32,
        number: u32,
    ) -> Result<Option<Octets>, Stop>
        requires going { Invariant self.old (S.state site.old) }
        requires may { MayRead self.old session number }

        // Of an honest site that the database fits.
        ensures content { (s : State) → Matches self.old (S.state site.old) s
            → IfOk result (λ content. content ≡ seen s session number) }
        ensures does { (s : State) → Matches self.old (S.state site.old) s
            → CommandEffect result self.old self.new (S.state site.old) (S.state site.new) s
            (with_read s session number)
            (LeavesTable (sizes_of self.old.store) s.table s.commits (S.state site.old).told) 0 }
        ensures performs { (s : State) → Matches self.old (S.state site.old) s
            → PerformsStore result (reads number) self.old.store self.new.store (S.state site.old) (S.state site.new) }

        // Of every site.
        ensures serves { KeepsUnread result self.old self.new (S.state site.old) (S.state site.new) }
        ensures asks { StepsMachine result (one_touch (number / 32)) self.old.store.pages self.new.store.pages
            (S.state site.old) (S.state site.new) }
        ensures locks { OnOk result (AddsLock self.old.locks self.new.locks session number false) }
        ensures active { self.new.active ≡ self.old.active }
        ensures kept { self.new.store.log.kept ≡ self.old.store.log.kept }
    {
        match self.store.touch(site, number) {
            Ok(()) => {}
            Err(stop) => return Err(stop),
        }
        match self.locks.add(session, number, false) {
            Ok(()) => Ok(self.store.shown(number)),
            Err(_) => Err(Stop::Memory),
        }
    }

    // Why a session can't read so many records from a number on, if it can't.
    fn scan_refusal(&self, session: u32, number: u32, count: u32) -> Option<Reply>
        requires going { (site : Site) × Invariant self.now site }
        ensures refused { IfSome result (λ reply. Refuses self.now (Command.Scan session number count) reply) }
        ensures accepted { IfNone result (Accepts self.now (Command.Scan session number count)) }
        ensures may { IfNone result (MayScan self.now session number count) }
    {
        if self.active.find(session).is_none() {
            return Some(Reply::Refused(Why::BadSession));
        }
        let Some(end) = number.checked_add(count) else {
            return Some(Reply::Refused(Why::NoRecord));
        };
        if self.store.lacks(end.saturating_sub(1)) {
            return Some(Reply::Refused(Why::NoRecord));
        }
        if let Some(busy) = first_busy(&self.locks, session, number, count) {
            return Some(busy);
        }
        None
    }

    /// What a session sees at so many records from a number on: those of them that have a value.
    pub fn scan<S: Site>(
        &mut self,
        site: &mut S,
        session: u32,
        number: u32,
        count: u32,
    ) -> Result<Reply, Stop>
        requires going { Invariant self.old (S.state site.old) }

        // Of an honest site that the database fits.
        ensures answers { (s : State) → Matches self.old (S.state site.old) s
            → CommandContract result self.old self.new (S.state site.old) (S.state site.new) s
            (run s (Command.Scan session number count)) (command_touches s (Command.Scan session number count))
            (LeavesTable (sizes_of self.old.store) s.table s.commits (S.state site.old).told)
            (checkpoints_by s (Command.Scan session number count)) }
        ensures performs { (s : State) → Matches self.old (S.state site.old) s
            → PerformsStore result (command_work s (Command.Scan session number count))
            self.old.store self.new.store (S.state site.old) (S.state site.new) }

        // Of every site.
        ensures serves { KeepsUnread result self.old self.new (S.state site.old) (S.state site.new) }
        ensures ended { OnErr result (self.new.ended ≡ true) }
    {
        if let Some(refused) = self.scan_refusal(session, number, count) {
            return Ok(refused);
        }
        match self.carry_out_scan(site, session, number, count) {
            Ok(items) => Ok(Reply::Items(items)),
            Err(stop) => {
                self.ended = true;
                Err(stop)
            }
        }
    }

    // A session that may reads so many records from a number on. Answers those that have a value.
    fn carry_out_scan<S: Site>(
        &mut self,
        site: &mut S,
        session: u32,
        number: u32,
        count: u32,
    ) -> Result<Items, Stop>
        requires going { Invariant self.old (S.state site.old) }
        requires may { MayScan self.old session number count }

        // Of an honest site that the database fits.
        ensures items { (s : State) → Matches self.old (S.state site.old) s
            → IfOk result (λ items. items ≡ items_seen s session (range_with_len number count)) }
        ensures does { (s : State) → Matches self.old (S.state site.old) s
            → CommandEffect result self.old self.new (S.state site.old) (S.state site.new) s
            (with_reads s session (range_with_len number count))
            (LeavesTable (sizes_of self.old.store) s.table s.commits (S.state site.old).told) 0 }
        ensures performs { (s : State) → Matches self.old (S.state site.old) s
            → PerformsStore result (flat_map reads (range_with_len number count))
            self.old.store self.new.store (S.state site.old) (S.state site.new) }

        // Of every site.
        ensures serves { KeepsUnread result self.old self.new (S.state site.old) (S.state site.new) }
        ensures asks { StepsMachine result (map read_touch (range_with_len number count)) self.old.store.pages
            self.new.store.pages
            (S.state site.old) (S.state site.new) }
    {
        let mut items = Items::new(self.alloc);
        for offset in 0..count {
            let content = match self.carry_out_read(site, session, number + offset) {
                Ok(content) => content,
                Err(stop) => return Err(stop),
            };
            match add_item(&mut items, number + offset, content) {
                Ok(()) => {}
                Err(stop) => return Err(stop),
            }
        }
        Ok(items)
    }

    // Why a record can't be shown, if it can't.
    fn get_refusal(&self, number: u32) -> Option<Reply>
        requires going { (site : Site) × Invariant self.now site }
        ensures refused { IfSome result (λ reply. Refuses self.now (Command.Get number) reply) }
        ensures accepted { IfNone result (Accepts self.now (Command.Get number)) }
        ensures may { IfNone result (MayShow self.now None number) }
    {
        if self.store.lacks(number) {
            return Some(Reply::Refused(Why::NoRecord));
        }
        if let Some(busy) = self.read_busy(None, number) {
            return Some(busy);
        }
        None
    }

    /// What a record has in the table.
    pub fn get<S: Site>(&mut self, site: &mut S, number: u32) -> Result<Reply, Stop>
        requires going { Invariant self.old (S.state site.old) }

        // Of an honest site that the database fits.
        ensures answers { (s : State) → Matches self.old (S.state site.old) s
            → CommandContract result self.old self.new (S.state site.old) (S.state site.new) s
            (run s (Command.Get number))
            (command_touches s (Command.Get number))
            (LeavesTable (sizes_of self.old.store) s.table s.commits (S.state site.old).told)
            (checkpoints_by s (Command.Get number)) }
        ensures performs { (s : State) → Matches self.old (S.state site.old) s
            → PerformsStore result (command_work s (Command.Get number))
            self.old.store self.new.store (S.state site.old) (S.state site.new) }

        // Of every site.
        ensures serves { KeepsUnread result self.old self.new (S.state site.old) (S.state site.new) }
        ensures ended { OnErr result (self.new.ended ≡ true) }
    {
        if let Some(refused) = self.get_refusal(number) {
            return Ok(refused);
        }
        match self.carry_out_get(site, number) {
            Ok(reply) => Ok(reply),
            Err(stop) => {
                self.ended = true;
                Err(stop)
            }
        }
    }

    // Shows a record outside sessions.
    fn carry_out_get<S: Site>(&mut self, site: &mut S, number: u32) -> Result<Reply, Stop>
        requires going { Invariant self.old (S.state site.old) }
        requires may { MayShow self.old None number }

        // Of an honest site that the database fits.
        ensures reply { (s : State) → Matches self.old (S.state site.old) s
            → IfOk result (λ reply. reply ≡ found (content_at s.table number)) }
        ensures does { (s : State) → Matches self.old (S.state site.old) s
            → CommandEffect result self.old self.new (S.state site.old) (S.state site.new) s s
            (LeavesTable (sizes_of self.old.store) s.table s.commits (S.state site.old).told) 0 }
        ensures performs { (s : State) → Matches self.old (S.state site.old) s
            → PerformsStore result (reads number) self.old.store self.new.store (S.state site.old) (S.state site.new) }

        // Of every site.
        ensures serves { KeepsUnread result self.old self.new (S.state site.old) (S.state site.new) }
        ensures asks { StepsMachine result (one_touch (number / 32)) self.old.store.pages self.new.store.pages
            (S.state site.old) (S.state site.new) }
    {
        match self.store.touch(site, number) {
            Ok(()) => Ok(found(self.store.shown(number))),
            Err(stop) => Err(stop),
        }
    }
}
