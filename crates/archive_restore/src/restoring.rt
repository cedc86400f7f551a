// A restore under way.
ghost use Rattle.std.specs.Prelude.{◌≡◌, ◌≢◌, ◌+◌, ◌≤◌, ◌<◌, ◌∷◌, ◌++◌, [], ℕ, List, length, IsTrue, IfOk, IfErr};
ghost use Rattle.std.specs.Prelude.{IfSome, IfNone};
ghost use Rattle.std.specs.Prelude.{OnOk, true, false};
ghost use Rattle.site.specs.State.{State as Site};
ghost use Rattle.site.specs.Calls.{IsUnchanged, Preserves};
ghost use Rattle.site.specs.declared.geometry.Geometry.{Geometry};
ghost use Rattle.site.specs.Geometry.{HasLimits, HasLengths};
ghost use Rattle.shell_text.specs.Runs.{lines_of};
ghost use Rattle.log_archive.specs.Accepted.{Stream, blank_stream};
ghost use Rattle.stream_lines.specs.Lines.{AsksFor, IsSource};
ghost use Rattle.front_end.specs.Faults.{SameFaults};
ghost use Rattle.front_end.specs.New.{IsBlank, IsNotBlank, ReadsOnce};
ghost use Rattle.site.specs.declared.outside.Stop.{Stop};
ghost use Rattle.front_end.specs.declared.halt.Halt.{Halt};
ghost use Rattle.archive_restore.specs.declared.fault.Fault.{Fault};
ghost use Rattle.engine.specs.Leaves.{HasNoSizes};
ghost use Rattle.archive_restore.specs.Faults.{RestoreFaults};
ghost use Rattle.archive_restore.specs.Refusing.{IsWritten, RefusesSizes, RefusesWritten};
ghost use Rattle.archive_restore.specs.Restores.{HasFaultCause, HasFewCommits, IsTarget};
ghost use Rattle.archive_restore.specs.Progress.{EndsEarly, EndsOnSite, GoesOnRestoring, HasHeard, HasWritten};
ghost use Rattle.archive_restore.specs.Progress.{IsPopped, IsUntouched, NeverRestores, StopsAsking, StopsRestoring};

use crate::beginning::begin;
use crate::fault::Fault;
use crate::writing::write_net;
use arrayvec::ArrayVec;
use engine::Engine;
use face::blank_stands;
use front_end::{Halt, test_blank};
use log_replay::{Net, Replay, ReplayFault};
use net_lines::{Room, fits_log};
use site::{Dev, Geometry, Site, Stop};
use std::alloc::Global;
use stream_lines::{Heard, Source};

/// A restore under way: the database, what is known of the archive, the room that pages have, what was taken of the
/// input, how much of the log may be used, and how many commits were written.
#[derive(Drop)]
pub struct Restoring {
    pub engine: Engine,
    pub replay: Replay,
    pub room: Room,
    pub source: Source,
    pub cap: u64,
    pub written: u64,
}

fn sizes_of<S: Site>(site: &S) -> Option<Geometry>
    ensures sizes { IfSome result (λ g. HasLimits g × HasLengths g (S.state site.now).image) }
    ensures none { IfNone result ((g : Geometry) → HasLimits g → HasLengths g (S.state site.now).image → ⊥) }
{
    Geometry::of_lengths(
        site.len(Dev::Log),
        site.len(Dev::Flash),
        site.len(Dev::Disk),
    )
}

fn lacks_memory() -> Fault
    ensures { result ≡ Fault.Halt (Halt.Stop Stop.Memory) }
{
    Fault::Halt(Halt::Stop(Stop::Memory))
}

// The sizes of devices that are blank. Nothing changes.
fn blank_sizes<S: Site>(site: &mut S) -> Result<Geometry, Fault>
    ensures sizes { IfOk result (λ g. HasLimits g × HasLengths g (S.state site.old).image) }
    ensures blank { IsTrue (S.state site.old).honest → OnOk result (IsBlank (S.state site.old).image) }
    ensures same { IsTrue (S.state site.old).honest → IsUnchanged (S.state site.old) (S.state site.new) }
    ensures preserves { Preserves (S.state site.old) (S.state site.new) }
    ensures faults { RestoreFaults result (S.state site.old) (S.state site.new) }
    ensures refuses { HasNoSizes (S.state site.old) → RefusesSizes result (S.state site.old) (S.state site.new) }
    ensures unfit { IsTrue (S.state site.old).honest → IsWritten (S.state site.old)
        → RefusesWritten result (S.state site.old) (S.state site.new) }
    ensures never { (g : Geometry) (behind : List (List ℕ)) (s : Stream) (count : ℕ) → IsTarget g (S.state site.old)
        → IfErr result (λ f. StopsRestoring g [] behind s count (S.state site.old) (S.state site.new) f
        × IsUntouched (S.state site.old) (S.state site.new) f) }
    ensures read { ReadsOnce (S.state site.old) (S.state site.new) }
    ensures early { (g : Geometry) (behind : List (List ℕ)) (s : Stream) (count : ℕ) → HasLimits g
        → HasLengths g (S.state site.old).image
        → IfErr result (EndsEarly g [] behind s count (S.state site.old) (S.state site.new)) }
    ensures cause { IfErr result (λ f. HasFaultCause f (S.state site.old) (S.state site.new)) }
{
    blank_stands();
    let Some(geometry) = sizes_of(site) else {
        return Err(Fault::Halt(Halt::Stop(Stop::Foreign)));
    };
    match test_blank(site) {
        Ok(()) => Ok(geometry),
        Err(unfit) => Err(Fault::Unfit(unfit)),
    }
}

impl Restoring {
    /// Before the first line of an archive: the devices are blank, and their restart is made.
    pub fn start<S: Site>(alloc: Global, pool: u32, site: &mut S) -> Result<Restoring, Fault>
        requires pool { (1 ≤ pool) × (pool ≤ 4096) }
        ensures going { IfOk result (λ r. (tested : Site) × Preserves (S.state site.old) tested
            × SameFaults (S.state site.old) tested × GoesOnRestoring 0 tested (S.state site.new) r
            × (IsTrue (S.state site.old).honest → IsUnchanged (S.state site.old) tested)) }
        ensures none { IfOk result (λ r. r.written ≡ 0) }
        ensures faults { RestoreFaults result (S.state site.old) (S.state site.new) }
        ensures left { IsTrue (S.state site.old).honest → (S.state site.new).input ≡ (S.state site.old).input }
        ensures refuses { HasNoSizes (S.state site.old) → RefusesSizes result (S.state site.old) (S.state site.new) }
        ensures unfit { IsTrue (S.state site.old).honest → IsWritten (S.state site.old)
            → RefusesWritten result (S.state site.old) (S.state site.new) }
        ensures preserves { Preserves (S.state site.old) (S.state site.new) }
        ensures begins { (g : Geometry) → IsTarget g (S.state site.old) → IfOk result (λ r. (tested : Site)
            × IsUnchanged (S.state site.old) tested × Preserves (S.state site.old) tested
            × GoesOnRestoring 0 tested (S.state site.new) r
            × HasWritten pool g (blank_stream g.pages) tested (S.state site.new) r
            × HasHeard g [] (blank_stream g.pages) tested (S.state site.new) r
            × ReadsOnce (S.state site.old) tested) }
        ensures never { (g : Geometry) (behind : List (List ℕ)) (count : ℕ) → IsTarget g (S.state site.old)
            → IfErr result (NeverRestores pool g behind count (S.state site.old) (S.state site.new)) }
        ensures early { (g : Geometry) (behind : List (List ℕ)) (s : Stream) (count : ℕ) → HasLimits g
            → HasLengths g (S.state site.old).image → IsTrue (S.state site.old).honest
            → IfErr result (EndsEarly g [] behind s count (S.state site.old) (S.state site.new)) }
        ensures cause { IfErr result (λ f. HasFaultCause f (S.state site.old) (S.state site.new)) }
    {
        blank_stands();
        let geometry = match blank_sizes(site) {
            Ok(geometry) => geometry,
            Err(fault) => return Err(fault),
        };
        let Ok(replay) = Replay::start(alloc, geometry.pages) else {
            return Err(lacks_memory());
        };
        let Ok(room) = Room::blank(alloc, geometry.pages) else {
            return Err(lacks_memory());
        };
        match begin(alloc, pool, site) {
            Ok(engine) => Ok(Restoring {
                engine,
                replay,
                room,
                source: Source::new(),
                cap: geometry.blocks as u64 - 1,
                written: 0,
            }),
            Err(halt) => Err(Fault::Halt(halt)),
        }
    }

    // Writes the net of the next commit.
    fn write<S: Site>(&mut self, site: &mut S, net: &Net) -> Result<(), Fault>
        requires going { (number : ℕ) × (entry : Site) × (before : Restoring)
            × GoesOnRestoring number entry (S.state site.old) before × IsPopped net.now before self.old }
        ensures going { (number : ℕ) (entry : Site) (before : Restoring)
            → GoesOnRestoring number entry (S.state site.old) before → IsPopped net.now before self.old
            → OnOk result (GoesOnRestoring number entry (S.state site.new)
            (record self.new { written = self.new.written + 1 })) }
        ensures early { (number : ℕ) (entry : Site) (before : Restoring) (count : ℕ)
            → GoesOnRestoring number entry (S.state site.old) before → IsPopped net.now before self.old
            → self.old.written < count → IfErr result (EndsOnSite count entry (S.state site.new)) }
        ensures writes { (pool : ℕ) (g : Geometry) (s : Stream) (entry : Site) (before : Restoring)
            → HasWritten pool g s entry (S.state site.old) before → IsPopped net.now before self.old
            → OnOk result (HasWritten pool g s entry (S.state site.new)
            (record self.new { written = self.new.written + 1 })) }
        ensures stops { (pool : ℕ) (g : Geometry) (s : Stream) (entry : Site) (before : Restoring)
            (lines behind : List (List ℕ)) (number count : ℕ) → GoesOnRestoring number entry (S.state site.old) before
            → HasWritten pool g s entry (S.state site.old) before
            → IsPopped net.now before self.old → self.old.written < count
            → IfErr result (StopsAsking pool g lines behind s count entry (S.state site.new)) }
        ensures left { IsTrue (S.state site.old).honest → (S.state site.new).input ≡ (S.state site.old).input }
        ensures preserves { Preserves (S.state site.old) (S.state site.new) }
        ensures still { OnOk result ((self.new.written ≡ self.old.written) × (self.new.source ≡ self.old.source)) }
        ensures faults { RestoreFaults result (S.state site.old) (S.state site.new) }
    {
        if !fits_log(self.cap, net) {
            return Err(Fault::Full);
        }
        if !self.room.judge(net) {
            return Err(Fault::Full);
        }
        if let Err(halt) = write_net(&mut self.engine, site, self.cap, net) {
            return Err(Fault::Halt(halt));
        }
        self.room.close(net);
        Ok(())
    }

    /// Writes the commits that wait, up to a number, and answers whether that many are written.
    pub fn write_waiting<S: Site>(&mut self, site: &mut S, count: u64) -> Result<bool, Fault>
        requires going { (number : ℕ) × (entry : Site) × GoesOnRestoring number entry (S.state site.old) self.old }
        requires most { self.old.written ≤ count }
        ensures going { (number : ℕ) (entry : Site) → GoesOnRestoring number entry (S.state site.old) self.old
            → OnOk result (GoesOnRestoring number entry (S.state site.new) self.new) }
        ensures early { (number : ℕ) (entry : Site) → GoesOnRestoring number entry (S.state site.old) self.old
            → IfErr result (EndsOnSite count entry (S.state site.new)) }
        ensures waits { (number : ℕ) (entry : Site) → GoesOnRestoring number entry (S.state site.old) self.old
            → IfOk result (λ all. all ≡ false → (goes : GoesOnRestoring number entry (S.state site.new) self.new)
            × (self.new.written ≡ length goes.s.nets) × (self.new.written < count)) }
        ensures writes { (pool : ℕ) (g : Geometry) (s : Stream) (entry : Site)
            → HasWritten pool g s entry (S.state site.old) self.old
            → OnOk result (HasWritten pool g s entry (S.state site.new) self.new) }
        ensures stops { (pool : ℕ) (g : Geometry) (s : Stream) (entry : Site) (lines behind : List (List ℕ))
            (number : ℕ) → GoesOnRestoring number entry (S.state site.old) self.old
            → HasWritten pool g s entry (S.state site.old) self.old
            → IfErr result (StopsAsking pool g lines behind s count entry (S.state site.new)) }
        ensures most { OnOk result (self.new.written ≤ count) }
        ensures all { IfOk result (λ all. all ≡ true → self.new.written ≡ count) }
        ensures none { (pool : ℕ) (g : Geometry) (s : Stream) (entry : Site)
            → HasWritten pool g s entry (S.state site.old) self.old
            → IfOk result (λ all. all ≡ false → (self.new.written ≡ length s.nets) × (self.new.written < count)) }
        ensures source { OnOk result (self.new.source ≡ self.old.source) }
        ensures faults { RestoreFaults result (S.state site.old) (S.state site.new) }
        ensures left { IsTrue (S.state site.old).honest → (S.state site.new).input ≡ (S.state site.old).input }
        ensures preserves { Preserves (S.state site.old) (S.state site.new) }
    {
        while self.written < count {
            let Some(net) = self.replay.pop() else {
                return Ok(false);
            };
            if let Err(fault) = self.write(site, &net) {
                return Err(fault);
            }
            self.written += 1;
        }
        Ok(true)
    }

    /// Hears the next line, which has this number, counted from 1.
    pub fn hear<S: Site>(&mut self, site: &mut S, number: u64) -> Result<(), Fault>
        requires { IsSource self.old.source }
        ensures going { (heard : ℕ) (entry : Site) → GoesOnRestoring heard entry (S.state site.old) self.old
            → OnOk result (GoesOnRestoring (heard + 1) entry (S.state site.new) self.new) }
        ensures early { (heard : ℕ) (entry : Site) (count : ℕ)
            → (goes : GoesOnRestoring heard entry (S.state site.old) self.old)
            → self.old.written ≡ length goes.s.nets → self.old.written < count → number ≡ heard + 1
            → IfErr result (EndsOnSite count entry (S.state site.new)) }
        ensures hears { (pool : ℕ) (g : Geometry) (s : Stream) (entry : Site) (lines : List (List ℕ))
            → HasWritten pool g s entry (S.state site.old) self.old
            → HasHeard g lines s entry (S.state site.old) self.old
            → OnOk result ((line : List ℕ) × (now : Stream) × HasWritten pool g now entry (S.state site.new) self.new
            × HasHeard g (lines ++ line ∷ []) now entry (S.state site.new) self.new) }
        ensures stops { (pool : ℕ) (g : Geometry) (s : Stream) (entry : Site) (lines : List (List ℕ))
            (heard count : ℕ) → GoesOnRestoring heard entry (S.state site.old) self.old
            → HasWritten pool g s entry (S.state site.old) self.old
            → HasHeard g lines s entry (S.state site.old) self.old → self.old.written ≡ length s.nets
            → self.old.written < count → number ≡ length lines + 1
            → IfErr result (λ fault. (behind : List (List ℕ)) × (lines_of true entry.input.left ≡ lines ++ behind)
            × StopsAsking pool g lines behind s count entry (S.state site.new) fault) }
        ensures asks { (pool : ℕ) (g : Geometry) (s : Stream) (entry : Site) (lines : List (List ℕ)) (count : ℕ)
            → HasWritten pool g s entry (S.state site.old) self.old
            → HasHeard g lines s entry (S.state site.old) self.old → self.old.written ≡ length s.nets
            → self.old.written < count → AsksFor (HasFewCommits g.pages count) entry (S.state site.old)
            → AsksFor (HasFewCommits g.pages count) entry (S.state site.new) }
        ensures written { self.new.written ≡ self.old.written }
        ensures faults { RestoreFaults result (S.state site.old) (S.state site.new) }
        ensures preserves { Preserves (S.state site.old) (S.state site.new) }
    {
        let mut line = ArrayVec::<u8, 1027>::new();
        match self.source.next(site, &mut line) {
            Err(stream_lines::Fault::Input) => Err(Fault::Halt(Halt::Input)),
            Err(stream_lines::Fault::Limit) => Err(Fault::Halt(Halt::Limit)),
            Ok(Heard::End) => Err(Fault::Short(self.written)),
            Ok(Heard::Long) => Err(Fault::Stream(number)),
            Ok(Heard::Line) => match self.replay.line(line.as_slice()) {
                Ok(()) => Ok(()),
                Err(ReplayFault::BadStream) => Err(Fault::Stream(number)),
                Err(ReplayFault::Memory) => Err(lacks_memory()),
            },
        }
    }
}
