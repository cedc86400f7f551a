// The site in memory. It keeps its contents as they are now, and of each change what the change took away: so the
// moments before follow from the one now, and a call costs what its octets cost.
ghost use Rattle.std.specs.Prelude.{◌≡◌, ◌⊎◌, ◌≤◌, ◌<◌, ◌+◌, ◌/◌, ◌++◌, ◌∷◌, [], length, ◌^◌, ◌↔◌, drop, set, true};
ghost use Rattle.std.specs.Prelude.{false, min, max, ◌-◌, Some, IfOk, IfErr, OnOk, OnErr, IsTrue};
ghost use Rattle.mem_site.specs.Limits.{is_spent, is_past, is_barred};
ghost use Rattle.mem_site.specs.Named.{Names};

use crate::area::Area;
use crate::change::Change;
use crate::input::Hearing;
use crate::limits::Limits;
use crate::lives::Lives;
use crate::named::{Call, CallCounts, NamedCall, ShortTell, is_named, taken};
use crate::output::say;
use site::{Dev, Failed, Geometry, Site, Stop, Take};
use std::alloc::Global;

/// Three devices, an input and an output in memory. It is honest.
#[derive(Drop)]
pub struct MemSite {
    alloc: Global,
    log: Area,
    flash: Area,
    disk: Area,
    told: Vec<u8>,
    input: Hearing,
    input_faults: u64,
    output_faults: u64,
    history: Vec<Change>,
    limits: Limits,
    lives: Lives,
    named: Vec<NamedCall>,
    shorts: Vec<ShortTell>,
    calls: CallCounts,
    ghost named_excused: { 0 < length named.items → limits.excused ≡ true },
    // A call has failed only where a limit was passed.
    ghost known: { 0 < log.faults + flash.faults + disk.faults + input_faults + output_faults
        → is_spent limits ≡ true },
}

impl MemSite {
    ghost use Rattle.site.specs.State.{content_of, with_content, loose_of, is_loose, reads_of, MayLeave, now_of};
    ghost use Rattle.site.specs.Geometry.{HasLengths, blank_image};
    ghost use Rattle.mem_site.specs.MemState.{state_of, kept_of, fed, limits_of, lives_of, all_faults, named_of};
    ghost use Rattle.mem_site.specs.MemState.{shorts_of, calls_of, IsFresh, SamePlan};
    ghost use Rattle.mem_site.specs.Crash.{started, image_left};
    ghost use Rattle.mem_site.specs.Named.{number_of};

    /// Three blank devices with the lengths of the geometry, an empty input and nothing told. The one error is want of
    /// memory.
    pub fn new(alloc: Global, geometry: &Geometry) -> Result<MemSite, Stop>
        ensures state { IfOk result (λ m. state_of m ≡ started (0 ∷ 0 ∷ []) (blank_image geometry.now)) }
        ensures lengths { IfOk result (λ m. HasLengths geometry.now (state_of m).image) }
        ensures fresh { IfOk result (λ m. IsFresh m) }
        ensures lives { IfOk result (λ m. lives_of m ≡ []) }
        ensures memory { IfErr result (λ stop. stop ≡ Stop.Memory) }
    {
        let (log, flash, disk) = geometry.lengths();
        let log = Area::blank(alloc, log)?;
        let flash = Area::blank(alloc, flash)?;
        let disk = Area::blank(alloc, disk)?;
        Ok(MemSite {
            alloc,
            log,
            flash,
            disk,
            told: Vec::new(alloc),
            input: Hearing::new(alloc)?,
            input_faults: 0,
            output_faults: 0,
            history: Vec::new(alloc),
            limits: Limits::new(),
            lives: Lives::new(),
            named: Vec::new(alloc),
            shorts: Vec::new(alloc),
            calls: CallCounts::new(),
        })
    }

    /// Appends octets to the input.
    pub fn feed(&mut self, octets: &[u8]) -> Result<(), Stop>
        ensures ok { OnOk result (state_of self.new
            ≡ record (state_of self.old) { input = fed octets.now (state_of self.old).input }) }
        ensures err { OnErr result (state_of self.new ≡ state_of self.old) }
        ensures memory { IfErr result (λ stop. stop ≡ Stop.Memory) }
        ensures limits { limits_of self.new ≡ limits_of self.old }
        ensures plan { SamePlan self.old self.new }
    {
        self.input.feed(octets)?;
        Ok(())
    }

    /// Lets this many changes more pass. From the next change on every call but `len` fails.
    pub fn fuse(&mut self, k: u64)
        ensures state { state_of self.new ≡ record (state_of self.old) { kept = kept_of self.new } }
        ensures last { (limits_of self.new).last ≡ Some (min ((limits_of self.old).changes + k) (2 ^ 64 - 1)) }
        ensures changes { (limits_of self.new).changes ≡ (limits_of self.old).changes }
        ensures lacked { (limits_of self.new).lacked ≡ (limits_of self.old).lacked }
        ensures excused { is_past (limits_of self.old).last (limits_of self.old).changes ≡ false
            → (limits_of self.new).excused ≡ (limits_of self.old).excused }
        ensures plan { SamePlan self.old self.new }
    {
        self.limits.fuse(k);
    }

    /// The octets told so far.
    pub fn told(&self) -> &[u8]
        ensures { result.now ≡ (state_of self.now).told }
    {
        &self.told
    }

    /// What the device reads as now.
    pub fn content(&self, dev: Dev) -> &[u8]
        ensures { result.now ≡ content_of dev (state_of self.now).image }
    {
        match dev {
            Dev::Log => &self.log.content,
            Dev::Flash => &self.flash.content,
            Dev::Disk => &self.disk.content,
        }
    }

    /// How many changes were asked for.
    pub fn changes(&self) -> u64
        ensures number { result ≡ (limits_of self.now).changes }
        ensures known { 0 < all_faults (state_of self.now) → is_spent (limits_of self.now) ≡ true }
    {
        let _log = self.log.faults;
        self.limits.changes
    }

    /// The count of reads of the device.
    pub fn reads(&self, dev: Dev) -> u64
        ensures { result ≡ reads_of dev (state_of self.now) }
    {
        match dev {
            Dev::Log => self.log.reads,
            Dev::Flash => self.flash.reads,
            Dev::Disk => self.disk.reads,
        }
    }

    /// Whether a call of the trait has failed for want of memory.
    pub fn lacked(&self) -> bool
        ensures { result ≡ (limits_of self.now).lacked }
    {
        self.limits.lacked
    }

    /// Where input was asked for: the first take at each place, oldest first.
    pub fn takes(&self) -> &[Take]
        ensures { result.now ≡ (state_of self.now).input.takes }
    {
        self.input.takes()
    }

    /// The numbers of changes of the sites that crashes ended on the way to this one, the last 31, oldest first.
    pub fn lives(&self) -> &[u64]
        ensures { result.now ≡ lives_of self.now }
    {
        self.lives.as_slice()
    }

    /// Lets the nth call of this kind from now fail, once.
    pub fn fail(&mut self, call: Call, nth: u64) -> Result<(), Stop>
        requires { 1 ≤ nth }
        ensures ok { OnOk result (named_of self.new
            ≡ named_of self.old ++ (record {
              call = call;
              number = min (number_of call (calls_of self.old) + nth) (2 ^ 64 - 1);
            }) ∷ []) }
        ensures excused { OnOk result (limits_of self.new ≡ record (limits_of self.old) { excused = true }) }
        ensures err { OnErr result ((limits_of self.new ≡ limits_of self.old) × SamePlan self.old self.new) }
        ensures memory { IfErr result (λ stop. stop ≡ Stop.Memory) }
        ensures calls { calls_of self.new ≡ calls_of self.old }
        ensures shorts { shorts_of self.new ≡ shorts_of self.old }
        ensures lives { lives_of self.new ≡ lives_of self.old }
        ensures state { state_of self.new ≡ record (state_of self.old) { kept = kept_of self.new } }
    {
        let number = self.calls.number(call).saturating_add(nth);
        self.named.push(NamedCall { call, number })?;
        self.limits.excused = true;
        Ok(())
    }

    /// Lets the nth tell from now take only this many octets. A shorter piece is taken whole.
    pub fn short_tell(&mut self, nth: u64, count: usize) -> Result<(), Stop>
        requires nth { 1 ≤ nth }
        requires count { 1 ≤ count }
        ensures ok { OnOk result (shorts_of self.new
            ≡ shorts_of self.old ++ (record {
              number = min ((calls_of self.old).tells + nth) (2 ^ 64 - 1);
              count = count;
            }) ∷ []) }
        ensures err { OnErr result (SamePlan self.old self.new) }
        ensures memory { IfErr result (λ stop. stop ≡ Stop.Memory) }
        ensures calls { calls_of self.new ≡ calls_of self.old }
        ensures named { named_of self.new ≡ named_of self.old }
        ensures lives { lives_of self.new ≡ lives_of self.old }
        ensures limits { limits_of self.new ≡ limits_of self.old }
        ensures state { state_of self.new ≡ state_of self.old }
    {
        let number = self.calls.tells.saturating_add(nth);
        self.shorts.push(ShortTell { number, count })?;
        Ok(())
    }

    /// Sets one octet, stable at once. The moments before it that no later change covers show the octet too.
    pub fn poke(&mut self, dev: Dev, at: u64, octet: u8)
        requires inside { at < length (content_of dev (state_of self.old).image) }
        requires stable { is_loose (loose_of dev (state_of self.old).loose) at ≡ false }
        ensures state { state_of self.new ≡ record (state_of self.old) {
          image = with_content dev (set (content_of dev (state_of self.old).image) at octet) (state_of self.old).image;
          past = (state_of self.new).past;
        } }
        ensures clock { length (state_of self.new).past ≡ length (state_of self.old).past }
        ensures limits { limits_of self.new ≡ limits_of self.old }
        ensures plan { SamePlan self.old self.new }
    {
        match dev {
            Dev::Log => self.log.content[at as usize] = octet,
            Dev::Flash => self.flash.content[at as usize] = octet,
            Dev::Disk => self.disk.content[at as usize] = octet,
        }
    }

    /// The site after a crash. Of the loose octets it leaves by seed 0 what they read as, by seed 1 zeros, by seed 2
    /// 0xA5, and by any other seed the generator's top octets, one number for each, log, flash, disk, places ascending.
    pub fn crash(self, seed: u64) -> MemSite
        ensures state { state_of result
            ≡ started (0 ∷ 0 ∷ lives_of result) (image_left seed (state_of self).loose (state_of self).image) }
        ensures left { MayLeave (now_of (state_of self)) (record {
          told = (state_of self).told;
          image = (state_of result).image;
        }) }
        ensures fresh { IsFresh result }
        ensures lives { let all = lives_of self ++ (limits_of self).changes ∷ [] in lives_of result
            ≡ drop (length all - 31) all }
    {
        let alloc = self.alloc;
        let (log, behind_log) = self.log.crash(alloc, seed, seed);
        let (flash, behind_flash) = self.flash.crash(alloc, seed, behind_log);
        let (disk, _) = self.disk.crash(alloc, seed, behind_flash);
        let mut lives = self.lives;
        lives.push(self.limits.changes);
        MemSite {
            alloc,
            log,
            flash,
            disk,
            told: Vec::new(alloc),
            input: self.input.renewed(),
            input_faults: 0,
            output_faults: 0,
            history: Vec::new(alloc),
            limits: Limits::new(),
            lives,
            named: Vec::new(alloc),
            shorts: Vec::new(alloc),
            calls: CallCounts::new(),
        }
    }
}

/// Whether a call that changes nothing is refused: it is named, or the fuse has blown.
fn is_cut(named: &[NamedCall], limits: &Limits, call: Call, number: u64) -> bool
    ensures exactly { IsTrue result
        ↔ (Names named.now call number ⊎ (is_past limits.now.last limits.now.changes ≡ true)) }
    ensures spent { result ≡ true → (0 < length named.now) ⊎ (is_barred limits.now.changes limits.now.last ≡ true) }
{
    is_named(named, call, number) || limits.is_blown()
}

impl Site for MemSite {
    ghost use Rattle.site.specs.State.{faults_of, reads_of, content_of};
    ghost use Rattle.site.specs.Calls.{HasRead, Wrote, Synced, Took, Told, Preserves, ReadsMore, SameReads, Rose};
    ghost use Rattle.site.specs.Calls.{Stays};
    ghost use Rattle.site.specs.Faults.{CallFaults, TakeFaults, TellFaults};
    ghost use Rattle.mem_site.specs.MemState.{state_of, limits_of, shorts_of, calls_of, Counts, CutExactly};
    ghost use Rattle.mem_site.specs.MemState.{FailsExactly, IsRefused};
    ghost use Rattle.mem_site.specs.declared.named.Call.{Call};
    ghost use Rattle.mem_site.specs.Named.{taken_of};
    ghost use Rattle.mem_site.specs.Area.{LeavesOf};

    ghost state = { state_of };

    fn len(&self, dev: Dev) -> u64 {
        match dev {
            Dev::Log => self.log.content.len() as u64,
            Dev::Flash => self.flash.content.len() as u64,
            Dev::Disk => self.disk.content.len() as u64,
        }
    }

    fn read_at(&mut self, dev: Dev, at: u64, into: &mut [u8]) -> Result<(), Failed>
        requires { at + length into.old ≤ length (content_of dev (state_of self.old).image) }
        ensures read { IsTrue (state_of self.old).honest
            → HasRead dev at into.new (state_of self.old) (state_of self.new) result }
        ensures preserves { Preserves (state_of self.old) (state_of self.new) }
        ensures reads { ReadsMore dev (length into.old) (state_of self.old) (state_of self.new) }
        ensures cause { OnErr result (Rose (faults_of dev (state_of self.old)) (faults_of dev (state_of self.new))) }
        ensures faults { CallFaults dev result (state_of self.old) (state_of self.new) }
        ensures exactly { CutExactly (Call.Read dev) self.old self.new result }
        ensures counts { Counts (Call.Read dev) self.old self.new }
        ensures counted { OnOk result (reads_of dev (state_of self.new)
            ≡ min (reads_of dev (state_of self.old) + (length into.old + 4095) / 4096) (2 ^ 64 - 1)) }
    {
        let number = self.calls.count(Call::Read(dev));
        let refused = is_cut(&self.named, &self.limits, Call::Read(dev), number);
        match dev {
            Dev::Log => self.log.read(refused, at, into),
            Dev::Flash => self.flash.read(refused, at, into),
            Dev::Disk => self.disk.read(refused, at, into),
        }
    }

    fn write_at(&mut self, dev: Dev, at: u64, bytes: &[u8]) -> Result<(), Failed>
        requires { at + length bytes.now ≤ length (content_of dev (state_of self.old).image) }
        ensures wrote { IsTrue (state_of self.old).honest
            → Wrote dev at bytes.now (state_of self.old) (state_of self.new) result }
        ensures preserves { Preserves (state_of self.old) (state_of self.new) }
        ensures reads { SameReads (state_of self.old) (state_of self.new) }
        ensures cause { OnErr result (Rose (faults_of dev (state_of self.old)) (faults_of dev (state_of self.new))) }
        ensures faults { CallFaults dev result (state_of self.old) (state_of self.new) }
        ensures exactly { FailsExactly (Call.Write dev) self.old self.new result }
        ensures counts { Counts (Call.Write dev) self.old self.new }
        ensures leaves { OnErr result (LeavesOf dev at bytes.now (state_of self.old) (state_of self.new)
            (limits_of self.new).changes (limits_of self.old).lacked (limits_of self.new).lacked) }
    {
        let number = self.calls.count(Call::Write(dev));
        let gate = self
            .limits
            .ask(is_named(&self.named, Call::Write(dev), number));
        let lacked = &mut self.limits.lacked;
        match dev {
            Dev::Log => self.log.write(self.alloc, &mut self.history, lacked, gate, dev, at, bytes),
            Dev::Flash => self.flash.write(
                self.alloc,
                &mut self.history,
                lacked,
                gate,
                dev,
                at,
                bytes,
            ),
            Dev::Disk => self.disk.write(
                self.alloc,
                &mut self.history,
                lacked,
                gate,
                dev,
                at,
                bytes,
            ),
        }
    }

    fn sync(&mut self, dev: Dev) -> Result<(), Failed>
        ensures synced { IsTrue (state_of self.old).honest → Synced dev (state_of self.old) (state_of self.new) result }
        ensures preserves { Preserves (state_of self.old) (state_of self.new) }
        ensures reads { SameReads (state_of self.old) (state_of self.new) }
        ensures cause { OnErr result (Rose (faults_of dev (state_of self.old)) (faults_of dev (state_of self.new))) }
        ensures faults { CallFaults dev result (state_of self.old) (state_of self.new) }
        ensures exactly { FailsExactly (Call.Sync dev) self.old self.new result }
        ensures counts { Counts (Call.Sync dev) self.old self.new }
        ensures lacks { IsRefused (Call.Sync dev) self.new → (limits_of self.new).lacked ≡ (limits_of self.old).lacked }
    {
        let number = self.calls.count(Call::Sync(dev));
        let gate = self
            .limits
            .ask(is_named(&self.named, Call::Sync(dev), number));
        let lacked = &mut self.limits.lacked;
        match dev {
            Dev::Log => self
                .log
                .settle(self.alloc, &mut self.history, lacked, gate, dev),
            Dev::Flash => self
                .flash
                .settle(self.alloc, &mut self.history, lacked, gate, dev),
            Dev::Disk => self
                .disk
                .settle(self.alloc, &mut self.history, lacked, gate, dev),
        }
    }

    fn take(&mut self, into: &mut [u8]) -> Result<usize, Failed>
        requires { 0 < length into.old }
        ensures took { IsTrue (state_of self.old).honest
            → Took into.new (state_of self.old) (state_of self.new) result }
        ensures at_most { IfOk result (λ n. n ≤ length into.old) }
        ensures preserves { Preserves (state_of self.old) (state_of self.new) }
        ensures reads { SameReads (state_of self.old) (state_of self.new) }
        ensures cause { OnErr result (Rose (state_of self.old).input_faults (state_of self.new).input_faults) }
        ensures faults { TakeFaults result (state_of self.old) (state_of self.new) }
        ensures exactly { CutExactly Call.Take self.old self.new result }
        ensures counts { Counts Call.Take self.old self.new }
    {
        let number = self.calls.count(Call::Take);
        if is_cut(&self.named, &self.limits, Call::Take, number) {
            self.input_faults = self.input_faults.saturating_add(1);
            return Err(Failed);
        }
        Ok(self.input.take(self.told.len(), into))
    }

    fn tell(&mut self, piece: &[u8]) -> Result<usize, Failed>
        requires { 0 < length piece.now }
        ensures told { IsTrue (state_of self.old).honest
            → Told piece.now (state_of self.old) (state_of self.new) result }
        ensures at_least { IfOk result (λ n. 1 ≤ n) }
        ensures at_most { IfOk result (λ n. n ≤ length piece.now) }
        ensures preserves { Preserves (state_of self.old) (state_of self.new) }
        ensures reads { SameReads (state_of self.old) (state_of self.new) }
        ensures cause { OnErr result (Rose (state_of self.old).output_faults (state_of self.new).output_faults) }
        ensures faults { TellFaults result (state_of self.old) (state_of self.new) }
        ensures exactly { FailsExactly Call.Tell self.old self.new result }
        ensures counts { Counts Call.Tell self.old self.new }
        ensures lacks { IsRefused Call.Tell self.new → (limits_of self.new).lacked ≡ (limits_of self.old).lacked }
        ensures untold { OnErr result (Stays (state_of self.old) (state_of self.new)) }
        ensures whole { IfOk result (λ n. n
            ≡ max (taken_of (shorts_of self.old) (calls_of self.new).tells (length piece.now)) 1) }
    {
        let number = self.calls.count(Call::Tell);
        let gate = self.limits.ask(is_named(&self.named, Call::Tell, number));
        let count = taken(&self.shorts, number, piece.len()).max(1);
        match say(
            self.alloc,
            &mut self.told,
            &mut self.history,
            &mut self.limits.lacked,
            gate,
            piece,
            count,
        ) {
            Ok(()) => Ok(count),
            Err(e) => {
                self.output_faults = self.output_faults.saturating_add(1);
                Err(e)
            }
        }
    }
}
