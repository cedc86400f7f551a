// The calls that are named to fail or to be short.
ghost use Rattle.std.specs.Prelude.{◌≡◌, ◌≢◌, ◌≤◌, ◌+◌, ◌-◌, ◌^◌, ◌↔◌, ◌<◌, true, length, IsTrue, min};
ghost use Rattle.mem_site.specs.Named.{taken_of, Names};

use site::Dev;
use std::alloc::AllocError;

/// A kind of call that a site in memory can be told to fail.
#[derive(Clone, Copy, Debug, PartialEq, Eq, Drop)]
pub enum Call {
    Read(Dev),
    Write(Dev),
    Sync(Dev),
    Take,
    Tell,
}

/// The call of this kind with this number, which is to fail.
#[derive(Clone, Copy, Debug, PartialEq, Eq, Drop)]
pub struct NamedCall {
    pub call: Call,
    pub number: u64,
}

/// The tell with this number, which is to take only this many octets.
#[derive(Clone, Copy, Debug, PartialEq, Eq, Drop)]
pub struct ShortTell {
    pub number: u64,
    pub count: usize,
}

/// Whether the call of this kind with this number is to fail.
pub fn is_named(named: &[NamedCall], call: Call, number: u64) -> bool
    ensures exactly { IsTrue result ↔ Names named.now call number }
    ensures some { result ≡ true → 0 < length named.now }
{
    for n in named {
        if n.call == call && n.number == number {
            return true;
        }
    }
    false
}

/// How many octets the tell with this number takes of a piece of this length.
pub fn taken(shorts: &[ShortTell], number: u64, len: usize) -> usize
    ensures at_most { result ≤ len }
    ensures short { result ≡ taken_of shorts.now number len }
{
    for short in shorts {
        if short.number == number {
            return short.count.min(len);
        }
    }
    len
}

/// How many calls of each kind were made of a device.
#[derive(Clone, Copy, Debug, PartialEq, Eq, Drop)]
pub struct DeviceCounts {
    pub reads: u64,
    pub writes: u64,
    pub syncs: u64,
}

/// How many calls of each kind were made.
#[derive(Clone, Copy, Debug, PartialEq, Eq, Drop)]
pub struct CallCounts {
    pub log: DeviceCounts,
    pub flash: DeviceCounts,
    pub disk: DeviceCounts,
    pub takes: u64,
    pub tells: u64,
}

fn one_more(count: &mut u64) -> u64
    ensures next { count.new ≡ min (count.old + 1) (2 ^ 64 - 1) }
    ensures number { result ≡ count.new }
{
    *count = count.saturating_add(1);
    *count
}

impl CallCounts {
    ghost use Rattle.mem_site.specs.Named.{number_of, no_calls};
    ghost use Rattle.mem_site.specs.declared.named.Call.{Call};

    /// No call of any kind.
    pub fn new() -> CallCounts
        ensures { result ≡ no_calls }
    {
        let none = DeviceCounts {
            reads: 0,
            writes: 0,
            syncs: 0,
        };
        CallCounts {
            log: none,
            flash: none,
            disk: none,
            takes: 0,
            tells: 0,
        }
    }

    /// How many calls of this kind were made.
    pub fn number(&self, call: Call) -> u64
        ensures { result ≡ number_of call self.now }
    {
        match call {
            Call::Read(Dev::Log) => self.log.reads,
            Call::Read(Dev::Flash) => self.flash.reads,
            Call::Read(Dev::Disk) => self.disk.reads,
            Call::Write(Dev::Log) => self.log.writes,
            Call::Write(Dev::Flash) => self.flash.writes,
            Call::Write(Dev::Disk) => self.disk.writes,
            Call::Sync(Dev::Log) => self.log.syncs,
            Call::Sync(Dev::Flash) => self.flash.syncs,
            Call::Sync(Dev::Disk) => self.disk.syncs,
            Call::Take => self.takes,
            Call::Tell => self.tells,
        }
    }

    /// Counts one call more, and answers its number.
    pub fn count(&mut self, call: Call) -> u64
        ensures counted { number_of call self.new ≡ min (number_of call self.old + 1) (2 ^ 64 - 1) }
        ensures number { result ≡ number_of call self.new }
        ensures others { (other : Call) → other ≢ call → number_of other self.new ≡ number_of other self.old }
    {
        match call {
            Call::Read(Dev::Log) => one_more(&mut self.log.reads),
            Call::Read(Dev::Flash) => one_more(&mut self.flash.reads),
            Call::Read(Dev::Disk) => one_more(&mut self.disk.reads),
            Call::Write(Dev::Log) => one_more(&mut self.log.writes),
            Call::Write(Dev::Flash) => one_more(&mut self.flash.writes),
            Call::Write(Dev::Disk) => one_more(&mut self.disk.writes),
            Call::Sync(Dev::Log) => one_more(&mut self.log.syncs),
            Call::Sync(Dev::Flash) => one_more(&mut self.flash.syncs),
            Call::Sync(Dev::Disk) => one_more(&mut self.disk.syncs),
            Call::Take => one_more(&mut self.takes),
            Call::Tell => one_more(&mut self.tells),
        }
    }
}
