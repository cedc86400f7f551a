// What is known of a site over files: the lengths of its devices, and what was counted.
ghost use Rattle.std.specs.Prelude.{◌≡◌, ◌+◌, ◌-◌, ◌/◌, ◌^◌, min};
ghost use Rattle.site.specs.Calls.{Preserves};
ghost use Rattle.file_site.specs.Counting.{raised, reads_after, faulted, tally_of, with_tally, Grows, IsFresh};
ghost use Rattle.file_site.specs.Counting.{state_of};

use site::Dev;

/// The length of a device in octets, read once, and the counts of its failed calls and of its reads.
#[derive(Clone, Copy, Debug, PartialEq, Eq, Drop)]
pub struct Tally {
    pub len: u64,
    pub faults: u64,
    pub reads: u64,
}

/// The three devices, and the counts of failed takes and failed tells. A count stays at its end.
#[derive(Clone, Copy, Debug, PartialEq, Eq, Drop)]
pub struct Book {
    pub log: Tally,
    pub flash: Tally,
    pub disk: Tally,
    pub input_faults: u64,
    pub output_faults: u64,
}

impl Tally {
    /// A device of this length, of which nothing is counted yet.
    pub fn new(len: u64) -> Tally
        ensures { result ≡ record { len = len; faults = 0; reads = 0 } }
    {
        Tally {
            len,
            faults: 0,
            reads: 0,
        }
    }

    // One failed call more.
    fn fault(&mut self)
        ensures faults { self.new ≡ record self.old { faults = raised self.old.faults } }
        ensures grows { Grows self.old self.new }
    {
        self.faults = self.faults.saturating_add(1);
    }

    // A read of this many octets more.
    fn read(&mut self, octets: usize)
        ensures reads { self.new ≡ record self.old { reads = reads_after octets self.old.reads } }
        ensures grows { Grows self.old self.new }
    {
        let pages = (octets as u64).div_ceil(4_096);
        self.reads = self.reads.saturating_add(pages);
    }
}

impl Book {
    /// Devices of these lengths, of which nothing is counted yet.
    pub fn new(log: u64, flash: u64, disk: u64) -> Book
        ensures fresh { IsFresh (state_of result) }
        ensures lengths { result ≡ record {
          log = record { len = log; faults = 0; reads = 0 };
          flash = record { len = flash; faults = 0; reads = 0 };
          disk = record { len = disk; faults = 0; reads = 0 };
          input_faults = 0;
          output_faults = 0;
        } }
    {
        Book {
            log: Tally::new(log),
            flash: Tally::new(flash),
            disk: Tally::new(disk),
            input_faults: 0,
            output_faults: 0,
        }
    }

    /// The length of a device.
    pub fn len(&self, dev: Dev) -> u64
        ensures { result ≡ (tally_of dev self.now).len }
    {
        match dev {
            Dev::Log => self.log.len,
            Dev::Flash => self.flash.len,
            Dev::Disk => self.disk.len,
        }
    }

    /// One failed call of the device more.
    pub fn device_fault(&mut self, dev: Dev)
        ensures faulted { self.new ≡ faulted dev self.old }
        ensures preserves { Preserves (state_of self.old) (state_of self.new) }
    {
        match dev {
            Dev::Log => self.log.fault(),
            Dev::Flash => self.flash.fault(),
            Dev::Disk => self.disk.fault(),
        }
    }

    /// A read of this many octets of the device more.
    pub fn read(&mut self, dev: Dev, octets: usize)
        ensures read { self.new ≡ with_tally dev
            (record (tally_of dev self.old) { reads = reads_after octets (tally_of dev self.old).reads }) self.old }
        ensures preserves { Preserves (state_of self.old) (state_of self.new) }
    {
        match dev {
            Dev::Log => self.log.read(octets),
            Dev::Flash => self.flash.read(octets),
            Dev::Disk => self.disk.read(octets),
        }
    }

    /// One failed take more.
    pub fn input_fault(&mut self)
        ensures raised { self.new ≡ record self.old { input_faults = raised self.old.input_faults } }
        ensures preserves { Preserves (state_of self.old) (state_of self.new) }
    {
        self.input_faults = self.input_faults.saturating_add(1);
    }

    /// One failed tell more.
    pub fn output_fault(&mut self)
        ensures raised { self.new ≡ record self.old { output_faults = raised self.old.output_faults } }
        ensures preserves { Preserves (state_of self.old) (state_of self.new) }
    {
        self.output_faults = self.output_faults.saturating_add(1);
    }
}
