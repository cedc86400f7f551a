// What the product is handed: three devices, an input and an output, on one clock.
ghost use Rattle.std.specs.Prelude.{◌≡◌, ◌+◌, ◌≤◌, ◌<◌, length, IsTrue, IfOk, OnErr};
ghost use Rattle.site.specs.State.{State, content_of, faults_of};
ghost use Rattle.site.specs.Calls.{Preserves, SameReads, ReadsMore, Rose, HasRead, Wrote, Synced, Took, Told};
ghost use Rattle.site.specs.Faults.{CallFaults, TakeFaults, TellFaults};

use std::alloc::{AllocError, AllocFailed};
use thiserror::Error;

/// One of the three devices.
#[derive(Clone, Copy, Debug, PartialEq, Eq, Drop)]
pub enum Dev {
    /// The log of changes.
    Log,
    /// The flash cache.
    Flash,
    /// The pages of the record table.
    Disk,
}

/// A call of a site failed. Which of its parts failed, the counts of faults tell.
#[derive(Clone, Copy, Debug, PartialEq, Eq, Drop, Error)]
#[error("a call of the site failed")]
pub struct Failed;

/// Why work on a site stopped.
#[derive(Clone, Copy, Debug, PartialEq, Eq, Drop, Error)]
pub enum Stop {
    /// A call on this device failed.
    #[error("a device failed: {0:?}")]
    Device(Dev),
    /// Memory lacked.
    #[error("out of memory")]
    Memory,
    /// A ring on this device has used up its unit numbers.
    #[error("a device is worn out: {0:?}")]
    Worn(Dev),
    /// The devices do not hold what the product wrote.
    #[error("the devices hold something foreign")]
    Foreign,
}

impl From<AllocError> for Stop {
    ghost use Rattle.std.specs.Prelude.{◌≡◌};
    ghost use Rattle.site.specs.declared.outside.Stop.TheVariants.{Memory};

    ghost from_gives = { λ _ stop. stop ≡ Memory };

    fn from(_refused: AllocError) -> Stop {
        Stop::Memory
    }
}

impl<T: Drop> From<AllocFailed<T>> for Stop {
    ghost use Rattle.std.specs.Prelude.{◌≡◌};
    ghost use Rattle.site.specs.declared.outside.Stop.TheVariants.{Memory};

    ghost from_gives = { λ _ stop. stop ≡ Memory };

    fn from(_refused: AllocFailed<T>) -> Stop {
        Stop::Memory
    }
}

/// Where input was asked for: how many octets had been heard, and how many told, before it.
#[derive(Clone, Copy, Debug, PartialEq, Eq, Drop)]
pub struct Take {
    /// The octets heard before it.
    pub heard: usize,
    /// The octets told before it.
    pub told: usize,
}

/// Three devices, an input and an output. What is said of content holds where the site is honest; what is said of
/// counts, of lengths and of the numbers that `take` and `tell` answer holds of every site.
pub trait Site {
    /// All that contracts say of a site.
    ghost state: { Self → State };

    /// The length of a device in octets. It never changes.
    fn len(&self, dev: Dev) -> u64
        ensures { result ≡ length (content_of dev (state self.now).image) };

    /// Fills `into` with what stands on the device from octet `at` on. After an error nobody knows what `into` holds.
    fn read_at(&mut self, dev: Dev, at: u64, into: &mut [u8]) -> Result<(), Failed>
        requires { at + length into.old ≤ length (content_of dev (state self.old).image) }
        ensures read { IsTrue (state self.old).honest
            → HasRead dev at into.new (state self.old) (state self.new) result }
        ensures preserves { Preserves (state self.old) (state self.new) }
        ensures reads { ReadsMore dev (length into.old) (state self.old) (state self.new) }
        ensures cause { OnErr result (Rose (faults_of dev (state self.old)) (faults_of dev (state self.new))) }
        ensures faults { CallFaults dev result (state self.old) (state self.new) };

    /// Writes the bytes over what stands on the device from octet `at` on. Until a sync their range is loose.
    fn write_at(&mut self, dev: Dev, at: u64, bytes: &[u8]) -> Result<(), Failed>
        requires { at + length bytes.now ≤ length (content_of dev (state self.old).image) }
        ensures wrote { IsTrue (state self.old).honest
            → Wrote dev at bytes.now (state self.old) (state self.new) result }
        ensures preserves { Preserves (state self.old) (state self.new) }
        ensures reads { SameReads (state self.old) (state self.new) }
        ensures cause { OnErr result (Rose (faults_of dev (state self.old)) (faults_of dev (state self.new))) }
        ensures faults { CallFaults dev result (state self.old) (state self.new) };

    /// Makes what was written to the device stable: no range of it is loose any more.
    fn sync(&mut self, dev: Dev) -> Result<(), Failed>
        ensures synced { IsTrue (state self.old).honest → Synced dev (state self.old) (state self.new) result }
        ensures preserves { Preserves (state self.old) (state self.new) }
        ensures reads { SameReads (state self.old) (state self.new) }
        ensures cause { OnErr result (Rose (faults_of dev (state self.old)) (faults_of dev (state self.new))) }
        ensures faults { CallFaults dev result (state self.old) (state self.new) };

    /// Moves the next octets of the input into the front of `into`, and answers how many. 0 means the end of input.
    fn take(&mut self, into: &mut [u8]) -> Result<usize, Failed>
        requires { 0 < length into.old }
        ensures took { IsTrue (state self.old).honest → Took into.new (state self.old) (state self.new) result }
        ensures at_most { IfOk result (λ n. n ≤ length into.old) }
        ensures preserves { Preserves (state self.old) (state self.new) }
        ensures reads { SameReads (state self.old) (state self.new) }
        ensures cause { OnErr result (Rose (state self.old).input_faults (state self.new).input_faults) }
        ensures faults { TakeFaults result (state self.old) (state self.new) };

    /// Tells a front of the piece, and answers how many octets. After an error some front of it may have been told.
    fn tell(&mut self, piece: &[u8]) -> Result<usize, Failed>
        requires { 0 < length piece.now }
        ensures told { IsTrue (state self.old).honest → Told piece.now (state self.old) (state self.new) result }
        ensures at_least { IfOk result (λ n. 1 ≤ n) }
        ensures at_most { IfOk result (λ n. n ≤ length piece.now) }
        ensures preserves { Preserves (state self.old) (state self.new) }
        ensures reads { SameReads (state self.old) (state self.new) }
        ensures cause { OnErr result (Rose (state self.old).output_faults (state self.new).output_faults) }
        ensures faults { TellFaults result (state self.old) (state self.new) };
}
