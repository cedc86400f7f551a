// The work of `new`: the devices have the lengths of the words and are blank.
ghost use Rattle.std.specs.Prelude.{◌≡◌, ◌≤◌, ◌<◌, ◌+◌, ◌^◌, ◌↔◌, length, IsTrue, IfSome, IfNone, IfOk, IfErr, OnOk};
ghost use Rattle.site.specs.Faults.{CallFaults};
ghost use Rattle.front_end.specs.Faults.{FirstDecides, SameFaults};
ghost use Rattle.site.specs.Geometry.{HasLengths};
ghost use Rattle.site.specs.State.{content_of, faults_of};
ghost use Rattle.site.specs.Calls.{Preserves, ReadsMore, Rose, IsUnchanged, SameReads};
ghost use Rattle.front_end.specs.New.{AreZero, IsFirst, IsBlankAt, IsFirstAt, IsBlank, IsUnfitAt, IsNotBlank, IsUnfit};
ghost use Rattle.front_end.specs.New.{IsFit, New, NewCauses, ReadsOnce, TestFaults, unfit_status};

use crate::fault_lines::{tell_ready, tell_unfit};
use site::{Dev, Failed, Geometry, Site};

// So many octets are read at once.
const PIECE: usize = 4_096;

/// Why devices aren't fit for a new database.
#[derive(Clone, Copy, Debug, PartialEq, Eq, Drop)]
pub enum Unfit {
    /// They don't have the lengths.
    Foreign,
    /// A read of this device failed.
    Failed(Dev),
    /// The first octet that isn't zero stands at this place of this device.
    NotBlank(Dev, u64),
}

impl Unfit {
    /// The status that the program ends with.
    pub fn status(self) -> u8
        ensures { result ≡ unfit_status self }
    {
        match self {
            Unfit::Failed(_) => 3,
            Unfit::Foreign => 9,
            Unfit::NotBlank(_, _) => 10,
        }
    }
}

// The place of the first octet that isn't zero.
fn first_nonzero(octets: &[u8]) -> Option<usize>
    ensures some { IfSome result (λ place. IsFirst octets.now 0 (length octets.now) place) }
    ensures none { IfNone result (AreZero octets.now 0 (length octets.now)) }
{
    for place in 0..octets.len() {
        if octets[place] != 0 {
            return Some(place);
        }
    }
    None
}

// Reads octets of a device, and gives the place on the device of the first that isn't zero. Nothing changes.
fn read_first<S: Site>(
    site: &mut S,
    dev: Dev,
    at: u64,
    into: &mut [u8],
) -> Result<Option<u64>, Failed>
    requires small { at + length into.old < 2 ^ 64 }
    requires inside { at + length into.old ≤ length (content_of dev (S.state site.old).image) }
    ensures some { IsTrue (S.state site.old).honest
        → IfOk result (λ found. IfSome found (IsFirst (content_of dev (S.state site.old).image) at
        (at + length into.old))) }
    ensures none { IsTrue (S.state site.old).honest
        → IfOk result (λ found. IfNone found (AreZero (content_of dev (S.state site.old).image) at
        (at + length into.old))) }
    ensures same { IsTrue (S.state site.old).honest → IsUnchanged (S.state site.old) (S.state site.new) }
    ensures reads { ReadsMore dev (length into.old) (S.state site.old) (S.state site.new) }
    ensures preserves { Preserves (S.state site.old) (S.state site.new) }
    ensures cause { IfErr result (λ failed.
        Rose (faults_of dev (S.state site.old)) (faults_of dev (S.state site.new))) }
    ensures faults { CallFaults dev result (S.state site.old) (S.state site.new) }
{
    site.read_at(dev, at, into)?;
    match first_nonzero(into) {
        Some(place) => Ok(Some(at + place as u64)),
        None => Ok(None),
    }
}

// The place of the device's first octet that isn't zero. Nothing changes.
fn find_nonzero<S: Site>(site: &mut S, dev: Dev) -> Result<Option<u64>, Failed>
    ensures some { IsTrue (S.state site.old).honest
        → IfOk result (λ found. IfSome found (λ place. IsFirstAt dev place (S.state site.old).image)) }
    ensures none { IsTrue (S.state site.old).honest
        → IfOk result (λ found. IfNone found (IsBlankAt dev (S.state site.old).image)) }
    ensures same { IsTrue (S.state site.old).honest → IsUnchanged (S.state site.old) (S.state site.new) }
    ensures reads { ReadsMore dev (length (content_of dev (S.state site.old).image)) (S.state site.old)
        (S.state site.new) }
    ensures preserves { Preserves (S.state site.old) (S.state site.new) }
    ensures cause { IfErr result (λ failed.
        Rose (faults_of dev (S.state site.old)) (faults_of dev (S.state site.new))) }
    ensures faults { CallFaults dev result (S.state site.old) (S.state site.new) }
{
    let mut buffer = [0u8; PIECE];
    let len = site.len(dev);
    let mut at = 0u64;
    while at < len {
        let count = (len - at).min(PIECE as u64);
        let found = read_first(site, dev, at, &mut buffer[..count as usize])?;
        if found.is_some() {
            return Ok(found);
        }
        at += count;
    }
    Ok(None)
}

// Whether the device is blank. Nothing changes.
fn test_device<S: Site>(site: &mut S, dev: Dev) -> Result<(), Unfit>
    ensures blank { IsTrue (S.state site.old).honest → OnOk result (IsBlankAt dev (S.state site.old).image) }
    ensures unfit { IfErr result (λ unfit. IsUnfitAt dev unfit (S.state site.old) (S.state site.new)) }
    ensures same { IsTrue (S.state site.old).honest → IsUnchanged (S.state site.old) (S.state site.new) }
    ensures reads { ReadsMore dev (length (content_of dev (S.state site.old).image)) (S.state site.old)
        (S.state site.new) }
    ensures preserves { Preserves (S.state site.old) (S.state site.new) }
    ensures faults { TestFaults result (S.state site.old) (S.state site.new) }
{
    match find_nonzero(site, dev) {
        Ok(None) => Ok(()),
        Ok(Some(place)) => Err(Unfit::NotBlank(dev, place)),
        Err(_) => Err(Unfit::Failed(dev)),
    }
}

/// Whether the devices are blank, in the order log, flash, disk. Nothing changes.
pub fn test_blank<S: Site>(site: &mut S) -> Result<(), Unfit>
    ensures blank { IsTrue (S.state site.old).honest → OnOk result (IsBlank (S.state site.old).image) }
    ensures unfit { IfErr result (λ unfit. IsNotBlank unfit (S.state site.old) (S.state site.new)) }
    ensures same { IsTrue (S.state site.old).honest → IsUnchanged (S.state site.old) (S.state site.new) }
    ensures few { ReadsOnce (S.state site.old) (S.state site.new) }
    ensures preserves { Preserves (S.state site.old) (S.state site.new) }
    ensures faults { TestFaults result (S.state site.old) (S.state site.new) }
{
    if let Err(unfit) = test_device(site, Dev::Log) {
        return Err(unfit);
    }
    if let Err(unfit) = test_device(site, Dev::Flash) {
        return Err(unfit);
    }
    test_device(site, Dev::Disk)
}

// Whether the devices have the lengths.
fn has_lengths<S: Site>(site: &S, geometry: &Geometry) -> bool
    ensures { IsTrue result ↔ HasLengths geometry.now (S.state site.now).image }
{
    let (log, flash, disk) = geometry.lengths();
    site.len(Dev::Log) == log && site.len(Dev::Flash) == flash && site.len(Dev::Disk) == disk
}

// Whether the devices are fit. Nothing changes.
fn test_fit<S: Site>(site: &mut S, geometry: &Geometry) -> Result<(), Unfit>
    ensures fit { OnOk result (IsFit geometry.now (S.state site.old)) }
    ensures unfit { IfErr result (λ unfit. IsUnfit unfit geometry.now (S.state site.old) (S.state site.new)) }
    ensures unread { (HasLengths geometry.now (S.state site.old).image → ⊥)
        → SameReads (S.state site.old) (S.state site.new) }
    ensures few { ReadsOnce (S.state site.old) (S.state site.new) }
    ensures same { IsTrue (S.state site.old).honest → IsUnchanged (S.state site.old) (S.state site.new) }
    ensures preserves { Preserves (S.state site.old) (S.state site.new) }
    ensures faults { TestFaults result (S.state site.old) (S.state site.new) }
{
    if !has_lengths(site, geometry) {
        return Err(Unfit::Foreign);
    }
    test_blank(site)
}

/// The work of `new`: tells `ready` with the sizes where the devices have these lengths and are blank. The answer is
/// the status: 0, 3 where a device failed, 6 where telling failed, 9 where the devices don't have the lengths, 10 where
/// they aren't blank.
pub fn make_new<S: Site>(geometry: &Geometry, site: &mut S) -> u8
    ensures new { New geometry.now (S.state site.old) (S.state site.new) result }
    ensures causes { NewCauses geometry.now (S.state site.old) (S.state site.new) result }
    ensures preserves { Preserves (S.state site.old) (S.state site.new) }
    ensures faults { result ≡ 0 → SameFaults (S.state site.old) (S.state site.new) }
    ensures first { FirstDecides result (S.state site.old) (S.state site.new) }
{
    match test_fit(site, geometry) {
        Ok(()) => match tell_ready(site, geometry) {
            Ok(()) => 0,
            Err(_) => 6,
        },
        Err(unfit) => {
            let _ = tell_unfit(site, unfit);
            unfit.status()
        }
    }
}
