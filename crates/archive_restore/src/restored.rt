// The work of `restore`.
ghost use Rattle.std.specs.Prelude.{◌≡◌, ◌≤◌, IsTrue, IfErr};
ghost use Rattle.engine.specs.Leaves.{HasNoSizes};
ghost use Rattle.front_end.specs.Faults.{FirstDecides, SameFaults};
ghost use Rattle.front_end.specs.Refusals.{RefusesDevices};
ghost use Rattle.archive_restore.specs.Faults.{RestoreFaults};
ghost use Rattle.archive_restore.specs.Refusing.{IsWritten, RefusesFilled, RefusesSizes, RefusesWritten};
ghost use Rattle.site.specs.Calls.{Preserves};
ghost use Rattle.archive_restore.specs.Contract.{IsKnown, RestoreContract, RestoreOutcome};
ghost use Rattle.archive_restore.specs.Restores.{HasFaultCause, IsTarget};
ghost use Rattle.site.specs.Geometry.{HasLengths, HasLimits};
ghost use Rattle.site.specs.declared.geometry.Geometry.{Geometry};

use crate::fault::{Fault, tell_fault, tell_restored};
use crate::restoring::Restoring;
use engine::{queue_is_on_flash, versions_are_seen};
use front_end::Halt;
use site::Site;
use std::alloc::Global;

// An archive has at most one line more than a run takes octets.
const LINES: u64 = (1 << 40) + 1;

// All of a restore but what it tells.
fn restore_commits<S: Site>(alloc: Global, count: u64, pool: u32, site: &mut S) -> Result<(), Fault>
    requires pool { (1 ≤ pool) × (pool ≤ 4096) }
    ensures restores { (g : Geometry) → IsTarget g (S.state site.old)
        → RestoreOutcome count pool g (S.state site.old) (S.state site.new) result }
    ensures known { IsTrue (S.state site.old).honest → (g : Geometry) → HasLimits g
        → HasLengths g (S.state site.old).image
        → IsKnown count g (S.state site.old) (S.state site.new) result }
    ensures cause { IfErr result (λ f. HasFaultCause f (S.state site.old) (S.state site.new)) }
    ensures faults { RestoreFaults result (S.state site.old) (S.state site.new) }
    ensures refuses { HasNoSizes (S.state site.old) → RefusesSizes result (S.state site.old) (S.state site.new) }
    ensures unfit { IsTrue (S.state site.old).honest → IsWritten (S.state site.old)
        → RefusesWritten result (S.state site.old) (S.state site.new) }
    ensures preserves { Preserves (S.state site.old) (S.state site.new) }
{
    queue_is_on_flash();
    versions_are_seen();
    let mut restoring = match Restoring::start(alloc, pool, site) {
        Ok(restoring) => restoring,
        Err(fault) => return Err(fault),
    };
    for line in 0..LINES {
        match restoring.write_waiting(site, count) {
            Ok(true) => return Ok(()),
            Ok(false) => {}
            Err(fault) => return Err(fault),
        }
        if let Err(fault) = restoring.hear(site, line + 1) {
            return Err(fault);
        }
    }
    Err(Fault::Halt(Halt::Limit))
}

/// The work of `restore`: over blank devices, hears an archive of the log and writes its commits up to this number,
/// each before the next line is heard. Then `restored N` is told. The answer is the status: 0; 3 to 9 as those of a
/// run; 10 where the devices aren't blank; 13 where a line isn't one of an archive, 14 where the input has ended before
/// that commit, 15 where the database hasn't the room for one.
pub fn restore<S: Site>(alloc: Global, count: u64, pool: u32, site: &mut S) -> u8
    requires from { 1 ≤ pool }
    requires to { pool ≤ 4096 }
    // What is told, what a crash at any moment leaves, and when each status comes.
    ensures restore { RestoreContract count pool (S.state site.old) (S.state site.new) result }
    // Devices without sizes have status 9.
    ensures sizes { HasNoSizes (S.state site.old) → RefusesDevices result (S.state site.old) (S.state site.new) }
    // Of every honest site: devices that aren't blank have 10, unless a read fails, and nothing of them is changed.
    ensures unfit { IsTrue (S.state site.old).honest → IsWritten (S.state site.old)
        → RefusesFilled result (S.state site.old) (S.state site.new) }
    // The first failed call decides the status, and with status 0 none has failed.
    ensures first { FirstDecides result (S.state site.old) (S.state site.new) }
    ensures faults { result ≡ 0 → SameFaults (S.state site.old) (S.state site.new) }
    // 2 is the status of wrong words alone.
    ensures never { result ≡ 2 → ⊥ }
    ensures preserves { Preserves (S.state site.old) (S.state site.new) }
{
    match restore_commits(alloc, count, pool, site) {
        Ok(()) => match tell_restored(site, count) {
            Ok(()) => 0,
            Err(_) => 6,
        },
        Err(fault) => {
            let _ = tell_fault(site, fault);
            fault.status()
        }
    }
}
