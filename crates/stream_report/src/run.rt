// The work of `verify`.
ghost use Rattle.std.specs.Prelude.{◌≡◌, ◌≤◌};
ghost use Rattle.site.specs.Calls.{Preserves};
ghost use Rattle.site.specs.Faults.{faults_in};
ghost use Rattle.stream_report.specs.Contract.{FirstFails, VerifyContract};

use crate::halt::verified;
use crate::hearing::hear_stream;
use site::{Site, tell_all};
use std::alloc::Global;

/// Hears the input as an archive of the log of a database with so many pages that begins blank, and tells how many
/// commits it has. No device is read or changed. The answer is the status: 0, 4 for want of memory, 5 where taking the
/// input failed, 6 where telling failed, 7 where one octet more than 2^40 was taken, 13 where a line isn't accepted.
pub fn verify<S: Site>(alloc: Global, pages: u32, site: &mut S) -> u8
    requires some { 1 ≤ pages }
    requires few { pages ≤ 65536 }
    ensures verify { VerifyContract pages (S.state site.old) (S.state site.new) result }
    ensures preserves { Preserves (S.state site.old) (S.state site.new) }
    ensures faults { result ≡ 0 → faults_in (S.state site.new) ≡ faults_in (S.state site.old) }
    ensures first { FirstFails result (S.state site.old) (S.state site.new) }
{
    match hear_stream(alloc, pages, site) {
        Ok(commits) => match tell_all(site, verified(commits).as_slice()) {
            Ok(()) => 0,
            Err(_) => 6,
        },
        Err(halt) => {
            let _ = tell_all(site, halt.line().as_slice());
            halt.status()
        }
    }
}
