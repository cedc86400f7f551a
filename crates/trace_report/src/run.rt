// The work of `simulate`.
ghost use Rattle.std.specs.Prelude.{◌≡◌, ◌≤◌, List, IsTrue, IfOk, IfErr};
ghost use Rattle.site.specs.Calls.{Preserves, SameReads};
ghost use Rattle.site.specs.Faults.{faults_in};
ghost use Rattle.trace_report.specs.Traces.{Touch, IsTrace};
ghost use Rattle.trace_report.specs.Reports.{report};
ghost use Rattle.trace_report.specs.Hearing.{HearsOnly};
ghost use Rattle.trace_report.specs.Contract.{FirstFails, HasCause, HearFaults, SimulateContract};

use crate::halt::Halt;
use crate::machines::Machines;
use crate::report::report_of;
use crate::trace::{Heard, Trace};
use shell_text::Line;
use site::{Site, tell_all};
use std::alloc::Global;

/// The most lines that a trace has.
const LINES: u64 = 1_000_000;

// Hears the trace, and answers what is told of it.
fn run_trace<S: Site>(alloc: Global, groups: u32, pool: u32, site: &mut S) -> Result<Line, Halt>
    requires groups_least { 8 ≤ groups }
    requires groups_most { groups ≤ 16384 }
    requires pool_least { 1 ≤ pool }
    requires pool_most { pool ≤ 4096 }
    ensures report { IsTrue (S.state site.old).honest → IfOk result (λ text.
        (touches : List Touch) × IsTrace (S.state site.old).input.left touches × (text ≡ report groups pool touches)) }
    ensures cause { IfErr result (λ halt. HasCause halt (S.state site.old) (S.state site.new)) }
    ensures same { IsTrue (S.state site.old).honest → HearsOnly (S.state site.old) (S.state site.new) }
    ensures preserves { Preserves (S.state site.old) (S.state site.new) }
    ensures reads { SameReads (S.state site.old) (S.state site.new) }
    ensures faults { HearFaults result (S.state site.old) (S.state site.new) }
{
    let Ok(mut machines) = Machines::new(alloc, groups, pool) else {
        return Err(Halt::Memory);
    };
    let mut trace = Trace::new();
    for number in 0..LINES + 1 {
        match trace.next(site) {
            Err(_) => return Err(Halt::Input),
            Ok(Heard::End) => {
                let Ok(text) = report_of(&mut machines) else {
                    return Err(Halt::Memory);
                };
                return Ok(text);
            }
            Ok(Heard::Wrong) => return Err(Halt::Trace(number + 1)),
            Ok(Heard::Touch(page, change)) => {
                if number == LINES {
                    return Err(Halt::Trace(number + 1));
                }
                let Ok(()) = machines.touch(page, change) else {
                    return Err(Halt::Memory);
                };
            }
        }
    }
    Err(Halt::Trace(LINES + 1))
}

/// Hears a trace of touches on the input, and tells what three page caches would do with it, each on a flash of so many
/// groups and with a pool of so many pages. No device is read or changed. The answer is the status: 0, 4 for want of
/// memory, 5 where taking the input failed, 6 where telling failed, 16 where a line is no touch, or is one too many.
pub fn simulate<S: Site>(alloc: Global, groups: u32, pool: u32, site: &mut S) -> u8
    requires groups_least { 8 ≤ groups }
    requires groups_most { groups ≤ 16384 }
    requires pool_least { 1 ≤ pool }
    requires pool_most { pool ≤ 4096 }
    ensures simulate { SimulateContract groups pool (S.state site.old) (S.state site.new) result }
    ensures preserves { Preserves (S.state site.old) (S.state site.new) }
    ensures faults { result ≡ 0 → faults_in (S.state site.new) ≡ faults_in (S.state site.old) }
    ensures first { FirstFails result (S.state site.old) (S.state site.new) }
{
    match run_trace(alloc, groups, pool, site) {
        Ok(text) => match tell_all(site, text.as_slice()) {
            Ok(()) => 0,
            Err(_) => 6,
        },
        Err(halt) => {
            let _ = tell_all(site, halt.line().as_slice());
            halt.status()
        }
    }
}
