// The work of `run`, that of `trial` on a site of its own, and what comes of want of memory.
ghost use Rattle.std.specs.Prelude.{◌≡◌, ◌≤◌, ◌∷◌, [], ℕ, List, Option, IsTrue};
ghost use Rattle.front_end.specs.Faults.{FirstDecides, SameFaults};
ghost use Rattle.site.specs.Calls.{Preserves};
ghost use Rattle.front_end.specs.declared.halt.Halt.{Halt};
ghost use Rattle.site.specs.declared.geometry.Geometry.{Geometry};
ghost use Rattle.record_model.specs.declared.words.CacheLine.{CacheLine};
ghost use Rattle.record_model.specs.Run.{is_quit};
ghost use Rattle.engine.specs.Leaves.{HasNoSizes};
ghost use Rattle.face.specs.Causes.{WorkEnds};
ghost use Rattle.face.specs.Hearing.{HearsInTime, WorkHears};
ghost use Rattle.face.specs.Judged.{RunsJudged, WorkJudged};
ghost use Rattle.face.specs.TopCall.{LoadContract, NewContract, RunContract};
ghost use Rattle.face.specs.Run.{Run, Begins};
ghost use Rattle.face.specs.Working.{RunOutcome};
ghost use Rattle.command_line.specs.declared.request.Load.{Load};
ghost use Rattle.command_line.specs.declared.request.Simulation.{Simulation};
ghost use Rattle.command_line.specs.declared.request.TrialSizes.{TrialSizes};
ghost use Rattle.command_line.specs.Words.{HasTrialLimits};
ghost use Rattle.front_end.specs.Check.{CheckContract};
ghost use Rattle.trace_report.specs.Contract.{SimulateContract};
ghost use Rattle.face.specs.Trial.{TrialContract};
ghost use Rattle.front_end.specs.Refusals.{RefusesDevices, LacksMemory};

use crate::answer::answer;
use crate::opening::open;
use crate::trial::trial;
use command_line::TrialSizes;
use engine::{queue_is_on_flash, versions_are_seen};
use front_end::{Halt, Heard, Source, tell_halt, tell_memory};
use mem_site::MemSite;
use record_model::{Command, serial_order};
use site::Site;
use std::alloc::Global;

// A run has at most one line more than it takes octets.
const LINES: u64 = (1 << 40) + 1;

// Whether a line ends the run.
fn quits(line: &Option<Command>) -> bool
    ensures { result ≡ is_quit line.now }
{
    matches!(line, Some(Command::Quit))
}

// All of a run but its fault line.
fn run_lines<S: Site>(alloc: Global, pool: u32, site: &mut S) -> Result<(), Halt>
    requires pool { (1 ≤ pool) × (pool ≤ 4096) }
    ensures works { (listings : List (List CacheLine))
        × ((run : Run) → Begins run (S.state site.old) → run.listings ≡ listings
        → RunOutcome pool run (S.state site.old) (S.state site.new) result) }
    ensures hears { IsTrue (S.state site.old).honest → WorkHears result (S.state site.old) (S.state site.new) }
    ensures judged { IsTrue (S.state site.old).honest → WorkJudged result (S.state site.old) (S.state site.new) }
    ensures ends { WorkEnds result (S.state site.old) (S.state site.new) }
{
    queue_is_on_flash();
    versions_are_seen();
    let mut engine = match open(alloc, pool, site) {
        Ok(engine) => engine,
        Err(halt) => return Err(halt),
    };
    let mut source = Source::new();
    for _line in 0..LINES {
        let heard = match source.next(site) {
            Ok(heard) => heard,
            Err(halt) => return Err(halt),
        };
        match heard {
            Heard::End => return Ok(()),
            Heard::Line(line) => {
                let last = quits(&line);
                if let Err(halt) = answer(&mut engine, site, line) {
                    return Err(halt);
                }
                if last {
                    return Ok(());
                }
            }
        }
    }
    Err(Halt::Limit)
}

/// The work of `run`: restart, then the lines of the input. The answer is the status: 0 where the input was heard to
/// its end, 3 where a device failed, 4 for want of memory, 5 where taking input failed, 6 where telling failed, 7 where
/// the input is longer than 2^40 octets, 8 where the ring of groups on flash or a ring on the log's device stands at
/// its end, 9 where the devices aren't sound. Memory may be wanted at any time; tests show that it isn't where there is
/// enough.
pub fn serve<S: Site>(alloc: Global, pool: u32, site: &mut S) -> u8
    requires from { 1 ≤ pool }
    requires to { pool ≤ 4096 }

    // What is told, what a crash at any moment leaves, and when each status comes.
    ensures run { RunContract pool (S.state site.old) (S.state site.new) result }
    // Of every honest site, whatever stands on its devices: which octets were taken, and with which status.
    ensures hears { IsTrue (S.state site.old).honest → HearsInTime result (S.state site.old) (S.state site.new) }
    // Of every honest site: over records that break a rule of those that are judged no run goes well or takes input.
    ensures judged { IsTrue (S.state site.old).honest → RunsJudged result (S.state site.old) (S.state site.new) }
    // Devices without sizes have status 9.
    ensures sizes { HasNoSizes (S.state site.old)
        → RefusesDevices result (S.state site.old) (S.state site.new) }
    ensures preserves { Preserves (S.state site.old) (S.state site.new) }
    ensures faults { result ≡ 0 → SameFaults (S.state site.old) (S.state site.new) }
    ensures first { FirstDecides result (S.state site.old) (S.state site.new) }
{
    serial_order();
    match run_lines(alloc, pool, site) {
        Ok(()) => 0,
        Err(halt) => {
            let _ = tell_halt(site, halt);
            halt.status()
        }
    }
}

/// Memory was wanted before anything was done: the line is told, and the answer is the status, 4.
pub fn lack_memory<S: Site>(site: &mut S) -> u8
    ensures run { (pool : ℕ) → RunContract pool (S.state site.old) (S.state site.new) result }
    ensures load { (load : Load) → LoadContract load (S.state site.old) (S.state site.new) result }
    ensures new { (g : Geometry) → NewContract g (S.state site.old) (S.state site.new) result }
    ensures simulate { (s : Simulation)
        → SimulateContract s.groups s.pool (S.state site.old) (S.state site.new) result }
    ensures trial { (g : Geometry) (pool : ℕ)
        → TrialContract g pool (S.state site.old) (S.state site.new) result (0 ∷ []) }
    ensures check { CheckContract (S.state site.old) (S.state site.new) result }
    ensures lacks { LacksMemory result (S.state site.old) (S.state site.new) }
    ensures hears { IsTrue (S.state site.old).honest → HearsInTime result (S.state site.old) (S.state site.new) }
    ensures first { FirstDecides result (S.state site.old) (S.state site.new) }
    ensures preserves { Preserves (S.state site.old) (S.state site.new) }
{
    serial_order();
    let _ = tell_memory(site);
    4
}

/// The work of `trial` on a site in memory that is made for it. The answer is the status: 0, 4, 5, 6 or 7, those of a
/// run whose devices never fail.
pub fn serve_trial<S: Site>(alloc: Global, sizes: &TrialSizes, site: &mut S) -> u8
    requires limits { HasTrialLimits sizes.now }
    ensures trial { (numbers : List ℕ)
        × TrialContract sizes.now.geometry sizes.now.pool (S.state site.old) (S.state site.new) result numbers }
    ensures preserves { Preserves (S.state site.old) (S.state site.new) }
    ensures faults { result ≡ 0 → SameFaults (S.state site.old) (S.state site.new) }
    ensures first { FirstDecides result (S.state site.old) (S.state site.new) }
{
    match MemSite::new(alloc, &sizes.geometry) {
        Ok(inner) => {
            let (status, _inner) = trial(alloc, sizes.pool, inner, site);
            status
        }
        Err(_) => lack_memory(site),
    }
}
