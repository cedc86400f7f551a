// A stated workload: its sets, the gets on the same records, and its summary.
ghost use Rattle.std.specs.Prelude.{◌≡◌, ◌≢◌, ◌≤◌, ◌<◌, ◌+◌, ◌*◌, ◌&&◌, [], IsTrue, OnOk, IfOk, IfErr, if◌then◌else◌};
ghost use Rattle.front_end.specs.Faults.{FirstDecides, SameFaults};
ghost use Rattle.site.specs.Calls.{Preserves};
ghost use Rattle.site.specs.declared.geometry.Geometry.{Geometry};
ghost use Rattle.front_end.specs.declared.halt.Halt.{Halt};
ghost use Rattle.record_model.specs.State.{State};
ghost use Rattle.record_model.specs.Run as model;
ghost use Rattle.workload.specs.Generator.{following};
ghost use Rattle.engine.specs.Invariant.{Invariant, sizes_of};
ghost use Rattle.engine.specs.Leaves.{HasNoSizes};
ghost use Rattle.face.specs.Causes.{WorkEnds};
ghost use Rattle.face.specs.TopCall.{LoadContract};
ghost use Rattle.face.specs.Headline.{IsGood};
ghost use Rattle.face.specs.Judged.{KeepsRules};
ghost use Rattle.command_line.specs.Words.{HasLoadLimits};
ghost use Rattle.front_end.specs.Refusals.{RefusesDevices};
ghost use Rattle.face.specs.Workload as stated;
ghost use Rattle.face.specs.Workload.{get_line, load_run, set_line, summary_of, summary_text};
ghost use Rattle.site.specs.Moments.{EachMoment};
ghost use Rattle.face.specs.Loads.{HasCounted, LoadTellsDone, LoadWorks, TellsOpening};

use crate::commands::carry_out;
use crate::opening::open;
use command_line::Load;
use engine::{Engine, queue_is_on_flash, versions_are_seen};
use front_end::{Halt, tell_halt};
use record_model::{Command, Reply};
use shell_text::Line;
use site::{Dev, Geometry, Site, tell_all};
use std::alloc::Global;
use workload::{load_set, next};

// What is counted of a load: the sets that were committed, the checkpoints that they made, and the gets that answered
// a value.
#[derive(Clone, Copy, Drop)]
struct Counts {
    committed: u32,
    checkpoints: u32,
    found: u32,
}

// How many pages the disk has.
fn pages_of<S: Site>(engine: &Engine, site: &S) -> u32
    requires going { Invariant engine.now (S.state site.now) }
    ensures pages { result ≡ (sizes_of engine.now.store).pages }
    ensures some { result ≢ 0 }
{
    match Geometry::of_lengths(
        site.len(Dev::Log),
        site.len(Dev::Flash),
        site.len(Dev::Disk),
    ) {
        Some(geometry) => geometry.pages,
        None => unreachable!(),
    }
}

fn is_committed(reply: &Reply) -> bool
    ensures { result ≡ model.is_committed reply.now }
{
    matches!(reply, Reply::Committed(_))
}

fn is_value(reply: &Reply) -> bool
    ensures { result ≡ stated.is_value reply.now }
{
    matches!(reply, Reply::Value(_))
}

fn has_passed(reply: &Reply) -> bool
    ensures { result ≡ stated.has_passed reply.now }
{
    matches!(
        reply,
        Reply::Committed(_) | Reply::Full { .. } | Reply::PageFull { .. }
    )
}

// Whether a line with this reply is a set that has made a checkpoint: one was due before it, and no test refused it.
fn made_one(due: bool, reply: &Reply) -> bool
    ensures { result ≡ (due && stated.has_passed reply.now) }
{
    due && has_passed(reply)
}

fn one_if(test: bool) -> u32
    ensures { result ≡ (if test then 1 else 0) }
{
    if test { 1 } else { 0 }
}

// Counts a line more, by its reply and by whether a checkpoint was due before it.
fn count_line(counts: Counts, due: bool, reply: &Reply) -> Counts
    requires committed { counts.committed ≤ 200000 }
    requires checkpoints { counts.checkpoints ≤ 200000 }
    requires found { counts.found ≤ 200000 }
    ensures committed { result.committed
        ≡ counts.committed + (if model.is_committed reply.now then 1 else 0) }
    ensures checkpoints { result.checkpoints
        ≡ counts.checkpoints + (if due && stated.has_passed reply.now then 1 else 0) }
    ensures found { result.found ≡ counts.found + (if stated.is_value reply.now then 1 else 0) }
{
    Counts {
        committed: counts.committed + one_if(is_committed(reply)),
        checkpoints: counts.checkpoints + one_if(made_one(due, reply)),
        found: counts.found + one_if(is_value(reply)),
    }
}

// The generator's number for the line at a place: with the gets it begins anew.
fn number_at(place: u32, load: &Load, x: u64) -> u64
    ensures anew { place ≡ load.now.count → result ≡ following load.now.seed }
    ensures next { place ≢ load.now.count → result ≡ following x }
{
    if place == load.count {
        return next(load.seed);
    }
    next(x)
}

// The line at a place, by its number: first come the sets, and then the gets.
fn line_at(place: u32, load: &Load, x: u64, pages: u32) -> Option<Command>
    requires pages { pages ≢ 0 }
    ensures sets { place < load.now.count → result ≡ set_line (32 * pages) x }
    ensures gets { load.now.count ≤ place → result ≡ get_line (32 * pages) x }
{
    let (number, value) = load_set(x, pages);
    if place < load.count {
        return Some(Command::Set { number, value });
    }
    Some(Command::Get { number })
}

fn summary_line(load: &Load, counts: Counts) -> Line
    ensures { result ≡ summary_of load.now.count counts.committed counts.checkpoints counts.found }
{
    let mut line = Line::new();
    line.push(b"load ");
    line.push_number(u64::from(load.count));
    line.push(b" committed ");
    line.push_number(u64::from(counts.committed));
    line.push(b" checkpoints ");
    line.push_number(u64::from(counts.checkpoints));
    line.push(b" found ");
    line.push_number(u64::from(counts.found));
    line.push(b"\n");
    line
}

// All of a load but its summary.
fn run_load<S: Site>(alloc: Global, load: &Load, site: &mut S) -> Result<Counts, Halt>
    requires limits { HasLoadLimits load.now }
    ensures works { (g : Geometry) (opening : State) → IsGood g opening (S.state site.old)
        → LoadWorks load.now.pool (load_run g opening load.now) [] (S.state site.old) (S.state site.new) result }
    ensures opens { (g : Geometry) (opening : State) → IsGood g opening (S.state site.old)
        → EachMoment (S.state site.old) (S.state site.new)
        (TellsOpening load.now.pool (load_run g opening load.now) (S.state site.old)) }
    ensures counts { (g : Geometry) (opening : State) → IsGood g opening (S.state site.old) → IfOk result (λ counts.
        HasCounted (load_run g opening load.now) counts.committed counts.checkpoints counts.found) }
    ensures halts { IfErr result (λ halt. (halt ≢ Halt.Input) × (halt ≢ Halt.Limit)) }
    ensures ends { WorkEnds result (S.state site.old) (S.state site.new) }
    ensures judged { IsTrue (S.state site.old).honest → OnOk result (KeepsRules (S.state site.old).image) }
{
    queue_is_on_flash();
    versions_are_seen();
    let mut engine = match open(alloc, load.pool, site) {
        Ok(engine) => engine,
        Err(halt) => return Err(halt),
    };
    let pages = pages_of(&engine, site);
    let mut counts = Counts {
        committed: 0,
        checkpoints: 0,
        found: 0,
    };
    let mut x = load.seed;
    for place in 0..2 * load.count {
        x = number_at(place, load, x);
        let due = engine.is_due();
        let reply = match carry_out(&mut engine, site, line_at(place, load, x, pages)) {
            Ok(reply) => reply,
            Err(halt) => return Err(halt),
        };
        counts = count_line(counts, due, &reply);
    }
    Ok(counts)
}

// A load with its summary, but without a fault line.
fn load_and_tell<S: Site>(alloc: Global, load: &Load, site: &mut S) -> Result<(), Halt>
    requires limits { HasLoadLimits load.now }
    ensures works { (g : Geometry) (opening : State) → IsGood g opening (S.state site.old)
        → LoadWorks load.now.pool (load_run g opening load.now) (summary_text (load_run g opening load.now) load.now)
        (S.state site.old) (S.state site.new) result }
    ensures tells { (g : Geometry) (opening : State) → IsGood g opening (S.state site.old)
        → EachMoment (S.state site.old) (S.state site.new) (LoadTellsDone load.now.pool (load_run g opening load.now)
        (summary_text (load_run g opening load.now) load.now) [] (S.state site.old)) }
    ensures halts { IfErr result (λ halt. (halt ≢ Halt.Input) × (halt ≢ Halt.Limit)) }
    ensures ends { WorkEnds result (S.state site.old) (S.state site.new) }
    ensures judged { IsTrue (S.state site.old).honest → OnOk result (KeepsRules (S.state site.old).image) }
{
    let counts = match run_load(alloc, load, site) {
        Ok(counts) => counts,
        Err(halt) => return Err(halt),
    };
    match tell_all(site, summary_line(load, counts).as_slice()) {
        Ok(()) => Ok(()),
        Err(_) => Err(Halt::Output),
    }
}

/// The work of `load`: restart, then a set for each number that the generator makes of the seed, then a get on each of
/// the same records, and a line that says how many sets were committed, how many checkpoints they made, and how many
/// gets found a value. The replies aren't told, and no input is taken. The statuses are those of a run.
pub fn serve_load<S: Site>(alloc: Global, load: &Load, site: &mut S) -> u8
    requires limits { HasLoadLimits load.now }

    // What is told, what a crash at any moment leaves, and when each status comes.
    ensures load { LoadContract load.now (S.state site.old) (S.state site.new) result }
    // Devices without sizes have status 9.
    ensures sizes { HasNoSizes (S.state site.old)
        → RefusesDevices result (S.state site.old) (S.state site.new) }
    ensures preserves { Preserves (S.state site.old) (S.state site.new) }
    ensures faults { result ≡ 0 → SameFaults (S.state site.old) (S.state site.new) }
    ensures first { FirstDecides result (S.state site.old) (S.state site.new) }
    // Of every honest site: over records that break a rule of those that are judged no load goes well.
    ensures judged { IsTrue (S.state site.old).honest → result ≡ 0 → KeepsRules (S.state site.old).image }
{
    match load_and_tell(alloc, load, site) {
        Ok(()) => 0,
        Err(halt) => {
            let _ = tell_halt(site, halt);
            halt.status()
        }
    }
}
