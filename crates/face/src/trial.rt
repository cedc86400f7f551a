// Lives of one database in memory, one after the other, with a power cut behind each but the last.
ghost use Rattle.std.specs.Prelude.{◌≡◌, ◌⊎◌, ◌+◌, ◌++◌, ◌≤◌, ◌<◌, ℕ, List, Option, IsTrue, IfSome, IfOk, IfErr, OnOk};
ghost use Rattle.std.specs.Prelude.{OnErr};
ghost use Rattle.std.specs.Prelude.{Err, [], length, true, false, take};
ghost use Rattle.site.specs.Calls.{Preserves, Rose, SameReads};
ghost use Rattle.site.specs.declared.geometry.Geometry.{Geometry};
ghost use Rattle.site.specs.declared.outside.Stop.{Stop};
ghost use Rattle.mem_site.specs.MemState.{IsFresh, state_of, limits_of, lives_of as numbers_in};
ghost use Rattle.front_end.specs.Faults.{FirstDecides, RunFaults, SameFaults};
ghost use Rattle.site.specs.Faults.{TellFaults};
ghost use Rattle.front_end.specs.Lines.{HearsOnly};
ghost use Rattle.face.specs.Run.{IsFront};
ghost use Rattle.front_end.specs.declared.halt.Halt.{Halt};
ghost use Rattle.face.specs.Trial as spec;
ghost use Rattle.face.specs.Trial.{Between, IsLived, IsNewSite, IsStatus, TrialContract, kept_by, numbers_of};
ghost use Rattle.face.specs.Trial.{script_limit};
ghost use Rattle.face.specs.Living.{Ends, HasLivedOne, IsHaltOfTrial, IsReady, KeepsDevices};

use crate::laws::{blank_stands, what_is_left_opens};
use crate::running::serve;
use front_end::{Halt, tell_halt};
use mem_site::MemSite;
use shell_text::Line;
use site::{Failed, Site, Stop, tell_all};
use std::alloc::Global;
use workload::{STOPS_MAX, life};

// At most so many octets are a script.
const SCRIPT_MAX: usize = 65_536;

// Octets are taken in pieces of this many.
const PIECE: usize = 4_096;

// A life may ask for so many changes.
const CHANGES_MAX: u64 = 10_000;

// Takes the next octets of a script, and answers whether there were any.
fn take_more<S: Site>(site: &mut S, script: &mut Vec<u8>) -> Result<bool, Halt>
    requires few { length script.old.items ≤ SCRIPT_MAX }
    ensures taken { IsTrue (S.state site.old).honest → OnOk result (script.old.items ++ (S.state site.old).input.left
        ≡ script.new.items ++ (S.state site.new).input.left) }
    ensures end { IsTrue (S.state site.old).honest
        → IfOk result (λ some. some ≡ false → (S.state site.new).input.left ≡ []) }
    ensures more { IfOk result (λ some. some ≡ true → length script.old.items < length script.new.items) }
    ensures few { OnOk result (length script.new.items ≤ SCRIPT_MAX) }
    ensures limit { IsTrue (S.state site.old).honest → result ≡ Err Halt.Limit
        → length script.old.items + length (S.state site.old).input.left
        ≡ script_limit + 1 + length (S.state site.new).input.left }
    ensures input { result ≡ Err Halt.Input → Rose (S.state site.old).input_faults (S.state site.new).input_faults }
    ensures halts { IfErr result (λ halt. (halt ≡ Halt.Stop Stop.Memory)
        ⊎ ((halt ≡ Halt.Input) ⊎ (halt ≡ Halt.Limit))) }
    ensures same { IsTrue (S.state site.old).honest → HearsOnly (S.state site.old) (S.state site.new) }
    ensures reads { SameReads (S.state site.old) (S.state site.new) }
    ensures preserves { Preserves (S.state site.old) (S.state site.new) }
    ensures faults { RunFaults result (S.state site.old) (S.state site.new) }
{
    let mut piece = [0u8; PIECE];
    let room = (SCRIPT_MAX - script.len()).clamp(1, PIECE);
    let Ok(count) = site.take(&mut piece[..room]) else {
        return Err(Halt::Input);
    };
    if count == 0 {
        return Ok(false);
    }
    if script.len() == SCRIPT_MAX {
        return Err(Halt::Limit);
    }
    match script.extend_from_slice(&piece[..count]) {
        Ok(()) => Ok(true),
        Err(_) => Err(Halt::Stop(Stop::Memory)),
    }
}

// Reads the script to its end.
fn read_script<S: Site>(alloc: Global, site: &mut S) -> Result<Vec<u8>, Halt>
    ensures script { IsTrue (S.state site.old).honest
        → IfOk result (λ script. script.items ≡ (S.state site.old).input.left) }
    ensures few { IfOk result (λ script. length script.items ≤ SCRIPT_MAX) }
    ensures limit { IsTrue (S.state site.old).honest → result ≡ Err Halt.Limit
        → length (S.state site.old).input.left ≡ script_limit + 1 + length (S.state site.new).input.left }
    ensures input { result ≡ Err Halt.Input → Rose (S.state site.old).input_faults (S.state site.new).input_faults }
    ensures halts { IfErr result (λ halt. (halt ≡ Halt.Stop Stop.Memory)
        ⊎ ((halt ≡ Halt.Input) ⊎ (halt ≡ Halt.Limit))) }
    ensures same { IsTrue (S.state site.old).honest → HearsOnly (S.state site.old) (S.state site.new) }
    ensures reads { SameReads (S.state site.old) (S.state site.new) }
    ensures preserves { Preserves (S.state site.old) (S.state site.new) }
    ensures faults { RunFaults result (S.state site.old) (S.state site.new) }
{
    let mut script = Vec::new(alloc);
    loop {
        match take_more(site, &mut script) {
            Ok(true) => {}
            Ok(false) => return Ok(script),
            Err(halt) => return Err(halt),
        }
    }
}

// Lets only K changes pass, where a stop line says so.
fn light_fuse(stop: Option<(u64, u64)>, inner: &mut MemSite)
    ensures state { state_of inner.new ≡ record (state_of inner.old) { kept = (state_of inner.new).kept } }
    ensures lives { numbers_in inner.new ≡ numbers_in inner.old }
    ensures fuse { IsFresh inner.old → (state_of inner.new).kept ≡ kept_by stop (numbers_in inner.old) }
{
    if let Some((k, _)) = stop {
        inner.fuse(k);
    }
}

// Whether a life that asked for so many changes asked for no more than it may.
fn is_within(stop: Option<(u64, u64)>, changes: u64) -> bool
    ensures { result ≡ spec.is_within stop changes }
{
    match stop {
        Some((k, _)) => changes <= CHANGES_MAX && changes <= k,
        None => changes <= CHANGES_MAX,
    }
}

// The status that is told of a life: 0 where it asked for no more changes than it may, else 3 or 6. None where it ended
// otherwise, which only want of memory brings about.
fn status_of_life(status: u8, within: bool) -> Option<u8>
    ensures { IfSome result (λ told. (told ≡ status) × IsStatus within told) }
{
    if within {
        return if status == 0 { Some(0) } else { None };
    }
    match status {
        3 | 6 => Some(status),
        _ => None,
    }
}

// One life on a site in memory, and the status that is told of it. None for want of memory.
fn live(
    alloc: Global,
    pool: u32,
    lines: &[u8],
    stop: Option<(u64, u64)>,
    inner: &mut MemSite,
) -> Option<u8>
    requires pool { (1 ≤ pool) × (pool ≤ 4096) }
    ensures life { (g : Geometry) (before : Between) → IsReady g before inner.old
        → IfSome result (λ status. HasLivedOne g before lines.now status (state_of inner.new)) }
    ensures lived { (g : Geometry) (before : Between) → IsReady g before inner.old
        → IfSome result (λ status. IsLived pool lines.now stop before status (state_of inner.new)) }
    ensures status { IfSome result (λ status. IsStatus (spec.is_within stop (limits_of inner.new).changes) status) }
    ensures lives { numbers_in inner.new ≡ numbers_in inner.old }
{
    what_is_left_opens();
    light_fuse(stop, inner);
    let Ok(()) = inner.feed(lines) else {
        return None;
    };
    let status = serve(alloc, pool, inner);
    if inner.lacked() {
        return None;
    }
    status_of_life(status, is_within(stop, inner.changes()))
}

fn life_line(number: u64, status: u8) -> Line
    ensures { result ≡ spec.life_line number status }
{
    let mut line = Line::new();
    line.push(b"life ");
    line.push_number(number);
    line.push(b" status ");
    line.push_number(u64::from(status));
    line.push(b"\n");
    line
}

// Tells what a life has told, and its line.
fn tell_life<S: Site>(site: &mut S, text: &[u8], number: u64, status: u8) -> Result<(), Failed>
    ensures told { IsTrue (S.state site.old).honest → OnOk result ((S.state site.new).told
        ≡ (S.state site.old).told ++ (text.now ++ spec.life_line number status)) }
    ensures part { IsTrue (S.state site.old).honest → OnErr result ((rest : List ℕ)
        × ((S.state site.new).told ≡ (S.state site.old).told ++ rest)
        × IsFront rest (text.now ++ spec.life_line number status)) }
    ensures output { OnErr result (Rose (S.state site.old).output_faults (S.state site.new).output_faults) }
    ensures left { IsTrue (S.state site.old).honest → (S.state site.new).input ≡ (S.state site.old).input }
    ensures keeps { KeepsDevices (S.state site.old) (S.state site.new) }
    ensures faults { TellFaults result (S.state site.old) (S.state site.new) }
{
    match tell_all(site, text) {
        Ok(()) => tell_all(site, life_line(number, status).as_slice()),
        Err(failed) => Err(failed),
    }
}

// The lives of a script, one after the other. What is handed back is the site of the last one that was begun.
fn live_script<S: Site>(
    alloc: Global,
    pool: u32,
    script: &[u8],
    inner: MemSite,
    site: &mut S,
) -> (Result<(), Halt>, MemSite)
    requires pool { (1 ≤ pool) × (pool ≤ 4096) }
    ensures lives { (g : Geometry) → IsNewSite g inner → IsTrue (S.state site.old).honest
        → Ends g pool script.now result.0 (S.state site.old) (S.state site.new) (numbers_of result.1) }
    ensures halts { IfErr result.0 (λ halt. (halt ≡ Halt.Stop Stop.Memory) ⊎ (halt ≡ Halt.Output)) }
    ensures output { result.0 ≡ Err Halt.Output
        → Rose (S.state site.old).output_faults (S.state site.new).output_faults }
    ensures left { IsTrue (S.state site.old).honest → (S.state site.new).input ≡ (S.state site.old).input }
    ensures keeps { KeepsDevices (S.state site.old) (S.state site.new) }
    ensures faults { RunFaults result.0 (S.state site.old) (S.state site.new) }
{
    blank_stands();
    let mut inner = inner;
    for place in 0..STOPS_MAX + 1 {
        let Some(life) = life(script, place) else {
            unreachable!();
        };
        let lines = &script[life.start..life.end];
        let Some(status) = live(alloc, pool, lines, life.stop, &mut inner) else {
            return (Err(Halt::Stop(Stop::Memory)), inner);
        };
        let Ok(()) = tell_life(site, inner.told(), place as u64 + 1, status) else {
            return (Err(Halt::Output), inner);
        };
        let Some((_, seed)) = life.stop else {
            return (Ok(()), inner);
        };
        inner = inner.crash(seed);
    }
    unreachable!()
}

// All of a trial but its fault line.
fn run_script<S: Site>(
    alloc: Global,
    pool: u32,
    inner: MemSite,
    site: &mut S,
) -> (Result<(), Halt>, MemSite)
    requires pool { (1 ≤ pool) × (pool ≤ 4096) }
    ensures lives { (g : Geometry) → IsNewSite g inner → IsTrue (S.state site.old).honest
        → Ends g pool (S.state site.old).input.left result.0 (S.state site.old) (S.state site.new)
        (numbers_of result.1) }
    ensures unbegun { (result.0 ≡ Err Halt.Input) ⊎ (result.0 ≡ Err Halt.Limit) → result.1 ≡ inner }
    ensures halts { IfErr result.0 IsHaltOfTrial }
    ensures fits { IsTrue (S.state site.old).honest
        → OnOk result.0 (length (S.state site.old).input.left ≤ script_limit) }
    ensures limit { IsTrue (S.state site.old).honest → result.0 ≡ Err Halt.Limit
        → length (S.state site.old).input.left ≡ script_limit + 1 + length (S.state site.new).input.left }
    ensures input { result.0 ≡ Err Halt.Input → Rose (S.state site.old).input_faults (S.state site.new).input_faults }
    ensures output { result.0 ≡ Err Halt.Output → Rose (S.state site.old).output_faults (S.state site.new).output_faults
        × (IsTrue (S.state site.old).honest → length (S.state site.old).input.left ≤ script_limit) }
    ensures keeps { KeepsDevices (S.state site.old) (S.state site.new) }
    ensures faults { RunFaults result.0 (S.state site.old) (S.state site.new) }
{
    match read_script(alloc, site) {
        Ok(script) => live_script(alloc, pool, script.as_slice(), inner, site),
        Err(halt) => (Err(halt), inner),
    }
}

/// The work of `trial`: lives on a site in memory that is new, as the script says that the input is. The first 31 lines
/// of the form `stop K SEED` end a life each, the last life has the lines behind them. A life is a run over its lines
/// with a pool of so many pages; where a stop line ends it, only K changes pass. Then its text is told, and `life I
/// status S`, with S 0 where it asked for no more changes than that, and for 10,000 at most, and 3 or 6 otherwise.
/// Behind a stop line power is cut; SEED says what that leaves of what wasn't synced.
///
/// The answer is the status, and the site of the last life that was begun: 0 where all lives were told, 4 for want of
/// memory, 5 where taking input failed, 6 where telling failed, 7 where the script is longer than 65,536 octets. The
/// devices of the other site aren't touched.
pub fn trial<S: Site>(alloc: Global, pool: u32, inner: MemSite, site: &mut S) -> (u8, MemSite)
    requires from { 1 ≤ pool }
    requires to { pool ≤ 4096 }
    requires new { (g : Geometry) × IsNewSite g inner }

    // What is told, and when each status comes.
    ensures trial { (g : Geometry) → IsNewSite g inner
        → TrialContract g pool (S.state site.old) (S.state site.new) result.0 (numbers_of result.1) }
    // Where no life was begun the site is handed back.
    ensures unbegun { (result.0 ≡ 5) ⊎ (result.0 ≡ 7) → result.1 ≡ inner }
    ensures preserves { Preserves (S.state site.old) (S.state site.new) }
    ensures faults { result.0 ≡ 0 → SameFaults (S.state site.old) (S.state site.new) }
    ensures first { FirstDecides result.0 (S.state site.old) (S.state site.new) }
{
    let (lived, inner) = run_script(alloc, pool, inner, site);
    match lived {
        Ok(()) => (0, inner),
        Err(halt) => {
            let _ = tell_halt(site, halt);
            (halt.status(), inner)
        }
    }
}
