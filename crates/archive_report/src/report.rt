// The work of `archive`.
ghost use Rattle.std.specs.Prelude.{◌≡◌, ◌-◌, ◌≤◌, ◌⊎◌, ◌∷◌, ◌++◌, [], codes, ℕ};
ghost use Rattle.std.specs.Prelude.{IsTrue, IfOk, IfErr, IfSome, IfNone, Err, OnOk};
ghost use Rattle.site.specs.declared.geometry.Geometry.{Geometry};
ghost use Rattle.site.specs.Geometry.{HasLimits, HasLengths};
ghost use Rattle.site.specs.Calls.{IsUnchanged, Preserves};
ghost use Rattle.site.specs.Faults.{faults_in};
ghost use Rattle.sealed_ring.specs.Ring.{IsLive, unit_at};
ghost use Rattle.sealed_ring.specs.Ready.{Finds, units_in};
ghost use Rattle.image_changes.specs.Rings.{log_shape};
ghost use Rattle.log_archive.specs.Lines.{block_text};
ghost use Rattle.archive_report.specs.Archives.{HasLog, blocks_from, oldest_in};
ghost use Rattle.archive_report.specs.Halts.{Goes};
ghost use Rattle.archive_report.specs.Telling.{IsLogRing, OnlySyncs, Tells, TellsAnswer, TellsLines, synced};
ghost use Rattle.archive_report.specs.Contract.{ArchiveContract, FirstFails};

use crate::halt::Halt;
use crate::lines::{ahead, gone};
use log_archive::{block_line, end_line};
use log_records::BLOCK_LEN;
use sealed_ring::{Ring, Shape, judge};
use site::{Dev, Geometry, Site, Stop, tell_all};

// The status of an archive that is told, and of one that can't be had.
const TOLD: u8 = 0;

const MISSING: u8 = 12;

fn shape_of(geometry: &Geometry) -> Shape
    ensures { result ≡ log_shape geometry.now }
{
    Shape {
        dev: Dev::Log,
        base: 1_536,
        slots: geometry.blocks as u64,
        stride: 512,
        room: BLOCK_LEN as u64,
    }
}

fn sizes_of<S: Site>(site: &S) -> Option<Geometry>
    ensures sizes { IfSome result (λ g. HasLimits g × HasLengths g (S.state site.now).image) }
    ensures none { IfNone result ((g : Geometry) → HasLimits g → HasLengths g (S.state site.now).image → ⊥) }
{
    Geometry::of_lengths(
        site.len(Dev::Log),
        site.len(Dev::Flash),
        site.len(Dev::Disk),
    )
}

// The ring of the log's blocks, once the log is synced: so nothing is told that a crash takes.
fn find_log<S: Site>(site: &mut S) -> Result<Ring, Halt>
    ensures ring { IfOk result (λ ring. IsLogRing ring (S.state site.new)) }
    ensures found { IsTrue (S.state site.old).honest → IfOk result (λ ring. Finds ring (S.state site.new)) }
    ensures foreign { IsTrue (S.state site.old).honest → result ≡ Err Halt.Foreign → (g : Geometry)
        → HasLog g (S.state site.old).image → ⊥ }
    ensures sizes { ((g : Geometry) → HasLimits g → HasLengths g (S.state site.old).image → ⊥)
        → result ≡ Err Halt.Foreign }
    ensures syncs { IsTrue (S.state site.old).honest → OnlySyncs (S.state site.old) (S.state site.new) }
    ensures synced { IsTrue (S.state site.old).honest
        → OnOk result ((S.state site.new).loose ≡ synced (S.state site.old)) }
    ensures read { IfErr result (λ halt. halt ≡ Halt.Output → ⊥) }
    ensures goes { Goes result (S.state site.old) (S.state site.new) }
{
    let Some(geometry) = sizes_of(site) else {
        return Err(Halt::Foreign);
    };
    let Ok(()) = site.sync(Dev::Log) else {
        return Err(Halt::Log);
    };
    match judge(site, shape_of(&geometry)) {
        Ok(Some(ring)) => Ok(ring),
        Ok(None) => Err(Halt::Foreign),
        Err(_) => Err(Halt::Log),
    }
}

// Tells a line.
fn tell_line<S: Site>(site: &mut S, line: &[u8]) -> Result<(), Halt>
    ensures tells { IsTrue (S.state site.old).honest
        → TellsLines result (line.now ∷ []) (S.state site.old) (S.state site.new) }
    ensures goes { Goes result (S.state site.old) (S.state site.new) }
    ensures told { IfErr result (λ halt. halt ≡ Halt.Output) }
{
    match tell_all(site, line) {
        Ok(()) => Ok(()),
        Err(_) => Err(Halt::Output),
    }
}

// Reads the live block of this number.
fn read_block<S: Site>(site: &mut S, ring: &Ring, number: u64) -> Result<[u8; BLOCK_LEN], Halt>
    requires ring { IsLogRing ring.now (S.state site.old) }
    requires live { IsLive ring.now.shape ring.now.hi number }
    ensures block { IsTrue (S.state site.old).honest → Finds ring.now (S.state site.old)
        → IfOk result (λ content.
        content ≡ unit_at ring.now.shape (units_in ring.now.shape (S.state site.old)) number) }
    ensures same { IsTrue (S.state site.old).honest → IsUnchanged (S.state site.old) (S.state site.new) }
    ensures halts { IsTrue (S.state site.old).honest → Finds ring.now (S.state site.old)
        → IfErr result (λ halt. halt ≡ Halt.Log) }
    ensures read { IfErr result (λ halt. halt ≡ Halt.Output → ⊥) }
    ensures goes { Goes result (S.state site.old) (S.state site.new) }
{
    let mut unit = [0u8; 8 + BLOCK_LEN];
    match ring.read_unit(site, number, &mut unit) {
        Ok(()) => {
            let mut content = [0u8; BLOCK_LEN];
            content.copy_from_slice(&unit[8..]);
            Ok(content)
        }
        Err(Stop::Foreign) => Err(Halt::Foreign),
        Err(_) => Err(Halt::Log),
    }
}

// Reads the live block of this number, and tells its line.
fn tell_block<S: Site>(site: &mut S, ring: &Ring, number: u64) -> Result<(), Halt>
    requires ring { IsLogRing ring.now (S.state site.old) }
    requires live { IsLive ring.now.shape ring.now.hi number }
    ensures tells { IsTrue (S.state site.old).honest → Finds ring.now (S.state site.old)
        → TellsLines result ((block_text number (unit_at ring.now.shape
        (units_in ring.now.shape (S.state site.old)) number) ++ codes "\n") ∷ []) (S.state site.old)
        (S.state site.new) }
    ensures found { IsTrue (S.state site.old).honest → Finds ring.now (S.state site.old)
        → IfErr result (λ halt. halt ≡ Halt.Foreign → ⊥) }
    ensures goes { Goes result (S.state site.old) (S.state site.new) }
{
    match read_block(site, ring, number) {
        Ok(content) => tell_line(site, block_line(number, &content).as_slice()),
        Err(halt) => Err(halt),
    }
}

// Tells the live blocks from this one on.
fn tell_blocks<S: Site>(site: &mut S, ring: &Ring, from: u64) -> Result<(), Halt>
    requires ring { IsLogRing ring.now (S.state site.old) }
    requires lives { ring.now.hi - (ring.now.shape.slots - 1) ≤ from }
    requires below { from ≤ ring.now.hi }
    ensures tells { IsTrue (S.state site.old).honest → Finds ring.now (S.state site.old)
        → TellsLines result (blocks_from ring.now.shape (units_in ring.now.shape (S.state site.old)) from)
        (S.state site.old) (S.state site.new) }
    ensures found { IsTrue (S.state site.old).honest → Finds ring.now (S.state site.old)
        → IfErr result (λ halt. halt ≡ Halt.Foreign → ⊥) }
    ensures goes { Goes result (S.state site.old) (S.state site.new) }
{
    for number in from..ring.hi() {
        match tell_block(site, ring, number) {
            Ok(()) => {}
            Err(halt) => return Err(halt),
        }
    }
    Ok(())
}

// Tells the live blocks from this one on, and the line behind them.
fn tell_whole<S: Site>(site: &mut S, ring: &Ring, from: u64) -> Result<u8, Halt>
    requires ring { IsLogRing ring.now (S.state site.old) }
    requires lives { ring.now.hi - (ring.now.shape.slots - 1) ≤ from }
    requires below { from ≤ ring.now.hi }
    ensures tells { IsTrue (S.state site.old).honest → Finds ring.now (S.state site.old)
        → TellsAnswer ring.now from result (S.state site.old) (S.state site.new) }
    ensures found { IsTrue (S.state site.old).honest → Finds ring.now (S.state site.old)
        → IfErr result (λ halt. halt ≡ Halt.Foreign → ⊥) }
    ensures goes { Goes result (S.state site.old) (S.state site.new) }
    ensures status { IfOk result (λ status. status ≡ 0) }
{
    match tell_blocks(site, ring, from) {
        Ok(()) => {}
        Err(halt) => return Err(halt),
    }
    match tell_line(site, end_line(ring.hi()).as_slice()) {
        Ok(()) => Ok(TOLD),
        Err(halt) => Err(halt),
    }
}

// Tells what the ring answers, and answers the status.
fn tell_answer<S: Site>(site: &mut S, ring: &Ring, from: u64) -> Result<u8, Halt>
    requires { IsLogRing ring.now (S.state site.old) }
    ensures tells { IsTrue (S.state site.old).honest → Finds ring.now (S.state site.old)
        → TellsAnswer ring.now from result (S.state site.old) (S.state site.new) }
    ensures found { IsTrue (S.state site.old).honest → Finds ring.now (S.state site.old)
        → IfErr result (λ halt. halt ≡ Halt.Foreign → ⊥) }
    ensures goes { Goes result (S.state site.old) (S.state site.new) }
    ensures status { IfOk result (λ status. (status ≡ 0) ⊎ (status ≡ 12)) }
{
    let oldest = ring.oldest();
    if from < oldest {
        return tell_missing(site, gone(oldest).as_slice());
    }
    if from > ring.hi() {
        return tell_missing(site, ahead(ring.hi()).as_slice());
    }
    tell_whole(site, ring, from)
}

// Tells the line that a block isn't there.
fn tell_missing<S: Site>(site: &mut S, line: &[u8]) -> Result<u8, Halt>
    ensures tells { IsTrue (S.state site.old).honest
        → TellsLines result (line.now ∷ []) (S.state site.old) (S.state site.new) }
    ensures goes { Goes result (S.state site.old) (S.state site.new) }
    ensures status { IfOk result (λ status. status ≡ 12) }
    ensures told { IfErr result (λ halt. halt ≡ Halt.Output) }
{
    match tell_line(site, line) {
        Ok(()) => Ok(MISSING),
        Err(halt) => Err(halt),
    }
}

// Tells what the log answers, and answers the status.
fn tell_archive<S: Site>(from: u64, site: &mut S) -> Result<u8, Halt>
    ensures tells { IsTrue (S.state site.old).honest → Tells from result (S.state site.old) (S.state site.new) }
    ensures foreign { IsTrue (S.state site.old).honest → result ≡ Err Halt.Foreign → (g : Geometry)
        → HasLog g (S.state site.old).image → ⊥ }
    ensures no_log { IsTrue (S.state site.old).honest → ((g : Geometry) → HasLog g (S.state site.old).image → ⊥)
        → (result ≡ Err Halt.Foreign) ⊎ (result ≡ Err Halt.Log) }
    ensures sizes { ((g : Geometry) → HasLimits g → HasLengths g (S.state site.old).image → ⊥)
        → result ≡ Err Halt.Foreign }
    ensures goes { Goes result (S.state site.old) (S.state site.new) }
    ensures status { IfOk result (λ status. (status ≡ 0) ⊎ (status ≡ 12)) }
{
    match find_log(site) {
        Ok(ring) => tell_answer(site, &ring, from),
        Err(halt) => Err(halt),
    }
}

/// Tells the log's live blocks from this number on, a line for each, and behind them the number of the next block. The
/// log is synced before, so that no crash takes what was told; nothing else of the devices changes. The answer is the
/// status: 0, 3 where the log's device failed, 6 where telling failed, 9 where the devices have no sizes or the log has
/// no ring of blocks, 12 where the block lives no more (`gone`, and the oldest that lives), or is behind the next one
/// (`ahead`, and the number of that).
pub fn archive<S: Site>(from: u64, site: &mut S) -> u8
    ensures archive { ArchiveContract from (S.state site.old) (S.state site.new) result }
    ensures preserves { Preserves (S.state site.old) (S.state site.new) }
    ensures faults { result ≡ 0 → faults_in (S.state site.new) ≡ faults_in (S.state site.old) }
    ensures first { FirstFails result (S.state site.old) (S.state site.new) }
{
    match tell_archive(from, site) {
        Ok(status) => status,
        Err(halt) => {
            let _ = tell_all(site, halt.line());
            halt.status()
        }
    }
}
