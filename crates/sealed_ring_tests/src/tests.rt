// Rings on a site in memory. A test is a table of rows, which one function plays.
ghost use Rattle.std.specs.Prelude.{◌≡◌, ◌≤◌, length};
ghost use Rattle.std.specs.Bool.{OnTrue};
ghost use Rattle.site.specs.State.{content_of};
ghost use Rattle.mem_site.specs.MemState.{state_of};
ghost use Rattle.sealed_ring.specs.Ring.{FitsIn, IsLive};
ghost use Rattle.sealed_ring.specs.Ready.{IsUsable};

use mem_site::{Call, MemSite};
use sealed_ring::{Ring, Shape, judge, usable_stays};
use site::{Dev, Geometry, Site, Stop};
use std::test::Fail;

const SMALL: Geometry = Geometry {
    pages: 1,
    groups: 8,
    blocks: 16,
};

const SHORT: Shape = Shape {
    dev: Dev::Log,
    base: 0,
    slots: 3,
    stride: 512,
    room: 503,
};

const LONG: Shape = Shape {
    dev: Dev::Flash,
    base: 0,
    slots: 3,
    stride: 33_280,
    room: 32_896,
};

const SIX: Shape = Shape {
    dev: Dev::Log,
    base: 512,
    slots: 6,
    stride: 520,
    room: 503,
};

// A row of a test.
#[derive(Clone, Copy)]
enum Step<'a> {
    // These octets are written to the ring's device at this place.
    Write(u64, &'a [u8]),
    // These octets stand there.
    Stands(usize, &'a [u8]),
    // A unit with this content is appended, and the call answers this.
    Append(&'a [u8], Result<(), Stop>),
    // The ring has this next unit and this oldest one, and is ended or not.
    Has(u64, u64, bool),
    // The ring is looked for, and the one that is found is the ring from now on.
    Scan,
    // A scan finds the ring, by all slots or from this number on.
    Again,
    Near(u64),
    // The ring that stands there is judged to be this one, or to be none.
    Judged(bool),
    // Number and content of this unit begin so; its content has this from this place on.
    Unit(u64, [u8; 10]),
    Part(u64, u64, [u8; 4]),
    // Two units are read at once from this one on, and their slots begin so.
    Two(u64, [u8; 10], [u8; 10]),
    // So many reads of the device were made in all, and so many changes.
    Reads(u64),
    Changes(u64),
}

// Whether a unit is live.
fn is_live(ring: &Ring, n: u64) -> bool
    requires { 1 ≤ ring.now.shape.slots }
    ensures { OnTrue result (IsLive ring.now.shape ring.now.hi n) }
{
    n >= ring.oldest() && n < ring.hi()
}

// Writes these octets to the ring's device, where it has the place.
fn write<S: Site>(site: &mut S, ring: &Ring, at: u64, octets: &[u8]) -> Result<bool, Stop>
    requires { IsUsable ring.now (S.state site.old) }
    ensures { IsUsable ring.now (S.state site.new) }
{
    usable_stays();
    let dev = ring.shape.dev;
    let len = site.len(dev);
    if len < at {
        return Ok(false);
    }
    if len - at < octets.len() as u64 {
        return Ok(false);
    }
    Ok(site.write_at(dev, at, octets).is_ok())
}

// Appends a unit, where the content is of the ring's length, and answers whether the call answers so.
fn append<S: Site>(site: &mut S, ring: &mut Ring, content: &[u8], answer: Result<(), Stop>) -> bool
    requires { IsUsable ring.old (S.state site.old) }
    ensures usable { IsUsable ring.new (S.state site.new) }
    ensures shape { ring.new.shape ≡ ring.old.shape }
{
    if content.len() as u64 != ring.shape.room {
        return false;
    }
    ring.append(site, content) == answer
}

// Whether a scan from a number on finds the ring.
fn is_near<S: Site>(site: &mut S, ring: &Ring, first: u64) -> Result<bool, Stop>
    requires { IsUsable ring.now (S.state site.old) }
    ensures { IsUsable ring.now (S.state site.new) }
{
    usable_stays();
    if ring.shape.slots < 6 {
        return Ok(false);
    }
    if first > 1_099_511_627_776 {
        return Ok(false);
    }
    Ok(Ring::scan_near(site, ring.shape, first)? == *ring)
}

// Whether the ring that stands there is judged to be this one, or to be none.
fn is_judged<S: Site>(site: &mut S, ring: &Ring, same: bool) -> Result<bool, Stop>
    requires { IsUsable ring.now (S.state site.old) }
    ensures { IsUsable ring.now (S.state site.new) }
{
    usable_stays();
    match judge(site, ring.shape)? {
        Some(found) => Ok(same && found == *ring),
        None => Ok(!same),
    }
}

// Whether number and content of a unit begin so.
fn has_unit<S: Site>(site: &mut S, ring: &Ring, n: u64, front: [u8; 10]) -> Result<bool, Stop>
    requires { IsUsable ring.now (S.state site.old) }
    ensures { IsUsable ring.now (S.state site.new) }
{
    usable_stays();
    if ring.shape.room < 2 {
        return Ok(false);
    }
    if !is_live(ring, n) {
        return Ok(false);
    }
    let mut octets = [0; 10];
    ring.read_unit(site, n, &mut octets)?;
    Ok(octets == front)
}

// Whether the content of a unit has these octets from a place on.
fn has_part<S: Site>(
    site: &mut S,
    ring: &Ring,
    n: u64,
    at: u64,
    part: [u8; 4],
) -> Result<bool, Stop>
    requires { IsUsable ring.now (S.state site.old) }
    ensures { IsUsable ring.now (S.state site.new) }
{
    usable_stays();
    if at > ring.shape.room || ring.shape.room - at < 4 {
        return Ok(false);
    }
    if !is_live(ring, n) {
        return Ok(false);
    }
    let mut octets = [0; 4];
    ring.read_part(site, n, at, &mut octets)?;
    Ok(octets == part)
}

// Whether two units of a ring of short slots are read at once, with slots that begin so, and nothing behind them.
fn has_two<S: Site>(
    site: &mut S,
    ring: &Ring,
    n: u64,
    first: [u8; 10],
    second: [u8; 10],
) -> Result<bool, Stop>
    requires { IsUsable ring.now (S.state site.old) }
    ensures { IsUsable ring.now (S.state site.new) }
{
    usable_stays();
    if !is_live(ring, n) {
        return Ok(false);
    }
    let mut slots = [0xEE; 1_600];
    if ring.read_units(site, n, &mut slots)? != 2 {
        return Ok(false);
    }
    Ok(slots.starts_with(&first) && slots[520..].starts_with(&second) && slots[1_040] == 0xEE)
}

// Makes the call of a row, and answers whether it is as the row says.
fn carry_out<S: Site>(site: &mut S, ring: &mut Ring, step: Step<'_>) -> Result<bool, Stop>
    requires { IsUsable ring.old (S.state site.old) }
    ensures usable { IsUsable ring.new (S.state site.new) }
    ensures shape { ring.new.shape ≡ ring.old.shape }
{
    usable_stays();
    match step {
        Step::Write(at, octets) => write(site, ring, at, octets),
        Step::Append(content, answer) => Ok(append(site, ring, content, answer)),
        Step::Scan => {
            *ring = Ring::scan(site, ring.shape)?;
            Ok(true)
        }
        Step::Again => Ok(Ring::scan(site, ring.shape)? == *ring),
        Step::Near(first) => is_near(site, ring, first),
        Step::Judged(same) => is_judged(site, ring, same),
        Step::Unit(n, front) => has_unit(site, ring, n, front),
        Step::Part(n, at, part) => has_part(site, ring, n, at, part),
        Step::Two(n, first, second) => has_two(site, ring, n, first, second),
        Step::Stands(..) | Step::Has(..) | Step::Reads(_) | Step::Changes(_) => Ok(true),
    }
}

// Whether a row that makes no call holds.
fn holds(site: &MemSite, ring: &Ring, step: Step<'_>) -> bool
    requires { 1 ≤ ring.now.shape.slots }
{
    match step {
        Step::Stands(at, octets) => {
            let content = site.content(ring.shape.dev);
            at <= content.len() && content[at..].starts_with(octets)
        }
        Step::Has(hi, oldest, ended) => {
            ring.hi() == hi && ring.oldest() == oldest && ring.ended() == ended
        }
        Step::Reads(reads) => site.reads(ring.shape.dev) == reads,
        Step::Changes(changes) => site.changes() == changes,
        _ => true,
    }
}

// Finds the ring, plays the rows, and answers how many are as they say, up to the first one that isn't.
fn play(site: &mut MemSite, shape: Shape, steps: &[Step<'_>]) -> Result<usize, Stop>
    requires { FitsIn shape (length (content_of shape.dev (state_of site.old).image)) }
{
    usable_stays();
    let mut ring = Ring::scan(site, shape)?;
    for (row, step) in steps.iter().enumerate() {
        if !carry_out(site, &mut ring, *step)? {
            return Ok(row);
        }
        if !holds(site, &ring, *step) {
            return Ok(row);
        }
    }
    Ok(steps.len())
}

#[test]
fn the_last_two_of_five_units_live(rt: HostRuntime) -> Result<(), Fail> {
    // Unit 3 in slot 0, unit 4 in slot 1, and unit 2 behind a closed gate in slot 2.
    let steps = [
        Step::Append(&[10; 503], Ok(())),
        Step::Append(&[11; 503], Ok(())),
        Step::Append(&[12; 503], Ok(())),
        Step::Append(&[13; 503], Ok(())),
        Step::Append(&[14; 503], Ok(())),
        Step::Again,
        Step::Has(5, 3, false),
        Step::Unit(3, [0, 0, 0, 0, 0, 0, 0, 3, 13, 13]),
        Step::Unit(4, [0, 0, 0, 0, 0, 0, 0, 4, 14, 14]),
        Step::Stands(0, &[0xA5, 0, 0, 0, 0, 0, 0, 0, 3]),
        Step::Stands(9, &[13; 503]),
        Step::Stands(512, &[0xA5]),
        Step::Stands(520, &[4]),
        Step::Stands(1_024, &[0]),
        Step::Stands(1_032, &[2, 12]),
    ];
    let mut site = MemSite::new(rt.alloc(), &SMALL)?;
    assert_eq!(rt; play(&mut site, SHORT, &steps)?, steps.len());
    Ok(())
}

#[test]
fn a_part_of_a_unit(rt: HostRuntime) -> Result<(), Fail> {
    let mut content = [7; 503];
    content[100] = 8;
    content[102] = 9;
    let steps = [
        Step::Append(&content, Ok(())),
        Step::Has(1, 0, false),
        Step::Part(0, 100, [8, 7, 9, 7]),
    ];
    let mut site = MemSite::new(rt.alloc(), &SMALL)?;
    assert_eq!(rt; play(&mut site, SHORT, &steps)?, steps.len());
    Ok(())
}

#[test]
fn slots_one_behind_the_other(rt: HostRuntime) -> Result<(), Fail> {
    let steps = [
        Step::Append(&[10; 503], Ok(())),
        Step::Append(&[11; 503], Ok(())),
        Step::Has(2, 0, false),
        Step::Reads(7),
        Step::Two(
            0,
            [0xA5, 0, 0, 0, 0, 0, 0, 0, 0, 10],
            [0xA5, 0, 0, 0, 0, 0, 0, 0, 1, 11],
        ),
        Step::Reads(8),
    ];
    let mut site = MemSite::new(rt.alloc(), &SMALL)?;
    assert_eq!(rt; play(&mut site, SIX, &steps)?, steps.len());
    Ok(())
}

#[test]
fn a_worn_ring_makes_no_call(rt: HostRuntime) -> Result<(), Fail> {
    let steps = [
        Step::Write(0, &[0xA5, 0, 0, 0, 0xFF, 0xFF, 0xFF, 0xFF, 0xFF]),
        Step::Write(1_025, &[0, 0, 0, 0xFF, 0xFF, 0xFF, 0xFF, 0xFE]),
        Step::Scan,
        Step::Has(1_099_511_627_776, 1_099_511_627_774, false),
        Step::Append(&[7; 503], Err(Stop::Worn(Dev::Log))),
        Step::Has(1_099_511_627_776, 1_099_511_627_774, true),
        Step::Changes(2),
    ];
    let mut site = MemSite::new(rt.alloc(), &SMALL)?;
    assert_eq!(rt; play(&mut site, SHORT, &steps)?, steps.len());
    Ok(())
}

#[test]
fn a_fault_ends_the_ring(rt: HostRuntime) -> Result<(), Fail> {
    // Its gate was written, but a crash may take it back.
    let steps = [
        Step::Append(&[7; 503], Err(Stop::Device(Dev::Log))),
        Step::Has(0, 0, true),
        Step::Stands(0, &[0xA5]),
    ];
    let mut site = MemSite::new(rt.alloc(), &SMALL)?;
    site.fail(Call::Sync(Dev::Log), 2)?;
    assert_eq!(rt; play(&mut site, SHORT, &steps)?, steps.len());
    let site = site.crash(1);
    assert_eq!(rt; site.content(Dev::Log).first(), Some(&0));
    Ok(())
}

#[test]
fn a_long_unit(rt: HostRuntime) -> Result<(), Fail> {
    let steps = [
        Step::Append(&[9; 32_896], Ok(())),
        Step::Again,
        Step::Stands(0, &[0xA5, 0, 0, 0, 0, 0, 0, 0, 0, 9]),
        Step::Stands(32_904, &[9, 0]),
    ];
    let mut site = MemSite::new(rt.alloc(), &SMALL)?;
    assert_eq!(rt; play(&mut site, LONG, &steps)?, steps.len());
    Ok(())
}

#[test]
fn a_ring_from_a_number_near_its_end(rt: HostRuntime) -> Result<(), Fail> {
    let steps = [
        Step::Append(&[10; 503], Ok(())),
        Step::Append(&[11; 503], Ok(())),
        Step::Reads(7),
        Step::Near(0),
        Step::Reads(10),
        Step::Near(2),
        Step::Reads(11),
    ];
    let mut site = MemSite::new(rt.alloc(), &SMALL)?;
    assert_eq!(rt; play(&mut site, SIX, &steps)?, steps.len());
    Ok(())
}

#[test]
fn a_ring_that_was_appended_to_is_of_the_form(rt: HostRuntime) -> Result<(), Fail> {
    let steps = [Step::Append(&[10; 503], Ok(())), Step::Judged(true)];
    let mut site = MemSite::new(rt.alloc(), &SMALL)?;
    assert_eq!(rt; play(&mut site, SHORT, &steps)?, steps.len());
    Ok(())
}

// Slot 2 of a ring that has no unit holds the number 2 behind a closed gate.
#[test]
fn a_number_in_a_slot_that_was_never_used_is_not(rt: HostRuntime) -> Result<(), Fail> {
    let steps = [
        Step::Write(1_025, &[0, 0, 0, 0, 0, 0, 0, 2]),
        Step::Judged(false),
    ];
    let mut site = MemSite::new(rt.alloc(), &SMALL)?;
    assert_eq!(rt; play(&mut site, SHORT, &steps)?, steps.len());
    Ok(())
}

// Unit 0 stands behind an open gate, and so does slot 1, where unit 1 is to come.
#[test]
fn an_open_gate_behind_the_last_unit_is_not(rt: HostRuntime) -> Result<(), Fail> {
    let steps = [
        Step::Write(0, &[0xA5]),
        Step::Write(512, &[0xA5]),
        Step::Judged(false),
    ];
    let mut site = MemSite::new(rt.alloc(), &SMALL)?;
    assert_eq!(rt; play(&mut site, SHORT, &steps)?, steps.len());
    Ok(())
}
