// Queues on a site in memory. A test is a table of rows, which one function plays.
ghost use Rattle.std.specs.Prelude.{IfOk, OnOk};
ghost use Rattle.std.specs.Bool.{OnTrue};
ghost use Rattle.flash_cache.specs.Representation.{Invariant};
ghost use Rattle.mem_site.specs.MemState.{state_of};
ghost use Rattle.disk_pages.specs.Pages.{LiesOn};

use byte_fields::Mark;
use disk_pages::read_page;
use flash_cache::{FlashCache, PushPlan};
use mem_site::{Call, MemSite};
use second_chance::plan_evict;
use site::{Dev, Failed, Geometry, Site, Stop};
use slotted_page::Page;
use std::alloc::Global;
use std::test::Fail;

const SMALL: Geometry = Geometry {
    pages: 16,
    groups: 8,
    blocks: 16,
};

const MANY: Geometry = Geometry {
    pages: 16,
    groups: 16_384,
    blocks: 16,
};

const NO_MARK: Mark = Mark {
    page: 0,
    valid: false,
    dirty: false,
    referenced: false,
};

// Octets of the flash, each behind its place: as unit 0 a group of one frame, of page 3, not dirty, with a 7 at its
// octet 100; as unit 1 another one, of the same page, dirty, with an 8 there.
const TWO_GROUPS: [(u64, u8); 10] = [
    (0, 0xA5),
    (9, 1),
    (16, 3),
    (237, 7),
    (33_280, 0xA5),
    (33_288, 1),
    (33_289, 1),
    (33_290, 1),
    (33_296, 3),
    (33_517, 8),
];

// A row of a test.
#[derive(Clone, Copy)]
enum Step {
    // A page, all of whose octets are this one, is pushed as a changed one or not, and the call answers this.
    Push(u32, bool, u8, Result<(), Stop>),
    // These pages are pushed one by one, from the first one to before the last one, each dirty and with its number as
    // each octet.
    PushRun(u8, u8),
    // A push of this dirty page, with this octet, answers or ends the cache, and answers only where this is true.
    Stopped(u32, u8, bool),
    // A fetch of this page gives these as its octets 99 and 100, or this error.
    Fetch(u32, Result<[u8; 2], Stop>),
    // Each octet of the version of this page is this one.
    Version(u32, u8),
    // The cache is started again.
    Start,
    // The next such call fails, or all calls do behind so many changes.
    Fail(Call),
    Fuse(u64),
    // The cache has so many groups, this front group, a frame of this page or none, and is ended or not.
    Groups(usize),
    First(u64),
    Holds(u32, bool),
    Ended(bool),
    // The group at this place has one frame, with this mark.
    Marks(usize, Mark),
    // So many changes were made in all, and so many reads of a device, or no more than so many.
    Changes(u64),
    Reads(Dev, u64),
    FewReads(Dev, u64),
}

// Sets octets of the flash, where it has their places.
fn put<S: Site>(site: &mut S, octets: &[(u64, u8)]) -> Result<(), Failed> {
    for &(place, octet) in octets {
        if place < site.len(Dev::Flash) {
            site.write_at(Dev::Flash, place, &[octet])?;
        }
    }
    Ok(())
}

// Starts a cache, where the devices have the lengths of sizes.
fn start<S: Site>(alloc: Global, site: &mut S) -> Result<FlashCache, Stop>
    ensures { IfOk result (λ cache. Invariant cache (S.state site.new)) }
{
    let log = site.len(Dev::Log);
    let flash = site.len(Dev::Flash);
    let Some(geometry) = Geometry::of_lengths(log, flash, site.len(Dev::Disk)) else {
        return Err(Stop::Foreign);
    };
    FlashCache::start(alloc, site, &geometry)
}

// Whether the disk has a page.
fn has_page<S: Site>(site: &S, page: u32) -> bool
    ensures { OnTrue result (LiesOn page (S.state site.now).image.disk) }
{
    4_096 * page as u64 + 4_096 <= site.len(Dev::Disk)
}

// Pushes one page, all of whose octets are this one, with the plan for the front group, where the new group has room
// for it beside its second chances.
fn push<S: Site>(
    site: &mut S,
    cache: &mut FlashCache,
    page: u32,
    changed: bool,
    octet: u8,
) -> Result<(), Stop>
    requires { Invariant cache.old (S.state site.old) }
    ensures { Invariant cache.new (S.state site.new) }
{
    if !has_page(site, page) {
        return Err(Stop::Foreign);
    }
    let mut marks = [NO_MARK; 8];
    let count = cache.front_marks(&mut marks);
    let front = &marks[..count];
    let plan = PushPlan {
        front,
        plan: plan_evict(Some(front), &[]),
    };
    if plan.plan.chances.len() > 7 {
        return Err(Stop::Memory);
    }
    let content = Page::from_bytes(&[octet; 4096]);
    cache.push_group(site, &plan, &[page], &[changed], &[content])
}

// Pushes pages one by one, each dirty and with its number as each octet.
fn push_run<S: Site>(site: &mut S, cache: &mut FlashCache, from: u8, end: u8) -> Result<(), Stop>
    requires { Invariant cache.old (S.state site.old) }
    ensures { Invariant cache.new (S.state site.new) }
{
    for page in from..end {
        push(site, cache, page as u32, true, page)?;
    }
    Ok(())
}

// Whether a fetch of a page gives these as its octets 99 and 100, or this error.
fn fetches<S: Site>(
    site: &mut S,
    cache: &mut FlashCache,
    page: u32,
    gives: Result<[u8; 2], Stop>,
) -> bool
    requires { Invariant cache.old (S.state site.old) }
    ensures { Invariant cache.new (S.state site.new) }
{
    let mut content = Page::empty();
    let fetched = cache.fetch(site, page, &mut content);
    match gives {
        Ok(octets) => fetched == Ok(true) && content.bytes()[99..].starts_with(&octets),
        Err(stop) => fetched == Err(stop),
    }
}

// Whether each octet of a page's version is this one.
fn has_version(
    site: &mut MemSite,
    cache: &mut FlashCache,
    page: u32,
    octet: u8,
) -> Result<bool, Stop>
    requires { Invariant cache.old (state_of site.old) }
    ensures { Invariant cache.new (state_of site.new) }
{
    if !has_page(site, page) {
        return Ok(false);
    }
    let mut found = Page::empty();
    if !cache.fetch(site, page, &mut found)? {
        let mut octets = [0; 4096];
        read_page(site, page, &mut octets)?;
        found = Page::from_bytes(&octets);
    }
    Ok(found.bytes() == [octet; 4096].as_slice())
}

// Makes the call of a row, and answers whether it is as the row says.
fn carry_out(
    alloc: Global,
    site: &mut MemSite,
    cache: &mut FlashCache,
    step: Step,
) -> Result<bool, Stop>
    requires { Invariant cache.old (state_of site.old) }
    ensures { OnOk result (Invariant cache.new (state_of site.new)) }
{
    match step {
        Step::Push(page, changed, octet, answer) => {
            Ok(push(site, cache, page, changed, octet) == answer)
        }
        Step::PushRun(from, end) => {
            push_run(site, cache, from, end)?;
            Ok(true)
        }
        Step::Stopped(page, octet, done) => {
            let answered = push(site, cache, page, true, octet).is_ok();
            Ok(answered != cache.ended() && (done || !answered))
        }
        Step::Fetch(page, gives) => Ok(fetches(site, cache, page, gives)),
        Step::Version(page, octet) => has_version(site, cache, page, octet),
        Step::Start => {
            *cache = start(alloc, site)?;
            Ok(true)
        }
        Step::Fail(call) => {
            site.fail(call, 1)?;
            Ok(true)
        }
        Step::Fuse(changes) => {
            site.fuse(changes);
            Ok(true)
        }
        _ => Ok(true),
    }
}

// Whether the group at a place has one frame, with this mark.
fn has_mark(cache: &FlashCache, place: usize, mark: Mark) -> bool {
    if place >= cache.groups() {
        return false;
    }
    let mut marks = [NO_MARK; 8];
    cache.marks(place, &mut marks) == 1 && marks[0] == mark
}

// Whether a row that makes no call on the site holds.
fn holds(site: &MemSite, cache: &FlashCache, step: Step) -> bool {
    match step {
        Step::Groups(groups) => cache.groups() == groups,
        Step::First(first) => cache.first() == first,
        Step::Holds(page, held) => cache.holds(page) == held,
        Step::Ended(ended) => cache.ended() == ended,
        Step::Marks(place, mark) => has_mark(cache, place, mark),
        Step::Changes(changes) => site.changes() == changes,
        Step::Reads(dev, reads) => site.reads(dev) == reads,
        Step::FewReads(dev, reads) => site.reads(dev) <= reads,
        _ => true,
    }
}

// Starts a cache, plays the rows, and answers how many are as they say, up to the first one that isn't.
fn play_on(alloc: Global, site: &mut MemSite, steps: &[Step]) -> Result<usize, Stop> {
    let mut cache = start(alloc, site)?;
    for (row, step) in steps.iter().enumerate() {
        if !carry_out(alloc, site, &mut cache, *step)? {
            return Ok(row);
        }
        if !holds(site, &cache, *step) {
            return Ok(row);
        }
    }
    Ok(steps.len())
}

// Plays the rows over devices of these sizes, blank but for these octets of the flash.
fn play(
    alloc: Global,
    geometry: &Geometry,
    octets: &[(u64, u8)],
    steps: &[Step],
) -> Result<usize, Fail> {
    let mut site = MemSite::new(alloc, geometry)?;
    put(&mut site, octets)?;
    Ok(play_on(alloc, &mut site, steps)?)
}

#[test]
fn a_blank_queue_of_many_groups(rt: HostRuntime) -> Result<(), Fail> {
    let steps = [Step::Groups(0), Step::FewReads(Dev::Flash, 8_210)];
    assert_eq!(rt; play(rt.alloc(), &MANY, &[], &steps)?, steps.len());
    Ok(())
}

#[test]
fn the_newest_frame_is_fetched(rt: HostRuntime) -> Result<(), Fail> {
    let steps = [
        Step::Groups(2),
        Step::First(0),
        Step::Holds(3, true),
        Step::Holds(4, false),
        Step::Fetch(3, Ok([0, 8])),
        Step::Reads(Dev::Flash, 12),
    ];
    assert_eq!(rt; play(rt.alloc(), &SMALL, &TWO_GROUPS, &steps)?, steps.len());
    Ok(())
}

#[test]
fn marks_of_the_queue(rt: HostRuntime) -> Result<(), Fail> {
    let steps = [
        Step::Groups(2),
        Step::Marks(0, Mark { page: 3, ..NO_MARK }),
        Step::Marks(
            1,
            Mark {
                page: 3,
                valid: true,
                dirty: true,
                ..NO_MARK
            },
        ),
    ];
    assert_eq!(rt; play(rt.alloc(), &SMALL, &TWO_GROUPS, &steps)?, steps.len());
    Ok(())
}

#[test]
fn a_fault_ends_the_cache(rt: HostRuntime) -> Result<(), Fail> {
    let steps = [
        Step::Fail(Call::Read(Dev::Flash)),
        Step::Fetch(3, Err(Stop::Device(Dev::Flash))),
        Step::Ended(true),
    ];
    assert_eq!(rt; play(rt.alloc(), &SMALL, &TWO_GROUPS, &steps)?, steps.len());
    Ok(())
}

// What the next run finds where the push of page 10 was done, and where it wasn't.
const DONE: [Step; 12] = [
    Step::Holds(10, true),
    Step::Groups(7),
    Step::Holds(3, false),
    Step::First(1),
    Step::Version(3, 3),
    Step::Version(4, 4),
    Step::Version(5, 5),
    Step::Version(6, 6),
    Step::Version(7, 7),
    Step::Version(8, 8),
    Step::Version(9, 9),
    Step::Version(10, 0x50),
];

const NOT_DONE: [Step; 12] = [
    Step::Holds(10, false),
    Step::Groups(7),
    Step::Holds(3, true),
    Step::First(0),
    Step::Version(3, 3),
    Step::Version(4, 4),
    Step::Version(5, 5),
    Step::Version(6, 6),
    Step::Version(7, 7),
    Step::Version(8, 8),
    Step::Version(9, 9),
    Step::Version(10, 0),
];

// Stops a push that stages page 3 at one of its changes, and answers whether the next run finds the new group, or not,
// and each page's version as it is to be.
fn survives(alloc: Global, changes: u64, seed: u64, done: bool) -> Result<bool, Stop> {
    let steps = [
        Step::PushRun(3, 10),
        Step::Fuse(changes),
        Step::Stopped(10, 0x50, done),
    ];
    let mut site = MemSite::new(alloc, &SMALL)?;
    if play_on(alloc, &mut site, &steps)? != steps.len() {
        return Ok(false);
    }
    let mut site = site.crash(seed);
    let found = if done { DONE } else { NOT_DONE };
    Ok(play_on(alloc, &mut site, &found)? == found.len())
}

#[test]
fn a_stopped_push_is_done_or_not(rt: HostRuntime) -> Result<(), Fail> {
    // By the change that is stopped, and by the seeds 0, 1, 2 and 77: the write of page 3 and the sync of the disk;
    // number and content, the next gate, and a sync; the gate, which a crash may leave open or closed, and a sync.
    let rows: [[bool; 4]; 8] = [
        [false, false, false, false],
        [false, false, false, false],
        [false, false, false, false],
        [false, false, false, false],
        [false, false, false, false],
        [true, false, true, false],
        [true, false, true, false],
        [true, true, true, true],
    ];
    for (changes, row) in rows.iter().enumerate() {
        for (seed, done) in [0, 1, 2, 77].iter().zip(row) {
            assert!(rt; survives(rt.alloc(), changes as u64, *seed, *done)?);
        }
    }
    Ok(())
}

#[test]
fn a_push_to_a_queue_with_room(rt: HostRuntime) -> Result<(), Fail> {
    let steps = [
        Step::Push(3, false, 7, Ok(())),
        Step::Changes(5),
        Step::Groups(1),
        Step::First(0),
        Step::Holds(3, true),
        Step::Marks(
            0,
            Mark {
                page: 3,
                valid: true,
                ..NO_MARK
            },
        ),
    ];
    assert_eq!(rt; play(rt.alloc(), &SMALL, &[], &steps)?, steps.len());
    Ok(())
}

#[test]
fn a_push_to_a_full_queue(rt: HostRuntime) -> Result<(), Fail> {
    let steps = [
        Step::PushRun(3, 10),
        // Seven groups and one segment; the two rings are found by six reads and one, and the segment has the heads of
        // four groups.
        Step::Changes(40),
        Step::Reads(Dev::Flash, 11),
        Step::Push(10, true, 0x50, Ok(())),
        // One write and one sync of the disk, and five changes of an append.
        Step::Changes(47),
        Step::Reads(Dev::Flash, 12),
        Step::Reads(Dev::Disk, 0),
        Step::Groups(7),
        Step::First(1),
        Step::Holds(3, false),
        Step::Version(3, 3),
        Step::Version(4, 4),
        Step::Version(5, 5),
        Step::Version(6, 6),
        Step::Version(7, 7),
        Step::Version(8, 8),
        Step::Version(9, 9),
    ];
    assert_eq!(rt; play(rt.alloc(), &SMALL, &[], &steps)?, steps.len());
    Ok(())
}

#[test]
fn a_sync_that_fails_ends_the_cache(rt: HostRuntime) -> Result<(), Fail> {
    let steps = [
        Step::PushRun(3, 10),
        Step::Fail(Call::Sync(Dev::Disk)),
        Step::Push(10, true, 0x50, Err(Stop::Device(Dev::Disk))),
        Step::Ended(true),
        Step::Holds(10, false),
        Step::First(0),
    ];
    assert_eq!(rt; play(rt.alloc(), &SMALL, &[], &steps)?, steps.len());
    Ok(())
}

#[test]
fn a_ring_of_segments_that_turned_over(rt: HostRuntime) -> Result<(), Fail> {
    let steps = [
        Step::PushRun(3, 10),
        Step::PushRun(3, 10),
        Step::PushRun(3, 10),
        Step::PushRun(3, 10),
        // 28 groups were pushed, and six segments, of which the ring has five slots.
        Step::Start,
        Step::Groups(7),
        Step::First(21),
        Step::Version(3, 3),
        Step::Version(4, 4),
        Step::Version(5, 5),
        Step::Version(6, 6),
        Step::Version(7, 7),
        Step::Version(8, 8),
        Step::Version(9, 9),
    ];
    assert_eq!(rt; play(rt.alloc(), &SMALL, &[], &steps)?, steps.len());
    Ok(())
}
