// The database over a site in memory. What is expected was worked out by hand. A test is a table of rows, which one
// function plays.
ghost use Rattle.mem_site.specs.MemState.{state_of};
ghost use Rattle.std.specs.Prelude.{IfOk, OnOk, ◌<◌, ◌≤◌, length};
ghost use Rattle.engine.specs.Invariant.{Invariant};

use engine::Engine;
use mem_site::{Call, MemSite};
use record_model::{Octets, Reply, Stat, Why};
use site::{Dev, Failed, Geometry, Site, Stop};
use std::alloc::Global;
use std::test::Fail;

const STANDARD: Geometry = Geometry {
    pages: 16,
    groups: 8,
    blocks: 64,
};

const SMALL: Geometry = Geometry {
    pages: 16,
    groups: 8,
    blocks: 16,
};

// What is asked of the database.
#[derive(Clone, Copy)]
enum Ask {
    Begin(u32),
    Read(u32, u32),
    Write(u32, u32, u8),
    Erase(u32, u32),
    Commit(u32),
    Abort(u32),
    Mark(u32),
    Back(u32),
    // A session goes back to so many writes.
    BackTo(u32, u32),
    Get(u32),
    Set(u32, u8),
    Checkpoint,
    // A record is set to this octet, so many times, or written by a session.
    SetTimes(u32, u8, usize),
    WriteTimes(u32, u32, u8, usize),
    Stat,
    // The first of 120 octets 0x5A on the flash is set to this one, while the database goes on.
    Put(u8),
}

// What the database answers.
#[derive(Clone, Copy)]
enum Answer {
    Done,
    Nothing,
    Aborted,
    // So many writes were dropped.
    Back(u64),
    Checked,
    Committed(u64),
    // The record has this octet alone, or this one and then 119 times the other.
    Found(u8),
    FoundLong(u8, u8),
    Busy(u32),
    Refused(Why),
    // So many records are used and owed, of 15 that there is room for.
    Full(u64, u64),
    // The page needs so many octets.
    PageFull(u32, u32),
    Stat(Stat),
}

// A value of one octet.
fn octet(octet: u8) -> Octets {
    match Octets::from_slice(&[octet]) {
        Some(octets) => octets,
        None => unreachable!(),
    }
}

// A value of an octet, so many times, at most 201.
fn times(octet: u8, count: usize) -> Octets {
    let octets = [octet; 201];
    match Octets::from_slice(&octets[..count.min(201)]) {
        Some(octets) => octets,
        None => unreachable!(),
    }
}

// Whether a value is this octet, and then 119 times the other.
fn is_long(value: &Octets, first: u8, octet: u8) -> bool {
    let mut wanted = [octet; 120];
    wanted[0] = first;
    value.as_slice() == wanted.as_slice()
}

// Whether a reply is this answer.
fn is_answer(reply: &Reply, answer: Answer) -> bool {
    match (reply, answer) {
        (Reply::Done, Answer::Done) => true,
        (Reply::Nothing, Answer::Nothing) => true,
        (Reply::Aborted, Answer::Aborted) => true,
        (Reply::Back(count), Answer::Back(wanted)) => *count == wanted,
        (Reply::Checked, Answer::Checked) => true,
        (Reply::Committed(number), Answer::Committed(wanted)) => *number == wanted,
        (Reply::Value(value), Answer::Found(octet)) => value.as_slice() == [octet].as_slice(),
        (Reply::Value(value), Answer::FoundLong(first, octet)) => is_long(value, first, octet),
        (Reply::Busy(session), Answer::Busy(wanted)) => *session == wanted,
        (Reply::Refused(why), Answer::Refused(wanted)) => *why == wanted,
        (Reply::Full { used, owed, cap }, Answer::Full(wanted_used, wanted_owed)) => {
            *used == wanted_used && *owed == wanted_owed && *cap == 15
        }
        (Reply::PageFull { page, need }, Answer::PageFull(wanted_page, wanted_need)) => {
            *page == wanted_page && *need == wanted_need
        }
        (Reply::Stat(counts), Answer::Stat(wanted)) => *counts == wanted,
        _ => false,
    }
}

// Asks the database.
fn call<S: Site>(engine: &mut Engine, site: &mut S, ask: Ask) -> Result<Reply, Stop>
    requires going { Invariant engine.old (S.state site.old) }
    ensures going { OnOk result (Invariant engine.new (S.state site.new)) }
{
    match ask {
        Ask::Begin(session) => engine.begin(site, session),
        Ask::Read(session, number) => engine.read(site, session, number),
        Ask::Write(session, number, value) => engine.write(site, session, number, &octet(value)),
        Ask::Erase(session, number) => engine.erase(site, session, number),
        Ask::Commit(session) => engine.commit(site, session),
        Ask::Abort(session) => engine.abort(site, session),
        Ask::Mark(session) => Ok(engine.mark(session)),
        Ask::Back(session) => engine.back(site, session, None),
        Ask::BackTo(session, standing) => engine.back(site, session, Some(standing)),
        Ask::Get(number) => engine.get(site, number),
        Ask::Set(number, value) => engine.set(site, number, &octet(value)),
        Ask::SetTimes(number, value, count) => engine.set(site, number, &times(value, count)),
        Ask::WriteTimes(session, number, value, count) => {
            engine.write(site, session, number, &times(value, count))
        }
        Ask::Checkpoint => engine.checkpoint(site),
        Ask::Stat | Ask::Put(_) => Ok(engine.stat()),
    }
}

// Where the flash has the first 120 octets 0x5A in a row.
fn first_of_page(site: &MemSite) -> Option<usize> {
    let content = site.content(Dev::Flash);
    for place in 0..content.len() {
        if content[place..].starts_with(&[0x5A; 120]) {
            return Some(place);
        }
    }
    None
}

// Sets an octet of the flash while the database goes on.
fn put(engine: &Engine, site: &mut MemSite, place: u64, octet: u8) -> Result<(), Failed>
    requires going { Invariant engine.now (state_of site.old) }
    requires inside { place < length (state_of site.old).image.flash }
    ensures going { OnOk result (Invariant engine.now (state_of site.new)) }
{
    site.sync(Dev::Flash)?;
    site.poke(Dev::Flash, place, octet);
    Ok(())
}

// Sets the first of the 120 octets 0x5A, where they stand on the flash behind its first octet.
fn put_first(engine: &Engine, site: &mut MemSite, octet: u8) -> Result<Reply, Stop>
    requires going { Invariant engine.now (state_of site.old) }
    ensures going { OnOk result (Invariant engine.now (state_of site.new)) }
{
    let place = first_of_page(site).unwrap_or(0) as u64;
    if place == 0 || place >= site.len(Dev::Flash) {
        return Ok(Reply::Nothing);
    }
    match put(engine, site, place, octet) {
        Ok(()) => Ok(Reply::Done),
        Err(_) => Err(Stop::Device(Dev::Flash)),
    }
}

// Carries out a row, and answers its reply.
fn carry_out(engine: &mut Engine, site: &mut MemSite, ask: Ask) -> Result<Reply, Stop>
    requires going { Invariant engine.old (state_of site.old) }
    ensures going { OnOk result (Invariant engine.new (state_of site.new)) }
{
    match ask {
        Ask::Put(octet) => put_first(engine, site, octet),
        _ => call(engine, site, ask),
    }
}

// Plays rows, and answers how many of them got the replies that are wanted, up to the first one that didn't.
fn play(engine: &mut Engine, site: &mut MemSite, rows: &[(Ask, Answer)]) -> Result<usize, Stop>
    requires going { Invariant engine.old (state_of site.old) }
    ensures going { OnOk result (Invariant engine.new (state_of site.new)) }
{
    for (place, (ask, answer)) in rows.iter().enumerate() {
        let reply = carry_out(engine, site, *ask)?;
        if !is_answer(&reply, *answer) {
            return Ok(place);
        }
    }
    Ok(rows.len())
}

// Starts on a site.
fn start<S: Site>(alloc: Global, site: &mut S, pool: u32) -> Result<Engine, Stop>
    requires pool { (1 ≤ pool) × (pool ≤ 4096) }
    ensures { IfOk result (λ engine. Invariant engine (S.state site.new)) }
{
    Engine::start(alloc, site, pool)
}

// Starts on a site, and plays rows. Answers how many commits there were then, and how many rows got their replies.
fn run_on(alloc: Global, site: &mut MemSite, rows: &[(Ask, Answer)]) -> Result<(u64, usize), Stop> {
    let mut engine = start(alloc, site, 1)?;
    let commits = engine.commits();
    Ok((commits, play(&mut engine, site, rows)?))
}

// Starts on blank devices of these sizes, and plays rows.
fn run(alloc: Global, sizes: &Geometry, rows: &[(Ask, Answer)]) -> Result<usize, Stop> {
    let mut site = MemSite::new(alloc, sizes)?;
    let (_commits, held) = run_on(alloc, &mut site, rows)?;
    Ok(held)
}

const PENDING: &[(Ask, Answer)] = &[
    (Ask::Begin(0), Answer::Done),
    (Ask::Write(0, 7, 0x01), Answer::Done),
    (Ask::Begin(1), Answer::Done),
    (Ask::Read(1, 7), Answer::Busy(0)),
    (Ask::Get(7), Answer::Busy(0)),
    (Ask::Set(7, 0x02), Answer::Busy(0)),
    (Ask::Read(0, 7), Answer::Found(0x01)),
    (Ask::Abort(0), Answer::Aborted),
    (Ask::Read(1, 7), Answer::Nothing),
];

const READ_LOCKS: &[(Ask, Answer)] = &[
    (Ask::Begin(0), Answer::Done),
    (Ask::Begin(1), Answer::Done),
    (Ask::Read(0, 9), Answer::Nothing),
    (Ask::Read(1, 9), Answer::Nothing),
    (Ask::Write(0, 9, 0xaa), Answer::Busy(1)),
    (Ask::Commit(1), Answer::Committed(1)),
    (Ask::Write(0, 9, 0xaa), Answer::Done),
    (Ask::Commit(0), Answer::Committed(2)),
    (Ask::Get(9), Answer::Found(0xaa)),
];

const ERASED: &[(Ask, Answer)] = &[
    (Ask::Begin(0), Answer::Done),
    (Ask::Write(0, 1, 0xaa), Answer::Done),
    (Ask::Erase(0, 1), Answer::Done),
    (Ask::Read(0, 1), Answer::Nothing),
    (Ask::Commit(0), Answer::Committed(1)),
    (Ask::Get(1), Answer::Nothing),
];

const REFUSED: &[(Ask, Answer)] = &[
    (Ask::Begin(8), Answer::Refused(Why::BadSession)),
    (Ask::Read(0, 0), Answer::Refused(Why::BadSession)),
    (Ask::Begin(0), Answer::Done),
    (Ask::Begin(0), Answer::Refused(Why::BadSession)),
    (Ask::Write(1, 0, 0x01), Answer::Refused(Why::BadSession)),
    (Ask::Erase(1, 0), Answer::Refused(Why::BadSession)),
    (Ask::Commit(1), Answer::Refused(Why::BadSession)),
    (Ask::Abort(1), Answer::Refused(Why::BadSession)),
    (Ask::Read(0, 512), Answer::Refused(Why::NoRecord)),
    (Ask::Write(0, 512, 0x01), Answer::Refused(Why::NoRecord)),
    (Ask::Get(512), Answer::Refused(Why::NoRecord)),
    (Ask::Set(512, 0x01), Answer::Refused(Why::NoRecord)),
    (Ask::Set(5, 0xab), Answer::Committed(1)),
    (Ask::Get(5), Answer::Found(0xab)),
];

const UNDOING: &[(Ask, Answer)] = &[
    (Ask::Begin(0), Answer::Done),
    (Ask::Write(0, 1, 0xaa), Answer::Done),
    (Ask::Write(0, 1, 0xaa), Answer::Done),
    (Ask::Write(0, 1, 0xaa), Answer::Done),
    (Ask::Write(0, 1, 0xaa), Answer::Done),
    (Ask::Write(0, 1, 0xaa), Answer::Done),
    (Ask::Write(0, 1, 0xaa), Answer::Done),
    (Ask::Write(0, 1, 0xaa), Answer::Full(7, 7)),
    (Ask::Abort(0), Answer::Aborted),
    (
        Ask::Stat,
        Answer::Stat(Stat {
            commits: 0,
            used: 14,
            owed: 0,
            cap: 15,
            active: 0,
        }),
    ),
    (Ask::Set(0, 0xaa), Answer::Committed(1)),
];

const MARKED: &[(Ask, Answer)] = &[
    (Ask::Begin(0), Answer::Done),
    (Ask::Write(0, 1, 0xaa), Answer::Done),
    (Ask::Mark(0), Answer::Done),
    (Ask::Write(0, 1, 0xbb), Answer::Done),
    (Ask::Write(0, 2, 0xcc), Answer::Done),
    (Ask::Back(0), Answer::Back(2)),
    (Ask::Read(0, 1), Answer::Found(0xaa)),
    (Ask::Read(0, 2), Answer::Nothing),
    (Ask::Get(2), Answer::Busy(0)),
    (Ask::Commit(0), Answer::Committed(1)),
    (Ask::Get(1), Answer::Found(0xaa)),
    (Ask::Get(2), Answer::Nothing),
];

// A mark that stood behind the writes that are left falls to them.
const BACK_TO: &[(Ask, Answer)] = &[
    (Ask::Begin(0), Answer::Done),
    (Ask::Write(0, 1, 0xaa), Answer::Done),
    (Ask::Write(0, 1, 0xbb), Answer::Done),
    (Ask::Mark(0), Answer::Done),
    (Ask::Write(0, 1, 0xcc), Answer::Done),
    (Ask::BackTo(0, 4), Answer::Refused(Why::BadMark)),
    (Ask::BackTo(0, 3), Answer::Back(0)),
    (Ask::BackTo(0, 1), Answer::Back(2)),
    (Ask::Read(0, 1), Answer::Found(0xaa)),
    (Ask::Write(0, 1, 0xdd), Answer::Done),
    (Ask::Back(0), Answer::Back(1)),
    (Ask::Read(0, 1), Answer::Found(0xaa)),
    (Ask::BackTo(0, 0), Answer::Back(1)),
    (Ask::Read(0, 1), Answer::Nothing),
    (Ask::Get(1), Answer::Busy(0)),
    (Ask::Abort(0), Answer::Aborted),
    (Ask::Get(1), Answer::Nothing),
    (Ask::Mark(0), Answer::Refused(Why::BadSession)),
    (Ask::Back(0), Answer::Refused(Why::BadSession)),
];

const BACK_TO_THE_BEGIN: &[(Ask, Answer)] = &[
    (Ask::Begin(0), Answer::Done),
    (Ask::Write(0, 1, 0xaa), Answer::Done),
    (Ask::Write(0, 1, 0xaa), Answer::Done),
    (Ask::Write(0, 1, 0xaa), Answer::Done),
    (Ask::Write(0, 1, 0xaa), Answer::Done),
    (Ask::Write(0, 1, 0xaa), Answer::Done),
    (Ask::Write(0, 1, 0xaa), Answer::Done),
    (Ask::Back(0), Answer::Back(6)),
    (
        Ask::Stat,
        Answer::Stat(Stat {
            commits: 0,
            used: 13,
            owed: 1,
            cap: 15,
            active: 1,
        }),
    ),
    (Ask::Write(0, 1, 0xaa), Answer::Full(13, 1)),
    (Ask::Back(0), Answer::Back(0)),
    (Ask::Commit(0), Answer::Committed(1)),
];

const CHECKPOINTS: &[(Ask, Answer)] = &[
    (Ask::Set(0, 0x01), Answer::Committed(1)),
    (Ask::Checkpoint, Answer::Checked),
    (Ask::Checkpoint, Answer::Checked),
    (
        Ask::Stat,
        Answer::Stat(Stat {
            commits: 1,
            used: 0,
            owed: 0,
            cap: 63,
            active: 0,
        }),
    ),
    (Ask::Get(0), Answer::Found(0x01)),
];

const EACH_SESSION: &[(Ask, Answer)] = &[
    (Ask::Begin(0), Answer::Done),
    (Ask::Begin(1), Answer::Done),
    (Ask::Begin(2), Answer::Done),
    (Ask::Begin(3), Answer::Done),
    (Ask::Begin(4), Answer::Done),
    (Ask::Begin(5), Answer::Done),
    (Ask::Begin(6), Answer::Done),
    (Ask::Begin(7), Answer::Full(7, 7)),
    (Ask::Commit(0), Answer::Committed(1)),
    (Ask::Begin(7), Answer::Done),
    (
        Ask::Stat,
        Answer::Stat(Stat {
            commits: 1,
            used: 8,
            owed: 7,
            cap: 15,
            active: 7,
        }),
    ),
];

// Two pages are written by a session, which has not committed.
const WRITES: [(Ask, Answer); 3] = [
    (Ask::Begin(3), Answer::Done),
    (Ask::Write(3, 5, 0x0a), Answer::Done),
    (Ask::Write(3, 40, 0x0b), Answer::Done),
];

// Both records have what the session wrote, or neither.
const BOTH: [(Ask, Answer); 2] = [
    (Ask::Get(5), Answer::Found(0x0a)),
    (Ask::Get(40), Answer::Found(0x0b)),
];

const NEITHER: [(Ask, Answer); 2] = [
    (Ask::Get(5), Answer::Nothing),
    (Ask::Get(40), Answer::Nothing),
];

// Stops the commit of a session at one of its changes. Answers what a crash leaves then, and whether the commit was
// answered: exactly then the database isn't ended.
fn stopped(alloc: Global, changes: u64, seed: u64) -> Result<Option<(MemSite, bool)>, Stop> {
    let mut site = MemSite::new(alloc, &STANDARD)?;
    // A start on blank devices saves a master, by five changes. The writes stay in memory, as both pages do.
    site.fuse(changes.saturating_add(5));
    let mut engine = start(alloc, &mut site, 2)?;
    if play(&mut engine, &mut site, &WRITES)? < WRITES.len() {
        return Ok(None);
    }
    let answered = engine.commit(&mut site, 3).is_ok();
    if answered == engine.ended() {
        return Ok(None);
    }
    Ok(Some((site.crash(seed), answered)))
}

// Whether a run finds the commit done or not, as both records and the count of commits say it.
fn is_found(alloc: Global, site: &mut MemSite, done: bool) -> Result<bool, Stop> {
    let rows: &[(Ask, Answer)] = if done { &BOTH } else { &NEITHER };
    let (commits, held) = run_on(alloc, site, rows)?;
    Ok((commits == 1) == done && held == rows.len())
}

// Stops the commit of a session at one of its changes, and answers whether the next run finds it done or not, and done
// where it was answered.
fn survives(alloc: Global, changes: u64, seed: u64, done: bool) -> Result<bool, Stop> {
    match stopped(alloc, changes, seed)? {
        Some((mut site, answered)) => Ok((done || !answered) && is_found(alloc, &mut site, done)?),
        None => Ok(false),
    }
}

// Whether a commit is done, by the change that is stopped, and by the seeds 0, 1, 2 and 77.
const DONE: [[bool; 4]; 7] = [
    [false, false, false, false],
    [false, false, false, false],
    [false, false, false, false],
    [true, false, true, false],
    [true, false, true, false],
    [true, true, true, true],
    [true, true, true, true],
];

const SEEDS: [u64; 4] = [0, 1, 2, 77];

#[test]
fn a_stopped_commit_is_done_or_not(rt: HostRuntime) -> Result<(), Fail> {
    for (changes, row) in DONE.iter().enumerate() {
        for (seed, done) in SEEDS.iter().zip(row) {
            assert!(rt; survives(rt.alloc(), changes as u64, *seed, *done)?);
        }
    }
    Ok(())
}

const HALF_DONE: [(Ask, Answer); 6] = [
    (Ask::Set(1, 0xcc), Answer::Committed(1)),
    (Ask::Begin(0), Answer::Done),
    (Ask::Write(0, 1, 0xaa), Answer::Done),
    (Ask::Write(0, 2, 0xbb), Answer::Done),
    (Ask::Erase(0, 1), Answer::Done),
    (Ask::Set(5, 0x05), Answer::Committed(2)),
];

// A session's writes are sealed by the set of another record, and the session never ends.
fn half_done(alloc: Global) -> Result<MemSite, Stop> {
    let mut site = MemSite::new(alloc, &STANDARD)?;
    let _played = run_on(alloc, &mut site, &HALF_DONE)?;
    Ok(site.crash(1))
}

const UNDONE: [(Ask, Answer); 8] = [
    (Ask::Get(1), Answer::Found(0xcc)),
    (Ask::Get(2), Answer::Nothing),
    (Ask::Get(5), Answer::Found(0x05)),
    (Ask::Begin(0), Answer::Done),
    (Ask::Write(0, 1, 0xdd), Answer::Done),
    (Ask::Read(0, 1), Answer::Found(0xdd)),
    (Ask::Abort(0), Answer::Aborted),
    (Ask::Get(1), Answer::Found(0xcc)),
];

// Whether a run finds the table as it was before the session, and two commits.
fn is_undone(alloc: Global, site: &mut MemSite) -> Result<bool, Stop> {
    let (commits, held) = run_on(alloc, site, &UNDONE)?;
    Ok(commits == 2 && held == UNDONE.len())
}

#[test]
fn what_is_not_committed_is_undone(rt: HostRuntime) -> Result<(), Fail> {
    let mut site = half_done(rt.alloc())?;
    assert!(rt; is_undone(rt.alloc(), &mut site)?);
    let mut site = site.crash(0);
    assert!(rt; is_undone(rt.alloc(), &mut site)?);
    Ok(())
}

// What a crash leaves of a restart in which only so many changes pass, and whether it started.
fn restarted(alloc: Global, mut site: MemSite, changes: u64, seed: u64) -> (MemSite, bool) {
    site.fuse(changes);
    let started = start(alloc, &mut site, 1).is_ok();
    (site.crash(seed), started)
}

#[test]
fn a_stopped_restart_is_done_again(rt: HostRuntime) -> Result<(), Fail> {
    for seed in [0, 1, 2, 77] {
        for changes in 0..16 {
            let site = half_done(rt.alloc())?;
            let (site, started) = restarted(rt.alloc(), site, changes, seed);
            assert!(rt; started == (changes >= 15));
            let (mut site, _started) = restarted(rt.alloc(), site, changes, seed);
            assert!(rt; is_undone(rt.alloc(), &mut site)?);
        }
    }
    Ok(())
}

// A page that isn't in the pool is read from the flash, each time: what was changed there is seen.
const OUTSIDE: &[(Ask, Answer)] = &[
    (Ask::SetTimes(0, 0x5a, 120), Answer::Committed(1)),
    (Ask::Set(32, 0x02), Answer::Committed(2)),
    (Ask::Put(0x5b), Answer::Done),
    (Ask::Get(0), Answer::FoundLong(0x5b, 0x5a)),
];

#[test]
fn a_fault_ends_the_database(rt: HostRuntime) -> Result<(), Fail> {
    let mut site = MemSite::new(rt.alloc(), &STANDARD)?;
    // The start syncs the log twice, for its master.
    site.fail(Call::Sync(Dev::Log), 3)?;
    let mut engine = start(rt.alloc(), &mut site, 4096)?;
    assert!(rt; engine.commits() == 0);
    let answer = engine.set(&mut site, 5, &octet(0x0a));
    assert!(rt; matches!(answer, Err(Stop::Device(Dev::Log))));
    assert!(rt; engine.ended());
    Ok(())
}

const ODD: Geometry = Geometry {
    pages: 16,
    groups: 9,
    blocks: 64,
};

#[test]
fn devices_of_no_sizes_are_foreign(rt: HostRuntime) {
    assert!(rt; run(rt.alloc(), &ODD, &[]) == Err(Stop::Foreign));
}

// Records 0 to 18 of page 0 get 200 octets: 3,800 of the page's 3,952.
const FILL: &[(Ask, Answer)] = &[
    (Ask::SetTimes(0, 0x5a, 200), Answer::Committed(1)),
    (Ask::SetTimes(1, 0x5a, 200), Answer::Committed(2)),
    (Ask::SetTimes(2, 0x5a, 200), Answer::Committed(3)),
    (Ask::SetTimes(3, 0x5a, 200), Answer::Committed(4)),
    (Ask::SetTimes(4, 0x5a, 200), Answer::Committed(5)),
    (Ask::SetTimes(5, 0x5a, 200), Answer::Committed(6)),
    (Ask::SetTimes(6, 0x5a, 200), Answer::Committed(7)),
    (Ask::SetTimes(7, 0x5a, 200), Answer::Committed(8)),
    (Ask::SetTimes(8, 0x5a, 200), Answer::Committed(9)),
    (Ask::SetTimes(9, 0x5a, 200), Answer::Committed(10)),
    (Ask::SetTimes(10, 0x5a, 200), Answer::Committed(11)),
    (Ask::SetTimes(11, 0x5a, 200), Answer::Committed(12)),
    (Ask::SetTimes(12, 0x5a, 200), Answer::Committed(13)),
    (Ask::SetTimes(13, 0x5a, 200), Answer::Committed(14)),
    (Ask::SetTimes(14, 0x5a, 200), Answer::Committed(15)),
    (Ask::SetTimes(15, 0x5a, 200), Answer::Committed(16)),
    (Ask::SetTimes(16, 0x5a, 200), Answer::Committed(17)),
    (Ask::SetTimes(17, 0x5a, 200), Answer::Committed(18)),
    (Ask::SetTimes(18, 0x5a, 200), Answer::Committed(19)),
];

// A value is set where the page has room for it, up to its last octet.
const LAST_OCTET: &[(Ask, Answer)] = &[
    (Ask::SetTimes(19, 0x5a, 200), Answer::PageFull(0, 4000)),
    (Ask::SetTimes(19, 0x5a, 152), Answer::Committed(20)),
    (Ask::Set(20, 0xaa), Answer::PageFull(0, 3953)),
    (Ask::SetTimes(32, 0x5a, 200), Answer::Committed(21)),
    (Ask::Set(0, 0xaa), Answer::Committed(22)),
    (Ask::Set(20, 0xaa), Answer::Committed(23)),
    (Ask::Get(20), Answer::Found(0xaa)),
    (Ask::SetTimes(21, 0x5a, 201), Answer::Refused(Why::TooLong)),
];

// What a session's shorter value took the place of may come back until it commits.
const MAY_COME_BACK: &[(Ask, Answer)] = &[
    (Ask::Begin(0), Answer::Done),
    (Ask::Write(0, 0, 0xaa), Answer::Done),
    (Ask::SetTimes(19, 0x5a, 200), Answer::PageFull(0, 4000)),
    (Ask::WriteTimes(0, 19, 0x5a, 200), Answer::PageFull(0, 4000)),
    (Ask::Commit(0), Answer::Committed(20)),
    (Ask::SetTimes(19, 0x5a, 200), Answer::Committed(21)),
];

// What an abort takes back wants no room any more.
const ABORTED: &[(Ask, Answer)] = &[
    (Ask::Begin(0), Answer::Done),
    (Ask::WriteTimes(0, 19, 0x5a, 152), Answer::Done),
    (Ask::Begin(1), Answer::Done),
    (Ask::Write(1, 20, 0xbb), Answer::PageFull(0, 3953)),
    (Ask::Erase(1, 18), Answer::Done),
    (Ask::Write(1, 20, 0xbb), Answer::PageFull(0, 3953)),
    (Ask::Abort(0), Answer::Aborted),
    (Ask::Write(1, 20, 0xbb), Answer::Done),
    (Ask::Set(21, 0xcc), Answer::Committed(20)),
    (Ask::Abort(1), Answer::Aborted),
    (Ask::SetTimes(19, 0x5a, 151), Answer::Committed(21)),
    (Ask::Set(20, 0xbb), Answer::PageFull(0, 3953)),
];

// A session's longer value stands behind a shorter one, and goes on standing where that is dropped.
const GONE_BACK: &[(Ask, Answer)] = &[
    (Ask::Begin(0), Answer::Done),
    (Ask::WriteTimes(0, 19, 0x5a, 152), Answer::Done),
    (Ask::Mark(0), Answer::Done),
    (Ask::Write(0, 19, 0xaa), Answer::Done),
    (Ask::Set(20, 0xbb), Answer::PageFull(0, 3953)),
    (Ask::Back(0), Answer::Back(1)),
    (Ask::Set(20, 0xbb), Answer::PageFull(0, 3953)),
    (Ask::BackTo(0, 0), Answer::Back(1)),
    (Ask::Set(20, 0xbb), Answer::Committed(20)),
    (Ask::Read(0, 19), Answer::Nothing),
    (Ask::WriteTimes(0, 19, 0x5a, 152), Answer::PageFull(0, 3953)),
    (Ask::WriteTimes(0, 19, 0x5a, 151), Answer::Done),
    (Ask::Commit(0), Answer::Committed(21)),
];

// The tests by their names, with the sizes of the devices.
const TESTS: [(&str, Geometry, &[(Ask, Answer)]); 11] = [
    (
        "a_pending_write_is_seen_by_its_session_alone",
        STANDARD,
        PENDING,
    ),
    ("read_locks_last_to_the_end", STANDARD, READ_LOCKS),
    ("an_erased_record_has_nothing", STANDARD, ERASED),
    ("what_may_not_be_is_refused", STANDARD, REFUSED),
    ("undoing_has_room", SMALL, UNDOING),
    ("what_is_behind_the_mark_is_dropped", STANDARD, MARKED),
    ("a_session_goes_back_to_a_number", STANDARD, BACK_TO),
    (
        "writes_that_are_dropped_are_owed_no_more",
        SMALL,
        BACK_TO_THE_BEGIN,
    ),
    ("a_checkpoint_lets_records_go", STANDARD, CHECKPOINTS),
    ("each_session_has_room_to_end", SMALL, EACH_SESSION),
    (
        "a_page_outside_the_pool_is_read_from_flash",
        STANDARD,
        OUTSIDE,
    ),
];

#[test]
fn replies_are_as_they_are_to_be(rt: HostRuntime) -> Result<(), Fail> {
    for (name, sizes, rows) in TESTS {
        let held = run(rt.alloc(), &sizes, rows)?;
        assert!(rt; held == rows.len(), "{name}: row {held}");
    }
    Ok(())
}

// Those of a page that is nearly full.
const NEARLY_FULL: [(&str, &[(Ask, Answer)]); 4] = [
    ("a_page_is_full_behind_its_last_octet", LAST_OCTET),
    ("what_may_come_back_wants_room", MAY_COME_BACK),
    ("an_abort_leaves_room", ABORTED),
    ("going_back_leaves_room", GONE_BACK),
];

// Fills the page, and plays rows. Answers how many of these got their replies, where it was filled.
fn run_filled(alloc: Global, rows: &[(Ask, Answer)]) -> Result<Option<usize>, Stop> {
    let mut site = MemSite::new(alloc, &STANDARD)?;
    let mut engine = start(alloc, &mut site, 1)?;
    if play(&mut engine, &mut site, FILL)? < FILL.len() {
        return Ok(None);
    }
    Ok(Some(play(&mut engine, &mut site, rows)?))
}

#[test]
fn full_pages_are_told(rt: HostRuntime) -> Result<(), Fail> {
    for (name, rows) in NEARLY_FULL {
        let held = run_filled(rt.alloc(), rows)?;
        assert!(rt; held == Some(rows.len()), "{name}: {held:?}");
    }
    Ok(())
}
