// The database that a program owns, over a site in memory. What is expected was worked out by hand. A test is a table
// of rows, which one function plays.
use database::{Database, Unanswered};
use mem_site::MemSite;
use record_model::{Octets, Reply, Why};
use site::{Dev, Geometry, Stop};
use std::alloc::Global;
use std::test::Fail;

const SIZES: Geometry = Geometry {
    pages: 16,
    groups: 8,
    blocks: 64,
};

// What is asked of the database.
#[derive(Clone, Copy)]
enum Ask {
    Begin(u32),
    Read(u32, u32),
    Write(u32, u32, u8),
    Erase(u32, u32),
    Scan(u32, u32, u32),
    Commit(u32),
    Abort(u32),
    Mark(u32),
    Back(u32, Option<u32>),
    Get(u32),
    Set(u32, u8),
    Checkpoint,
    Cache,
    Stat,
}

// What it answers.
#[derive(Clone, Copy)]
enum Answer {
    Done,
    Nothing,
    Aborted,
    // So many writes were dropped.
    Back(u64),
    Checked,
    Committed(u64),
    // The record has this octet.
    Found(u8),
    // So many records have a value.
    Items(usize),
    // The cache has so many lines.
    Listing(usize),
    // So many commits, and so many sessions.
    Stat(u64, u64),
    Busy(u32),
    Refused(Why),
    // It stops by its log.
    LogFails,
    Closed,
}

// A value of one octet.
fn octet(octet: u8) -> Octets {
    match Octets::from_slice(&[octet]) {
        Some(octets) => octets,
        None => unreachable!(),
    }
}

// Whether a reply is this answer.
fn is_reply(reply: &Reply, answer: Answer) -> bool {
    match (reply, answer) {
        (Reply::Done, Answer::Done) => true,
        (Reply::Nothing, Answer::Nothing) => true,
        (Reply::Aborted, Answer::Aborted) => true,
        (Reply::Back(count), Answer::Back(wanted)) => *count == wanted,
        (Reply::Checked, Answer::Checked) => true,
        (Reply::Committed(number), Answer::Committed(wanted)) => *number == wanted,
        (Reply::Value(value), Answer::Found(octet)) => value.as_slice() == [octet].as_slice(),
        (Reply::Items(items), Answer::Items(wanted)) => items.len() == wanted,
        (Reply::Listing(lines), Answer::Listing(wanted)) => lines.len() == wanted,
        (Reply::Stat(counts), Answer::Stat(commits, active)) => {
            counts.commits == commits && counts.active == active
        }
        (Reply::Busy(session), Answer::Busy(wanted)) => *session == wanted,
        (Reply::Refused(why), Answer::Refused(wanted)) => *why == wanted,
        _ => false,
    }
}

// Whether it answers so.
fn is_answer(answer: &Result<Reply, Unanswered>, wanted: Answer) -> bool {
    match answer {
        Ok(reply) => is_reply(reply, wanted),
        Err(Unanswered::Closed) => matches!(wanted, Answer::Closed),
        Err(Unanswered::Stopped(stop)) => {
            matches!(wanted, Answer::LogFails) && *stop == Stop::Device(Dev::Log)
        }
    }
}

// Asks the database.
fn call(db: &mut Database<MemSite>, ask: Ask) -> Result<Reply, Unanswered> {
    match ask {
        Ask::Begin(session) => db.begin(session),
        Ask::Read(session, number) => db.read(session, number),
        Ask::Write(session, number, value) => db.write(session, number, &octet(value)),
        Ask::Erase(session, number) => db.erase(session, number),
        Ask::Scan(session, number, count) => db.scan(session, number, count),
        Ask::Commit(session) => db.commit(session),
        Ask::Abort(session) => db.abort(session),
        Ask::Mark(session) => db.mark(session),
        Ask::Back(session, standing) => db.back(session, standing),
        Ask::Get(number) => db.get(number),
        Ask::Set(number, value) => db.set(number, &octet(value)),
        Ask::Checkpoint => db.checkpoint(),
        Ask::Cache => db.cache(),
        Ask::Stat => db.stat(),
    }
}

// Plays rows, and answers how many of them got the answers that are wanted, up to the first one that didn't.
fn play(db: &mut Database<MemSite>, rows: &[(Ask, Answer)]) -> usize {
    for (place, (ask, wanted)) in rows.iter().enumerate() {
        if !is_answer(&call(db, *ask), *wanted) {
            return place;
        }
    }
    rows.len()
}

// Opens what stands on a site.
fn open(alloc: Global, site: MemSite) -> Result<Database<MemSite>, Stop> {
    match Database::open(alloc, site, 4) {
        Ok(db) => Ok(db),
        Err(left) => Err(left.stop),
    }
}

// Opens a database on blank devices.
fn make(alloc: Global) -> Result<Database<MemSite>, Stop> {
    open(alloc, MemSite::new(alloc, &SIZES)?)
}

const EACH_COMMAND: &[(Ask, Answer)] = &[
    (Ask::Set(7, 0x0a), Answer::Committed(1)),
    (Ask::Get(7), Answer::Found(0x0a)),
    (Ask::Begin(0), Answer::Done),
    (Ask::Read(0, 7), Answer::Found(0x0a)),
    (Ask::Write(0, 8, 0x0b), Answer::Done),
    (Ask::Mark(0), Answer::Done),
    (Ask::Write(0, 8, 0x0c), Answer::Done),
    (Ask::Back(0, None), Answer::Back(1)),
    (Ask::Back(0, Some(2)), Answer::Refused(Why::BadMark)),
    (Ask::Scan(0, 0, 64), Answer::Items(2)),
    (Ask::Erase(0, 7), Answer::Done),
    (Ask::Get(7), Answer::Busy(0)),
    (Ask::Begin(1), Answer::Done),
    (Ask::Read(1, 8), Answer::Busy(0)),
    (Ask::Read(1, 9), Answer::Nothing),
    (Ask::Stat, Answer::Stat(1, 2)),
    (Ask::Commit(0), Answer::Committed(2)),
    (Ask::Read(1, 8), Answer::Found(0x0b)),
    (Ask::Abort(1), Answer::Aborted),
    (Ask::Abort(1), Answer::Refused(Why::BadSession)),
    (Ask::Get(512), Answer::Refused(Why::NoRecord)),
    (Ask::Checkpoint, Answer::Checked),
    (Ask::Cache, Answer::Listing(3)),
    (Ask::Get(7), Answer::Nothing),
];

#[test]
fn each_command_is_answered(rt: HostRuntime) -> Result<(), Fail> {
    let mut db = make(rt.alloc())?;
    assert_eq!(rt; play(&mut db, EACH_COMMAND), EACH_COMMAND.len());
    assert!(rt; !db.is_closed());
    Ok(())
}

const STOPPED: &[(Ask, Answer)] = &[
    (Ask::Set(7, 0x0a), Answer::Committed(1)),
    (Ask::Begin(0), Answer::Done),
    (Ask::Write(0, 8, 0x0b), Answer::Done),
    (Ask::Commit(0), Answer::LogFails),
    (Ask::Commit(0), Answer::Closed),
    (Ask::Get(7), Answer::Closed),
    (Ask::Stat, Answer::Closed),
    (Ask::Cache, Answer::Closed),
];

const BOTH: &[(Ask, Answer)] = &[
    (Ask::Get(7), Answer::Found(0x0a)),
    (Ask::Get(8), Answer::Found(0x0b)),
    (Ask::Stat, Answer::Stat(2, 0)),
];

const FIRST_ALONE: &[(Ask, Answer)] = &[
    (Ask::Get(7), Answer::Found(0x0a)),
    (Ask::Get(8), Answer::Nothing),
    (Ask::Stat, Answer::Stat(1, 0)),
];

// A database whose commit stops at one of its changes, and what a crash leaves of it by a seed, opened again.
fn reopened(alloc: Global, changes: u64, seed: u64) -> Result<Option<Database<MemSite>>, Stop> {
    let mut site = MemSite::new(alloc, &SIZES)?;
    // A start on blank devices asks for five changes, and so does a set.
    site.fuse(changes.saturating_add(10));
    let mut db = open(alloc, site)?;
    if play(&mut db, STOPPED) < STOPPED.len() || !db.is_closed() {
        return Ok(None);
    }
    Ok(Some(open(alloc, db.into_site().crash(seed))?))
}

// By the change at which a commit stops, and by a seed: whether it is found.
const FOUND: [(u64, u64, bool); 4] = [(0, 0, false), (2, 1, false), (3, 0, true), (3, 1, false)];

#[test]
fn a_stop_closes_it(rt: HostRuntime) -> Result<(), Fail> {
    for (changes, seed, found) in FOUND {
        let rows = if found { BOTH } else { FIRST_ALONE };
        match reopened(rt.alloc(), changes, seed)? {
            Some(mut db) => assert_eq!(rt; play(&mut db, rows), rows.len()),
            None => assert!(rt; false),
        }
    }
    Ok(())
}

#[test]
fn a_stopped_restart_gives_the_site_back(rt: HostRuntime) -> Result<(), Fail> {
    let mut site = MemSite::new(rt.alloc(), &SIZES)?;
    site.fuse(2);
    match Database::open(rt.alloc(), site, 4) {
        Ok(_) => assert!(rt; false),
        Err(left) => {
            assert_eq!(rt; left.stop, Stop::Device(Dev::Log));
            let mut again = open(rt.alloc(), left.site.crash(0))?;
            assert_eq!(rt; play(&mut again, EACH_COMMAND), EACH_COMMAND.len());
        }
    }
    Ok(())
}
