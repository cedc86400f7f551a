// Lines about names over a site in memory. What is expected was worked out by hand. A test is a table of rows, which
// one function plays.
use database::{Database, Unanswered};
use mem_site::MemSite;
use named_keys::{Name, NameAnswer, NameReply, find, put, remove};
use record_model::{Octets, Reply, Why};
use site::{Dev, Geometry, Stop};
use std::alloc::Global;
use std::test::Fail;

// What is asked of the database.
#[derive(Clone, Copy)]
enum Line {
    Begin(u32),
    Write(u32, u32, u8),
    Commit(u32),
    Abort(u32),
    Set(u32, u8),
    Find(u32, &'static [u8]),
    Put(u32, &'static [u8], &'static [u8]),
    Remove(u32, &'static [u8]),
}

// What it answers.
#[derive(Clone, Copy)]
enum Told {
    Done,
    Found(&'static [u8]),
    Nothing,
    Strange(u32),
    NamesFull(u32),
    Committed(u64),
    Aborted,
    Busy(u32),
    // Its page has no room.
    PageFull(u32),
    Refused(Why),
    // It stops by its log.
    LogFails,
    Closed,
}

// The reply to a command.
fn is_reply(reply: &Reply, told: Told) -> bool {
    match (reply, told) {
        (Reply::Done, Told::Done) => true,
        (Reply::Committed(number), Told::Committed(wanted)) => *number == wanted,
        (Reply::Aborted, Told::Aborted) => true,
        (Reply::Busy(session), Told::Busy(wanted)) => *session == wanted,
        (Reply::PageFull { page, .. }, Told::PageFull(wanted)) => *page == wanted,
        (Reply::Refused(why), Told::Refused(wanted)) => *why == wanted,
        _ => false,
    }
}

// The answer to a line about a name.
fn is_answer(answer: &NameAnswer, told: Told) -> bool {
    match (answer, told) {
        (NameAnswer::Found(value), Told::Found(wanted)) => value.as_slice() == wanted,
        (NameAnswer::Nothing, Told::Nothing) => true,
        (NameAnswer::Done, Told::Done) => true,
        (NameAnswer::Strange(number), Told::Strange(wanted)) => *number == wanted,
        (NameAnswer::NamesFull(buckets), Told::NamesFull(wanted)) => *buckets == wanted,
        _ => false,
    }
}

fn is_name_reply(reply: &NameReply, told: Told) -> bool {
    match reply {
        NameReply::Answer(answer) => is_answer(answer, told),
        NameReply::Refused(refused) => is_reply(refused, told) && !matches!(told, Told::Done),
    }
}

fn is_unanswered(why: &Unanswered, told: Told) -> bool {
    match why {
        Unanswered::Closed => matches!(told, Told::Closed),
        Unanswered::Stopped(stop) => {
            matches!(told, Told::LogFails) && *stop == Stop::Device(Dev::Log)
        }
    }
}

// Whether the database answers a command so.
fn replies(answer: Result<Reply, Unanswered>, told: Told) -> bool {
    match answer {
        Ok(reply) => is_reply(&reply, told),
        Err(why) => is_unanswered(&why, told),
    }
}

fn names(answer: Result<NameReply, Unanswered>, told: Told) -> bool {
    match answer {
        Ok(reply) => is_name_reply(&reply, told),
        Err(why) => is_unanswered(&why, told),
    }
}

// Asks the database, and answers whether it answers so.
fn asks(db: &mut Database<MemSite>, line: Line, told: Told) -> Option<bool> {
    match line {
        Line::Begin(session) => Some(replies(db.begin(session), told)),
        Line::Write(session, number, octet) => {
            let value = Octets::from_slice(&[octet])?;
            Some(replies(db.write(session, number, &value), told))
        }
        Line::Commit(session) => Some(replies(db.commit(session), told)),
        Line::Abort(session) => Some(replies(db.abort(session), told)),
        Line::Set(number, octet) => {
            let value = Octets::from_slice(&[octet])?;
            Some(replies(db.set(number, &value), told))
        }
        Line::Find(session, name) => Some(names(find(db, session, &Name::new(name)?), told)),
        Line::Put(session, name, value) => {
            let value = Octets::from_slice(value)?;
            Some(names(put(db, session, &Name::new(name)?, &value), told))
        }
        Line::Remove(session, name) => Some(names(remove(db, session, &Name::new(name)?), told)),
    }
}

// Plays rows, and answers how many of them got the answers that are wanted, up to the first one that didn't.
fn play(db: &mut Database<MemSite>, rows: &[(Line, Told)]) -> usize {
    for (place, (line, told)) in rows.iter().enumerate() {
        if asks(db, *line, *told) != Some(true) {
            return place;
        }
    }
    rows.len()
}

// Opens a database of one page, so 16 buckets, on blank devices whose changes fail after so many.
fn make(alloc: Global, changes: u64) -> Result<Database<MemSite>, Stop> {
    let sizes = Geometry {
        pages: 1,
        groups: 8,
        blocks: 64,
    };
    let mut site = MemSite::new(alloc, &sizes)?;
    site.fuse(changes);
    match Database::open(alloc, site, 4) {
        Ok(db) => Ok(db),
        Err(left) => Err(left.stop),
    }
}

// Plays rows on a database of its own.
fn plays(alloc: Global, rows: &[(Line, Told)]) -> Result<usize, Stop> {
    let mut db = make(alloc, 1_000)?;
    Ok(play(&mut db, rows))
}

const ONE_NAME: &[(Line, Told)] = &[
    (Line::Begin(0), Told::Done),
    (Line::Put(0, b"ab", &[1]), Told::Done),
    (Line::Find(0, b"ab"), Told::Found(&[1])),
    (Line::Find(0, b"ac"), Told::Nothing),
    (Line::Put(0, b"ab", &[2]), Told::Done),
    (Line::Find(0, b"ab"), Told::Found(&[2])),
    (Line::Remove(0, b"ab"), Told::Done),
    (Line::Find(0, b"ab"), Told::Nothing),
    (Line::Remove(0, b"ab"), Told::Nothing),
    (Line::Commit(0), Told::Committed(1)),
];

#[test]
fn one_name(rt: HostRuntime) -> Result<(), Fail> {
    assert_eq!(rt; plays(rt.alloc(), ONE_NAME)?, ONE_NAME.len());
    Ok(())
}

const SEVENTEEN_NAMES: &[(Line, Told)] = &[
    (Line::Begin(0), Told::Done),
    (Line::Put(0, &[0], &[1]), Told::Done),
    (Line::Put(0, &[1], &[1]), Told::Done),
    (Line::Put(0, &[2], &[1]), Told::Done),
    (Line::Put(0, &[3], &[1]), Told::Done),
    (Line::Put(0, &[4], &[1]), Told::Done),
    (Line::Put(0, &[5], &[1]), Told::Done),
    (Line::Put(0, &[6], &[1]), Told::Done),
    (Line::Put(0, &[7], &[1]), Told::Done),
    (Line::Put(0, &[8], &[1]), Told::Done),
    (Line::Put(0, &[9], &[1]), Told::Done),
    (Line::Put(0, &[10], &[1]), Told::Done),
    (Line::Put(0, &[11], &[1]), Told::Done),
    (Line::Put(0, &[12], &[1]), Told::Done),
    (Line::Put(0, &[13], &[1]), Told::Done),
    (Line::Put(0, &[14], &[1]), Told::Done),
    (Line::Put(0, &[15], &[1]), Told::Done),
    (Line::Put(0, &[16], &[1]), Told::NamesFull(16)),
    (Line::Remove(0, &[0]), Told::Done),
    (Line::Put(0, &[16], &[2]), Told::Done),
    (Line::Find(0, &[16]), Told::Found(&[2])),
];

#[test]
fn seventeen_names(rt: HostRuntime) -> Result<(), Fail> {
    assert_eq!(rt; plays(rt.alloc(), SEVENTEEN_NAMES)?, SEVENTEEN_NAMES.len());
    Ok(())
}

const STRANGE: &[(Line, Told)] = &[
    (Line::Set(31, 5), Told::Committed(1)),
    (Line::Begin(0), Told::Done),
    (Line::Find(0, &[0]), Told::Strange(31)),
];

#[test]
fn a_strange_bucket(rt: HostRuntime) -> Result<(), Fail> {
    assert_eq!(rt; plays(rt.alloc(), STRANGE)?, STRANGE.len());
    Ok(())
}

const LONG: &[u8] = &[7; 101];

const SHORT: &[u8] = &[7; 100];

// Two sessions, and what refuses a line. The name ab has its home in record 18.
const REFUSALS: &[(Line, Told)] = &[
    (Line::Find(0, b"ab"), Told::Refused(Why::BadSession)),
    (Line::Put(8, b"ab", LONG), Told::Refused(Why::BadSession)),
    (Line::Begin(0), Told::Done),
    (Line::Begin(1), Told::Done),
    (Line::Put(0, b"ab", LONG), Told::Refused(Why::TooLong)),
    (Line::Put(0, b"ab", SHORT), Told::Done),
    (Line::Find(0, b"ab"), Told::Found(SHORT)),
    (Line::Find(1, b"ab"), Told::Busy(0)),
    (Line::Find(1, b"ac"), Told::Nothing),
    (Line::Remove(0, b"ac"), Told::Nothing),
    (Line::Put(0, b"ac", &[1]), Told::Busy(1)),
    (Line::Abort(0), Told::Aborted),
    (Line::Find(1, b"ab"), Told::Nothing),
    (Line::Put(1, b"ab", &[3]), Told::Done),
    (Line::Commit(1), Told::Committed(1)),
    (Line::Begin(0), Told::Done),
    (Line::Find(0, b"ab"), Told::Found(&[3])),
    (Line::Write(0, 18, 9), Told::Done),
    (Line::Remove(0, b"ab"), Told::Strange(18)),
    (Line::Abort(0), Told::Aborted),
];

#[test]
fn refusals(rt: HostRuntime) -> Result<(), Fail> {
    assert_eq!(rt; plays(rt.alloc(), REFUSALS)?, REFUSALS.len());
    Ok(())
}

const STOPPED: &[(Line, Told)] = &[
    (Line::Set(7, 1), Told::Committed(1)),
    (Line::Begin(0), Told::Done),
    (Line::Put(0, b"ab", &[1]), Told::Done),
    (Line::Commit(0), Told::LogFails),
    (Line::Find(0, b"ab"), Told::Closed),
    (Line::Put(0, b"ab", &[1]), Told::Closed),
    (Line::Put(0, b"ab", LONG), Told::Closed),
    (Line::Remove(0, b"ab"), Told::Closed),
];

// A start on blank devices asks for five changes, and so does a set.
#[test]
fn a_stop_closes_it(rt: HostRuntime) -> Result<(), Fail> {
    let mut db = make(rt.alloc(), 10)?;
    assert_eq!(rt; play(&mut db, STOPPED), STOPPED.len());
    Ok(())
}
