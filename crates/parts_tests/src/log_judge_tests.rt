// Logs judged record by record. What is expected was worked out by hand. A test is a row of a table, which one function
// plays.
ghost use Rattle.std.specs.Prelude.{◌≡◌};
ghost use Rattle.log_records.specs.Spelling.{HasForm};

use checkpoint::{Master, Pairs};
use log_judge::{Judge, Sizes};
use log_records::LogRecord;
use site::Stop;
use std::alloc::Global;
use std::test::Fail;

// A record, by its LSN: of a Begin; of an Update on a page, which had no value and still has none, with the transaction
// and its record before; of the compensation of such an Update, with that which is next; of a Commit, with the
// transaction and the number; of an End.
#[derive(Clone, Copy)]
enum Row {
    Begin(u64),
    Update(u64, u64, u64, u32),
    Clr(u64, u64, u64, u64),
    Commit(u64, u64, u64),
    End(u64, u64),
}

// What comes of a log: a record of it is refused, all of them together are, or none.
#[derive(Clone, Copy, PartialEq, Eq)]
enum Outcome {
    AtStart,
    At(usize),
    AtEnd,
    Kept,
}

// A log of 3 blocks of a table of 2 pages, with room for 16 blocks: by the master's redo block, its oldest kept one,
// its commits and a transaction that it names, with its last record, 0 for none.
#[derive(Clone, Copy)]
struct Log {
    redo: u64,
    kept: u64,
    commits: u64,
    named: (u64, u64),
    rows: &'static [Row],
}

fn record_of(row: Row) -> (u64, LogRecord)
    ensures { HasForm result.1 }
{
    match row {
        Row::Begin(lsn) => (lsn, LogRecord::Begin),
        Row::Update(lsn, txn, prev, page) => (
            lsn,
            LogRecord::Update {
                txn,
                prev,
                page,
                slot: 5,
                before: None,
                after: None,
            },
        ),
        Row::Clr(lsn, txn, prev, undo_next) => (
            lsn,
            LogRecord::Clr {
                txn,
                prev,
                undo_next,
                page: 0,
                slot: 5,
                after: None,
            },
        ),
        Row::Commit(lsn, txn, number) => (lsn, LogRecord::Commit { txn, number }),
        Row::End(lsn, txn) => (lsn, LogRecord::End { txn }),
    }
}

fn master_of(log: &Log) -> Master {
    let mut active = Pairs::new();
    if log.named.0 > 0 {
        active.push(log.named.0, log.named.1);
    }
    Master {
        redo: log.redo,
        kept: log.kept,
        commits: log.commits,
        active,
    }
}

// Hears the records up to the first that is refused, and answers how many were heard.
fn hear_all(judge: &mut Judge, master: &Master, rows: &[Row]) -> usize
    ensures { judge.new.sizes ≡ judge.old.sizes }
{
    for (place, row) in rows.iter().enumerate() {
        let (lsn, rec) = record_of(*row);
        if let Err(_) = judge.hear(master, lsn, &rec) {
            return place;
        }
    }
    rows.len()
}

fn outcome_of(alloc: Global, log: &Log) -> Outcome {
    let master = master_of(log);
    let sizes = Sizes {
        pages: 2,
        blocks: 16,
        hi: 3,
    };
    let mut judge = match Judge::start(alloc, &master, sizes) {
        Ok(judge) => judge,
        Err(_) => return Outcome::AtStart,
    };
    let heard = hear_all(&mut judge, &master, log.rows);
    if heard < log.rows.len() {
        return Outcome::At(heard);
    }
    if judge.is_sound(&master) {
        Outcome::Kept
    } else {
        Outcome::AtEnd
    }
}

// A transaction commits, and one is left with an Update that a CLR compensates.
const KEPT: &[Row] = &[
    Row::Begin(2),
    Row::Update(3, 2, 2, 1),
    Row::Commit(514, 2, 1),
    Row::Begin(600),
    Row::Update(1_026, 600, 600, 0),
    Row::Clr(1_060, 600, 1_026, 600),
];

// Each log breaks one rule: its name, the log, and where that is told.
const FIRST: [(&str, &[Row], Outcome); 9] = [
    ("all are kept", KEPT, Outcome::Kept),
    (
        "a page past the disk",
        &[Row::Begin(2), Row::Update(3, 2, 2, 2)],
        Outcome::At(1),
    ),
    (
        "a record without its Begin",
        &[Row::Begin(2), Row::Update(3, 1, 1, 0)],
        Outcome::At(1),
    ),
    (
        "a record behind its End",
        &[Row::Begin(2), Row::End(3, 2), Row::Update(514, 2, 3, 0)],
        Outcome::At(2),
    ),
    (
        "a commit number too far",
        &[
            Row::Begin(2),
            Row::Commit(3, 2, 1),
            Row::Begin(514),
            Row::Commit(515, 514, 3),
        ],
        Outcome::At(3),
    ),
    (
        "the first commit isn't one",
        &[Row::Begin(2), Row::Commit(3, 2, 2)],
        Outcome::AtEnd,
    ),
    (
        "four commits in three blocks",
        &[
            Row::Begin(2),
            Row::Commit(3, 2, 1),
            Row::Begin(20),
            Row::Commit(21, 20, 2),
            Row::Begin(514),
            Row::Commit(515, 514, 3),
            Row::Begin(1_026),
            Row::Commit(1_027, 1_026, 4),
        ],
        Outcome::Kept,
    ),
    (
        "an Update that doesn't name the one before it",
        &[
            Row::Begin(2),
            Row::Update(3, 2, 2, 0),
            Row::Update(514, 2, 2, 0),
        ],
        Outcome::AtEnd,
    ),
    (
        "a CLR of another Update",
        &[
            Row::Begin(2),
            Row::Update(3, 2, 2, 0),
            Row::Update(514, 2, 3, 0),
            Row::Clr(1_026, 2, 514, 2),
        ],
        Outcome::AtEnd,
    ),
];

// Such a break is none where the transaction is closed.
const CLOSED: &[Row] = &[
    Row::Begin(2),
    Row::Update(3, 2, 2, 0),
    Row::Update(514, 2, 2, 0),
    Row::Commit(600, 2, 1),
];

// Redo begins with block 1, before which transaction 2 is active with its last record at 30; commits go on at 2.
const LATER: &[Row] = &[
    Row::Begin(2),
    Row::Update(30, 2, 2, 0),
    Row::Update(514, 2, 30, 0),
    Row::Begin(600),
    Row::Commit(1_026, 600, 2),
];

// Behind 1,534 commits two more stand in block 2: 512 for each block; or one more still.
const MANY: &[Row] = &[
    Row::Begin(1_026),
    Row::Commit(1_027, 1_026, 1_535),
    Row::Begin(1_044),
    Row::Commit(1_045, 1_044, 1_536),
];

const TOO_MANY: &[Row] = &[
    Row::Begin(1_026),
    Row::Commit(1_027, 1_026, 1_535),
    Row::Begin(1_044),
    Row::Commit(1_045, 1_044, 1_536),
    Row::Begin(1_062),
    Row::Commit(1_063, 1_062, 1_537),
];

// What a master says of it, and where that is told.
const MASTERS: [(&str, Log, Outcome); 10] = [
    (
        "closed",
        Log {
            redo: 0,
            kept: 0,
            commits: 0,
            named: (0, 0),
            rows: CLOSED,
        },
        Outcome::Kept,
    ),
    (
        "as it is",
        Log {
            redo: 1,
            kept: 0,
            commits: 1,
            named: (2, 30),
            rows: LATER,
        },
        Outcome::Kept,
    ),
    (
        "another last record",
        Log {
            redo: 1,
            kept: 0,
            commits: 1,
            named: (2, 2),
            rows: LATER,
        },
        Outcome::At(2),
    ),
    (
        "another transaction",
        Log {
            redo: 1,
            kept: 0,
            commits: 1,
            named: (3, 30),
            rows: LATER,
        },
        Outcome::At(2),
    ),
    (
        "no transaction",
        Log {
            redo: 1,
            kept: 0,
            commits: 1,
            named: (0, 0),
            rows: LATER,
        },
        Outcome::At(2),
    ),
    (
        "fewer commits",
        Log {
            redo: 1,
            kept: 0,
            commits: 0,
            named: (2, 30),
            rows: LATER,
        },
        Outcome::AtEnd,
    ),
    (
        "512 commits for each block",
        Log {
            redo: 2,
            kept: 2,
            commits: 1_534,
            named: (0, 0),
            rows: MANY,
        },
        Outcome::Kept,
    ),
    (
        "a commit more than the blocks hold",
        Log {
            redo: 2,
            kept: 2,
            commits: 1_534,
            named: (0, 0),
            rows: TOO_MANY,
        },
        Outcome::AtEnd,
    ),
    (
        "redo before the kept block",
        Log {
            redo: 0,
            kept: 1,
            commits: 1,
            named: (2, 30),
            rows: LATER,
        },
        Outcome::AtStart,
    ),
    (
        "redo behind the end",
        Log {
            redo: 4,
            kept: 0,
            commits: 1,
            named: (2, 30),
            rows: LATER,
        },
        Outcome::AtStart,
    ),
];

#[test]
fn logs_are_judged(rt: HostRuntime) -> Result<(), Fail> {
    for (name, rows, wanted) in FIRST {
        let log = Log {
            redo: 0,
            kept: 0,
            commits: 0,
            named: (0, 0),
            rows,
        };
        assert!(rt; outcome_of(rt.alloc(), &log) == wanted, "{name}");
    }
    Ok(())
}

#[test]
fn masters_are_judged(rt: HostRuntime) -> Result<(), Fail> {
    for (name, log, wanted) in MASTERS {
        assert!(rt; outcome_of(rt.alloc(), &log) == wanted, "{name}");
    }
    Ok(())
}
