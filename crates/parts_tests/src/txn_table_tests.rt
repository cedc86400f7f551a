// A test is a table of rows, which one function plays.
ghost use Rattle.std.specs.Prelude.{◌≡◌};

use txn_table::{Active, TxnTable};

// A row of a test.
#[derive(Clone, Copy)]
enum Step {
    // A session begins when so many log records had been made, each of them in a block of its own.
    Begin(u32, u32),
    // It writes, and this is its last record then.
    Wrote(u32, u64),
    // It sets its mark.
    Mark(u32),
    // So many of its writes are undone, and this is its last record then.
    Undone(u32, u64, u64),
    // It ends.
    End(u32),
    // Records are counted from the first one of the oldest session on.
    Count,
    // So many log records are owed, by so many sessions.
    Owed(u64, usize),
    // A session is active with this last record, and began after so many records; or it isn't.
    Has(u32, u64, u64),
    Absent(u32),
    // So many writes of a session stand, and its mark is behind so many.
    Counts(u32, u64, u64),
    // The session at this place.
    At(usize, u32),
    // How many records came before the oldest session, and its Begin; or there is none.
    Oldest(u64, u64),
    None,
}

fn begin(table: &mut TxnTable, session: u32, made: u32) -> bool {
    if session >= 8 || table.find(session).is_some() {
        return false;
    }
    let made = u64::from(made);
    table.add(Active {
        session,
        begin: 512 * made,
        last: 512 * made,
        born: made,
        writes: 0,
        mark: 0,
    });
    true
}

fn wrote(table: &mut TxnTable, session: u32, last: u64) -> bool {
    let Some(entry) = table.find(session) else {
        return false;
    };
    if entry.writes >= 1_000 {
        return false;
    }
    table.wrote(session, last);
    true
}

fn mark(table: &mut TxnTable, session: u32) -> bool {
    if table.find(session).is_none() {
        return false;
    }
    table.mark(session);
    true
}

fn undone(table: &mut TxnTable, session: u32, count: u64, last: u64) -> bool {
    let Some(entry) = table.find(session) else {
        return false;
    };
    if entry.writes < count {
        return false;
    }
    table.undone(session, count, last);
    true
}

fn end(table: &mut TxnTable, session: u32) -> bool {
    if table.find(session).is_none() {
        return false;
    }
    table.remove(session);
    true
}

fn count_from_oldest(table: &mut TxnTable) -> bool {
    match table.oldest_born() {
        Some(first) => {
            table.count_from(first);
            true
        }
        None => false,
    }
}

// Whether a session is active with this last record, and began after so many records.
fn has(table: &TxnTable, session: u32, last: u64, born: u64) -> bool {
    match table.find(session) {
        Some(entry) => entry.session == session && entry.last == last && entry.born == born,
        None => false,
    }
}

// Whether so many writes of a session stand, with its mark behind so many.
fn counts(table: &TxnTable, session: u32, writes: u64, mark: u64) -> bool {
    match table.find(session) {
        Some(entry) => entry.writes == writes && entry.mark == mark,
        None => false,
    }
}

// Makes a call, or looks, and answers whether that is as the row says.
fn holds(table: &mut TxnTable, step: Step) -> bool {
    match step {
        Step::Begin(session, made) => begin(table, session, made),
        Step::Wrote(session, last) => wrote(table, session, last),
        Step::Mark(session) => mark(table, session),
        Step::Undone(session, count, last) => undone(table, session, count, last),
        Step::Counts(session, writes, at) => counts(table, session, writes, at),
        Step::End(session) => end(table, session),
        Step::Count => count_from_oldest(table),
        Step::Owed(owed, len) => {
            table.owed() == owed && table.len() == len && table.is_empty() == (len == 0)
        }
        Step::Has(session, last, born) => has(table, session, last, born),
        Step::Absent(session) => table.find(session).is_none(),
        Step::At(place, session) => place < table.len() && table.at(place).session == session,
        Step::Oldest(born, begin) => {
            table.oldest_born() == Some(born) && table.oldest_begin() == Some(begin)
        }
        Step::None => table.oldest_born().is_none() && table.oldest_begin().is_none(),
    }
}

// Plays rows over a new table, and answers how many hold, up to the first one that doesn't.
fn play(steps: &[Step]) -> usize {
    let mut table = TxnTable::new();
    for (row, step) in steps.iter().enumerate() {
        if !holds(&mut table, *step) {
            return row;
        }
    }
    steps.len()
}

// One session begins and writes six times: with its end, seven log records are owed. Nothing is, once it has ended.
const SIX_WRITES: &[Step] = &[
    Step::Begin(0, 0),
    Step::Wrote(0, 512),
    Step::Wrote(0, 1024),
    Step::Wrote(0, 1536),
    Step::Wrote(0, 2048),
    Step::Wrote(0, 2560),
    Step::Wrote(0, 3072),
    Step::Owed(7, 1),
    Step::Has(0, 3072, 0),
    Step::Absent(1),
    Step::End(0),
    Step::Owed(0, 0),
    Step::None,
];

// Seven sessions begin in turn and owe a log record each. The first ends, and another begins behind the others.
const SEVEN_SESSIONS: &[Step] = &[
    Step::Begin(0, 0),
    Step::Begin(1, 1),
    Step::Begin(2, 2),
    Step::Begin(3, 3),
    Step::Begin(4, 4),
    Step::Begin(5, 5),
    Step::Begin(6, 6),
    Step::Owed(7, 7),
    Step::End(0),
    Step::Begin(7, 8),
    Step::Owed(7, 7),
    Step::Oldest(1, 512),
    Step::At(0, 1),
    Step::At(6, 7),
];

// Two sessions begin after three and five log records. Once records are counted from the first of them on, they began
// after none and two.
const COUNTED: &[Step] = &[
    Step::Begin(0, 3),
    Step::Begin(1, 5),
    Step::Count,
    Step::Has(0, 1536, 0),
    Step::Has(1, 2560, 2),
    Step::Oldest(0, 1536),
];

// Three writes, with the mark behind the second of them, and one of another session. The last one is undone: the mark
// stays. Then another one is: the mark falls with it, and a write behind it leaves it there.
const MARKED: &[Step] = &[
    Step::Begin(0, 0),
    Step::Begin(1, 1),
    Step::Wrote(0, 1024),
    Step::Counts(0, 1, 0),
    Step::Wrote(0, 1536),
    Step::Mark(0),
    Step::Wrote(0, 2048),
    Step::Wrote(1, 2560),
    Step::Counts(0, 3, 2),
    Step::Owed(6, 2),
    Step::Undone(0, 1, 3072),
    Step::Counts(0, 2, 2),
    Step::Has(0, 3072, 0),
    Step::Undone(0, 1, 3584),
    Step::Counts(0, 1, 1),
    Step::Has(0, 3584, 0),
    Step::Owed(4, 2),
    Step::Wrote(0, 4096),
    Step::Counts(0, 2, 1),
    Step::Has(0, 4096, 0),
    Step::Counts(1, 1, 0),
    Step::Has(1, 2560, 1),
];

// The tests by their names.
const TESTS: [(&str, &[Step]); 4] = [
    ("six_writes_owe_seven", SIX_WRITES),
    ("seven_sessions_owe_seven", SEVEN_SESSIONS),
    ("records_are_counted_from_the_oldest", COUNTED),
    ("undone_writes_lower_the_mark", MARKED),
];

#[test]
fn steps_hold(rt: HostRuntime) {
    for (name, rows) in TESTS {
        let held = play(rows);
        assert!(rt; held == rows.len(), "{name}: row {held}");
    }
}
