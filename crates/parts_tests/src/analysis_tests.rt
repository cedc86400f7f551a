// Logs read record by record. What is expected was worked out by hand. A test is a table of rows, which one function
// plays.
ghost use Rattle.std.specs.Prelude.{IfSome};
ghost use Rattle.analysis.specs.Open.{HasLeft};
ghost use Rattle.analysis.specs.Table.{listed};
ghost use Rattle.analysis.specs.Read.{Invariant};

use analysis::{Analysis, Loser};
use checkpoint::{Master, Pairs};
use log_records::LogRecord;
use site::Stop;
use std::test::Fail;

// A row of a test.
#[derive(Clone, Copy)]
enum Step {
    // A record that is read, by its LSN: of a Begin; of an Update of record 5, which had no value and still has none,
    // with the transaction and its record before; of the compensation of such an Update, with that which is next; of a
    // Commit, with the transaction and the number.
    Begin(u64),
    Update(u64, u64, u64),
    Clr(u64, u64, u64, u64),
    Commit(u64, u64, u64),
    // A Commit that is refused as foreign.
    Stray(u64, u64, u64),
    // This Update is to be undone next, of this transaction; or none.
    Next(u64, u64),
    Undone,
    // That Update is compensated by a record with this LSN; the End of a transaction comes.
    Compensate(u64),
    Finish(u64),
    // So many commits and losers are known.
    Counts(u64, usize),
    // A loser, or that this transaction is none.
    Loser(Loser),
    Gone(u64),
    // The analysis has ended.
    Ended,
}

// Reads a record.
fn read(analysis: &mut Analysis, step: Step) -> Result<(), Stop>
    requires { Invariant analysis.old }
    ensures { Invariant analysis.new }
{
    let (lsn, record) = match step {
        Step::Begin(lsn) => (lsn, LogRecord::Begin),
        Step::Update(lsn, txn, prev) => (
            lsn,
            LogRecord::Update {
                txn,
                prev,
                page: 0,
                slot: 5,
                before: None,
                after: None,
            },
        ),
        Step::Clr(lsn, txn, prev, undo_next) => (
            lsn,
            LogRecord::Clr {
                txn,
                prev,
                undo_next,
                page: 0,
                slot: 5,
                after: None,
            },
        ),
        Step::Commit(lsn, txn, number) | Step::Stray(lsn, txn, number) => {
            (lsn, LogRecord::Commit { txn, number })
        }
        _ => return Ok(()),
    };
    analysis.step(lsn, &record)
}

// The Update that is undone next, with its transaction.
fn next_of(analysis: &Analysis) -> Option<(u64, u64)>
    requires { Invariant analysis.now }
    ensures { IfSome result (λ next. HasLeft (listed analysis.now.table) next.0) }
{
    match analysis.order() {
        Ok(order) => {
            let mut updates = order;
            updates.take_last()
        }
        Err(_) => None,
    }
}

// Compensates the next Update.
fn compensate(analysis: &mut Analysis, last: u64)
    requires { Invariant analysis.old }
    ensures { Invariant analysis.new }
{
    if let Some((txn, lsn)) = next_of(analysis) {
        analysis.compensated(txn, lsn - lsn % 2, last);
    }
}

// Ends a loser.
fn finish(analysis: &mut Analysis, txn: u64)
    requires { Invariant analysis.old }
    ensures { Invariant analysis.new }
{
    if let Some(_) = analysis.loser(txn) {
        analysis.finished(txn);
    }
}

// Whether a row holds that only looks.
fn shows(analysis: &Analysis, step: Step) -> bool
    requires { Invariant analysis.now }
{
    match step {
        Step::Next(txn, lsn) => next_of(analysis) == Some((txn, lsn)),
        Step::Undone => next_of(analysis).is_none(),
        Step::Counts(commits, losers) => analysis.commits() == commits
            && analysis.losers() == losers,
        Step::Loser(loser) => analysis.loser(loser.txn) == Some(loser),
        Step::Gone(txn) => analysis.loser(txn).is_none(),
        Step::Ended => analysis.ended(),
        _ => true,
    }
}

// Makes a call, or looks, and answers whether that is as the row says.
fn holds(analysis: &mut Analysis, step: Step) -> bool
    requires { Invariant analysis.old }
    ensures { Invariant analysis.new }
{
    match step {
        Step::Compensate(last) => {
            compensate(analysis, last);
            true
        }
        Step::Finish(txn) => {
            finish(analysis, txn);
            true
        }
        Step::Stray(..) => read(analysis, step) == Err(Stop::Foreign),
        _ => read(analysis, step).is_ok() && shows(analysis, step),
    }
}

// Plays rows, and answers how many hold, up to the first one that doesn't.
fn play_on(first: Analysis, steps: &[Step]) -> usize
    requires { Invariant first }
{
    let mut analysis = first;
    for (row, step) in steps.iter().enumerate() {
        if !holds(&mut analysis, *step) {
            return row;
        }
    }
    steps.len()
}

// Plays rows over a log without a checkpoint.
fn play(rt: &HostRuntime, steps: &[Step]) -> Result<usize, Fail> {
    Ok(play_on(Analysis::start(rt.alloc(), &Master::blank())?, steps))
}

// Transaction 2 has an Update at 3 and one at 540. Between them transaction 514 begins, updates and commits.
const ONE: &[Step] = &[
    Step::Begin(2),
    Step::Update(3, 2, 2),
    Step::Begin(514),
    Step::Update(515, 514, 514),
    Step::Update(540, 2, 3),
    Step::Commit(600, 514, 1),
    Step::Counts(1, 1),
    Step::Next(2, 540),
];

// Transactions 2 and 3 have Updates at 4 and 60, and at 30. They are undone in descending order.
const DESCENDING: &[Step] = &[
    Step::Begin(2),
    Step::Begin(3),
    Step::Update(4, 2, 2),
    Step::Update(30, 3, 3),
    Step::Update(60, 2, 4),
    Step::Next(2, 60),
    Step::Compensate(512),
    Step::Next(3, 30),
    Step::Compensate(544),
    Step::Next(2, 4),
    Step::Compensate(576),
    Step::Undone,
    Step::Counts(0, 2),
];

// A master names transactions 514 and 600, with 7 commits before it.
const NAMED: [Step; 8] = [
    Step::Counts(7, 2),
    Step::Begin(514),
    Step::Begin(600),
    Step::Update(601, 600, 600),
    Step::Update(1_030, 514, 514),
    Step::Commit(1_600, 600, 8),
    Step::Counts(8, 1),
    Step::Next(514, 1_030),
];

#[test]
fn a_master_names_active_transactions(rt: HostRuntime) -> Result<(), Fail> {
    let mut active = Pairs::new();
    active.push(514, 1_030);
    active.push(600, 601);
    let master = Master {
        redo: 3,
        kept: 1,
        commits: 7,
        active,
    };
    assert!(rt; master.active.ascend());
    let analysis = Analysis::start(rt.alloc(), &master)?;
    assert!(rt; play_on(analysis, &NAMED) == NAMED.len());
    Ok(())
}

// A transaction with two Updates, of which the last one is compensated. Its End comes.
const LOSER: &[Step] = &[
    Step::Begin(2),
    Step::Update(3, 2, 2),
    Step::Update(30, 2, 3),
    Step::Clr(514, 2, 30, 3),
    Step::Loser(Loser {
        txn: 2,
        last: 514,
        remaining: 1,
    }),
    Step::Next(2, 3),
    Step::Finish(2),
    Step::Gone(2),
    Step::Counts(0, 0),
];

// A record of a transaction that isn't active ends the analysis, and changes nothing else.
const STRAY: &[Step] = &[
    Step::Begin(2),
    Step::Stray(3, 5, 1),
    Step::Ended,
    Step::Counts(0, 1),
];

// The tests by their names.
const TESTS: [(&str, &[Step]); 4] = [
    ("a_log_leaves_one_transaction", ONE),
    ("updates_are_undone_from_the_last_on", DESCENDING),
    ("a_loser_ends", LOSER),
    ("a_stray_record_is_foreign", STRAY),
];

#[test]
fn steps_hold(rt: HostRuntime) -> Result<(), Fail> {
    for (name, rows) in TESTS {
        let held = play(&rt, rows)?;
        assert!(rt; held == rows.len(), "{name}: row {held}");
    }
    Ok(())
}

// So many transactions begin.
fn begin_all(analysis: &mut Analysis, count: u64) -> Result<(), Stop>
    requires { Invariant analysis.old }
    ensures { Invariant analysis.new }
{
    for txn in 0..count {
        analysis.step(txn, &LogRecord::Begin)?;
    }
    Ok(())
}

// Each of them has one Update, all behind the last Begin.
fn update_all(analysis: &mut Analysis, count: u64) -> Result<(), Stop>
    requires { Invariant analysis.old }
    ensures { Invariant analysis.new }
{
    for txn in 0..count {
        read(analysis, Step::Update(count.saturating_add(txn), txn, txn))?;
    }
    Ok(())
}

// Ends them from the last one on, and answers how many Updates came in that order.
fn undo_each(analysis: &mut Analysis, count: u64) -> Result<u64, Stop>
    requires { Invariant analysis.old }
    ensures { Invariant analysis.new }
{
    let mut order = analysis.order()?;
    let mut falling = 0u64;
    for turn in 0..count {
        let wanted = count - 1 - turn;
        if order.take_last() == Some((wanted, count.saturating_add(wanted))) {
            falling = falling.saturating_add(1);
        }
        finish(analysis, wanted);
    }
    Ok(falling)
}

#[test]
fn many_transactions_are_undone_in_order(rt: HostRuntime) -> Result<(), Fail> {
    let mut analysis = Analysis::start(rt.alloc(), &Master::blank())?;
    begin_all(&mut analysis, 100_000)?;
    update_all(&mut analysis, 100_000)?;
    assert!(rt; analysis.losers() == 100_000);
    assert!(rt; undo_each(&mut analysis, 100_000)? == 100_000);
    assert!(rt; analysis.losers() == 0);
    Ok(())
}
