// A test is a table of rows, which one function plays.
use lock_table::{Busy, LockTable};
use site::Stop;
use std::alloc::Global;
use std::test::Fail;

// A row of a test.
#[derive(Clone, Copy)]
enum Step {
    // A session reads or writes a record; it ends.
    Reads(u32, u32),
    Writes(u32, u32),
    Release(u32),
    // Whether a session, or none, may read or write a record.
    MayRead(Option<u32>, u32, Result<(), Busy>),
    MayWrite(Option<u32>, u32, Result<(), Busy>),
}

// Makes a call, and answers whether that is as the row says.
fn holds(locks: &mut LockTable, step: Step) -> Result<bool, Stop> {
    match step {
        Step::Reads(session, number) => {
            locks.add(session % 8, number, false)?;
            Ok(true)
        }
        Step::Writes(session, number) => {
            locks.add(session % 8, number, true)?;
            Ok(true)
        }
        Step::Release(session) => {
            locks.release(session);
            Ok(true)
        }
        Step::MayRead(session, number, answer) => Ok(locks.may_read(session, number) == answer),
        Step::MayWrite(session, number, answer) => Ok(locks.may_write(session, number) == answer),
    }
}

// Plays rows over a new table, and answers how many hold, up to the first one that doesn't.
fn play(alloc: Global, steps: &[Step]) -> Result<usize, Stop> {
    let mut locks = LockTable::new(alloc)?;
    for (row, step) in steps.iter().enumerate() {
        if !holds(&mut locks, *step)? {
            return Ok(row);
        }
    }
    Ok(steps.len())
}

// One session writes record 7; another may not read it until the first has released.
const WRITTEN: &[Step] = &[
    Step::Writes(0, 7),
    Step::MayRead(Some(1), 7, Err(Busy { holder: 0 })),
    Step::MayRead(Some(0), 7, Ok(())),
    Step::MayRead(Some(1), 8, Ok(())),
    Step::Release(0),
    Step::MayRead(Some(1), 7, Ok(())),
];

// Two sessions read record 9, so neither may write it. Once one of them has ended, the other may.
const READ_BY_TWO: &[Step] = &[
    Step::Reads(0, 9),
    Step::Reads(1, 9),
    Step::MayRead(None, 9, Ok(())),
    Step::MayWrite(Some(0), 9, Err(Busy { holder: 1 })),
    Step::MayWrite(Some(1), 9, Err(Busy { holder: 0 })),
    Step::MayWrite(None, 9, Err(Busy { holder: 0 })),
    Step::Release(1),
    Step::MayWrite(Some(0), 9, Ok(())),
];

// The tests by their names.
const TESTS: [(&str, &[Step]); 2] = [
    ("a_written_record_is_busy_until_it_is_released", WRITTEN),
    (
        "a_record_that_two_have_read_is_written_by_neither",
        READ_BY_TWO,
    ),
];

#[test]
fn steps_hold(rt: HostRuntime) -> Result<(), Fail> {
    for (name, rows) in TESTS {
        let held = play(rt.alloc(), rows)?;
        assert!(rt; held == rows.len(), "{name}: row {held}");
    }
    Ok(())
}
