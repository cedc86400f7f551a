// A test is a table of rows, which one function plays.
use lsn_set::LsnSet;
use std::alloc::{AllocError, Global};
use std::test::Fail;

// A row of a test.
#[derive(Clone, Copy)]
enum Step {
    // An LSN is taken in, and out.
    Insert(u64),
    Remove(u64),
    // Whether one is held.
    Contains(u64, bool),
}

// Makes a call, and answers whether that is as the row says.
fn holds(lsns: &mut LsnSet, step: Step) -> Result<bool, AllocError> {
    match step {
        Step::Insert(lsn) => {
            lsns.insert(lsn)?;
            Ok(true)
        }
        Step::Remove(lsn) => {
            lsns.remove(lsn);
            Ok(true)
        }
        Step::Contains(lsn, held) => Ok(lsns.contains(lsn) == held),
    }
}

// Plays rows over an empty set, and answers how many hold, up to the first one that doesn't.
fn play(alloc: Global, steps: &[Step]) -> Result<usize, AllocError> {
    let mut lsns = LsnSet::new(alloc);
    for (row, step) in steps.iter().enumerate() {
        if !holds(&mut lsns, *step)? {
            return Ok(row);
        }
    }
    Ok(steps.len())
}

// Begins of one block and of the next, the last LSN of all, and one that is taken in twice.
const HELD: &[Step] = &[
    Step::Contains(2, false),
    Step::Insert(2),
    Step::Insert(3),
    Step::Insert(3),
    Step::Insert(66),
    Step::Insert(18446744073709551615),
    Step::Contains(2, true),
    Step::Contains(3, true),
    Step::Contains(4, false),
    Step::Contains(66, true),
    Step::Contains(130, false),
    Step::Contains(18446744073709551615, true),
    Step::Contains(18446744073709551614, false),
];

// One that is taken out leaves its neighbours; the last one of a row can be taken out and in again.
const TAKEN_OUT: &[Step] = &[
    Step::Insert(514),
    Step::Insert(515),
    Step::Remove(514),
    Step::Remove(516),
    Step::Contains(514, false),
    Step::Contains(515, true),
    Step::Remove(515),
    Step::Contains(515, false),
    Step::Insert(514),
    Step::Contains(514, true),
];

// The tests by their names.
const TESTS: [(&str, &[Step]); 2] = [
    ("an_lsn_is_held_once_it_is_taken_in", HELD),
    ("one_that_is_taken_out_leaves_its_neighbours", TAKEN_OUT),
];

#[test]
fn steps_hold(rt: HostRuntime) -> Result<(), Fail> {
    for (name, rows) in TESTS {
        let held = play(rt.alloc(), rows)?;
        assert!(rt; held == rows.len(), "{name}: row {held}");
    }
    Ok(())
}
