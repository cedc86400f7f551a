// A test is a table of rows, which one function plays.
ghost use Rattle.std.specs.Prelude.{ℕ, ◌%◌, OnOk};
ghost use Rattle.footprints.specs.Longest.{IsOnlyOf};

use footprints::{Footprint, Footprints};
use std::alloc::{AllocError, Global};
use std::test::Fail;

// A row of a test. Record n is written by session n % 8.
#[derive(Clone, Copy)]
enum Step {
    // A record is written where so many octets stood, with so many.
    Write(u32, u8, u8),
    // A session's last write is taken back; it ends.
    TakeBack(u32),
    End(u32),
    // Whether no record has a footprint.
    IsEmpty(bool),
    // The longest length on a record, where it has a footprint.
    Longest(u32, Option<usize>),
    // What a page needs, where each of its records has so many octets now, and a slot is to have so many.
    Need(u32, u8, u32, u8, u32),
}

// Makes a call, and answers whether that is as the row says.
fn holds(footprints: &mut Footprints, step: Step) -> Result<bool, AllocError>
    requires { (number : ℕ) → IsOnlyOf footprints.old (number % 8) number }
    ensures { OnOk result ((number : ℕ) → IsOnlyOf footprints.new (number % 8) number) }
{
    match step {
        Step::Write(number, stood, written) => {
            let footprint = Footprint {
                number,
                stood,
                written,
            };
            footprints.write(number % 8, footprint)?;
            Ok(true)
        }
        Step::TakeBack(session) => {
            footprints.take_back(session % 8);
            Ok(true)
        }
        Step::End(session) => {
            footprints.end(session % 8);
            Ok(true)
        }
        Step::IsEmpty(empty) => Ok(footprints.is_empty() == empty),
        Step::Longest(number, longest) => Ok(footprints.longest(number) == longest),
        Step::Need(page, now, slot, length, need) => {
            Ok(footprints.need(page % 65536, &[now; 32], slot % 32, length) == need)
        }
    }
}

// Plays rows where no session has a footprint, and answers how many hold, up to the first one that doesn't.
fn play(alloc: Global, steps: &[Step]) -> Result<usize, AllocError> {
    let mut footprints = Footprints::new(alloc);
    for (row, step) in steps.iter().enumerate() {
        if !holds(&mut footprints, *step)? {
            return Ok(row);
        }
    }
    Ok(steps.len())
}

// A record's value of ten octets is written over three times; what stood there and what was written count, and each
// write that is taken back leaves what counted before it.
const WRITTEN_OVER: &[Step] = &[
    Step::Longest(7, None),
    Step::IsEmpty(true),
    Step::Write(7, 10, 4),
    Step::IsEmpty(false),
    Step::Longest(7, Some(10)),
    Step::Write(7, 4, 30),
    Step::Longest(7, Some(30)),
    Step::Write(7, 30, 2),
    Step::Longest(7, Some(30)),
    Step::TakeBack(7),
    Step::Longest(7, Some(30)),
    Step::TakeBack(7),
    Step::Longest(7, Some(10)),
    Step::TakeBack(7),
    Step::Longest(7, None),
    Step::IsEmpty(true),
    Step::TakeBack(7),
    Step::Longest(7, None),
];

// A record without a value is erased: it has a footprint, of no length.
const ERASED: &[Step] = &[
    Step::Write(9, 0, 0),
    Step::Longest(9, Some(0)),
    Step::Need(0, 0, 0, 1, 1),
];

// A session ends, and the footprints of another one stay.
const TWO_SESSIONS: &[Step] = &[
    Step::Write(7, 0, 5),
    Step::Write(8, 200, 0),
    Step::Write(15, 1, 2),
    Step::Longest(15, Some(2)),
    Step::End(7),
    Step::Longest(7, None),
    Step::Longest(15, None),
    Step::Longest(8, Some(200)),
    Step::End(0),
    Step::Longest(8, None),
];

// Each record of a page counts once: by its footprint, or else by what it has, and in the slot that is written by the
// greater of that and the new value.
const NEEDS: &[Step] = &[
    Step::Need(0, 3, 5, 4, 97),
    Step::Write(7, 10, 4),
    Step::Need(0, 3, 5, 4, 104),
    Step::Need(0, 3, 7, 4, 103),
    Step::Need(0, 3, 7, 12, 105),
    Step::Write(33, 0, 200),
    Step::Need(0, 3, 5, 4, 104),
    Step::Need(1, 0, 0, 0, 200),
    Step::End(7),
    Step::Need(0, 3, 5, 4, 97),
    Step::Need(0, 200, 31, 200, 6400),
];

// The tests by their names.
const TESTS: [(&str, &[Step]); 4] = [
    ("what_stood_and_what_was_written_count", WRITTEN_OVER),
    ("an_erased_record_has_a_footprint", ERASED),
    ("a_session_ends_alone", TWO_SESSIONS),
    ("each_record_of_a_page_counts_once", NEEDS),
];

#[test]
fn steps_hold(rt: HostRuntime) -> Result<(), Fail> {
    for (name, rows) in TESTS {
        let held = play(rt.alloc(), rows)?;
        assert!(rt; held == rows.len(), "{name}: row {held}");
    }
    Ok(())
}
