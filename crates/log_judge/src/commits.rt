// The numbers of the commits.
ghost use Rattle.std.specs.Prelude.{◌≡◌, ◌⊎◌, ◌↔◌, ◌+◌, ◌*◌, ◌^◌, ◌<◌, ◌≤◌, ◌++◌, ◌∷◌, [], List, length, IsTrue};
ghost use Rattle.log_records.specs.Log.{Entry};
ghost use Rattle.log_judge.specs.Counting.{Heard, NumbersAre, Counts, Fit};

use log_records::LogRecord;

/// Of the Commits heard so far: the number of the first one, and how many stand before the redo block and from it on.
#[derive(Clone, Copy, Debug, PartialEq, Eq, Drop)]
pub struct Numbers {
    pub first: u64,
    pub early: u64,
    pub late: u64,
}

impl Numbers {
    /// Before the first record.
    pub const NONE: Numbers = Numbers {
        first: 0,
        early: 0,
        late: 0,
    };

    // Whether a Commit with this number may come next.
    fn is_next(&self, number: u64) -> bool
        ensures { self.now.early + self.now.late < 2 ^ 62 → IsTrue result ↔ ((self.now.early + self.now.late ≡ 0)
            ⊎ (number ≡ self.now.first + (self.now.early + self.now.late))) }
    {
        let count = self.early.saturating_add(self.late);
        count == 0 || (self.first <= number && number - self.first == count)
    }

    // With one Commit more.
    fn with(&self, number: u64, early: bool) -> Numbers
        ensures { self.now.early + self.now.late < 2 ^ 62 → Counts self.now number early result }
    {
        let first = if self.early.saturating_add(self.late) == 0 {
            number
        } else {
            self.first
        };
        if early {
            Numbers {
                first,
                early: self.early.saturating_add(1),
                late: self.late,
            }
        } else {
            Numbers {
                first,
                early: self.early,
                late: self.late.saturating_add(1),
            }
        }
    }

    /// With the next record, `None` where the numbers don't run on.
    pub fn after(&self, lsn: u64, rec: &LogRecord, redo: u64) -> Option<Numbers>
        ensures { (records : List Entry) → length records < 2 ^ 62 → Heard redo self.now records
            → NumbersAre redo (records ++ record { lsn = lsn; rec = rec.now } ∷ []) result }
    {
        let LogRecord::Commit { number, .. } = rec else {
            return Some(*self);
        };
        if !self.is_next(*number) {
            return None;
        }
        Some(self.with(*number, lsn / 512 < redo))
    }

    /// Whether they run on from the master's count, and are no more than the octets of the sealed blocks.
    pub fn fit(&self, commits: u64, hi: u64) -> bool
        requires { hi ≤ 2 ^ 40 }
        ensures fit { self.now.early + self.now.late < 2 ^ 62
            → IsTrue result ↔ Fit self.now.first self.now.early self.now.late commits hi }
        ensures room { IsTrue result → commits + self.now.late ≤ 512 * hi }
    {
        let most = 512 * hi;
        if self.late > most || commits > most - self.late {
            return false;
        }
        let count = self.early.saturating_add(self.late);
        count == 0
            || (self.first <= commits + 1 && self.first.saturating_add(self.early) == commits + 1)
    }
}
