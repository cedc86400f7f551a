// Laws on logs, for the proofs of code above; their lemmas stand in proofs/. They do nothing when called.
ghost use Rattle.log_store.specs.Laws.{FitsBeside, HoldsBeside};
ghost use Rattle.log_store.specs.Laws.{FullTail};

/// Law: a store fits and holds its log after calls that leave the units of the log's ring.
pub fn stays_beside()
    ensures fits { FitsBeside }
    ensures holds { HoldsBeside }
{}

/// Law: a tail that a record doesn't fit has records.
pub fn full_tail()
    ensures { FullTail }
{}
