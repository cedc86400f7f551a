// Three logs, worked out.
ghost use Rattle.log_laws.specs.Rows.{OfTheLoser, OfTheSecondTry, OfTheStray};

/// A log with a transaction that a crash left half undone.
pub fn a_loser()
    ensures { OfTheLoser }
{}

/// A log with a transaction that undid a part of what it had written and wrote on.
pub fn a_second_try()
    ensures { OfTheSecondTry }
{}

/// A log that isn't orderly, though no record from the redo block on says so.
pub fn a_stray()
    ensures { OfTheStray }
{}
