// Laws of master units, for the proofs of code above. They do nothing when called.
ghost use Rattle.checkpoint.specs.Laws.{OneMaster, UnitIsRead, OneNewest, BlankHasNone, AppendedIsNewest, KeptBeside};

/// A unit is that of at most one master, which its octets say, and devices have at most one newest master.
pub fn one_master()
    ensures unit { OneMaster }
    ensures read { UnitIsRead }
    ensures newest { OneNewest }
{}

/// Blank devices have the blank master, a unit that is appended is the newest one, and changes beside the master ring
/// leave the newest one.
pub fn stays_newest()
    ensures blank { BlankHasNone }
    ensures appended { AppendedIsNewest }
    ensures beside { KeptBeside }
{}
