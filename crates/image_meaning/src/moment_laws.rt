// Laws on what a crash leaves of calls.
ghost use Rattle.image_meaning.specs.Moments.{FrontStandsFor, FrontStands};
ghost use Rattle.image_meaning.specs.Moments.{PushStands, CommitStands};

/// Calls of which a crash leaves the first ones of changes that may be made leave devices that stand for the same table
/// at each moment, as long as no Commit is sealed: under the same newest master where no master unit is appended.
pub fn calls_without_commit()
    ensures whole { FrontStandsFor }
    ensures under { FrontStands }
{}

/// So does a push.
pub fn whole_push()
    ensures { PushStands }
{}

/// Where the last of the changes seals a Commit, the devices stand for the table of before, or for the one with that
/// transaction's writes.
pub fn calls_with_commit()
    ensures { CommitStands }
{}
