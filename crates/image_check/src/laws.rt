// Laws on the rules, for the proofs of code above. They do nothing when called.
ghost use Rattle.image_check.specs.Laws.{SoundStands, StandingIsSound, OneReading, AReading, SoundFailsNone};
ghost use Rattle.image_check.specs.Laws.{JudgedStands, StandingIsJudged};

use checkpoint::one_master;

/// Devices are sound by all rules exactly where they stand for a table and a number of commits, and then they are read
/// as that.
pub fn sound_is_standing()
    ensures stands { SoundStands }
    ensures sound { StandingIsSound }
{}

/// Devices have at most one reading, and one where the first two rules hold; sound ones fail no rule.
pub fn one_reading()
    ensures one { OneReading }
    ensures some { AReading }
    ensures none { SoundFailsNone }
{
    one_master();
}

/// Devices are judged sound exactly where they stand for a table, with as many values and commits as they are judged to
/// have: a run opens them.
pub fn judged_stands()
    ensures stands { JudgedStands }
    ensures judged { StandingIsJudged }
{}
