// Laws on what is judged, for the proofs of code above. They do nothing when called.
ghost use Rattle.log_judge.specs.Laws.{SoundIsJudged};

/// Law: a sound image keeps the rules that are judged.
pub fn sound_is_judged()
    ensures { SoundIsJudged }
{}
