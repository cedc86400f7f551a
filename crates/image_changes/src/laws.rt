// Laws on lists of changes, for the proofs of code above; their lemmas stand in proofs/. They do nothing when called.
ghost use Rattle.image_changes.specs.Laws.{ChangesAddUp, RingKept, FrontsAddUp, AppendMakes, AppendDone};

/// Law: what two lists of changes lead to, one after the other, the one list behind the other leads to.
pub fn changes_add_up()
    ensures { ChangesAddUp }
{}

/// Law: a list of changes leaves the units of each ring that none of them appends to.
pub fn ring_kept()
    ensures { RingKept }
{}

/// Law: where a call leaves a front of its changes, made them all, and is followed by a call that leaves a front of its
/// own, the two together leave a front of both.
pub fn fronts_add_up()
    ensures { FrontsAddUp }
{}

/// Law: an append to one of the four rings of a quiet site leaves images that read as before, or that have one more
/// unit, and once it is done its image has.
pub fn append_makes()
    ensures moments { AppendMakes }
    ensures done { AppendDone }
{}
