// Laws on rings that the crates above use; their lemmas stand in proofs/.
ghost use Rattle.sealed_ring.specs.Laws.{UsableStays, HiIsHighest};
ghost use Rattle.sealed_ring.specs.Laws.{LiveCount, AppendsBehind, EndsOldest, BlankIsRing};

/// Law: a ring can be used after any calls on its site.
pub fn usable_stays()
    ensures { UsableStays }
{}

/// Law: a ring's `hi` is one more than the greatest number of a slot that counts, 0 if none does.
pub fn hi_is_highest()
    ensures { HiIsHighest }
{}

/// Law: which units live, and which live after one more.
pub fn appends()
    ensures count { LiveCount }
    ensures behind { AppendsBehind }
    ensures full { EndsOldest }
{}

/// Law: blank octets are a ring without units.
pub fn blank_is_ring()
    ensures { BlankIsRing }
{}
