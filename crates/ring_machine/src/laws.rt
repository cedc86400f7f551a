// What follows from the machine. The functions do nothing: each states its laws as clauses.
ghost use Rattle.ring_machine.specs.Laws.{RingOpsCompose, FirstIsFirst, OctetsAreSpelled, CommandsAgree, RestartsAgree};
ghost use Rattle.ring_machine.specs.Counts.{CommandsLogFew, FewAreEnough, RestartsLogFew};

/// Law: work adds up, and the first ring that is worn by some work is worn by its beginning, or by what follows.
pub fn ring_ops_compose()
    ensures works { RingOpsCompose }
    ensures first { FirstIsFirst }
{}

/// Law: the machine counts the octets of the records' spelling.
pub fn octets_are_spelled()
    ensures { OctetsAreSpelled }
{}

/// Law: its cache steps as the cache machine, by the touches and flushes of commands and of a restart.
pub fn machines_agree()
    ensures commands { CommandsAgree }
    ensures restart { RestartsAgree }
{}

/// Law: a machine gives few numbers. Where the rings have a block for each record, and the numbers of all master units
/// and groups, no ring is worn. A line logs no more records than the model counts, and a restart no more than undo may
/// take.
pub fn numbers_are_few()
    ensures few { FewAreEnough }
    ensures commands { CommandsLogFew }
    ensures restart { RestartsLogFew }
{}
