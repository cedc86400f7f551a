// Runs that were worked out by hand, after which the counts are as they should be. The functions do nothing: each
// states rows as clauses.
ghost use Rattle.policy_sim.specs.declared.policy.Policy.TheVariants.{Fifo, Group, Chance};
ghost use Rattle.policy_sim.specs.Rows.{OneReadFifo, OneReadGroup, OneReadChance, TwoReads};

/// A page that was read while it was in the queue is found there, and staged only where no second chance is given.
pub fn rows_of_one_read()
    ensures fifo { OneReadFifo }
    ensures group { OneReadGroup }
    ensures chance { OneReadChance }
{}

/// A page that is read twice is in the pool.
pub fn rows_of_two_reads()
    ensures fifo { TwoReads Fifo }
    ensures group { TwoReads Group }
    ensures chance { TwoReads Chance }
{}
