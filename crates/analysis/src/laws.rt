// Laws on what analysis knows, for the proofs of code above. They do nothing when called.
ghost use Rattle.analysis.specs.Laws.{OneTable, ActiveIsUnfinished, TableOfUnfinished, OwedOfUnfinished};
ghost use Rattle.analysis.specs.Taken.{StepsOn, TakenInOrder, TakenBegin, TakenEntries, TakenIsLoser, TakenCommits};
ghost use Rattle.analysis.specs.Taken.{TakenTable, TakenPending, AllAreTaken};

/// Records say of the active transactions one list: where each has its Begin among them, that of the unfinished ones.
pub fn table_of_records()
    ensures one { OneTable }
    ensures active { ActiveIsUnfinished }
    ensures unfinished { TableOfUnfinished }
    ensures owed { OwedOfUnfinished }
{}

/// The records that a restart takes of a sound log step without a refusal, in order, and each transaction that the
/// master names has its Begin among them.
pub fn sound_log_steps()
    ensures steps { StepsOn }
    ensures order { TakenInOrder }
    ensures begun { TakenBegin }
{}

/// What a restart takes says of a sound log which transactions are unfinished, with all their records, and how many
/// commits there are.
pub fn losers_are_taken()
    ensures entries { TakenEntries }
    ensures losers { TakenIsLoser }
    ensures commits { TakenCommits }
    ensures table { TakenTable }
    ensures pending { TakenPending }
    ensures all { AllAreTaken }
{}
