// Laws on the numbers of the rings, the queue and the versions, for the proofs of code above; their lemmas stand in
// proofs/. They do nothing when called.
ghost use Rattle.engine.specs.Listings.{QueueIsOnFlash};
ghost use Rattle.engine.specs.Numbers.{RestCountsNothing};
ghost use Rattle.engine.specs.SeenVersions.{WhereItFits};

/// Law: where nothing is called, the rings have no numbers but those that the database knows of.
pub fn rest_counts_nothing()
    ensures { RestCountsNothing }
{}

/// Law: the frames on flash are those of the queue of the database's cache.
pub fn queue_is_on_flash()
    ensures { QueueIsOnFlash }
{}

/// Law: where the database stands for a state, each slot of the version of a page that the pool doesn't hold as changed
/// has what is seen of its record: by the session that has written it, or in the table where none has.
pub fn versions_are_seen()
    ensures { WhereItFits }
{}
