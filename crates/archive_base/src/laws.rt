// Laws on the stream behind a log. They do nothing when called.
ghost use Rattle.archive_base.specs.Laws.{BaseAgrees, BaseShows, HeardAreOpen};

/// Law: an archive goes on from a sound log where its stream stands; that has what shows, which is the table with what
/// the unfinished transactions have left.
pub fn base_agrees()
    ensures agrees { BaseAgrees }
    ensures shows { BaseShows }
{}

/// Law: what was heard of a sound log are its unfinished transactions.
pub fn heard_are_open()
    ensures { HeardAreOpen }
{}
