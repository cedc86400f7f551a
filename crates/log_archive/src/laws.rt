// Laws on streams of blocks. They do nothing when called.
ghost use Rattle.log_archive.specs.Laws.{ArchivesJoin, FollowersAreAccepted, OneStream};
ghost use Rattle.std.specs.Prelude.{ℕ};
ghost use Rattle.log_archive.specs.Rows.{OfThreeBlocks, OfWrongBlocks};
ghost use Rattle.log_archive.specs.Values.{ArchiveIsTheLog, BlankAgrees, WholeArchiveIsTheLog};

/// Law: of streams by hand, which are accepted, and which tables they lead to.
pub fn streams_by_hand()
    ensures follow { OfThreeBlocks }
    ensures wrong { OfWrongBlocks }
{}

/// Law: archives one behind the other are one, where the second goes on from the stream behind the first.
pub fn archives_join()
    ensures { ArchivesJoin }
{}

/// Law: lines lead to one stream.
pub fn one_stream()
    ensures { OneStream }
{}

/// Law: blocks whose records follow are accepted as they are told, with their end line.
pub fn followers_are_accepted()
    ensures { FollowersAreAccepted }
{}

/// Law: an archive that goes on from the stream of a log leads to the table of that log with its blocks, after each
/// number of commits. A database that was never written has such a stream.
pub fn archive_is_the_log()
    ensures tables { ArchiveIsTheLog }
    ensures blank { (pages : ℕ) → BlankAgrees pages }
    ensures whole { WholeArchiveIsTheLog }
{}
