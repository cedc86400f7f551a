// Laws on images.
ghost use Rattle.image_meaning.specs.Laws.{BlankStands, OneMeaningFor, OneMasterStands, NewestIsRead};
ghost use Rattle.image_meaning.specs.Laws.{ReadIsNewest, SealedIsSound, SealedWithoutCommit};
ghost use Rattle.image_meaning.specs.Laws.{SealedWithCommit, StagedIsSound, StagedMeans, PushedIsSound, PushedMeans};
ghost use Rattle.image_meaning.specs.Laws.{SegmentIsSound, SegmentMeans, ReplacedIsSound, ReplacedMeans};
ghost use Rattle.image_meaning.specs.Laws.{VersionReplaces};

/// Blank devices are sound and stand for the table without values, and for no commit.
pub fn blank_stands()
    ensures { BlankStands }
{}

/// So it does whatever its newest master is. There is one at most, which is the one that is read.
pub fn one_master_stands()
    ensures meaning { OneMeaningFor }
    ensures one { OneMasterStands }
    ensures read { NewestIsRead }
    ensures found { ReadIsNewest }
{}

/// Sealing a log block that goes on keeps an image sound. Without a Commit in the block it stands for the same; with
/// one, the writes of its transaction enter the table, which is one commit more.
pub fn sealed()
    ensures sound { SealedIsSound }
    ensures without { SealedWithoutCommit }
    ensures with { SealedWithCommit }
{}

/// Rewriting disk pages that have valid dirty frames keeps an image sound, and what it stands for, whatever octets
/// these pages have meanwhile.
pub fn staged()
    ensures sound { StagedIsSound }
    ensures means { StagedMeans }
{}

/// Appending a group keeps an image sound, and what it stands for, where no segment is due, each version that it brings
/// fits the log and has over it redone what the one before has, its clean frames equal the disk, and
/// the disk has what the group that leaves alone has.
pub fn pushed()
    ensures sound { PushedIsSound }
    ensures means { PushedMeans }
{}

/// Saving a segment that is due keeps an image sound, and what it stands for.
pub fn segment_saved()
    ensures sound { SegmentIsSound }
    ensures means { SegmentMeans }
{}

/// New versions of any pages keep an image sound, and what it stands for, where the octets are sound with them. The
/// version that a page has is one.
pub fn replaced()
    ensures sound { ReplacedIsSound }
    ensures means { ReplacedMeans }
    ensures itself { VersionReplaces }
{}
