// Laws of groups and of lists of frames, for the proofs of code above. They do nothing when called.
ghost use Rattle.frame_group.specs.Laws.{ZerosHaveNoFrames};
ghost use Rattle.frame_group.specs.Laws.{NewVersion, OtherVersions, PushKeepsClean};
ghost use Rattle.frame_group.specs.Laws.{StagingKeepsVersions, StagingKeepsClean, DropKeepsVersion, DropKeepsClean};

/// A content of zeros is that of a group which has no frames yet.
pub fn no_frames()
    ensures { ZerosHaveNoFrames }
{}

/// A pushed group changes the versions of its pages alone, and clean frames equal the disk still where
/// its own do.
pub fn group_pushed()
    ensures new { NewVersion }
    ensures others { OtherVersions }
    ensures clean { PushKeepsClean }
{}

/// Writing disk pages that have frames changes no version, and clean frames equal the disk still where
/// their pages aren't written.
pub fn staged()
    ensures versions { StagingKeepsVersions }
    ensures clean { StagingKeepsClean }
{}

/// Dropping the front group doesn't change the version of a page, where clean frames equal the disk and
/// the disk has what its last frame has, if that is one of the group and dirty.
pub fn group_dropped()
    ensures version { DropKeepsVersion }
    ensures clean { DropKeepsClean }
{}
