// Laws on the groups and segments of an image, for the proofs of code above. They do nothing when called.
ghost use Rattle.tail_rebuild.specs.Laws.{StandsAgain, SegmentSaved, GroupPushed};

/// Law: segments follow the groups still in an image that reads the same, where a segment that is due is saved, and
/// where a group is pushed while none is due.
pub fn segments_follow()
    ensures again { StandsAgain }
    ensures saved { SegmentSaved }
    ensures pushed { GroupPushed }
{}
