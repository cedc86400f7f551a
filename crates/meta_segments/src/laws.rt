// Laws of segments, for the proofs of code above. They do nothing when called.
ghost use Rattle.meta_segments.specs.Laws.{HaveForm, OneSegment, NoneFollow, GroupFollows, SegmentFollows};

/// The heads of four groups can be written, and at most one list of heads is a segment's.
pub fn one_segment()
    ensures form { HaveForm }
    ensures one { OneSegment }
{}

/// Segments follow the groups still when a group is pushed before a segment is due, or a segment is
/// saved when it is.
pub fn segments_follow()
    ensures none { NoneFollow }
    ensures group { GroupFollows }
    ensures segment { SegmentFollows }
{}
