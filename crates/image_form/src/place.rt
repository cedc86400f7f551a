// Where devices fail a rule.

/// Where devices fail a rule. Nothing is promised of the place but that it was looked at.
#[derive(Clone, Copy, Debug, PartialEq, Eq, Drop)]
pub enum Place {
    /// The lengths of the devices.
    Lengths,
    /// The ring of the masters.
    Masters,
    /// The ring of the log's blocks.
    Blocks,
    /// The ring of the groups of frames.
    Groups,
    /// The ring of the segments.
    Segments,
    /// The newest master.
    Master,
    /// The block of the log with this number.
    Block(u64),
    /// The group of frames with this number.
    Group(u64),
    /// The segment with this number.
    Segment(u64),
    /// The page with this number.
    Page(u32),
    /// The transaction whose Begin has this LSN.
    Transaction(u64),
}
