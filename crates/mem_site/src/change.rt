// What the history keeps of a change: what the change took away, so that the moment before it follows from the one
// after.
use site::Dev;

/// Octets of a device from a place on.
#[derive(Clone, Copy, Debug, PartialEq, Eq, Drop)]
pub struct Span {
    pub at: u64,
    pub len: u64,
}

#[derive(Drop)]
pub enum Change {
    /// A write at a place, and the octets that stood there before.
    Wrote(Dev, u64, Vec<u8>),
    /// A sync, and the ranges that were loose before.
    Synced(Dev, Vec<Span>),
    /// How many octets were told, and the rest of the piece.
    Told(usize, Vec<u8>),
}
