/// What a write that may still be taken back tells of its record.
#[derive(Clone, Copy, Debug, PartialEq, Eq)]
pub struct Footprint {
    /// The record's number.
    pub number: u32,
    /// How many octets stood there before the write, 0 for none.
    pub stood: u8,
    /// How many octets it wrote, 0 for none.
    pub written: u8,
}
