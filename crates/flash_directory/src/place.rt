/// Where a frame stands.
#[derive(Clone, Copy, Debug, PartialEq, Eq)]
pub struct Place {
    /// The number of its group.
    pub group: u64,
    /// Its place in the group, from 0 on.
    pub index: u8,
}
